//! Readers and writers that remember whether they have failed.
ghost use Rattle.std.specs.Prelude.{◌≡◌, ◌||◌, false};
ghost use Rattle.std.specs.Io.{ReadsAtMost, WritesAtMost};
ghost use Rattle.std.specs.Io.KnownBytes.{ReadConsumes, WriteAppends};
ghost use Rattle.std.specs.IoError.{error_kind};
ghost use Rattle.acvp_http.specs.Source.{InputStream, OutputStream, is_interruption, is_read_fault, is_write_fault};
ghost use Rattle.acvp_http.specs.Source.{flagged_inner, flagged_failed, flagged_reads, one_more};

use std::io::{self, ErrorKind, Read, Write};

/// What is read. A read that fails otherwise than by `Interrupted` is a fault.
pub trait Source {
    /// What it holds, whether it has failed, and how often it was read.
    ghost stream: { Self → InputStream };

    /// Reads some of the bytes, as `std::io::Read` does.
    fn read(&mut self, buf: &mut [u8]) -> io::Result<usize>
        ensures bound { ReadsAtMost result buf.new }
        ensures bytes { ReadConsumes (stream self.old).held (stream self.new).held result buf.new }
        ensures flag { (stream self.new).failed ≡ ((stream self.old).failed || is_read_fault result) }
        ensures count { (stream self.new).reads ≡ one_more (stream self.old).reads };

    /// How many reads were asked for, those that failed or were interrupted among them. The count stops at `u64::MAX`.
    fn reads(&self) -> u64
        ensures { result ≡ (stream self.now).reads };
}

/// What is written to. An error, and a write of some bytes that takes none of them, is a fault.
pub trait Sink {
    /// What was written, and whether it has failed.
    ghost stream: { Self → OutputStream };

    /// Writes some of the bytes, as `std::io::Write` does.
    fn write(&mut self, buf: &[u8]) -> io::Result<usize>
        ensures bound { WritesAtMost result buf.now }
        ensures bytes { WriteAppends (stream self.old).contents (stream self.new).contents result buf.now }
        ensures flag { (stream self.new).failed ≡ ((stream self.old).failed || is_write_fault result buf.now) };
}

/// Why no byte more is read.
#[derive(Clone, Copy)]
pub(crate) enum ReadFault {
    /// A read has failed.
    Failed,

    /// The reader was read as often as it may be.
    TooOften,
}

/// That a write has failed.
#[derive(Clone, Copy)]
pub(crate) struct WriteFault;

/// A reader or a writer of `std`, whether it has failed, and how often it was read.
#[derive(Drop)]
pub struct Flagged<T> {
    inner: T,
    failed: bool,
    reads: u64,
}

impl<T> Flagged<T> {
    /// It hasn't failed yet, and wasn't read.
    pub fn new(inner: T) -> Flagged<T>
        ensures inner { flagged_inner result ≡ inner }
        ensures clear { flagged_failed result ≡ false }
        ensures unread { flagged_reads result ≡ 0 }
    {
        Flagged {
            inner,
            failed: false,
            reads: 0,
        }
    }

    pub fn failed(&self) -> bool
        ensures { result ≡ flagged_failed self.now }
    {
        self.failed
    }

    pub fn into_inner(self) -> T
        ensures { result ≡ flagged_inner self }
    {
        let Flagged {
            inner,
            failed: _,
            reads: _,
        } = self;
        inner
    }
}

pub(crate) fn is_interrupted(error: &io::Error) -> bool
    ensures { result ≡ is_interruption (error_kind error.now) }
{
    matches!(error.kind(), ErrorKind::Interrupted)
}

fn is_read_failure(answer: &io::Result<usize>) -> bool
    ensures { result ≡ is_read_fault answer.now }
{
    match answer {
        Ok(_) => false,
        Err(error) => !is_interrupted(error),
    }
}

fn is_write_failure(answer: &io::Result<usize>, buf: &[u8]) -> bool
    ensures { result ≡ is_write_fault answer.now buf.now }
{
    match answer {
        Ok(count) => *count == 0 && !buf.is_empty(),
        Err(_) => true,
    }
}

impl<R: Read> Source for Flagged<R> {
    ghost stream = { λ reader. record {
      held = R.remaining reader.inner;
      failed = reader.failed;
      reads = reader.reads;
    } };

    fn read(&mut self, buf: &mut [u8]) -> io::Result<usize> {
        let Flagged {
            inner,
            failed,
            reads,
        } = self;
        let answer = inner.read(buf);
        *failed = *failed || is_read_failure(&answer);
        *reads = reads.saturating_add(1);
        answer
    }

    fn reads(&self) -> u64 {
        self.reads
    }
}

impl<W: Write> Sink for Flagged<W> {
    ghost stream = { λ writer. record { contents = W.contents writer.inner; failed = writer.failed } };

    fn write(&mut self, buf: &[u8]) -> io::Result<usize> {
        let Flagged {
            inner,
            failed,
            reads: _,
        } = self;
        let answer = inner.write(buf);
        *failed = *failed || is_write_failure(&answer, buf);
        answer
    }
}
