//! Readers and writers in memory that fail.

use std::io::{self, ErrorKind, Read, Write};

/// Gives a byte at a time, and fails once, before the byte at this place.
#[derive(Drop)]
pub(crate) struct FailsOnce<'a> {
    pub bytes: &'a [u8],
    pub place: usize,
    pub fault: Option<ErrorKind>,
}

impl Read for FailsOnce<'_> {
    fn read(&mut self, buf: &mut [u8]) -> io::Result<usize> {
        if self.place == 0
            && let Some(kind) = self.fault.take()
        {
            return Err(io::Error::from(kind));
        }
        match (self.bytes.split_first(), buf.first_mut()) {
            (Some((first, rest)), Some(slot)) => {
                *slot = *first;
                self.bytes = rest;
                self.place = self.place.saturating_sub(1);
                Ok(1)
            }
            _ => Ok(0),
        }
    }
}

/// Takes a byte at a time, and fails once it holds so many.
#[derive(Drop)]
pub(crate) struct Narrow {
    pub held: Vec<u8>,
    pub room: usize,
}

impl Write for Narrow {
    fn write(&mut self, buf: &[u8]) -> io::Result<usize> {
        match buf.first() {
            None => Ok(0),
            Some(_) if self.held.len() >= self.room => Err(io::Error::from(ErrorKind::BrokenPipe)),
            Some(byte) => {
                self.held.push(*byte)?;
                Ok(1)
            }
        }
    }

    fn flush(&mut self) -> io::Result<()> {
        Ok(())
    }
}

/// Is interrupted at each read.
#[derive(Drop)]
pub(crate) struct Interrupted;

impl Read for Interrupted {
    fn read(&mut self, _: &mut [u8]) -> io::Result<usize> {
        Err(io::Error::from(ErrorKind::Interrupted))
    }
}
