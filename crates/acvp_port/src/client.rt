//! One client of a port, or of the socket of orders: what it asks for comes, is served, and the answer goes out,
//! without anybody waiting for it.
ghost use Rattle.std.specs.Prelude.{◌≡◌, ◌≢◌, ◌↔◌, [], IfErr, IfOk, IsErr, IsOk, IsTrue, None, OnErr, Some};
ghost use Rattle.std.specs.Prelude.{option_copied, take, unwrap_or};
ghost use Rattle.std.specs.IoError.{error_kind};
ghost use Rattle.std.specs.Io.{ReadsAtMost};
ghost use Rattle.std.specs.Io.KnownBytes.{ReadConsumes};
ghost use Rattle.acvp_port.specs.Errand.{IsUnanswered, asked_of, bytes_asked};
ghost use Rattle.acvp_port.specs.Incoming.{bytes_of, bytes_left};
ghost use Rattle.acvp_port.specs.Stage.{bytes_coming, is_coming, is_ended};
ghost use Rattle.acvp_port.specs.declared.client.Stage.TheVariants.{Going};
ghost use Rattle.acvp_port.specs.Outgoing.{Takes, waiting};

use acvp_http::{HEAD_BYTES, needed_bytes};
use mio::net::{TcpStream, UnixStream};
use mio::{Interest, Poll, Token};
use std::alloc::Global;
use std::io::{self, Cursor, ErrorKind, Read, Write};
use std::net::Shutdown;

/// The most bytes of an order's line.
const LINE_BYTES: usize = 128;

/// The most bytes that are taken of a connection behind its reply.
const MOST_DROPPED: usize = 4194304;

/// How many bytes are read at once.
const CHUNK: usize = 8192;

/// The connection of a client.
#[derive(Drop)]
pub(crate) enum Wire {
    /// Of the port: a request comes.
    Request(TcpStream),

    /// Of the socket of orders: a line comes.
    Order(UnixStream),
}

impl Wire {
    fn read(&self, buf: &mut [u8]) -> Movement {
        match self {
            Wire::Request(stream) => {
                let mut reader = stream;
                moved(reader.read(buf))
            }
            Wire::Order(stream) => {
                let mut reader = stream;
                moved(reader.read(buf))
            }
        }
    }

    fn write(&self, bytes: &[u8]) -> Movement {
        match self {
            Wire::Request(stream) => {
                let mut writer = stream;
                moved(writer.write(bytes))
            }
            Wire::Order(stream) => {
                let mut writer = stream;
                moved(writer.write(bytes))
            }
        }
    }

    /// Ends this side, and says whether that could be done.
    fn end(&self) -> bool {
        match self {
            Wire::Request(stream) => stream.shutdown(Shutdown::Write).is_ok(),
            Wire::Order(stream) => stream.shutdown(Shutdown::Write).is_ok(),
        }
    }

    /// The most bytes that come before it is known how many are needed.
    fn most_unknown(&self) -> usize {
        match self {
            Wire::Request(_) => HEAD_BYTES,
            Wire::Order(_) => LINE_BYTES,
        }
    }

    /// How many bytes are needed, where those that came tell it. The last of them hold a line feed.
    fn needed(&self, bytes: &[u8]) -> Option<usize> {
        match self {
            Wire::Request(_) => needed_bytes(bytes),
            Wire::Order(_) => Some(bytes.len()),
        }
    }
}

/// How far a client is.
#[derive(Drop)]
enum Stage {
    /// These bytes of its request came, which needs so many where that is known yet.
    Coming(Vec<u8>, Option<usize>),

    /// These bytes of its reply go out, behind those that have gone.
    Going(Vec<u8>, usize),

    /// Its reply is out, and what still comes is dropped, after so many bytes.
    Ended(usize),
}

/// What is to be done with a client next.
#[derive(Clone, Copy, PartialEq, Eq)]
pub(crate) enum Next {
    /// More comes or goes when its socket is ready.
    Waits,

    /// Its request is whole, or all of it that comes.
    IsWhole,

    /// It is done with, or its connection is broken.
    IsGone,
}

/// A connection, and how far it is.
#[derive(Drop)]
pub(crate) struct Client {
    wire: Wire,
    stage: Stage,
}

/// What a read or a write came to.
enum Movement {
    Bytes(usize),

    /// None can be moved now.
    None,

    /// It was interrupted, and is to be tried again.
    Again,

    /// None can be moved any more.
    Failed,
}

fn moved(answer: io::Result<usize>) -> Movement {
    match answer {
        Ok(count) => Movement::Bytes(count),
        Err(error) => match error.kind() {
            ErrorKind::WouldBlock => Movement::None,
            ErrorKind::Interrupted => Movement::Again,
            _ => Movement::Failed,
        },
    }
}

/// Takes what comes of a request or an order, until it is whole.
fn take_more(wire: &Wire, bytes: &mut Vec<u8>, needed: &mut Option<usize>) -> Next {
    let mut chunk = [0; CHUNK];
    for _ in 0..u32::MAX {
        let most = needed.unwrap_or(wire.most_unknown());
        let room = most.saturating_sub(bytes.len()).min(CHUNK);
        if room == 0 {
            return Next::IsWhole;
        }
        match wire.read(&mut chunk[..room]) {
            Movement::Bytes(0) => return Next::IsWhole,
            Movement::Bytes(count) => {
                let part = &chunk[..count.min(CHUNK)];
                if bytes.extend_from_slice(part).is_err() {
                    return Next::IsGone;
                }
                // Only a line feed ends a head, or a line.
                if needed.is_none() && part.contains(&b'\n') {
                    *needed = wire.needed(bytes);
                }
            }
            Movement::Again => {}
            Movement::None => return Next::Waits,
            Movement::Failed => return Next::IsGone,
        }
    }
    Next::Waits
}

/// Lets more of a reply go. Says that it is whole where nothing of it is left.
fn let_go(wire: &Wire, reply: &[u8], gone: &mut usize) -> Next {
    for _ in 0..u32::MAX {
        let Some(rest) = reply.get(*gone..) else {
            return Next::IsWhole;
        };
        if rest.is_empty() {
            return Next::IsWhole;
        }
        match wire.write(rest) {
            Movement::Bytes(0) | Movement::Failed => return Next::IsGone,
            Movement::Bytes(count) => *gone = gone.saturating_add(count),
            Movement::Again => {}
            Movement::None => return Next::Waits,
        }
    }
    Next::Waits
}

/// Takes what still comes of a connection, and drops it.
fn drop_more(wire: &Wire, dropped: &mut usize) -> Next {
    let mut chunk = [0; CHUNK];
    for _ in 0..u32::MAX {
        match wire.read(&mut chunk) {
            Movement::Bytes(0) | Movement::Failed => return Next::IsGone,
            Movement::Bytes(count) => *dropped = dropped.saturating_add(count),
            Movement::Again => {}
            Movement::None => return Next::Waits,
        }
        if *dropped >= MOST_DROPPED {
            return Next::IsGone;
        }
    }
    Next::Waits
}

/// What came of a connection. Where it is broken, each read fails.
#[derive(Drop)]
pub enum Incoming {
    Bytes(Cursor<Vec<u8>>),
    Broken,
}

impl Read for Incoming {
    ghost remaining = { bytes_left };

    fn read(&mut self, buf: &mut [u8]) -> io::Result<usize>
        ensures bound { ReadsAtMost result buf.new }
        ensures bytes { ReadConsumes (bytes_left self.old) (bytes_left self.new) result buf.new }
        ensures came { bytes_of self.new ≡ bytes_of self.old }
        ensures fails { IsErr result ↔ (bytes_of self.old ≡ None) }
    {
        match self {
            Incoming::Bytes(bytes) => bytes.read(buf),
            Incoming::Broken => Err(ErrorKind::ConnectionReset.into()),
        }
    }
}

/// What came of a client at a stage.
fn came(alloc: Global, stage: Stage) -> Vec<u8>
    ensures { result.items ≡ bytes_coming stage }
{
    match stage {
        Stage::Coming(bytes, _needed) => bytes,
        Stage::Going(_reply, _gone) => Vec::new(alloc),
        Stage::Ended(_dropped) => Vec::new(alloc),
    }
}

/// Where an answer goes: to the client as far as it takes it at once, and the rest is kept.
#[derive(Drop)]
pub struct Outgoing {
    wire: Wire,
    rest: Vec<u8>,
}

impl Write for Outgoing {
    /// Takes as many of these bytes as the client does at once, or keeps them all.
    fn write(&mut self, buf: &[u8]) -> io::Result<usize>
        ensures taken { IfOk result (λ count. Takes self.old buf.now count self.new) }
        ensures memory { waiting self.old ≢ [] → IfErr result (λ error. error_kind error ≡ ErrorKind.OutOfMemory) }
        ensures err_waiting { OnErr result (waiting self.new ≡ waiting self.old) }
    {
        let Outgoing { wire, rest } = self;
        if rest.is_empty() {
            match wire.write(buf) {
                Movement::Bytes(count) => return Ok(count.min(buf.len())),
                Movement::Failed => return Err(ErrorKind::BrokenPipe.into()),
                Movement::None | Movement::Again => {}
            }
        }
        match rest.extend_from_slice(buf) {
            Ok(()) => Ok(buf.len()),
            Err(_) => Err(ErrorKind::OutOfMemory.into()),
        }
    }

    fn flush(&mut self) -> io::Result<()>
        ensures done { IsOk result }
        ensures waiting { waiting self.new ≡ waiting self.old }
    {
        Ok(())
    }
}

/// What a client asks for, and where the answer goes.
pub enum Errand {
    Request(Incoming, Outgoing),
    Order(Vec<u8>, Outgoing),
}

/// The same, where all that it asks for came, or its connection is broken.
fn errand_of(alloc: Global, wire: Wire, bytes: Vec<u8>, whole: bool) -> Errand
    ensures asked { bytes_asked result ≡ asked_of wire bytes.items whole }
    ensures unanswered { IsUnanswered result }
{
    let rest = Vec::new(alloc);
    match wire {
        Wire::Request(stream) => {
            let input = if whole {
                Incoming::Bytes(Cursor::new(bytes))
            } else {
                Incoming::Broken
            };
            let wire = Wire::Request(stream);
            Errand::Request(input, Outgoing { wire, rest })
        }
        Wire::Order(stream) => {
            let wire = Wire::Order(stream);
            Errand::Order(bytes, Outgoing { wire, rest })
        }
    }
}

impl Client {
    /// A client of which nothing came yet.
    pub(crate) fn new(alloc: Global, wire: Wire) -> Client
        ensures nothing { bytes_coming result.stage ≡ [] }
        ensures coming { IsTrue (is_coming result.stage) }
        ensures wire { result.wire ≡ wire }
    {
        Client {
            wire,
            stage: Stage::Coming(Vec::new(alloc), None),
        }
    }

    /// A client whose answer was written, but for what is kept of it.
    pub(crate) fn answered(output: Outgoing) -> Client
        ensures { result.stage ≡ Going output.rest 0 }
    {
        let Outgoing { wire, rest } = output;
        Client {
            wire,
            stage: Stage::Going(rest, 0),
        }
    }

    /// What a client asks for that is whole, or broken.
    pub(crate) fn into_errand(self, alloc: Global, whole: bool) -> Errand
        ensures asked { bytes_asked result ≡ asked_of self.wire (bytes_coming self.stage) whole }
        ensures unanswered { IsUnanswered result }
    {
        let Client { wire, stage } = self;
        errand_of(alloc, wire, came(alloc, stage), whole)
    }

    /// Has it told, as the one of a place, when more can be moved, and says whether that could be done. Where something
    /// can be by now, that is told too.
    pub(crate) fn watch(&mut self, poll: &Poll, place: usize) -> bool {
        let both = Interest::READABLE | Interest::WRITABLE;
        let registry = poll.registry();
        match &mut self.wire {
            Wire::Request(stream) => registry.register(stream, Token(place), both).is_ok(),
            Wire::Order(stream) => registry.register(stream, Token(place), both).is_ok(),
        }
    }

    /// Whether its answer is out.
    pub(crate) fn is_ended(&self) -> bool
        ensures { result ≡ is_ended self.now.stage }
    {
        matches!(self.stage, Stage::Ended(_))
    }

    /// Whether what it asks for still comes.
    pub(crate) fn is_coming(&self) -> bool
        ensures { result ≡ is_coming self.now.stage }
    {
        matches!(self.stage, Stage::Coming(_, _))
    }

    /// Moves what can be moved now, and says what is next. Once its answer is out, this side is ended first, and what
    /// still comes is taken: were the connection closed while bytes of it are unread, the system would reset it, and
    /// what the client hasn't read yet would be gone.
    pub(crate) fn advance(&mut self) -> Next {
        let Client { wire, stage } = self;
        let next = match stage {
            Stage::Coming(bytes, needed) => return take_more(wire, bytes, needed),
            Stage::Going(reply, gone) => let_go(wire, reply, gone),
            Stage::Ended(dropped) => return drop_more(wire, dropped),
        };
        if next != Next::IsWhole {
            return next;
        }
        if !wire.end() {
            return Next::IsGone;
        }
        let mut dropped = 0;
        let next = drop_more(wire, &mut dropped);
        self.stage = Stage::Ended(dropped);
        next
    }
}
