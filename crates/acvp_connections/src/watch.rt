//! How far a command has come with a large file, as it is told on a terminal.
use std::alloc::{AllocGlobal, Global};
use std::cell::Cell;
use std::fs;
use std::io::{Eprint, IsTerminal, Stderr};
use std::rc::Rc;

/// The bytes of a megabyte.
pub const MEGABYTE: u64 = 1000000;

/// The bytes from which on a file takes long.
const LARGE: u64 = 100 * MEGABYTE;

/// After how many bytes it is told again how far a command has come.
const STEP: u64 = 16 * MEGABYTE;

/// How often an open reads each page of the file at most. A page that is free is read once.
const OFTEN_OPENED: u64 = 3;

/// How often each page of the file is read or written at most, if all records are moved: four reads, and up to two
/// writes of the checkpoint.
const OFTEN_MOVED: u64 = 6;

/// Whether something is told of a file of so many bytes: it takes long, and somebody may look on.
pub fn is_told(rt: &HostRuntime, bytes: u64) -> bool {
    bytes >= LARGE && rt.stderr().is_terminal()
}

/// How many bytes of a file a command has read and written, and of up to how many.
#[derive(Drop)]
struct Counter {
    stderr: Stderr,
    file: u64,
    word: Cell<&'static str>,
    all: Cell<u64>,
    done: Cell<u64>,
}

impl Counter {
    /// Says how far the command has come, in a line that is written over.
    fn tell(&self) {
        let (word, done, all) = (self.word.get(), self.done.get(), self.all.get());
        let (done, all) = (done / MEGABYTE, all / MEGABYTE);
        let _ = self
            .stderr
            .eprint(format_args!("\r{word} {done} of up to {all} MB "));
    }

    /// So many bytes more. If they are more than was reckoned, all of these are done.
    fn add(&self, bytes: u64) {
        let (before, all) = (self.done.get(), self.all.get());
        let done = before.saturating_add(bytes).min(all);
        self.done.set(done);
        if before / STEP != done / STEP {
            self.tell();
        }
    }

    /// From now on it is told how many bytes are read or written, if each page is so often.
    fn begin(&self, word: &'static str, often: u64) {
        self.word.set(word);
        self.all.set(self.file.saturating_mul(often));
        self.done.set(0);
    }

    /// Ends the line, if there is one. What is read or written from now on isn't told.
    fn end(&self) {
        if self.done.get() >= STEP {
            let _ = self.stderr.eprintln("");
        }
        self.all.set(0);
        self.done.set(0);
    }
}

/// Who looks on while a large database is opened, or its records are moved, if anybody does.
#[derive(Drop)]
pub struct Watch {
    counter: Option<Rc<Counter, Global>>,
}

impl Watch {
    /// Nobody looks on.
    pub(crate) fn nobody() -> Watch {
        Watch { counter: None }
    }

    /// Whoever is at the terminal, if the database at a path is large.
    pub fn of(rt: &HostRuntime, path: &str) -> Watch {
        let file = match fs::metadata(rt, path) {
            Ok(there) => there.len(),
            Err(_) => 0,
        };
        if !is_told(rt, file) {
            return Watch::nobody();
        }
        let counter = Counter {
            stderr: rt.stderr(),
            file,
            word: Cell::new(""),
            all: Cell::new(0),
            done: Cell::new(0),
        };
        Watch {
            counter: Rc::new(rt.alloc(), counter).ok(),
        }
    }

    /// The same, for the file.
    pub(crate) fn shared(&self) -> Watch {
        match &self.counter {
            Some(counter) => Watch {
                counter: counter.clone().ok(),
            },
            None => Watch::nobody(),
        }
    }

    /// So many bytes are read or written.
    pub(crate) fn add(&self, bytes: usize) {
        if let Some(counter) = &self.counter {
            counter.add(bytes as u64);
        }
    }

    /// From now on it is told how far an open has come.
    pub(crate) fn begin_open(&self) {
        if let Some(counter) = &self.counter {
            counter.begin("read", OFTEN_OPENED);
        }
    }

    /// From now on it is told how far a move of all records has come.
    pub fn begin_move(&self) {
        if let Some(counter) = &self.counter {
            counter.begin("moved", OFTEN_MOVED);
        }
    }

    /// Nothing more is told.
    pub fn end(&self) {
        if let Some(counter) = &self.counter {
            counter.end();
        }
    }
}
