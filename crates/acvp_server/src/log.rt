//! The log of what is served, a line each on standard error.
use crate::flags::Flags;
use acvp_causes::why_refused;
use acvp_commands::{Fault, Log, Message, moment_of};
use acvp_http::Told;
use acvp_log::Log as Lines;
use std::alloc::Global;
use std::fs::Files;
use std::time::Clock;

/// What writes the lines, the clock by which it tells how long something took, and the name of the database that is
/// served.
#[derive(Drop)]
pub(crate) struct LineLog<'a, R> {
    alloc: Global,
    rt: &'a R,
    database: &'a str,
    lines: Lines,
}

impl<'a, R> LineLog<'a, R> {
    /// The log, if one is asked for.
    pub(crate) fn asked_for(
        rt: &'a R,
        alloc: Global,
        database: &'a str,
        flags: Flags,
    ) -> Option<LineLog<'a, R>> {
        let form = flags.log?;
        Some(LineLog {
            alloc,
            rt,
            database,
            lines: Lines::new(alloc, form),
        })
    }
}

impl<'a, R: Clock + Eprint + Files> Log for LineLog<'a, R> {
    ghost use Rattle.std.specs.Prelude.{⊤};

    // No contract can say what is written to standard error.
    ghost tells = { λ _ _ _. ⊤ };

    fn begin(&mut self, moment: u64) {
        self.lines.begin(self.rt, moment);
    }

    fn begin_order(&mut self, line: &[u8]) {
        self.lines.begin_order(self.rt, moment_of(self.rt), line);
    }

    fn tell_request(&self, told: Option<Told>, sent: bool) {
        let (rt, alloc, database) = (self.rt, self.alloc, self.database);
        self.lines.tell_request(rt, alloc, database, told, sent);
    }

    fn tell_order(&self, outcome: Result<Message, Fault>) {
        let refused = outcome.err();
        let because = match refused {
            Some(Fault::Unavailable) => Some(why_refused(self.rt, self.alloc, self.database)),
            _ => None,
        };
        self.lines.tell_order(self.rt, refused, because);
    }
}
