//! What opens and closes databases, and what prepares them.

use acvp_commands::{Fault, Host, Message, Work};
use sqlite::{Alter, Connection};
use std::alloc::Global;

/// Why a database isn't opened.
#[derive(Clone, Copy)]
pub enum Unopened {
    /// Another process has it.
    Taken,

    /// It can't be opened.
    Failed(Fault),
}

/// The databases of a machine, by their names.
pub trait Databases {
    ghost use Rattle.std.specs.Prelude.{MatchResult, option_map, string_bytes};
    ghost use Rattle.acvp_commands.specs.Work.{IsWork};
    ghost use Rattle.acvp_opening.specs.Steps.{AnswerLost, Asked, Closed, LetGo, LogRemoved, LogSought, MomentRead};
    ghost use Rattle.acvp_opening.specs.Steps.{NotOpened, Opened, Step, Worked};

    /// A database that is open.
    type Open: Drop;

    /// What it is to do a step.
    ghost does: { Self → Step Self.Open → Self → Type 0 };

    /// Whether there is no log beside the file of a name.
    fn has_no_log(&mut self, name: &str) -> bool
        ensures { does self.old (LogSought name.now result) self.new };

    /// Opens the database of a name. One that isn't there is made if it may be. If not, that is a fault.
    fn open(&mut self, name: &str, may_be_made: bool) -> Result<Self::Open, Unopened>
        ensures { MatchResult result (λ opened. does self.old (Opened name.now may_be_made opened) self.new)
            (λ why. does self.old (NotOpened name.now may_be_made why) self.new) };

    /// Does the work over an open database, and says what came of it, and whether the database is to be closed even if
    /// the work isn't done.
    fn work(&mut self, opened: Self::Open, work: Work) -> (Self::Open, Result<Message, Fault>, bool)
        requires { IsWork work }
        ensures { does self.old (Worked opened work result.1 result.2 result.0) self.new };

    /// Copies what a database's log holds to its file, and gives the database up.
    fn close(&mut self, opened: Self::Open)
        ensures { does self.old (Closed opened) self.new };

    /// Gives a database up as it is.
    fn let_go(&mut self, opened: Self::Open)
        ensures { does self.old (LetGo opened) self.new };

    /// Takes away the log beside the file of a name, if it holds nothing.
    fn remove_log(&mut self, name: &str)
        ensures { does self.old (LogRemoved name.now) self.new };

    /// Sends a line to the server that has the database of a name, and gives its answer, if anybody answers.
    fn ask(&mut self, name: &str, line: &str) -> Result<Option<String>, Fault>
        ensures { MatchResult result
            (λ answer. does self.old (Asked name.now line.now (option_map string_bytes answer)) self.new)
            (λ fault. does self.old (AnswerLost name.now line.now fault) self.new) };

    fn alloc(&self) -> Global;

    /// Seconds since the beginning of 1970.
    fn moment(&mut self) -> u64
        ensures { does self.old (MomentRead result) self.new };
}

/// A machine that prepares a database for what is done with it.
pub trait Preparing: Host {
    ghost use Rattle.std.specs.Prelude.{◌≡◌, MatchResult};
    ghost use Rattle.acvp_opening.specs.Runs.{Preparation};

    /// What was put into a database.
    type Added: Drop;

    /// What it is to prepare a database, and to take out of it again what was put in.
    ghost preparation: { Preparation Self Self.Added };

    /// Prepares a database for what is to be done, and says what was put into it for that, if anything was.
    fn prepare<S: Alter + Drop>(
        &mut self,
        connection: Connection<S>,
        work: &Work,
    ) -> (Connection<S>, Result<Option<Self::Added>, Fault>)
        ensures { MatchResult result.1
            (λ added. preparation.prepares self.old self.new work.now connection result.0 added)
            (λ fault. preparation.refuses self.old self.new work.now connection result.0 fault) };

    /// Takes out of a database again what was put into it.
    fn take_back<S: Alter + Drop>(
        &mut self,
        connection: Connection<S>,
        added: Self::Added,
    ) -> Connection<S>
        ensures { preparation.takes_back self.old self.new added connection result };

    /// Whether it was said that a port is open: then clients may have been served.
    fn has_served(&self) -> bool
        ensures { result ≡ preparation.has_served self.now };
}
