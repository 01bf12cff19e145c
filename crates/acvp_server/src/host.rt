//! The machine: its ports, and what it prints.
use crate::flags::Flags;
use crate::port::{LoggedPort, logged_port};
use crate::printing::print_line;
use acvp_commands::{Fault, Host, Message, Service};
use acvp_connections::Watch;
use std::alloc::{AllocGlobal, Global};
use std::fs::Files;
use std::net::Net;
use std::time::Clock;

/// The machine that the program runs on, the name of the database that is open, the flags of the command, what shows
/// how far a long read or write has come, and whether the command has said that it listens: from then on clients may be
/// served.
#[derive(Drop)]
pub(crate) struct Machine<'a, R> {
    pub rt: &'a R,
    pub database: &'a str,
    pub flags: Flags,
    pub watch: &'a Watch,
    pub has_listened: bool,
}

impl<'a, R: AllocGlobal + Clock + Eprint + Files + Net + Print> Host for Machine<'a, R> {
    ghost use Rattle.std.specs.Prelude.{⊤};

    type Port = LoggedPort<'a, R>;

    // No contract can say what the machine does.
    ghost hosting = { record {
      opens = λ _ _ _ _. ⊤;
      refuses = λ _ _ _ _. ⊤;
      prints = λ _ _ _. ⊤;
      fails = λ _ _ _ _. ⊤;
      finishes = λ _ _ _ _. ⊤;
    } };

    fn alloc(&self) -> Global {
        self.rt.alloc()
    }

    fn listen(&mut self, service: Service) -> Result<LoggedPort<'a, R>, Fault> {
        logged_port(self.rt, self.rt.alloc(), self.database, service, self.flags)
    }

    fn finish(&mut self, port: &mut LoggedPort<'a, R>) {
        port.listener.finish();
    }

    fn print(&mut self, message: Message) -> Result<(), Fault> {
        let listens = matches!(message, Message::Listening(_));
        print_line(self.rt, message)?;
        self.has_listened = self.has_listened || listens;
        Ok(())
    }
}
