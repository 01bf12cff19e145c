//! The port of this machine, as what is served takes connections and orders from it.
use crate::flags::Flags;
use crate::log::LineLog;
use acvp_commands::{Arrival, Fault, Listener, Logged, Message, Service, Taken};
use acvp_http::{Flagged, Told};
use acvp_port::{Errand, Incoming, Outgoing, Port, port_on};
use std::alloc::{AllocError, Global};
use std::fs::Files;
use std::io::Write;
use std::net::Net;
use std::time::{Clock, SystemTime};

/// A port of this machine and the socket of orders beside a database, and the clock that says when a request is handed
/// on.
#[derive(Drop)]
pub(crate) struct MachinePort<'a, R> {
    alloc: Global,
    rt: &'a R,
    port: Port<'a, R>,
}

/// The port, of which a log is kept if one is asked for.
pub(crate) type LoggedPort<'a, R> = Logged<MachinePort<'a, R>, LineLog<'a, R>>;

/// The port that is to be served, and the socket beside a database.
pub(crate) fn logged_port<'a, R: Clock + Files + Net>(
    rt: &'a R,
    alloc: Global,
    database: &'a str,
    service: Service,
    flags: Flags,
) -> Result<LoggedPort<'a, R>, Fault> {
    let log = LineLog::asked_for(rt, alloc, database, flags);
    let Service { port, patience, .. } = service;
    match port_on(rt, alloc, database, port, patience, flags.warns) {
        Ok(port) => Ok(Logged {
            listener: MachinePort { alloc, rt, port },
            log,
        }),
        Err(error) => Err(Fault::Bind.of_system(&error)),
    }
}

impl<'a, R: Clock + Eprint + Files> MachinePort<'a, R> {
    /// Lets the answers that are under way go out, as long as their clients take them. Nothing is taken any more.
    pub(crate) fn finish(&mut self) {
        self.port.finish();
    }
}

/// The text of what came of an order, with its line feed: what its command prints.
fn outcome_text(alloc: Global, outcome: Result<Message, Fault>) -> Result<String, AllocError> {
    match outcome {
        Ok(message) => {
            let text = message.text(alloc)?;
            format!(in alloc; "{text}\n")
        }
        Err(fault) => format!(in alloc; "fault: {fault}\n"),
    }
}

impl<'a, R: Clock + Eprint + Files> Listener for MachinePort<'a, R> {
    ghost use Rattle.std.specs.Prelude.{⊤};

    type Input = Flagged<Incoming>;

    type Output = Flagged<Outgoing>;

    type Asker = Outgoing;

    // No contract can say what a socket gives or takes.
    ghost listening = { record {
      takes = λ _ _ _. ⊤;
      stops = λ _ _. ⊤;
      ends = λ _ _ _ _ _ _. ⊤;
      tells = λ _ _ _ _. ⊤;
    } };

    fn accept(&mut self) -> Result<Arrival<Flagged<Incoming>, Flagged<Outgoing>, Outgoing>, Fault> {
        match self.port.next() {
            Some(Errand::Request(input, output)) => Ok(Arrival::Connection(Taken {
                input: Flagged::new(input),
                output: Flagged::new(output),
                now: SystemTime::now(self.rt),
            })),
            Some(Errand::Order(line, output)) => Ok(Arrival::Order(line, output)),
            None => Err(Fault::Accept),
        }
    }

    fn end(
        &mut self,
        _: Flagged<Incoming>,
        output: Flagged<Outgoing>,
        sent: bool,
        _: Option<Told>,
    ) {
        if sent {
            self.port.let_out(output.into_inner());
        }
    }

    fn tell(&mut self, asker: Outgoing, outcome: Result<Message, Fault>) {
        let mut output = asker;
        if let Ok(text) = outcome_text(self.alloc, outcome)
            && output.write_all(text.as_bytes()).is_ok()
        {
            self.port.let_out(output);
        }
    }
}
