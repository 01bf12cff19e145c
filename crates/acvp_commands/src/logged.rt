//! A listener of which a log is kept. What is served through it is what is served of the listener itself.
use crate::fault::Fault;
use crate::lines::Message;
use crate::serving::{Arrival, Listener, Taken, seconds_of};
use acvp_http::Told;

/// What writes down what is served. It sees everything, and changes nothing.
pub trait Log {
    ghost use Rattle.std.specs.Prelude.{Bool, Option};
    ghost use Rattle.acvp_http.specs.declared.told.Told.{Told};

    /// That this is written down of a connection that has ended. No contract can say what a log holds, so only a call
    /// of `tell_request` shows it.
    ghost tells: { Self → Option Told → Bool → Type 0 };

    /// A connection is handed on, at this moment.
    fn begin(&mut self, moment: u64);

    /// A line that is to be an order is handed on.
    fn begin_order(&mut self, line: &[u8]);

    /// A connection has ended, whose whole reply is sent or not. This is told of its request; nothing if it wasn't
    /// handled.
    fn tell_request(&self, told: Option<Told>, sent: bool)
        ensures { tells self.now told sent };

    /// Who gave an order is told what came of it.
    fn tell_order(&self, outcome: Result<Message, Fault>);
}

/// A listener, and the log that is kept of it, if one is.
#[derive(Drop)]
pub struct Logged<L, D> {
    pub listener: L,
    pub log: Option<D>,
}

/// Writes down that something has arrived.
fn note<I, O, A, D: Log>(log: &mut D, arrival: &Arrival<I, O, A>) {
    match arrival {
        Arrival::Connection(Taken { now, .. }) => log.begin(seconds_of(now)),
        Arrival::Order(line, _) => log.begin_order(line),
    }
}

impl<L: Listener, D: Log> Listener for Logged<L, D> {
    ghost use Rattle.std.specs.Prelude.{IfSome};

    type Input = L::Input;

    type Output = L::Output;

    type Asker = L::Asker;

    ghost listening = { record {
      takes = λ old new arrival. L.listening.takes old.listener new.listener arrival;
      stops = λ old new. L.listening.stops old.listener new.listener;
      ends = λ old new input output sent told. IfSome old.log (λ log. D.tells log told sent)
          × L.listening.ends old.listener new.listener input output sent told;
      tells = λ old new asker outcome. L.listening.tells old.listener new.listener asker outcome;
    } };

    fn accept(&mut self) -> Result<Arrival<L::Input, L::Output, L::Asker>, Fault> {
        let arrival = self.listener.accept()?;
        if let Some(log) = &mut self.log {
            note(log, &arrival);
        }
        Ok(arrival)
    }

    fn end(&mut self, input: L::Input, output: L::Output, sent: bool, told: Option<Told>) {
        if let Some(log) = &self.log {
            log.tell_request(told, sent);
        }
        self.listener.end(input, output, sent, told);
    }

    fn tell(&mut self, asker: L::Asker, outcome: Result<Message, Fault>) {
        if let Some(log) = &self.log {
            log.tell_order(outcome);
        }
        self.listener.tell(asker, outcome);
    }
}
