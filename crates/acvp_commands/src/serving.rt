//! Serving: connections and orders, one after another, over the records.
ghost use Rattle.std.specs.Prelude.{◌≡◌, ◌≢◌, ◌⊎◌, ◌↔◌, true, false, IsTrue, MatchResult, Some};
ghost use Rattle.std.specs.List.{All};
ghost use Rattle.acvp_desk.specs.declared.order.OrderReply.{OrderReply};
ghost use Rattle.acvp_http.specs.Connection.{ServesOne, is_read_end, is_write_end};
ghost use Rattle.acvp_http.specs.Event.{CanHappen, Turn, ordered};
ghost use Rattle.acvp_http.specs.Serve.{GoesThrough, HandlesTurn};
ghost use Rattle.acvp_http.specs.Told.{TellsOne};
ghost use Rattle.acvp_http.specs.declared.connection.ServeFault.{ServeFault};
ghost use Rattle.acvp_commands.specs.Listening.{Came, GoesOn, IsMomentOf, IsOrderOf, IsRequestOf, IsShutBehind, Look};
ghost use Rattle.acvp_commands.specs.Listening.{ServesArrival, ServesUntil, ServesVisit, Visit, is_told, look_turn};
ghost use Rattle.acvp_commands.specs.declared.fault.Fault.TheVariants.{Accept, Unavailable};

use crate::fault::Fault;
use crate::lines::Message;
use crate::orders::outcome_of;
use acvp_desk::{Desk, END_OF_MOMENTS, Order, OrderReply};
use acvp_http::{
    Ended, Routes, ServeFault, Sink, Source, Told, handle_order, order_in, serve_one,
    turns_are_promised, turns_leave,
};
use acvp_tables::Tables;
use std::alloc::Global;
use std::io;
use std::time::{Clock, SystemTime, UNIX_EPOCH};

/// A connection that was taken.
#[derive(Drop)]
pub struct Taken<I, O> {
    /// What comes of it.
    pub input: I,

    /// Where its reply goes.
    pub output: O,

    /// What the clock gave when it was taken.
    pub now: io::Result<SystemTime>,
}

/// What arrives at a listener.
#[derive(Drop)]
pub enum Arrival<I, O, A> {
    /// A connection, of which nothing was read and to which nothing was written.
    Connection(Taken<I, O>),

    /// A line that is to be an operator's order, with its line feed, and who is told what comes of it.
    Order(Vec<u8>, A),
}

/// Where connections and orders are taken from.
pub trait Listener {
    ghost use Rattle.acvp_commands.specs.Listening.{IsClear, Listening};

    /// What comes of a connection.
    type Input: Source;

    /// Where its reply goes.
    type Output: Sink;

    /// Who gives an order.
    type Asker;

    /// What it is to take what arrives, to find that nothing can be taken, and to hand a connection back or tell an
    /// order's outcome.
    ghost listening: { Listening Self Self.Input Self.Output Self.Asker };

    /// Takes what arrives next.
    fn accept(&mut self) -> Result<Arrival<Self::Input, Self::Output, Self::Asker>, Fault>
        ensures taken { MatchResult result (λ arrival. listening.takes self.old self.new arrival
            × IsClear Self.Input.stream Self.Output.stream arrival)
            (λ fault. (fault ≡ Accept) × listening.stops self.old self.new) };

    /// Ends a connection, whose whole reply is sent or not, with what is told of its request; nothing if it wasn't
    /// handled.
    fn end(&mut self, input: Self::Input, output: Self::Output, sent: bool, told: Option<Told>)
        ensures { listening.ends self.old self.new input output sent told };

    /// Tells who gave an order what came of it.
    fn tell(&mut self, asker: Self::Asker, outcome: Result<Message, Fault>)
        ensures { listening.tells self.old self.new asker outcome };
}

/// The seconds since 1970 that the clock gave; where it gave no time, a moment that isn't served.
pub(crate) fn seconds_of(now: &io::Result<SystemTime>) -> u64
    ensures { IsMomentOf now.now result }
{
    let Ok(time) = now else {
        return END_OF_MOMENTS;
    };
    match time.duration_since(UNIX_EPOCH) {
        Ok(since) => since.as_secs(),
        Err(_) => END_OF_MOMENTS,
    }
}

/// The moment that the clock gives, in seconds since 1970; one that isn't served where it gives no time.
pub fn moment_of<C: Clock>(clock: &C) -> u64 {
    seconds_of(&SystemTime::now(clock))
}

/// Whether a connection was told that the server is unavailable.
fn is_told(served: Result<bool, ServeFault>) -> bool
    ensures { result ≡ is_told served }
{
    match served {
        Ok(unavailable) => unavailable,
        Err(_) => false,
    }
}

/// Serves the one request of a connection, at a moment: it is answered, or it comes to nothing. Says whether it was
/// told that the server is unavailable, and what is told of it.
fn serve_request<T: Tables, S: Source, K: Sink>(
    alloc: Global,
    routes: &Routes,
    desk: &mut Desk<T>,
    input: &mut S,
    output: &mut K,
    moment: u64,
) -> Ended
    requires reader_clear { (S.stream input.old).failed ≡ false }
    requires writer_clear { (K.stream output.old).failed ≡ false }
    ensures keys { desk.new.keys ≡ desk.old.keys }
    ensures serves { ServesOne T.meaning desk.old.keys moment (S.stream input.old) (S.stream input.new)
        (K.stream output.old) (K.stream output.new) desk.old.tables desk.new.tables result.result }
    ensures told { TellsOne T.meaning desk.old.keys moment (S.stream input.old) (S.stream input.new)
        (K.stream output.old) (K.stream output.new) desk.old.tables desk.new.tables result.result result.told }
    ensures read_fault { (S.stream input.new).failed ≡ is_read_end result.result }
    ensures write_fault { (K.stream output.new).failed ≡ is_write_end result.result }
    ensures turn { (came : Came) × (came.is_connection ≡ true)
        × IsRequestOf moment (S.stream input.old) (S.stream input.new) (K.stream output.old) (K.stream output.new) came
        × GoesThrough T.meaning desk.old.keys came.turns came.answers desk.old.tables desk.new.tables
        × All (λ (turn : Turn). CanHappen turn.event) came.turns }
{
    serve_one(alloc, routes, desk, input, output, moment)
}

/// Carries out the order that a line is, and says what came of it.
fn order_at<T: Tables>(desk: &mut Desk<T>, line: &[u8]) -> Result<Message, Fault>
    ensures keys { desk.new.keys ≡ desk.old.keys }
    ensures turn { (came : Came) × (came.is_connection ≡ false) × IsOrderOf line.now result came
        × GoesThrough T.meaning desk.old.keys came.turns came.answers desk.old.tables desk.new.tables
        × All (λ (turn : Turn). CanHappen turn.event) came.turns }
{
    match order_in(line) {
        Some((moment, order)) => {
            let reply = handle_order(desk, moment, &order);
            outcome_of(&order, reply)
        }
        None => Err(Fault::Syntax),
    }
}

/// What was served.
#[derive(Clone, Copy)]
struct Served {
    /// Whether it was a connection.
    connection: bool,

    /// Whether the store is to be looked at behind it: behind an order, and behind a connection that was told that the
    /// server is unavailable.
    look: bool,
}

/// Takes what arrives next and serves it: a connection's one request at the moment that came with it, or an order.
fn serve_arrival<T: Tables, L: Listener>(
    alloc: Global,
    routes: &Routes,
    desk: &mut Desk<T>,
    listener: &mut L,
) -> Result<Served, Fault>
    ensures keys { desk.new.keys ≡ desk.old.keys }
    ensures next { MatchResult result
        (λ served. (came : Came) × (came.is_connection ≡ served.connection)
        × ServesArrival T.meaning L.listening L.Input.stream L.Output.stream desk.old.keys came served.look
        listener.old desk.old.tables listener.new desk.new.tables)
        (λ fault. (fault ≡ Accept) × L.listening.stops listener.old listener.new × (desk.new ≡ desk.old)) }
{
    match listener.accept()? {
        Arrival::Connection(taken) => {
            let Taken {
                mut input,
                mut output,
                now,
            } = taken;
            let moment = seconds_of(&now);
            let Ended { result, told } = serve_request(
                alloc,
                routes,
                desk,
                &mut input,
                &mut output,
                moment,
            );
            listener.end(input, output, result.is_ok(), told);
            Ok(Served {
                connection: true,
                look: is_told(result),
            })
        }
        Arrival::Order(line, asker) => {
            let outcome = order_at(desk, &line);
            listener.tell(asker, outcome);
            Ok(Served {
                connection: false,
                look: true,
            })
        }
    }
}

/// Looks at the store, behind what was served: whether it still answers. A fault of the disk shuts it, and it tells so
/// only to who asks. It is asked to reject a request that there never is, which changes nothing.
fn look<T: Tables>(desk: &mut Desk<T>) -> Result<(), Fault>
    ensures keys { desk.new.keys ≡ desk.old.keys }
    ensures looked { (look : Look) × HandlesTurn T.meaning desk.old.keys (look_turn look) (ordered look.reply)
        desk.old.tables desk.new.tables × MatchResult result (λ done. look.reply ≢ OrderReply.Unavailable)
        (λ fault. (fault ≡ Unavailable) × (look.reply ≡ OrderReply.Unavailable)) }
{
    match handle_order(desk, 0, &Order::RejectRequest { request: 0 }) {
        OrderReply::Unavailable => Err(Fault::Unavailable),
        _ => Ok(()),
    }
}

/// Serves what arrives next, and looks at the store behind it where that is to be done. Says whether it was a
/// connection.
fn serve_next<T: Tables, L: Listener>(
    alloc: Global,
    routes: &Routes,
    desk: &mut Desk<T>,
    listener: &mut L,
) -> Result<bool, Fault>
    ensures keys { desk.new.keys ≡ desk.old.keys }
    ensures next { MatchResult result
        (λ connection. (visit : Visit) × (visit.came.is_connection ≡ connection) × GoesOn visit
        × ServesVisit T.meaning L.listening L.Input.stream L.Output.stream desk.old.keys visit listener.old
        desk.old.tables listener.new desk.new.tables)
        (λ fault. ((fault ≡ Accept) × L.listening.stops listener.old listener.new × (desk.new ≡ desk.old))
        ⊎ ((fault ≡ Unavailable) × ((visit : Visit) × IsShutBehind visit
        × ServesVisit T.meaning L.listening L.Input.stream L.Output.stream desk.old.keys visit listener.old
        desk.old.tables listener.new desk.new.tables))) }
{
    let served = serve_arrival(alloc, routes, desk, listener)?;
    if served.look {
        match look(desk) {
            Ok(()) => Ok(served.connection),
            Err(fault) => Err(fault),
        }
    } else {
        Ok(served.connection)
    }
}

/// Whether so many connections were asked for.
fn are_all(count: Option<u64>, served: u64) -> bool
    ensures { IsTrue result ↔ (count ≡ Some served) }
{
    match count {
        Some(most) => most == served,
        None => false,
    }
}

/// Serves connections and orders as they arrive, one after another. Where so many connections are asked for, it ends
/// behind the last of them, and says how many there were. Else it ends only where nothing can be taken any more, or
/// where the store doesn't answer any more, after whoever came has been told so.
pub fn serve_connections<T: Tables, L: Listener>(
    alloc: Global,
    routes: &Routes,
    desk: &mut Desk<T>,
    listener: &mut L,
    count: Option<u64>,
) -> Result<u64, Fault>
    ensures keys { desk.new.keys ≡ desk.old.keys }
    ensures was_open { T.meaning.is_open desk.new.tables → T.meaning.is_open desk.old.tables }
    ensures was_clean { T.meaning.is_clean desk.new.tables → T.meaning.is_clean desk.old.tables }
    ensures served { ServesUntil T.meaning L.listening L.Input.stream L.Output.stream desk.old.keys count listener.old
        desk.old.tables listener.new desk.new.tables result }
{
    desk.newest_epoch();
    turns_are_promised::<T>();
    turns_leave::<T>();
    let mut served = 0;
    for _arrived in 0..u64::MAX {
        if are_all(count, served) {
            return Ok(served);
        }
        if serve_next(alloc, routes, desk, listener)? {
            served += 1;
        }
    }
    Err(Fault::Limit)
}
