//! A script from its bytes to the bytes of the replies.
ghost use Rattle.std.specs.Prelude.{◌≡◌, ◌≤◌, Bool, List, false, length};
ghost use Rattle.std.specs.List.{All};
ghost use Rattle.acvp_http.specs.Event as event;
ghost use Rattle.acvp_http.specs.Event.{EventAnswer, CanHappen, Turn, ordered};
ghost use Rattle.acvp_desk.specs.declared.keys.Keys.{Keys};
ghost use Rattle.acvp_http.specs.Left.{LeavesRun};
ghost use Rattle.acvp_http.specs.Private.Reading.{event_of};
ghost use Rattle.acvp_http.specs.Promise.{GoesAsPromised};
ghost use Rattle.acvp_http.specs.Run.{RunsScript, RunsTurns, is_read_answer, is_write_answer};
ghost use Rattle.acvp_http.specs.Script.{answer_text};
ghost use Rattle.acvp_http.specs.Serve.{GoesByTurns, GoesThrough, HandlesTurn, LeavesShut};
ghost use Rattle.acvp_http.specs.Private.Writing.{WritesText};

use crate::promise::{headline, isolation};
use crate::reading::{ScriptEvent, next_event, read_byte};
use crate::routes::Routes;
use crate::script::ScriptFault;
use crate::serve::handle_bytes;
use crate::source::{Sink, Source, WriteFault};
use crate::writing::{write_order, write_replied};
use acvp_desk::{Desk, Order, OrderReply, records_are_kept};
use acvp_tables::Tables;
use std::alloc::Global;

const MOST_EVENTS: u64 = 100000;

const MOST_READS: u64 = 1000000000;

/// Carries an operator's order out at a desk.
pub fn handle_order<T: Tables>(desk: &mut Desk<T>, moment: u64, order: &Order) -> OrderReply
    requires { CanHappen (event.order moment order.now) }
    ensures keys { desk.new.keys ≡ desk.old.keys }
    ensures turn { (unavailable : Bool) × HandlesTurn T.meaning desk.old.keys
        (record { event = event.order moment order.now; unavailable = unavailable }) (ordered result) desk.old.tables
        desk.new.tables }
{
    records_are_kept();
    desk.order(moment, order)
}

/// Handles an event, and writes its answer.
fn take_turn<T: Tables, K: Sink>(
    routes: &Routes,
    desk: &mut Desk<T>,
    event: &ScriptEvent,
    writer: &mut K,
) -> Result<(), WriteFault>
    requires clear { (K.stream writer.old).failed ≡ false }
    requires event { CanHappen (event_of event.now) }
    ensures keys { desk.new.keys ≡ desk.old.keys }
    ensures was_open { T.meaning.is_open desk.new.tables → T.meaning.is_open desk.old.tables }
    ensures was_clean { T.meaning.is_clean desk.new.tables → T.meaning.is_clean desk.old.tables }
    ensures shut { LeavesShut T.meaning desk.old.tables desk.new.tables }
    ensures turn { (unavailable : Bool) × (answer : EventAnswer)
        × HandlesTurn T.meaning desk.old.keys
        (record { event = event_of event.now; unavailable = unavailable }) answer desk.old.tables desk.new.tables
        × WritesText (K.stream writer.old) (K.stream writer.new) (answer_text answer) result }
{
    match event {
        ScriptEvent::Request { moment, bytes } => {
            let reply = handle_bytes(routes, desk, *moment, bytes);
            write_replied(writer, reply.bytes())
        }
        ScriptEvent::Order { moment, order } => {
            let reply = handle_order(desk, *moment, order);
            write_order(writer, reply)
        }
    }
}

/// Tables that went through turns, one by one, went by all of them: for every content that they stood for, the answers
/// are those of the run, and they stand for the content after it.
pub fn turns_make_a_run<T: Tables>()
    ensures { (keys : Keys) (turns : List Turn) (answers : List EventAnswer) (old new : T)
        → GoesThrough T.meaning keys turns answers old new
        → GoesByTurns T.meaning keys turns answers old new }
{}

/// What is promised of tables that went through turns, one by one: what `headline` and `isolation` say, of every
/// content that they stood for.
pub fn turns_are_promised<T: Tables>()
    ensures { (keys : Keys) (turns : List Turn) (answers : List EventAnswer) (old new : T)
        → 1 ≤ length keys.seed → All (λ turn. CanHappen turn.event) turns
        → GoesThrough T.meaning keys turns answers old new
        → GoesAsPromised T.meaning keys turns answers old new }
{
    headline();
    isolation();
    turns_make_a_run::<T>();
}

/// What a crash finds after tables that were open went through turns, one by one: the records after all turns alone;
/// or, where a turn that was unavailable shut them, these or those with its effect.
pub fn turns_leave<T: Tables>()
    ensures { (keys : Keys) (turns : List Turn) (answers : List EventAnswer) (old new : T)
        → GoesThrough T.meaning keys turns answers old new
        → LeavesRun T.meaning keys turns answers old new }
{}

/// Runs a script, turn by turn. An event that was read whole is handled, whatever the next read does; after 100000 of
/// them any byte is Limit.
fn run_turns<T: Tables, S: Source, K: Sink>(
    alloc: Global,
    routes: &Routes,
    desk: &mut Desk<T>,
    reader: &mut S,
    writer: &mut K,
) -> Result<u64, ScriptFault>
    requires reader_clear { (S.stream reader.old).failed ≡ false }
    requires writer_clear { (K.stream writer.old).failed ≡ false }
    ensures keys { desk.new.keys ≡ desk.old.keys }
    ensures was_open { T.meaning.is_open desk.new.tables → T.meaning.is_open desk.old.tables }
    ensures was_clean { T.meaning.is_clean desk.new.tables → T.meaning.is_clean desk.old.tables }
    ensures shut { LeavesShut T.meaning desk.old.tables desk.new.tables }
    ensures run { RunsTurns T.meaning desk.old.keys desk.old.tables desk.new.tables (S.stream reader.old)
        (S.stream reader.new)
        (K.stream writer.old) (K.stream writer.new) result }
    ensures read_fault { (S.stream reader.new).failed ≡ is_read_answer result }
    ensures write_fault { (K.stream writer.new).failed ≡ is_write_answer result }
{
    let limit = reader.reads().saturating_add(MOST_READS);
    for count in 0..MOST_EVENTS {
        let Some(event) = next_event(alloc, reader, limit)? else {
            return Ok(count);
        };
        take_turn(routes, desk, &event, writer)?;
    }
    match read_byte(reader, limit)? {
        None => Ok(MOST_EVENTS),
        Some(_) => Err(ScriptFault::Limit),
    }
}

/// Runs a script. It ends at the input's end, or at the first fault; the event at fault isn't handled, but for a writer
/// that fails, which does so after its event was handled. The number is how many events there were.
///
/// The answers that are written are those of the script's events over the records that the tables stood for, as
/// `headline` and `isolation` say of every run; and what a crash finds after it is what `turns_leave` says.
pub fn run<T: Tables, S: Source, K: Sink>(
    alloc: Global,
    routes: &Routes,
    desk: &mut Desk<T>,
    reader: &mut S,
    writer: &mut K,
) -> Result<u64, ScriptFault>
    requires reader_clear { (S.stream reader.old).failed ≡ false }
    requires writer_clear { (K.stream writer.old).failed ≡ false }
    ensures keys { desk.new.keys ≡ desk.old.keys }
    ensures was_open { T.meaning.is_open desk.new.tables → T.meaning.is_open desk.old.tables }
    ensures was_clean { T.meaning.is_clean desk.new.tables → T.meaning.is_clean desk.old.tables }
    ensures shut { LeavesShut T.meaning desk.old.tables desk.new.tables }
    ensures run { RunsScript T.meaning desk.old.keys desk.old.tables desk.new.tables (S.stream reader.old)
        (S.stream reader.new)
        (K.stream writer.old) (K.stream writer.new) result }
    ensures read_fault { (S.stream reader.new).failed ≡ is_read_answer result }
    ensures write_fault { (K.stream writer.new).failed ≡ is_write_answer result }
{
    desk.newest_epoch();
    turns_are_promised::<T>();
    turns_leave::<T>();
    run_turns(alloc, routes, desk, reader, writer)
}
