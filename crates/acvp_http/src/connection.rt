//! One request of a connection, from its reader to its writer.
ghost use Rattle.std.specs.Prelude.{◌≡◌, ◌<◌, false, IfOk, MatchResult};
ghost use Rattle.acvp_desk.specs.Answer.{end_of_moments};
ghost use Rattle.acvp_http.specs.Connection.{AnswersInput, ServesOne, TakesWithin, is_read_end, is_write_end};
ghost use Rattle.acvp_http.specs.Private.Receiving.{StopsConnection};
ghost use Rattle.acvp_http.specs.Serve.{LeavesShut};
ghost use Rattle.acvp_http.specs.Told.{TellsInput, TellsOne};

use crate::receiving::{ReceiveFault, Received, receive};
use crate::routes::Routes;
use crate::serve::{Answered, answer, date_of, refused_at_once};
use crate::source::{ReadFault, Sink, Source, WriteFault};
use crate::told::Told;
use crate::writing::write_all;
use acvp_desk::Desk;
use acvp_policy::Rule;
use acvp_tables::Tables;
use std::alloc::Global;

/// The most reads for one request: one for each byte that it may have, with room for interruptions.
const MOST_REQUEST_READS: u64 = 2200000;

/// Why a connection got no whole reply.
#[derive(Clone, Copy, PartialEq, Eq, Debug)]
pub enum ServeFault {
    /// 1: the reader has failed. The request wasn't handled.
    Read,
    /// 2: the writer has failed. The request was handled, and a front of its reply went out.
    Write,
    /// 3: there were 2200000 reads. The request wasn't handled.
    Turns,
}

/// The reply to the request that the reader holds.
fn answer_input<T: Tables, S: Source>(
    alloc: Global,
    routes: &Routes,
    desk: &mut Desk<T>,
    reader: &mut S,
    moment: u64,
) -> Result<Answered, ServeFault>
    requires { (S.stream reader.old).failed ≡ false }
    ensures keys { desk.new.keys ≡ desk.old.keys }
    ensures was_open { T.meaning.is_open desk.new.tables → T.meaning.is_open desk.old.tables }
    ensures was_clean { T.meaning.is_clean desk.new.tables → T.meaning.is_clean desk.old.tables }
    ensures shut { LeavesShut T.meaning desk.old.tables desk.new.tables }
    ensures answered { MatchResult result
        (λ answer. ((S.stream reader.new).failed ≡ false)
        × AnswersInput T.meaning desk.old.keys moment (S.stream reader.old)
        (S.stream reader.new) answer.reply desk.old.tables desk.new.tables)
        (λ fault. StopsConnection fault (S.stream reader.old) (S.stream reader.new)
        × (moment < end_of_moments) × (desk.new ≡ desk.old) × TakesWithin (S.stream reader.old) (S.stream reader.new)) }
    ensures told { IfOk result (λ answer. TellsInput desk.old.keys moment (S.stream reader.old) (S.stream reader.new)
        answer.reply desk.old.tables desk.new.tables answer.told) }
{
    let Some(date) = date_of(moment) else {
        return Ok(refused_at_once(None, Rule::ClockOutOfRange));
    };
    let limit = reader.reads().saturating_add(MOST_REQUEST_READS);
    match receive(alloc, reader, limit) {
        Ok(Received { bytes, head }) => Ok(answer(routes, desk, moment, &date, &bytes, head)),
        Err(ReceiveFault::Memory) => Ok(refused_at_once(None, Rule::Unavailable)),
        Err(ReceiveFault::Read(ReadFault::Failed)) => Err(ServeFault::Read),
        Err(ReceiveFault::Read(ReadFault::TooOften)) => Err(ServeFault::Turns),
    }
}

/// How a connection ended.
#[derive(Clone, Copy)]
pub struct Ended {
    /// Whether the reply was that of a server that is unavailable; or why there was no whole one.
    pub result: Result<bool, ServeFault>,

    /// What is told of its request; nothing if it wasn't handled.
    pub told: Option<Told>,
}

/// Serves one request at a moment, in seconds since 1970: reads no more than it needs, handles it and writes its whole
/// reply. A read that is interrupted is tried again. Says whether the reply was that of a server that is unavailable,
/// and what is told of the request.
pub fn serve_one<T: Tables, S: Source, K: Sink>(
    alloc: Global,
    routes: &Routes,
    desk: &mut Desk<T>,
    reader: &mut S,
    writer: &mut K,
    moment: u64,
) -> Ended
    requires reader_clear { (S.stream reader.old).failed ≡ false }
    requires writer_clear { (K.stream writer.old).failed ≡ false }
    ensures keys { desk.new.keys ≡ desk.old.keys }
    ensures was_open { T.meaning.is_open desk.new.tables → T.meaning.is_open desk.old.tables }
    ensures was_clean { T.meaning.is_clean desk.new.tables → T.meaning.is_clean desk.old.tables }
    ensures shut { LeavesShut T.meaning desk.old.tables desk.new.tables }
    ensures serves { ServesOne T.meaning desk.old.keys moment (S.stream reader.old) (S.stream reader.new)
        (K.stream writer.old)
        (K.stream writer.new) desk.old.tables desk.new.tables result.result }
    ensures told { TellsOne T.meaning desk.old.keys moment (S.stream reader.old) (S.stream reader.new)
        (K.stream writer.old) (K.stream writer.new) desk.old.tables desk.new.tables result.result result.told }
    ensures read_fault { (S.stream reader.new).failed ≡ is_read_end result.result }
    ensures write_fault { (K.stream writer.new).failed ≡ is_write_end result.result }
{
    let Answered { reply, told } = match answer_input(alloc, routes, desk, reader, moment) {
        Ok(answer) => answer,
        Err(fault) => {
            return Ended {
                result: Err(fault),
                told: None,
            };
        }
    };
    let told = Some(told);
    match write_all(writer, reply.bytes()) {
        Ok(()) => Ended {
            result: Ok(reply.is_unavailable()),
            told,
        },
        Err(WriteFault) => Ended {
            result: Err(ServeFault::Write),
            told,
        },
    }
}
