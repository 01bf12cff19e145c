//! From the bytes of a request to the bytes of its reply.
ghost use Rattle.std.specs.Prelude.{◌≡◌, ◌≤◌, ◌<◌, None, Some, option_copied, MatchOption};
ghost use Rattle.acvp_desk.specs.Answer.{end_of_moments};
ghost use Rattle.acvp_tables.specs.Content.{Content};
ghost use Rattle.acvp_desk.specs.declared.keys.Keys.{Keys};
ghost use Rattle.acvp_http.specs.Event.{Event, EventAnswer};
ghost use Rattle.acvp_http.specs.Isolation.{IsTakenApart};
ghost use Rattle.acvp_http.specs.Handled.{Handles};
ghost use Rattle.acvp_http.specs.Private.Head.{ParsesInput};
ghost use Rattle.acvp_http.specs.Reply.{refusal, IsDateOf};
ghost use Rattle.acvp_http.specs.Serve.{GoesBy, Serves};
ghost use Rattle.acvp_http.specs.Told.{Tells};

use crate::head::Head;
use crate::promise::request_isolation;
use crate::reply::Reply;
use crate::request::{Refusal, parse_head, parse_request};
use crate::routes::Routes;
use crate::told::Told;
use acvp_desk::{
    Desk, DeskReply, END_OF_MOMENTS, Outcome, nobody_is_accepted_without_rows, records_are_kept,
};
use acvp_policy::Rule;
use acvp_tables::Tables;
use httpdate::HttpDate;

/// The date and time of a moment, as the `Date` field shows it, where it is served.
pub(crate) fn date_of(moment: u64) -> Option<[u8; 29]>
    ensures { MatchOption result (end_of_moments ≤ moment) (λ date. (moment < end_of_moments) × IsDateOf moment date) }
{
    if moment >= END_OF_MOMENTS {
        return None;
    }
    match HttpDate::from_unix_secs(moment) {
        Ok(date) => Some(date.to_bytes()),
        Err(_) => None,
    }
}

/// A reply, and what is told of its request.
#[derive(Drop)]
pub(crate) struct Answered {
    pub reply: Reply,
    pub told: Told,
}

/// The reply to a request that is refused by a rule before it reaches the desk.
pub(crate) fn refused_at_once(date: Option<&[u8; 29]>, rule: Rule) -> Answered
    ensures { result ≡ record {
      reply = refusal (option_copied date.entry) rule;
      told = record { asked = None; account = None; refused = Some rule };
    } }
{
    Answered {
        reply: Reply::refusal(date, rule),
        told: Told::at_once(rule),
    }
}

/// Answers the request of these bytes, whose head this is, at the moment of this date.
pub(crate) fn answer<T: Tables>(
    routes: &Routes,
    desk: &mut Desk<T>,
    moment: u64,
    date: &[u8; 29],
    bytes: &[u8],
    head: Result<Head, Rule>,
) -> Answered
    requires served { moment < end_of_moments }
    requires dated { IsDateOf moment date.now }
    requires head { ParsesInput bytes.now head }
    ensures handled { Handles T.meaning moment bytes.now result.reply desk.old desk.new }
    ensures told { Tells desk.old.keys moment bytes.now result.reply desk.old.tables desk.new.tables result.told }
{
    let head = match head {
        Ok(head) => head,
        Err(rule) => return refused_at_once(Some(date), rule),
    };
    let request = match parse_request(routes, bytes, &head) {
        Ok(request) => request,
        Err(Refusal::ByRule(rule)) => return refused_at_once(Some(date), rule),
        Err(Refusal::WrongMethod(path)) => {
            return Answered {
                reply: Reply::wrong_method(date, path),
                told: Told::at_once(Rule::NoMethod),
            };
        }
    };
    records_are_kept();
    nobody_is_accepted_without_rows();
    let asked = Some(request.ask);
    let Outcome { reply, account, .. } = desk.handle(moment, &request);
    match reply {
        DeskReply::Given(buffer) => Answered {
            reply: Reply::accepted(date, buffer),
            told: Told {
                asked,
                account,
                refused: None,
            },
        },
        DeskReply::Denied(rule) => Answered {
            reply: Reply::refusal(Some(date), rule),
            told: Told {
                asked,
                account,
                refused: Some(rule),
            },
        },
    }
}

/// Answers the request of these bytes at a moment, in seconds since 1970. Where the answer is 45, nothing has changed:
/// the same bytes may be sent again, and are answered where there is memory then and no row of theirs stands for
/// nothing.
///
/// Unless it is unavailable, what is told depends alone on what the account that asks sees, and what is left of each
/// account's rows on these rows alone, as `request_isolation` says.
pub fn handle_bytes<T: Tables>(
    routes: &Routes,
    desk: &mut Desk<T>,
    moment: u64,
    bytes: &[u8],
) -> Reply
    ensures handled { Handles T.meaning moment bytes.now result desk.old desk.new }
    ensures apart { GoesBy T.meaning desk.old.keys
        (λ c next. IsTakenApart desk.old.keys moment bytes.now c next result) desk.old.tables desk.new.tables }
{
    request_isolation();
    match date_of(moment) {
        Some(date) => answer(routes, desk, moment, &date, bytes, parse_head(bytes)).reply,
        None => Reply::refusal(None, Rule::ClockOutOfRange),
    }
}

/// The definitions give one answer to an event over the same records, and leave the same records after it.
pub fn events_are_served_one_way()
    ensures { (keys : Keys) (event : Event) (old new other : Content) (first second : EventAnswer)
        → Serves keys event old new first
        → Serves keys event old other second → (new ≡ other) × (first ≡ second) }
{}
