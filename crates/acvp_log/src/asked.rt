//! What the line of a request, or of an order, tells of it.
ghost use Rattle.std.specs.Prelude.{◌≡◌, Some};
ghost use Rattle.acvp_log.specs.Lines.{action_asked, came_of, line_of, named_command, named_number, status_of};
ghost use Rattle.acvp_log.specs.Lines.{subject_asked, subject_of, word_asked};

use crate::line::{Asked, Came, Entry, Refusal, Tail};
use acvp_desk::{Ask, Order, Wish};
use acvp_http::Told;
use acvp_policy::{Action, Rule};

/// The number of the vector set that a wish is about, or else that of the test session.
pub(crate) fn subject_of(wish: Wish) -> Option<u64>
    ensures { result ≡ subject_of wish }
{
    match wish {
        Wish::Set(_, set, _) | Wish::CancelSet(_, set) => Some(set),
        Wish::Session(session, _) | Wish::Reviewer(session, _) | Wish::Certify(session) => {
            Some(session)
        }
        _ => None,
    }
}

/// The number of what a request is about.
fn subject_asked(asked: Option<Ask>) -> Option<u64>
    ensures { result ≡ subject_asked asked }
{
    match asked {
        Some(Ask::Caller(wish)) => subject_of(wish),
        Some(Ask::Login) | None => None,
    }
}

/// The action that a request asks for.
fn action_asked(asked: Option<Ask>) -> Asked
    ensures { result ≡ action_asked asked }
{
    match asked {
        Some(Ask::Login) => Asked::Action(Action::Login),
        Some(Ask::Caller(wish)) => Asked::Action(wish.action()),
        None => Asked::Nothing,
    }
}

/// The status of a reply.
fn status_of(refused: Option<Rule>) -> u64
    ensures { result ≡ status_of refused }
{
    match refused {
        Some(rule) => u64::from(rule.status()),
        None => 200,
    }
}

/// What came of a request.
fn came_of(refused: Option<Rule>) -> Came<Refusal>
    ensures { result ≡ came_of refused }
{
    match refused {
        Some(rule) => Came::Refused(Refusal { rule }),
        None => Came::Done,
    }
}

/// What stands behind the milliseconds where all is well.
const BARE: Tail = Tail {
    unsent: false,
    because: None,
};

/// What the line of a request tells. Nothing is told of a connection that broke.
pub(crate) fn entry_of(told: Option<Told>) -> Entry<Refusal>
    ensures { result ≡ line_of told }
{
    match told {
        Some(told) => Entry {
            account: told.account,
            asked: action_asked(told.asked),
            subject: subject_asked(told.asked),
            status: Some(status_of(told.refused)),
            came: came_of(told.refused),
            tail: BARE,
        },
        None => Entry {
            account: None,
            asked: Asked::Nothing,
            subject: None,
            status: None,
            came: Came::Broken,
            tail: BARE,
        },
    }
}

/// The word of an order, and the number that it names.
pub(crate) fn named_by(order: &Order) -> (Asked, Option<u64>)
    ensures word { word_asked result.0 ≡ Some (named_command order.now) }
    ensures number { result.1 ≡ Some (named_number order.now) }
{
    match *order {
        Order::AddAccount { account, secret: _ } => {
            (Asked::Order("account-add"), Some(u64::from(account)))
        }
        Order::DisableAccount { account } => {
            (Asked::Order("account-disable"), Some(u64::from(account)))
        }
        Order::ApproveRequest { request } => (Asked::Order("request-approve"), Some(request)),
        Order::RejectRequest { request } => (Asked::Order("request-reject"), Some(request)),
    }
}
