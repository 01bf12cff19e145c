//! The operator's orders.

ghost use Rattle.std.specs.Prelude.{◌≡◌, ◌≢◌, ◌+◌, ◌≤◌, IfOk, option_map};
ghost use Rattle.acvp_tables.specs.Calls.{Reads};
ghost use Rattle.acvp_tables.specs.Content.{Content, request_at};
ghost use Rattle.acvp_tables.specs.State.{first_of_account, state_of, AreWellNumbered};
ghost use Rattle.acvp_tables.specs.declared.summary.RequestPurpose.TheVariants as asks;
ghost use Rattle.acvp_desk.specs.Approvals.{IsExcused, IsSoundApproval};
ghost use Rattle.acvp_desk.specs.Orders.{approved_as, is_initial, IsOrder, Orders};
ghost use Rattle.acvp_desk.specs.Private.Waiting.{waiting_in};
ghost use Rattle.acvp_desk.specs.declared.order.Order.TheVariants as order;

use crate::approval::may_be_approved;
use crate::numbers::NUMBERS_OF_ACCOUNT;
use crate::registry::kind_asked;
use acvp_registry::Kind;
use acvp_tables::{
    Approval, Counted, NewAccount, OrderChange, RequestPurpose, RequestStatus, RequestSummary,
    StoreFault, Tables, numbers_count, numbers_name, selections_follow,
};

/// What the operator of the laboratory asks for. An account's number is 1 to 9999.
#[derive(Clone, Copy)]
pub enum Order {
    AddAccount { account: u16, secret: [u8; 32] },
    DisableAccount { account: u16 },
    ApproveRequest { request: u64 },
    RejectRequest { request: u64 },
}

/// What an order is answered.
#[derive(Clone, Copy, Debug, PartialEq, Eq)]
pub enum OrderReply {
    /// Of an approval with the kind of what was approved, and its number.
    Done(Option<(Kind, u64)>),

    /// The account's number is there already.
    Taken,

    /// There is no such account or request.
    Unknown,

    /// The request was decided before.
    NotInitial,

    /// Memory or a statement was refused, a row stands for nothing, or the certification that is to be approved may not
    /// be. Nothing has changed.
    Unavailable,
}

/// Adds an account that isn't there.
#[tactic(auto, unfolding(crate::specs::Orders::order_reply, crate::specs::Orders::order_change))]
fn add<T: Tables>(tables: &mut T, account: u16, secret: [u8; 32]) -> OrderReply
    ensures answered { Orders T.meaning result tables.old tables.new (order.AddAccount account secret) }
    ensures excused { IsExcused T.meaning T.faults result tables.old tables.new (order.AddAccount account secret) }
{
    match tables.account(account) {
        Err(_) => OrderReply::Unavailable,
        Ok(Some(_)) => OrderReply::Taken,
        Ok(None) => {
            let added = NewAccount { account, secret };
            match tables.order(&OrderChange::AddAccount(added)) {
                Ok(()) => OrderReply::Done(None),
                Err(_) => OrderReply::Unavailable,
            }
        }
    }
}

/// Disables an account that is there.
#[tactic(auto, unfolding(crate::specs::Orders::order_reply, crate::specs::Orders::order_change))]
fn disable<T: Tables>(tables: &mut T, account: u16) -> OrderReply
    ensures answered { Orders T.meaning result tables.old tables.new (order.DisableAccount account) }
    ensures excused { IsExcused T.meaning T.faults result tables.old tables.new (order.DisableAccount account) }
{
    match tables.account(account) {
        Err(_) => OrderReply::Unavailable,
        Ok(None) => OrderReply::Unknown,
        Ok(Some(_)) => match tables.order(&OrderChange::DisableAccount(account)) {
            Ok(()) => OrderReply::Done(None),
            Err(_) => OrderReply::Unavailable,
        },
    }
}

/// Whether a request waits for the operator's decision.
fn is_initial(status: RequestStatus) -> bool
    ensures { result ≡ is_initial status }
{
    match status {
        RequestStatus::Initial => true,
        RequestStatus::Approved(_) | RequestStatus::Rejected => false,
    }
}

/// A request, as far as the operator's decision goes.
#[derive(Clone, Copy)]
struct Waiting {
    /// Whether the request waits for the decision.
    initial: bool,
    account: u16,
    purpose: RequestPurpose,

    /// The number that an approval gives.
    approved: u64,
}

/// The account's next number of a kind, of which it has so many: 999999 at most, in sound records.
fn next_of_kind(account: u16, so_many: u64) -> u64
    ensures { so_many ≤ 999999 → result ≡ first_of_account account + so_many }
{
    (u64::from(account) * NUMBERS_OF_ACCOUNT + 1).saturating_add(so_many)
}

/// How many objects are registered of a kind that has so many. A certification registers none.
fn registered(kind: Kind, so_many: u64) -> u64
    ensures objects { kind ≢ Kind.Certification → result ≡ so_many }
    ensures none { kind ≡ Kind.Certification → result ≡ 0 }
{
    match kind {
        Kind::Vendor | Kind::Module | Kind::Environment => so_many,
        Kind::Certification => 0,
    }
}

/// The number that an approval gives to what is registered of a kind.
#[tactic(auto, unfolding(acvp_tables::specs::State::state_of))]
fn registered_number<T: Tables>(tables: &mut T, account: u16, kind: Kind) -> Result<u64, StoreFault>
    ensures found { T.meaning.is_open tables.new → IfOk result (λ number. (c : Content) → AreWellNumbered c
        → T.meaning.stands tables.old c → number ≡ approved_as (state_of c) account (asks.Registration kind)) }
    ensures reads { Reads T.faults T.meaning result tables.old tables.new }
{
    selections_follow();
    numbers_count();
    let count = tables.count(account, Counted::Objects(kind))?;
    Ok(next_of_kind(account, registered(kind, count)))
}

/// The request of a number, as far as the operator's decision goes.
#[tactic(auto, unfolding(acvp_tables::specs::State::state_of))]
fn find_waiting<T: Tables>(tables: &mut T, number: u64) -> Result<Option<Waiting>, StoreFault>
    ensures found { T.meaning.is_open tables.new
        → IfOk result (λ waiting. (c : Content) → AreWellNumbered c → T.meaning.stands tables.old c
        → waiting ≡ option_map (waiting_in (state_of c)) (request_at number c.requests)) }
    ensures reads { Reads T.faults T.meaning result tables.old tables.new }
{
    let Some(request) = tables.request(number)? else {
        return Ok(None);
    };
    let approved = match request.purpose {
        RequestPurpose::Registration(kind) => registered_number(tables, request.account, kind)?,
        RequestPurpose::Certification(certification) => certification.session,
    };
    Ok(Some(Waiting {
        initial: is_initial(request.status),
        account: request.account,
        purpose: request.purpose,
        approved,
    }))
}

/// Approves a request that waits; one for a certification only if it may be approved, as after every run.
fn approve<T: Tables>(tables: &mut T, number: u64) -> OrderReply
    ensures answered { Orders T.meaning result tables.old tables.new (order.ApproveRequest number) }
    ensures sound { IsSoundApproval T.meaning result tables.old tables.new (order.ApproveRequest number) }
    ensures excused { IsExcused T.meaning T.faults result tables.old tables.new (order.ApproveRequest number) }
{
    let waiting = match find_waiting(tables, number) {
        Err(_) => return OrderReply::Unavailable,
        Ok(None) => return OrderReply::Unknown,
        Ok(Some(waiting)) => waiting,
    };
    if !waiting.initial {
        return OrderReply::NotInitial;
    }
    let Ok(sound) = may_be_approved(tables, number, waiting.account, waiting.purpose) else {
        return OrderReply::Unavailable;
    };
    if !sound {
        return OrderReply::Unavailable;
    }
    let approval = Approval {
        request: number,
        approved: waiting.approved,
    };
    match tables.order(&OrderChange::Approve(approval)) {
        Ok(()) => OrderReply::Done(Some((kind_asked(waiting.purpose), waiting.approved))),
        Err(_) => OrderReply::Unavailable,
    }
}

/// Rejects a request that waits.
fn reject<T: Tables>(tables: &mut T, number: u64) -> OrderReply
    ensures answered { Orders T.meaning result tables.old tables.new (order.RejectRequest number) }
    ensures excused { IsExcused T.meaning T.faults result tables.old tables.new (order.RejectRequest number) }
{
    let request = match tables.request(number) {
        Err(_) => return OrderReply::Unavailable,
        Ok(None) => return OrderReply::Unknown,
        Ok(Some(request)) => request,
    };
    if !is_initial(request.status) {
        return OrderReply::NotInitial;
    }
    match tables.order(&OrderChange::Reject(number)) {
        Ok(()) => OrderReply::Done(None),
        Err(_) => OrderReply::Unavailable,
    }
}

/// Carries an operator's order out. A certification is approved only if it may be approved, as after every run.
#[tactic(auto, unfolding(crate::specs::Orders::order_reply, crate::specs::Orders::order_change))]
pub fn order_on<T: Tables>(tables: &mut T, order: &Order) -> OrderReply
    requires { IsOrder order.now }
    ensures answered { Orders T.meaning result tables.old tables.new order.now }
    ensures sound { IsSoundApproval T.meaning result tables.old tables.new order.now }
    ensures excused { IsExcused T.meaning T.faults result tables.old tables.new order.now }
{
    match *order {
        Order::AddAccount { account, secret } => add(tables, account, secret),
        Order::DisableAccount { account } => disable(tables, account),
        Order::ApproveRequest { request } => approve(tables, request),
        Order::RejectRequest { request } => reject(tables, request),
    }
}
