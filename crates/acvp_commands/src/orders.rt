//! The operator's orders, on the records.
ghost use Rattle.std.specs.Prelude.{◌≡◌, ◌++◌, IfOk, codes, decimal, length, string_bytes};
ghost use Rattle.acvp_http.specs.Event as event;
ghost use Rattle.acvp_http.specs.Script.{IsSecretText, IsWritten};
ghost use Rattle.acvp_desk.specs.Orders.{IsOrder};
ghost use Rattle.acvp_commands.specs.Lines.{outcome_of};
ghost use Rattle.acvp_commands.specs.Ordered.{HasShortNumbers, IsCarriedOut};

use crate::fault::Fault;
use crate::lines::Message;
use acvp_desk::{Order, OrderReply, order_on};
use acvp_tables::Tables;
use std::alloc::{AllocError, Global};

/// The line of an order that was answered so, or its fault. An approval that doesn't say what it gave, as no order is
/// answered, is unavailable.
pub(crate) fn outcome_of(order: &Order, reply: OrderReply) -> Result<Message, Fault>
    ensures { result ≡ outcome_of order.now reply }
{
    let given = match reply {
        OrderReply::Done(given) => given,
        OrderReply::Taken => return Err(Fault::Taken),
        OrderReply::Unknown => return Err(Fault::Unknown),
        OrderReply::NotInitial => return Err(Fault::NotInitial),
        OrderReply::Unavailable => return Err(Fault::Unavailable),
    };
    match (*order, given) {
        (Order::AddAccount { account, secret: _ }, _) => Ok(Message::Added(account)),
        (Order::DisableAccount { account }, _) => Ok(Message::Disabled(account)),
        (Order::ApproveRequest { request }, Some((kind, number))) => {
            Ok(Message::Approved(request, kind, number))
        }
        (Order::ApproveRequest { request: _ }, None) => Err(Fault::Unavailable),
        (Order::RejectRequest { request }, _) => Ok(Message::Rejected(request)),
    }
}

/// Carries an order out on the records, and gives its line.
pub fn carry_out<T: Tables>(tables: &mut T, order: &Order) -> Result<Message, Fault>
    requires { IsOrder order.now }
    ensures { IsCarriedOut T.meaning result tables.old tables.new order.now }
{
    let reply = order_on(tables, order);
    outcome_of(order, reply)
}

/// The digits of 32 bytes.
fn digits_of(alloc: Global, secret: &[u8]) -> Result<String, AllocError>
    requires { length secret.now ≡ 32 }
    ensures { IfOk result (λ digits. IsSecretText (string_bytes digits) secret.now) }
{
    let digits = hex::encode(alloc, secret)?;
    Ok(digits)
}

/// The digits of a secret.
fn secret_digits(alloc: Global, secret: [u8; 32]) -> Result<String, AllocError>
    ensures { IfOk result (λ digits. IsSecretText (string_bytes digits) secret) }
{
    digits_of(alloc, &secret)
}

/// The line that adds an account, whose secret has these digits.
fn add_line(alloc: Global, moment: u64, account: u16, digits: &str) -> Result<String, AllocError>
    ensures { IfOk result (λ text. string_bytes text ≡ codes "account-add " ++ decimal moment ++ codes " "
        ++ decimal account ++ codes " " ++ digits.now ++ codes "\n") }
{
    format!(in alloc; "account-add {moment} {account} {digits}\n")
}

/// The line that disables an account.
fn disable_line(alloc: Global, moment: u64, account: u16) -> Result<String, AllocError>
    ensures { IfOk result (λ text. string_bytes text ≡ codes "account-disable " ++ decimal moment ++ codes " "
        ++ decimal account ++ codes "\n") }
{
    format!(in alloc; "account-disable {moment} {account}\n")
}

/// The line that approves a request.
fn approve_line(alloc: Global, moment: u64, request: u64) -> Result<String, AllocError>
    ensures { IfOk result (λ text. string_bytes text ≡ codes "request-approve " ++ decimal moment ++ codes " "
        ++ decimal request ++ codes "\n") }
{
    format!(in alloc; "request-approve {moment} {request}\n")
}

/// The line that rejects a request.
fn reject_line(alloc: Global, moment: u64, request: u64) -> Result<String, AllocError>
    ensures { IfOk result (λ text. string_bytes text ≡ codes "request-reject " ++ decimal moment ++ codes " "
        ++ decimal request ++ codes "\n") }
{
    format!(in alloc; "request-reject {moment} {request}\n")
}

/// The line of the script's that an order is, with its line feed.
pub fn order_line(alloc: Global, moment: u64, order: &Order) -> Result<String, AllocError>
    requires { IsOrder order.now }
    ensures { IfOk result (λ text. HasShortNumbers moment order.now
        → IsWritten (event.order moment order.now) (string_bytes text)) }
{
    match *order {
        Order::AddAccount { account, secret } => {
            let digits = secret_digits(alloc, secret)?;
            add_line(alloc, moment, account, digits.as_str())
        }
        Order::DisableAccount { account } => disable_line(alloc, moment, account),
        Order::ApproveRequest { request } => approve_line(alloc, moment, request),
        Order::RejectRequest { request } => reject_line(alloc, moment, request),
    }
}
