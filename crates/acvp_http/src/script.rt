//! The lines of a script.
ghost use Rattle.std.specs.Prelude.{◌≡◌, ◌≢◌, ◌++◌, ◌∷◌, [], ℕ, List, IfSome, MatchOption, decimal};
ghost use Rattle.acvp_desk.specs.declared.order.Order.{Order};
ghost use Rattle.acvp_http.specs.Event.{CanHappen, order};
ghost use Rattle.acvp_http.specs.Script.{IsAccountNumber, IsSecretText, IsWritten};
ghost use Rattle.acvp_http.specs.Private.Lines.{Lacks, IsMoment, IsRequestTail, IsAddTail, IsDisableTail};
ghost use Rattle.acvp_http.specs.Private.Lines.{IsDecisionTail, IsLine, command_word};
ghost use Rattle.acvp_http.specs.declared.script.ScriptLine.{ScriptLine};
ghost use Rattle.acvp_http.specs.declared.script.Command.{Command};
ghost use Rattle.acvp_http.specs.Private.Reading.{stopped_by};
ghost use Rattle.acvp_http.specs.declared.script.ScriptFault.TheVariants.{Memory, Write};

use crate::source::{ReadFault, WriteFault};
use acvp_desk::{Order, plain_number};
use std::alloc::AllocError;

const REQUEST: &[u8] = b"request";

const ADD: &[u8] = b"account-add";

const DISABLE: &[u8] = b"account-disable";

const APPROVE: &[u8] = b"request-approve";

const REJECT: &[u8] = b"request-reject";

const GREATEST_ACCOUNT: u64 = 9999;

const LONGEST_REQUEST: u64 = 4194304;

/// Why the run of a script has stopped before its end. None of them is a rule of refusal: the program prints each as
/// `fault: ` and its word.
#[derive(Clone, Copy, PartialEq, Eq, Debug)]
pub enum ScriptFault {
    /// 1: the reader has failed.
    Read,
    /// 2: the writer has failed.
    Write,
    /// 3: the input isn't a script.
    Syntax,
    /// 4: the input has more than 100000 events, or took 1000000000 reads.
    Limit,
    /// 5: memory was refused for a request's bytes.
    Memory,
}

impl From<AllocError> for ScriptFault {
    ghost from_gives = { λ _ fault. fault ≡ Memory };

    fn from(_: AllocError) -> ScriptFault {
        ScriptFault::Memory
    }
}

impl From<ReadFault> for ScriptFault {
    ghost from_gives = { λ read fault. fault ≡ stopped_by read };

    fn from(read: ReadFault) -> ScriptFault {
        match read {
            ReadFault::Failed => ScriptFault::Read,
            ReadFault::TooOften => ScriptFault::Limit,
        }
    }
}

impl From<WriteFault> for ScriptFault {
    ghost from_gives = { λ _ fault. fault ≡ Write };

    fn from(_: WriteFault) -> ScriptFault {
        ScriptFault::Write
    }
}

/// What a line of a script says. The bytes of a request come after its line.
#[derive(Clone, Copy)]
pub(crate) enum ScriptLine {
    Request { moment: u64, length: u64 },
    Order { moment: u64, order: Order },
}

/// What stands before the first space, and after it.
fn split_at_space(text: &[u8]) -> Option<(&[u8], &[u8])>
    ensures { MatchOption result (Lacks 32 text.now)
        (λ parts. Lacks 32 parts.0.now × (text.now ≡ parts.0.now ++ 32 ∷ parts.1.now)) }
{
    for (i, byte) in text.iter().enumerate() {
        if *byte == b' ' {
            return Some((&text[..i], &text[i + 1..]));
        }
    }
    None
}

fn read_account(text: &[u8]) -> Option<u16>
    ensures { MatchOption result ((account : ℕ) → IsAccountNumber account → text.now ≢ decimal account)
        (λ account. IsAccountNumber account × (text.now ≡ decimal account)) }
{
    let account = plain_number(text)?;
    if account < 1 || account > GREATEST_ACCOUNT {
        return None;
    }
    Some(account as u16)
}

fn read_secret(text: &[u8]) -> Option<[u8; 32]>
    ensures { MatchOption result ((secret : List ℕ) → IsSecretText text.now secret → ⊥)
        (λ secret. IsSecretText text.now secret) }
{
    let mut secret = [0; 32];
    match hex::decode_to_slice(text, &mut secret) {
        Ok(()) => Some(secret),
        Err(_) => None,
    }
}

/// A moment, and what stands after its space.
fn read_moment(text: &[u8]) -> Option<(u64, &[u8])>
    ensures { MatchOption result ((moment : ℕ) (rest : List ℕ) → IsMoment moment rest text.now → ⊥)
        (λ parts. IsMoment parts.0 parts.1.now text.now) }
{
    let (moment, rest) = split_at_space(text)?;
    Some((plain_number(moment)?, rest))
}

/// The moment and the number of bytes of a request.
fn read_request(text: &[u8]) -> Option<(u64, u64)>
    ensures { MatchOption result ((moment size : ℕ) → IsRequestTail moment size text.now → ⊥)
        (λ numbers. IsRequestTail numbers.0 numbers.1 text.now) }
{
    let (moment, rest) = read_moment(text)?;
    let length = plain_number(rest)?;
    if length > LONGEST_REQUEST {
        return None;
    }
    Some((moment, length))
}

/// The moment of an order, the account's number and its secret.
fn read_add(text: &[u8]) -> Option<(u64, u16, [u8; 32])>
    ensures { MatchOption result
        ((moment account : ℕ) (secret : List ℕ) → IsAddTail moment account secret text.now → ⊥)
        (λ parts. IsAddTail parts.0 parts.1 parts.2 text.now) }
{
    let (moment, rest) = read_moment(text)?;
    let (account, secret) = split_at_space(rest)?;
    let account = read_account(account)?;
    let secret = read_secret(secret)?;
    Some((moment, account, secret))
}

/// The moment of an order, and the account's number.
fn read_disable(text: &[u8]) -> Option<(u64, u16)>
    ensures { MatchOption result ((moment account : ℕ) → IsDisableTail moment account text.now → ⊥)
        (λ parts. IsDisableTail parts.0 parts.1 text.now) }
{
    let (moment, rest) = read_moment(text)?;
    let account = read_account(rest)?;
    Some((moment, account))
}

/// The moment of an order, and the request's number.
fn read_decision(text: &[u8]) -> Option<(u64, u64)>
    ensures { MatchOption result ((moment number : ℕ) → IsDecisionTail moment number text.now → ⊥)
        (λ parts. IsDecisionTail parts.0 parts.1 text.now) }
{
    let (moment, rest) = read_moment(text)?;
    let request = plain_number(rest)?;
    Some((moment, request))
}

/// The first word of a line.
#[derive(Clone, Copy)]
enum Command {
    Request,
    AddAccount,
    DisableAccount,
    ApproveRequest,
    RejectRequest,
}

fn command_of(word: &[u8]) -> Option<Command>
    ensures { MatchOption result ((command : Command) → word.now ≢ command_word command)
        (λ command. word.now ≡ command_word command) }
{
    if word == REQUEST {
        Some(Command::Request)
    } else if word == ADD {
        Some(Command::AddAccount)
    } else if word == DISABLE {
        Some(Command::DisableAccount)
    } else if word == APPROVE {
        Some(Command::ApproveRequest)
    } else if word == REJECT {
        Some(Command::RejectRequest)
    } else {
        None
    }
}

/// Reads a line, which is given without its line feed.
pub(crate) fn read_line(line: &[u8]) -> Option<ScriptLine>
    ensures { MatchOption result ((other : ScriptLine) → IsLine other line.now → ⊥) (λ said. IsLine said line.now) }
{
    let (word, rest) = split_at_space(line)?;
    match command_of(word)? {
        Command::Request => {
            let (moment, length) = read_request(rest)?;
            Some(ScriptLine::Request { moment, length })
        }
        Command::AddAccount => {
            let (moment, account, secret) = read_add(rest)?;
            let order = Order::AddAccount { account, secret };
            Some(ScriptLine::Order { moment, order })
        }
        Command::DisableAccount => {
            let (moment, account) = read_disable(rest)?;
            let order = Order::DisableAccount { account };
            Some(ScriptLine::Order { moment, order })
        }
        Command::ApproveRequest => {
            let (moment, request) = read_decision(rest)?;
            let order = Order::ApproveRequest { request };
            Some(ScriptLine::Order { moment, order })
        }
        Command::RejectRequest => {
            let (moment, request) = read_decision(rest)?;
            let order = Order::RejectRequest { request };
            Some(ScriptLine::Order { moment, order })
        }
    }
}

/// The line that a text is, without its line feed.
fn whole_line(text: &[u8]) -> Option<&[u8]>
    ensures { MatchOption result ((line : List ℕ) → text.now ≢ line ++ 10 ∷ [])
        (λ line. text.now ≡ line.now ++ 10 ∷ []) }
{
    text.strip_suffix(b"\n")
}

/// The order that a text is, with its line feed, and the moment that it gives.
pub fn order_in(text: &[u8]) -> Option<(u64, Order)>
    ensures said { MatchOption result ((moment : ℕ) (it : Order) → IsWritten (order moment it) text.now → ⊥)
        (λ said. IsWritten (order said.0 said.1) text.now) }
    ensures happens { IfSome result (λ said. CanHappen (order said.0 said.1)) }
{
    let line = whole_line(text)?;
    match read_line(line)? {
        ScriptLine::Order { moment, order } => Some((moment, order)),
        ScriptLine::Request {
            moment: _,
            length: _,
        } => None,
    }
}
