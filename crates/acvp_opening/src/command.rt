//! A command, from the opening of the database of a name to its end.
ghost use Rattle.std.specs.Prelude.{◌≡◌, option_map, string_bytes};
ghost use Rattle.acvp_commands.specs.Work.{IsWork};
ghost use Rattle.acvp_copying.specs.Deeds.{Did};
ghost use Rattle.acvp_desk.specs.Orders.{IsOrder};
ghost use Rattle.acvp_opening.specs.Runs.{IsAnswered, IsCommand, IsEnded, IsGivenUp, IsOrdered, IsOver, IsRelayed};
ghost use Rattle.acvp_opening.specs.Runs.{IsSaid, IsUnopened, closes, said_at_end, may_be_made};

use crate::answers::{Answer, meaning_of};
use crate::databases::{Databases, Unopened};
use acvp_commands::{Fault, Message, Task, Work, order_line};
use acvp_desk::Order;

/// What a command says at its end.
#[derive(Drop)]
pub enum Said {
    /// A line of its own.
    Line(Message),

    /// What the server that has the database answers to the order.
    Relayed(Answer),
}

/// Whether a file that isn't there yet may be made.
fn may_be_made(work: &Work) -> bool
    ensures { result ≡ may_be_made work.now }
{
    matches!(work, Work::Make)
}

/// What comes of the work, as what the command says.
fn said_at_end(outcome: Result<Message, Fault>) -> Result<Said, Fault>
    ensures { result ≡ said_at_end outcome }
{
    match outcome {
        Ok(message) => Ok(Said::Line(message)),
        Err(fault) => Err(fault),
    }
}

/// Gives a database up as it is. If it had no log, it has none again.
fn give_up<D: Databases>(databases: &mut D, name: &str, opened: D::Open, is_new_log: bool)
    ensures { Did D.does (IsGivenUp name.now is_new_log opened) databases.old databases.new }
{
    if !is_new_log {
        databases.let_go(opened);
        return;
    }
    databases.remove_log(name);
    databases.let_go(opened);
}

/// Closes a database if it is to be closed, and else gives it up as it is.
fn end<D: Databases>(databases: &mut D, name: &str, opened: D::Open, closes: bool, is_new_log: bool)
    ensures { Did D.does (IsEnded name.now is_new_log opened closes) databases.old databases.new }
{
    if closes {
        databases.close(opened);
        return;
    }
    give_up(databases, name, opened, is_new_log);
}

/// Whether a database is closed: one whose work is done is, and another one if that is wanted.
fn closes(outcome: &Result<Message, Fault>, wanted: bool) -> bool
    ensures { result ≡ closes outcome.now wanted }
{
    outcome.is_ok() || wanted
}

/// Does this over a database that is open, and gives it up.
fn done_over_open<D: Databases>(
    databases: &mut D,
    name: &str,
    opened: D::Open,
    work: Work,
    is_new_log: bool,
) -> Result<Said, Fault>
    requires { IsWork work }
    ensures { Did D.does (IsOver name.now work is_new_log opened result) databases.old databases.new }
{
    let (ended, outcome, wanted) = databases.work(opened, work);
    let closes = closes(&outcome, wanted);
    end(databases, name, ended, closes, is_new_log);
    said_at_end(outcome)
}

/// What is said where the server of a database answered this. If nobody answers, the database is unavailable.
fn said_of(answer: Option<String>) -> Result<Said, Fault>
    ensures { IsSaid (option_map string_bytes answer) result }
{
    match answer {
        Some(line) => Ok(Said::Relayed(meaning_of(line))),
        None => Err(Fault::Unavailable),
    }
}

/// Sends a line to the server that has a database, and gives its answer.
fn asked<D: Databases>(databases: &mut D, name: &str, line: &str) -> Result<Said, Fault>
    ensures { Did D.does (IsAnswered name.now line.now result) databases.old databases.new }
{
    match databases.ask(name, line) {
        Ok(answer) => said_of(answer),
        Err(fault) => Err(fault),
    }
}

/// Has the server that has a database carry an order out.
fn relayed<D: Databases>(databases: &mut D, name: &str, order: &Order) -> Result<Said, Fault>
    requires { IsOrder order.now }
    ensures { Did D.does (IsOrdered name.now order.now result) databases.old databases.new }
{
    let moment = databases.moment();
    match order_line(databases.alloc(), moment, order) {
        Ok(line) => asked(databases, name, line.as_str()),
        Err(_) => Err(Fault::Memory),
    }
}

/// Has an order carried out by the server that has the database. Other work needs the database itself.
fn done_by_server<D: Databases>(databases: &mut D, name: &str, work: &Work) -> Result<Said, Fault>
    requires { IsWork work.now }
    ensures { Did D.does (IsRelayed name.now work.now result) databases.old databases.new }
{
    match work {
        Work::Take(Task::Order(order)) => relayed(databases, name, order),
        _ => Err(Fault::Unavailable),
    }
}

/// What is done about a database that isn't opened.
fn unopened<D: Databases>(
    databases: &mut D,
    name: &str,
    work: &Work,
    why: Unopened,
) -> Result<Said, Fault>
    requires { IsWork work.now }
    ensures { Did D.does (IsUnopened name.now work.now why result) databases.old databases.new }
{
    match why {
        Unopened::Taken => done_by_server(databases, name, work),
        Unopened::Failed(fault) => Err(fault),
    }
}

/// Does this with the database of a name, and gives what the command says at its end.
pub fn done_at<D: Databases>(databases: &mut D, name: &str, work: Work) -> Result<Said, Fault>
    requires { IsWork work }
    ensures { Did D.does (IsCommand name.now work result) databases.old databases.new }
{
    let is_new_log = databases.has_no_log(name);
    match databases.open(name, may_be_made(&work)) {
        Ok(opened) => done_over_open(databases, name, opened, work, is_new_log),
        Err(why) => unopened(databases, name, &work, why),
    }
}
