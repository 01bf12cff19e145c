//! Work over a connection to a database.
ghost use Rattle.std.specs.Prelude.{◌≡◌, ◌||◌, MatchResult, true};
ghost use Rattle.acvp_commands.specs.Work.{IsWork};
ghost use Rattle.acvp_opening.specs.Runs.{IsPrepared, IsWorked, MayTakeBack, is_prepared};

use crate::databases::Preparing;
use acvp_commands::{Fault, Message, Task, Work, done_over};
use sqlite::{Alter, Connection};

/// Whether a database is to be prepared for this.
fn is_prepared(work: &Work) -> bool
    ensures { result ≡ is_prepared work.now }
{
    match work {
        Work::Make | Work::Take(Task::Order(_)) => false,
        Work::Move | Work::Take(Task::Serve { .. }) => true,
    }
}

/// Prepares a database for this, if it has to be, and says whether something was put in.
fn prepared<S: Alter + Drop, H: Preparing>(
    host: &mut H,
    connection: Connection<S>,
    work: &Work,
) -> (Connection<S>, Result<Option<H::Added>, Fault>)
    ensures { MatchResult result.1
        (λ added. IsPrepared H.preparation (is_prepared work.now) host.old host.new work.now connection result.0 added)
        (λ fault. (is_prepared work.now ≡ true)
        × H.preparation.refuses host.old host.new work.now connection result.0 fault) }
{
    if is_prepared(work) {
        return host.prepare(connection, work);
    }
    (connection, Ok(None))
}

/// Whether a database is to be closed even if its work isn't done.
fn is_wanted_closed(has_served: bool, has_added: bool) -> bool
    ensures { result ≡ has_served || has_added }
{
    has_served || has_added
}

/// Takes out of a database again what was put in, if anything was and no port was said to be open.
fn taken_back<S: Alter + Drop, H: Preparing>(
    host: &mut H,
    connection: Connection<S>,
    added: Option<H::Added>,
) -> Connection<S>
    ensures { MayTakeBack H.preparation added (H.preparation.has_served host.old) host.old host.new connection result }
{
    match added {
        Some(added) if !host.has_served() => host.take_back(connection, added),
        _ => connection,
    }
}

/// Prepares a database, does this over it, and says what came of it, and whether the database is to be closed
/// even if the work isn't done.
pub fn worked<S: Alter + Drop, H: Preparing>(
    host: &mut H,
    connection: Connection<S>,
    work: Work,
) -> (Connection<S>, Result<Message, Fault>, bool)
    requires { IsWork work }
    ensures { IsWorked S.Store H.hosting H.preparation H.Port.listening H.Port.Input.stream H.Port.Output.stream work
        host.old host.new connection result.0 result.1 result.2 }
{
    let (connection, known) = prepared(host, connection, &work);
    let added = match known {
        Ok(added) => added,
        Err(fault) => return (connection, Err(fault), false),
    };
    let (connection, outcome) = done_over(host, connection, work);
    let wanted = is_wanted_closed(host.has_served(), added.is_some());
    (taken_back(host, connection, added), outcome, wanted)
}
