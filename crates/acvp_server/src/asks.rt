//! What an order is about to do, and whether it is wanted. An order that is given can't be taken back.
use crate::copies::{Visit, in_copy};
use crate::database::fault_of_files;
use crate::looks::fault_of_view;
use crate::reasons::is_empty;
use crate::why::why_uncopied;
use acvp_causes::{has_log, name_of};
use acvp_commands::{Deed, Fault};
use acvp_files::schema_of_copy;
use acvp_store::SqlTables;
use acvp_tables::{RequestStatus, Tables};
use acvp_view::{Form, Lines, ViewFault, show_account, show_request};
use sqlite::Alter;
use std::alloc::AllocGlobal;
use std::io::{self, IsTerminal};

/// Standard error, where a question stands, since standard output has what was done alone.
#[derive(Drop)]
struct Shown<'a>(&'a HostRuntime);

impl Lines for Shown<'_> {
    ghost use Rattle.std.specs.Prelude.{⊤};

    // No contract can say what is printed.
    ghost takes = { λ _ _ _. ⊤ };

    fn take(&mut self, line: &str) -> Result<(), ViewFault> {
        let Shown(rt) = self;
        match eprintln!(rt; "{line}") {
            Ok(()) => Ok(()),
            Err(_) => Err(ViewFault::Write),
        }
    }
}

/// Shows what a decision on the request of a number is about, and whose the request is.
fn show_asked<S: Alter + Drop>(
    rt: &HostRuntime,
    tables: &mut SqlTables<S>,
    number: u64,
) -> Result<(), ViewFault> {
    let mut shown = Shown(rt);
    let request = show_request(rt.alloc(), tables, &mut shown, Form::Words, number)?;
    show_account(rt.alloc(), tables, &mut shown, Form::Words, request.account)
}

/// Shows the same of a request that waits, and says whether it does: one that was decided stays so, whatever is asked.
fn show_waiting<S: Alter + Drop>(
    rt: &HostRuntime,
    tables: &mut SqlTables<S>,
    number: u64,
) -> Result<bool, ViewFault> {
    match tables.request_status(number)? {
        Some(RequestStatus::Initial) => {
            show_asked(rt, tables, number)?;
            Ok(true)
        }
        Some(_) => Ok(false),
        None => Err(ViewFault::Unknown),
    }
}

/// Shows the line of an account that is enabled, and says whether it is: one that is disabled stays so.
fn show_enabled<S: Alter + Drop>(
    rt: &HostRuntime,
    tables: &mut SqlTables<S>,
    account: u16,
) -> Result<bool, ViewFault> {
    match tables.account(account)? {
        Some(row) if row.enabled => {
            show_account(rt.alloc(), tables, &mut Shown(rt), Form::Words, account)?;
            Ok(true)
        }
        Some(_) => Ok(false),
        None => Err(ViewFault::Unknown),
    }
}

/// Shows what an order is about, and says whether there is anything to ask for.
#[derive(Clone, Copy)]
struct Shows<'a> {
    rt: &'a HostRuntime,
    deed: Deed<'a>,
}

impl Visit for Shows<'_> {
    type Told = Result<bool, ViewFault>;

    fn visit<S: Alter + Drop>(self, tables: SqlTables<S>) -> Result<bool, ViewFault> {
        let Shows { rt, deed } = self;
        let mut tables = tables;
        match deed {
            Deed::DisableAccount { account } => show_enabled(rt, &mut tables, account),
            Deed::ApproveRequest { request } | Deed::RejectRequest { request } => {
                show_waiting(rt, &mut tables, request)
            }
            _ => Ok(true),
        }
    }
}

/// Shows what an order is about, as a copy of the database tells, and says whether there is anything to ask for.
fn show_order(rt: &HostRuntime, db: &str, deed: Deed<'_>) -> Result<bool, Fault> {
    match in_copy(rt, db, Shows { rt, deed })? {
        Ok(asks) => Ok(asks),
        Err(fault) => Err(fault_of_view(fault)),
    }
}

/// Shows of which schema the tables are that are to be moved, and says whether there are any: those of this version, or
/// of a later one, stay as they are.
fn show_schema(rt: &HostRuntime, db: &str) -> Result<bool, Fault> {
    match schema_of_copy(rt, db) {
        Ok(Some(number)) if number == 1 || number == 2 => {
            match eprintln!(rt; "{db}: tables of schema {number}, of an earlier version") {
                Ok(()) => Ok(true),
                Err(_) => Err(Fault::Write),
            }
        }
        Ok(Some(_)) => Ok(false),
        Ok(None) => Err(Fault::Schema),
        Err(fault) => Err(fault_of_files(fault)),
    }
}

/// Whether there is a file at a path that holds nothing, and no log that could fill it.
fn is_blank(rt: &HostRuntime, db: &str) -> bool {
    match name_of(rt, db) {
        Ok(name) => is_empty(rt, name.as_str()) && !has_log(rt, name.as_str()),
        Err(_) => false,
    }
}

/// Shows what is to be changed, and says whether there is anything to ask for.
fn show_deed(rt: &HostRuntime, db: &str, deed: Deed<'_>) -> Result<bool, Fault> {
    if is_blank(rt, db) {
        return Err(Fault::Schema);
    }
    match deed {
        Deed::Migrate => show_schema(rt, db),
        _ => show_order(rt, db, deed),
    }
}

/// Whether a deed is asked for, since it can't be taken back.
fn is_asked_for(deed: Deed<'_>) -> bool {
    matches!(
        deed,
        Deed::Migrate
            | Deed::DisableAccount { .. }
            | Deed::ApproveRequest { .. }
            | Deed::RejectRequest { .. }
    )
}

/// Asks for a deed that can't be taken back. The number stands here too, since what is shown above it may be long.
fn ask(rt: &HostRuntime, deed: Deed<'_>) -> io::Result<()> {
    match deed {
        Deed::Migrate => eprint!(rt;
            "Move all records to schema 3, which an earlier version can't read? [y/N] "
        ),
        Deed::DisableAccount { account } => {
            eprint!(rt; "Disable account {account} for good? [y/N] ")
        }
        Deed::ApproveRequest { request } => eprint!(rt; "Approve request {request}? [y/N] "),
        Deed::RejectRequest { request } => eprint!(rt; "Reject request {request}? [y/N] "),
        _ => Ok(()),
    }
}

/// Whether a whole line says yes.
fn is_yes(line: &str) -> bool {
    matches!(line, "y\n" | "Y\n" | "yes\n" | "Yes\n" | "YES\n")
}

/// Whether what is typed at the question of a deed says yes. Nothing, as at the end of the input, says no.
fn is_answered(rt: &HostRuntime, deed: Deed<'_>) -> bool {
    let mut line = String::new(rt.alloc());
    if ask(rt, deed).is_err() {
        return false;
    }
    match rt.read_line(&mut line) {
        Ok(_) => is_yes(line.as_str()),
        Err(_) => false,
    }
}

/// Whether somebody is there to answer: standard input is a terminal.
pub(crate) fn is_there(rt: &HostRuntime) -> bool {
    rt.stdin().is_terminal()
}

/// Whether a question would be asked where nobody sees it: standard error is no terminal.
pub(crate) fn is_unseen(rt: &HostRuntime, deed: Deed<'_>) -> bool {
    is_asked_for(deed) && !rt.stderr().is_terminal()
}

/// Says how an order is given that can't be shown, if nothing else can be seen that stands in the way.
fn tell_unshown(rt: &HostRuntime, db: &str, fault: Fault) {
    if matches!(fault, Fault::Unavailable | Fault::Memory)
        && why_uncopied(rt, "--db", db).is_none()
    {
        let _ = eprintln!(rt;
            "what is to be changed can't be shown: with --yes it is tried all the same"
        );
    }
}

/// Whether what is to be done is wanted: what can't be taken back is shown, and asked for. What isn't there, or can't
/// be shown, is refused: it may be there once the question were answered.
pub(crate) fn is_wanted(rt: &HostRuntime, db: &str, deed: Deed<'_>) -> Result<bool, Fault> {
    if !is_asked_for(deed) {
        return Ok(true);
    }
    match show_deed(rt, db, deed) {
        Ok(asks) => Ok(!asks || is_answered(rt, deed)),
        Err(fault) => {
            tell_unshown(rt, db, fault);
            Err(fault)
        }
    }
}
