//! What is there in place of what a command needs, where its fault's word doesn't say it: told as a cause is.
use crate::copies::{Visit, in_copy};
use crate::full::is_disk_full;
use crate::made::{file_to_make, option_of_made};
use acvp_causes::{Because, Cause, name_of};
use acvp_commands::{Deed, Fault, Invocation};
use acvp_desk::may_approve;
use acvp_files::schema_of_copy;
use acvp_store::SqlTables;
use acvp_tables::{RequestStatus, StoreFault, Tables};
use sqlite::Alter;
use std::fs;

/// What to do about a file of an earlier schema.
const MIGRATE: &str = ": run migrate";

/// Looks up what was decided on the request of a number.
#[derive(Clone, Copy)]
struct Decided(u64);

impl Visit for Decided {
    type Told = Result<Option<RequestStatus>, StoreFault>;

    fn visit<S: Alter + Drop>(self, tables: SqlTables<S>) -> Self::Told {
        let Decided(number) = self;
        let mut tables = tables;
        tables.request_status(number)
    }
}

/// Looks up whether the account of a number is enabled.
#[derive(Clone, Copy)]
struct Enabled(u16);

impl Visit for Enabled {
    type Told = Result<Option<bool>, StoreFault>;

    fn visit<S: Alter + Drop>(self, tables: SqlTables<S>) -> Self::Told {
        let Enabled(number) = self;
        let mut tables = tables;
        match tables.account(number)? {
            Some(row) => Ok(Some(row.enabled)),
            None => Ok(None),
        }
    }
}

/// Looks up whether the request of a number may be approved.
#[derive(Clone, Copy)]
struct Approvable(u64);

impl Visit for Approvable {
    type Told = Result<bool, StoreFault>;

    fn visit<S: Alter + Drop>(self, tables: SqlTables<S>) -> Self::Told {
        let Approvable(number) = self;
        let mut tables = tables;
        may_approve(&mut tables, number)
    }
}

/// Tells which schema a file names, and what to do about it.
fn tell_schema(rt: &HostRuntime, option: &str, path: &str, advice: &str) {
    let _ = match schema_of_copy(rt, path) {
        Ok(Some(number)) if number == 1 || number == 2 => {
            eprintln!(rt; "because: {option}: it names schema {number}{advice}")
        }
        Ok(Some(3)) => eprintln!(rt;
            "because: {option}: it names schema 3, but its tables and indexes aren't exactly those"
        ),
        Ok(Some(number)) => eprintln!(rt;
            "because: {option}: it names schema {number}, which this program doesn't know"
        ),
        Ok(None) | Err(_) if is_empty(rt, path) => {
            eprintln!(rt; "because: {option}: it is empty: init fills it")
        }
        Ok(None) | Err(_) => Ok(()),
    };
}

/// Whether a file is there, and empty.
pub(crate) fn is_empty(rt: &HostRuntime, path: &str) -> bool {
    match fs::metadata(rt, path) {
        Ok(there) => there.is_file() && there.len() == 0,
        Err(_) => false,
    }
}

/// What to do about a file that names an earlier schema, if migrate hasn't refused it.
fn advice_for(deed: Deed<'_>) -> &'static str {
    match deed {
        Deed::Migrate => ", but its tables and indexes aren't exactly those",
        _ => MIGRATE,
    }
}

/// Tells as what a request was decided.
fn tell_decided(rt: &HostRuntime, db: &str, request: u64) {
    let Ok(Ok(Some(status))) = in_copy(rt, db, Decided(request)) else {
        return;
    };
    let _ = match status {
        RequestStatus::Approved(number) => eprintln!(rt;
            "because: --request: it was approved, as {number}"
        ),
        RequestStatus::Rejected => eprintln!(rt; "because: --request: it was rejected"),
        RequestStatus::Initial => Ok(()),
    };
}

/// Tells which account is there.
fn tell_account(rt: &HostRuntime, db: &str, account: u16) {
    let Ok(Ok(Some(enabled))) = in_copy(rt, db, Enabled(account)) else {
        return;
    };
    let word = if enabled { "enabled" } else { "disabled" };
    let _ = eprintln!(rt; "because: --account: account {account} is there, and {word}");
}

/// Tells of an approval that a row that it rests on isn't as a run leaves it, if that is seen.
pub(crate) fn tell_unsound(rt: &HostRuntime, db: &str, deed: Deed<'_>) -> bool {
    let Deed::ApproveRequest { request } = deed else {
        return false;
    };
    let is_unsound = matches!(
        in_copy(rt, db, Approvable(request)),
        Ok(Ok(false) | Err(StoreFault::Refused))
    );
    if is_unsound {
        let _ = eprintln!(rt; "because: --request: a row that it rests on is wrong: run check");
    }
    is_unsound
}

/// Tells what is in the way of a deed, if its fault is one of these.
pub(crate) fn tell_reason_of(rt: &HostRuntime, db: &str, deed: Deed<'_>, fault: Fault) {
    match (deed, fault) {
        (_, Fault::Schema) => tell_schema(rt, "--db", db, advice_for(deed)),
        (Deed::ApproveRequest { request } | Deed::RejectRequest { request }, Fault::NotInitial) => {
            tell_decided(rt, db, request);
        }
        (Deed::AddAccount { account, .. }, Fault::Taken) => tell_account(rt, db, account),
        _ => {}
    }
}

/// Tells what is in the way of a command, if its fault is one of these.
pub(crate) fn tell_reason(rt: &HostRuntime, asked: Invocation<'_>, fault: Fault) {
    match (asked, fault) {
        (Invocation::On(db, deed), _) => tell_reason_of(rt, db, deed, fault),
        (Invocation::At(db, _), Fault::Schema) => tell_schema(rt, "--db", db, MIGRATE),
        (Invocation::Restore { from, .. }, Fault::Schema) => {
            tell_schema(rt, "--from", from, ": run migrate on a copy of it");
        }
        (Invocation::Backup { .. }, Fault::Taken) => {
            let _ = eprintln!(rt;
                "because: --to: it is there, or a -wal file or a journal of its name"
            );
        }
        (Invocation::Make(making), Fault::Taken) => {
            let option = option_of_made(making);
            let _ = eprintln!(rt;
                "because: {option}: it is there, or a -wal file or a journal of its name"
            );
        }
        _ => {}
    }
}

/// The option that names the file which a command writes, and that file.
fn written<'a>(asked: Invocation<'a>) -> Option<(&'static str, &'a str)> {
    match asked {
        Invocation::On(db, _) | Invocation::At(db, _) | Invocation::Restore { db, .. } => {
            Some(("--db", db))
        }
        Invocation::Backup { to, .. } => Some(("--to", to)),
        Invocation::Make(making) => Some((option_of_made(making), file_to_make(making))),
        Invocation::Script(_) => None,
    }
}

/// Tells that a disk is full, if it is the one of a file that an option names, or to which its link leads.
fn tell_full_of(rt: &HostRuntime, option: &str, path: &str) -> bool {
    let is_full = match name_of(rt, path) {
        Ok(name) => is_disk_full(rt, name.as_str()),
        Err(_) => false,
    };
    if is_full {
        let _ = eprintln!(rt; "because: {option}: its disk is full");
    }
    is_full
}

/// Tells that the disk of the database is full, if it is.
pub(crate) fn tell_full_database(rt: &HostRuntime, db: &str) -> bool {
    tell_full_of(rt, "--db", db)
}

/// Whether a full disk may be behind this.
fn may_be_full(cause: Cause) -> bool {
    matches!(
        cause,
        Cause::Unmade | Cause::Unplaced | Cause::Copy | Cause::Store(_) | Cause::Damaged
    )
}

/// Tells that the disk is full on which a command writes, if that may be behind this cause, and it is.
pub(crate) fn tell_full(rt: &HostRuntime, asked: Invocation<'_>, because: Because) -> bool {
    match written(asked) {
        Some((option, path)) if may_be_full(because.cause) => tell_full_of(rt, option, path),
        _ => false,
    }
}
