//! Why a command failed, as far as it can be seen at its files afterwards.
use crate::copies::{Visit, in_copy};
use crate::failure::Failed;
use crate::made::{file_to_make, keys_to_change, option_of_made};
use crate::seeds;
use acvp_causes::{
    Because, Cause, Place, are_there, cause_of_database, cause_of_error, cause_of_folder,
    cause_of_maker, cause_of_path, cause_of_source, is_companion, is_copy, is_left_alone, is_moved,
    keys_fault, name_of, secret_fault, text_at, why_unnamed,
};
use acvp_commands::{Deed, Fault, Invocation, Look, Making};
use acvp_connections::FileFault;
use acvp_files::{Step, schema_of_copy};
use acvp_gen::Seeds;
use acvp_keys::{bytes_of, read_keys};
use acvp_port::has_server;
use acvp_store::SqlTables;
use sqlite::Alter;
use std::alloc::{AllocGlobal, Global};
use std::{fs, io};

/// The name of a database, or its path where there is no name: whoever looks at the path then tells why.
fn name_or<'a>(name: &'a io::Result<String>, path: &'a str) -> &'a str {
    match name {
        Ok(name) => name.as_str(),
        Err(_) => path,
    }
}

/// Tells a cause on standard error.
pub(crate) fn tell_because(rt: &HostRuntime, because: Because) {
    let _ = eprintln!(rt; "{because}");
}

/// Why a database can't be opened, where that can be seen. One that is held, beside whose file a server answers, is
/// that server's.
fn cause_of_held(rt: &HostRuntime, db: &str) -> Option<Because> {
    let name = name_of(rt, db);
    match cause_of_database(rt, db) {
        Some(because) if is_held(because) && has_server(rt, rt.alloc(), name_or(&name, db)) => {
            Some(Because::of("--db", Cause::Served))
        }
        because => because,
    }
}

/// Whether a database's file can't be opened because another process has it.
fn is_held(because: Because) -> bool {
    matches!((because.place, because.cause), (Place::Itself, Cause::Held))
}

/// Whether there is no file of the database.
fn is_missing(because: Because) -> bool {
    matches!(
        (because.place, because.cause),
        (Place::Itself, Cause::Missing)
    )
}

/// Of which tables the rows are that a command reads.
fn tables_of(deed: Deed<'_>) -> &'static str {
    match deed {
        Deed::AddAccount { .. } | Deed::DisableAccount { .. } => " of account",
        Deed::ApproveRequest { .. } => " of request, of object or of what is certified",
        Deed::RejectRequest { .. } => " of request or of its session",
        Deed::Init | Deed::Migrate | Deed::Serve { .. } => "",
    }
}

/// Why a path can't be that of a new file: this, if nothing else can be seen.
fn cause_at(rt: &HostRuntime, path: &str, cause: Cause) -> Cause {
    match cause_of_folder(rt, path) {
        Some(cause) => cause,
        None => cause_of_path(path).unwrap_or(cause),
    }
}

/// Why a database can't be made where there is no file.
fn why_unmade(rt: &HostRuntime, db: &str) -> Cause {
    match is_left_alone(rt, db) {
        Ok(true) => Cause::LogAlone,
        Ok(false) => cause_at(rt, db, Cause::Unmade),
        Err(_) => Cause::Memory,
    }
}

/// Why a database was unavailable of which nothing else can be seen: this, unless a copy of it can't be opened either.
fn cause_inside(rt: &HostRuntime, path: &str, cause: Cause) -> Cause {
    match schema_of_copy(rt, path) {
        Err(FileFault::Broken) => Cause::Broken,
        _ => cause,
    }
}

/// Why a database was unavailable.
fn why_unavailable(rt: &HostRuntime, db: &str, deed: Deed<'_>) -> Because {
    let is_new = matches!(deed, Deed::Init);
    match cause_of_held(rt, db) {
        Some(because) if is_new && is_missing(because) => {
            Because::of("--db", why_unmade(rt, db))
        }
        Some(because) => because,
        None if is_new && are_there(rt, db) => Because::of("--db", Cause::Tables),
        None => Because::of("--db", cause_inside(rt, db, Cause::Store(tables_of(deed)))),
    }
}

/// What a file of text holds, if it can be read again: what is no file gives its bytes once.
fn text_again(rt: &HostRuntime, path: &str) -> Option<io::Result<Vec<u8>>> {
    match fs::metadata(rt, path) {
        Ok(there) if !there.is_file() && !there.is_dir() => None,
        _ => Some(text_at(rt, path)),
    }
}

/// Finds the seed that is another than the one that a database was served with, or that is lacking.
#[derive(Clone, Copy)]
struct WrongSeed<'a> {
    alloc: Global,
    seeds: &'a Seeds,
}

impl Visit for WrongSeed<'_> {
    type Told = Result<Option<Cause>, Fault>;

    fn visit<S: Alter + Drop>(self, tables: SqlTables<S>) -> Result<Option<Cause>, Fault> {
        seeds::cause_of_seeds(self.alloc, tables, self.seeds)
    }
}

/// Why seeds were refused for a database, if it was served with another one at some place, or with one more.
fn cause_of_seeds(rt: &HostRuntime, db: &str, seeds: &Seeds) -> Option<Cause> {
    let alloc = rt.alloc();
    match in_copy(rt, db, WrongSeed { alloc, seeds }) {
        Ok(Ok(cause)) => cause,
        _ => None,
    }
}

/// Why good keys were refused, for a database or for none: this, if nothing else can be seen.
fn cause_of_good_keys(rt: &HostRuntime, db: Option<&str>, seeds: &Seeds, good: Cause) -> Cause {
    match db {
        Some(db) => cause_of_seeds(rt, db, seeds).unwrap_or(good),
        None => good,
    }
}

/// Why the keys in a file were refused, for a database or for none, and what that comes to where its text is of their
/// form.
fn cause_of_keys(rt: &HostRuntime, path: &str, db: Option<&str>, good: Cause) -> Option<Cause> {
    if let Some(cause) = cause_of_maker(rt, path, db) {
        return Some(cause);
    }
    match text_again(rt, path)? {
        Ok(text) => match read_keys(&text) {
            Some((_, seeds)) => Some(cause_of_good_keys(rt, db, &seeds, good)),
            None => Some(Cause::Text(keys_fault(&text))),
        },
        Err(error) => Some(cause_of_error(error)),
    }
}

/// The same, of the option --keys.
fn why_keys(rt: &HostRuntime, path: &str, db: Option<&str>, good: Cause) -> Option<Because> {
    match cause_of_keys(rt, path, db, good) {
        Some(cause) => Some(Because::of("--keys", cause)),
        None => None,
    }
}

/// Why the secret in a file was refused, for an account of a database.
fn cause_of_secret(rt: &HostRuntime, path: &str, db: &str) -> Option<Cause> {
    if let Some(cause) = cause_of_maker(rt, path, Some(db)) {
        return Some(cause);
    }
    match text_again(rt, path)? {
        Ok(text) => match bytes_of(&text) {
            Some(_) => Some(Cause::Good),
            None => Some(Cause::Text(secret_fault(&text))),
        },
        Err(error) => Some(cause_of_error(error)),
    }
}

/// The same, of the option --secret.
fn why_secret(rt: &HostRuntime, path: &str, db: &str) -> Option<Because> {
    match cause_of_secret(rt, path, db) {
        Some(cause) => Some(Because::of("--secret", cause)),
        None => None,
    }
}

/// Why a command on the database of a name failed so, where its fault's word doesn't say all.
fn why_failed_on(rt: &HostRuntime, name: &str, deed: Deed<'_>, fault: Fault) -> Option<Because> {
    match (deed, fault) {
        (_, Fault::Unavailable) => Some(why_unavailable(rt, name, deed)),
        (Deed::Serve { keys, .. }, Fault::Keys) => { why_keys(rt, keys, Some(name), Cause::NoSeed) }
        (Deed::AddAccount { secret, .. }, Fault::Secret) => why_secret(rt, secret, name),
        _ => None,
    }
}

/// Why the database that an option names can't be copied, where that can be seen.
pub(crate) fn why_uncopied(rt: &HostRuntime, option: &'static str, path: &str) -> Option<Because> {
    let name = match name_of(rt, path) {
        Ok(name) => name,
        Err(error) => return Some(Because::of(option, why_unnamed(rt, path, error))),
    };
    if is_copy(name.as_str()) {
        return Some(Because::of(option, Cause::Left));
    }
    if let Some(because) = cause_of_source(rt, option, name.as_str()) {
        return Some(because);
    }
    if let Some(cause) = cause_of_path(name.as_str()) {
        return Some(Because::of(option, cause));
    }
    match format!(in rt.alloc(); "{}-wal", name.as_str()) {
        Ok(log) => match is_moved(rt, name.as_str(), log.as_str()) {
            Ok(true) => Some(Because::of(option, Cause::Moved)),
            _ => None,
        },
        Err(_) => None,
    }
}

/// Why a copy can't have a path, or can't be begun beside it: this, if nothing else can be seen.
fn why_unplaced(rt: &HostRuntime, option: &'static str, path: &str, cause: Cause) -> Because {
    let cause = if is_companion(path) {
        Cause::Companion
    } else if is_copy(path) {
        Cause::Left
    } else {
        cause_at(rt, path, cause)
    };
    Because::of(option, cause)
}

/// Why a copy can't be put in the place of a database.
fn why_not_replaced(rt: &HostRuntime, db: &str) -> Because {
    if let Err(error) = name_of(rt, db) {
        return Because::of("--db", why_unnamed(rt, db, error));
    }
    match cause_of_held(rt, db) {
        Some(because) if is_missing(because) && matches!(is_left_alone(rt, db), Ok(true)) => {
            Because::of("--db", Cause::LogAlone)
        }
        Some(because) if !is_missing(because) => because,
        _ => why_unplaced(rt, "--db", db, Cause::Unplaced),
    }
}

/// Why a database that an option names wasn't copied, by the step that failed.
fn why_at_source(rt: &HostRuntime, option: &'static str, path: &str, step: Step) -> Because {
    let seen = match step {
        Step::Content => None,
        _ => why_uncopied(rt, option, path),
    };
    match (seen, step) {
        (Some(because), _) => because,
        (None, Step::Content) => Because::of(option, cause_inside(rt, path, Cause::Damaged)),
        (None, _) => Because::of(option, Cause::Copy),
    }
}

/// Why there is no backup, by the step that failed.
fn why_no_backup(rt: &HostRuntime, db: &str, to: &str, step: Step) -> Because {
    match step {
        Step::Begin => why_unplaced(rt, "--to", to, Cause::Unmade),
        Step::Target => why_unplaced(rt, "--to", to, Cause::Unplaced),
        _ => why_at_source(rt, "--db", db, step),
    }
}

/// Why a backup wasn't restored, by the step that failed.
fn why_not_restored(rt: &HostRuntime, from: &str, db: &str, step: Step) -> Because {
    match step {
        Step::Begin => why_unplaced(rt, "--db", db, Cause::Unmade),
        Step::Target => why_not_replaced(rt, db),
        _ => why_at_source(rt, "--from", from, step),
    }
}

/// Why nothing was shown of a database, where the fault's word doesn't say all.
fn why_not_shown(rt: &HostRuntime, db: &str, look: Look<'_>, fault: Fault) -> Option<Because> {
    match (look, fault) {
        (Look::Request { keys, .. } | Look::Check { keys, .. }, Fault::Keys) => {
            why_keys(rt, keys, Some(db), Cause::NoSeed)
        }
        (Look::Certificate { keys, .. }, Fault::Keys) => {
            why_keys(rt, keys, Some(db), Cause::OtherSeed)
        }
        (_, Fault::Unavailable) => match why_uncopied(rt, "--db", db) {
            Some(because) => Some(because),
            None => Some(Because::of("--db", cause_inside(rt, db, Cause::Store("")))),
        },
        _ => None,
    }
}

/// The option that names the keys file whose lines are taken, and what forbids the change of a good one.
fn option_of_change(making: Making<'_>) -> (&'static str, Cause) {
    match making {
        Making::TokenMore { .. } => ("--add-token", Cause::Full),
        Making::TokenLess { .. } => ("--retire", Cause::LastKey),
        Making::SeedMore { .. } | Making::Keys { .. } | Making::Secret { .. } => {
            ("--add-seed", Cause::Full)
        }
    }
}

/// Why a file of keys or of a secret wasn't made.
fn why_not_made(rt: &HostRuntime, making: Making<'_>, fault: Fault) -> Option<Because> {
    match (keys_to_change(making), fault) {
        (Some(from), Fault::Keys) => {
            let (option, good) = option_of_change(making);
            match cause_of_keys(rt, from, None, good) {
                Some(cause) => Some(Because::of(option, cause)),
                None => None,
            }
        }
        (_, Fault::Unavailable) => {
            let option = option_of_made(making);
            Some(why_unplaced(rt, option, file_to_make(making), Cause::Unmade))
        }
        _ => None,
    }
}

/// Why a command failed so, where its fault's word doesn't say all.
pub(crate) fn why_failed(
    rt: &HostRuntime,
    asked: Invocation<'_>,
    failed: Failed,
) -> Option<Because> {
    let fault = failed.fault;
    match (asked, fault, failed.step) {
        (Invocation::On(db, deed), _, _) => {
            let name = name_of(rt, db);
            why_failed_on(rt, name_or(&name, db), deed, fault)
        }
        (Invocation::At(db, look), _, _) => why_not_shown(rt, db, look, fault),
        (Invocation::Backup { db, to }, Fault::Unavailable, Some(step)) => {
            Some(why_no_backup(rt, db, to, step))
        }
        (Invocation::Restore { from, db }, Fault::Unavailable, Some(step)) => {
            Some(why_not_restored(rt, from, db, step))
        }
        (Invocation::Make(making), _, _) => why_not_made(rt, making, fault),
        (Invocation::Script(keys), Fault::Keys, _) => why_keys(rt, keys, None, Cause::Good),
        _ => None,
    }
}
