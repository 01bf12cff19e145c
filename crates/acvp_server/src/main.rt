//! The program: its command line, and what each subcommand runs.
#![tactic(auto)]

ghost use Rattle.acvp_commands.specs.Asked.{NamesAccount, NamesAccountToDo};

mod asks;
mod command;
mod copies;
mod database;
mod failure;
mod flags;
mod full;
mod host;
mod log;
mod looks;
mod made;
mod makers;
mod port;
mod printing;
mod reasons;
mod room;
mod script;
mod secrets;
mod seeds;
mod version;
mod why;

use crate::asks::{is_there, is_unseen, is_wanted};
use crate::command::{LOG, VERBOSE, YES, command};
use crate::database::{done_in, named};
use crate::failure::Failed;
use crate::flags::Flags;
use crate::looks::shown;
use crate::made::{file_to_make, keys_to_change, make};
use crate::makers::{OwnFiles, own_files};
use crate::printing::{print_line, print_restored};
use crate::reasons::{tell_full, tell_full_database, tell_reason, tell_reason_of, tell_unsound};
use crate::room::tell_room;
use crate::script::script;
use crate::secrets::tell_same_secret;
use crate::version::version;
use crate::why::{tell_because, why_failed};
use acvp_causes::{Because, Cause};
use acvp_commands::{Deed, Fault, Invocation, Look, asked_by, exit_status, work_of};
use acvp_files::{backup, restore, tell_open, tell_open_database, tell_without_sums};
use acvp_log::LogForm;
use acvp_opening::{Answer, Said};
use clap::error::ErrorKind;
use clap::{ArgMatches, Error};
use std::io::{self, IsTerminal};
use std::process::ExitCode;

/// Says why the server of a database has refused an order, if the word doesn't say all.
fn tell_relayed(rt: &HostRuntime, db: &str, deed: Deed<'_>, fault: Option<Fault>) {
    match fault {
        Some(Fault::Unavailable) => {
            if !tell_unsound(rt, db, deed) && !tell_full_database(rt, db) {
                tell_because(rt, Because::of("--db", Cause::Relayed));
            }
        }
        Some(fault) => tell_reason_of(rt, db, deed, fault),
        None => {}
    }
}

/// Prints what the server of a database answers to an order, and says whether this is done. A fault is told on standard
/// error.
fn relay(
    rt: &HostRuntime,
    db: &str,
    deed: Deed<'_>,
    answer: Answer,
    flags: Flags,
) -> Result<bool, Fault> {
    match answer {
        Answer::Done(line) => match println!(rt; "{line}") {
            Ok(()) => Ok(true),
            Err(_) => Err(Fault::Write),
        },
        Answer::Refused(line, fault) => {
            let _ = eprintln!(rt; "{line}");
            if flags.says_why {
                tell_relayed(rt, db, deed, fault);
            }
            Ok(false)
        }
    }
}

/// Prints what a deed says at its end, and says whether it has done what it was asked for.
fn say(
    rt: &HostRuntime,
    db: &str,
    deed: Deed<'_>,
    said: Said,
    flags: Flags,
) -> Result<bool, Fault> {
    match said {
        Said::Line(message) => {
            print_line(rt, message)?;
            Ok(true)
        }
        Said::Relayed(answer) => relay(rt, db, deed, answer, flags),
    }
}

/// Warns of a file of keys or of a secret that others may read, which is taken with a deed.
fn tell_open_deed(rt: &HostRuntime, deed: Deed<'_>) {
    match deed {
        Deed::AddAccount { secret, .. } => tell_open(rt, secret),
        Deed::Serve { keys, .. } => tell_open(rt, keys),
        _ => {}
    }
}

/// Warns of a file of keys that others may read, under which is looked.
fn tell_open_look(rt: &HostRuntime, look: Look<'_>) {
    match look {
        Look::Request { keys, .. } | Look::Certificate { keys, .. } | Look::Check { keys, .. } => {
            tell_open(rt, keys);
        }
        Look::Accounts { .. } | Look::Requests { .. } => {}
    }
}

/// Warns of the files of a command that others may read: the database, and those of keys, of a secret or of a backup.
fn tell_open_files(rt: &HostRuntime, asked: Invocation<'_>) {
    match asked {
        Invocation::On(db, deed) => {
            tell_open_database(rt, db);
            tell_open_deed(rt, deed);
        }
        Invocation::At(db, look) => {
            tell_open_database(rt, db);
            tell_open_look(rt, look);
        }
        Invocation::Backup { db, .. } => tell_open_database(rt, db),
        Invocation::Restore { from, db } => {
            tell_open(rt, from);
            tell_open_database(rt, db);
        }
        Invocation::Script(keys) => tell_open(rt, keys),
        Invocation::Make(making) => {
            if let Some(from) = keys_to_change(making) {
                tell_open(rt, from);
            }
        }
    }
}

/// Does something with a database, prints the line that says so, and says whether it is done. If it isn't wanted,
/// nothing is.
fn run_deed(rt: &HostRuntime, db: &str, deed: Deed<'_>, flags: Flags) -> Result<bool, Fault>
    requires { NamesAccountToDo deed }
{
    if flags.asks && !is_wanted(rt, db, deed)? {
        let _ = eprintln!(rt; "nothing is changed");
        return Ok(false);
    }
    let work = work_of(&own_files(rt, db), deed)?;
    let name = named(rt, db)?;
    if rt.stderr().is_terminal() {
        tell_same_secret(rt, name.as_str(), &work);
    }
    let said = done_in(rt, name.as_str(), work, flags)?;
    say(rt, db, deed, said, flags)
}

/// Shows what is looked at in a database, and says whether it is as it must be. What a check of the rows doesn't tell
/// is warned of.
fn run_look(rt: &HostRuntime, db: &str, look: Look<'_>, flags: Flags) -> Result<bool, Fault> {
    let is_well = shown(rt, db, look)?;
    if flags.warns && matches!(look, Look::Check { .. }) {
        tell_without_sums(rt, db);
    }
    Ok(is_well)
}

/// What printing a line came to.
fn printed(outcome: io::Result<()>) -> Result<bool, Failed> {
    match outcome {
        Ok(()) => Ok(true),
        Err(_) => Err(Failed::from(Fault::Write)),
    }
}

/// Carries out what the command line asks for, prints the line that says so, where there is one, and says whether it is
/// done.
fn run(rt: &HostRuntime, asked: Invocation<'_>, flags: Flags) -> Result<bool, Failed>
    requires { NamesAccount asked }
{
    match asked {
        Invocation::On(db, deed) => Ok(run_deed(rt, db, deed, flags)?),
        Invocation::At(db, look) => Ok(run_look(rt, db, look, flags)?),
        Invocation::Backup { db, to } => {
            let rows = backup(rt, db, to)?;
            printed(println!(rt; "backed up: {rows} rows"))
        }
        Invocation::Restore { from, db } => {
            if rt.stderr().is_terminal() {
                tell_room(rt, from, db);
            }
            let done = restore(rt, from, db)?;
            printed(print_restored(rt, &done))
        }
        Invocation::Script(keys) => {
            let database = None;
            script(rt, &OwnFiles { rt, database }, keys)?;
            Ok(true)
        }
        Invocation::Make(making) => {
            make(rt, making)?;
            let path = file_to_make(making);
            printed(println!(rt; "made {path}"))
        }
    }
}

/// Prints what the command line's reading gave in place of a command: a refusal, or help that was asked for.
fn refused<R: Print + Eprint>(rt: &R, error: &Error) -> ExitCode {
    match error.print(rt) {
        Ok(()) => ExitCode::from(error.exit_code() as u8),
        Err(_) => ExitCode::from(2),
    }
}

/// Refuses the command line, and says why.
fn refused_for(rt: &HostRuntime, why: &str) -> ExitCode {
    let Ok(mut command) = command(rt.alloc(), version(rt, &[])) else {
        return failed(rt, Fault::Memory);
    };
    match command.error(ErrorKind::ValueValidation, why) {
        Ok(error) => refused(rt, &error),
        Err(_) => failed(rt, Fault::Memory),
    }
}

/// Refuses a command line whose words aren't all UTF-8; where there was no memory for them, that is the fault.
fn unread(rt: &HostRuntime, error: &io::Error) -> ExitCode {
    match error.kind() {
        io::ErrorKind::InvalidData => refused_for(rt, "a word of the command line isn't UTF-8"),
        _ => failed(rt, Fault::Memory),
    }
}

/// Prints a fault's word.
fn failed(rt: &impl Eprint, fault: Fault) -> ExitCode {
    match eprintln!(rt; "fault: {fault}") {
        Ok(()) | Err(_) => ExitCode::FAILURE,
    }
}

/// The form of the log that is asked for. No other than these two passes the command line's parser.
fn log_form(options: &ArgMatches<'_>) -> Option<LogForm> {
    match options.get_str(LOG) {
        Some("json") => Some(LogForm::Json),
        Some(_) => Some(LogForm::Words),
        None => None,
    }
}

/// The flags of the command that the command line asks for.
fn flags_of(rt: &HostRuntime, matches: &ArgMatches<'_>) -> Flags {
    let (is_verbose, log, is_sure) = match matches.subcommand() {
        Some((_, options)) => (
            options.get_flag(VERBOSE),
            log_form(options),
            options.get_flag(YES),
        ),
        None => (false, None, true),
    };
    let says_why = is_verbose || rt.stderr().is_terminal();
    Flags {
        says_why,
        asks: !is_sure && is_there(rt),
        log,
        warns: says_why || log.is_some(),
    }
}

/// Tells why a command failed, where that can be seen.
fn tell_why(rt: &HostRuntime, asked: Invocation<'_>, told: Failed) {
    match why_failed(rt, asked, told) {
        Some(because) => {
            if !tell_full(rt, asked, because) {
                tell_because(rt, because);
            }
        }
        None => tell_reason(rt, asked, told.fault),
    }
}

/// Whether an order is refused since a row that it rests on isn't as a run leaves it: then that is told.
fn is_unsound(rt: &HostRuntime, asked: Invocation<'_>, fault: Fault) -> bool {
    match (asked, fault) {
        (Invocation::On(db, deed), Fault::Unavailable) => tell_unsound(rt, db, deed),
        _ => false,
    }
}

/// Tells a fault of a command, and why it failed, if that is to be said.
fn tell_failed(rt: &HostRuntime, asked: Invocation<'_>, told: Failed, flags: Flags) {
    let _ = failed(rt, told.fault);
    if flags.says_why && !is_unsound(rt, asked, told.fault) {
        tell_why(rt, asked, told);
    }
}

/// Why a command is refused that would ask where nobody sees it.
const UNSEEN: &str =
    "standard error is no terminal, so nobody would see the question: add --yes to go on without it";

/// Whether a command would ask where nobody sees it.
fn is_asked_unseen(rt: &HostRuntime, asked: Invocation<'_>, flags: Flags) -> bool {
    match asked {
        Invocation::On(_, deed) => flags.asks && is_unseen(rt, deed),
        _ => false,
    }
}

/// Carries out what the command line asks for, and gives the exit status.
fn execute_asked(rt: &HostRuntime, asked: Invocation<'_>, flags: Flags) -> ExitCode
    requires { NamesAccount asked }
{
    if is_asked_unseen(rt, asked, flags) {
        return refused_for(rt, UNSEEN);
    }
    if flags.warns {
        tell_open_files(rt, asked);
    }
    match run(rt, asked, flags) {
        Ok(is_done) => ExitCode::from(exit_status(&Ok(is_done))),
        Err(told) => {
            tell_failed(rt, asked, told, flags);
            ExitCode::from(exit_status(&Err(told.fault)))
        }
    }
}

/// How many bytes of the stack are touched before anything is done.
const STACK_BYTES: usize = 262144;

/// Touches the stack as far as the program may need it, so that want of it is met before anything is done. It says
/// whether what was written there can be read. Within another function its room would lie above what comes behind it.
#[inline(never)]
fn has_stack(number: usize) -> bool {
    let mut room = [0_u8; STACK_BYTES];
    room[number % STACK_BYTES] = 1;
    room[number.wrapping_mul(4099) % STACK_BYTES] <= 1
}

/// Carries out a command line whose words are these.
fn execute_words(rt: &HostRuntime, words: &[String]) -> ExitCode {
    if !has_stack(words.len()) {
        return failed(rt, Fault::Memory);
    }
    let Ok(command) = command(rt.alloc(), version(rt, words)) else {
        return failed(rt, Fault::Memory);
    };
    let matches = match command.try_get_matches_from(words) {
        Ok(matches) => matches,
        Err(error) if matches!(error.kind(), ErrorKind::OutOfMemory) => {
            return failed(rt, Fault::Memory);
        }
        Err(error) => return refused(rt, &error),
    };
    let flags = flags_of(rt, &matches);
    match asked_by(&matches) {
        Ok(Some(asked)) => execute_asked(rt, asked, flags),
        Ok(None) => ExitCode::from(2),
        Err(bad) => refused_for(rt, bad.message()),
    }
}

/// Carries out the command line, and gives the exit status: 0 where it is done, 1 at a fault, which is told on standard
/// error, and 2 where the command line is refused.
fn execute(rt: &HostRuntime) -> ExitCode {
    let words = match std::env::args(rt) {
        Ok(words) => words,
        Err(error) => return unread(rt, &error),
    };
    let Ok(words) = words.collect::<Vec<String>>(rt.alloc()) else {
        return failed(rt, Fault::Memory);
    };
    execute_words(rt, words.as_slice())
}

fn main(rt: HostRuntime) -> ExitCode {
    execute(&rt)
}
