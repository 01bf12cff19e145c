//! What the operator looks at, in a copy of the database: so nothing is changed and nobody is held up, also while it is
//! served.
ghost use Rattle.std.specs.Prelude.{◌≡◌};
ghost use Rattle.acvp_server.specs.Faults.{fault_of_view};

use crate::copies::{Visit, in_copy};
use crate::makers::own_files;
use crate::seeds::tables_under;
use acvp_audit::Watch;
use acvp_commands::{Fault, Look, keys_in, moment_of};
use acvp_desk::Keys;
use acvp_store::SqlTables;
use acvp_view::{
    Form, Items, Lines, Printed, ViewFault, show_account_array, show_accounts, show_certificate,
    show_certified, show_check, show_request, show_request_array, show_requests,
};
use sqlite::Alter;
use std::alloc::AllocGlobal;
use std::io::IsTerminal;

/// The fault of what isn't shown.
pub(crate) fn fault_of_view(fault: ViewFault) -> Fault
    ensures { result ≡ fault_of_view fault }
{
    match fault {
        ViewFault::Unknown => Fault::Unknown,
        ViewFault::Refused => Fault::Unavailable,
        ViewFault::Seed => Fault::Keys,
        ViewFault::Write => Fault::Write,
        ViewFault::Memory => Fault::Memory,
    }
}

/// What showing something came to.
fn seen(outcome: Result<(), ViewFault>) -> Result<bool, Fault> {
    match outcome {
        Ok(()) => Ok(true),
        Err(fault) => Err(fault_of_view(fault)),
    }
}

/// What showing a whole array came to.
fn seen_array<L: Drop>(outcome: Result<L, ViewFault>) -> Result<bool, Fault> {
    match outcome {
        Ok(_) => Ok(true),
        Err(fault) => Err(fault_of_view(fault)),
    }
}

/// The form in which something is shown.
fn form_of(json: bool) -> Form {
    if json { Form::Json } else { Form::Words }
}

/// Prints each account.
#[derive(Clone, Copy)]
struct Accounts<'a> {
    rt: &'a HostRuntime,
    json: bool,
}

impl Visit for Accounts<'_> {
    type Told = Result<bool, Fault>;

    fn visit<S: Alter + Drop>(self, tables: SqlTables<S>) -> Result<bool, Fault> {
        let Accounts { rt, json } = self;
        let mut tables = tables;
        if json {
            return seen_array(show_account_array(rt.alloc(), &mut tables, Printed(rt)));
        }
        seen(show_accounts(rt.alloc(), &mut tables, &mut Printed(rt), Form::Words))
    }
}

/// Prints each request that waits for a decision, or all.
#[derive(Clone, Copy)]
struct Requests<'a> {
    rt: &'a HostRuntime,
    all: bool,
    json: bool,
}

impl Visit for Requests<'_> {
    type Told = Result<bool, Fault>;

    fn visit<S: Alter + Drop>(self, tables: SqlTables<S>) -> Result<bool, Fault> {
        let Requests { rt, all, json } = self;
        let mut tables = tables;
        if json {
            return seen_array(show_request_array(rt.alloc(), &mut tables, Printed(rt), all));
        }
        seen(show_requests(rt.alloc(), &mut tables, &mut Printed(rt), Form::Words, all))
    }
}

/// Prints what a decision on the request of a number needs.
#[derive(Drop)]
struct Request<'a> {
    rt: &'a HostRuntime,
    keys: Keys,
    number: u64,
    json: bool,
}

/// Hands on what a decision on the request of a number needs, and gives back where it went.
fn show_needed<S: Alter + Drop, L: Lines>(
    rt: &HostRuntime,
    tables: SqlTables<S>,
    lines: &mut L,
    form: Form,
    keys: Keys,
    number: u64,
) -> Result<(), ViewFault> {
    let mut tables = tables;
    let request = show_request(rt.alloc(), &mut tables, lines, form, number)?;
    let _ = show_certified(
        rt.alloc(),
        tables,
        lines,
        form,
        keys,
        moment_of(rt),
        request,
    )?;
    Ok(())
}

/// Prints the same as a JSON array.
fn print_needed_array<S: Alter + Drop>(
    rt: &HostRuntime,
    tables: SqlTables<S>,
    keys: Keys,
    number: u64,
) -> Result<Printed<'_, HostRuntime>, ViewFault> {
    let mut items = Items::new(Printed(rt));
    show_needed(rt, tables, &mut items, Form::Json, keys, number)?;
    items.end()
}

impl Visit for Request<'_> {
    type Told = Result<bool, Fault>;

    fn visit<S: Alter + Drop>(self, tables: SqlTables<S>) -> Result<bool, Fault> {
        let Request {
            rt,
            keys,
            number,
            json,
        } = self;
        let tables = tables_under(rt.alloc(), tables, &keys.seed)?;
        if json {
            return seen_array(print_needed_array(rt, tables, keys, number));
        }
        seen(show_needed(rt, tables, &mut Printed(rt), Form::Words, keys, number))
    }
}

/// Prints the document of the approved certification of a request's number, or the page.
#[derive(Drop)]
struct Certificate<'a> {
    rt: &'a HostRuntime,
    keys: Keys,
    number: u64,
    html: bool,
}

impl Visit for Certificate<'_> {
    type Told = Result<bool, Fault>;

    fn visit<S: Alter + Drop>(self, tables: SqlTables<S>) -> Result<bool, Fault> {
        let Certificate {
            rt,
            keys,
            number,
            html,
        } = self;
        let mut tables = tables_under(rt.alloc(), tables, &keys.seed)?;
        seen(show_certificate(
            rt.alloc(),
            &mut tables,
            &mut Printed(rt),
            &keys.seed,
            number,
            html,
        ))
    }
}

/// How far a check has come, as it is shown on a terminal.
#[derive(Clone, Copy)]
struct Progress<'a> {
    rt: &'a HostRuntime,
    is_shown: bool,
}

impl Progress<'_> {
    /// Ends the line that says how far a check has come.
    fn end(&self) {
        if self.is_shown {
            let _ = eprintln!(self.rt; "");
        }
    }
}

impl Watch for Progress<'_> {
    fn looked_at(&self, account: u16) {
        if self.is_shown && account % 100 == 0 {
            let _ = eprint!(self.rt; "\r{account} of 9999 accounts ");
        }
    }
}

/// The standard output, below a line that says how far a check has come.
#[derive(Drop)]
struct Below<'a> {
    progress: Progress<'a>,
    printed: Printed<'a, HostRuntime>,
}

impl Lines for Below<'_> {
    ghost use Rattle.std.specs.Prelude.{⊤};

    // No contract can say what is printed.
    ghost takes = { λ _ _ _. ⊤ };

    fn take(&mut self, line: &str) -> Result<(), ViewFault> {
        self.progress.end();
        self.printed.take(line)
    }
}

/// Says that the rows aren't those that a run leaves.
fn tell_damaged(rt: &HostRuntime) -> bool {
    let _ = eprintln!(rt; "fault: rows");
    false
}

/// Prints what a check of the rows comes to, and says whether they are whole.
#[derive(Drop)]
struct Check<'a> {
    rt: &'a HostRuntime,
    keys: Keys,
    grades: bool,
    json: bool,
}

impl Visit for Check<'_> {
    type Told = Result<bool, Fault>;

    fn visit<S: Alter + Drop>(self, tables: SqlTables<S>) -> Result<bool, Fault> {
        let Check {
            rt,
            keys,
            grades,
            json,
        } = self;
        let mut tables = tables_under(rt.alloc(), tables, &keys.seed)?;
        let is_shown = rt.stderr().is_terminal();
        let progress = Progress { rt, is_shown };
        let printed = Printed(rt);
        let outcome = show_check(
            rt.alloc(),
            &mut tables,
            &mut Below { progress, printed },
            form_of(json),
            &keys.seed,
            grades,
            &progress,
        );
        match outcome {
            Ok(whole) => Ok(whole || tell_damaged(rt)),
            // The line was ended before the result was to be written.
            Err(ViewFault::Write) => Err(Fault::Write),
            Err(fault) => {
                progress.end();
                Err(fault_of_view(fault))
            }
        }
    }
}

/// Prints what is looked at. Keys are read before the database is copied.
pub(crate) fn shown(rt: &HostRuntime, database: &str, look: Look<'_>) -> Result<bool, Fault> {
    let files = own_files(rt, database);
    match look {
        Look::Accounts { json } => in_copy(rt, database, Accounts { rt, json })?,
        Look::Requests { all, json } => in_copy(rt, database, Requests { rt, all, json })?,
        Look::Request {
            keys,
            request,
            json,
        } => {
            let keys = keys_in(&files, keys)?;
            let number = request;
            in_copy(
                rt,
                database,
                Request {
                    rt,
                    keys,
                    number,
                    json,
                },
            )?
        }
        Look::Certificate {
            keys,
            request,
            html,
        } => {
            let keys = keys_in(&files, keys)?;
            let number = request;
            in_copy(
                rt,
                database,
                Certificate {
                    rt,
                    keys,
                    number,
                    html,
                },
            )?
        }
        Look::Check { keys, grades, json } => {
            let keys = keys_in(&files, keys)?;
            in_copy(
                rt,
                database,
                Check {
                    rt,
                    keys,
                    grades,
                    json,
                },
            )?
        }
    }
}
