//! What a command line asks for.
ghost use Rattle.std.specs.Prelude.{◌≡◌, codes, true, None, Some};
ghost use Rattle.std.specs.Prelude.{IfErr, IfOk, IfSome, MatchOption, MatchResult};
ghost use Rattle.clap.specs.Words.{first_of, subcommand_rows_of};
ghost use Rattle.acvp_tables.specs.State.{is_account_number};
ghost use Rattle.acvp_commands.specs.Numbers.{IsNumber, most_account, most_request};
ghost use Rattle.acvp_commands.specs.Asked.{AsksCount, AsksGrades, AsksPatience, RefusesGrades, RefusesOption};
ghost use Rattle.acvp_commands.specs.Numbers.{most_count, most_patience};
ghost use Rattle.acvp_commands.specs.Asked.{AsksFor, AsksToServe, IsAsked, IsNoNumber, NamesAccount, RefusesToServe};
ghost use Rattle.acvp_commands.specs.Asked.{AsksDeed, AsksLook, IsFlagged, IsNoDeed, IsNoLook, IsNoName};
ghost use Rattle.acvp_commands.specs.Asked.{IsNothingAsked, IsRefused, NamesAccountToDo, RefusesDeed, RefusesLook};
ghost use Rattle.acvp_commands.specs.Asked.{RefusesName};
ghost use Rattle.acvp_commands.specs.Asked.{AsksKeys, AsksMaking, IsNoMaking, RefusesKeys, RefusesMaking};
ghost use Rattle.acvp_commands.specs.Asked.{bad_value_text, options_of, value_of};

use crate::host::Service;
use crate::numbers::{
    account_number, connection_count, patience_number, port_number, request_number,
};
use clap::ArgMatches;

/// How many seconds a client has where nothing is asked for.
const PATIENCE: u64 = 30;

/// What is to be done with the database in a file. Other files are named by their paths.
#[derive(Clone, Copy)]
pub enum Deed<'a> {
    Init,
    Migrate,
    AddAccount { account: u16, secret: &'a str },
    DisableAccount { account: u16 },
    ApproveRequest { request: u64 },
    RejectRequest { request: u64 },
    Serve { keys: &'a str, service: Service },
}

/// What is looked at in a database. Other files are named by their paths. It is shown in words, or as a JSON text.
#[derive(Clone, Copy)]
pub enum Look<'a> {
    /// All accounts.
    Accounts {
        json: bool,
    },

    /// The requests that wait for a decision, or all.
    Requests {
        all: bool,
        json: bool,
    },

    /// What a decision on the request of a number needs, under the keys in a file.
    Request {
        keys: &'a str,
        request: u64,
        json: bool,
    },

    /// The document of the approved certification of a request's number, under the keys in a file: a JSON text, or a
    /// page.
    Certificate {
        keys: &'a str,
        request: u64,
        html: bool,
    },

    /// Whether the rows are records that are kept under the keys in a file, with the verdicts on answers or without.
    Check {
        keys: &'a str,
        grades: bool,
        json: bool,
    },
}

/// A file of keys or of a secret that is made, by the path at which none may be. It never takes the place of another.
#[derive(Clone, Copy)]
pub enum Making<'a> {
    /// Keys: a token key and a seed.
    Keys { to: &'a str },

    /// The keys of a file and a token key more.
    TokenMore { from: &'a str, to: &'a str },

    /// The keys of a file, of which the oldest token key is retired.
    TokenLess { from: &'a str, to: &'a str },

    /// The keys of a file and a seed more.
    SeedMore { from: &'a str, to: &'a str },

    /// The secret of an account.
    Secret { to: &'a str },
}

/// What the command line asks for.
#[derive(Clone, Copy)]
pub enum Invocation<'a> {
    /// Something is done with the database in the file of a path.
    On(&'a str, Deed<'a>),

    /// Something is looked at in a copy of the database in the file of a path.
    At(&'a str, Look<'a>),

    /// The database in a file is copied to another, which is made.
    Backup { db: &'a str, to: &'a str },

    /// A copy of one database is put in the place of another.
    Restore { from: &'a str, db: &'a str },

    /// The script on standard input is run, under the keys in the file of a path.
    Script(&'a str),

    /// A file of keys or of a secret is made.
    Make(Making<'a>),
}

/// A value that its option doesn't have.
#[derive(Clone, Copy)]
pub enum BadValue {
    Account,
    Request,
    Port,
    Count,
    Patience,
    Grades,
    Keys,
}

impl BadValue {
    /// What the refusal says.
    pub fn message(self) -> &'static str
        ensures { result.now ≡ bad_value_text self }
    {
        match self {
            BadValue::Account => "--account wants a whole number from 1 to 9999, such as 7",
            BadValue::Request =>
                "--request wants a whole number from 1 to 9999999999, such as 7000001",
            BadValue::Port => "--port wants a whole number from 1 to 65535, such as 8080",
            BadValue::Count => "--count wants a whole number from 1 to 1000000, such as 1000",
            BadValue::Patience =>
                "--patience wants a whole number of seconds from 1 to 3600, such as 30",
            BadValue::Grades => "--grades is yes or no",
            BadValue::Keys =>
                "keys wants --new FILE alone, or one of --add-token, --retire and --add-seed FILE with --to FILE",
        }
    }
}

/// The value of an option that the command wants.
fn value<'a>(matches: &ArgMatches<'a>, option: &str) -> &'a str
    ensures { result.now ≡ value_of (options_of matches.now) option.now }
{
    matches.get_str(option).unwrap_or("")
}

fn account(matches: &ArgMatches<'_>) -> Result<u16, BadValue>
    ensures number { MatchResult result (IsNumber most_account (value_of (options_of matches.now) (codes "account")))
        (λ bad. (bad ≡ BadValue.Account)
        × IsNoNumber most_account (value_of (options_of matches.now) (codes "account"))) }
    ensures account { IfOk result (λ account. is_account_number account ≡ true) }
{
    account_number(value(matches, "account")).ok_or(BadValue::Account)
}

fn request(matches: &ArgMatches<'_>) -> Result<u64, BadValue>
    ensures number { MatchResult result (IsNumber most_request (value_of (options_of matches.now) (codes "request")))
        (λ bad. (bad ≡ BadValue.Request)
        × IsNoNumber most_request (value_of (options_of matches.now) (codes "request"))) }
{
    request_number(value(matches, "request")).ok_or(BadValue::Request)
}

/// The value of an option that may be left out.
fn optional<'a>(matches: &ArgMatches<'a>, option: &str) -> Option<&'a str>
    ensures { MatchOption result (first_of option.now (options_of matches.now) ≡ None)
        (λ text. first_of option.now (options_of matches.now) ≡ Some text.now) }
{
    matches.get_str(option)
}

/// The number of connections, where one is asked for.
fn count_asked(matches: &ArgMatches<'_>) -> Result<Option<u64>, BadValue>
    ensures { MatchResult result (AsksCount (first_of (codes "count") (options_of matches.now)))
        (λ bad. (bad ≡ BadValue.Count)
        × RefusesOption most_count (first_of (codes "count") (options_of matches.now))) }
{
    match optional(matches, "count") {
        Some(text) => match connection_count(text) {
            Some(count) => Ok(Some(count)),
            None => Err(BadValue::Count),
        },
        None => Ok(None),
    }
}

/// The seconds that a client has, as they are asked for, or 30.
fn patience_asked(matches: &ArgMatches<'_>) -> Result<u64, BadValue>
    ensures { MatchResult result (AsksPatience (first_of (codes "patience") (options_of matches.now)))
        (λ bad. (bad ≡ BadValue.Patience)
        × RefusesOption most_patience (first_of (codes "patience") (options_of matches.now))) }
{
    match optional(matches, "patience") {
        Some(text) => patience_number(text).ok_or(BadValue::Patience),
        None => Ok(PATIENCE),
    }
}

/// What `serve` with these options asks for.
fn serve_deed<'a>(matches: &ArgMatches<'a>) -> Result<Deed<'a>, BadValue>
    ensures asked { IfOk result (AsksToServe (options_of matches.now)) }
    ensures refused { IfErr result (RefusesToServe (options_of matches.now)) }
{
    let port = port_number(value(matches, "port")).ok_or(BadValue::Port)?;
    let count = count_asked(matches)?;
    let patience = patience_asked(matches)?;
    Ok(Deed::Serve {
        keys: value(matches, "keys"),
        service: Service {
            port,
            count,
            patience,
        },
    })
}

/// Whether a flag is given.
fn is_set(matches: &ArgMatches<'_>, flag: &str) -> bool
    ensures { IsFlagged (options_of matches.now) flag.now result }
{
    match optional(matches, flag) {
        Some(text) => text == "true",
        None => false,
    }
}

/// Whether verdicts are compared, as it is asked for, or else they are.
fn grades_asked(matches: &ArgMatches<'_>) -> Result<bool, BadValue>
    ensures { MatchResult result (AsksGrades (first_of (codes "grades") (options_of matches.now)))
        (λ bad. (bad ≡ BadValue.Grades)
        × RefusesGrades (first_of (codes "grades") (options_of matches.now))) }
{
    match optional(matches, "grades") {
        None => Ok(true),
        Some("yes") => Ok(true),
        Some("no") => Ok(false),
        Some(_) => Err(BadValue::Grades),
    }
}

/// What a subcommand with these options does with a database; nothing where there is no such subcommand.
fn deed_by_name<'a>(name: &str, matches: &ArgMatches<'a>) -> Result<Option<Deed<'a>>, BadValue>
    ensures asked { IfOk result
        (λ asked. MatchOption asked (IsNoDeed name.now) (AsksDeed name.now (options_of matches.now))) }
    ensures refused { IfErr result (RefusesDeed name.now (options_of matches.now)) }
    ensures account { IfOk result (λ asked. IfSome asked NamesAccountToDo) }
{
    Ok(Some(match name {
        "init" => Deed::Init,
        "migrate" => Deed::Migrate,
        "account-add" => Deed::AddAccount {
            account: account(matches)?,
            secret: value(matches, "secret"),
        },
        "account-disable" => Deed::DisableAccount {
            account: account(matches)?,
        },
        "request-approve" => Deed::ApproveRequest {
            request: request(matches)?,
        },
        "request-reject" => Deed::RejectRequest {
            request: request(matches)?,
        },
        "serve" => serve_deed(matches)?,
        _ => return Ok(None),
    }))
}

/// What a subcommand with these options looks at in a database; nothing where there is no such subcommand.
fn look_by_name<'a>(name: &str, matches: &ArgMatches<'a>) -> Result<Option<Look<'a>>, BadValue>
    ensures asked { IfOk result
        (λ asked. MatchOption asked (IsNoLook name.now) (AsksLook name.now (options_of matches.now))) }
    ensures refused { IfErr result (RefusesLook name.now (options_of matches.now)) }
{
    let keys = value(matches, "keys");
    let json = is_set(matches, "json");
    Ok(Some(match name {
        "accounts" => Look::Accounts { json },
        "requests" => Look::Requests {
            all: is_set(matches, "all"),
            json,
        },
        "request-show" => Look::Request {
            keys,
            request: request(matches)?,
            json,
        },
        "certificate" => Look::Certificate {
            keys,
            request: request(matches)?,
            html: is_set(matches, "html"),
        },
        "check" => Look::Check {
            keys,
            grades: grades_asked(matches)?,
            json,
        },
        _ => return Ok(None),
    }))
}

/// Which keys file is made by these options.
fn keys_making<'a>(matches: &ArgMatches<'a>) -> Option<Making<'a>>
    ensures { MatchOption result (RefusesKeys (options_of matches.now)) (AsksKeys (options_of matches.now)) }
{
    let new = optional(matches, "new");
    let token = optional(matches, "add-token");
    let retired = optional(matches, "retire");
    let seed = optional(matches, "add-seed");
    match (new, token, retired, seed, optional(matches, "to")) {
        (Some(to), None, None, None, None) => Some(Making::Keys { to }),
        (None, Some(from), None, None, Some(to)) => Some(Making::TokenMore { from, to }),
        (None, None, Some(from), None, Some(to)) => Some(Making::TokenLess { from, to }),
        (None, None, None, Some(from), Some(to)) => Some(Making::SeedMore { from, to }),
        _ => None,
    }
}

/// Which file a subcommand with these options makes; nothing where there is no such subcommand.
fn making_by_name<'a>(name: &str, matches: &ArgMatches<'a>) -> Result<Option<Making<'a>>, BadValue>
    ensures asked { IfOk result
        (λ asked. MatchOption asked (IsNoMaking name.now) (AsksMaking name.now (options_of matches.now))) }
    ensures refused { IfErr result (RefusesMaking name.now (options_of matches.now)) }
{
    match name {
        "keys" => match keys_making(matches) {
            Some(making) => Ok(Some(making)),
            None => Err(BadValue::Keys),
        },
        "secret" => Ok(Some(Making::Secret {
            to: value(matches, "new"),
        })),
        _ => Ok(None),
    }
}

/// What a subcommand with these options asks for; nothing where there is no such subcommand.
fn asked_by_name<'a>(
    name: &str,
    matches: &ArgMatches<'a>,
) -> Result<Option<Invocation<'a>>, BadValue>
    ensures asked { IfOk result
        (λ asked. MatchOption asked (IsNoName name.now) (AsksFor name.now (options_of matches.now))) }
    ensures refused { IfErr result (RefusesName name.now (options_of matches.now)) }
    ensures account { IfOk result (λ asked. IfSome asked NamesAccount) }
{
    let db = value(matches, "db");
    if let Some(deed) = deed_by_name(name, matches)? {
        return Ok(Some(Invocation::On(db, deed)));
    }
    if let Some(look) = look_by_name(name, matches)? {
        return Ok(Some(Invocation::At(db, look)));
    }
    if let Some(making) = making_by_name(name, matches)? {
        return Ok(Some(Invocation::Make(making)));
    }
    Ok(match name {
        "backup" => Some(Invocation::Backup {
            db,
            to: value(matches, "to"),
        }),
        "restore" => Some(Invocation::Restore {
            from: value(matches, "from"),
            db,
        }),
        "script" => Some(Invocation::Script(value(matches, "keys"))),
        _ => None,
    })
}

/// What the command line asks for.
pub fn asked_by<'a>(matches: &ArgMatches<'a>) -> Result<Option<Invocation<'a>>, BadValue>
    ensures asked { IfOk result (λ asked. MatchOption asked (IsNothingAsked (subcommand_rows_of matches.now))
        (IsAsked (subcommand_rows_of matches.now))) }
    ensures refused { IfErr result (IsRefused (subcommand_rows_of matches.now)) }
    ensures account { IfOk result (λ asked. IfSome asked NamesAccount) }
{
    match matches.subcommand() {
        Some((name, options)) => asked_by_name(name, options),
        None => Ok(None),
    }
}
