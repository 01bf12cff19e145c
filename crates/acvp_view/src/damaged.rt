//! What a check of a file prints.
ghost use Rattle.std.specs.Prelude.{◌≡◌, ◌++◌, IfOk, codes, decimal, string_bytes};
ghost use Rattle.std.specs.Fmt.{signed_decimal};
ghost use Rattle.serde_json.specs.View.{view};
ghost use Rattle.serde_json.specs.Written.{compact_text};
ghost use Rattle.acvp_view.specs.Damaged.{damage_data, damage_row, damage_text, damage_word, damage_words, key_text};
ghost use Rattle.acvp_view.specs.Damaged.{table_word, whole_object, whole_text, whole_words, wrong_word};
ghost use Rattle.acvp_view.specs.Listed.{kind_word};

use crate::form::Form;
use crate::listed::kind_word;
use acvp_audit::{Damage, Table, Totals};
use acvp_check::{RowKey, Wrong};
use serde_json::{Value, json};
use std::alloc::{AllocError, Global};

/// The line of a file that is whole: how many rows there are.
fn whole_words(alloc: Global, totals: Totals) -> Result<String, AllocError>
    ensures { IfOk result (λ text. string_bytes text ≡ whole_words totals) }
{
    let Totals {
        accounts,
        sessions,
        sets,
        requests,
    } = totals;
    format!(in alloc;
        "whole: accounts {accounts} sessions {sessions} sets {sets} requests {requests}"
    )
}

/// The same as a JSON object.
fn whole_object(alloc: Global, totals: Totals) -> Result<String, AllocError>
    ensures { IfOk result (λ text. string_bytes text ≡ whole_object totals) }
{
    let Totals {
        accounts,
        sessions,
        sets,
        requests,
    } = totals;
    format!(in alloc;
        "{{\"accounts\":{accounts},\"requests\":{requests},\"sessions\":{sessions},\"sets\":{sets},\"whole\":true}}"
    )
}

/// What is said of a file that is whole: how many rows there are.
pub fn whole_text(alloc: Global, form: Form, totals: Totals) -> Result<String, AllocError>
    ensures { IfOk result (λ text. string_bytes text ≡ whole_text form totals) }
{
    match form {
        Form::Words => whole_words(alloc, totals),
        Form::Json => whole_object(alloc, totals),
    }
}

fn table_word(table: Table) -> &'static str
    ensures { result.now ≡ table_word table }
{
    match table {
        Table::Account => "account",
        Table::Session => "session",
        Table::Set => "set",
        Table::Object => "object",
        Table::Request => "request",
        Table::Reviewer => "reviewer",
    }
}

/// A word and a number.
fn numbered(alloc: Global, word: &str, number: u64) -> Result<String, AllocError>
    ensures { IfOk result (λ text. string_bytes text ≡ word.now ++ decimal number) }
{
    format!(in alloc; "{word}{number}")
}

/// An object, by its kind and its number.
fn object_text(alloc: Global, kind: &str, number: u64) -> Result<String, AllocError>
    ensures { IfOk result (λ text. string_bytes text
        ≡ codes "object " ++ kind.now ++ codes " " ++ decimal number) }
{
    format!(in alloc; "object {kind} {number}")
}

/// A reviewer, by the session and the account.
fn reviewer_text(alloc: Global, session: u64, account: u16) -> Result<String, AllocError>
    ensures { IfOk result (λ text. string_bytes text
        ≡ codes "reviewer " ++ decimal session ++ codes " " ++ decimal account) }
{
    format!(in alloc; "reviewer {session} {account}")
}

/// The table of a row, and its key.
fn key_text(alloc: Global, row: RowKey) -> Result<String, AllocError>
    ensures { IfOk result (λ text. string_bytes text ≡ key_text row) }
{
    match row {
        RowKey::Account(number) => numbered(alloc, "account ", u64::from(number)),
        RowKey::Session(number) => numbered(alloc, "session ", number),
        RowKey::Set(number) => numbered(alloc, "set ", number),
        RowKey::Object(kind, number) => object_text(alloc, kind_word(kind), number),
        RowKey::Request(number) => numbered(alloc, "request ", number),
        RowKey::Reviewer(session, account) => reviewer_text(alloc, session, account),
    }
}

fn wrong_word(wrong: Wrong) -> &'static str
    ensures { result.now ≡ wrong_word wrong }
{
    match wrong {
        Wrong::Twice => "twice",
        Wrong::Owner => "owner",
        Wrong::Number => "number",
        Wrong::NoAccount => "noAccount",
        Wrong::ManySessions => "manySessions",
        Wrong::ManyRequests => "manyRequests",
        Wrong::ManyObjects => "manyObjects",
        Wrong::Created => "created",
        Wrong::NoSet => "noSet",
        Wrong::ManySets => "manySets",
        Wrong::Counter => "counter",
        Wrong::LastRequest => "lastRequest",
        Wrong::NoSession => "noSession",
        Wrong::NoSeed => "noSeed",
        Wrong::Disposition => "disposition",
        Wrong::Verdicts => "verdicts",
        Wrong::Answers => "answers",
        Wrong::Body => "body",
        Wrong::NotGiven => "notGiven",
        Wrong::NotAskedFor => "notAskedFor",
        Wrong::Object => "object",
        Wrong::NotCertifiable => "notCertifiable",
        Wrong::NotLast => "notLast",
        Wrong::NotAsAsked => "notAsAsked",
        Wrong::GivenTwice => "givenTwice",
        Wrong::Epoch => "epoch",
        Wrong::ManyReviewers => "manyReviewers",
        Wrong::NoAccountNumber => "noAccountNumber",
    }
}

/// A number in decimal.
fn number_text(alloc: Global, number: i64) -> Result<String, AllocError>
    ensures { IfOk result (λ text. string_bytes text ≡ signed_decimal number) }
{
    format!(in alloc; "{number}")
}

/// A table and a number.
fn row_text(alloc: Global, table: &str, number: &str) -> Result<String, AllocError>
    ensures { IfOk result (λ text. string_bytes text ≡ table.now ++ codes " " ++ number.now) }
{
    format!(in alloc; "{table} {number}")
}

/// A row of a table, by its number.
fn numbered_text(alloc: Global, table: Table, number: i64) -> Result<String, AllocError>
    ensures { IfOk result (λ text. string_bytes text ≡ table_word table ++ codes " " ++ signed_decimal number) }
{
    let number = number_text(alloc, number)?;
    row_text(alloc, table_word(table), number.as_str())
}

/// The row that is wrong: its table and its key.
fn damage_row(alloc: Global, damage: Damage) -> Result<String, AllocError>
    ensures { IfOk result (λ text. string_bytes text ≡ damage_row damage) }
{
    match damage {
        Damage::Outside(table, number) => numbered_text(alloc, table, number),
        Damage::Stray(_, table, number) => numbered_text(alloc, table, number),
        Damage::Broken(_, found) => key_text(alloc, found.row),
    }
}

/// The word for what is wrong with it.
fn damage_word(damage: Damage) -> &'static str
    ensures { result.now ≡ damage_word damage }
{
    match damage {
        Damage::Outside(_, _) => "outside",
        Damage::Stray(_, _, _) => "stray",
        Damage::Broken(_, found) => wrong_word(found.wrong),
    }
}

/// The line of what is wrong: the row and the word.
fn damage_words(alloc: Global, damage: Damage) -> Result<String, AllocError>
    ensures { IfOk result (λ text. string_bytes text ≡ damage_words damage) }
{
    let row = damage_row(alloc, damage)?;
    row_text(alloc, row.as_str(), damage_word(damage))
}

/// The same as a JSON value.
fn damage_value(alloc: Global, damage: Damage) -> Result<Value, AllocError>
    ensures { IfOk result (λ value. view value ≡ damage_data damage) }
{
    let row = damage_row(alloc, damage)?;
    json!(in alloc; {
        "row": row.as_str(),
        "whole": false,
        "wrong": damage_word(damage)
    })
}

/// The same as a JSON object.
fn damage_object(alloc: Global, damage: Damage) -> Result<String, AllocError>
    ensures { IfOk result (λ text. string_bytes text ≡ compact_text (damage_data damage)) }
{
    damage_value(alloc, damage)?.to_string(alloc)
}

/// What is said of what is wrong: the row and a word.
pub fn damage_text(alloc: Global, form: Form, damage: Damage) -> Result<String, AllocError>
    ensures { IfOk result (λ text. string_bytes text ≡ damage_text form damage) }
{
    match form {
        Form::Words => damage_words(alloc, damage),
        Form::Json => damage_object(alloc, damage),
    }
}
