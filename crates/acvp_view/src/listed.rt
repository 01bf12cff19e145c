//! What the operator is shown of accounts and of requests: of each a few lines of words that fit a terminal, or a JSON
//! object.
ghost use Rattle.std.specs.Prelude.{◌≡◌, ◌++◌, IfOk, codes, decimal, option_map, string_bytes};
ghost use Rattle.serde_json.specs.Data.{string};
ghost use Rattle.serde_json.specs.View.{view};
ghost use Rattle.serde_json.specs.Written.{compact_text};
ghost use Rattle.acvp_json.specs.Nullable.{text_or_null};
ghost use Rattle.acvp_tables.specs.Calls.{Finds};
ghost use Rattle.acvp_desk.specs.Serves.{Looks};
ghost use Rattle.acvp_registry.specs.Object.{object_name};
ghost use Rattle.acvp_registry.specs.declared.kind.Kind.TheVariants.{Module};
ghost use Rattle.acvp_tables.specs.Content.{object_at};
ghost use Rattle.acvp_view.specs.Escaped.{escaped};
ghost use Rattle.acvp_view.specs.Folded.{folded};
ghost use Rattle.acvp_view.specs.Listed.{account_data, account_line, account_text, account_words, approved_number};
ghost use Rattle.acvp_view.specs.Listed.{approved_words, certification_data, certified_data, day_in};
ghost use Rattle.acvp_view.specs.Listed.{decided_words, disabled_words, enabled_word, in_lines, is_enabled, kind_asked};
ghost use Rattle.acvp_view.specs.Listed.{kind_word, moment_text, name_asked, name_words, next_line, objects_text};
ghost use Rattle.acvp_view.specs.Listed.{request_data, request_head, request_line, request_parts, request_text};
ghost use Rattle.acvp_view.specs.Listed.{request_words, rest_words, session_asked};
ghost use Rattle.acvp_view.specs.Listed.{session_words, status_word, uses_text};

use crate::escape::escaped;
use crate::folded::{WIDTH, folded};
use crate::form::Form;
use crate::whole::WholeRequests;
use acvp_json::{number_or_null, time_text};
use acvp_registry::{Counts, Kind};
use acvp_tables::{
    AccountRow, Certification, RequestBody, RequestRow, RequestStatus, SessionRow, StoreFault,
    Tables,
};
use serde_json::{Value, json};
use std::alloc::{AllocError, Global};

/// The first moment whose year has five digits.
pub(crate) const END_OF_YEARS: u64 = 253402300800;

/// Two texts as one.
pub(crate) fn joined(alloc: Global, first: &str, second: &str) -> Result<String, AllocError>
    ensures { IfOk result (λ text. string_bytes text ≡ first.now ++ second.now) }
{
    format!(in alloc; "{first}{second}")
}

fn enabled_word(enabled: bool) -> &'static str
    ensures { result.now ≡ enabled_word enabled }
{
    if enabled { "enabled" } else { "disabled" }
}

/// How many test sessions and requests an account has.
fn uses_text(alloc: Global, counts: Counts) -> Result<String, AllocError>
    ensures { IfOk result (λ text. string_bytes text ≡ uses_text counts) }
{
    let Counts {
        sessions,
        requests,
        ..
    } = counts;
    format!(in alloc; " sessions {sessions} requests {requests}")
}

/// How many registered objects an account has of each kind.
fn objects_text(alloc: Global, counts: Counts) -> Result<String, AllocError>
    ensures { IfOk result (λ text. string_bytes text ≡ objects_text counts) }
{
    let Counts {
        vendors,
        modules,
        environments,
        ..
    } = counts;
    format!(in alloc; "vendors {vendors} modules {modules} environments {environments}")
}

fn in_one_line(alloc: Global, front: &str, behind: &str) -> Result<String, AllocError>
    ensures { IfOk result (λ text. string_bytes text ≡ front.now ++ codes " " ++ behind.now) }
{
    format!(in alloc; "{front} {behind}")
}

fn in_two_lines(alloc: Global, front: &str, behind: &str) -> Result<String, AllocError>
    ensures { IfOk result (λ text. string_bytes text ≡ front.now ++ next_line ++ behind.now) }
{
    format!(in alloc; "{front}\n    {behind}")
}

/// One line of two parts if they fit in it, or else a line for each.
fn in_lines(alloc: Global, front: &str, behind: &str) -> Result<String, AllocError>
    ensures { IfOk result (λ text. string_bytes text ≡ in_lines front.now behind.now) }
{
    if front.len() + behind.len() < WIDTH {
        in_one_line(alloc, front, behind)
    } else {
        in_two_lines(alloc, front, behind)
    }
}

/// What stands before the counts in the line of an account.
fn account_head(alloc: Global, number: u16, word: &str) -> Result<String, AllocError>
    ensures { IfOk result (λ text. string_bytes text ≡ decimal number ++ codes " " ++ word.now) }
{
    format!(in alloc; "{number} {word}")
}

/// The account's number and whether it is enabled, and what it uses.
fn account_front(alloc: Global, row: &AccountRow, counts: Counts) -> Result<String, AllocError>
    ensures { IfOk result (λ text. string_bytes text
        ≡ (decimal row.now.number ++ codes " " ++ enabled_word row.now.enabled) ++ uses_text counts) }
{
    let head = account_head(alloc, row.number, enabled_word(row.enabled))?;
    let rest = uses_text(alloc, counts)?;
    joined(alloc, &head, &rest)
}

/// The line of an account, or its two lines.
fn account_words(alloc: Global, row: &AccountRow, counts: Counts) -> Result<String, AllocError>
    ensures { IfOk result (λ text. string_bytes text ≡ account_words row.now counts) }
{
    let front = account_front(alloc, row, counts)?;
    let objects = objects_text(alloc, counts)?;
    in_lines(alloc, &front, &objects)
}

/// An account as a JSON value.
fn account_value(alloc: Global, row: &AccountRow, counts: Counts) -> Result<Value, AllocError>
    ensures { IfOk result (λ value. view value ≡ account_data row.now counts) }
{
    let Counts {
        sessions,
        vendors,
        modules,
        environments,
        requests,
    } = counts;
    json!(in alloc; {
        "account": row.number,
        "enabled": row.enabled,
        "environments": environments,
        "modules": modules,
        "requests": requests,
        "sessions": sessions,
        "vendors": vendors
    })
}

/// An account as a JSON object.
fn account_object(alloc: Global, row: &AccountRow, counts: Counts) -> Result<String, AllocError>
    ensures { IfOk result (λ text. string_bytes text ≡ compact_text (account_data row.now counts)) }
{
    account_value(alloc, row, counts)?.to_string(alloc)
}

/// What is shown of an account.
fn account_text(
    alloc: Global,
    form: Form,
    row: &AccountRow,
    counts: Counts,
) -> Result<String, AllocError>
    ensures { IfOk result (λ text. string_bytes text ≡ account_text form row.now counts) }
{
    match form {
        Form::Words => {
            let words = account_words(alloc, row, counts)?;
            folded(alloc, &words)
        }
        Form::Json => account_object(alloc, row, counts),
    }
}

/// What is shown of the account of a number, where there is one: whether it is enabled, and how many rows it has of
/// each kind.
#[tactic(auto, unfolding(crate::specs::Listed::account_line))]
pub fn account_line<T: Tables>(
    alloc: Global,
    tables: &mut T,
    form: Form,
    number: u16,
) -> Result<Option<String>, StoreFault>
    ensures found { Finds T.meaning (option_map string_bytes) result tables.old tables.new (account_line form number) }
    ensures looks { Looks T.meaning result tables.old tables.new }
{
    let Some(row) = tables.account(number)? else {
        return Ok(None);
    };
    let counts = tables.counts(number)?;
    Ok(Some(account_text(alloc, form, &row, counts)?))
}

pub(crate) fn kind_word(kind: Kind) -> &'static str
    ensures { result.now ≡ kind_word kind }
{
    match kind {
        Kind::Vendor => "vendor",
        Kind::Module => "module",
        Kind::Environment => "environment",
        Kind::Certification => "certification",
    }
}

/// What a request asks for.
fn kind_asked(body: &RequestBody) -> Kind
    ensures { result ≡ kind_asked body.now }
{
    match body {
        RequestBody::Registration(object) => object.kind(),
        RequestBody::Certification(_) => Kind::Certification,
    }
}

fn status_word(status: RequestStatus) -> &'static str
    ensures { result.now ≡ status_word status }
{
    match status {
        RequestStatus::Initial => "initial",
        RequestStatus::Approved(_) => "approved",
        RequestStatus::Rejected => "rejected",
    }
}

/// The number that an approval gave.
fn approved_number(status: RequestStatus) -> Option<u64>
    ensures { result ≡ approved_number status }
{
    match status {
        RequestStatus::Approved(number) => Some(number),
        RequestStatus::Initial | RequestStatus::Rejected => None,
    }
}

/// The digits of a number.
fn decimal_text(alloc: Global, number: u64) -> Result<String, AllocError>
    ensures { IfOk result (λ text. string_bytes text ≡ decimal number) }
{
    format!(in alloc; "{number}")
}

/// The time of a moment before the year 10000, or else its number.
pub(crate) fn moment_text(alloc: Global, moment: u64) -> Result<String, AllocError>
    ensures { IfOk result (λ text. string_bytes text ≡ moment_text moment) }
{
    if moment < END_OF_YEARS {
        time_text(alloc, moment)
    } else {
        decimal_text(alloc, moment)
    }
}

/// Whether the account of a number is there, and enabled.
#[tactic(auto, unfolding(crate::specs::Listed::is_enabled))]
fn is_enabled<T: Tables>(tables: &mut T, account: u16) -> Result<bool, StoreFault>
    ensures found { Finds T.meaning (λ x. x) result tables.old tables.new (is_enabled account) }
    ensures looks { Looks T.meaning result tables.old tables.new }
{
    match tables.account(account)? {
        Some(row) => Ok(row.enabled),
        None => Ok(false),
    }
}

/// The name of a module, where there is one of the number.
fn module_name<T: Tables>(
    alloc: Global,
    tables: &mut T,
    number: u64,
) -> Result<Option<String>, StoreFault>
    ensures found { Finds T.meaning (option_map string_bytes) result tables.old tables.new
        (λ c. option_map (λ row. object_name row.object) (object_at Module number c.objects)) }
    ensures looks { Looks T.meaning result tables.old tables.new }
{
    match tables.object(Kind::Module, number)? {
        Some(row) => Ok(Some(String::from_str(alloc, row.object.name())?)),
        None => Ok(None),
    }
}

/// The name of what is asked to be registered, or of the module that is to be certified.
#[tactic(auto, unfolding(crate::specs::Listed::name_asked))]
fn name_asked<T: Tables>(
    alloc: Global,
    tables: &mut T,
    body: &RequestBody,
) -> Result<Option<String>, StoreFault>
    ensures found { Finds T.meaning (option_map string_bytes) result tables.old tables.new (name_asked body.now) }
    ensures looks { Looks T.meaning result tables.old tables.new }
{
    match body {
        RequestBody::Registration(object) => { Ok(Some(String::from_str(alloc, object.name())?)) }
        RequestBody::Certification(it) => module_name(alloc, tables, it.module),
    }
}

/// The test session that is to be certified.
#[tactic(auto, unfolding(crate::specs::Listed::session_asked))]
fn session_asked<T: Tables>(
    tables: &mut T,
    body: &RequestBody,
) -> Result<Option<SessionRow>, StoreFault>
    ensures found { Finds T.meaning (λ x. x) result tables.old tables.new (session_asked body.now) }
    ensures looks { Looks T.meaning result tables.old tables.new }
{
    match body {
        RequestBody::Registration(_) => Ok(None),
        RequestBody::Certification(it) => tables.session(it.session),
    }
}

// ---- its lines of words

fn disabled_words(enabled: bool) -> &'static str
    ensures { result.now ≡ disabled_words enabled }
{
    if enabled { "" } else { " (disabled)" }
}

fn approved_words(alloc: Global, number: Option<u64>) -> Result<String, AllocError>
    ensures { IfOk result (λ text. string_bytes text ≡ approved_words number) }
{
    match number {
        Some(number) => format!(in alloc; " {number}"),
        None => Ok(String::new(alloc)),
    }
}

/// Whose a request is: its number and its account's.
fn owner_words(alloc: Global, number: u64, account: u16, word: &str) -> Result<String, AllocError>
    ensures { IfOk result (λ text. string_bytes text
        ≡ decimal number ++ codes " account " ++ decimal account ++ word.now) }
{
    format!(in alloc; "{number} account {account}{word}")
}

/// What it asks for, and what was decided.
fn asked_words(alloc: Global, kind: &str, status: &str) -> Result<String, AllocError>
    ensures { IfOk result (λ text. string_bytes text ≡ codes " " ++ kind.now ++ codes " " ++ status.now) }
{
    format!(in alloc; " {kind} {status}")
}

fn request_head(alloc: Global, it: &RequestRow, enabled: bool) -> Result<String, AllocError>
    ensures { IfOk result (λ text. string_bytes text ≡ request_head it.now enabled) }
{
    let owner = owner_words(alloc, it.number, it.account, disabled_words(enabled))?;
    let asked = asked_words(
        alloc,
        kind_word(kind_asked(&it.body)),
        status_word(it.status),
    )?;
    joined(alloc, &owner, &asked)
}

/// The day of a time.
fn day_in(time: &str) -> &str
    ensures { result.now ≡ day_in time.now }
{
    match time.split_once('T') {
        Some((day, _)) => day,
        None => time,
    }
}

/// A test session, the day when it was made, and how many of its vector sets have passed, in a line of its own.
fn session_part(alloc: Global, row: &SessionRow, day: &str) -> Result<String, AllocError>
    ensures { IfOk result (λ text. string_bytes text
        ≡ next_line ++ codes "session " ++ decimal row.now.number ++ codes " of " ++ day.now ++ codes " "
        ++ decimal row.now.passed ++ codes " of " ++ decimal row.now.live ++ codes " passed") }
{
    let SessionRow {
        number,
        live,
        passed,
        ..
    } = *row;
    format!(in alloc; "\n    session {number} of {day} {passed} of {live} passed")
}

fn session_words(alloc: Global, session: Option<SessionRow>) -> Result<String, AllocError>
    ensures { IfOk result (λ text. string_bytes text ≡ session_words session) }
{
    match session {
        Some(row) => {
            let time = moment_text(alloc, row.created)?;
            session_part(alloc, &row, day_in(&time))
        }
        None => Ok(String::new(alloc)),
    }
}

/// A text as a JSON string.
fn json_string(alloc: Global, text: &str) -> Result<String, AllocError>
    ensures { IfOk result (λ json. string_bytes json ≡ compact_text (string text.now)) }
{
    Value::try_from_str(alloc, text)?.to_string(alloc)
}

/// A text as a JSON string, without characters that act on a terminal.
fn quoted(alloc: Global, text: &str) -> Result<String, AllocError>
    ensures { IfOk result (λ shown. string_bytes shown ≡ escaped (compact_text (string text.now))) }
{
    let json = json_string(alloc, text)?;
    escaped(alloc, &json)
}

/// A name as it is shown, in a line of its own.
fn shown_name(alloc: Global, name: &str) -> Result<String, AllocError>
    ensures { IfOk result (λ text. string_bytes text ≡ next_line ++ escaped (compact_text (string name.now))) }
{
    let shown = quoted(alloc, name)?;
    joined(alloc, "\n    ", &shown)
}

fn name_words(alloc: Global, name: &Option<String>) -> Result<String, AllocError>
    ensures { IfOk result (λ text. string_bytes text ≡ name_words (option_map string_bytes name.now)) }
{
    match name {
        Some(name) => shown_name(alloc, name),
        None => Ok(String::new(alloc)),
    }
}

/// What stands in the lines behind the first.
#[tactic(auto, unfolding(crate::specs::Listed::rest_words))]
fn rest_words(
    alloc: Global,
    session: Option<SessionRow>,
    name: &Option<String>,
) -> Result<String, AllocError>
    ensures { IfOk result (λ text. string_bytes text
        ≡ rest_words session (option_map string_bytes name.now)) }
{
    let session = session_words(alloc, session)?;
    let name = name_words(alloc, name)?;
    joined(alloc, &session, &name)
}

/// The first line: whose it is, what it asks for, what was decided, and the number that an approval gave.
#[tactic(auto, unfolding(crate::specs::Listed::decided_words))]
fn decided_words(alloc: Global, it: &RequestRow, enabled: bool) -> Result<String, AllocError>
    ensures { IfOk result (λ text. string_bytes text ≡ decided_words it.now enabled) }
{
    let head = request_head(alloc, it, enabled)?;
    let approved = approved_words(alloc, approved_number(it.status))?;
    joined(alloc, &head, &approved)
}

fn request_words(
    alloc: Global,
    it: &RequestRow,
    enabled: bool,
    session: Option<SessionRow>,
    name: &Option<String>,
) -> Result<String, AllocError>
    ensures { IfOk result (λ text. string_bytes text
        ≡ request_words it.now enabled session (option_map string_bytes name.now)) }
{
    let decided = decided_words(alloc, it, enabled)?;
    let rest = rest_words(alloc, session, name)?;
    joined(alloc, &decided, &rest)
}

// ---- its JSON object

/// How many vector sets of a session have passed.
fn passed_of(session: Option<SessionRow>) -> Option<u64>
    ensures { result ≡ option_map (λ row. row.passed) session }
{
    match session {
        Some(row) => Some(row.passed),
        None => None,
    }
}

/// How many vector sets of a session aren't cancelled.
fn live_of(session: Option<SessionRow>) -> Option<u64>
    ensures { result ≡ option_map (λ row. row.live) session }
{
    match session {
        Some(row) => Some(row.live),
        None => None,
    }
}

/// A text, or null.
fn text_value(alloc: Global, text: &Option<String>) -> Result<Value, AllocError>
    ensures { IfOk result (λ value. view value ≡ text_or_null (option_map string_bytes text.now)) }
{
    match text {
        Some(text) => Value::try_from_str(alloc, text),
        None => Ok(Value::Null),
    }
}

/// When a session was made, or null.
fn created_value(alloc: Global, session: Option<SessionRow>) -> Result<Value, AllocError>
    ensures { IfOk result (λ value.
        view value ≡ text_or_null (option_map (λ row. moment_text row.created) session)) }
{
    match session {
        Some(row) => {
            let time = moment_text(alloc, row.created)?;
            Value::try_from_str(alloc, &time)
        }
        None => Ok(Value::Null),
    }
}

/// What is to be certified, with its test session.
#[tactic(auto, unfolding(crate::specs::Listed::certification_data))]
fn certification_value(
    alloc: Global,
    it: Certification,
    session: Option<SessionRow>,
) -> Result<Value, AllocError>
    ensures { IfOk result (λ value. view value ≡ certification_data it session) }
{
    let created = created_value(alloc, session)?;
    json!(in alloc; {
        "createdOn": created,
        "environment": it.environment,
        "module": it.module,
        "passed": number_or_null(passed_of(session)),
        "session": it.session,
        "vectorSets": number_or_null(live_of(session))
    })
}

/// The same of a request, or null.
#[tactic(auto, unfolding(crate::specs::Listed::certified_data))]
fn certified_value(
    alloc: Global,
    body: &RequestBody,
    session: Option<SessionRow>,
) -> Result<Value, AllocError>
    ensures { IfOk result (λ value. view value ≡ certified_data body.now session) }
{
    match body {
        RequestBody::Registration(_) => Ok(Value::Null),
        RequestBody::Certification(it) => certification_value(alloc, *it, session),
    }
}

/// A request as a JSON value.
#[tactic(auto, unfolding(crate::specs::Listed::request_data))]
fn request_value(
    alloc: Global,
    it: &RequestRow,
    enabled: bool,
    session: Option<SessionRow>,
    name: &Option<String>,
) -> Result<Value, AllocError>
    ensures { IfOk result (λ value.
        view value ≡ request_data it.now enabled session (option_map string_bytes name.now)) }
{
    let certified = certified_value(alloc, &it.body, session)?;
    let name = text_value(alloc, name)?;
    let kind = kind_word(kind_asked(&it.body));
    json!(in alloc; {
        "account": it.account,
        "approved": number_or_null(approved_number(it.status)),
        "certification": certified,
        "enabled": enabled,
        "kind": kind,
        "name": name,
        "request": it.number,
        "status": status_word(it.status)
    })
}

/// A request as a JSON text.
fn request_json(
    alloc: Global,
    it: &RequestRow,
    enabled: bool,
    session: Option<SessionRow>,
    name: &Option<String>,
) -> Result<String, AllocError>
    ensures { IfOk result (λ text. string_bytes text
        ≡ compact_text (request_data it.now enabled session (option_map string_bytes name.now))) }
{
    request_value(alloc, it, enabled, session, name)?.to_string(alloc)
}

/// A request as a JSON object without characters that act on a terminal.
fn request_object(
    alloc: Global,
    it: &RequestRow,
    enabled: bool,
    session: Option<SessionRow>,
    name: &Option<String>,
) -> Result<String, AllocError>
    ensures { IfOk result (λ text. string_bytes text
        ≡ escaped (compact_text (request_data it.now enabled session (option_map string_bytes name.now)))) }
{
    let json = request_json(alloc, it, enabled, session, name)?;
    escaped(alloc, &json)
}

// ---- what is shown of it

fn request_parts(
    alloc: Global,
    form: Form,
    it: &RequestRow,
    enabled: bool,
    session: Option<SessionRow>,
    name: &Option<String>,
) -> Result<String, AllocError>
    ensures { IfOk result (λ text. string_bytes text
        ≡ request_parts form it.now enabled session (option_map string_bytes name.now)) }
{
    match form {
        Form::Words => {
            let words = request_words(alloc, it, enabled, session, name)?;
            folded(alloc, &words)
        }
        Form::Json => request_object(alloc, it, enabled, session, name),
    }
}

/// What is shown of a request, with what the other records say of its account and of what it asks for.
#[tactic(auto, unfolding(crate::specs::Listed::request_text))]
fn request_text<T: Tables>(
    alloc: Global,
    tables: &mut T,
    form: Form,
    it: &RequestRow,
) -> Result<String, StoreFault>
    ensures found { Finds T.meaning string_bytes result tables.old tables.new (λ c. request_text form c it.now) }
    ensures looks { Looks T.meaning result tables.old tables.new }
{
    let enabled = is_enabled(tables, it.account)?;
    let session = session_asked(tables, &it.body)?;
    let name = name_asked(alloc, tables, &it.body)?;
    Ok(request_parts(alloc, form, it, enabled, session, &name)?)
}

/// What is shown of the request of a number, where there is one. One that was decided is shown only where `all` are.
#[tactic(auto, unfolding(crate::specs::Listed::request_line))]
pub fn request_line<T: WholeRequests>(
    alloc: Global,
    tables: &mut T,
    form: Form,
    number: u64,
    all: bool,
) -> Result<Option<String>, StoreFault>
    ensures found { Finds T.meaning (option_map string_bytes) result tables.old tables.new
        (request_line form all number) }
    ensures looks { Looks T.meaning result tables.old tables.new }
{
    let Some(request) = tables.request_row(number)? else {
        return Ok(None);
    };
    if !all && !matches!(request.status, RequestStatus::Initial) {
        return Ok(None);
    }
    Ok(Some(request_text(alloc, tables, form, &request)?))
}
