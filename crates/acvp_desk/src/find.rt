//! The tables are looked at.

ghost use Rattle.std.specs.Prelude.{◌≡◌, ◌⊎◌, ◌/◌, ℕ, List, map, ◌&&◌, ◌||◌, ◌==◌, not, nat_le, true, Some, is_some};
ghost use Rattle.std.specs.Prelude.{IfOk, IfErr, IfSome, IsSome, None, option_and_then, option_map};
ghost use Rattle.acvp_mac.specs.Conditions.{first_broken};
ghost use Rattle.acvp_policy.specs.Conditions.{claims_of};
ghost use Rattle.acvp_policy.specs.Decision.{account_of_claims};
ghost use Rattle.acvp_tables.specs.Content.{Content, account_at, reviewers_of, session_at, set_at};
ghost use Rattle.acvp_tables.specs.Meaning.{narrowed};
ghost use Rattle.acvp_tables.specs.State.{record_counts, session_record, state_of, set_record_at};
ghost use Rattle.acvp_desk.specs.Answer.{action_in, action_of, found_of, policy_conditions};
ghost use Rattle.acvp_desk.specs.Answer.{is_reviewing, who};
ghost use Rattle.acvp_desk.specs.Kept.{IsKept};
ghost use Rattle.acvp_desk.specs.Private.Admitted.{IsAdmitted};
ghost use Rattle.acvp_desk.specs.Private.Changeable.{IfChangeable};
ghost use Rattle.acvp_desk.specs.Private.SetRows.{set_facts_from, rows_in, source_from};
ghost use Rattle.acvp_desk.specs.Place.{certification_of, certification_status, listed_session, place_of};
ghost use Rattle.acvp_desk.specs.Place.{reviewed, reviewed_facts, session_facts, session_place, session_wish};
ghost use Rattle.acvp_desk.specs.Place.{sessions_page, set_numbers, set_outcomes, wish_at};
ghost use Rattle.acvp_desk.specs.Sets.{no_set_place, set_facts, set_place, set_wish, submission_for, verdicts_on_set};
ghost use Rattle.acvp_desk.specs.Serves.{Holds, Knows, Looks, Sees};
ghost use Rattle.acvp_desk.specs.declared.found.Place.TheVariants as place;
ghost use Rattle.acvp_desk.specs.Private.Within.{is_fit, is_within};

use crate::ask::Asker;
use crate::body::certify_read;
use crate::facts::unfound_facts;
use crate::found::{
    Accounts, ByPrompts, Found, FoundCaller, ListedSession, ListedSessions, Place, SessionPlace,
    SessionsPage, SetNumbers, SetOutcome, SetOutcomes, SetPlace, SetSource, SetVerdicts,
    Submission,
};
use crate::judged::judge_own_sets;
use crate::own_rows::{certification_grounds, registry_place};
use crate::submit::one_if_passed;
use crate::wish::{AccountWish, SessionWish, SetWish, Wish};
use acvp_json::Page;
use acvp_policy::{CertificationStatus, Rule, SessionFacts, SetFacts, Token, admit};
use acvp_registry::Counts;
use acvp_tables::{
    AccountRow, Counted, RequestStatus, SessionRow, SetSummary, StoreFault, Tables, numbers_name,
    numbers_tell, selections_follow, sets_are_there_once,
};
use std::alloc::{AllocError, Global};

/// The number of a vector set is its session's and two digits.
const SETS_OF_A_SESSION: u64 = 100;

/// The number of the account that acts; 0 where the token names none.
pub(crate) fn acting(token: &Token) -> u16
    ensures { result ≡ account_of_claims (claims_of token.now) }
{
    match token {
        Token::Verified(claims) => claims.account,
        _ => 0,
    }
}

/// The row of an account, where one acts.
fn account<T: Tables>(tables: &mut T, number: Option<u16>) -> Result<Option<AccountRow>, StoreFault>
    ensures found { Knows T.meaning result tables.old tables.new
        (λ seeds c. option_and_then (λ n. account_at n c.accounts) number) }
    ensures open { IfOk result (λ found. IfSome found (λ _. T.meaning.is_clean tables.new
        → T.meaning.is_open tables.old × T.meaning.is_open tables.new)) }
    ensures named { IfOk result (λ found. IfSome found (λ _. IsSome number)) }
    ensures nobody { number ≡ None → tables.new ≡ tables.old }
    ensures looks { Looks T.meaning result tables.old tables.new }
{
    match number {
        Some(number) => tables.account(number),
        None => Ok(None),
    }
}

/// Whether an account reviews the session of the path, on the actions that reviewers are let in to.
#[tactic(auto, unfolding(acvp_tables::specs::State::state_of))]
fn reviews<T: Tables>(tables: &mut T, wish: &Wish, account: u16) -> Result<bool, StoreFault>
    ensures found { Knows T.meaning result tables.old tables.new
        (λ seeds c. reviewed wish.now account (state_of c)) }
    ensures looks { Looks T.meaning result tables.old tables.new }
{
    match *wish {
        Wish::Session(session, SessionWish::Results) => tables.is_reviewer(session, account),
        Wish::Set(session, _, SetWish::Results) => tables.is_reviewer(session, account),
        _ => Ok(false),
    }
}

/// Whether who asks is a reviewer. It is looked up for claims that are verified and bound to no session.
fn reviewer<T: Tables>(tables: &mut T, ask: &Asker) -> Result<bool, StoreFault>
    ensures found { Knows T.meaning result tables.old tables.new (λ seeds c. is_reviewing ask.now (state_of c)) }
    ensures nobody { who ask.now ≡ None → tables.new ≡ tables.old }
    ensures looks { Looks T.meaning result tables.old tables.new }
{
    let Asker::Caller(caller) = ask else {
        return Ok(false);
    };
    let Token::Verified(claims) = caller.token else {
        return Ok(false);
    };
    if claims.session.is_some() {
        return Ok(false);
    }
    reviews(tables, &caller.wish, claims.account)
}

fn certification_status(status: RequestStatus) -> CertificationStatus
    ensures { result ≡ certification_status status }
{
    match status {
        RequestStatus::Initial => CertificationStatus::Initial,
        RequestStatus::Approved(_) => CertificationStatus::Approved,
        RequestStatus::Rejected => CertificationStatus::Rejected,
    }
}

/// The status of a session's last certification request.
fn certification<T: Tables>(
    tables: &mut T,
    certify: Option<u64>,
) -> Result<Option<CertificationStatus>, StoreFault>
    ensures found { Sees T.meaning result tables.old tables.new (λ seeds c. certification_of certify c.requests) }
    ensures looks { Looks T.meaning result tables.old tables.new }
{
    let Some(number) = certify else {
        return Ok(None);
    };
    match tables.request_status(number)? {
        Some(status) => Ok(Some(certification_status(status))),
        None => Ok(None),
    }
}

/// How the session of a row stands, whose last certification request stands so. It has passed where it has vector sets
/// that aren't cancelled, and as many of them have.
fn facts_of(row: &SessionRow, certification: Option<CertificationStatus>) -> SessionFacts
    ensures { result ≡ (record {
      cancelled = row.now.cancelled;
      created = row.now.created;
      sample = row.now.sample;
      certification = certification;
      passed = nat_le 1 row.now.live && (row.now.passed == row.now.live);
    }) }
{
    SessionFacts {
        cancelled: row.cancelled,
        created: row.created,
        sample: row.sample,
        certification,
        passed: row.live >= 1 && row.passed == row.live,
    }
}

/// How the session of a number stands, whose row this is. Like all that is told of rows that are handed in, it is said
/// of the contents that have them.
#[tactic(auto, unfolding(acvp_tables::specs::State::state_of, crate::specs::Place::session_facts))]
fn facts_by_row<T: Tables>(
    tables: &mut T,
    number: u64,
    row: Option<SessionRow>,
) -> Result<Option<SessionFacts>, StoreFault>
    ensures found { Sees (narrowed T.meaning (λ c. row ≡ session_at number c.sessions)) result tables.old tables.new
        (λ seeds c. session_facts seeds (state_of c) number) }
    ensures looks { Looks T.meaning result tables.old tables.new }
{
    selections_follow();
    let Some(row) = row else {
        return Ok(None);
    };
    let certification = certification(tables, row.last_request)?;
    Ok(Some(facts_of(&row, certification)))
}

/// How the session of a number stands.
fn session_facts<T: Tables>(tables: &mut T, number: u64) -> Result<Option<SessionFacts>, StoreFault>
    ensures found { Sees T.meaning result tables.old tables.new (λ seeds c. session_facts seeds (state_of c) number) }
    ensures looks { Looks T.meaning result tables.old tables.new }
{
    let row = tables.session(number)?;
    facts_by_row(tables, number, row)
}

/// How the session of a number stands, where the account of another is a reviewer of it.
#[tactic(auto, unfolding(acvp_tables::specs::State::state_of))]
fn reviewed_facts<T: Tables>(
    tables: &mut T,
    session: u64,
    reviewer: u64,
) -> Result<Option<SessionFacts>, StoreFault>
    ensures found { Sees T.meaning result tables.old tables.new
        (λ seeds c. reviewed_facts seeds (state_of c) session reviewer) }
    ensures within { IfOk result (λ found. (not (is_some found) || nat_le reviewer 9999) ≡ true) }
    ensures looks { Looks T.meaning result tables.old tables.new }
{
    numbers_tell();
    if reviewer > 9999 {
        return Ok(None);
    }
    if !tables.is_reviewer(session, reviewer as u16)? {
        return Ok(None);
    }
    session_facts(tables, session)
}

/// How the vector set of a row stands, where there is one and it is of the session of a number, which stands so.
fn set_facts_from(session: u64, facts: SessionFacts, row: Option<SetSummary>) -> Option<SetFacts>
    ensures { result ≡ set_facts_from session facts row }
{
    match row {
        Some(row) if row.session == session => Some(SetFacts {
            session: facts,
            cancelled: row.cancelled,
            answered: row.disposition.is_some(),
        }),
        _ => None,
    }
}

/// How the vector set of a number stands, where it is of the session of a number.
#[tactic(auto, unfolding(acvp_tables::specs::State::state_of, crate::specs::Sets::set_facts))]
fn set_facts<T: Tables>(
    tables: &mut T,
    session: u64,
    number: u64,
) -> Result<Option<SetFacts>, StoreFault>
    ensures found { Sees T.meaning result tables.old tables.new
        (λ seeds c. set_facts (session_facts seeds (state_of c) session) session number (state_of c).sets) }
    ensures within { IfOk result (λ found. (not (is_some found) || ((number / 100) == session)) ≡ true) }
    ensures looks { Looks T.meaning result tables.old tables.new }
{
    selections_follow();
    numbers_name();
    if number / SETS_OF_A_SESSION != session {
        return Ok(None);
    }
    let Some(facts) = session_facts(tables, session)? else {
        return Ok(None);
    };
    let row = tables.set(number)?;
    Ok(set_facts_from(session, facts, row))
}

/// The numbers of a session's vector sets that aren't cancelled.
#[tactic(auto, unfolding(acvp_tables::specs::State::state_of))]
fn set_numbers<T: Tables>(
    alloc: Global,
    tables: &mut T,
    session: u64,
) -> Result<SetNumbers, StoreFault>
    ensures found { Sees T.meaning result tables.old tables.new (λ seeds c. set_numbers session (state_of c)) }
    ensures looks { Looks T.meaning result tables.old tables.new }
{
    selections_follow();
    let sets = tables.sets_of(session)?;
    let mut numbers = Vec::with_capacity(alloc, sets.len())?;
    for set in &sets {
        if let Err(refused) = numbers.push(set.number) {
            return Err(AllocError::from(refused).into());
        }
    }
    Ok(SetNumbers { numbers })
}

/// A session's vector sets that aren't cancelled, with what their answers come to.
#[tactic(auto, unfolding(acvp_tables::specs::State::state_of))]
fn set_outcomes<T: Tables>(
    alloc: Global,
    tables: &mut T,
    session: u64,
) -> Result<SetOutcomes, StoreFault>
    ensures found { Sees T.meaning result tables.old tables.new (λ seeds c. set_outcomes seeds session (state_of c)) }
    ensures looks { Looks T.meaning result tables.old tables.new }
{
    selections_follow();
    let found = tables.sets_of(session)?;
    let mut sets = Vec::with_capacity(alloc, found.len())?;
    for set in &found {
        let outcome = SetOutcome {
            vs: set.number,
            disposition: set.disposition,
        };
        if let Err(refused) = sets.push(outcome) {
            return Err(AllocError::from(refused).into());
        }
    }
    Ok(SetOutcomes { sets })
}

/// The accounts that review a session.
#[tactic(auto, unfolding(acvp_tables::specs::State::state_of))]
fn reviewers<T: Tables>(tables: &mut T, session: u64) -> Result<Accounts, StoreFault>
    ensures found { Sees T.meaning result tables.old tables.new
        (λ seeds c. reviewers_of session (state_of c).reviewers) }
    ensures looks { Looks T.meaning result tables.old tables.new }
{
    Ok(Accounts {
        numbers: tables.reviewers_of(session)?,
    })
}

/// How many rows an account has.
#[tactic(auto, unfolding(acvp_tables::specs::State::state_of))]
fn account_counts<T: Tables>(tables: &mut T, account: u16) -> Result<Counts, StoreFault>
    ensures found { Sees T.meaning result tables.old tables.new (λ seeds c. record_counts account (state_of c)) }
    ensures looks { Looks T.meaning result tables.old tables.new }
{
    selections_follow();
    let counts = tables.counts(account)?;
    Ok(counts)
}

/// What is found of a session for what is asked of it.
fn session_place<T: Tables>(
    alloc: Global,
    tables: &mut T,
    session: u64,
    wish: SessionWish,
) -> Result<SessionPlace, StoreFault>
    ensures found { Sees T.meaning result tables.old tables.new
        (λ seeds c. session_place seeds session (state_of c) wish) }
    ensures asked { IfOk result (λ place. session_wish place ≡ wish) }
    ensures looks { Looks T.meaning result tables.old tables.new }
{
    match wish {
        SessionWish::Read => Ok(SessionPlace::Read(set_numbers(alloc, tables, session)?)),
        SessionWish::Cancel => Ok(SessionPlace::Cancel),
        SessionWish::Results => Ok(SessionPlace::Results(set_outcomes(alloc, tables, session)?)),
        SessionWish::ListSets => Ok(SessionPlace::ListSets(set_numbers(alloc, tables, session)?)),
        SessionWish::ListReviewers => {
            Ok(SessionPlace::ListReviewers(reviewers(tables, session)?))
        }
        SessionWish::AddReviewer => Ok(SessionPlace::AddReviewer(reviewers(tables, session)?)),
    }
}

/// The rows of a vector set and of the session of a path, where they are there.
#[derive(Clone, Copy)]
struct SetRows {
    session: Option<SessionRow>,
    set: Option<SetSummary>,
}

/// The rows of the vector set and of the session of two numbers, each read once.
fn set_rows<T: Tables>(tables: &mut T, session: u64, number: u64) -> Result<SetRows, StoreFault>
    ensures found { Sees T.meaning result tables.old tables.new (λ seeds c. rows_in session number c) }
    ensures looks { Looks T.meaning result tables.old tables.new }
{
    let session = tables.session(session)?;
    let set = tables.set(number)?;
    Ok(SetRows { session, set })
}

/// How the vector set of a number stands in the session of a number, whose rows these are.
fn facts_by_rows<T: Tables>(
    tables: &mut T,
    session: u64,
    number: u64,
    rows: &SetRows,
) -> Result<Option<SetFacts>, StoreFault>
    ensures found { Sees (narrowed T.meaning (λ c. rows.now ≡ rows_in session number c)) result tables.old tables.new
        (λ seeds c. set_facts (session_facts seeds (state_of c) session) session number (state_of c).sets) }
    ensures looks { Looks T.meaning result tables.old tables.new }
{
    selections_follow();
    match facts_by_row(tables, session, rows.session)? {
        Some(facts) => Ok(set_facts_from(session, facts, rows.set)),
        None => Ok(None),
    }
}

/// What the prompts of the vector set of a number are made from, whose row this is.
fn set_source<T: Tables>(
    tables: &mut T,
    number: u64,
    row: Option<SetSummary>,
) -> Result<Option<SetSource>, StoreFault>
    ensures found { Sees T.meaning result tables.old tables.new (λ seeds c. source_from row (set_at number c.sets)) }
    ensures looks { Looks T.meaning result tables.old tables.new }
{
    let Some(row) = row else {
        return Ok(None);
    };
    match tables.capability(number)? {
        Some(capability) => Ok(Some(SetSource {
            capability,
            epoch: row.epoch,
        })),
        None => Ok(None),
    }
}

/// The verdicts on the answers to a vector set, where it has any.
#[tactic(auto, unfolding(acvp_tables::specs::State::state_of))]
fn set_verdicts<T: Tables>(tables: &mut T, number: u64) -> Result<Option<SetVerdicts>, StoreFault>
    ensures found { Sees T.meaning result tables.old tables.new
        (λ seeds c. option_and_then (verdicts_on_set seeds) (set_record_at number (state_of c).sets)) }
    ensures looks { Looks T.meaning result tables.old tables.new }
{
    selections_follow();
    match tables.verdicts(number)? {
        Some(verdicts) => Ok(Some(SetVerdicts { verdicts })),
        None => Ok(None),
    }
}

/// What answers to the vector set of a number are graded by and counted with, where it is of the session of a number
/// and isn't cancelled; these are their rows. A set whose session isn't there or doesn't count it stands for nothing.
fn submission<T: Tables>(
    tables: &mut T,
    session: u64,
    number: u64,
    rows: &SetRows,
) -> Result<Option<Submission>, StoreFault>
    ensures found { Sees (narrowed T.meaning (λ c. rows.now ≡ rows_in session number c)) result tables.old tables.new
        (λ seeds c. submission_for seeds session number (state_of c).sets) }
    ensures looks { Looks T.meaning result tables.old tables.new }
{
    selections_follow();
    sets_are_there_once();
    let Some(set) = rows.set else {
        return Ok(None);
    };
    if set.session != session || set.cancelled {
        return Ok(None);
    }
    let Some(source) = set_source(tables, number, Some(set))? else {
        return Ok(None);
    };
    let Some(row) = rows.session else {
        return Err(StoreFault::Refused);
    };
    let Some(others) = row.passed.checked_sub(one_if_passed(set.disposition)) else {
        return Err(StoreFault::Refused);
    };
    Ok(Some(Submission { source, others }))
}

/// What is found of a vector set that isn't there.
fn no_set_place(wish: SetWish) -> SetPlace
    ensures value { result ≡ no_set_place wish }
    ensures asked { set_wish result ≡ wish }
{
    match wish {
        SetWish::Read => SetPlace::Made(ByPrompts::Prompts, None),
        SetWish::Expected => SetPlace::Made(ByPrompts::Expected, None),
        SetWish::Results => SetPlace::Made(ByPrompts::Results, None),
        SetWish::Submit => SetPlace::Submit(None),
        SetWish::Resubmit => SetPlace::Resubmit(None),
    }
}

/// What is found of the vector set of a number, which names the session of a number, for what is asked of it; these are
/// their rows.
fn set_place<T: Tables>(
    tables: &mut T,
    session: u64,
    number: u64,
    rows: &SetRows,
    wish: SetWish,
) -> Result<SetPlace, StoreFault>
    requires { ((number / 100) == session) ≡ true }
    ensures found { Sees (narrowed T.meaning (λ c. rows.now ≡ rows_in session number c)) result tables.old tables.new
        (λ seeds c. set_place seeds session number (state_of c).sets wish) }
    ensures asked { IfOk result (λ place. set_wish place ≡ wish) }
    ensures looks { Looks T.meaning result tables.old tables.new }
{
    selections_follow();
    numbers_name();
    match wish {
        SetWish::Read => {
            let source = set_source(tables, number, rows.set)?;
            Ok(SetPlace::Made(ByPrompts::Prompts, source))
        }
        SetWish::Expected => {
            let source = set_source(tables, number, rows.set)?;
            Ok(SetPlace::Made(ByPrompts::Expected, source))
        }
        SetWish::Results => match set_verdicts(tables, number)? {
            Some(verdicts) => Ok(SetPlace::Verdicts(verdicts)),
            None => {
                let source = set_source(tables, number, rows.set)?;
                Ok(SetPlace::Made(ByPrompts::Results, source))
            }
        },
        SetWish::Submit => Ok(SetPlace::Submit(submission(tables, session, number, rows)?)),
        SetWish::Resubmit => Ok(SetPlace::Resubmit(submission(tables, session, number, rows)?)),
    }
}

/// What a list shows of a session.
fn listed_session<T: Tables>(tables: &mut T, row: &SessionRow) -> Result<ListedSession, StoreFault>
    ensures found { Sees T.meaning result tables.old tables.new
        (λ seeds c. listed_session c.requests (session_record row.now)) }
    ensures looks { Looks T.meaning result tables.old tables.new }
{
    let certification = certification(tables, row.last_request)?;
    Ok(ListedSession {
        number: row.number,
        created: row.created,
        sample: row.sample,
        cancelled: row.cancelled,
        certification,
    })
}

/// What a list shows of sessions.
fn listed_sessions<T: Tables>(
    alloc: Global,
    tables: &mut T,
    rows: &[SessionRow],
) -> Result<ListedSessions, StoreFault>
    ensures found { Sees T.meaning result tables.old tables.new
        (λ seeds c. map (listed_session c.requests) (map session_record rows.now)) }
    ensures looks { Looks T.meaning result tables.old tables.new }
{
    let mut sessions = Vec::with_capacity(alloc, rows.len())?;
    for row in rows {
        let session = listed_session(tables, row)?;
        if let Err(refused) = sessions.push(session) {
            return Err(AllocError::from(refused).into());
        }
    }
    Ok(ListedSessions { sessions })
}

/// How many sessions an account has.
#[tactic(auto, unfolding(acvp_tables::specs::State::state_of))]
fn session_count<T: Tables>(tables: &mut T, account: u16) -> Result<u64, StoreFault>
    ensures found { Sees T.meaning result tables.old tables.new
        (λ seeds c. (record_counts account (state_of c)).sessions) }
    ensures looks { Looks T.meaning result tables.old tables.new }
{
    selections_follow();
    tables.count(account, Counted::Sessions)
}

/// A page of an account's sessions, where the query is one.
#[tactic(auto, unfolding(acvp_tables::specs::State::state_of))]
fn sessions_page<T: Tables>(
    alloc: Global,
    tables: &mut T,
    account: u16,
    page: Option<Page>,
) -> Result<Option<SessionsPage>, StoreFault>
    ensures found { Sees T.meaning result tables.old tables.new
        (λ seeds c. option_map (sessions_page account (state_of c)) page) }
    ensures asked { IfOk result (λ found. option_map (λ found. found.page) found ≡ page) }
    ensures looks { Looks T.meaning result tables.old tables.new }
{
    selections_follow();
    let Some(page) = page else {
        return Ok(None);
    };
    let total = tables.count(account, Counted::Sessions)?;
    let rows = tables.sessions(account, page.offset, page.limit)?;
    let sessions = listed_sessions(alloc, tables, &rows)?;
    Ok(Some(SessionsPage {
        page,
        total,
        sessions,
    }))
}

/// What is found of the vector set of a number on a path of a session for what is asked of it: each row is read once.
/// Of a number of another session nothing is read, since its row may be another account's.
fn place_in_session<T: Tables>(
    tables: &mut T,
    session: u64,
    number: u64,
    wish: SetWish,
) -> Result<Place, StoreFault>
    ensures found { Sees T.meaning result tables.old tables.new
        (λ seeds c. place.Set session number
        (set_facts (session_facts seeds (state_of c) session) session number (state_of c).sets)
        (set_place seeds session number (state_of c).sets wish)) }
    ensures asked { IfOk result (λ place. wish_at place ≡ Wish.Set session number wish) }
    ensures within { IfOk result (λ place. is_within place ≡ true) }
    ensures looks { Looks T.meaning result tables.old tables.new }
{
    numbers_name();
    if number / SETS_OF_A_SESSION != session {
        return Ok(Place::Set(session, number, None, no_set_place(wish)));
    }
    let rows = set_rows(tables, session, number)?;
    let found = facts_by_rows(tables, session, number, &rows)?;
    let place = set_place(tables, session, number, &rows, wish)?;
    Ok(Place::Set(session, number, found, place))
}

/// What is found of a wish of an account.
fn look_at<T: Tables>(
    alloc: Global,
    tables: &mut T,
    account: u16,
    body: &[u8],
    wish: &Wish,
) -> Result<Place, StoreFault>
    ensures found { Sees T.meaning result tables.old tables.new
        (λ seeds c. place_of seeds account body.now (state_of c) wish.now) }
    ensures asked { IfOk result (λ place. wish_at place ≡ wish.now) }
    ensures within { IfOk result (λ place. is_within place ≡ true) }
    ensures looks { Looks T.meaning result tables.old tables.new }
{
    match *wish {
        Wish::Account(it) => match it {
            AccountWish::Read => Ok(Place::Account(account_counts(tables, account)?)),
            AccountWish::ListAlgorithms => Ok(Place::Algorithms),
        },
        Wish::Algorithm(number) => Ok(Place::Algorithm(number)),
        Wish::NewSession => Ok(Place::NewSession(session_count(tables, account)?)),
        Wish::ListSessions(page) => {
            Ok(Place::Sessions(sessions_page(alloc, tables, account, page)?))
        }
        Wish::Registry(it) => {
            Ok(Place::Registry(registry_place(alloc, tables, account, body, it)?))
        }
        Wish::Session(session, it) => {
            let found = session_facts(tables, session)?;
            let place = session_place(alloc, tables, session, it)?;
            Ok(Place::Session(session, found, place))
        }
        Wish::Certify(session) => {
            let found = session_facts(tables, session)?;
            judge_own_sets(tables, account, session)?;
            let parts = certify_read(alloc, body)?;
            let grounds = certification_grounds(tables, account, &parts)?;
            Ok(Place::Certify(session, found, parts, grounds))
        }
        Wish::Reviewer(session, reviewer) => {
            let found = reviewed_facts(tables, session, reviewer)?;
            let accounts = reviewers(tables, session)?;
            Ok(Place::Reviewer(session, reviewer, found, accounts))
        }
        Wish::Set(session, set, it) => place_in_session(tables, session, set, it),
        Wish::CancelSet(session, set) => {
            let found = set_facts(tables, session, set)?;
            let sets = set_outcomes(alloc, tables, session)?;
            Ok(Place::CancelSet(session, set, found, sets))
        }
    }
}

/// What the tables hold of what is asked; or the rule on the caller that is broken, before anything is looked at that
/// the path names.
#[tactic(auto, unfolding(acvp_tables::specs::State::state_of, crate::specs::Answer::found_of))]
pub(crate) fn find<T: Tables>(
    alloc: Global,
    tables: &mut T,
    moment: u64,
    body: &[u8],
    ask: &Asker,
) -> Result<Found, Rule>
    ensures found { Knows T.meaning result tables.old tables.new
        (λ seeds c. found_of seeds body.now ask.now (state_of c)) }
    ensures action { IfOk result (λ found. action_in found ≡ action_of ask.now) }
    ensures fit { IfOk result (λ found. is_fit found ≡ true) }
    ensures admitted { IfOk result (IsAdmitted moment) }
    ensures open { IfOk result
        (λ found. IfChangeable found (T.meaning.is_clean tables.new → T.meaning.is_open tables.old)) }
    ensures named { IfOk result (λ found. IfChangeable found (IsSome (who ask.now))) }
    ensures nobody { who ask.now ≡ None → tables.new ≡ tables.old }
    ensures refused { IfErr result (λ rule. (rule ≡ Rule.Unavailable)
        ⊎ ((T.meaning.is_clean tables.new → T.meaning.is_open tables.old → T.meaning.is_open tables.new)
        × (T.meaning.is_clean tables.new → (seeds : List (List ℕ)) (c : Content) → IsKept seeds c
        → Holds T.meaning tables.old c
        → first_broken (policy_conditions moment (found_of seeds body.now ask.now (state_of c))) ≡ Some rule))) }
    ensures looks { Looks T.meaning result tables.old tables.new }
{
    let Ok(account) = account(tables, ask.who()) else {
        return Err(Rule::Unavailable);
    };
    let Ok(reviewer) = reviewer(tables, ask) else {
        return Err(Rule::Unavailable);
    };
    let facts = unfound_facts(moment, ask, &account, reviewer);
    if let Err(rule) = admit(ask.action(), &facts) {
        return Err(rule);
    }
    match ask {
        Asker::Login(login) => Ok(Found::Login(*login, account)),
        Asker::Caller(asked) => {
            match look_at(alloc, tables, acting(&asked.token), body, &asked.wish) {
                Ok(place) => Ok(Found::Caller(FoundCaller {
                    token: asked.token,
                    account,
                    reviewer,
                    place,
                })),
                Err(_) => Err(Rule::Unavailable),
            }
        }
    }
}
