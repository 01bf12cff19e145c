//! Changes of any form of the tables, by their names, through the policy's decisions.

ghost use Rattle.std.specs.Prelude.{◌≡◌, ◌/◌, false};
ghost use Rattle.acvp_policy.specs.Decision.{granted};
ghost use Rattle.acvp_policy.specs.declared.action.Action.TheVariants as action;
ghost use Rattle.acvp_policy.specs.declared.facts.Standing.TheVariants as standing;
ghost use Rattle.acvp_policy.specs.declared.facts.Token.TheVariants as token;
ghost use Rattle.acvp_policy.specs.declared.resource.Resource.TheVariants as resource;
ghost use Rattle.acvp_tables.specs.Covers.{Covers, request_action};
ghost use Rattle.acvp_tables.specs.Own.{Fits};

use crate::reads::{put_fault, put_word};
use crate::words::{Of, account, is_so, kind_in};
use acvp_answers::{Answers, Verdict};
use acvp_caps::{Registration, read_registration};
use acvp_policy::{
    Action, Claims, Facts, Grant, LoginFacts, Renewal, ReviewerSubject, SessionFacts,
    SessionSubject, SetFacts, SetSubject, Standing, Subject, Token, UserFacts, decide,
};
use acvp_registry::{Kind, Object, body_value, read_object};
use acvp_tables::{
    Approval, CancelledSet, Certification, Change, Graded, KeptAnswers, NewAccount,
    NewCertification, NewRequest, NewSession, OrderChange, ReviewerRow, StoreFault, Tables,
    UsedStep,
};
use std::alloc::Global;
use std::process::Abort;

/// Changes.
#[derive(Clone, Copy)]
enum Made {
    /// An account is added.
    Adds,

    /// An account is disabled.
    Disables,

    /// A request is approved, with a number for what it gives.
    Approves,

    /// A request is rejected.
    Rejects,

    /// An account uses a step.
    LogsIn,

    /// A session with two vector sets begins, of the account that its number says.
    Begins,

    /// Account 7 asks for the registration of the object of a kind.
    Asks,

    /// An answer that passes is kept, to a set of the first session of account 7.
    Passes,

    /// The same of one that fails.
    Fails,

    /// The second set of that session is cancelled, where the first has passed.
    CancelsSecondSet,

    /// That session is cancelled.
    CancelsSession,

    /// Its certification is asked for, by the first request of account 7.
    Certifies,

    /// A reviewer of it is put in.
    PutsIn,

    /// A reviewer of it is taken out.
    TakesOut,
}

/// The names of changes.
const CHANGES: &[(&str, Made)] = &[
    ("adds", Made::Adds),
    ("disables", Made::Disables),
    ("approves", Made::Approves),
    ("rejects", Made::Rejects),
    ("logs_in", Made::LogsIn),
    ("begins", Made::Begins),
    ("asks", Made::Asks),
    ("passes", Made::Passes),
    ("fails", Made::Fails),
    ("cancels_second_set", Made::CancelsSecondSet),
    ("cancels_session", Made::CancelsSession),
    ("certifies", Made::Certifies),
    ("puts_in", Made::PutsIn),
    ("takes_out", Made::TakesOut),
];

/// The change of this name, if there is one.
fn change_named(name: &str) -> Option<Made> {
    for (of, made) in CHANGES {
        if *of == name {
            return Some(*made);
        }
    }
    None
}

/// What came of a change.
type Outcome = Result<(), StoreFault>;

/// The secret of every account here.
pub(crate) const SECRET: [u8; 32] = [49; 32];

/// When every session here was created.
const CREATED: u64 = 60;

/// Two capabilities.
const REGISTRATION: &str =
    r#"{"algorithms":[{"algorithm":"SHA2-256","messageLength":[8],"revision":"1.0"},{"algorithm":"SHA2-512","messageLength":[8],"revision":"1.0"}],"isSample":true}"#;

/// A vendor.
const VENDOR: &str = r#"{"name":"V"}"#;

/// A module of that vendor.
const MODULE: &str = r#"{"name":"M","vendorUrl":"/acvp/v1/vendors/7000001"}"#;

/// An operational environment.
const ENVIRONMENT: &str = r#"{"name":"E"}"#;

/// A session that is open, whose sets have all passed.
fn open_session() -> SessionFacts {
    SessionFacts {
        cancelled: false,
        created: CREATED,
        sample: false,
        certification: None,
        passed: true,
    }
}

/// What is known of a request with the token of an account, or of a session of it.
fn facts(account: u16, session: Option<u64>, subject: Subject) -> Facts
    ensures { result ≡ record { moment = 60; token = token.Verified (record { account = account; session = session; issued = 60; expires = 1860 }); standing = standing.Enabled; reviewer = false; subject = subject } }
{
    let claims = Claims {
        account,
        session,
        issued: CREATED,
        expires: 1860,
    };
    Facts {
        moment: CREATED,
        token: Token::Verified(claims),
        standing: Standing::Enabled,
        reviewer: false,
        subject,
    }
}

/// The grant of an action that the policy allows on these facts.
fn grant_of(rt: &impl Abort, action: Action, facts: &Facts) -> Grant
    ensures grant { result ≡ granted action facts.now }
{
    match decide(action, facts) {
        Ok(grant) => grant,
        Err(_) => panic!(rt; "not granted"),
    }
}

/// Applies a change that the policy allows on these facts.
fn applied<T: Tables>(
    rt: &impl Abort,
    tables: &mut T,
    action: Action,
    facts: &Facts,
    change: Change,
) -> Outcome
    requires covers { Covers (granted action facts.now) change }
    requires fits { Fits change }
{
    tables.apply(grant_of(rt, action, facts), &change)
}

/// Applies what an account may change of its own rows.
#[tactic(auto, unfolding(acvp_policy::specs::Decision::granted))]
fn on_account<T: Tables>(
    rt: &impl Abort,
    tables: &mut T,
    account: u16,
    action: Action,
    change: Change,
) -> Outcome
    requires covers { Covers (record { action = action; account = account; resource = resource.Account }) change }
    requires fits { Fits change }
{
    let facts = facts(account, None, Subject::Account);
    applied(rt, tables, action, &facts, change)
}

/// Applies what account 7 may change of its first session.
#[tactic(auto, unfolding(acvp_policy::specs::Decision::granted))]
fn on_session<T: Tables>(rt: &impl Abort, tables: &mut T, action: Action, change: Change) -> Outcome
    requires covers { Covers (record { action = action; account = 7; resource = resource.Session 7000001 }) change }
    requires fits { Fits change }
{
    let subject = Subject::Session(SessionSubject {
        session: 7000001,
        found: Some(open_session()),
    });
    let facts = facts(7, Some(7000001), subject);
    applied(rt, tables, action, &facts, change)
}

/// Applies what account 7 may change of a vector set of its first session.
#[tactic(auto, unfolding(acvp_policy::specs::Decision::granted))]
fn on_set<T: Tables>(
    rt: &impl Abort,
    tables: &mut T,
    set: u64,
    action: Action,
    change: Change,
) -> Outcome
    requires covers { Covers (record { action = action; account = 7; resource = resource.Set 7000001 set }) change }
    requires fits { Fits change }
{
    let subject = Subject::Set(SetSubject {
        session: 7000001,
        set,
        found: Some(SetFacts {
            session: open_session(),
            cancelled: false,
            answered: false,
        }),
    });
    let facts = facts(7, Some(7000001), subject);
    applied(rt, tables, action, &facts, change)
}

/// Uses a step, by a login.
#[tactic(auto, unfolding(acvp_policy::specs::Decision::granted))]
fn use_step<T: Tables>(rt: &impl Abort, tables: &mut T, account: u16, step: u64) -> Outcome {
    let subject = Subject::Login(LoginFacts {
        user: Some(UserFacts {
            account,
            enabled: true,
            step: Some(step),
        }),
        renewal: Renewal::Unasked,
    });
    let facts = facts(account, None, subject);
    let change = Change::UseStep(UsedStep { account, step });
    applied(rt, tables, Action::Login, &facts, change)
}

/// What the two capabilities are read as.
fn registration(rt: &impl Abort, alloc: Global) -> Registration {
    let value = body_value(alloc, REGISTRATION.as_bytes()).ok();
    let value = value.expect(rt, "a value");
    read_registration(alloc, &value)
        .ok()
        .expect(rt, "capabilities")
}

/// Adds a session with two vector sets, of the account that its number says.
fn add_session<T: Tables>(rt: &impl Abort, alloc: Global, tables: &mut T, number: u64) -> Outcome {
    let Ok(account) = u16::try_from(number / 1000000) else {
        panic!(rt; "no account");
    };
    let session = NewSession {
        number,
        account,
        created: CREATED,
        epoch: 2,
        registration: registration(rt, alloc),
    };
    on_account(
        rt,
        tables,
        account,
        Action::NewSession,
        Change::NewSession(session),
    )
}

/// A list of one item.
fn list_of<I: Drop>(rt: &impl Abort, alloc: Global, item: I) -> Vec<I> {
    let mut items = Vec::new(alloc);
    items.push(item).ok().expect(rt, "memory");
    items
}

/// An answer to the first test case.
fn answers(rt: &impl Abort, alloc: Global) -> Answers {
    let text = String::from_str(alloc, "ab").ok().expect(rt, "memory");
    let mut answers = Answers::new(alloc);
    let is_new = answers.insert(1, list_of(rt, alloc, text)).ok();
    is_so(rt, is_new == Some(true), "an answer");
    answers
}

/// Keeps an answer with a verdict, to a set of the first session of account 7.
fn keep_answer<T: Tables>(
    rt: &impl Abort,
    alloc: Global,
    tables: &mut T,
    set: u64,
    verdict: Verdict,
    passed: u64,
) -> Outcome {
    if set / 100 != 7000001 {
        panic!(rt; "no set of that session");
    }
    let kept = KeptAnswers {
        session: 7000001,
        set,
        graded: Graded::new(answers(rt, alloc), list_of(rt, alloc, verdict)),
        passed,
    };
    on_set(rt, tables, set, Action::Submit, Change::KeepAnswers(kept))
}

/// Cancels the second set of that session, where the first has passed.
fn cancel_second_set<T: Tables>(rt: &impl Abort, tables: &mut T) -> Outcome {
    let cancelled = CancelledSet {
        session: 7000001,
        set: 700000102,
        live: 1,
        passed: 1,
    };
    let change = Change::CancelSet(cancelled);
    on_set(rt, tables, 700000102, Action::CancelSet, change)
}

/// The object of a kind.
fn object_of(rt: &impl Abort, alloc: Global, kind: Kind) -> Object
    ensures { result.kind ≡ kind }
{
    let value = body_value(alloc, text_of(kind).as_bytes()).ok();
    let value = value.expect(rt, "a value");
    match read_object(alloc, kind, &value) {
        Ok(object) => object,
        Err(_) => panic!(rt; "no object"),
    }
}

/// The text of the object of a kind.
fn text_of(kind: Kind) -> &'static str {
    match kind {
        Kind::Vendor => VENDOR,
        Kind::Module => MODULE,
        _ => ENVIRONMENT,
    }
}

/// The action that asks for an object of a kind.
fn request_of(kind: Kind) -> Action
    ensures { result ≡ request_action kind }
{
    match kind {
        Kind::Vendor => Action::NewVendor,
        Kind::Module => Action::NewModule,
        Kind::Environment => Action::NewEnvironment,
        Kind::Certification => Action::Certify,
    }
}

/// Adds a request of account 7 for the registration of the object of a kind.
fn ask_for<T: Tables>(
    rt: &impl Abort,
    alloc: Global,
    tables: &mut T,
    kind: Kind,
    number: u64,
) -> Outcome {
    if number / 1000000 != 7 {
        panic!(rt; "no request of account 7");
    }
    let request = NewRequest {
        number,
        account: 7,
        object: object_of(rt, alloc, kind),
    };
    on_account(rt, tables, 7, request_of(kind), Change::NewRequest(request))
}

/// Asks for the certification of the first session of account 7, by its first request.
fn certify<T: Tables>(rt: &impl Abort, tables: &mut T) -> Outcome {
    let request = NewCertification {
        number: 7000001,
        account: 7,
        certification: Certification {
            module: 7000009,
            environment: 7000005,
            session: 7000001,
        },
    };
    on_session(rt, tables, Action::Certify, Change::Certify(request))
}

/// A reviewer of that session.
fn reviewer(account: u16) -> ReviewerRow
    ensures { result ≡ record { session = 7000001; account = account } }
{
    ReviewerRow {
        session: 7000001,
        account,
    }
}

/// Puts a reviewer of that session in.
fn add_reviewer<T: Tables>(rt: &impl Abort, tables: &mut T, account: u16) -> Outcome {
    let change = Change::AddReviewer(reviewer(account));
    on_session(rt, tables, Action::AddReviewer, change)
}

/// Takes a reviewer of that session out.
#[tactic(auto, unfolding(acvp_policy::specs::Decision::granted))]
fn remove_reviewer<T: Tables>(rt: &impl Abort, tables: &mut T, account: u16) -> Outcome {
    let subject = Subject::Reviewer(ReviewerSubject {
        session: 7000001,
        reviewer: u64::from(account),
        found: Some(open_session()),
    });
    let facts = facts(7, Some(7000001), subject);
    let change = Change::RemoveReviewer(reviewer(account));
    applied(rt, tables, Action::RemoveReviewer, &facts, change)
}

/// An operator's order.
fn order_of(rt: &impl Abort, made: Made, of: Of) -> OrderChange {
    match made {
        Made::Adds => OrderChange::AddAccount(NewAccount {
            account: account(rt, of.first),
            secret: SECRET,
        }),
        Made::Disables => OrderChange::DisableAccount(account(rt, of.first)),
        Made::Approves => OrderChange::Approve(Approval {
            request: of.first,
            approved: of.second,
        }),
        _ => OrderChange::Reject(of.first),
    }
}

/// Changes what an account has, or the rows of its first session.
fn outcome_of<T: Tables>(
    rt: &impl Abort,
    alloc: Global,
    tables: &mut T,
    made: Made,
    of: Of,
) -> Outcome {
    match made {
        Made::LogsIn => use_step(rt, tables, account(rt, of.first), of.second),
        Made::Begins => add_session(rt, alloc, tables, of.first),
        Made::Asks => ask_for(rt, alloc, tables, kind_in(rt, of), of.first),
        Made::Passes => keep_answer(rt, alloc, tables, of.first, Verdict::Passed, of.second),
        Made::Fails => keep_answer(rt, alloc, tables, of.first, Verdict::Fail, of.second),
        Made::CancelsSecondSet => cancel_second_set(rt, tables),
        Made::CancelsSession => {
            let change = Change::CancelSession(7000001);
            on_session(rt, tables, Action::CancelSession, change)
        }
        Made::Certifies => certify(rt, tables),
        Made::PutsIn => add_reviewer(rt, tables, account(rt, of.first)),
        Made::TakesOut => remove_reviewer(rt, tables, account(rt, of.first)),
        _ => tables.order(&order_of(rt, made, of)),
    }
}

/// Makes a change by its name, and writes what came of it: `made`, or the word for a fault.
pub(crate) fn change<T: Tables>(
    rt: &impl Abort,
    alloc: Global,
    text: &mut String,
    tables: &mut T,
    (name, of): (&str, Of),
) {
    let made = change_named(name).expect(rt, "a step of this name");
    match outcome_of(rt, alloc, tables, made, of) {
        Ok(()) => put_word(rt, text, "made"),
        Err(fault) => put_fault(rt, text, fault),
    }
}
