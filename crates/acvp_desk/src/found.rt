//! What is found of a request.

use crate::ask::LoginAsk;
use crate::wish::Registry;
use acvp_answers::{Disposition, Verdict};
use acvp_caps::Capability;
use acvp_json::{CertifyBody, Page};
use acvp_policy::{CertificationStatus, Rule, SessionFacts, SetFacts, Token};
use acvp_registry::{Counts, Object};
use acvp_tables::{AccountRow, ObjectRow, RequestSummary};
use std::marker::Model;

/// The numbers of vector sets, in their order.
#[derive(Drop)]
pub(crate) struct SetNumbers {
    pub numbers: Vec<u64>,
}

impl Model for SetNumbers {
    ghost use Rattle.std.specs.Prelude.{ℕ, List};

    ghost Value = { List ℕ };

    ghost view = { λ s. s.numbers.items };
}

/// A vector set, and what its answers come to, where it has any.
#[derive(Clone, Copy)]
pub(crate) struct SetOutcome {
    pub vs: u64,
    pub disposition: Option<Disposition>,
}

/// Vector sets with what their answers come to, in the order of their numbers.
#[derive(Drop)]
pub(crate) struct SetOutcomes {
    pub sets: Vec<SetOutcome>,
}

impl Model for SetOutcomes {
    ghost use Rattle.std.specs.Prelude.{List};
    ghost use Rattle.acvp_desk.specs.declared.found.SetOutcome.{SetOutcome};

    ghost Value = { List SetOutcome };

    ghost view = { λ s. s.sets.items };
}

/// The numbers of accounts, in their order.
#[derive(Drop)]
pub(crate) struct Accounts {
    pub numbers: Vec<u16>,
}

impl Model for Accounts {
    ghost use Rattle.std.specs.Prelude.{ℕ, List};

    ghost Value = { List ℕ };

    ghost view = { λ a. a.numbers.items };
}

/// What the prompts of a vector set are made from, beside its number and the seed of the epoch.
#[derive(Drop)]
pub(crate) struct SetSource {
    pub capability: Capability,
    pub epoch: u64,
}

/// The verdicts on the last answers to a vector set, in the order of its tests.
#[derive(Drop)]
pub(crate) struct SetVerdicts {
    pub verdicts: Vec<Verdict>,
}

impl Model for SetVerdicts {
    ghost use Rattle.std.specs.Prelude.{List};
    ghost use Rattle.acvp_answers.specs.declared.verdict.Verdict.{Verdict};

    ghost Value = { List Verdict };

    ghost view = { λ s. s.verdicts.items };
}

/// What answers to a vector set are graded by, and counted with.
#[derive(Drop)]
pub(crate) struct Submission {
    pub source: SetSource,

    /// How many other vector sets of its session that aren't cancelled have passed.
    pub others: u64,
}

/// What a list shows of a test session.
#[derive(Clone, Copy)]
pub(crate) struct ListedSession {
    pub number: u64,

    /// In seconds since 1970.
    pub created: u64,
    pub sample: bool,
    pub cancelled: bool,

    /// The status of its last certification request.
    pub certification: Option<CertificationStatus>,
}

/// Test sessions in the order of their numbers.
#[derive(Drop)]
pub(crate) struct ListedSessions {
    pub sessions: Vec<ListedSession>,
}

impl Model for ListedSessions {
    ghost use Rattle.std.specs.Prelude.{List};
    ghost use Rattle.acvp_desk.specs.declared.found.ListedSession.{ListedSession};

    ghost Value = { List ListedSession };

    ghost view = { λ s. s.sessions.items };
}

/// A page of test sessions.
#[derive(Drop)]
pub(crate) struct SessionsPage {
    pub page: Page,

    /// How many there are in all.
    pub total: u64,
    pub sessions: ListedSessions,
}

/// Objects of a registry in the order of their numbers.
#[derive(Drop)]
pub(crate) struct ObjectRows {
    pub rows: Vec<ObjectRow>,
}

impl Model for ObjectRows {
    ghost use Rattle.std.specs.Prelude.{List};
    ghost use Rattle.std.specs.Coded.{codes};
    ghost use Rattle.acvp_tables.specs.contracts.rows.ObjectRow as object_row;
    ghost use Rattle.acvp_tables.specs.declared.rows.ObjectRow.{ObjectRow};

    ghost Value = { List ObjectRow };

    ghost coded = { Prim.hlevel (codes, object_row.the_row.coded) };

    ghost view = { λ o. o.rows.items };
}

/// A page of the objects of a registry.
#[derive(Drop)]
pub(crate) struct ObjectsPage {
    pub page: Page,

    /// How many there are in all.
    pub total: u64,
    pub objects: ObjectRows,
}

/// Requests in the order of their numbers.
#[derive(Drop)]
pub(crate) struct RequestRows {
    pub rows: Vec<RequestSummary>,
}

impl Model for RequestRows {
    ghost use Rattle.std.specs.Prelude.{List};
    ghost use Rattle.acvp_tables.specs.declared.summary.RequestSummary.{RequestSummary};

    ghost Value = { List RequestSummary };

    ghost view = { λ r. r.rows.items };
}

/// A page of requests.
#[derive(Drop)]
pub(crate) struct RequestsPage {
    pub page: Page,

    /// How many there are in all.
    pub total: u64,
    pub requests: RequestRows,
}

/// What a request for registration or certification is judged by, beside its body.
#[derive(Clone, Copy)]
pub(crate) struct Grounds {
    /// How many requests the account has.
    pub requests: u64,

    /// Whether all that the body names is there, and the account's; a body that isn't read names nothing.
    pub named: bool,
}

/// What is found of a test session for what is asked of it.
#[derive(Drop)]
pub(crate) enum SessionPlace {
    /// The vector sets that aren't cancelled.
    Read(SetNumbers),
    Cancel,

    /// The vector sets that aren't cancelled, with what their answers come to.
    Results(SetOutcomes),

    /// The vector sets that aren't cancelled.
    ListSets(SetNumbers),

    /// The accounts that review it.
    ListReviewers(Accounts),

    /// The same.
    AddReviewer(Accounts),
}

/// What is shown of a vector set by its prompts.
#[derive(Clone, Copy)]
pub(crate) enum ByPrompts {
    /// They themselves.
    Prompts,

    /// With their standard answers.
    Expected,

    /// That no test is answered.
    Results,
}

/// What is found of a vector set for what is asked of it.
#[derive(Drop)]
pub(crate) enum SetPlace {
    /// What the prompts are made from by which something is shown.
    Made(ByPrompts, Option<SetSource>),

    /// The verdicts on its answers, which are shown.
    Verdicts(SetVerdicts),

    /// What answers to it are graded by and counted with, where it isn't cancelled.
    Submit(Option<Submission>),

    /// The same of answers that come in the place of others.
    Resubmit(Option<Submission>),
}

/// What is found of an account's registries and requests for what is asked of them.
#[derive(Drop)]
pub(crate) enum RegistryPlace {
    /// The object of a number, where it is the account's.
    Object(Registry, u64, Option<ObjectRow>),

    /// The object that a body asks to register, or the rule of the first condition on it that doesn't hold; and what is
    /// judged beside.
    New(Registry, Result<Object, Rule>, Grounds),

    /// A page of the objects, where the query is one.
    Objects(Registry, Option<ObjectsPage>),

    /// The request of a number, where it is the account's.
    Request(u64, Option<RequestSummary>),

    /// A page of the requests, where the query is one.
    Requests(Option<RequestsPage>),
}

/// What is found of what a caller asks: the numbers of the path, how what they name stands, where it is there, and what
/// the reply shows.
#[derive(Drop)]
pub(crate) enum Place {
    /// How many rows the account that acts has.
    Account(Counts),
    Algorithms,
    Algorithm(u64),
    Session(u64, Option<SessionFacts>, SessionPlace),

    /// A reviewer that is removed, and the accounts that review the session, which is found where it is one of them.
    Reviewer(u64, u64, Option<SessionFacts>, Accounts),

    /// How many sessions the account that acts has, to which one is added.
    NewSession(u64),
    Set(u64, u64, Option<SetFacts>, SetPlace),

    /// A vector set that is cancelled, and those of its session that aren't.
    CancelSet(u64, u64, Option<SetFacts>, SetOutcomes),

    /// A page of the account's sessions, where the query is one.
    Sessions(Option<SessionsPage>),

    /// A session; what a body asks to certify it with, or the rule of the first condition on it that doesn't hold; and
    /// what is judged beside.
    Certify(u64, Option<SessionFacts>, Result<CertifyBody, Rule>, Grounds),
    Registry(RegistryPlace),
}

/// What is found of a caller.
#[derive(Drop)]
pub(crate) struct FoundCaller {
    pub token: Token,

    /// The account that acts.
    pub account: Option<AccountRow>,

    /// Whether it reviews the session of the path; looked up on the actions that reviewers are let in to.
    pub reviewer: bool,
    pub place: Place,
}

/// What is found of a request.
#[derive(Drop)]
pub(crate) enum Found {
    /// Of a login, the account.
    Login(LoginAsk, Option<AccountRow>),
    Caller(FoundCaller),
}
