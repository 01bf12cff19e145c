//! The policy against the protocol's table of actions and rules, and against worked requests.

use crate::lines::{cut, line_of, number};
use acvp_policy::{
    Action, CertificationStatus, Facts, LoginFacts, Renewal, Resource, ReviewerSubject, RowSubject,
    Rule, SessionFacts, SessionSubject, SetFacts, SetSubject, Standing, Subject, Token, UserFacts,
    allows, decide, release,
};
use acvp_token::Claims;
use std::alloc::Global;
use std::process::Abort;

/// How long a test session lives, in seconds: 30 days.
const SESSION_LIFE: u64 = 30 * 24 * 60 * 60;

/// How long a vector set lives, in seconds: 7 days.
const SET_LIFE: u64 = 7 * 24 * 60 * 60;

/// The account of the token.
const ACCOUNT: u16 = 7;

/// A session of the account.
const SESSION: u64 = 7000001;

/// A vector set of the session.
const SET: u64 = 700000101;

/// Another session of the account.
const OTHER_SESSION: u64 = 7000002;

/// Another account.
const FOREIGN_ACCOUNT: u16 = 9;

/// A session of the other account.
const FOREIGN_SESSION: u64 = 9000001;

/// When the session was created.
const CREATED: u64 = 60;

/// A moment while the session and its sets last.
const MOMENT: u64 = 1000;

/// The rule that is answered, or none where there is a grant.
fn refusal(action: Action, facts: &Facts) -> Option<Rule> {
    match decide(action, facts) {
        Ok(grant) => {
            release(grant);
            None
        }
        Err(rule) => Some(rule),
    }
}

/// A good token with these claims.
fn token_of(account: u16, session: Option<u64>) -> Token {
    Token::Verified(claims_of(account, session))
}

/// Claims of an account that may be bound to a session.
fn claims_of(account: u16, session: Option<u64>) -> Claims {
    Claims {
        account,
        session,
        issued: 61,
        expires: 1861,
    }
}

/// A session on which every condition holds but that it is a sample.
fn open_session() -> SessionFacts {
    SessionFacts {
        cancelled: false,
        created: CREATED,
        sample: false,
        certification: None,
        passed: true,
    }
}

/// A path that names the session, which stands so.
fn on_session(session: SessionFacts) -> Subject {
    Subject::Session(SessionSubject {
        session: SESSION,
        found: Some(session),
    })
}

/// A path that names the other account as a reviewer of the session, which stands so.
fn on_reviewer(session: SessionFacts) -> Subject {
    Subject::Reviewer(ReviewerSubject {
        session: SESSION,
        reviewer: FOREIGN_ACCOUNT as u64,
        found: Some(session),
    })
}

/// A path that names the vector set, which has answers or none.
fn on_set(session: SessionFacts, answered: bool) -> Subject {
    Subject::Set(SetSubject {
        session: SESSION,
        set: SET,
        found: Some(SetFacts {
            session,
            cancelled: false,
            answered,
        }),
    })
}

/// A login to the account.
fn on_login(enabled: bool, step: Option<u64>, renewal: Renewal) -> Subject {
    Subject::Login(LoginFacts {
        user: Some(UserFacts {
            account: ACCOUNT,
            enabled,
            step,
        }),
        renewal,
    })
}

/// A row that was found.
const fn row() -> RowSubject {
    RowSubject {
        number: SESSION,
        found: true,
    }
}

/// What an action is about, so that every test of it holds.
fn good_subject(action: Action) -> Subject {
    match action {
        Action::Login => on_login(
            true,
            Some(2),
            Renewal::Reads(claims_of(ACCOUNT, Some(SESSION))),
        ),
        Action::ReadAlgorithm => Subject::Algorithm(12),
        Action::ReadSession | Action::CancelSession | Action::SessionResults | Action::ListSets => {
            on_session(open_session())
        }
        Action::Certify | Action::ListReviewers | Action::AddReviewer => on_session(open_session()),
        Action::RemoveReviewer => on_reviewer(open_session()),
        Action::ReadSet | Action::CancelSet | Action::SetResults | Action::Submit => on_set(
            open_session(),
            false,
        ),
        Action::Resubmit => on_set(open_session(), true),
        Action::Expected => on_set(
            SessionFacts {
                sample: true,
                ..open_session()
            },
            false,
        ),
        Action::ReadVendor => Subject::Vendor(row()),
        Action::ReadModule => Subject::Module(row()),
        Action::ReadEnvironment => Subject::Environment(row()),
        Action::ReadRequest => Subject::Request(row()),
        _ => Subject::Account,
    }
}

/// Facts on which every test of the action holds, with a token that is bound to a session or not.
fn good_facts(action: Action, bound: Option<u64>) -> Facts {
    Facts {
        moment: MOMENT,
        token: token_of(ACCOUNT, bound),
        standing: Standing::Enabled,
        reviewer: false,
        subject: good_subject(action),
    }
}

/// The subject without what was found: no row, or one of another kind.
fn not_found(subject: Subject) -> Subject {
    match subject {
        Subject::Session(on) => Subject::Session(SessionSubject { found: None, ..on }),
        Subject::Reviewer(on) => Subject::Reviewer(ReviewerSubject { found: None, ..on }),
        Subject::Set(on) => Subject::Set(SetSubject { found: None, ..on }),
        Subject::Vendor(row) => Subject::Vendor(RowSubject {
            found: false,
            ..row
        }),
        Subject::Module(row) => Subject::Module(RowSubject {
            found: false,
            ..row
        }),
        Subject::Environment(row) => Subject::Environment(RowSubject {
            found: false,
            ..row
        }),
        Subject::Request(row) => Subject::Request(RowSubject {
            found: false,
            ..row
        }),
        Subject::Algorithm(_) => Subject::Algorithm(13),
        Subject::Account => Subject::Algorithm(1),
        Subject::Login(_) => Subject::Account,
    }
}

/// The subject with its session spoilt, so that the rule is broken.
fn with_session_broken(subject: Subject, rule: Rule) -> Subject {
    match subject {
        Subject::Session(
            SessionSubject {
                session,
                found: Some(found),
            },
        ) => Subject::Session(SessionSubject {
            session,
            found: Some(session_broken(found, rule)),
        }),
        Subject::Reviewer(
            ReviewerSubject {
                session,
                reviewer,
                found: Some(found),
            },
        ) => Subject::Reviewer(ReviewerSubject {
            session,
            reviewer,
            found: Some(session_broken(found, rule)),
        }),
        Subject::Set(
            SetSubject {
                session,
                set,
                found: Some(found),
            },
        ) => Subject::Set(SetSubject {
            session,
            set,
            found: Some(SetFacts {
                session: session_broken(found.session, rule),
                cancelled: found.cancelled || rule == Rule::SetCancelled,
                answered: found.answered
                    != (rule == Rule::AlreadySubmitted || rule == Rule::NotSubmitted),
            }),
        }),
        _ => subject,
    }
}

/// The session spoilt, so that the rule is broken.
fn session_broken(session: SessionFacts, rule: Rule) -> SessionFacts {
    let mut broken = session;
    match rule {
        Rule::SessionCancelled => broken.cancelled = true,
        Rule::SessionFrozen => broken.certification = Some(CertificationStatus::Initial),
        Rule::NotSample => broken.sample = false,
        Rule::SampleNotCertifiable => broken.sample = true,
        Rule::NotPassed => broken.passed = false,
        _ => {}
    }
    broken
}

/// A login's findings without a step of its code, or with a token that can't be renewed.
fn with_login_broken(subject: Subject, rule: Rule) -> Subject {
    let Subject::Login(mut login) = subject else {
        return subject;
    };
    match (rule, login.user) {
        (Rule::LoginRefused, Some(user)) => login.user = Some(UserFacts { step: None, ..user }),
        _ => login.renewal = Renewal::Unreadable,
    }
    Subject::Login(login)
}

/// The facts with one condition spoilt, the one whose rule this is, and those that fall with it.
fn broken(facts: Facts, rule: Rule) -> Facts {
    let mut broken = facts;
    match rule {
        Rule::TokenMissing => broken.token = Token::Missing,
        Rule::TokenMalformed => broken.token = Token::Malformed,
        Rule::TokenSignature => broken.token = Token::NotSigned,
        Rule::TokenClaims => broken.token = Token::NotRead,
        Rule::TokenExpired => broken.token = Token::Expired,
        Rule::AccountRefused => broken.standing = Standing::Disabled,
        Rule::AccountTokenNeeded => broken.token = token_of(ACCOUNT, Some(SESSION)),
        Rule::SessionTokenNeeded => broken.token = token_of(ACCOUNT, None),
        Rule::OtherSession => broken.token = token_of(ACCOUNT, Some(OTHER_SESSION)),
        Rule::NoResource => broken.subject = not_found(facts.subject),
        Rule::SessionExpired => broken.moment = CREATED + SESSION_LIFE,
        Rule::SetExpired => broken.moment = CREATED + SET_LIFE,
        Rule::LoginRefused | Rule::RenewalRefused => {
            broken.subject = with_login_broken(facts.subject, rule);
        }
        _ => broken.subject = with_session_broken(facts.subject, rule),
    }
    broken
}

/// Whether these are the same facts of a session.
fn same_session(one: SessionFacts, other: SessionFacts) -> bool {
    one.cancelled == other.cancelled
        && one.created == other.created
        && one.sample == other.sample
        && certification_number(one.certification) == certification_number(other.certification)
        && one.passed == other.passed
}

/// The status of a certification request as a number, and none as 0.
fn certification_number(status: Option<CertificationStatus>) -> u8 {
    match status {
        None => 0,
        Some(CertificationStatus::Initial) => 1,
        Some(CertificationStatus::Approved) => 2,
        Some(CertificationStatus::Rejected) => 3,
    }
}

/// Whether the same session was found, or none.
fn same_found(one: Option<SessionFacts>, other: Option<SessionFacts>) -> bool {
    match (one, other) {
        (None, None) => true,
        (Some(one), Some(other)) => same_session(one, other),
        _ => false,
    }
}

/// Whether the same vector set was found, or none.
fn same_set(one: Option<SetFacts>, other: Option<SetFacts>) -> bool {
    match (one, other) {
        (None, None) => true,
        (Some(one), Some(other)) => {
            one.cancelled == other.cancelled
                && one.answered == other.answered
                && same_session(one.session, other.session)
        }
        _ => false,
    }
}

/// Whether these are the same facts of a row.
fn same_row(one: RowSubject, other: RowSubject) -> bool {
    one.number == other.number && one.found == other.found
}

/// Whether the same user was found, or none.
fn same_user(one: Option<UserFacts>, other: Option<UserFacts>) -> bool {
    match (one, other) {
        (None, None) => true,
        (Some(one), Some(other)) => {
            one.account == other.account && one.enabled == other.enabled && one.step == other.step
        }
        _ => false,
    }
}

/// Whether this is the same token to be renewed, or none.
fn same_renewal(one: Renewal, other: Renewal) -> bool {
    match (one, other) {
        (Renewal::Unasked, Renewal::Unasked) => true,
        (Renewal::Unreadable, Renewal::Unreadable) => true,
        (Renewal::Reads(one), Renewal::Reads(other)) => one == other,
        _ => false,
    }
}

/// Whether these are the same facts of what a path names.
fn same_subject(one: Subject, other: Subject) -> bool {
    match (one, other) {
        (Subject::Login(one), Subject::Login(other)) => {
            same_user(one.user, other.user) && same_renewal(one.renewal, other.renewal)
        }
        (Subject::Account, Subject::Account) => true,
        (Subject::Algorithm(one), Subject::Algorithm(other)) => one == other,
        (Subject::Session(one), Subject::Session(other)) => {
            one.session == other.session && same_found(one.found, other.found)
        }
        (Subject::Set(one), Subject::Set(other)) => {
            one.session == other.session && one.set == other.set && same_set(one.found, other.found)
        }
        (Subject::Reviewer(one), Subject::Reviewer(other)) => {
            one.session == other.session
                && one.reviewer == other.reviewer
                && same_found(one.found, other.found)
        }
        (Subject::Vendor(one), Subject::Vendor(other)) => same_row(one, other),
        (Subject::Module(one), Subject::Module(other)) => same_row(one, other),
        (Subject::Environment(one), Subject::Environment(other)) => same_row(one, other),
        (Subject::Request(one), Subject::Request(other)) => same_row(one, other),
        _ => false,
    }
}

/// Whether a token comes to the same.
fn same_token(one: Token, other: Token) -> bool {
    match (one, other) {
        (Token::Missing, Token::Missing) => true,
        (Token::Malformed, Token::Malformed) => true,
        (Token::NotSigned, Token::NotSigned) => true,
        (Token::NotRead, Token::NotRead) => true,
        (Token::Expired, Token::Expired) => true,
        (Token::Verified(one), Token::Verified(other)) => one == other,
        _ => false,
    }
}

/// Whether these are the same facts.
fn same_facts(one: &Facts, other: &Facts) -> bool {
    one.moment == other.moment
        && one.standing == other.standing
        && one.reviewer == other.reviewer
        && same_token(one.token, other.token)
        && same_subject(one.subject, other.subject)
}

/// The rules by their names, with their numbers.
const NAMES: &str = "\
HeadTooLarge 2
NoRoute 9
TokenMissing 11
TokenMalformed 12
TokenSignature 13
TokenClaims 14
TokenExpired 15
AccountRefused 16
AccountTokenNeeded 17
SessionTokenNeeded 18
OtherSession 19
NoResource 20
SessionCancelled 21
SessionExpired 22
SessionFrozen 23
SetCancelled 24
SetExpired 25
AlreadySubmitted 26
NotSubmitted 27
NotSample 28
SampleNotCertifiable 29
NotPassed 30
AccountFull 41
LoginRefused 42
RenewalRefused 43
ClockOutOfRange 44
BadPage 46
ReviewersFull 47
";

/// The rule of a number.
fn rule_of(rt: &impl Abort, number: u64) -> Rule {
    match number {
        2 => Rule::HeadTooLarge,
        9 => Rule::NoRoute,
        11 => Rule::TokenMissing,
        12 => Rule::TokenMalformed,
        13 => Rule::TokenSignature,
        14 => Rule::TokenClaims,
        15 => Rule::TokenExpired,
        16 => Rule::AccountRefused,
        17 => Rule::AccountTokenNeeded,
        18 => Rule::SessionTokenNeeded,
        19 => Rule::OtherSession,
        20 => Rule::NoResource,
        21 => Rule::SessionCancelled,
        22 => Rule::SessionExpired,
        23 => Rule::SessionFrozen,
        24 => Rule::SetCancelled,
        25 => Rule::SetExpired,
        26 => Rule::AlreadySubmitted,
        27 => Rule::NotSubmitted,
        28 => Rule::NotSample,
        29 => Rule::SampleNotCertifiable,
        30 => Rule::NotPassed,
        41 => Rule::AccountFull,
        42 => Rule::LoginRefused,
        43 => Rule::RenewalRefused,
        44 => Rule::ClockOutOfRange,
        46 => Rule::BadPage,
        _ => {
            assert_eq!(rt; number, 47);
            Rule::ReviewersFull
        }
    }
}

/// The rule of a name.
fn rule_named(rt: &impl Abort, name: &str) -> Rule {
    let (_, behind) = line_of(rt, NAMES, name);
    rule_of(rt, number(rt, behind))
}

/// The actions, in the order of the lines of `TABLE`.
const ACTIONS: [Action; 31] = [
    Action::Login,
    Action::ReadAccount,
    Action::ListAlgorithms,
    Action::ReadAlgorithm,
    Action::ListSessions,
    Action::NewSession,
    Action::ReadSession,
    Action::Certify,
    Action::CancelSession,
    Action::SessionResults,
    Action::ListSets,
    Action::ReadSet,
    Action::CancelSet,
    Action::SetResults,
    Action::Submit,
    Action::Resubmit,
    Action::Expected,
    Action::ListVendors,
    Action::NewVendor,
    Action::ReadVendor,
    Action::ListModules,
    Action::NewModule,
    Action::ReadModule,
    Action::ListEnvironments,
    Action::NewEnvironment,
    Action::ReadEnvironment,
    Action::ListRequests,
    Action::ReadRequest,
    Action::ListReviewers,
    Action::AddReviewer,
    Action::RemoveReviewer,
];

/// The table of the protocol: whether the token of the good facts is bound to the session, what each action asks of the
/// token, and its rules on what the path names. Where an account's own lists and rows are meant, rule 20 is broken by
/// facts on something else.
const TABLE: &str = "\
Login unbound login 42 43
ReadAccount unbound read 20
ListAlgorithms unbound read 20
ReadAlgorithm unbound read 20
ListSessions unbound read 20
NewSession unbound change 20
ReadSession bound session 20
Certify bound session 20 21 22 23 29 30
CancelSession bound session 20 21 23
SessionResults bound session 20 21
ListSets bound session 20
ReadSet bound session 20 21 22 24 25
CancelSet bound session 20 21 23 24
SetResults bound session 20 21 24
Submit bound session 20 21 22 23 24 25 26
Resubmit bound session 20 21 22 23 24 25 27
Expected bound session 20 21 24 28
ListVendors bound read 20
NewVendor unbound change 20
ReadVendor unbound read 20
ListModules bound read 20
NewModule unbound change 20
ReadModule bound read 20
ListEnvironments unbound read 20
NewEnvironment unbound change 20
ReadEnvironment unbound read 20
ListRequests unbound read 20
ReadRequest bound read 20
ListReviewers bound session 20
AddReviewer bound session 20 21
RemoveReviewer bound session 20 21
";

/// The rules on the caller: of a login, of which no token is asked; where any good token will do; where it must be
/// bound to no session; and where it must be bound to the session of the path.
const CALLERS: &str = "\
login
read 11 12 13 14 15 16
change 11 12 13 14 15 16 17
session 11 12 13 14 15 16 18 19
";

/// The rules next to one another that can't be broken by two facts, since one fact decides both: a token comes to one
/// outcome, a token that is bound to no session is bound to no other, and what isn't there isn't cancelled.
const DECIDED_BY_ONE_FACT: &[(u8, u8)] = &[
    (11, 12),
    (12, 13),
    (13, 14),
    (14, 15),
    (18, 19),
    (20, 21),
];

/// The action of a name.
fn action_named(rt: &impl Abort, name: &str) -> Action {
    let (place, _) = line_of(rt, TABLE, name);
    *ACTIONS.get(place).expect(rt, "an action")
}

/// The rule that is answered where this one alone is broken.
fn refusal_alone(action: Action, bound: Option<u64>, rule: Rule) -> Option<Rule> {
    refusal(action, &broken(good_facts(action, bound), rule))
}

/// Facts on which a rule and the next are broken.
fn broken_both(action: Action, bound: Option<u64>, rule: Rule, next: Rule) -> Facts {
    broken(broken(good_facts(action, bound), next), rule)
}

/// Whether those are the facts on which the first of the two alone is broken.
fn is_same_alone(action: Action, bound: Option<u64>, rule: Rule, next: Rule) -> bool {
    let both = broken_both(action, bound, rule, next);
    let alone = broken(good_facts(action, bound), rule);
    same_facts(&both, &alone)
}

/// A rule is answered where the next is broken too. Where one fact decides both, the next one can't be broken beside
/// it: the facts are then those on which the rule alone is broken.
fn stands_before(rt: &impl Abort, action: Action, bound: Option<u64>, rule: Rule, next: Rule) {
    let by_one_fact = DECIDED_BY_ONE_FACT.contains(&(rule.number(), next.number()));
    let is_same = is_same_alone(action, bound, rule, next);
    assert!(rt;
        is_same == by_one_fact,
        "{action:?} {rule:?} beside {next:?}"
    );
    if !by_one_fact {
        let found = refusal(action, &broken_both(action, bound, rule, next));
        assert!(rt; found == Some(rule), "{action:?} {rule:?} before {next:?}");
    }
}

/// Each rule of these numbers is answered alone, and the one before it where both are broken. The last of them.
fn answers_each(
    rt: &impl Abort,
    action: Action,
    bound: Option<u64>,
    before: Option<Rule>,
    numbers: &str,
) -> Option<Rule> {
    let mut last = before;
    for word in numbers.split_whitespace() {
        let rule = rule_of(rt, number(rt, word));
        let found = refusal_alone(action, bound, rule);
        assert!(rt; found == Some(rule), "{action:?} {rule:?}");
        if let Some(before) = last {
            stands_before(rt, action, bound, before, rule);
        }
        last = Some(rule);
    }
    last
}

/// What stands behind an action in its line of `TABLE`.
fn answers_the_first(rt: &impl Abort, action: Action, asked: &str) {
    let (bound, rest) = cut(asked);
    let bound = if bound == "bound" {
        Some(SESSION)
    } else {
        None
    };
    let found = refusal(action, &good_facts(action, bound));
    assert!(rt; found.is_none(), "{action:?}");
    let (caller, back) = cut(rest);
    let (_, front) = line_of(rt, CALLERS, caller);
    let last = answers_each(rt, action, bound, None, front);
    answers_each(rt, action, bound, last, back);
}

/// Whether an action has this name.
fn is_named(alloc: Global, action: Action, name: &str) -> bool {
    match format!(in alloc; "{action:?}") {
        Ok(text) => text.as_str() == name,
        Err(_) => false,
    }
}

/// Each rule alone is answered, and so is each where the next is broken too.
#[test]
fn each_action_has_its_rules_in_their_order(rt: HostRuntime) {
    for line in TABLE.lines() {
        let (name, asked) = cut(line);
        let action = action_named(&rt, name);
        assert!(rt; is_named(rt.alloc(), action, name), "{name}");
        answers_the_first(&rt, action, asked);
    }
}

/// A session with what a word says: when it was created, whether it is cancelled, a sample or has passed, or how its
/// certification stands.
fn session_worded(rt: &impl Abort, session: SessionFacts, word: &str, number: u64) -> SessionFacts {
    let mut worded = session;
    match word {
        "created" => worded.created = number,
        "cancelled" => worded.cancelled = true,
        "sample" => worded.sample = number == 1,
        "passed" => worded.passed = number == 1,
        "initial" => worded.certification = Some(CertificationStatus::Initial),
        "approved" => worded.certification = Some(CertificationStatus::Approved),
        _ => {
            assert_eq!(rt; word, "rejected");
            worded.certification = Some(CertificationStatus::Rejected);
        }
    }
    worded
}

/// A login with what a word says: the step of its code, whether its user is enabled or there at all, and the token that
/// it hands in: of the account alone, of the other account, or bound to a session.
fn login_worded(rt: &impl Abort, login: LoginFacts, word: &str, number: u64) -> Subject {
    let mut worded = login;
    match word {
        "step" => return on_login(true, Some(number), login.renewal),
        "stepless" => return on_login(true, None, login.renewal),
        "off" => return on_login(false, Some(1), login.renewal),
        "nobody" => worded.user = None,
        "unasked" => worded.renewal = Renewal::Unasked,
        "renews_own" => worded.renewal = Renewal::Reads(claims_of(ACCOUNT, None)),
        "renews_foreign" => worded.renewal = Renewal::Reads(claims_of(FOREIGN_ACCOUNT, None)),
        _ => {
            assert_eq!(rt; word, "renews");
            worded.renewal = Renewal::Reads(claims_of(ACCOUNT, Some(number)));
        }
    }
    Subject::Login(worded)
}

/// A set's facts with what a word says: that it has answers, or of its session.
fn set_worded(rt: &impl Abort, set: SetFacts, word: &str, number: u64) -> SetFacts {
    let mut worded = set;
    if word == "answered" {
        worded.answered = true;
    } else {
        worded.session = session_worded(rt, set.session, word, number);
    }
    worded
}

/// A subject with what a word says of what was found.
fn subject_worded(rt: &impl Abort, subject: Subject, word: &str, number: u64) -> Subject {
    match subject {
        Subject::Login(login) => login_worded(rt, login, word, number),
        Subject::Set(
            SetSubject {
                session,
                set,
                found: Some(found),
            },
        ) => Subject::Set(SetSubject {
            session,
            set,
            found: Some(set_worded(rt, found, word, number)),
        }),
        Subject::Session(
            SessionSubject {
                session,
                found: Some(found),
            },
        ) => Subject::Session(SessionSubject {
            session,
            found: Some(session_worded(rt, found, word, number)),
        }),
        _ => panic!(rt; "{word} of nothing found"),
    }
}

/// A token of the same account that is bound to a session.
fn bound_to(token: Token, session: u64) -> Token {
    match token {
        Token::Verified(claims) => token_of(claims.account, Some(session)),
        _ => token,
    }
}

/// Facts with what a word says: the moment; a missing token, one of the account or of the other account that is bound
/// to no session, or the same bound to one; how the account stands; that it is a reviewer; that what the path names is
/// `gone`, the session of a number, or an account's `own_lists`; or what was found there.
fn worded(rt: &impl Abort, facts: Facts, word: &str, number: u64) -> Facts {
    let mut worded = facts;
    match word {
        "at" => worded.moment = number,
        "missing" => worded.token = Token::Missing,
        "unbound" => worded.token = token_of(ACCOUNT, None),
        "foreign" => worded.token = token_of(FOREIGN_ACCOUNT, None),
        "bound" => worded.token = bound_to(facts.token, number),
        "absent" => worded.standing = Standing::Absent,
        "disabled" => worded.standing = Standing::Disabled,
        "reviewer" => worded.reviewer = true,
        "gone" => worded.subject = not_found(facts.subject),
        "own_lists" => worded.subject = Subject::Account,
        "session" => {
            worded.subject = Subject::Session(SessionSubject {
                session: number,
                found: Some(open_session()),
            });
        }
        _ => worded.subject = subject_worded(rt, facts.subject, word, number),
    }
    worded
}

/// What words make of facts on which every test of an action holds, with a token that is bound to the session. Behind a
/// word may stand `=` and a number.
fn facts_of(rt: &impl Abort, action: Action, words: &str) -> Facts {
    let mut facts = good_facts(action, Some(SESSION));
    for word in words.split_whitespace() {
        facts = match word.split_once('=') {
            Some((word, given)) => worded(rt, facts, word, number(rt, given)),
            None => worded(rt, facts, word, 0),
        };
    }
    facts
}

/// The rule of a name, and none for `granted`.
fn answer_named(rt: &impl Abort, name: &str) -> Option<Rule> {
    if name == "granted" {
        return None;
    }
    Some(rule_named(rt, name))
}

/// What is answered to an action on facts as words make them.
fn answer_to(rt: &impl Abort, name: &str, words: &str) -> Option<Rule> {
    let action = action_named(rt, name);
    refusal(action, &facts_of(rt, action, words))
}

/// What a line says: the rule that is answered, or that there is a grant, to each of some actions, joined by commas, on
/// facts as the words behind them make them.
fn is_answered(rt: &impl Abort, line: &str) {
    let (answer, rest) = cut(line);
    let (actions, words) = cut(rest);
    let wanted = answer_named(rt, answer);
    for name in actions.split(',') {
        let found = answer_to(rt, name, words);
        assert!(rt; found == wanted, "{found:?} to {name}, where {line}");
    }
}

/// What each of the lines says.
fn answers(rt: &impl Abort, lines: &str) {
    for line in lines.lines() {
        is_answered(rt, line);
    }
}

const FOREIGN: &str = "\
OtherSession ReadSession bound=9000001 session=9000001
OtherSession ReadSession bound=9000001 session=9000001 gone
OtherSession ReadSession bound=9000001
NoResource ReadSession bound=7000002 session=7000002 gone
SessionTokenNeeded ReadSession unbound
TokenMissing ReadSession missing
";

#[test]
fn foreign_sessions_are_refused_whether_they_are_there_or_not(rt: HostRuntime) {
    answers(&rt, FOREIGN);
}

const WITHOUT_ACCOUNT: &str = "\
AccountRefused ReadAccount unbound absent
AccountRefused ReadAccount absent
AccountRefused ReadAccount unbound disabled
AccountRefused ReadAccount disabled
";

#[test]
fn accounts_that_are_absent_or_disabled_are_refused(rt: HostRuntime) {
    answers(&rt, WITHOUT_ACCOUNT);
}

const OF_SAMPLES: &str = "\
NotSample Expected sample=0 answered
granted Expected answered
SampleNotCertifiable Certify sample=1
NotPassed Certify passed=0
granted Certify
";

#[test]
fn expected_answers_and_certificates_of_samples(rt: HostRuntime) {
    answers(&rt, OF_SAMPLES);
}

/// The session and its sets begin at 60: the sets end at 604860, and the session at 2592060.
const LIVES: &str = "\
granted Submit at=604859
SetExpired Submit at=604860
SessionExpired Submit at=2592060
granted Submit at=0
granted Submit created=18446744073709551615 at=18446744073709551615
granted Certify at=2592059
SessionExpired Certify at=2592060
granted Certify created=18446744073709551615 at=0
SessionExpired Certify at=18446744073709551615
";

#[test]
fn lives_end_at_their_last_second(rt: HostRuntime) {
    answers(&rt, LIVES);
}

const CERTIFICATIONS: &str = "\
granted Resubmit
SessionFrozen Resubmit initial
SessionFrozen Resubmit approved
granted Resubmit rejected
";

#[test]
fn certification_freezes_until_it_is_rejected(rt: HostRuntime) {
    answers(&rt, CERTIFICATIONS);
}

const REVIEWERS: &str = "\
granted SessionResults,SetResults foreign reviewer
OtherSession SessionResults,SetResults foreign bound=9000001 reviewer
OtherSession SessionResults,SetResults foreign bound=7000001 reviewer
SessionTokenNeeded SessionResults,SetResults foreign
SessionTokenNeeded ReadSession,Certify,CancelSession,ListSets,ReadSet,CancelSet foreign reviewer
SessionTokenNeeded Submit,Resubmit,Expected,ListReviewers,AddReviewer,RemoveReviewer foreign reviewer
";

#[test]
fn reviewers_read_results_and_nothing_else(rt: HostRuntime) {
    answers(&rt, REVIEWERS);
}

const REVIEWED: &str = "\
SessionCancelled SessionResults foreign reviewer cancelled
NoResource SessionResults foreign reviewer gone
NoResource SessionResults foreign reviewer own_lists
";

#[test]
fn reviewers_of_what_is_cancelled_or_absent_are_told_so(rt: HostRuntime) {
    answers(&rt, REVIEWED);
}

const LOGINS: &str = "\
granted Login missing absent unasked step=1
LoginRefused Login missing absent unasked stepless
LoginRefused Login missing absent unasked off
granted Login missing absent renews=7000001 step=1
granted Login missing absent renews_own step=1
RenewalRefused Login missing absent renews_foreign step=1
RenewalRefused Login missing absent renews=9000001 step=1
LoginRefused Login missing unasked nobody
";

#[test]
fn logins_take_their_own_tokens_alone(rt: HostRuntime) {
    answers(&rt, LOGINS);
}

/// Whether a grant is leave for a resource of the account, for the same of the other account, and for another set; none
/// where there is no grant.
fn allowed(action: Action, facts: &Facts, resource: Resource) -> Option<[bool; 3]> {
    match decide(action, facts) {
        Ok(grant) => {
            let own = allows(&grant, ACCOUNT, resource);
            let foreign = allows(&grant, FOREIGN_ACCOUNT, resource);
            let other = allows(&grant, ACCOUNT, Resource::Set(SESSION, SET + 1));
            release(grant);
            Some([own, foreign, other])
        }
        Err(_) => None,
    }
}

#[test]
fn grants_are_for_one_resource_of_one_account(rt: HostRuntime) {
    let named = Resource::Reviewer(SESSION, FOREIGN_ACCOUNT as u64);
    for (action, words, resource) in [
        (Action::RemoveReviewer, "", named),
        (Action::Submit, "", Resource::Set(SESSION, SET)),
        (Action::Login, "missing unasked step=1", Resource::Account),
    ] {
        let found = allowed(action, &facts_of(&rt, action, words), resource);
        assert!(rt; found == Some([true, false, false]), "{action:?}");
    }
}

/// Rules, each with its number, its status and its word.
const OF_RULES: &str = "\
HeadTooLarge 2 431 headTooLarge
NoRoute 9 404 noRoute
TokenMissing 11 401 tokenMissing
OtherSession 19 403 otherSession
NoResource 20 404 noResource
SetExpired 25 409 setExpired
NotSample 28 403 notSample
SampleNotCertifiable 29 403 sampleNotCertifiable
NotPassed 30 409 notPassed
AccountFull 41 403 accountFull
LoginRefused 42 403 loginRefused
ClockOutOfRange 44 503 clockOutOfRange
BadPage 46 400 badPage
ReviewersFull 47 403 reviewersFull
";

/// Whether a rule has the number, the status and the word that words say.
fn has_words(rt: &impl Abort, rule: Rule, words: &str) -> bool {
    let (given, rest) = cut(words);
    let (status, word) = cut(rest);
    u64::from(rule.number()) == number(rt, given)
        && u64::from(rule.status()) == number(rt, status)
        && rule.word() == word
}

#[test]
fn rules_have_the_words_and_statuses_of_the_protocol(rt: HostRuntime) {
    for line in OF_RULES.lines() {
        let (name, words) = cut(line);
        assert!(rt; has_words(&rt, rule_named(&rt, name), words), "{line}");
    }
}
