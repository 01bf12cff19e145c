//! What the policy is asked about.

ghost use Rattle.std.specs.Prelude.{◌≡◌};
ghost use Rattle.acvp_desk.specs.Answer.{facts_in, facts_on_caller, facts_on_login, standing_of};
ghost use Rattle.acvp_desk.specs.Login.{login_step, login_facts};
ghost use Rattle.acvp_desk.specs.Place.{subject_at};
ghost use Rattle.acvp_desk.specs.Registries.{registry_subject, row_subject};
ghost use Rattle.acvp_desk.specs.Private.Unfound.{unfound, unfound_facts, unfound_row};

use crate::ask::{Asker, LoginAsk};
use crate::found::{Found, Place, RegistryPlace};
use crate::wish::{Registry, RegistryWish, Wish};
use acvp_mac::accepted_step;
use acvp_policy::{
    Facts, LoginFacts, ReviewerSubject, RowSubject, SessionFacts, SessionSubject, SetFacts,
    SetSubject, Standing, Subject, Token, UserFacts,
};
use acvp_tables::AccountRow;

/// The account under whose secret codes are made where there is none.
const NOBODY: AccountRow = AccountRow {
    number: 0,
    secret: [0; 32],
    enabled: false,
    last_step: None,
};

// ---- what a path names

fn row_subject(registry: Registry, row: RowSubject) -> Subject
    ensures { result ≡ row_subject registry row }
{
    match registry {
        Registry::Vendors => Subject::Vendor(row),
        Registry::Modules => Subject::Module(row),
        Registry::Environments => Subject::Environment(row),
    }
}

fn unfound_row(wish: RegistryWish) -> Subject
    ensures { result ≡ unfound_row wish }
{
    match wish {
        RegistryWish::Read(registry, number) => row_subject(
            registry,
            RowSubject {
                number,
                found: false,
            },
        ),
        RegistryWish::ReadRequest(number) => Subject::Request(RowSubject {
            number,
            found: false,
        }),
        RegistryWish::New(_) | RegistryWish::List(_, _) | RegistryWish::ListRequests(_) => {
            Subject::Account
        }
    }
}

/// What a wish names, by its numbers alone.
fn unfound(wish: &Wish) -> Subject
    ensures { result ≡ unfound wish.now }
{
    match *wish {
        Wish::Account(_) => Subject::Account,
        Wish::NewSession => Subject::Account,
        Wish::ListSessions(_) => Subject::Account,
        Wish::Algorithm(number) => Subject::Algorithm(number),
        Wish::Session(session, _) | Wish::Certify(session) => Subject::Session(SessionSubject {
            session,
            found: None,
        }),
        Wish::Registry(it) => unfound_row(it),
        Wish::Reviewer(session, reviewer) => Subject::Reviewer(ReviewerSubject {
            session,
            reviewer,
            found: None,
        }),
        Wish::Set(session, set, _) | Wish::CancelSet(session, set) => Subject::Set(SetSubject {
            session,
            set,
            found: None,
        }),
    }
}

fn registry_subject(place: &RegistryPlace) -> Subject
    ensures { result ≡ registry_subject place.now }
{
    match place {
        RegistryPlace::Object(registry, number, row) => row_subject(
            *registry,
            RowSubject {
                number: *number,
                found: row.is_some(),
            },
        ),
        RegistryPlace::Request(number, row) => Subject::Request(RowSubject {
            number: *number,
            found: row.is_some(),
        }),
        RegistryPlace::New(_, _, _) | RegistryPlace::Objects(_, _) | RegistryPlace::Requests(_) => {
            Subject::Account
        }
    }
}

fn session_subject(session: u64, found: Option<SessionFacts>) -> Subject
    ensures { result ≡ Subject.Session (record { session = session; found = found }) }
{
    Subject::Session(SessionSubject { session, found })
}

fn set_subject(session: u64, set: u64, found: Option<SetFacts>) -> Subject
    ensures { result ≡ Subject.Set (record { session = session; set = set; found = found }) }
{
    Subject::Set(SetSubject {
        session,
        set,
        found,
    })
}

/// What the path names, with what is found there.
fn subject_at(place: &Place) -> Subject
    ensures { result ≡ subject_at place.now }
{
    match place {
        Place::Account(_) => Subject::Account,
        Place::Algorithms => Subject::Account,
        Place::NewSession(_) => Subject::Account,
        Place::Sessions(_) => Subject::Account,
        Place::Algorithm(number) => Subject::Algorithm(*number),
        Place::Session(session, found, _) => session_subject(*session, *found),
        Place::Certify(session, found, _, _) => session_subject(*session, *found),
        Place::Reviewer(session, reviewer, found, _) => Subject::Reviewer(ReviewerSubject {
            session: *session,
            reviewer: *reviewer,
            found: *found,
        }),
        Place::Set(session, set, found, _) => set_subject(*session, *set, *found),
        Place::CancelSet(session, set, found, _) => set_subject(*session, *set, *found),
        Place::Registry(it) => registry_subject(it),
    }
}

// ---- the facts

/// The step whose code the password is.
pub(crate) fn login_step(moment: u64, login: &LoginAsk, row: &AccountRow) -> Option<u64>
    ensures { result ≡ login_step moment login.now row.now }
{
    accepted_step(&row.secret, row.last_step, moment, login.password?)
}

/// What is found on a login. Where there is no account, codes are made under a secret of zeros, so that the time it
/// takes doesn't tell whether there is one.
fn login_facts(moment: u64, login: &LoginAsk, account: &Option<AccountRow>) -> LoginFacts
    ensures { result ≡ login_facts moment login.now account.now }
{
    let row = match account {
        Some(row) => *row,
        None => NOBODY,
    };
    let step = login_step(moment, login, &row);
    let user = match account {
        Some(_) => Some(UserFacts {
            account: row.number,
            enabled: row.enabled,
            step,
        }),
        None => None,
    };
    LoginFacts {
        user,
        renewal: login.renewal,
    }
}

/// How an account stands.
fn standing_of(account: &Option<AccountRow>) -> Standing
    ensures { result ≡ standing_of account.now }
{
    match account {
        None => Standing::Absent,
        Some(row) if row.enabled => Standing::Enabled,
        Some(_) => Standing::Disabled,
    }
}

fn facts_on_login(moment: u64, login: &LoginAsk, account: &Option<AccountRow>) -> Facts
    ensures { result ≡ facts_on_login moment login.now account.now }
{
    Facts {
        moment,
        token: Token::Missing,
        standing: Standing::Absent,
        reviewer: false,
        subject: Subject::Login(login_facts(moment, login, account)),
    }
}

fn facts_on_caller(
    moment: u64,
    token: Token,
    account: &Option<AccountRow>,
    reviewer: bool,
    subject: Subject,
) -> Facts
    ensures { result ≡ facts_on_caller moment token account.now reviewer subject }
{
    Facts {
        moment,
        token,
        standing: standing_of(account),
        reviewer,
        subject,
    }
}

/// Before anything is looked at that the path names.
pub(crate) fn unfound_facts(
    moment: u64,
    ask: &Asker,
    account: &Option<AccountRow>,
    reviewer: bool,
) -> Facts
    ensures { result ≡ unfound_facts moment ask.now account.now reviewer }
{
    match ask {
        Asker::Login(login) => facts_on_login(moment, login, account),
        Asker::Caller(caller) => {
            facts_on_caller(
                moment,
                caller.token,
                account,
                reviewer,
                unfound(&caller.wish),
            )
        }
    }
}

/// On what was found.
pub(crate) fn facts_in(moment: u64, found: &Found) -> Facts
    ensures { result ≡ facts_in moment found.now }
{
    match found {
        Found::Login(login, account) => facts_on_login(moment, login, account),
        Found::Caller(it) => {
            facts_on_caller(
                moment,
                it.token,
                &it.account,
                it.reviewer,
                subject_at(&it.place),
            )
        }
    }
}
