//! The table of paths: which path the bytes of a request name.
ghost use Rattle.std.specs.Prelude.{Result, ◌≡◌, ◌≢◌, ◌<◌, ℕ, List, MatchOption, OnOk, None, IfSome, option_map};
ghost use Rattle.std.specs.Prelude.{slice_index, length, position, ◌==◌};
ghost use Rattle.matchit.specs.Seek.{first};
ghost use Rattle.acvp_policy.specs.declared.rule.Rule.{Rule};
ghost use Rattle.acvp_desk.specs.declared.request.Ask.{Ask};
ghost use Rattle.acvp_http.specs.Paths.{Fits, written, IsPath, Names, Finds};
ghost use Rattle.acvp_http.specs.Private.Rows.{IsLeading, IsLast, IsInner, AreLast, AreInner, HasPattern, added_all};
ghost use Rattle.acvp_http.specs.Private.Rows.{general_routes, session_routes, registry_routes};

use crate::path::Path;
use crate::target::path_and_query;
use acvp_desk::{Ask, plain_number};
use acvp_policy::Rule;
use matchit::{InsertError, Router};
use std::alloc::{AllocError, Global};
use std::marker::Model;
use std::str;

/// The table of paths. It is made once and never changes.
#[derive(Drop)]
pub struct Routes {
    router: Router<Path>,
}

impl Model for Routes {
    ghost use Rattle.std.specs.Prelude.{Bool, true, ◌≡◌};
    ghost use Rattle.acvp_http.specs.Private.Rows.{rows};

    ghost Value = { Bool };

    ghost view = { λ _. true };

    ghost invariant = { λ a. a.router ≡ rows };
}

/// Adds the routes that need no other.
fn add_general_routes(router: &mut Router<Path>) -> Result<(), InsertError>
    ensures { OnOk result (router.new ≡ added_all general_routes router.old) }
{
    router.insert("/acvp/v1/login", Path::Login)?;
    router.insert("/acvp/v1/account", Path::Account)?;
    router.insert("/acvp/v1/algorithms", Path::Algorithms)?;
    router.insert("/acvp/v1/algorithms/{number}", Path::Algorithm(0))?;
    Ok(())
}

/// Adds the routes of test sessions.
fn add_session_routes(router: &mut Router<Path>) -> Result<(), InsertError>
    ensures { OnOk result (router.new ≡ added_all session_routes router.old) }
{
    router.insert("/acvp/v1/testSessions", Path::Sessions)?;
    router.insert("/acvp/v1/testSessions/{session}", Path::Session(0))?;
    router.insert(
        "/acvp/v1/testSessions/{session}/results",
        Path::SessionResults(0),
    )?;
    router.insert("/acvp/v1/testSessions/{session}/vectorSets", Path::Sets(0))?;
    router.insert(
        "/acvp/v1/testSessions/{session}/vectorSets/{set}",
        Path::Set(0, 0),
    )?;
    router.insert(
        "/acvp/v1/testSessions/{session}/vectorSets/{set}/results",
        Path::SetResults(0, 0),
    )?;
    router.insert(
        "/acvp/v1/testSessions/{session}/vectorSets/{set}/expected",
        Path::Expected(0, 0),
    )?;
    router.insert(
        "/acvp/v1/testSessions/{session}/reviewers",
        Path::Reviewers(0),
    )?;
    router.insert(
        "/acvp/v1/testSessions/{session}/reviewers/{number}",
        Path::Reviewer(0, 0),
    )?;
    Ok(())
}

/// Adds the routes of what is registered.
fn add_registry_routes(router: &mut Router<Path>) -> Result<(), InsertError>
    ensures { OnOk result (router.new ≡ added_all registry_routes router.old) }
{
    router.insert("/acvp/v1/vendors", Path::Vendors)?;
    router.insert("/acvp/v1/vendors/{number}", Path::Vendor(0))?;
    router.insert("/acvp/v1/modules", Path::Modules)?;
    router.insert("/acvp/v1/modules/{number}", Path::Module(0))?;
    router.insert("/acvp/v1/oes", Path::Environments)?;
    router.insert("/acvp/v1/oes/{number}", Path::Environment(0))?;
    router.insert("/acvp/v1/requests", Path::Requests)?;
    router.insert("/acvp/v1/requests/{number}", Path::Request(0))?;
    Ok(())
}

/// Adds all the routes.
fn add_all(router: &mut Router<Path>) -> Result<(), InsertError>
    ensures { OnOk result (router.new
        ≡ added_all registry_routes (added_all session_routes (added_all general_routes router.old))) }
{
    add_general_routes(router)?;
    add_session_routes(router)?;
    add_registry_routes(router)
}

/// What the router has for a path.
fn look_up(router: &Router<Path>, path: &str) -> Option<Path>
    ensures { result ≡ option_map (λ route. route.value) (first router.now path.now) }
{
    let Ok(found) = router.at(path) else {
        return None;
    };
    Some(*found.value)
}

/// This path, where it is what the text is.
fn whole(text: &[u8], all: &[u8], path: Path) -> Option<Path>
    requires fits { Fits path }
    requires all { all.now ≡ written path }
    ensures { MatchOption result (text.now ≢ all.now) (IsPath text.now) }
{
    if text == all { Some(path) } else { None }
}

/// The number behind a front.
fn last(text: &[u8], front: &[u8]) -> Option<u64>
    ensures { MatchOption result (((n : ℕ) × IsLast text.now front.now n) → ⊥) (IsLast text.now front.now) }
{
    let digits = text.strip_prefix(front)?;
    plain_number(digits)
}

/// The number between a front and a back.
fn inner(text: &[u8], front: &[u8], back: &[u8]) -> Option<u64>
    ensures { MatchOption result (((n : ℕ) × IsInner text.now front.now back.now n) → ⊥)
        (IsInner text.now front.now back.now) }
{
    let whole = text.strip_suffix(back)?;
    last(whole, front)
}

/// Where the first slash is.
fn slash(text: &[u8]) -> Option<usize>
    ensures place { result ≡ position (λ b. b == 47) text.now }
    ensures within { IfSome result (λ end. end < length text.now) }
{
    text.iter().position(|b| *b == b'/')
}

/// The number in front of the first slash, and what stands from there on.
fn leading(text: &[u8]) -> Option<(u64, &[u8])>
    ensures { IsLeading text.now (option_map (λ found. (found.0, found.1.now)) result) }
{
    let end = slash(text)?;
    let (digits, rest) = text.split_at(end);
    let number = plain_number(digits)?;
    Some((number, rest))
}

/// The two numbers behind a front, with a middle between them.
fn both_last(text: &[u8], front: &[u8], middle: &[u8]) -> Option<(u64, u64)>
    requires { slice_index middle.now 0 ≡ 47 }
    ensures { MatchOption result (((n : ℕ) × (m : ℕ) × AreLast text.now front.now middle.now n m) → ⊥)
        (λ both. AreLast text.now front.now middle.now both.0 both.1) }
{
    let behind = text.strip_prefix(front)?;
    let (first, rest) = leading(behind)?;
    let second = last(rest, middle)?;
    Some((first, second))
}

/// The two numbers behind a front, with a middle between them and a back behind them.
fn both_inner(text: &[u8], front: &[u8], middle: &[u8], back: &[u8]) -> Option<(u64, u64)>
    requires { slice_index middle.now 0 ≡ 47 }
    ensures { MatchOption result (((n : ℕ) × (m : ℕ) × AreInner text.now front.now middle.now back.now n m) → ⊥)
        (λ both. AreInner text.now front.now middle.now back.now both.0 both.1) }
{
    let whole = text.strip_suffix(back)?;
    both_last(whole, front, middle)
}

/// What stands in front of a session's number.
const SESSION: &[u8] = b"/acvp/v1/testSessions/";

/// What stands between a session's number and that of its vector set.
const SET: &[u8] = b"/vectorSets/";

/// The path of this pattern that a text is.
fn read(pattern: Path, text: &[u8]) -> Option<Path>
    ensures none { result ≡ None → HasPattern pattern text.now → ⊥ }
    ensures some { IfSome result (IsPath text.now) }
{
    match pattern {
        Path::Login => whole(text, b"/acvp/v1/login", Path::Login),
        Path::Account => whole(text, b"/acvp/v1/account", Path::Account),
        Path::Algorithms => whole(text, b"/acvp/v1/algorithms", Path::Algorithms),
        Path::Algorithm(_) => Some(Path::Algorithm(last(text, b"/acvp/v1/algorithms/")?)),
        Path::Sessions => whole(text, b"/acvp/v1/testSessions", Path::Sessions),
        Path::Session(_) => Some(Path::Session(last(text, SESSION)?)),
        Path::SessionResults(_) => Some(Path::SessionResults(inner(text, SESSION, b"/results")?)),
        Path::Sets(_) => Some(Path::Sets(inner(text, SESSION, b"/vectorSets")?)),
        Path::Set(_, _) => {
            let (session, set) = both_last(text, SESSION, SET)?;
            Some(Path::Set(session, set))
        },
        Path::SetResults(_, _) => {
            let (session, set) = both_inner(text, SESSION, SET, b"/results")?;
            Some(Path::SetResults(session, set))
        },
        Path::Expected(_, _) => {
            let (session, set) = both_inner(text, SESSION, SET, b"/expected")?;
            Some(Path::Expected(session, set))
        },
        Path::Reviewers(_) => Some(Path::Reviewers(inner(text, SESSION, b"/reviewers")?)),
        Path::Reviewer(_, _) => {
            let (session, number) = both_last(text, SESSION, b"/reviewers/")?;
            Some(Path::Reviewer(session, number))
        },
        Path::Vendors => whole(text, b"/acvp/v1/vendors", Path::Vendors),
        Path::Vendor(_) => Some(Path::Vendor(last(text, b"/acvp/v1/vendors/")?)),
        Path::Modules => whole(text, b"/acvp/v1/modules", Path::Modules),
        Path::Module(_) => Some(Path::Module(last(text, b"/acvp/v1/modules/")?)),
        Path::Environments => whole(text, b"/acvp/v1/oes", Path::Environments),
        Path::Environment(_) => Some(Path::Environment(last(text, b"/acvp/v1/oes/")?)),
        Path::Requests => whole(text, b"/acvp/v1/requests", Path::Requests),
        Path::Request(_) => Some(Path::Request(last(text, b"/acvp/v1/requests/")?)),
    }
}

impl Routes {
    /// The table of the protocol's paths, which the type's invariant pins: there is no other. That it
    /// succeeds where memory is there is only tested.
    pub fn new(alloc: Global) -> Result<Routes, AllocError> {
        let mut router = Router::new(alloc);
        match add_all(&mut router) {
            Ok(()) => Ok(Routes { router }),
            Err(_) => Err(AllocError),
        }
    }

    /// The path of the table that these bytes are.
    pub(crate) fn path(&self, text: &[u8]) -> Option<Path>
        ensures { Names text.now result }
    {
        let Ok(utf8) = str::from_utf8(text) else {
            return None;
        };
        let pattern = look_up(&self.router, utf8)?;
        read(pattern, text)
    }

    /// What a method asks on a target: `NoRoute` where its path isn't of the table, and `NoMethod` where the path has
    /// no such method.
    pub fn find(&self, method: &[u8], target: &[u8]) -> Result<Ask, Rule>
        ensures { Finds method.now target.now result }
    {
        let (path, query) = path_and_query(target);
        let Some(path) = self.path(path) else {
            return Err(Rule::NoRoute);
        };
        match path.asked(method, query) {
            Some(ask) => Ok(ask),
            None => Err(Rule::NoMethod),
        }
    }
}

/// The definition of what a method on a target finds gives one answer.
pub fn finds_one_thing()
    ensures { (method target : List ℕ) (first second : Result Ask Rule) → Finds method target first
        → Finds method target second → first ≡ second }
{}
