//! The replies on an account, its sessions and their vector sets. Their texts are those of Python's `json`, with sorted
//! members, and their times those of its `datetime`.

use crate::shown::{is, page};
use acvp_answers::Disposition;
use acvp_caps::Algorithm;
use acvp_json::{Created, ReplyObject, Session, SessionStatus, SetResult};
use acvp_registry::Counts;
use std::alloc::Global;
use std::process::Abort;

/// That the counts of an account, of modules, environments, requests, sessions and vendors, are written as this text.
fn is_account(rt: &impl Abort, alloc: Global, account: u16, counts: [u64; 5], wanted: &str) {
    let [modules, environments, requests, sessions, vendors] = counts;
    let counts = Counts {
        modules,
        environments,
        requests,
        sessions,
        vendors,
    };
    is(
        rt,
        alloc,
        &ReplyObject::ReadAccount { account, counts },
        wanted,
    );
}

/// That a token is.
fn is_login(rt: &impl Abort, alloc: Global, token: &str, wanted: &str) {
    is(rt, alloc, &ReplyObject::Login { token }, wanted);
}

/// That an algorithm is.
fn is_algorithm(rt: &impl Abort, alloc: Global, algorithm: Algorithm, wanted: &str) {
    is(rt, alloc, &ReplyObject::ReadAlgorithm { algorithm }, wanted);
}

/// That all algorithms are.
fn are_algorithms(rt: &impl Abort, alloc: Global, wanted: &str) {
    is(rt, alloc, &ReplyObject::ListAlgorithms, wanted);
}

/// That the reviewers of a session are.
fn are_reviewers(rt: &impl Abort, alloc: Global, accounts: &[u16], wanted: &str) {
    is(rt, alloc, &ReplyObject::Reviewers { accounts }, wanted);
}

#[test]
fn accounts_algorithms_and_reviewers(rt: HostRuntime) {
    let alloc = rt.alloc();
    is_login(
        &rt,
        alloc,
        "a.b.c",
        r#"[{"acvVersion":"1.0"},{"accessToken":"a.b.c"}]"#,
    );
    is_account(
        &rt,
        alloc,
        7,
        [0, 0, 0, 0, 0],
        r#"[{"acvVersion":"1.0"},{"account":7,"modules":0,"oes":0,"requests":0,"sessions":0,"vendors":0}]"#,
    );
    is_account(
        &rt,
        alloc,
        9999,
        [1, 2, 3, 4, 18446744073709551615],
        r#"[{"acvVersion":"1.0"},{"account":9999,"modules":1,"oes":2,"requests":3,"sessions":4,"vendors":18446744073709551615}]"#,
    );
    is_algorithm(
        &rt,
        alloc,
        Algorithm::Sha2_256,
        r#"[{"acvVersion":"1.0"},{"name":"SHA2-256","revision":"1.0","url":"/acvp/v1/algorithms/2"}]"#,
    );
    are_algorithms(
        &rt,
        alloc,
        r#"[{"acvVersion":"1.0"},{"algorithms":[{"name":"SHA2-224","revision":"1.0","url":"/acvp/v1/algorithms/1"},{"name":"SHA2-256","revision":"1.0","url":"/acvp/v1/algorithms/2"},{"name":"SHA2-384","revision":"1.0","url":"/acvp/v1/algorithms/3"},{"name":"SHA2-512","revision":"1.0","url":"/acvp/v1/algorithms/4"},{"name":"SHA2-512/224","revision":"1.0","url":"/acvp/v1/algorithms/5"},{"name":"SHA2-512/256","revision":"1.0","url":"/acvp/v1/algorithms/6"},{"name":"HMAC-SHA2-224","revision":"1.0","url":"/acvp/v1/algorithms/7"},{"name":"HMAC-SHA2-256","revision":"1.0","url":"/acvp/v1/algorithms/8"},{"name":"HMAC-SHA2-384","revision":"1.0","url":"/acvp/v1/algorithms/9"},{"name":"HMAC-SHA2-512","revision":"1.0","url":"/acvp/v1/algorithms/10"},{"name":"HMAC-SHA2-512/224","revision":"1.0","url":"/acvp/v1/algorithms/11"},{"name":"HMAC-SHA2-512/256","revision":"1.0","url":"/acvp/v1/algorithms/12"}]}]"#,
    );
    are_reviewers(
        &rt,
        alloc,
        &[],
        r#"[{"acvVersion":"1.0"},{"reviewers":[]}]"#,
    );
    are_reviewers(
        &rt,
        alloc,
        &[9],
        r#"[{"acvVersion":"1.0"},{"reviewers":[9]}]"#,
    );
    are_reviewers(
        &rt,
        alloc,
        &[1, 16, 9999],
        r#"[{"acvVersion":"1.0"},{"reviewers":[1,16,9999]}]"#,
    );
}

/// When a session was created.
fn created_at(rt: &impl Abort, moment: u64) -> Created {
    assert!(rt; moment <= 253399708799);
    Created::at(moment)
}

fn session(
    rt: &impl Abort,
    number: u64,
    created: u64,
    sample: bool,
    status: SessionStatus,
) -> Session {
    Session {
        number,
        created: created_at(rt, created),
        sample,
        status,
    }
}

/// That a new session with its token, its number and its moment is written as this text.
fn is_new(
    rt: &impl Abort,
    alloc: Global,
    (token, number, created): (&str, u64, u64),
    sets: &[u64],
    wanted: &str,
) {
    let reply = ReplyObject::NewSession {
        token,
        number,
        created: created_at(rt, created),
        sets,
    };
    is(rt, alloc, &reply, wanted);
}

/// That a session with its sets is written as this text.
fn is_session(
    rt: &impl Abort,
    alloc: Global,
    session: Session,
    passed: bool,
    sets: &[u64],
    wanted: &str,
) {
    let reply = ReplyObject::ReadSession {
        session,
        passed,
        sets,
    };
    is(rt, alloc, &reply, wanted);
}

#[test]
fn a_session_lasts_thirty_days_and_tells_where_it_stands(rt: HostRuntime) {
    let alloc = rt.alloc();
    is_new(
        &rt,
        alloc,
        ("a.b.c", 7000001, 60),
        &[700000101],
        r#"[{"acvVersion":"1.0"},{"accessToken":"a.b.c","createdOn":"1970-01-01T00:01:00Z","expiresOn":"1970-01-31T00:01:00Z","url":"/acvp/v1/testSessions/7000001","vectorSetUrls":["/acvp/v1/testSessions/7000001/vectorSets/700000101"]}]"#,
    );
    is_new(
        &rt,
        alloc,
        ("a.b.c", 9000001, 60),
        &[900000101],
        r#"[{"acvVersion":"1.0"},{"accessToken":"a.b.c","createdOn":"1970-01-01T00:01:00Z","expiresOn":"1970-01-31T00:01:00Z","url":"/acvp/v1/testSessions/9000001","vectorSetUrls":["/acvp/v1/testSessions/9000001/vectorSets/900000101"]}]"#,
    );
    is_session(
        &rt,
        alloc,
        session(&rt, 7000001, 60, false, SessionStatus::Open),
        false,
        &[700000101],
        r#"[{"acvVersion":"1.0"},{"createdOn":"1970-01-01T00:01:00Z","expiresOn":"1970-01-31T00:01:00Z","isSample":false,"passed":false,"status":"open","url":"/acvp/v1/testSessions/7000001","vectorSetUrls":["/acvp/v1/testSessions/7000001/vectorSets/700000101"]}]"#,
    );
    is_session(
        &rt,
        alloc,
        session(&rt, 7000002, 949583105, true, SessionStatus::Initial),
        true,
        &[700000201, 700000202, 700000220],
        r#"[{"acvVersion":"1.0"},{"createdOn":"2000-02-03T13:05:05Z","expiresOn":"2000-03-04T13:05:05Z","isSample":true,"passed":true,"status":"initial","url":"/acvp/v1/testSessions/7000002","vectorSetUrls":["/acvp/v1/testSessions/7000002/vectorSets/700000201","/acvp/v1/testSessions/7000002/vectorSets/700000202","/acvp/v1/testSessions/7000002/vectorSets/700000220"]}]"#,
    );
    is_session(
        &rt,
        alloc,
        session(
            &rt,
            9999999999,
            253399708799,
            false,
            SessionStatus::Approved,
        ),
        true,
        &[999999999920],
        r#"[{"acvVersion":"1.0"},{"createdOn":"9999-12-01T23:59:59Z","expiresOn":"9999-12-31T23:59:59Z","isSample":false,"passed":true,"status":"approved","url":"/acvp/v1/testSessions/9999999999","vectorSetUrls":["/acvp/v1/testSessions/9999999999/vectorSets/999999999920"]}]"#,
    );
    is_session(
        &rt,
        alloc,
        session(&rt, 1000001, 4102444799, true, SessionStatus::Cancelled),
        false,
        &[],
        r#"[{"acvVersion":"1.0"},{"createdOn":"2099-12-31T23:59:59Z","expiresOn":"2100-01-30T23:59:59Z","isSample":true,"passed":false,"status":"cancelled","url":"/acvp/v1/testSessions/1000001","vectorSetUrls":[]}]"#,
    );
}

/// That sessions on a page, with its offset, its limit and the total of the list, are written as this text.
fn are_sessions(
    rt: &impl Abort,
    alloc: Global,
    (offset, limit, total): (u64, u64, u64),
    sessions: &[Session],
    wanted: &str,
) {
    let reply = ReplyObject::ListSessions {
        page: page(offset, limit),
        total,
        sessions,
    };
    is(rt, alloc, &reply, wanted);
}

#[test]
fn a_list_of_sessions_tells_where_each_stands(rt: HostRuntime) {
    let alloc = rt.alloc();
    are_sessions(
        &rt,
        alloc,
        (0, 20, 1),
        &[session(&rt, 7000001, 60, false, SessionStatus::Open)],
        r#"[{"acvVersion":"1.0"},{"data":[{"createdOn":"1970-01-01T00:01:00Z","expiresOn":"1970-01-31T00:01:00Z","isSample":false,"status":"open","url":"/acvp/v1/testSessions/7000001"}],"incomplete":false,"links":{"first":"/acvp/v1/testSessions?offset=0&limit=20","last":"/acvp/v1/testSessions?offset=0&limit=20","next":null,"prev":null},"totalCount":1}]"#,
    );
    are_sessions(
        &rt,
        alloc,
        (4, 4, 9),
        &[
            session(&rt, 7000005, 60, false, SessionStatus::Open),
            session(&rt, 7000006, 61, true, SessionStatus::Initial),
            session(&rt, 7000007, 1709209799, false, SessionStatus::Approved),
            session(&rt, 7000008, 4102444799, true, SessionStatus::Cancelled),
        ],
        r#"[{"acvVersion":"1.0"},{"data":[{"createdOn":"1970-01-01T00:01:00Z","expiresOn":"1970-01-31T00:01:00Z","isSample":false,"status":"open","url":"/acvp/v1/testSessions/7000005"},{"createdOn":"1970-01-01T00:01:01Z","expiresOn":"1970-01-31T00:01:01Z","isSample":true,"status":"initial","url":"/acvp/v1/testSessions/7000006"},{"createdOn":"2024-02-29T12:29:59Z","expiresOn":"2024-03-30T12:29:59Z","isSample":false,"status":"approved","url":"/acvp/v1/testSessions/7000007"},{"createdOn":"2099-12-31T23:59:59Z","expiresOn":"2100-01-30T23:59:59Z","isSample":true,"status":"cancelled","url":"/acvp/v1/testSessions/7000008"}],"incomplete":true,"links":{"first":"/acvp/v1/testSessions?offset=0&limit=4","last":"/acvp/v1/testSessions?offset=8&limit=4","next":"/acvp/v1/testSessions?offset=8&limit=4","prev":"/acvp/v1/testSessions?offset=0&limit=4"},"totalCount":9}]"#,
    );
}

/// That a cancelled session is written as this text.
fn is_cancelled(rt: &impl Abort, alloc: Global, session: u64, wanted: &str) {
    is(rt, alloc, &ReplyObject::CancelSession { session }, wanted);
}

/// That a cancelled set is.
fn is_cancelled_set(rt: &impl Abort, alloc: Global, vs: u64, wanted: &str) {
    is(rt, alloc, &ReplyObject::CancelSet { vs }, wanted);
}

/// That a set is whose answers were received.
fn is_received(rt: &impl Abort, alloc: Global, vs: u64, wanted: &str) {
    is(rt, alloc, &ReplyObject::Received { vs }, wanted);
}

/// That the sets of a session are.
fn are_sets(rt: &impl Abort, alloc: Global, sets: &[u64], wanted: &str) {
    is(rt, alloc, &ReplyObject::ListSets { sets }, wanted);
}

#[test]
fn what_becomes_of_a_session_and_its_sets(rt: HostRuntime) {
    let alloc = rt.alloc();
    is_cancelled(
        &rt,
        alloc,
        7000001,
        r#"[{"acvVersion":"1.0"},{"status":"cancelled","url":"/acvp/v1/testSessions/7000001"}]"#,
    );
    is_cancelled_set(
        &rt,
        alloc,
        700000101,
        r#"[{"acvVersion":"1.0"},{"status":"cancelled","url":"/acvp/v1/testSessions/7000001/vectorSets/700000101"}]"#,
    );
    is_received(
        &rt,
        alloc,
        700000101,
        r#"[{"acvVersion":"1.0"},{"status":"received","url":"/acvp/v1/testSessions/7000001/vectorSets/700000101/results"}]"#,
    );
    is_received(
        &rt,
        alloc,
        999999999920,
        r#"[{"acvVersion":"1.0"},{"status":"received","url":"/acvp/v1/testSessions/9999999999/vectorSets/999999999920/results"}]"#,
    );
    are_sets(
        &rt,
        alloc,
        &[],
        r#"[{"acvVersion":"1.0"},{"vectorSetUrls":[]}]"#,
    );
    are_sets(
        &rt,
        alloc,
        &[700000101, 700000102, 700000120],
        r#"[{"acvVersion":"1.0"},{"vectorSetUrls":["/acvp/v1/testSessions/7000001/vectorSets/700000101","/acvp/v1/testSessions/7000001/vectorSets/700000102","/acvp/v1/testSessions/7000001/vectorSets/700000120"]}]"#,
    );
}

fn result(vs: u64, disposition: Disposition) -> SetResult {
    SetResult { vs, disposition }
}

/// That what the sets of a session come to is written as this text.
fn are_results(rt: &impl Abort, alloc: Global, passed: bool, sets: &[SetResult], wanted: &str) {
    is(
        rt,
        alloc,
        &ReplyObject::SessionResults { passed, sets },
        wanted,
    );
}

#[test]
fn each_disposition_of_a_set_has_a_word(rt: HostRuntime) {
    let alloc = rt.alloc();
    are_results(
        &rt,
        alloc,
        false,
        &[result(700000101, Disposition::Unreceived)],
        r#"[{"acvVersion":"1.0"},{"passed":false,"results":[{"status":"unreceived","vectorSetUrl":"/acvp/v1/testSessions/7000001/vectorSets/700000101"}]}]"#,
    );
    are_results(
        &rt,
        alloc,
        false,
        &[
            result(700000101, Disposition::Passed),
            result(700000102, Disposition::Fail),
            result(700000103, Disposition::Missing),
            result(700000104, Disposition::Expired),
            result(700000105, Disposition::Unreceived),
        ],
        r#"[{"acvVersion":"1.0"},{"passed":false,"results":[{"status":"passed","vectorSetUrl":"/acvp/v1/testSessions/7000001/vectorSets/700000101"},{"status":"fail","vectorSetUrl":"/acvp/v1/testSessions/7000001/vectorSets/700000102"},{"status":"missing","vectorSetUrl":"/acvp/v1/testSessions/7000001/vectorSets/700000103"},{"status":"expired","vectorSetUrl":"/acvp/v1/testSessions/7000001/vectorSets/700000104"},{"status":"unreceived","vectorSetUrl":"/acvp/v1/testSessions/7000001/vectorSets/700000105"}]}]"#,
    );
    are_results(
        &rt,
        alloc,
        true,
        &[result(700000101, Disposition::Passed)],
        r#"[{"acvVersion":"1.0"},{"passed":true,"results":[{"status":"passed","vectorSetUrl":"/acvp/v1/testSessions/7000001/vectorSets/700000101"}]}]"#,
    );
    are_results(
        &rt,
        alloc,
        false,
        &[],
        r#"[{"acvVersion":"1.0"},{"passed":false,"results":[]}]"#,
    );
}
