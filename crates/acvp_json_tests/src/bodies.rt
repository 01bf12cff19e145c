//! Bodies by the forms that the protocol gives them, and answers as they are kept; the times are those of `date -u`.

use crate::lines::{cut, fault_word, is_so, number};
use acvp_answers::Answers;
use acvp_json::{
    BodyFault, LoginBody, answers_from_text, answers_to_text, are_kept_answers, open_envelope,
    read_certify, read_login, read_reviewer, time_text,
};
use serde_json::Value;
use std::alloc::Global;
use std::process::Abort;

/// The text of a value.
pub(crate) fn text_of(rt: &impl Abort, alloc: Global, value: &Value) -> String {
    value.to_string(alloc).ok().expect(rt, "memory")
}

/// Whether a body is opened as a value of this text, or has the fault of this word.
fn is_opened_as(rt: &impl Abort, alloc: Global, body: &[u8], wanted: &str) -> bool {
    match open_envelope(alloc, body) {
        Ok(value) => text_of(rt, alloc, &value).as_str() == wanted,
        Err(fault) => fault_word(fault) == wanted,
    }
}

/// An envelope around an object's text.
fn enveloped(rt: &impl Abort, alloc: Global, object: &str) -> String {
    let body = format!(in alloc; "[{{\"acvVersion\":\"1.0\"}},{object}]");
    body.ok().expect(rt, "memory")
}

/// Objects in envelopes, and what they are opened as.
const OPENED: &str = r#"{} = {}
{"n":18446744073709551615} = {"n":18446744073709551615}
{"n":-9223372036854775808} = {"n":-9223372036854775808}
{"n":1,"n":2} = {"n":2}
 { "b" : [ ] , "a" : null }  = {"a":null,"b":[]}
"#;

/// That an envelope around an object is opened as its line says.
fn opens(rt: &impl Abort, alloc: Global, line: &str) {
    let (object, wanted) = line.split_once(" = ").expect(rt, "an object and a value");
    let body = enveloped(rt, alloc, object);
    is_so(rt, is_opened_as(rt, alloc, body.as_bytes(), wanted), line);
}

#[test]
fn envelopes_are_opened(rt: HostRuntime) {
    for line in OPENED.lines() {
        opens(&rt, rt.alloc(), line);
    }
    let unknown = b"[{\"acvVersion\":\"1.0\",\"further\":0},{}]";
    is_so(&rt, is_opened_as(&rt, rt.alloc(), unknown, "{}"), "unknown");
}

/// That each line's body has the fault of this word.
fn have_fault(rt: &impl Abort, alloc: Global, lines: &str, fault: &str) {
    for line in lines.lines() {
        is_so(rt, is_opened_as(rt, alloc, line.as_bytes(), fault), line);
    }
}

/// Bodies that are no JSON, or hold a number that is none of the protocol.
const NO_JSON: &str = r#"[
[{"acvVersion":"1.0"},{}] {}
[{"acvVersion":"1.0"},{"n":1.5}]
[{"acvVersion":"1.1"},{"n":1.5}]
[{"acvVersion":"1.0"},{"n":[{"m":1.0}]}]
[{"acvVersion":"1.0"},{"n":1e2}]
[{"acvVersion":"1.0"},{"n":-0}]
[{"acvVersion":"1.0"},{"n":18446744073709551616}]
[{"acvVersion":"1.0"},{"n":-9223372036854775809}]
"#;

/// A body that is no UTF-8.
const NO_TEXT: &[u8] = b"[{\"acvVersion\":\"1.0\"},{\"n\":\"\xff\"}]";

#[test]
fn what_is_no_json_is_told_first(rt: HostRuntime) {
    have_fault(&rt, rt.alloc(), NO_JSON, "BodyNotJson");
    let is_told = is_opened_as(&rt, rt.alloc(), NO_TEXT, "BodyNotJson");
    is_so(&rt, is_told, "no text");
    let is_told = is_opened_as(&rt, rt.alloc(), b"", "BodyNotJson");
    is_so(&rt, is_told, "nothing");
}

/// Puts a character behind a text so many times.
fn put(rt: &impl Abort, text: &mut String, character: char, count: u64) {
    for _ in 0..count {
        text.push(character).ok().expect(rt, "memory");
    }
}

/// Arrays of this number, one in another.
pub(crate) fn nested(rt: &impl Abort, alloc: Global, arrays: u64) -> String {
    let mut text = String::new(alloc);
    put(rt, &mut text, '[', arrays);
    put(rt, &mut text, ']', arrays);
    text
}

/// An envelope around an object that holds so many arrays.
fn body_of_nested(rt: &impl Abort, alloc: Global, arrays: u64) -> String {
    let arrays = nested(rt, alloc, arrays);
    let body = format!(in alloc; "[{{\"acvVersion\":\"1.0\"}},{{\"n\":{arrays}}}]");
    body.ok().expect(rt, "memory")
}

/// Why such an envelope is none; none where it is one.
fn fault_of_nested(rt: &impl Abort, alloc: Global, arrays: u64) -> Option<BodyFault> {
    open_envelope(alloc, body_of_nested(rt, alloc, arrays).as_bytes()).err()
}

#[test]
fn nesting_ends_at_127(rt: HostRuntime) {
    assert!(rt; fault_of_nested(&rt, rt.alloc(), 125).is_none());
    assert!(rt; fault_of_nested(&rt, rt.alloc(), 126) == Some(BodyFault::BodyNotJson));
}

/// Bodies that are JSON and no envelopes.
const NO_ENVELOPES: &str = r#"{"acvVersion":"1.0"}
[]
[{"acvVersion":"1.0"}]
[{"acvVersion":"1.1"},{}]
[{"acvVersion":1},{}]
[{},{}]
["1.0",{}]
[{"acvVersion":"1.0"},[]]
[{"acvVersion":"1.0"},{},{}]
"#;

#[test]
fn other_envelopes_are_refused(rt: HostRuntime) {
    have_fault(&rt, rt.alloc(), NO_ENVELOPES, "BodyEnvelope");
}

/// What is read of an object.
#[derive(Clone, Copy)]
enum Read {
    Login,
    Certification,
    Reviewer,
}

/// Whether a login has this password, and this token or a dash for none.
fn has_parts(login: &LoginBody, password: &str, token: &str) -> bool {
    let has_token = match &login.access_token {
        Some(access_token) => access_token.as_str() == token,
        None => token == "-",
    };
    has_token && login.password.as_str() == password
}

/// Whether a login is that of a user.
fn is_of(login: LoginBody, user: &str) -> bool {
    login.user.into_string().as_str() == user
}

/// Whether an object is read as a login of a user, a password and a token, with commas between, or has the fault of
/// this word.
fn is_login(rt: &impl Abort, alloc: Global, object: &Value, wanted: &str) -> bool {
    match read_login(alloc, object) {
        Ok(login) => {
            let (user, rest) = wanted.split_once(',').expect(rt, "a user");
            let (password, token) = rest.split_once(',').expect(rt, "a password");
            let has_parts = has_parts(&login, password, token);
            is_of(login, user) && has_parts
        }
        Err(fault) => fault_word(fault) == wanted,
    }
}

/// Whether an object is read as a certification of a module and an environment, with a comma between, or has the fault
/// of this word.
fn is_certification(rt: &impl Abort, object: &Value, wanted: &str) -> bool {
    match read_certify(object) {
        Ok(body) => {
            let (module, environment) = wanted.split_once(',').expect(rt, "two numbers");
            body.module == number(rt, module) && body.environment == number(rt, environment)
        }
        Err(fault) => fault_word(fault) == wanted,
    }
}

/// Whether an object is read as the reviewer of this number, or has the fault of this word.
fn is_reviewer(rt: &impl Abort, object: &Value, wanted: &str) -> bool {
    match read_reviewer(object) {
        Ok(account) => u64::from(account) == number(rt, wanted),
        Err(fault) => fault_word(fault) == wanted,
    }
}

/// Whether this is read of an object.
fn is_read(rt: &impl Abort, alloc: Global, read: Read, object: &Value, wanted: &str) -> bool {
    match read {
        Read::Login => is_login(rt, alloc, object, wanted),
        Read::Certification => is_certification(rt, object, wanted),
        Read::Reviewer => is_reviewer(rt, object, wanted),
    }
}

/// That a line's object is read as the line says.
fn reads(rt: &impl Abort, alloc: Global, read: Read, line: &str) {
    let (wanted, text) = cut(line);
    let object = Value::from_str(alloc, text).ok().expect(rt, "a value");
    is_so(rt, is_read(rt, alloc, read, &object, wanted), line);
}

/// That each line's object is.
fn all_read(rt: &impl Abort, alloc: Global, read: Read, lines: &str) {
    for line in lines.lines() {
        reads(rt, alloc, read, line);
    }
}

/// Objects with the user, the password and the token that they name, or a dash for no token, or with their fault.
const LOGINS: &str = r#"7,46119246,- {"password":"46119246","user":"7"}
7,46119246,a.b.c {"accessToken":"a.b.c","password":"46119246","user":"7"}
BodyField {"password":"46119246"}
BodyField {"user":"7"}
BodyField {"password":46119246,"user":"7"}
BodyField {"accessToken":null,"password":"46119246","user":"7"}
"#;

#[test]
fn a_login_has_two_texts_and_perhaps_a_token(rt: HostRuntime) {
    all_read(&rt, rt.alloc(), Read::Login, LOGINS);
}

/// Objects with the module and the environment that they name, or with their fault.
const CERTIFICATIONS: &str =
    r#"7000001,7000002 {"moduleUrl":"/acvp/v1/modules/7000001","oeUrl":"/acvp/v1/oes/7000002"}
NoReference {"moduleUrl":"/acvp/v1/modules/7000001","oeUrl":"/acvp/v1/oes/07000001"}
NoReference {"moduleUrl":"/acvp/v1/oes/7000001","oeUrl":"/acvp/v1/oes/7000001"}
BodyField {"moduleUrl":"/acvp/v1/modules/7000001"}
BodyField {"moduleUrl":"no URL","oeUrl":7}
"#;

#[test]
fn a_certification_names_a_module_and_an_environment(rt: HostRuntime) {
    all_read(&rt, rt.alloc(), Read::Certification, CERTIFICATIONS);
}

/// Objects with the account that they name, or with their fault.
const REVIEWERS: &str = r#"1 {"account":1}
9 {"account":9,"further":0}
9999 {"account":9999}
BodyField {"account":0}
BodyField {"account":10000}
BodyField {"account":65545}
BodyField {"account":18446744073709551615}
BodyField {"account":-1}
BodyField {"account":"7"}
BodyField {"account":[7]}
BodyField {"account":null}
BodyField {"Account":7}
BodyField {}
"#;

#[test]
fn a_reviewer_is_the_number_of_an_account(rt: HostRuntime) {
    all_read(&rt, rt.alloc(), Read::Reviewer, REVIEWERS);
}

/// That a line's moment has its time.
fn has_time(rt: &impl Abort, alloc: Global, line: &str) {
    let (moment, wanted) = cut(line);
    let moment = number(rt, moment);
    assert!(rt; moment <= 253402300799);
    let text = time_text(alloc, moment).ok().expect(rt, "memory");
    is_so(rt, text.as_str() == wanted, line);
}

/// Moments and their times.
const TIMES: &str = r#"0 1970-01-01T00:00:00Z
60 1970-01-01T00:01:00Z
2592060 1970-01-31T00:01:00Z
951782400 2000-02-29T00:00:00Z
4102444799 2099-12-31T23:59:59Z
253402300799 9999-12-31T23:59:59Z
"#;

#[test]
fn times_are_those_of_the_civil_calendar(rt: HostRuntime) {
    for line in TIMES.lines() {
        has_time(&rt, rt.alloc(), line);
    }
}

/// Whether answers are kept as this text.
pub(crate) fn are_kept_as(rt: &impl Abort, alloc: Global, answers: &Answers, text: &str) -> bool {
    let kept = answers_to_text(alloc, answers).ok().expect(rt, "memory");
    kept.as_str() == text
}

/// The text `e3` alone.
fn one_text(rt: &impl Abort, alloc: Global) -> Vec<String> {
    let text = String::from_str(alloc, "e3").ok().expect(rt, "memory");
    let mut texts = Vec::new(alloc);
    texts.push(text).ok().expect(rt, "memory");
    texts
}

/// Whether texts are added as the answer to a test.
fn adds(rt: &impl Abort, answers: &mut Answers, test: u64, texts: Vec<String>) -> bool {
    answers.insert(test, texts).ok().expect(rt, "memory")
}

/// Whether an answer to test 25 without texts, and then one to test 1, are added and kept as a text.
fn are_added(rt: &impl Abort, alloc: Global, text: &str) -> bool {
    let mut answers = Answers::new(alloc);
    let is_empty = are_kept_as(rt, alloc, &answers, "[]");
    let has_last = adds(rt, &mut answers, 25, Vec::new(alloc));
    let has_first = adds(rt, &mut answers, 1, one_text(rt, alloc));
    is_empty && has_last && has_first && are_kept_as(rt, alloc, &answers, text)
}

/// Whether these are the two answers.
fn are_both(read: &Answers) -> bool {
    if read.len() != 2 {
        return false;
    }
    let (first, texts) = read.entry(0);
    let has_first = match texts {
        [text] => first == 1 && text.as_str() == "e3",
        _ => false,
    };
    let (last, texts) = read.entry(1);
    has_first && last == 25 && texts.is_empty()
}

/// What a text is read as.
fn answers_in(rt: &impl Abort, alloc: Global, text: &str) -> Answers {
    answers_from_text(alloc, text).ok().expect(rt, "answers")
}

#[test]
fn answers_are_kept_and_read_back(rt: HostRuntime) {
    let text = "[[1,[\"e3\"]],[25,[]]]";
    assert!(rt; are_added(&rt, rt.alloc(), text));
    assert!(rt; are_both(&answers_in(&rt, rt.alloc(), text)));
    assert!(rt; answers_in(&rt, rt.alloc(), "[]").len() == 0);
}

/// Whether the same text is written of what a text is read as, or whether it has the fault of this word.
fn is_kept(rt: &impl Abort, alloc: Global, text: &str, wanted: &str) -> bool {
    match answers_from_text(alloc, text) {
        Ok(read) => are_kept_as(rt, alloc, &read, wanted),
        Err(fault) => fault_word(fault) == wanted,
    }
}

/// Answers as they are kept.
const KEPT: &str = r#"[[0,[]]]
[[18446744073709551615,[""]]]
[[2,["a","b","a"]],[3,["\"\\\né"]]]
"#;

#[test]
fn the_same_text_is_written_again(rt: HostRuntime) {
    for line in KEPT.lines() {
        is_so(&rt, is_kept(&rt, rt.alloc(), line, line), line);
        is_so(&rt, are_kept_answers(line), line);
    }
}

/// Texts that no answers are kept as, each with its fault.
const NOT_KEPT: &str = r#"BodyNotJson
BodyNotJson [[1,["a"]]
BodyNotJson [[1,[]]] []
BodyNotJson [[1.5,[]]]
BodyNotJson [[-0,[]]]
BodyNotJson [[18446744073709551616,[]]]
BodyField [[2,[]],[1,[]]]
BodyField [[1,[]],[1,[]]]
BodyField [[-1,[]]]
BodyField [[1,["a",2]]]
BodyField [["1",[]]]
BodyField [[1]]
BodyField [[1,[],[]]]
BodyField [[1,"a"]]
BodyField [1]
BodyField [[[],1]]
BodyField {}
BodyField 7
BodyField  [[1,[]]]
BodyField [[1, []]]
BodyField [[1,["\u0061"]]]
"#;

#[test]
fn what_answers_are_not_kept_as_is_refused(rt: HostRuntime) {
    for line in NOT_KEPT.lines() {
        let (fault, text) = cut(line);
        is_so(&rt, is_kept(&rt, rt.alloc(), text, fault), line);
    }
}
