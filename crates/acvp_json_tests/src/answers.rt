//! Bodies of answers against the prompts of vector sets. Where a body has right answers, they are the standard's, which
//! `acvp_answers` tests against other programs.

use crate::bodies::are_kept_as;
use crate::lines::{cut, fault_word, is_so};
use crate::replies::prompts_of;
use acvp_answers::{Answers, standard};
use acvp_gen::Prompts;
use acvp_json::{ReplyObject, answers_to_text, open_envelope, read_answers, write_reply};
use serde_json::Value;
use std::alloc::Global;
use std::process::Abort;

const HASH: &str =
    r#"{"algorithm":"SHA2-256","revision":"1.0","messageLength":[{"min":0,"max":1024,"increment":8}]}"#;

const HMAC: &str =
    r#"{"algorithm":"HMAC-SHA2-256","revision":"1.0","keyLen":[8],"macLen":[32,256]}"#;

/// The prompts of the first vector set of account 7's first session, for a capability by its name.
fn prompts_for(rt: &impl Abort, alloc: Global, name: &str) -> Prompts {
    let capability = if name == "HASH" { HASH } else { HMAC };
    prompts_of(rt, alloc, 700000101, capability)
}

/// Whether a body is read as answers to prompts that are kept as this text, or has the fault of this word.
fn is_read_as(
    rt: &impl Abort,
    alloc: Global,
    prompts: &Prompts,
    body: &Value,
    wanted: &str,
) -> bool {
    match read_answers(alloc, body, prompts) {
        Ok(answers) => are_kept_as(rt, alloc, &answers, wanted),
        Err(fault) => fault_word(fault) == wanted,
    }
}

/// The value that a text is.
fn value_of(rt: &impl Abort, alloc: Global, text: &str) -> Value {
    Value::from_str(alloc, text).ok().expect(rt, "a value")
}

/// Whether a line's body is read as the line says.
fn is_read(rt: &impl Abort, alloc: Global, prompts: &Prompts, body: &str, wanted: &str) -> bool {
    is_read_as(rt, alloc, prompts, &value_of(rt, alloc, body), wanted)
}

/// That a line's body is read as the line says.
fn reads(rt: &impl Abort, alloc: Global, line: &str) {
    let (wanted, rest) = cut(line);
    let (capability, body) = cut(rest);
    let prompts = prompts_for(rt, alloc, capability);
    is_so(rt, is_read(rt, alloc, &prompts, body, wanted), line);
}

/// That each line's body is.
fn all_read(rt: &impl Abort, alloc: Global, lines: &str) {
    for line in lines.lines() {
        reads(rt, alloc, line);
    }
}

/// Bodies for a capability, behind the text that their answers are kept as.
const READ: &str = r#"[] HASH {"vsId":700000101,"testGroups":[]}
[] HASH {"algorithm":"SHA2-256","revision":"1.0","vsId":700000101,"testGroups":[{"tgId":1,"tests":[]}]}
[[1,["Y"]],[3,["x"]]] HASH {"vsId":700000101,"testGroups":[{"tgId":1,"tests":[{"tcId":3,"md":"x"},{"tcId":1,"md":"Y","mac":"z"}]}]}
[[24,[""]],[25,["a","b"]]] HASH {"vsId":700000101,"testGroups":[{"tgId":2,"tests":[{"tcId":25,"resultsArray":[{"md":"a"},{"md":"b","more":1}]}]},{"tgId":1,"tests":[{"tcId":24,"md":""}]}]}
[[25,[]]] HASH {"vsId":700000101,"testGroups":[{"tgId":2,"tests":[{"tcId":25,"resultsArray":[]}]}]}
[[4,["a"]]] HMAC {"vsId":700000101,"testGroups":[{"tgId":2,"tests":[{"tcId":4,"mac":"a"}]}]}
"#;

#[test]
fn answers_are_read_at_their_numbers(rt: HostRuntime) {
    all_read(&rt, rt.alloc(), READ);
}

/// Bodies of which a test fails.
const FAULTY: &str = r#"BodyField HASH {"vsId":700000102,"testGroups":{}}
SetMismatch HASH {"vsId":700000102,"testGroups":[]}
SetMismatch HASH {"vsId":700000101,"algorithm":"SHA2-512","testGroups":[]}
SetMismatch HASH {"vsId":700000101,"revision":"2.0","testGroups":[]}
SetMismatch HASH {"vsId":700000102,"testGroups":[{"tgId":1,"tests":[{"tcId":99,"md":""}]}]}
UnknownTest HASH {"vsId":700000101,"testGroups":[{"tgId":1,"tests":[{"tcId":1,"md":"a"}]},{"tgId":2,"tests":[{"tcId":1,"md":"a"}]}]}
UnknownTest HASH {"vsId":700000101,"testGroups":[{"tgId":1,"tests":[{"tcId":99,"md":""}]}]}
UnknownTest HASH {"vsId":700000101,"testGroups":[{"tgId":2,"tests":[{"tcId":1,"md":""}]}]}
UnknownTest HASH {"vsId":700000101,"testGroups":[{"tgId":3,"tests":[{"tcId":1,"md":""}]}]}
DuplicateTest HASH {"vsId":700000101,"testGroups":[{"tgId":1,"tests":[{"tcId":1,"md":"a"},{"tcId":2,"md":"b"},{"tcId":1}]}]}
DuplicateTest HASH {"vsId":700000101,"testGroups":[{"tgId":1,"tests":[{"tcId":1,"md":"a"}]},{"tgId":1,"tests":[{"tcId":1,"md":"a"}]}]}
BodyField HASH {"vsId":700000101,"testGroups":[{"tgId":1,"tests":[{"tcId":1,"mac":"a"},{"tcId":99}]}]}
BodyField HASH {"vsId":700000101,"testGroups":[{"tgId":2,"tests":[{"tcId":25,"md":"a"}]}]}
BodyField HASH {"vsId":700000101,"testGroups":[{"tgId":2,"tests":[{"tcId":25,"resultsArray":[{}]}]}]}
BodyField HMAC {"vsId":700000101,"testGroups":[{"tgId":1,"tests":[{"tcId":1,"md":"a"}]}]}
"#;

#[test]
fn the_first_test_that_fails_is_told(rt: HostRuntime) {
    all_read(&rt, rt.alloc(), FAULTY);
}

/// Bodies of another vector set, which is told only of those that have the form.
const FORMED: &str = r#"SetMismatch HASH {"vsId":1,"testGroups":[]}
SetMismatch HASH {"vsId":0,"algorithm":"SHA2-256","revision":"1.0","testGroups":[{"tgId":1,"tests":[{"tcId":1,"md":"e3"},{"tcId":2,"mac":""},{"tcId":3}]},{"tgId":1,"tests":[{"tcId":3,"resultsArray":[{"md":"e3"},{"md":"","x":0}]}]},{"tgId":2,"tests":[{"tcId":4,"resultsArray":[]}]},{"tgId":3,"tests":[]}]}
BodyField HASH {"testGroups":[]}
BodyField HASH {"vsId":-1,"testGroups":[]}
BodyField HASH {"vsId":"1","testGroups":[]}
BodyField HASH {"vsId":1}
BodyField HASH {"vsId":1,"testGroups":{}}
BodyField HASH {"vsId":1,"algorithm":null,"testGroups":[]}
BodyField HASH {"vsId":1,"revision":1,"testGroups":[]}
BodyField HASH {"vsId":1,"testGroups":[{"tests":[]}]}
BodyField HASH {"vsId":1,"testGroups":[{"tgId":1}]}
BodyField HASH {"vsId":1,"testGroups":[[]]}
BodyField HASH {"vsId":1,"testGroups":[{"tgId":1,"tests":[]},{"tgId":"2","tests":[]}]}
BodyField HASH {"vsId":1,"testGroups":[{"tgId":1,"tests":[{"md":"e3"}]}]}
BodyField HASH {"vsId":1,"testGroups":[{"tgId":1,"tests":[{"tcId":1,"md":1}]}]}
BodyField HASH {"vsId":1,"testGroups":[{"tgId":1,"tests":[{"tcId":1,"mac":null}]}]}
BodyField HASH {"vsId":1,"testGroups":[{"tgId":1,"tests":[{"tcId":1,"resultsArray":null}]}]}
BodyField HASH {"vsId":1,"testGroups":[{"tgId":1,"tests":[{"tcId":1,"resultsArray":[{}]}]}]}
BodyField HASH []
"#;

#[test]
fn bodies_of_answers_have_a_form(rt: HostRuntime) {
    all_read(&rt, rt.alloc(), FORMED);
}

/// The standard's answers to prompts as a body.
fn expected_body(rt: &impl Abort, alloc: Global, prompts: &Prompts, standard: &Answers) -> Vec<u8> {
    let body = write_reply(alloc, &ReplyObject::Expected { prompts, standard });
    body.ok().expect(rt, "memory")
}

/// What a body's envelope holds.
fn object_in(rt: &impl Abort, alloc: Global, body: &[u8]) -> Value {
    open_envelope(alloc, body).ok().expect(rt, "an envelope")
}

/// Whether a body in its envelope gives these answers to prompts.
fn sends(rt: &impl Abort, alloc: Global, prompts: &Prompts, body: &[u8], right: &Answers) -> bool {
    let object = object_in(rt, alloc, body);
    match read_answers(alloc, &object, prompts) {
        Ok(given) => are_same(rt, alloc, &given, right),
        Err(_) => false,
    }
}

/// Whether these are the same answers.
fn are_same(rt: &impl Abort, alloc: Global, given: &Answers, right: &Answers) -> bool {
    let text = answers_to_text(alloc, right).ok().expect(rt, "memory");
    given.len() == right.len() && are_kept_as(rt, alloc, given, text.as_str())
}

/// Whether right answers to prompts, sent back, are read as themselves.
fn sends_back(rt: &impl Abort, alloc: Global, prompts: &Prompts, right: &Answers) -> bool {
    let body = expected_body(rt, alloc, prompts, right);
    sends(rt, alloc, prompts, body.as_slice(), right)
}

/// Whether the standard's answers to prompts are.
fn are_sent_back(rt: &impl Abort, alloc: Global, prompts: &Prompts) -> bool {
    let right = standard(alloc, prompts).ok().expect(rt, "answers");
    sends_back(rt, alloc, prompts, &right)
}

#[test]
fn expected_answers_that_are_sent_back_are_the_standards(rt: HostRuntime) {
    let alloc = rt.alloc();
    let hash = are_sent_back(&rt, alloc, &prompts_for(&rt, alloc, "HASH"));
    let hmac = are_sent_back(&rt, alloc, &prompts_for(&rt, alloc, "HMAC"));
    assert!(rt; hash && hmac);
}
