//! Vector sets, results and expected answers as they are written. Messages and keys are OpenSSL's `chacha20` of the
//! seed, read by the rules of the choice of tests, and digests and HMACs are those of Python's `hashlib` and `hmac`;
//! the texts of results are those of Python's `json`, with sorted members.

use crate::lines::is_so;
use crate::shown::{is, text_of};
use acvp_answers::{Answers, Disposition, Verdict, standard};
use acvp_caps::Capability;
use acvp_gen::{Prompts, prompts};
use acvp_json::ReplyObject;
use serde_json::Value;
use std::alloc::Global;
use std::process::Abort;

const HASH: &str = r#"{"algorithm":"SHA2-256","revision":"1.0","messageLength":[8]}"#;

const HMAC: &str = r#"{"algorithm":"HMAC-SHA2-256","revision":"1.0","keyLen":[8],"macLen":[32]}"#;

const MONTE_CARLO: &str = r#"{"algorithm":"SHA2-256","revision":"1.0","messageLength":[8,768]}"#;

const HASH_SET: &str = "[{\"acvVersion\":\"1.0\"},{\"algorithm\":\"SHA2-256\",\"isSample\":true,\
    \"revision\":\"1.0\",\"testGroups\":[{\"testType\":\"AFT\",\"tests\":[{\"len\":8,\
    \"msg\":\"9f\",\"tcId\":1},{\"len\":8,\"msg\":\"55\",\"tcId\":2},{\"len\":8,\"msg\":\"98\",\
    \"tcId\":3},{\"len\":8,\"msg\":\"73\",\"tcId\":4},{\"len\":8,\"msg\":\"cb\",\"tcId\":5},\
    {\"len\":8,\"msg\":\"48\",\"tcId\":6},{\"len\":8,\"msg\":\"12\",\"tcId\":7},{\"len\":8,\
    \"msg\":\"32\",\"tcId\":8},{\"len\":8,\"msg\":\"29\",\"tcId\":9},{\"len\":8,\"msg\":\"9c\",\
    \"tcId\":10},{\"len\":8,\"msg\":\"d5\",\"tcId\":11},{\"len\":8,\"msg\":\"74\",\"tcId\":12},\
    {\"len\":8,\"msg\":\"31\",\"tcId\":13},{\"len\":8,\"msg\":\"51\",\"tcId\":14},{\"len\":8,\
    \"msg\":\"ac\",\"tcId\":15},{\"len\":8,\"msg\":\"4b\",\"tcId\":16},{\"len\":8,\
    \"msg\":\"2d\",\"tcId\":17}],\"tgId\":1}],\"vsId\":0}]";

const LATER_HASH_SET: &str =
    "[{\"acvVersion\":\"1.0\"},{\"algorithm\":\"SHA2-256\",\"isSample\":false,\
    \"revision\":\"1.0\",\"testGroups\":[{\"testType\":\"AFT\",\"tests\":[{\"len\":8,\
    \"msg\":\"46\",\"tcId\":1},{\"len\":8,\"msg\":\"72\",\"tcId\":2},{\"len\":8,\"msg\":\"de\",\
    \"tcId\":3},{\"len\":8,\"msg\":\"75\",\"tcId\":4},{\"len\":8,\"msg\":\"9f\",\"tcId\":5},\
    {\"len\":8,\"msg\":\"45\",\"tcId\":6},{\"len\":8,\"msg\":\"f3\",\"tcId\":7},{\"len\":8,\
    \"msg\":\"5c\",\"tcId\":8},{\"len\":8,\"msg\":\"d9\",\"tcId\":9},{\"len\":8,\"msg\":\"22\",\
    \"tcId\":10},{\"len\":8,\"msg\":\"a4\",\"tcId\":11},{\"len\":8,\"msg\":\"09\",\"tcId\":12},\
    {\"len\":8,\"msg\":\"00\",\"tcId\":13},{\"len\":8,\"msg\":\"28\",\"tcId\":14},{\"len\":8,\
    \"msg\":\"21\",\"tcId\":15},{\"len\":8,\"msg\":\"86\",\"tcId\":16},{\"len\":8,\"msg\":\"33\",\
    \"tcId\":17}],\"tgId\":1}],\"vsId\":700000101}]";

const HMAC_SET: &str =
    "[{\"acvVersion\":\"1.0\"},{\"algorithm\":\"HMAC-SHA2-256\",\"isSample\":false,\
    \"revision\":\"1.0\",\"testGroups\":[{\"keyLen\":8,\"macLen\":32,\"msgLen\":128,\
    \"testType\":\"AFT\",\"tests\":[{\"key\":\"40\",\
    \"msg\":\"5386bd28bdd219b8a08ded1aa836efcc\",\"tcId\":1},{\"key\":\"8b\",\
    \"msg\":\"da41597c5157488d7724e03fb8d84a37\",\"tcId\":2},{\"key\":\"6a\",\
    \"msg\":\"1518a11cc387b669b2ee65869f07e7be\",\"tcId\":3}],\"tgId\":1},{\"keyLen\":8,\
    \"macLen\":32,\"msgLen\":128,\"testType\":\"AFT\",\"tests\":[{\"key\":\"55\",\
    \"msg\":\"98ba977c732d080dcb0f29a048e36569\",\"tcId\":4},{\"key\":\"12\",\
    \"msg\":\"32ee7aed29b721769ce64e43d57133b0\",\"tcId\":5},{\"key\":\"74\",\
    \"msg\":\"31ed1f28510afb45ace10a1f4b794d6f\",\"tcId\":6}],\"tgId\":2},{\"keyLen\":8,\
    \"macLen\":32,\"msgLen\":128,\"testType\":\"AFT\",\"tests\":[{\"key\":\"2d\",\
    \"msg\":\"63266ce1ae7ed1081968a0758e718e99\",\"tcId\":7},{\"key\":\"7b\",\
    \"msg\":\"b0c34634a9a0b35d012737681f7b5d0f\",\"tcId\":8},{\"key\":\"28\",\
    \"msg\":\"e458bc1e73d2d313c9cf94c05ff37162\",\"tcId\":9}],\"tgId\":3}],\"vsId\":0}]";

const HASH_EXPECTED: &str =
    "[{\"acvVersion\":\"1.0\"},{\"algorithm\":\"SHA2-256\",\"revision\":\"1.0\",\
    \"testGroups\":[{\"tests\":[{\"md\":\"1f184f101c67d585ba00d24cfde36863f747fbab9e84af7760ec771e9b36ca51\",\
    \"tcId\":1},{\"md\":\"a25513c7e0f6eaa80a3337ee18081b9e2ed09e00af8531c8f7bb2542764027e7\",\
    \"tcId\":2},{\"md\":\"79bec7ff3e69d1b470eb8684f2005a867a7980222474cbc1afd26a9a4f206d4a\",\
    \"tcId\":3},{\"md\":\"043a718774c572bd8a25adbeb1bfcd5c0256ae11cecf9f9c3f925d0e52beaf89\",\
    \"tcId\":4},{\"md\":\"383e5d7d58caa41ce723cf16af471b38f6ee9065c032d07fa6bef1678cb72f1d\",\
    \"tcId\":5},{\"md\":\"44bd7ae60f478fae1061e11a7739f4b94d1daf917982d33b6fc8a01a63f89c21\",\
    \"tcId\":6},{\"md\":\"f299791cddd3d6664f6670842812ef6053eb6501bd6282a476bbbf3ee91e750c\",\
    \"tcId\":7},{\"md\":\"d4735e3a265e16eee03f59718b9b5d03019c07d8b6c51f90da3a666eec13ab35\",\
    \"tcId\":8},{\"md\":\"ba5ec51d07a4ac0e951608704431d59a02b21a4e951acc10505a8dc407c501ee\",\
    \"tcId\":9},{\"md\":\"6e3faf1e27d45fca70234ae8f6f0a734622cff8a6ea824b7f60d3ffafa2a4654\",\
    \"tcId\":10},{\"md\":\"cdce9374e0fecee1655cbc7207b0ed392201941f084c4b5672e917a99c7b2b26\",\
    \"tcId\":11},{\"md\":\"e3b98a4da31a127d4bde6e43033f66ba274cab0eb7eb1c70ec41402bf6273dd8\",\
    \"tcId\":12},{\"md\":\"6b86b273ff34fce19d6b804eff5a3f5747ada4eaa22f1d49c01e52ddb7875b4b\",\
    \"tcId\":13},{\"md\":\"4ae81572f06e1b88fd5ced7a1a000945432e83e1551e6f721ee9c00b8cc33260\",\
    \"tcId\":14},{\"md\":\"ee6bb86b44339392bae631c8f61dd8f009243c635adab33c0b20923a2794bf22\",\
    \"tcId\":15},{\"md\":\"86be9a55762d316a3026c2836d044f5fc76e34da10e1b45feee5f18be7edb177\",\
    \"tcId\":16},{\"md\":\"3973e022e93220f9212c18d0d0c543ae7c309e46640da93a4a0314de999f5112\",\
    \"tcId\":17}],\"tgId\":1}],\"vsId\":0}]";

const HMAC_EXPECTED: &str =
    "[{\"acvVersion\":\"1.0\"},{\"algorithm\":\"HMAC-SHA2-256\",\"revision\":\"1.0\",\
    \"testGroups\":[{\"tests\":[{\"mac\":\"59958e11\",\"tcId\":1},{\"mac\":\"66d17f0e\",\
    \"tcId\":2},{\"mac\":\"4e2f17e7\",\"tcId\":3}],\"tgId\":1},\
    {\"tests\":[{\"mac\":\"6a37ee4b\",\"tcId\":4},{\"mac\":\"d0b18ad9\",\"tcId\":5},\
    {\"mac\":\"67bfee16\",\"tcId\":6}],\"tgId\":2},{\"tests\":[{\"mac\":\"9d4c73a1\",\
    \"tcId\":7},{\"mac\":\"3e2c49b8\",\"tcId\":8},{\"mac\":\"3e0789d4\",\"tcId\":9}],\
    \"tgId\":3}],\"vsId\":0}]";

/// How the vector set of `MONTE_CARLO` ends.
const MONTE_CARLO_SET: &str = "\"tgId\":1},{\"testType\":\"MCT\",\"tests\":[{\"len\":256,\
    \"msg\":\"2568657b686d7214382a1a00903017dda969878442ba5afff6613f553cbb233c\",\"tcId\":19}],\
    \"tgId\":2}],\"vsId\":0}]";

/// What stands before the second checkpoint, and how the whole ends.
const FIRST_CHECKPOINT: &str = "\"tgId\":1},\
    {\"tests\":[{\"resultsArray\":[{\"md\":\"bb57d4d8c247e5622b1d2b9e7f9c35cac02549aa4bfbb348e2269d1eaa19c48f\"},\
    {\"md\":\"";

const LAST_CHECKPOINT: &str =
    ",{\"md\":\"51127556a9e1e79c11084298bd5d01a86bd7d9b84ffe236d606a193c8dbeedc2\"}],\
    \"tcId\":19}],\"tgId\":2}],\"vsId\":0}]";

/// The prompts of the vector set of a number under a seed of zeros.
pub(crate) fn prompts_of(rt: &impl Abort, alloc: Global, vs: u64, capability: &str) -> Prompts {
    let capability = Capability::from_text(alloc, capability);
    let capability = capability.ok().expect(rt, "a capability");
    prompts(alloc, &[0; 32], vs, &capability)
        .ok()
        .expect(rt, "prompts")
}

/// The text of a vector set.
fn set_text(rt: &impl Abort, alloc: Global, vs: u64, capability: &str, sample: bool) -> String {
    let prompts = prompts_of(rt, alloc, vs, capability);
    text_of(
        rt,
        alloc,
        &ReplyObject::ReadSet {
            sample,
            prompts: &prompts,
        },
    )
}

/// The text of the standard's answers to prompts, or of none.
fn answers_text(rt: &impl Abort, alloc: Global, prompts: &Prompts, are_there: bool) -> String {
    let standard = answers_to(rt, alloc, prompts, are_there);
    text_of(
        rt,
        alloc,
        &ReplyObject::Expected {
            prompts,
            standard: &standard,
        },
    )
}

/// The standard's answers to prompts, or none.
fn answers_to(rt: &impl Abort, alloc: Global, prompts: &Prompts, are_there: bool) -> Answers {
    if are_there {
        standard(alloc, prompts).ok().expect(rt, "answers")
    } else {
        Answers::new(alloc)
    }
}

/// The text of the expected answers to a capability's vector set, or where no test is answered.
fn expected_text(rt: &impl Abort, alloc: Global, capability: &str, are_there: bool) -> String {
    answers_text(rt, alloc, &prompts_of(rt, alloc, 0, capability), are_there)
}

/// That a vector set is written as this text.
fn is_set(rt: &impl Abort, alloc: Global, vs: u64, capability: &str, sample: bool, wanted: &str) {
    let text = set_text(rt, alloc, vs, capability, sample);
    is_so(rt, text.as_str() == wanted, wanted);
}

#[test]
fn vector_sets_of_hash_functions_and_hmac(rt: HostRuntime) {
    is_set(&rt, rt.alloc(), 0, HASH, true, HASH_SET);
    is_set(&rt, rt.alloc(), 700000101, HASH, false, LATER_HASH_SET);
    is_set(&rt, rt.alloc(), 0, HMAC, false, HMAC_SET);
}

#[test]
fn a_vector_set_with_a_monte_carlo_test(rt: HostRuntime) {
    let text = set_text(&rt, rt.alloc(), 0, MONTE_CARLO, false);
    assert!(rt; text.as_str().ends_with(MONTE_CARLO_SET));
}

/// That the expected answers to a capability's vector set are written as this text.
fn are_expected(rt: &impl Abort, alloc: Global, capability: &str, wanted: &str) {
    let text = expected_text(rt, alloc, capability, true);
    is_so(rt, text.as_str() == wanted, wanted);
}

#[test]
fn expected_digests_and_macs(rt: HostRuntime) {
    are_expected(&rt, rt.alloc(), HASH, HASH_EXPECTED);
    are_expected(&rt, rt.alloc(), HMAC, HMAC_EXPECTED);
}

/// How many checkpoints a text of expected answers has.
fn count_of_checkpoints(alloc: Global, text: &str) -> Option<usize> {
    match Value::from_str(alloc, text) {
        Ok(body) => {
            let checkpoints = body.pointer("/1/testGroups/1/tests/0/resultsArray");
            checkpoints.and_then(Value::as_array).map(|all| all.len())
        }
        Err(_) => None,
    }
}

/// Whether a text has the first checkpoint and the last one, and a hundred of them.
fn has_checkpoints(alloc: Global, text: &str) -> bool {
    text.contains(FIRST_CHECKPOINT)
        && text.ends_with(LAST_CHECKPOINT)
        && count_of_checkpoints(alloc, text) == Some(100)
}

#[test]
fn a_hundred_expected_checkpoints(rt: HostRuntime) {
    let text = expected_text(&rt, rt.alloc(), MONTE_CARLO, true);
    assert!(rt; has_checkpoints(rt.alloc(), text.as_str()));
}

/// That the text where no test is answered ends so.
fn is_unanswered(rt: &impl Abort, alloc: Global, capability: &str, end: &str) {
    let text = expected_text(rt, alloc, capability, false);
    is_so(rt, text.as_str().ends_with(end), end);
}

/// Where no test is answered, each digest and HMAC is the empty text, and there are no checkpoints.
#[test]
fn expected_answers_that_are_not_there(rt: HostRuntime) {
    let hash = r#"{"md":"","tcId":17}],"tgId":1}],"vsId":0}]"#;
    is_unanswered(&rt, rt.alloc(), HASH, hash);
    let hmac = r#"{"mac":"","tcId":9}],"tgId":3}],"vsId":0}]"#;
    is_unanswered(&rt, rt.alloc(), HMAC, hmac);
    let monte_carlo = r#"{"tests":[{"resultsArray":[],"tcId":19}],"tgId":2}],"vsId":0}]"#;
    is_unanswered(&rt, rt.alloc(), MONTE_CARLO, monte_carlo);
}

/// That the verdicts on a set's tests are written as this text.
fn are_verdicts(
    rt: &impl Abort,
    alloc: Global,
    vs: u64,
    disposition: Disposition,
    verdicts: &[Verdict],
    wanted: &str,
) {
    let reply = ReplyObject::SetResults {
        vs,
        disposition,
        verdicts,
    };
    is(rt, alloc, &reply, wanted);
}

#[test]
fn tests_have_their_verdicts_by_their_numbers(rt: HostRuntime) {
    let alloc = rt.alloc();
    are_verdicts(
        &rt,
        alloc,
        700000101,
        Disposition::Passed,
        &[Verdict::Passed],
        r#"[{"acvVersion":"1.0"},{"disposition":"passed","tests":[{"result":"passed","tcId":1}],"vsId":700000101}]"#,
    );
    are_verdicts(
        &rt,
        alloc,
        700000101,
        Disposition::Fail,
        &[Verdict::Passed, Verdict::Fail, Verdict::Missing],
        r#"[{"acvVersion":"1.0"},{"disposition":"fail","tests":[{"result":"passed","tcId":1},{"result":"fail","tcId":2},{"result":"missing","tcId":3}],"vsId":700000101}]"#,
    );
    are_verdicts(
        &rt,
        alloc,
        700000101,
        Disposition::Missing,
        &[Verdict::Missing, Verdict::Passed],
        r#"[{"acvVersion":"1.0"},{"disposition":"missing","tests":[{"result":"missing","tcId":1},{"result":"passed","tcId":2}],"vsId":700000101}]"#,
    );
    are_verdicts(
        &rt,
        alloc,
        999999999920,
        Disposition::Expired,
        &[Verdict::Missing, Verdict::Missing, Verdict::Missing],
        r#"[{"acvVersion":"1.0"},{"disposition":"expired","tests":[{"result":"missing","tcId":1},{"result":"missing","tcId":2},{"result":"missing","tcId":3}],"vsId":999999999920}]"#,
    );
    are_verdicts(
        &rt,
        alloc,
        0,
        Disposition::Unreceived,
        &[],
        r#"[{"acvVersion":"1.0"},{"disposition":"unreceived","tests":[],"vsId":0}]"#,
    );
}
