//! Answers against the standard's; the digest of the empty message is NIST's.

use acvp_answers::{
    Answers, Disposition, TextFault, Verdict, disposition, grade, standard, verdicts_from_text,
    verdicts_to_text,
};
use acvp_gen::{Algorithm, CapFault, Capability, Prompts, prompts};
use std::alloc::{AllocError, Global};
use std::test::Fail;

const HASH: &str =
    r#"{"algorithm":"SHA2-256","revision":"1.0","messageLength":[{"min":0,"max":1024,"increment":8}]}"#;

const HMAC: &str =
    r#"{"algorithm":"HMAC-SHA2-512/256","revision":"1.0","keyLen":[{"min":8,"max":2048,"increment":8}],"macLen":[32,256]}"#;

const EMPTY: &str = "e3b0c44298fc1c149afbf4c8996fb92427ae41e4649b934ca495991b7852b855";

const EMPTY_IN_CAPITALS: &str = "E3B0C44298FC1C149AFBF4C8996FB92427AE41E4649B934CA495991B7852B855";

fn texts(alloc: Global, text: &str, count: usize) -> Result<Vec<String>, AllocError> {
    let mut texts = Vec::new(alloc);
    for _ in 0..count {
        texts.push(String::from_str(alloc, text)?)?;
    }
    Ok(texts)
}

// Answers to the tests of these numbers: each a text so many times.
fn answers(alloc: Global, entries: &[(u64, &str, usize)]) -> Result<Answers, AllocError> {
    let mut answers = Answers::new(alloc);
    for (number, text, count) in entries {
        answers.insert(*number, texts(alloc, text, *count)?)?;
    }
    Ok(answers)
}

// Whether these are the numbers of the tests, and how many texts answer each.
fn has_counts(answers: &Answers, counts: &[(u64, usize)]) -> bool {
    let mut counts = counts.iter();
    for (number, texts) in answers.iter() {
        if counts.next() != Some(&(number, texts.len())) {
            return false;
        }
    }
    counts.next().is_none()
}

// Adds one text as the answer to a test, and tells whether it had none.
fn inserted(
    alloc: Global,
    answers: &mut Answers,
    number: u64,
    text: &str,
) -> Result<bool, AllocError> {
    Ok(answers.insert(number, texts(alloc, text, 1)?)?)
}

// The number of the test at a place.
fn number_at(answers: &Answers, place: usize) -> Option<u64> {
    if place < answers.len() {
        Some(answers.entry(place).0)
    } else {
        None
    }
}

#[test]
fn answers_ascend_and_stand_once(rt: HostRuntime) -> Result<(), Fail> {
    let alloc = rt.alloc();
    let mut kept = answers(alloc, &[(25, "b", 2), (1, "a", 1), (7, "", 0)])?;
    assert!(rt; has_counts(&kept, &[(1, 1), (7, 0), (25, 2)]));
    assert!(rt; inserted(alloc, &mut kept, 7, "c") == Ok(false));
    assert!(rt; has_counts(&kept, &[(1, 1), (7, 0), (25, 2)]));
    assert!(rt; inserted(alloc, &mut kept, 8, "c") == Ok(true));
    assert!(rt; has_counts(&kept, &[(1, 1), (7, 0), (8, 1), (25, 2)]));
    assert!(rt; number_at(&kept, 2) == Some(8));
    Ok(())
}

// Whether these are the verdicts on the answers that are given.
fn is_graded(
    alloc: Global,
    standard: &Answers,
    given: &Answers,
    wanted: &[Verdict],
) -> Result<bool, AllocError> {
    let verdicts = grade(alloc, standard, given)?;
    Ok(verdicts.as_slice() == wanted)
}

// The standard's answers where the verdicts are worked out by hand.
const SMALL_STANDARD: &[(u64, &str, usize)] = &[(1, EMPTY, 1), (2, "00", 1), (25, EMPTY, 100)];

// Whether these are the verdicts on these answers, by the small standard.
fn is_graded_so(
    alloc: Global,
    given: &[(u64, &str, usize)],
    wanted: &[Verdict],
) -> Result<bool, AllocError> {
    let standard = answers(alloc, SMALL_STANDARD)?;
    let given = answers(alloc, given)?;
    is_graded(alloc, &standard, &given, wanted)
}

const GIVEN: [(&[(u64, &str, usize)], [Verdict; 3]); 4] = [
    (
        &[(25, EMPTY, 100), (2, "00", 1), (1, EMPTY_IN_CAPITALS, 1)],
        [Verdict::Passed, Verdict::Passed, Verdict::Passed],
    ),
    (
        &[(1, EMPTY, 1), (25, EMPTY, 99)],
        [Verdict::Passed, Verdict::Missing, Verdict::Fail],
    ),
    (
        &[(1, EMPTY, 2), (2, "0", 1), (25, EMPTY, 101)],
        [Verdict::Fail, Verdict::Fail, Verdict::Fail],
    ),
    (
        &[(1, "", 0), (2, "000", 1), (26, EMPTY, 100)],
        [Verdict::Fail, Verdict::Fail, Verdict::Missing],
    ),
];

#[test]
fn each_test_has_its_verdict(rt: HostRuntime) {
    for (given, wanted) in GIVEN.iter() {
        assert!(rt; is_graded_so(rt.alloc(), given, wanted) == Ok(true));
    }
}

#[test]
fn a_failed_test_weighs_more_than_a_missing_one(rt: HostRuntime) {
    for (verdicts, wanted) in [
        ([Verdict::Passed, Verdict::Passed], Disposition::Passed),
        ([Verdict::Passed, Verdict::Missing], Disposition::Missing),
        ([Verdict::Missing, Verdict::Fail], Disposition::Fail),
        ([Verdict::Fail, Verdict::Passed], Disposition::Fail),
    ] {
        assert_eq!(rt; disposition(&verdicts), wanted);
    }
    assert_eq!(rt; disposition(&[]), Disposition::Passed);
}

// Whether verdicts are written as these letters.
fn is_lettered(alloc: Global, verdicts: &[Verdict], letters: &str) -> Result<bool, AllocError> {
    let text = verdicts_to_text(alloc, verdicts)?;
    Ok(text.as_str() == letters)
}

// Whether letters are read as these verdicts.
fn is_read(alloc: Global, letters: &str, verdicts: &[Verdict]) -> bool {
    match verdicts_from_text(alloc, letters) {
        Ok(read) => read.as_slice() == verdicts,
        Err(_) => false,
    }
}

#[test]
fn verdicts_are_kept_by_their_letters(rt: HostRuntime) {
    let alloc = rt.alloc();
    let verdicts = [Verdict::Passed, Verdict::Missing, Verdict::Fail];
    assert!(rt; is_lettered(alloc, &verdicts, "pmf") == Ok(true));
    assert!(rt; is_lettered(alloc, &[], "") == Ok(true));
    assert!(rt; is_read(alloc, "pmf", &verdicts));
}

fn is_letter_refused(alloc: Global, text: &str) -> bool {
    matches!(&verdicts_from_text(alloc, text), Err(TextFault::Letter))
}

#[test]
fn no_other_letter_is_a_verdict(rt: HostRuntime) {
    for text in ["pmx", "P", "p ", "\u{e9}"].iter() {
        assert!(rt; is_letter_refused(rt.alloc(), text), "at {text}");
    }
    assert!(rt; is_read(rt.alloc(), "", &[]));
}

const ZERO: [u8; 32] = [0; 32];

const RISING: [u8; 32] = [
    0, 1, 2, 3, 4, 5, 6, 7, 8, 9, 10, 11, 12, 13, 14, 15, 16, 17, 18, 19, 20, 21, 22, 23, 24, 25,
    26, 27, 28, 29, 30, 31,
];

// The prompts of a capability's text.
fn prompts_of(
    alloc: Global,
    seed: &[u8; 32],
    vs: u64,
    capability: &str,
) -> Result<Prompts, CapFault> {
    let capability = Capability::from_text(alloc, capability)?;
    prompts(alloc, seed, vs, &capability).map_err(|_| CapFault::Memory)
}

// The standard's answers to the tests of a capability's text.
fn standard_of(
    alloc: Global,
    seed: &[u8; 32],
    vs: u64,
    capability: &str,
) -> Result<Answers, CapFault> {
    let prompts = prompts_of(alloc, seed, vs, capability)?;
    standard(alloc, &prompts).map_err(|_| CapFault::Memory)
}

// A test's number, how many texts answer it, a place among them, and the text there.
type Answered = (u64, usize, usize, &'static str);

fn is_answered(answers: &Answers, (number, count, place, wanted): Answered) -> bool {
    let texts = answers.texts_for(number).unwrap_or(&[]);
    match texts.get(place) {
        Some(text) => texts.len() == count && text.as_str() == wanted,
        None => false,
    }
}

fn are_answered(answers: &Answers, all: &[Answered]) -> bool {
    for answered in all {
        if !is_answered(answers, *answered) {
            return false;
        }
    }
    true
}

// Digests, HMACs and checkpoints of messages and keys out of OpenSSL's key stream, by Python's hashlib and hmac.

const DIGESTS: [([u8; 32], u64, [Answered; 6]); 2] = [
    (
        ZERO,
        0,
        [
            (1, 1, 0, EMPTY),
            (
                2,
                1,
                0,
                "1f184f101c67d585ba00d24cfde36863f747fbab9e84af7760ec771e9b36ca51",
            ),
            (
                24,
                1,
                0,
                "73ba8fcf216b4434f0994846703e424d59a4d4ba1ad13d737a77b34ea758b02a",
            ),
            (
                25,
                100,
                0,
                "4f4f458b288f35957e2ae6648a2089ff35eccb657586f4ae8320edc8ca324fb8",
            ),
            (
                25,
                100,
                1,
                "4e336c3ff15012853c3512b6f93f610c4ee97aba51456345745d7df142fcc27d",
            ),
            (
                25,
                100,
                99,
                "729d81ff48c6f033324b142e828c1520d8053b1266924e8ae3cdba81771a8054",
            ),
        ],
    ),
    (
        RISING,
        700000101,
        [
            (1, 1, 0, EMPTY),
            (
                2,
                1,
                0,
                "76be8b528d0075f7aae98d6fa57a6d3c83ae480a8469e668d7b0af968995ac71",
            ),
            (
                24,
                1,
                0,
                "d31bd9af86d485c3efe0f4970b197cb79841699f5393d65419d08eb0a1eb8bd1",
            ),
            (
                25,
                100,
                0,
                "ffe125674375e76ff862f431de458a315fa862f4b86b0ae0d9314f6dbb6e4032",
            ),
            (
                25,
                100,
                1,
                "37b5b4041944dc09d98104b5b21059d56064e70471a14439a726505c27437f72",
            ),
            (
                25,
                100,
                99,
                "0871ddb1b0ceafc94165a4c8fb33a09c9b0a52e15a6d0e030f306f8c42b724aa",
            ),
        ],
    ),
];

#[test]
fn digests_and_checkpoints_of_the_standard(rt: HostRuntime) -> Result<(), Fail> {
    for (seed, vs, wanted) in DIGESTS.iter() {
        let answers = standard_of(rt.alloc(), seed, *vs, HASH)?;
        assert!(rt; answers.len() == 25);
        assert!(rt; are_answered(&answers, wanted));
        assert!(rt; answers.contains(25));
        assert!(rt; !answers.contains(26));
    }
    Ok(())
}

const MACS: [([u8; 32], u64, [Answered; 3]); 2] = [
    (
        ZERO,
        0,
        [
            (1, 1, 0, "8227b0a5"),
            (
                4,
                1,
                0,
                "281ba6d7053c427007d4ed897e6e6fb12cc24b8659cecae096a869e86fb41122",
            ),
            (
                42,
                1,
                0,
                "8fc7c74f3350e8fc59468ab5b71acdd8c403e6ffd1ee130408cbbfd40b115b45",
            ),
        ],
    ),
    (
        RISING,
        700000101,
        [
            (1, 1, 0, "e30b2651"),
            (
                4,
                1,
                0,
                "395cd99443e82cf80cae20870883eccb02235c8e36346b5484900f1ce519809c",
            ),
            (
                42,
                1,
                0,
                "0ff33ce5e1acb42e19ee7307f636bc08917fe4888ceaf27d9a6c7842649e862b",
            ),
        ],
    ),
];

#[test]
fn macs_of_the_standard(rt: HostRuntime) -> Result<(), Fail> {
    for (seed, vs, wanted) in MACS.iter() {
        let answers = standard_of(rt.alloc(), seed, *vs, HMAC)?;
        assert!(rt; answers.len() == 42);
        assert!(rt; are_answered(&answers, wanted));
    }
    Ok(())
}

// So many of the standard's checkpoints, from the first again after the last, as the answer to test 25.
fn checkpoints(alloc: Global, standard: &Answers, count: usize) -> Result<Answers, AllocError> {
    let mut checkpoints = Vec::new(alloc);
    let wanted = standard.texts_for(25).unwrap_or(&[]);
    for text in wanted.iter().cycle().take(count) {
        checkpoints.push(String::from_str(alloc, text.as_str())?)?;
    }
    let mut given = Answers::new(alloc);
    given.insert(25, checkpoints)?;
    Ok(given)
}

// Whether so many checkpoints alone have this verdict, where 24 other tests aren't answered.
fn are_graded(
    alloc: Global,
    standard: &Answers,
    count: usize,
    verdict: Verdict,
) -> Result<bool, AllocError> {
    let mut wanted = [Verdict::Missing; 25];
    wanted[24] = verdict;
    let given = checkpoints(alloc, standard, count)?;
    is_graded(alloc, standard, &given, &wanted)
}

#[test]
fn ninety_nine_checkpoints_fail_and_one_too_many_too(rt: HostRuntime) -> Result<(), Fail> {
    let standard = standard_of(rt.alloc(), &ZERO, 0, HASH)?;
    for (count, verdict) in [
        (0, Verdict::Fail),
        (99, Verdict::Fail),
        (100, Verdict::Passed),
        (101, Verdict::Fail),
    ]
    .iter()
    {
        assert!(rt;
            are_graded(rt.alloc(), &standard, *count, *verdict) == Ok(true),
            "{count}"
        );
    }
    Ok(())
}

// The standard's answers to tests 1 to 24, from a number on, where one may be wrong.
fn digests_from(
    alloc: Global,
    standard: &Answers,
    first: u64,
    wrong: u64,
) -> Result<Answers, AllocError> {
    let mut given = Answers::new(alloc);
    for number in first..25 {
        for text in standard.texts_for(number).unwrap_or(&[]) {
            let text = if number == wrong { "00" } else { text.as_str() };
            given.insert(number, texts(alloc, text, 1)?)?;
        }
    }
    Ok(given)
}

// Whether verdicts are written as these letters and read back, and come to this disposition.
fn are_told(
    alloc: Global,
    verdicts: &[Verdict],
    letters: &str,
    wanted: Disposition,
) -> Result<bool, AllocError> {
    let is_written = is_lettered(alloc, verdicts, letters)?;
    Ok(is_written && is_read(alloc, letters, verdicts) && disposition(verdicts) == wanted)
}

// What is told of the digests from a number on, where one may be wrong.
fn digests_are_told(
    alloc: Global,
    standard: &Answers,
    (first, wrong): (u64, u64),
    letters: &str,
    wanted: Disposition,
) -> Result<bool, AllocError> {
    let given = digests_from(alloc, standard, first, wrong)?;
    let verdicts = grade(alloc, standard, &given)?;
    are_told(alloc, &verdicts, letters, wanted)
}

const TOLD: [((u64, u64), &str, Disposition); 3] = [
    ((1, 0), "ppppppppppppppppppppppppm", Disposition::Missing),
    ((2, 0), "mpppppppppppppppppppppppm", Disposition::Missing),
    ((1, 24), "pppppppppppppppppppppppfm", Disposition::Fail),
];

#[test]
fn a_missing_answer_is_told_and_a_wrong_one_weighs_more(rt: HostRuntime) -> Result<(), Fail> {
    let alloc = rt.alloc();
    let standard = standard_of(alloc, &ZERO, 0, HASH)?;
    for (given, letters, wanted) in TOLD.iter() {
        let are_told = digests_are_told(alloc, &standard, *given, letters, *wanted);
        assert!(rt; are_told == Ok(true), "{letters}");
    }
    Ok(())
}

// Whether the standard's answers to a capability's tests pass by themselves, all of them.
fn passes(alloc: Global, standard: &Answers) -> Result<bool, AllocError> {
    let verdicts = grade(alloc, standard, standard)?;
    Ok(verdicts.len() == standard.len() && disposition(&verdicts) == Disposition::Passed)
}

#[test]
fn the_standards_own_answers_pass(rt: HostRuntime) -> Result<(), Fail> {
    for capability in [HASH, HMAC].iter() {
        let standard = standard_of(rt.alloc(), &ZERO, 0, capability)?;
        assert!(rt; passes(rt.alloc(), &standard) == Ok(true));
    }
    Ok(())
}

// How many tests the standard answers for an algorithm, where each of its domains has one member.
fn answered(alloc: Global, algorithm: Algorithm) -> Result<usize, CapFault> {
    let domains = if algorithm.is_hmac() {
        r#""keyLen":[8],"macLen":[32]"#
    } else {
        r#""messageLength":[8]"#
    };
    let name = algorithm.name();
    let text = format!(in alloc; "{{\"algorithm\":\"{name}\",\"revision\":\"1.0\",{domains}}}")?;
    let answers = standard_of(alloc, &ZERO, 0, text.as_str())?;
    Ok(answers.len())
}

#[test]
fn each_algorithm_is_answered(rt: HostRuntime) {
    for algorithm in Algorithm::all().iter() {
        let wanted = if algorithm.is_hmac() { 9 } else { 17 };
        assert!(rt;
            answered(rt.alloc(), *algorithm) == Ok(wanted),
            "{algorithm:?}"
        );
    }
}

// The verdict on the first test, and what the verdicts come to.
fn first_of(
    alloc: Global,
    standard: &Answers,
    given: &Answers,
) -> Result<(Option<Verdict>, Disposition), AllocError> {
    let verdicts = grade(alloc, standard, given)?;
    Ok((verdicts.first().copied(), disposition(&verdicts)))
}

#[test]
fn a_right_digest_in_capitals_passes(rt: HostRuntime) -> Result<(), Fail> {
    let standard = standard_of(rt.alloc(), &ZERO, 0, HASH)?;
    let given = answers(rt.alloc(), &[(1, EMPTY_IN_CAPITALS, 1)])?;
    let found = first_of(rt.alloc(), &standard, &given);
    assert!(rt; found == Ok((Some(Verdict::Passed), Disposition::Missing)));
    Ok(())
}
