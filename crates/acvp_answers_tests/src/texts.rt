//! The standard's texts against values from outside: NIST's examples of "abc", RFC 4231, and NIST's Monte Carlo files.

use acvp_answers::{checkpoint_texts, digest_texts, mac_texts, monte_carlo_texts};
use acvp_mac::HashName;
use std::alloc::{AllocError, Global};

#[derive(Drop)]
struct Case {
    name: HashName,
    seed: &'static [u8],
    first: [&'static str; 3],
    last: &'static str,
}

// The seed, the first three checkpoints and the hundredth of each of NIST's files.
const CASES: [Case; 6] = [
    Case {
        name: HashName::Sha224,
        seed: b"\xed\x2b\x70\xd5\x75\xd9\xd0\xb4\x19\x6a\xe8\x4a\x03\xee\xd9\x40\x05\x7e\xa8\x9c\xdd\x72\x9b\x95\xb7\xd4\xe6\xa5",
        first: [
            "cd94d7da13c030208b2d0d78fcfe9ea22fa8906df66aa9a1f42afa70",
            "555846e884633639565d5e0c01dd93ba58edb01ee18e68ccca28f7b8",
            "44d5f4a179b33231f24cc209ed2542ddb931391f2a2d604f80ed460b",
        ],
        last: "27033d2d89329ba9d2a39c0292552a5f1f945c115d5abf2064e93754",
    },
    Case {
        name: HashName::Sha256,
        seed: b"\x6d\x1e\x72\xad\x03\xdd\xeb\x5d\xe8\x91\xe5\x72\xe2\x39\x6f\x8d\xa0\x15\xd8\x99\xef\x0e\x79\x50\x31\x52\xd6\x01\x0a\x3f\xe6\x91",
        first: [
            "e93c330ae5447738c8aa85d71a6c80f2a58381d05872d26bdd39f1fcd4f2b788",
            "2e78f8c8772ea7c9331d41ed3f9cdf27d8f514a99342ee766ee3b8b0d0b121c0",
            "d6a23dff1b7f2eddc1a212f8a218397523a799b07386a30692fd6fe9d2bf0944",
        ],
        last: "6a912ba4188391a78e6f13d88ed2d14e13afce9db6f7dcbf4a48c24f3db02778",
    },
    Case {
        name: HashName::Sha384,
        seed: b"\xed\xff\x07\x25\x5c\x71\xb5\x4a\x9b\xea\xe5\x2c\xdf\xa0\x83\x56\x9a\x08\xbe\x89\x94\x9c\xbb\xa7\x3d\xdc\x8a\xcf\x42\x93\x59\xca\x5e\x5b\xe7\xa6\x73\x63\x3c\xa0\xd9\x70\x98\x48\xf5\x22\xa9\xdf",
        first: [
            "e81b86c49a38feddfd185f71ca7da6732a053ed4a2640d52d27f53f9f76422650b0e93645301ac99f8295d6f820f1035",
            "1d6bd21713bffd50946a10c39a7742d740e8f271f0c8f643d4c95375094fd9bf29d89ee61a76053f22e44a4b058a64ed",
            "425167b66ae965bd7d68515b54ebfa16f33d2bdb2147a4eac515a75224cd19cea564d692017d2a1c41c1a3f68bb5a209",
        ],
        last: "ccde4359f23e64579c5c0380df837ee950928aa82937a2d2ed33d216e707c46d847efa5ca52dcbda551145e164fbd594",
    },
    Case {
        name: HashName::Sha512,
        seed: b"\x5c\x33\x7d\xe5\xca\xf3\x5d\x18\xed\x90\xb5\xcd\xdf\xce\x00\x1c\xa1\xb8\xee\x86\x02\xf3\x67\xe7\xc2\x4c\xcc\xa6\xf8\x93\x80\x2f\xb1\xac\xa7\xa3\xda\xe3\x2d\xcd\x60\x80\x0a\x59\x95\x9b\xc5\x40\xd6\x32\x37\x87\x6b\x79\x92\x29\xae\x71\xa2\x52\x6f\xbc\x52\xcd",
        first: [
            "ada69add0071b794463c8806a177326735fa624b68ab7bcab2388b9276c036e4eaaff87333e83c81c0bca0359d4aeebcbcfd314c0630e0c2af68c1fb19cc470e",
            "ef219b37c24ae507a2b2b26d1add51b31fb5327eb8c3b19b882fe38049433dbeccd63b3d5b99ba2398920bcefb8aca98cd28a1ee5d2aaf139ce58a15d71b06b4",
            "c3d5087a62db0e5c6f5755c417f69037308cbce0e54519ea5be8171496cc6d18023ba15768153cfd74c7e7dc103227e9eed4b0f82233362b2a7b1a2cbcda9daf",
        ],
        last: "4aa7dad74eb51d09a6ae7735c4b795b078f51c314f14f42a0d63071e13bdc5fd9f51612e77b36d44567502a3b5eb66c609ec017e51d8df93e58d1a44f3c1e375",
    },
    Case {
        name: HashName::Sha512_224,
        seed: b"\x2e\x32\x5b\xf8\xc9\x8c\x0b\xe5\x44\x93\xd0\x4c\x32\x9e\x70\x63\x43\xae\xbe\x49\x68\xfd\xd3\x3b\x37\xda\x9c\x0a",
        first: [
            "9ee006873962aa0842d636c759646a4ef4b65bcbebcc35430b20f7f4",
            "87726eda4570734b396f4c253146ecb9770b8591739240f02a4f2a02",
            "7be0871653db5fa514b4ec1a0363df004657155575b0383bc9fdec35",
        ],
        last: "5d8fc89761e82efe7188596a52eb43efd9492038bbc47bc0df5e9843",
    },
    Case {
        name: HashName::Sha512_256,
        seed: b"\xf4\x1e\xce\x26\x13\xe4\x57\x39\x15\x69\x6b\x5a\xdc\xd5\x1c\xa3\x28\xbe\x3b\xf5\x66\xa9\xca\x99\xc9\xce\xb0\x27\x9c\x1c\xb0\xa7",
        first: [
            "b1d97a6536896aa01098fb2b9e15d8692621c84077051fc1f70a8a48baa6dfaf",
            "a008d2c5adce31a95b30397ac691d8606c6769a47b801441ba3afb7f727c8a9c",
            "8eb896cb2b309db019121eb72564b89c1a59f74d4e2f2f6773c87b98c1997d77",
        ],
        last: "1822ede971ca1407fbcb1dff487ea9d93d71d756cdf32945703de673f4b3d816",
    },
];

fn text_at(texts: &[String], place: usize) -> &str {
    match texts.get(place) {
        Some(text) => text,
        None => "",
    }
}

// Whether there is one text, and it is this.
fn is_alone(texts: &[String], wanted: &str) -> bool {
    texts.len() == 1 && text_at(texts, 0) == wanted
}

// The digests of "abc".
const DIGESTS: [(HashName, &str); 6] = [
    (
        HashName::Sha224,
        "23097d223405d8228642a477bda255b32aadbce4bda0b3f7e36c9da7",
    ),
    (
        HashName::Sha256,
        "ba7816bf8f01cfea414140de5dae2223b00361a396177a9cb410ff61f20015ad",
    ),
    (
        HashName::Sha384,
        "cb00753f45a35e8bb5a03d699ac65007272c32ab0eded1631a8b605a43ff5bed8086072ba1e7cc2358baeca134c825a7",
    ),
    (
        HashName::Sha512,
        "ddaf35a193617abacc417349ae20413112e6fa4e89a97ea20a9eeee64b55d39a2192992a274fc1a836ba3c23a3feebbd454d4423643ce80e2a9ac94fa54ca49f",
    ),
    (
        HashName::Sha512_224,
        "4634270f707b6a54daae7530460842e20e37ed265ceee9a43e8924aa",
    ),
    (
        HashName::Sha512_256,
        "53048e2681941ef99b2e29b76b4c7dabe4c2d0c634fc6d46e0e2f13107e7af23",
    ),
];

fn is_digest_of_abc(alloc: Global, name: HashName, digest: &str) -> Result<bool, AllocError> {
    let texts = digest_texts(alloc, name, b"abc")?;
    Ok(is_alone(&texts, digest))
}

#[test]
fn digests_of_abc_are_those_of_nists_examples(rt: HostRuntime) {
    for (name, digest) in DIGESTS.iter() {
        assert!(rt;
            is_digest_of_abc(rt.alloc(), *name, digest) == Ok(true),
            "{digest}"
        );
    }
}

// The 16 bytes are those of RFC 4231, section 4.6; the whole MAC is from Python's hmac.
const MACS: [(usize, &str); 3] = [
    (16, "a3b6167473100ee06e0c796c2955552b"),
    (
        32,
        "a3b6167473100ee06e0c796c2955552bfa6f7c0a6a8aef8b93f860aab0cd20c5",
    ),
    (0, ""),
];

fn is_mac_cut(alloc: Global, bytes: usize, mac: &str) -> Result<bool, AllocError> {
    if bytes > 32 {
        return Ok(false);
    }
    let texts = mac_texts(
        alloc,
        HashName::Sha256,
        &[0x0c; 20],
        b"Test With Truncation",
        bytes,
    )?;
    Ok(is_alone(&texts, mac))
}

#[test]
fn a_mac_is_cut_as_in_rfc_4231(rt: HostRuntime) {
    for (bytes, mac) in MACS.iter() {
        assert!(rt;
            is_mac_cut(rt.alloc(), *bytes, mac) == Ok(true),
            "{bytes} bytes"
        );
    }
}

// Whether there are a hundred checkpoints, those of the case among them.
fn are_checkpoints(texts: &[String], case: &Case) -> bool {
    texts.len() == 100
        && text_at(texts, 0) == case.first[0]
        && text_at(texts, 1) == case.first[1]
        && text_at(texts, 2) == case.first[2]
        && text_at(texts, 99) == case.last
}

fn is_monte_carlo(alloc: Global, case: &Case) -> Result<bool, AllocError> {
    let texts = monte_carlo_texts(alloc, case.name, case.seed)?;
    Ok(are_checkpoints(&texts, case))
}

#[test]
fn checkpoints_are_those_of_nist(rt: HostRuntime) {
    for case in CASES.iter() {
        assert!(rt;
            is_monte_carlo(rt.alloc(), case) == Ok(true),
            "{:?}",
            case.name
        );
    }
}

// Whether the texts are the first of these.
fn are_first(texts: &[String], wanted: &[&'static str]) -> bool {
    for (place, text) in texts.iter().enumerate() {
        if wanted.get(place).copied() != Some(text.as_str()) {
            return false;
        }
    }
    true
}

// Whether so many count give so many checkpoints of the case.
fn has_checkpoints(alloc: Global, case: &Case, count: usize) -> Result<bool, AllocError> {
    let texts = checkpoint_texts(alloc, case.name, case.seed, count)?;
    Ok(texts.len() == count && are_first(&texts, &case.first))
}

#[test]
fn as_many_checkpoints_as_asked(rt: HostRuntime) {
    let [case, ..] = &CASES;
    for count in 0..4 {
        assert!(rt;
            has_checkpoints(rt.alloc(), case, count) == Ok(true),
            "{count} count"
        );
    }
}
