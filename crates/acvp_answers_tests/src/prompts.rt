//! Words and prompts against RFC 8439, appendix A.1, and against OpenSSL's `chacha20` with the counter and the nonce of
//! the same block, from whose output lengths and bytes were taken by the rules of the choice.

use acvp_caps::{Algorithm, CapFault, Capability};
use acvp_gen::{Group, GroupKind, Prompts, Seeds, Sizes, Test, prompts, word_bytes};
use std::alloc::Global;
use std::test::Fail;

const ZERO: [u8; 32] = [0; 32];

const RISING: [u8; 32] = [
    0, 1, 2, 3, 4, 5, 6, 7, 8, 9, 10, 11, 12, 13, 14, 15, 16, 17, 18, 19, 20, 21, 22, 23, 24, 25,
    26, 27, 28, 29, 30, 31,
];

#[test]
fn a_zero_seed_gives_the_published_key_stream(rt: HostRuntime) -> Result<(), Fail> {
    for (place, bytes) in [
        (0, [0x76, 0xb8, 0xe0, 0xad]),
        (1, [0xa0, 0xf1, 0x3d, 0x90]),
        (2, [0x40, 0x5d, 0x6a, 0xe5]),
        (6, [0xa8, 0x36, 0xef, 0xcc]),
        (16, [0x9f, 0x07, 0xe7, 0xbe]),
        (18, [0x98, 0xba, 0x97, 0x7c]),
    ] {
        assert_eq!(rt; word_bytes(&ZERO, 0, place), bytes);
    }
    Ok(())
}

#[test]
fn the_seed_and_the_vector_set_choose_the_stream(rt: HostRuntime) -> Result<(), Fail> {
    for (place, bytes) in [
        (0, [0x6c, 0x05, 0xe8, 0x98]),
        (3, [0x24, 0x47, 0x68, 0x05]),
        (16, [0x80, 0x29, 0x25, 0xd7]),
        (4294967295, [0xb9, 0x5c, 0xf4, 0xa9]),
    ] {
        assert_eq!(rt; word_bytes(&RISING, 700000101, place), bytes);
    }
    Ok(())
}

// The prompts of a capability's text.
fn prompts_of(
    alloc: Global,
    seed: &[u8; 32],
    vs: u64,
    capability: &str,
) -> Result<Prompts, CapFault> {
    let capability = Capability::from_text(alloc, capability)?;
    prompts(alloc, seed, vs, &capability).map_err(|_| CapFault::Memory)
}

fn test_at(prompts: &Prompts, group: usize, place: usize) -> Option<&Test> {
    prompts.groups().get(group)?.tests().get(place)
}

// Whether the test at a place of the first group has this message.
fn has_message(prompts: &Prompts, place: usize, message: &[u8]) -> bool {
    match test_at(prompts, 0, place) {
        Some(test) => test.message() == message,
        None => false,
    }
}

// Whether a test has this number, a message of so many bits, and no key.
fn has_length(test: &Test, number: u64, bits: u64) -> bool {
    test.number() == number
        && test.bits() == bits
        && test.message().len() as u64 == bits / 8
        && test.key().is_empty()
}

// Whether the first group's tests are numbered from 1 on, and have messages of so many bits.
fn has_lengths(prompts: &Prompts, lengths: &[u64]) -> bool {
    let Some(group) = prompts.groups().first() else {
        return false;
    };
    let mut number = 1u64;
    for (test, bits) in group.tests().iter().zip(lengths) {
        if !has_length(test, number, *bits) {
            return false;
        }
        number = number.wrapping_add(1);
    }
    group.number() == 1
        && group.kind() == GroupKind::Functional
        && group.sizes().is_none()
        && group.tests().len() == lengths.len()
}

const ONE_LENGTH: &str = r#"{"algorithm":"SHA2-256","revision":"1.0","messageLength":[8,8]}"#;

// The first three messages of one length, and the last two.
const OF_ONE_LENGTH: [([u8; 32], u64, [(usize, u8); 5]); 2] = [
    (
        ZERO,
        0,
        [(0, 0x9f), (1, 0x55), (2, 0x98), (15, 0x4b), (16, 0x2d)],
    ),
    (
        RISING,
        700000101,
        [(0, 0x80), (1, 0xa2), (2, 0x05), (15, 0xd8), (16, 0x4a)],
    ),
];

// Whether the messages at these places of the first group are these bytes.
fn has_bytes(prompts: &Prompts, bytes: &[(usize, u8)]) -> bool {
    for (place, byte) in bytes {
        if !has_message(prompts, *place, &[*byte]) {
            return false;
        }
    }
    true
}

#[test]
fn one_length_is_tested_seventeen_times(rt: HostRuntime) -> Result<(), Fail> {
    for (seed, vs, bytes) in OF_ONE_LENGTH.iter() {
        let prompts = prompts_of(rt.alloc(), seed, *vs, ONE_LENGTH)?;
        assert!(rt; prompts.vs() == *vs);
        assert!(rt; prompts.algorithm() == Algorithm::Sha2_256);
        assert!(rt; prompts.groups().len() == 1);
        assert!(rt; has_lengths(&prompts, &[8; 17]));
        assert!(rt; has_bytes(&prompts, bytes));
    }
    Ok(())
}

// Under a seed and a vector set's number: the bits of the first group's messages, and one more message.
#[derive(Drop)]
struct HashCase {
    seed: [u8; 32],
    vs: u64,
    lengths: &'static [u64],
    message: &'static [u8],
}

// Whether the second group, the last, has a Monte Carlo test alone, with this message of so many bits.
fn ends_with_monte_carlo(prompts: &Prompts, bits: u64, message: &[u8]) -> bool {
    let [_, group] = prompts.groups() else {
        return false;
    };
    let [test] = group.tests() else {
        return false;
    };
    group.number() == 2
        && group.kind() == GroupKind::MonteCarlo
        && group.sizes().is_none()
        && has_length(test, 25, bits)
        && test.message() == message
}

// Whether the prompts are those of the case, with a Monte Carlo test of so many bits.
fn has_monte_carlo(
    alloc: Global,
    capability: &str,
    case: &HashCase,
    bits: u64,
) -> Result<bool, CapFault> {
    let prompts = prompts_of(alloc, &case.seed, case.vs, capability)?;
    Ok(has_lengths(&prompts, case.lengths) && ends_with_monte_carlo(&prompts, bits, case.message))
}

const SHORT_BLOCKS: &str =
    r#"{"algorithm":"SHA2-256","revision":"1.0","messageLength":[{"min":0,"max":1024,"increment":8}]}"#;

const OF_SHORT_BLOCKS: [HashCase; 2] = [
    HashCase {
        seed: ZERO,
        vs: 0,
        lengths: &[
            0, 8, 440, 448, 504, 512, 520, 1024, 288, 480, 144, 976, 592, 816, 232, 304, 776, 792,
            416, 992, 368, 48, 568, 528,
        ],
        message: &[
            0x34, 0x3c, 0xf2, 0x6c, 0x9f, 0xaf, 0x84, 0x5e, 0x7a, 0x98, 0xcb, 0x1f, 0x2c, 0x93,
            0x06, 0xe8, 0x20, 0x01, 0x85, 0xd9, 0x5d, 0xe0, 0x59, 0xf8, 0x3a, 0xd1, 0x7c, 0x4b,
            0x97, 0xf8, 0xc6, 0x2c,
        ],
    },
    HashCase {
        seed: RISING,
        vs: 700000101,
        lengths: &[
            0, 8, 440, 448, 504, 512, 520, 1024, 544, 904, 624, 96, 760, 1016, 136, 592, 736, 376,
            808, 208, 968, 472, 296, 400,
        ],
        message: &[
            0xc6, 0x7b, 0x21, 0x96, 0x69, 0xfb, 0x05, 0xa6, 0xee, 0xe6, 0x11, 0x88, 0x46, 0xbd,
            0x1e, 0x2f, 0xff, 0x45, 0x7d, 0x95, 0xa1, 0xd8, 0x75, 0xc2, 0xe0, 0x96, 0x09, 0xa2,
            0x20, 0xcb, 0x0e, 0xdc,
        ],
    },
];

#[test]
fn edges_draws_and_a_monte_carlo_test_for_short_blocks(rt: HostRuntime) {
    for case in OF_SHORT_BLOCKS.iter() {
        assert!(rt; has_monte_carlo(rt.alloc(), SHORT_BLOCKS, case, 256) == Ok(true));
    }
}

const LONG_BLOCKS: &str =
    r#"{"algorithm":"SHA2-512","revision":"1.0","messageLength":[{"min":0,"max":2048,"increment":8}]}"#;

const OF_LONG_BLOCKS: [HashCase; 2] = [
    HashCase {
        seed: ZERO,
        vs: 0,
        lengths: &[
            0, 8, 888, 896, 1016, 1024, 1032, 2048, 1936, 744, 840, 784, 616, 1840, 1192, 728, 944,
            1456, 1952, 1952, 1888, 1040, 1096, 1312,
        ],
        message: &[
            0x11, 0xc6, 0xe6, 0xa9, 0x30, 0x2c, 0x14, 0x88, 0xf3, 0x69, 0x96, 0xc1, 0x70, 0x36,
            0x70, 0x78, 0x6c, 0x05, 0x32, 0x4f, 0x99, 0xd9, 0xd2, 0xcd, 0xa1, 0x62, 0x4d, 0xb9,
            0x5b, 0x8e, 0xab, 0x6f, 0x7e, 0x10, 0xac, 0x5b, 0xc9, 0x85, 0xd6, 0x53, 0x6c, 0xf6,
            0x67, 0x30, 0x7a, 0x57, 0x7a, 0x25, 0x55, 0x88, 0x8b, 0xd9, 0x30, 0x2c, 0xfe, 0x70,
            0x4c, 0xf7, 0x2e, 0x59, 0xfd, 0x28, 0xb6, 0xda,
        ],
    },
    HashCase {
        seed: RISING,
        vs: 700000101,
        lengths: &[
            0, 8, 888, 896, 1016, 1024, 1032, 2048, 1464, 1440, 1480, 512, 1168, 1624, 1040, 1344,
            136, 1064, 88, 136, 712, 712, 904, 624,
        ],
        message: &[
            0x66, 0x73, 0x8a, 0x5a, 0x58, 0x76, 0x48, 0xbc, 0x6f, 0xf2, 0x9e, 0x83, 0x58, 0xd6,
            0xea, 0x78, 0x91, 0x9a, 0x13, 0x5b, 0x4c, 0x21, 0x54, 0x1b, 0xa3, 0x85, 0x15, 0x29,
            0x03, 0x94, 0x3f, 0x6b, 0x70, 0x1c, 0xc2, 0xd0, 0xae, 0x10, 0x31, 0xcd, 0x01, 0x11,
            0x1d, 0x13, 0xbd, 0x1d, 0x98, 0x67, 0xac, 0x6f, 0x66, 0x5a, 0xa1, 0x5c, 0xd9, 0xc4,
            0x9b, 0xdb, 0x77, 0xc2, 0x2d, 0x9e, 0xea, 0x3e,
        ],
    },
];

#[test]
fn edges_draws_and_a_monte_carlo_test_for_long_blocks(rt: HostRuntime) {
    for case in OF_LONG_BLOCKS.iter() {
        assert!(rt; has_monte_carlo(rt.alloc(), LONG_BLOCKS, case, 512) == Ok(true));
    }
}

const NOT_384: &str =
    r#"{"algorithm":"SHA2-384","revision":"1.0","messageLength":[{"min":16,"max":1024,"increment":8}]}"#;

const OF_NOT_384: [HashCase; 2] = [
    HashCase {
        seed: ZERO,
        vs: 0,
        lengths: &[
            16, 888, 896, 1016, 1024, 808, 64, 760, 256, 192, 608, 576, 944, 376, 176, 552, 672,
            72, 400, 24, 800,
        ],
        message: &[0xb7, 0xaf, 0x82],
    },
    HashCase {
        seed: RISING,
        vs: 700000101,
        lengths: &[
            16, 888, 896, 1016, 1024, 840, 864, 400, 1024, 88, 328, 840, 752, 536, 992, 248, 952,
            184, 328, 304, 632,
        ],
        message: &[
            0x48, 0xf3, 0xaa, 0x52, 0xf8, 0x4f, 0xf5, 0x6b, 0x8f, 0xf6, 0x06, 0xd3, 0x4b, 0xdd,
            0x90, 0x63, 0x09, 0x94, 0x91, 0x78, 0x64, 0x13, 0x59, 0xb8, 0xaa, 0x74, 0xcc, 0x4b,
            0x5e, 0x7d, 0x1f, 0xbe, 0xc6, 0x7b, 0x21, 0x96, 0x69, 0xfb,
        ],
    },
];

#[test]
fn no_monte_carlo_test_where_three_digests_are_no_member(rt: HostRuntime) -> Result<(), Fail> {
    for case in OF_NOT_384.iter() {
        let prompts = prompts_of(rt.alloc(), &case.seed, case.vs, NOT_384)?;
        assert!(rt; prompts.groups().len() == 1);
        assert!(rt; has_lengths(&prompts, case.lengths));
        assert!(rt; has_message(&prompts, 19, case.message));
    }
    Ok(())
}

// Whether a test has this number, a key of so many bits, and a message of 128 bits.
fn has_key(test: &Test, number: u64, key_bits: u64) -> bool {
    test.number() == number
        && test.bits() == 128
        && test.message().len() == 16
        && test.key().len() as u64 == key_bits / 8
}

// Whether a group's tests are three, numbered from this number on, with keys of so many bits.
fn has_three_keys(tests: &[Test], first: u64, key_bits: u64) -> bool {
    let [test, second, third] = tests else {
        return false;
    };
    has_key(test, first, key_bits)
        && has_key(second, first.wrapping_add(1), key_bits)
        && has_key(third, first.wrapping_add(2), key_bits)
}

fn has_group(group: &Group, first: u64, key_bits: u64, mac_bits: u64) -> bool {
    let sizes = Sizes {
        key_bits,
        message_bits: 128,
        mac_bits,
    };
    let bits = (group.key_bits(), group.message_bits(), group.mac_bits());
    group.kind() == GroupKind::Functional
        && group.number() == first / 3 + 1
        && group.sizes() == Some(sizes)
        && bits == (Some(key_bits), Some(128), Some(mac_bits))
        && has_three_keys(group.tests(), first, key_bits)
}

// Whether the groups are the pairs of these keys' and MACs' bits, each with three tests of messages of 128 bits,
// numbered in order.
fn has_sizes(prompts: &Prompts, keys: &[u64], macs: &[u64]) -> bool {
    let mut groups = prompts.groups().iter();
    let mut number = 1u64;
    for key_bits in keys {
        for mac_bits in macs {
            let Some(group) = groups.next() else {
                return false;
            };
            if !has_group(group, number, *key_bits, *mac_bits) {
                return false;
            }
            number = number.wrapping_add(3);
        }
    }
    groups.next().is_none()
}

// Under a seed and a vector set's number: the bits of the keys, and the first and the last test's key and message.
#[derive(Drop)]
struct HmacCase {
    seed: [u8; 32],
    vs: u64,
    keys: &'static [u64],
    first: (&'static [u8], &'static [u8]),
    last: (&'static [u8], &'static [u8]),
}

// Whether a test has this number, key and message.
fn is_test(test: Option<&Test>, number: u64, (key, message): (&[u8], &[u8])) -> bool {
    match test {
        Some(test) => test.number() == number && test.key() == key && test.message() == message,
        None => false,
    }
}

// A capability for HMAC with the bits of its results, and its last test's group, counted from 0, and number.
#[derive(Drop)]
struct Hmac {
    capability: &'static str,
    macs: &'static [u64],
    last_group: usize,
    last_number: u64,
}

// Whether the prompts are those of the case.
fn has_keys(alloc: Global, hmac: &Hmac, case: &HmacCase) -> Result<bool, CapFault> {
    let prompts = prompts_of(alloc, &case.seed, case.vs, hmac.capability)?;
    Ok(
        has_sizes(&prompts, case.keys, hmac.macs)
            && is_test(test_at(&prompts, 0, 0), 1, case.first)
            && is_test(
                test_at(&prompts, hmac.last_group, 2),
                hmac.last_number,
                case.last,
            ),
    )
}

const ONE_MAC_LENGTH: Hmac = Hmac {
    capability: r#"{"algorithm":"HMAC-SHA2-256","revision":"1.0","keyLen":[{"min":8,"max":1024,"increment":8}],"macLen":[128]}"#,
    macs: &[128],
    last_group: 6,
    last_number: 21,
};

const OF_ONE_MAC_LENGTH: [HmacCase; 2] = [
    HmacCase {
        seed: ZERO,
        vs: 0,
        keys: &[8, 504, 512, 520, 1024, 952, 264],
        first: (
            &[0x40],
            &[
                0x53, 0x86, 0xbd, 0x28, 0xbd, 0xd2, 0x19, 0xb8, 0xa0, 0x8d, 0xed, 0x1a, 0xa8, 0x36,
                0xef, 0xcc,
            ],
        ),
        last: (
            &[
                0x46, 0x3a, 0xc2, 0x62, 0x02, 0xc2, 0xb7, 0x2f, 0x9a, 0x7c, 0xf8, 0x3a, 0x91, 0x7a,
                0xd2, 0x61, 0x83, 0xf8, 0xe7, 0x4c, 0xd4, 0x18, 0xe3, 0xb6, 0x34, 0x59, 0xf7, 0xad,
                0x59, 0x84, 0x9e, 0xe4, 0x3c,
            ],
            &[
                0xbb, 0x63, 0xfc, 0xee, 0xc1, 0xab, 0xe8, 0xe9, 0xe0, 0xb6, 0x4b, 0x23, 0x3a, 0x43,
                0xaa, 0xc5,
            ],
        ),
    },
    HmacCase {
        seed: RISING,
        vs: 700000101,
        keys: &[8, 504, 512, 520, 1024, 872, 192],
        first: (
            &[0x32],
            &[
                0x24, 0x47, 0x68, 0x05, 0xee, 0x95, 0x2d, 0xf5, 0xb7, 0x1f, 0xa5, 0x72, 0x10, 0xef,
                0xa9, 0x49,
            ],
        ),
        last: (
            &[
                0x72, 0x56, 0xd7, 0x75, 0x0d, 0x19, 0xce, 0xeb, 0x54, 0x49, 0x56, 0x4f, 0xbd, 0x7f,
                0xa2, 0xb0, 0x7c, 0x7c, 0x18, 0x52, 0xdb, 0xad, 0x22, 0xb1,
            ],
            &[
                0x81, 0xd8, 0x9f, 0xd3, 0x1b, 0xaa, 0xf9, 0x0e, 0x88, 0x66, 0x90, 0xf1, 0x8e, 0x9f,
                0xf3, 0x31,
            ],
        ),
    },
];

#[test]
fn keys_of_one_mac_length(rt: HostRuntime) {
    for case in OF_ONE_MAC_LENGTH.iter() {
        assert!(rt; has_keys(rt.alloc(), &ONE_MAC_LENGTH, case) == Ok(true));
    }
}

const TWO_MAC_LENGTHS: Hmac = Hmac {
    capability: r#"{"algorithm":"HMAC-SHA2-256","revision":"1.0","keyLen":[{"min":8,"max":1024,"increment":8}],"macLen":[32,256]}"#,
    macs: &[32, 256],
    last_group: 13,
    last_number: 42,
};

const OF_TWO_MAC_LENGTHS: [HmacCase; 2] = [
    HmacCase {
        seed: ZERO,
        vs: 0,
        keys: &[8, 504, 512, 520, 1024, 952, 264],
        first: (
            &[0x40],
            &[
                0x53, 0x86, 0xbd, 0x28, 0xbd, 0xd2, 0x19, 0xb8, 0xa0, 0x8d, 0xed, 0x1a, 0xa8, 0x36,
                0xef, 0xcc,
            ],
        ),
        last: (
            &[
                0x5b, 0x8e, 0xab, 0x6f, 0x7e, 0x10, 0xac, 0x5b, 0xc9, 0x85, 0xd6, 0x53, 0x6c, 0xf6,
                0x67, 0x30, 0x7a, 0x57, 0x7a, 0x25, 0x55, 0x88, 0x8b, 0xd9, 0x30, 0x2c, 0xfe, 0x70,
                0x4c, 0xf7, 0x2e, 0x59, 0xfd,
            ],
            &[
                0xea, 0x34, 0x3a, 0x83, 0x53, 0x1a, 0x10, 0xa7, 0x32, 0xd6, 0x5c, 0xe9, 0x3f, 0x52,
                0x3a, 0x03,
            ],
        ),
    },
    HmacCase {
        seed: RISING,
        vs: 700000101,
        keys: &[8, 504, 512, 520, 1024, 872, 192],
        first: (
            &[0x32],
            &[
                0x24, 0x47, 0x68, 0x05, 0xee, 0x95, 0x2d, 0xf5, 0xb7, 0x1f, 0xa5, 0x72, 0x10, 0xef,
                0xa9, 0x49,
            ],
        ),
        last: (
            &[
                0x27, 0xd5, 0xee, 0xd3, 0xe1, 0x2e, 0x59, 0x9e, 0x98, 0x03, 0x1d, 0xb1, 0x4a, 0x3b,
                0xaa, 0x8c, 0xa0, 0xf2, 0x02, 0xa6, 0x76, 0x9d, 0xd2, 0x04,
            ],
            &[
                0x59, 0x1b, 0xe8, 0x3b, 0x50, 0xc4, 0x17, 0xb8, 0x8f, 0x3c, 0xbb, 0x4e, 0x2f, 0x82,
                0xf8, 0xe3,
            ],
        ),
    },
];

#[test]
fn keys_with_the_least_and_the_greatest_mac_length(rt: HostRuntime) {
    for case in OF_TWO_MAC_LENGTHS.iter() {
        assert!(rt; has_keys(rt.alloc(), &TWO_MAC_LENGTHS, case) == Ok(true));
    }
}

const LONG_BLOCK: Hmac = Hmac {
    capability: r#"{"algorithm":"HMAC-SHA2-512/256","revision":"1.0","keyLen":[{"min":8,"max":2048,"increment":8}],"macLen":[{"min":32,"max":256,"increment":8}]}"#,
    macs: &[32, 256],
    last_group: 13,
    last_number: 42,
};

const AROUND_A_LONG_BLOCK: [HmacCase; 2] = [
    HmacCase {
        seed: ZERO,
        vs: 0,
        keys: &[8, 1016, 1024, 1032, 2048, 952, 1288],
        first: (
            &[0x40],
            &[
                0x53, 0x86, 0xbd, 0x28, 0xbd, 0xd2, 0x19, 0xb8, 0xa0, 0x8d, 0xed, 0x1a, 0xa8, 0x36,
                0xef, 0xcc,
            ],
        ),
        last: (
            &[
                0x5e, 0x07, 0xf0, 0xc2, 0x24, 0xa7, 0x49, 0xaa, 0x57, 0xf1, 0xf2, 0x96, 0x08, 0x45,
                0x70, 0x5d, 0xfa, 0x1d, 0x55, 0x2c, 0x51, 0x4e, 0xde, 0x74, 0x70, 0x0a, 0x3e, 0x74,
                0x12, 0x85, 0x23, 0x99, 0xc9, 0xfd, 0x28, 0xb5, 0xca, 0x4d, 0x6b, 0x53, 0x12, 0x8e,
                0xe4, 0x73, 0x85, 0x10, 0x85, 0x72, 0xf7, 0xe2, 0xcf, 0xe4, 0x8f, 0x53, 0x0d, 0x65,
                0x31, 0x93, 0xe1, 0x2d, 0xe0, 0x5e, 0xc8, 0xea, 0x31, 0xe9, 0xf0, 0x40, 0xb0, 0xe7,
                0xf9, 0xfa, 0xeb, 0x4a, 0xe6, 0x92, 0x8e, 0x63, 0x0e, 0xec, 0x7b, 0xb3, 0x3e, 0x21,
                0x3c, 0x3b, 0x8d, 0x0f, 0x7b, 0x26, 0x05, 0x0a, 0x7c, 0x1a, 0x3d, 0xaf, 0x7c, 0x81,
                0x95, 0x78, 0x14, 0x16, 0x52, 0x91, 0xd7, 0x6e, 0xa6, 0x4e, 0x9c, 0x1d, 0x2a, 0x61,
                0xbf, 0x28, 0x08, 0x1e, 0xaf, 0x4c, 0x29, 0xea, 0x55, 0x9d, 0x2e, 0xf5, 0x84, 0xf4,
                0xdc, 0x53, 0x46, 0xc5, 0x46, 0x8e, 0xab, 0xa1, 0x67, 0x16, 0xc7, 0x04, 0x0c, 0x9d,
                0x39, 0xa4, 0x63, 0x73, 0xef, 0x4c, 0x62, 0x20, 0x27, 0xe6, 0x7c, 0xc9, 0x71, 0xbe,
                0x8c, 0xcb, 0x6f, 0x47, 0x29, 0xfc, 0xbd,
            ],
            &[
                0xa7, 0x6b, 0x81, 0xa3, 0x96, 0xf3, 0xbe, 0xc9, 0x78, 0x3f, 0x0a, 0x25, 0x47, 0xe6,
                0x6d, 0xbc,
            ],
        ),
    },
    HmacCase {
        seed: RISING,
        vs: 700000101,
        keys: &[8, 1016, 1024, 1032, 2048, 872, 192],
        first: (
            &[0x32],
            &[
                0x24, 0x47, 0x68, 0x05, 0xee, 0x95, 0x2d, 0xf5, 0xb7, 0x1f, 0xa5, 0x72, 0x10, 0xef,
                0xa9, 0x49,
            ],
        ),
        last: (
            &[
                0xc3, 0x4e, 0x43, 0x48, 0xac, 0xbc, 0xef, 0x4d, 0xfd, 0x41, 0x38, 0xdf, 0x3d, 0xd7,
                0x37, 0x03, 0x71, 0x5d, 0xb3, 0x87, 0x50, 0xdb, 0xe7, 0x3b,
            ],
            &[
                0xb1, 0x4b, 0x0a, 0x16, 0x4d, 0x79, 0x4c, 0xac, 0x11, 0x9d, 0x9c, 0x7f, 0x19, 0xe1,
                0x07, 0xe4,
            ],
        ),
    },
];

#[test]
fn keys_around_a_long_block(rt: HostRuntime) {
    for case in AROUND_A_LONG_BLOCK.iter() {
        assert!(rt; has_keys(rt.alloc(), &LONG_BLOCK, case) == Ok(true));
    }
}

// The newest epoch of seeds, if they are taken.
fn newest_of(seeds: &[[u8; 32]]) -> Option<u64> {
    Some(Seeds::of(seeds)?.newest())
}

#[test]
fn from_one_to_sixteen_seeds_are_taken(rt: HostRuntime) {
    let seeds = [RISING; 17];
    assert_eq!(rt; newest_of(&seeds[..0]), None);
    assert_eq!(rt; newest_of(&seeds[..1]), Some(0));
    assert_eq!(rt; newest_of(&seeds[..2]), Some(1));
    assert_eq!(rt; newest_of(&seeds[..16]), Some(15));
    assert_eq!(rt; newest_of(&seeds), None);
}

#[test]
fn a_seed_is_found_by_its_epoch(rt: HostRuntime) -> Result<(), Fail> {
    let seeds = Seeds::of(&[ZERO, RISING]).ok_or("refused")?;
    assert_eq!(rt; seeds.get(0).copied(), Some(ZERO));
    assert_eq!(rt; seeds.get(1).copied(), Some(RISING));
    assert_eq!(rt; seeds.get(2).copied(), None);
    assert_eq!(rt; seeds.get(u64::MAX).copied(), None);
    Ok(())
}

// The seeds, the epoch that is taken, and the first three messages.
const OF_EPOCHS: [(&[[u8; 32]], u64, [(usize, u8); 3]); 3] = [
    (&[ZERO], 0, [(0, 0x9f), (1, 0x55), (2, 0x98)]),
    (&[ZERO, RISING], 0, [(0, 0x9f), (1, 0x55), (2, 0x98)]),
    (&[ZERO, RISING], 1, [(0, 0x18), (1, 0xad), (2, 0x13)]),
];

#[test]
fn a_newer_seed_leaves_the_prompts_of_earlier_epochs(rt: HostRuntime) -> Result<(), Fail> {
    for (seeds, epoch, first) in OF_EPOCHS.iter() {
        let seeds = Seeds::of(seeds).ok_or("refused")?;
        let seed = seeds.get(*epoch).ok_or("no such epoch")?;
        let prompts = prompts_of(rt.alloc(), seed, 0, ONE_LENGTH)?;
        assert!(rt; has_bytes(&prompts, first));
    }
    Ok(())
}
