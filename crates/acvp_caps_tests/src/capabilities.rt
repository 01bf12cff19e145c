//! Names, domains and registrations, with values worked out by hand from the rules.
//!
//! Most cases are lines of text, since a check takes long over a table of constants, and no time over a text.

use acvp_caps::{
    Algorithm, CapFault, Capability, Domain, Domains, Registration, read_registration,
};
use acvp_mac::HashName;
use serde_json::Value;
use std::alloc::Global;
use std::process::Abort;

/// What stands before the first space of a text, and behind it.
fn cut(text: &str) -> (&str, &str) {
    match text.split_once(' ') {
        Some(parts) => parts,
        None => (text, ""),
    }
}

/// That what a line says is so.
fn is_so(rt: &impl Abort, holds: bool, line: &str) {
    assert!(rt; holds, "{line}");
}

/// The capability that a text is.
fn capability(rt: &impl Abort, alloc: Global, text: &str) -> Capability {
    match Capability::from_text(alloc, text) {
        Ok(capability) => capability,
        Err(_) => panic!(rt; "no capability: {text}"),
    }
}

/// An algorithm's number, name, hash function, bits of a block and of a digest, and whether it is HMAC.
type Described = (u64, &'static str, HashName, u64, u64, bool);

const DESCRIBED: [Described; 12] = [
    (1, "SHA2-224", HashName::Sha224, 512, 224, false),
    (2, "SHA2-256", HashName::Sha256, 512, 256, false),
    (3, "SHA2-384", HashName::Sha384, 1024, 384, false),
    (4, "SHA2-512", HashName::Sha512, 1024, 512, false),
    (5, "SHA2-512/224", HashName::Sha512_224, 1024, 224, false),
    (6, "SHA2-512/256", HashName::Sha512_256, 1024, 256, false),
    (7, "HMAC-SHA2-224", HashName::Sha224, 512, 224, true),
    (8, "HMAC-SHA2-256", HashName::Sha256, 512, 256, true),
    (9, "HMAC-SHA2-384", HashName::Sha384, 1024, 384, true),
    (10, "HMAC-SHA2-512", HashName::Sha512, 1024, 512, true),
    (
        11,
        "HMAC-SHA2-512/224",
        HashName::Sha512_224,
        1024,
        224,
        true,
    ),
    (
        12,
        "HMAC-SHA2-512/256",
        HashName::Sha512_256,
        1024,
        256,
        true,
    ),
];

fn described(algorithm: Algorithm) -> Described {
    (
        algorithm.number(),
        algorithm.name(),
        algorithm.hash(),
        algorithm.block_bits(),
        algorithm.digest_bits(),
        algorithm.is_hmac(),
    )
}

/// The algorithm of this number, where all stand in the order of their numbers from 1 on.
fn numbered(number: u64) -> Option<Algorithm> {
    let place = (number as usize).checked_sub(1)?;
    Algorithm::all().get(place).copied()
}

/// That an algorithm is what is wanted of it, and stands at its number.
fn is_described(rt: &impl Abort, wanted: &Described) {
    let (number, name, _, _, _, _) = *wanted;
    let found = Algorithm::from_name(name);
    is_so(rt, found == numbered(number), name);
    let algorithm = found.expect(rt, "an algorithm");
    is_so(rt, described(algorithm) == *wanted, name);
}

#[test]
fn the_algorithms_have_their_names(rt: HostRuntime) {
    for wanted in &DESCRIBED {
        is_described(&rt, wanted);
    }
    is_so(&rt, Algorithm::from_name("SHA-1").is_none(), "SHA-1");
    is_so(&rt, Algorithm::from_name("HMAC-").is_none(), "HMAC-");
}

/// Texts of capabilities, each behind its name.
const TEXTS: &str =
    r#"overlapping {"algorithm":"SHA2-256","revision":"1.0","messageLength":[{"min":0,"max":48,"increment":16},{"min":0,"max":48,"increment":24}]}
twice_the_same {"algorithm":"SHA2-256","revision":"1.0","messageLength":[8,8]}
end_unmet {"algorithm":"SHA2-256","revision":"1.0","messageLength":[{"min":0,"max":1020,"increment":8}]}
one_of_a_range {"algorithm":"SHA2-256","revision":"1.0","messageLength":[{"min":16,"max":18446744073709551615,"increment":18446744073709551608}]}
widest {"algorithm":"SHA2-256","revision":"1.0","messageLength":[{"min":0,"max":65536,"increment":8}]}
spread {"algorithm":"SHA2-256","messageLength":[{"increment":16,"max":48,"min":0}],"revision":"1.0"}
singles {"algorithm":"SHA2-256","messageLength":[48,0,16,32,16],"revision":"1.0"}
hmac {"algorithm":"HMAC-SHA2-256","keyLen":[32,64],"macLen":[64],"revision":"1.0"}
without_48 {"algorithm":"SHA2-256","revision":"1.0","messageLength":[0,16,32]}
with_64 {"algorithm":"SHA2-256","revision":"1.0","messageLength":[0,16,32,48,64]}
with_40 {"algorithm":"SHA2-256","revision":"1.0","messageLength":[0,16,40,48]}
eight {"algorithm":"SHA2-256","revision":"1.0","messageLength":[8]}
singles_of_224 {"algorithm":"SHA2-224","revision":"1.0","messageLength":[0,16,32,48]}
spread_of_224 {"algorithm":"SHA2-224","revision":"1.0","messageLength":[{"min":0,"max":48,"increment":16}]}
wider {"algorithm":"SHA2-256","revision":"1.0","messageLength":[{"min":0,"max":64,"increment":16}]}
other_key {"algorithm":"HMAC-SHA2-256","revision":"1.0","keyLen":[64],"macLen":[64]}
other_result {"algorithm":"HMAC-SHA2-256","revision":"1.0","keyLen":[32,64],"macLen":[32,64]}
other_both {"algorithm":"HMAC-SHA2-256","revision":"1.0","keyLen":[64],"macLen":[32,64]}
turned_round {"algorithm":"SHA2-256","revision":"1.0","messageLength":[0,32,16]}
key_twice {"algorithm":"HMAC-SHA2-256","revision":"1.0","keyLen":[32,64,64],"macLen":[64]}
result_twice {"algorithm":"HMAC-SHA2-256","revision":"1.0","keyLen":[32,64],"macLen":[64,64]}
written {"algorithm":"SHA2-256","messageLength":[{"increment":8,"max":1024,"min":0}],"revision":"1.0"}
written_otherwise {"algorithm":"SHA2-256","revision":"1.0","messageLength":[{"min":0,"max":1024,"increment":8}]}
written_hmac {"algorithm":"HMAC-SHA2-512/224","keyLen":[8,{"increment":64,"max":1000,"min":64}],"macLen":[32,224],"revision":"1.0"}
"#;

/// The text of a name.
fn text_of(rt: &impl Abort, name: &str) -> &'static str {
    for line in TEXTS.lines() {
        let (of, text) = cut(line);
        if of == name {
            return text;
        }
    }
    panic!(rt; "no text is named {name}")
}

/// The capability that the text of a name is.
fn named(rt: &impl Abort, alloc: Global, name: &str) -> Capability {
    capability(rt, alloc, text_of(rt, name))
}

/// A clone.
fn cloned(rt: &impl Abort, capability: &Capability) -> Capability {
    capability.clone().ok().expect(rt, "memory")
}

/// A clone of the capability that the text of a name is.
fn clone_of(rt: &impl Abort, alloc: Global, name: &str) -> Capability {
    cloned(rt, &named(rt, alloc, name))
}

/// The capability of a name, or behind the word `clone:` its clone.
fn capability_of(rt: &impl Abort, alloc: Global, word: &str) -> Capability {
    match word.strip_prefix("clone:") {
        Some(name) => clone_of(rt, alloc, name),
        None => named(rt, alloc, word),
    }
}

/// How many members a domain has, the least and the greatest, the member at a place, and whether the place's number is
/// a member; and how many lengths HMAC's result may have.
type Seen = (u64, u64, u64, Option<u64>, bool, u64);

/// The domain of a message or of a key, and how many lengths HMAC's result may have.
fn domain_of(capability: &Capability) -> (&Domain, u64) {
    match capability.domains() {
        Domains::Message(message) => (message, 0),
        Domains::KeyAndMac { key, mac } => (key, mac.count()),
    }
}

/// The member at a place, if there is one.
fn member_at(domain: &Domain, place: u64) -> Option<u64> {
    if place < domain.count() {
        Some(domain.member(place))
    } else {
        None
    }
}

/// What is seen of a capability at a place.
fn seen_of(capability: &Capability, place: u64) -> Seen {
    let (domain, macs) = domain_of(capability);
    (
        domain.count(),
        domain.least(),
        domain.greatest(),
        member_at(domain, place),
        domain.contains(place),
        macs,
    )
}

/// That this is seen of a text's capability at a place.
fn is_seen(rt: &impl Abort, alloc: Global, text: &str, place: u64, wanted: Seen) {
    let found = seen_of(&capability(rt, alloc, text), place);
    is_so(rt, found == wanted, text);
}

const MEMBERS: [(&str, u64, Seen); 8] = [
    ("overlapping", 0, (5, 0, 48, Some(0), true, 0)),
    ("overlapping", 1, (5, 0, 48, Some(16), false, 0)),
    ("overlapping", 2, (5, 0, 48, Some(24), false, 0)),
    ("overlapping", 3, (5, 0, 48, Some(32), false, 0)),
    ("overlapping", 4, (5, 0, 48, Some(48), false, 0)),
    ("overlapping", 8, (5, 0, 48, None, false, 0)),
    ("overlapping", 24, (5, 0, 48, None, true, 0)),
    ("twice_the_same", 0, (1, 8, 8, Some(8), false, 0)),
];

#[test]
fn a_domain_has_each_member_once(rt: HostRuntime) {
    for (name, place, wanted) in &MEMBERS {
        is_seen(&rt, rt.alloc(), text_of(&rt, name), *place, *wanted);
    }
}

#[test]
fn the_end_of_a_range_need_not_be_met(rt: HostRuntime) {
    let many = (128, 0, 1016, Some(0), true, 0);
    is_seen(&rt, rt.alloc(), text_of(&rt, "end_unmet"), 0, many);
    let one = (1, 16, 16, Some(16), false, 0);
    is_seen(&rt, rt.alloc(), text_of(&rt, "one_of_a_range"), 0, one);
}

/// Adds to a text.
fn push(rt: &impl Abort, text: &mut String, more: &str) {
    text.push_str(more).ok().expect(rt, "memory");
}

/// A text with an item so many times at its end, with commas between.
fn list_text(rt: &impl Abort, alloc: Global, parts: (&str, &str), count: u64) -> String {
    let (front, item) = parts;
    let mut text = String::new(alloc);
    push(rt, &mut text, front);
    push(rt, &mut text, item);
    for _ in 1..count {
        push(rt, &mut text, ",");
        push(rt, &mut text, item);
    }
    push(rt, &mut text, "]}");
    text
}

const WIDEST_KEY: (&str, &str) = (
    r#"{"algorithm":"HMAC-SHA2-512","revision":"1.0","macLen":[32],"keyLen":["#,
    r#"{"min":8,"max":524288,"increment":8}"#,
);

#[test]
fn the_widest_domains_are_counted(rt: HostRuntime) {
    let message = (8193, 0, 65536, Some(65536), true, 0);
    is_seen(&rt, rt.alloc(), text_of(&rt, "widest"), 8192, message);
    let key = (65536, 8, 524288, Some(524288), false, 1);
    let text = list_text(&rt, rt.alloc(), WIDEST_KEY, 32);
    is_seen(&rt, rt.alloc(), text.as_str(), 65535, key);
}

/// Whether two capabilities are the same, whether they are equal, or whether their domains are.
fn likeness(capability: &Capability, other: &Capability) -> &'static str {
    let are_equal = capability == other;
    let have_equal_domains = capability.domains() == other.domains();
    match (are_equal, have_equal_domains, capability.is_same(other)) {
        (true, true, true) => "is_same",
        (true, true, false) => "is_equal",
        (false, true, false) => "has_equal_domains",
        (false, false, false) => "is_unlike",
        _ => "is_at_odds",
    }
}

/// How a capability is like that of a word.
fn likeness_to(
    rt: &impl Abort,
    alloc: Global,
    capability: &Capability,
    other: &str,
) -> &'static str {
    likeness(capability, &capability_of(rt, alloc, other))
}

/// The same of its own clone.
fn likeness_to_clone(rt: &impl Abort, capability: &Capability) -> &'static str {
    likeness(capability, &cloned(rt, capability))
}

/// Whether a capability is written as the text of a name.
fn is_written(rt: &impl Abort, alloc: Global, capability: &Capability, name: &str) -> bool {
    let text = capability.to_text(alloc).ok().expect(rt, "memory");
    text.as_str() == text_of(rt, name)
}

/// Whether a capability is what a word, and another behind it, say of it.
fn is_what(rt: &impl Abort, alloc: Global, capability: &Capability, is: &str, what: &str) -> bool {
    match is {
        "is_written_as" => is_written(rt, alloc, capability, what),
        "is_not_written_as" => !is_written(rt, alloc, capability, what),
        "is_of" => capability.algorithm().name() == what,
        "is_cloned_as" => likeness_to_clone(rt, capability) == what,
        _ => likeness_to(rt, alloc, capability, what) == is,
    }
}

/// Whether what a line says is so.
fn is_said(rt: &impl Abort, alloc: Global, line: &str) -> bool {
    let (word, rest) = cut(line);
    let (is, what) = cut(rest);
    is_what(rt, alloc, &capability_of(rt, alloc, word), is, what)
}

/// That what each line says is so.
fn are_said(rt: &impl Abort, alloc: Global, lines: &str) {
    for line in lines.lines() {
        is_so(rt, is_said(rt, alloc, line), line);
    }
}

const BY_MEMBERS: &str = "\
spread is_equal singles
singles is_equal spread
spread is_unlike without_48
without_48 is_unlike spread
spread is_unlike with_64
with_64 is_unlike spread
spread is_unlike with_40
with_40 is_unlike spread
spread is_unlike eight
eight is_unlike spread
";

#[test]
fn capabilities_are_compared_by_their_members(rt: HostRuntime) {
    are_said(&rt, rt.alloc(), BY_MEMBERS);
}

const BY_ALGORITHMS: &str = "\
singles_of_224 has_equal_domains spread
spread has_equal_domains spread_of_224
spread is_unlike wider
spread is_unlike hmac
hmac is_unlike spread
";

#[test]
fn another_algorithm_or_domain_is_another_capability(rt: HostRuntime) {
    are_said(&rt, rt.alloc(), BY_ALGORITHMS);
}

const OF_HMAC: &str = "\
other_key is_unlike hmac
other_result is_unlike hmac
other_both is_unlike hmac
hmac is_unlike other_key
hmac is_unlike other_result
hmac is_unlike other_both
";

#[test]
fn capabilities_of_hmac_are_compared_by_both_domains(rt: HostRuntime) {
    are_said(&rt, rt.alloc(), OF_HMAC);
}

/// The same items, and then pairs whose first items are the same, and whose members are.
const BY_ITEMS: &str = "\
spread is_same spread
singles is_same singles
hmac is_same hmac
without_48 is_equal turned_round
hmac is_equal key_twice
hmac is_equal result_twice
clone:without_48 is_equal clone:turned_round
clone:hmac is_equal clone:key_twice
clone:hmac is_equal clone:result_twice
";

#[test]
fn only_the_same_items_give_the_same_capability(rt: HostRuntime) {
    are_said(&rt, rt.alloc(), BY_ITEMS);
}

const CLONES: &str = "\
spread is_cloned_as is_same
singles is_cloned_as is_same
hmac is_cloned_as is_same
clone:spread is_equal clone:singles
clone:spread is_written_as spread
clone:singles is_written_as singles
clone:written_hmac is_written_as written_hmac
clone:singles is_not_written_as spread
";

#[test]
fn a_clone_is_the_same_capability_and_keeps_its_items(rt: HostRuntime) {
    are_said(&rt, rt.alloc(), CLONES);
}

const READ_BACK: &str = "\
written is_written_as written
written is_of SHA2-256
written_hmac is_written_as written_hmac
written_hmac is_of HMAC-SHA2-512/224
written_otherwise is_written_as written
written_otherwise is_of SHA2-256
singles is_written_as singles
singles is_of SHA2-256
";

#[test]
fn a_capability_is_written_and_read_back(rt: HostRuntime) {
    are_said(&rt, rt.alloc(), READ_BACK);
}

/// The word for a fault.
fn word_of(fault: Option<CapFault>) -> &'static str {
    match fault {
        Some(CapFault::Field) => "Field",
        Some(CapFault::NotByteOriented) => "NotByteOriented",
        Some(CapFault::OutOfRange) => "OutOfRange",
        Some(CapFault::Unsupported) => "Unsupported",
        Some(CapFault::Memory) => "Memory",
        None => "none",
    }
}

/// Why a text is no capability.
fn fault_of(alloc: Global, text: &str) -> &'static str {
    word_of(Capability::from_text(alloc, text).err())
}

fn registration(alloc: Global, text: &str) -> Result<Registration, CapFault> {
    match Value::from_str(alloc, text) {
        Ok(value) => read_registration(alloc, &value),
        Err(_) => Err(CapFault::Memory),
    }
}

/// Why a text is no registration.
fn registration_fault(alloc: Global, text: &str) -> &'static str {
    word_of(registration(alloc, text).err())
}

/// Whether a registration is of samples, how many capabilities it has, how many are taken out of it, and the algorithms
/// of the first two.
type Registered = (bool, usize, usize, Option<Algorithm>, Option<Algorithm>);

/// The algorithm of the capability at a place.
fn algorithm_at(capabilities: &[Capability], place: usize) -> Option<Algorithm> {
    match capabilities.get(place) {
        Some(capability) => Some(capability.algorithm()),
        None => None,
    }
}

fn registered(read: Registration) -> Registered {
    let sample = read.sample();
    let count = read.capabilities().len();
    let taken = read.into_capabilities();
    (
        sample,
        count,
        taken.len(),
        algorithm_at(&taken, 0),
        algorithm_at(&taken, 1),
    )
}

/// That a text is read as this registration.
fn is_registered(rt: &impl Abort, alloc: Global, text: &str, wanted: Registered) {
    match registration(alloc, text) {
        Ok(read) => is_so(rt, registered(read) == wanted, text),
        Err(_) => panic!(rt; "no registration: {text}"),
    }
}

const TWO: &str =
    r#"{"isSample":true,"algorithms":[{"algorithm":"SHA2-256","revision":"1.0","performLargeDataTest":[],"prereqVals":7,"messageLength":[{"min":0,"max":1024,"increment":8}]},{"algorithm":"HMAC-SHA2-224","revision":"1.0","performLargeDataTest":[1],"keyLen":[524288],"macLen":[32,224]}]}"#;

const ONE: &str =
    r#"{"encryptAtRest":false,"algorithms":[{"algorithm":"SHA2-224","revision":"1.0","messageLength":[65536]}]}"#;

#[test]
fn a_registration_is_read(rt: HostRuntime) {
    let (first, second) = (Some(Algorithm::Sha2_256), Some(Algorithm::HmacSha2_224));
    is_registered(&rt, rt.alloc(), TWO, (true, 2, 2, first, second));
    let only = Some(Algorithm::Sha2_224);
    is_registered(&rt, rt.alloc(), ONE, (false, 1, 1, only, None));
}

/// That each line's text has its fault, as a registration or as a capability.
fn have_faults(rt: &impl Abort, alloc: Global, lines: &str, are_registrations: bool) {
    for line in lines.lines() {
        is_so(rt, has_fault(rt, alloc, line, are_registrations), line);
    }
}

/// Whether a line's text has its fault.
fn has_fault(rt: &impl Abort, alloc: Global, line: &str, is_registration: bool) -> bool {
    let (told, text) = line.split_once(" = ").expect(rt, "a fault and a text");
    let (fault, _) = cut(told);
    if is_registration {
        registration_fault(alloc, text) == fault
    } else {
        fault_of(alloc, text) == fault
    }
}

/// Faults that are told, each of what, and in what text.
const FAULTY_REGISTRATIONS: &str = r#"Field no object = []
Field no capabilities = {"algorithms":[]}
Field a sample that is no truth value = {"algorithms":[{}],"isSample":1,"encryptAtRest":true}
Field an encryption that is no truth value = {"algorithms":[{"algorithm":"SHA-1","revision":"1.0"}],"encryptAtRest":null}
Unsupported encryption at rest before a capability = {"algorithms":[{}],"encryptAtRest":true}
OutOfRange the first capability before the second = {"algorithms":[{"algorithm":"SHA2-256","revision":"1.0","messageLength":[65544]},{}]}
Unsupported the second capability = {"algorithms":[{"algorithm":"SHA2-256","revision":"1.0","messageLength":[8]},{"algorithm":"SHA-1","revision":"1.0"}]}
"#;

#[test]
fn the_first_fault_of_a_registration_is_told(rt: HostRuntime) {
    have_faults(&rt, rt.alloc(), FAULTY_REGISTRATIONS, true);
}

const FAULTY_CAPABILITIES: &str = r#"Field a bracket = [
Field half an object = {"algorithm":"SHA2-256"
Field a number = 7
Field no revision, before the algorithm = {"algorithm":"SHA-1"}
Unsupported another algorithm, before its options = {"algorithm":"SHA-1","revision":"1.0","performLargeDataTest":7}
Unsupported another revision, before the domain = {"algorithm":"SHA2-256","revision":"2.0"}
Field large messages that are no array, before the domain = {"algorithm":"SHA2-256","revision":"1.0","performLargeDataTest":7,"messageLength":[7]}
Unsupported large messages, before the domain = {"algorithm":"SHA2-256","revision":"1.0","performLargeDataTest":[1]}
Field the whole array's form, before bytes = {"algorithm":"SHA2-256","revision":"1.0","messageLength":[7,-8]}
Field an empty domain = {"algorithm":"SHA2-256","revision":"1.0","messageLength":[]}
Field a range that goes down = {"algorithm":"SHA2-256","revision":"1.0","messageLength":[{"min":16,"max":8,"increment":8}]}
Field a range that stands still = {"algorithm":"SHA2-256","revision":"1.0","messageLength":[{"min":8,"max":16,"increment":0}]}
NotByteOriented every number's bytes, before the limits = {"algorithm":"SHA2-256","revision":"1.0","messageLength":[65544,7]}
NotByteOriented steps of a bit = {"algorithm":"SHA2-256","revision":"1.0","messageLength":[{"min":0,"max":1024,"increment":1}]}
OutOfRange a message too long = {"algorithm":"SHA2-256","revision":"1.0","messageLength":[{"min":8,"max":65544,"increment":8}]}
OutOfRange the widest range that is written = {"algorithm":"SHA2-256","revision":"1.0","messageLength":[{"min":0,"max":18446744073709551615,"increment":8}]}
OutOfRange an empty key, before the absence of a result = {"algorithm":"HMAC-SHA2-256","revision":"1.0","keyLen":[0]}
Field no length of the key, before a bad result = {"algorithm":"HMAC-SHA2-256","revision":"1.0","macLen":[7]}
NotByteOriented a key of half bytes, before its limits = {"algorithm":"HMAC-SHA2-256","revision":"1.0","keyLen":[524296,12],"macLen":[7]}
OutOfRange a result too short = {"algorithm":"HMAC-SHA2-256","revision":"1.0","keyLen":[8],"macLen":[24]}
Field no length of the result = {"algorithm":"HMAC-SHA2-256","revision":"1.0","keyLen":[8]}
NotByteOriented a result of half bytes, before its limits = {"algorithm":"HMAC-SHA2-256","revision":"1.0","keyLen":[8],"macLen":[264,36]}
OutOfRange a result longer than the digest = {"algorithm":"HMAC-SHA2-256","revision":"1.0","keyLen":[8],"macLen":[264]}
"#;

#[test]
fn the_first_fault_of_a_capability_is_told(rt: HostRuntime) {
    have_faults(&rt, rt.alloc(), FAULTY_CAPABILITIES, false);
    is_so(&rt, fault_of(rt.alloc(), "") == "Field", "nothing");
}

const ITEMS: (&str, &str) = (
    r#"{"algorithm":"SHA2-256","revision":"1.0","messageLength":["#,
    "8",
);

const CAPABILITIES: (&str, &str) = (
    r#"{"algorithms":["#,
    r#"{"algorithm":"SHA2-256","revision":"1.0","messageLength":[8]}"#,
);

/// Whether a capability with so many items has this fault.
fn have_fault(rt: &impl Abort, alloc: Global, items: u64, fault: &str) -> bool {
    fault_of(alloc, list_text(rt, alloc, ITEMS, items).as_str()) == fault
}

/// Whether a registration of so many capabilities does.
fn registered_have_fault(rt: &impl Abort, alloc: Global, count: u64, fault: &str) -> bool {
    registration_fault(alloc, list_text(rt, alloc, CAPABILITIES, count).as_str()) == fault
}

#[test]
fn lists_end_at_their_limits(rt: HostRuntime) {
    let alloc = rt.alloc();
    is_so(&rt, have_fault(&rt, alloc, 32, "none"), "32 items");
    is_so(&rt, have_fault(&rt, alloc, 33, "Field"), "33 items");
    is_so(
        &rt,
        registered_have_fault(&rt, alloc, 20, "none"),
        "20 capabilities",
    );
    is_so(
        &rt,
        registered_have_fault(&rt, alloc, 21, "Field"),
        "21 capabilities",
    );
}
