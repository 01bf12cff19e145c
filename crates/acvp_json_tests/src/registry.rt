//! URLs and objects, by the forms that the protocol gives them; the texts of objects are as Python's `json` writes
//! them.

use crate::bodies::{nested, text_of};
use crate::lines::{cut, is_so, number};
use acvp_registry::{
    Kind, Object, RegFault, body_value, digits_number, object_url, plain_number, read_object,
    url_number, with_url,
};
use serde_json::{Value, put};
use std::alloc::Global;
use std::process::Abort;

/// A kind by its first letter.
fn kind_of(rt: &impl Abort, name: &str) -> Kind {
    match name.as_bytes().first() {
        Some(b'V') => Kind::Vendor,
        Some(b'M') => Kind::Module,
        Some(b'E') => Kind::Environment,
        Some(b'C') => Kind::Certification,
        _ => panic!(rt; "no kind"),
    }
}

/// A number, or nothing where a dash stands.
fn optional(rt: &impl Abort, word: &str) -> Option<u64> {
    if word == "-" {
        return None;
    }
    Some(number(rt, word))
}

/// URLs for a kind, and the numbers that they name, or a dash for none.
const URLS: &str = r#"Vendor /acvp/v1/vendors/7000001 7000001
Module /acvp/v1/modules/7000001 7000001
Environment /acvp/v1/oes/0 0
Vendor /acvp/v1/vendors/9999999999999999999 9999999999999999999
Vendor /acvp/v1/vendors/10000000000000000000 -
Vendor /acvp/v1/vendors/07000001 -
Vendor /acvp/v1/vendors/ -
Vendor /acvp/v1/vendors/+7 -
Vendor /acvp/v1/vendors/7/ -
Module /acvp/v1/vendors/7000001 -
Vendor https://localhost/acvp/v1/vendors/7 -
Certification /acvp/v1/requests/7000001 -
Certification 7000001 -
"#;

#[test]
fn urls_name_their_numbers(rt: HostRuntime) {
    for line in URLS.lines() {
        let (kind, rest) = cut(line);
        let (text, wanted) = cut(rest);
        let found = url_number(kind_of(&rt, kind), text);
        is_so(&rt, found == optional(&rt, wanted), line);
    }
}

#[test]
fn leading_zeros_are_for_codes_alone(rt: HostRuntime) {
    assert!(rt; digits_number(b"00000059") == Some(59));
    assert!(rt; plain_number(b"00000059").is_none());
    assert!(rt; plain_number(b"0") == Some(0));
}

/// The value that a text is.
fn value_of(rt: &impl Abort, alloc: Global, text: &str) -> Value {
    body_value(alloc, text.as_bytes())
        .ok()
        .expect(rt, "a value")
}

/// The word for why a value isn't kept, or for that it is.
fn word_of(fault: Option<RegFault>) -> &'static str {
    match fault {
        None => "none",
        Some(RegFault::Field) => "Field",
        Some(RegFault::NoReference) => "NoReference",
        Some(_) => "another fault",
    }
}

/// Why the value of a text isn't kept.
fn fault_in(rt: &impl Abort, alloc: Global, kind: Kind, text: &str) -> &'static str {
    let value = Value::from_str(alloc, text).ok().expect(rt, "a value");
    word_of(read_object(alloc, kind, &value).err())
}

/// Texts of a kind, each with its fault or none.
const JUDGED: &str = r#"none Vendor {"name":"V"}
none Vendor {"name":"V","vendorUrl":7}
none Environment {"name":"E","further":{"a":[1,-2]}}
Field Vendor {"name":""}
Field Vendor {"name":7}
Field Vendor {}
Field Vendor ["name"]
Field Vendor {"name":"V","n":[{"m":1.5}]}
Field Vendor {"name":"V","n":18446744073709551616}
Field Certification {"name":"C"}
none Module {"name":"M","vendorUrl":"/acvp/v1/vendors/7000001"}
Field Module {"name":"M"}
Field Module {"name":"M","vendorUrl":7000001}
Field Module {"vendorUrl":"7000001"}
NoReference Module {"name":"M","vendorUrl":"7000001"}
NoReference Module {"name":"M","vendorUrl":"/acvp/v1/oes/7000001"}
NoReference Module {"name":"M","vendorUrl":"/acvp/v1/vendors/07"}
"#;

#[test]
fn objects_are_judged(rt: HostRuntime) {
    for line in JUDGED.lines() {
        let (fault, rest) = cut(line);
        let (kind, text) = cut(rest);
        let found = fault_in(&rt, rt.alloc(), kind_of(&rt, kind), text);
        is_so(&rt, found == fault, line);
    }
}

/// Why a vendor with a name of so many letters isn't kept. With a name of no bytes the text has 11.
fn fault_of_long(rt: &impl Abort, alloc: Global, letters: usize) -> &'static str {
    let text = format!(in alloc; "{{\"name\":\"{:a<letters$}\"}}", "");
    let text = text.ok().expect(rt, "memory");
    fault_in(rt, alloc, Kind::Vendor, text.as_str())
}

#[test]
fn texts_have_at_most_16384_bytes(rt: HostRuntime) {
    assert!(rt; fault_of_long(&rt, rt.alloc(), 16373) == "none");
    assert!(rt; fault_of_long(&rt, rt.alloc(), 16374) == "Field");
}

/// A vendor whose member `n` is a value.
fn vendor_with(rt: &impl Abort, alloc: Global, value: Value) -> Value {
    match value_of(rt, alloc, r#"{"name":"V"}"#) {
        Value::Object(mut members) => {
            put(&mut members, alloc, "n", value)
                .ok()
                .expect(rt, "memory");
            Value::Object(members)
        }
        _ => panic!(rt; "no object"),
    }
}

/// Arrays of this number, one in another.
fn arrays_of(rt: &impl Abort, alloc: Global, arrays: u64) -> Value {
    value_of(rt, alloc, nested(rt, alloc, arrays).as_str())
}

/// Why a vendor that holds so many arrays, one in another, isn't kept.
fn fault_of_nested(rt: &impl Abort, alloc: Global, arrays: u64) -> &'static str {
    let vendor = vendor_with(rt, alloc, arrays_of(rt, alloc, arrays));
    word_of(read_object(alloc, Kind::Vendor, &vendor).err())
}

#[test]
fn objects_nest_at_most_127_deep(rt: HostRuntime) {
    assert!(rt; fault_of_nested(&rt, rt.alloc(), 126) == "none");
    assert!(rt; fault_of_nested(&rt, rt.alloc(), 127) == "Field");
}

/// Whether an object has this kind, this name, this vendor, and the text of a value.
fn has_parts(object: &Object, kind: Kind, (name, vendor): (&str, Option<u64>), text: &str) -> bool {
    object.kind() == kind
        && object.name() == name
        && object.vendor() == vendor
        && object.text() == text
}

/// Whether an object is this text with the URL of a number.
fn is_with_url(rt: &impl Abort, alloc: Global, object: &Object, number: u64, wanted: &str) -> bool {
    let value = with_url(alloc, object, number).ok().expect(rt, "memory");
    text_of(rt, alloc, &value).as_str() == wanted
}

/// The copy of an object.
fn copied(rt: &impl Abort, object: &Object) -> Object {
    object.clone().ok().expect(rt, "memory")
}

/// What a text is kept as, and the text of its value.
fn kept(rt: &impl Abort, alloc: Global, kind: Kind, text: &str) -> (Object, String) {
    let value = value_of(rt, alloc, text);
    let object = read_object(alloc, kind, &value)
        .ok()
        .expect(rt, "an object");
    (object, text_of(rt, alloc, &value))
}

/// That a text of a kind is kept with these parts, and gets the URL of a number.
fn gets_its_url(
    rt: &impl Abort,
    alloc: Global,
    (kind, parts, number): (Kind, (&str, Option<u64>), u64),
    texts: &str,
) {
    let (text, wanted) = texts.split_once(" = ").expect(rt, "two texts");
    let (object, text) = kept(rt, alloc, kind, text);
    assert!(rt; is_with_url(rt, alloc, &object, number, wanted));
    assert!(rt; has_parts(&copied(rt, &object), kind, parts, text.as_str()));
}

/// What a line of `WITH_URLS` says.
fn is_kept(rt: &impl Abort, alloc: Global, line: &str) {
    let (kind, rest) = cut(line);
    let (name, rest) = cut(rest);
    let (vendor, rest) = cut(rest);
    let (of, texts) = cut(rest);
    let parts = (name, optional(rt, vendor));
    let of = (kind_of(rt, kind), parts, number(rt, of));
    gets_its_url(rt, alloc, of, texts);
}

/// Objects of a kind, with their name, their vendor or a dash, a number, and the text with its URL.
const WITH_URLS: &str =
    r#"Vendor Vendör - 7000001 {"website":"https:\/\/vendor.example","url":"/acvp/v1/vendors/1","name":"Vend\u00f6r","further":{"b":[1,-2,true,null],"a":"x\ty"},"emails":["a@b.example"]} = {"emails":["a@b.example"],"further":{"a":"x\ty","b":[1,-2,true,null]},"name":"Vendör","url":"/acvp/v1/vendors/7000001","website":"https://vendor.example"}
Module M 7000001 18446744073709551615 {"vendorUrl":"/acvp/v1/vendors/7000001","type":"Software","name":"M","zone":9} = {"name":"M","type":"Software","url":"/acvp/v1/modules/18446744073709551615","vendorUrl":"/acvp/v1/vendors/7000001","zone":9}
Environment E - 0 {"vendorUrl":"/acvp/v1/vendors/7000001","name":"E"} = {"name":"E","url":"/acvp/v1/oes/0","vendorUrl":"/acvp/v1/vendors/7000001"}
"#;

#[test]
fn objects_get_their_urls(rt: HostRuntime) {
    for line in WITH_URLS.lines() {
        is_kept(&rt, rt.alloc(), line);
    }
    let certified = object_url(rt.alloc(), Kind::Certification, 7);
    assert!(rt; certified.is_ok_and(|url| url.is_none()));
}
