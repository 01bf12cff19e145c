//! The replies on what is registered, on requests, and the pages of lists. Their texts are those of Python's `json`,
//! with sorted members, and the links of pages are reckoned in Python.

use crate::shown::{is, page};
use acvp_json::{Registered, ReplyObject};
use acvp_registry::{Kind, Object, PendingRequest, Status, read_object};
use serde_json::Value;
use std::alloc::Global;
use std::process::Abort;

const VENDOR: &str = r#"{"name":"Acme"}"#;

const MODULE: &str =
    r#"{"version":"1","vendorUrl":"/acvp/v1/vendors/7000001","type":"Software","name":"M"}"#;

const ENVIRONMENT: &str = r#"{"name":"E","description":"x86"}"#;

/// A vendor with more than its name: members in no order, escapes, numbers at their limits, and a `url`.
const FURTHER: &str =
    r#"{"zone":{"b":[1,-2,true,null],"ab":{},"a":18446744073709551615},"url":"/acvp/v1/vendors/1","name":"A \"b\" \\ \u0001\n\t\u00e9\/","Zone":"","website":"https:\/\/vendor.example"}"#;

/// What is kept of a text.
fn kept(rt: &impl Abort, alloc: Global, kind: Kind, text: &str) -> Object {
    let value = Value::from_str(alloc, text).ok().expect(rt, "a value");
    read_object(alloc, kind, &value)
        .ok()
        .expect(rt, "an object")
}

/// That the object of a text is written, under its number, as this text.
fn is_object(rt: &impl Abort, alloc: Global, kind: Kind, text: &str, number: u64, wanted: &str) {
    let object = kept(rt, alloc, kind, text);
    let object = Registered {
        number,
        object: &object,
    };
    is(rt, alloc, &ReplyObject::ReadObject { object }, wanted);
}

#[test]
fn an_object_is_shown_whole_with_its_own_url(rt: HostRuntime) {
    let alloc = rt.alloc();
    is_object(
        &rt,
        alloc,
        Kind::Vendor,
        VENDOR,
        7000001,
        r#"[{"acvVersion":"1.0"},{"name":"Acme","url":"/acvp/v1/vendors/7000001"}]"#,
    );
    is_object(
        &rt,
        alloc,
        Kind::Vendor,
        FURTHER,
        7000002,
        r#"[{"acvVersion":"1.0"},{"Zone":"","name":"A \"b\" \\ \u0001\n\té/","url":"/acvp/v1/vendors/7000002","website":"https://vendor.example","zone":{"a":18446744073709551615,"ab":{},"b":[1,-2,true,null]}}]"#,
    );
    is_object(
        &rt,
        alloc,
        Kind::Module,
        MODULE,
        7000001,
        r#"[{"acvVersion":"1.0"},{"name":"M","type":"Software","url":"/acvp/v1/modules/7000001","vendorUrl":"/acvp/v1/vendors/7000001","version":"1"}]"#,
    );
    is_object(
        &rt,
        alloc,
        Kind::Environment,
        ENVIRONMENT,
        7000003,
        r#"[{"acvVersion":"1.0"},{"description":"x86","name":"E","url":"/acvp/v1/oes/7000003"}]"#,
    );
}

/// That one object, under one number or two, is written on a page as this text.
fn are_rows<'a>(
    rt: &impl Abort,
    alloc: Global,
    (kind, object): (Kind, &'a Object),
    (offset, limit, total): (u64, u64, u64),
    numbers: &[u64],
    wanted: &str,
) {
    let number = *numbers.first().expect(rt, "a number");
    let other = *numbers.last().expect(rt, "a number");
    let rows = [
        Registered { number, object },
        Registered {
            number: other,
            object,
        },
    ];
    let reply = ReplyObject::ListObjects {
        kind,
        page: page(offset, limit),
        total,
        objects: rows.get(..numbers.len()).expect(rt, "rows"),
    };
    is(rt, alloc, &reply, wanted);
}

/// That the object of a text is.
fn are_objects(
    rt: &impl Abort,
    alloc: Global,
    (kind, text): (Kind, &str),
    of_page: (u64, u64, u64),
    numbers: &[u64],
    wanted: &str,
) {
    let object = kept(rt, alloc, kind, text);
    are_rows(rt, alloc, (kind, &object), of_page, numbers, wanted);
}

#[test]
fn lists_of_objects_are_shown_by_pages(rt: HostRuntime) {
    let alloc = rt.alloc();
    are_objects(
        &rt,
        alloc,
        (Kind::Vendor, VENDOR),
        (0, 1, 1),
        &[7000001],
        r#"[{"acvVersion":"1.0"},{"data":[{"name":"Acme","url":"/acvp/v1/vendors/7000001"}],"incomplete":false,"links":{"first":"/acvp/v1/vendors?offset=0&limit=1","last":"/acvp/v1/vendors?offset=0&limit=1","next":null,"prev":null},"totalCount":1}]"#,
    );
    are_objects(
        &rt,
        alloc,
        (Kind::Vendor, VENDOR),
        (1, 2, 4),
        &[7000002, 7000003],
        r#"[{"acvVersion":"1.0"},{"data":[{"name":"Acme","url":"/acvp/v1/vendors/7000002"},{"name":"Acme","url":"/acvp/v1/vendors/7000003"}],"incomplete":true,"links":{"first":"/acvp/v1/vendors?offset=0&limit=2","last":"/acvp/v1/vendors?offset=2&limit=2","next":"/acvp/v1/vendors?offset=3&limit=2","prev":"/acvp/v1/vendors?offset=0&limit=2"},"totalCount":4}]"#,
    );
    are_objects(
        &rt,
        alloc,
        (Kind::Module, MODULE),
        (0, 20, 1),
        &[7000001],
        r#"[{"acvVersion":"1.0"},{"data":[{"name":"M","type":"Software","url":"/acvp/v1/modules/7000001","vendorUrl":"/acvp/v1/vendors/7000001","version":"1"}],"incomplete":false,"links":{"first":"/acvp/v1/modules?offset=0&limit=20","last":"/acvp/v1/modules?offset=0&limit=20","next":null,"prev":null},"totalCount":1}]"#,
    );
    are_objects(
        &rt,
        alloc,
        (Kind::Environment, ENVIRONMENT),
        (2, 1, 4),
        &[7000003],
        r#"[{"acvVersion":"1.0"},{"data":[{"description":"x86","name":"E","url":"/acvp/v1/oes/7000003"}],"incomplete":true,"links":{"first":"/acvp/v1/oes?offset=0&limit=1","last":"/acvp/v1/oes?offset=3&limit=1","next":"/acvp/v1/oes?offset=3&limit=1","prev":"/acvp/v1/oes?offset=1&limit=1"},"totalCount":4}]"#,
    );
}

fn request(number: u64, kind: Kind, status: Status, approved: Option<u64>) -> PendingRequest {
    PendingRequest {
        number,
        kind,
        status,
        approved,
    }
}

/// That a request is written as this text.
fn is_request(rt: &impl Abort, alloc: Global, request: PendingRequest, wanted: &str) {
    is(rt, alloc, &ReplyObject::Request { request }, wanted);
}

#[test]
fn only_an_approved_request_names_what_it_led_to(rt: HostRuntime) {
    let alloc = rt.alloc();
    is_request(
        &rt,
        alloc,
        request(7000001, Kind::Vendor, Status::Initial, None),
        r#"[{"acvVersion":"1.0"},{"status":"initial","url":"/acvp/v1/requests/7000001"}]"#,
    );
    is_request(
        &rt,
        alloc,
        request(7000001, Kind::Vendor, Status::Approved, Some(7000001)),
        r#"[{"acvVersion":"1.0"},{"approvedUrl":"/acvp/v1/vendors/7000001","status":"approved","url":"/acvp/v1/requests/7000001"}]"#,
    );
    is_request(
        &rt,
        alloc,
        request(7000002, Kind::Module, Status::Approved, Some(7000001)),
        r#"[{"acvVersion":"1.0"},{"approvedUrl":"/acvp/v1/modules/7000001","status":"approved","url":"/acvp/v1/requests/7000002"}]"#,
    );
    is_request(
        &rt,
        alloc,
        request(7000003, Kind::Environment, Status::Approved, Some(7000009)),
        r#"[{"acvVersion":"1.0"},{"approvedUrl":"/acvp/v1/oes/7000009","status":"approved","url":"/acvp/v1/requests/7000003"}]"#,
    );
    is_request(
        &rt,
        alloc,
        request(7000004, Kind::Certification, Status::Initial, None),
        r#"[{"acvVersion":"1.0"},{"status":"initial","url":"/acvp/v1/requests/7000004"}]"#,
    );
    is_request(
        &rt,
        alloc,
        request(7000004, Kind::Certification, Status::Initial, Some(7000001)),
        r#"[{"acvVersion":"1.0"},{"status":"initial","url":"/acvp/v1/requests/7000004"}]"#,
    );
    is_request(
        &rt,
        alloc,
        request(
            7000004,
            Kind::Certification,
            Status::Rejected,
            Some(7000001),
        ),
        r#"[{"acvVersion":"1.0"},{"status":"rejected","url":"/acvp/v1/requests/7000004"}]"#,
    );
    is_request(
        &rt,
        alloc,
        request(
            7000005,
            Kind::Certification,
            Status::Approved,
            Some(7000001),
        ),
        r#"[{"acvVersion":"1.0"},{"approvedUrl":"/acvp/v1/testSessions/7000001","status":"approved","url":"/acvp/v1/requests/7000005"}]"#,
    );
    is_request(
        &rt,
        alloc,
        request(7000006, Kind::Vendor, Status::Approved, None),
        r#"[{"acvVersion":"1.0"},{"status":"approved","url":"/acvp/v1/requests/7000006"}]"#,
    );
}

/// That requests on a page, with its offset, its limit and the total of the list, are written as this text.
fn are_requests(
    rt: &impl Abort,
    alloc: Global,
    (offset, limit, total): (u64, u64, u64),
    requests: &[PendingRequest],
    wanted: &str,
) {
    let reply = ReplyObject::ListRequests {
        page: page(offset, limit),
        total,
        requests,
    };
    is(rt, alloc, &reply, wanted);
}

#[test]
fn lists_of_requests_are_shown_by_pages(rt: HostRuntime) {
    let alloc = rt.alloc();
    are_requests(
        &rt,
        alloc,
        (0, 3, 5),
        &[
            request(7000001, Kind::Vendor, Status::Approved, Some(7000001)),
            request(7000002, Kind::Module, Status::Rejected, None),
            request(7000003, Kind::Environment, Status::Initial, None),
        ],
        r#"[{"acvVersion":"1.0"},{"data":[{"approvedUrl":"/acvp/v1/vendors/7000001","status":"approved","url":"/acvp/v1/requests/7000001"},{"status":"rejected","url":"/acvp/v1/requests/7000002"},{"status":"initial","url":"/acvp/v1/requests/7000003"}],"incomplete":true,"links":{"first":"/acvp/v1/requests?offset=0&limit=3","last":"/acvp/v1/requests?offset=3&limit=3","next":"/acvp/v1/requests?offset=3&limit=3","prev":null},"totalCount":5}]"#,
    );
    are_requests(
        &rt,
        alloc,
        (3, 3, 5),
        &[
            request(7000004, Kind::Certification, Status::Rejected, None),
            request(
                7000005,
                Kind::Certification,
                Status::Approved,
                Some(7000001),
            ),
        ],
        r#"[{"acvVersion":"1.0"},{"data":[{"status":"rejected","url":"/acvp/v1/requests/7000004"},{"approvedUrl":"/acvp/v1/testSessions/7000001","status":"approved","url":"/acvp/v1/requests/7000005"}],"incomplete":false,"links":{"first":"/acvp/v1/requests?offset=0&limit=3","last":"/acvp/v1/requests?offset=3&limit=3","next":null,"prev":"/acvp/v1/requests?offset=0&limit=3"},"totalCount":5}]"#,
    );
}

/// The links come of the page and the total, whatever the rows are: none are given.
#[test]
fn links_stay_within_the_list(rt: HostRuntime) {
    let alloc = rt.alloc();
    are_requests(
        &rt,
        alloc,
        (0, 20, 0),
        &[],
        r#"[{"acvVersion":"1.0"},{"data":[],"incomplete":false,"links":{"first":"/acvp/v1/requests?offset=0&limit=20","last":"/acvp/v1/requests?offset=0&limit=20","next":null,"prev":null},"totalCount":0}]"#,
    );
    are_requests(
        &rt,
        alloc,
        (50, 10, 3),
        &[],
        r#"[{"acvVersion":"1.0"},{"data":[],"incomplete":false,"links":{"first":"/acvp/v1/requests?offset=0&limit=10","last":"/acvp/v1/requests?offset=0&limit=10","next":null,"prev":"/acvp/v1/requests?offset=40&limit=10"},"totalCount":3}]"#,
    );
    are_requests(
        &rt,
        alloc,
        (1, 20, 3),
        &[],
        r#"[{"acvVersion":"1.0"},{"data":[],"incomplete":false,"links":{"first":"/acvp/v1/requests?offset=0&limit=20","last":"/acvp/v1/requests?offset=0&limit=20","next":null,"prev":"/acvp/v1/requests?offset=0&limit=20"},"totalCount":3}]"#,
    );
    are_requests(
        &rt,
        alloc,
        (3, 5, 9),
        &[],
        r#"[{"acvVersion":"1.0"},{"data":[],"incomplete":true,"links":{"first":"/acvp/v1/requests?offset=0&limit=5","last":"/acvp/v1/requests?offset=5&limit=5","next":"/acvp/v1/requests?offset=8&limit=5","prev":"/acvp/v1/requests?offset=0&limit=5"},"totalCount":9}]"#,
    );
    are_requests(
        &rt,
        alloc,
        (0, 100, 250),
        &[],
        r#"[{"acvVersion":"1.0"},{"data":[],"incomplete":true,"links":{"first":"/acvp/v1/requests?offset=0&limit=100","last":"/acvp/v1/requests?offset=200&limit=100","next":"/acvp/v1/requests?offset=100&limit=100","prev":null},"totalCount":250}]"#,
    );
    are_requests(
        &rt,
        alloc,
        (200, 100, 250),
        &[],
        r#"[{"acvVersion":"1.0"},{"data":[],"incomplete":false,"links":{"first":"/acvp/v1/requests?offset=0&limit=100","last":"/acvp/v1/requests?offset=200&limit=100","next":null,"prev":"/acvp/v1/requests?offset=100&limit=100"},"totalCount":250}]"#,
    );
    are_requests(
        &rt,
        alloc,
        (9999999999, 100, 3),
        &[],
        r#"[{"acvVersion":"1.0"},{"data":[],"incomplete":false,"links":{"first":"/acvp/v1/requests?offset=0&limit=100","last":"/acvp/v1/requests?offset=0&limit=100","next":null,"prev":"/acvp/v1/requests?offset=9999999899&limit=100"},"totalCount":3}]"#,
    );
    are_requests(
        &rt,
        alloc,
        (2, 2, 6),
        &[],
        r#"[{"acvVersion":"1.0"},{"data":[],"incomplete":true,"links":{"first":"/acvp/v1/requests?offset=0&limit=2","last":"/acvp/v1/requests?offset=4&limit=2","next":"/acvp/v1/requests?offset=4&limit=2","prev":"/acvp/v1/requests?offset=0&limit=2"},"totalCount":6}]"#,
    );
    are_requests(
        &rt,
        alloc,
        (4, 2, 6),
        &[],
        r#"[{"acvVersion":"1.0"},{"data":[],"incomplete":false,"links":{"first":"/acvp/v1/requests?offset=0&limit=2","last":"/acvp/v1/requests?offset=4&limit=2","next":null,"prev":"/acvp/v1/requests?offset=2&limit=2"},"totalCount":6}]"#,
    );
    are_requests(
        &rt,
        alloc,
        (0, 2, 2),
        &[],
        r#"[{"acvVersion":"1.0"},{"data":[],"incomplete":false,"links":{"first":"/acvp/v1/requests?offset=0&limit=2","last":"/acvp/v1/requests?offset=0&limit=2","next":null,"prev":null},"totalCount":2}]"#,
    );
    are_requests(
        &rt,
        alloc,
        (18446744073709551615, 100, 18446744073709551615),
        &[],
        r#"[{"acvVersion":"1.0"},{"data":[],"incomplete":false,"links":{"first":"/acvp/v1/requests?offset=0&limit=100","last":"/acvp/v1/requests?offset=18446744073709551600&limit=100","next":null,"prev":"/acvp/v1/requests?offset=18446744073709551515&limit=100"},"totalCount":18446744073709551615}]"#,
    );
}
