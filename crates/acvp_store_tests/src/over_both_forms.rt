//! Each case over lists, and over a database in memory, whose tables lie in each of the two ways. What the cases leave
//! is told by statements that `acvp_store` doesn't have.

use crate::cases;
use crate::databases::{Deed, Way, in_memory};
use crate::earlier_schemas::THIRD_SCHEMA_BESIDE_THE_FIRST;
use crate::steps::takes;
use acvp_tables::ListTables;
use std::alloc::Global;
use std::process::Abort;

/// Takes the steps of a case over both forms. Statements then give what is stored in each database.
fn over_both(rt: &impl Abort, alloc: Global, steps: &'static str, stored: &'static str) {
    takes(rt, alloc, &mut ListTables::new(alloc), steps);
    in_memory(
        rt,
        alloc,
        &[],
        &[Deed::Takes(Way::Create, steps, ""), Deed::Gives(stored)],
    );
    in_memory(
        rt,
        alloc,
        THIRD_SCHEMA_BESIDE_THE_FIRST,
        &[Deed::Takes(Way::Adopt, steps, ""), Deed::Gives(stored)],
    );
}

/// What is left of three sessions of two accounts.
const THREE_SESSIONS: &str = "\
3 SELECT count(*) FROM session
6 SELECT count(*) FROM vset2
1 SELECT count(*) FROM session WHERE session = 9000001 AND account = 9 AND sample = 1 AND created = 60 AND cancelled = 0 AND certify IS NULL AND live = 2 AND passed = 0
1 SELECT count(*) FROM vset2 WHERE vs = 900000102 AND session = 9000001 AND cancelled = 0 AND epoch = 2
";

#[test]
fn sessions_of_two_accounts_are_numbered_apart(rt: HostRuntime) {
    over_both(
        &rt,
        rt.alloc(),
        cases::SESSIONS_OF_TWO_ACCOUNTS_ARE_NUMBERED_APART,
        THREE_SESSIONS,
    );
}

/// What is left of a session that was cancelled, whose first set has passed and whose second was cancelled.
const ANSWERED: &str =
    r#"1 SELECT count(*) FROM vset2 WHERE vs = 700000101 AND answers = '[[1,["ab"]]]' AND verdicts = 'p' AND disposition = 2
1 SELECT count(*) FROM vset2 WHERE vs = 700000101 AND session = 7000001 AND cancelled = 0 AND epoch = 2
1 SELECT count(*) FROM vset2 WHERE vs = 700000101 AND capability = '{"algorithm":"SHA2-256","messageLength":[8],"revision":"1.0"}'
1 SELECT count(*) FROM vset2 WHERE vs = 700000102 AND answers IS NULL AND verdicts IS NULL AND disposition IS NULL
1 SELECT count(*) FROM vset2 WHERE vs = 700000102 AND session = 7000001 AND cancelled = 1 AND epoch = 2
1 SELECT count(*) FROM session WHERE session = 7000001 AND cancelled = 1 AND live = 1 AND passed = 1
"#;

#[test]
fn the_last_answers_count_and_a_cancelled_set_does_not(rt: HostRuntime) {
    over_both(
        &rt,
        rt.alloc(),
        cases::THE_LAST_ANSWERS_COUNT_AND_A_CANCELLED_SET_DOES_NOT,
        ANSWERED,
    );
}

/// What is left of six requests, of which four were approved.
const DECIDED: &str = r#"4 SELECT count(*) FROM object
1 SELECT count(*) FROM object WHERE kind = 1 AND number = 7000004 AND account = 7 AND body = '{"name":"V"}'
6 SELECT count(*) FROM request
1 SELECT count(*) FROM request WHERE request = 7000001 AND kind = 1 AND status = 2 AND approved IS NULL
1 SELECT count(*) FROM request WHERE request = 7000005 AND kind = 1 AND status = 1 AND approved = 7000004
1 SELECT count(*) FROM request WHERE request = 7000006 AND account = 7 AND status = 0 AND approved IS NULL AND body = '{"name":"V"}'
"#;

#[test]
fn an_approved_request_becomes_an_object(rt: HostRuntime) {
    over_both(
        &rt,
        rt.alloc(),
        cases::AN_APPROVED_REQUEST_BECOMES_AN_OBJECT,
        DECIDED,
    );
}

/// What is left of a certification that was approved.
const CERTIFIED: &str = r#"0 SELECT count(*) FROM object
1 SELECT count(*) FROM request WHERE request = 7000001 AND account = 7 AND kind = 4 AND status = 1 AND approved = 7000001
1 SELECT count(*) FROM request WHERE body = '{"moduleUrl":"/acvp/v1/modules/7000009","oeUrl":"/acvp/v1/oes/7000005","session":7000001}'
1 SELECT count(*) FROM session WHERE session = 7000001 AND certify = 7000001
"#;

#[test]
fn a_certification_request_is_kept_with_its_session(rt: HostRuntime) {
    over_both(
        &rt,
        rt.alloc(),
        cases::A_CERTIFICATION_REQUEST_IS_KEPT_WITH_ITS_SESSION,
        CERTIFIED,
    );
}

/// What is left of an object of each kind.
const OF_EACH_KIND: &str = r#"3 SELECT count(*) FROM object
1 SELECT count(*) FROM object WHERE kind = 2 AND number = 7000001 AND body = '{"name":"M","vendorUrl":"/acvp/v1/vendors/7000001"}'
1 SELECT count(*) FROM object WHERE kind = 3 AND number = 7000001 AND account = 7 AND body = '{"name":"E"}'
1 SELECT count(*) FROM request WHERE request = 7000003 AND kind = 3 AND status = 1 AND approved = 7000001
"#;

#[test]
fn vendors_modules_and_environments_are_numbered_apart(rt: HostRuntime) {
    over_both(
        &rt,
        rt.alloc(),
        cases::VENDORS_MODULES_AND_ENVIRONMENTS_ARE_NUMBERED_APART,
        OF_EACH_KIND,
    );
}

/// What is left of three reviewers, one of whom was taken out.
const TWO_REVIEWERS: &str = "\
2 SELECT count(*) FROM reviewer
1 SELECT count(*) FROM reviewer WHERE session = 7000001 AND account = 8
1 SELECT count(*) FROM reviewer WHERE session = 7000001 AND account = 12
";

#[test]
fn reviewers_are_told_once_and_ascending(rt: HostRuntime) {
    over_both(
        &rt,
        rt.alloc(),
        cases::REVIEWERS_ARE_TOLD_ONCE_AND_ASCENDING,
        TWO_REVIEWERS,
    );
}

/// What is left of an account that was disabled.
const DISABLED: &str = "\
1 SELECT count(*) FROM account WHERE account = 7 AND enabled = 0 AND last_step = 58000000
1 SELECT count(*) FROM account WHERE secret = x'3131313131313131313131313131313131313131313131313131313131313131'
";

#[test]
fn a_used_step_and_a_disabled_account_are_kept(rt: HostRuntime) {
    over_both(
        &rt,
        rt.alloc(),
        cases::A_USED_STEP_AND_A_DISABLED_ACCOUNT_ARE_KEPT,
        DISABLED,
    );
}

#[test]
fn nothing_is_found_where_there_is_no_row(rt: HostRuntime) {
    over_both(
        &rt,
        rt.alloc(),
        cases::NOTHING_IS_FOUND_WHERE_THERE_IS_NO_ROW,
        "",
    );
}

#[test]
fn a_number_that_is_too_large_is_of_no_session(rt: HostRuntime) {
    over_both(
        &rt,
        rt.alloc(),
        cases::A_NUMBER_THAT_IS_TOO_LARGE_IS_OF_NO_SESSION,
        "",
    );
}
