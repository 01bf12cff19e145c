//! What any form of the tables reads and changes, by numbers worked by hand, as lines of steps (`steps.rt`).

/// Each account numbers its own sessions.
pub(crate) const SESSIONS_OF_TWO_ACCOUNTS_ARE_NUMBERED_APART: &str = "\
adds 7: made
adds 9: made
begins 7000001: made
begins 9000001: made
begins 7000002: made
counters 9000001: 2 0
counters 8000001: none
sets_of 7000002: 700000201 700000202
counts 7: 2 0 0 0 0
count Sessions 7: 2
count Sessions 9: 1
count Sessions 8: 0
count Requests 7: 0
sessions 7 0 1: 7000001
sessions 7 1 20: 7000002
sessions 8 0 20:
";

/// The last answers to a set count, and a cancelled set doesn't: a new session with new sets; answers to the first set
/// that fail, and others that pass; the second set is cancelled, and then the session.
pub(crate) const THE_LAST_ANSWERS_COUNT_AND_A_CANCELLED_SET_DOES_NOT: &str = "\
adds 7: made
begins 7000001: made
session 7000001: 7 sample 60 open
counters 7000001: 2 0
certified_by 7000001: -
greatest_epoch: 2
sets_of 7000001: 700000101 700000102
set 700000101: 7000001 2 open -
set 700000102: 7000001 2 open -
algorithm 700000101: Sha2_256
algorithm 700000102: Sha2_512
verdicts 700000101: none
fails 700000101 0: made
set 700000101: 7000001 2 open fail
counters 7000001: 2 0
passes 700000101 1: made
set 700000101: 7000001 2 open passed
counters 7000001: 2 1
verdicts 700000101: passed
cancels_second_set: made
counters 7000001: 1 1
sets_of 7000001: 700000101
set 700000102: 7000001 2 cancelled -
cancels_session: made
session 7000001: 7 sample 60 cancelled
";

/// An approved request becomes an object, and a rejected one doesn't: of six requests of account 7 for vendors the
/// first is rejected, the last stays open, and those between are approved. The greatest offset and limit of a page are
/// 18446744073709551615.
pub(crate) const AN_APPROVED_REQUEST_BECOMES_AN_OBJECT: &str = r#"adds 7: made
asks Vendor 7000001: made
asks Vendor 7000002: made
approves 7000002 7000001: made
asks Vendor 7000003: made
approves 7000003 7000002: made
asks Vendor 7000004: made
approves 7000004 7000003: made
asks Vendor 7000005: made
approves 7000005 7000004: made
asks Vendor 7000006: made
rejects 7000001: made
status 7000001: rejected
status 7000002: approved 7000001
status 7000006: initial
decision 7000001: rejected
decision 7000002: approved 7000001
decision 7000006: initial
subject 7000006: Vendor
requests 1 2: 7000002 7000003
requests 5 20: 7000006
object Vendor 7000004: {"name":"V"}
owner Vendor 7000004: 7
owner Vendor 7000005: none
owner Module 7000004: none
vendors 1 2: 7000002 7000003
vendors 4 2:
vendors 2 18446744073709551615: 7000003 7000004
vendors 18446744073709551615 1:
count Vendor 7: 4
count Module 7: 0
count Requests 7: 6
"#;

/// A session keeps the number of its last certification request, which registers nothing.
pub(crate) const A_CERTIFICATION_REQUEST_IS_KEPT_WITH_ITS_SESSION: &str = "\
adds 7: made
begins 7000001: made
certifies: made
certified_by 7000001: 7000001
status 7000001: initial
decision 7000001: initial
approves 7000001 7000001: made
status 7000001: approved 7000001
decision 7000001: approved 7000001
subject 7000001: 7000009 7000005 7000001
status 7000009: none
counts 7: 1 0 0 0 1
count Requests 7: 1
";

/// Each kind of object has numbers of its own.
pub(crate) const VENDORS_MODULES_AND_ENVIRONMENTS_ARE_NUMBERED_APART: &str = r#"adds 7: made
asks Vendor 7000001: made
approves 7000001 7000001: made
asks Module 7000002: made
approves 7000002 7000001: made
asks Environment 7000003: made
approves 7000003 7000001: made
counts 7: 0 1 1 1 3
count Module 7: 1
count Environment 7: 1
count Vendor 8: 0
object Module 7000001: {"name":"M","vendorUrl":"/acvp/v1/vendors/7000001"}
vendor_of 7000001: 7000001
object Environment 7000001: {"name":"E"}
owner Environment 7000002: none
"#;

/// A reviewer is told once, in ascending order.
pub(crate) const REVIEWERS_ARE_TOLD_ONCE_AND_ASCENDING: &str = "\
adds 7: made
begins 7000001: made
puts_in 9: made
puts_in 8: made
puts_in 9: made
puts_in 12: made
reviewers_of 7000001: 8 9 12
takes_out 9: made
takes_out 10: made
reviewers_of 7000001: 8 12
reviewer 7000001 9: none
reviewer 7000001 8: reviewer
reviewer 7000002 8: none
";

/// A used step is kept, and that an account is disabled.
pub(crate) const A_USED_STEP_AND_A_DISABLED_ACCOUNT_ARE_KEPT: &str = "\
adds 7: made
account 7: 7 secret enabled -
logs_in 7 58000000: made
disables 7: made
account 7: 7 secret disabled 58000000
account 8: none
";

/// Nothing is found where there is no row, and nothing changes there.
pub(crate) const NOTHING_IS_FOUND_WHERE_THERE_IS_NO_ROW: &str = "\
cancels_session: made
account 7: none
session 7000001: none
set 7000001: none
algorithm 7000001: none
verdicts 7000001: none
object Vendor 7000001: none
owner Vendor 7000001: none
status 7000001: none
decision 7000001: none
session 18446744073709551615: none
set 18446744073709551615: none
algorithm 18446744073709551615: none
verdicts 18446744073709551615: none
object Vendor 18446744073709551615: none
owner Vendor 18446744073709551615: none
status 18446744073709551615: none
decision 18446744073709551615: none
sessions 7 0 20:
vendors 0 20:
requests 0 20:
counts 7: 0 0 0 0 0
greatest_epoch: none
sets_of 7000001:
reviewers_of 7000001:
reviewer 7000001 9: none
";

/// A number that no column can keep is that of no session.
pub(crate) const A_NUMBER_THAT_IS_TOO_LARGE_IS_OF_NO_SESSION: &str = "\
reviewers_of 9223372036854775808:
reviewer 9223372036854775808 9: none
reviewers_of 9999999999999999999:
reviewer 9999999999999999999 9: none
";
