//! A database of an earlier schema, made by statements, and what a migration makes of it, by numbers worked by hand.

use crate::databases::{Deed, Way, in_memory};
use crate::earlier_schemas::{
    FIRST_SCHEMA, OLD_ANSWERED, OLD_UNANSWERED, SECOND_SCHEMA, SECOND_SCHEMA_BESIDE_THE_FIRST,
};
use std::alloc::Global;
use std::process::Abort;

/// What statements give of a database that was migrated, whatever it was before.
const AFTER: &str = r#"3 SELECT value FROM meta WHERE name = 'schema'
1 SELECT COUNT(*) FROM meta
0 SELECT COUNT(*) FROM reviewer
2 SELECT COUNT(*) FROM vset2
2 SELECT COUNT(*) FROM vset2 WHERE session = 7000001 AND cancelled = 0
700000101 SELECT vs FROM vset2 WHERE answers = '[[1,["ab"]]]' AND verdicts = 'p' AND disposition = 2
700000102 SELECT vs FROM vset2 WHERE answers IS NULL AND verdicts IS NULL AND disposition IS NULL
5 SELECT last_step FROM account WHERE account = 7
"#;

/// The rows after a migration of a database, and after a second one, which changes nothing.
fn stays_migrated(rt: &impl Abort, alloc: Global, statements: &[&str], epochs: &'static str) {
    in_memory(
        rt,
        alloc,
        statements,
        &[
            Deed::Takes(Way::Migrate, "", ""),
            Deed::Gives(AFTER),
            Deed::Gives(epochs),
            Deed::Takes(Way::Migrate, "", ""),
            Deed::Gives(AFTER),
            Deed::Gives(epochs),
        ],
    );
}

/// The epochs of sets of schema 1.
const WITHOUT_EPOCHS: &str = "\
2 SELECT COUNT(*) FROM vset2 WHERE epoch = 0
0 SELECT COUNT(*) FROM vset
";

#[test]
fn schema_1_is_moved_with_epoch_0(rt: HostRuntime) {
    stays_migrated(&rt, rt.alloc(), FIRST_SCHEMA, WITHOUT_EPOCHS);
}

/// The epochs of sets of schema 2.
const WITH_EPOCHS: &str = "\
3 SELECT epoch FROM vset2 WHERE vs = 700000101
4 SELECT epoch FROM vset2 WHERE vs = 700000102
";

#[test]
fn schema_2_is_moved_with_its_epochs(rt: HostRuntime) {
    stays_migrated(&rt, rt.alloc(), SECOND_SCHEMA, WITH_EPOCHS);
    stays_migrated(&rt, rt.alloc(), SECOND_SCHEMA_BESIDE_THE_FIRST, WITH_EPOCHS);
}

/// What is read of the tables, by the rows that the statements put in.
const MOVED: &str = r#"set 700000101: 7000001 0 open passed
set 700000102: 7000001 0 open -
object Vendor 7000001: {"name":"V"}
"#;

#[test]
fn the_tables_that_were_moved_are_read_through_the_trait(rt: HostRuntime) {
    in_memory(
        &rt,
        rt.alloc(),
        FIRST_SCHEMA,
        &[Deed::Takes(Way::Migrate, MOVED, "")],
    );
}

/// A statement behind which a database names schema 2.
const NAMES_THE_SECOND: &str = "UPDATE meta SET value = 2";

/// What statements give of a database that names schema 2, and has sets of schema 1.
const OF_NEITHER: &str = "\
2 SELECT COUNT(*) FROM vset
2 SELECT value FROM meta
";

const OTHERWISE_NAMED: &[Deed] = &[
    Deed::Runs(NAMES_THE_SECOND),
    Deed::IsHandedBack(Way::Migrate),
    Deed::Gives(OF_NEITHER),
];

const WITH_OLD_SETS: &[Deed] = &[
    Deed::Runs(OLD_ANSWERED),
    Deed::Runs(OLD_UNANSWERED),
    Deed::IsHandedBack(Way::Migrate),
    Deed::Gives(OF_NEITHER),
];

const WITH_ANOTHER_TABLE: &[Deed] = &[
    Deed::Runs("CREATE TABLE other (x INTEGER) STRICT"),
    Deed::IsHandedBack(Way::Migrate),
];

#[test]
fn what_is_of_no_known_schema_is_handed_back(rt: HostRuntime) {
    in_memory(&rt, rt.alloc(), FIRST_SCHEMA, OTHERWISE_NAMED);
    in_memory(
        &rt,
        rt.alloc(),
        SECOND_SCHEMA_BESIDE_THE_FIRST,
        WITH_OLD_SETS,
    );
    in_memory(&rt, rt.alloc(), SECOND_SCHEMA, WITH_ANOTHER_TABLE);
}

#[test]
fn an_earlier_schema_is_not_adopted(rt: HostRuntime) {
    in_memory(
        &rt,
        rt.alloc(),
        FIRST_SCHEMA,
        &[Deed::IsHandedBack(Way::Adopt)],
    );
}
