//! Databases of earlier schemas, as the statements that make them, for whoever tests what becomes of such a database.

/// The tables; `vset` is the one that schema 1 alone has, `vset2` the one that schema 2 has in its place, and
/// `reviewer` came with schema 3.
const META: &str =
    "CREATE TABLE meta (name TEXT PRIMARY KEY NOT NULL, value INTEGER NOT NULL) STRICT";

const ACCOUNT: &str =
    "CREATE TABLE account (account INTEGER PRIMARY KEY, secret BLOB NOT NULL, enabled INTEGER NOT NULL, last_step INTEGER) STRICT";

const SESSION: &str =
    "CREATE TABLE session (session INTEGER PRIMARY KEY, account INTEGER NOT NULL REFERENCES account, sample INTEGER NOT NULL, created INTEGER NOT NULL, cancelled INTEGER NOT NULL, certify INTEGER REFERENCES request, live INTEGER NOT NULL, passed INTEGER NOT NULL) STRICT";

const OLD_SET: &str =
    "CREATE TABLE vset (vs INTEGER PRIMARY KEY, session INTEGER NOT NULL REFERENCES session, capability TEXT NOT NULL, cancelled INTEGER NOT NULL, answers TEXT, verdicts TEXT, disposition INTEGER) STRICT";

const SET: &str =
    "CREATE TABLE vset2 (vs INTEGER PRIMARY KEY, session INTEGER NOT NULL REFERENCES session, capability TEXT NOT NULL, cancelled INTEGER NOT NULL, answers TEXT, verdicts TEXT, disposition INTEGER, epoch INTEGER NOT NULL) STRICT";

const OBJECT: &str =
    "CREATE TABLE object (kind INTEGER NOT NULL, number INTEGER NOT NULL, account INTEGER NOT NULL REFERENCES account, body TEXT NOT NULL, PRIMARY KEY (kind, number)) STRICT";

const REQUEST: &str =
    "CREATE TABLE request (request INTEGER PRIMARY KEY, account INTEGER NOT NULL REFERENCES account, kind INTEGER NOT NULL, body TEXT NOT NULL, status INTEGER NOT NULL, approved INTEGER) STRICT";

const REVIEWER: &str =
    "CREATE TABLE reviewer (session INTEGER NOT NULL REFERENCES session, account INTEGER NOT NULL, PRIMARY KEY (session, account)) STRICT";

/// The row of `meta`, which names the schema.
const FIRST: &str = "INSERT INTO meta VALUES ('schema', 1)";

const SECOND: &str = "INSERT INTO meta VALUES ('schema', 2)";

const THIRD: &str = "INSERT INTO meta VALUES ('schema', 3)";

/// Account 7 with a test session, and a vendor that was approved.
const OF_ACCOUNT: &str =
    "INSERT INTO account VALUES (7, x'3131313131313131313131313131313131313131313131313131313131313131', 1, 5)";

const OF_SESSION: &str = "INSERT INTO session VALUES (7000001, 7, 0, 60, 0, NULL, 2, 1)";

const OF_OBJECT: &str = r#"INSERT INTO object VALUES (1, 7000001, 7, '{"name":"V"}')"#;

const OF_REQUEST: &str =
    r#"INSERT INTO request VALUES (7000001, 7, 1, '{"name":"V"}', 1, 7000001)"#;

/// The session's vector sets as schema 1 keeps them, one with answers and one without.
pub const OLD_ANSWERED: &str =
    r#"INSERT INTO vset VALUES (700000101, 7000001, '{"algorithm":"SHA2-256","messageLength":[8],"revision":"1.0"}', 0, '[[1,["ab"]]]', 'p', 2)"#;

pub const OLD_UNANSWERED: &str =
    r#"INSERT INTO vset VALUES (700000102, 7000001, '{"algorithm":"SHA2-512","messageLength":[8],"revision":"1.0"}', 0, NULL, NULL, NULL)"#;

/// The same as schema 2 keeps them, with the epochs 3 and 4.
const ANSWERED: &str =
    r#"INSERT INTO vset2 VALUES (700000101, 7000001, '{"algorithm":"SHA2-256","messageLength":[8],"revision":"1.0"}', 0, '[[1,["ab"]]]', 'p', 2, 3)"#;

const UNANSWERED: &str =
    r#"INSERT INTO vset2 VALUES (700000102, 7000001, '{"algorithm":"SHA2-512","messageLength":[8],"revision":"1.0"}', 0, NULL, NULL, NULL, 4)"#;

/// A database of schema 1.
pub const FIRST_SCHEMA: &[&str] = &[
    META,
    ACCOUNT,
    SESSION,
    OLD_SET,
    OBJECT,
    REQUEST,
    FIRST,
    OF_ACCOUNT,
    OF_SESSION,
    OF_OBJECT,
    OF_REQUEST,
    OLD_ANSWERED,
    OLD_UNANSWERED,
];

/// A database of schema 2, as it was made.
pub const SECOND_SCHEMA: &[&str] = &[
    META, ACCOUNT, SESSION, SET, OBJECT, REQUEST, SECOND, OF_ACCOUNT, OF_SESSION, OF_OBJECT,
    OF_REQUEST, ANSWERED, UNANSWERED,
];

/// A database of schema 2, where the tables of schema 1 were there before.
pub const SECOND_SCHEMA_BESIDE_THE_FIRST: &[&str] = &[
    META, ACCOUNT, SESSION, OLD_SET, OBJECT, REQUEST, SET, SECOND, OF_ACCOUNT, OF_SESSION,
    OF_OBJECT, OF_REQUEST, ANSWERED, UNANSWERED,
];

/// The tables of schema 3, where those of schema 1 were there before, without rows.
pub const THIRD_SCHEMA_BESIDE_THE_FIRST: &[&str] = &[
    META, ACCOUNT, SESSION, OLD_SET, OBJECT, REQUEST, SET, REVIEWER, THIRD,
];
