//! The object of a vector set: its groups of tests, as a client runs them.
ghost use Rattle.std.specs.Prelude.{◌≡◌, IfOk};
ghost use Rattle.serde_json.specs.View.{view};
ghost use Rattle.acvp_json.specs.VectorSet.{type_word, hash_test_data, mac_test_data, hash_group_data, mac_group_data};
ghost use Rattle.acvp_json.specs.VectorSet.{group_data, vector_set_data};

use crate::array::{Shows, array};
use crate::object::object;
use acvp_gen::{Group, GroupForm, GroupKind, Prompts, Sizes, Test};
use serde_json::Value;
use std::alloc::{AllocError, Global};

/// The word for what the tests of a group ask for.
fn type_word(kind: GroupKind) -> &'static str
    ensures { result.now ≡ type_word kind }
{
    match kind {
        GroupKind::Functional => "AFT",
        GroupKind::MonteCarlo => "MCT",
    }
}

/// The tests of a hash function.
struct HashTests;

impl Shows<Test> for HashTests {
    ghost data_of = { λ _ test. hash_test_data test };

    fn value(&self, alloc: Global, test: &Test) -> Result<Value, AllocError> {
        let message = hex::encode(alloc, test.message())?;
        object(
            alloc,
            &[],
            &["len", "msg", "tcId"],
            [
                Value::from(test.bits()),
                Value::String(message),
                Value::from(test.number()),
            ],
        )
    }
}

/// The tests of HMAC.
struct MacTests;

impl Shows<Test> for MacTests {
    ghost data_of = { λ _ test. mac_test_data test };

    fn value(&self, alloc: Global, test: &Test) -> Result<Value, AllocError> {
        let key = hex::encode(alloc, test.key())?;
        let message = hex::encode(alloc, test.message())?;
        object(
            alloc,
            &[],
            &["key", "msg", "tcId"],
            [
                Value::String(key),
                Value::String(message),
                Value::from(test.number()),
            ],
        )
    }
}

/// A group of a hash function.
fn hash_group_value(alloc: Global, group: &Group) -> Result<Value, AllocError>
    ensures { IfOk result (λ value. view value ≡ hash_group_data group.now) }
{
    let tests = array(alloc, &HashTests, group.tests())?;
    object(
        alloc,
        &[("testType", type_word(group.kind()))],
        &["tests", "tgId"],
        [tests, Value::from(group.number())],
    )
}

/// A group of HMAC.
fn mac_group_value(alloc: Global, sizes: Sizes, group: &Group) -> Result<Value, AllocError>
    ensures { IfOk result (λ value. view value ≡ mac_group_data sizes group.now) }
{
    let tests = array(alloc, &MacTests, group.tests())?;
    object(
        alloc,
        &[("testType", type_word(group.kind()))],
        &["keyLen", "macLen", "msgLen", "tests", "tgId"],
        [
            Value::from(sizes.key_bits),
            Value::from(sizes.mac_bits),
            Value::from(sizes.message_bits),
            tests,
            Value::from(group.number()),
        ],
    )
}

/// The groups of a vector set.
struct Groups;

impl Shows<Group> for Groups {
    ghost data_of = { λ _ group. group_data group };

    fn value(&self, alloc: Global, group: &Group) -> Result<Value, AllocError> {
        match group.form() {
            GroupForm::Mac(sizes) => mac_group_value(alloc, sizes, group),
            GroupForm::Digest | GroupForm::MonteCarlo => hash_group_value(alloc, group),
        }
    }
}

/// A vector set, and whether it is a sample.
pub(crate) fn vector_set_value(
    alloc: Global,
    sample: bool,
    prompts: &Prompts,
) -> Result<Value, AllocError>
    ensures { IfOk result (λ value. view value ≡ vector_set_data sample prompts.now) }
{
    let groups = array(alloc, &Groups, prompts.groups())?;
    object(
        alloc,
        &[
            ("algorithm", prompts.algorithm().name()),
            ("revision", "1.0"),
        ],
        &["isSample", "testGroups", "vsId"],
        [Value::Bool(sample), groups, Value::from(prompts.vs())],
    )
}
