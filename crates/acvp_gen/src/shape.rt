//! What groups and tests are to be, before their bytes are made.

use crate::group::GroupForm;
use std::marker::Model;

/// A test by its sizes in bits. A hash function takes no key: 0 bits.
#[derive(Clone, Copy)]
pub struct TestShape {
    /// Of the key.
    pub key_bits: u64,

    /// Of the message.
    pub message_bits: u64,
}

/// A group and its tests.
#[derive(Drop)]
pub(crate) struct Shape {
    pub form: GroupForm,
    pub tests: Vec<TestShape>,
}

impl Model for Shape {
    ghost use Rattle.acvp_gen.specs.Choice.{ShapeValue};

    ghost Value = { ShapeValue };

    ghost view = { λ s. record { form = s.form; tests = s.tests.items } };
}
