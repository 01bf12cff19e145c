//! Registered objects as a list.
ghost use Rattle.std.specs.Prelude.{◌≡◌, ◌==◌, ◌&&◌};
ghost use Rattle.acvp_tables.specs.Content.{is_kind, kind_number};

use crate::list::walks::{Predicate, Show};
use crate::rows::ObjectRow;
use acvp_registry::Kind;
use std::alloc::AllocError;

/// The number of a kind.
fn kind_number(kind: Kind) -> u8
    ensures { result ≡ kind_number kind }
{
    match kind {
        Kind::Vendor => 1,
        Kind::Module => 2,
        Kind::Environment => 3,
        Kind::Certification => 4,
    }
}

/// Whether two kinds are the same.
fn is_kind(kind: Kind, other: Kind) -> bool
    ensures { result ≡ is_kind kind other }
{
    kind_number(kind) == kind_number(other)
}

/// The object of a kind and number.
#[derive(Drop)]
pub(crate) struct ObjectIs {
    pub kind: Kind,
    pub number: u64,
}

impl Predicate<ObjectRow> for ObjectIs {
    ghost passes = { λ t row. is_kind row.object.kind t.kind && (row.number == t.number) };

    fn test(&self, row: &ObjectRow) -> bool {
        is_kind(row.object.kind(), self.kind) && row.number == self.number
    }
}

/// The objects of a kind and an account.
#[derive(Drop)]
pub(crate) struct ObjectsOf {
    pub kind: Kind,
    pub account: u16,
}

impl Predicate<ObjectRow> for ObjectsOf {
    ghost passes = { λ t row. is_kind row.object.kind t.kind && (row.account == t.account) };

    fn test(&self, row: &ObjectRow) -> bool {
        is_kind(row.object.kind(), self.kind) && row.account == self.account
    }
}

/// Its account.
#[derive(Drop)]
pub(crate) struct ItsOwner;

impl Show<ObjectRow, u16> for ItsOwner {
    ghost shown = { λ _ row. row.account };

    fn show(&self, row: &ObjectRow) -> Result<u16, AllocError> {
        Ok(row.account)
    }
}

/// The row itself.
#[derive(Drop)]
pub(crate) struct WholeObject;

impl Show<ObjectRow, ObjectRow> for WholeObject {
    ghost shown = { λ _ row. row };

    fn show(&self, row: &ObjectRow) -> Result<ObjectRow, AllocError> {
        let object = row.object.clone()?;
        Ok(ObjectRow {
            number: row.number,
            account: row.account,
            object,
        })
    }
}
