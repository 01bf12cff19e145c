//! The conditions on objects.
ghost use Rattle.std.specs.Prelude.{◌≡◌, ◌==◌, ◌&&◌, is_some};
ghost use Rattle.acvp_mac.specs.Conditions.{judged};
ghost use Rattle.acvp_tables.specs.Content.{is_kind, object_at};
ghost use Rattle.acvp_tables.specs.State.{has_registered, has_registered_as, has_vendor, is_registration_of};
ghost use Rattle.acvp_tables.specs.State.{is_sound_object};
ghost use Rattle.acvp_check.specs.Conditions.{all_kinds_conditions, kind_conditions, object_conditions, object_key};
ghost use Rattle.acvp_check.specs.Conditions.{object_row_conditions};

use crate::finding::{Finding, RowKey, Wrong};
use crate::numbers::first_of_account;
use crate::rows::Rows;
use crate::walks::{Judge, Numbers, Predicate, any, check, count, each, found, rise};
use acvp_registry::{Kind, Object};
use acvp_tables::{ObjectRow, RequestBody, RequestRow, RequestStatus};

/// Whether two kinds are the same.
pub(crate) fn is_kind(kind: Kind, other: Kind) -> bool
    ensures { result ≡ is_kind kind other }
{
    match kind {
        Kind::Vendor => matches!(other, Kind::Vendor),
        Kind::Module => matches!(other, Kind::Module),
        Kind::Environment => matches!(other, Kind::Environment),
        Kind::Certification => matches!(other, Kind::Certification),
    }
}

/// The object of a kind and a number.
#[derive(Clone, Copy)]
struct ObjectIs {
    kind: Kind,
    number: u64,
}

impl Predicate<ObjectRow> for ObjectIs {
    ghost passes = { λ t row. is_kind row.object.kind t.kind && (row.number == t.number) };

    fn test(&self, row: &ObjectRow) -> bool {
        is_kind(row.object.kind(), self.kind) && row.number == self.number
    }
}

/// Whether the object of a kind and a number is there.
pub(crate) fn has_object(objects: &[ObjectRow], kind: Kind, number: u64) -> bool
    ensures { result ≡ is_some (object_at kind number objects.now) }
{
    found(objects, &ObjectIs { kind, number })
}

/// Whether an object's vendor, where it names one, is there.
fn has_vendor(objects: &[ObjectRow], object: &Object) -> bool
    ensures { result ≡ has_vendor objects.now object.now }
{
    match object.vendor() {
        Some(number) => has_object(objects, Kind::Vendor, number),
        None => true,
    }
}

/// Whether an object is one that is kept, as each `Object` is, and its vendor is there.
pub(crate) fn is_sound_object(objects: &[ObjectRow], object: &Object) -> bool
    ensures { result ≡ is_sound_object objects.now object.now }
{
    let _ = object.kind();
    has_vendor(objects, object)
}

/// The objects of a kind, by their numbers.
#[derive(Clone, Copy)]
struct ObjectsIn {
    kind: Kind,
}

impl Numbers<ObjectRow> for ObjectsIn {
    ghost selected = { λ t row. is_kind row.object.kind t.kind };

    ghost number = { λ row. row.number };

    ghost key = { object_key };

    fn selects(&self, row: &ObjectRow) -> bool {
        is_kind(row.object.kind(), self.kind)
    }

    fn number(&self, row: &ObjectRow) -> u64 {
        row.number
    }

    fn key(&self, row: &ObjectRow) -> RowKey {
        RowKey::Object(row.object.kind(), row.number)
    }
}

impl Predicate<ObjectRow> for ObjectsIn {
    ghost passes = { λ t row. is_kind row.object.kind t.kind };

    fn test(&self, row: &ObjectRow) -> bool {
        is_kind(row.object.kind(), self.kind)
    }
}

/// Whether a request's body is for the registration of an object of a kind.
pub(crate) fn is_registration_of(kind: Kind, body: &RequestBody) -> bool
    ensures { result ≡ is_registration_of kind body.now }
{
    match body {
        RequestBody::Registration(object) => is_kind(object.kind(), kind),
        RequestBody::Certification(_) => false,
    }
}

/// The approved requests for the registration of objects of a kind.
#[derive(Clone, Copy)]
struct RegisteredIn {
    kind: Kind,
}

impl Predicate<RequestRow> for RegisteredIn {
    ghost passes = { λ t row. has_registered t.kind row };

    fn test(&self, row: &RequestRow) -> bool {
        is_registration_of(self.kind, &row.body) && matches!(row.status, RequestStatus::Approved(_))
    }
}

/// The approved request by which an object was registered under its number.
#[derive(Clone, Copy)]
struct RegisteredAs<'a> {
    row: &'a ObjectRow,
}

impl Predicate<RequestRow> for RegisteredAs<'_> {
    ghost passes = { λ t row. has_registered_as t.row.now row };

    fn test(&self, row: &RequestRow) -> bool {
        is_registration_of(self.row.object.kind(), &row.body)
            && matches!(row.status, RequestStatus::Approved(number) if number == self.row.number)
    }
}

/// The conditions on an object, among an account's rows.
#[derive(Clone, Copy)]
struct InAccount<'a> {
    mine: &'a Rows,
}

impl Judge<ObjectRow> for InAccount<'_> {
    ghost conditions = { λ t row. object_row_conditions t.mine.now row };

    fn judge(&self, row: &ObjectRow) -> Result<(), Finding> {
        let mine = self.mine;
        let key = RowKey::Object(row.object.kind(), row.number);
        let asked_for = any(&mine.requests, &RegisteredAs { row });
        check(asked_for, key, Wrong::NotAskedFor)?;
        let is_sound = is_sound_object(&mine.objects, &row.object);
        check(is_sound, key, Wrong::Object)
    }
}

/// What is wrong with the numbers of an account's objects of a kind.
fn kind_wrong(account: u16, mine: &Rows, kind: Kind) -> Result<(), Finding>
    ensures { result ≡ judged (kind_conditions account mine.now kind) tt }
{
    let objects = count(&mine.objects, &ObjectsIn { kind });
    let asked_for = count(&mine.requests, &RegisteredIn { kind });
    check(
        objects <= asked_for,
        RowKey::Account(account),
        Wrong::ManyObjects,
    )?;
    rise(
        &mine.objects,
        &ObjectsIn { kind },
        first_of_account(account),
    )
}

/// What is wrong with the numbers of an account's objects.
#[tactic(auto, using(crate::proofs::Joins::judged_joined), unfolding(crate::specs::Conditions::all_kinds_conditions))]
fn kinds_wrong(account: u16, mine: &Rows) -> Result<(), Finding>
    ensures { result ≡ judged (all_kinds_conditions account mine.now) tt }
{
    kind_wrong(account, mine, Kind::Vendor)?;
    kind_wrong(account, mine, Kind::Module)?;
    kind_wrong(account, mine, Kind::Environment)?;
    kind_wrong(account, mine, Kind::Certification)
}

/// What is wrong with an account's objects.
#[tactic(auto, using(crate::proofs::Joins::judged_joined), unfolding(crate::specs::Conditions::object_conditions))]
pub(crate) fn objects_wrong(account: u16, mine: &Rows) -> Result<(), Finding>
    ensures { result ≡ judged (object_conditions account mine.now) tt }
{
    kinds_wrong(account, mine)?;
    each(&mine.objects, &InAccount { mine })
}
