//! Whether two schemas are the same.
ghost use Rattle.std.specs.Prelude.{◌≡◌, ◌≤◌, ◌↔◌, [], length, IsTrue, IfOk};
ghost use Rattle.std.specs.List.{AllByRecursion};
ghost use Rattle.acvp_store.specs.Private.Bare.{IsBare, AreBare};
ghost use Rattle.acvp_store.specs.Private.Migration.{front};

use sqlite_items::Items;
use sqlite_schema::code::{Terms, lend_value};
use sqlite_schema::schema::{Action, Column, Index, Kind, Reference, Schema, Stamps, Table, View};
use sqlite_value::keys::{Collation, Order};
use sqlite_value::order::is_same;
use sqlite_value::value::{Bytes, Value};
use std::alloc::{AllocError, Global};

/// Two values that contracts see as one.
trait Same {
    /// Whether they are the same.
    fn same(&self, other: &Self) -> bool
        ensures { IsTrue result ↔ (self.now ≡ other.now) };
}

impl Same for usize {
    fn same(&self, other: &usize) -> bool {
        *self == *other
    }
}

impl Same for Bytes {
    fn same(&self, other: &Bytes) -> bool {
        self.as_slice() == other.as_slice()
    }
}

impl Same for Order {
    fn same(&self, other: &Order) -> bool {
        self.digits == other.digits
    }
}

/// Whether two lists have the same members, in the same order.
fn same_all<T: Same>(a: &[T], b: &[T]) -> bool
    ensures { IsTrue result ↔ (a.now ≡ b.now) }
{
    let mut first = a;
    let mut second = b;
    while let [x, more @ ..] = first {
        let [y, others @ ..] = second else {
            return false;
        };
        if !x.same(y) {
            return false;
        }
        first = more;
        second = others;
    }
    second.is_empty()
}

impl<T: Same> Same for Items<T> {
    fn same(&self, other: &Items<T>) -> bool {
        same_all(self.as_slice(), other.as_slice())
    }
}

/// Whether two columns have one type.
fn same_kind(a: Kind, b: Kind) -> bool
    ensures { IsTrue result ↔ (a ≡ b) }
{
    a == b
}

/// Whether two references do the same.
fn same_action(a: Action, b: Action) -> bool
    ensures { IsTrue result ↔ (a ≡ b) }
{
    a == b
}

/// Whether two columns compare alike.
fn same_collation(a: Collation, b: Collation) -> bool
    ensures { IsTrue result ↔ (a ≡ b) }
{
    a == b
}

impl Same for Reference {
    fn same(&self, other: &Reference) -> bool {
        self.columns.same(&other.columns)
            && self.parent.same(&other.parent)
            && self.parent_columns.same(&other.parent_columns)
            && same_action(self.on_delete, other.on_delete)
            && same_action(self.on_update, other.on_update)
            && self.is_deferred == other.is_deferred
    }
}

impl Same for Index {
    fn same(&self, other: &Index) -> bool {
        self.name.same(&other.name)
            && self.tree == other.tree
            && self.table == other.table
            && self.columns.same(&other.columns)
            && self.order.same(&other.order)
            && self.is_unique == other.is_unique
    }
}

impl Same for Value {
    fn same(&self, other: &Value) -> bool {
        is_same(lend_value(self), lend_value(other))
    }
}

impl Same for Column {
    fn same(&self, other: &Column) -> bool {
        self.name.same(&other.name)
            && same_kind(self.kind, other.kind)
            && self.is_strict == other.is_strict
            && self.not_null == other.not_null
            && self.default.same(&other.default)
            && same_collation(self.collation, other.collation)
    }
}

/// Whether two views belong to the same, or to none.
fn same_owner(a: &Option<Bytes>, b: &Option<Bytes>) -> bool
    ensures { IsTrue result ↔ (a.now ≡ b.now) }
{
    match (a, b) {
        (None, None) => true,
        (Some(a), Some(b)) => a.same(b),
        _ => false,
    }
}

impl Same for View {
    fn same(&self, other: &View) -> bool {
        self.name.same(&other.name)
            && self.tree == other.tree
            && self.sql.same(&other.sql)
            && same_owner(&self.foreign, &other.foreign)
            && self.binds == other.binds
            && self.is_bound == other.is_bound
    }
}

/// Whether there are no terms.
fn has_none(alloc: Global, terms: &Terms) -> Result<bool, AllocError>
    ensures { IfOk result (λ none. IsTrue none ↔ (terms.now ≡ [])) }
{
    let lent = terms.lend(alloc)?;
    Ok(lent.roots.is_empty())
}

/// Whether the stamps are those of a table that has no terms.
fn same_stamps(alloc: Global, a: &Stamps, b: &Stamps) -> Result<bool, AllocError>
    requires { b.now.terms ≡ [] }
    ensures { IfOk result (λ same. IsTrue same ↔ (a.now ≡ b.now)) }
{
    let none = has_none(alloc, &a.terms)?;
    Ok(none && a.places.same(&b.places) && a.formats.same(&b.formats))
}

/// Whether two tables have one key.
fn same_key(a: Option<usize>, b: Option<usize>) -> bool
    ensures { IsTrue result ↔ (a ≡ b) }
{
    a == b
}

/// Whether a table is one that has no terms.
fn same_table(alloc: Global, a: &Table, b: &Table) -> Result<bool, AllocError>
    requires { IsBare b.now }
    ensures { IfOk result (λ same. IsTrue same ↔ (a.now ≡ b.now)) }
{
    let none = has_none(alloc, &a.checks)?;
    let stamps = same_stamps(alloc, &a.stamps, &b.stamps)?;
    Ok(
        none && stamps
            && a.name.same(&b.name)
            && a.tree == b.tree
            && a.columns.same(&b.columns)
            && same_key(a.key, b.key)
            && a.primary.same(&b.primary)
            && a.uniques.same(&b.uniques)
            && a.orders.same(&b.orders)
            && a.references.same(&b.references)
            && a.computed.same(&b.computed)
            && a.is_counted == b.is_counted,
    )
}

/// Whether tables are those that have no terms.
fn same_tables(alloc: Global, a: &[Table], b: &[Table]) -> Result<bool, AllocError>
    requires { AllByRecursion IsBare b.now }
    ensures { IfOk result (λ same. IsTrue same ↔ (a.now ≡ b.now)) }
{
    let mut first = a;
    let mut second = b;
    while let [x, more @ ..] = first {
        let [y, others @ ..] = second else {
            return Ok(false);
        };
        if !same_table(alloc, x, y)? {
            return Ok(false);
        }
        first = more;
        second = others;
    }
    Ok(second.is_empty())
}

/// Whether a schema is one whose tables have no terms.
pub(crate) fn same_schema(alloc: Global, a: &Schema, b: &Schema) -> Result<bool, AllocError>
    requires { AreBare b.now }
    ensures { IfOk result (λ same. IsTrue same ↔ (a.now ≡ b.now)) }
{
    let tables = same_tables(alloc, a.tables.as_slice(), b.tables.as_slice())?;
    Ok(tables && a.indexes.same(&b.indexes) && a.views.same(&b.views))
}

/// Whether a schema has the first tables and the first indexes of one whose tables have no terms, so many of them, and
/// its views.
pub(crate) fn same_front(
    alloc: Global,
    a: &Schema,
    b: &Schema,
    tables: usize,
    indexes: usize,
) -> Result<bool, AllocError>
    requires bare { AreBare b.now }
    requires tables { tables ≤ length b.now.tables }
    requires indexes { indexes ≤ length b.now.indexes }
    ensures { IfOk result (λ same. IsTrue same ↔ (a.now ≡ front tables indexes b.now)) }
{
    let first = &b.tables.as_slice()[..tables];
    let keys = &b.indexes.as_slice()[..indexes];
    let same = same_tables(alloc, a.tables.as_slice(), first)?;
    Ok(same && same_all(a.indexes.as_slice(), keys) && a.views.same(&b.views))
}
