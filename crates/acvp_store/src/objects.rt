//! The table of registered objects.
ghost use Rattle.std.specs.Prelude.{◌≡◌, ◌≢◌, ◌<◌, ◌^◌, IsTrue, IfErr, IfOk, List, Some, option_map, string_bytes};
ghost use Rattle.sqlite.specs.Held.{state};
ghost use Rattle.acvp_registry.specs.Json.{body_json};
ghost use Rattle.acvp_registry.specs.Object.{KeptObject, object_text};
ghost use Rattle.acvp_tables.specs.Content.{Content, kind_number, object_at, objects_of, page};
ghost use Rattle.acvp_tables.specs.State.{AreWellNumbered};
ghost use Rattle.acvp_tables.specs.declared.rows.ObjectRow.{ObjectRow as Registration};
ghost use Rattle.acvp_store.specs.Connection.{ServesStore, IsRead, UnderStore};
ghost use Rattle.acvp_store.specs.Private.Columns.{columns_of_object};
ghost use Rattle.acvp_store.specs.Private.Objects.{IsObject, IsReadObject, Registers};
ghost use Rattle.acvp_store.specs.Private.Shown.{AreMet, is_of};
ghost use Rattle.acvp_store.specs.Stands.{HoldsObjects, FitColumns, object_columns, object_tree};

use crate::columns::{account_number, field, fitting, key};
use crate::members::{Member, answered, listed};
use crate::pages::page_of;
use crate::queries::asked;
use crate::summaries::{kept_value, registered_kind};
use crate::work::{Work, perform};
use acvp_registry::{Kind, Object, RegFault, read_object};
use acvp_tables::{ObjectRow, StoreFault};
use sqlite::types::ToSql;
use sqlite::{Alter, Connection, Row, Transaction};
use std::alloc::Global;

/// An account's number, alone in its row.
impl Member for u16 {
    ghost use Rattle.std.specs.Prelude.{⊤, ◌<◌, ◌^◌, ◌∷◌, []};
    ghost use Rattle.acvp_store.specs.Values.{whole};

    ghost shown = { λ account. whole account ∷ [] };

    ghost reads = { λ _. ⊤ };

    ghost fits = { λ account. account < 2 ^ 16 };

    ghost judged_so = { λ account. account < 2 ^ 16 };

    fn read(row: &Row) -> Result<u16, StoreFault> {
        account_number(row, 0)
    }
}

/// The number of a kind.
pub(crate) fn kind_number(kind: Kind) -> u32
    ensures { result ≡ kind_number kind }
{
    match kind {
        Kind::Vendor => 1,
        Kind::Module => 2,
        Kind::Environment => 3,
        Kind::Certification => 4,
    }
}

/// The account of the object of a kind and number.
pub(crate) fn find_owner<S: Alter>(
    conn: &mut Connection<S>,
    kind: Kind,
    number: u64,
) -> Result<Option<u16>, StoreFault>
    requires { ServesStore (state S.Store conn.old) }
    ensures found { IsTrue (state S.Store conn.new).is_open
        → IfOk result (λ found. (objects : List Registration)
        → HoldsObjects ((state S.Store conn.old).now.trees object_tree) objects → FitColumns objects
        → found ≡ option_map (λ row. row.account) (object_at kind number objects)) }
    ensures read { IsRead result (state S.Store conn.old) (state S.Store conn.new) }
{
    answered(asked(
        conn,
        "SELECT account FROM object WHERE kind = ?1 AND number = ?2",
        &[kind_number(kind).to_sql(), key(number)],
    ))
}

/// The object of a kind's number and a text. It is Refused where the text isn't that of such an object.
pub(crate) fn kept_object(kind: u32, text: String) -> Result<Object, StoreFault>
    ensures known { IfOk result (λ found. (o : KeptObject) → body_json (object_text o) ≡ Some o.value
        → kind ≡ kind_number o.kind → string_bytes text ≡ object_text o → found ≡ o) }
    ensures judged { IfOk result (λ found. (kind ≡ kind_number found.kind) × (string_bytes text ≡ object_text found)
        × IsReadObject found) }
    ensures refused { IfErr result (λ fault. fault ≡ StoreFault.Refused → (o : KeptObject) → IsObject o
        → body_json (object_text o) ≡ Some o.value → kind ≡ kind_number o.kind → string_bytes text ≢ object_text o) }
{
    let alloc = *text.allocator();
    let kind = registered_kind(kind)?;
    let value = kept_value(alloc, text.as_str())?;
    let object = match read_object(alloc, kind, &value) {
        Ok(object) => object,
        Err(RegFault::Memory) => return Err(StoreFault::Memory),
        Err(_) => return Err(StoreFault::Refused),
    };
    if object.text() == text.as_str() {
        Ok(object)
    } else {
        Err(StoreFault::Refused)
    }
}

impl Member for ObjectRow {
    ghost use Rattle.std.specs.Prelude.{◌<◌, ◌^◌};
    ghost use Rattle.std.specs.Prelude.{IsUtf8};
    ghost use Rattle.acvp_registry.specs.Object.{object_text};
    ghost use Rattle.acvp_store.specs.Private.Objects.{IsObject, IsReadObject};
    ghost use Rattle.acvp_store.specs.Stands.{IsKeepable, object_columns};

    ghost shown = { object_columns };

    ghost reads = { IsKeepable };

    ghost fits = { λ o. (o.account < 2 ^ 16) × IsObject o.object × IsUtf8 (object_text o.object) };

    ghost judged_so = { λ o. (o.account < 2 ^ 16) × IsReadObject o.object };

    fn read(row: &Row) -> Result<ObjectRow, StoreFault> {
        let kind: u32 = field(row, 0)?;
        let number: u64 = field(row, 1)?;
        let account = account_number(row, 2)?;
        let text: String = field(row, 3)?;
        Ok(ObjectRow {
            number,
            account,
            object: kept_object(kind, text)?,
        })
    }
}

/// The object of a kind and number.
pub(crate) fn find_object<S: Alter>(
    conn: &mut Connection<S>,
    kind: Kind,
    number: u64,
) -> Result<Option<ObjectRow>, StoreFault>
    requires { ServesStore (state S.Store conn.old) }
    ensures found { IsTrue (state S.Store conn.new).is_open
        → IfOk result (λ found. (c : Content) → AreWellNumbered c
        → HoldsObjects ((state S.Store conn.old).now.trees object_tree) c.objects → FitColumns c.objects
        → found ≡ object_at kind number c.objects) }
    ensures judged { IsTrue (state S.Store conn.new).is_open → number < 2 ^ 63
        → IfOk result (λ _. AreMet (is_of (kind_number kind) number) columns_of_object object_columns
        (λ o. (o.account < 2 ^ 16) × IsReadObject o.object) ((state S.Store conn.old).now.trees object_tree)) }
    ensures read { IsRead result (state S.Store conn.old) (state S.Store conn.new) }
{
    answered(asked(
        conn,
        "SELECT kind, number, account, body FROM object WHERE kind = ?1 AND number = ?2",
        &[kind_number(kind).to_sql(), key(number)],
    ))
}

/// So many objects of a kind and of an account, from the offset on.
pub(crate) fn page_objects<S: Alter>(
    alloc: Global,
    conn: &mut Connection<S>,
    kind: Kind,
    account: u16,
    offset: u64,
    limit: u64,
) -> Result<Vec<ObjectRow>, StoreFault>
    requires { ServesStore (state S.Store conn.old) }
    ensures found { IsTrue (state S.Store conn.new).is_open
        → IfOk result (λ found. (c : Content) → AreWellNumbered c
        → HoldsObjects ((state S.Store conn.old).now.trees object_tree) c.objects → FitColumns c.objects
        → found.items ≡ page offset limit (objects_of kind account c.objects)) }
    ensures read { IsRead result (state S.Store conn.old) (state S.Store conn.new) }
{
    let at = page_of(account, offset, limit);
    listed(
        alloc,
        asked(
            conn,
            "SELECT kind, number, account, body FROM object WHERE kind = ?4 AND number BETWEEN ?1 AND ?2 ORDER BY number LIMIT ?3",
            &[at.first, at.last, at.limit, kind_number(kind).to_sql()],
        ),
    )
}

/// The registration of what a request asks for, under a number. One for certification registers nothing. The statement
/// selects the request's row, so the text of the object goes over unread.
#[derive(Clone, Copy)]
pub(crate) struct Registered {
    pub request: u64,
    pub number: u64,
}

impl Work for Registered {
    ghost use Rattle.acvp_store.specs.Connection.{UnderStore};
    ghost use Rattle.acvp_store.specs.Private.Objects.{IsObject, Registers};

    ghost change = { λ r. UnderStore (λ layout. Registers layout r.request r.number) };

    fn run<S: Alter>(&self, tx: &mut Transaction<'_, S>) -> Result<(), StoreFault> {
        let request = fitting(self.request)?;
        let number = fitting(self.number)?;
        perform(
            tx,
            "INSERT INTO object (kind, number, account, body) SELECT kind, ?2, account, body FROM request WHERE request = ?1 AND kind < 4",
            &[request, number],
        )
    }
}
