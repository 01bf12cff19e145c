//! What a file that is called whole stands for.
ghost use Rattle.std.specs.Prelude.{ℕ, List, true};
ghost use Rattle.sqlite.specs.Held.{Held, state};
ghost use Rattle.acvp_desk.specs.Certifications.{IsLeft};
ghost use Rattle.acvp_tables.specs.Content.{Content};
ghost use Rattle.acvp_store.specs.Adopted.{IsOurs};
ghost use Rattle.acvp_store.specs.Connection.{ServesStore};
ghost use Rattle.acvp_store.specs.Store.{stands};
ghost use Rattle.acvp_audit.specs.Checked.{IsWholeAs};
ghost use Rattle.acvp_audit.specs.declared.damage.Totals.{Totals as TotalsValue};

use sqlite::Alter;

/// Tables that are called whole stand for records that have what every run keeps. They are kept, so all that is
/// promised of such records is promised of them: a file's life may begin there.
pub fn whole_files_begin<S: Alter>()
    ensures { (seeds : List (List ℕ)) (tables : Held S) (totals : TotalsValue)
        (ours : IsOurs (state S.Store tables).now) → ServesStore (state S.Store tables)
        → IsWholeAs true seeds ours.layout (state S.Store tables).now.trees totals
        → (c : Content) × stands S.Store tables c × IsLeft seeds c }
{}
