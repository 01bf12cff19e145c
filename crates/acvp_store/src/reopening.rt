//! From one run to the next: what is taken over after a crash.

ghost use Rattle.std.specs.Prelude.{◌⊎◌, IsTrue};
ghost use Rattle.sqlite.specs.Held.{Held, state};
ghost use Rattle.sqlite.specs.State.{HasCleanDisk};
ghost use Rattle.acvp_tables.specs.Content.{Content};
ghost use Rattle.acvp_store.specs.Connection.{LeavesSo};
ghost use Rattle.acvp_store.specs.Schema.{SchemaVersion};
ghost use Rattle.acvp_store.specs.Store.{leaves, stands, IsNoStore, IsNoStoreOfAny, IsOldOrMigrated, IsStoreAt};
ghost use Rattle.acvp_store.specs.Store.{TakesOver, TakesOverAny};

use sqlite::Alter;

/// What `adopt` and `migrate` make of a connection to what a crash left of other tables, over a store of the same form
/// or another, while the disk is clean: open tables that stand for one of the two contents that the crash left. It
/// isn't handed back as no store's database. And a crash of `migrate` leaves a database whose content a second
/// `migrate` takes over.
pub fn reopens<R: Alter, S: Alter>()
    ensures adopted { (before : Held R) (c d : Content) (connection t : Held S) → HasCleanDisk (state R.Store before)
        → leaves R.Store before c d → (state R.Store before).may_leave (state S.Store connection).now.trees
        → TakesOver S.Store connection t → IsTrue (state S.Store t).is_open
        → stands S.Store t c ⊎ stands S.Store t d }
    ensures recognized { (before : Held R) (c d : Content) (connection back : Held S)
        → HasCleanDisk (state R.Store before) → leaves R.Store before c d
        → (state R.Store before).may_leave (state S.Store connection).now.trees
        → IsNoStore S.Store connection back → IsTrue (state S.Store back).is_open → ⊥ }
    ensures migrated { (before : Held R) (c d : Content) (connection t : Held S) → HasCleanDisk (state R.Store before)
        → leaves R.Store before c d → (state R.Store before).may_leave (state S.Store connection).now.trees
        → TakesOverAny S.Store connection t → IsTrue (state S.Store t).is_open
        → stands S.Store t c ⊎ stands S.Store t d }
    ensures known { (before : Held R) (c d : Content) (connection back : Held S) → HasCleanDisk (state R.Store before)
        → leaves R.Store before c d → (state R.Store before).may_leave (state S.Store connection).now.trees
        → IsNoStoreOfAny S.Store connection back → IsTrue (state S.Store back).is_open → ⊥ }
    ensures again { (before left : Held R) (connection t : Held S) (version : SchemaVersion) (c : Content)
        → LeavesSo (state R.Store before) (state R.Store left) (IsOldOrMigrated (state R.Store before).committed.trees)
        → HasCleanDisk (state R.Store left) → IsTrue (state R.Store before).is_open
        → IsStoreAt version (state R.Store before).committed.trees c
        → (state R.Store left).may_leave (state S.Store connection).now.trees
        → TakesOverAny S.Store connection t → IsTrue (state S.Store t).is_open → stands S.Store t c }
{}
