//! The life of a laboratory's file: made once, and then served and ordered in any number of runs.
ghost use Rattle.std.specs.Prelude.{◌≡◌, ◌⊎◌, ◌++◌, ℕ, Bool, List, [], ◌∷◌, IsTrue, Result};
ghost use Rattle.sqlite.specs.Files.{file_state, over_files};
ghost use Rattle.sqlite.specs.Held.{Held};
ghost use Rattle.sqlite.specs.State.{HasCleanDisk};
ghost use Rattle.acvp_tables.specs.Content.{Content, no_rows};
ghost use Rattle.acvp_tables.specs.State.{state_of};
ghost use Rattle.acvp_desk.specs.Kept.{IsKept};
ghost use Rattle.acvp_desk.specs.declared.keys.Keys.{Keys};
ghost use Rattle.acvp_desk.specs.declared.order.Order.{Order};
ghost use Rattle.acvp_desk.specs.declared.order.OrderReply.{OrderReply};
ghost use Rattle.acvp_http.specs.Event.{CanHappen, Turn, order, ordered};
ghost use Rattle.acvp_http.specs.Serve.{GoesThrough};
ghost use Rattle.acvp_http.specs.Life.{AddsSeeds, Run};
ghost use Rattle.acvp_http.specs.LifePromise.{IsAnsweredInLife, turns_in};
ghost use Rattle.acvp_store.specs.Store.{stands};
ghost use Rattle.acvp_commands.specs.FileLife.{CanBeDone, GoesOverFile, HasLived, IsNotBegun, Resumes, RunsOver};
ghost use Rattle.acvp_commands.specs.FileLife.{keys_of_task};
ghost use Rattle.acvp_commands.specs.Lines.{outcome_of};
ghost use Rattle.acvp_commands.specs.Ordered.{IsCarriedOut};
ghost use Rattle.acvp_commands.specs.Reopened.{FindsClosed, FindsLeft, ShowsLeft};
ghost use Rattle.acvp_commands.specs.declared.fault.Fault.{Fault};
ghost use Rattle.acvp_commands.specs.Work.{IsTakenOver};
ghost use Rattle.acvp_commands.specs.declared.lines.Message.{Message};
ghost use Rattle.acvp_commands.specs.declared.work.Task.{Task};
ghost use Rattle.sqlite_store.specs.declared.store.FileStore.{FileStore};

use crate::host::Host;
use acvp_desk::{records_are_kept, records_outlast_keys};
use acvp_http::{lives_are_promised, orders_are_turns, turns_leave};
use acvp_store::SqlTables;
use acvp_tables::Tables;
use sqlite::FileStore;
use sqlite_disk::Disk;

/// What an open shows of files that were closed, also where a crash came behind that: what was committed, of tables
/// that were open then. So one run follows another by a close.
pub fn closed_files_are_found<D: Disk, E: Disk>()
    ensures { (before : Held (FileStore D D.Disk)) (connection : Held (FileStore E E.Disk))
        → FindsClosed before connection → IsTrue (file_state before).is_open
        × ((file_state connection).now.trees ≡ (file_state before).committed.trees) }
{}

/// What an open shows of files that a crash left, once the connection to them was given up: what a crash might leave of
/// it. So one run follows another by a crash.
pub fn left_files_are_found<D: Disk, E: Disk>()
    ensures { (before : Held (FileStore D D.Disk)) (connection : Held (FileStore E E.Disk))
        → FindsLeft before connection → ShowsLeft before connection }
{}

/// An order's command that was carried out, as `carry_out` says, is a run of one turn, whatever the keys are and
/// whenever it was.
pub fn commands_are_runs<T: Tables>()
    ensures { (keys : Keys) (moment : ℕ) (it : Order) (outcome : Result Message Fault) (old new : T)
        → CanHappen (order moment it) → IsCarriedOut T.meaning outcome old new it
        → (reply : OrderReply) × (unavailable : Bool) × (outcome ≡ outcome_of it reply)
        × GoesThrough T.meaning keys (record { event = order moment it; unavailable = unavailable } ∷ [])
        (ordered reply ∷ []) old new }
{
    orders_are_turns::<T>();
}

/// The life of a file, from one time that it is opened to the next. It begins with tables that were made without a row,
/// or that stand for other records which are kept. A run goes over the tables, and the next open finds what it had
/// closed, or shows what a crash may leave of the connection that it held, behind any of its turns. Then the file has
/// lived through one run more: it goes over the records that those before it left, which are kept under its own seeds,
/// so it is as `runs_are_promised` says; what is open stands for what it left, and behind a crash at most the effect of
/// one event more is there, which was unavailable. So no run, however many there were, loses what was answered: the turns
/// of all runs are one list, each of which is answered over the records that the accepted ones before it left, as
/// `lives_are_promised` says.
pub fn files_live_on<D: Disk, E: Disk>()
    ensures begins { (seeds : List (List ℕ)) (made : Held (FileStore D D.Disk)) → IsTrue (file_state made).is_open
        → stands over_files made no_rows → HasLived no_rows [] seeds made }
    ensures takes_up { (seeds : List (List ℕ)) (c : Content) (tables : Held (FileStore D D.Disk))
        → IsTrue (file_state tables).is_open → IsKept seeds c → stands over_files tables c
        → HasLived c [] seeds tables }
    ensures goes_on { (first : Content) (runs : List Run) (run : Run) (seeds : List (List ℕ))
        (opened last : Held (FileStore D D.Disk)) (next : Held (FileStore E E.Disk))
        → ∥ HasLived first runs seeds opened ∥₁ → AddsSeeds seeds (run ∷ []) → GoesOverFile run opened last
        → Resumes run.closed last next → ∥ HasLived first (runs ++ run ∷ []) run.keys.seed next ∥₁ }
    ensures promised { (first : Content) (runs : List Run) (seeds : List (List ℕ)) (tables : Held (FileStore D D.Disk))
        → ∥ HasLived first runs seeds tables ∥₁ → (earlier later : List Turn) (turn : Turn)
        → turns_in runs ≡ earlier ++ turn ∷ later → ∥ IsAnsweredInLife runs earlier turn (state_of first) ∥₁ }
{
    lives_are_promised();
    turns_leave::<SqlTables<FileStore<D>>>();
    records_are_kept();
    records_outlast_keys();
}

/// What `done_over` says of a command on a file is a run over it, where the disk was clean to the end: so the next open
/// goes on from it, as `files_live_on` says, whether its connection was then closed or given up. Its turns are what was
/// served, or the order that was carried out, under any keys. Or nothing was run, since the tables weren't taken over,
/// or there is no desk over them under the keys.
pub fn commands_run_over_files<D: Disk, H: Host>()
    ensures { (keys : Keys) (moment : ℕ) (closed : Bool) (it : Task) (first last : H)
        (connection back : Held (FileStore D D.Disk)) (outcome : Result Message Fault) → CanBeDone moment it
        → IsTakenOver over_files H.hosting H.Port.listening H.Port.Input.stream H.Port.Output.stream it first last
        connection back outcome → HasCleanDisk (file_state back)
        → IsNotBegun it connection back outcome
        ⊎ ((run : Run) × (run.keys ≡ keys_of_task keys it) × (run.closed ≡ closed) × RunsOver run connection back) }
{
    orders_are_turns::<SqlTables<FileStore<D>>>();
}
