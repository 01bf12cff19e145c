//! What is promised of each run in the life of the records, and which orders are turns of one.
ghost use Rattle.std.specs.Prelude.{ℕ, Bool, List};
ghost use Rattle.acvp_tables.specs.Content.{Content};
ghost use Rattle.acvp_desk.specs.Certifications.{IsLeft};
ghost use Rattle.acvp_desk.specs.Orders.{Orders};
ghost use Rattle.acvp_desk.specs.declared.keys.Keys.{Keys};
ghost use Rattle.acvp_desk.specs.declared.order.Order.{Order};
ghost use Rattle.acvp_desk.specs.declared.order.OrderReply.{OrderReply};
ghost use Rattle.acvp_http.specs.Event.{CanHappen, order, ordered};
ghost use Rattle.acvp_http.specs.Life.{AddsSeeds, GoesOver, Life, Run, last_seeds};
ghost use Rattle.acvp_http.specs.LifePromise.{LifeHeadline, LifeHeadlineLeft};
ghost use Rattle.acvp_http.specs.Promise.{IsPromised};
ghost use Rattle.acvp_http.specs.Serve.{HandlesTurn};

use crate::promise::{headline, isolation};
use acvp_desk::{left_records_are_left, records_are_kept, records_outlast_keys};
use acvp_tables::Tables;

/// What is promised of each run of a life: the headline and isolation, over the records that it goes over.
pub fn runs_are_promised()
    ensures { (run : Run) (old next : Content) → GoesOver run old next
        → IsPromised run.keys run.turns run.answers old next }
{
    headline();
    isolation();
}

/// The headline over a whole life, whose turns are one list. Each of them is answered, in its place among all answers,
/// over the records that the accepted turns before it left, in its own run and in those before; to which each stop adds
/// at most the effect of one turn that was unavailable.
pub fn lives_are_promised()
    ensures told { LifeHeadline }
    ensures left { LifeHeadlineLeft }
{
    headline();
}

/// What every run leaves of the records, whatever is asked and ordered, is so after a run, and after a life: of runs that
/// end between two events or within one that was unavailable, and under the keys of later runs.
pub fn lives_leave_records()
    ensures run { (run : Run) (old next : Content) → GoesOver run old next → IsLeft run.keys.seed old
        → IsLeft run.keys.seed next }
    ensures life { (seeds : List (List ℕ)) (runs : List Run) (old new : Content) → AddsSeeds seeds runs
        → Life runs old new → IsLeft seeds old → IsLeft (last_seeds seeds runs) new }
{
    left_records_are_left();
    records_outlast_keys();
}

/// An order that was carried out on tables, as `order_on` says, is a turn, whatever the keys are.
pub fn orders_are_turns<T: Tables>()
    ensures { (keys : Keys) (moment : ℕ) (it : Order) (reply : OrderReply) (old new : T) → CanHappen (order moment it)
        → Orders T.meaning reply old new it → (unavailable : Bool) × HandlesTurn T.meaning keys
        (record { event = order moment it; unavailable = unavailable }) (ordered reply) old new }
{
    records_are_kept();
}
