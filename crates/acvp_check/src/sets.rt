//! The conditions on vector sets.
ghost use Rattle.std.specs.Prelude.{◌≡◌, ◌==◌};
ghost use Rattle.acvp_mac.specs.Conditions.{judged};
ghost use Rattle.acvp_tables.specs.State.{of_all};
ghost use Rattle.acvp_check.specs.Conditions.{is_disposed, set_conditions, set_row_conditions};

use crate::finding::{Finding, RowKey, Wrong};
use crate::near::has_session;
use crate::rows::Rows;
use crate::walks::{Judge, Predicate, check, each};
use acvp_answers::disposition;
use acvp_gen::Seeds;
use acvp_tables::{Graded, SessionRow, SetRow};

/// The session of a number.
#[derive(Clone, Copy)]
pub(crate) struct SessionIs {
    pub number: u64,
}

impl Predicate<SessionRow> for SessionIs {
    ghost passes = { λ t row. row.number == t.number };

    fn test(&self, row: &SessionRow) -> bool {
        row.number == self.number
    }
}

/// Whether the disposition, where there is one, is that of the verdicts, as each `Graded`'s is.
fn is_disposed(graded: &Option<Graded>) -> bool
    ensures { result ≡ of_all is_disposed graded.now }
{
    match graded {
        Some(graded) => disposition(graded.verdicts()) == graded.disposition(),
        None => true,
    }
}

/// The conditions on a vector set, among an account's rows and under seeds.
#[derive(Clone, Copy)]
struct UnderSeeds<'a> {
    mine: &'a Rows,
    seeds: &'a Seeds,
}

impl Judge<SetRow> for UnderSeeds<'_> {
    ghost conditions = { λ t row. set_row_conditions t.seeds.now t.mine.now row };

    fn judge(&self, row: &SetRow) -> Result<(), Finding> {
        let mine = self.mine;
        let key = RowKey::Set(row.number);
        let has_session = has_session(&mine.sessions, row.session);
        check(has_session, key, Wrong::NoSession)?;
        check(self.seeds.get(row.epoch).is_some(), key, Wrong::NoSeed)?;
        check(is_disposed(&row.graded), key, Wrong::Disposition)
    }
}

/// What is wrong with an account's vector sets, but for the verdicts on answers.
#[tactic(auto, unfolding(crate::specs::Conditions::set_conditions))]
pub(crate) fn sets_wrong(mine: &Rows, seeds: &Seeds) -> Result<(), Finding>
    ensures { result ≡ judged (set_conditions seeds.now mine.now) tt }
{
    each(&mine.sets, &UnderSeeds { mine, seeds })
}
