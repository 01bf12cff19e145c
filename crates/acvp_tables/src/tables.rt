//! The records of a store, however it is kept.

ghost use Rattle.std.specs.Prelude.{◌≡◌, ◌⊎◌, Option, map, option_map, option_and_then};
ghost use Rattle.acvp_tables.specs.Calls.{Finds, Reads, Changes};
ghost use Rattle.acvp_tables.specs.Content.{Content, account_at, session_at, set_at, set_summary, set_verdicts};
ghost use Rattle.acvp_tables.specs.Content.{live_sets, object_at, objects_of, request_at, requests_of, request_summary};
ghost use Rattle.acvp_tables.specs.Content.{is_reviewer, reviewers_of, sessions_of, page, count_of, counts_of};
ghost use Rattle.acvp_tables.specs.Content.{greatest_epoch_of};
ghost use Rattle.acvp_tables.specs.Changes.{after, after_order};
ghost use Rattle.acvp_tables.specs.Covers.{Covers};
ghost use Rattle.acvp_tables.specs.Meaning.{Meaning};
ghost use Rattle.acvp_tables.specs.Own.{Fits};
ghost use Rattle.acvp_tables.specs.declared.tables.StoreFault.{StoreFault};

use crate::change::{Change, OrderChange};
use crate::rows::{AccountRow, ObjectRow, RequestStatus, SessionRow};
use crate::summary::{Counted, RequestSummary, SetSummary};
use acvp_answers::Verdict;
use acvp_caps::Capability;
use acvp_policy::Grant;
use acvp_registry::{Counts, Kind};
use std::alloc::AllocError;

/// Why a call fails. The records are unchanged.
#[derive(Clone, Copy, Debug, PartialEq, Eq)]
pub enum StoreFault {
    /// A statement was refused, or a row was met that stands for nothing.
    Refused,

    /// Memory ran out.
    Memory,
}

impl From<AllocError> for StoreFault {
    ghost use Rattle.std.specs.Prelude.{◌≡◌};
    ghost use Rattle.acvp_tables.specs.declared.tables.StoreFault.TheVariants.{Memory};

    ghost from_gives = { λ _ fault. fault ≡ Memory };

    fn from(_refused: AllocError) -> StoreFault {
        StoreFault::Memory
    }
}

/// The records of a store, however it is kept. Each read is what its definition selects, and changes nothing; lists
/// ascend by number, since the numbers of well numbered rows do. No read hands out kept answers. Each change is made
/// whole or not at all.
pub trait Tables {
    /// The faults that its calls may answer.
    ghost faults: { StoreFault → Type 0 };

    /// What a state of them means: the content that it stands for, whether the store is open, whether the disk has
    /// told a lie, and what a crash leaves.
    ghost meaning: { Meaning Self };

    /// The account of a number.
    fn account(&mut self, number: u16) -> Result<Option<AccountRow>, StoreFault>
        ensures found { Finds meaning (λ x. x) result self.old self.new (λ c. account_at number c.accounts) }
        ensures reads { Reads faults meaning result self.old self.new };

    /// The test session of a number.
    fn session(&mut self, number: u64) -> Result<Option<SessionRow>, StoreFault>
        ensures found { Finds meaning (λ x. x) result self.old self.new (λ c. session_at number c.sessions) }
        ensures reads { Reads faults meaning result self.old self.new };

    /// The vector set of a number, without its capability and answers.
    fn set(&mut self, number: u64) -> Result<Option<SetSummary>, StoreFault>
        ensures found { Finds meaning (λ x. x) result self.old self.new
            (λ c. option_map set_summary (set_at number c.sets)) }
        ensures reads { Reads faults meaning result self.old self.new };

    /// The capability of the vector set of a number.
    fn capability(&mut self, set: u64) -> Result<Option<Capability>, StoreFault>
        ensures found { Finds meaning (λ x. x) result self.old self.new
            (λ c. option_map (λ row. row.capability) (set_at set c.sets)) }
        ensures reads { Reads faults meaning result self.old self.new };

    /// The verdicts on the last answers to the vector set of a number, where there are any.
    fn verdicts(&mut self, set: u64) -> Result<Option<Vec<Verdict>>, StoreFault>
        ensures found { Finds meaning (option_map (λ v. v.items)) result self.old self.new
            (λ c. option_and_then set_verdicts (set_at set c.sets)) }
        ensures reads { Reads faults meaning result self.old self.new };

    /// The vector sets of a test session that aren't cancelled.
    fn sets_of(&mut self, session: u64) -> Result<Vec<SetSummary>, StoreFault>
        ensures found { Finds meaning (λ v. v.items) result self.old self.new
            (λ c. map set_summary (live_sets session c.sets)) }
        ensures reads { Reads faults meaning result self.old self.new };

    /// The registered object of a kind and number.
    fn object(&mut self, kind: Kind, number: u64) -> Result<Option<ObjectRow>, StoreFault>
        ensures found { Finds meaning (λ x. x) result self.old self.new (λ c. object_at kind number c.objects) }
        ensures reads { Reads faults meaning result self.old self.new };

    /// The account of the registered object of a kind and number.
    fn owner(&mut self, kind: Kind, number: u64) -> Result<Option<u16>, StoreFault>
        ensures found { Finds meaning (λ x. x) result self.old self.new
            (λ c. option_map (λ row. row.account) (object_at kind number c.objects)) }
        ensures reads { Reads faults meaning result self.old self.new };

    /// The request of a number, without the object that it asks to register.
    fn request(&mut self, number: u64) -> Result<Option<RequestSummary>, StoreFault>
        ensures found { Finds meaning (λ x. x) result self.old self.new
            (λ c. option_map request_summary (request_at number c.requests)) }
        ensures reads { Reads faults meaning result self.old self.new };

    /// What was decided on the request of a number.
    fn request_status(&mut self, number: u64) -> Result<Option<RequestStatus>, StoreFault>
        ensures found { Finds meaning (λ x. x) result self.old self.new
            (λ c. option_map (λ row. row.status) (request_at number c.requests)) }
        ensures reads { Reads faults meaning result self.old self.new };

    /// Whether an account, which needn't have a row, is a reviewer of a test session.
    fn is_reviewer(&mut self, session: u64, account: u16) -> Result<bool, StoreFault>
        ensures found { Finds meaning (λ x. x) result self.old self.new (λ c. is_reviewer session account c.reviewers) }
        ensures reads { Reads faults meaning result self.old self.new };

    /// The accounts that are reviewers of a test session.
    fn reviewers_of(&mut self, session: u64) -> Result<Vec<u16>, StoreFault>
        ensures found { Finds meaning (λ v. v.items) result self.old self.new (λ c. reviewers_of session c.reviewers) }
        ensures reads { Reads faults meaning result self.old self.new };

    /// How many of these rows an account has.
    fn count(&mut self, account: u16, of: Counted) -> Result<u64, StoreFault>
        ensures found { Finds meaning (λ x. x) result self.old self.new (count_of of account) }
        ensures reads { Reads faults meaning result self.old self.new };

    /// How many rows an account has.
    fn counts(&mut self, account: u16) -> Result<Counts, StoreFault>
        ensures found { Finds meaning (λ x. x) result self.old self.new (counts_of account) }
        ensures reads { Reads faults meaning result self.old self.new };

    /// So many test sessions of an account, from the offset on.
    fn sessions(
        &mut self,
        account: u16,
        offset: u64,
        limit: u64,
    ) -> Result<Vec<SessionRow>, StoreFault>
        ensures found { Finds meaning (λ v. v.items) result self.old self.new
            (λ c. page offset limit (sessions_of account c.sessions)) }
        ensures reads { Reads faults meaning result self.old self.new };

    /// So many registered objects of a kind and of an account, from the offset on.
    fn objects(
        &mut self,
        kind: Kind,
        account: u16,
        offset: u64,
        limit: u64,
    ) -> Result<Vec<ObjectRow>, StoreFault>
        ensures found { Finds meaning (λ v. v.items) result self.old self.new
            (λ c. page offset limit (objects_of kind account c.objects)) }
        ensures reads { Reads faults meaning result self.old self.new };

    /// So many requests of an account, from the offset on.
    fn requests(
        &mut self,
        account: u16,
        offset: u64,
        limit: u64,
    ) -> Result<Vec<RequestSummary>, StoreFault>
        ensures found { Finds meaning (λ v. v.items) result self.old self.new
            (λ c. page offset limit (map request_summary (requests_of account c.requests))) }
        ensures reads { Reads faults meaning result self.old self.new };

    /// The greatest epoch of all vector sets; none where there is no set.
    fn greatest_epoch(&mut self) -> Result<Option<u64>, StoreFault>
        ensures found { Finds meaning (λ x. x) result self.old self.new (λ c. greatest_epoch_of c.sets) }
        ensures reads { Reads faults meaning result self.old self.new };

    /// Makes the change that a grant is leave for, and spends the grant. The change stays the caller's.
    fn apply(&mut self, grant: Grant, change: &Change) -> Result<(), StoreFault>
        requires covers { Covers grant change.now }
        requires fits { Fits change.now }
        ensures { Changes faults meaning result self.old self.new (after change.now) };

    /// Makes the change of an operator's order.
    fn order(&mut self, change: &OrderChange) -> Result<(), StoreFault>
        ensures { Changes faults meaning result self.old self.new (after_order change.now) };

    /// A law: a store is open, or it is shut.
    ghost decides: { (t : Self) → meaning.is_open t ⊎ (meaning.is_open t → ⊥) };

    /// A law: the disk of an open store is clean.
    ghost clean: { (t : Self) → meaning.is_open t → meaning.is_clean t };

    /// A law: a store at rest leaves what it stands for, and that alone.
    ghost rests: { (t : Self) (c d : Content) → meaning.is_open t → meaning.stands t c → meaning.leaves t c d };
}
