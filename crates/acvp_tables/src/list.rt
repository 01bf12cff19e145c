//! The records as lists.

ghost use Rattle.std.specs.Prelude.{◌≡◌, ◌≤◌, ◌<◌, ◌⊎◌, IfErr, OnErr, OnOk, filter, length};
ghost use Rattle.std.proofs.Common.{inl, sym};
ghost use Rattle.acvp_tables.specs.Content.{no_rows};
ghost use Rattle.acvp_tables.specs.Changes.{after, after_order, is_set};
ghost use Rattle.acvp_tables.specs.Private.Made.{IsMade};
ghost use Rattle.acvp_tables.specs.State.{owner_of};
ghost use Rattle.acvp_tables.specs.declared.change.Change.TheVariants as change;
ghost use Rattle.acvp_tables.specs.declared.tables.StoreFault.TheVariants.{Memory};
ghost use Rattle.acvp_tables.specs.declared.change.OrderChange.TheVariants as order;

mod accounts;
mod counting;
mod objects;
mod requests;
mod reviewers;
mod sessions;
mod sets;
mod walks;

use crate::change::{
    Approval, CancelledSet, Change, KeptAnswers, NewCertification, NewSession, OrderChange,
    UsedStep,
};
use crate::list::accounts::{AccountIs, Disabled, WholeAccount, WithStep, new_account};
use crate::list::counting::counts_in;
use crate::list::objects::{ItsOwner, ObjectIs, ObjectsOf, WholeObject};
use crate::list::requests::{
    ItsStatus, RequestInShort, RequestIs, RequestsOf, WithStatus, new_certification, new_object,
    new_request,
};
use crate::list::reviewers::{ReviewerIs, add, remove, reviewers_of};
use crate::list::sessions::{
    CancelSession, SessionIs, SessionsOf, WholeSession, WithCertify, WithCounts, WithPassed,
    new_session,
};
use crate::list::sets::{
    CancelSet, ItsCapability, LiveIn, SetInShort, SetIs, greatest_epoch, keep, new_sets, verdicts,
};
use crate::list::walks::{
    all, any, change_all, count, first, first_shown, page, push, push_reserved,
};
use crate::rows::{
    AccountRow, ObjectRow, RequestRow, RequestStatus, ReviewerRow, SessionRow, SetRow,
};
use crate::summary::{Counted, RequestSummary, SetSummary};
use crate::tables::{StoreFault, Tables};
use acvp_answers::Verdict;
use acvp_caps::Capability;
use acvp_policy::{Grant, release};
use acvp_registry::{Counts, Kind};
use std::alloc::{AllocError, Global};
use std::marker::Model;

/// The records in memory, a list for each table.
#[derive(Drop)]
pub struct ListTables {
    alloc: Global,
    accounts: Vec<AccountRow>,
    sessions: Vec<SessionRow>,
    sets: Vec<SetRow>,
    objects: Vec<ObjectRow>,
    requests: Vec<RequestRow>,
    reviewers: Vec<ReviewerRow>,
}

impl Model for ListTables {
    ghost use Rattle.acvp_tables.specs.Content.{Content};

    ghost Value = { Content };

    ghost use Rattle.std.specs.Coded.{codes};
    ghost use Rattle.acvp_tables.specs.contracts.rows.ObjectRow as object_row;
    ghost use Rattle.acvp_tables.specs.contracts.rows.RequestRow as request_row;

    ghost coded = { Prim.hlevel (codes, object_row.the_row.coded, request_row.the_row.coded) };

    ghost view = { λ t. record {
      accounts = t.accounts.items;
      sessions = t.sessions.items;
      sets = t.sets.items;
      objects = t.objects.items;
      requests = t.requests.items;
      reviewers = t.reviewers.items;
    } };
}

impl ListTables {
    /// Without a row. It takes no memory.
    pub fn new(alloc: Global) -> ListTables
        ensures { result ≡ no_rows }
    {
        ListTables {
            alloc,
            accounts: Vec::new(alloc),
            sessions: Vec::new(alloc),
            sets: Vec::new(alloc),
            objects: Vec::new(alloc),
            requests: Vec::new(alloc),
            reviewers: Vec::new(alloc),
        }
    }
}

impl ListTables {
    /// Adds a session and its sets.
    #[tactic(auto, unfolding(crate::specs::Changes::after))]
    fn add_session(&mut self, session: &NewSession) -> Result<(), StoreFault>
        requires { owner_of session.now.number ≡ session.now.account }
        ensures memory { IfErr result (λ fault. fault ≡ Memory) }
        ensures made { IsMade result self.old self.new (after (change.NewSession session.now)) }
    {
        let mut sets = new_sets(self.alloc, session)?;
        self.sessions.reserve(1)?;
        self.sets.append(&mut sets)?;
        push_reserved(&mut self.sessions, new_session(session));
        Ok(())
    }

    /// Keeps the step of a used code.
    #[tactic(auto, unfolding(crate::specs::Changes::after))]
    fn use_step(&mut self, used: UsedStep)
        ensures { self.new ≡ after (change.UseStep used) self.old }
    {
        let account = AccountIs {
            number: used.account,
        };
        change_all(&mut self.accounts, &account, &WithStep { step: used.step });
    }

    /// Cancels a session.
    #[tactic(auto, unfolding(crate::specs::Changes::after))]
    fn cancel_session(&mut self, number: u64)
        ensures { self.new ≡ after (change.CancelSession number) self.old }
    {
        change_all(&mut self.sessions, &SessionIs { number }, &CancelSession);
    }

    /// Takes a reviewer out.
    #[tactic(auto, unfolding(crate::specs::Changes::after))]
    fn remove_reviewer(&mut self, reviewer: ReviewerRow)
        ensures { self.new ≡ after (change.RemoveReviewer reviewer) self.old }
    {
        remove(&mut self.reviewers, reviewer);
    }

    /// Disables an account.
    #[tactic(auto, unfolding(crate::specs::Changes::after_order))]
    fn disable(&mut self, number: u16)
        ensures { self.new ≡ after_order (order.DisableAccount number) self.old }
    {
        change_all(&mut self.accounts, &AccountIs { number }, &Disabled);
    }

    /// Rejects a request.
    #[tactic(auto, unfolding(crate::specs::Changes::after_order))]
    fn reject(&mut self, number: u64)
        ensures { self.new ≡ after_order (order.Reject number) self.old }
    {
        let status = RequestStatus::Rejected;
        change_all(
            &mut self.requests,
            &RequestIs { number },
            &WithStatus { status },
        );
    }

    /// Keeps answers to a set, and how many sets of its session have passed with them.
    #[tactic(auto, unfolding(crate::specs::Changes::after))]
    fn keep_answers(&mut self, kept: &KeptAnswers) -> Result<(), StoreFault>
        ensures memory { IfErr result (λ fault. fault ≡ Memory) }
        ensures ok { length (filter (is_set kept.now.set) self.old.sets) ≤ 1
            → OnOk result (self.new ≡ after (change.KeepAnswers kept.now) self.old) }
        ensures err { OnErr result (self.new ≡ self.old) }
    {
        let graded = kept.graded.clone()?;
        keep(&mut self.sets, kept.set, graded);
        let session = SessionIs {
            number: kept.session,
        };
        change_all(
            &mut self.sessions,
            &session,
            &WithPassed {
                passed: kept.passed,
            },
        );
        Ok(())
    }

    /// Cancels a set, and keeps how many sets its session has without it.
    #[tactic(auto, unfolding(crate::specs::Changes::after))]
    fn cancel_set(&mut self, set: &CancelledSet)
        ensures { self.new ≡ after (change.CancelSet set.now) self.old }
    {
        change_all(&mut self.sets, &SetIs { number: set.set }, &CancelSet);
        let counts = WithCounts {
            live: set.live,
            passed: set.passed,
        };
        change_all(
            &mut self.sessions,
            &SessionIs {
                number: set.session,
            },
            &counts,
        );
    }

    /// Adds a certification request, and keeps its number with its session.
    #[tactic(auto, unfolding(crate::specs::Changes::after))]
    fn certify(&mut self, request: &NewCertification) -> Result<(), StoreFault>
        ensures memory { IfErr result (λ fault. fault ≡ Memory) }
        ensures made { IsMade result self.old self.new (after (change.Certify request.now)) }
    {
        push(&mut self.requests, new_certification(request))?;
        let session = SessionIs {
            number: request.certification.session,
        };
        change_all(
            &mut self.sessions,
            &session,
            &WithCertify {
                request: request.number,
            },
        );
        Ok(())
    }

    /// Approves a request, and registers its object where it asks for one to be registered.
    #[tactic(auto, unfolding(crate::specs::Changes::after_order))]
    fn approve(&mut self, approval: &Approval) -> Result<(), StoreFault>
        ensures memory { IfErr result (λ fault. fault ≡ Memory) }
        ensures made { IsMade result self.old self.new (after_order (order.Approve approval.now)) }
    {
        let asked = first(
            &self.requests,
            &RequestIs {
                number: approval.request,
            },
        );
        let row = match asked {
            Some(row) => new_object(row, approval.approved)?,
            None => None,
        };
        if let Some(row) = row {
            push(&mut self.objects, row)?;
        }
        let status = RequestStatus::Approved(approval.approved);
        change_all(
            &mut self.requests,
            &RequestIs {
                number: approval.request,
            },
            &WithStatus { status },
        );
        Ok(())
    }
}

impl Tables for ListTables {
    ghost faults = { λ fault. fault ≡ Memory };

    ghost meaning = { record {
      stands = λ t c. c ≡ t;
      is_open = λ _. Unit {0};
      is_clean = λ _. Unit {0};
      leaves = λ t c d. (t ≡ c) ⊎ (t ≡ d);
    } };

    ghost decides = { λ t. inl tt };

    ghost clean = { λ t live. live };

    ghost rests = { λ t c d live h. inl (sym h) };

    fn account(&mut self, number: u16) -> Result<Option<AccountRow>, StoreFault> {
        Ok(first_shown(&self.accounts, &AccountIs { number }, &WholeAccount)?)
    }

    fn session(&mut self, number: u64) -> Result<Option<SessionRow>, StoreFault> {
        Ok(first_shown(&self.sessions, &SessionIs { number }, &WholeSession)?)
    }

    fn set(&mut self, number: u64) -> Result<Option<SetSummary>, StoreFault> {
        Ok(first_shown(&self.sets, &SetIs { number }, &SetInShort)?)
    }

    fn capability(&mut self, set: u64) -> Result<Option<Capability>, StoreFault> {
        Ok(first_shown(&self.sets, &SetIs { number: set }, &ItsCapability)?)
    }

    fn verdicts(&mut self, set: u64) -> Result<Option<Vec<Verdict>>, StoreFault> {
        match first(&self.sets, &SetIs { number: set }) {
            Some(row) => Ok(verdicts(self.alloc, row)?),
            None => Ok(None),
        }
    }

    fn sets_of(&mut self, session: u64) -> Result<Vec<SetSummary>, StoreFault> {
        Ok(all(self.alloc, &self.sets, &LiveIn { session }, &SetInShort)?)
    }

    fn object(&mut self, kind: Kind, number: u64) -> Result<Option<ObjectRow>, StoreFault> {
        Ok(first_shown(&self.objects, &ObjectIs { kind, number }, &WholeObject)?)
    }

    fn owner(&mut self, kind: Kind, number: u64) -> Result<Option<u16>, StoreFault> {
        Ok(first_shown(&self.objects, &ObjectIs { kind, number }, &ItsOwner)?)
    }

    fn request(&mut self, number: u64) -> Result<Option<RequestSummary>, StoreFault> {
        Ok(first_shown(&self.requests, &RequestIs { number }, &RequestInShort)?)
    }

    fn request_status(&mut self, number: u64) -> Result<Option<RequestStatus>, StoreFault> {
        Ok(first_shown(&self.requests, &RequestIs { number }, &ItsStatus)?)
    }

    fn is_reviewer(&mut self, session: u64, account: u16) -> Result<bool, StoreFault> {
        Ok(any(&self.reviewers, &ReviewerIs { session, account }))
    }

    fn reviewers_of(&mut self, session: u64) -> Result<Vec<u16>, StoreFault> {
        Ok(reviewers_of(self.alloc, &self.reviewers, session)?)
    }

    fn count(&mut self, account: u16, of: Counted) -> Result<u64, StoreFault> {
        Ok(match of {
            Counted::Sessions => count(&self.sessions, &SessionsOf { account }),
            Counted::Objects(kind) => count(&self.objects, &ObjectsOf { kind, account }),
            Counted::Requests => count(&self.requests, &RequestsOf { account }),
        })
    }

    fn counts(&mut self, account: u16) -> Result<Counts, StoreFault> {
        Ok(counts_in(&self.sessions, &self.objects, &self.requests, account))
    }

    fn sessions(
        &mut self,
        account: u16,
        offset: u64,
        limit: u64,
    ) -> Result<Vec<SessionRow>, StoreFault> {
        let of = SessionsOf { account };
        Ok(page(
            self.alloc,
            &self.sessions,
            &of,
            &WholeSession,
            offset,
            limit,
        )?)
    }

    fn objects(
        &mut self,
        kind: Kind,
        account: u16,
        offset: u64,
        limit: u64,
    ) -> Result<Vec<ObjectRow>, StoreFault> {
        let of = ObjectsOf { kind, account };
        Ok(page(self.alloc, &self.objects, &of, &WholeObject, offset, limit)?)
    }

    fn requests(
        &mut self,
        account: u16,
        offset: u64,
        limit: u64,
    ) -> Result<Vec<RequestSummary>, StoreFault> {
        let of = RequestsOf { account };
        Ok(page(
            self.alloc,
            &self.requests,
            &of,
            &RequestInShort,
            offset,
            limit,
        )?)
    }

    fn greatest_epoch(&mut self) -> Result<Option<u64>, StoreFault> {
        Ok(greatest_epoch(&self.sets))
    }

    #[tactic(auto, unfolding(crate::specs::Changes::after))]
    fn apply(&mut self, grant: Grant, change: &Change) -> Result<(), StoreFault> {
        release(grant);
        match change {
            Change::UseStep(used) => {
                self.use_step(*used);
                Ok(())
            }
            Change::NewSession(session) => self.add_session(session),
            Change::KeepAnswers(kept) => self.keep_answers(kept),
            Change::CancelSession(number) => {
                self.cancel_session(*number);
                Ok(())
            }
            Change::CancelSet(set) => {
                self.cancel_set(set);
                Ok(())
            }
            Change::NewRequest(request) => {
                let row = new_request(request)?;
                push(&mut self.requests, row)
            }
            Change::Certify(request) => self.certify(request),
            Change::AddReviewer(reviewer) => add(&mut self.reviewers, reviewer),
            Change::RemoveReviewer(reviewer) => {
                self.remove_reviewer(*reviewer);
                Ok(())
            }
        }
    }

    #[tactic(auto, unfolding(crate::specs::Changes::after_order))]
    fn order(&mut self, change: &OrderChange) -> Result<(), StoreFault> {
        match change {
            OrderChange::AddAccount(account) => push(&mut self.accounts, new_account(account)),
            OrderChange::DisableAccount(number) => {
                self.disable(*number);
                Ok(())
            }
            OrderChange::Approve(approval) => self.approve(approval),
            OrderChange::Reject(number) => {
                self.reject(*number);
                Ok(())
            }
        }
    }
}
