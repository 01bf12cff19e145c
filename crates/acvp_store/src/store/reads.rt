//! The reads that assume nothing of the rows: those of an account's numbers, or one that stands for nothing.
ghost use Rattle.std.specs.Prelude.{◌≡◌, ℤ, true, Some, None, IsTrue, IfOk, IfErr};
ghost use Rattle.std.specs.List.{AllByRecursion, filter};
ghost use Rattle.acvp_tables.specs.Content.{kind_number};
ghost use Rattle.sqlite.specs.Held.{state};
ghost use Rattle.acvp_store.specs.Connection.{InStore, IsRead};
ghost use Rattle.acvp_store.specs.Ranges.{is_between, IsTree, AreFull, IsRange, HasStrayRow, HasRowOutside};
ghost use Rattle.acvp_store.specs.Ranges.{first_set, last_set, set_number, KeepsSets, IsSetRow, FitsSet};
ghost use Rattle.acvp_store.specs.Ranges.{first_number, last_number, FitsAccount, FitsRequest, FitsSession};
ghost use Rattle.acvp_store.specs.Ranges.{IsAccountRow, IsRequestRow, IsSessionRow};
ghost use Rattle.acvp_store.specs.Rows.{account_tree, account_key, HoldsAccounts};
ghost use Rattle.acvp_store.specs.Rows.{session_tree, session_key, HoldsSessions};
ghost use Rattle.acvp_store.specs.Ranges.{is_object_between, KeepsObjects, IsObjectRow, FitsObject, IsRegisteredWithin};
ghost use Rattle.acvp_store.specs.Ranges.{is_column_between, HasNumberBetween, IsReviewerRow, FitsReviewer};
ghost use Rattle.acvp_store.specs.Stands.{object_tree, set_tree, reviewer_tree, HoldsReviewers};
ghost use Rattle.acvp_store.specs.Stands.{request_tree, request_key, HoldsRequests};

use super::SqlTables;
use crate::object_ranges::{object_outside, objects_numbered};
use crate::ranges::{
    RangeFault, account_outside, accounts_between, session_outside, sessions_numbered,
};
use crate::request_ranges::{request_outside, requests_numbered};
use crate::reviewer_ranges::{reviewer_outside, reviewers_numbered};
use crate::set_ranges::{set_outside, sets_numbered};
use acvp_registry::Kind;
use acvp_tables::{AccountRow, ObjectRow, RequestRow, ReviewerRow, SessionRow, SetRow, StoreFault};
use sqlite::Alter;

impl<S: Alter> SqlTables<S> {
    /// The test sessions whose numbers begin with an account's.
    pub fn sessions_numbered(&mut self, account: u16) -> Result<Vec<SessionRow>, RangeFault>
        ensures rows { IsTrue (state S.Store self.new).is_open
            → IfOk result (λ found. IsTree ((state S.Store self.old).now.trees session_tree)
            → IsRange HoldsSessions session_key (first_number account) (last_number account)
            ((state S.Store self.old).now.trees session_tree) found.items) }
        ensures stray { IsTrue (state S.Store self.new).is_open
            → IfErr result (λ fault. (number : ℤ) → fault ≡ RangeFault.Stray number
            → HasStrayRow HoldsSessions IsSessionRow FitsSession
            (is_between (first_number account) (last_number account)) 0 number
            ((state S.Store self.old).now.trees session_tree)) }
        ensures read { IsRead result (state S.Store self.old) (state S.Store self.new) }
    {
        sessions_numbered(self.alloc, &mut self.connection, account)
    }

    /// A test session whose number begins with no account's, 1 to 9999, if there is one.
    pub fn session_outside(&mut self) -> Result<Option<i64>, StoreFault>
        ensures none { IsTrue (state S.Store self.new).is_open
            → IfOk result (λ found. IsTree ((state S.Store self.old).now.trees session_tree) → found ≡ None
            → AllByRecursion (λ row. is_between (first_number 1) (last_number 9999) row ≡ true)
            ((state S.Store self.old).now.trees session_tree)) }
        ensures some { IsTrue (state S.Store self.new).is_open
            → IfOk result (λ found. (number : ℤ) → found ≡ Some number
            → HasRowOutside (λ row. is_between (first_number 1) (last_number 9999) row ≡ true) 0 number
            ((state S.Store self.old).now.trees session_tree)) }
        ensures read { IsRead result (state S.Store self.old) (state S.Store self.new) }
    {
        session_outside(&mut self.connection)
    }

    /// The accounts with these numbers.
    pub fn accounts_between(&mut self, first: u16, last: u16) -> Result<Vec<AccountRow>, RangeFault>
        ensures rows { IsTrue (state S.Store self.new).is_open
            → IfOk result (λ found. IsTree ((state S.Store self.old).now.trees account_tree)
            → AreFull 5 ((state S.Store self.old).now.trees account_tree)
            → IsRange HoldsAccounts account_key first last ((state S.Store self.old).now.trees account_tree)
            found.items) }
        ensures stray { IsTrue (state S.Store self.new).is_open
            → IfErr result (λ fault. (number : ℤ) → fault ≡ RangeFault.Stray number
            → HasStrayRow HoldsAccounts IsAccountRow FitsAccount (is_between first last) 0 number
            ((state S.Store self.old).now.trees account_tree)) }
        ensures read { IsRead result (state S.Store self.old) (state S.Store self.new) }
    {
        accounts_between(self.alloc, &mut self.connection, first, last)
    }

    /// An account whose number isn't one, 1 to 9999, if there is one.
    pub fn account_outside(&mut self) -> Result<Option<i64>, StoreFault>
        ensures none { IsTrue (state S.Store self.new).is_open
            → IfOk result (λ found. IsTree ((state S.Store self.old).now.trees account_tree) → found ≡ None
            → AllByRecursion (λ row. is_between 1 9999 row ≡ true) ((state S.Store self.old).now.trees account_tree)) }
        ensures some { IsTrue (state S.Store self.new).is_open
            → IfOk result (λ found. (number : ℤ) → found ≡ Some number
            → HasRowOutside (λ row. is_between 1 9999 row ≡ true) 0 number
            ((state S.Store self.old).now.trees account_tree)) }
        ensures read { IsRead result (state S.Store self.old) (state S.Store self.new) }
    {
        account_outside(&mut self.connection)
    }

    /// The requests whose numbers begin with an account's.
    pub fn requests_numbered(&mut self, account: u16) -> Result<Vec<RequestRow>, RangeFault>
        ensures rows { IsTrue (state S.Store self.new).is_open
            → IfOk result (λ found. IsTree ((state S.Store self.old).now.trees request_tree)
            → AreFull 7 ((state S.Store self.old).now.trees request_tree)
            → IsRange HoldsRequests request_key (first_number account) (last_number account)
            ((state S.Store self.old).now.trees request_tree) found.items) }
        ensures stray { IsTrue (state S.Store self.new).is_open
            → IfErr result (λ fault. (number : ℤ) → fault ≡ RangeFault.Stray number
            → HasStrayRow HoldsRequests IsRequestRow FitsRequest
            (is_between (first_number account) (last_number account)) 0 number
            ((state S.Store self.old).now.trees request_tree)) }
        ensures read { IsRead result (state S.Store self.old) (state S.Store self.new) }
    {
        requests_numbered(self.alloc, &mut self.connection, account)
    }

    /// A request whose number begins with no account's, 1 to 9999, if there is one.
    pub fn request_outside(&mut self) -> Result<Option<i64>, StoreFault>
        ensures none { IsTrue (state S.Store self.new).is_open
            → IfOk result (λ found. IsTree ((state S.Store self.old).now.trees request_tree) → found ≡ None
            → AllByRecursion (λ row. is_between (first_number 1) (last_number 9999) row ≡ true)
            ((state S.Store self.old).now.trees request_tree)) }
        ensures some { IsTrue (state S.Store self.new).is_open
            → IfOk result (λ found. (number : ℤ) → found ≡ Some number
            → HasRowOutside (λ row. is_between (first_number 1) (last_number 9999) row ≡ true) 0 number
            ((state S.Store self.old).now.trees request_tree)) }
        ensures read { IsRead result (state S.Store self.old) (state S.Store self.new) }
    {
        request_outside(&mut self.connection)
    }

    /// The vector sets whose numbers begin with an account's.
    pub fn sets_numbered(&mut self, account: u16) -> Result<Vec<SetRow>, RangeFault>
        ensures rows { IsTrue (state S.Store self.new).is_open
            → IfOk result (λ found. InStore (state S.Store self.old).now
            (λ layout. IsTree ((state S.Store self.old).now.trees (set_tree layout))
            → IsRange KeepsSets set_number (first_set account) (last_set account)
            ((state S.Store self.old).now.trees (set_tree layout)) found.items)) }
        ensures stray { IsTrue (state S.Store self.new).is_open
            → IfErr result (λ fault. InStore (state S.Store self.old).now
            (λ layout. (number : ℤ) → fault ≡ RangeFault.Stray number
            → HasStrayRow KeepsSets IsSetRow FitsSet (is_between (first_set account) (last_set account)) 0 number
            ((state S.Store self.old).now.trees (set_tree layout)))) }
        ensures read { IsRead result (state S.Store self.old) (state S.Store self.new) }
    {
        sets_numbered(self.alloc, &mut self.connection, account)
    }

    /// A vector set whose number begins with no account's, 1 to 9999, if there is one.
    pub fn set_outside(&mut self) -> Result<Option<i64>, StoreFault>
        ensures none { IsTrue (state S.Store self.new).is_open
            → IfOk result (λ found. InStore (state S.Store self.old).now
            (λ layout. IsTree ((state S.Store self.old).now.trees (set_tree layout)) → found ≡ None
            → AllByRecursion (λ row. is_between (first_set 1) (last_set 9999) row ≡ true)
            ((state S.Store self.old).now.trees (set_tree layout)))) }
        ensures some { IsTrue (state S.Store self.new).is_open
            → IfOk result (λ found. InStore (state S.Store self.old).now (λ layout. (number : ℤ) → found ≡ Some number
            → HasRowOutside (λ row. is_between (first_set 1) (last_set 9999) row ≡ true) 0 number
            ((state S.Store self.old).now.trees (set_tree layout)))) }
        ensures read { IsRead result (state S.Store self.old) (state S.Store self.new) }
    {
        set_outside(&mut self.connection)
    }

    /// The objects of a kind whose numbers begin with an account's. A stray one is told by its number.
    pub fn objects_numbered(
        &mut self,
        kind: Kind,
        account: u16,
    ) -> Result<Vec<ObjectRow>, RangeFault>
        ensures rows { IsTrue (state S.Store self.new).is_open
            → IfOk result (λ found. IsTree ((state S.Store self.old).now.trees object_tree)
            → KeepsObjects (filter (is_object_between (kind_number kind) (first_number account) (last_number account))
            ((state S.Store self.old).now.trees object_tree)) found.items) }
        ensures stray { IsTrue (state S.Store self.new).is_open
            → IfErr result (λ fault. (number : ℤ) → fault ≡ RangeFault.Stray number
            → HasStrayRow KeepsObjects IsObjectRow FitsObject
            (is_object_between (kind_number kind) (first_number account) (last_number account)) 2 number
            ((state S.Store self.old).now.trees object_tree)) }
        ensures read { IsRead result (state S.Store self.old) (state S.Store self.new) }
    {
        objects_numbered(self.alloc, &mut self.connection, kind, account)
    }

    /// The number of an object that isn't of one of the three kinds, or whose number begins with no account's, 1 to
    /// 9999, if there is one.
    pub fn object_outside(&mut self) -> Result<Option<i64>, StoreFault>
        ensures none { IsTrue (state S.Store self.new).is_open
            → IfOk result (λ found. found ≡ None
            → AllByRecursion (IsRegisteredWithin 9999) ((state S.Store self.old).now.trees object_tree)) }
        ensures some { IsTrue (state S.Store self.new).is_open
            → IfOk result (λ found. (number : ℤ) → found ≡ Some number
            → HasRowOutside (IsRegisteredWithin 9999) 2 number ((state S.Store self.old).now.trees object_tree)) }
        ensures read { IsRead result (state S.Store self.old) (state S.Store self.new) }
    {
        object_outside(&mut self.connection)
    }

    /// The reviewers of the test sessions whose numbers begin with an account's. A stray one is told by its session's
    /// number.
    pub fn reviewers_numbered(&mut self, account: u16) -> Result<Vec<ReviewerRow>, RangeFault>
        ensures rows { IsTrue (state S.Store self.new).is_open
            → IfOk result (λ found. InStore (state S.Store self.old).now
            (λ layout. IsTree ((state S.Store self.old).now.trees (reviewer_tree layout))
            → HoldsReviewers (filter (is_column_between 1 (first_number account) (last_number account))
            ((state S.Store self.old).now.trees (reviewer_tree layout))) found.items)) }
        ensures stray { IsTrue (state S.Store self.new).is_open
            → IfErr result (λ fault. InStore (state S.Store self.old).now
            (λ layout. (number : ℤ) → fault ≡ RangeFault.Stray number
            → HasStrayRow HoldsReviewers IsReviewerRow FitsReviewer
            (is_column_between 1 (first_number account) (last_number account)) 1 number
            ((state S.Store self.old).now.trees (reviewer_tree layout)))) }
        ensures read { IsRead result (state S.Store self.old) (state S.Store self.new) }
    {
        reviewers_numbered(self.alloc, &mut self.connection, account)
    }

    /// The session of a reviewer whose number begins with no account's, 1 to 9999, if there is one.
    pub fn reviewer_outside(&mut self) -> Result<Option<i64>, StoreFault>
        ensures none { IsTrue (state S.Store self.new).is_open
            → IfOk result (λ found. InStore (state S.Store self.old).now (λ layout. found ≡ None
            → AllByRecursion (HasNumberBetween 1 (first_number 1) (last_number 9999))
            ((state S.Store self.old).now.trees (reviewer_tree layout)))) }
        ensures some { IsTrue (state S.Store self.new).is_open
            → IfOk result (λ found. InStore (state S.Store self.old).now (λ layout. (number : ℤ) → found ≡ Some number
            → HasRowOutside (HasNumberBetween 1 (first_number 1) (last_number 9999)) 1 number
            ((state S.Store self.old).now.trees (reviewer_tree layout)))) }
        ensures read { IsRead result (state S.Store self.old) (state S.Store self.new) }
    {
        reviewer_outside(&mut self.connection)
    }
}
