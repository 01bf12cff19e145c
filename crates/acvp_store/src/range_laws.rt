//! What is read of ranges says what stands for all rows of a table.
ghost use Rattle.std.specs.Prelude.{◌≡◌, ℕ, true, List, ◌++◌, filter};
ghost use Rattle.std.specs.List.{AllByRecursion};
ghost use Rattle.std.specs.List.Sorted.{IsPermutation};
ghost use Rattle.sqlite_value.specs.Order.{Row as Columns};
ghost use Rattle.acvp_tables.specs.declared.rows.AccountRow.{AccountRow as Account};
ghost use Rattle.acvp_tables.specs.declared.rows.ObjectRow.{ObjectRow as Registration};
ghost use Rattle.acvp_tables.specs.declared.rows.RequestRow.{RequestRow as Request};
ghost use Rattle.acvp_tables.specs.declared.rows.ReviewerRow.{ReviewerRow as Reviewer};
ghost use Rattle.acvp_tables.specs.declared.rows.SessionRow.{SessionRow as Session};
ghost use Rattle.acvp_tables.specs.declared.rows.SetRow.{SetRow as Set};
ghost use Rattle.acvp_store.specs.Ranges.{is_between, is_number_between, IsTree, AreFull, IsRange, AreRanges, joined};
ghost use Rattle.acvp_store.specs.Ranges.{AreRangesBetween, first_number, last_number};
ghost use Rattle.acvp_store.specs.Ranges.{first_set, last_set, set_number, KeepsSets, KeepsObjects, HasNumberBetween};
ghost use Rattle.acvp_store.specs.Ranges.{AreReviewerRanges, AreObjectRanges, IsRegisteredWithin};
ghost use Rattle.acvp_store.specs.Rows.{account_key, HoldsAccounts, session_key, HoldsSessions};
ghost use Rattle.acvp_store.specs.Stands.{request_key, HoldsRequests, HoldsSets, HoldsReviewers, HoldsObjects};

/// What was read of the ranges of all accounts, joined in their order, stands for all rows, where none lies outside.
/// What is read of a range are those of any list that stands for the rows which have such numbers. Rows that stand for
/// a list lie as those of a tree do.
pub fn session_ranges_tell()
    ensures whole { (rows : List Columns) (lists : ℕ → List Session) (last : ℕ) → IsTree rows
        → AreRanges HoldsSessions session_key rows lists last
        → AllByRecursion (λ row. is_between (first_number 1) (last_number last) row ≡ true) rows
        → HoldsSessions rows (joined lists last) }
    ensures known { (first last : ℕ) (rows : List Columns) (found sessions : List Session)
        → HoldsSessions rows sessions → IsRange HoldsSessions session_key first last rows found
        → IsPermutation found (filter (λ s. is_number_between first last s.number) sessions) }
    ensures tree { (rows : List Columns) (sessions : List Session) → HoldsSessions rows sessions → IsTree rows }
{}

/// The same of accounts, which are read in one range.
pub fn account_range_tells()
    ensures whole { (first last : ℕ) (rows : List Columns) (found : List Account)
        → IsRange HoldsAccounts account_key first last rows found
        → AllByRecursion (λ row. is_between first last row ≡ true) rows → HoldsAccounts rows found }
    ensures known { (first last : ℕ) (rows : List Columns) (found accounts : List Account)
        → HoldsAccounts rows accounts → IsRange HoldsAccounts account_key first last rows found
        → IsPermutation found (filter (λ a. is_number_between first last a.number) accounts) }
    ensures tree { (rows : List Columns) (accounts : List Account) → HoldsAccounts rows accounts → IsTree rows }
    ensures full { (rows : List Columns) (accounts : List Account) → HoldsAccounts rows accounts → AreFull 5 rows }
{}

/// What was read of the requests of all accounts, joined in their order, stands for all rows, where none lies outside.
/// Rows that stand for a list lie as those of a tree do, and each has a value for each column.
pub fn request_ranges_tell()
    ensures whole { (rows : List Columns) (lists : ℕ → List Request) (last : ℕ) → IsTree rows
        → AreRanges HoldsRequests request_key rows lists last
        → AllByRecursion (λ row. is_between (first_number 1) (last_number last) row ≡ true) rows
        → HoldsRequests rows (joined lists last) }
    ensures tree { (rows : List Columns) (requests : List Request) → HoldsRequests rows requests → IsTree rows }
    ensures full { (rows : List Columns) (requests : List Request) → HoldsRequests rows requests → AreFull 7 rows }
{}

/// What was read of the vector sets of all accounts, joined in their order, stands for all rows, where none lies
/// outside. Any two lists that rows stand for have the same members. Rows that stand for a list lie as those of a tree
/// do.
pub fn set_ranges_tell()
    ensures whole { (rows : List Columns) (lists : ℕ → List Set) (last : ℕ) → IsTree rows
        → AreRangesBetween first_set last_set KeepsSets set_number rows lists last
        → AllByRecursion (λ row. is_between (first_set 1) (last_set last) row ≡ true) rows
        → KeepsSets rows (joined lists last) }
    ensures same { (rows : List Columns) (found sets : List Set)
        → HoldsSets rows found → HoldsSets rows sets → IsPermutation found sets }
    ensures tree { (rows : List Columns) (sets : List Set) → HoldsSets rows sets → IsTree rows }
{}

/// What was read of the reviewers of all accounts' sessions stands, joined, for all rows, where the number of each
/// row's session begins with one of the accounts'. Any two lists that rows stand for have the same members. Rows that
/// stand for a list lie as those of a tree do.
pub fn reviewer_ranges_tell()
    ensures whole { (rows : List Columns) (lists : ℕ → List Reviewer) (last : ℕ) → IsTree rows
        → AreReviewerRanges rows lists last
        → AllByRecursion (HasNumberBetween 1 (first_number 1) (last_number last)) rows
        → HoldsReviewers rows (joined lists last) }
    ensures same { (rows : List Columns) (found reviewers : List Reviewer)
        → HoldsReviewers rows found → HoldsReviewers rows reviewers → IsPermutation found reviewers }
    ensures tree { (rows : List Columns) (reviewers : List Reviewer) → HoldsReviewers rows reviewers → IsTree rows }
{}

/// The same of registered objects, which are read by kind and account.
pub fn object_ranges_tell()
    ensures whole { (rows : List Columns) (lists : ℕ → ℕ → List Registration) (last : ℕ) → IsTree rows
        → AreObjectRanges rows lists last → AllByRecursion (IsRegisteredWithin last) rows
        → KeepsObjects rows ((joined (lists 1) last ++ joined (lists 2) last) ++ joined (lists 3) last) }
    ensures same { (rows : List Columns) (found objects : List Registration)
        → KeepsObjects rows found → KeepsObjects rows objects → IsPermutation found objects }
    ensures tree { (rows : List Columns) (objects : List Registration) → HoldsObjects rows objects → IsTree rows }
{}
