//! What the conditions come to: whether records have what every run keeps.
ghost use Rattle.std.specs.Prelude.{◌≡◌, ℕ, List, Bool, None, Some, false, true};
ghost use Rattle.acvp_desk.specs.Certifications.{AreCertified, IsLeft};
ghost use Rattle.acvp_desk.specs.Epochs.{AreInEpochs};
ghost use Rattle.acvp_desk.specs.Kept.{IsKept};
ghost use Rattle.acvp_desk.specs.Registrations.{AreRegistered};
ghost use Rattle.acvp_mac.specs.Conditions.{first_broken};
ghost use Rattle.acvp_tables.specs.Content.{Content};
ghost use Rattle.acvp_tables.specs.Counted.{IsCounted};
ghost use Rattle.acvp_tables.specs.State.{AreWellNumbered, is_account_number};
ghost use Rattle.acvp_check.specs.Conditions.{all_conditions, is_beyond_kept};
ghost use Rattle.acvp_check.specs.Order.{AreInOrder, HaveSameRows};
ghost use Rattle.acvp_check.specs.Owners.{owner_conditions};
ghost use Rattle.acvp_check.specs.Rows.{AreNumbered, rows_numbered, rows_of};
ghost use Rattle.acvp_check.specs.Whole.{IsWhole};
ghost use Rattle.acvp_check.specs.declared.finding.Finding.{Finding as FindingValue};

/// Records have what every run keeps where each row is of the account that its number names, and no condition on an
/// account's rows is broken. Without the verdicts they are well numbered, counted, certified, registered and in epochs
/// so.
pub fn whole_records_are_left()
    ensures left { (seeds : List (List ℕ)) (c : Content) → IsWhole true seeds c → IsLeft seeds c }
    ensures numbered { (grades : Bool) (seeds : List (List ℕ)) (c : Content)
        → IsWhole grades seeds c → AreWellNumbered c }
    ensures counted { (grades : Bool) (seeds : List (List ℕ)) (c : Content) → IsWhole grades seeds c → IsCounted c }
    ensures certified { (grades : Bool) (seeds : List (List ℕ)) (c : Content)
        → IsWhole grades seeds c → AreCertified c }
    ensures registered { (grades : Bool) (seeds : List (List ℕ)) (c : Content)
        → IsWhole grades seeds c → AreRegistered c }
    ensures epochs { (grades : Bool) (seeds : List (List ℕ)) (c : Content) → IsWhole grades seeds c → AreInEpochs c }
{}

/// No run leaves records where a condition is broken: one on whose a row is, or one on an account's rows. Unless it is
/// one on certifications, registrations, epochs or answers' tests, such records aren't kept either.
pub fn wrong_records_are_not_left()
    ensures owner { (seeds : List (List ℕ)) (c : Content) (found : FindingValue)
        → first_broken (owner_conditions c) ≡ Some found → ¬ IsKept seeds c }
    ensures account { (grades : Bool) (seeds : List (List ℕ)) (u : ℕ) (c : Content) (found : FindingValue)
        → first_broken (all_conditions grades seeds u (rows_of u c)) ≡ Some found → ¬ IsLeft seeds c }
    ensures kept { (grades : Bool) (seeds : List (List ℕ)) (u : ℕ) (c : Content) (found : FindingValue)
        → first_broken (all_conditions grades seeds u (rows_of u c)) ≡ Some found
        → is_beyond_kept found.wrong ≡ false → ¬ IsKept seeds c }
{}

/// Where records have what every run keeps, so have the same rows in the order of their tables' keys. So a condition
/// that is broken in this order tells that no run leaves the rows in any order.
pub fn ordered_records_are_left()
    ensures kept { (seeds : List (List ℕ)) (c ordered : Content) → HaveSameRows c ordered → AreInOrder ordered
        → IsKept seeds c → IsKept seeds ordered }
    ensures left { (seeds : List (List ℕ)) (c ordered : Content) → HaveSameRows c ordered → AreInOrder ordered
        → IsLeft seeds c → IsLeft seeds ordered }
{}

/// Where each row is of the account that its number names, an account's rows are those with its numbers.
pub fn numbers_select()
    ensures { (u : ℕ) (c : Content) → first_broken (owner_conditions c) ≡ None → rows_numbered u c ≡ rows_of u c }
{}

/// Rows can be judged account by account, those with its numbers, in one pass: where each row has a number of an
/// account and no condition on any account's is broken, the records are whole; and a condition that is broken on the
/// rows with an account's numbers tells that no run leaves the records, and unless it is one on certifications,
/// registrations, epochs or answers' tests, that they aren't kept.
pub fn numbered_rows_tell()
    ensures whole { (grades : Bool) (seeds : List (List ℕ)) (c : Content) → AreNumbered c
        → ((u : ℕ) → is_account_number u ≡ true → first_broken (owner_conditions (rows_numbered u c)) ≡ None)
        → ((u : ℕ) → is_account_number u ≡ true
        → first_broken (all_conditions grades seeds u (rows_numbered u c)) ≡ None) → IsWhole grades seeds c }
    ensures owner { (seeds : List (List ℕ)) (u : ℕ) (c : Content) (found : FindingValue)
        → first_broken (owner_conditions (rows_numbered u c)) ≡ Some found → ¬ IsKept seeds c }
    ensures account { (grades : Bool) (seeds : List (List ℕ)) (u : ℕ) (c : Content) (found : FindingValue)
        → first_broken (all_conditions grades seeds u (rows_numbered u c)) ≡ Some found → ¬ IsLeft seeds c }
    ensures kept { (grades : Bool) (seeds : List (List ℕ)) (u : ℕ) (c : Content) (found : FindingValue)
        → first_broken (all_conditions grades seeds u (rows_numbered u c)) ≡ Some found
        → is_beyond_kept found.wrong ≡ false → ¬ IsKept seeds c }
{}
