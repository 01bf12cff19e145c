//! What holds of the records under the keys of a later run: its seeds are those of the earlier ones, and more behind
//! them.

ghost use Rattle.std.specs.Prelude.{◌++◌, ℕ, List, Option};
ghost use Rattle.acvp_tables.specs.Content.{Content};
ghost use Rattle.acvp_desk.specs.Certifications.{IsLeft};
ghost use Rattle.acvp_desk.specs.Desk.{HasSeeds};
ghost use Rattle.acvp_desk.specs.Kept.{IsKept};

/// What holds of the records at all times under some seeds, or is so after every run, holds where more seeds come behind
/// them, and no vector set's seed is missing then.
pub fn records_outlast_keys()
    ensures kept { (seeds more : List (List ℕ)) (c : Content) → IsKept seeds c → IsKept (seeds ++ more) c }
    ensures left { (seeds more : List (List ℕ)) (c : Content) → IsLeft seeds c → IsLeft (seeds ++ more) c }
    ensures seeded { (seeds more : List (List ℕ)) (greatest : Option ℕ) → HasSeeds seeds greatest
        → HasSeeds (seeds ++ more) greatest }
{}
