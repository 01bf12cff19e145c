//! Laws on conditions in their order (`specs/Conditions.antt`), by which the crates above state their refusals.
ghost use Rattle.std.specs.Prelude.{◌≡◌, List, ◌++◌, map, option_map};
ghost use Rattle.std.specs.Option.{option_or};
ghost use Rattle.acvp_mac.specs.Conditions.{Condition, first_broken, with_fault};

/// Of conditions after one another the first broken one is that of the front, or else that of the rest.
pub fn joined_conditions<F>()
    ensures { (front rest : List (Condition F))
        → first_broken (front ++ rest) ≡ option_or (first_broken front) (first_broken rest) }
{}

/// Where each fault is told as another, so is that of the first broken condition.
pub fn renamed_conditions<F, G>()
    ensures { (rename : F → G) (conditions : List (Condition F)) →
        first_broken (map (with_fault rename) conditions) ≡ option_map rename (first_broken conditions) }
{}
