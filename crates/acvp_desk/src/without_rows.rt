//! Who is answered where there are no records.

ghost use Rattle.std.specs.Prelude.{◌≡◌, ℕ, Err};
ghost use Rattle.acvp_policy.specs.declared.rule.Rule.{Rule};
ghost use Rattle.acvp_tables.specs.Content.{no_rows};
ghost use Rattle.acvp_tables.specs.State.{state_of};
ghost use Rattle.acvp_desk.specs.Answer.{answer};
ghost use Rattle.acvp_desk.specs.Request.{RequestValue};
ghost use Rattle.acvp_desk.specs.declared.keys.Keys.{Keys};

/// Without a row each request is refused by a rule, be it a login or a caller's: an account has to be there, that of
/// the login or of the token.
pub fn nobody_is_accepted_without_rows()
    ensures { (keys : Keys) (moment : ℕ) (r : RequestValue)
        → (rule : Rule) × (answer keys moment r (state_of no_rows) ≡ Err rule) }
{}
