//! The body that names an account as a reviewer.
ghost use Rattle.std.specs.Prelude.{◌≡◌, Ok, Err, Some, MatchResult};
ghost use Rattle.serde_json.specs.View.{view};
ghost use Rattle.acvp_caps.specs.Conditions.{judged};
ghost use Rattle.acvp_json.specs.ReviewerBody.{reviewer_body_of, reviewer_body_conditions};

use crate::fault::BodyFault;
use acvp_caps::json::number_at;
use serde_json::Value;

/// Reads the number of the account that is to review, from 1 to 9999; whether it is there isn't asked. The fault is
/// BodyField; it takes no memory.
pub fn read_reviewer(object: &Value) -> Result<u16, BodyFault>
    ensures { MatchResult result
        (λ account. judged (reviewer_body_conditions (view object.now)) (reviewer_body_of (view object.now))
        ≡ Ok (Some account))
        (λ fault. judged (reviewer_body_conditions (view object.now)) (reviewer_body_of (view object.now))
        ≡ Err fault) }
{
    match number_at(object, "account") {
        Some(account) if 1 <= account && account <= 9999 => Ok(account as u16),
        _ => Err(BodyFault::BodyField),
    }
}
