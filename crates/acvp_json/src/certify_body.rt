//! The body of a request for certification.
ghost use Rattle.std.specs.Prelude.{◌≡◌, Ok, Err, Some, MatchResult};
ghost use Rattle.serde_json.specs.View.{view};
ghost use Rattle.acvp_json.specs.CertifyBody.{certify_body_of, certify_body_conditions};
ghost use Rattle.acvp_caps.specs.Conditions.{judged};

use crate::fault::BodyFault;
use acvp_caps::json::text_at;
use acvp_registry::{Kind, url_number};
use serde_json::Value;

/// What is to be certified: the numbers of a module and of an operational environment. Whether they are there
/// isn't asked.
#[derive(Clone, Copy, Debug, PartialEq, Eq)]
pub struct CertifyBody {
    pub module: u64,
    pub environment: u64,
}

/// Reads the object of a request for certification. The faults are BodyField and then NoReference; it takes no memory.
pub fn read_certify(object: &Value) -> Result<CertifyBody, BodyFault>
    ensures { MatchResult result
        (λ body. judged (certify_body_conditions (view object.now)) (certify_body_of (view object.now))
        ≡ Ok (Some body))
        (λ fault. judged (certify_body_conditions (view object.now)) (certify_body_of (view object.now)) ≡ Err fault) }
{
    let (Some(module), Some(environment)) = (text_at(object, "moduleUrl"), text_at(object, "oeUrl"))
    else {
        return Err(BodyFault::BodyField);
    };
    let (Some(module), Some(environment)) = (
        url_number(Kind::Module, module),
        url_number(Kind::Environment, environment),
    ) else {
        return Err(BodyFault::NoReference);
    };
    Ok(CertifyBody {
        module,
        environment,
    })
}
