//! The bodies of requests.

ghost use Rattle.std.specs.Prelude.{◌≡◌, ◌⊎◌, map, Some, None, IfOk, IfErr};
ghost use Rattle.acvp_mac.specs.Conditions.{first_broken, with_fault};
ghost use Rattle.acvp_caps.specs.Registered.{registration_at, registration_conditions};
ghost use Rattle.acvp_json.specs.CertifyBody.{certify_body_conditions, certify_body_of};
ghost use Rattle.acvp_json.specs.Envelope.{envelope_conditions, object_of};
ghost use Rattle.acvp_json.specs.LoginBody.{login_body_conditions};
ghost use Rattle.acvp_json.specs.ReviewerBody.{reviewer_body_conditions};
ghost use Rattle.acvp_json.specs.View.{view};
ghost use Rattle.acvp_registry.specs.Object.{object_conditions};
ghost use Rattle.acvp_desk.specs.Asked.{certified_in, kept_as, object_in};
ghost use Rattle.acvp_desk.specs.Bodies.{rule_of, registration_rule, object_rule, body_conditions};
ghost use Rattle.acvp_desk.specs.Login.{login_at};
ghost use Rattle.acvp_desk.specs.NewSessions.{registration_in};
ghost use Rattle.acvp_desk.specs.Reviewers.{reviewer_at};
ghost use Rattle.acvp_desk.specs.Submissions.{answers_at, answers_conditions};

use acvp_answers::Answers;
use acvp_caps::{CapFault, Registration, read_registration};
use acvp_gen::Prompts;
use acvp_json::{
    BodyFault, CertifyBody, LoginBody, open_envelope, read_answers, read_certify, read_login,
    read_reviewer,
};
use acvp_mac::{joined_conditions, renamed_conditions};
use acvp_policy::Rule;
use acvp_registry::{Kind, Object, RegFault, read_object};
use serde_json::Value;
use std::alloc::{AllocError, Global};

/// The rule of a body's fault.
fn rule_of(fault: BodyFault) -> Rule
    ensures { result ≡ rule_of fault }
{
    match fault {
        BodyFault::BodyNotJson => Rule::BodyNotJson,
        BodyFault::BodyEnvelope => Rule::BodyEnvelope,
        BodyFault::BodyField => Rule::BodyField,
        BodyFault::UnknownTest => Rule::UnknownTest,
        BodyFault::DuplicateTest => Rule::DuplicateTest,
        BodyFault::SetMismatch => Rule::SetMismatch,
        BodyFault::NoReference => Rule::NoReference,
        BodyFault::Memory => Rule::Unavailable,
    }
}

/// The object of a body, or the rule of the first condition on its envelope that doesn't hold.
fn opened(alloc: Global, body: &[u8]) -> Result<Value, Rule>
    ensures ok { IfOk result (λ object. (first_broken (map (with_fault rule_of) (envelope_conditions body.now)) ≡ None)
        × (object_of body.now ≡ Some (view object))) }
    ensures err { IfErr result (λ rule. (rule ≡ Rule.Unavailable)
        ⊎ (first_broken (map (with_fault rule_of) (envelope_conditions body.now)) ≡ Some rule)) }
{
    renamed_conditions::<BodyFault, Rule>();
    match open_envelope(alloc, body) {
        Ok(object) => Ok(object),
        Err(fault) => Err(rule_of(fault)),
    }
}

/// What the body of a login says, or the rule of the first condition on it that doesn't hold.
pub(crate) fn login_body(alloc: Global, body: &[u8]) -> Result<LoginBody, Rule>
    ensures ok { IfOk result (λ login. (first_broken (body_conditions rule_of login_body_conditions body.now) ≡ None)
        × (login_at body.now ≡ Some login)) }
    ensures err { IfErr result (λ rule. (rule ≡ Rule.Unavailable)
        ⊎ (first_broken (body_conditions rule_of login_body_conditions body.now) ≡ Some rule)) }
{
    joined_conditions::<Rule>();
    renamed_conditions::<BodyFault, Rule>();
    let object = match opened(alloc, body) {
        Ok(object) => object,
        Err(rule) => return Err(rule),
    };
    match read_login(alloc, &object) {
        Ok(login) => Ok(login),
        Err(fault) => Err(rule_of(fault)),
    }
}

/// The rule of a registration's fault.
fn registration_rule(fault: CapFault) -> Rule
    ensures { result ≡ registration_rule fault }
{
    match fault {
        CapFault::Field => Rule::BodyField,
        CapFault::NotByteOriented => Rule::NotByteOriented,
        CapFault::OutOfRange => Rule::LengthOutOfRange,
        CapFault::Unsupported => Rule::Unsupported,
        CapFault::Memory => Rule::Unavailable,
    }
}

/// What the object of a new session registers, or the rule of the first condition on it that doesn't hold.
#[tactic(auto, unfolding(acvp_caps::specs::Registered::registered))]
fn registration_said(alloc: Global, object: &Value) -> Result<Registration, Rule>
    ensures ok { IfOk result
        (λ registration. (first_broken (map (with_fault registration_rule) (registration_conditions (view object.now)))
        ≡ None) × (registration_at (view object.now) ≡ registration)) }
    ensures err { IfErr result (λ rule. (rule ≡ Rule.Unavailable)
        ⊎ (first_broken (map (with_fault registration_rule) (registration_conditions (view object.now))) ≡ Some rule)) }
{
    renamed_conditions::<CapFault, Rule>();
    match read_registration(alloc, object) {
        Ok(registration) => Ok(registration),
        Err(fault) => Err(registration_rule(fault)),
    }
}

/// What the body of a new session registers, or the rule of the first condition on it that doesn't hold.
#[tactic(auto, unfolding(crate::specs::NewSessions::registration_in))]
pub(crate) fn registration_body(alloc: Global, body: &[u8]) -> Result<Registration, Rule>
    ensures ok { IfOk result
        (λ registration. (first_broken (body_conditions registration_rule registration_conditions body.now) ≡ None)
        × (registration_in body.now ≡ Some registration)) }
    ensures err { IfErr result (λ rule. (rule ≡ Rule.Unavailable)
        ⊎ (first_broken (body_conditions registration_rule registration_conditions body.now) ≡ Some rule)) }
{
    joined_conditions::<Rule>();
    let object = match opened(alloc, body) {
        Ok(object) => object,
        Err(rule) => return Err(rule),
    };
    registration_said(alloc, &object)
}

/// The account that the body of an added reviewer names, or the rule of the first condition on it that doesn't hold.
pub(crate) fn reviewer_body(alloc: Global, body: &[u8]) -> Result<u16, Rule>
    ensures ok { IfOk result (λ account. (first_broken (body_conditions rule_of reviewer_body_conditions body.now)
        ≡ None) × (reviewer_at body.now ≡ Some account)) }
    ensures err { IfErr result (λ rule. (rule ≡ Rule.Unavailable)
        ⊎ (first_broken (body_conditions rule_of reviewer_body_conditions body.now) ≡ Some rule)) }
{
    joined_conditions::<Rule>();
    renamed_conditions::<BodyFault, Rule>();
    let object = match opened(alloc, body) {
        Ok(object) => object,
        Err(rule) => return Err(rule),
    };
    match read_reviewer(&object) {
        Ok(account) => Ok(account),
        Err(fault) => Err(rule_of(fault)),
    }
}

/// The answers that a body gives to the tests of these prompts, or the rule of the first condition on it that doesn't
/// hold.
pub(crate) fn answers_body(alloc: Global, body: &[u8], prompts: &Prompts) -> Result<Answers, Rule>
    ensures ok { IfOk result (λ answers. (first_broken (answers_conditions prompts.now body.now) ≡ None)
        × (answers_at prompts.now body.now ≡ Some answers)) }
    ensures err { IfErr result (λ rule. (rule ≡ Rule.Unavailable)
        ⊎ (first_broken (answers_conditions prompts.now body.now) ≡ Some rule)) }
{
    joined_conditions::<Rule>();
    renamed_conditions::<BodyFault, Rule>();
    let object = match opened(alloc, body) {
        Ok(object) => object,
        Err(rule) => return Err(rule),
    };
    match read_answers(alloc, &object, prompts) {
        Ok(answers) => Ok(answers),
        Err(fault) => Err(rule_of(fault)),
    }
}

// ---- bodies that name rows, which are read before the rows are looked up: want of memory is told apart

/// The object of a body, or the rule of the first condition on its envelope that doesn't hold.
fn opened_read(alloc: Global, body: &[u8]) -> Result<Result<Value, Rule>, AllocError>
    ensures ok { IfOk result
        (λ read. IfOk read (λ object. (first_broken (map (with_fault rule_of) (envelope_conditions body.now)) ≡ None)
        × (object_of body.now ≡ Some (view object)))) }
    ensures err { IfOk result
        (λ read. IfErr read (λ rule. first_broken (map (with_fault rule_of) (envelope_conditions body.now))
        ≡ Some rule)) }
{
    renamed_conditions::<BodyFault, Rule>();
    match open_envelope(alloc, body) {
        Ok(object) => Ok(Ok(object)),
        Err(BodyFault::Memory) => Err(AllocError),
        Err(fault) => Ok(Err(rule_of(fault))),
    }
}

/// The rule of the fault of an object that is to be registered.
fn object_rule(fault: RegFault) -> Rule
    ensures { result ≡ object_rule fault }
{
    match fault {
        RegFault::Field => Rule::BodyField,
        RegFault::NoReference => Rule::NoReference,
        RegFault::Memory => Rule::Unavailable,
    }
}

/// What is kept of the object of a registration, or the rule of the first condition on it that doesn't hold.
#[tactic(auto, unfolding(acvp_registry::specs::Object::object_fault))]
fn object_said(
    alloc: Global,
    kind: Kind,
    object: &Value,
) -> Result<Result<Object, Rule>, AllocError>
    ensures ok { IfOk result
        (λ read. IfOk read (λ kept. (first_broken
        (map (with_fault object_rule) (object_conditions kind (view object.now))) ≡ None)
        × (kept ≡ kept_as kind (view object.now)))) }
    ensures err { IfOk result
        (λ read. IfErr read (λ rule. first_broken
        (map (with_fault object_rule) (object_conditions kind (view object.now))) ≡ Some rule)) }
{
    renamed_conditions::<RegFault, Rule>();
    match read_object(alloc, kind, object) {
        Ok(kept) => Ok(Ok(kept)),
        Err(RegFault::Memory) => Err(AllocError),
        Err(fault) => Ok(Err(object_rule(fault))),
    }
}

/// The object of a kind that a body asks to register, or the rule of the first condition on it that doesn't hold.
pub(crate) fn object_read(
    alloc: Global,
    kind: Kind,
    body: &[u8],
) -> Result<Result<Object, Rule>, AllocError>
    ensures { IfOk result (λ read. read ≡ object_in kind body.now) }
{
    match opened_read(alloc, body)? {
        Ok(object) => object_said(alloc, kind, &object),
        Err(rule) => Ok(Err(rule)),
    }
}

/// What the object of a certification names, or the rule of the first condition on it that doesn't hold.
fn certify_said(object: &Value) -> Result<CertifyBody, Rule>
    ensures ok { IfOk result
        (λ parts. (first_broken (map (with_fault rule_of) (certify_body_conditions (view object.now))) ≡ None)
        × (certify_body_of (view object.now) ≡ Some parts)) }
    ensures err { IfErr result
        (λ rule. first_broken (map (with_fault rule_of) (certify_body_conditions (view object.now))) ≡ Some rule) }
{
    renamed_conditions::<BodyFault, Rule>();
    match read_certify(object) {
        Ok(parts) => Ok(parts),
        Err(fault) => Err(rule_of(fault)),
    }
}

/// The module and the environment that a body asks to certify, or the rule of the first condition on it that doesn't
/// hold.
pub(crate) fn certify_read(
    alloc: Global,
    body: &[u8],
) -> Result<Result<CertifyBody, Rule>, AllocError>
    ensures { IfOk result (λ read. read ≡ certified_in body.now) }
{
    match opened_read(alloc, body)? {
        Ok(object) => Ok(certify_said(&object)),
        Err(rule) => Ok(Err(rule)),
    }
}
