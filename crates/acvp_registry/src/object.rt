//! What is kept of a vendor, a module or an operational environment.
ghost use Rattle.std.specs.Prelude.{◌≡◌, ◌⊎◌, IfOk, IfErr, MatchResult, None, Some, false, string_bytes};
ghost use Rattle.serde_json.specs.View.{view};
ghost use Rattle.serde_json.specs.Written.{has_float};
ghost use Rattle.acvp_registry.specs.Json.{body_json};
ghost use Rattle.acvp_registry.specs.Object.{object_text, object_name, object_vendor, vendor_of, is_registered};
ghost use Rattle.acvp_registry.specs.Object.{has_name, has_vendor_url, has_fields, is_readable, names_vendor};
ghost use Rattle.acvp_registry.specs.Object.{object_fault, put_url, with_url_data};

use crate::depth::is_within;
use crate::fault::RegFault;
use crate::floats::has_float;
use crate::json::text_member;
use crate::kind::Kind;
use crate::url::{object_url, url_number};
use serde_json::{Value, put};
use std::alloc::{AllocError, Global};
use std::marker::Model;

/// The most bytes of an object's text.
const TEXT_LIMIT: usize = 16384;

/// The most arrays and objects in one another. Text that nests deeper isn't read.
const DEPTH_LIMIT: usize = 127;

/// What is kept of a vendor, a module or an operational environment: its kind, and the JSON object that a request gave,
/// which fits the kind. It is made by reading it.
#[derive(Drop)]
pub struct Object {
    kind: Kind,
    value: Value,
    text: String,
}

impl Model for Object {
    ghost use Rattle.std.specs.Prelude.{string_bytes};
    ghost use Rattle.serde_json.specs.View.{view as data_of};
    ghost use Rattle.acvp_registry.specs.Object.{KeptObject};

    ghost Value = { KeptObject };

    ghost use Rattle.acvp_registry.specs.Private.Code.{kept_code};

    ghost coded = { kept_code };

    ghost use Rattle.acvp_registry.specs.Private.Invariant.{IsKeptText};

    ghost view = { λ o. record { kind = o.kind; value = data_of o.value } };

    ghost invariant = { λ o. IsKeptText (record { kind = o.kind; value = data_of o.value }) (string_bytes o.text) };
}

impl Clone for Object {
    ghost is_clone = { λ it copy. copy ≡ it };

    fn clone(&self) -> Result<Object, AllocError> {
        let value = self.value.clone()?;
        let text = self.text.clone()?;
        Ok(Object {
            kind: self.kind,
            value,
            text,
        })
    }
}

impl Object {
    /// Its kind, which is none of a certification.
    pub fn kind(&self) -> Kind
        ensures value { result ≡ self.now.kind }
        ensures fit { object_fault self.now.kind self.now.value ≡ None }
    {
        self.kind
    }

    /// The text of its member `name`, which has at least one byte.
    #[tactic(auto, unfolding(crate::specs::Object::object_name))]
    pub fn name(&self) -> &str
        ensures { result.now ≡ object_name self.now }
    {
        text_member(&self.value, "name").unwrap_or("")
    }

    /// The number of a module's vendor; none of the other kinds. Whether the vendor is there isn't asked.
    #[tactic(auto, unfolding(crate::specs::Object::object_vendor))]
    pub fn vendor(&self) -> Option<u64>
        ensures { result ≡ object_vendor self.now }
    {
        vendor_of(self.kind, &self.value)
    }

    /// Its compact text, of at most 16384 bytes.
    pub fn text(&self) -> &str
        ensures value { result.now ≡ object_text self.now }
        ensures reads_back { body_json result.now ≡ Some self.now.value }
    {
        self.text.as_str()
    }
}

/// The number of the vendor that a module names.
fn vendor_of(kind: Kind, value: &Value) -> Option<u64>
    ensures { result ≡ vendor_of kind (view value.now) }
{
    match kind {
        Kind::Module => url_number(Kind::Vendor, text_member(value, "vendorUrl")?),
        Kind::Vendor | Kind::Environment | Kind::Certification => None,
    }
}

/// Whether an object of this kind is registered.
fn is_registered(kind: Kind) -> bool
    ensures { result ≡ is_registered kind }
{
    match kind {
        Kind::Vendor | Kind::Module | Kind::Environment => true,
        Kind::Certification => false,
    }
}

/// Whether it is an object with a `name` of at least one byte.
fn has_name(value: &Value) -> bool
    ensures { result ≡ has_name (view value.now) }
{
    match text_member(value, "name") {
        Some(name) => !name.is_empty(),
        None => false,
    }
}

/// Whether a module has a text as its `vendorUrl`.
fn has_vendor_url(kind: Kind, value: &Value) -> bool
    ensures { result ≡ has_vendor_url kind (view value.now) }
{
    match kind {
        Kind::Module => text_member(value, "vendorUrl").is_some(),
        Kind::Vendor | Kind::Environment | Kind::Certification => true,
    }
}

/// Whether it has the members that an object of this kind needs.
fn has_fields(kind: Kind, value: &Value) -> bool
    ensures { result ≡ has_fields kind (view value.now) }
{
    is_registered(kind) && has_name(value) && has_vendor_url(kind, value)
}

/// Whether it has no float and nests no deeper than texts are read: else it has no compact text that reads back as it.
fn is_readable(value: &Value) -> bool
    ensures { result ≡ is_readable (view value.now) }
{
    !has_float(value) && is_within(value, DEPTH_LIMIT)
}

/// Whether a module's `vendorUrl` is the URL of a vendor.
#[tactic(auto, unfolding(crate::specs::Object::names_vendor))]
fn names_vendor(kind: Kind, value: &Value) -> bool
    ensures { result ≡ names_vendor kind (view value.now) }
{
    match kind {
        Kind::Module => vendor_of(kind, value).is_some(),
        Kind::Vendor | Kind::Environment | Kind::Certification => true,
    }
}

/// What is kept of a JSON value of this kind. The faults are Field, NoReference and Memory; of a certification it is
/// always Field. Members that aren't known are kept. Whether a module's vendor is there isn't asked.
pub fn read_object(alloc: Global, kind: Kind, value: &Value) -> Result<Object, RegFault>
    ensures { MatchResult result
        (λ object. (object_fault kind (view value.now) ≡ None)
        × (object ≡ record { kind = kind; value = view value.now }))
        (λ fault. (fault ≡ RegFault.Memory) ⊎ (object_fault kind (view value.now) ≡ Some fault)) }
{
    if !has_fields(kind, value) || !is_readable(value) {
        return Err(RegFault::Field);
    }
    let text = value.to_string(alloc)?;
    if text.len() > TEXT_LIMIT {
        return Err(RegFault::Field);
    }
    if !names_vendor(kind, value) {
        return Err(RegFault::NoReference);
    }
    let value = value.clone()?;
    Ok(Object { kind, value, text })
}

/// The value with a text at `url`, in the place of the member that was there.
fn put_url(alloc: Global, value: Value, url: String) -> Result<Value, AllocError>
    ensures { IfOk result (λ with_url. view with_url ≡ put_url (string_bytes url) (view value)) }
{
    match value {
        Value::Object(mut members) => {
            put(&mut members, alloc, "url", Value::String(url))?;
            Ok(Value::Object(members))
        }
        other => Ok(other),
    }
}

/// The object with `url` set to the URL of its kind and this number, in the place of a `url` that was there. The fault
/// is Memory.
pub fn with_url(alloc: Global, object: &Object, number: u64) -> Result<Value, RegFault>
    ensures value { IfOk result (λ value. view value ≡ with_url_data object.now number) }
    ensures plain { IfOk result (λ value. has_float (view value) ≡ false) }
    ensures memory { IfErr result (λ fault. fault ≡ RegFault.Memory) }
{
    let value = object.value.clone()?;
    match object_url(alloc, object.kind, number)? {
        Some(url) => Ok(put_url(alloc, value, url)?),
        None => Ok(value),
    }
}
