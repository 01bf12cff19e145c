//! Which groups of tests a capability gets.

ghost use Rattle.std.specs.Prelude.{◌≡◌, ◌++◌, map, IfOk};
ghost use Rattle.std.specs.List.Sorted.{IsStrictlyIncreasing};
ghost use Rattle.acvp_caps.specs.Capability.{AreLengths, AreDomainsOf};
ghost use Rattle.acvp_gen.specs.Choice.{hash_shape, hash_shapes, hmac_shape, hmac_shapes, shapes_on};
ghost use Rattle.acvp_gen.specs.Choice.{draws_on, message_draws, key_draws};
ghost use Rattle.acvp_gen.specs.Private.Filling.{AreSmall};
ghost use Rattle.acvp_gen.specs.Private.Generator.{moved};

use crate::generator::Generator;
use crate::group::{GroupForm, Sizes};
use crate::lengths::{key_lengths, mac_lengths, message_lengths};
use crate::shape::{Shape, TestShape};
use acvp_caps::{Algorithm, Domain, Domains};
use std::alloc::{AllocError, Global};

/// The bits of an HMAC test's message.
const HMAC_MESSAGE: u64 = 128;

/// How many tests an HMAC group has.
const HMAC_TESTS: usize = 3;

/// A group of a hash function's tests, by the bits of their messages.
fn hash_shape(alloc: Global, form: GroupForm, lengths: &[u64]) -> Result<Shape, AllocError>
    ensures { IfOk result (λ shape. shape ≡ hash_shape form lengths.now) }
{
    let mut tests = Vec::with_capacity(alloc, lengths.len())?;
    for length in lengths {
        tests.push(TestShape {
            key_bits: 0,
            message_bits: *length,
        })?;
    }
    Ok(Shape { form, tests })
}

/// The groups of a hash function: the functional tests, and a Monte Carlo test where three times the digest's bits is a
/// member.
fn hash_shapes(
    alloc: Global,
    words: &mut Generator,
    algorithm: Algorithm,
    members: &Domain,
) -> Result<Vec<Shape>, AllocError>
    requires lengths { AreLengths 0 65536 members.now }
    requires start { words.old.place ≡ 0 }
    ensures value { IfOk result
        (λ shapes. shapes.items ≡ hash_shapes words.old.seed words.old.vs algorithm members.now) }
    ensures moved { IfOk result (λ _. words.new ≡ moved words.old message_draws) }
    ensures small { IfOk result (λ shapes. AreSmall shapes.items) }
{
    let mut shapes = Vec::new(alloc);
    let lengths = message_lengths(alloc, words, algorithm, members)?;
    shapes.push(hash_shape(alloc, GroupForm::Digest, &lengths)?)?;
    let digest_bits = algorithm.digest_bits();
    if members.contains(3 * digest_bits) {
        shapes.push(hash_shape(alloc, GroupForm::MonteCarlo, &[digest_bits])?)?;
    }
    Ok(shapes)
}

/// A group of HMAC's tests, by the bits of their key and of their MAC.
fn hmac_shape(alloc: Global, key_bits: u64, mac_bits: u64) -> Result<Shape, AllocError>
    ensures { IfOk result (λ shape. shape ≡ hmac_shape key_bits mac_bits) }
{
    let test = TestShape {
        key_bits,
        message_bits: HMAC_MESSAGE,
    };
    let sizes = Sizes {
        key_bits,
        message_bits: HMAC_MESSAGE,
        mac_bits,
    };
    Ok(Shape {
        form: GroupForm::Mac(sizes),
        tests: vec![in alloc; test; HMAC_TESTS]?,
    })
}

/// Appends the groups of a key's length, one for each length of a MAC.
fn add_hmac_shapes(
    alloc: Global,
    shapes: &mut Vec<Shape>,
    key_bits: u64,
    macs: &[u64],
) -> Result<(), AllocError>
    ensures { IfOk result (λ _. shapes.new.items ≡ shapes.old.items ++ map (hmac_shape key_bits) macs.now) }
{
    for mac_bits in macs {
        shapes.push(hmac_shape(alloc, key_bits, *mac_bits)?)?;
    }
    Ok(())
}

/// The groups of HMAC, one for each pair of a key's length and a MAC's.
fn hmac_shapes(
    alloc: Global,
    words: &mut Generator,
    algorithm: Algorithm,
    keys: &Domain,
    macs: &Domain,
) -> Result<Vec<Shape>, AllocError>
    requires keys { AreLengths 8 524288 keys.now }
    requires macs { IsStrictlyIncreasing macs.now }
    requires start { words.old.place ≡ 0 }
    ensures value { IfOk result
        (λ shapes. shapes.items ≡ hmac_shapes words.old.seed words.old.vs algorithm keys.now macs.now) }
    ensures moved { IfOk result (λ _. words.new ≡ moved words.old key_draws) }
    ensures small { IfOk result (λ shapes. AreSmall shapes.items) }
{
    let mut shapes = Vec::new(alloc);
    let macs = mac_lengths(alloc, macs)?;
    for key_bits in &key_lengths(alloc, words, algorithm, keys)? {
        add_hmac_shapes(alloc, &mut shapes, *key_bits, &macs)?;
    }
    Ok(shapes)
}

/// The groups of an algorithm and its domains. What is drawn takes the first words of the stream.
pub(crate) fn shapes_on(
    alloc: Global,
    words: &mut Generator,
    algorithm: Algorithm,
    domains: &Domains,
) -> Result<Vec<Shape>, AllocError>
    requires fit { AreDomainsOf algorithm domains.now }
    requires start { words.old.place ≡ 0 }
    ensures value { IfOk result
        (λ shapes. shapes.items ≡ shapes_on words.old.seed words.old.vs algorithm domains.now) }
    ensures moved { IfOk result (λ _. words.new ≡ moved words.old (draws_on domains.now)) }
    ensures small { IfOk result (λ shapes. AreSmall shapes.items) }
{
    match domains {
        Domains::Message(members) => hash_shapes(alloc, words, algorithm, members),
        Domains::KeyAndMac { key, mac } => hmac_shapes(alloc, words, algorithm, key, mac),
    }
}
