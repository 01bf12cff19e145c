//! The lengths that are tested: ends and edges of a domain, and members that are drawn.

ghost use Rattle.std.specs.Prelude.{◌≡◌, ◌≤◌, ◌+◌, ◌++◌, length, IfOk};
ghost use Rattle.std.specs.List.Sorted.{IsStrictlyIncreasing};
ghost use Rattle.acvp_gen.specs.Private.Candidates.{candidates};
ghost use Rattle.acvp_gen.specs.Choice.{ends_and_edges, drawn, message_edges, message_lengths, key_lengths};
ghost use Rattle.acvp_gen.specs.Choice.{mac_lengths, message_draws, key_draws};
ghost use Rattle.acvp_gen.specs.Private.Generator.{moved};

use crate::generator::Generator;
use acvp_caps::{Algorithm, Domain};
use std::alloc::{AllocError, Global};

/// How many lengths of messages are drawn.
const MESSAGE_DRAWS: u64 = 16;

/// How many lengths of keys are drawn.
const KEY_DRAWS: u64 = 2;

/// The members that are the least, the greatest or an edge, ascending.
fn ends_and_edges(alloc: Global, edges: &[u64], domain: &Domain) -> Result<Vec<u64>, AllocError>
    requires { IsStrictlyIncreasing domain.now }
    ensures value { IfOk result (λ lengths. lengths.items ≡ ends_and_edges edges.now domain.now) }
    ensures few { IfOk result (λ lengths. length lengths.items ≤ length edges.now + 2) }
{
    let mut lengths = candidates(alloc, edges, domain)?;
    lengths.sort_unstable();
    lengths.dedup();
    Ok(lengths)
}

/// The same in no order, and maybe more than once.
fn candidates(alloc: Global, edges: &[u64], domain: &Domain) -> Result<Vec<u64>, AllocError>
    ensures { IfOk result (λ lengths. lengths.items ≡ candidates edges.now domain.now) }
{
    let mut lengths = Vec::new(alloc);
    lengths.push(domain.least())?;
    lengths.push(domain.greatest())?;
    for edge in edges {
        if domain.contains(*edge) {
            lengths.push(*edge)?;
        }
    }
    Ok(lengths)
}

/// Appends so many drawn members, by the first words of the stream. The members are counted once.
fn draw(
    lengths: &mut Vec<u64>,
    words: &mut Generator,
    draws: u64,
    domain: &Domain,
) -> Result<(), AllocError>
    requires few { draws ≤ 16 }
    requires start { words.old.place ≡ 0 }
    ensures value { IfOk result (λ _. lengths.new.items
        ≡ lengths.old.items ++ drawn words.old.seed words.old.vs draws domain.now) }
    ensures len { IfOk result (λ _. length lengths.new.items ≡ length lengths.old.items + draws) }
    ensures moved { IfOk result (λ _. words.new ≡ moved words.old draws) }
{
    let count = domain.count();
    for _ in 0..draws {
        let i = u64::from(words.next_word()) % count;
        lengths.push(domain.member(i))?;
    }
    Ok(())
}

/// The edges of messages, by the bits of a block.
fn message_edges(block_bits: u64) -> [u64; 8]
    ensures { result ≡ message_edges block_bits }
{
    if block_bits == 512 {
        [0, 8, 440, 448, 504, 512, 520, 1024]
    } else {
        [0, 8, 888, 896, 1016, 1024, 1032, 2048]
    }
}

/// The lengths of a hash function's messages, in bits: ends and edges, and then those that are drawn.
pub(crate) fn message_lengths(
    alloc: Global,
    words: &mut Generator,
    algorithm: Algorithm,
    members: &Domain,
) -> Result<Vec<u64>, AllocError>
    requires rising { IsStrictlyIncreasing members.now }
    requires start { words.old.place ≡ 0 }
    ensures value { IfOk result
        (λ lengths. lengths.items ≡ message_lengths words.old.seed words.old.vs algorithm members.now) }
    ensures moved { IfOk result (λ _. words.new ≡ moved words.old message_draws) }
    ensures few { IfOk result (λ lengths. length lengths.items ≤ 26) }
{
    let edges = message_edges(algorithm.block_bits());
    let mut lengths = ends_and_edges(alloc, &edges, members)?;
    draw(&mut lengths, words, MESSAGE_DRAWS, members)?;
    Ok(lengths)
}

/// The lengths of HMAC's keys, in bits: ends and edges, and then those that are drawn.
pub(crate) fn key_lengths(
    alloc: Global,
    words: &mut Generator,
    algorithm: Algorithm,
    keys: &Domain,
) -> Result<Vec<u64>, AllocError>
    requires rising { IsStrictlyIncreasing keys.now }
    requires start { words.old.place ≡ 0 }
    ensures value { IfOk result
        (λ lengths. lengths.items ≡ key_lengths words.old.seed words.old.vs algorithm keys.now) }
    ensures moved { IfOk result (λ _. words.new ≡ moved words.old key_draws) }
    ensures few { IfOk result (λ lengths. length lengths.items ≤ 7) }
{
    let block_bits = algorithm.block_bits();
    let edges = [block_bits - 8, block_bits, block_bits + 8];
    let mut lengths = ends_and_edges(alloc, &edges, keys)?;
    draw(&mut lengths, words, KEY_DRAWS, keys)?;
    Ok(lengths)
}

/// The lengths of MACs, in bits: the least and the greatest, which may be the same.
pub(crate) fn mac_lengths(alloc: Global, macs: &Domain) -> Result<Vec<u64>, AllocError>
    requires { IsStrictlyIncreasing macs.now }
    ensures value { IfOk result (λ lengths. lengths.items ≡ mac_lengths macs.now) }
    ensures few { IfOk result (λ lengths. length lengths.items ≤ 2) }
{
    ends_and_edges(alloc, &[], macs)
}
