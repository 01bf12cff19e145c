//! The bytes of one request, out of a reader: no more of them than the request needs.
ghost use Rattle.std.specs.Prelude.{◌≡◌, ◌++◌, ℕ, List, false, IfSome, MatchResult};
ghost use Rattle.acvp_http.specs.Needed.{IsNeeded};
ghost use Rattle.acvp_http.specs.Private.Head.{ParsesInput};
ghost use Rattle.acvp_http.specs.Source.{Gives};
ghost use Rattle.acvp_http.specs.Connection.{TakesWithin};
ghost use Rattle.acvp_http.specs.declared.receiving.ReceiveFault.TheVariants.{Read};
ghost use Rattle.acvp_http.specs.Private.Receiving.{TakesFew, TakesOfHead, StopsReceiving, TakesByte, IsHeadTaken};
ghost use Rattle.acvp_http.specs.Private.Receiving.{TakesPiece, IsBodyTaken};

use crate::head::{HEAD_BYTES, Head, ends_with_empty_line, headless, parse_block};
use crate::reading::{read_byte, read_some};
use crate::source::{ReadFault, Source};
use acvp_policy::Rule;
use std::alloc::Global;

/// As many bytes of a body as are asked of the reader at once.
const PIECE_BYTES: usize = 8192;

/// Why a request isn't received.
#[derive(Clone, Copy)]
pub(crate) enum ReceiveFault {
    Read(ReadFault),

    /// Memory for its bytes was refused.
    Memory,
}

impl From<ReadFault> for ReceiveFault {
    ghost from_gives = { λ read fault. fault ≡ Read read };

    fn from(read: ReadFault) -> ReceiveFault {
        ReceiveFault::Read(read)
    }
}

/// Takes one more byte, and says whether there was one.
fn take_byte<S: Source>(
    reader: &mut S,
    limit: u64,
    bytes: &mut Vec<u8>,
) -> Result<bool, ReceiveFault>
    requires { (S.stream reader.old).failed ≡ false }
    ensures { MatchResult result
        (λ more. ((S.stream reader.new).failed ≡ false)
        × TakesByte more (S.stream reader.old) (S.stream reader.new) bytes.old.items bytes.new.items)
        (λ fault. StopsReceiving fault (S.stream reader.new) limit
        × TakesFew 1 (S.stream reader.old) (S.stream reader.new)) }
{
    match read_byte(reader, limit)? {
        None => Ok(false),
        Some(byte) => match bytes.push(byte) {
            Ok(()) => Ok(true),
            Err(_) => Err(ReceiveFault::Memory),
        },
    }
}

/// The block of a head with its empty line; or as many bytes as a head may have, or as there are, without one.
fn read_head<S: Source>(alloc: Global, reader: &mut S, limit: u64) -> Result<Vec<u8>, ReceiveFault>
    requires { (S.stream reader.old).failed ≡ false }
    ensures { MatchResult result
        (λ bytes. ((S.stream reader.new).failed ≡ false) × Gives (S.stream reader.old) (S.stream reader.new) bytes.items
        × IsHeadTaken (S.stream reader.new).held bytes.items)
        (λ fault. StopsReceiving fault (S.stream reader.new) limit
        × TakesOfHead (S.stream reader.old) (S.stream reader.new)) }
{
    let mut bytes = Vec::new(alloc);
    for _ in 0..HEAD_BYTES {
        if !take_byte(reader, limit, &mut bytes)? {
            return Ok(bytes);
        }
        if ends_with_empty_line(&bytes) {
            return Ok(bytes);
        }
    }
    Ok(bytes)
}

/// Takes some of the bytes that are wanted, as many as a read gives, and says how many. They are none only at the end,
/// or where none is wanted.
fn take_piece<S: Source>(
    reader: &mut S,
    limit: u64,
    wanted: usize,
    bytes: &mut Vec<u8>,
) -> Result<usize, ReceiveFault>
    requires { (S.stream reader.old).failed ≡ false }
    ensures { MatchResult result
        (λ count. ((S.stream reader.new).failed ≡ false)
        × TakesPiece wanted count (S.stream reader.old) (S.stream reader.new) bytes.old.items bytes.new.items)
        (λ fault. StopsReceiving fault (S.stream reader.new) limit
        × TakesFew wanted (S.stream reader.old) (S.stream reader.new)) }
{
    let mut piece = [0; PIECE_BYTES];
    let room = wanted.min(PIECE_BYTES);
    let count = read_some(reader, limit, &mut piece[..room])?;
    match bytes.extend_from_slice(&piece[..count]) {
        Ok(()) => Ok(count),
        Err(_) => Err(ReceiveFault::Memory),
    }
}

/// Takes so many bytes more, or as many as there are.
fn read_body<S: Source>(
    reader: &mut S,
    limit: u64,
    wanted: usize,
    bytes: &mut Vec<u8>,
) -> Result<(), ReceiveFault>
    requires { (S.stream reader.old).failed ≡ false }
    ensures { MatchResult result
        (λ _. ((S.stream reader.new).failed ≡ false) × ((part : List ℕ) × (bytes.new.items ≡ bytes.old.items ++ part)
        × Gives (S.stream reader.old) (S.stream reader.new) part × IsBodyTaken wanted (S.stream reader.new).held part))
        (λ fault. StopsReceiving fault (S.stream reader.new) limit
        × TakesFew wanted (S.stream reader.old) (S.stream reader.new)) }
{
    let mut left = wanted;
    while left > 0 {
        match take_piece(reader, limit, left, bytes)? {
            0 => return Ok(()),
            count => left -= count,
        }
    }
    Ok(())
}

/// The front of an input that its request needs, and its head, or the rule that refuses it.
#[derive(Drop)]
pub(crate) struct Received {
    pub bytes: Vec<u8>,
    pub head: Result<Head, Rule>,
}

/// The front of what is read that its request needs, with the head that was parsed to know how much that is.
pub(crate) fn receive<S: Source>(
    alloc: Global,
    reader: &mut S,
    limit: u64,
) -> Result<Received, ReceiveFault>
    requires { (S.stream reader.old).failed ≡ false }
    ensures { MatchResult result
        (λ received. ((S.stream reader.new).failed ≡ false)
        × Gives (S.stream reader.old) (S.stream reader.new) received.bytes.items
        × IfSome (S.stream reader.old).held (λ input. IsNeeded input received.bytes.items)
        × ParsesInput received.bytes.items received.head)
        (λ fault. StopsReceiving fault (S.stream reader.new) limit
        × TakesWithin (S.stream reader.old) (S.stream reader.new)) }
{
    let mut bytes = read_head(alloc, reader, limit)?;
    if !ends_with_empty_line(&bytes) {
        let head = Err(headless(&bytes));
        return Ok(Received { bytes, head });
    }
    match parse_block(&bytes) {
        Err(rule) => Ok(Received {
            bytes,
            head: Err(rule),
        }),
        Ok(head) => {
            read_body(reader, limit, head.size, &mut bytes)?;
            Ok(Received {
                bytes,
                head: Ok(head),
            })
        }
    }
}
