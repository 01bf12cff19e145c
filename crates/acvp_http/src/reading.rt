//! The events of a script, one after another, out of a reader.
ghost use Rattle.std.specs.Prelude.{◌≡◌, ◌≤◌, ◌<◌, ◌++◌, ◌∷◌, [], ℕ, List, false, length, take, IfNone, MatchResult};
ghost use Rattle.std.specs.Prelude.{MatchOption, vec_len};
ghost use Rattle.std.specs.Option.{option_to_list};
ghost use Rattle.std.specs.Io.KnownBytes.{IsAtEnd};
ghost use Rattle.acvp_http.specs.Private.Lines.{Lacks};
ghost use Rattle.acvp_http.specs.Private.Reading.{TakesPart, StopsReading, StopsLine, StopsFilling, HasNoBody};
ghost use Rattle.acvp_http.specs.Private.Reading.{StopsBody, StopsEvent, event_of};
ghost use Rattle.acvp_http.specs.Script.{IsWritten, HasNoEvent};
ghost use Rattle.acvp_http.specs.Source.{Gives};

use crate::script::{ScriptFault, ScriptLine, read_line};
use crate::source::{ReadFault, Source, is_interrupted};
use acvp_desk::Order;
use std::alloc::Global;

/// As many bytes as a line has at most, without its line feed: `account-add`, a moment of 19 digits, an account's
/// number of 4 and a secret of 64, with three spaces.
const LONGEST_LINE: usize = 101;

/// Reads some bytes, which are none only at the end or where there is no room. A read that is interrupted is tried
/// again, until the reader was read as often as it may be.
pub(crate) fn read_some<S: Source>(
    reader: &mut S,
    limit: u64,
    buf: &mut [u8],
) -> Result<usize, ReadFault>
    requires { (S.stream reader.old).failed ≡ false }
    ensures { MatchResult result
        (λ count. (count ≤ length buf.new) × ((S.stream reader.new).failed ≡ false)
        × Gives (S.stream reader.old) (S.stream reader.new) (take count buf.new)
        × (count ≡ 0 → 0 < length buf.new → IsAtEnd (S.stream reader.new).held))
        (λ fault. StopsReading fault (S.stream reader.new) limit
        × Gives (S.stream reader.old) (S.stream reader.new) []) }
{
    while reader.reads() < limit {
        match reader.read(buf) {
            Ok(count) => return Ok(count),
            Err(error) => {
                if !is_interrupted(&error) {
                    return Err(ReadFault::Failed);
                }
            }
        }
    }
    Err(ReadFault::TooOften)
}

/// The next byte, or `None` at the end.
pub(crate) fn read_byte<S: Source>(reader: &mut S, limit: u64) -> Result<Option<u8>, ReadFault>
    requires { (S.stream reader.old).failed ≡ false }
    ensures { MatchResult result
        (λ byte. ((S.stream reader.new).failed ≡ false)
        × Gives (S.stream reader.old) (S.stream reader.new) (option_to_list byte)
        × IfNone byte (IsAtEnd (S.stream reader.new).held))
        (λ fault. StopsReading fault (S.stream reader.new) limit
        × Gives (S.stream reader.old) (S.stream reader.new) []) }
{
    let mut byte = [0];
    if read_some(reader, limit, &mut byte)? == 0 {
        Ok(None)
    } else {
        Ok(Some(byte[0]))
    }
}

/// The length of the next line, which stands in `line`, or `None` at the end. A line that is longer is Syntax, and
/// takes no memory.
fn read_whole_line<S: Source>(
    reader: &mut S,
    limit: u64,
    line: &mut [u8],
) -> Result<Option<usize>, ScriptFault>
    requires clear { (S.stream reader.old).failed ≡ false }
    requires room { length line.old ≡ 101 }
    ensures { MatchResult result
        (λ count. ((S.stream reader.new).failed ≡ false) × MatchOption count
        (Gives (S.stream reader.old) (S.stream reader.new) [] × IsAtEnd (S.stream reader.new).held)
        (λ n. (n ≤ 101) × Lacks 10 (take n line.new)
        × Gives (S.stream reader.old) (S.stream reader.new) (take n line.new ++ 10 ∷ [])))
        (λ fault. StopsLine (S.stream reader.old) fault (S.stream reader.new) limit
        × TakesPart (S.stream reader.old) (S.stream reader.new) (Lacks 10)) }
{
    for count in 0..LONGEST_LINE {
        match read_byte(reader, limit)? {
            Some(b'\n') => return Ok(Some(count)),
            Some(byte) => line[count] = byte,
            None if count == 0 => return Ok(None),
            None => return Err(ScriptFault::Syntax),
        }
    }
    match read_byte(reader, limit)? {
        Some(b'\n') => Ok(Some(LONGEST_LINE)),
        Some(_) => Err(ScriptFault::Syntax),
        None => Err(ScriptFault::Syntax),
    }
}

/// Fills the buffer.
fn fill<S: Source>(reader: &mut S, limit: u64, buf: &mut [u8]) -> Result<(), ScriptFault>
    requires { (S.stream reader.old).failed ≡ false }
    ensures { MatchResult result
        (λ _. ((S.stream reader.new).failed ≡ false) × Gives (S.stream reader.old) (S.stream reader.new) buf.new)
        (λ fault. StopsFilling (length buf.old) (S.stream reader.old) fault (S.stream reader.new) limit
        × TakesPart (S.stream reader.old) (S.stream reader.new) (λ part. length part < length buf.old)) }
{
    let mut filled = 0;
    while filled < buf.len() {
        match read_some(reader, limit, &mut buf[filled..])? {
            0 => return Err(ScriptFault::Syntax),
            count => filled += count,
        }
    }
    Ok(())
}

/// The bytes of a request, and the line feed after them.
fn read_request_bytes<S: Source>(
    alloc: Global,
    reader: &mut S,
    limit: u64,
    length: u64,
) -> Result<Vec<u8>, ScriptFault>
    requires { (S.stream reader.old).failed ≡ false }
    ensures { MatchResult result
        (λ bytes. ((S.stream reader.new).failed ≡ false) × (vec_len bytes ≡ length)
        × Gives (S.stream reader.old) (S.stream reader.new) (bytes.items ++ 10 ∷ []))
        (λ fault. StopsBody length (S.stream reader.old) fault (S.stream reader.new) limit
        × TakesPart (S.stream reader.old) (S.stream reader.new) (HasNoBody length)) }
{
    let mut bytes = vec![in alloc; 0; length as usize]?;
    fill(reader, limit, &mut bytes)?;
    match read_byte(reader, limit)? {
        Some(b'\n') => Ok(bytes),
        Some(_) => Err(ScriptFault::Syntax),
        None => Err(ScriptFault::Syntax),
    }
}

/// An event of a script.
#[derive(Drop)]
pub(crate) enum ScriptEvent {
    Request { moment: u64, bytes: Vec<u8> },
    Order { moment: u64, order: Order },
}

/// Reads the next event, or `None` at the end of the input.
pub(crate) fn next_event<S: Source>(
    alloc: Global,
    reader: &mut S,
    limit: u64,
) -> Result<Option<ScriptEvent>, ScriptFault>
    requires { (S.stream reader.old).failed ≡ false }
    ensures { MatchResult result
        (λ event. ((S.stream reader.new).failed ≡ false) × MatchOption event
        (Gives (S.stream reader.old) (S.stream reader.new) [] × IsAtEnd (S.stream reader.new).held)
        (λ read. (front : List ℕ) × IsWritten (event_of read) front
        × Gives (S.stream reader.old) (S.stream reader.new) front))
        (λ fault. StopsEvent (S.stream reader.old) fault (S.stream reader.new) limit
        × TakesPart (S.stream reader.old) (S.stream reader.new) HasNoEvent) }
{
    let mut line = [0; LONGEST_LINE];
    let Some(count) = read_whole_line(reader, limit, &mut line)? else {
        return Ok(None);
    };
    match read_line(&line[..count]) {
        None => Err(ScriptFault::Syntax),
        Some(ScriptLine::Order { moment, order }) => Ok(Some(ScriptEvent::Order { moment, order })),
        Some(ScriptLine::Request { moment, length }) => {
            let bytes = read_request_bytes(alloc, reader, limit, length)?;
            Ok(Some(ScriptEvent::Request { moment, bytes }))
        }
    }
}
