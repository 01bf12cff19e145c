//! The output of a script, piece by piece, into a writer.
ghost use Rattle.std.specs.Prelude.{◌≡◌, ◌++◌, codes, decimal, false};
ghost use Rattle.acvp_http.specs.Event.{replied, ordered};
ghost use Rattle.acvp_http.specs.Script.{answer_text};
ghost use Rattle.acvp_http.specs.Private.Writing.{WritesText};

use crate::source::{Sink, WriteFault};
use crate::text::ShortText;
use acvp_desk::OrderReply;

/// Writes all of the bytes.
pub(crate) fn write_all<K: Sink>(writer: &mut K, bytes: &[u8]) -> Result<(), WriteFault>
    requires { (K.stream writer.old).failed ≡ false }
    ensures { WritesText (K.stream writer.old) (K.stream writer.new) bytes.now result }
{
    let mut written = 0;
    while written < bytes.len() {
        match writer.write(&bytes[written..]) {
            Ok(0) => return Err(WriteFault),
            Ok(count) => written += count,
            Err(_) => return Err(WriteFault),
        }
    }
    Ok(())
}

fn write_both<K: Sink>(writer: &mut K, first: &[u8], second: &[u8]) -> Result<(), WriteFault>
    requires { (K.stream writer.old).failed ≡ false }
    ensures { WritesText (K.stream writer.old) (K.stream writer.new)
        (first.now ++ second.now) result }
{
    write_all(writer, first)?;
    write_all(writer, second)
}

/// The line in front of a reply of this length.
fn reply_line(size: u64) -> ShortText
    ensures { result ≡ codes "reply " ++ decimal size ++ codes "\n" }
{
    let mut line = ShortText::new();
    line.push(b"reply ");
    line.push_number(size);
    line.push(b"\n");
    line
}

/// Writes a reply to a request.
pub(crate) fn write_replied<K: Sink>(writer: &mut K, reply: &[u8]) -> Result<(), WriteFault>
    requires { (K.stream writer.old).failed ≡ false }
    ensures { WritesText (K.stream writer.old) (K.stream writer.new)
        (answer_text (replied reply.now)) result }
{
    let line = reply_line(reply.len() as u64);
    write_both(writer, line.as_slice(), reply)?;
    write_all(writer, b"\n")
}

fn order_text(reply: OrderReply) -> &'static [u8]
    ensures { result.now ≡ answer_text (ordered reply) }
{
    match reply {
        OrderReply::Done(_) => b"order done\n",
        OrderReply::Taken => b"order taken\n",
        OrderReply::Unknown => b"order unknown\n",
        OrderReply::NotInitial => b"order notInitial\n",
        OrderReply::Unavailable => b"order unavailable\n",
    }
}

/// Writes the reply to an order.
pub(crate) fn write_order<K: Sink>(writer: &mut K, reply: OrderReply) -> Result<(), WriteFault>
    requires { (K.stream writer.old).failed ≡ false }
    ensures { WritesText (K.stream writer.old) (K.stream writer.new)
        (answer_text (ordered reply)) result }
{
    write_all(writer, order_text(reply))
}
