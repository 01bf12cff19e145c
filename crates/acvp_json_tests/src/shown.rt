//! Replies, and the texts that they are written as.

use crate::lines::is_so;
use acvp_json::{Page, ReplyObject, write_reply};
use std::alloc::Global;
use std::process::Abort;

/// The text of a reply.
pub(crate) fn text_of<'a>(rt: &impl Abort, alloc: Global, reply: &'a ReplyObject<'a>) -> String {
    let text = write_reply(alloc, reply).ok().expect(rt, "memory");
    String::from_utf8(text).ok().expect(rt, "a text")
}

/// That a reply is written as this text.
pub(crate) fn is<'a>(rt: &impl Abort, alloc: Global, reply: &'a ReplyObject<'a>, wanted: &str) {
    let text = text_of(rt, alloc, reply);
    is_so(rt, text.as_str() == wanted, wanted);
}

/// A page of a list.
pub(crate) fn page(offset: u64, limit: u64) -> Page {
    Page { offset, limit }
}
