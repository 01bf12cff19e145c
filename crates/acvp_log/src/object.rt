//! A line as a JSON object.
ghost use Rattle.std.specs.Prelude.{◌≡◌, IfOk};
ghost use Rattle.serde_json.specs.View.{view};
ghost use Rattle.acvp_log.specs.Objects.{shown_data};

use acvp_json::{number_or_null, text_or_null};
use serde_json::{Value, json};
use std::alloc::{AllocError, Global};

/// What a line tells, in texts and numbers.
#[derive(Clone, Copy)]
pub(crate) struct Shown<'a> {
    pub account: Option<u64>,
    pub action: Option<&'a str>,
    pub because: Option<&'a str>,
    pub milliseconds: u64,
    pub result: Option<&'a str>,
    pub sent: bool,
    pub status: Option<u64>,
    pub subject: Option<u64>,
    pub time: &'a str,
}

/// What a line tells, as an object whose members ascend.
pub(crate) fn shown_value(alloc: Global, shown: Shown<'_>) -> Result<Value, AllocError>
    ensures { IfOk result (λ value. view value ≡ shown_data shown.entry) }
{
    let action = text_or_null(alloc, shown.action)?;
    let because = text_or_null(alloc, shown.because)?;
    let result = text_or_null(alloc, shown.result)?;
    json!(in alloc; {
        "account": number_or_null(shown.account),
        "action": action,
        "because": because,
        "milliseconds": shown.milliseconds,
        "result": result,
        "sent": shown.sent,
        "status": number_or_null(shown.status),
        "subject": number_or_null(shown.subject),
        "time": shown.time
    })
}
