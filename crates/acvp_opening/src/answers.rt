//! What the server that has a database answers to an order.
ghost use Rattle.std.specs.Prelude.{◌≡◌, string_bytes};
ghost use Rattle.acvp_opening.specs.Answers.{is_refusal, IsFaultOf, Means};

use acvp_commands::Fault;

/// What the server that has a database answers to an order.
#[derive(Drop)]
pub enum Answer {
    /// The order is done, and this line says so.
    Done(String),

    /// It isn't done: the line, and the fault that it tells, if an order can have that.
    Refused(String, Option<Fault>),
}

/// Whether a line says that an order isn't done.
fn is_refusal(line: &[u8]) -> bool
    ensures { result ≡ is_refusal line.now }
{
    line.starts_with(b"fault: ")
}

/// The fault that a line tells, if an order can have it.
fn fault_in(line: &str) -> Option<Fault>
    ensures { IsFaultOf line.now result }
{
    match line {
        "fault: taken" => Some(Fault::Taken),
        "fault: unknown" => Some(Fault::Unknown),
        "fault: notInitial" => Some(Fault::NotInitial),
        "fault: unavailable" => Some(Fault::Unavailable),
        "fault: memory" => Some(Fault::Memory),
        _ => None,
    }
}

/// What a line of the server's means, which has no line feed.
pub(crate) fn meaning_of(line: String) -> Answer
    ensures { Means (string_bytes line) result }
{
    if is_refusal(line.as_bytes()) {
        let fault = fault_in(line.as_str());
        return Answer::Refused(line, fault);
    }
    Answer::Done(line)
}
