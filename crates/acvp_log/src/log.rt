//! A line for each request and order that was served. It holds what is told of them, in the program's own words and
//! numbers.
ghost use Rattle.std.specs.Prelude.{◌≡◌, None};
ghost use Rattle.acvp_log.specs.Log.{IsBegunBy, moment_begun, order_begun};

use crate::asked::{entry_of, named_by};
use crate::form::LogForm;
use crate::line::{Asked, Came, Entry, Number, Refusal, Tail, When, moment_text};
use crate::object::{Shown, shown_value};
use acvp_causes::{Cause, why_refused};
use acvp_http::{Told, order_in};
use acvp_policy::Rule;
use std::alloc::{AllocError, Global};
use std::fmt;
use std::fs::Files;
use std::time::{Clock, Duration, Instant};

/// When what is served was handed on, and what is known of it.
#[derive(Clone, Copy)]
struct Begun {
    moment: u64,
    since: Option<Instant>,

    /// The order and the number that it names.
    order: (Asked, Option<u64>),
}

/// The object of a line for which memory ran out.
const WITHOUT_MEMORY: &str =
    "{\"account\":null,\"action\":null,\"because\":\"little memory is left\",\"milliseconds\":0,\"result\":null,\"sent\":false,\"status\":null,\"subject\":null,\"time\":null}";

/// What the lines are made of, and what is being served.
#[derive(Drop)]
pub struct Log {
    alloc: Global,
    form: LogForm,
    begun: Begun,
}

/// A word, or none where it is that of nothing.
fn unless_none(word: &str) -> Option<&str> {
    match word {
        "-" => None,
        word => Some(word),
    }
}

impl Log {
    /// A log of this form, in which nothing is being served.
    pub fn new(alloc: Global, form: LogForm) -> Log
        ensures { order_begun result ≡ (None, None) }
    {
        Log {
            alloc,
            form,
            begun: Begun {
                moment: 0,
                since: None,
                order: (Asked::Nothing, None),
            },
        }
    }

    /// A request is handed on, at this moment.
    pub fn begin<C: Clock>(&mut self, clock: &C, moment: u64)
        ensures moment { moment_begun self.new ≡ moment }
        ensures order { order_begun self.new ≡ (None, None) }
    {
        self.begun = Begun {
            moment,
            since: Instant::now(clock).ok(),
            order: (Asked::Nothing, None),
        };
    }

    /// A line that is to be an order is handed on, at this moment.
    pub fn begin_order<C: Clock>(&mut self, clock: &C, moment: u64, line: &[u8])
        ensures moment { moment_begun self.new ≡ moment }
        ensures order { IsBegunBy line.now (order_begun self.new) }
    {
        self.begin(clock, moment);
        if let Some((_, order)) = order_in(line) {
            self.begun.order = named_by(&order);
        }
    }

    /// How long it has taken so far, in milliseconds.
    fn milliseconds<C: Clock>(&self, clock: &C) -> u64 {
        let Some(since) = self.begun.since else {
            return 0;
        };
        let taken = since.elapsed(clock).unwrap_or(Duration::ZERO).as_millis();
        u64::try_from(taken).unwrap_or(u64::MAX)
    }

    /// The text of a line as a JSON object.
    fn object_text<E: fmt::Display + Copy>(
        &self,
        entry: Entry<E>,
        milliseconds: u64,
    ) -> Result<String, AllocError> {
        let alloc = self.alloc;
        let (asked, came) = (entry.asked, entry.came);
        let time = moment_text(alloc, self.begun.moment)?;
        let action = format!(in alloc; "{asked}")?;
        let result = format!(in alloc; "{came}")?;
        let because = match entry.tail.because {
            Some(cause) => Some(format!(in alloc; "{cause}")?),
            None => None,
        };
        let shown = Shown {
            account: entry.account.map(u64::from),
            action: unless_none(action.as_str()),
            because: because.as_ref().map(|text| text.as_str()),
            milliseconds,
            result: unless_none(result.as_str()),
            sent: !entry.tail.unsent && !matches!(came, Came::Broken),
            status: entry.status,
            subject: entry.subject,
            time: time.as_str(),
        };
        shown_value(alloc, shown)?.to_string(alloc)
    }

    /// Writes a line as a JSON object.
    fn write_object<R: Eprint, E: fmt::Display + Copy>(
        &self,
        rt: &R,
        entry: Entry<E>,
        milliseconds: u64,
    ) {
        let _ = match self.object_text(entry, milliseconds) {
            Ok(text) => eprintln!(rt; "{text}"),
            Err(_) => eprintln!(rt; "{WITHOUT_MEMORY}"),
        };
    }

    /// Writes a line.
    fn write<R: Clock + Eprint, E: fmt::Display + Copy>(&self, rt: &R, entry: Entry<E>) {
        let milliseconds = self.milliseconds(rt);
        match self.form {
            LogForm::Words => self.write_words(rt, entry, milliseconds),
            LogForm::Json => self.write_object(rt, entry, milliseconds),
        }
    }

    /// Writes a line in words and numbers.
    fn write_words<R: Eprint, E: fmt::Display + Copy>(
        &self,
        rt: &R,
        entry: Entry<E>,
        milliseconds: u64,
    ) {
        let Entry {
            account,
            asked,
            subject,
            status,
            came,
            tail,
        } = entry;
        let moment = self.begun.moment;
        let told = moment_text(self.alloc, moment).ok();
        let text = told.as_ref().map(|text| text.as_str());
        let when = When { text, moment };
        let account = Number(account.map(u64::from));
        let subject = Number(subject);
        let status = Number(status);
        let _ = eprintln!(rt;
            "{when} {account} {asked} {subject} {status} {came} {milliseconds}{tail}"
        );
    }

    /// Writes the line of a request. `told` is none if its connection broke; `sent` says whether its whole reply was
    /// handed out.
    pub fn tell_request<R: Clock + Eprint + Files>(
        &self,
        rt: &R,
        alloc: Global,
        database: &str,
        told: Option<Told>,
        sent: bool,
    ) {
        let mut entry = entry_of(told);
        let because = match entry.came {
            Came::Refused(
                Refusal {
                    rule: Rule::ClockOutOfRange,
                },
            ) => Some(Cause::Clock),
            Came::Refused(
                Refusal {
                    rule: Rule::Unavailable,
                },
            ) => Some(why_refused(rt, alloc, database)),
            _ => None,
        };
        let unsent = !sent && !matches!(entry.came, Came::Broken);
        entry.tail = Tail { unsent, because };
        self.write(rt, entry);
    }

    /// Writes the line of an order that is done, or that was refused with this word, and why where that isn't all.
    pub fn tell_order<R: Clock + Eprint, E: fmt::Display + Copy>(
        &self,
        rt: &R,
        refused: Option<E>,
        because: Option<Cause>,
    ) {
        let (asked, subject) = self.begun.order;
        let came = match refused {
            Some(word) => Came::Refused(word),
            None => Came::Done,
        };
        let unsent = false;
        let entry = Entry {
            account: None,
            asked,
            subject,
            status: None,
            came,
            tail: Tail { unsent, because },
        };
        self.write(rt, entry);
    }
}
