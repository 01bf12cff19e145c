//! The civil date and time of a moment.
ghost use Rattle.std.specs.Prelude.{◌≡◌, ◌+◌, ◌<◌, IfOk, string_bytes};
ghost use Rattle.acvp_json.specs.Time.{time_of, lifetime};
ghost use Rattle.acvp_json.specs.Private.Civil.{IsCivilTimeOf};

use jiff::civil::DateTime;
use jiff::tz::Offset;
use jiff::{SignedDuration, Timestamp};
use std::alloc::{AllocError, Global};
use std::marker::Model;

/// How long a test session lives, in seconds: thirty days.
const LIFETIME: u64 = 2592000;

/// The civil date and time of a moment in UTC: the start of 1970 and so many seconds. The instants of `jiff` end a day
/// before the year 9999 does.
fn civil_time(moment: u64) -> DateTime
    requires { moment < 253402300800 }
    ensures { IsCivilTimeOf moment result }
{
    let start = Offset::UTC.to_datetime(Timestamp::UNIX_EPOCH);
    match start.checked_add(SignedDuration::from_secs(moment as i64)) {
        Ok(time) => time,
        Err(_) => unreachable!(),
    }
}

/// The text `YYYY-MM-DDTHH:MM:SSZ` of a moment in seconds since 1970, in UTC (RFC 3339, section 5.6). The moment is
/// before the year 10000.
pub fn time_text(alloc: Global, moment: u64) -> Result<String, AllocError>
    requires { moment < 253402300800 }
    ensures { IfOk result (λ text. string_bytes text ≡ time_of moment) }
{
    let time = civil_time(moment);
    format!(in alloc; "{time}Z")
}

/// When a test session was created, in seconds since 1970: so early that it ends before the year 10000.
#[derive(Clone, Copy)]
pub struct Created {
    moment: u64,
}

impl Model for Created {
    ghost use Rattle.std.specs.Prelude.{◌+◌, ◌<◌, ℕ};
    ghost use Rattle.acvp_json.specs.Time.{lifetime};

    ghost Value = { ℕ };

    ghost view = { λ c. c.moment };

    ghost invariant = { λ c. c.moment + lifetime < 253402300800 };

    ghost inverse = { λ moment. record { moment = moment } };
}

impl Created {
    pub fn at(moment: u64) -> Created
        requires { moment + lifetime < 253402300800 }
        ensures { result ≡ moment }
    {
        Created { moment }
    }

    /// The date and time of the creation.
    pub(crate) fn created_on(&self, alloc: Global) -> Result<String, AllocError>
        ensures { IfOk result (λ text. string_bytes text ≡ time_of self.now) }
    {
        time_text(alloc, self.moment)
    }

    /// The date and time at which the session ends.
    pub(crate) fn expires_on(&self, alloc: Global) -> Result<String, AllocError>
        ensures { IfOk result (λ text. string_bytes text ≡ time_of (self.now + lifetime)) }
    {
        time_text(alloc, self.moment + LIFETIME)
    }
}
