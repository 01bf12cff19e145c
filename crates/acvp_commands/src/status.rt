//! The exit status of a command.
ghost use Rattle.std.specs.Prelude.{◌≡◌, ◌≢◌, true, Ok};

use crate::fault::Fault;

/// The exit status of a command that has ended so: 0 where it did what it was asked for, and 1 at a fault, its own or
/// one that a server told it.
pub fn exit_status(outcome: &Result<bool, Fault>) -> u8
    ensures done { outcome.now ≡ Ok true → result ≡ 0 }
    ensures fault { outcome.now ≢ Ok true → result ≡ 1 }
{
    match outcome {
        Ok(true) => 0,
        Ok(false) => 1,
        Err(_) => 1,
    }
}
