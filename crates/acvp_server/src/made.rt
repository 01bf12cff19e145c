//! Files of keys and of secrets that are made: new ones, for their owner alone.
use crate::database::fault_of_files;
use crate::makers::OwnFiles;
use acvp_commands::{Drawn, Fault, Making, text_to_make};
use acvp_files::make_file;
use std::alloc::AllocGlobal;
use std::fs::File;
use std::io::{self, ErrorKind, Read};

/// Where the system gives bytes that nobody can foresee (random(4)).
const RANDOM: &str = "/dev/urandom";

/// What is drawn where nothing is.
const NOTHING: [u8; 32] = [0; 32];

/// The path of the file that is made.
pub(crate) fn file_to_make<'a>(making: Making<'a>) -> &'a str {
    match making {
        Making::Keys { to }
        | Making::TokenMore { to, .. }
        | Making::TokenLess { to, .. }
        | Making::SeedMore { to, .. }
        | Making::Secret { to } => to,
    }
}

/// The option that names the file which is made.
pub(crate) fn option_of_made(making: Making<'_>) -> &'static str {
    match making {
        Making::Keys { .. } | Making::Secret { .. } => "--new",
        Making::TokenMore { .. } | Making::TokenLess { .. } | Making::SeedMore { .. } => "--to",
    }
}

/// The path of the keys file whose lines are taken.
pub(crate) fn keys_to_change<'a>(making: Making<'a>) -> Option<&'a str> {
    match making {
        Making::TokenMore { from, .. }
        | Making::TokenLess { from, .. }
        | Making::SeedMore { from, .. } => Some(from),
        Making::Keys { .. } | Making::Secret { .. } => None,
    }
}

/// Draws 32 bytes.
fn draw(device: &mut File) -> io::Result<[u8; 32]> {
    let mut bytes = [0; 32];
    device.read_exact(&mut bytes)?;
    Ok(bytes)
}

/// What one file may be made of. What comes twice, or is zeros, was drawn of something else.
fn drawn(rt: &HostRuntime) -> io::Result<Drawn> {
    let mut device = File::open(rt, RANDOM)?;
    let first = draw(&mut device)?;
    let second = draw(&mut device)?;
    if first == second || first == NOTHING {
        return Err(ErrorKind::InvalidData.into());
    }
    Ok(Drawn { first, second })
}

/// What a file is made of: nothing is drawn for one that says no more than another.
fn drawn_for(rt: &HostRuntime, making: Making<'_>) -> Result<Drawn, Fault> {
    match making {
        Making::TokenLess { .. } => Ok(Drawn {
            first: NOTHING,
            second: NOTHING,
        }),
        _ => match drawn(rt) {
            Ok(drawn) => Ok(drawn),
            Err(_) => Err(Fault::Unavailable),
        },
    }
}

/// Makes a file of keys or of a secret, whole or not at all. None takes the place of another.
pub(crate) fn make(rt: &HostRuntime, making: Making<'_>) -> Result<(), Fault> {
    let database = None;
    let files = OwnFiles { rt, database };
    let drawn = drawn_for(rt, making)?;
    let text = text_to_make(&files, rt.alloc(), making, drawn)?;
    make_file(rt, file_to_make(making), &text).map_err(fault_of_files)
}
