//! Script mode over records in lists, under one token key and one seed of zeros.
#![tactic(auto)]

use acvp_desk::{KeyRing, Keys, Seeds};
use acvp_http::{Flagged, Routes, run_from_nothing};
use std::io::{self, BufReader};
use std::process::ExitCode;

/// The keys of each run.
fn keys() -> Option<Keys> {
    let token = KeyRing::of(&[Some([0; 32])])?;
    let seed = Seeds::of(&[[0; 32]])?;
    Some(Keys { token, seed })
}

/// Runs the script on standard input over lists without a row, and writes its output to standard output. Gives the
/// number of its events, if all of them were served.
fn served(rt: &HostRuntime) -> Option<u64> {
    let routes = Routes::new(rt.alloc()).ok()?;
    let mut reader = Flagged::new(BufReader::new(rt.alloc(), rt.reader()).ok()?);
    let mut writer = Flagged::new(io::writer(rt));
    match run_from_nothing(rt.alloc(), &routes, keys()?, &mut reader, &mut writer) {
        Ok(Ok(count)) => Some(count),
        _ => None,
    }
}

fn main(rt: HostRuntime) -> ExitCode {
    match served(&rt) {
        Some(_) => ExitCode::SUCCESS,
        None => ExitCode::FAILURE,
    }
}
