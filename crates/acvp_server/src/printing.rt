//! Printing.
use acvp_commands::{Fault, Message};
use acvp_files::Restored;
use std::alloc::AllocGlobal;
use std::io;

/// Prints a line, at once.
pub(crate) fn print_line<R: Print + AllocGlobal>(rt: &R, line: Message) -> Result<(), Fault> {
    let text = line.text(rt.alloc())?;
    match println!(rt; "{text}") {
        Ok(()) => Ok(()),
        Err(_) => Err(Fault::Write),
    }
}

/// Prints what a restore has done, and what is to be done behind it.
pub(crate) fn print_restored<R: Print>(rt: &R, done: &Restored) -> io::Result<()> {
    println!(rt; "restored")?;
    println!(rt; "rows: {}", done.rows)?;
    if let Some(path) = &done.replaced {
        println!(rt; "what was there is kept: {path}")?;
    }
    println!(rt; "next: add a seed to the keys file, and serve with it")
}
