//! Script mode: a script on standard input, over records in memory.
use crate::database::tables_in_memory;
use acvp_commands::{Fault, TextFiles, desk_over, keys_in};
use acvp_desk::{Desk, Keys};
use acvp_http::{Flagged, Routes, run};
use acvp_tables::Tables;
use std::alloc::{AllocGlobal, Global};
use std::io::{self, BufReader, Read, Write};

/// Runs the script that a reader holds at a desk, and writes its output to a writer.
fn run_over<T: Tables, R: Read + Drop, W: Write + Drop>(
    alloc: Global,
    routes: &Routes,
    desk: &mut Desk<T>,
    input: R,
    output: W,
) -> Result<(), Fault> {
    let mut reader = Flagged::new(input);
    let mut writer = Flagged::new(output);
    run(alloc, routes, desk, &mut reader, &mut writer)?;
    Ok(())
}

/// Runs the script on standard input over tables, and writes its output to standard output.
fn run_input<T: Tables + Drop, R: Input + Print + AllocGlobal>(
    rt: &R,
    keys: Keys,
    tables: T,
) -> Result<(), Fault> {
    let mut desk = desk_over(rt.alloc(), keys, tables)?;
    let routes = Routes::new(rt.alloc())?;
    match BufReader::new(rt.alloc(), rt.reader()) {
        Ok(input) => run_over(rt.alloc(), &routes, &mut desk, input, io::writer(rt)),
        Err(_) => Err(Fault::Memory),
    }
}

/// Runs the script on standard input, over records in memory and under the keys in one of these files, and writes its
/// output to standard output.
pub(crate) fn script<F: TextFiles, R: Input + Print + AllocGlobal>(
    rt: &R,
    files: &F,
    keys: &str,
) -> Result<(), Fault> {
    let keys = keys_in(files, keys)?;
    run_input(rt, keys, tables_in_memory(rt.alloc())?)
}
