//! What `--version` prints behind the program's name: the schema of its tables, and the kit, as the last line of the
//! README has it, if its sources are proved.
use std::fs::File;
use std::io::Read;

/// Of a build whose sources are proved.
const PROVED: &str = "of schema 3, from sources proved with rattle-kit-13f logic dac8208d650f15bf";

/// Of one that `rt try` made.
const UNPROVED: &str = "of schema 3, not proved, for rattle-kit-13f logic dac8208d650f15bf";

/// Of one of which that can't be seen.
const UNTOLD: &str =
    "of schema 3, for rattle-kit-13f logic dac8208d650f15bf: without /proc it can't be told if its sources are proved";

/// The size of this process in pages (proc_pid_statm(5)).
const SIZE: &str = "/proc/self/statm";

/// The pages of 1 TiB. A build by `rt try`, which no proof precedes, tests each access to memory, and keeps notes on
/// the whole address space for that. No other build has as many.
const PAGES_OF_NOTES: u64 = 1 << 28;

/// The number that a text begins with, in decimal, if it begins with one.
fn number_in(text: &[u8]) -> Option<u64> {
    let mut number = None;
    for byte in text {
        if !byte.is_ascii_digit() {
            return number;
        }
        let front: u64 = number.unwrap_or(0);
        let digit = u64::from(*byte - b'0');
        number = Some(front.saturating_mul(10).saturating_add(digit));
    }
    number
}

/// How many pages this process has, if the system tells.
fn pages(rt: &HostRuntime) -> Option<u64> {
    let mut text = [0_u8; 20];
    let Ok(mut file) = File::open(rt, SIZE) else {
        return None;
    };
    match file.read(&mut text) {
        Ok(count) => number_in(text.get(..count).unwrap_or(&[])),
        Err(_) => None,
    }
}

/// Whether the words of a command line ask for the version.
fn asks_version(words: &[String]) -> bool {
    match words.get(1) {
        Some(word) => word.as_str() == "--version" || word.starts_with("-V"),
        None => false,
    }
}

/// What `--version` prints, if the words of a command line ask for it.
pub(crate) fn version(rt: &HostRuntime, words: &[String]) -> &'static str {
    if !asks_version(words) {
        return PROVED;
    }
    match pages(rt) {
        Some(pages) if pages < PAGES_OF_NOTES => PROVED,
        Some(_) => UNPROVED,
        None => UNTOLD,
    }
}
