//! Files of text that are made beside a database, or elsewhere: of keys, or of a secret.
use crate::backups::{may_be_made, may_have_path};
use crate::naming::NewName;
use crate::parts::{Part, Use, give_up, new_copy, remove_left};
use acvp_connections::{FileFault, done};
use acvp_copying::name_new;
use std::io::{self, Write};

/// Writes a text to the empty file of a copy, and brings it to the disk.
fn write_text(part: &Part, text: &[u8]) -> io::Result<()> {
    let mut file = &part.file;
    file.write_all(text)?;
    file.sync_all()
}

/// Writes a text, and gives its file a name.
fn write_named(rt: &HostRuntime, part: &Part, path: &str, text: &[u8]) -> Result<(), FileFault> {
    done(write_text(part, text))?;
    name_new(&mut NewName { rt, part, to: path })
}

/// Makes a file of a text, whole or not at all, that its owner alone may read. Another file isn't written over, and
/// none gets the name of one that lies beside a database. If a killed command has made it, its second name is taken
/// away.
pub fn make_file(rt: &HostRuntime, path: &str, text: &[u8]) -> Result<(), FileFault> {
    may_have_path(rt, path)?;
    remove_left(rt, path);
    may_be_made(rt, path)?;
    let part = new_copy(rt, path, Use::Part)?;
    let outcome = write_named(rt, &part, path, text);
    give_up(rt, &part);
    outcome
}
