//! The socket beside a database: while it is served, orders are taken there. Each is a line, and so is its answer.
ghost use Rattle.std.specs.Prelude.{◌≡◌, ◌≢◌, ◌++◌, ◌∷◌, [], ℕ, IfNone, IfOk, IfSome, IsUtf8, List, string_bytes};

use mio::net::UnixListener;
use std::alloc::{AllocError, Global};
use std::fs::{self, Files, Permissions};
use std::io::{self, ErrorKind, Read, Write};
use std::net::{Net, Shutdown};
use std::os::unix::fs::{FileTypeExt, MetadataExt, PermissionsExt};
use std::os::unix::net::UnixStream;
use std::time::Duration;

/// The most bytes of an answer.
const ANSWER_BYTES: usize = 512;

/// How many seconds the server may take for an order: others may be before it.
const ANSWER_SECONDS: u64 = 120;

/// The path of the socket beside a database.
fn socket_path(alloc: Global, database: &str) -> Result<String, AllocError> {
    format!(in alloc; "{database}-orders")
}

/// Which file a path names: its device, and its number there.
#[derive(Clone, Copy, PartialEq, Eq)]
pub(crate) struct FileNumber {
    device: u64,
    number: u64,
}

/// Which file a path names, where there is one.
fn file_at(files: &impl Files, path: &str) -> io::Result<FileNumber> {
    let there = fs::symlink_metadata(files, path)?;
    Ok(FileNumber {
        device: there.dev(),
        number: there.ino(),
    })
}

/// Whether there is a socket at a path.
fn is_socket(files: &impl Files, path: &str) -> bool {
    match fs::symlink_metadata(files, path) {
        Ok(there) => there.file_type().is_socket(),
        Err(_) => false,
    }
}

/// Whether a server answers at the socket beside a database.
pub fn has_server<R: Files + Net>(rt: &R, alloc: Global, database: &str) -> bool {
    match socket_path(alloc, database) {
        Ok(path) => {
            is_socket(rt, path.as_str()) && UnixStream::connect(rt, path.as_str()).is_ok()
        }
        Err(_) => false,
    }
}

/// Takes away the socket that a server left that was killed. One at which somebody answers stays, and so does a file
/// that is no socket.
fn remove_left<R: Files + Net>(rt: &R, path: &str) -> io::Result<()> {
    if !is_socket(rt, path) {
        return Ok(());
    }
    match UnixStream::connect(rt, path) {
        Ok(_) => Err(ErrorKind::AddrInUse.into()),
        Err(_) => fs::remove_file(rt, path),
    }
}

/// Leaves a socket to the owner of the files alone, and sends away whoever came before.
fn close_to_others(
    files: &impl Files,
    socket: &UnixListener,
    path: &str,
) -> io::Result<FileNumber> {
    fs::set_permissions(files, path, Permissions::from_mode(0o600))?;
    for _ in 0..u32::MAX {
        match socket.accept() {
            Ok(_) => {}
            Err(error) if error.kind() == ErrorKind::Interrupted => {}
            Err(error) if error.kind() == ErrorKind::WouldBlock => break,
            Err(error) => return Err(error),
        }
    }
    file_at(files, path)
}

/// A new socket at a path, for the owner of the files alone.
fn socket_at<R: Files + Net>(rt: &R, path: &str) -> io::Result<(UnixListener, FileNumber)> {
    remove_left(rt, path)?;
    let socket = UnixListener::bind(rt, path)?;
    match close_to_others(rt, &socket, path) {
        Ok(number) => Ok((socket, number)),
        Err(error) => {
            let _ = fs::remove_file(rt, path);
            Err(error)
        }
    }
}

/// Opens the socket beside a database that nobody else has open.
pub(crate) fn open_socket<R: Files + Net>(
    rt: &R,
    alloc: Global,
    database: &str,
) -> io::Result<(UnixListener, FileNumber)> {
    match socket_path(alloc, database) {
        Ok(path) => socket_at(rt, path.as_str()),
        Err(_) => Err(ErrorKind::OutOfMemory.into()),
    }
}

/// Takes the socket beside a database away, unless another file is in its place.
pub(crate) fn close_socket(files: &impl Files, alloc: Global, database: &str, socket: FileNumber) {
    let Ok(path) = socket_path(alloc, database) else {
        return;
    };
    if let Ok(there) = file_at(files, path.as_str())
        && there == socket
    {
        let _ = fs::remove_file(files, path.as_str());
    }
}

/// Reads what comes until the end, and gives how much there was: no more than there is room for.
fn read_all(stream: &UnixStream, answer: &mut [u8]) -> io::Result<usize> {
    let mut reader = stream;
    let mut count = 0;
    for _ in 0..ANSWER_BYTES {
        let Some(room) = answer.get_mut(count..) else {
            break;
        };
        match reader.read(room)? {
            0 => break,
            more => count = count.saturating_add(more),
        }
    }
    Ok(count)
}

/// Sends a line to the server at a socket, and reads its answer.
fn answer_at(net: &impl Net, path: &str, line: &[u8], answer: &mut [u8]) -> io::Result<usize> {
    let stream = UnixStream::connect(net, path)?;
    stream.set_read_timeout(Some(Duration::from_secs(ANSWER_SECONDS)))?;
    let mut writer = &stream;
    writer.write_all(line)?;
    stream.shutdown(Shutdown::Write)?;
    read_all(&stream, answer)
}

/// The line of an answer, where it is one.
fn answered_line(alloc: Global, answer: &[u8]) -> Result<Option<String>, AllocError>
    ensures some { IfOk result (λ line. IfSome line (λ text. answer.now ≡ string_bytes text ++ 10 ∷ [])) }
    ensures none { IfOk result (λ line. IfNone line ((text : List ℕ) → IsUtf8 text → answer.now ≢ text ++ 10 ∷ [])) }
{
    let [line @ .., b'\n'] = answer else {
        return Ok(None);
    };
    match std::str::from_utf8(line) {
        Ok(line) => Ok(Some(String::from_str(alloc, line)?)),
        Err(_) => Ok(None),
    }
}

/// The line that the server which holds a database answers to one. None where nobody answers a line.
pub fn answer_to(
    net: &impl Net,
    alloc: Global,
    database: &str,
    line: &[u8],
) -> Result<Option<String>, AllocError> {
    let path = socket_path(alloc, database)?;
    let mut answer = [0; ANSWER_BYTES];
    match answer_at(net, path.as_str(), line, &mut answer) {
        Ok(count) => answered_line(alloc, answer.get(..count).unwrap_or(&[])),
        Err(_) => Ok(None),
    }
}
