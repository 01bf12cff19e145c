//! Why a command, or a request, failed.
ghost use Rattle.std.specs.Prelude.{◌≡◌};
ghost use Rattle.acvp_causes.specs.declared.cause.Place.TheVariants.{Itself};

use crate::texts::TextFault;
use std::{fmt, io};

/// What a store does that a statement can't be carried out in.
const REFUSED: &str =
    "the store refused a statement (a full disk, a folder that can't be written to), ";

/// Why a command, or a request, failed.
#[derive(Clone, Copy)]
pub enum Cause {
    /// There is no such file.
    Missing,

    /// The system refuses to open the file.
    Refused(io::Error),

    /// The file can't be made.
    Unmade,

    /// The path ends with no name of a file.
    Nameless,

    /// The file's name has so many bytes, and may have so many.
    LongName(usize, usize),

    /// The path is a link that leads to nothing.
    LeadsNowhere,

    /// What has the path is no file.
    NoFile,

    /// The file has so many names.
    Names(u64),

    /// The file is mounted by itself, so its log isn't beside it.
    Mounted,

    /// Somebody has the file or the log beside it, but not both.
    Moved,

    /// Another user, of this number, has made the file.
    Owner(u32),

    /// Another user, of this number, has made the database.
    Planted(u32),

    /// Another user, of this number, has made a link on the path to the file.
    Link(u32),

    /// The file has the name of one that lies beside a database.
    Companion,

    /// The file is a copy that a killed command may have left.
    Left,

    /// Others may do more with the file than with the database.
    Open,

    /// Beside the file there is a journal.
    Journal,

    /// A server has the file.
    Served,

    /// Another process has the file.
    Held,

    /// The file holds something else than a database.
    Foreign,

    /// The file has so many bytes, and its header tells so many.
    Cut(u64, u64),

    /// The file has tables, where none may be.
    Tables,

    /// The file isn't there, and its log holds something, or somebody has it.
    LogAlone,

    /// The store refused something, where rows of these tables were read.
    Store(&'static str),

    /// A server that has the file carried the order out, and its store refused something there.
    Relayed,

    /// The file can't be copied.
    Copy,

    /// What was copied is damaged.
    Damaged,

    /// The store opens nothing of it: another program made or changed it, its rows break the rules of its tables, or a
    /// page of it is damaged.
    Broken,

    /// The copy is whole, and can't be put in its place.
    Unplaced,

    /// The text in the file is of another form.
    Text(TextFault),

    /// The text in the file is good now.
    Good,

    /// A vector set names a seed that isn't in the file.
    NoSeed,

    /// The seed that a vector set names isn't in the file, or is another than that of its prompts.
    OtherSeed,

    /// The seed at this place, from 1 on, is another than the one that the database was served with.
    Seed(usize),

    /// The file lacks the seed at this place, from 1 on, which the database was served with.
    Lacks(usize),

    /// The keys file has as many lines of one kind as there may be.
    Full,

    /// The keys file has one key that isn't retired.
    LastKey,

    /// Little memory is left.
    Memory,

    /// The clock is past the last moment that is served.
    Clock,
}

impl fmt::Display for Cause {
    fn fmt<W: fmt::Write>(&self, f: &mut fmt::Formatter<W>) -> fmt::Result {
        // Words are written in one place, since each call to write is proved by itself.
        let words = match *self {
            Cause::Refused(error) => return write!(f, "it can't be opened: {error}"),
            Cause::Names(count) => {
                return write!(f, "it has {count} names (hard links), and may have one");
            }
            Cause::Owner(user) => {
                return write!(
                    f,
                    "it belongs to user {user}, not to root, the database's owner or the user of the command"
                );
            }
            Cause::Planted(user) => {
                return write!(
                    f,
                    "it belongs to user {user}, not to root, its folder's owner or the user of the command, and \
                     others can make files there"
                );
            }
            Cause::Link(user) => {
                return write!(
                    f,
                    "its path goes by a link of user {user}, not of root, the owner of the link's folder or the user \
                     of the command"
                );
            }
            Cause::Cut(length, told) => {
                return write!(f, "it is cut: it has {length} bytes of {told}");
            }
            Cause::Store(tables) => {
                return write!(
                    f,
                    "{REFUSED}or met a damaged page or a malformed row{tables}"
                );
            }
            Cause::Text(fault) => return write!(f, "{fault}"),
            Cause::Seed(place) => {
                return write!(
                    f,
                    "its seed {place} is another than the one that the database was served with"
                );
            }
            Cause::Lacks(place) => {
                return write!(
                    f,
                    "it lacks seed {place}, which the database was served with"
                );
            }
            Cause::LongName(length, most) => {
                return write!(
                    f,
                    "its name has {length} bytes, and may have {most}: the names of its copies are longer"
                );
            }
            Cause::Missing => "there is no such file",
            Cause::Nameless => "its path ends without a file's name",
            Cause::LeadsNowhere => "it is a link that leads to no file",
            Cause::Unmade => "it can't be made in its folder (its rights, or a full disk)",
            Cause::NoFile => "it is no regular file",
            Cause::Mounted => "it is mounted by itself: name it where its log (-wal) is beside it",
            Cause::Moved => {
                "another process has it or the log beside it (-wal), not both: it was moved, or is served by another \
                 name"
            }
            Cause::Companion => {
                "its name is that of a file beside a database (-wal, -shm, -journal, -orders)"
            }
            Cause::Left => {
                "it is a copy that a killed command may have left: copy it to another name, if it is whole"
            }
            Cause::Open => "others may read or write it, who may not with the database",
            Cause::Journal =>
                "a journal is beside it (-journal): another program was stopped while it wrote to it",
            Cause::Served => "a server has it, and answers at its socket (-orders)",
            Cause::Held => "another process has it",
            Cause::Foreign => "it is no database",
            Cause::Tables => "it has tables already",
            Cause::LogAlone => {
                "there is no such file, but its log (-wal) holds records, or a process has it"
            }
            Cause::Relayed => {
                "its server's store refused a statement, or met a damaged page or a malformed row"
            }
            Cause::Copy =>
                "it can't be copied: reading it, or writing the copy, fails (a full disk)",
            Cause::Damaged => "a page of it is damaged, or it can't be opened",
            Cause::Broken => {
                "nothing of it can be read: another program made or changed it, a row breaks its table's rules (a \
                 type, a reference), or a page is damaged; restore the last backup that check calls whole"
            }
            Cause::Unplaced => "the copy is whole, and can't be put there",
            Cause::Good => "it can be read now",
            Cause::NoSeed => "a vector set names a seed that isn't in it",
            Cause::OtherSeed => {
                "it lacks a seed that a vector set names, or has another in its place"
            }
            Cause::Full => "it has 16 lines of that kind, the most there may be",
            Cause::LastKey => "its last key can't be retired: add one first",
            Cause::Memory => "little memory is left",
            Cause::Clock => "the clock is past the year 2099, or can't be read",
        };
        f.write_str(words)
    }
}

/// Which file a cause is of, as an option of a command names it.
#[derive(Clone, Copy)]
pub enum Place {
    /// The file itself.
    Itself,

    /// The log beside it.
    Log,

    /// The socket of orders beside it.
    Socket,
}

impl fmt::Display for Place {
    fn fmt<W: fmt::Write>(&self, f: &mut fmt::Formatter<W>) -> fmt::Result {
        f.write_str(match *self {
            Place::Itself => "",
            Place::Log => ", its log (-wal)",
            Place::Socket => ", its socket (-orders)",
        })
    }
}

/// A cause, and the file that it is of.
#[derive(Clone, Copy)]
pub struct Because {
    pub option: &'static str,
    pub place: Place,
    pub cause: Cause,
}

impl Because {
    /// The cause of the file that an option names.
    pub fn of(option: &'static str, cause: Cause) -> Because
        ensures option { result.option.now ≡ option.now }
        ensures place { result.place ≡ Itself }
        ensures cause { result.cause ≡ cause }
    {
        Because {
            option,
            place: Place::Itself,
            cause,
        }
    }
}

impl fmt::Display for Because {
    fn fmt<W: fmt::Write>(&self, f: &mut fmt::Formatter<W>) -> fmt::Result {
        write!(f, "because: {}{}: {}", self.option, self.place, self.cause)
    }
}
