//! The records in a file, whose tables are made, or taken over where they are there, or moved to today's schema; or in
//! memory. In which order a command opens the file, works on it and gives it up, acvp_opening says; here is a line or
//! two for each step.
ghost use Rattle.std.specs.Prelude.{◌≡◌};
ghost use Rattle.acvp_commands.specs.Work.{IsWork};
ghost use Rattle.acvp_server.specs.Faults.{fault_of_files, why_unopened};

use crate::flags::Flags;
use crate::host::Machine;
use crate::seeds::{Added, forget_seeds, with_seeds};
use acvp_causes::name_of;
use acvp_commands::{Fault, Message, Task, Work, make_tables, moment_of};
use acvp_connections::{
    FileConnection, FileFault, Watch, close, connect_existing, connect_new, has_no_log,
};
use acvp_files::{remove_empty_log, schema_in};
use acvp_opening::{Databases, Preparing, Said, Unopened, done_at, worked};
use acvp_port::answer_to;
use acvp_store::SqlTables;
use sqlite::{Alter, Connection, MemStore, Wary};
use std::alloc::{AllocGlobal, Global};
use std::fs::Files;
use std::net::Net;
use std::time::Clock;

/// The fault of a database that isn't opened or copied.
pub(crate) fn fault_of_files(fault: FileFault) -> Fault
    ensures { result ≡ fault_of_files fault }
{
    match fault {
        FileFault::Taken => Fault::Taken,
        FileFault::Unavailable | FileFault::Broken => Fault::Unavailable,
        FileFault::Schema => Fault::Schema,
        FileFault::Memory => Fault::Memory,
    }
}

/// Why the database in a file isn't opened.
fn why_unopened(why: acvp_connections::Unopened) -> Unopened
    ensures { result ≡ why_unopened why }
{
    match why {
        acvp_connections::Unopened::Taken => Unopened::Taken,
        acvp_connections::Unopened::Failed(fault) => Unopened::Failed(fault_of_files(fault)),
    }
}

/// Makes the tables of records that are kept in memory alone.
pub(crate) fn tables_in_memory(alloc: Global) -> Result<SqlTables<MemStore>, Fault> {
    make_tables(alloc, Connection::open_in_memory(alloc)?)
}

/// The name of the database at a path: where a link leads. All that lies beside the file has this name in front.
pub(crate) fn named(rt: &HostRuntime, path: &str) -> Result<String, Fault> {
    match name_of(rt, path) {
        Ok(name) => Ok(name),
        Err(error) => Err(Fault::Unavailable.of_system(&error)),
    }
}

/// Whether a database names a schema before today's.
fn is_earlier<S: Alter + Drop>(connection: &mut Connection<S>) -> bool {
    matches!(schema_in(connection), Some(1 | 2))
}

impl<'a, R: AllocGlobal + Clock + Eprint + Files + Net + Print> Preparing for Machine<'a, R> {
    ghost use Rattle.std.specs.Prelude.{⊤};
    ghost use Rattle.acvp_server.specs.declared.host.Machine.{Machine};

    type Added = Added;

    // No contract says what the rows of seeds are, nor that nothing else is put in.
    ghost preparation = { record {
      prepares = λ _ _ _ _ _ _. ⊤;
      refuses = λ _ _ _ _ _ _. ⊤;
      takes_back = λ _ _ _ _ _. ⊤;
      has_served = λ machine. machine.has_listened;
    } };

    /// A database that is to be served knows the seeds of the keys.
    fn prepare<S: Alter + Drop>(
        &mut self,
        connection: Connection<S>,
        work: &Work,
    ) -> (Connection<S>, Result<Option<Added>, Fault>) {
        match work {
            Work::Take(Task::Serve { keys, .. }) => {
                with_seeds(self.rt.alloc(), connection, &keys.seed)
            }
            Work::Move => {
                let mut connection = connection;
                if is_earlier(&mut connection) {
                    self.watch.begin_move();
                }
                (connection, Ok(None))
            }
            _ => (connection, Ok(None)),
        }
    }

    fn take_back<S: Alter + Drop>(
        &mut self,
        connection: Connection<S>,
        added: Added,
    ) -> Connection<S> {
        let mut connection = connection;
        let _ = forget_seeds(&mut connection, &added);
        connection
    }

    fn has_served(&self) -> bool {
        self.has_listened
    }
}

/// A database in a file that is open. The functions that other crates do with it are proved for any first contents of
/// the file; `Wary` stands for none.
#[derive(Drop)]
struct OpenFile {
    connection: FileConnection<Wary>,
}

/// The machine, as what opens databases in files.
#[derive(Drop)]
struct Opener<'a> {
    machine: Machine<'a, HostRuntime>,
}

impl<'a> Databases for Opener<'a> {
    ghost use Rattle.std.specs.Prelude.{⊤};

    type Open = OpenFile;

    // No contract can say what is done to files.
    ghost does = { λ _ _ _. ⊤ };

    fn alloc(&self) -> Global {
        self.machine.rt.alloc()
    }

    fn moment(&mut self) -> u64 {
        moment_of(self.machine.rt)
    }

    fn has_no_log(&mut self, name: &str) -> bool {
        has_no_log(self.machine.rt, name)
    }

    fn open(&mut self, name: &str, may_be_made: bool) -> Result<OpenFile, Unopened> {
        let Machine { rt, watch, .. } = &self.machine;
        let opened = if may_be_made {
            connect_new(rt, name, Wary, watch)
        } else {
            connect_existing(rt, name, Wary, watch)
        };
        match opened {
            Ok(connection) => Ok(OpenFile { connection }),
            Err(why) => Err(why_unopened(why)),
        }
    }

    fn work(&mut self, opened: OpenFile, work: Work) -> (OpenFile, Result<Message, Fault>, bool) {
        let OpenFile { connection } = opened;
        let (connection, outcome, wanted) = worked(&mut self.machine, connection, work);
        (OpenFile { connection }, outcome, wanted)
    }

    fn close(&mut self, opened: OpenFile) {
        let OpenFile { connection } = opened;
        close(connection);
        self.machine.watch.end();
    }

    fn let_go(&mut self, opened: OpenFile) {
        drop(opened);
        self.machine.watch.end();
    }

    fn remove_log(&mut self, name: &str) {
        remove_empty_log(self.machine.rt, name);
    }

    fn ask(&mut self, name: &str, line: &str) -> Result<Option<String>, Fault> {
        let rt = self.machine.rt;
        Ok(answer_to(rt, rt.alloc(), name, line.as_bytes())?)
    }
}

/// Does this with the database of a name, and gives what the command says at its end.
pub(crate) fn done_in(rt: &HostRuntime, name: &str, work: Work, flags: Flags) -> Result<Said, Fault>
    requires { IsWork work }
{
    let watch = Watch::of(rt, name);
    let machine = Machine {
        rt,
        database: name,
        flags,
        watch: &watch,
        has_listened: false,
    };
    done_at(&mut Opener { machine }, name, work)
}
