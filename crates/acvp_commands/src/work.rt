//! What is to be done with the database in a file.
ghost use Rattle.std.specs.Prelude.{IfErr, IfOk};
ghost use Rattle.acvp_commands.specs.Asked.{NamesAccountToDo};
ghost use Rattle.acvp_commands.specs.Work.{IsWork, IsWorkOf, LacksFile};

use crate::asked::Deed;
use crate::fault::Fault;
use crate::files::{TextFiles, keys_in, secret_in};
use crate::host::Service;
use acvp_desk::{Keys, Order};

/// What is done on tables that are taken over.
#[derive(Drop)]
pub enum Task {
    /// An order of the operator is carried out.
    Order(Order),

    /// A port is served, under these keys.
    Serve { keys: Keys, service: Service },
}

/// What is done with the database in a file.
#[derive(Drop)]
pub enum Work {
    /// The tables are made, where there are none.
    Make,

    /// The tables are moved from an earlier schema to today's.
    Move,

    /// The tables are taken over, and this is done on them.
    Take(Task),
}

/// The work that the command line asks for, after the files that it names beside the database are read.
pub fn work_of<F: TextFiles>(files: &F, deed: Deed<'_>) -> Result<Work, Fault>
    requires { NamesAccountToDo deed }
    ensures asked { IfOk result (IsWorkOf (F.holds files.now) deed.entry) }
    ensures account { IfOk result IsWork }
    ensures refused { IfErr result (LacksFile (F.holds files.now) (F.fails files.now) deed.entry) }
{
    let order = match deed {
        Deed::Init => return Ok(Work::Make),
        Deed::Migrate => return Ok(Work::Move),
        Deed::AddAccount { account, secret } => Order::AddAccount {
            account,
            secret: secret_in(files, secret)?,
        },
        Deed::DisableAccount { account } => Order::DisableAccount { account },
        Deed::ApproveRequest { request } => Order::ApproveRequest { request },
        Deed::RejectRequest { request } => Order::RejectRequest { request },
        Deed::Serve { keys, service } => {
            let keys = keys_in(files, keys)?;
            return Ok(Work::Take(Task::Serve { keys, service }));
        }
    };
    Ok(Work::Take(Task::Order(order)))
}
