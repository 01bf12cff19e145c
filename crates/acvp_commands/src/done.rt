//! Work on the database in a file, over any store.
ghost use Rattle.std.specs.Prelude.{IfOk, MatchResult};
ghost use Rattle.acvp_desk.specs.Orders.{IsOrder};
ghost use Rattle.acvp_commands.specs.Ordered.{IsCarriedOut};
ghost use Rattle.acvp_commands.specs.Work.{IsDone, IsMade, IsMoved, IsNotMade, IsNotMoved, IsNotTaken, IsTaken};
ghost use Rattle.acvp_commands.specs.Work.{IsTakenOver, IsTask, IsTaskDone, IsWork};
ghost use Rattle.acvp_commands.specs.declared.work.Task.TheVariants as task;

use crate::fault::Fault;
use crate::host::{Host, Service, desk_at, serve};
use crate::lines::Message;
use crate::orders::carry_out;
use crate::work::{Task, Work};
use acvp_desk::{Keys, Order};
use acvp_store::{SqlTables, adopt, create, migrate};
use acvp_tables::Tables;
use sqlite::{Alter, Connection};
use std::alloc::Global;

/// Makes the tables in a store that has none. Where they aren't made, the connection is handed back.
fn made_in<S: Alter + Drop>(
    alloc: Global,
    connection: Connection<S>,
) -> Result<SqlTables<S>, (Connection<S>, Fault)>
    ensures { MatchResult result (λ tables. IsMade S.Store connection tables)
        (λ refused. IsNotMade S.Store connection refused.0 refused.1) }
{
    match create(alloc, connection) {
        Ok(tables) => Ok(tables),
        Err((connection, fault)) => Err((connection, Fault::from(fault))),
    }
}

/// Makes the tables in a store that has none.
pub fn make_tables<S: Alter + Drop>(
    alloc: Global,
    connection: Connection<S>,
) -> Result<SqlTables<S>, Fault>
    ensures { IfOk result (λ tables. IsMade S.Store connection tables) }
{
    match made_in(alloc, connection) {
        Ok(tables) => Ok(tables),
        Err((_, fault)) => Err(fault),
    }
}

/// Takes over the tables in a store. Where they aren't taken over, the connection is handed back.
fn taken_from<S: Alter + Drop>(
    alloc: Global,
    connection: Connection<S>,
) -> Result<SqlTables<S>, (Connection<S>, Fault)>
    ensures { MatchResult result (λ tables. IsTaken S.Store connection tables)
        (λ refused. IsNotTaken S.Store connection refused.0 refused.1) }
{
    match adopt(alloc, connection) {
        Ok(tables) => Ok(tables),
        Err((connection, fault)) => Err((connection, Fault::from(fault))),
    }
}

/// Moves the tables in a store from an earlier schema to today's. Where they aren't moved, the connection is handed
/// back.
fn moved_in<S: Alter + Drop>(
    alloc: Global,
    connection: Connection<S>,
) -> Result<SqlTables<S>, (Connection<S>, Fault)>
    ensures { MatchResult result (λ tables. IsMoved S.Store connection tables)
        (λ refused. IsNotMoved S.Store connection refused.0 refused.1) }
{
    match migrate(alloc, connection) {
        Ok(tables) => Ok(tables),
        Err((connection, fault)) => Err((connection, Fault::from(fault))),
    }
}

/// Serves at a desk over tables, and gives these back with how that ended.
fn serve_over<T: Tables + Drop, H: Host>(
    host: &mut H,
    tables: T,
    keys: Keys,
    service: Service,
) -> (T, Result<Message, Fault>)
    ensures { IsTaskDone T.meaning H.hosting H.Port.listening H.Port.Input.stream H.Port.Output.stream
        (task.Serve keys service) host.old host.new tables result.0 result.1 }
{
    match desk_at(host.alloc(), keys, tables) {
        Ok(mut desk) => {
            let outcome = serve(host, &mut desk, service);
            (desk.into_tables(), outcome)
        }
        Err((tables, fault)) => (tables, Err(fault)),
    }
}

/// Carries an order out on tables, and gives these back with its line or its fault.
fn ordered_over<T: Tables + Drop>(tables: T, order: &Order) -> (T, Result<Message, Fault>)
    requires { IsOrder order.now }
    ensures { IsCarriedOut T.meaning result.1 tables result.0 order.now }
{
    let mut tables = tables;
    let outcome = carry_out(&mut tables, order);
    (tables, outcome)
}

/// Does this on tables, and gives these back with how it ended.
fn done_on<T: Tables + Drop, H: Host>(
    host: &mut H,
    tables: T,
    task: Task,
) -> (T, Result<Message, Fault>)
    requires { IsTask task }
    ensures { IsTaskDone T.meaning H.hosting H.Port.listening H.Port.Input.stream H.Port.Output.stream task
        host.old host.new tables result.0 result.1 }
{
    match task {
        Task::Order(order) => ordered_over(tables, &order),
        Task::Serve { keys, service } => serve_over(host, tables, keys, service),
    }
}

/// Takes over the tables in a store, does this on them, and gives the connection back with how it ended.
fn taken_over<S: Alter + Drop, H: Host>(
    host: &mut H,
    connection: Connection<S>,
    task: Task,
) -> (Connection<S>, Result<Message, Fault>)
    requires { IsTask task }
    ensures { IsTakenOver S.Store H.hosting H.Port.listening H.Port.Input.stream H.Port.Output.stream task
        host.old host.new connection result.0 result.1 }
{
    match taken_from(host.alloc(), connection) {
        Ok(tables) => {
            let (tables, outcome) = done_on(host, tables, task);
            (tables.into_connection(), outcome)
        }
        Err((connection, fault)) => (connection, Err(fault)),
    }
}

/// Does this over a store, and gives the connection back with how it ended.
pub fn done_over<S: Alter + Drop, H: Host>(
    host: &mut H,
    connection: Connection<S>,
    work: Work,
) -> (Connection<S>, Result<Message, Fault>)
    requires { IsWork work }
    ensures { IsDone S.Store H.hosting H.Port.listening H.Port.Input.stream H.Port.Output.stream work
        host.old host.new connection result.0 result.1 }
{
    match work {
        Work::Make => match made_in(host.alloc(), connection) {
            Ok(tables) => (tables.into_connection(), Ok(Message::Ready)),
            Err((connection, fault)) => (connection, Err(fault)),
        },
        Work::Move => match moved_in(host.alloc(), connection) {
            Ok(tables) => (tables.into_connection(), Ok(Message::Migrated)),
            Err((connection, fault)) => (connection, Err(fault)),
        },
        Work::Take(task) => taken_over(host, connection, task),
    }
}
