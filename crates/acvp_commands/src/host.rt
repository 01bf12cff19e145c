//! What the program asks of the machine, and serving at a desk.
ghost use Rattle.std.specs.Prelude.{◌≡◌, ⊤, Ok, IfErr, IfOk};
ghost use Rattle.acvp_desk.specs.Serves.{Looks};
ghost use Rattle.acvp_commands.specs.Work.{IsNoDesk, IsServed, IsServedAt};

use crate::fault::Fault;
use crate::lines::Message;
use crate::serving::{Listener, serve_connections};
use acvp_desk::{Desk, Keys};
use acvp_http::Routes;
use acvp_tables::Tables;
use std::alloc::Global;

/// How a port is served.
#[derive(Clone, Copy)]
pub struct Service {
    /// The port of this machine.
    pub port: u16,

    /// After how many connections it ends, where it does.
    pub count: Option<u64>,

    /// How many seconds a request may take to come, and a reply to go.
    pub patience: u64,
}

/// The machine.
pub trait Host {
    ghost use Rattle.std.specs.Prelude.{MatchResult};
    ghost use Rattle.acvp_commands.specs.Hosting.{Hosting};

    /// A port, at which connections and orders arrive.
    type Port: Listener + Drop;

    /// What it is to open a port, to finish it, and to print a line.
    ghost hosting: { Hosting Self Self.Port };

    fn alloc(&self) -> Global;

    /// Opens a port, and whatever orders are taken from.
    fn listen(&mut self, service: Service) -> Result<Self::Port, Fault>
        ensures { MatchResult result (hosting.opens self.old self.new service)
            (hosting.refuses self.old self.new service) };

    /// Lets what was sent on a port's connections reach their clients, and takes no order any more.
    fn finish(&mut self, port: &mut Self::Port)
        ensures { hosting.finishes self.old self.new port.old port.new };

    /// Prints a line.
    fn print(&mut self, message: Message) -> Result<(), Fault>
        ensures { MatchResult result (λ _. hosting.prints self.old self.new message)
            (hosting.fails self.old self.new message) };
}

/// Says that a port is open, and serves what arrives there.
fn serve_port<T: Tables, H: Host>(
    host: &mut H,
    routes: &Routes,
    desk: &mut Desk<T>,
    port: &mut H::Port,
    service: Service,
) -> Result<Message, Fault>
    ensures keys { desk.new.keys ≡ desk.old.keys }
    ensures served { IsServedAt T.meaning H.hosting H.Port.listening H.Port.Input.stream H.Port.Output.stream
        desk.old.keys service host.old host.new port.old desk.old.tables port.new desk.new.tables result }
{
    host.print(Message::Listening(service.port))?;
    let served = serve_connections(host.alloc(), routes, desk, port, service.count)?;
    Ok(Message::Served(served))
}

/// Opens a port, and serves it at a desk.
pub(crate) fn serve<T: Tables, H: Host>(
    host: &mut H,
    desk: &mut Desk<T>,
    service: Service,
) -> Result<Message, Fault>
    ensures { IsServed T.meaning H.hosting H.Port.listening H.Port.Input.stream H.Port.Output.stream
        desk.old.keys service host.old host.new desk.old.tables desk.new.tables result }
{
    let routes = Routes::new(host.alloc())?;
    let mut port = host.listen(service)?;
    let outcome = serve_port(host, &routes, desk, &mut port, service);
    host.finish(&mut port);
    outcome
}

/// The desk over these records, which are handed back where there is none.
pub(crate) fn desk_at<T: Tables + Drop>(
    alloc: Global,
    keys: Keys,
    tables: T,
) -> Result<Desk<T>, (T, Fault)>
    ensures keys { IfOk result (λ desk. desk.keys ≡ keys) }
    ensures looks { IfOk result (λ desk. Looks T.meaning {X = ⊤} {E = ⊤} (Ok tt) tables desk.tables) }
    ensures refused { IfErr result (λ refused. IsNoDesk T.meaning keys tables refused.0 refused.1) }
{
    match Desk::new(alloc, keys, tables) {
        Ok(desk) => Ok(desk),
        Err((tables, fault)) => Err((tables, Fault::from(fault))),
    }
}

/// The desk over these records.
pub fn desk_over<T: Tables + Drop>(alloc: Global, keys: Keys, tables: T) -> Result<Desk<T>, Fault>
    ensures keys { IfOk result (λ desk. desk.keys ≡ keys) }
    ensures looks { IfOk result (λ desk. Looks T.meaning {X = ⊤} {E = ⊤} (Ok tt) tables desk.tables) }
{
    match desk_at(alloc, keys, tables) {
        Ok(desk) => Ok(desk),
        Err((_, fault)) => Err(fault),
    }
}
