//! A port of this machine and the socket of orders, with many clients at once.
ghost use Rattle.std.specs.Prelude.{IfSome};
ghost use Rattle.acvp_port.specs.Errand.{IsUnanswered};

use crate::client::{Client, Errand, Next, Outgoing, Wire};
use crate::clients::{Clients, MOST_CLIENTS, Visit, is_over, time_of};
use crate::socket::{FileNumber, close_socket, open_socket};
use mio::event::Source;
use mio::net::{TcpListener, TcpStream, UnixListener};
use mio::{Events, Interest, Poll, Token};
use std::alloc::Global;
use std::fs::Files;
use std::io::{self, ErrorKind};
use std::net::{Ipv4Addr, Net, SocketAddr};
use std::time::{Clock, Duration, Instant};

/// The tokens of the port and of the socket of orders; the others are places of clients.
const PORT: usize = MOST_CLIENTS;

const ORDERS: usize = MOST_CLIENTS + 1;

/// How many seconds no connection is taken after an error of the network.
const PAUSE: u64 = 1;

/// How many connections and orders are taken or served before it is looked what has come of the others.
const MOST_UNLOOKED: u32 = 32;

/// The errors of the network that accept(2) has of a connection that waited, by their numbers: ENONET, EPROTO,
/// ENOPROTOOPT, EOPNOTSUPP, ENETDOWN, ENETUNREACH, EHOSTDOWN and EHOSTUNREACH.
const NETWORK_ERRORS: [i32; 8] = [64, 71, 92, 95, 100, 101, 112, 113];

/// What listens, and what waits for it and for the clients.
#[derive(Drop)]
struct Doors {
    poll: Poll,
    events: Events<Global>,

    /// None once serving ends.
    port: Option<TcpListener>,
    orders: UnixListener,
}

/// A port of this machine, and the socket of orders.
#[derive(Drop)]
pub struct Port<'a, R> {
    alloc: Global,
    rt: &'a R,
    doors: Doors,
    clients: Clients,

    /// The path of the database, beside which the socket is.
    database: &'a str,

    /// Which file the socket is.
    socket: FileNumber,

    /// How many seconds a client is waited for, from its coming until it is gone.
    patience: u64,

    /// Whether a connection, or an order, may wait to be taken: that some do is told once.
    port_waits: bool,
    orders_wait: bool,

    /// How many were taken or served since it was looked last what has come of the others.
    unlooked: u32,

    /// The place of the client that is being served, how long it was waited for, and whether it is watched.
    serving: (usize, Duration, bool),

    /// When the network had an error last.
    erred: Option<Instant>,

    /// When it was looked last for clients that take too long.
    swept: Option<Instant>,

    /// Whether errors of the network are told on standard error.
    tells: bool,
}

/// Has one that listens be waited for.
fn watch(poll: &Poll, source: &mut impl Source, token: usize) -> io::Result<()> {
    poll.registry()
        .register(source, Token(token), Interest::READABLE)
}

/// What listens at a port of this machine, and at the socket of orders.
fn doors_at<R: Files + Net>(
    rt: &R,
    alloc: Global,
    number: u16,
    mut orders: UnixListener,
) -> io::Result<Doors> {
    let address = SocketAddr::from((Ipv4Addr::LOCALHOST, number));
    let mut port = TcpListener::bind(rt, address)?;
    let poll = Poll::new(rt)?;
    watch(&poll, &mut port, PORT)?;
    watch(&poll, &mut orders, ORDERS)?;
    match Events::with_capacity(alloc, MOST_CLIENTS + 2) {
        Ok(events) => Ok(Doors {
            poll,
            events,
            port: Some(port),
            orders,
        }),
        Err(_) => Err(ErrorKind::OutOfMemory.into()),
    }
}

/// The port of a number, and the socket beside a database. A client is waited for so many seconds in all. If `tells`,
/// an error of the network is told on standard error.
pub fn port_on<'a, R: Clock + Files + Net>(
    rt: &'a R,
    alloc: Global,
    database: &'a str,
    number: u16,
    patience: u64,
    tells: bool,
) -> io::Result<Port<'a, R>> {
    let Ok(clients) = Clients::new(alloc) else {
        return Err(ErrorKind::OutOfMemory.into());
    };
    let (orders, socket) = open_socket(rt, alloc, database)?;
    match doors_at(rt, alloc, number, orders) {
        Ok(doors) => Ok(Port {
            alloc,
            rt,
            doors,
            clients,
            database,
            socket,
            patience,
            port_waits: true,
            orders_wait: true,
            unlooked: 0,
            serving: (MOST_CLIENTS, Duration::ZERO, false),
            erred: None,
            swept: None,
            tells,
        }),
        Err(error) => {
            close_socket(rt, alloc, database, socket);
            Err(error)
        }
    }
}

/// The next connection that waits at the port, while it is open.
fn taken_at(port: &Option<TcpListener>) -> io::Result<TcpStream> {
    match port {
        Some(port) => {
            let (stream, _) = port.accept()?;
            Ok(stream)
        }
        None => Err(ErrorKind::WouldBlock.into()),
    }
}

/// Nothing can be taken any more.
#[derive(Clone, Copy)]
struct Stopped;

/// Why a connection isn't taken.
#[derive(Clone, Copy)]
enum Untaken {
    /// None waits.
    None,

    /// It is gone, and another may be taken.
    Gone,

    /// The network has an error, which passes.
    Network,

    /// The system gives none any more.
    Never,
}

/// Why a connection isn't taken after an error (accept(2)).
fn why_untaken(error: &io::Error) -> Untaken {
    match error.kind() {
        ErrorKind::WouldBlock => Untaken::None,
        ErrorKind::ConnectionAborted | ErrorKind::Interrupted => Untaken::Gone,
        _ => match error.raw_os_error() {
            Some(number) if NETWORK_ERRORS.contains(&number) => Untaken::Network,
            _ => Untaken::Never,
        },
    }
}

impl<'a, R: Clock + Eprint + Files> Port<'a, R> {
    /// Lets a client in at a place, which was waited for so long before.
    fn let_in(&mut self, place: usize, client: Client, waited: Duration, is_watched: bool) {
        let visit = Visit {
            client,
            since: time_of(self.rt),
            waited,
            is_watched,
        };
        self.clients.put(place, visit);
        self.clients.advance(place, &self.doors.poll, self.rt);
    }

    /// Takes no connection for a while, after an error of the network.
    fn pause(&mut self, error: &io::Error) {
        self.erred = time_of(self.rt);
        if self.tells {
            let _ = eprintln!(self.rt; "a connection isn't taken, and serving goes on: {error}");
        }
    }

    /// Takes a connection that waits at the port. One that has no place is closed.
    fn take_request(&mut self) -> Result<(), Stopped> {
        let stream = match taken_at(&self.doors.port) {
            Ok(stream) => stream,
            Err(error) => {
                match why_untaken(&error) {
                    Untaken::None => self.port_waits = false,
                    Untaken::Gone => {}
                    Untaken::Network => self.pause(&error),
                    Untaken::Never => return Err(Stopped),
                }
                return Ok(());
            }
        };
        if let Some(place) = self.clients.place_for_request() {
            let client = Client::new(self.alloc, Wire::Request(stream));
            self.let_in(place, client, Duration::ZERO, false);
        }
        Ok(())
    }

    /// Takes one that waits at the socket of orders. Where there is no place for it, it is closed.
    fn take_order(&mut self) -> Result<(), Stopped> {
        let stream = match self.doors.orders.accept() {
            Ok((stream, _)) => stream,
            Err(error) => {
                match why_untaken(&error) {
                    Untaken::None => self.orders_wait = false,
                    Untaken::Gone => {}
                    Untaken::Network | Untaken::Never => return Err(Stopped),
                }
                return Ok(());
            }
        };
        if let Some(place) = self.clients.place_for_order() {
            let client = Client::new(self.alloc, Wire::Order(stream));
            self.let_in(place, client, Duration::ZERO, false);
        }
        Ok(())
    }

    /// Takes one that waits, but no connection just behind an error of the network. Says whether one may have waited.
    fn take(&mut self) -> Result<bool, Stopped> {
        if self.orders_wait {
            self.take_order()?;
            return Ok(true);
        }
        if self.port_waits && is_over(self.erred, PAUSE, self.rt) {
            self.take_request()?;
            return Ok(true);
        }
        Ok(false)
    }

    /// Waits until something can be moved, or so many seconds are over, and moves it.
    fn wait(&mut self, most: u64) -> Result<(), Stopped> {
        self.unlooked = 0;
        let Doors { poll, events, .. } = &mut self.doors;
        match poll.poll(events, Some(Duration::from_secs(most))) {
            Ok(()) => {}
            Err(error) if error.kind() == ErrorKind::Interrupted => return Ok(()),
            Err(_) => return Err(Stopped),
        }
        for event in &self.doors.events {
            let Token(place) = event.token();
            if place == PORT {
                self.port_waits = true;
            } else if place == ORDERS {
                self.orders_wait = true;
            } else {
                self.clients.advance(place, &self.doors.poll, self.rt);
            }
        }
        if is_over(self.swept, 1, self.rt) {
            self.clients
                .give_up(self.patience, &self.doors.poll, self.rt);
            self.swept = time_of(self.rt);
        }
        Ok(())
    }

    /// Takes one that waits. Where none does, or after many, it is looked what has come of the others.
    fn go_on(&mut self) -> Result<(), Stopped> {
        self.unlooked = self.unlooked.saturating_add(1);
        if self.unlooked >= MOST_UNLOOKED {
            return self.wait(0);
        }
        if self.take()? { Ok(()) } else { self.wait(1) }
    }

    /// The client whose request or order became whole, or broken, before all others.
    fn next_client(&mut self) -> Option<(Client, bool)> {
        let (place, whole) = self.clients.ready.pop_front()?;
        let visit = self.clients.visits.get_mut(place)?.take()?;
        self.serving = (place, visit.waited, visit.is_watched);
        Some((visit.client, whole))
    }

    /// What asks to be served next; none where nothing can be taken any more.
    pub fn next(&mut self) -> Option<Errand>
        ensures { IfSome result IsUnanswered }
    {
        for _ in 0..u64::MAX {
            if let Some((client, whole)) = self.next_client() {
                self.unlooked = self.unlooked.saturating_add(1);
                return Some(client.into_errand(self.alloc, whole));
            }
            if self.go_on().is_err() {
                return None;
            }
        }
        None
    }

    /// Has an answer go out to the client that was served, as far as it isn't out yet.
    pub fn let_out(&mut self, output: Outgoing) {
        let (place, waited, is_watched) = self.serving;
        self.let_in(place, Client::answered(output), waited, is_watched);
    }

    /// Lets the answers that are under way go out, as long as their clients take them. Nothing is taken any more.
    pub fn finish(&mut self) {
        close_socket(self.rt, self.alloc, self.database, self.socket);
        self.doors.port = None;
        self.clients.ready.clear();
        for place in 0..MOST_CLIENTS {
            if let Some(Some(visit)) = self.clients.visits.get(place)
                && visit.client.is_coming()
            {
                self.clients.sort(place, false, Next::IsGone);
            }
        }
        for _ in 0..u32::MAX {
            if self.clients.are_gone() || self.wait(1).is_err() {
                return;
            }
        }
    }
}
