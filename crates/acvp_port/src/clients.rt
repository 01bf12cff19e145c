//! The clients that are there at once, and how long each is waited for.
ghost use Rattle.std.specs.Prelude.{◌<◌, ◌≤◌, ◌↔◌, ℕ, IfNone, IfSome, IsTrue};
ghost use Rattle.acvp_port.specs.Clients.{IsFree};

use crate::client::{Client, Next};
use mio::Poll;
use std::alloc::{AllocError, Global};
use std::collections::VecDeque;
use std::time::{Clock, Duration, Instant};

/// The most connections to the port at once. The places behind theirs are of those who give orders.
const MOST_CONNECTIONS: usize = 256;

/// The most clients at once.
pub(crate) const MOST_CLIENTS: usize = MOST_CONNECTIONS + 16;

/// How many seconds a client whose answer is out may keep its side open.
const LINGER: u64 = 2;

/// A client, since when it is at its stage, and how long it was waited for at the stages before.
#[derive(Drop)]
pub(crate) struct Visit {
    pub client: Client,
    pub since: Option<Instant>,
    pub waited: Duration,

    /// Whether it is told when more can be moved. One that is served at once never needs it.
    pub is_watched: bool,
}

/// The clients, by place, and the places of those whose requests are whole or broken, in the order in which they became
/// so.
#[derive(Drop)]
pub(crate) struct Clients {
    pub visits: Vec<Option<Visit>>,
    pub ready: VecDeque<(usize, bool)>,
}

/// The clock's time, where it gives one.
pub(crate) fn time_of<C: Clock>(clock: &C) -> Option<Instant> {
    Instant::now(clock).ok()
}

/// How long ago this was. Where the clock doesn't tell, it is none now, and was long ago if it was told none then.
fn time_since<C: Clock>(since: Option<Instant>, clock: &C) -> Duration {
    match since {
        Some(since) => since.elapsed(clock).unwrap_or(Duration::ZERO),
        None => Duration::MAX,
    }
}

/// Whether this is so many seconds ago.
pub(crate) fn is_over<C: Clock>(since: Option<Instant>, seconds: u64, clock: &C) -> bool {
    time_since(since, clock).as_secs() >= seconds
}

impl Visit {
    /// How long the client was waited for in all. While others are served before it, nobody waits for it.
    fn time_waited<C: Clock>(&self, clock: &C) -> Duration {
        self.waited.saturating_add(time_since(self.since, clock))
    }

    /// Moves what can be moved of the client, and says what is next. Once it has to wait, it is watched.
    fn advance<C: Clock>(&mut self, place: usize, poll: &Poll, clock: &C) -> Next {
        let was_ended = self.client.is_ended();
        let next = self.client.advance();
        if next != Next::Waits || self.client.is_ended() != was_ended {
            self.waited = self.time_waited(clock);
            self.since = time_of(clock);
        }
        if next == Next::Waits && !self.is_watched {
            if !self.client.watch(poll, place) {
                return Next::IsGone;
            }
            self.is_watched = true;
        }
        next
    }

    /// Whether the client has taken too long, at its last stage or in all.
    fn is_late<C: Clock>(&self, patience: u64, clock: &C) -> bool {
        (self.client.is_ended() && is_over(self.since, LINGER, clock))
            || self.time_waited(clock).as_secs() >= patience
    }
}

/// Whether a request was coming from a visitor, and what is next of its client.
fn advance_at<C: Clock>(
    visitor: &mut Option<Visit>,
    place: usize,
    poll: &Poll,
    clock: &C,
) -> Option<(bool, Next)> {
    match visitor {
        Some(visit) => Some((visit.client.is_coming(), visit.advance(place, poll, clock))),
        None => None,
    }
}

impl Clients {
    /// As many places as there may be clients.
    pub(crate) fn new(alloc: Global) -> Result<Clients, AllocError> {
        let mut visits = Vec::with_capacity(alloc, MOST_CLIENTS)?;
        for _ in 0..MOST_CLIENTS {
            if visits.push(None).is_err() {
                return Err(AllocError);
            }
        }
        let ready = VecDeque::with_capacity(alloc, MOST_CLIENTS)?;
        Ok(Clients { visits, ready })
    }

    /// Whether there is no client at a place.
    fn is_free(&self, place: usize) -> bool
        ensures { IsTrue result ↔ IsFree self.now place }
    {
        matches!(self.visits.get(place), Some(None))
    }

    /// The first free place of those from one on that are before another.
    fn free_place(&self, from: usize, end: usize) -> Option<usize>
        ensures some { IfSome result (λ place. (from ≤ place) × (place < end) × IsFree self.now place) }
        ensures none { IfNone result ((place : ℕ) → from ≤ place → place < end → ¬ IsFree self.now place) }
    {
        for place in from..end {
            if self.is_free(place) {
                return Some(place);
            }
        }
        None
    }

    /// A place for a new connection to the port, where one is free.
    pub(crate) fn place_for_request(&self) -> Option<usize>
        ensures some { IfSome result (λ place. (place < MOST_CONNECTIONS) × IsFree self.now place) }
        ensures none { IfNone result ((place : ℕ) → place < MOST_CONNECTIONS → ¬ IsFree self.now place) }
    {
        self.free_place(0, MOST_CONNECTIONS)
    }

    /// A place for somebody who gives an order, where one is free: connections to the port never have these.
    pub(crate) fn place_for_order(&self) -> Option<usize>
        ensures some { IfSome result (λ place.
            (MOST_CONNECTIONS ≤ place) × (place < MOST_CLIENTS) × IsFree self.now place) }
        ensures none { IfNone result ((place : ℕ) →
            MOST_CONNECTIONS ≤ place → place < MOST_CLIENTS → ¬ IsFree self.now place) }
    {
        self.free_place(MOST_CONNECTIONS, MOST_CLIENTS)
    }

    /// Puts a visitor at a place.
    pub(crate) fn put(&mut self, place: usize, visit: Visit) {
        if let Some(free) = self.visits.get_mut(place) {
            *free = Some(visit);
        }
    }

    /// Whether the client of a place waits to be served.
    fn is_ready(&self, place: usize) -> bool {
        self.ready.iter().any(|(waiting, _)| *waiting == place)
    }

    /// Does with the client of a place what is next.
    pub(crate) fn sort(&mut self, place: usize, coming: bool, next: Next) {
        let Clients { visits, ready } = self;
        let whole = match next {
            Next::Waits => return,
            Next::IsWhole => true,
            Next::IsGone => false,
        };
        if coming && ready.push_back((place, whole)).is_ok() {
            return;
        }
        if let Some(visit) = visits.get_mut(place) {
            *visit = None;
        }
    }

    /// Moves what can be moved of the client of a place.
    pub(crate) fn advance<C: Clock>(&mut self, place: usize, poll: &Poll, clock: &C) {
        if self.is_ready(place) {
            return;
        }
        let moved = match self.visits.get_mut(place) {
            Some(visitor) => advance_at(visitor, place, poll, clock),
            None => None,
        };
        if let Some((coming, next)) = moved {
            self.sort(place, coming, next);
        }
    }

    /// Whether the client of a place has taken too long, and doesn't wait to be served.
    fn is_late<C: Clock>(&self, place: usize, patience: u64, clock: &C) -> bool {
        match self.visits.get(place) {
            Some(Some(visit)) => visit.is_late(patience, clock) && !self.is_ready(place),
            _ => false,
        }
    }

    /// Gives up the client of a place.
    fn drop_at(&mut self, place: usize) {
        if let Some(Some(visit)) = self.visits.get(place) {
            let coming = visit.client.is_coming();
            self.sort(place, coming, Next::IsGone);
        }
    }

    /// Gives up the clients that take too long. Before that, what can be moved of them is moved: while this process was
    /// stopped a request may have come whole, and is served.
    pub(crate) fn give_up<C: Clock>(&mut self, patience: u64, poll: &Poll, clock: &C) {
        for place in 0..MOST_CLIENTS {
            if self.is_late(place, patience, clock) {
                self.advance(place, poll, clock);
                if self.is_late(place, patience, clock) {
                    self.drop_at(place);
                }
            }
        }
    }

    /// Whether no client is left.
    pub(crate) fn are_gone(&self) -> bool {
        self.visits.iter().all(|visit| visit.is_none())
    }
}
