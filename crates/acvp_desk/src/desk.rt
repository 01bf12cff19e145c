//! The desk: the keys of a server, what it computed last, and its records.

ghost use Rattle.std.specs.Prelude.{◌≡◌, ◌+◌, ◌≤◌, false, length, IfOk, IfErr};
ghost use Rattle.acvp_tables.specs.Content.{Content, greatest_epoch_of};
ghost use Rattle.acvp_tables.specs.State.{AreWellNumbered};
ghost use Rattle.acvp_desk.specs.Approvals.{IsExcused, IsSoundApproval};
ghost use Rattle.acvp_desk.specs.Request.{request_value};
ghost use Rattle.acvp_desk.specs.Desk.{HasSeeds, tables_of};
ghost use Rattle.acvp_desk.specs.Isolation.{IsOrderedApart, IsServedApart, IsToldBySeen};
ghost use Rattle.acvp_desk.specs.Named.{IsNamed};
ghost use Rattle.acvp_desk.specs.Orders.{IsOrder, Orders};
ghost use Rattle.acvp_desk.specs.Serves.{Looks, Serves, result_of, IfDenied};

use crate::cache::Cache;
use crate::isolation::{
    nobody_is_answered_alike, orders_are_apart, requests_are_apart, seen_rows_answer,
};
use crate::keys::Keys;
use crate::laws::effects_follow;
use crate::order::{Order, OrderReply, order_on};
use crate::request::TypedRequest;
use crate::serve::{Ended, Served, serve};
use acvp_policy::Rule;
use acvp_tables::{StoreFault, Tables};
use acvp_token::KeyRing;
use std::alloc::Global;
use std::marker::Model;

/// What a request is answered.
#[derive(Drop)]
pub enum DeskReply {
    /// 256 spare bytes, and then the body of the reply.
    Given(Vec<u8>),

    /// The rule that is broken, or that memory or the store was refused. Nothing has changed.
    Denied(Rule),
}

/// A reply, whether a change was made of the records, and the account that asked, as far as it is known: a login's if
/// it succeeds, and that of a token's claims if these were verified.
#[derive(Drop)]
pub struct Outcome {
    pub reply: DeskReply,
    pub changed: bool,
    pub account: Option<u16>,
}

/// The keys of a server, the cache of what was computed last of vector sets, and the records.
#[derive(Drop)]
pub struct Desk<T: Tables> {
    alloc: Global,
    ring: KeyRing,
    cache: Cache,
    tables: T,
}

impl<T: Tables> Model for Desk<T> {
    ghost use Rattle.std.specs.Prelude.{length};
    ghost use Rattle.acvp_desk.specs.Desk.{DeskValue, keys_of};

    ghost Value = { DeskValue T };

    ghost view = { λ d. record {
      keys = keys_of d.ring d.cache.seeds;
      tables = d.tables;
      cached = length d.cache.entries;
    } };
}

/// Why there is no desk.
#[derive(Clone, Copy, Debug, PartialEq, Eq)]
pub enum NewFault {
    /// Memory ran out, the store's too.
    Memory,

    /// A vector set was made under a seed that isn't there.
    Epoch,

    /// The store refused a statement, or met a row that stands for nothing.
    Store,
}

impl<T: Tables> Desk<T> {
    /// A desk over these records, whose vector sets were all made under seeds that are there. On a fault the records
    /// are handed back.
    pub fn new(alloc: Global, keys: Keys, tables: T) -> Result<Desk<T>, (T, NewFault)>
        ensures keys { IfOk result (λ desk. desk.keys ≡ keys) }
        ensures empty { IfOk result (λ desk. desk.cached ≡ 0) }
        ensures looks { Looks T.meaning result tables (tables_of result) }
        ensures open { IfOk result (λ desk. T.meaning.is_clean desk.tables
            → T.meaning.is_open tables × T.meaning.is_open desk.tables) }
        ensures seeded { IfOk result (λ desk. T.meaning.is_clean desk.tables → (c : Content) → AreWellNumbered c
            → T.meaning.stands tables c → HasSeeds keys.seed (greatest_epoch_of c.sets)) }
        ensures looked { IfErr result (λ fault. fault.1 ≡ NewFault.Epoch → T.meaning.is_clean fault.0
            → T.meaning.is_open tables × T.meaning.is_open fault.0) }
        ensures store { IfErr result (λ fault. fault.1 ≡ NewFault.Store → T.faults StoreFault.Refused) }
        ensures epoch { IfErr result (λ fault. fault.1 ≡ NewFault.Epoch → T.meaning.is_clean fault.0 → (c : Content)
            → AreWellNumbered c → T.meaning.stands tables c → ¬ HasSeeds keys.seed (greatest_epoch_of c.sets)) }
    {
        let mut tables = tables;
        let newest = keys.seed.newest();
        match tables.greatest_epoch() {
            Ok(Some(epoch)) if epoch > newest => return Err((tables, NewFault::Epoch)),
            Ok(_) => {}
            Err(StoreFault::Memory) => return Err((tables, NewFault::Memory)),
            Err(StoreFault::Refused) => return Err((tables, NewFault::Store)),
        }
        match Cache::new(alloc, keys.seed) {
            Ok(cache) => Ok(Desk {
                alloc,
                ring: keys.token,
                cache,
                tables,
            }),
            Err(_) => Err((tables, NewFault::Memory)),
        }
    }

    /// Carries an operator's order out. What it leaves of an account's rows depends on the order and on these rows
    /// alone. A certification is approved only if it may be approved, as after every run. The moment isn't used.
    pub fn order(&mut self, moment: u64, order: &Order) -> OrderReply
        requires { IsOrder order.now }
        ensures keys { self.new.keys ≡ self.old.keys }
        ensures answered { Orders T.meaning result self.old.tables self.new.tables order.now }
        ensures sound { IsSoundApproval T.meaning result self.old.tables self.new.tables order.now }
        ensures excused { IsExcused T.meaning T.faults result self.old.tables self.new.tables order.now }
        ensures apart { IsOrderedApart T.meaning result self.old.tables self.new.tables order.now }
        ensures cached { self.new.cached ≡ self.old.cached }
    {
        let _ = moment;
        effects_follow();
        orders_are_apart();
        order_on(&mut self.tables, order)
    }

    /// Answers a request at a moment, in seconds since 1970. Unless it is unavailable, what is told to an account
    /// depends alone on the rows that it owns and on those of the sessions that it reviews, and what is left of an
    /// account's rows on these rows alone.
    pub fn handle(&mut self, moment: u64, request: &TypedRequest<'_>) -> Outcome
        ensures keys { self.new.keys ≡ self.old.keys }
        ensures served { Serves T.meaning (result_of result.reply result.changed) self.old.tables self.new.tables
            self.old.keys moment (request_value request.now) }
        ensures denied { IfDenied result.reply (result.changed ≡ false) }
        ensures named { IsNamed (result_of result.reply result.changed) self.old.tables self.new.tables self.old.keys
            moment (request_value request.now) result.account }
        ensures apart { IsServedApart T.meaning result.reply self.old.tables self.new.tables self.old.keys moment
            (request_value request.now) }
        ensures seen { IsToldBySeen T.meaning result.reply self.old.tables self.new.tables self.old.keys moment
            (request_value request.now) }
    {
        effects_follow();
        nobody_is_answered_alike();
        requests_are_apart();
        seen_rows_answer();
        let Ended { result, account } = serve(
            self.alloc,
            &self.ring,
            &mut self.cache,
            &mut self.tables,
            moment,
            request,
        );
        match result {
            Ok(Served { reply, changed }) => Outcome {
                reply: DeskReply::Given(reply),
                changed,
                account,
            },
            Err(rule) => Outcome {
                reply: DeskReply::Denied(rule),
                changed: false,
                account,
            },
        }
    }

    /// The epoch of the newest seed, under which new vector sets are made. It takes no memory.
    pub fn newest_epoch(&self) -> u64
        ensures { result + 1 ≡ length self.now.keys.seed }
    {
        self.cache.seeds().newest()
    }

    /// How many vector sets the cache holds something of. It takes no memory.
    pub fn cached(&self) -> usize
        ensures value { result ≡ self.now.cached }
        ensures most { result ≤ 64 }
    {
        self.cache.cached()
    }

    /// The records.
    pub fn into_tables(self) -> T
        ensures { result ≡ self.tables }
    {
        self.tables
    }
}
