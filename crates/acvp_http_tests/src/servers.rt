//! Keys, paths, and desks over any tables.

use crate::texts::is_so;
use acvp_desk::{Desk, KeyRing, Keys, NewFault, Order, OrderReply, Seeds, order_on};
use acvp_http::{Reply, Routes, handle_bytes};
use acvp_tables::Tables;
use std::alloc::Global;
use std::process::Abort;

/// The secret of RFC 6238's test vectors.
const SECRET: [u8; 32] = *b"12345678901234567890123456789012";

/// Keys of tokens, some of which may be retired, and of seeds.
pub(crate) fn keys_of(rt: &impl Abort, tokens: &[Option<[u8; 32]>], seeds: &[[u8; 32]]) -> Keys {
    Keys {
        token: KeyRing::of(tokens).expect(rt, "a ring"),
        seed: Seeds::of(seeds).expect(rt, "seeds"),
    }
}

/// One token key and one seed, of zeros.
pub(crate) fn keys(rt: &impl Abort) -> Keys {
    keys_of(rt, &[Some([0; 32])], &[[0; 32]])
}

/// A desk over these tables, or they again, without what its contract says of it.
pub(crate) fn new_desk<T: Tables>(
    alloc: Global,
    keys: Keys,
    tables: T,
) -> Result<Desk<T>, (T, NewFault)> {
    Desk::new(alloc, keys, tables)
}

/// A desk over these tables.
pub(crate) fn desk_over<T: Tables + Drop>(
    rt: &impl Abort,
    alloc: Global,
    keys: Keys,
    tables: T,
) -> Desk<T> {
    match new_desk(alloc, keys, tables) {
        Ok(desk) => desk,
        Err(_) => panic!(rt; "no desk"),
    }
}

/// A desk over empty tables, to which the account 7 is added.
pub(crate) fn desk_of_seven<T: Tables + Drop>(
    rt: &impl Abort,
    alloc: Global,
    tables: T,
) -> Desk<T> {
    let mut tables = tables;
    let seven = Order::AddAccount {
        account: 7,
        secret: SECRET,
    };
    let reply = order_on(&mut tables, &seven);
    is_so(rt, matches!(reply, OrderReply::Done(None)), "an account");
    desk_over(rt, alloc, keys(rt), tables)
}

/// The table of paths.
pub(crate) fn paths(rt: &impl Abort, alloc: Global) -> Routes {
    Routes::new(alloc).ok().expect(rt, "paths")
}

/// The reply to a request in bytes, without what its contract says of it.
pub(crate) fn answer_in_bytes<T: Tables>(
    routes: &Routes,
    desk: &mut Desk<T>,
    moment: u64,
    bytes: &[u8],
) -> Reply {
    handle_bytes(routes, desk, moment, bytes)
}
