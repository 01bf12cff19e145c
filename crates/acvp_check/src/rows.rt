//! Rows in memory.

use acvp_tables::{AccountRow, ObjectRow, RequestRow, ReviewerRow, SessionRow, SetRow};
use std::marker::Model;

/// Rows of the tables, a list for each: those of one account, each in the order of its table's key, or some of those
/// of all accounts.
#[derive(Drop)]
pub struct Rows {
    pub accounts: Vec<AccountRow>,
    pub sessions: Vec<SessionRow>,
    pub sets: Vec<SetRow>,
    pub objects: Vec<ObjectRow>,
    pub requests: Vec<RequestRow>,
    pub reviewers: Vec<ReviewerRow>,
}

impl Model for Rows {
    ghost use Rattle.acvp_tables.specs.Content.{Content};

    ghost Value = { Content };

    ghost use Rattle.std.specs.Coded.{codes};
    ghost use Rattle.acvp_tables.specs.contracts.rows.ObjectRow as object_row;
    ghost use Rattle.acvp_tables.specs.contracts.rows.RequestRow as request_row;

    ghost coded = { Prim.hlevel (codes, object_row.the_row.coded, request_row.the_row.coded) };

    ghost view = { λ t. record {
      accounts = t.accounts.items;
      sessions = t.sessions.items;
      sets = t.sets.items;
      objects = t.objects.items;
      requests = t.requests.items;
      reviewers = t.reviewers.items;
    } };
}
