//! The desk: one request, or one order of the operator, on the records.
#![tactic(auto)]

pub use acvp_gen::Seeds;
pub use acvp_registry::{Kind, digits_number, plain_number};
pub use acvp_token::KeyRing;
pub use approval::{may_approve, may_be_certified};
pub use ask::END_OF_MOMENTS;
pub use desk::{Desk, DeskReply, NewFault, Outcome};
pub use draft::SPARE_BYTES;
pub use isolation::{
    callers_are_denied_alike, changes_are_of_who_asks, nobody_is_answered_alike, orders_are_apart,
    requests_are_apart, seen_rows_answer,
};
pub use keys::Keys;
pub use later_keys::records_outlast_keys;
pub use laws::{
    accepted_requests_are_told, effects_follow, errors_are_named, left_records_are_left,
    left_requests_may_be_approved, no_answer_is_unavailable, records_are_kept, reviewers_are_told,
};
pub use order::{Order, OrderReply, order_on};
pub use page::page_of;
pub use request::{Ask, TokenField, TypedRequest};
pub use wish::{AccountWish, Registry, RegistryWish, SessionWish, SetWish, Wish};
pub use without_rows::nobody_is_accepted_without_rows;

mod algorithm;
mod approval;
mod ask;
mod body;
mod cache;
mod cancel;
mod desk;
mod draft;
mod entry;
mod facts;
mod find;
mod found;
mod isolation;
mod judged;
mod keys;
mod later_keys;
mod laws;
mod listing;
mod new_session;
mod numbers;
mod order;
mod own_rows;
mod page;
mod registration;
mod registry;
mod request;
mod reviewers;
mod serve;
mod session;
mod set;
mod standard;
mod submit;
mod token;
mod wish;
mod without_rows;
