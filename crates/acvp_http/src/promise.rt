//! The promise of the server, in one place.
ghost use Rattle.acvp_http.specs.Headline.{Headline, HeadlineLeft};
ghost use Rattle.acvp_http.specs.Isolation.{DenialsAreServed, DeniedAlike, Isolation, IsolationAlone};
ghost use Rattle.acvp_http.specs.Isolation.{RequestIsolation};

use acvp_desk::{
    accepted_requests_are_told, callers_are_denied_alike, changes_are_of_who_asks, effects_follow,
    nobody_is_answered_alike, orders_are_apart, records_are_kept, requests_are_apart,
    seen_rows_answer,
};
use acvp_tables::{numbers_tell, reviewers_are_added};

/// The headline. For every list of requests and operator's orders with their moments, each reply is byte for byte what
/// the policy's conditions, in their one order, give to the claims that are verified at that moment over the records
/// that the accepted events before it left; after the last event the records are what all accepted ones left. A denial
/// names the first rule that is broken, and changes nothing; nor does an event that is unavailable. No verdict is among
/// these records: each disposition is worked out from the answers that are kept.
///
/// What `handle_bytes`, `run` and `serve_one` do is such a run, for every form of the tables: their contracts say so.
pub fn headline()
    ensures told { Headline }
    ensures left { HeadlineLeft }
{
    effects_follow();
}

/// Isolation. What an account is told over a whole run is what it is told where nobody acts but the operator, the
/// account itself, and those that have it as a reviewer or ask to add it as one: its replies are byte for byte those of
/// the run of their turns alone, from the same records, or from any consistent ones in which these accounts have the
/// same and no other has it as a reviewer, and there is one such run. So what others left in a file before doesn't
/// matter. An account that no other has as a reviewer, or asks to add as one, is told what it is told where the operator
/// and it alone act.
///
/// Events that were unavailable count for neither run.
pub fn isolation()
    ensures runs { Isolation }
    ensures alone { IsolationAlone }
{
    effects_follow();
    records_are_kept();
    orders_are_apart();
    requests_are_apart();
    nobody_is_answered_alike();
    seen_rows_answer();
    changes_are_of_who_asks();
    accepted_requests_are_told();
    numbers_tell();
    reviewers_are_added();
}

/// Isolation of one request. Its account is told the same over all records in which it sees the same: its own rows, and
/// of each session that it reviews its row and its vector sets. Of its own rows is left what these alone tell; every
/// other account's rows stay. A request of nobody is answered alike over all records.
pub fn request_isolation()
    ensures { RequestIsolation }
{
    effects_follow();
    requests_are_apart();
    nobody_is_answered_alike();
    seen_rows_answer();
}

/// Denials. A request that is refused for its token, for the account of its claims or for the session of its path is
/// refused in the same bytes over all records with the same accounts and reviewers, whatever sessions, vector sets and
/// other rows are in them; and one that isn't refused so over some of them is refused so over none. Such a refusal is
/// how the request is served: nothing changes.
pub fn denials_are_alike()
    ensures alike { DeniedAlike }
    ensures served { DenialsAreServed }
{
    callers_are_denied_alike();
}
