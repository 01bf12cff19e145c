//! What an approval rests on.

ghost use Rattle.std.specs.Prelude.{◌≡◌, ◌==◌, ◌&&◌, IfErr, Some};
ghost use Rattle.std.specs.List.{list_all};
ghost use Rattle.acvp_policy.specs.Conditions.{is_some_and};
ghost use Rattle.acvp_tables.specs.Calls.{Finds};
ghost use Rattle.acvp_tables.specs.Counted.{is_passed};
ghost use Rattle.acvp_tables.specs.Content.{request_at};
ghost use Rattle.acvp_tables.specs.State.{of_all};
ghost use Rattle.acvp_desk.specs.Approvals.{has_certified_parts, has_ready_session, may_approve, may_be_approved};
ghost use Rattle.acvp_desk.specs.Certifications.{is_last_of, may_be_certified};
ghost use Rattle.acvp_desk.specs.Private.Summaries.{summaries_passed};
ghost use Rattle.acvp_desk.specs.Serves.{Looks};

use crate::judged::judged_sets;
use crate::own_rows::own_object;
use acvp_answers::Disposition;
use acvp_registry::Kind;
use acvp_tables::{Certification, RequestPurpose, SessionRow, SetSummary, StoreFault, Tables};

/// Whether a vector set has passed.
fn has_passed(set: &SetSummary) -> bool
    ensures { result ≡ is_some_and set.now.disposition is_passed }
{
    matches!(set.disposition, Some(Disposition::Passed))
}

/// Whether all of these have passed.
fn all_passed(sets: &[SetSummary]) -> bool
    ensures { result ≡ list_all (λ set. is_some_and set.disposition is_passed) sets.now }
{
    sets.iter().all(|set| has_passed(set))
}

/// Whether these vector sets are so many, and all have passed.
fn have_passed(sets: &[SetSummary], live: u64) -> bool
    ensures { result ≡ summaries_passed live sets.now }
{
    sets.len() as u64 == live && all_passed(sets)
}

/// Whether a session may be certified, by its row.
pub fn may_be_certified(row: &SessionRow) -> bool
    ensures { result ≡ may_be_certified row.now }
{
    !row.sample && !row.cancelled && row.live >= 1 && row.passed == row.live
}

/// Whether a session is an account's, names the request of a number as its last, and may be certified, by its row and
/// its vector sets that aren't cancelled.
fn is_ready(row: &SessionRow, sets: &[SetSummary], number: u64, account: u16) -> bool
    ensures { result ≡ (row.now.account == account) && is_last_of number (Some row.now) && may_be_certified row.now
        && summaries_passed row.now.live sets.now }
{
    row.account == account
        && row.last_request == Some(number)
        && may_be_certified(row)
        && have_passed(sets, row.live)
}

/// Whether the session of a number is so.
fn has_ready_session<T: Tables>(
    tables: &mut T,
    number: u64,
    account: u16,
    session: u64,
) -> Result<bool, StoreFault>
    ensures found { Finds T.meaning (λ x. x) result tables.old tables.new (has_ready_session number account session) }
    ensures looks { Looks T.meaning result tables.old tables.new }
    ensures fault { IfErr result T.faults }
{
    let Some(row) = tables.session(session)? else {
        return Ok(false);
    };
    let sets = judged_sets(tables, session)?;
    Ok(is_ready(&row, &sets, number, account))
}

/// Whether the module and the environment that a certification names are an account's, by their whole rows.
fn has_certified_parts<T: Tables>(
    tables: &mut T,
    account: u16,
    certification: Certification,
) -> Result<bool, StoreFault>
    ensures found { Finds T.meaning (λ x. x) result tables.old tables.new
        (λ c. has_certified_parts account certification c.objects) }
    ensures looks { Looks T.meaning result tables.old tables.new }
    ensures fault { IfErr result T.faults }
{
    let module_row = own_object(tables, Kind::Module, account, certification.module)?;
    let environment_row = own_object(
        tables,
        Kind::Environment,
        account,
        certification.environment,
    )?;
    Ok(module_row.is_some() && environment_row.is_some())
}

/// Whether what an account's request of a number asks for may be approved.
pub(crate) fn may_be_approved<T: Tables>(
    tables: &mut T,
    number: u64,
    account: u16,
    purpose: RequestPurpose,
) -> Result<bool, StoreFault>
    ensures found { Finds T.meaning (λ x. x) result tables.old tables.new (may_be_approved number account purpose) }
    ensures looks { Looks T.meaning result tables.old tables.new }
    ensures fault { IfErr result T.faults }
{
    match purpose {
        RequestPurpose::Registration(_) => Ok(true),
        RequestPurpose::Certification(certification) => {
            let is_ready = has_ready_session(tables, number, account, certification.session)?;
            let has_parts = has_certified_parts(tables, account, certification)?;
            Ok(is_ready && has_parts)
        }
    }
}

/// Whether the request of a number may be approved, where there is one.
pub fn may_approve<T: Tables>(tables: &mut T, number: u64) -> Result<bool, StoreFault>
    ensures found { Finds T.meaning (λ x. x) result tables.old tables.new
        (λ c. of_all (may_approve number c) (request_at number c.requests)) }
    ensures looks { Looks T.meaning result tables.old tables.new }
{
    match tables.request(number)? {
        Some(request) => may_be_approved(tables, number, request.account, request.purpose),
        None => Ok(true),
    }
}
