//! What is given to who lists the test sessions of its account.

ghost use Rattle.std.specs.Prelude.{◌≡◌, ◌⊎◌, map, option_map, Some, None, IfOk, IfErr};
ghost use Rattle.acvp_mac.specs.Conditions.{first_broken};
ghost use Rattle.acvp_desk.specs.Answer.{IsReply};
ghost use Rattle.acvp_desk.specs.OwnConditions.{page_conditions};
ghost use Rattle.acvp_desk.specs.Replies.{listed_shown, sessions_reply};

use crate::ask::END_OF_MOMENTS;
use crate::draft::{Draft, told};
use crate::found::{ListedSession, SessionsPage};
use crate::session::session_status;
use acvp_json::{Created, ReplyObject, Session};
use acvp_policy::Rule;
use std::alloc::Global;

/// What is shown of a session. A row of a session that was created at a moment that isn't served stands for nothing.
fn listed_shown(row: &ListedSession) -> Result<Session, Rule>
    ensures shown { IfOk result (λ session. session ≡ listed_shown row.now) }
    ensures denied { IfErr result (λ rule. rule ≡ Rule.Unavailable) }
{
    if row.created >= END_OF_MOMENTS {
        return Err(Rule::Unavailable);
    }
    Ok(Session {
        number: row.number,
        created: Created::at(row.created),
        sample: row.sample,
        status: session_status(row.cancelled, row.certification),
    })
}

/// What is shown of sessions.
fn all_shown(alloc: Global, rows: &[ListedSession]) -> Result<Vec<Session>, Rule>
    ensures shown { IfOk result (λ sessions. sessions.items ≡ map listed_shown rows.now) }
    ensures denied { IfErr result (λ rule. rule ≡ Rule.Unavailable) }
{
    let Ok(mut sessions) = Vec::with_capacity(alloc, rows.len()) else {
        return Err(Rule::Unavailable);
    };
    for row in rows {
        let session = listed_shown(row)?;
        if sessions.push(session).is_err() {
            return Err(Rule::Unavailable);
        }
    }
    Ok(sessions)
}

/// What is given to who lists sessions, or the rule that says that the query is no page.
#[tactic(auto, unfolding(acvp_json::specs::ReplyData::reply_data))]
pub(crate) fn draft_sessions(alloc: Global, found: &Option<SessionsPage>) -> Result<Draft, Rule>
    ensures held { IfOk result (λ _. first_broken (page_conditions found.now) ≡ None) }
    ensures reply { IfOk result (λ draft. IsReply draft.reply.items (option_map sessions_reply found.now)) }
    ensures change { IfOk result (λ draft. draft.change ≡ None) }
    ensures denied { IfErr result (λ rule. (rule ≡ Rule.Unavailable)
        ⊎ (first_broken (page_conditions found.now) ≡ Some rule)) }
{
    let Some(found) = found else {
        return Err(Rule::BadPage);
    };
    let sessions = match all_shown(alloc, &found.sessions.sessions) {
        Ok(sessions) => sessions,
        Err(rule) => return Err(rule),
    };
    let object = ReplyObject::ListSessions {
        page: found.page,
        total: found.total,
        sessions: &sessions,
    };
    told(alloc, &object, None)
}
