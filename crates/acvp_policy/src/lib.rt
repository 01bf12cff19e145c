//! Who may do what: the policy of the server, over facts that were found before.
#![tactic(auto)]

pub use action::{Action, Scope};
pub use acvp_token::Claims;
pub use facts::{
    CertificationStatus, Facts, LoginFacts, Renewal, ReviewerSubject, RowSubject, SessionFacts,
    SessionSubject, SetFacts, SetSubject, Standing, Subject, Token, UserFacts,
};
pub use grant::{Grant, admit, allows, decide, decide_admitted, granted_resources, release};
pub use isolation::{caller_rules_agree, callers_own_the_session};
pub use resource::Resource;
pub use rule::Rule;
pub use set::SET_LIFE;

mod action;
mod caller;
mod facts;
mod found;
mod grant;
mod isolation;
mod resource;
mod rule;
mod session;
mod set;
