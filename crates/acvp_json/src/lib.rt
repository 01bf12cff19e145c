//! Bodies of requests in, and objects of replies out.
#![tactic(auto)]

mod account;
mod algorithms;
mod answers_body;
mod array;
mod certify_body;
mod envelope;
mod expected;
mod fault;
mod kept_answers;
mod kept_scan;
mod login_body;
mod members;
mod nullable;
mod object;
mod page;
mod registered;
mod reply_object;
mod reviewer_body;
mod session;
mod set_results;
mod submission;
mod text;
mod time;
mod urls;
mod vector_set;

pub use answers_body::read_answers;
pub use certify_body::{CertifyBody, read_certify};
pub use envelope::open_envelope;
pub use fault::BodyFault;
pub use kept_answers::{answers_from_text, answers_to_text};
pub use kept_scan::are_kept_answers;
pub use login_body::{LoginBody, read_login};
pub use nullable::{number_or_null, text_or_null};
pub use page::Page;
pub use registered::Registered;
pub use reply_object::{ReplyObject, write_reply};
pub use reviewer_body::read_reviewer;
pub use session::{Session, SessionStatus, SetResult};
pub use text::Text;
pub use time::{Created, time_text};
