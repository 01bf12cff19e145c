//! What the operator looks at in the records: accounts, requests, what a decision on one needs, the document of a
//! certification, and whether all is whole.
#![tactic(auto)]

mod certificate;
mod certified;
mod checked;
mod damaged;
mod decision;
mod escape;
mod fault;
mod folded;
mod form;
mod items;
mod lines;
mod listed;
mod lists;
mod page;
mod reads;
mod sets;
mod shown;
mod whole;

pub use certificate::{Certificate, CertifiedSet, certificate_text};
pub use certified::{approved_certification, show_certificate};
pub use checked::show_check;
pub use damaged::{damage_text, whole_text};
pub use decision::show_certified;
pub use fault::ViewFault;
pub use form::Form;
pub use items::Items;
pub use lines::{Lines, MarkedLines, Printed};
pub use listed::{account_line, request_line};
pub use lists::{
    show_account, show_account_array, show_accounts, show_request_array, show_requests,
};
pub use shown::show_request;
pub use whole::WholeRequests;
