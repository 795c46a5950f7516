//! The audit: the records of answered hypercalls, the lines that print them, and the lists that keep them.
//!
//! A [`Record`] is a plain value: the caller, the request and the answer. [`line`] prints it. A domain keeps its
//! own records in a [`Trail`]. If other threads may read them too, the domain also pushes them into a
//! [`SharedLog`].
//!
//! Proved: a line is exactly the text of its record, with the names of types that it is given. A record is appended
//! to its trail or counted as lost, and no other record changes. A token of a shared log gives the record that was
//! pushed for it, whatever was pushed later. What is found under a domain and a number was pushed for them. Only a
//! push into a shared log may wait.
//!
//! It uses `gt_types` (domains, references, refusals), `gt_text` (the texts of answers), `bitflags`
//! (permissions) and `boxcar` (a list that threads share).
#![tactic(auto)]

mod compact;
mod domain_log;
mod lines;
mod pieces;
mod record;
mod shared;
mod trail;

pub use domain_log::DomainLog;
pub use lines::{line, push_line, push_lost};
pub use pieces::MOST_RESERVED;
pub use record::{Hypercall, Record, Reply};
pub use shared::{Pushed, SharedLog};
pub use trail::Trail;
