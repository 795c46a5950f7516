//! The running monitor for a program in C: one export for each call that never waits.
//!
//! `include/gthost.h` declares all of it. A [`DomainHandle`] has a domain, or is all zeros. A call borrows the domain
//! of its handle, makes the call of `gt_attached` on it, and returns an `EncodedAnswer`. Borrowing allocates nothing.
//!
//! Every call is safe and ends. Each makes exactly the call of its name, with its own arguments, on its handle's
//! domain, and returns the encoding of that call's result. If the handle has no domain, or one in a copy, it returns
//! that instead. A copy that began holds its pins until it ends. C must only do what the types require: pointers are
//! valid, a handle is zeros or what `gthost_start` wrote, and it is in one call at a time. No export takes a null
//! pointer: the inline functions of the header test for it.
//!
//! It uses `gt_attached`, `gt_start`, `gt_allow` and `gt_policy` (rights), `gt_audit` (records), `gt_calls`,
//! `gt_entry`, `gt_handles`, `gt_live` and `gt_types`.
#![tactic(auto)]

mod beginning;
mod c_domain;
mod calls;
mod copies;
mod faults;
mod grantees;
mod grants;
mod handle;
mod held;
mod lending;
mod mappings;
mod parts;
mod renewing;
mod reports;
mod rules;
mod tables;

pub use grantees::{Grantees, NOBODY};
pub use grants::EntryBytes;
pub use handle::DomainHandle;
pub use mappings::MapHandle;
