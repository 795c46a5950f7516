//! Monitors and running domains for tests and timed loads, with calls as values and answers as texts.
//!
//! [`start`] makes a run of some domains, and [`start_run`] that of a configuration. [`all_running`] pairs each domain
//! with its monitor ([`TestDomain`]), so that it can be dropped and can move into a thread. Code that needs only a
//! domain's calls and records is generic over [`Calls`], since a type without a lifetime costs less proof.
//!
//! [`Calls::ask`] makes the call that a [`TestCall`] names, and [`text`] prints its answer, with the word that a
//! refusal carries. [`Calls::make`] makes the call of a request and answers as `gt_core` would.
//!
//! A domain that is dropped leaves its run, so none keeps a pin. Calls that access no bytes never wait. The contracts
//! leave open what a call answers: the tests compare it.
//!
//! It uses `gt_live`, the crates whose types that names (`gt_audit`, `gt_calls`, `gt_entry`, `gt_frames`, `gt_types`),
//! and the answers of `gt_core`.
#![tactic(auto)]

mod asking;
mod running;
mod starting;

pub use asking::{READ_ONLY, TestCall, TestReply, WRITABLE, text};
pub use running::{Calls, TestDomain, all_running};
pub use starting::{numbered, rights, start, start_run};
