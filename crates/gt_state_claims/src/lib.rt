//! Claims about states: what the entries of a run show at one moment.
//!
//! [`StateClaim::read`] reads a claim such as `1.0:reads>0 & 1.0:writes>0 | 2.5:none`: choices, of which each is terms
//! that must all be met at the same moment. A term names an entry by its domain and its reference, and what a `show`
//! of it prints. [`StateClaim::holds`] returns whether a claim holds of the entries that [`ShowsEntries`] shows.
//!
//! Proved: a text is read as `claim_read` of `specs/Reading.antt` reads it, and the fault of a text is that of its first
//! term with one. A claim holds of entries exactly if `claim_holds` of `specs/Claims.antt` does.
//!
//! It uses `gt_core` (what an entry shows), `gt_model` and `gt_types` (entries and their names), and `gt_script_lines`
//! (decimal numbers).
#![tactic(auto)]

mod claims;
mod fault;
mod reading;
mod terms;
mod words;

pub use claims::{ShowsEntries, StateClaim};
pub use fault::{StateClaimFault, StateTermFault};
pub use terms::{Comparison, EntryField, EntryTest, StateTerm};
