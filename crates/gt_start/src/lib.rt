//! The start of a run for a caller outside Rattle, from settings in C's layout and a policy's text.
//!
//! [`begin_run`] returns an attached domain for each domain of the settings, in order. They share one monitor, which has
//! the settings as its configuration and allows exactly what the policy's text allows. If no run starts, the
//! [`EncodedFault`] gives the reason. [`type_of`] finds the label of a type by its name, and [`type_name`] the name of a
//! label.
//!
//! It uses `gt_attached` (attached domains), `gt_policy` and `gt_allow` (rights), `gt_roster` and `gt_types`.
#![tactic(auto)]

mod beginning;
mod faults;
mod settings;

pub use beginning::{begin_run, type_name, type_of};
pub use faults::{EncodedFault, HANDLES, MEMORY, NONE};
pub use settings::DomainSettings;
