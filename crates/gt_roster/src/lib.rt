//! The domains of a run, each found by its number in one look.
//!
//! [`Positions`] keeps the numbers of the domains in order, and a table that gives the position of each number up
//! to the highest one. [`Roster`] is the configuration of a run with that table.
//!
//! Proved: [`Positions::position`] returns the position of the first domain with a number, or None if no domain has
//! it. [`Roster::domain`] returns that domain. A contract sees a [`Roster`] as its configuration. Only the functions
//! that make a value allocate.
//!
//! A monitor that keeps no frames has no limit on the number of a domain's frames (`IsRunnable`). Its configuration is
//! checked in the form that [`with_one_frame`] returns.
//!
//! It uses `gt_types`.
#![tactic(auto)]

mod frameless;
mod laws;
mod positions;
mod roster;

pub use frameless::with_one_frame;
pub use laws::{every_configuration_within_limits_is_runnable, one_frame_is_enough};
pub use positions::Positions;
pub use roster::Roster;
