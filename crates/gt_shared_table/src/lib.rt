//! The table that all domains of a run share: the words of their entries and headers, their frames, and flags.
//!
//! The table is an `atomic_table` with the rule `HoldsAll` (`specs/Rule.antt`). Between any two steps words and views
//! show a state of the core, each frame in its slot is what the history makes of it, and one seat holds each frame that
//! is out. The table and its seats are private here, so a crate above steps only by the calls of [`SharedTable`].
//!
//! Seven calls step on words: three loads, two stores, an exchange and a subtraction. Three access frames, each under
//! its lock, which is a word of the table: [`read_frame`](SharedTable::read_frame), `write_frame` and `copy_frames`.
//! Two step on a flag: `raise_flag` and `pass_flag`. Each of these calls adds exactly one step to the seat's view, but
//! an access that gets no memory, and a pass of a flag that is not raised, add none. Views and steps cost nothing at
//! run time. Only `SharedTable::new` allocates for itself, and only accesses may wait.
//!
//! It uses `atomic_table`, `gt_word_history` (views, steps and the rule of the words), `gt_frames`, `gt_entry` (the
//! words) and `gt_types`.
#![tactic(auto)]

mod accesses;
mod flags;
mod frames;
mod laws;
mod locks;
mod raw;
mod rule;
mod seats;
mod slots;
mod start;
mod table;

pub use accesses::{FrameCopy, FrameWrite};
pub use laws::{
    every_access_is_a_step, every_frame_has_one_slot, every_frame_is_kept, every_step_is_allowed,
    every_table_opens, seats_come_and_go, seats_never_wait_in_a_ring,
};
pub use rule::FrameHolder;
pub use seats::Gathered;
pub use table::{FrameIndex, SharedTable, TableSeat};
