//! The words of all grant entries, shared by the domains of a run without a lock, and the frames of the run.
//!
//! Each entry has a control word and two body words, and each domain a header word. Each call on them is one atomic
//! step on one of them. Between any two steps the words, and what the seats know, show a state of the core: who was
//! granted what, with each pin counted. So if a revocation returns Ok, no domain had a pin of its entry at that moment.
//!
//! Each access to a frame is one step too, under the lock of the frame: [`read_frame`](Words::read_frame),
//! `write_frame` and `copy_frames`. Only these calls may wait. Raising a flag and passing it is a step too. Of the
//! calls on words only those that start a run allocate.
//!
//! The contract of each call names the state in which its step was made, and what the step changed. All steps of all
//! domains have one order. Views and steps cost nothing at run time.
//!
//! It uses `gt_shared_table` (the table and its single steps), `gt_word_history` (views and steps), `gt_frames`
//! (receipts and writs), `gt_entry` (the words), `gt_roster` (domains by their numbers) and `gt_types`. Its definitions
//! also name the states of `atomic_table`.
#![tactic(auto)]

mod at_position;
mod calls;
mod flags;
mod frames;
mod gathering;
mod laws;
mod start;
mod words;

pub use frames::AccessFault;
pub use gt_shared_table::{FrameCopy, FrameWrite, Gathered};
pub use gt_word_history::{
    EntryRecord, EntryStep, FlagStep, FrameStep, HeaderStep, Outlook, Purpose, SeatStep, View,
};
pub use laws::{
    every_allowed_step_records_what_is_there, every_domain_has_its_position,
    every_domain_is_of_the_run, every_history_follows_from_the_views, every_pin_is_of_an_entry,
    every_pin_left_is_counted, every_seat_has_its_position, every_step_is_taken_then,
    every_step_of_a_history_happened, every_word_follows_from_the_views,
    no_pin_is_taken_of_a_past_record, no_pin_outlives_its_record,
    pins_of_one_generation_have_one_record, seats_may_be_taken_in, what_was_seen_is_listed,
};
pub use words::{Pin, Seat, Words};
