//! The grant tables of a run, as a machine over events.
//!
//! [`Core`] keeps the tables, mappings and frames of the configured domains. `begin` and `tick` make one atomic
//! step each: the beginning of a call, a look at a word, an exchange, a store, an unpin or an access to bytes.
//! [`play`] plays a list of events.
//!
//! Proved: for every list of events, what the core does is a legal trace. Each step sees what the steps before it
//! left. Another domain's byte is read or written only if a live pin reaches it and the policy allows it. A
//! revocation of a valid entry is taken exactly if no pin on it is live. A refusal names the first rule that applied.
//!
//! The definitions: `gt_model` has histories and legal traces (`Legal`). Here `specs/Standing.antt` defines when a
//! core represents a history.
//!
//! It uses `gt_model`, `gt_calls`, `gt_entry`, `gt_frames`, `gt_handles`, `gt_roster` and `gt_types`.
#![tactic(auto)]

mod accesses;
mod core_state;
mod effects;
mod kept;
mod laws;
mod machine;
mod pin_counts;
mod sight;
mod state;
mod subject;
mod underway;

pub use core_state::{Begun, Core, EntryView, Ticked, play};
pub use gt_calls::{
    CopyArgs, End, EntryChange, Handle, HeldPin, Observation, OpenRequest, PinHolder, Request,
    Spot, Step,
};
pub use gt_model::{Answer, Bytes, Element, Event, Item, ItemEvent, Trace};
pub use laws::{
    every_alike_event_does_one_thing, every_alike_run_shows_one_thing, every_call_can_begin,
    every_event_does_one_thing, every_known_handle_has_one_subject,
    every_legal_trace_is_a_legal_history, every_open_call_can_access, every_open_call_can_go_on,
    every_page_taken_back_is_out_of_reach, every_run_can_start, no_pin_outlives_its_record,
};
pub use machine::answer_of;
pub use pin_counts::{CountsChange, PinCounts};
pub use sight::exchange_sees;
