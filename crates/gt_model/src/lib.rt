//! The model of grant tables: what the promise of this repository means.
//!
//! The types are what a trace is made of: entries, their words, requests, steps, observations, answers. The
//! definitions are in `specs/`, and `specs/Lib.antt` lists them in reading order: entries and words, the rules of a
//! refusal, requests, held pins, the paths of calls, histories, what justifies a step, the first rule, and last
//! `Legal`, the traces that `gt_core::play` and a running monitor may have. They rest on nothing else but the names
//! and limits of `gt_types`, so what the promise means can be read here alone. docs/MODEL.md is the guide.
//!
//! Proved here: what the few functions on entries, words and pins compute, and in `proofs/Observers.antt` what each
//! item of a history leaves. The crates above have the code, and prove that it does what these definitions require.
//!
//! It uses `gt_types` (domains, references, directions, limits) and the definitions of `byteorder` (numbers in bytes).
//! Nothing here allocates.
#![tactic(auto)]

mod action;
mod bounds;
mod change;
mod control;
mod entry;
mod handle;
mod header;
mod held;
mod leg;
mod request;
mod spelling;
mod trace;

pub use action::{Action, CallResult, CallValue, HeaderQuery, Observation, Step};
pub use bounds::{MAX_STEPS, MORE_TRIES, SERIAL_LIMIT, the_limits_of_calls};
pub use change::{BodyWord, EntryChange};
pub use control::{Control, EntryKind, pin_unit, status_word};
pub use entry::Entry;
pub use handle::Handle;
pub use header::Header;
pub use held::{AccessPath, CallPins, HeldPin, NO_PINS};
pub use leg::Leg;
pub use request::{OpenRequest, PinHolder, Request, asked_fits};
pub use trace::{Answer, Bytes, Element, Event, Item, ItemEvent, Trace};
