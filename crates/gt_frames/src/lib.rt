//! Frames: the bytes that domains share, each frame with a journal of its writes.
//!
//! A [`Frame`] holds 4,096 bytes, all zero at first. Its journal has a [`WriteRecord`] of each write; only proofs
//! read it. Proved: the bytes are always the replay of the journal over zeros, and each record lies in the frame
//! and is by right. A [`Writ`] names the writer and its right: the writer owns the frame; or an entry of the
//! owner's permits it to write that range; or a transitive entry forwards it, and an entry of the owner's permits
//! the middle domain.
//!
//! The reads, writes and copies of a [`Frame`] do exactly what their receipts [`Read`], [`Filled`], [`Written`] and
//! [`Copied`] state, overlap included. No other access makes a receipt, and no receipt can be cloned. If an allocation
//! fails, nothing changes. Reads do not allocate. A caller that writes passes a writ that covers the range. [`Frames`]
//! are all frames of a run, for one thread: a write or a copy changes the frame named and no other.
//!
//! It uses `gt_types` (names), `gt_model` (what entries permit, what writes leave), `gt_entry` (entries) and `bytes` (a
//! lemma on lists).
#![tactic(auto)]

mod frame;
mod frame_bytes;
mod frames;
mod history;
mod journal;
mod laws;
mod places;
mod receipts;
mod writ;
mod writers;

pub use frame::Frame;
pub use frame_bytes::FrameBytes;
pub use frames::{Frames, frames_of_zeros};
pub use gt_types::{FrameName, Spot};
pub use history::History;
pub use laws::{a_covered_record_shows_no_byte, as_many_records_as_bytes_are_enough};
pub use places::{FrameCount, frame_counts, number_in_pool};
pub use receipts::{Copied, Filled, Read, Written};
pub use writ::{Writ, WriteBasis, WriteRecord};
