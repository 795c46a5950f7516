//! Map handles: the names under which a domain keeps its mappings.
//!
//! A [`Handle`] is a serial and a key. The serials of one [`Handles`] count up from 0, and none is given twice. A
//! key is used again after its value was taken out. So a handle whose value was taken is never found again,
//! whatever its key holds later.
//!
//! Proved: a `Handles` is a finite map from serial and key to values. Each call changes the map at one handle only.
//! After [`Handles::reserve`] has made room, the next [`Handles::insert`] can't fail. No call but `reserve`
//! allocates.
//!
//! It uses `slab`, which picks the keys, `gt_model` (handles) and `gt_types` (the error `Memory`).
#![tactic(auto)]

mod handles;
mod laws;

pub use handles::{Handle, HandleSlot, Handles};
