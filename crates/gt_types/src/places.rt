//! Positions in the frames of a run.
use crate::DomId;

/// A frame: its owner, and its number among the owner's frames, from 0.
#[derive(Clone, Copy, Debug, PartialEq, Eq)]
pub struct FrameName {
    pub owner: DomId,
    pub number: u64,
}

/// A byte of a frame: the frame, and the byte's offset in it.
#[derive(Clone, Copy, Debug, PartialEq, Eq)]
pub struct Spot {
    pub frame: FrameName,
    pub off: u16,
}
