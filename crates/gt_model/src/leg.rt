//! One pin to be taken.

use gt_types::{Dir, DomId, GrantRef, Use};

/// One pin to be taken: on which entry, for which domain, and for what.
#[derive(Clone, Copy)]
pub struct Leg {
    /// The domain that the entry must permit: the caller, or after a Via its owner.
    pub grantee: DomId,
    /// The owner of the entry.
    pub dom: DomId,
    pub gref: GrantRef,
    pub dir: Dir,
    pub purpose: Use,
    /// Whether a Via led to this entry. Another Via is then refused.
    pub beyond_via: bool,
    /// The range that a copy needs, in bytes. Both are 0 for a map.
    pub off: u16,
    pub len: u16,
    /// The number of frames of the owner.
    pub frames: u32,
}
