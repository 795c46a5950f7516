//! Bytes that a contract sees as a list.
ghost use Rattle.std.specs.Prelude.{◌≡◌};

use gt_types::FRAME_SIZE;
use std::marker::Model;

/// The bytes of a frame.
pub(crate) type Contents = [u8; FRAME_SIZE as usize];

/// Bytes on the heap, which contracts see as a list.
#[derive(Drop)]
pub struct FrameBytes {
    items: Vec<u8>,
}

impl Model for FrameBytes {
    ghost use Rattle.std.specs.Prelude.{List, ℕ};

    ghost Value = { List ℕ };

    ghost view = { λ b. b.items.items };
}

impl From<Vec<u8>> for FrameBytes {
    ghost from_gives = { λ v b. b ≡ v.items };

    fn from(items: Vec<u8>) -> Self {
        FrameBytes { items }
    }
}

impl FrameBytes {
    /// Returns the bytes.
    pub(crate) fn into_vec(self) -> Vec<u8>
        ensures { result.items ≡ self }
    {
        self.items
    }
}
