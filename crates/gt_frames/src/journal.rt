//! The journal of a frame, which only proofs read.
ghost use Rattle.std.specs.Prelude.{◌≡◌, ◌+◌, [], slice_range};
ghost use Rattle.gt_frames.specs.Frames.{recorded};

use crate::Writ;
use crate::frame_bytes::Contents;
use crate::history::History;
use std::marker::Model;

// A range that was written, and its writ.
#[derive(Clone, Copy)]
struct WrittenRange {
    writ: Writ,
    off: u16,
    len: usize,
}

/// All writes to a frame, the oldest first. Only proofs read it, so it takes no memory.
#[derive(Drop)]
pub(crate) struct Journal {
    // For each write, its range and the bytes of the frame after it.
    history: History<WrittenRange, Contents>,
}

impl Model for Journal {
    ghost use Rattle.std.specs.Prelude.{◌+◌, List, map, slice_range};
    ghost use Rattle.gt_frames.specs.declared.writ.WriteRecord.{WriteRecord};

    ghost Value = { List WriteRecord };

    ghost view = { λ j. map (λ p. record {
      writ = p.0.writ;
      off = p.0.off;
      bytes = slice_range p.1 p.0.off (p.0.off + p.0.len);
    }) j.history.items };
}

impl Journal {
    ghost use Rattle.std.specs.Prelude.{◌≡◌, ◌+◌, [], slice_range};
    ghost use Rattle.gt_frames.specs.Frames.{recorded};

    /// Returns the empty journal.
    pub(crate) fn new() -> Journal
        ensures { result ≡ [] }
    {
        Journal {
            history: History::new(),
        }
    }

    /// Appends a write of `len` bytes, starting at offset `off`. The frame then has the bytes `contents`.
    pub(crate) fn add(&mut self, writ: &Writ, off: u16, len: usize, contents: &Contents)
        ensures { self.new ≡ recorded self.old writ.now off (slice_range contents.now off (off + len)) }
    {
        let placed = WrittenRange {
            writ: *writ,
            off,
            len,
        };
        self.history = self.history.and(&placed, contents);
    }
}
