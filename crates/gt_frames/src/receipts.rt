//! Receipts of accesses. Only the calls of a frame make them, and none can be cloned.
ghost use Rattle.std.specs.Prelude.{◌≡◌};

use crate::FrameBytes;
use crate::frame_bytes::Contents;
use gt_types::DomId;
use std::marker::Model;
use std::snapshot::Snapshot;

/// The receipt of a read: the frame's owner and number, the offset of the first byte, and the bytes.
#[derive(Drop)]
pub struct Read {
    pub(crate) owner: DomId,
    pub(crate) number: u64,
    pub(crate) off: u16,
    pub(crate) bytes: FrameBytes,
}

impl Model for Read {
    ghost use Rattle.gt_frames.specs.Receipts.{Reading};

    ghost Value = { Reading };

    ghost view = { λ r. record { owner = r.owner; number = r.number; off = r.off; bytes = r.bytes } };
}

impl Read {
    /// Returns the bytes read.
    pub fn into_bytes(self) -> Vec<u8>
        ensures { result.items ≡ self.bytes }
    {
        self.bytes.into_vec()
    }
}

/// The receipt of a read into bytes of the caller's: the frame's owner and number, the offset of the first byte,
/// and, only for contracts, the bytes.
#[derive(Drop)]
pub struct Filled {
    pub(crate) owner: DomId,
    pub(crate) number: u64,
    pub(crate) off: u16,
    pub(crate) len: usize,
    // All bytes of the frame at the read.
    pub(crate) contents: Snapshot<Contents>,
}

impl Model for Filled {
    ghost use Rattle.std.specs.Prelude.{◌+◌, slice_range};
    ghost use Rattle.gt_frames.specs.Receipts.{Reading};

    ghost Value = { Reading };

    ghost view = { λ f. record {
      owner = f.owner;
      number = f.number;
      off = f.off;
      bytes = slice_range f.contents.value f.off (f.off + f.len);
    } };
}

impl Filled {
    /// Makes the receipt of a read that owns its bytes, which are those of this receipt.
    pub fn with_bytes(self, bytes: Vec<u8>) -> Read
        requires { bytes.items ≡ self.bytes }
        ensures { result ≡ self }
    {
        Read {
            owner: self.owner,
            number: self.number,
            off: self.off,
            bytes: FrameBytes::from(bytes),
        }
    }
}

/// The receipt of a write: the frame's owner and number, the offset of the first byte, the bytes, and the writer.
#[derive(Drop)]
pub struct Written<'a> {
    pub(crate) owner: DomId,
    pub(crate) number: u64,
    pub(crate) off: u16,
    pub(crate) bytes: &'a [u8],
    pub(crate) writer: DomId,
}

impl<'a> Model for Written<'a> {
    ghost use Rattle.gt_frames.specs.Receipts.{Writing};

    ghost Value = { Writing };

    ghost view = { λ r. record {
      owner = r.owner;
      number = r.number;
      off = r.off;
      bytes = r.bytes.now;
      writer = r.writer;
    } };
}

/// One end of a copy.
#[derive(Clone, Copy)]
pub(crate) struct CopiedEnd {
    pub(crate) owner: DomId,
    pub(crate) number: u64,
    pub(crate) off: u16,
}

/// The ends of a copy, the number of bytes, and the writer.
#[derive(Clone, Copy)]
pub(crate) struct CopiedRange {
    pub(crate) source: CopiedEnd,
    pub(crate) dest: CopiedEnd,
    pub(crate) len: u16,
    pub(crate) writer: DomId,
}

/// The receipt of a copy: the frame and offset of each end, the number of bytes, and the writer. Only contracts read
/// them, so it takes no memory.
#[derive(Drop)]
pub struct Copied {
    pub(crate) copied: Snapshot<CopiedRange>,
}

impl Model for Copied {
    ghost use Rattle.gt_frames.specs.Receipts.{Copying};

    ghost Value = { Copying };

    ghost view = { λ r. record {
      source = record {
        owner = r.copied.value.source.owner;
        number = r.copied.value.source.number;
        off = r.copied.value.source.off;
      };
      dest = record {
        owner = r.copied.value.dest.owner;
        number = r.copied.value.dest.number;
        off = r.copied.value.dest.off;
      };
      len = r.copied.value.len;
      writer = r.copied.value.writer;
    } };
}

impl Copied {
    /// Makes the receipt of this copy.
    #[inline(always)]
    pub(crate) fn of(copied: &CopiedRange) -> Copied
        ensures { result ≡ record {
          source = record {
            owner = copied.now.source.owner;
            number = copied.now.source.number;
            off = copied.now.source.off;
          };
          dest = record {
            owner = copied.now.dest.owner;
            number = copied.now.dest.number;
            off = copied.now.dest.off;
          };
          len = copied.now.len;
          writer = copied.now.writer;
        } }
    {
        Copied {
            copied: Snapshot::of(copied),
        }
    }
}
