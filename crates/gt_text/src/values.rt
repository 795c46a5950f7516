//! The answers of calls that return numbers.
ghost use Rattle.std.specs.Prelude.{◌≡◌, ◌++◌, OnOk};
ghost use Rattle.gt_text.specs.Printing.{frames_text, size_text, version_text};
ghost use Rattle.gt_text.specs.Texts.{StaysText};

use crate::numbers::push_part;
use crate::text::push_text;
use gt_types::Size;
use std::alloc::AllocError;

/// Appends the answer of a call that returns a number of frames. After an Err, part of it may have been appended.
pub fn push_frames(out: &mut Vec<u8>, frames: u32) -> Result<(), AllocError>
    ensures text { OnOk result (out.new.items ≡ out.old.items ++ frames_text frames) }
    ensures stays { OnOk result (StaysText out.old.items out.new.items) }
{
    push_text(out, "ok")?;
    push_part(out, "frames", frames)
}

/// Appends the answer of a query of a table's size. After an Err, part of it may have been appended.
pub fn push_size(out: &mut Vec<u8>, size: Size) -> Result<(), AllocError>
    ensures text { OnOk result (out.new.items ≡ out.old.items ++ size_text size) }
    ensures stays { OnOk result (StaysText out.old.items out.new.items) }
{
    push_frames(out, size.frames)?;
    push_part(out, "max", size.max)
}

/// Appends the answer of a call that returns a version. After an Err, part of it may have been appended.
pub fn push_version(out: &mut Vec<u8>, version: u32) -> Result<(), AllocError>
    ensures text { OnOk result (out.new.items ≡ out.old.items ++ version_text version) }
    ensures stays { OnOk result (StaysText out.old.items out.new.items) }
{
    push_text(out, "ok")?;
    push_part(out, "version", version)
}
