//! The effects of steps on pages.
ghost use Rattle.std.specs.Prelude.{◌≡◌, ◌+◌, ◌≤◌, OnOk};
ghost use Rattle.gt_types.specs.declared.limits.TheConstants.{FRAME_SIZE};
ghost use Rattle.gt_explore_state.specs.Writing.{CopiesPage, IsInFrames, PagesAfter};

use crate::pages::{SparsePage, read, write};
use gt_calls::{Spot, Step};
use std::alloc::{AllocError, Global};

// Copies bytes from one spot to another.
fn copy(
    alloc: Global,
    pages: &mut Vec<SparsePage>,
    from: Spot,
    to: Spot,
    len: u16,
) -> Result<(), AllocError>
    ensures { from.off + len ≤ FRAME_SIZE → to.off + len ≤ FRAME_SIZE →
        OnOk result (CopiesPage pages.old.items pages.new.items from to len) }
{
    let held = pages.as_slice();
    let bytes = read(
        alloc,
        held,
        from.frame.owner,
        from.frame.number,
        from.off,
        len,
    )?;
    write(
        alloc,
        pages,
        to.frame.owner,
        to.frame.number,
        to.off,
        bytes.as_slice(),
    )
}

/// Applies to the pages a step whose call was given these bytes.
pub fn write_to(
    alloc: Global,
    pages: &mut Vec<SparsePage>,
    step: Step,
    given: &[u8],
) -> Result<(), AllocError>
    ensures { IsInFrames step → OnOk result (PagesAfter step given.now pages.old.items pages.new.items) }
{
    match step {
        Step::Write {
            dom,
            frame,
            off,
            ..
        } => write(alloc, pages, dom, frame, off, given),
        Step::Copy { from, to, len } => copy(alloc, pages, from, to, len),
        Step::LookHeader { .. }
        | Step::LookControl { .. }
        | Step::LookBody { .. }
        | Step::Pin { .. }
        | Step::Unpin { .. }
        | Step::StoreBody { .. }
        | Step::StoreHeader { .. }
        | Step::Exchange { .. }
        | Step::Read { .. } => Ok(()),
    }
}
