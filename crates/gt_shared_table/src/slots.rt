//! The slots of the frames, in the order of their domains.
ghost use Rattle.std.specs.Prelude.{◌≡◌, ◌≤◌, ◌<◌, length, map, slice_index, IfOk, Some};
ghost use Rattle.gt_shared_table.specs.Rule.{IsSlotOf, flag_place, slot_frame, places_of};
ghost use Rattle.gt_shared_table.specs.Words.{HasTable, first_slots, frames_kept, named_at};

use crate::rule::{Cells, FrameSlot};
use crate::table::FrameIndex;
use gt_frames::Frame;
use gt_types::Config;
use gt_word_history::DOMAIN_WORDS;
use std::alloc::{AllocError, Global};

/// The words from one lock to the next, so neighbours share no cache line.
pub(crate) const LOCK_WORDS: usize = 8;

// Returns the slot of a frame.
pub(crate) fn slot_at(cells: &Cells, firsts: &[usize], frame: FrameIndex) -> FrameSlot
    requires table { HasTable cells.now.key × (flag_place (places_of cells.now.key) 0 ≤ cells.now.table_id.words) }
    requires firsts { firsts.now ≡ first_slots 0 cells.now.key.domains.items }
    requires inside { (frame.position < length cells.now.key.domains.items)
        × (frame.number < slice_index (frames_kept cells.now.key) frame.position) }
    ensures slot { IsSlotOf (places_of cells.now.key) cells.now.table_id result }
    ensures name { slot_frame result ≡ named_at frame }
{
    let index = firsts[frame.position] + frame.number as usize;
    FrameSlot {
        lock: firsts.len() * DOMAIN_WORDS + index * LOCK_WORDS,
        index,
        owner: frame.position as u64,
        number: frame.number,
    }
}

// Returns the slot of each domain's first frame.
pub(crate) fn first_slots(alloc: Global, config: &Config) -> Result<Vec<usize>, AllocError>
    requires { HasTable config.now }
    ensures { IfOk result (λ slots. slots.items ≡ first_slots 0 config.now.domains.items) }
{
    let mut slots = Vec::new(alloc);
    let mut next = 0;
    'domains: for domain in &config.domains {
        slots.push(next)?;
        next += domain.frames as usize;
    }
    Ok(slots)
}

// Returns the number of frames of each domain.
pub(crate) fn frames_kept(alloc: Global, config: &Config) -> Result<Vec<u64>, AllocError>
    ensures { IfOk result (λ counts. counts.items ≡ frames_kept config.now) }
{
    let mut counts = Vec::new(alloc);
    'domains: for domain in &config.domains {
        counts.push(u64::from(domain.frames))?;
    }
    Ok(counts)
}

// Puts each frame into a slot.
pub(crate) fn in_slots(alloc: Global, frames: Vec<Frame>) -> Result<Vec<Option<Frame>>, AllocError>
    ensures { IfOk result (λ slots. slots.items ≡ map (λ f. Some f) frames.items) }
{
    let mut slots = Vec::new(alloc);
    'frames: for frame in frames {
        slots.push(Some(frame))?;
    }
    Ok(slots)
}
