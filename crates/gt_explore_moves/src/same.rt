//! Equality of parts of states.
//!
//! Each function here returns true only for equal values, and may return false for them: the search then keeps a part
//! twice.
ghost use Rattle.std.specs.Prelude.{◌≡◌, IsTrue};
ghost use Rattle.gt_explore_moves.specs.Parts.{SamePart, part_shown};
ghost use Rattle.gt_explore_moves.specs.Mappings.{labels_of, mapping_pins, label_bytes};

use crate::actor::{ActorCall, LabelledMapping};
use crate::parts::{PartInState, StatePart};
use gt_explore_state::{same_call, same_step};

fn same_task(one: Option<usize>, other: Option<usize>) -> bool
    ensures { IsTrue result → other ≡ one }
{
    one == other
}

/// Returns whether the open calls are the same.
pub fn same_open(one: Option<ActorCall>, other: Option<ActorCall>) -> bool
    ensures { IsTrue result → other ≡ one }
{
    match (one, other) {
        (None, None) => true,
        (Some(open), Some(o)) => {
            same_task(open.task, o.task)
                && same_call(open.call, o.call)
                && same_step(open.step, o.step)
        }
        _ => false,
    }
}

fn same_label(one: Option<&[u8]>, other: Option<&[u8]>) -> bool
    ensures { IsTrue result → label_bytes other.entry ≡ label_bytes one.entry }
{
    match (one, other) {
        (None, None) => true,
        (Some(label), Some(l)) => label == l,
        _ => false,
    }
}

/// Returns whether the mappings have the same pins and labels.
pub fn same_mappings(one: &[LabelledMapping], other: &[LabelledMapping]) -> bool
    ensures pins { IsTrue result → mapping_pins other.now ≡ mapping_pins one.now }
    ensures labels { IsTrue result → labels_of other.now ≡ labels_of one.now }
{
    if one.len() != other.len() {
        return false;
    }
    'mappings: for at in 0..one.len() {
        if one[at].held != other[at].held || !same_label(one[at].label, other[at].label) {
            return false;
        }
    }
    true
}

/// Returns whether the parts are the same.
pub fn same_parts(one: PartInState<'_, '_>, other: &StatePart) -> bool
    ensures { IsTrue result → SamePart (part_shown one.entry) other.now }
{
    match (one, other) {
        (PartInState::Flags(told), StatePart::Flags(t)) => t.is_of(told.as_slice()),
        (PartInState::Domain(actor), StatePart::Domain(a)) => a.is_of(actor),
        (PartInState::Table(table), StatePart::Table(t)) => table.is_same(t),
        (PartInState::Page(page), StatePart::Page(p)) => page.is_same(p),
        _ => false,
    }
}
