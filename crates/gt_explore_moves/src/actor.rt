//! A domain in a state of the search.
ghost use Rattle.std.specs.Prelude.{◌≡◌, ◌++◌, [], ◌∷◌, map};
ghost use Rattle.gt_explore_moves.specs.Mappings.{labels_of, mapping_pins, apart_from, label_bytes, unless_given};

use gt_calls::{Call, CallResult, HeldPin, PinHolder, Step};
use std::alloc::{AllocError, Global};

/// A mapping, and the label that names it.
#[derive(Clone, Copy)]
pub struct LabelledMapping<'a> {
    pub label: Option<&'a [u8]>,
    pub held: HeldPin,
}

/// An open call with its next step. It is the call of the task at this index of the domain's list, or the release of
/// a mapping at the end of the list.
#[derive(Clone, Copy)]
pub struct ActorCall {
    pub task: Option<usize>,
    pub call: Call,
    pub step: Step,
}

/// A domain in a state of the search.
#[derive(Drop)]
pub struct Actor<'a> {
    /// The number of tasks of its list that it has begun.
    pub next: usize,
    /// Its mappings, oldest first.
    pub mappings: Vec<LabelledMapping<'a>>,
    pub open: Option<ActorCall>,
}

// Returns the mapping, without its label if another mapping gets that label.
fn unless_given<'a>(mapping: LabelledMapping<'a>, label: Option<&'a [u8]>) -> LabelledMapping<'a>
    ensures pin { result.held ≡ mapping.entry.held }
    ensures label { label_bytes result.label
        ≡ unless_given (label_bytes label.entry) (label_bytes mapping.entry.label) }
{
    if mapping.label == label {
        let held = mapping.held;
        LabelledMapping { label: None, held }
    } else {
        mapping
    }
}

// Removes this label from the mappings.
fn unlabel<'a>(mappings: &mut Vec<LabelledMapping<'a>>, label: Option<&'a [u8]>)
    ensures pins { mapping_pins mappings.new.items ≡ mapping_pins mappings.old.items }
    ensures labels { labels_of mappings.new.items
        ≡ apart_from (label_bytes label.entry) (labels_of mappings.old.items) }
{
    for mapping in mappings.as_mut_slice() {
        *mapping = unless_given(*mapping, label);
    }
}

impl<'a> Actor<'a> {
    ghost use Rattle.std.specs.Prelude.{◌≡◌, ◌+◌, ◌<◌, ◌^◌, ◌++◌, [], ◌∷◌, OnOk};
    ghost use Rattle.gt_explore_moves.specs.Starting.{giving_actor, opened_actor, passed_actor};
    ghost use Rattle.gt_explore_moves.specs.Mappings.{labels_of, mapping_pins, apart_from, label_bytes, given_back};
    ghost use Rattle.gt_explore_moves.specs.Copies.{IsFirstActor};
    ghost use Rattle.gt_explore_moves.specs.Ticking.{CallIsOver, mappings_after};

    /// Makes a domain before the first task of its list.
    pub fn new(alloc: Global) -> Actor<'a>
        ensures { IsFirstActor result }
    {
        Actor {
            next: 0,
            mappings: Vec::new(alloc),
            open: None,
        }
    }

    /// Begins its next task with a call, whose first step is this.
    pub fn start(&mut self, call: Call, step: Step)
        ensures { self.old.next + 1 < 2 ^ 64 → self.new ≡ opened_actor self.old call step }
    {
        let task = Some(self.next);
        self.next = self.next.saturating_add(1);
        self.open = Some(ActorCall { task, call, step });
    }

    /// Skips its next task.
    pub fn pass(&mut self)
        ensures { self.old.next + 1 < 2 ^ 64 → self.new ≡ passed_actor self.old }
    {
        self.next = self.next.saturating_add(1);
    }

    /// Begins to release a mapping at the end of its list, with this first step.
    pub fn give(&mut self, call: Call, step: Step)
        ensures { self.new ≡ giving_actor self.old call step }
    {
        let task = None;
        self.open = Some(ActorCall { task, call, step });
    }

    /// Adds a mapping, and takes its label from the others.
    pub fn map(&mut self, label: Option<&'a [u8]>, held: HeldPin) -> Result<(), AllocError>
        ensures pins { OnOk result
            (mapping_pins self.new.mappings.items ≡ mapping_pins self.old.mappings.items ++ held ∷ []) }
        ensures labels { OnOk result (labels_of self.new.mappings.items ≡
            apart_from (label_bytes label.entry) (labels_of self.old.mappings.items) ++ label_bytes label.entry ∷ []) }
        ensures rest { OnOk result (self.new ≡ record self.old { mappings = self.new.mappings }) }
    {
        unlabel(&mut self.mappings, label);
        self.mappings.push(LabelledMapping { label, held })?;
        Ok(())
    }

    /// Removes the mapping of this holder: the serial of its handle is the index of the mapping. A leg has no mapping.
    pub fn forget(&mut self, holder: PinHolder)
        ensures mappings { self.new.mappings.items ≡ given_back holder self.old.mappings.items }
        ensures rest { self.new ≡ record self.old { mappings = self.new.mappings } }
    {
        if let PinHolder::Mapping(handle) = holder {
            let at = handle.serial as usize;
            if at < self.mappings.len() {
                self.mappings.remove(at);
            }
        }
    }

    /// Makes this step, and removes the mapping that the step drops.
    pub fn make(&mut self, step: Step)
        ensures mappings { self.new.mappings.items ≡ mappings_after step self.old.mappings.items }
        ensures rest { self.new ≡ record self.old { mappings = self.new.mappings } }
    {
        if let Step::Unpin { holder, .. } = step {
            self.forget(holder);
        }
    }

    /// Ends its call with this verdict. A mapping that the call made gets this label.
    pub fn close(&mut self, label: Option<&'a [u8]>, verdict: CallResult) -> Result<(), AllocError>
        ensures { OnOk result (CallIsOver (label_bytes label.entry) verdict self.old self.new) }
    {
        self.open = None;
        match verdict {
            CallResult::Mapped(held) => self.map(label, held),
            _ => Ok(()),
        }
    }
}
