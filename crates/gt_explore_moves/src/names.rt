//! The handles of a domain's mappings, and the labels that name them.
ghost use Rattle.std.specs.Prelude.{IfOk};
ghost use Rattle.gt_explore_moves.specs.Placing.{ArePlaced};

use crate::actor::LabelledMapping;
use gt_calls::{Handle, Handles, HeldPin};
use gt_core::Answer;
use gt_explore_search::SearchFault;
use gt_script_runs::{Labels, name_mapping};
use gt_types::DomId;
use std::alloc::Global;

/// The mappings of a domain under handles, whose serials are their indices, and its labels.
#[derive(Drop)]
pub struct ActorHandles<'a> {
    pub mappings: Handles<HeldPin>,
    pub handles: Vec<Handle>,
    pub labels: Labels<'a>,
}

/// Returns the handles and labels of these mappings.
pub fn names_of<'a>(
    alloc: Global,
    dom: DomId,
    held: &[LabelledMapping<'a>],
) -> Result<ActorHandles<'a>, SearchFault>
    ensures { IfOk result (λ names. ArePlaced dom held.now names) }
{
    Handles::<HeldPin>::nothing_is_listed();
    Handles::<HeldPin>::inserted_is_listed();
    let mut mappings = Handles::new(alloc);
    let mut handles = Vec::new(alloc);
    let mut labels = Labels::new(alloc);
    for mapping in held {
        mappings.reserve()?;
        let handle = mappings.insert(mapping.held);
        handles.push(handle)?;
        name_mapping(&mut labels, dom, mapping.label, &Answer::Mapped(handle))?;
    }
    Ok(ActorHandles {
        mappings,
        handles,
        labels,
    })
}
