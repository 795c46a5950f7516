//! What a core keeps of a run.
ghost use Rattle.gt_core.specs.States.{IsPlaced};

use crate::state::DomainState;
use gt_frames::Frames;
use gt_roster::Roster;
use std::alloc::Global;

/// The domains and frames of a run, with its configuration and rights.
#[derive(Drop)]
pub struct Machine<P> {
    pub(crate) alloc: Global,
    pub(crate) config: Roster,
    pub(crate) rights: P,
    pub(crate) domains: Vec<DomainState>,
    pub(crate) frames: Frames,
    ghost placed: { IsPlaced config.domains.items domains.items },
}
