//! The state of a run besides the core.
use crate::audit::AuditRecords;
use crate::open_calls::OpenCalls;
use gt_script_runs::Labels;
use std::alloc::Global;

/// The state of a run besides the core: the labels, the open calls, and the records of the audit.
#[derive(Drop)]
pub struct PlayState<'b, 'a> {
    /// The allocator of the state and of the printed lines.
    pub alloc: Global,
    pub labels: Labels<'a>,
    pub calls: OpenCalls<'b, 'a>,
    pub audit: AuditRecords,
}

impl<'b, 'a> PlayState<'b, 'a> {
    ghost use Rattle.std.specs.Prelude.{◌≡◌};
    ghost use Rattle.gt_host.specs.Recording.{RecordsNothing};
    ghost use Rattle.gt_script_runs.specs.Runs.{at_start};
    ghost use Rattle.gt_host.specs.Ticking.{KeepsProgress};

    /// Makes the state before the first line. `audit` turns the records on.
    pub fn new(alloc: Global, audit: bool) -> PlayState<'b, 'a>
        ensures kept { KeepsProgress result at_start }
        ensures on { result.audit.is_on ≡ audit }
        ensures records { RecordsNothing result }
    {
        PlayState {
            alloc,
            labels: Labels::new(alloc),
            calls: OpenCalls::new(alloc),
            audit: AuditRecords::new(alloc, audit),
        }
    }
}
