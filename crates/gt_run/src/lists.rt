//! The parts of a run and what its threads share.
use crate::gate::Gate;
use crate::serving::Output;
use gt_audit::SharedLog;
use gt_live::Monitor;
use gt_script::RunTask;
use gt_script_lines::Text;
use gt_types::{Allows, DomId};
use std::alloc::Global;
use std::sync::Wait;
use std::thread::Promise;

/// The environment that all domains of a run share: the runtime, the gate at which they wait for one another, and the
/// log, if their calls are recorded.
#[derive(Drop)]
pub struct RunContext<'s, R: Wait, G: Gate> {
    pub rt: &'s R,
    pub alloc: Global,
    pub gate: &'s G,
    pub log: Option<&'s SharedLog>,
}

/// A domain's part of a run: the lines of all domains, of which it serves its own, and the names of types for its
/// answers.
#[derive(Clone, Copy)]
pub struct DomainPart<'s, 'a> {
    pub dom: DomId,
    pub tasks: &'s [RunTask<'a>],
    pub types: &'s [Text<'s>],
}

/// The job of a domain's thread: its part, on a monitor, with a record of its calls if there is a log.
#[derive(Drop)]
pub struct ThreadJob<'s, 'a, P: Allows> {
    pub alloc: Global,
    pub part: DomainPart<'s, 'a>,
    pub monitor: &'s Monitor<P>,
    pub log: Option<&'s SharedLog>,
}

/// The job of a domain's thread, and the gate at which the domain waits.
#[derive(Drop)]
pub struct JobAtGate<'s, 'a, P: Allows, G: Gate> {
    pub job: ThreadJob<'s, 'a, P>,
    pub gate: &'s G,
}

// The thread of a domain promises the output of its job at this gate.
impl<'s, 'a, P: Allows, G: Gate> Promise<Output> for JobAtGate<'s, 'a, P, G> {
    ghost use Rattle.gt_run.specs.Printing.{IsOutputOf};

    ghost kept_by = { λ promised output. IsOutputOf P.may (G.refuses promised.gate.now) promised.job output };
}
