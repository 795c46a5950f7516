//! The records that a domain pushes into the shared log.
ghost use Rattle.std.specs.Option.{option_map};
ghost use Rattle.gt_audit.specs.Trails.{empty_account};
ghost use Rattle.gt_run.specs.Logging.{LogsTrail};
ghost use Rattle.std.specs.Prelude.{◌≡◌};

use gt_audit::{DomainLog, SharedLog, Trail, push_line};
use gt_live::Departed;
use gt_script_lines::Text;
use gt_types::{DomId, Memory};
use std::alloc::Global;
use std::sync::Wait;

/// The records that a domain has pushed into the log, each under its index in the domain's trail, counted from 0.
#[derive(Drop)]
pub struct TrailLogger<'l> {
    log: DomainLog<'l>,
    next: usize,
}

impl<'l> TrailLogger<'l> {
    ghost use Rattle.std.specs.Prelude.{◌≡◌, ◌+◌, length, map, slice_get, IfOk};
    ghost use Rattle.std.specs.List.{flat_map};
    ghost use Rattle.gt_text.specs.Printing.{type_text};
    ghost use Rattle.gt_audit.specs.Lines.{line_text};
    ghost use Rattle.gt_audit.specs.Trails.{empty_account};
    ghost use Rattle.gt_live.specs.Parts.{trail_left};
    ghost use Rattle.gt_run.specs.Serving.{counted};
    ghost use Rattle.gt_run.specs.Logging.{LogsNext};

    /// Makes a logger that has pushed nothing.
    pub fn new(alloc: Global, log: &'l SharedLog, dom: DomId) -> Self
        ensures { result ≡ record { log = empty_account dom; next = 0 } }
    {
        TrailLogger {
            log: DomainLog::new(alloc, log, dom),
            next: 0,
        }
    }

    /// Pushes the record that the trail has beyond those pushed, if it has one. A record that cannot be allocated is
    /// lost.
    pub fn push_next(&mut self, rt: &impl Wait, trail: &Trail)
        ensures { LogsNext (slice_get trail.now.records self.old.next) (length trail.now.records) self.old self.new }
    {
        if let Some(recorded) = trail.get(self.next) {
            self.log.push(rt, self.next as u64, recorded);
            self.next = trail.len();
        }
    }

    /// Returns the audit lines of the records pushed, as the log has them, in order.
    pub fn audit(&self, alloc: Global, types: &[Text]) -> Result<Vec<u8>, Memory>
        ensures { IfOk result (λ text. text.items
            ≡ flat_map (line_text (type_text (λ name. name) types.now)) (map (λ e. e.1) self.now.log.recorded)) }
    {
        let mut text = Vec::new(alloc);
        let records = self.log.records(alloc)?;
        'records: for recorded in &records {
            push_line(&mut text, recorded, types)?;
        }
        Ok(text)
    }

    /// Counts the records of a departed domain that could not be allocated, in its trail or in the log.
    pub fn lost(&self, left: &Departed) -> u64
        ensures { result ≡ counted ((trail_left left.now).lost + self.now.log.lost) }
    {
        left.lost().saturating_add(self.log.lost())
    }
}

/// Makes the logger of a domain, if there is a log. Nothing was pushed yet.
pub fn logger_for<'l>(
    alloc: Global,
    log: Option<&'l SharedLog>,
    dom: DomId,
) -> Option<TrailLogger<'l>>
    ensures { result ≡ option_map (λ l. record { log = empty_account dom; next = 0 }) log.entry }
{
    match log {
        Some(log) => Some(TrailLogger::new(alloc, log, dom)),
        None => None,
    }
}

/// Pushes the next record of a trail, if there is a log.
pub fn log_next(rt: &impl Wait, logger: &mut Option<TrailLogger<'_>>, trail: &Trail)
    ensures { LogsTrail trail.now logger.old logger.new }
{
    if let Some(logger) = logger {
        logger.push_next(rt, trail);
    }
}
