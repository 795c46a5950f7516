//! A log that domains share while they run.
use crate::compact::Compact;
use crate::record::Record;
use boxcar::Vec;
use gt_types::DomId;
use std::alloc::{AllocError, Global};
use std::sync::Wait;

// A record as the log keeps it.
#[derive(Drop)]
struct LogEntry {
    recorded: Compact,
    number: u64,
    dom: DomId,
}

/// Records of domains, each with its number among its domain's. Threads push and read them at the same time.
#[derive(Drop)]
pub struct SharedLog {
    entries: Vec<LogEntry>,
}

/// A token: evidence that a log has a record.
#[derive(Drop)]
pub struct Pushed {
    token: boxcar::Pushed<LogEntry>,
}

impl SharedLog {
    ghost use Rattle.std.specs.Prelude.{◌≡◌, IfOk, IfErr, IfSome};
    ghost use Rattle.gt_audit.specs.Log.{IsIn, IsFor, pushed_record};
    ghost use Rattle.gt_audit.specs.declared.shared.Pushed.{Pushed};

    /// Returns an empty log.
    pub fn new(alloc: Global) -> Result<SharedLog, AllocError> {
        Ok(SharedLog {
            entries: Vec::new(alloc)?,
        })
    }

    /// Adds a record of this domain under this number, and returns its token. May wait while another thread makes
    /// room.
    ///
    /// # Errors
    /// The record, if an allocation fails.
    pub fn push(
        &self,
        rt: &impl Wait,
        dom: DomId,
        number: u64,
        recorded: Record,
    ) -> Result<Pushed, Record>
        ensures token { IfOk result (λ p. IsIn self.now p × IsFor p dom number recorded) }
        ensures back { IfErr result (λ r. r ≡ recorded) }
    {
        let recorded = Compact::of(recorded);
        match self.entries.push_shown(
            rt,
            LogEntry {
                recorded,
                number,
                dom,
            },
        ) {
            Ok(token) => Ok(Pushed { token }),
            Err(entry) => Err(entry.recorded.record()),
        }
    }

    /// Returns the record that was pushed for this token.
    pub fn get(&self, pushed: &Pushed) -> Record
        requires { IsIn self.now pushed.now }
        ensures { result ≡ pushed_record pushed.now }
    {
        self.entries.value(&pushed.token).recorded.record()
    }

    /// Returns the number of records at present.
    pub fn count(&self) -> usize {
        self.entries.count()
    }

    /// Returns a record that was pushed for this domain under this number, the first one found. None if it finds
    /// none. The search looks at each record of the log, in the order of their indices.
    pub fn find(&self, dom: DomId, number: u64) -> Option<Record>
        ensures { IfSome result (λ r. (p : Pushed) × IsIn self.now p × IsFor p dom number r) }
    {
        let entries = self.entries.iter();
        'entries: for (index, _) in entries {
            if let Some(token) = self.entries.witness(index) {
                let entry = self.entries.value(&token);
                if entry.dom == dom && entry.number == number {
                    return Some(entry.recorded.record());
                }
            }
        }
        None
    }
}
