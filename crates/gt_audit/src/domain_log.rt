//! The records that one domain pushed into a shared log.
use crate::record::Record;
use crate::shared::{Pushed, SharedLog};
use gt_types::DomId;
use std::alloc::{AllocError, Global};
use std::marker::Model;
use std::sync::Wait;

/// The records that one domain pushed into a log, each with its number, in order, and how many were lost.
#[derive(Drop)]
pub struct DomainLog<'l> {
    log: &'l SharedLog,
    dom: DomId,
    tokens: Vec<Pushed>,
    lost: u64,
}

impl<'l> Model for DomainLog<'l> {
    ghost use Rattle.std.specs.Prelude.{map, All};
    ghost use Rattle.gt_audit.specs.Log.{IsPushedBy, numbered_of};
    ghost use Rattle.gt_audit.specs.Trails.{Account};

    ghost Value = { Account };

    ghost view = { λ t. record { dom = t.dom; recorded = map numbered_of t.tokens.items; lost = t.lost } };

    ghost invariant = { λ t. All (IsPushedBy t.log.now t.dom) t.tokens.items };
}

impl<'l> DomainLog<'l> {
    ghost use Rattle.std.specs.Prelude.{◌≡◌, IfOk, map};
    ghost use Rattle.gt_audit.specs.Trails.{empty_account, AppendsNumbered};

    /// Returns the log of a domain that has pushed nothing yet.
    pub fn new(alloc: Global, log: &'l SharedLog, dom: DomId) -> Self
        ensures { result ≡ empty_account dom }
    {
        DomainLog {
            log,
            dom,
            tokens: Vec::new(alloc),
            lost: 0,
        }
    }

    /// Pushes a record under this number. If an allocation fails, here or in the log, the record is lost. The count
    /// of lost records stops at [`u64::MAX`].
    pub fn push(&mut self, rt: &impl Wait, number: u64, recorded: Record)
        ensures { AppendsNumbered self.old number recorded self.new }
    {
        if self.tokens.reserve(1).is_err() {
            self.lost = self.lost.saturating_add(1);
            return;
        }
        match self.log.push(rt, self.dom, number, recorded) {
            Ok(token) => self.tokens.push_reserved(token),
            Err(_) => self.lost = self.lost.saturating_add(1),
        }
    }

    /// Returns the number of lost records.
    pub fn lost(&self) -> u64
        ensures { result ≡ self.now.lost }
    {
        self.lost
    }

    /// Returns the records pushed, in order, as the log has them.
    pub fn records(&self, alloc: Global) -> Result<Vec<Record>, AllocError>
        ensures { IfOk result (λ v. v.items ≡ map (λ e. e.1) self.now.recorded) }
    {
        let mut records = Vec::new(alloc);
        'tokens: for token in &self.tokens {
            records.push(self.log.get(token))?;
        }
        Ok(records)
    }
}
