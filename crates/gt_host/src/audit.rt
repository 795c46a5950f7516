//! The audit of a run: a record of each answer of an audited call.
ghost use Rattle.std.specs.Prelude.{◌≡◌, ◌++◌, ℕ, List, [], true, OnOk, option_to_list};
ghost use Rattle.gt_model.specs.History.{setting_of};
ghost use Rattle.gt_script_runs.specs.Auditing.{audited_reply, encoded_record, record_lines, asked_lines, PrintsAs};
ghost use Rattle.gt_host.specs.Recording.{IsAbout};

use gt_audit::{Hypercall, Record, Reply, push_line};
use gt_core::{Answer, Core, Request};
use gt_script_lines::Text;
use gt_types::{Allows, DomId};
use std::alloc::{AllocError, Global};

/// The records of a run, if the audit is on: one for each answer of an audited call, in the order of the answers.
#[derive(Drop)]
pub struct AuditRecords {
    is_on: bool,
    records: Vec<Record>,
}

// Returns the hypercall for the record of a call that the domain is about to make; None if such calls are not audited.
// An unmap is recorded by the entry that is mapped now: when it has its answer, its handle may name none.
fn hypercall_of_request<P: Allows>(
    core: &Core<P>,
    dom: DomId,
    request: Request<'_>,
) -> Option<Hypercall>
    ensures { IsAbout (setting_of core.now.config (P.may core.now.rights)) core.now.state
        dom request.entry result }
{
    match request {
        Request::Map { dom, gref, flags } => Some(Hypercall::Map { dom, gref, flags }),
        Request::Unmap { handle } => Some(Hypercall::Unmap {
            subject: core.subject(dom, handle),
        }),
        Request::Copy(copy) => Some(Hypercall::Copy {
            source: copy.source,
            dest: copy.dest,
            len: copy.len,
            flags: copy.flags,
        }),
        Request::QuerySize { dom } => Some(Hypercall::QuerySize { dom }),
        Request::GetVersion { dom } => Some(Hypercall::GetVersion { dom }),
        Request::SetVersion { version } => Some(Hypercall::SetVersion { version }),
        Request::SetupTable { frames } => Some(Hypercall::SetupTable { frames }),
        Request::Grant { .. }
        | Request::GrantBytes { .. }
        | Request::Revoke { .. }
        | Request::Withdraw { .. }
        | Request::Demote { .. }
        | Request::Promote { .. }
        | Request::Release { .. }
        | Request::Probe(_)
        | Request::Load { .. }
        | Request::Store { .. }
        | Request::Peek { .. }
        | Request::Poke { .. } => None,
    }
}

fn audited_reply(answer: &Answer) -> Reply
    ensures reply { result ≡ audited_reply answer.now }
    ensures prints { (names : List (List ℕ)) → PrintsAs names answer.now result }
{
    match answer {
        Answer::Denied(denial) => Reply::Denied(*denial),
        Answer::Done | Answer::Mapped(_) | Answer::Bytes(_) => Reply::Done,
        Answer::Frames(frames) => Reply::Frames(*frames),
        Answer::Size(size) => Reply::Size(*size),
        Answer::Version(version) => Reply::Version(*version),
    }
}

fn push_records(out: &mut Vec<u8>, records: &[Record], names: &[Text]) -> Result<(), AllocError>
    ensures { OnOk result (out.new.items ≡ out.old.items ++ record_lines names.now records.now) }
{
    'records: for entry in records {
        push_line(out, entry, names)?;
    }
    Ok(())
}

impl AuditRecords {
    /// Makes an empty list of records; if the audit is off, it stays empty.
    pub fn new(alloc: Global, is_on: bool) -> AuditRecords
        ensures on { result.is_on ≡ is_on }
        ensures records { result.records.items ≡ [] }
    {
        AuditRecords {
            is_on,
            records: Vec::new(alloc),
        }
    }

    /// Returns the hypercall for the record of a call that the domain is about to make; None if such calls are not
    /// audited, or the audit is off.
    pub fn about<P: Allows>(
        &self,
        core: &Core<P>,
        dom: DomId,
        request: Request<'_>,
    ) -> Option<Hypercall>
        ensures { self.now.is_on ≡ true →
            IsAbout (setting_of core.now.config (P.may core.now.rights)) core.now.state dom request.entry result }
    {
        if self.is_on {
            hypercall_of_request(core, dom, request)
        } else {
            None
        }
    }

    /// Appends the record of an answered call. `hypercall` is what `about` returned; nothing is recorded for None.
    pub fn record(
        &mut self,
        dom: DomId,
        hypercall: Option<Hypercall>,
        answer: &Answer,
    ) -> Result<(), AllocError>
        ensures records { OnOk result
            (self.new.records.items
            ≡ self.old.records.items ++ option_to_list (encoded_record dom hypercall answer.now)) }
        ensures on { self.new.is_on ≡ self.old.is_on }
    {
        if let Some(call) = hypercall {
            let reply = audited_reply(answer);
            self.records.push(Record { dom, call, reply })?;
        }
        Ok(())
    }

    /// Appends the lines of the records, if the audit is on. After an Err, part of them may have been appended.
    pub fn push_lines(&self, out: &mut Vec<u8>, names: &[Text]) -> Result<(), AllocError>
        ensures { OnOk result
            (out.new.items ≡ out.old.items ++ asked_lines self.now.is_on names.now self.now.records.items) }
    {
        if self.is_on {
            return push_records(out, self.records.as_slice(), names);
        }
        Ok(())
    }
}
