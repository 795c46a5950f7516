//! What a domain has and keeps: its mappings, its entries, and the records of its calls.
ghost use Rattle.std.specs.Prelude.{◌≡◌};
ghost use Rattle.gt_c.specs.Calling.{outcome_reserved};
ghost use Rattle.gt_c.specs.Promises.{Bounds, MakesRoom, TakesRecords, ReportsEntry, ReportsMapping, ReportsRecord};
ghost use Rattle.gt_c.specs.Promises.{SearchesUnused};
ghost use Rattle.gt_c.specs.Reports.{entry_status, granted_to, kept_record, kind_code, mapping_report, no_entry};
ghost use Rattle.gt_c.specs.Reports.{no_mapping};
ghost use Rattle.gt_c.specs.Reports.{no_record, outcome_present, outcome_reference, read_only_code};

use crate::calls::turned_away;
use crate::handle::DomainHandle;
use crate::lending::lent_mut;
use crate::mappings::{MapHandle, handle_named};
use gt_attached::{AttachedOutcome, CopyEnd, EncodedAnswer, EncodedRecord, writes};
use gt_calls::HeldPin;
use gt_entry::{Control, EntryKind};
use gt_types::{DomId, GrantRef, Memory};
use std::alloc::Global;

/// What is mapped: this frame of this owner, by this entry. `writes` is 1 if it may be written, else 0.
#[repr(C)]
#[derive(Clone, Copy)]
pub struct MappedFrame {
    pub frame: u64,
    pub gref: u32,
    pub owner: u32,
    pub writes: u32,
}

/// Whether there is such a mapping, and what it maps: all zeros if there is none.
#[repr(C)]
#[derive(Clone, Copy)]
pub struct MappingReport {
    pub answer: EncodedAnswer,
    pub mapping: MappedFrame,
}

/// What a look at an entry found: its kind (0 Invalid, 1 Page, 2 Sub, 3 Via), its generation, its pins, the domain that
/// it permits, 1 if it is read-only, and the domain to which it was last granted (65,535 if it never was).
#[repr(C)]
#[derive(Clone, Copy)]
pub struct EntryStatus {
    pub kind: u32,
    pub generation: u32,
    pub reads: u32,
    pub writes: u32,
    pub to: u32,
    pub read_only: u32,
    pub granted_to: u32,
}

/// Whether the table has such an entry, and what a look found: all zeros if it has none.
#[repr(C)]
#[derive(Clone, Copy)]
pub struct EntryReport {
    pub answer: EncodedAnswer,
    pub entry: EntryStatus,
}

/// Whether there is such a record, and its contents: all zeros if there is none.
#[repr(C)]
#[derive(Clone, Copy)]
pub struct RecordReport {
    pub answer: EncodedAnswer,
    pub kept: EncodedRecord,
}

// Returns the report of no mapping.
fn no_mapping() -> MappedFrame
    ensures { result ≡ no_mapping }
{
    MappedFrame {
        frame: 0,
        gref: 0,
        owner: 0,
        writes: 0,
    }
}

// Converts a mapping, if there is one.
fn mapping_report(found: Option<HeldPin>) -> MappedFrame
    ensures { result ≡ mapping_report found }
{
    match found {
        None => no_mapping(),
        Some(held) => MappedFrame {
            frame: held.entry.frame(),
            gref: held.gref.0,
            owner: u32::from(held.dom.0),
            writes: writes(held.dir),
        },
    }
}

fn kind_code(kind: EntryKind) -> u32
    ensures { result ≡ kind_code kind }
{
    match kind {
        EntryKind::Invalid => 0,
        EntryKind::Page => 1,
        EntryKind::Sub => 2,
        EntryKind::Via => 3,
    }
}

fn read_only_code(ro: bool) -> u32
    ensures { result ≡ read_only_code ro }
{
    if ro { 1 } else { 0 }
}

// Returns the report of no entry.
fn no_entry() -> EntryStatus
    ensures { result ≡ no_entry }
{
    EntryStatus {
        kind: 0,
        generation: 0,
        reads: 0,
        writes: 0,
        to: 0,
        read_only: 0,
        granted_to: 0,
    }
}

// Returns the domain that an entry permits, or permitted last, which was `last` if it is invalid.
fn granted_to(last: DomId, control: Control) -> DomId
    ensures { result ≡ granted_to last control }
{
    if matches!(control.kind, EntryKind::Invalid) {
        last
    } else {
        control.dom
    }
}

// Converts what a look found, if there is such an entry, which was last granted to this domain.
fn entry_status(last: DomId, found: Option<Control>) -> EntryStatus
    ensures { result ≡ entry_status last found }
{
    match found {
        None => no_entry(),
        Some(control) => EntryStatus {
            kind: kind_code(control.kind),
            generation: control.generation,
            reads: u32::from(control.reads),
            writes: u32::from(control.writes),
            to: u32::from(control.dom.0),
            read_only: read_only_code(control.ro),
            granted_to: u32::from(granted_to(last, control).0),
        },
    }
}

const NO_END: CopyEnd = CopyEnd {
    ptr: 0,
    dom: 0,
    off: 0,
};

// Returns the report of no record.
fn no_record() -> EncodedRecord
    ensures { result ≡ no_record }
{
    EncodedRecord {
        call: 0,
        caller: 0,
        dom: 0,
        gref: 0,
        flags: 0,
        len: 0,
        source: NO_END,
        dest: NO_END,
        reply: EncodedAnswer::of(AttachedOutcome::Done),
    }
}

// Converts a record, if there is one.
fn encoded_record(found: Option<gt_audit::Record>) -> EncodedRecord
    ensures { result ≡ kept_record found }
{
    match found {
        None => no_record(),
        Some(kept) => EncodedRecord::of(kept),
    }
}

fn present<T>(found: &Option<T>) -> AttachedOutcome
    ensures { result ≡ outcome_present found.now }
{
    match found {
        None => AttachedOutcome::Absent,
        Some(_) => AttachedOutcome::Done,
    }
}

pub(crate) fn reference(found: Option<GrantRef>) -> AttachedOutcome
    ensures { result ≡ outcome_reference found }
{
    match found {
        None => AttachedOutcome::Absent,
        Some(gref) => AttachedOutcome::Reference(gref),
    }
}

fn reserved(answer: Result<(), Memory>) -> AttachedOutcome
    ensures { result ≡ outcome_reserved answer }
{
    match answer {
        Ok(()) => AttachedOutcome::Done,
        Err(_) => AttachedOutcome::NoMemory,
    }
}

/// Returns the mapping with this name, or zeros if there is none.
#[unsafe(no_mangle)]
pub extern "C" fn gthost_mapping_at(domain: &mut DomainHandle, name: MapHandle) -> MappingReport
    ensures { ReportsMapping name result domain.old.held.value domain.new.held.value }
{
    if let Some(answer) = turned_away(domain) {
        let mapping = no_mapping();
        return MappingReport { answer, mapping };
    }
    let lent = lent_mut(&mut domain.held);
    let handle = handle_named(lent, name);
    let found = lent.attached.mapping(handle);
    let answer = EncodedAnswer::of(present(&found));
    let mapping = mapping_report(found);
    MappingReport { answer, mapping }
}

/// Looks once at an entry of the caller, and returns its kind, its generation and its pins.
#[unsafe(no_mangle)]
pub extern "C" fn gthost_entry_at(domain: &mut DomainHandle, gref: u32) -> EntryReport
    ensures { ReportsEntry gref result domain.old.held.value domain.new.held.value }
{
    if let Some(answer) = turned_away(domain) {
        let entry = no_entry();
        return EntryReport { answer, entry };
    }
    let lent = lent_mut(&mut domain.held);
    let found = lent.attached.status(GrantRef(gref));
    let answer = EncodedAnswer::of(present(&found));
    let entry = entry_status(lent.granted.last(GrantRef(gref)), found);
    EntryReport { answer, entry }
}

/// Returns the least reference from `from` on whose entry is invalid and still has pins. Looks once at each entry up to
/// that one.
#[unsafe(no_mangle)]
pub extern "C" fn gthost_unused_at(domain: &mut DomainHandle, from: u32) -> EncodedAnswer
    ensures { SearchesUnused from result domain.old.held.value domain.new.held.value }
{
    if let Some(answer) = turned_away(domain) {
        return answer;
    }
    let lent = lent_mut(&mut domain.held);
    let found = lent.attached.unused(GrantRef(from));
    EncodedAnswer::of(reference(found))
}

/// Returns the record at an index, starting at 0, in the order of the calls, or zeros if there is none.
#[unsafe(no_mangle)]
pub extern "C" fn gthost_record_at(domain: &mut DomainHandle, index: usize) -> RecordReport
    ensures { ReportsRecord index result domain.old.held.value domain.new.held.value }
{
    if let Some(answer) = turned_away(domain) {
        let kept = no_record();
        return RecordReport { answer, kept };
    }
    let lent = lent_mut(&mut domain.held);
    let found = lent.attached.record_at(index);
    let answer = EncodedAnswer::of(present(&found));
    let kept = encoded_record(found);
    RecordReport { answer, kept }
}

/// Bounds the records: a call is recorded only while there are fewer than `records`. With 0 no call is recorded.
#[unsafe(no_mangle)]
pub extern "C" fn gthost_keep_at_most_at(domain: &mut DomainHandle, records: usize) -> EncodedAnswer
    ensures { Bounds records result domain.old.held.value domain.new.held.value }
{
    if let Some(answer) = turned_away(domain) {
        return answer;
    }
    let lent = lent_mut(&mut domain.held);
    lent.attached.keep_at_most(records);
    EncodedAnswer::of(AttachedOutcome::Done)
}

/// Drops the records, and keeps their room. Returns the number of records, and the number lost before.
#[unsafe(no_mangle)]
pub extern "C" fn gthost_take_records_at(alloc: Global, domain: &mut DomainHandle) -> EncodedAnswer
    ensures { TakesRecords result domain.old.held.value domain.new.held.value }
{
    if let Some(answer) = turned_away(domain) {
        return answer;
    }
    let lent = lent_mut(&mut domain.held);
    let taken = lent.attached.take_records(alloc);
    EncodedAnswer::of(AttachedOutcome::Taken(taken))
}

/// Makes room for `records` more records, which then need no allocation.
#[unsafe(no_mangle)]
pub extern "C" fn gthost_reserve_records_at(
    domain: &mut DomainHandle,
    records: usize,
) -> EncodedAnswer
    ensures { MakesRoom records result domain.old.held.value domain.new.held.value }
{
    if let Some(answer) = turned_away(domain) {
        return answer;
    }
    let lent = lent_mut(&mut domain.held);
    EncodedAnswer::of(reserved(lent.attached.reserve_records(records)))
}
