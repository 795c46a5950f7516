//! Domains with their monitor.
ghost use Rattle.std.specs.Prelude.{All};
ghost use Rattle.gt_live.specs.Domains.{BelongsTo};

use crate::asking::{TestCall, TestReply};
use gt_audit::{Record, Trail};
use gt_calls::{CopyArgs, Handle, Request};
use gt_core::{Answer, Bytes};
use gt_entry::Entry;
use gt_frames::Read;
use gt_live::{Departed, Domain, Monitor};
use gt_types::{Allows, Denial, DomId, Facts, GrantRef, Memory, Rule, Size};
use std::alloc::Global;
use std::marker::Model;
use std::sync::Wait;

/// The calls and the records of a running domain. A mapping is the last one that it made.
pub trait Calls {
    /// Publishes one of the domain's entries.
    fn grant(&mut self, gref: u32, entry: &Entry) -> Result<(), Denial>;

    /// Makes its entry invalid, unless it has pins.
    fn revoke(&mut self, gref: u32) -> Result<(), Denial>;

    /// Makes its entry invalid, and leaves its pins.
    fn withdraw(&mut self, gref: u32) -> Result<(), Denial>;

    /// Makes its entry read-only.
    fn demote(&mut self, gref: u32) -> Result<(), Denial>;

    /// Makes its entry writable.
    fn promote(&mut self, gref: u32) -> Result<(), Denial>;

    /// Maps an entry, and keeps its handle as that of the last mapping.
    fn map(&mut self, dom: u16, gref: u32, flags: u32) -> Result<(), Denial>;

    /// Unmaps the last mapping.
    fn unmap(&mut self) -> Result<(), Denial>;

    /// Reads this number of bytes, starting at this offset, through the last mapping.
    fn load<R: Wait>(&mut self, rt: &R, off: u16, len: u16) -> Result<Read, Denial>;

    /// Fills the buffer with bytes, starting at this offset, through the last mapping.
    fn load_into<R: Wait>(&mut self, rt: &R, off: u16, buffer: &mut [u8]) -> Result<(), Denial>;

    /// Fills the buffer with bytes of one of the domain's frames, starting at this offset.
    fn peek_into<R: Wait>(
        &mut self,
        rt: &R,
        frame: u64,
        off: u16,
        buffer: &mut [u8],
    ) -> Result<(), Denial>;

    /// Writes these bytes, starting at this offset, through the last mapping.
    fn store<R: Wait>(&mut self, rt: &R, off: u16, bytes: &[u8]) -> Result<(), Denial>;

    /// Copies bytes between two frames.
    fn copy<R: Wait>(&mut self, rt: &R, copy: &CopyArgs) -> Result<(), Denial>;

    /// Makes the call, and returns its answer.
    fn ask<R: Wait>(&mut self, rt: &R, asks: TestCall<'_>) -> TestReply;

    /// Makes the call of a request, and answers as the core would.
    fn make<R: Wait>(&mut self, rt: &R, request: Request<'_>) -> Answer;

    /// Limits its trail: it keeps a new record only while it has fewer than this number.
    fn keep_at_most(&mut self, records: usize);

    /// Reserves space for this number of further records.
    ///
    /// # Errors
    ///
    /// `Memory`. The space is then unchanged.
    fn reserve_records(&mut self, records: usize) -> Result<(), Memory>;

    /// Swaps in `next` (emptied), and returns the records so far.
    fn take_records(&mut self, next: Trail) -> Trail;

    /// Returns its records so far.
    ///
    /// # Errors
    ///
    /// `Memory`.
    fn told(&self) -> Result<Vec<Record>, Memory>;

    /// Returns how many records were lost so far.
    fn lost(&self) -> u64;

    /// Leaves the run, with its records.
    fn finish(self) -> Departed;
}

/// A domain with its monitor. It leaves the run when it is dropped.
pub struct TestDomain<'m, P: Allows> {
    monitor: &'m Monitor<P>,
    domain: Domain,
    last: Handle,
}

impl<'m, P: Allows> Model for TestDomain<'m, P> {
    ghost use Rattle.gt_types.specs.declared.DomId.{DomId};
    ghost use Rattle.gt_live.specs.Domains.{BelongsTo};

    ghost Value = { DomId };

    ghost view = { λ r. r.domain.seat.dom };

    ghost invariant = { λ r. BelongsTo P.may r.monitor.now r.domain };
}

impl<'m, P: Allows> Drop for TestDomain<'m, P> {
    fn drop(self) {
        let TestDomain {
            monitor,
            domain,
            last: _last,
        } = self;
        let _ = domain.finish(monitor);
    }
}

// A handle that names no mapping.
const NEVER_GIVEN: Handle = Handle {
    serial: u64::MAX,
    key: 0,
};

fn done<T: Drop>(answer: Result<T, Denial>) -> TestReply {
    match answer {
        Ok(_) => TestReply::Done,
        Err(denial) => TestReply::Denied(denial),
    }
}

fn frames(answer: Result<u32, Denial>) -> TestReply {
    match answer {
        Ok(frames) => TestReply::Frames(frames),
        Err(denial) => TestReply::Denied(denial),
    }
}

fn size(answer: Result<Size, Denial>) -> TestReply {
    match answer {
        Ok(size) => TestReply::Size(size),
        Err(denial) => TestReply::Denied(denial),
    }
}

fn version(answer: Result<u32, Denial>) -> TestReply {
    match answer {
        Ok(version) => TestReply::Version(version),
        Err(denial) => TestReply::Denied(denial),
    }
}

fn read(answer: Result<Read, Denial>) -> TestReply {
    match answer {
        Ok(read) => TestReply::Bytes(read.into_bytes()),
        Err(denial) => TestReply::Denied(denial),
    }
}

// Drops the value of an answer.
fn plain<T: Drop>(answer: Result<T, Denial>) -> Result<(), Denial> {
    match answer {
        Ok(_) => Ok(()),
        Err(denial) => Err(denial),
    }
}

// Returns the answer of a call as the core gives it.
fn answer_of(said: TestReply) -> Answer {
    match said {
        TestReply::Done => Answer::Done,
        TestReply::Frames(frames) => Answer::Frames(frames),
        TestReply::Size(size) => Answer::Size(size),
        TestReply::Version(version) => Answer::Version(version),
        TestReply::Bytes(bytes) => Answer::Bytes(Bytes { bytes }),
        TestReply::Denied(denial) => Answer::Denied(denial),
    }
}

impl<'m, P: Allows> TestDomain<'m, P> {
    ghost use Rattle.gt_live.specs.Domains.{BelongsTo};

    /// Pairs a domain with its monitor.
    pub fn new(monitor: &'m Monitor<P>, domain: Domain) -> Self
        requires { BelongsTo P.may monitor.now domain }
    {
        TestDomain {
            monitor,
            domain,
            last: NEVER_GIVEN,
        }
    }

    // Each call of the domain by itself, so that none of what it promises is in the proof of another.

    fn grant_bytes(&mut self, gref: GrantRef, bytes: &[u8]) -> TestReply {
        done(self.domain.grant_bytes(self.monitor, gref, bytes))
    }

    fn set_version(&mut self, number: u32) -> TestReply {
        done(self.domain.set_version(self.monitor, number))
    }

    fn setup_table(&mut self, count: u32) -> TestReply {
        frames(self.domain.setup_table(self.monitor, count))
    }

    fn query_size(&mut self, dom: DomId) -> TestReply {
        size(self.domain.query_size(self.monitor, dom))
    }

    fn get_version(&mut self, dom: DomId) -> TestReply {
        version(self.domain.get_version(self.monitor, dom))
    }

    fn unmap_handle(&mut self, handle: Handle) -> Result<(), Denial> {
        self.domain.unmap(self.monitor, handle)
    }

    fn release(&mut self, handle: Handle) -> Result<(), Denial> {
        self.domain.release(self.monitor, handle)
    }

    fn load_from<R: Wait>(
        &mut self,
        rt: &R,
        handle: Handle,
        off: u16,
        len: u16,
    ) -> Result<Read, Denial> {
        self.domain.load(rt, self.monitor, handle, off, len)
    }

    fn store_to<R: Wait>(
        &mut self,
        rt: &R,
        handle: Handle,
        off: u16,
        bytes: &[u8],
    ) -> Result<(), Denial> {
        plain(self.domain.store(rt, self.monitor, handle, off, bytes))
    }

    fn peek<R: Wait>(&mut self, rt: &R, frame: u64, off: u16, len: u16) -> TestReply {
        read(self.domain.peek(rt, self.monitor, frame, off, len))
    }

    fn poke<R: Wait>(&mut self, rt: &R, frame: u64, off: u16, bytes: &[u8]) -> TestReply {
        done(self.domain.poke(rt, self.monitor, frame, off, bytes))
    }
}

impl<'m, P: Allows> Calls for TestDomain<'m, P> {
    // It is inlined, as the compiler does with the other calls. Otherwise each grant would write out a refusal's place.
    #[inline(always)]
    fn grant(&mut self, gref: u32, entry: &Entry) -> Result<(), Denial> {
        self.domain.grant(self.monitor, GrantRef(gref), entry)
    }

    fn revoke(&mut self, gref: u32) -> Result<(), Denial> {
        self.domain.revoke(self.monitor, GrantRef(gref))
    }

    fn withdraw(&mut self, gref: u32) -> Result<(), Denial> {
        self.domain.withdraw(self.monitor, GrantRef(gref))
    }

    fn demote(&mut self, gref: u32) -> Result<(), Denial> {
        self.domain.demote(self.monitor, GrantRef(gref))
    }

    fn promote(&mut self, gref: u32) -> Result<(), Denial> {
        self.domain.promote(self.monitor, GrantRef(gref))
    }

    fn map(&mut self, dom: u16, gref: u32, flags: u32) -> Result<(), Denial> {
        let answer = self
            .domain
            .map(self.monitor, DomId(dom), GrantRef(gref), flags);
        match answer {
            Ok(handle) => {
                self.last = handle;
                Ok(())
            }
            Err(denial) => Err(denial),
        }
    }

    fn unmap(&mut self) -> Result<(), Denial> {
        let handle = self.last;
        self.unmap_handle(handle)
    }

    fn load<R: Wait>(&mut self, rt: &R, off: u16, len: u16) -> Result<Read, Denial> {
        let handle = self.last;
        self.load_from(rt, handle, off, len)
    }

    fn load_into<R: Wait>(&mut self, rt: &R, off: u16, buffer: &mut [u8]) -> Result<(), Denial> {
        let handle = self.last;
        plain(self.domain.load_into(rt, self.monitor, handle, off, buffer))
    }

    fn peek_into<R: Wait>(
        &mut self,
        rt: &R,
        frame: u64,
        off: u16,
        buffer: &mut [u8],
    ) -> Result<(), Denial> {
        plain(self.domain.peek_into(rt, self.monitor, frame, off, buffer))
    }

    fn store<R: Wait>(&mut self, rt: &R, off: u16, bytes: &[u8]) -> Result<(), Denial> {
        let handle = self.last;
        self.store_to(rt, handle, off, bytes)
    }

    fn copy<R: Wait>(&mut self, rt: &R, copy: &CopyArgs) -> Result<(), Denial> {
        plain(self.domain.copy(rt, self.monitor, copy))
    }

    fn ask<R: Wait>(&mut self, rt: &R, asks: TestCall<'_>) -> TestReply {
        match asks {
            TestCall::Grant(gref, entry) => done(self.grant(gref, &entry)),
            TestCall::Bytes(gref, bytes) => self.grant_bytes(GrantRef(gref), bytes),
            TestCall::Revoke(gref) => done(self.revoke(gref)),
            TestCall::Withdraw(gref) => done(self.withdraw(gref)),
            TestCall::Demote(gref) => done(self.demote(gref)),
            TestCall::Promote(gref) => done(self.promote(gref)),
            TestCall::Map(dom, gref, flags) => done(self.map(dom, gref, flags)),
            TestCall::Unmap => done(self.unmap()),
            TestCall::Release => {
                let handle = self.last;
                done(self.release(handle))
            }
            TestCall::Version(version) => self.set_version(version),
            TestCall::Setup(count) => self.setup_table(count),
            TestCall::Size(dom) => self.query_size(DomId(dom)),
            TestCall::GetVersion(dom) => self.get_version(DomId(dom)),
            TestCall::Load(off, len) => read(self.load(rt, off, len)),
            TestCall::Store(off, bytes) => done(self.store(rt, off, bytes)),
            TestCall::Peek(frame, off, len) => self.peek(rt, frame, off, len),
            TestCall::Poke(frame, off, bytes) => self.poke(rt, frame, off, bytes),
            TestCall::Copy(copy) => done(self.copy(rt, &copy)),
        }
    }

    fn make<R: Wait>(&mut self, rt: &R, request: Request<'_>) -> Answer {
        let said = match request {
            Request::Map { dom, gref, flags } => match self.map(dom.0, gref.0, flags) {
                Ok(()) => return Answer::Mapped(self.last),
                Err(denial) => return Answer::Denied(denial),
            },
            Request::Grant { gref, entry } => done(self.grant(gref.0, &entry)),
            Request::GrantBytes { gref, bytes } => self.grant_bytes(gref, bytes),
            Request::Revoke { gref } => done(self.revoke(gref.0)),
            Request::Withdraw { gref } => done(self.withdraw(gref.0)),
            Request::Demote { gref } => done(self.demote(gref.0)),
            Request::Promote { gref } => done(self.promote(gref.0)),
            Request::Unmap { handle } => done(self.unmap_handle(handle)),
            Request::Release { handle } => done(self.release(handle)),
            Request::SetVersion { version } => self.set_version(version),
            Request::SetupTable { frames } => self.setup_table(frames),
            Request::QuerySize { dom } => self.query_size(dom),
            Request::GetVersion { dom } => self.get_version(dom),
            Request::Load { handle, off, len } => read(self.load_from(rt, handle, off, len)),
            Request::Store { handle, off, bytes } => done(self.store_to(rt, handle, off, bytes)),
            Request::Peek { frame, off, len } => self.peek(rt, frame, off, len),
            Request::Poke { frame, off, bytes } => self.poke(rt, frame, off, bytes),
            Request::Copy(args) => done(self.copy(rt, &args)),
            // No domain of the monitor makes a probe, and no list has one.
            Request::Probe(_) => TestReply::Denied(Denial::new(Rule::N26, Facts::None)),
        };
        answer_of(said)
    }

    fn keep_at_most(&mut self, records: usize) {
        self.domain.keep_at_most(records);
    }

    fn reserve_records(&mut self, records: usize) -> Result<(), Memory> {
        self.domain.reserve_records(records)
    }

    fn take_records(&mut self, mut next: Trail) -> Trail {
        next.clear();
        self.domain.take_records(next)
    }

    fn told(&self) -> Result<Vec<Record>, Memory> {
        self.domain.trail().records()
    }

    fn lost(&self) -> u64 {
        self.domain.trail().lost()
    }

    fn finish(self) -> Departed {
        let TestDomain {
            monitor,
            domain,
            last: _last,
        } = self;
        domain.finish(monitor)
    }
}

/// Pairs each domain with its monitor. If the allocation fails, each leaves.
///
/// # Errors
///
/// `Memory`.
pub fn all_running<'m, P: Allows>(
    alloc: Global,
    monitor: &'m Monitor<P>,
    domains: Vec<Domain>,
) -> Result<Vec<TestDomain<'m, P>>, Memory>
    requires mine { All (λ d. BelongsTo P.may monitor.now d) domains.items }
{
    let mut all = Vec::new(alloc);
    let mut has_room = true;
    let mut rest = domains.into_iter();
    'rest: while let Some(domain) = rest.next() {
        has_room &= all.push(TestDomain::new(monitor, domain)).is_ok();
    }
    rest.destroy_empty();
    if has_room { Ok(all) } else { Err(Memory) }
}
