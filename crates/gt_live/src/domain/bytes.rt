//! The calls that read or write the bytes of one frame. Only these calls, and copies, may wait.
ghost use Rattle.std.specs.Prelude.{◌≡◌, ◌+◌, ◌≤◌, length, IfOk, IfErr, IsSome, OnErr, Some, true};
ghost use Rattle.gt_handles.specs.Handles.{value_of};
ghost use Rattle.gt_model.specs.Permits.{permits};
ghost use Rattle.gt_types.specs.declared.Dir.TheVariants as dirs;
ghost use Rattle.gt_types.specs.declared.Use.TheVariants as uses;
ghost use Rattle.gt_words.specs.Conditions.{IsSameSeat, IsSeatOf};
ghost use Rattle.gt_live.specs.AccessPaths.{MayAccessBy, ReachesBy};
ghost use Rattle.gt_model.specs.declared.request.Request.TheVariants as requests;
ghost use Rattle.gt_live.specs.Accesses.{FillsBuffer, IsIfMissing, IsOfAccess, IsOfMissing, IsReadBy, IsWrittenBy};
ghost use Rattle.gt_live.specs.Accesses.{ReadsFrame, WritesFrame};
ghost use Rattle.gt_live.specs.Domains.{AccessesQuietly, BelongsTo, IsRefusedWithoutMemory, StaysIn, not_made};
ghost use Rattle.gt_live.specs.Driving.{IsSame};
ghost use Rattle.gt_live.specs.Parts.{words_of};

use super::{Domain, refusal_of};
use crate::accesses::{Access, writ_by};
use crate::monitor::Monitor;
use gt_calls::{AccessPath, Handle, HeldPin, judge_load, judge_own_access, judge_store};
use gt_entry::Entry;
use gt_frames::{Filled, Read, Written};
use gt_types::{Allows, Denial, DomId, FRAME_SIZE, Facts, FrameName, Rule, Spot};
use gt_words::{AccessFault, FrameWrite, Seat};
use std::alloc::Global;
use std::sync::Wait;

// Returns the refusal of a call whose access was not made: N16 if the frame was missing, N26 if allocation failed.
pub(super) fn not_made(refused: AccessFault) -> Denial
    ensures { result ≡ not_made refused }
{
    match refused {
        AccessFault::Gone => Denial::new(Rule::N16, Facts::None),
        AccessFault::Memory => Denial::new(Rule::N26, Facts::None),
    }
}

// Returns the pin of a mapping with its entry written out: a page that is granted to the caller. The compiler then makes
// no code for other entries, and the writ of a store has no parts but those of a page.
#[inline(always)]
fn page_of(kept: HeldPin, caller: DomId) -> HeldPin
    requires { permits kept.entry caller kept.dir uses.Map 0 0 ≡ true }
    ensures { result ≡ kept }
{
    match kept.entry {
        Entry::Page { ro, frame, .. } => HeldPin {
            entry: Entry::Page {
                dom: caller,
                ro,
                frame,
            },
            ..kept
        },
        _ => unreachable!(),
    }
}

// Reads bytes of the frame that this access reaches into all of `out`. Like the functions below it requires that the
// pins of the access path are in the view of the seat and justify the range, and that the policy allows the access.
#[inline(always)]
#[tactic(auto, using(crate::proofs::Making::accessed_same, crate::proofs::Making::viewed_same))]
fn fill_through<R: Wait, P: Allows>(
    rt: &R,
    monitor: &Monitor<P>,
    seat: &mut Seat,
    access: &Access<'_>,
    out: &mut [u8],
) -> Result<Filled, Denial>
    requires seat { IsSeatOf monitor.now.words seat.old }
    requires reached { ReachesBy monitor.now.words.layout seat.old dirs.Read uses.Map
        access.now.at.frame access.now.at.off (length out.old) access.now.access_path.now }
    requires may { MayAccessBy monitor.now.config.domains.items (P.may monitor.now.rights)
        seat.old.dom access.now.access_path.now }
    requires range { access.now.at.off + length out.old ≤ FRAME_SIZE }
    ensures seat { IsSameSeat seat.old seat.new }
    ensures read { IfOk result (λ r. ReadsFrame monitor.now.words.layout access.now.at.frame access.now.at.off
        (length out.old) r seat.old.view seat.new.view) }
    ensures refused { IfErr result IsOfMissing }
    ensures cause { IfErr result (IsIfMissing monitor.now.words access.now.at.frame) }
    ensures unmade { OnErr result (seat.new.view ≡ seat.old.view) }
    ensures same { IsSame seat.old.view seat.new.view }
    ensures filled { FillsBuffer result out.old out.new }
{
    let Spot { frame, off } = access.at;
    match monitor.words.read_frame(rt, seat, frame, off, out) {
        Some(filled) => Ok(filled),
        None => Err(not_made(AccessFault::Gone)),
    }
}

// Reads `len` bytes of the frame that this access reaches into fresh memory, which is not filled with zeros first.
#[tactic(auto, using(crate::proofs::Making::accessed_same, crate::proofs::Making::viewed_same))]
fn read_through<R: Wait, P: Allows>(
    rt: &R,
    monitor: &Monitor<P>,
    alloc: Global,
    seat: &mut Seat,
    access: &Access<'_>,
    len: u16,
) -> Result<Read, Denial>
    requires seat { IsSeatOf monitor.now.words seat.old }
    requires reached { ReachesBy monitor.now.words.layout seat.old dirs.Read uses.Map
        access.now.at.frame access.now.at.off len access.now.access_path.now }
    requires may { MayAccessBy monitor.now.config.domains.items (P.may monitor.now.rights)
        seat.old.dom access.now.access_path.now }
    requires range { access.now.at.off + len ≤ FRAME_SIZE }
    ensures seat { IsSameSeat seat.old seat.new }
    ensures read { IfOk result (λ r. ReadsFrame monitor.now.words.layout access.now.at.frame access.now.at.off len r
        seat.old.view seat.new.view) }
    ensures refused { IfErr result IsOfAccess }
    ensures cause { IfErr result (IsIfMissing monitor.now.words access.now.at.frame) }
    ensures unmade { OnErr result (seat.new.view ≡ seat.old.view) }
    ensures same { IsSame seat.old.view seat.new.view }
{
    let Ok(room) = Vec::with_capacity(alloc, usize::from(len)) else {
        return Err(not_made(AccessFault::Memory));
    };
    let Spot { frame, off } = access.at;
    let made = monitor.words.read_frame_to(rt, seat, frame, off, len, room);
    let Some(read) = made else {
        return Err(not_made(AccessFault::Gone));
    };
    Ok(read)
}

// Writes bytes to the frame that this access reaches, by the writ of its access path.
#[tactic(auto, using(crate::proofs::Covering::covers_by, crate::proofs::Making::accessed_same, crate::proofs::Making::viewed_same))]
fn write_through<'a, R: Wait, P: Allows>(
    rt: &R,
    monitor: &Monitor<P>,
    seat: &mut Seat,
    access: &Access<'_>,
    bytes: &'a [u8],
) -> Result<Written<'a>, Denial>
    requires seat { IsSeatOf monitor.now.words seat.old }
    requires reached { ReachesBy monitor.now.words.layout seat.old dirs.Write uses.Map
        access.now.at.frame access.now.at.off (length bytes.now) access.now.access_path.now }
    requires may { MayAccessBy monitor.now.config.domains.items (P.may monitor.now.rights)
        seat.old.dom access.now.access_path.now }
    requires range { access.now.at.off + length bytes.now ≤ FRAME_SIZE }
    ensures seat { IsSameSeat seat.old seat.new }
    ensures written { IfOk result (λ r. WritesFrame monitor.now.words.layout access.now.at.frame access.now.at.off
        bytes.entry.now seat.old.dom access.now.access_path.now r seat.old.view seat.new.view) }
    ensures refused { IfErr result IsOfAccess }
    ensures cause { IfErr result (IsIfMissing monitor.now.words access.now.at.frame) }
    ensures unmade { OnErr result (seat.new.view ≡ seat.old.view) }
    ensures same { IsSame seat.old.view seat.new.view }
{
    let Spot { frame, off } = access.at;
    let writ = writ_by(seat.dom(), access.access_path);
    let write = FrameWrite {
        writ: &writ,
        off,
        bytes,
    };
    match monitor.words.write_frame(rt, seat, frame, write) {
        Ok(written) => Ok(written),
        Err(refused) => Err(not_made(refused)),
    }
}

impl Domain {
    // Returns the pin of the mapping with this handle. Only pages that are granted to the domain are mapped.
    #[inline(always)]
    fn mapped_page(&self, handle: Handle) -> HeldPin
        requires there { IsSome (value_of self.now.mappings handle) }
        requires page { (held : HeldPin) → value_of self.now.mappings handle ≡ Some held →
            permits held.entry self.now.seat.dom held.dir uses.Map 0 0 ≡ true }
        ensures { value_of self.now.mappings handle ≡ Some result }
    {
        let kept = *self.mappings.get(handle).unwrap();
        page_of(kept, self.seat.dom())
    }

    /// Reads `len` bytes through a mapping, starting at the offset `off`. Waits for the frame's lock.
    ///
    /// # Errors
    /// N3 or N6; or at the access N26, or N16 if the run does not keep the frame. Nothing changes.
    pub fn load<R: Wait, P: Allows>(
        &mut self,
        rt: &R,
        monitor: &Monitor<P>,
        handle: Handle,
        off: u16,
        len: u16,
    ) -> Result<Read, Denial>
        requires mine { BelongsTo P.may monitor.now self.old }
        ensures stays { StaysIn P.may monitor.now self.old self.new }
        ensures answers { AccessesQuietly P.may monitor.now self.old
            (requests.Load handle off len) (IsReadBy (words_of monitor.now).layout) result self.new }
    {
        if let Some(verdict) = judge_load(&self.mappings, handle, off, usize::from(len)) {
            return Err(refusal_of(verdict));
        }
        let held = self.mapped_page(handle);
        let name = FrameName {
            owner: held.dom,
            number: held.entry.frame(),
        };
        let access_path = AccessPath::Direct(held);
        let access = Access {
            access_path: &access_path,
            at: Spot { frame: name, off },
        };
        read_through(rt, monitor, self.alloc, &mut self.seat, &access, len)
    }

    /// Reads into all of `buffer` through a mapping, starting at the offset `off`. Waits for the frame's lock, and does
    /// not allocate.
    ///
    /// # Errors
    /// N3 or N6; or N16 at the access. Nothing changes, and the buffer is unchanged too.
    pub fn load_into<R: Wait, P: Allows>(
        &mut self,
        rt: &R,
        monitor: &Monitor<P>,
        handle: Handle,
        off: u16,
        buffer: &mut [u8],
    ) -> Result<Filled, Denial>
        requires mine { BelongsTo P.may monitor.now self.old }
        ensures stays { StaysIn P.may monitor.now self.old self.new }
        ensures answers { AccessesQuietly P.may monitor.now self.old
            (requests.Load handle off (length buffer.old)) (IsReadBy (words_of monitor.now).layout) result self.new }
        ensures refused { IfErr result (IsRefusedWithoutMemory P.may monitor.now self.old
            (requests.Load handle off (length buffer.old))) }
        ensures filled { FillsBuffer result buffer.old buffer.new }
    {
        if let Some(verdict) = judge_load(&self.mappings, handle, off, buffer.len()) {
            return Err(refusal_of(verdict));
        }
        let held = self.mapped_page(handle);
        let name = FrameName {
            owner: held.dom,
            number: held.entry.frame(),
        };
        let access_path = AccessPath::Direct(held);
        let access = Access {
            access_path: &access_path,
            at: Spot { frame: name, off },
        };
        fill_through(rt, monitor, &mut self.seat, &access, buffer)
    }

    /// Reads `len` bytes of one of the domain's own frames, starting at the offset `off`. Waits for the frame's lock.
    ///
    /// # Errors
    /// N3 or N16; or N26 or N16 at the access. Nothing changes.
    pub fn peek<R: Wait, P: Allows>(
        &mut self,
        rt: &R,
        monitor: &Monitor<P>,
        frame: u64,
        off: u16,
        len: u16,
    ) -> Result<Read, Denial>
        requires mine { BelongsTo P.may monitor.now self.old }
        ensures stays { StaysIn P.may monitor.now self.old self.new }
        ensures answers { AccessesQuietly P.may monitor.now self.old
            (requests.Peek frame off len) (IsReadBy (words_of monitor.now).layout) result self.new }
    {
        let caller = self.seat.dom();
        let config = &monitor.config;
        if let Some(verdict) = judge_own_access(config, caller, frame, off, usize::from(len)) {
            return Err(refusal_of(verdict));
        }
        let name = FrameName {
            owner: caller,
            number: frame,
        };
        let own = Access {
            access_path: &AccessPath::Own,
            at: Spot { frame: name, off },
        };
        read_through(rt, monitor, self.alloc, &mut self.seat, &own, len)
    }

    /// Reads into all of `buffer` from one of the domain's own frames, starting at the offset `off`. Waits for the
    /// frame's lock, and does not allocate.
    ///
    /// # Errors
    /// N3 or N16; or N16 at the access. Nothing changes, and the buffer is unchanged too.
    pub fn peek_into<R: Wait, P: Allows>(
        &mut self,
        rt: &R,
        monitor: &Monitor<P>,
        frame: u64,
        off: u16,
        buffer: &mut [u8],
    ) -> Result<Filled, Denial>
        requires mine { BelongsTo P.may monitor.now self.old }
        ensures stays { StaysIn P.may monitor.now self.old self.new }
        ensures answers { AccessesQuietly P.may monitor.now self.old
            (requests.Peek frame off (length buffer.old)) (IsReadBy (words_of monitor.now).layout) result self.new }
        ensures refused { IfErr result (IsRefusedWithoutMemory P.may monitor.now self.old
            (requests.Peek frame off (length buffer.old))) }
        ensures filled { FillsBuffer result buffer.old buffer.new }
    {
        let caller = self.seat.dom();
        let config = &monitor.config;
        if let Some(verdict) = judge_own_access(config, caller, frame, off, buffer.len()) {
            return Err(refusal_of(verdict));
        }
        let name = FrameName {
            owner: caller,
            number: frame,
        };
        let own = Access {
            access_path: &AccessPath::Own,
            at: Spot { frame: name, off },
        };
        fill_through(rt, monitor, &mut self.seat, &own, buffer)
    }

    /// Writes `bytes` through a mapping, starting at the offset `off`. Waits for the frame's lock.
    ///
    /// # Errors
    /// N3, N6 or N7; or N26 or N16 at the access. Nothing changes, and the frame is unchanged too.
    pub fn store<'a, R: Wait, P: Allows>(
        &mut self,
        rt: &R,
        monitor: &Monitor<P>,
        handle: Handle,
        off: u16,
        bytes: &'a [u8],
    ) -> Result<Written<'a>, Denial>
        requires mine { BelongsTo P.may monitor.now self.old }
        ensures stays { StaysIn P.may monitor.now self.old self.new }
        ensures answers { AccessesQuietly P.may monitor.now self.old
            (requests.Store handle off bytes.entry)
            (IsWrittenBy (words_of monitor.now).layout self.old (requests.Store handle off bytes.entry))
            result self.new }
    {
        if let Some(verdict) = judge_store(&self.mappings, handle, off, bytes.len()) {
            return Err(refusal_of(verdict));
        }
        let held = self.mapped_page(handle);
        let name = FrameName {
            owner: held.dom,
            number: held.entry.frame(),
        };
        let access_path = AccessPath::Direct(held);
        let access = Access {
            access_path: &access_path,
            at: Spot { frame: name, off },
        };
        write_through(rt, monitor, &mut self.seat, &access, bytes)
    }

    /// Writes `bytes` to one of the domain's own frames, starting at the offset `off`. Waits for the frame's lock.
    ///
    /// # Errors
    /// N3 or N16; or N26 or N16 at the access. Nothing changes, and the frame is unchanged too.
    pub fn poke<'a, R: Wait, P: Allows>(
        &mut self,
        rt: &R,
        monitor: &Monitor<P>,
        frame: u64,
        off: u16,
        bytes: &'a [u8],
    ) -> Result<Written<'a>, Denial>
        requires mine { BelongsTo P.may monitor.now self.old }
        ensures stays { StaysIn P.may monitor.now self.old self.new }
        ensures answers { AccessesQuietly P.may monitor.now self.old
            (requests.Poke frame off bytes.entry)
            (IsWrittenBy (words_of monitor.now).layout self.old (requests.Poke frame off bytes.entry))
            result self.new }
    {
        let caller = self.seat.dom();
        let config = &monitor.config;
        if let Some(verdict) = judge_own_access(config, caller, frame, off, bytes.len()) {
            return Err(refusal_of(verdict));
        }
        let name = FrameName {
            owner: caller,
            number: frame,
        };
        let own = Access {
            access_path: &AccessPath::Own,
            at: Spot { frame: name, off },
        };
        write_through(rt, monitor, &mut self.seat, &own, bytes)
    }
}
