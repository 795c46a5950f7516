//! The call that copies bytes between frames, whole or in two halves.
ghost use Rattle.std.specs.Prelude.{◌≡◌, ◌+◌, ◌≤◌, Err, IfOk, IfErr, None, OnErr, OnOk, false, true};
ghost use Rattle.gt_types.specs.Copies.{is_dest_granted};
ghost use Rattle.gt_types.specs.declared.Dir.TheVariants as dirs;
ghost use Rattle.gt_types.specs.declared.Use.TheVariants as uses;
ghost use Rattle.gt_words.specs.Conditions.{IsSameSeat, IsSeatOf};
ghost use Rattle.gt_word_history.specs.declared.view.View.{View};
ghost use Rattle.gt_live.specs.AccessPaths.{MayCopyBy, ReachesBy};
ghost use Rattle.gt_audit.specs.Trails.{AppendsRecord};
ghost use Rattle.gt_model.specs.declared.action.CallResult.TheVariants.{Refused};
ghost use Rattle.gt_model.specs.declared.request.Request.TheVariants as requests;
ghost use Rattle.gt_model.specs.Holding.{last_first, no_pins};
ghost use Rattle.gt_model.specs.Rules.{copy_begun};
ghost use Rattle.gt_live.specs.Accesses.{CopiesBetween, IsCopiedBy, IsIfOneMissing, IsOfAccess};
ghost use Rattle.gt_live.specs.Driving.{IsSame};
ghost use Rattle.gt_live.specs.Domains.{AnswersWithAccess, Answered, BelongsTo, IsUnsettled, KeepsPinned, known_on};
ghost use Rattle.gt_live.specs.Domains.{record_of_copy};
ghost use Rattle.gt_live.specs.Halves.{copy_hypercall};
ghost use Rattle.gt_live.specs.Copies.{CopyStopsWith, filled, no_pending, pending_from, pending_to};
ghost use Rattle.gt_live.specs.Halves.{BecomesPending, EndsPending, IsPending, done_copy};
ghost use Rattle.gt_live.specs.Releasing.{CopyLeaves, PendingLeaves};
ghost use Rattle.gt_live.specs.Underway.{AreOfRun, GivesBack, HasTaken};
ghost use Rattle.gt_live.specs.Parts.{copy_at_access, seat_of, trail_of, words_of};

use super::bytes::not_made;
use super::{Domain, known_with, record_done, record_refusal, refusal_of};
use crate::access_paths::{CopyBy, CopyWords, drive_copy, give_back};
use crate::accesses::{CopyAccess, writ_by};
use crate::monitor::Monitor;
use gt_audit::{Hypercall, Record, Reply, Trail};
use gt_calls::{AccessPath, CallPins, CallResult, CopyArgs, End, Spot, end_spot, judge_copy};
use gt_frames::Copied;
use gt_types::{Allows, Denial, DomId, FRAME_SIZE, Range};
use gt_words::{FrameCopy, Seat};
use std::sync::Wait;

// Copies between the positions that the access paths of the access reach, by the writ of the access path to the
// destination.
#[tactic(auto, using(crate::proofs::Covering::covers_by, crate::proofs::Making::accessed_same, crate::proofs::Making::viewed_same))]
#[inline(always)]
fn copy_through<R: Wait, P: Allows>(
    rt: &R,
    monitor: &Monitor<P>,
    seat: &mut Seat,
    access: &CopyAccess<'_>,
) -> Result<Copied, Denial>
    requires seat { IsSeatOf monitor.now.words seat.old }
    requires source { ReachesBy monitor.now.words.layout seat.old dirs.Read uses.Copy
        access.now.from.frame access.now.from.off access.now.len access.now.access_paths.now.source }
    requires dest { ReachesBy monitor.now.words.layout seat.old dirs.Write uses.Copy
        access.now.to.frame access.now.to.off access.now.len access.now.access_paths.now.dest }
    requires may { MayCopyBy monitor.now.config.domains.items (P.may monitor.now.rights)
        seat.old.dom access.now.access_paths.now }
    requires source_range { access.now.from.off + access.now.len ≤ FRAME_SIZE }
    requires dest_range { access.now.to.off + access.now.len ≤ FRAME_SIZE }
    ensures seat { IsSameSeat seat.old seat.new }
    ensures copied { IfOk result (λ r. CopiesBetween monitor.now.words.layout access.now.from access.now.to
        access.now.len seat.old.dom access.now.access_paths.now r seat.old.view seat.new.view) }
    ensures refused { IfErr result IsOfAccess }
    ensures cause { IfErr result (IsIfOneMissing monitor.now.words access.now.from.frame access.now.to.frame) }
    ensures unmade { OnErr result (seat.new.view ≡ seat.old.view) }
    ensures same { IsSame seat.old.view seat.new.view }
{
    let CopyAccess {
        access_paths,
        from,
        to,
        len,
    } = *access;
    let writ = writ_by(seat.dom(), &access_paths.dest);
    let copy = FrameCopy {
        writ: &writ,
        range: Range { off: from.off, len },
        to_off: to.off,
    };
    match monitor
        .words
        .copy_frames(rt, seat, from.frame, to.frame, copy)
    {
        Ok(copied) => Ok(copied),
        Err(refused) => Err(not_made(refused)),
    }
}

/// A copy at its access, with its pins. [`Domain::copy_begin`] writes it and [`Domain::copy_end`] releases the pins; until
/// then the domain makes no other call. It has no more than its call is made of, since each copy writes it.
#[derive(Clone, Copy)]
pub struct PendingCopy {
    caller: DomId,
    copy: CopyArgs,
    pins: CallPins,
}

impl PendingCopy {
    /// Makes a place for [`Domain::copy_begin`] to write a copy to.
    pub fn new() -> PendingCopy
        ensures { result ≡ no_pending }
    {
        let end = End {
            ptr: 0,
            domid: DomId(0),
            offset: 0,
        };
        PendingCopy {
            caller: DomId(0),
            copy: CopyArgs {
                source: end,
                dest: end,
                len: 0,
                flags: 0,
            },
            pins: no_pins(),
        }
    }

    /// Returns the place where bytes may be read.
    #[inline(always)]
    pub fn from(&self) -> Spot
        ensures { result ≡ pending_from self.now }
    {
        end_spot(self.caller, self.copy.source, self.pins.source)
    }

    /// Returns the place where bytes may be written.
    #[inline(always)]
    pub fn to(&self) -> Spot
        ensures { result ≡ pending_to self.now }
    {
        end_spot(self.caller, self.copy.dest, self.pins.dest)
    }

    /// Returns the number of bytes.
    pub fn len(&self) -> u16
        ensures { result ≡ (copy_at_access self.now).len }
    {
        self.copy.len
    }
}

// Returns no pins, for a copy to replace with those that it takes.
#[inline(always)]
fn no_pins() -> CallPins
    ensures { result ≡ no_pins }
{
    CallPins {
        source: AccessPath::Own,
        dest: AccessPath::Own,
    }
}

// Returns the call of a copy, for its record.
fn copy_hypercall(copy: CopyArgs) -> Hypercall
    ensures { result ≡ copy_hypercall copy }
{
    Hypercall::Copy {
        source: copy.source,
        dest: copy.dest,
        len: copy.len,
        flags: copy.flags,
    }
}

// Records a refused half of a copy. It is inlined, so that only a refused one makes room for its record.
#[inline(always)]
fn record_refused_half(trail: &mut Trail, dom: DomId, copy: CopyArgs, denial: Denial)
    ensures { AppendsRecord trail.old
        (record { dom = dom; call = copy_hypercall copy; reply = Reply.Denied denial }) trail.new }
{
    record_refusal(trail, dom, copy_hypercall(copy), denial);
}

impl Domain {
    // Returns the result of a copy, if it is decided at its beginning.
    #[inline(always)]
    fn judge_copy<P: Allows>(&self, monitor: &Monitor<P>, copy: &CopyArgs) -> Option<CallResult>
        ensures { result ≡ copy_begun (known_on P.may monitor.now self.now) self.now.seat.dom copy.now }
    {
        judge_copy(&self.known(monitor), self.seat.dom(), copy)
    }

    // Drives a copy to its access, or to its end if it is refused before. Requires that it is not decided at its
    // beginning.
    #[inline(always)]
    fn drive_copy<P: Allows>(
        &mut self,
        monitor: &Monitor<P>,
        copy: &CopyArgs,
        granted: bool,
        pins: &mut CallPins,
    ) -> Result<(), Denial>
        requires mine { BelongsTo P.may monitor.now self.old }
        requires granted { granted ≡ is_dest_granted copy.now }
        requires unanswered { copy_begun (known_on P.may monitor.now self.old) self.old.seat.dom copy.now ≡ None }
        ensures kept { IsUnsettled self.old self.new }
        ensures stops { CopyStopsWith (known_on P.may monitor.now self.old) monitor.now.words.layout
            self.old.seat.dom copy.now (filled result pins.new) self.old.seat.view self.new.seat.view }
    {
        let known = known_with(monitor, &self.seat, &self.own, &self.mappings);
        let caller = self.seat.dom();
        let by = CopyBy { caller, granted };
        drive_copy(&monitor.words, &known, &mut self.seat, by, copy, pins)
    }

    // Releases the pins that a copy held at its access. Returns the control words that this left.
    #[inline(always)]
    fn give_back<P: Allows>(&mut self, monitor: &Monitor<P>, pins: &CallPins) -> CopyWords
        requires seat { IsSeatOf monitor.now.words self.old.seat }
        requires taken { (base : View)
            × HasTaken monitor.now.words.layout (last_first pins.now) base self.old.seat.view }
        requires of_run { AreOfRun monitor.now.words.layout (last_first pins.now) }
        ensures kept { IsUnsettled self.old self.new }
        ensures gives { GivesBack monitor.now.words.layout pins.now self.old.seat.view self.new.seat.view }
        ensures left { CopyLeaves monitor.now.words.layout pins.now result self.old.seat.view self.new.seat.view }
    {
        give_back(&monitor.words, &mut self.seat, pins)
    }

    // Copies to a granted page, without a record.
    fn make_copy_to_grant<R: Wait, P: Allows>(
        &mut self,
        rt: &R,
        monitor: &Monitor<P>,
        copy: &CopyArgs,
    ) -> Result<Copied, Denial>
        requires granted { is_dest_granted copy.now ≡ true }
        requires mine { BelongsTo P.may monitor.now self.old }
        ensures mine { BelongsTo P.may monitor.now self.new }
        ensures seat { IsSameSeat self.old.seat self.new.seat }
        ensures answered { AnswersWithAccess P.may monitor.now self.old (requests.Copy copy.now)
            (IsCopiedBy (known_on P.may monitor.now self.old) monitor.now.words.layout self.old copy.now)
            result self.new }
        ensures kept { KeepsPinned self.old self.new }
        ensures silent { self.new.trail ≡ self.old.trail }
    {
        if let Some(verdict) = self.judge_copy(monitor, copy) {
            return Err(refusal_of(verdict));
        }
        let mut pins = no_pins();
        match self.drive_copy(monitor, copy, true, &mut pins) {
            Ok(()) => {}
            Err(denial) => return Err(denial),
        }
        let caller = self.seat.dom();
        let from = end_spot(caller, copy.source, pins.source);
        let to = end_spot(caller, copy.dest, pins.dest);
        let access = CopyAccess {
            access_paths: &pins,
            from,
            to,
            len: copy.len,
        };
        let copied = copy_through(rt, monitor, &mut self.seat, &access);
        self.give_back(monitor, &pins);
        copied
    }

    // Copies to a frame of the caller's own, without a record. Its body is that of the function above and not a call of one
    // that both share: the compiler would not inline that, and would then not know that there is no walk to a destination.
    fn make_copy_home<R: Wait, P: Allows>(
        &mut self,
        rt: &R,
        monitor: &Monitor<P>,
        copy: &CopyArgs,
    ) -> Result<Copied, Denial>
        requires granted { is_dest_granted copy.now ≡ false }
        requires mine { BelongsTo P.may monitor.now self.old }
        ensures mine { BelongsTo P.may monitor.now self.new }
        ensures seat { IsSameSeat self.old.seat self.new.seat }
        ensures answered { AnswersWithAccess P.may monitor.now self.old (requests.Copy copy.now)
            (IsCopiedBy (known_on P.may monitor.now self.old) monitor.now.words.layout self.old copy.now)
            result self.new }
        ensures kept { KeepsPinned self.old self.new }
        ensures silent { self.new.trail ≡ self.old.trail }
    {
        if let Some(verdict) = self.judge_copy(monitor, copy) {
            return Err(refusal_of(verdict));
        }
        let mut pins = no_pins();
        match self.drive_copy(monitor, copy, false, &mut pins) {
            Ok(()) => {}
            Err(denial) => return Err(denial),
        }
        let caller = self.seat.dom();
        let from = end_spot(caller, copy.source, pins.source);
        let to = end_spot(caller, copy.dest, pins.dest);
        let home = CopyAccess {
            access_paths: &pins,
            from,
            to,
            len: copy.len,
        };
        match copy_through(rt, monitor, &mut self.seat, &home) {
            Ok(copied) => {
                self.give_back(monitor, &pins);
                Ok(copied)
            }
            Err(denial) => {
                self.give_back(monitor, &pins);
                Err(denial)
            }
        }
    }

    // Copies to a granted page, and records it. It is a separate function: its pins are in memory for the walk to its
    // destination, and in one function a copy to a frame of the caller would keep its pins there too.
    #[inline(never)]
    fn copy_to_grant<R: Wait, P: Allows>(
        &mut self,
        rt: &R,
        monitor: &Monitor<P>,
        copy: &CopyArgs,
    ) -> Result<Copied, Denial>
        requires granted { is_dest_granted copy.now ≡ true }
        requires mine { BelongsTo P.may monitor.now self.old }
        ensures mine { BelongsTo P.may monitor.now self.new }
        ensures seat { IsSameSeat self.old.seat self.new.seat }
        ensures answered { AnswersWithAccess P.may monitor.now self.old (requests.Copy copy.now)
            (IsCopiedBy (known_on P.may monitor.now self.old) monitor.now.words.layout self.old copy.now)
            result self.new }
        ensures kept { KeepsPinned self.old self.new }
        ensures recorded { AppendsRecord self.old.trail (record_of_copy self.old copy.now result) self.new.trail }
    {
        let dom = self.seat.dom();
        match self.make_copy_to_grant(rt, monitor, copy) {
            Ok(copied) => {
                record_done(&mut self.trail, dom, copy_hypercall(*copy));
                Ok(copied)
            }
            Err(denial) => {
                record_refusal(&mut self.trail, dom, copy_hypercall(*copy), denial);
                Err(denial)
            }
        }
    }

    /// Copies bytes between frames: the domain's own, or those of grants, transitive ones too. Waits for the locks of
    /// the frames. The pins that it takes for this are released after the frames are free.
    ///
    /// # Errors
    /// The first rule that applies: N1 to N5 or N16 at the beginning; N9 with the header's word; N10, N11 or N13 to N18
    /// with the entry's; after a Via also N1 or N5. At the access N26, or N16 if the run does not keep the frame.
    /// Nothing has changed: no frame, no mapping, no pin.
    pub fn copy<R: Wait, P: Allows>(
        &mut self,
        rt: &R,
        monitor: &Monitor<P>,
        copy: &CopyArgs,
    ) -> Result<Copied, Denial>
        requires mine { BelongsTo P.may monitor.now self.old }
        ensures mine { BelongsTo P.may monitor.now self.new }
        ensures seat { IsSameSeat (seat_of self.old) (seat_of self.new) }
        ensures answered { AnswersWithAccess P.may monitor.now self.old (requests.Copy copy.now)
            (IsCopiedBy (known_on P.may monitor.now self.old) (words_of monitor.now).layout self.old copy.now)
            result self.new }
        ensures kept { KeepsPinned self.old self.new }
        ensures recorded { AppendsRecord (trail_of self.old)
            (record_of_copy self.old copy.now result) (trail_of self.new) }
    {
        if copy.is_dest_granted() {
            return self.copy_to_grant(rt, monitor, copy);
        }
        let caller = self.seat.dom();
        match self.make_copy_home(rt, monitor, copy) {
            Ok(copied) => {
                record_done(&mut self.trail, caller, copy_hypercall(*copy));
                Ok(copied)
            }
            Err(denial) => {
                record_refusal(&mut self.trail, caller, copy_hypercall(*copy), denial);
                Err(denial)
            }
        }
    }

    // Drives a copy to its access, without a record.
    #[inline(always)]
    fn begin_pending<P: Allows>(
        &mut self,
        monitor: &Monitor<P>,
        copy: &CopyArgs,
        pending: &mut PendingCopy,
    ) -> Result<(), Denial>
        requires mine { BelongsTo P.may monitor.now self.old }
        ensures comes { OnOk result (BecomesPending P.may monitor.now self.old copy.now pending.new self.new) }
        ensures mine { OnErr result (BelongsTo P.may monitor.now self.new) }
        ensures refused { IfErr result
            (λ denial. Answered P.may monitor.now self.old (requests.Copy copy.now) (Refused denial) self.new) }
        ensures kept { OnErr result (KeepsPinned self.old self.new) }
        ensures seat { IsSameSeat self.old.seat self.new.seat }
        ensures silent { self.new.trail ≡ self.old.trail }
    {
        if let Some(verdict) = self.judge_copy(monitor, copy) {
            return Err(refusal_of(verdict));
        }
        pending.caller = self.seat.dom();
        pending.copy = *copy;
        let granted = copy.is_dest_granted();
        match self.drive_copy(monitor, &pending.copy, granted, &mut pending.pins) {
            Ok(()) => Ok(()),
            Err(denial) => Err(denial),
        }
    }

    /// Makes the first half of a copy, for a caller who keeps the frames: it reaches the access, stops there, and is
    /// written to `pending`. Until [`copy_end`](Domain::copy_end) the domain holds the copy's pins, and bytes may be read
    /// and written at the places of `pending`. A copy in two halves makes the steps of a whole one
    /// (`two_halves_make_a_copy`). The caller must move those bytes, and no others.
    ///
    /// # Errors
    /// The first rule that applies, as in [`copy`](Domain::copy). No pin is kept, and the refusal is recorded. `pending`
    /// may then be changed, and is the place for another copy.
    #[inline(always)]
    pub fn copy_begin<P: Allows>(
        &mut self,
        monitor: &Monitor<P>,
        copy: &CopyArgs,
        pending: &mut PendingCopy,
    ) -> Result<(), Denial>
        requires mine { BelongsTo P.may monitor.now self.old }
        ensures comes { OnOk result (BecomesPending P.may monitor.now self.old copy.now pending.new self.new) }
        ensures mine { OnErr result (BelongsTo P.may monitor.now self.new) }
        ensures refused { IfErr result
            (λ denial. Answered P.may monitor.now self.old (requests.Copy copy.now) (Refused denial) self.new) }
        ensures kept { OnErr result (KeepsPinned self.old self.new) }
        ensures seat { IsSameSeat (seat_of self.old) (seat_of self.new) }
        ensures recorded { IfErr result (λ denial.
            AppendsRecord (trail_of self.old) (record_of_copy self.old copy.now (Err denial)) (trail_of self.new)) }
    {
        match self.begin_pending(monitor, copy, pending) {
            Ok(()) => Ok(()),
            Err(denial) => {
                let dom = self.seat.dom();
                record_refused_half(&mut self.trail, dom, *copy, denial);
                Err(denial)
            }
        }
    }

    // Releases the pins of a copy at its access, without a record. Returns the control words that this left.
    #[inline(always)]
    fn end_pending<P: Allows>(&mut self, monitor: &Monitor<P>, pending: &PendingCopy) -> CopyWords
        requires pending { IsPending P.may monitor.now pending.now self.old }
        ensures mine { BelongsTo P.may monitor.now self.new }
        ensures ends { EndsPending monitor.now.words.layout pending.now self.old self.new }
        ensures left { PendingLeaves monitor.now.words.layout pending.now result self.old self.new }
        ensures silent { self.new.trail ≡ self.old.trail }
    {
        self.give_back(monitor, &pending.pins)
    }

    /// Makes the second half of a copy: its pins are released, the last one first, and the copy is recorded as Ok.
    /// Returns the control words that this left in the entries that the copy named.
    #[inline(always)]
    pub fn copy_end<P: Allows>(&mut self, monitor: &Monitor<P>, pending: &PendingCopy) -> CopyWords
        requires pending { IsPending P.may monitor.now pending.now self.old }
        ensures mine { BelongsTo P.may monitor.now self.new }
        ensures ends { EndsPending (words_of monitor.now).layout pending.now self.old self.new }
        ensures left { PendingLeaves (words_of monitor.now).layout pending.now result self.old self.new }
        ensures recorded { AppendsRecord (trail_of self.old)
            (done_copy self.old (copy_at_access pending.now)) (trail_of self.new) }
    {
        let left = self.end_pending(monitor, pending);
        let dom = self.seat.dom();
        record_done(&mut self.trail, dom, copy_hypercall(pending.copy));
        left
    }
}
