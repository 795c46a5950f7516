//! A guest, which is a domain in its run and the copy that it is in, and the calls of an attached domain but those on
//! mappings.
ghost use Rattle.std.specs.Prelude.{◌≡◌, None, false};
ghost use Rattle.gt_live.specs.Copies.{no_pending};
ghost use Rattle.gt_live.specs.Domains.{BelongsTo};
ghost use Rattle.gt_attached.specs.Seated.{LeavesRun, LeavesSettled, Settles, StandsBy, copy_in_place, seated};

mod mappings;

use crate::answer::{Departure, TakenCounts};
use crate::attached::AttachedDomain;
use gt_audit::{Record, Trail};
use gt_calls::{CopyArgs, Spot};
use gt_entry::{Control, Entry};
use gt_live::{CopyWords, Departed, Domain, Followed, Monitor, PendingCopy};
use gt_types::{Allows, Denial, DomId, GrantRef, Memory, Size};
use std::alloc::Global;

/// The places of a copy at its access: `len` bytes may be read at `from` and written at `to`.
#[derive(Clone, Copy)]
pub struct CopyPlaces {
    pub from: Spot,
    pub to: Spot,
    pub len: u16,
}

/// A domain in its run, and the copy that it is in, if it is in one. It is not `Drop`, and its fields are private here, so
/// whoever else has one can only let it leave. By each such body that compiles, it ends its copy and closes its table.
/// `pending` is the copy while `is_copying` is set. Else it has a place for the next one, which is written there.
pub(crate) struct Attachment {
    domain: Domain,
    is_copying: bool,
    pending: PendingCopy,
}

/// A domain that has left its run: what remains of it, and its seat with its records. No seat can be made or changed.
/// So this seat is the one that left, and its view has each step that the domain made.
#[derive(Drop)]
pub struct LeftDomain {
    pub remains: Departure,
    pub left: Departed,
}

// Ends the copy that the domain is in, if it is in one.
fn end_copy<P: Allows>(
    monitor: &Monitor<P>,
    domain: &mut Domain,
    is_copying: bool,
    pending: &PendingCopy,
)
    requires stands { StandsBy P.may monitor.now domain.old (copy_in_place is_copying pending.now) }
    ensures mine { BelongsTo P.may monitor.now domain.new }
    ensures settles { Settles (seated monitor.now domain.old (copy_in_place is_copying pending.now))
        (seated monitor.now domain.new None) }
{
    if is_copying {
        domain.copy_end(monitor, pending);
    }
}

// Releases the domain's mappings, closes its table and leaves its run.
fn depart<P: Allows>(monitor: &Monitor<P>, domain: Domain) -> LeftDomain
    requires { BelongsTo P.may monitor.now domain }
    ensures { LeavesRun P.may monitor.now domain result }
{
    let mut domain = domain;
    let in_use = domain.reset(monitor) as u64;
    let left = domain.finish(monitor);
    let lost = left.lost();
    let remains = Departure { lost, in_use };
    LeftDomain { remains, left }
}

impl Attachment {
    /// Makes a guest of a domain that is in no copy.
    pub(crate) fn new(domain: Domain) -> Attachment
        ensures { result ≡ record { domain = domain; is_copying = false; pending = no_pending } }
    {
        Attachment {
            domain,
            is_copying: false,
            pending: PendingCopy::new(),
        }
    }

    /// Ends the copy that the domain is in, if it is in one. Then releases its mappings, closes its table and leaves its
    /// run.
    pub(crate) fn leave<P: Allows>(self, monitor: &Monitor<P>) -> LeftDomain
        requires { StandsBy P.may monitor.now self.domain (copy_in_place self.is_copying self.pending) }
        ensures { LeavesSettled P.may
            (seated monitor.now self.domain (copy_in_place self.is_copying self.pending)) result }
    {
        let Attachment {
            mut domain,
            is_copying,
            pending,
        } = self;
        end_copy(monitor, &mut domain, is_copying, &pending);
        depart(monitor, domain)
    }
}

impl<P: Allows + Drop> AttachedDomain<P> {
    ghost use Rattle.std.specs.Prelude.{◌≡◌, ◌≤◌, IsSome, None, OnOk, OnErr, is_some};
    ghost use Rattle.gt_audit.specs.Trails.{HasNone, AppendsRecord, KeepsRoom};
    ghost use Rattle.gt_audit.specs.declared.pieces.TheConstants.{MOST_RESERVED};
    ghost use Rattle.gt_audit.specs.declared.record.Hypercall.TheVariants as hypercalls;
    ghost use Rattle.gt_model.specs.declared.request.Request.TheVariants as requests;
    ghost use Rattle.gt_live.specs.Domains.{AnswersQuietly, AnswersRecorded};
    ghost use Rattle.gt_live.specs.Closing.{LooksAtOwn, Resets};
    ghost use Rattle.gt_live.specs.Following.{Follows, own_entry_at};
    ghost use Rattle.gt_live.specs.Domains.{verdict_of, verdict_of_frames, verdict_of_size};
    ghost use Rattle.gt_live.specs.Domains.{verdict_of_version};
    ghost use Rattle.gt_live.specs.Parts.{seat_of, trail_of, with_trail, words_of};
    ghost use Rattle.gt_attached.specs.Seated.{BeginsAccess, EndsAccess, EndsAccessTo, StaysIdle, taken_of};
    ghost use Rattle.std.specs.List.{slice_get};

    /// Publishes an entry instead of an invalid one that has no pins left. Neither the frame nor the domain that it
    /// names is checked: without the frame a use of the entry is refused by N16, and without the domain it permits no
    /// one.
    ///
    /// # Errors
    /// N9, N20, N21, N22 or N19. Nothing changes but the body words of an invalid entry.
    #[inline(always)]
    pub fn grant(&mut self, gref: GrantRef, entry: &Entry) -> Result<(), Denial>
        requires idle { self.old.copying ≡ None }
        ensures stays { StaysIdle self.old self.new }
        ensures answers { AnswersQuietly P.may self.old.monitor self.old.domain
            (requests.Grant gref entry.now) (verdict_of result) self.new.domain }
    {
        self.attachment.domain.grant(&self.monitor, gref, entry)
    }

    /// Publishes the entry that the bytes encode in a table of the domain's version.
    ///
    /// # Errors
    /// N9, N20, N22, N25 or N19. Nothing changes but the body words of an invalid entry.
    pub fn grant_bytes(&mut self, gref: GrantRef, bytes: &[u8]) -> Result<(), Denial>
        requires idle { self.old.copying ≡ None }
        ensures stays { StaysIdle self.old self.new }
        ensures answers { AnswersQuietly P.may self.old.monitor self.old.domain
            (requests.GrantBytes gref bytes.entry) (verdict_of result) self.new.domain }
    {
        self.attachment
            .domain
            .grant_bytes(&self.monitor, gref, bytes)
    }

    /// Makes one of the domain's entries invalid if it has no pins.
    ///
    /// # Errors
    /// N9, N10 or N19. Nothing changes.
    pub fn revoke(&mut self, gref: GrantRef) -> Result<(), Denial>
        requires idle { self.old.copying ≡ None }
        ensures stays { StaysIdle self.old self.new }
        ensures answers { AnswersQuietly P.may self.old.monitor self.old.domain
            (requests.Revoke gref) (verdict_of result) self.new.domain }
    {
        self.attachment.domain.revoke(&self.monitor, gref)
    }

    /// Makes one of the domain's entries invalid, with or without pins.
    ///
    /// # Errors
    /// N9, N10 or N18. Nothing changes.
    pub fn withdraw(&mut self, gref: GrantRef) -> Result<(), Denial>
        requires idle { self.old.copying ≡ None }
        ensures stays { StaysIdle self.old self.new }
        ensures answers { AnswersQuietly P.may self.old.monitor self.old.domain
            (requests.Withdraw gref) (verdict_of result) self.new.domain }
    {
        self.attachment.domain.withdraw(&self.monitor, gref)
    }

    /// Makes one of the domain's entries read-only if it has no write pins.
    ///
    /// # Errors
    /// N9, N10, N22, N18 or N19. Nothing changes.
    pub fn demote(&mut self, gref: GrantRef) -> Result<(), Denial>
        requires idle { self.old.copying ≡ None }
        ensures stays { StaysIdle self.old self.new }
        ensures answers { AnswersQuietly P.may self.old.monitor self.old.domain
            (requests.Demote gref) (verdict_of result) self.new.domain }
    {
        self.attachment.domain.demote(&self.monitor, gref)
    }

    /// Makes one of the domain's entries writable.
    ///
    /// # Errors
    /// N9, N10, N22 or N18. Nothing changes.
    pub fn promote(&mut self, gref: GrantRef) -> Result<(), Denial>
        requires idle { self.old.copying ≡ None }
        ensures stays { StaysIdle self.old self.new }
        ensures answers { AnswersQuietly P.may self.old.monitor self.old.domain
            (requests.Promote gref) (verdict_of result) self.new.domain }
    {
        self.attachment.domain.promote(&self.monitor, gref)
    }

    /// Brings one of the domain's entries to what its guest has written: the bytes are the guest's entry, as its memory
    /// has them. Their bits `GTF_reading` and `GTF_writing` count as clear, and their type 0 means that the guest has
    /// ended access.
    ///
    /// # Errors
    /// N9, N25, N18, N19 or N22. The entry is then as before, or Invalid if it was withdrawn.
    pub fn follow(&mut self, gref: GrantRef, bytes: &[u8]) -> Result<Followed, Denial>
        requires idle { self.old.copying ≡ None }
        ensures stays { StaysIdle self.old self.new }
        ensures follows { Follows P.may self.old.monitor self.old.domain gref bytes.now result self.new.domain }
    {
        self.attachment.domain.follow(&self.monitor, gref, bytes)
    }

    /// Gives the domain's table this version, 1 or 2, while all its entries are invalid.
    ///
    /// # Errors
    /// N2 or N24. Nothing changes.
    pub fn set_version(&mut self, version: u32) -> Result<(), Denial>
        requires idle { self.old.copying ≡ None }
        ensures stays { StaysIdle self.old self.new }
        ensures answers { AnswersRecorded P.may self.old.monitor self.old.domain
            (requests.SetVersion version) (hypercalls.SetVersion version) (verdict_of result) self.new.domain }
    {
        self.attachment.domain.set_version(&self.monitor, version)
    }

    /// Grows the domain's table to `frames` frames if it has fewer, and returns the number that it then has.
    ///
    /// # Errors
    /// N5 or N23. Nothing changes.
    pub fn setup_table(&mut self, frames: u32) -> Result<u32, Denial>
        requires idle { self.old.copying ≡ None }
        ensures stays { StaysIdle self.old self.new }
        ensures answers { AnswersRecorded P.may self.old.monitor self.old.domain
            (requests.SetupTable frames) (hypercalls.SetupTable frames) (verdict_of_frames result) self.new.domain }
    {
        self.attachment.domain.setup_table(&self.monitor, frames)
    }

    /// Returns the number of frames of a domain's table, and the maximum.
    ///
    /// # Errors
    /// N1 or N5.
    pub fn query_size(&mut self, dom: DomId) -> Result<Size, Denial>
        requires idle { self.old.copying ≡ None }
        ensures stays { StaysIdle self.old self.new }
        ensures answers { AnswersRecorded P.may self.old.monitor self.old.domain
            (requests.QuerySize dom) (hypercalls.QuerySize dom) (verdict_of_size result) self.new.domain }
    {
        self.attachment.domain.query_size(&self.monitor, dom)
    }

    /// Returns the version of a domain's table.
    ///
    /// # Errors
    /// N1 or N5.
    pub fn get_version(&mut self, dom: DomId) -> Result<u32, Denial>
        requires idle { self.old.copying ≡ None }
        ensures stays { StaysIdle self.old self.new }
        ensures answers { AnswersRecorded P.may self.old.monitor self.old.domain
            (requests.GetVersion dom) (hypercalls.GetVersion dom) (verdict_of_version result) self.new.domain }
    {
        self.attachment.domain.get_version(&self.monitor, dom)
    }

    /// Bounds the trail: a call is recorded only while the trail has fewer than `records` records. With 0, the bound of a
    /// new domain, no call is recorded. Records that are there already stay.
    pub fn keep_at_most(&mut self, records: usize)
        requires idle { self.old.copying ≡ None }
        ensures stays { StaysIdle self.old self.new }
        ensures bound { self.new.domain
            ≡ with_trail self.old.domain (record (trail_of self.old.domain) { most = records }) }
    {
        self.attachment.domain.keep_at_most(records);
    }

    /// Makes room for `records` more records, which then need no allocation.
    ///
    /// # Errors
    /// `Memory`, also for more than 2^24 records. The domain is unchanged.
    pub fn reserve_records(&mut self, records: usize) -> Result<(), Memory>
        requires idle { self.old.copying ≡ None }
        ensures stays { StaysIdle self.old self.new }
        ensures bound { OnOk result (records ≤ MOST_RESERVED) }
        ensures refused { OnErr result (self.new.domain ≡ self.old.domain) }
        ensures room { OnOk result (records ≤ (trail_of self.new.domain).room) }
        ensures grows { (trail_of self.old.domain).room ≤ (trail_of self.new.domain).room }
        ensures kept { self.new.domain ≡ with_trail self.old.domain
            (record (trail_of self.old.domain) { room = (trail_of self.new.domain).room }) }
    {
        self.attachment.domain.reserve_records(records)
    }

    /// Returns the record at an index of the trail, starting at 0.
    pub fn record_at(&self, index: usize) -> Option<Record>
        ensures { result ≡ slice_get (trail_of self.now.domain).records index }
    {
        self.attachment.domain.trail().get(index)
    }

    /// Returns the number of records lost so far.
    pub fn lost(&self) -> u64
        ensures { result ≡ (trail_of self.now.domain).lost }
    {
        self.attachment.domain.trail().lost()
    }

    /// Returns whether the domain is in a copy.
    pub fn is_copying(&self) -> bool
        ensures { result ≡ is_some self.now.copying }
    {
        self.attachment.is_copying
    }

    /// Begins a copy: takes its pins, and returns the places where bytes may now be read and written. The domain is in
    /// this copy until `copy_end`. The caller must move those bytes, and no others.
    ///
    /// # Errors
    /// The first rule that applies: N1 to N5 or N16 at the beginning; N9 with the header's word; N10, N11 or N13 to N18
    /// with the entry's; after a Via also N1 or N5. No pin is kept.
    pub fn copy_begin(&mut self, copy: &CopyArgs) -> Result<CopyPlaces, Denial>
        requires idle { self.old.copying ≡ None }
        ensures begins { BeginsAccess P.may self.old copy.now result self.new }
    {
        self.copy_begin_at::<()>(copy)
    }

    /// Begins a copy as [`copy_begin`](AttachedDomain::copy_begin) does. `Site` is any type that no other caller passes:
    /// each caller then inlines a separate body, which does not test the flags that are constant in that caller.
    ///
    /// # Errors
    /// Those of [`copy_begin`](AttachedDomain::copy_begin).
    #[inline(always)]
    pub fn copy_begin_at<Site>(&mut self, copy: &CopyArgs) -> Result<CopyPlaces, Denial>
        requires idle { self.old.copying ≡ None }
        ensures begins { BeginsAccess P.may self.old copy.now result self.new }
    {
        let begun = self
            .attachment
            .domain
            .copy_begin(&self.monitor, copy, &mut self.attachment.pending);
        match begun {
            Ok(()) => {
                self.attachment.is_copying = true;
                Ok(CopyPlaces {
                    from: self.attachment.pending.from(),
                    to: self.attachment.pending.to(),
                    len: self.attachment.pending.len(),
                })
            }
            Err(denial) => Err(denial),
        }
    }

    /// Ends the copy that the domain is in: releases its pins, the last one first. The domain must be in a copy. Returns
    /// the control words that this left in the entries that the copy named.
    #[inline(always)]
    pub fn copy_end(&mut self) -> CopyWords
        requires copying { IsSome self.old.copying }
        ensures ends { EndsAccess self.old self.new }
        ensures left { EndsAccessTo result self.old self.new }
    {
        let left = self
            .attachment
            .domain
            .copy_end(&self.monitor, &self.attachment.pending);
        self.attachment.is_copying = false;
        left
    }

    /// Releases each of the domain's mappings and closes its table, for the next guest in its place. Its records stay.
    /// Returns the number of records that were lost, and the number of entries still in use.
    pub fn reset(&mut self) -> Departure
        requires idle { self.old.copying ≡ None }
        ensures stays { StaysIdle self.old self.new }
        ensures resets { Resets P.may self.old.monitor self.old.domain result.in_use self.new.domain }
        ensures lost { result.lost ≡ (trail_of self.old.domain).lost }
    {
        let in_use = self.attachment.domain.reset(&self.monitor) as u64;
        let lost = self.attachment.domain.trail().lost();
        Departure { lost, in_use }
    }

    /// Looks at one of the domain's entries: its kind, its generation and its pins of each kind. Returns `None` if the
    /// table has no such entry.
    pub fn status(&mut self, gref: GrantRef) -> Option<Control>
        requires idle { self.old.copying ≡ None }
        ensures stays { StaysIdle self.old self.new }
        ensures looks { LooksAtOwn (words_of self.old.monitor).layout self.old.domain gref result self.new.domain }
    {
        self.attachment.domain.status(&self.monitor, gref)
    }

    /// Returns one of the domain's entries as the domain last changed it: `Invalid` if it has none of this reference. It
    /// makes no look, so it has no pins.
    pub fn entry_at(&self, gref: GrantRef) -> Entry
        ensures { result ≡ own_entry_at self.now.domain gref }
    {
        self.attachment.domain.entry_at(gref)
    }

    /// Drops the domain's records. Keeps the room that they took, and the room that was free. Returns the number of
    /// records, and the number lost before.
    pub fn take_records(&mut self, alloc: Global) -> TakenCounts
        requires idle { self.old.copying ≡ None }
        ensures stays { StaysIdle self.old self.new }
        ensures taken { result ≡ taken_of (trail_of self.old.domain) }
        ensures emptied { HasNone (trail_of self.new.domain) }
        ensures bound { (trail_of self.new.domain).most ≡ (trail_of self.old.domain).most }
        ensures room { KeepsRoom (trail_of self.old.domain) (trail_of self.new.domain) }
        ensures kept { self.new.domain ≡ with_trail self.old.domain (trail_of self.new.domain) }
    {
        let mut records = self.attachment.domain.take_records(Trail::new(alloc));
        let taken = TakenCounts {
            records: records.len() as u64,
            lost: records.lost(),
        };
        records.clear();
        let _none = self.attachment.domain.take_records(records);
        taken
    }

    /// Returns the domain's number.
    pub fn dom(&self) -> DomId
        ensures { result ≡ (seat_of self.now.domain).dom }
    {
        self.attachment.domain.seat().dom()
    }
}
