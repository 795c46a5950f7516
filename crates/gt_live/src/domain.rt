//! A domain of the run, and its calls.
ghost use Rattle.std.specs.Prelude.{◌≡◌, ◌≤◌, OnOk, IfOk, None, Some};
ghost use Rattle.gt_words.specs.Conditions.{IsSameSeat, IsSeatOf};
ghost use Rattle.gt_word_history.specs.Rule.{IsKeptHeader};
ghost use Rattle.gt_word_history.specs.Views.{own_table};
ghost use Rattle.gt_calls.specs.Known.{knows};
ghost use Rattle.gt_live.specs.declared.domain.Domain.{Domain};
ghost use Rattle.gt_live.specs.Rows.{row_changed};
ghost use Rattle.gt_live.specs.Domains.{BelongsTo};
ghost use Rattle.gt_live.specs.Domains.{done_by, known_on, outcome_of, denial_in};
ghost use Rattle.gt_live.specs.Domains.{reply_of, result_of_reply, frames_granted};
ghost use Rattle.gt_live.specs.Domains.{verdict_of_frames, verdict_of_size, verdict_of_version};
ghost use Rattle.gt_live.specs.Questions.{answer_by};
ghost use Rattle.gt_model.specs.declared.action.HeaderQuery.{HeaderQuery};
ghost use Rattle.gt_audit.specs.Trails.{AppendsRecord};
ghost use Rattle.gt_live.specs.Parts.{config_of, mappings_of, rights_of, seat_left, seat_of};
ghost use Rattle.gt_live.specs.Parts.{trail_left, trail_of, with_trail, words_of};

mod bytes;
mod closing;
mod copies;
mod flags;
mod following;
mod mappings;
mod owner_calls;
mod table_calls;

use crate::driving::pin_of;
use crate::monitor::Monitor;
pub use copies::PendingCopy;
pub use following::Followed;
use gt_audit::{Hypercall, Record, Reply, Trail};
use gt_calls::{
    CallResult, CallValue, CallerState, Handle, Handles, HeldPin, OwnerEntry, own_entry, size_in,
    version_in,
};
use gt_entry::EntryChange;
use gt_types::{Allows, Denial, DomId, Facts, GrantRef, Memory, Rule, Size, TypeId};
use gt_words::Seat;
pub use mappings::{LeftWord, NewMapping};
use std::alloc::Global;

/// A domain of the run: its seat, and what it knows without a look. It can't be dropped: `finish` takes it apart.
pub struct Domain {
    alloc: Global,
    seat: Seat,
    own: Vec<OwnerEntry>,
    mappings: Handles<HeldPin>,
    trail: Trail,
}

/// What a domain leaves behind: its records, and its seat, which makes no more steps.
#[derive(Drop)]
pub struct Departed {
    trail: Trail,
    pub(crate) seat: Seat,
}

impl Departed {
    ghost use Rattle.std.specs.Prelude.{◌≡◌, IfOk};

    /// Returns the records of the domain's calls, in order.
    ///
    /// # Errors
    /// `Memory`.
    pub fn records(&self) -> Result<Vec<Record>, Memory>
        ensures { IfOk result (λ v. v.items ≡ (trail_left self.now).records) }
    {
        self.trail.records()
    }

    /// Returns the number of records that were lost, because allocation failed or the trail was full.
    pub fn lost(&self) -> u64
        ensures { result ≡ (trail_left self.now).lost }
    {
        self.trail.lost()
    }
}

// Changes an owner's row of an entry, if it has one.
fn change_row(own: &mut [OwnerEntry], gref: GrantRef, change: EntryChange)
    ensures { own.new ≡ row_changed own.old gref.0 change }
{
    let at = gref.0 as usize;
    if at < own.len() {
        own[at] = own[at].after(change);
    }
}

// Lends what a domain with this seat, these rows and these mappings knows without a look, and what the monitor allows.
fn known_with<'a, P: Allows>(
    monitor: &'a Monitor<P>,
    seat: &Seat,
    own: &'a [OwnerEntry],
    mappings: &'a Handles<HeldPin>,
) -> CallerState<'a, P>
    ensures known { (d : Domain) → own.now ≡ d.own.items → seat.now ≡ d.seat → mappings.now ≡ d.mappings →
        knows P.may result ≡ known_on P.may monitor.now d }
    ensures kept { IsKeptHeader (own_table seat.now.view) }
{
    CallerState {
        config: &monitor.config,
        rights: &monitor.rights,
        own,
        header: seat.header(),
        mappings,
    }
}

// Returns Ok, or the refusal.
fn done(verdict: CallResult) -> Result<(), Denial>
    ensures { result ≡ done_by verdict }
{
    match verdict {
        CallResult::Refused(denial) => Err(denial),
        _ => Ok(()),
    }
}

// Returns the version in a header's word.
#[inline(always)]
fn version_by(answer: Result<u64, Denial>) -> Result<u32, Denial>
    ensures { verdict_of_version result ≡ answer_by HeaderQuery.Version answer }
{
    match answer {
        Ok(word) => Ok(version_in(word)),
        Err(denial) => Err(denial),
    }
}

// Returns the size in a header's word.
#[inline(always)]
fn size_by(answer: Result<u64, Denial>) -> Result<Size, Denial>
    ensures { verdict_of_size result ≡ answer_by HeaderQuery.Size answer }
{
    match answer {
        Ok(word) => Ok(size_in(word)),
        Err(denial) => Err(denial),
    }
}

// Returns the number of frames in the result of a setup.
fn frames_granted(verdict: CallResult) -> Result<u32, Denial>
    ensures { result ≡ frames_granted verdict }
{
    match verdict {
        CallResult::Refused(denial) => Err(denial),
        CallResult::Given(CallValue::Frames(frames)) => Ok(frames),
        _ => Ok(0),
    }
}

// Returns the refusal of a call that was refused.
pub(crate) fn refusal_of(verdict: CallResult) -> Denial
    ensures { result ≡ denial_in verdict }
{
    match verdict {
        CallResult::Refused(denial) => denial,
        _ => Denial::new(Rule::N26, Facts::None),
    }
}

// Returns the reply for the record of a call whose Ok has no value.
fn outcome_reply<T>(answer: &Result<T, Denial>) -> Reply
    ensures reply { result ≡ reply_of (outcome_of answer.now) }
    ensures represents { result_of_reply result ≡ outcome_of answer.now }
{
    match answer {
        Ok(_) => Reply::Done,
        Err(denial) => Reply::Denied(*denial),
    }
}

// Returns the reply for the record of a query of a version.
fn version_reply(answer: &Result<u32, Denial>) -> Reply
    ensures reply { result ≡ reply_of (verdict_of_version answer.now) }
    ensures represents { result_of_reply result ≡ verdict_of_version answer.now }
{
    match answer {
        Ok(version) => Reply::Version(*version),
        Err(denial) => Reply::Denied(*denial),
    }
}

fn size_reply(answer: &Result<Size, Denial>) -> Reply
    ensures reply { result ≡ reply_of (verdict_of_size answer.now) }
    ensures represents { result_of_reply result ≡ verdict_of_size answer.now }
{
    match answer {
        Ok(size) => Reply::Size(*size),
        Err(denial) => Reply::Denied(*denial),
    }
}

fn frames_reply(answer: &Result<u32, Denial>) -> Reply
    ensures reply { result ≡ reply_of (verdict_of_frames answer.now) }
    ensures represents { result_of_reply result ≡ verdict_of_frames answer.now }
{
    match answer {
        Ok(frames) => Reply::Frames(*frames),
        Err(denial) => Reply::Denied(*denial),
    }
}

// Records a call that was Ok.
#[inline(always)]
fn record_done(trail: &mut Trail, dom: DomId, call: Hypercall)
    ensures { AppendsRecord trail.old (record { dom = dom; call = call; reply = Reply.Done }) trail.new }
{
    let reply = Reply::Done;
    trail.push(Record { dom, call, reply });
}

// Records a call that was refused. Few are, so this function is not inlined.
#[cold]
#[inline(never)]
fn record_refusal(trail: &mut Trail, dom: DomId, call: Hypercall, denial: Denial)
    ensures { AppendsRecord trail.old (record { dom = dom; call = call; reply = Reply.Denied denial }) trail.new }
{
    let reply = Reply::Denied(denial);
    trail.push(Record { dom, call, reply });
}

impl Domain {
    ghost use Rattle.std.specs.Prelude.{◌≡◌, ◌≤◌, List, OnErr, OnOk, IfOk, IfSome, None, Some};
    ghost use Rattle.gt_audit.specs.Trails.{ArePartsOf, HasNone, AppendsRecord};
    ghost use Rattle.gt_audit.specs.declared.pieces.TheConstants.{MOST_RESERVED};
    ghost use Rattle.gt_live.specs.Domains.{subject_of, HasLeft, BelongsTo};
    ghost use Rattle.gt_live.specs.Domains.{Released, StaysOfRun};
    ghost use Rattle.gt_live.specs.Owning.{IsRowOf};
    ghost use Rattle.gt_live.specs.Questions.{answer_by};
    ghost use Rattle.gt_model.specs.declared.action.HeaderQuery.{HeaderQuery};
    ghost use Rattle.gt_calls.specs.Known.{knows};
    ghost use Rattle.gt_model.specs.Rules.{label_of};
    ghost use Rattle.gt_live.specs.Domains.{known_on, verdict_of_frames, verdict_of_size};
    ghost use Rattle.gt_live.specs.Domains.{verdict_of_version};
    ghost use Rattle.gt_live.specs.Mappings.{ReachesItsFrame, unused_handle};
    ghost use Rattle.gt_live.specs.AccessPaths.{MayAccessBy};
    ghost use Rattle.gt_model.specs.declared.held.AccessPath.TheVariants.{Direct};
    ghost use Rattle.gt_handles.specs.Handles.{value_of};
    ghost use Rattle.gt_model.specs.declared.held.HeldPin.{HeldPin};
    ghost use Rattle.gt_handles.specs.Handles.{FindsNext, IsEmpty};

    /// Makes the domain with this seat, which has made no call.
    pub(crate) fn new(
        alloc: Global,
        seat: Seat,
        own: Vec<OwnerEntry>,
        mappings: Handles<HeldPin>,
        trail: Trail,
    ) -> Domain
        ensures { result ≡ record {
          alloc = alloc;
          seat = seat;
          own = own;
          mappings = mappings;
          trail = trail;
        } }
    {
        Domain {
            alloc,
            seat,
            own,
            mappings,
            trail,
        }
    }

    /// Lends the records of the domain's calls so far, in order.
    pub fn trail(&self) -> &Trail
        ensures { result.now ≡ trail_of self.now }
    {
        &self.trail
    }

    /// Bounds the trail: a call is recorded only while the trail has fewer than `records` records, and is counted as
    /// lost otherwise. With 0 no call is recorded. Records that are there already stay. A new domain has no bound.
    pub fn keep_at_most(&mut self, records: usize)
        ensures bound { self.new ≡ with_trail self.old (record (trail_of self.old) { most = records }) }
        ensures mine { StaysOfRun self.old self.new }
    {
        self.trail.keep_at_most(records);
    }

    /// Makes room for `records` more records, which then need no allocation.
    ///
    /// # Errors
    /// `Memory`, also for more than `gt_audit::MOST_RESERVED` records. The domain is unchanged.
    pub fn reserve_records(&mut self, records: usize) -> Result<(), Memory>
        ensures bound { OnOk result (records ≤ MOST_RESERVED) }
        ensures refused { OnErr result (self.new ≡ self.old) }
        ensures room { OnOk result (records ≤ (trail_of self.new).room) }
        ensures grows { (trail_of self.old).room ≤ (trail_of self.new).room }
        ensures kept { self.new
            ≡ with_trail self.old (record (trail_of self.old) { room = (trail_of self.new).room }) }
        ensures mine { StaysOfRun self.old self.new }
    {
        self.trail.reserve(records)
    }

    /// Swaps in `next` (empty) and returns the records so far. A caller who clears what it got, and passes that the
    /// next time, keeps the audit of a long run in memory that doesn't grow. The bound of the trail stays.
    pub fn take_records(&mut self, next: Trail) -> Trail
        requires empty { HasNone next }
        ensures parts { ArePartsOf (trail_of self.old) result (trail_of self.new) }
        ensures taken { result ≡ trail_of self.old }
        ensures goes_on { self.new ≡ with_trail self.old (record next { most = (trail_of self.old).most }) }
        ensures mine { StaysOfRun self.old self.new }
    {
        self.trail.take(next)
    }

    /// Lends the domain's seat. An access to a frame is justified by the pins of that seat.
    pub fn seat(&self) -> &Seat
        ensures { result.now ≡ seat_of self.now }
    {
        &self.seat
    }

    /// Returns the mapping under a handle, or `None` if the domain has no such mapping. By the mapping's pin the domain
    /// reaches any range of the mapping's frame.
    pub fn mapping<P: Allows>(&self, monitor: &Monitor<P>, handle: Handle) -> Option<HeldPin>
        requires mine { BelongsTo P.may monitor.now self.now }
        ensures value { result ≡ value_of (mappings_of self.now) handle }
        ensures reaches { IfSome result (ReachesItsFrame (words_of monitor.now).layout (seat_of self.now)) }
        ensures may { IfSome result (λ p.
            MayAccessBy (config_of monitor.now).domains.items (P.may (rights_of monitor.now)) (seat_of self.now).dom
            (Direct p)) }
    {
        self.mappings.get(handle).copied()
    }

    /// Returns the handle of the domain's mapping with the least key from `from` on, or `None` if no key from there on has a
    /// mapping. Looks at each key before it.
    pub fn next_mapping(&self, from: usize) -> Option<Handle>
        ensures { FindsNext (mappings_of self.now) from result }
    {
        self.mappings.next_from(from)
    }

    /// Returns a handle under which the domain has no mapping now. Its serial is that of the next mapping.
    pub fn unused_handle(&self) -> Handle
        ensures value { result ≡ unused_handle self.now }
        ensures unused { value_of (mappings_of self.now) result ≡ None }
    {
        Handle {
            serial: self.mappings.given(),
            key: 0,
        }
    }

    // Lends what the domain knows without a look, and what the monitor allows.
    fn known<'a, P: Allows>(&'a self, monitor: &'a Monitor<P>) -> CallerState<'a, P>
        ensures { knows P.may result ≡ known_on P.may monitor.now self.now }
    {
        known_with(monitor, &self.seat, &self.own, &self.mappings)
    }

    // Returns what the domain knows of one of its entries.
    #[inline(always)]
    fn own_entry<P: Allows>(&self, monitor: &Monitor<P>, gref: GrantRef) -> OwnerEntry
        ensures { IsRowOf (known_on P.may monitor.now self.now) gref result }
    {
        own_entry(&self.known(monitor), gref)
    }

    // Records a call of the domain.
    #[inline(always)]
    fn add_record(&mut self, call: Hypercall, reply: Reply)
        ensures recorded { AppendsRecord self.old.trail
            (record { dom = self.old.seat.dom; call = call; reply = reply }) self.new.trail }
        ensures mine { StaysOfRun self.old self.new }
        ensures kept { self.new ≡ record self.old { trail = self.new.trail } }
    {
        let dom = self.seat.dom();
        self.trail.push(Record { dom, call, reply });
    }

    // Returns the entry that the mapping under a handle is of.
    fn subject(&self, handle: Handle) -> Option<(DomId, GrantRef)>
        ensures { result ≡ subject_of self.now handle }
    {
        match self.mappings.get(handle).copied() {
            Some(held) => Some((held.dom, held.gref)),
            None => None,
        }
    }

    // Returns the domain's label, which is at its position in the configuration.
    fn label<P: Allows>(&self, monitor: &Monitor<P>) -> TypeId
        requires mine { BelongsTo P.may monitor.now self.now }
        ensures { result ≡ label_of monitor.now.config.domains.items self.now.seat.dom }
    {
        monitor.config.config().domains[self.seat.position()].label
    }

    // Releases the pin of each mapping.
    fn release_all<P: Allows>(&mut self, monitor: &Monitor<P>)
        requires mine { BelongsTo P.may monitor.now self.old }
        ensures mine { BelongsTo P.may monitor.now self.new }
        ensures seat { IsSameSeat self.old.seat self.new.seat }
        ensures released { (handles : List Handle) × Released monitor.now.words.layout handles
            self.old.mappings self.old.seat.view self.new.mappings self.new.seat.view }
        ensures all_given { IsEmpty self.new.mappings }
        ensures silent { self.new.trail ≡ self.old.trail }
    {
        'mappings: while let Some((_, held)) = self.mappings.pop() {
            monitor.words.unpin(&mut self.seat, pin_of(held));
        }
    }

    /// Leaves the run: releases each of the domain's mappings with its pin, also if the policy denies an unmap. The
    /// domain's entries stay as they are, and others may still map them. [`Domain::close`] withdraws them first.
    pub fn finish<P: Allows>(mut self, monitor: &Monitor<P>) -> Departed
        requires mine { BelongsTo P.may monitor.now self }
        ensures left { HasLeft (words_of monitor.now).layout self result }
        ensures seat { IsSeatOf (words_of monitor.now) (seat_left result) }
    {
        self.release_all(monitor);
        let Domain {
            alloc: _,
            seat,
            own: _,
            mappings: _,
            trail,
        } = self;
        Departed { trail, seat }
    }
}
