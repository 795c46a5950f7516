//! An owner's calls on the entries of its table. None waits.
ghost use Rattle.gt_live.specs.Domains.{AnswersQuietly, StaysIn};
ghost use Rattle.gt_live.specs.Walks.{Called};
ghost use Rattle.gt_live.specs.Driving.{Leaves};

use super::{Domain, change_row, done, known_with};
use crate::monitor::Monitor;
use crate::owning::{IdleEntry, drive_change, judge_own};
use gt_calls::{CallResult, OwnerEntry, judge_bytes, own_entry};
use gt_entry::{Entry, EntryChange};
use gt_types::{Allows, Denial, GrantRef};

impl Domain {
    ghost use Rattle.std.specs.Prelude.{◌≡◌, ◌<◌, IfOk, IfErr, OnOk, OnErr, None, Some};
    ghost use Rattle.gt_types.specs.declared.limits.TheConstants.{TABLE_ENTRIES};
    ghost use Rattle.gt_live.specs.Domains.{BelongsTo};
    ghost use Rattle.gt_live.specs.Domains.{IsUnsettled, KeepsPinned};
    ghost use Rattle.gt_model.specs.Entries.{changed_entry};
    ghost use Rattle.gt_live.specs.Following.{own_entry_at};
    ghost use Rattle.gt_live.specs.Rows.{row_changed};
    ghost use Rattle.gt_live.specs.Owning.{IsRowOf, asks_change, change_effect};
    ghost use Rattle.gt_model.specs.Asking.{asked, begun_of};
    ghost use Rattle.gt_model.specs.Path.{idle_word, path};
    ghost use Rattle.gt_model.specs.Rules.{begun};
    ghost use Rattle.gt_model.specs.declared.request.Request.{Request};
    ghost use Rattle.gt_model.specs.declared.request.OpenRequest.TheVariants as asks;
    ghost use Rattle.gt_live.specs.Domains.{known_on, verdict_of};

    // Returns the result of a change of the entry with this row, if it is decided at its beginning.
    #[inline(always)]
    pub(crate) fn judge_own<P: Allows>(
        &self,
        monitor: &Monitor<P>,
        own: OwnerEntry,
        gref: GrantRef,
        change: EntryChange,
    ) -> Option<CallResult>
        requires row { IsRowOf (known_on P.may monitor.now self.now) gref own }
        ensures { result ≡ begun (known_on P.may monitor.now self.now) self.now.seat.dom (asks_change gref change) }
    {
        judge_own(&self.known(monitor), own, gref, change)
    }

    // Drives an owner's change to its end. Requires that the change is not decided at its beginning. `looked` is the
    // owner's word of the entry with no pins.
    #[inline(always)]
    fn drive_change<P: Allows>(
        &mut self,
        monitor: &Monitor<P>,
        gref: GrantRef,
        looked: u64,
        change: EntryChange,
    ) -> Result<(), Denial>
        requires mine { BelongsTo P.may monitor.now self.old }
        requires unanswered { begun (known_on P.may monitor.now self.old) self.old.seat.dom (asks_change gref change)
            ≡ None }
        requires looked { looked ≡ idle_word (known_on P.may monitor.now self.old) gref }
        ensures kept { IsUnsettled self.old self.new }
        ensures called { Called monitor.now.words.layout
            (path (known_on P.may monitor.now self.old) self.old.seat.dom (asks_change gref change))
            (verdict_of result) self.old.seat.view self.new.seat.view }
        ensures leaves { Leaves (known_on P.may monitor.now self.old) monitor.now.words.layout
            self.old.seat.dom (asks_change gref change) self.old.seat.view self.new.seat.view
            (change_effect gref change result) }
    {
        let known = known_with(monitor, &self.seat, &self.own, &self.mappings);
        let caller = self.seat.dom();
        let idle = IdleEntry { gref, word: looked };
        drive_change(&monitor.words, &known, &mut self.seat, caller, idle, change)
    }

    // Makes a change of the entry with this row, and keeps it in the row. Requires that it is not decided at its
    // beginning.
    #[inline(always)]
    pub(super) fn change_own<P: Allows>(
        &mut self,
        monitor: &Monitor<P>,
        own: OwnerEntry,
        gref: GrantRef,
        change: EntryChange,
    ) -> Result<(), Denial>
        requires mine { BelongsTo P.may monitor.now self.old }
        requires row { IsRowOf (known_on P.may monitor.now self.old) gref own }
        requires unanswered { begun (known_on P.may monitor.now self.old) self.old.seat.dom (asks_change gref change)
            ≡ None }
        ensures stays { StaysIn P.may monitor.now self.old self.new }
        ensures called { Called monitor.now.words.layout
            (path (known_on P.may monitor.now self.old) self.old.seat.dom (asks_change gref change))
            (verdict_of result) self.old.seat.view self.new.seat.view }
        ensures kept { KeepsPinned self.old self.new }
        ensures silent { self.new.trail ≡ self.old.trail }
        ensures row { OnOk result (self.new.own.items ≡ row_changed self.old.own.items gref.0 change) }
        ensures same { OnErr result (self.new.own.items ≡ self.old.own.items) }
    {
        match self.drive_change(monitor, gref, own.idle_word(), change) {
            Ok(()) => {
                change_row(&mut self.own, gref, change);
                Ok(())
            }
            Err(denial) => Err(denial),
        }
    }

    // Makes an owner's call that changes an entry.
    #[inline(always)]
    pub(super) fn owner_call<P: Allows>(
        &mut self,
        monitor: &Monitor<P>,
        gref: GrantRef,
        change: EntryChange,
    ) -> Result<(), Denial>
        requires mine { BelongsTo P.may monitor.now self.old }
        ensures stays { StaysIn P.may monitor.now self.old self.new }
        ensures called { Called monitor.now.words.layout
            (path (known_on P.may monitor.now self.old) self.old.seat.dom (asks_change gref change))
            (verdict_of result) self.old.seat.view self.new.seat.view }
        ensures kept { KeepsPinned self.old self.new }
        ensures silent { self.new.trail ≡ self.old.trail }
        ensures changed { gref.0 < TABLE_ENTRIES →
            OnOk result (own_entry_at self.new gref ≡ changed_entry change (own_entry_at self.old gref)) }
        ensures same { OnErr result (own_entry_at self.new gref ≡ own_entry_at self.old gref) }
    {
        let own = self.own_entry(monitor, gref);
        if let Some(verdict) = self.judge_own(monitor, own, gref, change) {
            return done(verdict);
        }
        self.change_own(monitor, own, gref, change)
    }

    // Checks a grant by bytes at its beginning, and returns the entry that they encode.
    #[inline(always)]
    fn judge_bytes<P: Allows>(
        &self,
        monitor: &Monitor<P>,
        own: OwnerEntry,
        gref: GrantRef,
        bytes: &[u8],
    ) -> Result<Entry, Denial>
        requires row { IsRowOf (known_on P.may monitor.now self.now) gref own }
        ensures refused { IfErr result (λ denial.
            begun_of (known_on P.may monitor.now self.now) self.now.seat.dom (Request.GrantBytes gref bytes.entry)
            ≡ Some (CallResult.Refused denial)) }
        ensures open { IfOk result (λ entry.
            (begun_of (known_on P.may monitor.now self.now) self.now.seat.dom
            (Request.GrantBytes gref bytes.entry) ≡ None)
            × (asks.Grant gref entry ≡ asked (Request.GrantBytes gref bytes.entry))
            × (begun (known_on P.may monitor.now self.now) self.now.seat.dom (asks.Grant gref entry) ≡ None)) }
    {
        judge_bytes(self.known(monitor).header, own, gref, bytes)
    }

    /// Publishes an entry instead of an invalid one that has no pins left. Neither the frame nor the domain that it
    /// names is checked: without the frame a use of the entry is refused by N16, and without the domain it permits no
    /// one.
    ///
    /// # Errors
    /// N9, N20, N21, N22, or N19 with the word found. Nothing changes but the body words of an invalid entry.
    #[inline(always)]
    pub fn grant<P: Allows>(
        &mut self,
        monitor: &Monitor<P>,
        gref: GrantRef,
        entry: &Entry,
    ) -> Result<(), Denial>
        requires mine { BelongsTo P.may monitor.now self.old }
        ensures stays { StaysIn P.may monitor.now self.old self.new }
        ensures answers { AnswersQuietly P.may monitor.now self.old
            (Request.Grant gref entry.now) (verdict_of result) self.new }
    {
        self.owner_call(monitor, gref, EntryChange::Publish(*entry))
    }

    /// Publishes the entry that the bytes encode in a table of the domain's version.
    ///
    /// # Errors
    /// N9, N20, N22, N25 with the field refused, or N19 with the word found. Nothing changes but the body words of an
    /// invalid entry.
    pub fn grant_bytes<P: Allows>(
        &mut self,
        monitor: &Monitor<P>,
        gref: GrantRef,
        bytes: &[u8],
    ) -> Result<(), Denial>
        requires mine { BelongsTo P.may monitor.now self.old }
        ensures stays { StaysIn P.may monitor.now self.old self.new }
        ensures answers { AnswersQuietly P.may monitor.now self.old
            (Request.GrantBytes gref bytes.entry) (verdict_of result) self.new }
    {
        let own = self.own_entry(monitor, gref);
        match self.judge_bytes(monitor, own, gref, bytes) {
            Ok(entry) => self.change_own(monitor, own, gref, EntryChange::Publish(entry)),
            Err(denial) => Err(denial),
        }
    }

    /// Makes one of the domain's entries invalid if it has no pins.
    ///
    /// # Errors
    /// N9, N10, or N19 with the word found. Nothing changes.
    pub fn revoke<P: Allows>(&mut self, monitor: &Monitor<P>, gref: GrantRef) -> Result<(), Denial>
        requires mine { BelongsTo P.may monitor.now self.old }
        ensures stays { StaysIn P.may monitor.now self.old self.new }
        ensures answers { AnswersQuietly P.may monitor.now self.old (Request.Revoke gref) (verdict_of result) self.new }
    {
        self.owner_call(monitor, gref, EntryChange::Revoke)
    }

    /// Makes one of the domain's entries invalid, with or without pins. The pins that it has stay, and no more are
    /// taken.
    ///
    /// # Errors
    /// N9, N10, or N18 with the word found. Nothing changes.
    pub fn withdraw<P: Allows>(
        &mut self,
        monitor: &Monitor<P>,
        gref: GrantRef,
    ) -> Result<(), Denial>
        requires mine { BelongsTo P.may monitor.now self.old }
        ensures stays { StaysIn P.may monitor.now self.old self.new }
        ensures answers { AnswersQuietly P.may monitor.now self.old
            (Request.Withdraw gref) (verdict_of result) self.new }
    {
        self.owner_call(monitor, gref, EntryChange::Withdraw)
    }

    /// Makes one of the domain's entries read-only if it has no write pins. Returns Ok without a change if it is
    /// read-only already.
    ///
    /// # Errors
    /// N9, N10, N22, or N18 or N19 with the word found. Nothing changes.
    pub fn demote<P: Allows>(&mut self, monitor: &Monitor<P>, gref: GrantRef) -> Result<(), Denial>
        requires mine { BelongsTo P.may monitor.now self.old }
        ensures stays { StaysIn P.may monitor.now self.old self.new }
        ensures answers { AnswersQuietly P.may monitor.now self.old (Request.Demote gref) (verdict_of result) self.new }
    {
        self.owner_call(monitor, gref, EntryChange::Demote)
    }

    /// Makes one of the domain's entries writable. Returns Ok without a change if it is writable already.
    ///
    /// # Errors
    /// N9, N10, N22, or N18 with the word found. Nothing changes.
    pub fn promote<P: Allows>(&mut self, monitor: &Monitor<P>, gref: GrantRef) -> Result<(), Denial>
        requires mine { BelongsTo P.may monitor.now self.old }
        ensures stays { StaysIn P.may monitor.now self.old self.new }
        ensures answers { AnswersQuietly P.may monitor.now self.old
            (Request.Promote gref) (verdict_of result) self.new }
    {
        self.owner_call(monitor, gref, EntryChange::Promote)
    }
}
