//! The closing of a domain's table before the domain leaves, and a look at one of its entries.
ghost use Rattle.std.specs.Prelude.{◌≡◌, true};
ghost use Rattle.gt_model.specs.declared.entry.Entry.TheVariants.{Invalid};
ghost use Rattle.gt_calls.specs.Known.{entry_in};
ghost use Rattle.gt_live.specs.Closing.{is_in_use};
ghost use Rattle.gt_live.specs.Parts.{words_of};

use super::{Domain, done};
use crate::monitor::Monitor;
use gt_calls::OwnerEntry;
use gt_entry::{Control, Entry, EntryChange, EntryKind};
use gt_types::{Allows, Denial, GrantRef};

// The maximum number of times that `close` asks for the withdrawal of an entry. Each time makes up to four tries.
const MOST_WITHDRAWALS: u32 = 16;

// Returns whether a control word is of an entry in use.
fn is_in_use(word: u64) -> bool
    ensures { result ≡ is_in_use word }
{
    let control = Control::unpack(word);
    !matches!(control.kind, EntryKind::Invalid) || control.reads > 0 || control.writes > 0
}

// Returns whether the owner's row of an entry is Invalid.
fn is_shut(own: &[OwnerEntry], gref: GrantRef) -> bool
    ensures { result ≡ true → entry_in own.now gref.0 ≡ Invalid }
{
    match own.get(gref.0 as usize).copied() {
        Some(row) => matches!(row.entry(), Entry::Invalid),
        None => true,
    }
}

impl Domain {
    ghost use Rattle.std.specs.Prelude.{◌≡◌, ℕ, ◌<◌, OnOk, OnErr, slice_get};
    ghost use Rattle.gt_model.specs.declared.change.EntryChange.TheVariants.{Withdraw};
    ghost use Rattle.gt_types.specs.declared.limits.TheConstants.{TABLE_ENTRIES};
    ghost use Rattle.gt_live.specs.Domains.{BelongsTo, StaysIn};
    ghost use Rattle.gt_live.specs.Closing.{AsksWithdrawal, Closes, ClosesRow, IsInvalidOrInUse, LooksAtOwn, Resets};
    ghost use Rattle.gt_live.specs.Closing.{ShutsRow, StaysQuiet};
    ghost use Rattle.gt_live.specs.Following.{own_entry_at};
    ghost use Rattle.gt_live.specs.Rows.{row_changed};
    ghost use Rattle.gt_live.specs.Domains.{IsUnsettled};
    ghost use Rattle.gt_live.specs.Walks.{Made};
    ghost use Rattle.gt_words.specs.Conditions.{IsWordOf};
    ghost use Rattle.gt_word_history.specs.Views.{last_of};
    ghost use Rattle.gt_model.specs.declared.action.Observation.TheVariants.{Word};
    ghost use Rattle.gt_model.specs.declared.action.Step.TheVariants.{LookControl};

    // Withdraws one of the domain's entries, in at most four tries.
    fn withdraw_row<P: Allows>(
        &mut self,
        monitor: &Monitor<P>,
        gref: GrantRef,
    ) -> Result<(), Denial>
        requires mine { BelongsTo P.may monitor.now self.old }
        requires entry { gref.0 < TABLE_ENTRIES }
        ensures mine { BelongsTo P.may monitor.now self.new }
        ensures quiet { StaysQuiet self.old self.new }
        ensures asked { AsksWithdrawal P.may monitor.now self.old gref result self.new }
        ensures gone { OnOk result (self.new.own.items ≡ row_changed self.old.own.items gref.0 Withdraw) }
        ensures same { OnErr result (self.new.own.items ≡ self.old.own.items) }
    {
        let own = self.own_entry(monitor, gref);
        if let Some(verdict) = self.judge_own(monitor, own, gref, EntryChange::Withdraw) {
            return done(verdict);
        }
        self.change_own(monitor, own, gref, EntryChange::Withdraw)
    }

    // Withdraws one of the domain's entries if it is valid, and asks again if its tries were missed.
    fn withdraw_often<P: Allows>(&mut self, monitor: &Monitor<P>, gref: GrantRef)
        requires mine { BelongsTo P.may monitor.now self.old }
        requires entry { gref.0 < TABLE_ENTRIES }
        ensures mine { BelongsTo P.may monitor.now self.new }
        ensures quiet { StaysQuiet self.old self.new }
        ensures shut { ShutsRow P.may monitor.now self.old gref self.new }
        ensures others { (q : ℕ) → (gref.0 ≡ q → ⊥)
            → slice_get self.new.own.items q ≡ slice_get self.old.own.items q }
    {
        if is_shut(&self.own, gref) {
            return;
        }
        'asked: for _ in 0..MOST_WITHDRAWALS {
            match self.withdraw_row(monitor, gref) {
                Ok(()) => return,
                Err(_) => {}
            }
        }
    }

    // Loads the control word of one of the domain's entries.
    fn look<P: Allows>(&mut self, monitor: &Monitor<P>, gref: GrantRef) -> u64
        requires mine { BelongsTo P.may monitor.now self.old }
        requires entry { gref.0 < TABLE_ENTRIES }
        ensures mine { BelongsTo P.may monitor.now self.new }
        ensures kept { IsUnsettled self.old self.new }
        ensures quiet { StaysQuiet self.old self.new }
        ensures made { Made monitor.now.words.layout (LookControl self.old.seat.dom gref) (Word result)
            self.old.seat.view self.new.seat.view }
        ensures own { IsWordOf (last_of gref.0 self.new.seat.view) result }
    {
        let dom = self.seat.dom();
        monitor.words.load_control(&mut self.seat, dom, gref)
    }

    // Closes one of the domain's entries, and returns the word that a look then finds.
    fn close_row<P: Allows>(&mut self, monitor: &Monitor<P>, gref: GrantRef) -> u64
        requires mine { BelongsTo P.may monitor.now self.old }
        requires entry { gref.0 < TABLE_ENTRIES }
        ensures mine { BelongsTo P.may monitor.now self.new }
        ensures quiet { StaysQuiet self.old self.new }
        ensures closed { ClosesRow P.may monitor.now self.old gref result self.new }
        ensures counted { IsInvalidOrInUse self.new gref.0 result }
    {
        self.withdraw_often(monitor, gref);
        self.look(monitor, gref)
    }

    /// Withdraws each valid entry of the domain, and returns the number of entries still in use. An entry is in use if
    /// it has pins. It is also in use if it is still valid, since each of the 64 tries to withdraw it was missed: other
    /// domains took or released pins in between. A withdrawn entry gets no more pins. Those that it has go when their
    /// holders unmap, and [`Domain::status`] shows them. The domain's own mappings and pins stay. It does not allocate
    /// or wait.
    pub fn close<P: Allows>(&mut self, monitor: &Monitor<P>) -> usize
        requires mine { BelongsTo P.may monitor.now self.old }
        ensures mine { BelongsTo P.may monitor.now self.new }
        ensures quiet { StaysQuiet self.old self.new }
        ensures closes { Closes P.may monitor.now self.old result self.new }
    {
        let mut left = 0;
        'entries: for at in 0..self.own.len() {
            if is_in_use(self.close_row(monitor, GrantRef(at as u32))) {
                left += 1;
            }
        }
        left
    }

    /// Releases each of the domain's mappings, and then closes its table as [`Domain::close`] does, for the next guest
    /// in its place. Returns the number of entries still in use. The domain's records stay, and so do its table's
    /// version and size and the generation of each entry.
    pub fn reset<P: Allows>(&mut self, monitor: &Monitor<P>) -> usize
        requires mine { BelongsTo P.may monitor.now self.old }
        ensures mine { BelongsTo P.may monitor.now self.new }
        ensures resets { Resets P.may monitor.now self.old result self.new }
    {
        self.release_all(monitor);
        self.close(monitor)
    }

    /// Returns one of the domain's entries as the domain last changed it: `Invalid` if it has none of this reference. It
    /// makes no look, so it has no pins: a withdrawn entry is `Invalid` at once.
    pub fn entry_at(&self, gref: GrantRef) -> Entry
        ensures { result ≡ own_entry_at self.now gref }
    {
        match self.own.get(gref.0 as usize).copied() {
            Some(row) => row.entry(),
            None => Entry::Invalid,
        }
    }

    /// Looks at one of the domain's entries: its kind, generation and pins of each kind, the domain's own pins
    /// included. Returns `None` if the table has no such entry. A withdrawn entry shows the pins that are left.
    pub fn status<P: Allows>(&mut self, monitor: &Monitor<P>, gref: GrantRef) -> Option<Control>
        requires mine { BelongsTo P.may monitor.now self.old }
        ensures stays { StaysIn P.may monitor.now self.old self.new }
        ensures looks { LooksAtOwn (words_of monitor.now).layout self.old gref result self.new }
    {
        if gref.0 >= self.seat.header().entries() {
            return None;
        }
        Some(Control::unpack(self.look(monitor, gref)))
    }
}
