//! An owner, which knows its own entries from its own calls.
ghost use Rattle.std.specs.Prelude.{◌≡◌, ◌≢◌, ◌+◌, ◌<◌, ℕ};
ghost use Rattle.gt_model.specs.Spelling.{IsSpelled};
ghost use Rattle.gt_word_history.specs.Views.{last_of, own_body};
ghost use Rattle.gt_words.specs.Conditions.{HasDomain, IsSeatOf, IsSameSeat};
ghost use Rattle.bench.specs.Mapping.{Owns, OwnsStill};

use gt_entry::{BodyWord, Control, Entry};
use gt_types::{DomId, GrantRef, LAST_GENERATION, TABLE_ENTRIES};
use gt_words::{Seat, Words};

/// The owner's knowledge of one of its entries.
#[derive(Clone, Copy)]
pub struct Row {
    pub entry: Entry,
    pub generation: u32,
}

// Stores the body of an entry that is to be published: the second word only of a sub-page.
#[inline(always)]
fn store_body(words: &Words, seat: &mut Seat, gref: GrantRef, entry: Entry)
    requires seat { IsSeatOf words.now seat.old }
    requires reference { gref.0 < TABLE_ENTRIES }
    requires invalid { (last_of gref.0 seat.old.view).entry ≡ Entry.Invalid }
    ensures seat { IsSameSeat seat.old seat.new }
    ensures spelled { IsSpelled entry (own_body gref.0 BodyWord.First seat.new.view)
        (own_body gref.0 BodyWord.Second seat.new.view) }
    ensures row { last_of gref.0 seat.new.view ≡ last_of gref.0 seat.old.view }
    ensures others { (r : ℕ) → gref.0 ≢ r → last_of r seat.new.view ≡ last_of r seat.old.view }
{
    words.store_body(seat, gref, BodyWord::First, entry.first_body());
    if let Entry::Sub { .. } = entry {
        words.store_body(seat, gref, BodyWord::Second, entry.second_body());
    }
}

/// Publishes an entry instead of the invalid one. Returns whether it did: not if the old one is not invalid, or worn.
pub(crate) fn publish(
    words: &Words,
    seat: &mut Seat,
    gref: GrantRef,
    row: &mut Row,
    entry: Entry,
) -> bool
    requires owner { Owns words.now seat.old gref row.old }
    requires given { entry ≢ Entry.Invalid }
    ensures owner { OwnsStill seat.old seat.new gref row.new }
    ensures others { (r : ℕ) → gref.0 ≢ r → last_of r seat.new.view ≡ last_of r seat.old.view }
{
    if !row.entry.is_invalid() || row.generation >= LAST_GENERATION {
        return false;
    }
    store_body(words, seat, gref, entry);
    let word = Control::of_entry(Entry::Invalid, row.generation, 0, 0).pack();
    if words.grant(seat, gref, word, entry).is_err() {
        return false;
    }
    row.entry = entry;
    row.generation += 1;
    true
}

/// Revokes the entry. Returns whether it did: not if it has pins, or is invalid.
pub(crate) fn revoke(words: &Words, seat: &mut Seat, gref: GrantRef, row: &mut Row) -> bool
    requires owner { Owns words.now seat.old gref row.old }
    ensures owner { OwnsStill seat.old seat.new gref row.new }
{
    if row.entry.is_invalid() || row.generation > LAST_GENERATION {
        return false;
    }
    let word = Control::of_entry(row.entry, row.generation, 0, 0).pack();
    if words.revoke(seat, gref, word).is_err() {
        return false;
    }
    row.entry = Entry::Invalid;
    true
}

/// Withdraws the entry by one exchange from the word that it finds. Returns whether it did: not if it is invalid, or if
/// pins came or went in between.
pub(crate) fn withdraw(
    words: &Words,
    seat: &mut Seat,
    owner: DomId,
    gref: GrantRef,
    row: &mut Row,
) -> bool
    requires owner { Owns words.now seat.old gref row.old }
    requires own { (owner ≡ seat.old.dom) × HasDomain words.now.layout owner }
    ensures owner { OwnsStill seat.old seat.new gref row.new }
{
    if row.entry.is_invalid() {
        return false;
    }
    let word = words.load_control(seat, owner, gref);
    if words.withdraw(seat, gref, word).is_err() {
        return false;
    }
    row.entry = Entry::Invalid;
    true
}

/// Returns a writable page entry for the domain.
pub(crate) fn page(dom: DomId) -> Entry
    ensures { result ≢ Entry.Invalid }
{
    Entry::Page {
        dom,
        ro: false,
        frame: 5,
    }
}

/// Revokes the entry and grants it to the domain again, this number of times, each time with as many tries as it takes.
/// Returns how often: fewer times if the entry is worn.
pub(crate) fn revoke_and_grant(
    words: &Words,
    mut seat: Seat,
    gref: GrantRef,
    mut row: Row,
    named: DomId,
    rounds: u32,
) -> u32
    requires owner { Owns words.now seat gref row }
{
    let mut done = 0;
    for _ in 0..u64::MAX {
        if done >= rounds || row.generation >= LAST_GENERATION {
            break;
        }
        if revoke(words, &mut seat, gref, &mut row) {
            publish(words, &mut seat, gref, &mut row, page(named));
            done += 1;
        }
    }
    done
}

/// Withdraws the entry, and grants it to the domain again once it has no pin, this number of times, each time with as
/// many tries as it takes. Returns how often: fewer times if the entry is worn.
pub(crate) fn withdraw_and_grant(
    words: &Words,
    mut seat: Seat,
    owner: DomId,
    gref: GrantRef,
    mut row: Row,
    named: DomId,
    rounds: u32,
) -> u32
    requires owner { Owns words.now seat gref row }
    requires own { (owner ≡ seat.dom) × HasDomain words.now.layout owner }
{
    let mut done = 0;
    for _ in 0..u64::MAX {
        if done >= rounds || row.generation >= LAST_GENERATION {
            break;
        }
        if !row.entry.is_invalid() {
            withdraw(words, &mut seat, owner, gref, &mut row);
        } else if publish(words, &mut seat, gref, &mut row, page(named)) {
            done += 1;
        }
    }
    done
}
