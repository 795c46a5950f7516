//! The calls that change a control word, with domains given by their positions. Each makes one step of the table, and
//! its contract names the step.
ghost use Rattle.std.specs.Prelude.{◌≡◌, ◌<◌, true, MatchResult};
ghost use Rattle.gt_model.specs.Entries.{IsEntry};
ghost use Rattle.gt_words.specs.Answers.{Changes, Demotes, MissesBusy, MissesChange, MissesPin, Pins, Publishes, Revokes};
ghost use Rattle.gt_words.specs.Answers.{Unpins, UnpinsTo};
ghost use Rattle.gt_words.specs.Conditions.{CanDemote, CanPin, CanPublish, CanRevoke, CanTurn, CanWithdraw};
ghost use Rattle.gt_words.specs.Conditions.{CountsPins, Holds};
ghost use Rattle.gt_word_history.specs.Controls.{IsTurnable, generation_of, turned_word, withdrawn_word};
ghost use Rattle.gt_word_history.specs.Places.{IsInside, IsSamePlace};

use gt_entry::{Control, Entry, EntryChange, pin_unit};
use gt_shared_table::{SharedTable, TableSeat};
use gt_types::{Dir, LAST_GENERATION};
use gt_word_history::{EntryAt, Purpose, idle_word};

/// Takes a pin if the control word still is `looked`. Otherwise returns the word found.
pub(crate) fn pin(
    words: &SharedTable,
    seat: &mut TableSeat,
    at: EntryAt,
    looked: u64,
    dir: Dir,
) -> Result<(), u64>
    requires mine { seat.old.table ≡ words.now.table }
    requires entry { IsInside words.now.layout at }
    requires can { CanPin words.now.layout at.position at.gref dir looked seat.old.view }
    ensures seat { IsSamePlace seat.old seat.new }
    ensures step { MatchResult result
        (λ _. Pins words.now.layout at.position at.gref dir looked seat.old.view seat.new.view)
        (λ n. MissesPin words.now.layout at.position at.gref dir looked n seat.old.view seat.new.view) }
    ensures counted { CountsPins words.now.layout at.position at.gref dir }
{
    let new = looked + pin_unit(dir);
    let purpose = Purpose::Pin(dir);
    let found = words.exchange(seat, at, looked, new, purpose);
    if found == looked { Ok(()) } else { Err(found) }
}

/// Releases a pin, and returns the control word that this left.
pub(crate) fn unpin(
    words: &SharedTable,
    seat: &mut TableSeat,
    at: EntryAt,
    dir: Dir,
    generation: u64,
) -> u64
    requires mine { seat.old.table ≡ words.now.table }
    requires entry { IsInside words.now.layout at }
    requires held { Holds at.position at.gref dir generation seat.old.view }
    ensures seat { IsSamePlace seat.old seat.new }
    ensures step { Unpins words.now.layout at.position at.gref dir generation seat.old.view seat.new.view }
    ensures left { UnpinsTo words.now.layout at.position at.gref dir generation result seat.old.view seat.new.view }
{
    let found = words.subtract_pin(seat, at, dir, generation);
    found - pin_unit(dir)
}

/// Publishes an entry whose body words the owner has stored, if the invalid entry has no pins. Otherwise returns the
/// word found.
pub(crate) fn grant(
    words: &SharedTable,
    seat: &mut TableSeat,
    at: EntryAt,
    word: u64,
    entry: Entry,
) -> Result<(), u64>
    requires mine { (seat.old.table ≡ words.now.table) × (seat.old.view.position ≡ at.position) }
    requires entry { IsInside words.now.layout at }
    requires given { IsEntry entry }
    requires can { CanPublish entry at.gref word seat.old.view }
    ensures seat { IsSamePlace seat.old seat.new }
    ensures step { MatchResult result
        (λ _. Publishes words.now.layout at.gref entry word seat.old.view seat.new.view)
        (λ n. MissesBusy words.now.layout at.gref (EntryChange.Publish entry) word n seat.old.view seat.new.view) }
{
    let new = idle_word(entry, Control::unpack(word).generation + 1);
    let purpose = Purpose::Change(EntryChange::Publish(entry));
    let found = words.exchange(seat, at, word, new, purpose);
    if found == word { Ok(()) } else { Err(found) }
}

/// Makes the owner's entry invalid if it has no pins. Otherwise returns the word found.
pub(crate) fn revoke(
    words: &SharedTable,
    seat: &mut TableSeat,
    at: EntryAt,
    word: u64,
) -> Result<(), u64>
    requires mine { (seat.old.table ≡ words.now.table) × (seat.old.view.position ≡ at.position) }
    requires entry { IsInside words.now.layout at }
    requires can { CanRevoke at.gref word seat.old.view }
    ensures seat { IsSamePlace seat.old seat.new }
    ensures step { MatchResult result
        (λ _. Revokes words.now.layout at.gref word seat.old.view seat.new.view)
        (λ n. MissesBusy words.now.layout at.gref EntryChange.Revoke word n seat.old.view seat.new.view) }
{
    let new = idle_word(Entry::Invalid, Control::unpack(word).generation);
    let purpose = Purpose::Change(EntryChange::Revoke);
    let found = words.exchange(seat, at, word, new, purpose);
    if found == word { Ok(()) } else { Err(found) }
}

/// Makes the owner's entry invalid and leaves its pins, if its word still is `word`. Otherwise returns the word found.
pub(crate) fn withdraw(
    words: &SharedTable,
    seat: &mut TableSeat,
    at: EntryAt,
    word: u64,
) -> Result<(), u64>
    requires mine { (seat.old.table ≡ words.now.table) × (seat.old.view.position ≡ at.position) }
    requires entry { IsInside words.now.layout at }
    requires can { CanWithdraw at.gref word seat.old.view }
    ensures seat { IsSamePlace seat.old seat.new }
    ensures step { MatchResult result
        (λ _. Changes words.now.layout at.gref EntryChange.Withdraw word seat.old.view seat.new.view)
        (λ n. MissesChange words.now.layout at.gref EntryChange.Withdraw word n seat.old.view seat.new.view) }
{
    let new = withdrawn(word);
    let purpose = Purpose::Change(EntryChange::Withdraw);
    let found = words.exchange(seat, at, word, new, purpose);
    if found == word { Ok(()) } else { Err(found) }
}

/// Makes the owner's entry read-only if its word, which has no write pins, still is `word`. Otherwise returns the word
/// found.
pub(crate) fn demote(
    words: &SharedTable,
    seat: &mut TableSeat,
    at: EntryAt,
    word: u64,
) -> Result<(), u64>
    requires mine { (seat.old.table ≡ words.now.table) × (seat.old.view.position ≡ at.position) }
    requires entry { IsInside words.now.layout at }
    requires can { CanDemote at.gref word seat.old.view }
    ensures seat { IsSamePlace seat.old seat.new }
    ensures step { MatchResult result
        (λ _. Demotes words.now.layout at.gref word seat.old.view seat.new.view)
        (λ n. MissesChange words.now.layout at.gref EntryChange.Demote word n seat.old.view seat.new.view) }
{
    let new = turned_over(word, true);
    let purpose = Purpose::Change(EntryChange::Demote);
    let found = words.exchange(seat, at, word, new, purpose);
    if found == word { Ok(()) } else { Err(found) }
}

/// Makes the owner's entry writable if its word still is `word`. Otherwise returns the word found.
pub(crate) fn promote(
    words: &SharedTable,
    seat: &mut TableSeat,
    at: EntryAt,
    word: u64,
) -> Result<(), u64>
    requires mine { (seat.old.table ≡ words.now.table) × (seat.old.view.position ≡ at.position) }
    requires entry { IsInside words.now.layout at }
    requires can { CanTurn true at.gref word seat.old.view }
    ensures seat { IsSamePlace seat.old seat.new }
    ensures step { MatchResult result
        (λ _. Changes words.now.layout at.gref EntryChange.Promote word seat.old.view seat.new.view)
        (λ n. MissesChange words.now.layout at.gref EntryChange.Promote word n seat.old.view seat.new.view) }
{
    let new = turned_over(word, false);
    let purpose = Purpose::Change(EntryChange::Promote);
    let found = words.exchange(seat, at, word, new, purpose);
    if found == word { Ok(()) } else { Err(found) }
}

// Makes a word invalid, with the same generation and pins.
fn withdrawn(word: u64) -> u64
    ensures { result ≡ withdrawn_word word }
{
    let control = Control::unpack(word);
    Control::of_entry(
        Entry::Invalid,
        control.generation,
        control.reads,
        control.writes,
    )
    .pack()
}

// Makes a word read-only or writable, at the next generation.
fn turned_over(word: u64, readonly: bool) -> u64
    requires { (generation_of word < LAST_GENERATION) × IsTurnable readonly word }
    ensures { result ≡ turned_word readonly word }
{
    let control = Control::unpack(word);
    let next = Control {
        ro: readonly,
        generation: control.generation + 1,
        ..control
    };
    next.pack()
}
