//! A small caller, which meets each call's conditions by what the calls before ensured.
ghost use Rattle.std.specs.Prelude.{◌≡◌, ◌≢◌, ◌+◌, ◌<◌, [], ◌∷◌, length, IfOk, IfSome, MatchResult};
ghost use Rattle.gt_word_history.specs.Views.{last_of, last_seen, record_seen};
ghost use Rattle.gt_word_history.specs.Rule.{layout_of};
ghost use Rattle.test_words.specs.Pinned.{IsPinned};
ghost use Rattle.test_words.specs.Rows.{HasRow, HasRowStill, IsOnlyEntry};
ghost use Rattle.gt_words.specs.Conditions.{KeepsPins, IsSeatOf, IsSameSeat, HasLooked, HasDomain, IsEntryOf};
ghost use Rattle.gt_words.specs.Conditions.{position_at};

use gt_entry::{BodyWord, Control, Entry, EntryKind};
use gt_types::{
    Config, Dir, DomId, DomainConfig, GrantRef, LAST_GENERATION, MAX_PINS, Range, StartFault,
    TABLE_ENTRIES, TypeId, Use,
};
use gt_words::{Pin, Seat, Words};
use std::alloc::{AllocError, Global};
use std::process::Abort;

/// The entry that the owner uses.
pub(crate) const ENTRY: GrantRef = GrantRef(0);

/// The owner's knowledge of it.
#[derive(Drop)]
pub(crate) struct Row {
    pub entry: Entry,
    pub generation: u32,
}

/// Its knowledge at the start.
pub(crate) const UNUSED: Row = Row {
    entry: Entry::Invalid,
    generation: 0,
};

/// A control word and the entry that was read since.
#[derive(Drop)]
pub(crate) struct Sight {
    pub word: u64,
    pub entry: Entry,
}

// Looks at an entry and reads its body words.
pub(crate) fn look(words: &Words, seat: &mut Seat, dom: DomId, gref: GrantRef) -> Sight
    requires seat { IsSeatOf words.now seat.old }
    requires entry { IsEntryOf words.now dom gref }
    ensures seat { IsSameSeat seat.old seat.new }
    ensures looked { HasLooked (position_at words.now dom) gref.0 seat.new.view result.word }
    ensures entry { (record_seen (last_seen (position_at words.now dom) gref.0 seat.new.view)).entry ≡ result.entry }
    ensures pins { KeepsPins seat.old.view seat.new.view }
{
    let word = words.load_control(seat, dom, gref);
    let first = words.load_body(seat, dom, gref, BodyWord::First);
    let second = words.load_body(seat, dom, gref, BodyWord::Second);
    let entry = Entry::spelled(Control::unpack(word), first, second);
    Sight { word, entry }
}

// Takes a pin of the entry that was looked at, if it permits or forwards the seat's domain and has room.
pub(crate) fn try_pin(
    words: &Words,
    seat: &mut Seat,
    dom: DomId,
    gref: GrantRef,
    sight: &Sight,
    dir: Dir,
) -> Option<Result<Pin, u64>>
    requires seat { IsSeatOf words.now seat.old }
    requires entry { IsEntryOf words.now dom gref }
    requires looked { HasLooked (position_at words.now dom) gref.0 seat.old.view sight.now.word }
    requires seen { (record_seen (last_seen (position_at words.now dom) gref.0 seat.old.view)).entry ≡ sight.now.entry }
    ensures seat { IsSameSeat seat.old seat.new }
    ensures pin { IfSome result (λ r. MatchResult r
        (λ p. IsPinned words.now dom gref dir p seat.old.view seat.new.view)
        (λ n. n ≢ sight.now.word)) }
{
    let control = Control::unpack(sight.word);
    let range = Range { off: 0, len: 0 };
    let mine = seat.dom();
    if control.kind == EntryKind::Invalid || control.pins(dir) >= MAX_PINS {
        return None;
    }
    if sight.entry.permits(mine, dir, Use::Copy, range) {
        return Some(words.pin(seat, dom, gref, sight.word, dir));
    }
    if sight.entry.forwards(mine, dir) {
        return Some(words.pin(seat, dom, gref, sight.word, dir));
    }
    None
}

// Publishes an entry of the owner instead of the invalid one. Returns 0 as the error if its entry is not invalid, or
// worn.
pub(crate) fn publish(
    words: &Words,
    seat: &mut Seat,
    row: &mut Row,
    entry: Entry,
) -> Result<(), u64>
    requires owner { HasRow words.now seat.old row.old.generation row.old.entry }
    requires given { entry ≢ Entry.Invalid }
    ensures owner { HasRowStill seat.old seat.new row.new.generation row.new.entry }
{
    if !row.entry.is_invalid() || row.generation >= LAST_GENERATION {
        return Err(0);
    }
    words.store_body(seat, ENTRY, BodyWord::First, entry.first_body());
    words.store_body(seat, ENTRY, BodyWord::Second, entry.second_body());
    let word = Control::of_entry(Entry::Invalid, row.generation, 0, 0).pack();
    words.grant(seat, ENTRY, word, entry)?;
    row.entry = entry;
    row.generation += 1;
    Ok(())
}

// Revokes the owner's entry, if it has no pins. Returns Ok if it is already invalid.
pub(crate) fn revoke(words: &Words, seat: &mut Seat, row: &mut Row) -> Result<(), u64>
    requires owner { HasRow words.now seat.old row.old.generation row.old.entry }
    ensures owner { HasRowStill seat.old seat.new row.new.generation row.new.entry }
{
    if row.entry.is_invalid() || row.generation > LAST_GENERATION {
        return Ok(());
    }
    let word = Control::of_entry(row.entry, row.generation, 0, 0).pack();
    words.revoke(seat, ENTRY, word)?;
    row.entry = Entry::Invalid;
    Ok(())
}

// Withdraws the owner's entry with the pins that it has. Returns Ok if it is already invalid.
pub(crate) fn withdraw(words: &Words, seat: &mut Seat, row: &mut Row) -> Result<(), u64>
    requires owner { HasRow words.now seat.old row.old.generation row.old.entry }
    requires entry { HasDomain words.now.layout seat.old.dom }
    ensures owner { HasRowStill seat.old seat.new row.new.generation row.new.entry }
{
    if row.entry.is_invalid() {
        return Ok(());
    }
    let owner = seat.dom();
    let word = words.load_control(seat, owner, ENTRY);
    words.withdraw(seat, ENTRY, word)?;
    row.entry = Entry::Invalid;
    Ok(())
}

// Makes the owner's entry read-only or writable, if it is the other and has no write pin that it must not have.
pub(crate) fn turn(words: &Words, seat: &mut Seat, row: &mut Row, ro: bool) -> Result<bool, u64>
    requires owner { HasRow words.now seat.old row.old.generation row.old.entry }
    requires entry { HasDomain words.now.layout seat.old.dom }
    ensures owner { HasRowStill seat.old seat.new row.new.generation row.new.entry }
{
    let owner = seat.dom();
    let word = words.load_control(seat, owner, ENTRY);
    let control = Control::unpack(word);
    let turnable = !row.entry.is_invalid() && row.entry.is_read_only() != ro;
    if !turnable
        || row.generation >= LAST_GENERATION
        || control.generation >= LAST_GENERATION
        || control.writes > 0
    {
        return Ok(false);
    }
    if ro {
        words.demote(seat, ENTRY, word)?;
    } else {
        words.promote(seat, ENTRY, word)?;
    }
    row.entry = row.entry.with_ro(ro);
    row.generation += 1;
    Ok(true)
}

// Pins the entry for the other domain and releases the pin, while the owner tries to revoke the entry in between.
// Returns the owner's answer, or nothing if the pin was not taken.
pub(crate) fn revoke_pinned(
    words: &Words,
    owner: &mut Seat,
    other: &mut Seat,
    row: &mut Row,
    dir: Dir,
) -> Option<Result<(), u64>>
    requires owner { IsSeatOf words.now owner.old }
    requires other { IsSeatOf words.now other.old }
    requires entry { IsEntryOf words.now owner.old.dom ENTRY }
    requires row { IsOnlyEntry row.old.generation row.old.entry owner.old.view }
    ensures owner { HasRowStill owner.old owner.new row.new.generation row.new.entry }
    ensures other { IsSameSeat other.old other.new }
{
    let dom = owner.dom();
    let sight = look(words, other, dom, ENTRY);
    let Some(Ok(pin)) = try_pin(words, other, dom, ENTRY, &sight, dir) else {
        return None;
    };
    let answer = revoke(words, owner, row);
    words.unpin(other, pin);
    Some(answer)
}

// Withdraws the owner's entry, and grants this one instead. Returns the word in between, and the answer of the grant.
fn withdraw_and_grant(
    words: &Words,
    owner: &mut Seat,
    row: &mut Row,
    entry: Entry,
) -> (u64, Result<(), u64>)
    requires owner { IsSeatOf words.now owner.old }
    requires entry { IsEntryOf words.now owner.old.dom ENTRY }
    requires row { IsOnlyEntry row.old.generation row.old.entry owner.old.view }
    requires given { entry ≢ Entry.Invalid }
    ensures owner { HasRowStill owner.old owner.new row.new.generation row.new.entry }
{
    let dom = owner.dom();
    let _ = withdraw(words, owner, row);
    let word = words.load_control(owner, dom, ENTRY);
    let early = publish(words, owner, row, entry);
    (word, early)
}

// Pins the entry for writing by the other domain, withdraws it, and grants this one instead before and after the pin is
// released. Returns the word in between, and the answers of both grants, or nothing if the pin was not taken.
pub(crate) fn withdraw_pinned(
    words: &Words,
    owner: &mut Seat,
    other: &mut Seat,
    row: &mut Row,
    entry: Entry,
) -> Option<(u64, Result<(), u64>, Result<(), u64>)>
    requires owner { IsSeatOf words.now owner.old }
    requires other { IsSeatOf words.now other.old }
    requires entry { IsEntryOf words.now owner.old.dom ENTRY }
    requires row { IsOnlyEntry row.old.generation row.old.entry owner.old.view }
    requires given { entry ≢ Entry.Invalid }
    ensures owner { HasRowStill owner.old owner.new row.new.generation row.new.entry }
    ensures other { IsSameSeat other.old other.new }
{
    let dom = owner.dom();
    let sight = look(words, other, dom, ENTRY);
    let Some(Ok(pin)) = try_pin(words, other, dom, ENTRY, &sight, Dir::Write) else {
        return None;
    };
    let (word, early) = withdraw_and_grant(words, owner, row, entry);
    words.unpin(other, pin);
    let late = publish(words, owner, row, entry);
    Some((word, early, late))
}

// Takes a read pin of the entry that was looked at, if possible.
fn pin_to_read(
    words: &Words,
    seat: &mut Seat,
    dom: DomId,
    gref: GrantRef,
    sight: &Sight,
) -> Option<Pin>
    requires seat { IsSeatOf words.now seat.old }
    requires entry { IsEntryOf words.now dom gref }
    requires looked { HasLooked (position_at words.now dom) gref.0 seat.old.view sight.now.word }
    requires seen { (record_seen (last_seen (position_at words.now dom) gref.0 seat.old.view)).entry ≡ sight.now.entry }
    ensures seat { IsSameSeat seat.old seat.new }
    ensures pin { IfSome result (λ p. IsPinned words.now dom gref Dir.Read p seat.old.view seat.new.view) }
{
    match try_pin(words, seat, dom, gref, sight, Dir::Read) {
        Some(Ok(pin)) => Some(pin),
        _ => None,
    }
}

// Pins the entry twice for reading by the other domain, and releases one pin and then the other. Returns the control
// words that the owner saw with both pins, with one and with none, or nothing if one was not taken.
pub(crate) fn pin_twice(
    words: &Words,
    owner: &mut Seat,
    other: &mut Seat,
    dom: DomId,
    gref: GrantRef,
) -> Option<(u64, u64, u64)>
    requires owner { IsSeatOf words.now owner.old }
    requires other { IsSeatOf words.now other.old }
    requires entry { IsEntryOf words.now dom gref }
    ensures owner { IsSameSeat owner.old owner.new }
    ensures other { IsSameSeat other.old other.new }
{
    let sight = look(words, other, dom, gref);
    let Some(first) = pin_to_read(words, other, dom, gref, &sight) else {
        return None;
    };
    let sight = look(words, other, dom, gref);
    let Some(second) = pin_to_read(words, other, dom, gref, &sight) else {
        return None;
    };
    let both = words.load_control(owner, dom, gref);
    words.unpin(other, first);
    let one = words.load_control(owner, dom, gref);
    words.unpin(other, second);
    let none = words.load_control(owner, dom, gref);
    Some((both, one, none))
}

// Grants a page and revokes it again, this number of times.
pub(crate) fn toggle(words: &Words, mut seat: Seat, mut row: Row, times: u32) -> (Seat, Row)
    requires owner { HasRow words.now seat row.generation row.entry }
    ensures owner { HasRow words.now result.0 result.1.generation result.1.entry }
{
    for _ in 0..times {
        let _ = publish(words, &mut seat, &mut row, page(5));
        let _ = revoke(words, &mut seat, &mut row);
    }
    (seat, row)
}

// Looks at an entry, pins it and releases the pin, this number of times.
pub(crate) fn churn(words: &Words, mut seat: Seat, dom: DomId, gref: GrantRef, times: u32)
    requires seat { IsSeatOf words.now seat }
    requires entry { IsEntryOf words.now dom gref }
{
    for _ in 0..times {
        let sight = look(words, &mut seat, dom, gref);
        if let Some(Ok(pin)) = try_pin(words, &mut seat, dom, gref, &sight, Dir::Read) {
            words.unpin(&mut seat, pin);
        }
    }
}

pub(crate) fn page(frame: u64) -> Entry
    ensures { result ≢ Entry.Invalid }
{
    Entry::Page {
        dom: DomId(2),
        ro: false,
        frame,
    }
}

fn domain(id: u16) -> DomainConfig
    ensures { (result.id ≡ record { 0 = id }) × (result.version ≡ 1) }
{
    DomainConfig {
        id: DomId(id),
        label: TypeId(0),
        frames: 8,
        table_frames: 1,
        version: 1,
    }
}

// Returns a configuration of the domains 1 and 2, each with a table of one frame in version 1.
fn two_domains(alloc: Global) -> Result<Config, AllocError>
    ensures ids { IfOk result (λ c. (layout_of c).ids ≡ record { 0 = 1 } ∷ record { 0 = 2 } ∷ []) }
    ensures first { IfOk result (λ c. c.first_gen ≡ 0) }
{
    let mut domains = Vec::new(alloc);
    domains.push(domain(1))?;
    domains.push(domain(2))?;
    Ok(Config {
        domains,
        first_gen: 0,
    })
}

// Makes the words of domains 1 and 2, and their seats.
pub(crate) fn start(alloc: Global) -> Result<(Words, Seat, Seat), StartFault>
    ensures domain { IfOk result (λ r. HasDomain r.0.layout (record { 0 = 1 })) }
    ensures second { IfOk result (λ r. HasDomain r.0.layout (record { 0 = 2 })) }
    ensures owner { IfOk result (λ r. IsSeatOf r.0 r.1
        × (last_of 0 r.1.view ≡ record { generation = 0; entry = Entry.Invalid })) }
    ensures other { IfOk result (λ r. IsSeatOf r.0 r.2) }
{
    let Ok(config) = two_domains(alloc) else {
        return Err(StartFault::Memory);
    };
    let (words, mut seats) = Words::new(alloc, &config)?;
    let other = seats.remove(1);
    let owner = seats.remove(0);
    Ok((words, owner, other))
}

// Makes the same, where domain 1 has granted a page to domain 2 by its first entry.
pub(crate) fn start_with_page(
    rt: &impl Abort,
    alloc: Global,
) -> Result<(Words, Seat, Seat, Row), StartFault>
    ensures domain { IfOk result (λ r. HasDomain r.0.layout (record { 0 = 1 })) }
    ensures own { IfOk result (λ r. r.1.dom ≡ record { 0 = 1 }) }
    ensures owner { IfOk result (λ r. IsSeatOf r.0 r.1
        × (last_of 0 r.1.view ≡ record { generation = r.3.generation; entry = r.3.entry })) }
    ensures other { IfOk result (λ r. IsSeatOf r.0 r.2) }
{
    let (words, mut owner, other) = start(alloc)?;
    assert_eq!(rt; owner.dom(), DomId(1));
    let mut row = UNUSED;
    let _ = publish(&words, &mut owner, &mut row, page(5));
    Ok((words, owner, other, row))
}
