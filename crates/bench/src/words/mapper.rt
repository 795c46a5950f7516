//! A domain that maps another's entry and unmaps it.
ghost use Rattle.std.specs.Prelude.{◌≡◌, ◌≢◌, IfSome};
ghost use Rattle.gt_word_history.specs.Controls.{IsValid, generation_of};
ghost use Rattle.gt_word_history.specs.Views.{last_seen, record_seen};
ghost use Rattle.gt_word_history.specs.Rule.{position_in};
ghost use Rattle.gt_words.specs.Conditions.{HasLooked, Holds, IsEntryOf, IsSameSeat, IsSeatOf, KeepsPins};
ghost use Rattle.bench.specs.Mapping.{CanMap, MayMap, KeepsPinsBeyond};

use gt_entry::{BodyWord, Control, Entry, EntryKind, Header};
use gt_types::{Dir, DomId, GrantRef, MAX_PINS, Range, TABLE_ENTRIES, Use};
use gt_words::{Pin, Seat, Words};

/// An entry to be mapped, and the domain to which it is granted: the mapper's own, or one whose transitive entry to it
/// the mapper keeps pinned.
#[derive(Clone, Copy)]
pub struct Target {
    pub granter: DomId,
    pub gref: GrantRef,
    pub named: DomId,
}

/// A domain that maps.
#[derive(Drop)]
pub struct Mapper {
    pub seat: Seat,
    pub target: Target,
}

// A control word and the entry that was read since.
#[derive(Clone, Copy)]
struct Sight {
    word: u64,
    entry: Entry,
}

// Looks at an entry and reads its body: the second word only of a sub-page.
#[inline(always)]
fn look(words: &Words, seat: &mut Seat, dom: DomId, gref: GrantRef) -> Sight
    requires seat { IsSeatOf words.now seat.old }
    requires entry { IsEntryOf words.now dom gref }
    ensures seat { IsSameSeat seat.old seat.new }
    ensures looked { HasLooked (position_in words.now.layout.ids dom) gref.0 seat.new.view result.word }
    ensures entry { (record_seen (last_seen (position_in words.now.layout.ids dom) gref.0 seat.new.view)).entry
        ≡ result.entry }
    ensures pins { KeepsPins seat.old.view seat.new.view }
{
    let word = words.load_control(seat, dom, gref);
    let control = Control::unpack(word);
    let first = words.load_body(seat, dom, gref, BodyWord::First);
    let second = if control.kind == EntryKind::Sub {
        words.load_body(seat, dom, gref, BodyWord::Second)
    } else {
        0
    };
    let entry = Entry::spelled(control, first, second);
    Sight { word, entry }
}

// Looks at an entry and reads its frame, as a map does. Returns None if it is not a page, since nothing else can be
// mapped.
#[inline(always)]
fn look_at_page(words: &Words, seat: &mut Seat, dom: DomId, gref: GrantRef) -> Option<Sight>
    requires seat { IsSeatOf words.now seat.old }
    requires entry { IsEntryOf words.now dom gref }
    ensures seat { IsSameSeat seat.old seat.new }
    ensures looked { IfSome result
        (λ s. HasLooked (position_in words.now.layout.ids dom) gref.0 seat.new.view s.word × IsValid s.word) }
    ensures entry { IfSome result (λ s.
        (record_seen (last_seen (position_in words.now.layout.ids dom) gref.0 seat.new.view)).entry ≡ s.entry) }
    ensures pins { KeepsPins seat.old.view seat.new.view }
{
    let word = words.load_control(seat, dom, gref);
    let control = Control::unpack(word);
    if control.kind != EntryKind::Page {
        return None;
    }
    let frame = words.load_body(seat, dom, gref, BodyWord::First);
    let entry = Entry::spelled(control, frame, 0);
    Some(Sight { word, entry })
}

// Tries once to map the entry, if it is a page of the table and granted to the named domain.
fn map(words: &Words, seat: &mut Seat, target: Target) -> Option<Pin>
    requires seat { IsSeatOf words.now seat.old }
    requires entry { IsEntryOf words.now target.granter target.gref }
    requires may { MayMap words.now target seat.old.view }
    ensures seat { IsSameSeat seat.old seat.new }
    ensures pin { IfSome result (λ p.
        (p ≡ record { dom = target.granter; gref = target.gref; word = p.word; dir = Dir.Read })
        × Holds (position_in words.now.layout.ids target.granter) target.gref.0 Dir.Read (generation_of p.word)
        seat.new.view) }
    ensures others { KeepsPinsBeyond (position_in words.now.layout.ids target.granter) seat.old.view seat.new.view }
{
    let header = Header::unpack(words.load_header(seat, target.granter));
    if target.gref.0 >= header.entries() {
        return None;
    }
    let Some(sight) = look_at_page(words, seat, target.granter, target.gref) else {
        return None;
    };
    let control = Control::unpack(sight.word);
    let nothing = Range { off: 0, len: 0 };
    if control.reads >= MAX_PINS
        || !sight
            .entry
            .permits(target.named, Dir::Read, Use::Map, nothing)
    {
        return None;
    }
    match words.pin(seat, target.granter, target.gref, sight.word, Dir::Read) {
        Ok(pin) => Some(pin),
        Err(_) => None,
    }
}

// Tries once to map the entry and to unmap it again.
fn map_once(words: &Words, seat: &mut Seat, target: Target) -> bool
    requires seat { IsSeatOf words.now seat.old }
    requires entry { IsEntryOf words.now target.granter target.gref }
    requires may { MayMap words.now target seat.old.view }
    ensures seat { IsSameSeat seat.old seat.new }
    ensures may { MayMap words.now target seat.new.view }
{
    let Some(pin) = map(words, seat, target) else {
        return false;
    };
    words.unpin(seat, pin);
    true
}

/// Maps the entry and unmaps it, this number of times, each time with as many tries as it takes. Returns how often.
pub(crate) fn map_and_unmap(words: &Words, mapper: Mapper, rounds: u32) -> u32
    requires seat { IsSeatOf words.now mapper.seat }
    requires entry { IsEntryOf words.now mapper.target.granter mapper.target.gref }
    requires may { MayMap words.now mapper.target mapper.seat.view }
{
    let Mapper { mut seat, target } = mapper;
    let mut done = 0;
    for _ in 0..u64::MAX {
        if done >= rounds {
            break;
        }
        if map_once(words, &mut seat, target) {
            done += 1;
        }
    }
    done
}

/// Makes a mapper of the target that keeps a transitive entry to it pinned: the entry `gref` of the domain that the
/// target names. Returns None if that is not such an entry, or the pin was missed.
pub(crate) fn through_via(
    words: &Words,
    mut seat: Seat,
    gref: GrantRef,
    target: Target,
) -> Option<Mapper>
    requires seat { IsSeatOf words.now seat }
    requires entry { IsEntryOf words.now target.named gref }
    requires target { IsEntryOf words.now target.granter target.gref }
    requires apart { target.named.0 ≢ target.granter.0 }
    ensures { IfSome result (λ m. CanMap words.now m.seat m.target) }
{
    let sight = look(words, &mut seat, target.named, gref);
    let control = Control::unpack(sight.word);
    let Entry::Via { dom2, gref: to, .. } = sight.entry else {
        return None;
    };
    if control.reads >= MAX_PINS
        || dom2.0 != target.granter.0
        || to.0 != target.gref.0
        || !sight.entry.forwards(seat.dom(), Dir::Read)
    {
        return None;
    }
    let Ok(_) = words.pin(&mut seat, target.named, gref, sight.word, Dir::Read) else {
        return None;
    };
    Some(Mapper { seat, target })
}
