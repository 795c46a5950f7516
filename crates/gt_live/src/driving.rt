//! The steps of calls on the words, and a map driven along its path.
ghost use Rattle.std.specs.Prelude.{◌≡◌, None, Some, [], ◌∷◌, MatchResult};
ghost use Rattle.gt_calls.specs.Known.{knows};
ghost use Rattle.gt_model.specs.Rules.{map_begun};
ghost use Rattle.gt_model.specs.Path.{map_leg, path};
ghost use Rattle.gt_words.specs.Conditions.{IsSeatOf, IsSameSeat, position_at};
ghost use Rattle.gt_live.specs.Walks.{Made, Called, ReadsBody};
ghost use Rattle.gt_live.specs.Driving.{CanMake, Knows, Leaves};
ghost use Rattle.gt_live.specs.Legs.{CanWalkLeg, WalksLeg, next_by};
ghost use Rattle.gt_live.specs.Maps.{pin_effect, pin_of, pin_verdict};
ghost use Rattle.gt_model.specs.declared.request.OpenRequest.TheVariants as asks;

use gt_calls::{
    BodyWord, CallerState, HeldPin, Leg, MORE_TRIES, Observation, Step, entry_refusal,
    every_call_goes_on_by_its_phase, has_entry, header_refusal, judge_control, judge_words, pinned,
};
use gt_entry::{Control, EntryChange, EntryKind};
use gt_handles::Handle;
use gt_types::{Allows, Denial, DomId, GrantRef, Rule};
use gt_words::{Pin, Seat, Words};

/// What the last step of a call did besides looking.
#[derive(Clone, Copy)]
pub enum Effect {
    Nothing,
    /// It took this pin.
    Pinned(HeldPin),
    /// It released the pin of the mapping with this handle.
    Unpinned(Handle),
    /// It changed this entry of the caller.
    Changed(GrantRef, EntryChange),
    /// It stored the caller's header.
    Stored,
}

// Converts a pin to the form that the words use.
pub(crate) fn pin_of(held: HeldPin) -> Pin
    ensures { result ≡ pin_of held }
{
    Pin {
        dom: held.dom,
        gref: held.gref,
        word: held.word,
        dir: held.dir,
    }
}

// Each of these two functions looks at one word.
#[inline(always)]
pub(crate) fn look_at_header(words: &Words, seat: &mut Seat, dom: DomId) -> u64
    requires seat { IsSeatOf words.now seat.old }
    requires can { CanMake words.now.layout seat.old.view (Step.LookHeader dom) }
    ensures seat { IsSameSeat seat.old seat.new }
    ensures made { Made words.now.layout (Step.LookHeader dom) (Observation.Word result) seat.old.view seat.new.view }
{
    words.load_header(seat, dom)
}

#[inline(always)]
pub(crate) fn look_at_control(words: &Words, seat: &mut Seat, dom: DomId, gref: GrantRef) -> u64
    requires seat { IsSeatOf words.now seat.old }
    requires can { CanMake words.now.layout seat.old.view (Step.LookControl dom gref) }
    ensures seat { IsSameSeat seat.old seat.new }
    ensures made { Made words.now.layout (Step.LookControl dom gref) (Observation.Word result)
        seat.old.view seat.new.view }
{
    words.load_control(seat, dom, gref)
}

// The body words of a try. The second is 0 unless the entry is a sub-page.
#[derive(Clone, Copy)]
struct BodyWords {
    first: u64,
    second: u64,
}

// Reads the body words of the leg's entry, whose control word is `word`: the second only of a sub-page.
#[inline(always)]
fn look_at_body(words: &Words, seat: &mut Seat, leg: &Leg, word: u64, at: usize) -> BodyWords
    requires seat { IsSeatOf words.now seat.old }
    requires place { at ≡ position_at words.now leg.now.dom }
    requires can { CanMake words.now.layout seat.old.view (Step.LookBody leg.now.dom leg.now.gref BodyWord.First) }
    ensures seat { IsSameSeat seat.old seat.new }
    ensures read { ReadsBody words.now.layout leg.now word result.first result.second seat.old.view seat.new.view }
{
    let first = words.load_body_at(seat, leg.dom, leg.gref, BodyWord::First, at);
    match Control::unpack(word).kind {
        EntryKind::Sub => {
            let second = words.load_body_at(seat, leg.dom, leg.gref, BodyWord::Second, at);
            BodyWords { first, second }
        }
        _ => BodyWords { first, second: 0 },
    }
}

// Takes the pin, if the control word still is the one that was looked at. Otherwise returns the word found.
#[inline(always)]
fn take_pin(words: &Words, seat: &mut Seat, held: &HeldPin, at: usize) -> Result<(), u64>
    requires seat { IsSeatOf words.now seat.old }
    requires place { at ≡ position_at words.now held.now.dom }
    requires can { CanMake words.now.layout seat.old.view (Step.Pin held.now) }
    ensures seat { IsSameSeat seat.old seat.new }
    ensures made { MatchResult result
        (λ _. Made words.now.layout (Step.Pin held.now) Observation.Taken seat.old.view seat.new.view)
        (λ n. Made words.now.layout (Step.Pin held.now) (Observation.Missed n) seat.old.view seat.new.view) }
{
    words.pin_at(seat, pin_of(*held), at)
}

// Walks a leg to its pin, or to its refusal. Its steps are made at the position of its domain, which is found once.
#[inline(always)]
pub(crate) fn walk_leg(words: &Words, seat: &mut Seat, leg: &Leg) -> Result<HeldPin, Denial>
    requires seat { IsSeatOf words.now seat.old }
    requires can { CanWalkLeg words.now.layout leg.now seat.old.view }
    ensures seat { IsSameSeat seat.old seat.new }
    ensures walked { WalksLeg words.now.layout leg.now seat.old.view (next_by result) seat.new.view }
{
    let at = words.position(seat, leg.dom);
    walk_leg_at(words, seat, leg, at)
}

// Walks a leg whose domain has the position `at`. Most calls of a run are maps and copies, so the steps are written out
// here, and not taken from `Call::next`.
#[inline(always)]
fn walk_leg_at(words: &Words, seat: &mut Seat, leg: &Leg, at: usize) -> Result<HeldPin, Denial>
    requires seat { IsSeatOf words.now seat.old }
    requires place { at ≡ position_at words.now leg.now.dom }
    requires can { CanWalkLeg words.now.layout leg.now seat.old.view }
    ensures seat { IsSameSeat seat.old seat.new }
    ensures walked { WalksLeg words.now.layout leg.now seat.old.view (next_by result) seat.new.view }
{
    let header = words.load_header_at(seat, leg.dom, at);
    if !has_entry(leg, header) {
        return Err(header_refusal(leg.dom, header));
    }
    let mut more = MORE_TRIES;
    'tries: loop {
        let word = words.load_control_at(seat, leg.dom, leg.gref, at);
        if let Some(rule) = judge_control(leg, word) {
            return Err(entry_refusal(leg.dom, leg.gref, rule, word));
        }
        let body = look_at_body(words, seat, leg, word, at);
        let held = pinned(leg, word, body.first, body.second);
        let found = match judge_words(leg, word, body.first, body.second) {
            Some(rule) => {
                let found = words.load_control_at(seat, leg.dom, leg.gref, at);
                if found == word {
                    return Err(entry_refusal(leg.dom, leg.gref, rule, word));
                }
                found
            }
            None => match take_pin(words, seat, &held, at) {
                Ok(()) => return Ok(held),
                Err(found) => found,
            },
        };
        if more == 0 {
            return Err(entry_refusal(leg.dom, leg.gref, Rule::N18, found));
        }
        more -= 1;
    }
}

/// What a map names: the owner of the entry, the entry, and the flags.
#[derive(Clone, Copy)]
pub(crate) struct MapArgs {
    pub dom: DomId,
    pub gref: GrantRef,
    pub flags: u32,
}

/// A leg, and the position of its domain.
#[derive(Clone, Copy)]
pub(crate) struct PlacedLeg {
    pub leg: Leg,
    pub at: usize,
}

// Drives a map to its end, by this leg, and returns the pin that it took, or its refusal. Requires that the map is not
// decided at its beginning.
#[inline(always)]
pub(crate) fn drive_map<P: Allows>(
    words: &Words,
    known: &CallerState<'_, P>,
    seat: &mut Seat,
    caller: DomId,
    map: MapArgs,
    placed: &PlacedLeg,
) -> Result<HeldPin, Denial>
    requires seat { IsSeatOf words.now seat.old }
    requires leg { placed.now.leg ≡ map_leg (knows P.may known.now) caller map.dom map.gref map.flags }
    requires place { placed.now.at ≡ position_at words.now placed.now.leg.dom }
    requires unanswered { map_begun (knows P.may known.now) caller map.dom map.flags ≡ None }
    requires knows { Knows (knows P.may known.now) words.now.layout caller seat.old.view }
    ensures seat { IsSameSeat seat.old seat.new }
    ensures called { Called words.now.layout
        (path (knows P.may known.now) caller (asks.Map map.dom map.gref map.flags))
        (pin_verdict result) seat.old.view seat.new.view }
    ensures leaves { Leaves (knows P.may known.now) words.now.layout caller (asks.Map map.dom map.gref map.flags)
        seat.old.view seat.new.view (pin_effect result) }
{
    every_call_goes_on_by_its_phase();
    walk_leg_at(words, seat, &placed.leg, placed.at)
}
