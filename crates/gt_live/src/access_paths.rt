//! A copy walked to its access, with each step made on the words, and the release of its pins.
ghost use Rattle.std.specs.Prelude.{◌≡◌, ℕ, None};
ghost use Rattle.gt_model.specs.declared.held.AccessPath.TheVariants.{Direct, Own};
ghost use Rattle.gt_words.specs.Conditions.{IsSeatOf, IsSameSeat};
ghost use Rattle.gt_word_history.specs.declared.view.View.{View};
ghost use Rattle.gt_calls.specs.declared.copying.PinPurpose.{PinPurpose};
ghost use Rattle.gt_model.specs.Holding.{held_by, last_first};
ghost use Rattle.gt_calls.specs.Machine.{at_dest, at_source, through_via};
ghost use Rattle.gt_model.specs.Rules.{copy_begun};
ghost use Rattle.gt_calls.specs.Known.{knows};
ghost use Rattle.gt_types.specs.Copies.{is_dest_granted};
ghost use Rattle.gt_live.specs.Copies.{CanGiveBack, IsGivenBack, IsLastOf, CopyStopsWith, dest_leg, source_leg};
ghost use Rattle.gt_live.specs.Copies.{after_copy, after_dest, phase_after_source, after_through, filled};
ghost use Rattle.gt_live.specs.Driving.{CanMake, Knows};
ghost use Rattle.gt_live.specs.Phases.{CanRun, Runs};
ghost use Rattle.gt_live.specs.Releasing.{AccessPathLeaves, CopyLeaves, ReleasesTo};
ghost use Rattle.gt_live.specs.Underway.{AreOfRun, GivesBack, HasTaken};
ghost use Rattle.gt_live.specs.Walks.{Made};

use crate::domain::refusal_of;
use crate::driving::{pin_of, walk_leg};
use gt_calls::{
    AccessPath, CallPins, CallerState, CopyArgs, HeldPin, Leg, Observation, PinHolder, Step,
    end_leg, every_call_goes_on_by_its_phase, judge_via, resolve, second_leg,
};
use gt_entry::Entry;
use gt_types::{Allows, Denial, Dir, DomId, GrantRef};
use gt_words::{Seat, Words};

/// The control words that the end of a copy left in the entries that it named, one for each end. For a transitive entry
/// it is the word of that entry, and not of the one that it leads to. 0 for an end that is a frame of the caller.
#[derive(Clone, Copy)]
pub struct CopyWords {
    pub source: u64,
    pub dest: u64,
}

// Releases a pin that a copy took, whatever its index among the copy's pins. Returns the control word that this left.
#[inline(always)]
fn give_pin_back(words: &Words, seat: &mut Seat, held: &HeldPin) -> u64
    requires seat { IsSeatOf words.now seat.old }
    requires can { CanMake words.now.layout seat.old.view (Step.Unpin held.now (PinHolder.Leg 0)) }
    ensures seat { IsSameSeat seat.old seat.new }
    ensures made { (place : ℕ) → Made words.now.layout (Step.Unpin held.now (PinHolder.Leg place)) Observation.Nothing
        seat.old.view seat.new.view }
    ensures left { ReleasesTo words.now.layout held.now result seat.old.view seat.new.view }
{
    words.unpin(seat, pin_of(*held))
}

// Where a Via leads: the two domains between which the policy has to allow the copy, and the entry.
#[derive(Clone, Copy)]
struct BeyondVia {
    pair: (DomId, DomId),
    dom: DomId,
    gref: GrantRef,
}

// Continues from the pin of a Via to the entry that it leads to: checks the rules after that pin, and walks the second
// leg. Releases the pin of the Via if either refuses.
#[inline(always)]
fn go_through<P: Allows>(
    words: &Words,
    known: &CallerState<'_, P>,
    seat: &mut Seat,
    first: &Leg,
    via: &HeldPin,
    to: BeyondVia,
) -> Result<HeldPin, Denial>
    requires seat { IsSeatOf words.now seat.old }
    requires can { (caller : DomId) × (pin_purpose : PinPurpose) × IsLastOf via.now pin_purpose
        × CanRun (knows P.may known.now) words.now.layout caller
        (through_via (knows P.may known.now) pin_purpose first.now to.pair to.dom to.gref) seat.old.view }
    ensures seat { IsSameSeat seat.old seat.new }
    ensures goes { (caller : DomId) (pin_purpose : PinPurpose) → IsLastOf via.now pin_purpose
        → Runs (knows P.may known.now) words.now.layout caller
        (through_via (knows P.may known.now) pin_purpose first.now to.pair to.dom to.gref) seat.old.view
        (after_through (knows P.may known.now) caller pin_purpose first.now to.dom to.gref result) seat.new.view }
{
    if let Some(verdict) = judge_via(known, to.pair, to.dom) {
        give_pin_back(words, seat, via);
        return Err(refusal_of(verdict));
    }
    let second = second_leg(known, *first, to.dom, to.gref);
    match walk_leg(words, seat, &second) {
        Ok(held) => Ok(held),
        Err(denial) => {
            give_pin_back(words, seat, via);
            Err(denial)
        }
    }
}

// Makes an access path that of a frame of the caller. Most are already, since the place of a copy is used again.
#[inline(always)]
fn make_own(access_path: &mut AccessPath)
    ensures { access_path.new ≡ Own }
{
    match access_path {
        AccessPath::Own => {}
        _ => *access_path = AccessPath::Own,
    }
}

// Makes an access path that of a pin. If it had one pin before, only that is written.
#[inline(always)]
fn make_direct(access_path: &mut AccessPath, first: HeldPin)
    ensures { access_path.new ≡ Direct first }
{
    match access_path {
        AccessPath::Direct(held) => *held = first,
        _ => *access_path = AccessPath::Direct(first),
    }
}

// Walks to the source of a copy, and writes the access path whose pins were taken. Like the functions below it writes through
// a reference: returning an access path by value costs more than the steps.
#[inline(always)]
fn reach_source<P: Allows>(
    words: &Words,
    known: &CallerState<'_, P>,
    seat: &mut Seat,
    caller: DomId,
    copy: &CopyArgs,
    access_path: &mut AccessPath,
) -> Result<(), Denial>
    requires seat { IsSeatOf words.now seat.old }
    requires can { CanRun (knows P.may known.now) words.now.layout caller
        (source_leg (knows P.may known.now) caller copy.now) seat.old.view }
    ensures seat { IsSameSeat seat.old seat.new }
    ensures goes { Runs (knows P.may known.now) words.now.layout caller
        (source_leg (knows P.may known.now) caller copy.now) seat.old.view
        (phase_after_source (knows P.may known.now) caller copy.now (filled result access_path.new)) seat.new.view }
{
    let leg = end_leg(known, caller, copy.source, Dir::Read, copy.len);
    let first = match walk_leg(words, seat, &leg) {
        Ok(held) => held,
        Err(denial) => return Err(denial),
    };
    match first.entry {
        Entry::Via { dom2, gref, .. } => {
            let named = resolve(caller, copy.dest.domid);
            let to = BeyondVia {
                pair: (dom2, named),
                dom: dom2,
                gref,
            };
            match go_through(words, known, seat, &leg, &first, to) {
                Ok(held) => {
                    *access_path = AccessPath::Through { via: first, held };
                    Ok(())
                }
                Err(denial) => Err(denial),
            }
        }
        _ => {
            make_direct(access_path, first);
            Ok(())
        }
    }
}

// Walks to the granted destination of a copy, after its source, and writes the access path to it, whose pins were
// taken.
#[inline(never)]
fn reach_granted<P: Allows>(
    words: &Words,
    known: &CallerState<'_, P>,
    seat: &mut Seat,
    caller: DomId,
    copy: &CopyArgs,
    pins: &mut CallPins,
) -> Result<(), Denial>
    requires seat { IsSeatOf words.now seat.old }
    requires can { CanRun (knows P.may known.now) words.now.layout caller
        (dest_leg (knows P.may known.now) caller copy.now pins.old.source) seat.old.view }
    ensures seat { IsSameSeat seat.old seat.new }
    ensures source { pins.new.source ≡ pins.old.source }
    ensures goes { Runs (knows P.may known.now) words.now.layout caller
        (dest_leg (knows P.may known.now) caller copy.now pins.old.source) seat.old.view
        (after_dest copy.now pins.old.source (filled result pins.new.dest)) seat.new.view }
{
    let leg = end_leg(known, caller, copy.dest, Dir::Write, copy.len);
    let first = match walk_leg(words, seat, &leg) {
        Ok(held) => held,
        Err(denial) => return Err(denial),
    };
    match first.entry {
        Entry::Via { dom2, gref, .. } => {
            let from = pins.source.owner(caller);
            let to = BeyondVia {
                pair: (from, dom2),
                dom: dom2,
                gref,
            };
            match go_through(words, known, seat, &leg, &first, to) {
                Ok(held) => {
                    pins.dest = AccessPath::Through { via: first, held };
                    Ok(())
                }
                Err(denial) => Err(denial),
            }
        }
        _ => {
            pins.dest = AccessPath::Direct(first);
            Ok(())
        }
    }
}

// Walks to the destination of a copy like the function above, which is not inlined. This one is, so that only such a
// copy makes room for the refusal.
#[inline(always)]
fn reach_dest<P: Allows>(
    words: &Words,
    known: &CallerState<'_, P>,
    seat: &mut Seat,
    caller: DomId,
    copy: &CopyArgs,
    pins: &mut CallPins,
) -> Result<(), Denial>
    requires seat { IsSeatOf words.now seat.old }
    requires can { CanRun (knows P.may known.now) words.now.layout caller
        (dest_leg (knows P.may known.now) caller copy.now pins.old.source) seat.old.view }
    ensures seat { IsSameSeat seat.old seat.new }
    ensures source { pins.new.source ≡ pins.old.source }
    ensures goes { Runs (knows P.may known.now) words.now.layout caller
        (dest_leg (knows P.may known.now) caller copy.now pins.old.source) seat.old.view
        (after_dest copy.now pins.old.source (filled result pins.new.dest)) seat.new.view }
{
    reach_granted(words, known, seat, caller, copy, pins)
}

/// The domain that makes a copy, and whether its destination is reached by a grant. If that is a constant, a copy to a
/// frame of the caller makes no call that needs its pins in memory.
#[derive(Clone, Copy)]
pub(crate) struct CopyBy {
    pub caller: DomId,
    pub granted: bool,
}

// Walks a copy whose source is reached to its access, or to its refusal. After a refusal its pins are released.
#[inline(always)]
fn walk_to_dest<P: Allows>(
    words: &Words,
    known: &CallerState<'_, P>,
    seat: &mut Seat,
    by: CopyBy,
    copy: &CopyArgs,
    pins: &mut CallPins,
) -> Result<(), Denial>
    requires seat { IsSeatOf words.now seat.old }
    requires granted { by.granted ≡ is_dest_granted copy.now }
    requires can { CanRun (knows P.may known.now) words.now.layout by.caller
        (at_dest (knows P.may known.now) by.caller copy.now pins.old.source) seat.old.view }
    ensures seat { IsSameSeat seat.old seat.new }
    ensures goes { Runs (knows P.may known.now) words.now.layout by.caller
        (at_dest (knows P.may known.now) by.caller copy.now pins.old.source) seat.old.view
        (after_copy copy.now (filled result pins.new)) seat.new.view }
{
    let granted = by.granted;
    if !granted {
        make_own(&mut pins.dest);
        return Ok(());
    }
    match reach_dest(words, known, seat, by.caller, copy, pins) {
        Ok(()) => Ok(()),
        Err(denial) => {
            give_back_access_path(words, seat, &pins.source);
            Err(denial)
        }
    }
}

// Walks a copy to its access, or to its refusal. After a refusal its pins are released.
#[inline(always)]
fn walk<P: Allows>(
    words: &Words,
    known: &CallerState<'_, P>,
    seat: &mut Seat,
    by: CopyBy,
    copy: &CopyArgs,
    pins: &mut CallPins,
) -> Result<(), Denial>
    requires seat { IsSeatOf words.now seat.old }
    requires granted { by.granted ≡ is_dest_granted copy.now }
    requires can { CanRun (knows P.may known.now) words.now.layout by.caller
        (at_source (knows P.may known.now) by.caller copy.now) seat.old.view }
    ensures seat { IsSameSeat seat.old seat.new }
    ensures goes { Runs (knows P.may known.now) words.now.layout by.caller
        (at_source (knows P.may known.now) by.caller copy.now) seat.old.view
        (after_copy copy.now (filled result pins.new)) seat.new.view }
{
    if !copy.is_source_granted() {
        pins.source = AccessPath::Own;
        return walk_to_dest(words, known, seat, by, copy, pins);
    }
    match reach_source(words, known, seat, by.caller, copy, &mut pins.source) {
        Ok(()) => walk_to_dest(words, known, seat, by, copy, pins),
        Err(denial) => Err(denial),
    }
}

// Drives a copy to its access, or to its end if it is refused before. Requires that the copy is not decided at its
// beginning. Writes the pins that it holds at its access. Its steps are written out, like those of a map.
#[inline(always)]
pub(crate) fn drive_copy<P: Allows>(
    words: &Words,
    known: &CallerState<'_, P>,
    seat: &mut Seat,
    by: CopyBy,
    copy: &CopyArgs,
    pins: &mut CallPins,
) -> Result<(), Denial>
    requires seat { IsSeatOf words.now seat.old }
    requires granted { by.granted ≡ is_dest_granted copy.now }
    requires unanswered { copy_begun (knows P.may known.now) by.caller copy.now ≡ None }
    requires knows { Knows (knows P.may known.now) words.now.layout by.caller seat.old.view }
    ensures seat { IsSameSeat seat.old seat.new }
    ensures stops { CopyStopsWith (knows P.may known.now) words.now.layout
        by.caller copy.now (filled result pins.new) seat.old.view seat.new.view }
{
    every_call_goes_on_by_its_phase();
    walk(words, known, seat, by, copy, pins)
}

// Releases the pins of an access path, the last one first. Returns the control word that the release of the first one
// left, 0 if there is none.
#[inline(always)]
fn give_back_access_path(words: &Words, seat: &mut Seat, access_path: &AccessPath) -> u64
    requires seat { IsSeatOf words.now seat.old }
    requires can { CanGiveBack words.now.layout (held_by access_path.now) seat.old.view }
    ensures seat { IsSameSeat seat.old seat.new }
    ensures given { IsGivenBack words.now.layout (held_by access_path.now) seat.old.view seat.new.view }
    ensures left { AccessPathLeaves words.now.layout access_path.now result seat.old.view seat.new.view }
{
    match access_path {
        AccessPath::Own => 0,
        AccessPath::Direct(held) => give_pin_back(words, seat, held),
        AccessPath::Through { via, held } => {
            give_pin_back(words, seat, held);
            give_pin_back(words, seat, via)
        }
    }
}

// Releases the pins that a copy held at its access, the last one first. Returns the control words that this left.
#[inline(always)]
pub(crate) fn give_back(words: &Words, seat: &mut Seat, pins: &CallPins) -> CopyWords
    requires seat { IsSeatOf words.now seat.old }
    requires taken { (base : View) × HasTaken words.now.layout (last_first pins.now) base seat.old.view }
    requires of_run { AreOfRun words.now.layout (last_first pins.now) }
    ensures seat { IsSameSeat seat.old seat.new }
    ensures gives { GivesBack words.now.layout pins.now seat.old.view seat.new.view }
    ensures left { CopyLeaves words.now.layout pins.now result seat.old.view seat.new.view }
{
    let dest = give_back_access_path(words, seat, &pins.dest);
    let source = give_back_access_path(words, seat, &pins.source);
    CopyWords { source, dest }
}
