//! The first phases of calls: all that a call has to do if no rule answers it at its beginning.
ghost use Rattle.std.specs.Prelude.{◌≡◌};
ghost use Rattle.gt_types.specs.Names.{resolved};
ghost use Rattle.gt_handles.specs.Handles.{value_of};
ghost use Rattle.gt_calls.specs.Known.{knows};
ghost use Rattle.gt_model.specs.Path.{map_leg, idle_word};
ghost use Rattle.gt_calls.specs.Machine.{ended_as, refused_as, handle_refused, publishing, first_phase, unmap_phase};
ghost use Rattle.gt_calls.specs.Machine.{load_phase, store_phase, after_store, unaccessed};

use crate::call::{HeaderQuery, Phase};
use crate::copying::{EntryUse, PinPurpose, at_source, leg_to};
use crate::judging::{map_dir, resolve};
use crate::known::{CallerState, own_entry};
use crate::leg::{Leg, LegPhase, MORE_TRIES, entry_refusal};
use gt_entry::{Entry, EntryChange, Header};
use gt_handles::Handle;
use gt_model::{
    AccessPath, CallPins, CallResult, CallValue, HeldPin, NO_PINS, OpenRequest, PinHolder, Step,
};
use gt_types::{Allows, CopyArgs, Denial, DomId, Facts, GrantRef, Range, Rule, Size, Use};

// Builds the end of a call that holds no pins.
pub(crate) fn ended(verdict: CallResult) -> Phase
    ensures { result ≡ ended_as verdict }
{
    Phase::Ending {
        pins: NO_PINS,
        verdict,
    }
}

// Builds the end of a call by a word that it found in an entry of the caller's own.
pub(crate) fn refused_at(caller: DomId, gref: GrantRef, rule: Rule, word: u64) -> Phase
    ensures { result ≡ refused_as caller gref rule word }
{
    ended(CallResult::Refused(entry_refusal(caller, gref, rule, word)))
}

// Builds the end of a call whose handle has no mapping.
fn refused_handle() -> Phase
    ensures { result ≡ handle_refused }
{
    ended(CallResult::Refused(Denial::new(Rule::N6, Facts::None)))
}

/// Builds the leg of a map.
pub fn map_leg<P: Allows>(
    known: &CallerState<'_, P>,
    caller: DomId,
    dom: DomId,
    gref: GrantRef,
    flags: u32,
) -> Leg
    ensures { result ≡ map_leg (knows P.may known.now) caller dom gref flags }
{
    let wanted = EntryUse {
        dir: map_dir(flags),
        purpose: Use::Map,
        range: Range { off: 0, len: 0 },
    };
    leg_to(known, caller, dom, gref, wanted)
}

fn idle_word<P: Allows>(known: &CallerState<'_, P>, gref: GrantRef) -> u64
    ensures { result ≡ idle_word (knows P.may known.now) gref }
{
    own_entry(known, gref).idle_word()
}

// Builds a phase of one step that sees nothing, and then Ok.
fn one_step(step: Step) -> Phase
    ensures { result ≡ Phase.Last step CallResult.Granted }
{
    Phase::Last {
        step,
        verdict: CallResult::Granted,
    }
}

fn reading(dom: DomId, frame: u64, off: u16, len: u16) -> Phase
    ensures { result ≡ Phase.Last (Step.Read dom frame off len) CallResult.Granted }
{
    one_step(Step::Read {
        dom,
        frame,
        off,
        len,
    })
}

fn writing(dom: DomId, frame: u64, off: u16, len: usize) -> Phase
    ensures { result ≡ Phase.Last (Step.Write dom frame off len) CallResult.Granted }
{
    one_step(Step::Write {
        dom,
        frame,
        off,
        len,
    })
}

// Returns the mapping with this handle.
fn held_at<P: Allows>(known: &CallerState<'_, P>, handle: Handle) -> Option<HeldPin>
    ensures { result ≡ value_of known.now.mappings.now handle }
{
    known.mappings.get(handle).copied()
}

// Writes the phase of an unmap or a release: its one step, or the refusal if there is no mapping.
fn begin_unmap(mapping: Option<HeldPin>, handle: Handle, phase: &mut Phase)
    ensures { phase.new ≡ unmap_phase handle mapping }
{
    match mapping {
        Some(held) => {
            let holder = PinHolder::Mapping(handle);
            *phase = one_step(Step::Unpin { held, holder });
        }
        None => *phase = refused_handle(),
    }
}

fn begin_load(mapping: Option<HeldPin>, off: u16, len: u16, phase: &mut Phase)
    ensures { phase.new ≡ load_phase mapping off len }
{
    match mapping {
        Some(held) => *phase = reading(held.dom, held.entry.frame(), off, len),
        None => *phase = refused_handle(),
    }
}

fn begin_store(mapping: Option<HeldPin>, off: u16, len: usize, phase: &mut Phase)
    ensures { phase.new ≡ store_phase mapping off len }
{
    match mapping {
        Some(held) => *phase = writing(held.dom, held.entry.frame(), off, len),
        None => *phase = refused_handle(),
    }
}

// Builds a demotion, promotion or withdrawal before its first turn.
fn turning(gref: GrantRef, change: EntryChange) -> Phase
    ensures { result ≡ Phase.Looking gref change MORE_TRIES }
{
    let more = MORE_TRIES;
    Phase::Looking { gref, change, more }
}

// Builds a revocation before its one exchange.
fn revoking<P: Allows>(known: &CallerState<'_, P>, gref: GrantRef) -> Phase
    ensures { result ≡ Phase.Exchanging gref (idle_word (knows P.may known.now) gref) EntryChange.Revoke }
{
    Phase::Exchanging {
        gref,
        looked: idle_word(known, gref),
        change: EntryChange::Revoke,
    }
}

// Builds the step that gives the caller's table another size, with the answer.
fn resizing(version: u8, frames: u32) -> Phase
    ensures { result ≡ Phase.Last (Step.StoreHeader version frames) (CallResult.Given (CallValue.Frames frames)) }
{
    Phase::Last {
        step: Step::StoreHeader {
            version: u32::from(version),
            frames,
        },
        verdict: CallResult::Given(CallValue::Frames(frames)),
    }
}

fn asking(caller: DomId, dom: DomId, question: HeaderQuery) -> Phase
    ensures { result ≡ Phase.Asking (resolved caller dom) question }
{
    Phase::Asking {
        dom: resolve(caller, dom),
        question,
    }
}

// Writes the first phase of a copy. Separate, so that only copies pay for the stack space.
#[inline(never)]
fn begin_copy<P: Allows>(
    known: &CallerState<'_, P>,
    caller: DomId,
    copy: CopyArgs,
    phase: &mut Phase,
)
    ensures { phase.new ≡ first_phase (knows P.may known.now) caller (OpenRequest.Copy copy) }
{
    *phase = at_source(known, caller, copy);
}

// Returns the pins of these access paths.
pub(crate) fn by_access_paths(source: &AccessPath, dest: &AccessPath) -> CallPins
    ensures { result ≡ record { source = source.now; dest = dest.now } }
{
    CallPins {
        source: *source,
        dest: *dest,
    }
}

// Skips the access of a copy: the pins are released next.
pub(crate) fn pass_access(phase: &mut Phase)
    ensures { phase.new ≡ unaccessed phase.old }
{
    if let Phase::Accessing { source, dest, .. } = phase {
        *phase = Phase::Ending {
            pins: by_access_paths(source, dest),
            verdict: CallResult::Granted,
        };
    }
}

// Writes the first phase of a call that was not answered at its beginning.
pub(crate) fn set_first<P: Allows>(
    known: &CallerState<'_, P>,
    caller: DomId,
    request: &OpenRequest,
    phase: &mut Phase,
)
    ensures { phase.new ≡ first_phase (knows P.may known.now) caller request.now }
{
    match *request {
        OpenRequest::Map { dom, gref, flags } => {
            *phase = Phase::Walking {
                pin_purpose: PinPurpose::Mapping,
                leg: map_leg(known, caller, dom, gref, flags),
                at: LegPhase::Header,
            };
        }
        OpenRequest::Unmap { handle } | OpenRequest::Release { handle } => {
            begin_unmap(held_at(known, handle), handle, phase)
        }
        OpenRequest::Grant { gref, entry } => *phase = Phase::Storing { gref, entry },
        OpenRequest::Revoke { gref } => *phase = revoking(known, gref),
        OpenRequest::Withdraw { gref } => *phase = turning(gref, EntryChange::Withdraw),
        OpenRequest::Demote { gref } => *phase = turning(gref, EntryChange::Demote),
        OpenRequest::Promote { gref } => *phase = turning(gref, EntryChange::Promote),
        OpenRequest::Load { handle, off, len } => begin_load(
            held_at(known, handle),
            off,
            len,
            phase,
        ),
        OpenRequest::Store { handle, off, len } => begin_store(
            held_at(known, handle),
            off,
            len,
            phase,
        ),
        OpenRequest::Peek { frame, off, len } => *phase = reading(caller, frame, off, len),
        OpenRequest::Poke { frame, off, len } => *phase = writing(caller, frame, off, len),
        OpenRequest::Copy(copy) => begin_copy(known, caller, copy, phase),
        OpenRequest::Probe(copy) => {
            begin_copy(known, caller, copy, phase);
            pass_access(phase);
        }
        OpenRequest::SetVersion { version } => {
            *phase = one_step(Step::StoreHeader {
                version,
                frames: u32::from(known.header.frames),
            });
        }
        OpenRequest::SetupTable { frames } => *phase = resizing(known.header.version, frames),
        OpenRequest::QuerySize { dom } => *phase = asking(caller, dom, HeaderQuery::Size),
        OpenRequest::GetVersion { dom } => *phase = asking(caller, dom, HeaderQuery::Version),
    }
}

pub(crate) fn publishing<P: Allows>(
    known: &CallerState<'_, P>,
    gref: GrantRef,
    entry: Entry,
) -> Phase
    ensures { result ≡ publishing (knows P.may known.now) gref entry }
{
    Phase::Exchanging {
        gref,
        looked: idle_word(known, gref),
        change: EntryChange::Publish(entry),
    }
}

pub(crate) fn after_store<P: Allows>(
    known: &CallerState<'_, P>,
    gref: GrantRef,
    entry: Entry,
) -> Phase
    ensures { result ≡ after_store (knows P.may known.now) gref entry }
{
    match entry {
        Entry::Sub { .. } => Phase::StoringSecond { gref, entry },
        _ => publishing(known, gref, entry),
    }
}
