//! An owner's changes of its entries, each driven along its path.
ghost use Rattle.std.specs.Prelude.{◌≡◌, None, MatchResult};
ghost use Rattle.gt_model.specs.Rules.{begun};
ghost use Rattle.gt_calls.specs.Known.{knows};
ghost use Rattle.gt_model.specs.Path.{idle_word, is_stopped, path};
ghost use Rattle.gt_model.specs.declared.request.OpenRequest.TheVariants as asks;
ghost use Rattle.gt_model.specs.Words.{control_of};
ghost use Rattle.gt_words.specs.Conditions.{IsSeatOf, IsSameSeat};
ghost use Rattle.gt_live.specs.Domains.{verdict_of};
ghost use Rattle.gt_live.specs.Driving.{CanMake, Knows, Leaves};
ghost use Rattle.gt_live.specs.Owning.{ChangesOnce, IsInTurns, IsRowOf, asks_change, change_effect};
ghost use Rattle.gt_live.specs.Walks.{Called, Made};

use crate::driving::look_at_control;
use gt_calls::{
    BodyWord, CallResult, CallerState, MORE_TRIES, Observation, OwnerEntry, Step, entry_refusal,
    every_call_goes_on_by_its_phase, is_stopped, judge_change, judge_grant, judge_revoke,
};
use gt_entry::{Control, Entry, EntryChange};
use gt_types::{Allows, Denial, DomId, GrantRef, Rule};
use gt_words::{Seat, Words};

/// One of the caller's entries, and the owner's word of it with no pins.
#[derive(Clone, Copy)]
pub(crate) struct IdleEntry {
    pub gref: GrantRef,
    pub word: u64,
}

// Returns the result of a change of the entry with this row, if it is decided at its beginning.
#[inline(always)]
pub(crate) fn judge_own<P: Allows>(
    known: &CallerState<'_, P>,
    own: OwnerEntry,
    gref: GrantRef,
    change: EntryChange,
) -> Option<CallResult>
    requires row { IsRowOf (knows P.may known.now) gref own }
    ensures { (caller : DomId) → result ≡ begun (knows P.may known.now) caller (asks_change gref change) }
{
    match change {
        EntryChange::Publish(entry) => judge_grant(known.header, own, gref, entry),
        EntryChange::Revoke => judge_revoke(known.header, own, gref),
        EntryChange::Withdraw => judge_revoke(known.header, own, gref),
        EntryChange::Demote => judge_change(EntryChange::Demote, known.header, own, gref),
        EntryChange::Promote => judge_change(EntryChange::Promote, known.header, own, gref),
    }
}

// Makes an owner's exchange.
#[inline(always)]
fn try_change(
    words: &Words,
    seat: &mut Seat,
    gref: GrantRef,
    looked: u64,
    change: EntryChange,
) -> Result<(), u64>
    requires seat { IsSeatOf words.now seat.old }
    requires can { CanMake words.now.layout seat.old.view (Step.Exchange gref looked change) }
    ensures seat { IsSameSeat seat.old seat.new }
    ensures made { MatchResult result
        (λ _. Made words.now.layout (Step.Exchange gref looked change) Observation.Taken seat.old.view seat.new.view)
        (λ n. Made words.now.layout (Step.Exchange gref looked change) (Observation.Missed n) seat.old.view seat.new.view) }
{
    match change {
        EntryChange::Publish(entry) => words.grant(seat, gref, looked, entry),
        EntryChange::Revoke => words.revoke(seat, gref, looked),
        EntryChange::Withdraw => words.withdraw(seat, gref, looked),
        EntryChange::Demote => words.demote(seat, gref, looked),
        EntryChange::Promote => words.promote(seat, gref, looked),
    }
}

// Makes an owner's exchange that is not tried again: if it is missed, the result is N19.
#[inline(always)]
fn change_once(
    words: &Words,
    seat: &mut Seat,
    caller: DomId,
    idle: IdleEntry,
    change: EntryChange,
) -> Result<(), Denial>
    requires seat { IsSeatOf words.now seat.old }
    requires can { CanMake words.now.layout seat.old.view (Step.Exchange idle.gref idle.word change) }
    ensures seat { IsSameSeat seat.old seat.new }
    ensures made { ChangesOnce words.now.layout caller idle.gref idle.word change result seat.old.view seat.new.view }
{
    match try_change(words, seat, idle.gref, idle.word, change) {
        Ok(()) => Ok(()),
        Err(found) => Err(entry_refusal(caller, idle.gref, Rule::N19, found)),
    }
}

// Stores a body word of an entry.
#[inline(always)]
fn store_one_body_word(
    words: &Words,
    seat: &mut Seat,
    gref: GrantRef,
    body_word: BodyWord,
    word: u64,
)
    requires seat { IsSeatOf words.now seat.old }
    requires can { CanMake words.now.layout seat.old.view (Step.StoreBody gref body_word word) }
    ensures seat { IsSameSeat seat.old seat.new }
    ensures made { Made words.now.layout (Step.StoreBody gref body_word word) Observation.Nothing seat.old.view seat.new.view }
{
    words.store_body(seat, gref, body_word, word);
}

// Drives a revocation to its end. Requires that it is not decided at its beginning.
#[inline(always)]
fn drive_revoke<P: Allows>(
    words: &Words,
    known: &CallerState<'_, P>,
    seat: &mut Seat,
    caller: DomId,
    idle: IdleEntry,
) -> Result<(), Denial>
    requires seat { IsSeatOf words.now seat.old }
    requires unanswered { begun (knows P.may known.now) caller (asks.Revoke idle.gref) ≡ None }
    requires looked { idle.word ≡ idle_word (knows P.may known.now) idle.gref }
    requires knows { Knows (knows P.may known.now) words.now.layout caller seat.old.view }
    ensures seat { IsSameSeat seat.old seat.new }
    ensures called { Called words.now.layout (path (knows P.may known.now) caller (asks.Revoke idle.gref))
        (verdict_of result) seat.old.view seat.new.view }
    ensures leaves { Leaves (knows P.may known.now) words.now.layout caller (asks.Revoke idle.gref)
        seat.old.view seat.new.view (change_effect idle.gref EntryChange.Revoke result) }
{
    every_call_goes_on_by_its_phase();
    change_once(words, seat, caller, idle, EntryChange::Revoke)
}

// Drives a grant to its end. Requires that it is not decided at its beginning.
#[inline(always)]
fn drive_grant<P: Allows>(
    words: &Words,
    known: &CallerState<'_, P>,
    seat: &mut Seat,
    caller: DomId,
    idle: IdleEntry,
    entry: Entry,
) -> Result<(), Denial>
    requires seat { IsSeatOf words.now seat.old }
    requires unanswered { begun (knows P.may known.now) caller (asks.Grant idle.gref entry) ≡ None }
    requires looked { idle.word ≡ idle_word (knows P.may known.now) idle.gref }
    requires knows { Knows (knows P.may known.now) words.now.layout caller seat.old.view }
    ensures seat { IsSameSeat seat.old seat.new }
    ensures called { Called words.now.layout (path (knows P.may known.now) caller (asks.Grant idle.gref entry))
        (verdict_of result) seat.old.view seat.new.view }
    ensures leaves { Leaves (knows P.may known.now) words.now.layout caller (asks.Grant idle.gref entry)
        seat.old.view seat.new.view (change_effect idle.gref (EntryChange.Publish entry) result) }
{
    every_call_goes_on_by_its_phase();
    store_one_body_word(words, seat, idle.gref, BodyWord::First, entry.first_body());
    match entry {
        Entry::Sub { .. } => {
            store_one_body_word(
                words,
                seat,
                idle.gref,
                BodyWord::Second,
                entry.second_body(),
            );
            change_once(words, seat, caller, idle, EntryChange::Publish(entry))
        }
        _ => change_once(words, seat, caller, idle, EntryChange::Publish(entry)),
    }
}

// Returns whether the pins of this word stop the change.
#[inline(always)]
fn stops(change: EntryChange, word: u64) -> bool
    ensures { result ≡ is_stopped change (control_of word) }
{
    is_stopped(change, Control::unpack(word))
}

// Drives a change in turns to its end. Requires that it is not decided at its beginning.
#[inline(always)]
fn drive_turns<P: Allows>(
    words: &Words,
    known: &CallerState<'_, P>,
    seat: &mut Seat,
    caller: DomId,
    gref: GrantRef,
    change: EntryChange,
) -> Result<(), Denial>
    requires seat { IsSeatOf words.now seat.old }
    requires turns { IsInTurns change }
    requires unanswered { begun (knows P.may known.now) caller (asks_change gref change) ≡ None }
    requires knows { Knows (knows P.may known.now) words.now.layout caller seat.old.view }
    ensures seat { IsSameSeat seat.old seat.new }
    ensures called { Called words.now.layout (path (knows P.may known.now) caller (asks_change gref change))
        (verdict_of result) seat.old.view seat.new.view }
    ensures leaves { Leaves (knows P.may known.now) words.now.layout caller (asks_change gref change)
        seat.old.view seat.new.view (change_effect gref change result) }
{
    every_call_goes_on_by_its_phase();
    let mut more = MORE_TRIES;
    'turns: loop {
        let word = look_at_control(words, seat, caller, gref);
        if stops(change, word) {
            return Err(entry_refusal(caller, gref, Rule::N19, word));
        }
        let found = match try_change(words, seat, gref, word, change) {
            Ok(()) => return Ok(()),
            Err(found) => found,
        };
        if more == 0 {
            return Err(entry_refusal(caller, gref, Rule::N18, found));
        }
        more -= 1;
    }
}

// Drives a change to its end. Requires that the change is not decided at its beginning.
#[inline(always)]
pub(crate) fn drive_change<P: Allows>(
    words: &Words,
    known: &CallerState<'_, P>,
    seat: &mut Seat,
    caller: DomId,
    idle: IdleEntry,
    change: EntryChange,
) -> Result<(), Denial>
    requires seat { IsSeatOf words.now seat.old }
    requires unanswered { begun (knows P.may known.now) caller (asks_change idle.gref change) ≡ None }
    requires looked { idle.word ≡ idle_word (knows P.may known.now) idle.gref }
    requires knows { Knows (knows P.may known.now) words.now.layout caller seat.old.view }
    ensures seat { IsSameSeat seat.old seat.new }
    ensures called { Called words.now.layout (path (knows P.may known.now) caller (asks_change idle.gref change))
        (verdict_of result) seat.old.view seat.new.view }
    ensures leaves { Leaves (knows P.may known.now) words.now.layout caller (asks_change idle.gref change)
        seat.old.view seat.new.view (change_effect idle.gref change result) }
{
    match change {
        EntryChange::Publish(entry) => drive_grant(words, known, seat, caller, idle, entry),
        EntryChange::Revoke => drive_revoke(words, known, seat, caller, idle),
        _ => drive_turns(words, known, seat, caller, idle.gref, change),
    }
}
