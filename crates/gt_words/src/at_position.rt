//! Steps on the words of a domain whose position is known. Several of them look the domain up only once.
ghost use Rattle.std.specs.Prelude.{◌≡◌, MatchResult};
ghost use Rattle.gt_word_history.specs.Views.{last_of};
ghost use Rattle.gt_word_history.specs.Controls.{generation_of};
ghost use Rattle.gt_words.specs.Conditions.{CanPin, CountsPins, HasDomain, Holds, IsEntryOf, IsSameSeat, IsSeatOf};
ghost use Rattle.gt_words.specs.Conditions.{IsWordOf, position_at};
ghost use Rattle.gt_words.specs.Answers.{LooksAtBody, LooksAtControl, LooksAtHeader, MissesPin, Pins, UnpinsPin};
ghost use Rattle.gt_words.specs.Answers.{UnpinsPinTo};

use crate::calls;
use crate::words::{Pin, Seat, Words};
use gt_entry::{BodyWord, Control};
use gt_types::{DomId, GrantRef};
use gt_word_history::EntryAt;

impl Words {
    /// Loads the header word of the domain `dom`, whose position is `at`.
    #[inline(always)]
    pub fn load_header_at(&self, seat: &mut Seat, dom: DomId, at: usize) -> u64
        requires seat { IsSeatOf self.now seat.old }
        requires place { at ≡ position_at self.now dom }
        requires domain { HasDomain self.now.layout dom }
        ensures seat { IsSameSeat seat.old seat.new }
        ensures fits { IsSeatOf self.now seat.new }
        ensures look { LooksAtHeader self.now.layout (position_at self.now dom) result seat.old.view seat.new.view }
    {
        self.words.load_header(&mut seat.place, at)
    }

    /// Loads the control word of an entry of `dom`, whose position is `at`.
    #[inline(always)]
    pub fn load_control_at(&self, seat: &mut Seat, dom: DomId, gref: GrantRef, at: usize) -> u64
        requires seat { IsSeatOf self.now seat.old }
        requires place { at ≡ position_at self.now dom }
        requires entry { IsEntryOf self.now dom gref }
        ensures seat { IsSameSeat seat.old seat.new }
        ensures fits { IsSeatOf self.now seat.new }
        ensures look { LooksAtControl self.now.layout (position_at self.now dom) gref.0 result
            seat.old.view seat.new.view }
        ensures own { dom ≡ seat.old.dom → IsWordOf (last_of gref.0 seat.new.view) result }
    {
        let entry = EntryAt {
            position: at,
            gref: gref.0 as usize,
        };
        self.words.load_control(&mut seat.place, entry)
    }

    /// Loads a body word of an entry of `dom`, whose position is `at`.
    #[inline(always)]
    pub fn load_body_at(
        &self,
        seat: &mut Seat,
        dom: DomId,
        gref: GrantRef,
        body_word: BodyWord,
        at: usize,
    ) -> u64
        requires seat { IsSeatOf self.now seat.old }
        requires place { at ≡ position_at self.now dom }
        requires entry { IsEntryOf self.now dom gref }
        ensures seat { IsSameSeat seat.old seat.new }
        ensures fits { IsSeatOf self.now seat.new }
        ensures look { LooksAtBody self.now.layout (position_at self.now dom) gref.0 body_word result
            seat.old.view seat.new.view }
    {
        let entry = EntryAt {
            position: at,
            gref: gref.0 as usize,
        };
        self.words.load_body(&mut seat.place, entry, body_word)
    }

    /// Takes this pin as [`pin`](Words::pin) does. `at` is the position of the domain `pin.dom`.
    ///
    /// # Errors
    /// The word found, if it is not `pin.word`. No pin was taken.
    #[inline(always)]
    pub fn pin_at(&self, seat: &mut Seat, pin: Pin, at: usize) -> Result<(), u64>
        requires seat { IsSeatOf self.now seat.old }
        requires place { at ≡ position_at self.now pin.dom }
        requires entry { IsEntryOf self.now pin.dom pin.gref }
        requires can { CanPin self.now.layout (position_at self.now pin.dom) pin.gref.0 pin.dir pin.word seat.old.view }
        ensures seat { IsSameSeat seat.old seat.new }
        ensures fits { IsSeatOf self.now seat.new }
        ensures step { MatchResult result
            (λ _. Pins self.now.layout (position_at self.now pin.dom) pin.gref.0 pin.dir pin.word
            seat.old.view seat.new.view)
            (λ n. MissesPin self.now.layout (position_at self.now pin.dom) pin.gref.0 pin.dir pin.word n
            seat.old.view seat.new.view) }
        ensures counted { CountsPins self.now.layout (position_at self.now pin.dom) pin.gref.0 pin.dir }
    {
        let entry = EntryAt {
            position: at,
            gref: pin.gref.0 as usize,
        };
        calls::pin(&self.words, &mut seat.place, entry, pin.word, pin.dir)
    }

    /// Releases a pin as [`unpin`](Words::unpin) does, and returns the control word that this left. `at` is the position
    /// of the domain `pin.dom`.
    #[inline(always)]
    pub fn unpin_at(&self, seat: &mut Seat, pin: Pin, at: usize) -> u64
        requires seat { IsSeatOf self.now seat.old }
        requires place { at ≡ position_at self.now pin.dom }
        requires entry { IsEntryOf self.now pin.dom pin.gref }
        requires held { Holds (position_at self.now pin.dom) pin.gref.0 pin.dir (generation_of pin.word) seat.old.view }
        ensures seat { IsSameSeat seat.old seat.new }
        ensures fits { IsSeatOf self.now seat.new }
        ensures step { UnpinsPin self.now pin seat.old.view seat.new.view }
        ensures left { UnpinsPinTo self.now pin result seat.old.view seat.new.view }
    {
        let entry = EntryAt {
            position: at,
            gref: pin.gref.0 as usize,
        };
        let generation = u64::from(Control::unpack(pin.word).generation);
        calls::unpin(&self.words, &mut seat.place, entry, pin.dir, generation)
    }
}
