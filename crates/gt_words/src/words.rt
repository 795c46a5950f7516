//! The words and the seats. Their fields are private, so that contracts see only the values that they name.
ghost use Rattle.std.specs.Prelude.{◌≡◌, ◌⊎◌, ◌<◌, ◌≤◌, length, MatchResult, IfOk, IfErr, OnOk, HoldsAt, ℕ};
ghost use Rattle.std.specs.Prelude.{position, ◌==◌, true};
ghost use Rattle.gt_types.specs.Config.{IsWithinLimits};
ghost use Rattle.gt_model.specs.Words.{header_word};
ghost use Rattle.gt_model.specs.Entries.{IsEntry};
ghost use Rattle.gt_word_history.specs.Controls.{generation_of};
ghost use Rattle.gt_word_history.specs.Views.{own_header, own_table, last_of};
ghost use Rattle.gt_word_history.specs.Rule.{layout_of, position_in, IsKeptHeader};
ghost use Rattle.gt_words.specs.Conditions.{Board, SeatOf, IsLayoutWithinLimits, IsSeatOf, IsSameSeat, HasDomain};
ghost use Rattle.gt_words.specs.Answers.{IsNewSeat, IsStartFault};
ghost use Rattle.gt_shared_table.specs.Words.{frames_kept};
ghost use Rattle.gt_types.specs.declared.places.FrameName.{FrameName};
ghost use Rattle.gt_words.specs.Frames.{KeepsFrame};
ghost use Rattle.gt_words.specs.Conditions.{IsEntryOf, position_at, with_version, with_frames, IsWordOf, Holds};
ghost use Rattle.gt_words.specs.Conditions.{CanPin, CanPublish, CanRevoke, CanWithdraw, CanDemote, CanTurn, CountsPins};
ghost use Rattle.gt_words.specs.Answers.{LooksAtHeader, LooksAtControl, LooksAtBody, StoresBody, StoresHeader};
ghost use Rattle.gt_words.specs.Answers.{UnpinsPin, Pins, MissesPin, Changes, MissesChange, MissesBusy, Revokes};
ghost use Rattle.gt_words.specs.Answers.{UnpinsPinTo};
ghost use Rattle.gt_words.specs.Answers.{Demotes, Publishes};

use crate::calls;
use crate::start::{make_without_frames, make_words};
use gt_entry::{BodyWord, Entry, EntryChange, Header};
use gt_roster::Positions;
use gt_shared_table::{SharedTable, TableSeat};
use gt_types::{Config, Dir, DomId, GrantRef, MAX_TABLE_FRAMES, Memory, StartFault, TABLE_ENTRIES};
use gt_word_history::EntryAt;
use std::alloc::Global;
use std::marker::Model;

/// A domain, and its position in the run.
#[derive(Clone, Copy)]
pub(crate) struct DomainPosition {
    pub dom: DomId,
    pub position: usize,
}

/// A domain's right to step on the words and to access frames. Each domain of the run has one.
#[derive(Drop)]
pub struct Seat {
    pub(crate) place: TableSeat,
    pub(crate) dom: DomId,
    pub(crate) position: usize,
    pub(crate) header: Header,
    /// The domain looked up last. Calls on one entry follow one another and name one domain.
    pub(crate) found: DomainPosition,
    /// The one that it replaced. A copy through a transitive entry names two domains by turns.
    pub(crate) before: DomainPosition,
}

impl Model for Seat {
    ghost Value = { SeatOf };

    ghost view = { λ s. record { table = s.place.table; dom = s.dom; view = s.place.view } };

    ghost invariant = { λ s. (s.place.view.position ≡ s.position)
        × (own_header s.place.view ≡ header_word s.header) × IsKeptHeader s.header
        × (s.found.position ≡ position_in s.place.view.ids s.found.dom)
        × (s.before.position ≡ position_in s.place.view.ids s.before.dom) };
}

impl Seat {
    /// Returns the domain that owns this seat.
    pub fn dom(&self) -> DomId
        ensures { result ≡ self.now.dom }
    {
        self.dom
    }

    /// Returns the position of the seat's domain in the run.
    pub fn position(&self) -> usize
        ensures { result ≡ self.now.view.position }
    {
        self.position
    }

    /// Returns the header of the seat's domain: the one that it stored last, or the one at the start.
    pub fn header(&self) -> Header
        ensures value { result ≡ own_table self.now.view }
        ensures word { own_header self.now.view ≡ header_word result }
        ensures kept { IsKeptHeader result }
    {
        self.header
    }
}

/// The words of all entries and headers of a run, and its frames, unless the caller keeps them.
#[derive(Drop)]
pub struct Words {
    pub(crate) words: SharedTable,
    pub(crate) ids: Positions,
}

impl Model for Words {
    ghost Value = { Board };

    ghost view = { λ w. w.words };

    ghost invariant = { λ w. (w.ids ≡ w.words.layout.ids) × IsLayoutWithinLimits w.words.layout };
}

/// A pin of a seat: its entry, the control word before the pin was added, and its kind.
#[derive(Clone, Copy)]
pub struct Pin {
    pub dom: DomId,
    pub gref: GrantRef,
    pub word: u64,
    pub dir: Dir,
}

// Finds the position of a domain. Returns the number of domains if the run does not have it.
#[cold]
#[inline(never)]
fn position_of(ids: &Positions, dom: DomId) -> usize
    ensures { result ≡ position_in ids.now dom }
{
    match ids.position(dom) {
        Some(at) => at,
        None => ids.count(),
    }
}

impl Words {
    /// Makes the words of a run, its frames, and a seat for each domain, in order. All entries are invalid, at the
    /// first generation, and all frames are zeros.
    ///
    /// # Errors
    /// The first fault of the configuration, or `Memory` if it has none and allocation fails.
    pub fn new(alloc: Global, config: &Config) -> Result<(Words, Vec<Seat>), StartFault>
        ensures ok { OnOk result (IsWithinLimits config.now) }
        ensures words { IfOk result (λ r. r.0.layout ≡ layout_of config.now) }
        ensures frames { IfOk result (λ r. r.0.frames ≡ frames_kept config.now) }
        ensures count { IfOk result (λ r. length r.1.items ≡ length config.now.domains.items) }
        ensures seats { IfOk result (λ r. (i : ℕ) → i < length config.now.domains.items
            → HoldsAt (IsNewSeat r.0 i) r.1.items i) }
        ensures err { IfErr result (IsStartFault config.now) }
    {
        Words::with_flags(alloc, config, 0)
    }

    /// Makes the words of a run as [`new`](Words::new) does, with this number of flags, none of which is raised.
    ///
    /// # Errors
    /// The first fault of the configuration, or `Memory` if it has none and allocation fails.
    #[tactic(auto, using(crate::proofs::WithoutFrames::whole_table))]
    pub fn with_flags(
        alloc: Global,
        config: &Config,
        flags: u32,
    ) -> Result<(Words, Vec<Seat>), StartFault>
        ensures ok { OnOk result (IsWithinLimits config.now) }
        ensures words { IfOk result (λ r. r.0.layout ≡ layout_of config.now) }
        ensures frames { IfOk result (λ r. r.0.frames ≡ frames_kept config.now) }
        ensures flags { IfOk result (λ r. r.0.flags ≡ flags) }
        ensures count { IfOk result (λ r. length r.1.items ≡ length config.now.domains.items) }
        ensures seats { IfOk result (λ r. (i : ℕ) → i < length config.now.domains.items
            → HoldsAt (IsNewSeat r.0 i) r.1.items i) }
        ensures err { IfErr result (IsStartFault config.now) }
    {
        if let Err(fault) = config.check() {
            return Err(StartFault::Config(fault));
        }
        match make_words(alloc, config, config, flags) {
            Ok(made) => Ok(made),
            Err(Memory) => Err(StartFault::Memory),
        }
    }

    /// Makes the words of a run whose frames the caller keeps, and a seat for each domain, in order. The table has no
    /// frame.
    ///
    /// # Errors
    /// The first fault of the configuration, or `Memory` if it has none and allocation fails.
    pub fn without_frames(alloc: Global, config: &Config) -> Result<(Words, Vec<Seat>), StartFault>
        ensures ok { OnOk result (IsWithinLimits config.now) }
        ensures words { IfOk result (λ r. r.0.layout ≡ layout_of config.now) }
        ensures frames { IfOk result (λ r. (name : FrameName) → KeepsFrame r.0 name → ⊥) }
        ensures count { IfOk result (λ r. length r.1.items ≡ length config.now.domains.items) }
        ensures seats { IfOk result (λ r. (i : ℕ) → i < length config.now.domains.items
            → HoldsAt (IsNewSeat r.0 i) r.1.items i) }
        ensures err { IfErr result (IsStartFault config.now) }
    {
        if let Err(first) = config.check() {
            return Err(StartFault::Config(first));
        }
        match make_without_frames(alloc, config) {
            Ok(made) => Ok(made),
            Err(Memory) => Err(StartFault::Memory),
        }
    }

    /// Finds the position of a domain, by a search only if it is neither of the last two looked up. Steps that follow
    /// one another on a domain are made at its position (`load_control_at` and the like).
    #[inline(always)]
    pub fn position(&self, seat: &mut Seat, dom: DomId) -> usize
        requires { IsSeatOf self.now seat.old }
        ensures position { result ≡ position_at self.now dom }
        ensures seat { seat.new ≡ seat.old }
    {
        if seat.found.dom.0 == dom.0 {
            return seat.found.position;
        }
        if seat.before.dom.0 == dom.0 {
            return seat.before.position;
        }
        let position = position_of(&self.ids, dom);
        seat.before = seat.found;
        seat.found = DomainPosition { dom, position };
        position
    }

    // Finds the position of a domain for one step, and keeps the domain as the one looked up last. The compiler then
    // sees that the next step on it has the same position, and doesn't compare the domains again.
    #[inline(always)]
    fn position_for_step(&self, seat: &mut Seat, dom: DomId) -> usize
        requires { IsSeatOf self.now seat.old }
        ensures position { result ≡ position_at self.now dom }
        ensures seat { seat.new ≡ seat.old }
    {
        let at = self.position(seat, dom);
        seat.found = DomainPosition { dom, position: at };
        at
    }

    /// Loads the header word of a domain: its table's version and number of frames.
    pub fn load_header(&self, seat: &mut Seat, dom: DomId) -> u64
        requires seat { IsSeatOf self.now seat.old }
        requires domain { HasDomain self.now.layout dom }
        ensures seat { IsSameSeat seat.old seat.new }
        ensures fits { IsSeatOf self.now seat.new }
        ensures look { LooksAtHeader self.now.layout (position_at self.now dom) result seat.old.view seat.new.view }
    {
        let at = self.position_for_step(seat, dom);
        self.load_header_at(seat, dom, at)
    }

    /// Stores the header word of the seat's domain.
    pub fn store_header(&self, seat: &mut Seat, header: Header)
        requires seat { IsSeatOf self.now seat.old }
        requires header { IsKeptHeader header }
        ensures seat { IsSameSeat seat.old seat.new }
        ensures fits { IsSeatOf self.now seat.new }
        ensures step { StoresHeader self.now.layout header seat.old.view seat.new.view }
    {
        let at = seat.position;
        self.words.store_header(&mut seat.place, at, header.pack());
        seat.header = header;
    }

    /// Stores the version of the owner's table, 1 or 2, in its header.
    pub fn set_version(&self, seat: &mut Seat, version: u32)
        requires seat { IsSeatOf self.now seat.old }
        requires version { (version ≡ 1) ⊎ (version ≡ 2) }
        ensures seat { IsSameSeat seat.old seat.new }
        ensures fits { IsSeatOf self.now seat.new }
        ensures step { StoresHeader self.now.layout (with_version version (own_table seat.old.view))
            seat.old.view seat.new.view }
    {
        let header = Header {
            version: version as u8,
            ..seat.header
        };
        self.store_header(seat, header);
    }

    /// Stores the number of frames of the owner's table in its header: 1 to [`MAX_TABLE_FRAMES`].
    pub fn setup(&self, seat: &mut Seat, frames: u32)
        requires seat { IsSeatOf self.now seat.old }
        requires frames { (0 < frames) × (frames ≤ MAX_TABLE_FRAMES) }
        ensures seat { IsSameSeat seat.old seat.new }
        ensures fits { IsSeatOf self.now seat.new }
        ensures step { StoresHeader self.now.layout (with_frames frames (own_table seat.old.view))
            seat.old.view seat.new.view }
    {
        let header = Header {
            frames: frames as u8,
            ..seat.header
        };
        self.store_header(seat, header);
    }

    /// Loads the control word of an entry.
    pub fn load_control(&self, seat: &mut Seat, dom: DomId, gref: GrantRef) -> u64
        requires seat { IsSeatOf self.now seat.old }
        requires entry { IsEntryOf self.now dom gref }
        ensures seat { IsSameSeat seat.old seat.new }
        ensures fits { IsSeatOf self.now seat.new }
        ensures look { LooksAtControl self.now.layout (position_at self.now dom) gref.0 result
            seat.old.view seat.new.view }
        ensures own { dom ≡ seat.old.dom → IsWordOf (last_of gref.0 seat.new.view) result }
    {
        let at = self.position_for_step(seat, dom);
        self.load_control_at(seat, dom, gref, at)
    }

    /// Loads a body word of an entry.
    pub fn load_body(&self, seat: &mut Seat, dom: DomId, gref: GrantRef, body_word: BodyWord) -> u64
        requires seat { IsSeatOf self.now seat.old }
        requires entry { IsEntryOf self.now dom gref }
        ensures seat { IsSameSeat seat.old seat.new }
        ensures fits { IsSeatOf self.now seat.new }
        ensures look { LooksAtBody self.now.layout (position_at self.now dom) gref.0 body_word result
            seat.old.view seat.new.view }
    {
        let at = self.position_for_step(seat, dom);
        self.load_body_at(seat, dom, gref, body_word, at)
    }

    /// Takes a pin by one exchange from `looked`, the control word of the seat's last look. The seat has read the body
    /// words since, and the entry permits the pin (`CanPin`).
    ///
    /// # Errors
    /// The word found, if it is not `looked`. No pin was taken.
    pub fn pin(
        &self,
        seat: &mut Seat,
        dom: DomId,
        gref: GrantRef,
        looked: u64,
        dir: Dir,
    ) -> Result<Pin, u64>
        requires seat { IsSeatOf self.now seat.old }
        requires entry { IsEntryOf self.now dom gref }
        requires can { CanPin self.now.layout (position_at self.now dom) gref.0 dir looked seat.old.view }
        ensures seat { IsSameSeat seat.old seat.new }
        ensures fits { IsSeatOf self.now seat.new }
        ensures pin { IfOk result (λ p. p ≡ record { dom = dom; gref = gref; word = looked; dir = dir }) }
        ensures step { MatchResult result
            (λ _. Pins self.now.layout (position_at self.now dom) gref.0 dir looked seat.old.view seat.new.view)
            (λ n. MissesPin self.now.layout (position_at self.now dom) gref.0 dir looked n
            seat.old.view seat.new.view) }
        ensures counted { CountsPins self.now.layout (position_at self.now dom) gref.0 dir }
    {
        let at = self.position_for_step(seat, dom);
        let pin = Pin {
            dom,
            gref,
            word: looked,
            dir,
        };
        self.pin_at(seat, pin, at)?;
        Ok(pin)
    }

    /// Releases a pin of the seat, by one subtraction, and returns the control word that this left: whether the entry is
    /// valid, and the pins that it still has.
    #[inline(always)]
    pub fn unpin(&self, seat: &mut Seat, pin: Pin) -> u64
        requires seat { IsSeatOf self.now seat.old }
        requires entry { IsEntryOf self.now pin.dom pin.gref }
        requires held { Holds (position_at self.now pin.dom) pin.gref.0 pin.dir (generation_of pin.word) seat.old.view }
        ensures seat { IsSameSeat seat.old seat.new }
        ensures fits { IsSeatOf self.now seat.new }
        ensures step { UnpinsPin self.now pin seat.old.view seat.new.view }
        ensures left { UnpinsPinTo self.now pin result seat.old.view seat.new.view }
    {
        let at = self.position(seat, pin.dom);
        self.unpin_at(seat, pin, at)
    }

    /// Stores a body word of the owner's invalid entry.
    pub fn store_body(&self, seat: &mut Seat, gref: GrantRef, body_word: BodyWord, value: u64)
        requires seat { IsSeatOf self.now seat.old }
        requires entry { gref.0 < TABLE_ENTRIES }
        requires invalid { (last_of gref.0 seat.old.view).entry ≡ Entry.Invalid }
        ensures seat { IsSameSeat seat.old seat.new }
        ensures fits { IsSeatOf self.now seat.new }
        ensures step { StoresBody self.now.layout gref.0 body_word value seat.old.view seat.new.view }
    {
        let at = EntryAt {
            position: seat.position,
            gref: gref.0 as usize,
        };
        self.words.store_body(&mut seat.place, at, body_word, value);
    }

    /// Publishes an entry at the next generation, by one exchange from the invalid word without pins. The owner has
    /// stored its body words.
    ///
    /// # Errors
    /// The word found, if the invalid entry still has pins from before a withdrawal. Nothing has changed.
    pub fn grant(&self, seat: &mut Seat, gref: GrantRef, word: u64, entry: Entry) -> Result<(), u64>
        requires seat { IsSeatOf self.now seat.old }
        requires entry { (gref.0 < TABLE_ENTRIES) × IsEntry entry }
        requires can { CanPublish entry gref.0 word seat.old.view }
        ensures seat { IsSameSeat seat.old seat.new }
        ensures fits { IsSeatOf self.now seat.new }
        ensures step { MatchResult result
            (λ _. Publishes self.now.layout gref.0 entry word seat.old.view seat.new.view)
            (λ n. MissesBusy self.now.layout gref.0 (EntryChange.Publish entry) word n seat.old.view seat.new.view) }
    {
        let at = EntryAt {
            position: seat.position,
            gref: gref.0 as usize,
        };
        calls::grant(&self.words, &mut seat.place, at, word, entry)
    }

    /// Makes the owner's entry invalid by one exchange from its idle word.
    ///
    /// # Errors
    /// The word found, if the entry has pins. Nothing has changed.
    pub fn revoke(&self, seat: &mut Seat, gref: GrantRef, word: u64) -> Result<(), u64>
        requires seat { IsSeatOf self.now seat.old }
        requires entry { gref.0 < TABLE_ENTRIES }
        requires can { CanRevoke gref.0 word seat.old.view }
        ensures seat { IsSameSeat seat.old seat.new }
        ensures fits { IsSeatOf self.now seat.new }
        ensures step { MatchResult result
            (λ _. Revokes self.now.layout gref.0 word seat.old.view seat.new.view)
            (λ n. MissesBusy self.now.layout gref.0 EntryChange.Revoke word n seat.old.view seat.new.view) }
    {
        let at = EntryAt {
            position: seat.position,
            gref: gref.0 as usize,
        };
        calls::revoke(&self.words, &mut seat.place, at, word)
    }

    /// Makes the owner's entry invalid by one exchange from `word`, and leaves its pins. No more are taken, and those
    /// that there are stay until they are released.
    ///
    /// # Errors
    /// The word found, if it is not `word`. Nothing has changed.
    pub fn withdraw(&self, seat: &mut Seat, gref: GrantRef, word: u64) -> Result<(), u64>
        requires seat { IsSeatOf self.now seat.old }
        requires entry { gref.0 < TABLE_ENTRIES }
        requires can { CanWithdraw gref.0 word seat.old.view }
        ensures seat { IsSameSeat seat.old seat.new }
        ensures fits { IsSeatOf self.now seat.new }
        ensures step { MatchResult result
            (λ _. Changes self.now.layout gref.0 EntryChange.Withdraw word seat.old.view seat.new.view)
            (λ n. MissesChange self.now.layout gref.0 EntryChange.Withdraw word n seat.old.view seat.new.view) }
    {
        let at = EntryAt {
            position: seat.position,
            gref: gref.0 as usize,
        };
        calls::withdraw(&self.words, &mut seat.place, at, word)
    }

    /// Makes the owner's writable entry read-only at the next generation, by one exchange from a word without write
    /// pins.
    ///
    /// # Errors
    /// The word found, if it is not `word`. Nothing has changed.
    pub fn demote(&self, seat: &mut Seat, gref: GrantRef, word: u64) -> Result<(), u64>
        requires seat { IsSeatOf self.now seat.old }
        requires entry { gref.0 < TABLE_ENTRIES }
        requires can { CanDemote gref.0 word seat.old.view }
        ensures seat { IsSameSeat seat.old seat.new }
        ensures fits { IsSeatOf self.now seat.new }
        ensures step { MatchResult result
            (λ _. Demotes self.now.layout gref.0 word seat.old.view seat.new.view)
            (λ n. MissesChange self.now.layout gref.0 EntryChange.Demote word n seat.old.view seat.new.view) }
    {
        let at = EntryAt {
            position: seat.position,
            gref: gref.0 as usize,
        };
        calls::demote(&self.words, &mut seat.place, at, word)
    }

    /// Makes the owner's read-only entry writable at the next generation, by one exchange from `word`.
    ///
    /// # Errors
    /// The word found, if it is not `word`. Nothing has changed.
    pub fn promote(&self, seat: &mut Seat, gref: GrantRef, word: u64) -> Result<(), u64>
        requires seat { IsSeatOf self.now seat.old }
        requires entry { gref.0 < TABLE_ENTRIES }
        requires can { CanTurn true gref.0 word seat.old.view }
        ensures seat { IsSameSeat seat.old seat.new }
        ensures fits { IsSeatOf self.now seat.new }
        ensures step { MatchResult result
            (λ _. Changes self.now.layout gref.0 EntryChange.Promote word seat.old.view seat.new.view)
            (λ n. MissesChange self.now.layout gref.0 EntryChange.Promote word n seat.old.view seat.new.view) }
    {
        let at = EntryAt {
            position: seat.position,
            gref: gref.0 as usize,
        };
        calls::promote(&self.words, &mut seat.place, at, word)
    }
}
