//! The table and its seats. Their fields are private, so that contracts see only the values that they name.
ghost use Rattle.std.specs.Prelude.{◌≡◌, ◌<◌};
ghost use Rattle.gt_word_history.specs.Moves.{MayTake, Takes, TakesStored};
ghost use Rattle.gt_word_history.specs.Places.{Board, IsInside, SeatAt};
ghost use Rattle.gt_word_history.specs.Rule.{header_place, layout_of, place};
ghost use Rattle.gt_word_history.specs.Steps.{exchanging, body_word_index, looking, looking_at_header, reading, storing};
ghost use Rattle.gt_word_history.specs.Steps.{storing_header, unpinning};
ghost use Rattle.gt_shared_table.specs.Rule.{flag_place, places_of};
ghost use Rattle.gt_shared_table.specs.Words.{HasWordsAndFlags, HasTable, IsAlone, first_slots, frames_kept};

use crate::raw::{
    exchange_word, load_body_word, load_control_word, load_header_word, store_body_word,
    store_header_word, subtract_from_word,
};
use crate::rule::{CellSeat, FrameHolder, SharedRule};
use atomic_table::Table;
use gt_entry::BodyWord;
use gt_frames::Frame;
use gt_types::{Config, Dir};
use gt_word_history::{EntryAt, Purpose};
use std::alloc::Global;
use std::marker::{Brand, Model};

/// The words of all entries and headers of a run, its frames, and flags.
#[derive(Drop)]
pub struct SharedTable {
    pub(crate) table: Table<Option<Frame>, FrameHolder, Config, SharedRule, Global>,
    /// The slot of each domain's first frame.
    pub(crate) firsts: Vec<usize>,
    /// The number of frames of each domain.
    pub(crate) frames: Vec<u64>,
    /// The index of the first flag's word.
    pub(crate) first_flag: usize,
    /// The number of flags.
    pub(crate) flags: u32,
}

impl Model for SharedTable {
    ghost Value = { Board };

    ghost view = { λ w. record {
      table = w.table.shared.table_id;
      layout = layout_of w.table.shared.key;
      frames = frames_kept w.table.shared.key;
      flags = w.flags;
    } };

    ghost invariant = { λ w. HasWordsAndFlags w.table.shared.table_id (places_of w.table.shared.key) w.flags
        × (w.first_flag ≡ flag_place (places_of w.table.shared.key) 0)
        × HasTable w.table.shared.key × (w.firsts.items ≡ first_slots 0 w.table.shared.key.domains.items)
        × (w.frames.items ≡ frames_kept w.table.shared.key) };
}

/// The right to step on the words and to access the frames. Each step adds itself to the view of its seat.
#[derive(Drop)]
pub struct TableSeat {
    pub(crate) seat: CellSeat,
}

impl Model for TableSeat {
    ghost Value = { SeatAt };

    ghost view = { λ s. record { table = s.seat.table_id; view = s.seat.me.0.own.own; locks = s.seat.me.0.locks } };

    ghost invariant = { λ s. IsAlone s.seat.me };
}

/// A frame of the table: the position of its domain in the run, and its number there.
#[derive(Clone, Copy)]
pub struct FrameIndex {
    pub position: usize,
    pub number: u64,
}

impl SharedTable {
    /// Loads the control word of an entry.
    #[inline]
    pub fn load_control(&self, seat: &mut TableSeat, entry: EntryAt) -> u64
        requires table { seat.old.table ≡ self.now.table }
        requires inside { IsInside self.now.layout entry }
        requires may { MayTake (looking self.now.layout entry.position entry.gref)
            (place entry.position entry.gref 0) seat.old.view }
        ensures table { seat.new.table ≡ seat.old.table }
        ensures locks { seat.new.locks ≡ seat.old.locks }
        ensures step { Takes (looking self.now.layout entry.position entry.gref)
            (place entry.position entry.gref 0) result seat.old.view seat.new.view }
    {
        load_control_word::<Brand>(&self.table.shared, &mut seat.seat, entry)
    }

    /// Loads a body word of an entry.
    #[inline]
    pub fn load_body(&self, seat: &mut TableSeat, entry: EntryAt, body_word: BodyWord) -> u64
        requires table { seat.old.table ≡ self.now.table }
        requires inside { IsInside self.now.layout entry }
        requires may { MayTake (reading self.now.layout entry.position entry.gref body_word)
            (place entry.position entry.gref (body_word_index body_word)) seat.old.view }
        ensures table { seat.new.table ≡ seat.old.table }
        ensures locks { seat.new.locks ≡ seat.old.locks }
        ensures step { Takes (reading self.now.layout entry.position entry.gref body_word)
            (place entry.position entry.gref (body_word_index body_word)) result seat.old.view seat.new.view }
    {
        load_body_word::<Brand>(&self.table.shared, &mut seat.seat, entry, body_word)
    }

    /// Stores a body word of an entry.
    #[inline]
    pub fn store_body(&self, seat: &mut TableSeat, entry: EntryAt, body_word: BodyWord, value: u64)
        requires table { seat.old.table ≡ self.now.table }
        requires inside { IsInside self.now.layout entry }
        requires may { MayTake (storing self.now.layout entry.position entry.gref body_word value)
            (place entry.position entry.gref (body_word_index body_word)) seat.old.view }
        ensures table { seat.new.table ≡ seat.old.table }
        ensures locks { seat.new.locks ≡ seat.old.locks }
        ensures step { TakesStored (storing self.now.layout entry.position entry.gref body_word value)
            (place entry.position entry.gref (body_word_index body_word)) seat.old.view seat.new.view }
    {
        store_body_word::<Brand>(&self.table.shared, &mut seat.seat, entry, body_word, value)
    }

    /// Exchanges the control word of an entry if it is `old`, and returns the word found. The step in the view has the
    /// purpose.
    #[inline]
    pub fn exchange(
        &self,
        seat: &mut TableSeat,
        entry: EntryAt,
        old: u64,
        new: u64,
        purpose: Purpose,
    ) -> u64
        requires table { seat.old.table ≡ self.now.table }
        requires inside { IsInside self.now.layout entry }
        requires may { MayTake (exchanging self.now.layout entry.position entry.gref seat.old.view purpose old new)
            (place entry.position entry.gref 0) seat.old.view }
        ensures table { seat.new.table ≡ seat.old.table }
        ensures locks { seat.new.locks ≡ seat.old.locks }
        ensures step { Takes (exchanging self.now.layout entry.position entry.gref seat.old.view purpose old new)
            (place entry.position entry.gref 0) result seat.old.view seat.new.view }
    {
        exchange_word::<Brand>(&self.table.shared, &mut seat.seat, entry, old, new, purpose)
    }

    /// Subtracts a pin from the control word of an entry, and returns the word found. The step in the view has the
    /// pin's generation.
    #[inline]
    pub fn subtract_pin(
        &self,
        seat: &mut TableSeat,
        entry: EntryAt,
        dir: Dir,
        generation: u64,
    ) -> u64
        requires table { seat.old.table ≡ self.now.table }
        requires inside { IsInside self.now.layout entry }
        requires may { MayTake (unpinning self.now.layout entry.position entry.gref dir generation)
            (place entry.position entry.gref 0) seat.old.view }
        ensures table { seat.new.table ≡ seat.old.table }
        ensures locks { seat.new.locks ≡ seat.old.locks }
        ensures step { Takes (unpinning self.now.layout entry.position entry.gref dir generation)
            (place entry.position entry.gref 0) result seat.old.view seat.new.view }
    {
        subtract_from_word::<Brand>(&self.table.shared, &mut seat.seat, entry, dir, generation)
    }

    /// Loads the header word of the domain at a position.
    #[inline]
    pub fn load_header(&self, seat: &mut TableSeat, at: usize) -> u64
        requires table { seat.old.table ≡ self.now.table }
        requires inside { at < self.now.layout.domains }
        requires may { MayTake (looking_at_header self.now.layout at) (header_place at) seat.old.view }
        ensures table { seat.new.table ≡ seat.old.table }
        ensures locks { seat.new.locks ≡ seat.old.locks }
        ensures step { Takes (looking_at_header self.now.layout at) (header_place at) result
            seat.old.view seat.new.view }
    {
        load_header_word::<Brand>(&self.table.shared, &mut seat.seat, at)
    }

    /// Stores the header word of the domain at a position.
    #[inline]
    pub fn store_header(&self, seat: &mut TableSeat, at: usize, word: u64)
        requires table { seat.old.table ≡ self.now.table }
        requires inside { at < self.now.layout.domains }
        requires may { MayTake (storing_header self.now.layout at word) (header_place at) seat.old.view }
        ensures table { seat.new.table ≡ seat.old.table }
        ensures locks { seat.new.locks ≡ seat.old.locks }
        ensures step { TakesStored (storing_header self.now.layout at word) (header_place at)
            seat.old.view seat.new.view }
    {
        store_header_word::<Brand>(&self.table.shared, &mut seat.seat, at, word)
    }
}
