//! The single steps on the kit's table, each at the index of its word.
ghost use Rattle.std.specs.Prelude.{◌≡◌, ℕ, ◌+◌, ◌-◌, ◌%◌, ◌^◌, ◌<◌, ◌==◌, false};
ghost use prog.Atomic.{either};
ghost use Rattle.gt_model.specs.Words.{unit_of};
ghost use Rattle.gt_word_history.specs.Joining.{Learns};
ghost use Rattle.gt_word_history.specs.Moves.{MayTake, Takes, TakesStored};
ghost use Rattle.gt_word_history.specs.Places.{IsInside, IsWide};
ghost use Rattle.gt_word_history.specs.Rule.{header_place, layout_of, place};
ghost use Rattle.gt_word_history.specs.Steps.{body_word_index};
ghost use Rattle.gt_shared_table.specs.Bytes.{IsOnWords};
ghost use Rattle.gt_shared_table.specs.Words.{IsAlone};

use crate::rule::{CellSeat, Cells, LearnsOfAll, OfKind, StepOnWord, StoreOnWord};
use gt_entry::{BodyWord, pin_unit};
use gt_types::Dir;
use gt_word_history::{DOMAIN_WORDS, ENTRY_WORDS, EntryAt, Purpose};

// Returns the index of a body word among the words of its entry.
fn index_of(body_word: BodyWord) -> usize
    ensures index { result ≡ body_word_index body_word }
    ensures inside { result < 3 }
{
    match body_word {
        BodyWord::First => 1,
        BodyWord::Second => 2,
    }
}

// Loads the control word of an entry, once.
pub(crate) fn load_control_word<J: OfKind>(
    cells: &Cells,
    seat: &mut CellSeat,
    entry: EntryAt,
) -> u64
    requires table { (seat.old.table_id ≡ cells.now.table_id)
        × IsWide cells.now.table_id.words (layout_of cells.now.key) }
    requires inside { IsInside (layout_of cells.now.key) entry }
    requires alone { IsAlone seat.old.me }
    requires kind { (J.kind.layout ≡ layout_of cells.now.key) × (J.kind.leaves ≡ λ n. n)
        × ((n : ℕ) → IsOnWords (J.kind.step n)) }
    requires may { MayTake J.kind (place entry.position entry.gref 0) seat.old.me.0.own.own }
    ensures table { seat.new.table_id ≡ seat.old.table_id }
    ensures step { Takes J.kind (place entry.position entry.gref 0) result seat.old.me.0.own.own seat.new.me.0.own.own }
    ensures alone { IsAlone seat.new.me }
    ensures locks { seat.new.me.0.locks ≡ seat.old.me.0.locks }
{
    cells.load::<StepOnWord<J>>(
        seat,
        entry.position * DOMAIN_WORDS + entry.gref * ENTRY_WORDS + ENTRY_WORDS,
    )
}

// Loads a body word of an entry, once.
pub(crate) fn load_body_word<J: OfKind>(
    cells: &Cells,
    seat: &mut CellSeat,
    entry: EntryAt,
    body_word: BodyWord,
) -> u64
    requires table { (seat.old.table_id ≡ cells.now.table_id)
        × IsWide cells.now.table_id.words (layout_of cells.now.key) }
    requires inside { IsInside (layout_of cells.now.key) entry }
    requires alone { IsAlone seat.old.me }
    requires kind { (J.kind.layout ≡ layout_of cells.now.key) × (J.kind.leaves ≡ λ n. n)
        × ((n : ℕ) → IsOnWords (J.kind.step n)) }
    requires may { MayTake J.kind (place entry.position entry.gref (body_word_index body_word)) seat.old.me.0.own.own }
    ensures table { seat.new.table_id ≡ seat.old.table_id }
    ensures step { Takes J.kind (place entry.position entry.gref (body_word_index body_word)) result
        seat.old.me.0.own.own seat.new.me.0.own.own }
    ensures alone { IsAlone seat.new.me }
    ensures locks { seat.new.me.0.locks ≡ seat.old.me.0.locks }
{
    cells.load::<StepOnWord<J>>(
        seat,
        entry.position * DOMAIN_WORDS
            + entry.gref * ENTRY_WORDS
            + ENTRY_WORDS
            + index_of(body_word),
    )
}

// Stores a body word of an entry, once.
pub(crate) fn store_body_word<J: OfKind>(
    cells: &Cells,
    seat: &mut CellSeat,
    entry: EntryAt,
    body_word: BodyWord,
    new: u64,
)
    requires table { (seat.old.table_id ≡ cells.now.table_id)
        × IsWide cells.now.table_id.words (layout_of cells.now.key) }
    requires inside { IsInside (layout_of cells.now.key) entry }
    requires alone { IsAlone seat.old.me }
    requires kind { (J.kind.layout ≡ layout_of cells.now.key) × (J.kind.leaves ≡ λ _. new)
        × ((n : ℕ) → IsOnWords (J.kind.step n)) }
    requires may { MayTake J.kind (place entry.position entry.gref (body_word_index body_word)) seat.old.me.0.own.own }
    ensures table { seat.new.table_id ≡ seat.old.table_id }
    ensures step { TakesStored J.kind (place entry.position entry.gref (body_word_index body_word))
        seat.old.me.0.own.own seat.new.me.0.own.own }
    ensures alone { IsAlone seat.new.me }
    ensures locks { seat.new.me.0.locks ≡ seat.old.me.0.locks }
{
    cells.store::<StoreOnWord<J>>(
        seat,
        entry.position * DOMAIN_WORDS
            + entry.gref * ENTRY_WORDS
            + ENTRY_WORDS
            + index_of(body_word),
        new,
    )
}

// Exchanges the control word of an entry, once. Only the proof reads `purpose`.
pub(crate) fn exchange_word<J: OfKind>(
    cells: &Cells,
    seat: &mut CellSeat,
    entry: EntryAt,
    old: u64,
    new: u64,
    purpose: Purpose,
) -> u64
    requires table { (seat.old.table_id ≡ cells.now.table_id)
        × IsWide cells.now.table_id.words (layout_of cells.now.key) }
    requires inside { IsInside (layout_of cells.now.key) entry }
    requires alone { IsAlone seat.old.me }
    requires kind { (J.kind.layout ≡ layout_of cells.now.key) × (J.kind.leaves ≡ λ n. either (n == old) new n)
        × ((n : ℕ) → IsOnWords (J.kind.step n)) }
    requires may { MayTake J.kind (place entry.position entry.gref 0) seat.old.me.0.own.own }
    ensures table { seat.new.table_id ≡ seat.old.table_id }
    ensures step { Takes J.kind (place entry.position entry.gref 0) result seat.old.me.0.own.own seat.new.me.0.own.own }
    ensures alone { IsAlone seat.new.me }
    ensures locks { seat.new.me.0.locks ≡ seat.old.me.0.locks }
{
    let _ = purpose;
    cells.compare_exchange::<StepOnWord<J>>(
        seat,
        entry.position * DOMAIN_WORDS + entry.gref * ENTRY_WORDS + ENTRY_WORDS,
        old,
        new,
    )
}

// Subtracts a pin from the control word of an entry, once. Only the proof reads `generation`.
pub(crate) fn subtract_from_word<J: OfKind>(
    cells: &Cells,
    seat: &mut CellSeat,
    entry: EntryAt,
    dir: Dir,
    generation: u64,
) -> u64
    requires table { (seat.old.table_id ≡ cells.now.table_id)
        × IsWide cells.now.table_id.words (layout_of cells.now.key) }
    requires inside { IsInside (layout_of cells.now.key) entry }
    requires alone { IsAlone seat.old.me }
    requires kind { (J.kind.layout ≡ layout_of cells.now.key)
        × (J.kind.leaves ≡ λ n. (n + (2 ^ 64 - unit_of dir)) % 2 ^ 64)
        × ((n : ℕ) → IsOnWords (J.kind.step n)) }
    requires may { MayTake J.kind (place entry.position entry.gref 0) seat.old.me.0.own.own }
    ensures table { seat.new.table_id ≡ seat.old.table_id }
    ensures step { Takes J.kind (place entry.position entry.gref 0) result seat.old.me.0.own.own seat.new.me.0.own.own }
    ensures alone { IsAlone seat.new.me }
    ensures locks { seat.new.me.0.locks ≡ seat.old.me.0.locks }
{
    let _ = generation;
    cells.fetch_sub::<StepOnWord<J>>(
        seat,
        entry.position * DOMAIN_WORDS + entry.gref * ENTRY_WORDS + ENTRY_WORDS,
        pin_unit(dir),
    )
}

// Loads a header word, once.
pub(crate) fn load_header_word<J: OfKind>(cells: &Cells, seat: &mut CellSeat, at: usize) -> u64
    requires table { (seat.old.table_id ≡ cells.now.table_id)
        × IsWide cells.now.table_id.words (layout_of cells.now.key) }
    requires inside { at < (layout_of cells.now.key).domains }
    requires alone { IsAlone seat.old.me }
    requires kind { (J.kind.layout ≡ layout_of cells.now.key) × (J.kind.leaves ≡ λ n. n)
        × ((n : ℕ) → IsOnWords (J.kind.step n)) }
    requires may { MayTake J.kind (header_place at) seat.old.me.0.own.own }
    ensures table { seat.new.table_id ≡ seat.old.table_id }
    ensures step { Takes J.kind (header_place at) result seat.old.me.0.own.own seat.new.me.0.own.own }
    ensures alone { IsAlone seat.new.me }
    ensures locks { seat.new.me.0.locks ≡ seat.old.me.0.locks }
{
    cells.load::<StepOnWord<J>>(seat, at * DOMAIN_WORDS)
}

// Stores a header word, once.
pub(crate) fn store_header_word<J: OfKind>(cells: &Cells, seat: &mut CellSeat, at: usize, new: u64)
    requires table { (seat.old.table_id ≡ cells.now.table_id)
        × IsWide cells.now.table_id.words (layout_of cells.now.key) }
    requires inside { at < (layout_of cells.now.key).domains }
    requires alone { IsAlone seat.old.me }
    requires kind { (J.kind.layout ≡ layout_of cells.now.key) × (J.kind.leaves ≡ λ _. new)
        × ((n : ℕ) → IsOnWords (J.kind.step n)) }
    requires may { MayTake J.kind (header_place at) seat.old.me.0.own.own }
    ensures table { seat.new.table_id ≡ seat.old.table_id }
    ensures step { TakesStored J.kind (header_place at) seat.old.me.0.own.own seat.new.me.0.own.own }
    ensures alone { IsAlone seat.new.me }
    ensures locks { seat.new.me.0.locks ≡ seat.old.me.0.locks }
{
    cells.store::<StoreOnWord<J>>(seat, at * DOMAIN_WORDS, new)
}

// Loads one word. Its contract gives one state with the views of all seats that were taken in.
pub(crate) fn learn_all<J: OfKind>(cells: &Cells, seat: &mut CellSeat)
    requires fits { (seat.old.table_id ≡ cells.now.table_id) × (0 < cells.now.table_id.words)
        × (seat.old.me.0.own.own.position ≡ 0) }
    requires here { seat.old.me.0.own.gone ≡ false }
    requires run { J.kind.layout ≡ layout_of cells.now.key }
    ensures same { seat.new.me ≡ seat.old.me }
    ensures table { seat.new.table_id ≡ seat.old.table_id }
    ensures all { Learns J.kind.layout seat.old.me.0.own }
{
    cells.load::<LearnsOfAll<J>>(seat, 0);
}
