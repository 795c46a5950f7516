//! The rule of the table, and what its steps promise.
ghost use Rattle.std.specs.Prelude.{◌≡◌, ℕ, List, []};
ghost use Rattle.gt_frames.specs.Frames.{FrameState};
ghost use Rattle.gt_word_history.specs.History.{Layout};
ghost use Rattle.gt_word_history.specs.Joining.{outlook_of};
ghost use Rattle.gt_word_history.specs.Places.{first_view};
ghost use Rattle.gt_word_history.specs.Rule.{layout_of};
ghost use Rattle.gt_word_history.specs.Steps.{StepKind, looking};
ghost use Rattle.gt_word_history.specs.declared.view.FlagStep.TheVariants.{Raised};
ghost use Rattle.gt_word_history.specs.declared.view.FrameStep.{FrameStep};
ghost use Rattle.gt_word_history.specs.declared.view.FrameStep.TheVariants as frame_steps;
ghost use Rattle.gt_word_history.specs.declared.view.SeatStep.TheVariants.{Flag};
ghost use Rattle.gt_shared_table.specs.Rule.{FrameAt, HoldsAll, Places, newcomer, places_of};
ghost use Rattle.gt_shared_table.specs.Seats.{dealer, dealt_by, gone_holder, learns_all_of, taker};
ghost use Rattle.gt_shared_table.specs.Recording.{AddsStep, Frees, Locks, LooksAtFlag as looks_at_flag, Returns};
ghost use Rattle.gt_shared_table.specs.Recording.{no_places};
ghost use Rattle.gt_shared_table.specs.Words.{promises_word, promises_word_stored};

use atomic_table::{Join, Play, Seat, Shared, Split, TableRule};
use gt_frames::Frame;
use gt_types::Config;
use gt_word_history::Outlook;
use std::collections::LinkedList;
use std::marker::{Brand, PhantomData};

/// What a seat knows: of words and views, the frames that it took out, and whose locks it took. No value of it exists
/// at run time.
pub struct FrameHolder {
    pub own: Outlook,
    pub held: LinkedList<(u64, Frame)>,
    /// The frames whose locks it took, the last one first.
    pub locks: LinkedList<(u64, u64)>,
}

/// The rule of the table: words and views show a state of the core, and the frames are those of its history.
pub(crate) struct SharedRule;

impl TableRule<Option<Frame>, FrameHolder, Config> for SharedRule {
    ghost holds = { λ c. HoldsAll (places_of c) };

    ghost first = { λ c. newcomer (outlook_of (first_view (layout_of c))) };
}

/// A seat of the kit's table. It carries the slots of the frames that it took out.
pub(crate) type CellSeat = Seat<Option<Frame>, FrameHolder>;

/// The kit's table, as all seats see it.
pub(crate) type Cells = Shared<Option<Frame>, FrameHolder, Config, SharedRule>;

/// A frame's slot in the table, with the frame's name.
#[derive(Clone, Copy)]
pub(crate) struct FrameSlot {
    /// The index of its lock among the words.
    pub lock: usize,
    /// Its index among the slots.
    pub index: usize,
    /// The position of the frame's owner in the run.
    pub owner: u64,
    /// The frame's number in its owner, from 0.
    pub number: u64,
}

/// The kind of a step on a word. Each raw step picks one.
pub(crate) trait OfKind {
    ghost kind: { StepKind };
}

impl OfKind for Brand {
    ghost kind = { looking no_places.layout 0 0 };
}

/// The slot whose lock is taken. Each call picks one.
pub(crate) trait OfSlot {
    ghost places: { Places };

    ghost name: { FrameAt };

    ghost slot: { ℕ };
}

impl OfSlot for Brand {
    ghost places = { no_places };

    ghost name = { (0, 0) };

    ghost slot = { 0 };
}

/// The access by which a frame is freed. Each call picks one.
pub(crate) trait OfAccess {
    ghost places: { Places };

    ghost name: { FrameAt };

    ghost access: { FrameStep };

    ghost left: { List (ℕ × FrameState) };
}

impl OfAccess for Brand {
    ghost places = { no_places };

    ghost name = { (0, 0) };

    ghost access = { frame_steps.Read 0 [] };

    ghost left = { [] };
}

/// The flag of a step. Each call picks one.
pub(crate) trait OfFlag {
    ghost layout: { Layout };

    ghost flag: { ℕ };
}

impl OfFlag for Brand {
    ghost layout = { no_places.layout };

    ghost flag = { 0 };
}

/// A step on a word.
pub(crate) struct StepOnWord<J> {
    kind: PhantomData<J>,
}

impl<J: OfKind> Play<Option<Frame>, FrameHolder> for StepOnWord<J> {
    ghost then = { promises_word J.kind };
}

/// A store, which does not report what it found.
pub(crate) struct StoreOnWord<J> {
    kind: PhantomData<J>,
}

impl<J: OfKind> Play<Option<Frame>, FrameHolder> for StoreOnWord<J> {
    ghost then = { λ st m _ m'. promises_word_stored J.kind st m m' };
}

/// An attempt at a lock.
pub(crate) struct LocksSlot<J> {
    slot: PhantomData<J>,
}

impl<J: OfSlot> Play<Option<Frame>, FrameHolder> for LocksSlot<J> {
    ghost then = { λ _ m n m'. Locks J.places J.name J.slot m n m' };
}

/// The store that frees a frame. By it an access takes place.
pub(crate) struct FreesBy<J> {
    access: PhantomData<J>,
}

impl<J: OfAccess> Play<Option<Frame>, FrameHolder> for FreesBy<J> {
    ghost then = { λ _ m _ m'. Frees J.places J.name J.access J.left m m' };
}

/// The store that frees a frame unchanged.
pub(crate) struct ReturnsTo<J> {
    access: PhantomData<J>,
}

impl<J: OfAccess> Play<Option<Frame>, FrameHolder> for ReturnsTo<J> {
    ghost then = { λ _ m _ m'. Returns J.left m m' };
}

/// The store that raises a flag.
pub(crate) struct RaisesFlag<J> {
    flag: PhantomData<J>,
}

impl<J: OfFlag> Play<Option<Frame>, FrameHolder> for RaisesFlag<J> {
    ghost then = { λ _ m _ m'. AddsStep J.layout (Flag J.flag Raised) m m' };
}

/// A load of a flag's word.
pub(crate) struct LooksAtFlag<J> {
    flag: PhantomData<J>,
}

impl<J: OfFlag> Play<Option<Frame>, FrameHolder> for LooksAtFlag<J> {
    ghost then = { λ _ m n m'. looks_at_flag J.layout J.flag m n m' };
}

/// The deal of the next seat by the first one.
pub(crate) struct Deal;

impl Split<FrameHolder> for Deal {
    ghost left = { dealer };

    ghost right = { dealt_by };
}

/// The taking in of another seat by the first one.
pub(crate) struct TakeIn;

impl Join<FrameHolder> for TakeIn {
    ghost both = { taker };

    ghost spent = { gone_holder };
}

/// The step by which the first seat learns of all the seats that it took in.
pub(crate) struct LearnsOfAll<J> {
    kind: PhantomData<J>,
}

impl<J: OfKind> Play<Option<Frame>, FrameHolder> for LearnsOfAll<J> {
    ghost then = { learns_all_of J.kind };
}
