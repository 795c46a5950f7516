//! Laws: what the rule of the table allows. A law does nothing; its contract is the theorem.
ghost use Rattle.gt_shared_table.specs.Laws.{AccessesGoOn, FramesAreTaken, FramesComeBack, FramesStay};
ghost use Rattle.gt_shared_table.specs.Laws.{FramesAreAwaited, FramesAreFreed, FramesAreLocked, FramesAreReturned};
ghost use Rattle.gt_shared_table.specs.Laws.{FramesHaveOneSlot};
ghost use Rattle.gt_shared_table.specs.Laws.{FlagsArePassed, FlagsMayBeRaised, FramesOpen, WordsAreStepped};
ghost use Rattle.gt_shared_table.specs.Locking.{CopiesLockUpwards, SeatsFormNoRing, SlotsAreInOrder};
ghost use Rattle.gt_shared_table.specs.Seats.{SeatsAreDealt, SeatsAreTakenIn};

/// A law: an access to a frame, or a step on a flag, may be the next step of the history.
pub fn every_access_is_a_step()
    ensures { AccessesGoOn }
{}

/// A law: a step on words, the taking of a frame and an access keep what the rule requires of frames.
pub fn every_frame_is_kept()
    ensures stay { FramesStay }
    ensures taken { FramesAreTaken }
    ensures back { FramesComeBack }
{}

/// A law: the rule of the table allows each kind of step: on words, on the locks of frames, and on flags.
pub fn every_step_is_allowed()
    ensures words { WordsAreStepped }
    ensures locks { FramesAreLocked }
    ensures awaits { FramesAreAwaited }
    ensures frees { FramesAreFreed }
    ensures returned { FramesAreReturned }
    ensures raises { FlagsMayBeRaised }
    ensures passes { FlagsArePassed }
{}

/// A law: the rule of the table holds at the start.
pub fn every_table_opens()
    ensures { FramesOpen }
{}

/// A law: no frame of a configuration has two slots.
pub fn every_frame_has_one_slot()
    ensures { FramesHaveOneSlot }
{}

/// A law: the first seat may deal a seat for each domain of the run, and take in each seat that holds no frame. Words,
/// frames and history are unchanged.
pub fn seats_come_and_go()
    ensures dealt { SeatsAreDealt }
    ensures taken_in { SeatsAreTakenIn }
{}

/// A law: seats that wait for frames never form a ring, in which each waits for a frame that the next one holds. The
/// frame in a lower slot is the lower one, a copy takes its locks upwards, and seats whose calls do so form no ring.
pub fn seats_never_wait_in_a_ring()
    ensures slots { SlotsAreInOrder }
    ensures upwards { CopiesLockUpwards }
    ensures no_ring { SeatsFormNoRing }
{}
