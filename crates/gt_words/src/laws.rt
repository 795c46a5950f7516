//! Consequences of the definitions, for callers. A law does nothing; its contract is the theorem.
ghost use Rattle.gt_words.specs.Laws.{DomainsAreOfRun, DomainsStandThere, PastPinsAreRefused, PinsAreOfEntries};
ghost use Rattle.gt_words.specs.Laws.{AllowedStepsRecordWhatIsThere, EachStepHappened, HistoryIsOne};
ghost use Rattle.gt_word_history.specs.Joining.{HoldersLearn, SeatsJoin, StepsLift};
ghost use Rattle.gt_words.specs.Laws.{NoPinOutlivesItsRecord, PinsHaveOneRecord};
ghost use Rattle.gt_words.specs.Laws.{PinsLeftAreCounted, SeatPositionIsItsDomains};
ghost use Rattle.gt_words.specs.Laws.{StepsAreTakenThen, WhatWasSeenIsListed, WordsFollowViews};

/// A law: a domain belongs to the run exactly if the configuration has it.
pub fn every_domain_is_of_the_run()
    ensures { DomainsAreOfRun }
{}

/// A law: a domain of the run is at its position.
pub fn every_domain_has_its_position()
    ensures { DomainsStandThere }
{}

/// A law: a seat is at the position of its domain.
pub fn every_seat_has_its_position()
    ensures { SeatPositionIsItsDomains }
{}

/// A law: in each state that words and views show, pins of one entry and generation have one record.
pub fn pins_of_one_generation_have_one_record()
    ensures { PinsHaveOneRecord }
{}

/// A law: in each state that words and views show, each pin is of an entry.
pub fn every_pin_is_of_an_entry()
    ensures { PinsAreOfEntries }
{}

/// A law: in each state that words and views show, the control word that a seat saw last of an entry encodes a record
/// of its owner's list. So do the body values read since, if that record is still the last one.
pub fn what_was_seen_is_listed()
    ensures { WhatWasSeenIsListed }
{}

/// A law: a pin that is left of a record is counted by each word of that record, or of a later one, that the owner
/// exchanged from. So no view has a pin of a revoked record.
pub fn every_pin_left_is_counted()
    ensures { PinsLeftAreCounted }
{}

/// A law: after an owner revoked its entry, or published it (after a withdrawal too), no view has a pin of the record
/// before, or of an earlier one. So no domain can read a page after its owner took it back.
pub fn no_pin_outlives_its_record()
    ensures { NoPinOutlivesItsRecord }
{}

/// A law: no pin is taken of a record that the owner's list has left behind. No step that takes one leads from a state
/// that words and views show to another.
pub fn no_pin_is_taken_of_a_past_record()
    ensures { PastPinsAreRefused }
{}

/// A law: two states that words and views show with the same views have the same words. So the word that a step leaves
/// is the one that its view records.
pub fn every_word_follows_from_the_views()
    ensures { WordsFollowViews }
{}

/// A law: a step that leads from a state that words and views show to another comes right after all steps before it,
/// and records the word that is there. So no body can report a step of another moment, or a word that its step did not
/// find.
pub fn every_step_is_taken_then()
    ensures { StepsAreTakenThen }
{}

/// A law: the views determine the history.
pub fn every_history_follows_from_the_views()
    ensures { HistoryIsOne }
{}

/// A law: if a raw step of the table is allowed, the step that it adds to its seat's view records the word that is
/// there.
pub fn every_allowed_step_records_what_is_there()
    ensures { AllowedStepsRecordWhatIsThere }
{}

/// A law: each step of a history, whoever took it, was taken at its moment. Words and views showed a state before it.
/// It records the word that was there, and a pin is of the last record then. It takes each entry and header to what its
/// event gives.
pub fn every_step_of_a_history_happened()
    ensures { EachStepHappened }
{}

/// A law: the first seat may take the others in. Its holder then learns of one state with the views of all.
pub fn seats_may_be_taken_in()
    ensures lift { StepsLift }
    ensures join { SeatsJoin }
    ensures learn { HoldersLearn }
{}
