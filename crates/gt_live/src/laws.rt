//! Consequences of the definitions, for readers. A law does nothing; its contract is the theorem.
ghost use Rattle.gt_live.specs.Following.{FollowingMakesCalls, MarksChangeNoMeaning};
ghost use Rattle.gt_live.specs.Halves.{TwoHalvesMakeACopy};
ghost use Rattle.gt_live.specs.Tries.{ChangesMakeFourTries, FourTriesWereMissed, LegsMakeFourTries};

use crate::monitor::Monitor;
use gt_types::Allows;

/// A law: a leg makes at most four tries for its pin. A missed try leads to the next, and the fourth to N18 with the
/// word that it found.
pub fn every_leg_makes_four_tries()
    ensures { LegsMakeFourTries }
{}

/// A law: a demote, a promote and a withdraw make at most four exchanges. A missed one leads to the next, and the
/// fourth to N18 with the word that it found.
pub fn every_change_makes_four_tries()
    ensures { ChangesMakeFourTries }
{}

/// A law: a call that is refused by N18 made exactly four tries in its last leg, or of its change. Each was missed: its
/// last step found another word than the one looked at. The refusal carries the word that the fourth found.
pub fn every_call_that_gives_up_missed_four_tries()
    ensures { FourTriesWereMissed }
{}

/// A law: a copy that reached its access, and whose pins were then released, is a whole copy of its path.
pub fn two_halves_make_a_copy()
    ensures { TwoHalvesMakeACopy }
{}

/// A law: the bytes of an entry mean the same when the hypervisor has set `GTF_reading` or `GTF_writing` in them.
pub fn marks_change_no_meaning()
    ensures { MarksChangeNoMeaning }
{}

/// A law: what `follow` does to a domain of this monitor is at most two of the domain's other calls.
pub fn following_makes_calls<P: Allows>(monitor: &Monitor<P>)
    ensures { FollowingMakesCalls P.may monitor.now }
{}
