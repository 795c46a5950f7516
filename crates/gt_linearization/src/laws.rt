//! Consequences of the definitions. Each law is a function that does nothing; its contract is the law.
ghost use Rattle.gt_linearization.specs.Calling.{CopiesAreMade, HalvesAreMade, LostAccessesAreMade, LostCopiesAreMade};
ghost use Rattle.gt_linearization.specs.Calling.{MapsAreMade};
ghost use Rattle.gt_linearization.specs.Calling.{PlainCallsAreMade};
ghost use Rattle.gt_linearization.specs.Calling.{ReadsAreMade, ReleasesAreMade, UnmapsAreMade, WritesAreMade};
ghost use Rattle.gt_linearization.specs.Closing.{ClosingIsWithdrawing, ResettingIsReleasing, StatusIsLooking};
ghost use Rattle.gt_linearization.specs.Explored.{RunsAreExplored};
ghost use Rattle.gt_linearization.specs.Following.{FollowingIsCalling};
ghost use Rattle.gt_linearization.specs.Printed.{GivenTextsArePrinted, PrintedTextsAreGiven, RunsArePrinted};
ghost use Rattle.gt_linearization.specs.Printed.{UnloggedRunsPrint};
ghost use Rattle.gt_linearization.specs.Leaving.{LeavingIsReleasing};
ghost use Rattle.gt_linearization.specs.Laws.{CoreSeesTheWords, RunsHaveLegalOrders, StepsKeepAgreement};
ghost use Rattle.gt_linearization.specs.Texts.{RunsWriteALegalOrder, TextsAreOfALegalOrder};

use gt_live::Monitor;
use gt_types::Allows;

/// A law: if the items and the history have made the same words, and the step of the words records the word that is
/// there, then the core's step sees what that step shows.
pub fn core_sees_the_words()
    ensures { CoreSeesTheWords }
{}

/// A law: if the items and the history have made the same words, and the next step of an open call is made on the words
/// and is a right item, then they have made the same words after it.
pub fn steps_keep_agreement()
    ensures { StepsKeepAgreement }
{}

/// A law: the contracts of a domain's calls make each of them a call of a run, bytes and all. A copy that reached its
/// access and could not make it is the call of its probe. So is a copy in two halves, whose access its caller makes.
/// Nothing beyond the clauses of those contracts is needed.
pub fn calls_of_domains_are_made<P: Allows>(monitor: &Monitor<P>)
    ensures plain { PlainCallsAreMade P.may monitor.now }
    ensures unmaps { UnmapsAreMade P.may monitor.now }
    ensures releases { ReleasesAreMade P.may monitor.now }
    ensures maps { MapsAreMade P.may monitor.now }
    ensures writes { WritesAreMade P.may monitor.now }
    ensures reads { ReadsAreMade P.may monitor.now }
    ensures copies { CopiesAreMade P.may monitor.now }
    ensures lost { LostAccessesAreMade P.may monitor.now }
    ensures lost_copies { LostCopiesAreMade P.may monitor.now }
    ensures body_words { HalvesAreMade P.may monitor.now }
{}

/// A law: each run of the monitor whose calls are all finished is one legal interleaving of the core's events, in which
/// each call has the answer that its domain gave, bytes and all. A flag is raised before it is passed, and a look at an
/// entry that belongs to no call finds the control word that is there in the core.
pub fn every_run_has_a_legal_order()
    ensures { RunsHaveLegalOrders }
{}

/// A law: leaving is a release of each mapping, each Ok. So a run continues beyond a domain that leaves.
pub fn leaving_is_releasing()
    ensures { LeavingIsReleasing }
{}

/// A law: a run may have the calls `close`, `reset` and `status`. `close` makes withdrawals and looks, `reset` releases
/// each mapping before, and `status` makes one look, or nothing.
pub fn closing_is_withdrawing<P: Allows>(monitor: &Monitor<P>)
    ensures closes { ClosingIsWithdrawing P.may monitor.now }
    ensures resets { ResettingIsReleasing P.may monitor.now }
    ensures looks { StatusIsLooking P.may monitor.now }
{}

/// A law: a run may have the call `follow`. It makes at most two calls that change the entry.
pub fn following_is_calling<P: Allows>(monitor: &Monitor<P>)
    ensures { FollowingIsCalling P.may monitor.now }
{}

/// A law: the lists of a run print the answers of one legal interleaving of their calls, bytes and all.
pub fn every_text_is_of_a_legal_order<P: Allows>(monitor: &Monitor<P>)
    ensures { TextsAreOfALegalOrder P.may monitor.now }
{}

/// A law: what a run wrote, by the contract of `run`, is the text of one legal interleaving of its calls, bytes and
/// all.
pub fn every_run_writes_a_legal_order<P: Allows>(monitor: &Monitor<P>)
    ensures { RunsWriteALegalOrder P.may monitor.now }
{}

/// A law: what a run writes, but for its audit lines, is a text that the script may give, so one that `explore` lists,
/// bytes and all, if no list was stopped by its gate and no answer is N26. A gate that refuses no flag stops no list.
pub fn every_run_is_explored()
    ensures { RunsAreExplored }
{}

/// A law: what a run writes, but for its audit lines, is a text that a run of the script may print, bytes and all: that
/// of one legal order of its calls, with N26 for a call that got no memory, and with the line of a gate that stopped a
/// list. Of a copy that got no memory the order has the probe.
pub fn every_run_is_printed()
    ensures { RunsArePrinted }
{}

/// A law: without a log, all that `run` appends at Ok is such a text.
pub fn every_unlogged_run_is_printed()
    ensures { UnloggedRunsPrint }
{}

/// A law: a text that a run of the script may print is one that `explore` lists, if it has neither a line with N26 nor
/// the line of a gate. At a gate that refuses no flag, it is listed if it has no line with N26.
pub fn printed_texts_are_given()
    ensures { PrintedTextsAreGiven }
{}

/// A law: a text that `explore` lists is one that a run of the script may print, at any gate.
pub fn given_texts_are_printed()
    ensures { GivenTextsArePrinted }
{}
