//! Laws about conditions that are refused, and about expressions that are read.
ghost use Rattle.std.specs.Prelude.{ℕ, List};
ghost use Rattle.gt_explore_verdict.specs.Expressions.{Asked};
ghost use Rattle.gt_explore_verdict.specs.Grammar.{IsReadAsWritten, IsWrittenAsPhrase, Phrase, disjunction};
ghost use Rattle.gt_explore_verdict.specs.Joining.{HasJoinedTermsMet, IsReadWithoutExcluded};
ghost use Rattle.gt_explore_verdict.specs.Refusing.{AreNeverBothMet, AreNeverBothSatisfied, IsNeverAnswered, IsNeverMet};
ghost use Rattle.gt_explore_verdict.specs.declared.calls.PlacedCall.{PlacedCall};

/// A law: if no answer can be one that a condition is about, then no text of answers satisfies the condition.
#[tactic(auto, using(crate::proofs::Refusing::never_met))]
pub fn every_impossible_condition_is_never_met()
    ensures { (asked : Asked) → IsNeverMet asked }
{}

/// A law: if one condition excludes another one, no line of a text meets both.
#[tactic(auto, using(crate::proofs::Refusing::never_both))]
pub fn every_two_that_exclude_are_never_both_met()
    ensures { (one other : Asked) → AreNeverBothMet one other }
{}

/// A law: no text with one answer to each line satisfies two conditions of which one excludes the other.
#[tactic(auto, using(crate::proofs::Refusing::never_both_satisfied))]
pub fn every_two_that_exclude_are_never_both_satisfied()
    ensures { (one other : Asked) → AreNeverBothSatisfied one other }
{}

/// A law: if no call of a script that a condition is about can answer with its words, then no text satisfies the
/// condition whose lines are answers to these calls.
#[tactic(auto, using(crate::proofs::Refusing::never_answered))]
pub fn every_unanswered_condition_is_never_met()
    ensures { (calls : List PlacedCall) (asked : Asked) → IsNeverAnswered calls asked }
{}

/// A law: if an expression that is read is written as a phrase, the texts that satisfy it are those of which the phrase
/// holds.
#[tactic(auto, using(crate::proofs::ReadAsWritten::read_as_written))]
pub fn every_expression_is_read_as_it_is_written()
    ensures { (phrase : Phrase disjunction) (expression : List ℕ) → IsReadAsWritten phrase expression }
{}

/// A law: each expression that is read is written as a phrase.
#[tactic(auto, using(crate::proofs::Written::written))]
pub fn every_expression_that_is_read_is_a_phrase()
    ensures { (expression : List ℕ) → IsWrittenAsPhrase expression }
{}

/// A law: no term of an expression that is read is excluded by an earlier one that must hold with it.
#[tactic(auto, using(crate::proofs::ReadAsWritten::read_without_excluded))]
pub fn no_term_of_an_expression_that_is_read_is_excluded()
    ensures { (phrase : Phrase disjunction) (expression : List ℕ) → IsReadWithoutExcluded phrase expression }
{}

/// A law: the terms that must hold if a phrase does are met by each text of which it holds.
#[tactic(auto, using(crate::proofs::Joining::joined_terms_met))]
pub fn every_joined_term_of_a_phrase_that_holds_is_met()
    ensures { (phrase : Phrase disjunction) → HasJoinedTermsMet phrase }
{}
