//! Expressions about the texts of a script, and verdicts on claims about them.
//!
//! [`operations_of`] reads an expression, such as `15=N19 & !2:N18`, as operations on conditions. [`satisfies`] returns
//! whether a text satisfies them, and [`judge`] decides a claim about a set of texts: that one of them does, that none
//! does, or that each does. [`first_unanswered`] finds a condition that no call of a script can meet.
//!
//! A text has a line `LINE DOMAIN ANSWER` for each answer. The result of each of these functions is defined in
//! `specs/`. It uses `gt_types` (rules, statuses and permissions) and `gt_text` (numbers).
#![tactic(auto)]

mod calls;
mod conditions;
mod fault;
mod forms;
mod judging;
mod laws;
mod lines;
mod operations;
mod placing;
mod reading;
mod rules;

pub use calls::{CallName, PlacedCall, may_answer};
pub use conditions::{Condition, Place};
pub use fault::{ConditionFault, ExpressionFault};
pub use forms::{AnswerForm, may_begin};
pub use judging::{Claim, Judgement, Verdict, judge, verdict_at};
pub use laws::{
    every_expression_is_read_as_it_is_written, every_expression_that_is_read_is_a_phrase,
    every_impossible_condition_is_never_met, every_joined_term_of_a_phrase_that_holds_is_met,
    every_two_that_exclude_are_never_both_met, every_two_that_exclude_are_never_both_satisfied,
    every_unanswered_condition_is_never_met, no_term_of_an_expression_that_is_read_is_excluded,
};
pub use lines::{line_words, lines_in};
pub use operations::{Operation, satisfies};
pub use placing::{first_unanswered, is_written};
pub use reading::operations_of;
