//! Expressions: operations on conditions, and whether a text satisfies them.
ghost use Rattle.std.specs.Prelude.{◌≡◌, ◌&&◌, ◌||◌, [], IfOk, OnOk, if◌then◌else◌, map};
ghost use Rattle.gt_explore_verdict.specs.Formulas.{all_values, combined, formula_asked, negated, operation_asked};
ghost use Rattle.gt_explore_verdict.specs.Formulas.{last_value, satisfies, values_after};

use crate::conditions::Condition;
use crate::lines::{is_met_in, lines_in};
use std::alloc::{AllocError, Global};
use std::collections::VecDeque;

/// An operation of an expression. It comes after those of its operands.
#[derive(Drop)]
pub enum Operation<'e> {
    /// Some answer meets this condition.
    Term(Condition<'e>),
    /// The contrary of the last value.
    Not,
    /// Both of the last two values.
    And,
    /// One of the last two values, or both.
    Or,
}

// Replaces the last value by its contrary.
fn negate(values: &mut VecDeque<bool>) -> Result<(), AllocError>
    ensures { OnOk result (values.new.items ≡ negated values.old.items) }
{
    if let Some(value) = values.pop_front() {
        values.push_front(!value)?;
    }
    Ok(())
}

// Returns whether both hold, or, if `all` is false, whether one does.
fn both_or_one(all: bool, first: bool, second: bool) -> bool
    ensures { result ≡ (if all then first && second else first || second) }
{
    if all {
        first && second
    } else {
        first || second
    }
}

// Replaces the last two values by whether both hold, or, if `all` is false, by whether one does.
fn combine(values: &mut VecDeque<bool>, all: bool) -> Result<(), AllocError>
    ensures { OnOk result (values.new.items ≡ combined all values.old.items) }
{
    let Some(second) = values.pop_front() else {
        return Ok(());
    };
    let value = match values.pop_front() {
        Some(first) => both_or_one(all, first, second),
        None => second,
    };
    values.push_front(value)?;
    Ok(())
}

// Changes the values as an operation does, for a text with these lines.
fn apply(
    alloc: Global,
    values: &mut VecDeque<bool>,
    operation: &Operation<'_>,
    lines: &[&[u8]],
) -> Result<(), AllocError>
    ensures { OnOk result (values.new.items
        ≡ values_after (map (λ l. l.now) lines.now) values.old.items (operation_asked operation.now)) }
{
    match operation {
        Operation::Term(condition) => {
            values.push_front(is_met_in(alloc, condition, lines)?)?;
            Ok(())
        }
        Operation::Not => negate(values),
        Operation::And => combine(values, true),
        Operation::Or => combine(values, false),
    }
}

// Returns the values that are left after these operations, the last one first, for a text with these lines.
fn values_of(
    alloc: Global,
    operations: &[Operation<'_>],
    lines: &[&[u8]],
) -> Result<VecDeque<bool>, AllocError>
    ensures { IfOk result (λ values. values.items
        ≡ all_values (map (λ l. l.now) lines.now) [] (map operation_asked operations.now)) }
{
    let mut values = VecDeque::new(alloc);
    'operations: for operation in operations {
        apply(alloc, &mut values, operation, lines)?;
    }
    Ok(values)
}

// Returns the last value, true if there is none.
fn last_value(mut values: VecDeque<bool>) -> bool
    ensures { result ≡ last_value values.items }
{
    match values.pop_front() {
        Some(value) => value,
        None => true,
    }
}

/// Returns whether a text satisfies the formula of these operations. Each text satisfies that of none.
///
/// # Errors
/// An allocation failed.
#[tactic(auto, using(crate::proofs::Values::value_of_formula))]
pub fn satisfies(
    alloc: Global,
    operations: &[Operation<'_>],
    text: &[u8],
) -> Result<bool, AllocError>
    ensures { IfOk result (λ b. b ≡ satisfies (formula_asked operations.now) text.now) }
{
    let lines = lines_in(alloc, text)?;
    let values = values_of(alloc, operations, lines.as_slice())?;
    Ok(last_value(values))
}
