//! Conditions on the calls of a script.
ghost use Rattle.std.specs.Prelude.{◌≡◌, ◌&&◌, decimal, IfOk, List, map};
ghost use Rattle.std.specs.List.{list_any};
ghost use Rattle.std.specs.Str.{bytes_eq};
ghost use Rattle.gt_explore_verdict.specs.Calls.{may_answer};
ghost use Rattle.gt_explore_verdict.specs.Expressions.{condition_asked, place_asked};
ghost use Rattle.gt_explore_verdict.specs.Formulas.{operation_asked};
ghost use Rattle.gt_explore_verdict.specs.Placing.{call_on, fault_at, fault_in_domain, fault_on_line, first_unanswered};
ghost use Rattle.gt_explore_verdict.specs.Placing.{is_answered, is_askable, is_call_at, operation_fault, place_fault};
ghost use Rattle.gt_explore_verdict.specs.Placing.{terms_of};

use crate::calls::{CallName, PlacedCall, form_begun, may_answer};
use crate::conditions::{Condition, Place};
use crate::fault::ConditionFault;
use crate::operations::Operation;
use gt_text::push_number;
use gt_types::DomId;
use std::alloc::{AllocError, Global};

/// Returns whether a number is written so.
pub fn is_written(alloc: Global, number: usize, text: &[u8]) -> Result<bool, AllocError>
    ensures { IfOk result (λ b. b ≡ bytes_eq (decimal number) text.now) }
{
    let mut digits = Vec::new(alloc);
    push_number(&mut digits, number)?;
    Ok(digits.as_slice() == text)
}

// Returns whether a call is one that a condition is about.
fn is_call_at(alloc: Global, place: Place<'_>, call: PlacedCall) -> Result<bool, AllocError>
    ensures { IfOk result (λ b. b ≡ is_call_at (place_asked place.entry) call) }
{
    match place {
        Place::Anywhere => Ok(false),
        Place::Line(number) => is_written(alloc, call.line, number),
        Place::Domain(number) => is_written(alloc, usize::from(call.dom.0), number),
    }
}

// Returns whether a call is one that a condition is about, and can answer with its words.
fn answers_at(
    alloc: Global,
    condition: &Condition<'_>,
    call: PlacedCall,
) -> Result<bool, AllocError>
    ensures { IfOk result (λ b. b ≡ (is_call_at (condition_asked condition.now).place call
        && may_answer call.call (condition_asked condition.now).words)) }
{
    let is_here = is_call_at(alloc, condition.place, call)?;
    Ok(is_here && may_answer(call.call, condition.first, condition.more.as_slice()))
}

// Returns whether one of the calls that a condition is about can answer with its words.
fn is_answered(
    alloc: Global,
    condition: &Condition<'_>,
    calls: &[PlacedCall],
) -> Result<bool, AllocError>
    ensures { IfOk result (λ b. b
        ≡ is_answered (condition_asked condition.now).place (condition_asked condition.now).words calls.now) }
{
    'calls: for call in calls {
        if answers_at(alloc, condition, *call)? {
            return Ok(true);
        }
    }
    Ok(false)
}

// Returns whether a condition is on all answers, or one of the calls that it is about can answer with its words.
fn is_askable(
    alloc: Global,
    condition: &Condition<'_>,
    calls: &[PlacedCall],
) -> Result<bool, AllocError>
    ensures { IfOk result (λ b. b ≡ is_askable (condition_asked condition.now) calls.now) }
{
    match condition.place {
        Place::Anywhere => Ok(true),
        Place::Line(_) | Place::Domain(_) => is_answered(alloc, condition, calls),
    }
}

// Returns the first call on the line of this number.
fn call_on(
    alloc: Global,
    number: &[u8],
    calls: &[PlacedCall],
) -> Result<Option<CallName>, AllocError>
    ensures { IfOk result (λ o. o ≡ call_on number.now calls.now) }
{
    'calls: for call in calls {
        if is_written(alloc, call.line, number)? {
            return Ok(Some(call.call));
        }
    }
    Ok(None)
}

// Returns whether one of these domains has this number.
fn has_domain(alloc: Global, number: &[u8], domains: &[DomId]) -> Result<bool, AllocError>
    ensures { IfOk result (λ b. b ≡ list_any (λ d. bytes_eq (decimal d.0) number.now) domains.now) }
{
    'domains: for domain in domains {
        if is_written(alloc, usize::from(domain.0), number)? {
            return Ok(true);
        }
    }
    Ok(false)
}

// Returns why no answer on a line with this call, or with none, meets a condition.
fn fault_on_line(call: Option<CallName>, condition: &Condition<'_>) -> ConditionFault
    ensures { result ≡ fault_on_line call (condition_asked condition.now).words }
{
    match call {
        Some(call) => ConditionFault::Unanswered {
            call,
            form: form_begun(condition.first, condition.more.as_slice()),
        },
        None => ConditionFault::NoCall,
    }
}

// Returns why no answer of a domain, if the script has it, meets a condition.
fn fault_in_domain(has_domain: bool, condition: &Condition<'_>) -> ConditionFault
    ensures { result ≡ fault_in_domain has_domain (condition_asked condition.now).words }
{
    if has_domain {
        ConditionFault::UnansweredByAll {
            form: form_begun(condition.first, condition.more.as_slice()),
        }
    } else {
        ConditionFault::NoDomain
    }
}

// Returns why no answer meets a condition that is on a line or a domain.
fn place_fault(
    alloc: Global,
    condition: &Condition<'_>,
    calls: &[PlacedCall],
    domains: &[DomId],
) -> Result<ConditionFault, AllocError>
    ensures { IfOk result (λ f. f ≡ place_fault (condition_asked condition.now) calls.now domains.now) }
{
    match condition.place {
        Place::Anywhere => Ok(ConditionFault::NoCall),
        Place::Line(number) => {
            let call = call_on(alloc, number, calls)?;
            Ok(fault_on_line(call, condition))
        }
        Place::Domain(number) => {
            let has_domain = has_domain(alloc, number, domains)?;
            Ok(fault_in_domain(has_domain, condition))
        }
    }
}

// Returns why no answer meets a condition, if none does.
fn fault_at(
    alloc: Global,
    condition: &Condition<'_>,
    calls: &[PlacedCall],
    domains: &[DomId],
) -> Result<Option<ConditionFault>, AllocError>
    ensures { IfOk result (λ o. o ≡ fault_at (condition_asked condition.now) calls.now domains.now) }
{
    if is_askable(alloc, condition, calls)? {
        return Ok(None);
    }
    let fault = place_fault(alloc, condition, calls, domains)?;
    Ok(Some(fault))
}

// Returns the same for an operation.
fn operation_fault(
    alloc: Global,
    operation: &Operation<'_>,
    calls: &[PlacedCall],
    domains: &[DomId],
) -> Result<Option<ConditionFault>, AllocError>
    ensures { IfOk result (λ o. o ≡ operation_fault (operation_asked operation.now) calls.now domains.now) }
{
    match operation {
        Operation::Term(condition) => fault_at(alloc, condition, calls, domains),
        Operation::Not | Operation::And | Operation::Or => Ok(None),
    }
}

// Returns the number of terms that an operation is: one or none.
fn terms_of(operation: &Operation<'_>) -> usize
    ensures { result ≡ terms_of (operation_asked operation.now) }
{
    match operation {
        Operation::Term(_) => 1,
        Operation::Not | Operation::And | Operation::Or => 0,
    }
}

/// Returns the number of the first term that no answer of a script with these calls and these domains meets, counted
/// from 1, and the reason.
///
/// # Errors
/// An allocation failed.
pub fn first_unanswered(
    alloc: Global,
    operations: &[Operation<'_>],
    calls: &[PlacedCall],
    domains: &[DomId],
) -> Result<Option<(usize, ConditionFault)>, AllocError>
    ensures { IfOk result (λ found.
        found ≡ first_unanswered calls.now domains.now 1 (map operation_asked operations.now)) }
{
    let mut number = 1;
    'operations: for operation in operations {
        if let Some(fault) = operation_fault(alloc, operation, calls, domains)? {
            return Ok(Some((number, fault)));
        }
        number += terms_of(operation);
    }
    Ok(None)
}
