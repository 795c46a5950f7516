//! The expression of a claim about a script.
ghost use Rattle.std.specs.Prelude.{◌≡◌, ◌++◌, IfErr, IfOk, OnOk, map};
ghost use Rattle.std.specs.List.{flat_map};
ghost use Rattle.gt_script.specs.Preceding.{is_call};
ghost use Rattle.gt_script.specs.RunContents.{run_contents};
ghost use Rattle.gt_explore_verdict.specs.Formulas.{formula_asked, operation_asked, satisfies};
ghost use Rattle.gt_explore_answers.specs.Texts.{texts_of_orders};
ghost use Rattle.gt_explore_answers.specs.Exploring.{AreAsked, AreConditions, IsExpressionFault, IsFaultAsked};
ghost use Rattle.gt_explore_answers.specs.Exploring.{call_of_task, first_unplaced, name_of_call};

use crate::asking::ExploreRequest;
use gt_explore_search::FoundText;
use gt_explore_verdict::{
    CallName, ConditionFault, ExpressionFault, Operation, PlacedCall, first_unanswered,
    operations_of, satisfies,
};
use gt_script::{RunAction, RunScript, RunTask};
use gt_script_lines::ScriptCall;
use gt_types::{DomId, DomainConfig};
use std::alloc::{AllocError, Global};

/// Returns whether an action is a call.
pub fn is_call(action: &RunAction) -> bool
    ensures { result ≡ is_call action.now }
{
    match action {
        RunAction::Do(_) => true,
        RunAction::Tell(_) | RunAction::Await(_) => false,
    }
}

// Returns the kind of a call.
fn name_of_call(call: &ScriptCall) -> CallName
    ensures { result ≡ name_of_call call.now }
{
    match call {
        ScriptCall::Grant { .. } => CallName::Grant,
        ScriptCall::GrantBytes { .. } => CallName::GrantBytes,
        ScriptCall::Revoke { .. } => CallName::Revoke,
        ScriptCall::Withdraw { .. } => CallName::Withdraw,
        ScriptCall::Demote { .. } => CallName::Demote,
        ScriptCall::Promote { .. } => CallName::Promote,
        ScriptCall::Map { .. } => CallName::Map,
        ScriptCall::Unmap { .. } => CallName::Unmap,
        ScriptCall::Load { .. } => CallName::Load,
        ScriptCall::Store { .. } => CallName::Store,
        ScriptCall::Peek { .. } => CallName::Peek,
        ScriptCall::Poke { .. } => CallName::Poke,
        ScriptCall::Copy(_) => CallName::Copy,
        ScriptCall::SetVersion { .. } => CallName::SetVersion,
        ScriptCall::SetupTable { .. } => CallName::SetupTable,
        ScriptCall::QuerySize { .. } => CallName::QuerySize,
        ScriptCall::GetVersion { .. } => CallName::GetVersion,
    }
}

// Appends the call of a task, if its action is one.
fn push_call(calls: &mut Vec<PlacedCall>, task: &RunTask) -> Result<(), AllocError>
    ensures { OnOk result (calls.new.items ≡ calls.old.items ++ call_of_task task.now) }
{
    match &task.run_action {
        RunAction::Do(call) => {
            calls.push(PlacedCall {
                line: task.line,
                dom: task.dom,
                call: name_of_call(call),
            })?;
            Ok(())
        }
        RunAction::Tell(_) | RunAction::Await(_) => Ok(()),
    }
}

// Returns the calls of these tasks.
fn calls_in(alloc: Global, tasks: &[RunTask]) -> Result<Vec<PlacedCall>, AllocError>
    ensures { IfOk result (λ calls. calls.items ≡ flat_map call_of_task tasks.now) }
{
    let mut calls = Vec::new(alloc);
    'tasks: for task in tasks {
        push_call(&mut calls, task)?;
    }
    Ok(calls)
}

// Returns the numbers of these domains.
fn ids_in(alloc: Global, domains: &[DomainConfig]) -> Result<Vec<DomId>, AllocError>
    ensures { IfOk result (λ ids. ids.items ≡ map (λ d. d.id) domains.now) }
{
    let mut ids = Vec::new(alloc);
    'domains: for domain in domains {
        ids.push(domain.id)?;
    }
    Ok(ids)
}

// Returns the number and the reason of the first term that no answer of the script meets.
fn first_unplaced(
    alloc: Global,
    script: &RunScript,
    conditions: &[Operation<'_>],
) -> Result<Option<(usize, ConditionFault)>, AllocError>
    ensures { IfOk result (λ found.
        found ≡ first_unplaced (run_contents script.now) (map operation_asked conditions.now)) }
{
    let calls = calls_in(alloc, script.tasks())?;
    let ids = ids_in(alloc, script.head().domains())?;
    first_unanswered(alloc, conditions, calls.as_slice(), ids.as_slice())
}

/// Reads an expression about the texts of a script.
///
/// # Errors
/// `Term` with the first fault of the expression, or with the first term that no answer of the script meets; and
/// `Memory`.
pub fn conditions_for<'e>(
    alloc: Global,
    script: &RunScript,
    expression: &'e str,
) -> Result<Vec<Operation<'e>>, ExpressionFault>
    ensures ok { IfOk result (λ cs.
        AreConditions (run_contents script.now) expression.entry.now (map operation_asked cs.items)) }
    ensures fault { IfErr result (IsExpressionFault (run_contents script.now) expression.entry.now) }
{
    let conditions = operations_of(alloc, expression)?;
    match first_unplaced(alloc, script, conditions.as_slice()) {
        Ok(None) => Ok(conditions),
        Ok(Some((number, fault))) => Err(ExpressionFault::Term { number, fault }),
        Err(_) => Err(ExpressionFault::Memory),
    }
}

/// Reads the expression of a request. Only a claim has one.
///
/// # Errors
/// Those of `conditions_for`.
pub fn conditions_asked<'e>(
    alloc: Global,
    script: &RunScript,
    request: ExploreRequest<'e>,
) -> Result<Vec<Operation<'e>>, ExpressionFault>
    ensures ok { IfOk result (λ cs. AreAsked (run_contents script.now) request.entry (map operation_asked cs.items)) }
    ensures fault { IfErr result (IsFaultAsked (run_contents script.now) request.entry) }
{
    match request {
        ExploreRequest::Decide { expression, .. } => conditions_for(alloc, script, expression),
        ExploreRequest::Texts | ExploreRequest::Has(_) => Ok(Vec::new(alloc)),
        ExploreRequest::Witness(_) | ExploreRequest::Witnesses => Ok(Vec::new(alloc)),
    }
}

/// Returns for each text whether it satisfies an expression.
pub fn satisfied(
    alloc: Global,
    conditions: &[Operation<'_>],
    texts: &[FoundText],
) -> Result<Vec<bool>, AllocError>
    ensures { IfOk result (λ met.
        met.items ≡ map (satisfies (formula_asked conditions.now)) (texts_of_orders texts.now)) }
{
    let mut met = Vec::new(alloc);
    'texts: for order in texts {
        met.push(satisfies(alloc, conditions, order.text.as_slice())?)?;
    }
    Ok(met)
}
