//! Which allow statements of a policy break which `neverallow` statements.
ghost use Rattle.std.specs.Prelude.{[], IfOk, OnOk};
ghost use Rattle.std.specs.List.{flat_map};
ghost use Rattle.gt_neverallow.specs.Breaking.{AddsBreaches, AreBroken, breaks_with, broken_by, pairs_if};

use crate::example::breach_example;
use crate::statement::NeverStatement;
use gt_policy::LinedStatement;
use gt_policy_statements::{Member, members_of};
use std::alloc::{AllocError, Global};

/// An allow statement that grants what a `neverallow` statement forbids.
#[derive(Drop)]
pub struct Breach {
    /// The line of the allow statement in the policy.
    pub allowed: u32,
    /// The line of the `neverallow` statement in the other text.
    pub forbidden: u32,
    /// Some source, permission and target that the one grants and the other forbids, separated by blanks.
    pub example: Vec<u8>,
}

// Adds a breach, if the statement breaks the `neverallow` statement.
fn push_if_broken(
    alloc: Global,
    found: &mut Vec<Breach>,
    never: &NeverStatement,
    stated: &LinedStatement,
    members: &[Member],
) -> Result<(), AllocError>
    ensures { OnOk result (AddsBreaches members.now
        (pairs_if (breaks_with members.now never.now stated.now.statement) stated.now never.now)
        found.old.items found.new.items) }
{
    if let Some(example) = breach_example(alloc, never, &stated.statement, members)? {
        found.push(Breach {
            allowed: stated.line,
            forbidden: never.line,
            example,
        })?;
    }
    Ok(())
}

// Adds the breaches of a statement.
fn push_broken(
    alloc: Global,
    found: &mut Vec<Breach>,
    nevers: &[NeverStatement],
    stated: &LinedStatement,
    members: &[Member],
) -> Result<(), AllocError>
    ensures { OnOk result (AddsBreaches members.now (broken_by members.now nevers.now stated.now)
        found.old.items found.new.items) }
{
    'nevers: for never in nevers {
        push_if_broken(alloc, found, never, stated, members)?;
    }
    Ok(())
}

// Returns the breaches of these statements.
fn all_broken(
    alloc: Global,
    statements: &[LinedStatement],
    nevers: &[NeverStatement],
    members: &[Member],
) -> Result<Vec<Breach>, AllocError>
    ensures { IfOk result (λ found. AddsBreaches members.now
        (flat_map (λ x. broken_by members.now nevers.now x) statements.now) [] found.items) }
{
    let mut found = Vec::new(alloc);
    'statements: for stated in statements {
        push_broken(alloc, &mut found, nevers, stated, members)?;
    }
    Ok(found)
}

/// Returns the breaches of these `neverallow` statements by the statements of a policy: each allow statement that grants
/// something that a `neverallow` statement forbids, once for each such statement, in the order of the policy. An
/// attribute means its types.
pub fn breaches_of(
    alloc: Global,
    statements: &[LinedStatement],
    nevers: &[NeverStatement],
) -> Result<Vec<Breach>, AllocError>
    ensures { IfOk result (λ found. AreBroken statements.now nevers.now found.items) }
{
    let members = members_of(alloc, statements, None)?;
    let found = all_broken(alloc, statements, nevers, members.as_slice())?;
    Ok(found)
}
