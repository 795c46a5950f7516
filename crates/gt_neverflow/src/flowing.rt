//! Which `neverflow` statements a policy breaks: bytes of a type may reach another one though that is forbidden.
ghost use Rattle.std.specs.Prelude.{◌≡◌, ◌++◌, [], IfErr, IfOk, OnOk, Some, None, Ok, Err};
ghost use Rattle.std.specs.List.{list_any, slice_get};
ghost use Rattle.gt_flow.specs.Accesses.{AreAmong};
ghost use Rattle.gt_flow.specs.Paths.{IsSearched};
ghost use Rattle.gt_policy.specs.Allowing.{Meaning};
ghost use Rattle.gt_policy.specs.Kept.{PolicyShows};
ghost use Rattle.gt_policy.specs.Shown.{fault_shown, out_of_memory};
ghost use Rattle.gt_policy.specs.Whole.{ReadsAs};
ghost use Rattle.gt_policy.specs.declared.fault.TokenFault.{TokenFault};
ghost use Rattle.gt_neverflow.specs.Flowing.{AddsFlows, AreFlowBreaches, chosen_at, flow_from, flow_if, flow_to};
ghost use Rattle.gt_neverflow.specs.Flowing.{flows_by, flows_of, flows_to, forbidden_flows, is_about_flows};
ghost use Rattle.gt_neverflow.specs.Flowing.{names_on, nobody, types_numbered};

use gt_allow::AllowTable;
use gt_flow::{ReachedTypes, search};
use gt_neverallow::{Forbidden, NeverStatement, TypeChoice, is_chosen, push_short_name};
use gt_policy::{LinedStatement, Policy, PolicyFault, PolicyFaultKind};
use gt_policy_questions::pair_type_name;
use gt_policy_statements::{Member, members_of};
use gt_text::push_text;
use gt_types::{Allows, Memory, TypeId};
use std::alloc::{AllocError, Global};

/// Bytes of a type that may reach another one though a `neverflow` statement forbids it.
#[derive(Drop)]
pub struct FlowBreach {
    /// The line of the `neverflow` statement in the other text.
    pub forbidden: u32,
    /// The names of the types on a shortest path with ` -> ` between them, as messages show them. The first is the type
    /// with the bytes.
    pub path: Vec<u8>,
}

/// A policy with its types, in the order of their numbers, and their number.
#[derive(Clone, Copy)]
struct NeverPolicy<'t, 'a, P> {
    policy: &'t P,
    members: &'t [Member<'a>],
    count: u16,
}

/// The same with a type, and the types that its bytes reach.
#[derive(Clone, Copy)]
struct FlowSource<'t, 'a, P> {
    policy: &'t P,
    members: &'t [Member<'a>],
    count: u16,
    id: TypeId,
    reached: &'t ReachedTypes,
}

// Returns whether a choice of types has the type of this number.
fn chosen_at(choice: &TypeChoice, members: &[Member], id: TypeId) -> bool
    ensures { result ≡ chosen_at choice.now (slice_get members.now id.0) }
{
    match members.get(id.0 as usize) {
        Some(member) => is_chosen(choice, member),
        None => false,
    }
}

// Returns whether a statement is about flows.
fn is_about_flows(what: &Forbidden) -> bool
    ensures { result ≡ is_about_flows what.now }
{
    match what {
        Forbidden::Grants { .. } => false,
        Forbidden::Flow => true,
    }
}

// Returns whether a statement forbids bytes of the source to reach some others.
fn flow_from(never: &NeverStatement, members: &[Member], source: TypeId) -> bool
    ensures { result ≡ flow_from members.now source never.now }
{
    is_about_flows(&never.what) && chosen_at(&never.source, members, source)
}

// Returns whether the target is one of those.
fn flow_to(never: &NeverStatement, members: &[Member], source: TypeId, target: TypeId) -> bool
    ensures { result ≡ flow_to members.now source never.now target }
{
    chosen_at(&never.target, members, target) && source.0 != target.0
}

// Returns whether one of these statements forbids bytes of the source to reach some others.
fn some_flow_from(nevers: &[NeverStatement], members: &[Member], source: TypeId) -> bool
    ensures { result ≡ list_any (flow_from members.now source) nevers.now }
{
    'nevers: for never in nevers {
        if flow_from(never, members, source) {
            return true;
        }
    }
    false
}

// Appends the names of the types of a path.
fn push_names(
    out: &mut Vec<u8>,
    members: &[Member],
    from: TypeId,
    path: &[TypeId],
) -> Result<(), AllocError>
    ensures { OnOk result (out.new.items ≡ out.old.items ++ names_on members.now from path.now) }
{
    match path {
        [] => push_short_name(out, pair_type_name(members, from)),
        [next, rest @ ..] => {
            push_short_name(out, pair_type_name(members, from))?;
            push_text(out, " -> ")?;
            push_names(out, members, *next, rest)
        }
    }
}

// Adds a breach of a statement that forbids bytes of the source to reach some others, if the target is one of those and
// they may reach it.
fn push_flow<P: Allows>(
    alloc: Global,
    found: &mut Vec<FlowBreach>,
    never: &NeverStatement,
    source: &FlowSource<'_, '_, P>,
    target: TypeId,
) -> Result<(), AllocError>
    requires { IsSearched (P.may source.now.policy.now) nobody source.now.id source.now.reached.now }
    ensures { OnOk result (AddsFlows (P.may source.now.policy.now) source.now.members.now (flow_if
        (flow_to source.now.members.now source.now.id never.now target) never.now source.now.id target)
        found.old.items found.new.items) }
{
    if !flow_to(never, source.members, source.id, target) {
        return Ok(());
    }
    let Some(path) = source.reached.path_to(alloc, target)? else {
        return Ok(());
    };
    let mut names = Vec::new(alloc);
    push_names(&mut names, source.members, source.id, path.as_slice())?;
    found.push(FlowBreach {
        forbidden: never.line,
        path: names,
    })?;
    Ok(())
}

// Adds the breaches of a statement by bytes of the source.
fn push_flows_to<P: Allows>(
    alloc: Global,
    found: &mut Vec<FlowBreach>,
    never: &NeverStatement,
    source: &FlowSource<'_, '_, P>,
) -> Result<(), AllocError>
    requires { IsSearched (P.may source.now.policy.now) nobody source.now.id source.now.reached.now }
    ensures { OnOk result (AddsFlows (P.may source.now.policy.now) source.now.members.now
        (flows_to source.now.members.now (types_numbered source.now.count) source.now.id never.now)
        found.old.items found.new.items) }
{
    'targets: for id in 0..source.count {
        push_flow(alloc, found, never, source, TypeId(id))?;
    }
    Ok(())
}

// Adds the same, if the statement is about the source.
fn push_flows_by<P: Allows>(
    alloc: Global,
    found: &mut Vec<FlowBreach>,
    never: &NeverStatement,
    source: &FlowSource<'_, '_, P>,
) -> Result<(), AllocError>
    requires { IsSearched (P.may source.now.policy.now) nobody source.now.id source.now.reached.now }
    ensures { OnOk result (AddsFlows (P.may source.now.policy.now) source.now.members.now
        (flows_by source.now.members.now (types_numbered source.now.count) source.now.id never.now)
        found.old.items found.new.items) }
{
    if flow_from(never, source.members, source.id) {
        push_flows_to(alloc, found, never, source)
    } else {
        Ok(())
    }
}

// Adds the breaches of these statements by bytes of the source.
fn push_flows_of<P: Allows>(
    alloc: Global,
    found: &mut Vec<FlowBreach>,
    nevers: &[NeverStatement],
    source: &FlowSource<'_, '_, P>,
) -> Result<(), AllocError>
    requires { IsSearched (P.may source.now.policy.now) nobody source.now.id source.now.reached.now }
    ensures { OnOk result (AddsFlows (P.may source.now.policy.now) source.now.members.now
        (flows_of source.now.members.now nevers.now (types_numbered source.now.count) source.now.id)
        found.old.items found.new.items) }
{
    'nevers: for never in nevers {
        push_flows_by(alloc, found, never, source)?;
    }
    Ok(())
}

// Adds the breaches of these statements by bytes of a type. It is searched from only if one of them is about it.
fn push_flows_from<P: Allows>(
    alloc: Global,
    found: &mut Vec<FlowBreach>,
    nevers: &[NeverStatement],
    read: &NeverPolicy<'_, '_, P>,
    id: TypeId,
) -> Result<(), AllocError>
    requires { AreAmong read.now.count (P.may read.now.policy.now) }
    ensures { OnOk result (AddsFlows (P.may read.now.policy.now) read.now.members.now
        (flows_of read.now.members.now nevers.now (types_numbered read.now.count) id) found.old.items found.new.items) }
{
    if !some_flow_from(nevers, read.members, id) {
        return Ok(());
    }
    let reached = search(alloc, read.policy, &[], read.count, id)?;
    let source = FlowSource {
        policy: read.policy,
        members: read.members,
        count: read.count,
        id,
        reached: &reached,
    };
    push_flows_of(alloc, found, nevers, &source)
}

// Returns the breaches of these statements.
fn all_flows<P: Allows>(
    alloc: Global,
    nevers: &[NeverStatement],
    read: &NeverPolicy<'_, '_, P>,
) -> Result<Vec<FlowBreach>, AllocError>
    requires { AreAmong read.now.count (P.may read.now.policy.now) }
    ensures { IfOk result (λ found. AddsFlows (P.may read.now.policy.now) read.now.members.now
        (forbidden_flows read.now.members.now nevers.now (types_numbered read.now.count)) [] found.items) }
{
    let mut found = Vec::new(alloc);
    'sources: for id in 0..read.count {
        push_flows_from(alloc, &mut found, nevers, read, TypeId(id))?;
    }
    Ok(found)
}

// Returns the fault of a failed allocation.
fn out_of_memory() -> PolicyFault
    ensures { result ≡ out_of_memory }
{
    PolicyFault {
        line: 0,
        kind: PolicyFaultKind::Memory,
    }
}

// Returns the breaches by a policy of these statements.
fn flows_in(
    alloc: Global,
    policy: &Policy,
    statements: &[LinedStatement],
    nevers: &[NeverStatement],
) -> Result<Vec<FlowBreach>, Memory>
    ensures { (m : Meaning) → PolicyShows policy.now m
        → IfOk result (λ found. AreFlowBreaches m statements.now nevers.now found.items) }
{
    policy.allows_among_its_types();
    let members = members_of(alloc, statements, None)?;
    let table = AllowTable::compile(alloc, policy)?;
    let read = NeverPolicy {
        policy: &table,
        members: members.as_slice(),
        count: policy.count(),
    };
    let found = all_flows(alloc, nevers, &read)?;
    Ok(found)
}

/// Returns the breaches of `neverflow` statements by the policy of a text, which has these statements: each flow that
/// one of them forbids and for which there is a path, with a shortest path.
///
/// # Errors
/// The first fault of a text that is not a policy. If an allocation fails, it is [`PolicyFaultKind::Memory`] with line 0.
pub(crate) fn flow_breaches(
    alloc: Global,
    text: &str,
    statements: &[LinedStatement],
    nevers: &[NeverStatement],
) -> Result<Vec<FlowBreach>, PolicyFault>
    ensures ok { IfOk result (λ found. (m : Meaning) × ReadsAs text.now (Ok m)
        × AreFlowBreaches m statements.now nevers.now found.items) }
    ensures fault { IfErr result (λ e. (f : TokenFault) → fault_shown e ≡ Some f → ReadsAs text.now (Err f)) }
    ensures memory { IfErr result (λ e. fault_shown e ≡ None → e ≡ out_of_memory) }
{
    let policy = Policy::parse(alloc, text)?;
    match flows_in(alloc, &policy, statements, nevers) {
        Ok(found) => Ok(found),
        Err(_) => Err(out_of_memory()),
    }
}
