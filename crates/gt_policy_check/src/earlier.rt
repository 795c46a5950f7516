//! What a statement grants, and which statements before it may grant all of that too.
//!
//! A statement that grants all that another does grants each of its triples. So one triple of the other is found, and
//! only the statements whose source sets hold the source of that triple are compared.
ghost use Rattle.std.specs.Prelude.{◌≡◌, ◌⊎◌, ◌<◌, ◌||◌, ℕ, List, false, true, length, is_some, All, Contains};
ghost use Rattle.std.specs.Prelude.{◌++◌, ◌∷◌, [], if◌then◌else◌, IfOk, MatchBool, MatchOption, OnOk};
ghost use Rattle.std.specs.List.{list_any};
ghost use Rattle.gt_types.specs.Names.{every_permission, permission_name};
ghost use Rattle.gt_policy.specs.Granting.{lists_word};
ghost use Rattle.gt_policy.specs.declared.statements.Statement.TheVariants as statements;
ghost use Rattle.gt_policy_statements.specs.declared.members.Member.{Member};
ghost use Rattle.gt_policy_statements.specs.Granting.{reaches_by, elements_hold, gives_one};
ghost use Rattle.gt_policy_check.specs.Check.{grants_with, no_more_with, repeats_with};
ghost use Rattle.gt_policy_check.specs.Earlier.{AddsAt, AddsAtAll, AreHeld, AreSources, GrantsTriple, HasNoTarget};
ghost use Rattle.gt_policy_check.specs.Earlier.{IsPair, IsRepeatAt, ReachesType, member_at, triple_grants};

use crate::useless::grants_no_more;
use gt_policy::{Allowance, LinedStatement, Permissions, SetElement, Statement};
use gt_policy_statements::{Member, gives_source, has_grant, holds, lists, reaches};
use gt_types::Perms;
use std::alloc::{AllocError, Global};

/// A permission that a statement grants to a source on a target. Both are indices of types.
#[derive(Clone, Copy)]
pub(crate) struct Triple {
    pub perm: Perms,
    pub source: usize,
    pub target: usize,
}

// A source and a target, as indices of types.
#[derive(Clone, Copy)]
struct Pair {
    source: usize,
    target: usize,
}

// Adds the index of a type, if a set holds the type.
fn push_if_held(
    held: &mut Vec<usize>,
    place: usize,
    member: &Member,
    items: &[SetElement],
) -> Result<(), AllocError>
    ensures { OnOk result (held.new.items
        ≡ held.old.items ++ (if elements_hold member.now.names items.now then place ∷ [] else [])) }
{
    if holds(member.names.as_slice(), items) {
        held.push(place)?;
    }
    Ok(())
}

// Returns the indices of the types that a set holds.
fn held_in(
    alloc: Global,
    items: &[SetElement],
    members: &[Member],
) -> Result<Vec<usize>, AllocError>
    ensures { IfOk result (λ v. AreHeld members.now items.now v.items) }
{
    let mut held = Vec::new(alloc);
    'members: for (place, member) in members.iter().enumerate() {
        push_if_held(&mut held, place, member, items)?;
    }
    Ok(held)
}

/// Returns the indices of the types that the source set of a statement holds.
pub(crate) fn sources_of(
    alloc: Global,
    statement: &Statement,
    members: &[Member],
) -> Result<Vec<usize>, AllocError>
    ensures { IfOk result (λ v. AreSources members.now statement.now v.items) }
{
    match statement {
        Statement::Allow(allowed) => held_in(alloc, allowed.source.as_slice(), members),
        _ => Ok(Vec::new(alloc)),
    }
}

// Returns the first permission of class `grant` that is listed.
fn first_listed(perms: &Permissions) -> Option<Perms>
    ensures { MatchOption result (list_any (λ p. lists_word perms.now (permission_name p)) every_permission ≡ false)
        (λ p. Contains every_permission p × (lists_word perms.now (permission_name p) ≡ true)) }
{
    'perms: for perm in Perms::EVERY {
        if lists(perms, perm.name()) {
            return Some(perm);
        }
    }
    None
}

// Returns the first type that a statement reaches from a source.
fn first_target(allowed: &Allowance, source: &Member, members: &[Member]) -> Option<usize>
    ensures { MatchOption result (list_any (λ t. reaches_by source.now t allowed.now) members.now ≡ false)
        (λ t. (t < length members.now) × (reaches_by source.now (member_at members.now t) allowed.now ≡ true)) }
{
    'targets: for (place, target) in members.iter().enumerate() {
        if reaches(allowed, source, target) {
            return Some(place);
        }
    }
    None
}

// Returns the first type that a statement reaches from the source of this index.
fn target_from(allowed: &Allowance, source: usize, members: &[Member]) -> Option<usize>
    ensures { MatchOption result (HasNoTarget members.now allowed.now source)
        (λ t. ReachesType members.now allowed.now source t) }
{
    match members.get(source) {
        Some(member) => first_target(allowed, member, members),
        None => None,
    }
}

// Returns the first of these sources from which a statement reaches a type, with that type.
fn first_pair(allowed: &Allowance, sources: &[usize], members: &[Member]) -> Option<Pair>
    ensures { MatchOption result (All (HasNoTarget members.now allowed.now) sources.now)
        (IsPair members.now allowed.now sources.now) }
{
    'sources: for source in sources {
        if let Some(target) = target_from(allowed, *source, members) {
            return Some(Pair {
                source: *source,
                target,
            });
        }
    }
    None
}

// Returns a triple that an allow statement with these sources grants.
fn triple_of_allowance(allowed: &Allowance, sources: &[usize], members: &[Member]) -> Option<Triple>
    requires { AreHeld members.now allowed.now.source sources.now }
    ensures { MatchOption result (grants_with members.now (statements.Allow allowed.now) ≡ false)
        (GrantsTriple members.now (statements.Allow allowed.now)) }
{
    if !has_grant(allowed.classes.as_slice()) {
        return None;
    }
    match (
        first_listed(&allowed.perms),
        first_pair(allowed, sources, members),
    ) {
        (Some(perm), Some(pair)) => Some(Triple {
            perm,
            source: pair.source,
            target: pair.target,
        }),
        _ => None,
    }
}

/// Returns a triple that a statement with these sources grants; None if it grants nothing.
pub(crate) fn triple_of(
    statement: &Statement,
    sources: &[usize],
    members: &[Member],
) -> Option<Triple>
    requires { AreSources members.now statement.now sources.now }
    ensures { MatchOption result (grants_with members.now statement.now ≡ false)
        (GrantsTriple members.now statement.now) }
{
    match statement {
        Statement::Allow(allowed) => triple_of_allowance(allowed, sources, members),
        _ => None,
    }
}

// Returns whether a statement grants a triple.
fn grants_triple(statement: &Statement, triple: Triple, members: &[Member]) -> bool
    ensures { triple.source < length members.now → triple.target < length members.now
        → result ≡ triple_grants members.now statement.now triple }
{
    match (
        statement,
        members.get(triple.source),
        members.get(triple.target),
    ) {
        (Statement::Allow(allowed), Some(source), Some(target)) => {
            reaches(allowed, source, target) && gives_source(allowed, source, triple.perm.name())
        }
        _ => false,
    }
}

// The most types in the source set of a statement that is listed for each of them.
const FEW: usize = 8;

/// The statements before one, by the types in their source sets.
#[derive(Drop)]
pub(crate) struct EarlierStatements {
    /// For each type the statements whose source sets hold it and at most seven others.
    pub of_source: Vec<Vec<usize>>,
    /// The other statements.
    pub of_many: Vec<usize>,
}

// Adds a number to one of these lists.
fn push_at(lists: &mut Vec<Vec<usize>>, place: usize, number: usize) -> Result<(), AllocError>
    ensures { OnOk result (AddsAt lists.old.items place number lists.new.items) }
{
    if place < lists.len() {
        lists[place].push(number)?;
    }
    Ok(())
}

// Adds a number to each of these lists.
fn push_at_all(
    lists: &mut Vec<Vec<usize>>,
    places: &[usize],
    number: usize,
) -> Result<(), AllocError>
    ensures { OnOk result (AddsAtAll lists.old.items places.now number lists.new.items) }
{
    'places: for place in places {
        push_at(lists, *place, number)?;
    }
    Ok(())
}

// Returns whether the earlier statement of this index grants all that a statement does. `triple` is one that it grants.
fn is_repeated_at(
    statement: &Statement,
    triple: Triple,
    candidate: usize,
    before: &[LinedStatement],
    members: &[Member],
) -> bool
    requires { GrantsTriple members.now statement.now triple }
    ensures { MatchBool result (IsRepeatAt members.now before.now statement.now candidate)
        (IsRepeatAt members.now before.now statement.now candidate → ⊥) }
{
    match before.get(candidate) {
        Some(earlier) => {
            grants_triple(&earlier.statement, triple, members)
                && grants_no_more(statement, &earlier.statement, members)
        }
        None => false,
    }
}

// Returns the first of these earlier statements that grants all that a statement does. `triple` is one that it grants.
fn first_among(
    statement: &Statement,
    triple: Triple,
    candidates: &[usize],
    before: &[LinedStatement],
    members: &[Member],
) -> Option<usize>
    requires { GrantsTriple members.now statement.now triple }
    ensures { MatchOption result (All (λ i. IsRepeatAt members.now before.now statement.now i → ⊥) candidates.now)
        (IsRepeatAt members.now before.now statement.now) }
{
    'candidates: for candidate in candidates {
        if is_repeated_at(statement, triple, *candidate, before, members) {
            return Some(*candidate);
        }
    }
    None
}

// Returns the smaller of two numbers, or the one that there is.
fn least(one: Option<usize>, other: Option<usize>) -> Option<usize>
    ensures either { (result ≡ one) ⊎ (result ≡ other) }
    ensures some { is_some result ≡ (is_some one || is_some other) }
{
    match (one, other) {
        (Some(one), Some(other)) => Some(one.min(other)),
        (Some(one), None) => Some(one),
        (None, other) => other,
    }
}

impl EarlierStatements {
    ghost use Rattle.std.specs.Prelude.{◌≡◌, ◌<◌, ◌++◌, ◌∷◌, [], List, length, is_some, IfOk, IfSome};
    ghost use Rattle.std.specs.Prelude.{MatchOption, OnOk};
    ghost use Rattle.gt_policy.specs.declared.lined.LinedStatement.{LinedStatement};
    ghost use Rattle.gt_policy_statements.specs.declared.members.Member.{Member};
    ghost use Rattle.gt_policy_check.specs.Check.{grants_with, repeats_with};
    ghost use Rattle.gt_policy_check.specs.Earlier.{AreSources, GrantsTriple, ListsEarlier, list_at};

    /// Returns the statements before the first one, for these types.
    pub(crate) fn new(alloc: Global, members: &[Member]) -> Result<EarlierStatements, AllocError>
        ensures { IfOk result (λ e. ListsEarlier members.now [] e) }
    {
        let mut of_source = Vec::new(alloc);
        'members: for _ in members {
            of_source.push(Vec::new(alloc))?;
        }
        Ok(EarlierStatements {
            of_source,
            of_many: Vec::new(alloc),
        })
    }

    /// Adds the next statement. These are the types in its source set, and `number` is how many were added before.
    pub(crate) fn add(&mut self, number: usize, sources: &[usize]) -> Result<(), AllocError>
        ensures { (members : List Member) (before : List LinedStatement) (x : LinedStatement)
            → ListsEarlier members before self.old → length before ≡ number → AreSources members x.statement sources.now
            → OnOk result (ListsEarlier members (before ++ x ∷ []) self.new) }
    {
        if sources.len() > FEW {
            self.of_many.push(number)?;
            return Ok(());
        }
        push_at_all(&mut self.of_source, sources, number)
    }

    // Returns the listed statements whose source sets hold this type.
    fn of_type(&self, source: usize) -> &[usize]
        ensures { result.now ≡ list_at self.now.of_source.items source }
    {
        match self.of_source.get(source) {
            Some(list) => list.as_slice(),
            None => &[],
        }
    }

    /// Returns the index of the first earlier statement that grants all that this one does; None for a statement that
    /// grants nothing. `triple` is one that it grants.
    pub(crate) fn repeated(
        &self,
        statement: &Statement,
        triple: Option<Triple>,
        before: &[LinedStatement],
        members: &[Member],
    ) -> Option<usize>
        requires lists { ListsEarlier members.now before.now self.now }
        requires granted { MatchOption triple (grants_with members.now statement.now ≡ false)
            (GrantsTriple members.now statement.now) }
        ensures is { is_some result ≡ repeats_with members.now before.now statement.now }
        ensures within { IfSome result (λ i. i < length before.now) }
    {
        match triple {
            Some(triple) => {
                let of_type = self.of_type(triple.source);
                let of_many = self.of_many.as_slice();
                least(
                    first_among(statement, triple, of_type, before, members),
                    first_among(statement, triple, of_many, before, members),
                )
            }
            None => None,
        }
    }
}
