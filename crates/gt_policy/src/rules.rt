//! Allow statements, with their sets as sets of types.
ghost use Rattle.std.specs.Prelude.{◌≡◌, ℕ, IfOk};
ghost use Rattle.std.specs.List.{list_any};
ghost use Rattle.gt_types.specs.declared.perms.Perms.{Perms};
ghost use Rattle.gt_policy.specs.Allowing.{was_given, stands_for, is_with, is_without, holds_type, names_itself};
ghost use Rattle.gt_policy.specs.Allowing.{is_granted_by};
ghost use Rattle.gt_policy.specs.Kept.{grants, some_grants};
ghost use Rattle.gt_policy.specs.Members.{has_attribute};
ghost use Rattle.gt_policy.specs.Rows.{is_reached};
ghost use Rattle.gt_policy.specs.TypeSets.{holds};

use crate::resolve::{Draft, DraftElement, DraftRule, TypeAttribute};
use crate::symbols::Symbol;
use crate::types::TypeSet;
use bitflags::Flags;
use gt_types::{Perms, TypeId};
use std::alloc::{AllocError, Global};

/// An allow statement: the types of one set have the permissions on the types of another.
#[derive(Clone, Copy)]
pub struct AllowRule {
    pub source: TypeSet,
    pub target: TypeSet,
    /// Whether each source has the permissions on itself too.
    pub itself: bool,
    pub perms: Perms,
}

impl AllowRule {
    /// Returns whether the statement grants the permission to the source on the target.
    pub(crate) fn grants(&self, source: TypeId, target: TypeId, perm: Perms) -> bool
        ensures { result ≡ grants self.now source.0 target.0 perm }
    {
        self.perms.contains(perm)
            && self.source.contains(source)
            && (self.target.contains(target) || (self.itself && target == source))
    }

    /// Returns the types on which the statement grants its permissions to the source.
    pub(crate) fn targets(&self, source: TypeId) -> TypeSet
        ensures { (t : ℕ) → holds result t ≡ is_reached self.now source.0 t }
    {
        if !self.source.contains(source) {
            return TypeSet::empty();
        }
        if self.itself {
            self.target.with(source.0 as u8)
        } else {
            self.target
        }
    }
}

fn names_itself(set: &[DraftElement]) -> bool
    ensures { result ≡ names_itself set.now }
{
    for element in set {
        if let DraftElement::Itself = element {
            return true;
        }
    }
    false
}

/// The types of each attribute, by the attribute's number.
#[derive(Drop)]
pub struct Members {
    sets: [TypeSet; 256],
}

impl Members {
    /// Collects the types that have each attribute.
    pub(crate) fn new(given: &[TypeAttribute]) -> Members
        ensures { (a n : ℕ) → has_attribute result a n ≡ was_given given.now a n }
    {
        let mut sets = [TypeSet::empty(); 256];
        for g in given {
            let a = g.attribute as usize;
            sets[a] = sets[a].with(g.to);
        }
        Members { sets }
    }

    // Returns the types that a name denotes.
    fn named(&self, symbol: Symbol) -> TypeSet
        ensures { (n : ℕ) → holds result n ≡ stands_for (has_attribute self.now) symbol n }
    {
        match symbol {
            Symbol::IsType(id) => TypeSet::empty().with(id),
            Symbol::IsAttribute(a) => self.sets[a as usize],
        }
    }

    // Returns the types that an item adds to its set.
    fn included(&self, element: DraftElement) -> TypeSet
        ensures { (n : ℕ) → holds result n ≡ is_with (has_attribute self.now) element n }
    {
        match element {
            DraftElement::With(symbol) => self.named(symbol),
            DraftElement::Without(_) => TypeSet::empty(),
            DraftElement::Itself => TypeSet::empty(),
        }
    }

    // Returns the types that an item removes from its set.
    fn excluded(&self, element: DraftElement) -> TypeSet
        ensures { (n : ℕ) → holds result n ≡ is_without (has_attribute self.now) element n }
    {
        match element {
            DraftElement::With(_) => TypeSet::empty(),
            DraftElement::Without(symbol) => self.named(symbol),
            DraftElement::Itself => TypeSet::empty(),
        }
    }

    // Returns the types of a set. Excluded types are removed at the end, so the order of the items doesn't matter.
    fn types_of(&self, set: &[DraftElement]) -> TypeSet
        ensures { (n : ℕ) → holds result n ≡ holds_type (has_attribute self.now) set.now n }
    {
        let mut with = TypeSet::empty();
        let mut without = TypeSet::empty();
        for element in set {
            with = with.union(self.included(*element));
            without = without.union(self.excluded(*element));
        }
        with.without(without)
    }

    fn rule(&self, draft: &DraftRule) -> AllowRule
        ensures { (s t : ℕ) (perm : Perms) →
            grants result s t perm ≡ is_granted_by (has_attribute self.now) s t perm draft.now }
    {
        AllowRule {
            source: self.types_of(draft.source.as_slice()),
            target: self.types_of(draft.target.as_slice()),
            itself: names_itself(draft.target.as_slice()),
            perms: draft.perms,
        }
    }

    /// Makes the rules of the allow statements.
    pub(crate) fn rules(
        &self,
        alloc: Global,
        drafts: &[DraftRule],
    ) -> Result<Vec<AllowRule>, AllocError>
        ensures { IfOk result (λ rules. (s t : ℕ) (perm : Perms) →
            some_grants rules.items s t perm
            ≡ list_any (λ draft. is_granted_by (has_attribute self.now) s t perm draft) drafts.now) }
    {
        let mut rules = Vec::new(alloc);
        for draft in drafts {
            rules.push(self.rule(draft))?;
        }
        Ok(rules)
    }
}

/// Makes the rules of a draft.
pub(crate) fn rules_of(alloc: Global, draft: &Draft) -> Result<Vec<AllowRule>, AllocError>
    ensures { IfOk result (λ rules. (s t : ℕ) (perm : Perms) → some_grants rules.items s t perm
        ≡ list_any (λ rule. is_granted_by (was_given draft.now.given) s t perm rule) draft.now.rules) }
{
    let members = Members::new(draft.given.as_slice());
    members.rules(alloc, draft.rules.as_slice())
}
