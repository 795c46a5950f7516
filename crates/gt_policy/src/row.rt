//! What one type may do.
ghost use Rattle.std.specs.Prelude.{◌≡◌, ℕ, ◌==◌, ◌||◌, ◌&&◌, Bool, false};
ghost use Rattle.gt_types.specs.Names.{is_permission};
ghost use Rattle.gt_types.specs.declared.perms.Perms.{Perms};
ghost use Rattle.gt_policy.specs.Kept.{grants};
ghost use Rattle.gt_policy.specs.Allowing.{lists_perm};
ghost use Rattle.gt_policy.specs.Rows.{lanes_reach};
ghost use Rattle.gt_policy.specs.TypeSets.{holds};

use crate::rules::AllowRule;
use crate::types::TypeSet;
use bitflags::Flags;
use gt_types::{Perms, TypeId};
use std::marker::Model;

/// What one type may do to each type. A contract sees one lane per permission: the types on which it has the
/// permission.
#[derive(Drop)]
pub struct TypeRow {
    map_read: TypeSet,
    map_write: TypeSet,
    unmap: TypeSet,
    transfer: TypeSet,
    setup: TypeSet,
    copy: TypeSet,
    query: TypeSet,
}

impl Model for TypeRow {
    ghost use Rattle.std.specs.Prelude.{List};
    ghost use Rattle.gt_policy.specs.Rows.{Lane, lanes};

    ghost Value = { List Lane };

    ghost view = { λ r. lanes r.map_read r.map_write r.unmap r.transfer r.setup r.copy r.query };
}

// Returns the types on which a source has a permission, after one more statement.
fn grown(so_far: TypeSet, rule: &AllowRule, perm: Perms, targets: TypeSet) -> TypeSet
    ensures { (t : ℕ) → holds result t ≡ (holds so_far t || (lists_perm rule.now.perms perm && holds targets t)) }
{
    if rule.perms.contains(perm) {
        so_far.union(targets)
    } else {
        so_far
    }
}

impl TypeRow {
    /// Makes the row of a type that may do nothing.
    pub(crate) fn empty() -> TypeRow
        ensures { (t : ℕ) (perm : Perms) → lanes_reach result t perm ≡ false }
    {
        let none = TypeSet::empty();
        TypeRow {
            map_read: none,
            map_write: none,
            unmap: none,
            transfer: none,
            setup: none,
            copy: none,
            query: none,
        }
    }

    /// Adds what one more statement grants to the source.
    pub(crate) fn with(self, rule: &AllowRule, source: TypeId) -> TypeRow
        ensures { (t : ℕ) (perm : Perms) →
            lanes_reach result t perm ≡ (lanes_reach self t perm
            || (is_permission perm && grants rule.now source.0 t perm)) }
    {
        if !rule.source.contains(source) {
            return self;
        }
        let targets = rule.targets(source);
        TypeRow {
            map_read: grown(self.map_read, rule, Perms::MAP_READ, targets),
            map_write: grown(self.map_write, rule, Perms::MAP_WRITE, targets),
            unmap: grown(self.unmap, rule, Perms::UNMAP, targets),
            transfer: grown(self.transfer, rule, Perms::TRANSFER, targets),
            setup: grown(self.setup, rule, Perms::SETUP, targets),
            copy: grown(self.copy, rule, Perms::COPY, targets),
            query: grown(self.query, rule, Perms::QUERY, targets),
        }
    }

    // A law: the answer is no for several permissions and for none.
    fn answers_one_permission(&self)
        ensures { (t : ℕ) (perm : Perms) → is_permission perm ≡ false → lanes_reach self.now t perm ≡ false }
    {
        let _first = self.map_read;
    }

    /// Returns whether the type has the permission on the target; false unless `perm` is exactly one permission.
    pub fn reaches(&self, target: TypeId, perm: Perms) -> bool
        ensures { result ≡ lanes_reach self.now target.0 perm }
    {
        if perm == Perms::MAP_READ {
            self.map_read.contains(target)
        } else if perm == Perms::MAP_WRITE {
            self.map_write.contains(target)
        } else if perm == Perms::UNMAP {
            self.unmap.contains(target)
        } else if perm == Perms::TRANSFER {
            self.transfer.contains(target)
        } else if perm == Perms::SETUP {
            self.setup.contains(target)
        } else if perm == Perms::COPY {
            self.copy.contains(target)
        } else if perm == Perms::QUERY {
            self.query.contains(target)
        } else {
            false
        }
    }

    /// Returns the permissions that the type has on the target.
    pub fn on(&self, target: TypeId) -> Perms
        ensures { (perm : Perms) → (is_permission perm && lists_perm result perm) ≡ lanes_reach self.now target.0 perm }
    {
        self.answers_one_permission();
        let mut perms = Perms::empty();
        for perm in Perms::EVERY {
            if self.reaches(target, perm) {
                perms.insert(perm);
            }
        }
        perms
    }
}
