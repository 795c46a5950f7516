//! The sets of a table, and the look.
ghost use Rattle.std.specs.Prelude.{◌≡◌, ◌++◌, List, OnOk};
ghost use Rattle.gt_types.specs.declared.perms.Perms.{Perms};
ghost use Rattle.gt_allow.specs.Looking.{IsRow};

use bitflags::Flags;
use gt_policy::{Policy, TypeRow};
use gt_types::{Allows, Memory, Perms, TypeId};
use std::alloc::{AllocError, Global};
use std::marker::Model;

/// What a policy allows: one set of permissions for each pair of its types. A contract sees the number of types, and
/// the sets by source and then by target.
#[derive(Debug, Drop)]
pub struct AllowTable {
    count: u16,
    sets: Vec<Perms>,
}

impl Model for AllowTable {
    ghost use Rattle.std.specs.Prelude.{◌≡◌, ◌*◌, length};
    ghost use Rattle.gt_allow.specs.Looking.{Table};

    ghost Value = { Table };

    ghost view = { λ a. record { count = a.count; sets = a.sets.items } };

    ghost invariant = { λ a. length a.sets.items ≡ a.count * a.count };
}

// Appends the sets of one source, for each type as the target.
fn push_row(sets: &mut Vec<Perms>, count: u16, row: &TypeRow) -> Result<(), AllocError>
    ensures { OnOk result ((added : List Perms)
        × (sets.new.items ≡ sets.old.items ++ added) × IsRow row.now count added) }
{
    'targets: for target in 0..count {
        sets.push(row.on(TypeId(target)))?;
    }
    Ok(())
}

impl AllowTable {
    ghost use Rattle.std.specs.Prelude.{◌≡◌, IfOk};
    ghost use Rattle.gt_policy.specs.Kept.{may_of};
    ghost use Rattle.gt_allow.specs.Looking.{looks_up};

    /// Compiles a policy. The table answers every question as the policy does. The statements are walked once per type.
    /// The table has one byte for each pair of types, so at most 65,536 bytes. An Err means that an allocation failed.
    pub fn compile(alloc: Global, policy: &Policy) -> Result<AllowTable, Memory>
        ensures { IfOk result (λ table. looks_up table ≡ may_of policy.now) }
    {
        policy.allows_among_its_types();
        let count = policy.count();
        let mut sets = Vec::new(alloc);
        'sources: for source in 0..count {
            push_row(&mut sets, count, &policy.row(TypeId(source)))?;
        }
        Ok(AllowTable { count, sets })
    }
}

impl Allows for AllowTable {
    ghost use Rattle.gt_allow.specs.Looking.{looks_up};

    ghost may = { λ table source target perm. looks_up table source.0 target.0 perm };

    fn allows(&self, source: TypeId, target: TypeId, perm: Perms) -> bool {
        if source.0 >= self.count || target.0 >= self.count {
            return false;
        }
        let place = source.0 as usize * self.count as usize + target.0 as usize;
        perm.is_one() && self.sets[place].contains(perm)
    }
}
