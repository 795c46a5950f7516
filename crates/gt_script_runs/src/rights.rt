//! The rights of a run: the compiled policy of the script, or its triples.
ghost use Rattle.std.specs.Prelude.{◌≡◌, IfOk};

use gt_allow::AllowTable;
use gt_script::ScriptHead;
use gt_types::{Allows, Memory, Perms, Triples, TypeId};
use std::alloc::Global;

/// The rights that the head of a script gives: its compiled policy, or its triples.
#[derive(Drop)]
pub enum ScriptPolicy {
    Table(AllowTable),
    Triples(Triples),
}

impl Allows for ScriptPolicy {
    ghost use Rattle.gt_script_runs.specs.Rights.{may_by};

    ghost may = { λ rights source target perm. may_by rights source target perm };

    fn allows(&self, source: TypeId, target: TypeId, perm: Perms) -> bool {
        match self {
            ScriptPolicy::Table(table) => table.allows(source, target, perm),
            ScriptPolicy::Triples(triples) => triples.allows(source, target, perm),
        }
    }
}

impl ScriptPolicy {
    ghost use Rattle.gt_script.specs.Contents.{contents_of};
    ghost use Rattle.gt_script_runs.specs.Rights.{may_by, may_in};

    /// Makes the rights that this head gives.
    pub fn of<'s, 'a>(alloc: Global, head: &'s ScriptHead<'a>) -> Result<ScriptPolicy, Memory>
        ensures { IfOk result (λ rights. may_by rights ≡ may_in (contents_of head.entry.now)) }
    {
        if let Some(policy) = head.policy() {
            return Ok(ScriptPolicy::Table(AllowTable::compile(alloc, policy)?));
        }
        Ok(ScriptPolicy::Triples(Triples {
            allowed: Vec::from_slice(alloc, head.triples())?,
        }))
    }
}
