//! The lines of triples.
ghost use Rattle.std.specs.Prelude.{◌≡◌, ◌++◌, OnOk};
ghost use Rattle.gt_policy.specs.Listing.{type_name_of};
ghost use Rattle.gt_allow.specs.Looking.{looks_up};
ghost use Rattle.gt_policy_list.specs.Listing.{triple_line};
ghost use Rattle.gt_policy_list.specs.Lines.{triple_text, pair_text};

use gt_allow::AllowTable;
use gt_policy::Policy;
use gt_text::push_text;
use gt_types::{Allows, Perms, Triple, TypeId};
use std::alloc::AllocError;

fn name_at<'p>(policy: &'p Policy, id: TypeId) -> &'p str
    ensures { result.now ≡ type_name_of policy.entry.now.types id.0 }
{
    match policy.name(id) {
        Some(name) => name,
        None => "",
    }
}

fn push_line(out: &mut Vec<u8>, source: &str, target: &str, perm: Perms) -> Result<(), AllocError>
    ensures { OnOk result (out.new.items ≡ out.old.items ++ triple_line source.now target.now perm) }
{
    push_text(out, source)?;
    push_text(out, " ")?;
    push_text(out, target)?;
    push_text(out, " ")?;
    push_text(out, perm.name())?;
    push_text(out, "\n")
}

// Appends the line of a triple, if the table allows it.
fn push_triple(
    out: &mut Vec<u8>,
    policy: &Policy,
    table: &AllowTable,
    triple: Triple,
) -> Result<(), AllocError>
    ensures { OnOk result (out.new.items ≡ out.old.items ++ triple_text policy.now.types (looks_up table.now) triple) }
{
    if table.allows(triple.source, triple.target, triple.perm) {
        push_line(
            out,
            name_at(policy, triple.source),
            name_at(policy, triple.target),
            triple.perm,
        )
    } else {
        Ok(())
    }
}

/// Appends the lines of a source and a target: one for each permission that the table allows. After an Err, part of
/// them may have been appended.
pub fn push_pair(
    out: &mut Vec<u8>,
    policy: &Policy,
    table: &AllowTable,
    source: TypeId,
    target: TypeId,
) -> Result<(), AllocError>
    ensures { OnOk result (out.new.items ≡ out.old.items
        ++ pair_text policy.now.types (looks_up table.now) source target) }
{
    'permissions: for perm in Perms::EVERY {
        let triple = Triple {
            source,
            target,
            perm,
        };
        push_triple(out, policy, table, triple)?;
    }
    Ok(())
}
