//! The texts of refusals and of the names of types.
ghost use Rattle.std.specs.Prelude.{◌≡◌, ◌++◌, OnOk};
ghost use Rattle.gt_text.specs.Printing.{type_text, facts_text, denial_text};
ghost use Rattle.gt_text.specs.Texts.{StaysText, AreTexts};

use crate::numbers::{push_next_number, push_number};
use crate::text::push_text;
use gt_types::{Denial, Facts, TypeId};
use std::alloc::AllocError;
use std::convert::AsSlice;

// Returns the name at a type's index in `names`; empty if the index is out of range.
fn name_of<'n, N: AsSlice<u8>>(names: &'n [N], id: TypeId) -> &'n [u8]
    ensures { result.now ≡ type_text N.items names.entry.now id }
{
    match names.get(usize::from(id.0)) {
        Some(name) => name.as_slice(),
        None => &[],
    }
}

/// Appends the name of a type: the one at its index in `names`, or nothing if the index is out of range.
pub fn push_type<N: AsSlice<u8>>(
    out: &mut Vec<u8>,
    names: &[N],
    id: TypeId,
) -> Result<(), AllocError>
    ensures text { OnOk result (out.new.items ≡ out.old.items ++ type_text N.items names.now id) }
    ensures stays { OnOk result (AreTexts N.items names.now → StaysText out.old.items out.new.items) }
{
    out.extend_from_slice(name_of(names, id))?;
    Ok(())
}

fn push_called<N: AsSlice<u8>>(
    out: &mut Vec<u8>,
    before: &str,
    names: &[N],
    id: TypeId,
) -> Result<(), AllocError>
    ensures text { OnOk result (out.new.items ≡ out.old.items ++ before.now ++ type_text N.items names.now id) }
    ensures stays { OnOk result (AreTexts N.items names.now → StaysText out.old.items out.new.items) }
{
    push_text(out, before)?;
    push_type(out, names, id)
}

/// Appends the facts of a refusal, if its line prints them. After an Err, part of them may have been appended.
pub fn push_facts<N: AsSlice<u8>>(
    out: &mut Vec<u8>,
    names: &[N],
    facts: Facts,
) -> Result<(), AllocError>
    ensures text { OnOk result (out.new.items ≡ out.old.items ++ facts_text (type_text N.items names.now) facts) }
    ensures stays { OnOk result (AreTexts N.items names.now → StaysText out.old.items out.new.items) }
{
    match facts {
        Facts::Policy {
            source,
            target,
            perm,
        } => {
            push_called(out, " source=", names, source)?;
            push_called(out, " target=", names, target)?;
            push_text(out, " perm=")?;
            push_text(out, perm.name())
        }
        Facts::Field(field) => {
            push_text(out, " field=")?;
            push_text(out, field.name())
        }
        Facts::None | Facts::Header { .. } | Facts::Entry { .. } => Ok(()),
    }
}

/// Appends a refusal: its rule, its status and its facts. After an Err, part of it may have been appended.
pub fn push_denial<N: AsSlice<u8>>(
    out: &mut Vec<u8>,
    names: &[N],
    denial: Denial,
) -> Result<(), AllocError>
    ensures text { OnOk result (out.new.items ≡ out.old.items ++ denial_text (type_text N.items names.now) denial) }
    ensures stays { OnOk result (AreTexts N.items names.now → StaysText out.old.items out.new.items) }
{
    push_text(out, "N")?;
    push_number(out, denial.rule.number())?;
    push_next_number(out, denial.status.number())?;
    push_facts(out, names, denial.facts)
}
