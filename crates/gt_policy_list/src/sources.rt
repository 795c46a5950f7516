//! The lines of all triples, source by source.
ghost use Rattle.std.specs.Prelude.{◌≡◌, ◌++◌, ◌⊎◌, ◌<◌, length, OnOk, OnErr, IfErr};
ghost use Rattle.std.specs.Io.KnownBytes.{Appends};
ghost use Rattle.gt_allow.specs.Looking.{looks_up};
ghost use Rattle.gt_policy_list.specs.Lines.{source_text};
ghost use Rattle.gt_policy_list.specs.Listing.{listing};
ghost use Rattle.gt_text.specs.Streams.{AppendsBeginning, Sends};
ghost use Rattle.gt_policy_list.specs.Writing.{WritesRules};
ghost use Rattle.gt_policy_list.specs.declared.fault.ListingFault.TheVariants as listing_faults;

use crate::fault::ListingFault;
use crate::lines::push_pair;
use gt_allow::AllowTable;
use gt_policy::Policy;
use gt_text::{CHUNK, finish, send};
use gt_types::TypeId;
use std::alloc::Global;
use std::io::Write;

// Appends the lines of a source to those that wait, with each target in turn, and writes them when there are enough.
fn write_source<W: Write>(
    policy: &Policy,
    table: &AllowTable,
    ids: &[TypeId],
    source: TypeId,
    waiting: &mut Vec<u8>,
    writer: &mut W,
) -> Result<(), ListingFault>
    requires { length waiting.old.items < CHUNK }
    ensures ok { OnOk result (Sends (W.contents writer.old) (W.contents writer.new)
        (waiting.old.items ++ source_text policy.now.types (looks_up table.now) ids.now source) waiting.new.items) }
    ensures few { OnOk result (length waiting.new.items < CHUNK) }
    ensures err { OnErr result (AppendsBeginning (W.contents writer.old) (W.contents writer.new)
        (waiting.old.items ++ source_text policy.now.types (looks_up table.now) ids.now source)) }
    ensures errors { IfErr result (λ e. (e ≡ listing_faults.Memory) ⊎ (e ≡ listing_faults.Write)) }
{
    'targets: for target in ids {
        push_pair(waiting, policy, table, source, *target)?;
        send(writer, waiting)?;
    }
    Ok(())
}

// Writes the lines of all triples of these types.
fn write_sources<W: Write>(
    alloc: Global,
    policy: &Policy,
    table: &AllowTable,
    ids: &[TypeId],
    writer: &mut W,
) -> Result<(), ListingFault>
    ensures whole { OnOk result (Appends (W.contents writer.old) (W.contents writer.new)
        (listing policy.now.types (looks_up table.now) ids.now)) }
    ensures beginning { OnErr result (AppendsBeginning (W.contents writer.old) (W.contents writer.new)
        (listing policy.now.types (looks_up table.now) ids.now)) }
    ensures errors { IfErr result (λ e. (e ≡ listing_faults.Memory) ⊎ (e ≡ listing_faults.Write)) }
{
    let mut waiting = Vec::new(alloc);
    'sources: for source in ids {
        write_source(policy, table, ids, *source, &mut waiting, writer)?;
    }
    finish(writer, waiting.as_slice())?;
    Ok(())
}

/// Writes the lines of all triples that the policy allows, with the types in the byte order of their names. After an
/// Err, a prefix of them may have gone out.
pub fn write_policy<W: Write>(
    alloc: Global,
    policy: &Policy,
    writer: &mut W,
) -> Result<(), ListingFault>
    ensures { WritesRules policy.now (W.contents writer.old) (W.contents writer.new) result }
{
    let Ok(table) = AllowTable::compile(alloc, policy) else {
        return Err(ListingFault::Memory);
    };
    match policy.by_name(alloc) {
        Ok(ids) => write_sources(alloc, policy, &table, ids.as_slice(), writer),
        Err(error) => Err(ListingFault::from(error)),
    }
}
