//! Reads a policy and writes the lines of its triples.
ghost use Rattle.std.specs.Prelude.{◌≡◌, ◌+◌, ℕ, List, take};
ghost use Rattle.gt_text.specs.Streams.{OfInput, ConsumesAtMost};
ghost use Rattle.gt_text.specs.declared.streams.TheConstants.{READ_LIMIT};
ghost use Rattle.gt_policy_list.specs.Writing.{Listed, Parsed};

use crate::fault::ListingFault;
use crate::sources::write_policy;
use crate::text::policy_text;
use gt_text::read_text;
use gt_types::LONGEST_TEXT;
use std::alloc::Global;
use std::io::{Read, Write};

// Lists the policy of a text.
fn list_text<W: Write>(alloc: Global, text: &str, writer: &mut W) -> Result<(), ListingFault>
    ensures { Parsed text.now (W.contents writer.old) (W.contents writer.new) result }
{
    match gt_policy::Policy::parse(alloc, text) {
        Ok(rights) => write_policy(alloc, &rights, writer),
        Err(error) => Err(ListingFault::from(error)),
    }
}

// Lists the policy of the bytes that were read: all, or the first up to the read limit.
fn list_bytes<W: Write>(alloc: Global, input: &[u8], writer: &mut W) -> Result<(), ListingFault>
    ensures { (all : List ℕ) → input.now ≡ take (LONGEST_TEXT + 1) all →
        Listed all (W.contents writer.old) (W.contents writer.new) result }
{
    match policy_text(input) {
        Ok(text) => list_text(alloc, text, writer),
        Err(fault) => Err(fault),
    }
}

/// Reads a policy text and writes one line `SOURCE TARGET PERMISSION` for each triple that it allows. The lines are in
/// the byte order of the sources, then of the targets, then by permission: map_read, map_write, unmap, transfer, setup,
/// copy, query.
///
/// At most 1,048,577 bytes are read. For a text with a fault nothing is written. After a failed write or allocation, a
/// prefix of the lines was written, or nothing.
pub fn policy<R: Read, W: Write>(
    alloc: Global,
    reader: &mut R,
    writer: &mut W,
) -> Result<(), ListingFault>
    ensures text { OfInput (R.remaining reader.old) (λ input.
        Listed input (W.contents writer.old) (W.contents writer.new) result) }
    ensures read { ConsumesAtMost READ_LIMIT (R.remaining reader.old) (R.remaining reader.new) }
{
    match read_text(alloc, reader) {
        Ok(input) => list_bytes(alloc, input.as_slice(), writer),
        Err(fault) => Err(ListingFault::from(fault)),
    }
}
