//! Reads a dump and writes the lines of its entries.
ghost use Rattle.std.specs.Prelude.{◌≡◌, ◌≤◌, ◌++◌, ◌*◌, ◌+◌, ℕ, List, [], OnOk, length, take};
ghost use Rattle.gt_text.specs.Streams.{OfInput, ConsumesAtMost};
ghost use Rattle.gt_text.specs.declared.streams.TheConstants.{READ_LIMIT};
ghost use Rattle.gt_entries.specs.Dumps.{Dumped, IsDumpText, WroteDump, entry_count, entry_bytes_at, most_bytes};

use crate::asked::DumpOptions;
use crate::fault::DumpFault;
use crate::input::bytes_of;
use crate::lines::{entry_size, push_entry_lines};
use gt_text::{finish, read_text};
use std::alloc::{AllocError, Global};
use std::io::{Read, Write};

// The maximum number of bytes of a dump: 16 frames.
const MOST_BYTES: usize = 65_536;

// Returns the bytes of the entry at this reference; fewer if the dump ends in it.
fn entry_at<'d>(version: u8, dump: &'d [u8], gref: usize) -> &'d [u8]
    requires few { length dump.now ≤ most_bytes }
    requires within { gref ≤ most_bytes }
    ensures { result.now ≡ entry_bytes_at version dump.entry.now gref }
{
    let size = entry_size(version);
    let begin = dump.len().min(gref * size);
    let rest = &dump[begin..];
    if rest.len() < size {
        rest
    } else {
        &rest[..size]
    }
}

fn count_of(version: u8, dump: &[u8]) -> usize
    requires { length dump.now ≤ most_bytes }
    ensures { result ≡ entry_count version dump.now }
{
    let size = entry_size(version);
    (dump.len() + size - 1) / size
}

fn push_dump(
    alloc: Global,
    out: &mut Vec<u8>,
    asked: DumpOptions,
    dump: &[u8],
) -> Result<(), AllocError>
    requires few { length dump.now ≤ most_bytes }
    requires empty { out.old.items ≡ [] }
    ensures { OnOk result (IsDumpText asked dump.now out.new.items) }
{
    let count = count_of(asked.version, dump);
    'entries: for gref in 0..count {
        push_entry_lines(alloc, out, asked, gref, entry_at(asked.version, dump, gref))?;
    }
    Ok(())
}

/// Writes the text of a dump of at most 65,536 bytes, 16 frames, as [`entries`] does. After a failed write, a prefix of
/// it has gone out; after another Err, nothing.
pub fn write_dump<W: Write>(
    alloc: Global,
    asked: DumpOptions,
    dump: &[u8],
    writer: &mut W,
) -> Result<(), DumpFault>
    ensures { Dumped asked dump.now (W.contents writer.old) (W.contents writer.new) result }
{
    if dump.len() > MOST_BYTES {
        return Err(DumpFault::Limit);
    }
    let mut text = Vec::new(alloc);
    push_dump(alloc, &mut text, asked, dump)?;
    finish(writer, text.as_slice())?;
    Ok(())
}

// Writes the text of the dump that an input gives.
fn write_input<W: Write>(
    alloc: Global,
    asked: DumpOptions,
    input: Vec<u8>,
    writer: &mut W,
) -> Result<(), DumpFault>
    ensures { (all : List ℕ) → input.items ≡ take READ_LIMIT all →
        WroteDump asked all (W.contents writer.old) (W.contents writer.new) result }
{
    match bytes_of(alloc, asked.hex, input) {
        Ok(dump) => write_dump(alloc, asked, dump.as_slice(), writer),
        Err(fault) => Err(fault),
    }
}

/// Reads a dump and writes the lines of its entries, by their references: an entry as a script's `show` prints it, or
/// `refused FIELD`, each with the live bits of its bytes; or lines of a script that grants the entries. A whole entry
/// of zeros has a line only if all are asked for.
///
/// A dump has at most 65,536 bytes, 16 frames. At most 1,048,577 bytes are read. After a failed write, a prefix of the
/// text has gone out; after another Err, nothing.
pub fn entries<R: Read, W: Write>(
    alloc: Global,
    asked: DumpOptions,
    reader: &mut R,
    writer: &mut W,
) -> Result<(), DumpFault>
    ensures text { OfInput (R.remaining reader.old) (λ input.
        WroteDump asked input (W.contents writer.old) (W.contents writer.new) result) }
    ensures read { ConsumesAtMost READ_LIMIT (R.remaining reader.old) (R.remaining reader.new) }
{
    match read_text(alloc, reader) {
        Ok(input) => write_input(alloc, asked, input, writer),
        Err(fault) => Err(DumpFault::from(fault)),
    }
}
