//! Checks a script, and writes the findings.
ghost use Rattle.std.specs.Prelude.{◌≡◌, ◌+◌, ℕ, List, take};
ghost use Rattle.gt_types.specs.declared.limits.TheConstants.{LONGEST_TEXT};
ghost use Rattle.gt_text.specs.Streams.{OfInput};
ghost use Rattle.gt_check_command.specs.Scripts.{CheckedScript};

use crate::reporting::write_findings;
use crate::script_findings::judge;
use gt_findings::ReportForm;
use gt_policy_list::ListingFault;
use gt_text::{read_text, text_of};
use std::alloc::Global;
use std::io::{Read, Write};

// Returns the text of a script; empty if it is not UTF-8, so that no line of it is shown.
fn shown_text<'a>(input: &'a [u8]) -> &'a str {
    match text_of(input) {
        Ok(text) => text,
        Err(_) => "",
    }
}

// Checks the script of the bytes that were read: all, or the first up to the read limit.
fn check_script_bytes<W: Write>(
    alloc: Global,
    file: &str,
    form: ReportForm,
    input: &[u8],
    writer: &mut W,
) -> Result<bool, ListingFault>
    ensures { (all : List ℕ) → input.now ≡ take (LONGEST_TEXT + 1) all →
        CheckedScript form file.now all (W.contents writer.old) (W.contents writer.new) result }
{
    match judge(alloc, input) {
        Ok(found) => write_findings(
            alloc,
            file,
            form,
            shown_text(input),
            found.as_slice(),
            writer,
        ),
        Err(_) => Err(ListingFault::Memory),
    }
}

/// Checks a script and its policy block, and writes the findings in the layout of compilers, or as one JSON object per
/// line. The lines begin with the name `file`. Returns whether the text is a script, for `play` or for `run`. At most
/// 1,048,577 bytes are read. A text that is too long or not UTF-8 has a finding.
///
/// # Errors
/// A read or an allocation failed: then nothing was written. After a failed write, a prefix of the findings was
/// written.
pub fn check_script<R: Read, W: Write>(
    alloc: Global,
    file: &str,
    form: ReportForm,
    reader: &mut R,
    writer: &mut W,
) -> Result<bool, ListingFault>
    ensures { OfInput (R.remaining reader.old) (λ input.
        CheckedScript form file.now input (W.contents writer.old) (W.contents writer.new) result) }
{
    match read_text(alloc, reader) {
        Ok(input) => check_script_bytes(alloc, file, form, input.as_slice(), writer),
        Err(fault) => Err(ListingFault::from(fault)),
    }
}
