//! Checks a policy, and writes the findings.
ghost use Rattle.std.specs.Prelude.{◌≡◌, ◌+◌, ℕ, List, take};
ghost use Rattle.gt_types.specs.declared.limits.TheConstants.{LONGEST_TEXT};
ghost use Rattle.gt_text.specs.Streams.{OfInput};
ghost use Rattle.gt_check_command.specs.Checking.{Checked, CheckedText};

use crate::reporting::write_findings;
use gt_findings::ReportForm;
use gt_policy_list::{ListingFault, policy_text};
use gt_text::read_text;
use std::alloc::Global;
use std::io::{Read, Write};

// Checks a text.
fn check_text<W: Write>(
    alloc: Global,
    file: &str,
    form: ReportForm,
    text: &str,
    writer: &mut W,
) -> Result<bool, ListingFault>
    ensures { CheckedText form file.now text.now (W.contents writer.old) (W.contents writer.new) result }
{
    match gt_policy_check::check(alloc, text) {
        Ok(found) => write_findings(alloc, file, form, text, found.as_slice(), writer),
        Err(_) => Err(ListingFault::Memory),
    }
}

// Checks the policy of the bytes that were read: all, or the first up to the read limit.
fn check_bytes<W: Write>(
    alloc: Global,
    file: &str,
    form: ReportForm,
    input: &[u8],
    writer: &mut W,
) -> Result<bool, ListingFault>
    ensures { (all : List ℕ) → input.now ≡ take (LONGEST_TEXT + 1) all →
        Checked form file.now all (W.contents writer.old) (W.contents writer.new) result }
{
    match policy_text(input) {
        Ok(text) => check_text(alloc, file, form, text, writer),
        Err(fault) => Err(fault),
    }
}

/// Checks a policy, and writes the findings in the layout of compilers, or as one JSON object per line. The lines begin
/// with the name `file`. Returns whether the text is a policy. At most 1,048,577 bytes are read.
///
/// # Errors
/// The text is too long or not UTF-8, or a read or an allocation failed: then nothing was written. After a failed
/// write, a prefix of the findings was written.
pub fn check<R: Read, W: Write>(
    alloc: Global,
    file: &str,
    form: ReportForm,
    reader: &mut R,
    writer: &mut W,
) -> Result<bool, ListingFault>
    ensures { OfInput (R.remaining reader.old) (λ input.
        Checked form file.now input (W.contents writer.old) (W.contents writer.new) result) }
{
    match read_text(alloc, reader) {
        Ok(input) => check_bytes(alloc, file, form, input.as_slice(), writer),
        Err(fault) => Err(ListingFault::from(fault)),
    }
}
