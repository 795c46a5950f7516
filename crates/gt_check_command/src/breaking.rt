//! Checks a policy against `neverallow` and `neverflow` statements, and writes the breaches.
ghost use Rattle.std.specs.Prelude.{◌≡◌, ◌+◌, ℕ, List, take, IfOk};
ghost use Rattle.gt_types.specs.declared.limits.TheConstants.{LONGEST_TEXT};
ghost use Rattle.gt_neverflow.specs.Printing.{IsNeverReport};
ghost use Rattle.gt_text.specs.Streams.{OfInput};
ghost use Rattle.gt_check_command.specs.Breaking.{CheckedNever, CheckedNeverText, WritesBreaches, WritesWords};

use crate::reporting::write_findings;
use gt_findings::{Finding, ReportForm};
use gt_neverallow::NeverFault;
use gt_neverflow::{BrokenTexts, NeverFindings, breaches, push_never_findings};
use gt_policy_list::{ListingFault, policy_text};
use gt_policy_reasons::{BreachFault, NeverText};
use gt_text::{finish, read_text};
use std::alloc::{AllocError, Global};
use std::io::{Read, Write};

// Prints what was found.
fn report(
    alloc: Global,
    form: ReportForm,
    texts: &BrokenTexts,
    found: &NeverFindings,
) -> Result<Vec<u8>, AllocError>
    ensures { IfOk result (λ said.
        IsNeverReport form texts.now.file.now texts.now.policy.now texts.now.never_file.now texts.now.never.now
        found.now said.items) }
{
    let mut out = Vec::new(alloc);
    push_never_findings(alloc, &mut out, form, texts, found)?;
    Ok(out)
}

// Writes what was found, and returns whether no statement is broken.
fn write_breaches<W: Write>(
    alloc: Global,
    form: ReportForm,
    texts: &BrokenTexts,
    found: &NeverFindings,
    writer: &mut W,
) -> Result<bool, BreachFault>
    ensures { WritesBreaches form texts.now.file.now texts.now.policy.now texts.now.never_file.now texts.now.never.now
        found.now (W.contents writer.old) (W.contents writer.new) result }
{
    let Ok(said) = report(alloc, form, texts, found) else {
        return Err(BreachFault::Policy(ListingFault::Memory));
    };
    match finish(writer, said.as_slice()) {
        Ok(()) => Ok(found.is_clean()),
        Err(_) => Err(BreachFault::Policy(ListingFault::Write)),
    }
}

// Writes the findings of a text in which no statement forbids anything of class `grant`, and returns that fault.
fn write_words<W: Write>(
    alloc: Global,
    form: ReportForm,
    texts: &BrokenTexts,
    line: u32,
    words: &[Finding],
    writer: &mut W,
) -> BreachFault
    ensures { WritesWords form texts.now.never_file.now words.now line
        (W.contents writer.old) (W.contents writer.new) result }
{
    match write_findings(alloc, texts.never_file, form, texts.never, words, writer) {
        Ok(_) => BreachFault::ForbidsNothing(line),
        Err(fault) => BreachFault::Policy(fault),
    }
}

// Checks a text.
fn check_never_text<W: Write>(
    alloc: Global,
    form: ReportForm,
    texts: &BrokenTexts,
    writer: &mut W,
) -> Result<bool, BreachFault>
    ensures { CheckedNeverText form texts.now.never_file.now texts.now.never.now texts.now.file.now
        texts.now.policy.now (W.contents writer.old) (W.contents writer.new) result }
{
    match breaches(alloc, texts.policy, texts.never) {
        Ok(found) => write_breaches(alloc, form, texts, &found, writer),
        Err(NeverFault::Policy(fault)) => Err(BreachFault::Policy(ListingFault::from(fault))),
        Err(NeverFault::Statements(fault)) => Err(BreachFault::Statements(fault)),
        Err(NeverFault::ForbidsNothing { line, words }) => {
            Err(write_words(alloc, form, texts, line, words.as_slice(), writer))
        }
    }
}

// Checks the policy of the bytes that were read: all, or the first up to the read limit.
fn check_never_bytes<W: Write>(
    alloc: Global,
    file: &str,
    form: ReportForm,
    never: NeverText,
    input: &[u8],
    writer: &mut W,
) -> Result<bool, BreachFault>
    ensures { (all : List ℕ) → input.now ≡ take (LONGEST_TEXT + 1) all →
        CheckedNever form never.entry.file.now never.entry.text.now file.now all
        (W.contents writer.old) (W.contents writer.new) result }
{
    match policy_text(input) {
        Ok(policy) => {
            let texts = BrokenTexts {
                file,
                policy,
                never_file: never.file,
                never: never.text,
            };
            check_never_text(alloc, form, &texts, writer)
        }
        Err(fault) => Err(BreachFault::Policy(fault)),
    }
}

/// Checks a policy against `neverallow` and `neverflow` statements, and writes each allow statement that breaks one of
/// the first kind, and each flow that breaks one of the second, in the layout of compilers or as JSON Lines. The lines
/// about the policy begin with the name `file`. Returns whether no statement is broken. At most 1,048,577 bytes are
/// read.
///
/// # Errors
/// The first fault of the policy, or else of the other statements, whose names must be those of the policy; or a
/// read or an allocation that failed. Then nothing was written. If no statement forbids anything of class `grant`, the
/// words in them that nothing knows were written. After a failed write, a prefix of what was found was written.
pub fn check_never<R: Read, W: Write>(
    alloc: Global,
    file: &str,
    form: ReportForm,
    never: NeverText,
    reader: &mut R,
    writer: &mut W,
) -> Result<bool, BreachFault>
    ensures { OfInput (R.remaining reader.old) (λ input.
        CheckedNever form never.entry.file.now never.entry.text.now file.now input
        (W.contents writer.old) (W.contents writer.new) result) }
{
    match read_text(alloc, reader) {
        Ok(input) => check_never_bytes(alloc, file, form, never, input.as_slice(), writer),
        Err(fault) => Err(BreachFault::Policy(ListingFault::from(fault))),
    }
}
