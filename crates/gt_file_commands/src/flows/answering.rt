//! Answers questions about flows: of a policy, or of the policy block of a script. Writes the lines.
ghost use Rattle.std.specs.Prelude.{◌≡◌, ◌+◌, ℕ, List, take};
ghost use Rattle.gt_types.specs.declared.limits.TheConstants.{LONGEST_TEXT};
ghost use Rattle.gt_text.specs.Streams.{OfInput};
ghost use Rattle.gt_file_commands.specs.FlowAnswers.{FlowsOf, WritesFlow};
ghost use Rattle.gt_fault_reasons.specs.Blocks.{policy_block};
ghost use Rattle.gt_file_commands.specs.FlowBlocks.{FlowedAs, FlowedBlock};

use gt_fault_reasons::policy_block;
use gt_policy_list::{ListingFault, policy_text};
use gt_policy_questions::{FlowAnswer, FlowQuestion, FlowReport, flow};
use gt_policy_reasons::FlowFault;
use gt_text::{finish, read_text};
use std::alloc::Global;
use std::io::{Read, Write};

// Writes the lines of an answer.
fn write_lines<W: Write>(lines: &[u8], has_path: bool, writer: &mut W) -> Result<bool, FlowFault>
    ensures { WritesFlow lines.now has_path (W.contents writer.old) (W.contents writer.new) result }
{
    match finish(writer, lines) {
        Ok(()) => Ok(has_path),
        Err(_) => Err(FlowFault::Text(ListingFault::Write)),
    }
}

// Answers a question about a text.
fn answer_text<W: Write>(
    alloc: Global,
    question: &FlowQuestion,
    text: &str,
    writer: &mut W,
) -> Result<bool, FlowFault>
    ensures { FlowsOf question.now text.now (W.contents writer.old) (W.contents writer.new) result }
{
    let FlowReport { answer, lines } = match flow(alloc, text, question) {
        Ok(report) => report,
        Err(fault) => return Err(FlowFault::Text(ListingFault::from(fault))),
    };
    match answer {
        FlowAnswer::Path => write_lines(lines.as_slice(), true, writer),
        FlowAnswer::NoPath => write_lines(lines.as_slice(), false, writer),
        FlowAnswer::NoSource => Err(FlowFault::NoSource),
        FlowAnswer::NoTarget => Err(FlowFault::NoTarget),
        FlowAnswer::NoTrusted(place) => Err(FlowFault::NoTrusted(place)),
    }
}

// Answers a question about the policy block of a script.
fn answer_block<W: Write>(
    alloc: Global,
    question: &FlowQuestion,
    script: &str,
    writer: &mut W,
) -> Result<bool, FlowFault>
    ensures { FlowedBlock (policy_block script.now) question.now (W.contents writer.old) (W.contents writer.new)
        result }
{
    let Ok(block) = policy_block(alloc, script) else {
        return Err(FlowFault::Text(ListingFault::Memory));
    };
    match block {
        Some(block) => answer_text(alloc, question, block.as_str(), writer),
        None => Err(FlowFault::NoBlock),
    }
}

// Answers a question about the policy or the script of the bytes that were read: all, or the first up to the read limit.
fn answer_input<W: Write>(
    alloc: Global,
    script: bool,
    question: &FlowQuestion,
    input: &[u8],
    writer: &mut W,
) -> Result<bool, FlowFault>
    ensures { (all : List ℕ) → input.now ≡ take (LONGEST_TEXT + 1) all →
        FlowedAs script question.now all (W.contents writer.old) (W.contents writer.new) result }
{
    match policy_text(input) {
        Ok(text) => {
            if script {
                answer_block(alloc, question, text, writer)
            } else {
                answer_text(alloc, question, text, writer)
            }
        }
        Err(fault) => Err(FlowFault::Text(fault)),
    }
}

/// Answers a question about the policy of a reader, or about that of the policy block of its script: whether bytes of
/// the source reach the target. Writes the lines of the answer, and returns whether there is a path. At most 1,048,577
/// bytes are read.
///
/// # Errors
/// The text is not a policy, the script has no policy block, a name of the question is unknown, or a read or an
/// allocation failed: then nothing was written. After a failed write, a prefix of the lines was written.
pub(crate) fn flow_as<R: Read, W: Write>(
    alloc: Global,
    script: bool,
    question: &FlowQuestion,
    reader: &mut R,
    writer: &mut W,
) -> Result<bool, FlowFault>
    ensures { OfInput (R.remaining reader.old) (λ input.
        FlowedAs script question.now input (W.contents writer.old) (W.contents writer.new) result) }
{
    match read_text(alloc, reader) {
        Ok(input) => answer_input(alloc, script, question, input.as_slice(), writer),
        Err(fault) => Err(FlowFault::Text(ListingFault::from(fault))),
    }
}
