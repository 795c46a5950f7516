//! Commands that explain their faults.
ghost use Rattle.gt_text.specs.Streams.{OfInput};
ghost use Rattle.gt_check_command.specs.Breaking.{CheckedNever};
ghost use Rattle.gt_check_command.specs.Explaining.{Explained};
ghost use Rattle.gt_file_commands.specs.FlowBlocks.{FlowedAs};
ghost use Rattle.gt_file_commands.specs.Formats.{CheckedAs, ListedAs, PlayedAs, WroteDumpAs};

use crate::flows::answering::flow_as;
use crate::formats::{ReportSettings, check_as, entries_as, list_as, play_as};
use gt_check_command::{WhyRequest, check_never, why};
use gt_command_line::Format;
use gt_command_reasons::{CopyingReader, Reasons};
use gt_entries::{DumpFault, DumpOptions};
use gt_policy_list::ListingFault;
use gt_policy_questions::FlowQuestion;
use gt_policy_reasons::{BreachFault, FlowFault, NeverText, WhyFault};
use gt_script_runs::PlayFault;
use std::alloc::Global;
use std::io::{Read, Write};

/// Plays the script of a reader, and adds the reasons, if they are asked for.
pub fn play_with_reasons<R: Read, W: Write>(
    alloc: Global,
    format: Format,
    audit: bool,
    reader: &mut R,
    out: &mut W,
    reasons: &mut Reasons,
) -> Result<(), PlayFault>
    ensures { OfInput (R.remaining reader.old) (λ input.
        PlayedAs format audit input (W.contents out.old) (W.contents out.new) result) }
{
    if !reasons.are_asked() {
        return play_as(alloc, format, audit, reader, out);
    }
    let mut input = CopyingReader::new(alloc, reader);
    let ending = play_as(alloc, format, audit, &mut input, out);
    reasons.add_play(&input.kept, &ending);
    ending
}

/// Lists what the policy of a reader allows, and adds the reason of a fault, or that the policy has no statement, if
/// reasons are asked for.
pub fn list_with_reasons<R: Read, W: Write>(
    alloc: Global,
    format: Format,
    reader: &mut R,
    out: &mut W,
    reasons: &mut Reasons,
) -> Result<(), ListingFault>
    ensures { OfInput (R.remaining reader.old) (λ input.
        ListedAs format input (W.contents out.old) (W.contents out.new) result) }
{
    if !reasons.are_asked() {
        return list_as(alloc, format, reader, out);
    }
    let mut input = CopyingReader::new(alloc, reader);
    let ending = list_as(alloc, format, &mut input, out);
    match &ending {
        Ok(()) => reasons.add_bare(&input.kept),
        Err(fault) => reasons.add_listing(&input.kept, fault),
    }
    ending
}

/// Checks the policy of a reader, or its script, and adds the reason of a fault.
pub fn check_explained<R: Read, W: Write>(
    alloc: Global,
    script: bool,
    report: ReportSettings,
    reader: &mut R,
    out: &mut W,
    reasons: &mut Reasons,
) -> Result<bool, ListingFault>
    ensures { OfInput (R.remaining reader.old) (λ input.
        CheckedAs script report.entry.form report.entry.file.now input
        (W.contents out.old) (W.contents out.new) result) }
{
    let mut input = CopyingReader::new(alloc, reader);
    let ending = check_as(alloc, script, report, &mut input, out);
    if let Err(fault) = &ending {
        reasons.add_listing(&input.kept, fault);
    }
    ending
}

/// Checks the policy of a reader against `neverallow` statements, and adds the reason of a fault.
pub fn check_never_explained<R: Read, W: Write>(
    alloc: Global,
    never: NeverText,
    report: ReportSettings,
    reader: &mut R,
    out: &mut W,
    reasons: &mut Reasons,
) -> Result<bool, BreachFault>
    ensures { OfInput (R.remaining reader.old) (λ input.
        CheckedNever report.entry.form never.entry.file.now never.entry.text.now report.entry.file.now input
        (W.contents out.old) (W.contents out.new) result) }
{
    let mut input = CopyingReader::new(alloc, reader);
    let ending = check_never(alloc, report.file, report.form, never, &mut input, out);
    if let Err(fault) = &ending {
        reasons.add_breach(&input.kept, &never, fault);
    }
    ending
}

/// Answers a question about the policy of a reader, and adds the reason of a fault.
pub fn why_explained<R: Read, W: Write>(
    alloc: Global,
    file: &str,
    request: &WhyRequest,
    reader: &mut R,
    out: &mut W,
    reasons: &mut Reasons,
) -> Result<bool, WhyFault>
    ensures { OfInput (R.remaining reader.old) (λ input.
        Explained file.now request.now input (W.contents out.old) (W.contents out.new) result) }
{
    let mut input = CopyingReader::new(alloc, reader);
    let ending = why(alloc, file, request, &mut input, out);
    if let Err(fault) = &ending {
        reasons.add_why(&input.kept, &request.question, fault);
    }
    ending
}

/// Answers a question about the flows of the policy of a reader, or of that of its script, and adds the reason of a
/// fault.
pub fn flow_explained<R: Read, W: Write>(
    alloc: Global,
    script: bool,
    question: &FlowQuestion,
    reader: &mut R,
    out: &mut W,
    reasons: &mut Reasons,
) -> Result<bool, FlowFault>
    ensures { OfInput (R.remaining reader.old) (λ input.
        FlowedAs script question.now input (W.contents out.old) (W.contents out.new) result) }
{
    let mut input = CopyingReader::new(alloc, reader);
    let ending = flow_as(alloc, script, question, &mut input, out);
    if let Err(fault) = &ending {
        reasons.add_flow(script, &input.kept, question, fault);
    }
    ending
}

/// Prints the entries of the dump of a reader, and adds the reason of a fault, or what the dump looks like if not like
/// a table.
pub fn entries_explained<R: Read, W: Write>(
    alloc: Global,
    format: Format,
    asked: DumpOptions,
    reader: &mut R,
    out: &mut W,
    reasons: &mut Reasons,
) -> Result<(), DumpFault>
    ensures { OfInput (R.remaining reader.old) (λ input.
        WroteDumpAs format asked input (W.contents out.old) (W.contents out.new) result) }
{
    let mut input = CopyingReader::new(alloc, reader);
    let ending = entries_as(alloc, format, asked, &mut input, out);
    match &ending {
        Ok(()) => reasons.add_look(&input.kept, asked),
        Err(fault) => reasons.add_dump(&input.kept, *fault),
    }
    ending
}
