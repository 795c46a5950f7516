//! Commands in the two formats of their output.
ghost use Rattle.gt_text.specs.Streams.{OfInput};
ghost use Rattle.gt_file_commands.specs.Formats.{CheckedAs, ListedAs, PlayedAs, WroteDumpAs};

use crate::json::{entries_json, play_json, policy_json};
use gt_check_command::{check, check_script};
use gt_command_line::Format;
use gt_entries::{DumpFault, DumpOptions, entries};
use gt_findings::ReportForm;
use gt_host::play;
use gt_policy_list::{ListingFault, policy};
use gt_script_runs::PlayFault;
use std::alloc::Global;
use std::io::{Read, Write};

/// Plays the script of a reader.
pub(crate) fn play_as<R: Read, W: Write>(
    alloc: Global,
    format: Format,
    audit: bool,
    reader: &mut R,
    out: &mut W,
) -> Result<(), PlayFault>
    ensures { OfInput (R.remaining reader.old) (λ input.
        PlayedAs format audit input (W.contents out.old) (W.contents out.new) result) }
{
    match format {
        Format::Text => play(alloc, reader, out, audit),
        Format::Json => play_json(alloc, reader, out, audit),
    }
}

/// Lists what the policy of a reader allows.
pub(crate) fn list_as<R: Read, W: Write>(
    alloc: Global,
    format: Format,
    reader: &mut R,
    out: &mut W,
) -> Result<(), ListingFault>
    ensures { OfInput (R.remaining reader.old) (λ input.
        ListedAs format input (W.contents out.old) (W.contents out.new) result) }
{
    match format {
        Format::Text => policy(alloc, reader, out),
        Format::Json => policy_json(alloc, reader, out),
    }
}

/// Prints the entries of the dump of a reader.
pub(crate) fn entries_as<R: Read, W: Write>(
    alloc: Global,
    format: Format,
    asked: DumpOptions,
    reader: &mut R,
    out: &mut W,
) -> Result<(), DumpFault>
    ensures { OfInput (R.remaining reader.old) (λ input.
        WroteDumpAs format asked input (W.contents out.old) (W.contents out.new) result) }
{
    match format {
        Format::Text => entries(alloc, asked, reader, out),
        Format::Json => entries_json(alloc, asked, reader, out),
    }
}

/// The settings of a report of findings: the name with which its lines begin, and its form.
#[derive(Clone, Copy)]
pub struct ReportSettings<'w> {
    pub file: &'w str,
    pub form: ReportForm,
}

/// Checks the policy of a reader, or its script.
pub(crate) fn check_as<R: Read, W: Write>(
    alloc: Global,
    script: bool,
    report: ReportSettings,
    reader: &mut R,
    out: &mut W,
) -> Result<bool, ListingFault>
    ensures { OfInput (R.remaining reader.old) (λ input.
        CheckedAs script report.entry.form report.entry.file.now input
        (W.contents out.old) (W.contents out.new) result) }
{
    if script {
        check_script(alloc, report.file, report.form, reader, out)
    } else {
        check(alloc, report.file, report.form, reader, out)
    }
}
