//! Checks of the named files.
ghost use Rattle.std.specs.Prelude.{◌≡◌, map};
ghost use Rattle.std.specs.Option.{option_map};
ghost use Rattle.gt_text.specs.Streams.{OfInput};
ghost use Rattle.gt_command_line.specs.Files.{file_name_of, file_names_of};
ghost use Rattle.gt_file_commands.specs.Formats.{IsFormOf};
ghost use Rattle.gt_command_reasons.specs.Names.{shown_name};
ghost use Rattle.gt_file_commands.specs.Working.{known_input, kind_checked, Checks, ChecksAll, ChecksAs, ChecksFiles};
ghost use Rattle.gt_file_commands.specs.Working.{ChecksIn, ChecksNever, OrNothing, WithFile, Works};

use crate::commands::{Context, Work, work_asked};
use crate::explained::{check_explained, check_never_explained};
use crate::failure::Failure;
use crate::formats::ReportSettings;
use crate::given::read_given;
use crate::outcome::{Outcome, worse};
use crate::reporting::fail;
use crate::style::Style;
use crate::texts::TextSource;
use gt_command_line::{CheckedFiles, Format};
use gt_command_reasons::{Reasons, shown_name};
use gt_findings::ReportForm;
use gt_policy_list::policy_text;
use gt_policy_reasons::NeverText;
use std::alloc::Global;
use std::io::{Read, Write};

/// The kind of a check of a text.
#[derive(Clone, Copy)]
pub(crate) enum CheckKind<'w> {
    /// A policy.
    Policy,
    /// A script.
    Script,
    /// A policy, against `neverallow` statements.
    Never(NeverText<'w>),
}

// Returns what is checked by `check`.
fn kind_of<'w>(script: bool) -> CheckKind<'w>
    ensures { result ≡ kind_checked script }
{
    if script {
        CheckKind::Script
    } else {
        CheckKind::Policy
    }
}

// Checks the text of a reader as a policy or as a script.
fn perform_plain<R: Read, W: Write>(
    alloc: Global,
    script: bool,
    report: ReportSettings,
    reader: &mut R,
    out: &mut W,
    reasons: &mut Reasons,
) -> Result<Outcome, Failure>
    ensures { OfInput (R.remaining reader.old) (λ input.
        ChecksAs script report.entry.form report.entry.file.now input
        (W.contents out.old) (W.contents out.new) result) }
{
    match check_explained(alloc, script, report, reader, out, reasons) {
        Ok(clean) => Ok(Outcome::of_answer(clean)),
        Err(fault) => Err(Failure::List(fault)),
    }
}

// Checks the policy of a reader against `neverallow` statements.
fn perform_never<R: Read, W: Write>(
    alloc: Global,
    never: NeverText,
    report: ReportSettings,
    reader: &mut R,
    out: &mut W,
    reasons: &mut Reasons,
) -> Result<Outcome, Failure>
    ensures { OfInput (R.remaining reader.old) (λ input.
        ChecksNever never.entry.file.now never.entry.text.now report.entry.form report.entry.file.now input
        (W.contents out.old) (W.contents out.new) result) }
{
    match check_never_explained(alloc, never, report, reader, out, reasons) {
        Ok(clean) => Ok(Outcome::of_answer(clean)),
        Err(fault) => Err(Failure::Breach(fault)),
    }
}

/// Checks the text of a reader.
pub(crate) fn perform_check<R: Read, W: Write>(
    alloc: Global,
    kind: CheckKind,
    report: ReportSettings,
    reader: &mut R,
    out: &mut W,
    reasons: &mut Reasons,
) -> Result<Outcome, Failure>
    ensures { OfInput (R.remaining reader.old) (λ input.
        Checks kind.entry report.entry.form report.entry.file.now input
        (W.contents out.old) (W.contents out.new) result) }
{
    match kind {
        CheckKind::Policy => perform_plain(alloc, false, report, reader, out, reasons),
        CheckKind::Script => perform_plain(alloc, true, report, reader, out, reasons),
        CheckKind::Never(never) => perform_never(alloc, never, report, reader, out, reasons),
    }
}

// Returns the form in which findings are printed.
fn form_of(format: Format, style: Style) -> ReportForm
    ensures { IsFormOf format result }
{
    match format {
        Format::Json => ReportForm::Json,
        Format::Text if style.is_colored => ReportForm::Colored,
        Format::Text => ReportForm::Text,
    }
}

// Checks the named file, or the standard input.
fn check_one<'a, R, T: TextSource, W: Write, E: Eprint>(
    context: &Context<R, T, E>,
    kind: CheckKind,
    format: Format,
    file: Option<&'a str>,
    out: &mut W,
    reasons: &mut Reasons<'a>,
) -> Outcome
    ensures { Works (ChecksIn (Checks kind.entry) format (shown_name (option_map (λ f. f.now) file.entry)))
        Outcome.Unknown (file_name_of file.entry)
        (known_input (T.file context.now.texts.now) (T.input context.now.texts.now) file.entry)
        (W.contents out.old) (W.contents out.new) result }
{
    let report = ReportSettings {
        file: shown_name(file),
        form: form_of(format, context.style),
    };
    reasons.begin_file(file);
    work_asked(context, Work::Check { kind, report }, file, out, reasons)
}

// Checks the files of these names, one after the other.
fn check_more<'a, R, T: TextSource, W: Write, E: Eprint>(
    context: &Context<R, T, E>,
    kind: CheckKind,
    format: Format,
    files: &[Option<&'a str>],
    out: &mut W,
    reasons: &mut Reasons<'a>,
) -> Outcome
    ensures { ChecksFiles (ChecksIn (Checks kind.entry) format) (T.file context.now.texts.now)
        (map (option_map (λ f. f.now)) files.now) (W.contents out.old) (W.contents out.new) result }
{
    match files {
        [] => Outcome::Yes,
        [None, more @ ..] => check_more(context, kind, format, more, out, reasons),
        [Some(name), more @ ..] => {
            let one = check_one(context, kind, format, Some(*name), out, reasons);
            let others = check_more(context, kind, format, more, out, reasons);
            worse(one, others)
        }
    }
}

// Checks the named file, or the standard input, and then the other files.
fn check_all<'a, R, T: TextSource, W: Write, E: Eprint>(
    context: &Context<R, T, E>,
    kind: CheckKind,
    files: &CheckedFiles<'a>,
    out: &mut W,
    reasons: &mut Reasons<'a>,
) -> Outcome
    ensures { ChecksAll (ChecksIn (Checks kind.entry) files.now.format) (T.file context.now.texts.now)
        (T.input context.now.texts.now) (file_name_of files.now.file) (file_names_of files.now.more)
        (W.contents out.old) (W.contents out.new) result }
{
    let one = check_one(context, kind, files.format, files.file, out, reasons);
    let names = files.more.names();
    let others = check_more(context, kind, files.format, names.as_slice(), out, reasons);
    worse(one, others)
}

/// Checks the first file, or the standard input if none is named, and then the others: as scripts if `script` is true,
/// and otherwise as policies. Returns the worst outcome: no if a text has an error, and unknown after a failure.
pub fn check_files<'a, R, T: TextSource, W: Write, E: Eprint>(
    context: &Context<R, T, E>,
    script: bool,
    files: &CheckedFiles<'a>,
    out: &mut W,
    reasons: &mut Reasons<'a>,
) -> Outcome
    ensures { ChecksAll (ChecksIn (ChecksAs script) files.now.format) (T.file context.now.texts.now)
        (T.input context.now.texts.now) (file_name_of files.now.file) (file_names_of files.now.more)
        (W.contents out.old) (W.contents out.new) result }
{
    let kind = kind_of(script);
    check_all(context, kind, files, out, reasons)
}

// Checks policies against the `neverallow` statements of these bytes, which the file has.
fn check_never_bytes<'a, R, T: TextSource, W: Write, E: Eprint>(
    context: &Context<R, T, E>,
    never: &'a str,
    bytes: &[u8],
    files: &CheckedFiles<'a>,
    out: &mut W,
    reasons: &mut Reasons<'a>,
) -> Outcome
    ensures { OrNothing (ChecksAll (ChecksIn (ChecksNever never.entry.now bytes.now) files.now.format)
        (T.file context.now.texts.now) (T.input context.now.texts.now)
        (file_name_of files.now.file) (file_names_of files.now.more)) (W.contents out.old) (W.contents out.new) result }
{
    match policy_text(bytes) {
        Ok(text) => {
            let kind = CheckKind::Never(NeverText { file: never, text });
            check_all(context, kind, files, out, reasons)
        }
        Err(fault) => {
            reasons.add_text(bytes, &fault);
            fail(context, Failure::List(fault), reasons)
        }
    }
}

/// Checks policies, as `check_files` does, against the `neverallow` statements of the file `never`. Returns the worst
/// outcome: no if a statement is broken, and unknown after a failure. If that file can't be read, nothing is checked.
pub fn check_never_files<'a, R, T: TextSource, W: Write, E: Eprint>(
    context: &Context<R, T, E>,
    never: &'a str,
    files: &CheckedFiles<'a>,
    out: &mut W,
    reasons: &mut Reasons<'a>,
) -> Outcome
    ensures { WithFile (T.file context.now.texts.now never.entry.now) (λ given.
        ChecksAll (ChecksIn (ChecksNever never.entry.now given) files.now.format) (T.file context.now.texts.now)
        (T.input context.now.texts.now) (file_name_of files.now.file) (file_names_of files.now.more))
        (W.contents out.old) (W.contents out.new) result }
{
    match read_given(context, never, reasons) {
        Some(bytes) => check_never_bytes(context, never, bytes.as_slice(), files, out, reasons),
        None => Outcome::Unknown,
    }
}
