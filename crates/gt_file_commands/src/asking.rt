//! Commands by the options of a command line.
ghost use Rattle.std.specs.Prelude.{◌≡◌};
ghost use Rattle.std.specs.Option.{option_map};
ghost use Rattle.gt_command_line.specs.Files.{file_name_of};
ghost use Rattle.gt_command_reasons.specs.Names.{shown_name};
ghost use Rattle.gt_file_commands.specs.Working.{known_input, AnswersDump, AnswersFlow, AnswersQuestion, Lists, Plays, Works};

use crate::commands::{Context, Work, work_asked};
use crate::outcome::Outcome;
use crate::texts::TextSource;
use gt_check_command::WhyRequest;
use gt_command_line::{EntriesOptions, Format, ScriptOptions};
use gt_command_reasons::{Reasons, shown_name};
use gt_entries::DumpOptions;
use gt_policy_questions::FlowQuestion;
use gt_types::DomId;
use std::io::Write;

/// Plays the script of the named file, or of the standard input, and returns the outcome: yes, or no after a failure.
pub fn play<R, T: TextSource, W: Write, E: Eprint>(
    context: &Context<R, T, E>,
    options: ScriptOptions,
    out: &mut W,
    reasons: &mut Reasons,
) -> Outcome
    ensures { Works (Plays options.entry.format options.entry.audit) Outcome.No (file_name_of options.entry.file)
        (known_input (T.file context.now.texts.now) (T.input context.now.texts.now) options.entry.file)
        (W.contents out.old) (W.contents out.new) result }
{
    let work = Work::Play {
        audit: options.audit,
        format: options.format,
    };
    work_asked(context, work, options.file, out, reasons)
}

/// Lists what the policy of the named file, or of the standard input, allows, and returns the outcome: yes, or no after
/// a failure.
pub fn list<R, T: TextSource, W: Write, E: Eprint>(
    context: &Context<R, T, E>,
    format: Format,
    file: Option<&str>,
    out: &mut W,
    reasons: &mut Reasons,
) -> Outcome
    ensures { Works (Lists format) Outcome.No (file_name_of file.entry)
        (known_input (T.file context.now.texts.now) (T.input context.now.texts.now) file.entry)
        (W.contents out.old) (W.contents out.new) result }
{
    work_asked(context, Work::List { format }, file, out, reasons)
}

/// Answers a question about the policy of the named file, or of the standard input, or each pair of types that it asks
/// for, and returns the outcome: the answer, or unknown after a failure.
pub fn answer<'a, R, T: TextSource, W: Write, E: Eprint>(
    context: &Context<R, T, E>,
    request: WhyRequest<'a>,
    file: Option<&'a str>,
    out: &mut W,
    reasons: &mut Reasons<'a>,
) -> Outcome
    ensures { Works (AnswersQuestion request.entry.each (shown_name (file_name_of file.entry))
        (option_map (λ a. a.now) request.entry.question.source) (option_map (λ a. a.now) request.entry.question.target)
        (option_map (λ a. a.now) request.entry.question.perm)) Outcome.Unknown (file_name_of file.entry)
        (known_input (T.file context.now.texts.now) (T.input context.now.texts.now) file.entry)
        (W.contents out.old) (W.contents out.new) result }
{
    let file_name = shown_name(file);
    let work = Work::Why {
        file: file_name,
        request,
    };
    work_asked(context, work, file, out, reasons)
}

/// Answers whether bytes of a type reach another one by the policy of the named file, or of the standard input, or by
/// that of its script, and returns the outcome: the answer, or unknown after a failure.
pub fn show_flow<R, T: TextSource, W: Write, E: Eprint>(
    context: &Context<R, T, E>,
    script: bool,
    question: FlowQuestion,
    file: Option<&str>,
    out: &mut W,
    reasons: &mut Reasons,
) -> Outcome
    ensures { Works (AnswersFlow script question.entry.format (option_map (λ a. a.now) question.entry.source)
        (option_map (λ a. a.now) question.entry.target) (option_map (λ a. a.now) question.entry.trusted)) Outcome.Unknown
        (file_name_of file.entry)
        (known_input (T.file context.now.texts.now) (T.input context.now.texts.now) file.entry)
        (W.contents out.old) (W.contents out.new) result }
{
    work_asked(context, Work::Flow { script, question }, file, out, reasons)
}

// Returns the domain of this number.
fn domain(number: Option<u16>) -> Option<DomId>
    ensures { option_map (λ d. d.0) result ≡ number }
{
    match number {
        Some(number) => Some(DomId(number)),
        None => None,
    }
}

/// Prints the entries of the dump in the named file, or in the standard input, and returns the outcome: yes, or unknown
/// after a failure.
pub fn show_entries<R, T: TextSource, W: Write, E: Eprint>(
    context: &Context<R, T, E>,
    dump: EntriesOptions,
    format: Format,
    file: Option<&str>,
    out: &mut W,
    reasons: &mut Reasons,
) -> Outcome
    ensures { Works (AnswersDump dump.version dump.hex dump.all dump.script format) Outcome.Unknown
        (file_name_of file.entry)
        (known_input (T.file context.now.texts.now) (T.input context.now.texts.now) file.entry)
        (W.contents out.old) (W.contents out.new) result }
{
    let script = domain(dump.script);
    let asked = DumpOptions {
        version: dump.version,
        hex: dump.hex,
        all: dump.all,
        script,
    };
    work_asked(context, Work::Entries { asked, format }, file, out, reasons)
}
