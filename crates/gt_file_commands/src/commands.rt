//! The execution of each command, with the text that it names.
ghost use Rattle.std.specs.Prelude.{◌≡◌, IfSome};
ghost use Rattle.gt_text.specs.Streams.{OfInput};
ghost use Rattle.gt_command_line.specs.Files.{file_name_of};
ghost use Rattle.gt_file_commands.specs.Working.{failed_work, known_input, DoesOnFile, Performs, Works};

use crate::checking::{CheckKind, perform_check};
use crate::explained::{
    entries_explained, flow_explained, list_with_reasons, play_with_reasons, why_explained,
};
use crate::failure::Failure;
use crate::formats::ReportSettings;
use crate::outcome::Outcome;
use crate::reporting::finish;
use crate::style::Style;
use crate::texts::{TextSource, read_fault};
use gt_check_command::WhyRequest;
use gt_command_line::Format;
use gt_command_reasons::Reasons;
use gt_entries::DumpOptions;
use gt_policy_questions::FlowQuestion;
use std::alloc::Global;
use std::io::{Read, Write};

/// A command on a text.
#[derive(Clone, Copy)]
pub(crate) enum Work<'w> {
    /// Play the script on the core, with its audit lines or without.
    Play {
        audit: bool,
        format: Format,
    },
    /// List what the policy allows.
    List {
        format: Format,
    },
    /// Report what is wrong or useless in the policy, or in the script, or which statements break `neverallow`
    /// statements.
    Check {
        kind: CheckKind<'w>,
        report: ReportSettings<'w>,
    },
    /// Answer the question about the policy. The lines begin with the name.
    Why {
        file: &'w str,
        request: WhyRequest<'w>,
    },
    /// Answer the question about the flows of the policy, or of that of the script.
    Flow {
        script: bool,
        question: FlowQuestion<'w>,
    },
    /// Print the entries of the dump.
    Entries {
        asked: DumpOptions,
        format: Format,
    },
}

impl Work<'_> {
    // Returns the outcome of a failure of this.
    fn failed(self) -> Outcome
        ensures { result ≡ failed_work self.entry }
    {
        match self {
            Work::Play { .. } | Work::List { .. } => Outcome::No,
            Work::Check { .. } | Work::Why { .. } | Work::Flow { .. } | Work::Entries { .. } =>
                Outcome::Unknown,
        }
    }
}

/// Executes this with the text of a reader.
pub(crate) fn perform<R: Read, W: Write>(
    alloc: Global,
    work: Work,
    reader: &mut R,
    out: &mut W,
    reasons: &mut Reasons,
) -> Result<Outcome, Failure>
    ensures { OfInput (R.remaining reader.old) (λ input.
        Performs work.entry input (W.contents out.old) (W.contents out.new) result) }
{
    match work {
        Work::Play { audit, format } => match play_with_reasons(
            alloc, format, audit, reader, out, reasons,
        ) {
            Ok(()) => Ok(Outcome::Yes),
            Err(fault) => Err(Failure::Play(fault)),
        },
        Work::List { format } => match list_with_reasons(alloc, format, reader, out, reasons) {
            Ok(()) => Ok(Outcome::Yes),
            Err(fault) => Err(Failure::List(fault)),
        },
        Work::Check { kind, report } => perform_check(alloc, kind, report, reader, out, reasons),
        Work::Why { file, request } => match why_explained(
            alloc, file, &request, reader, out, reasons,
        ) {
            Ok(allowed) => Ok(Outcome::of_answer(allowed)),
            Err(fault) => Err(Failure::Why(fault)),
        },
        Work::Flow { script, question } => match flow_explained(
            alloc, script, &question, reader, out, reasons,
        ) {
            Ok(has_path) => Ok(Outcome::of_answer(has_path)),
            Err(fault) => Err(Failure::Flow(fault)),
        },
        Work::Entries { asked, format } => match entries_explained(
            alloc, format, asked, reader, out, reasons,
        ) {
            Ok(()) => Ok(Outcome::Yes),
            Err(fault) => Err(Failure::Dump(fault)),
        },
    }
}

/// The environment of a command: the runtime, memory, the texts, the standard error, and the style of the output.
#[derive(Drop)]
pub struct Context<'c, R, T, E> {
    pub rt: &'c R,
    pub alloc: Global,
    pub texts: &'c T,
    pub err: &'c E,
    pub style: Style,
    /// The name of a file that ends a search as soon as it exists, or None if nothing is to end one.
    pub stop: Option<&'c str>,
}

// Executes this with the text of the named file, or of the standard input.
fn perform_on<R, T: TextSource, W: Write, E>(
    context: &Context<R, T, E>,
    work: Work,
    name: Option<&str>,
    out: &mut W,
    reasons: &mut Reasons,
) -> Result<Outcome, Failure>
    ensures { IfSome (known_input (T.file context.now.texts.now) (T.input context.now.texts.now) name.entry)
        (λ input. DoesOnFile (Performs work.entry) (file_name_of name.entry) input (W.contents out.old)
        (W.contents out.new) result) }
{
    let alloc = context.alloc;
    let Some(name) = name else {
        return perform(alloc, work, &mut context.texts.input(), out, reasons);
    };
    match context.texts.open(name) {
        Ok(mut file) => perform(alloc, work, &mut file, out, reasons),
        Err(error) => {
            reasons.add_unread(&error);
            Err(Failure::File(read_fault(&error)))
        }
    }
}

/// Executes this with the text of the named file, or of the standard input, and returns the outcome.
pub(crate) fn work_asked<R, T: TextSource, W: Write, E: Eprint>(
    context: &Context<R, T, E>,
    work: Work,
    file: Option<&str>,
    out: &mut W,
    reasons: &mut Reasons,
) -> Outcome
    ensures { Works (Performs work.entry) (failed_work work.entry) (file_name_of file.entry)
        (known_input (T.file context.now.texts.now) (T.input context.now.texts.now) file.entry)
        (W.contents out.old) (W.contents out.new) result }
{
    let failed = work.failed();
    let ending = perform_on(context, work, file, out, reasons);
    finish(context, ending, failed, reasons)
}
