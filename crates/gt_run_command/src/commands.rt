//! The command `run`, with the text that it names.
ghost use Rattle.std.specs.Prelude.{◌≡◌, ℕ, Bool, IfSome, List, Option, is_some};
ghost use Rattle.gt_text.specs.Streams.{OfInput};
ghost use Rattle.gt_command_line.specs.Files.{file_name_of};
ghost use Rattle.gt_file_commands.specs.Working.{known_input, DoesOnFile, Works};
ghost use Rattle.gt_file_commands.specs.declared.outcome.Outcome.TheVariants.{No};
ghost use Rattle.gt_command_line.specs.declared.invocation.Format.{Format};
ghost use Rattle.gt_run_command.specs.Runs.{RanAs, RunsDomains, no_flag};

use crate::formats::RunSettings;
use crate::reasons::run_with_reasons;
use gt_audit::SharedLog;
use gt_command_line::{Format, ScriptOptions};
use gt_command_reasons::Reasons;
use gt_file_commands::{Context, Failure, Outcome, TextSource, read_fault, report};
use gt_run::{FlagGate, RunFault};
use std::io::{Read, Write};
use std::sync::Wait;
use std::thread::Threads;

// Returns the log, if calls are to be recorded.
fn log_for<'l>(audit: bool, log: &'l SharedLog) -> Option<&'l SharedLog>
    ensures { is_some result ≡ audit }
{
    if audit { Some(log) } else { None }
}

// Returns the outcome of a run with this result, or its failure.
#[tactic(auto, using(crate::proofs::RunLemmas::done_so, crate::proofs::RunLemmas::failed_so, crate::proofs::RunLemmas::not_begun))]
fn ending_of(ended: Result<(), RunFault>) -> Result<Outcome, Failure>
    ensures { (format : Format) → (audited : Bool) → (input : List ℕ) → (old new : Option (List ℕ)) →
        RanAs no_flag format audited input old new ended → RunsDomains format audited input old new result }
{
    match ended {
        Ok(()) => Ok(Outcome::Yes),
        Err(RunFault::Play(fault)) => Err(Failure::Play(fault)),
        Err(RunFault::Thread) => Err(Failure::Thread),
    }
}

// Runs the script of a reader, its domains in threads.
#[tactic(auto, using(crate::proofs::RunLemmas::unread_run))]
fn run_script<R: Threads + Wait + Sync, T, E, I: Read, W: Write>(
    context: &Context<R, T, E>,
    format: Format,
    audit: bool,
    reader: &mut I,
    out: &mut W,
    reasons: &mut Reasons,
) -> Result<Outcome, Failure>
    ensures { OfInput (I.remaining reader.old) (λ input.
        RunsDomains format audit input (W.contents out.old) (W.contents out.new) result) }
{
    let Ok(gate) = FlagGate::new(context.rt, context.alloc) else {
        return Err(Failure::Memory);
    };
    let Ok(log) = SharedLog::new(context.alloc) else {
        return Err(Failure::Memory);
    };
    let settings = RunSettings {
        rt: context.rt,
        alloc: context.alloc,
        format,
        log: log_for(audit, &log),
        gate: &gate,
    };
    ending_of(run_with_reasons(&settings, reader, out, reasons))
}

// Runs the script of the named file, or of the standard input.
fn run_on<R: Threads + Wait + Sync, T: TextSource, W: Write, E>(
    context: &Context<R, T, E>,
    format: Format,
    audit: bool,
    name: Option<&str>,
    out: &mut W,
    reasons: &mut Reasons,
) -> Result<Outcome, Failure>
    ensures { IfSome (known_input (T.file context.now.texts.now) (T.input context.now.texts.now) name.entry)
        (λ input. DoesOnFile (RunsDomains format audit) (file_name_of name.entry) input (W.contents out.old)
        (W.contents out.new) result) }
{
    let Some(name) = name else {
        let mut input = context.texts.input();
        return run_script(context, format, audit, &mut input, out, reasons);
    };
    match context.texts.open(name) {
        Ok(mut file) => run_script(context, format, audit, &mut file, out, reasons),
        Err(error) => {
            reasons.add_unread(&error);
            Err(Failure::File(read_fault(&error)))
        }
    }
}

/// Runs the script of the named file, or of the standard input, with its domains in threads. Returns the outcome: yes,
/// or no after a failure.
pub fn run_asked<R: Threads + Wait + Sync, T: TextSource, W: Write, E: Eprint>(
    context: &Context<R, T, E>,
    options: ScriptOptions,
    out: &mut W,
    reasons: &mut Reasons,
) -> Outcome
    ensures { Works (RunsDomains options.entry.format options.entry.audit) No (file_name_of options.entry.file)
        (known_input (T.file context.now.texts.now) (T.input context.now.texts.now) options.entry.file)
        (W.contents out.old) (W.contents out.new) result }
{
    let ending = run_on(
        context,
        options.format,
        options.audit,
        options.file,
        out,
        reasons,
    );
    report(context.err, ending, Outcome::No)
}
