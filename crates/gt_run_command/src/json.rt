//! A run with its text as JSON Lines.
ghost use Rattle.std.specs.Prelude.{is_some};
ghost use Rattle.gt_text.specs.Streams.{ConsumesAtMost};
ghost use Rattle.gt_text.specs.declared.streams.TheConstants.{READ_LIMIT};
ghost use Rattle.gt_json.specs.declared.places.PrintedText.TheVariants as printed_texts;
ghost use Rattle.gt_file_commands.specs.AsJson.{ForInput, Passes};
ghost use Rattle.gt_run_command.specs.Runs.{RanAsJson};
ghost use Rattle.gt_run.specs.declared.fault.RunFault.TheVariants as run_faults;
ghost use Rattle.gt_script_runs.specs.declared.fault.PlayFault.TheVariants as play_faults;

use gt_audit::SharedLog;
use gt_json::{JsonFault, PrintedText, write_json};
use gt_linearization::run;
use gt_run::{Gate, RunFault};
use gt_script_runs::PlayFault;
use gt_text::every_writer_keeps_what_it_has;
use std::alloc::Global;
use std::io::{Read, Write};
use std::sync::Wait;
use std::thread::Threads;

// Writes the JSON of the text that `run` wrote, if it returned Ok.
fn pass_run<W: Write>(
    alloc: Global,
    text: &[u8],
    outcome: Result<(), RunFault>,
    writer: &mut W,
) -> Result<(), RunFault>
    ensures { Passes printed_texts.Run (run_faults.Play play_faults.Memory)
        (run_faults.Play play_faults.Write) text.now outcome
        (W.contents writer.old) (W.contents writer.new) result }
{
    every_writer_keeps_what_it_has();
    match outcome {
        Ok(()) => match write_json(alloc, PrintedText::Run, text, writer) {
            Ok(()) => Ok(()),
            Err(JsonFault::Memory) => Err(RunFault::Play(PlayFault::Memory)),
            Err(JsonFault::Write) => Err(RunFault::Play(PlayFault::Write)),
        },
        Err(RunFault::Play(PlayFault::Write)) => Err(RunFault::Play(PlayFault::Memory)),
        Err(fault) => Err(fault),
    }
}

/// Runs a script as [`run`] does, and writes its text as JSON Lines.
///
/// # Errors
/// Those of `run`. At a fault of the script, a failed read or a thread that can't start, nothing was written; after a
/// failed write or allocation, a prefix of the JSON or nothing.
pub(crate) fn run_json<R: Threads + Wait + Sync, I: Read, W: Write, G: Gate + Sync>(
    rt: &R,
    alloc: Global,
    reader: &mut I,
    writer: &mut W,
    log: Option<&SharedLog>,
    gate: &G,
) -> Result<(), RunFault>
    ensures text { ForInput (I.remaining reader.old) (λ input. RanAsJson (G.refuses gate.now) input (is_some log.entry))
        (W.contents writer.old) (W.contents writer.new) result }
    ensures read { ConsumesAtMost READ_LIMIT (I.remaining reader.old) (I.remaining reader.new) }
{
    let mut text = Vec::new(alloc);
    let outcome = run(rt, alloc, reader, &mut text, log, gate);
    pass_run(alloc, text.as_slice(), outcome, writer)
}
