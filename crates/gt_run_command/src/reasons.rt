//! Runs of scripts, with their reasons.
ghost use Rattle.std.specs.Prelude.{is_some};
ghost use Rattle.gt_text.specs.Streams.{OfInput};
ghost use Rattle.gt_run_command.specs.Runs.{RanAs, Relays};

use crate::formats::{RunSettings, run_as};
use gt_command_reasons::{CopyingReader, KeptInput, Reasons};
use gt_run::{Gate, RunFault};
use gt_script_runs::PlayFault;
use gt_text::{every_writer_keeps_what_it_has, finish};
use std::io::{Read, Write};
use std::sync::Wait;
use std::thread::Threads;

// Writes the text that a run with this result wrote to memory. A write to memory fails only if an allocation does.
fn relay<W: Write>(text: &[u8], ending: Result<(), RunFault>, out: &mut W) -> Result<(), RunFault>
    ensures { Relays text.now ending (W.contents out.old) (W.contents out.new) result }
{
    every_writer_keeps_what_it_has();
    match ending {
        Ok(()) => match finish(out, text) {
            Ok(()) => Ok(()),
            Err(_) => Err(RunFault::Play(PlayFault::Write)),
        },
        Err(RunFault::Play(PlayFault::Write)) => Err(RunFault::Play(PlayFault::Memory)),
        Err(fault) => Err(fault),
    }
}

// Adds the reasons of a script that was run, and whose run wrote this text and had this result.
fn add_run(reasons: &mut Reasons, input: &KeptInput, text: &[u8], ending: &Result<(), RunFault>) {
    match ending {
        Ok(()) => reasons.add_refusals(input, text),
        Err(RunFault::Play(fault)) => reasons.add_refused(input, fault),
        Err(RunFault::Thread) => {}
    }
}

/// Runs the script of a reader, its domains in threads, and adds the reasons, if they are asked for. In that case the
/// text is kept in memory and written at the end, since a second run may print another.
pub(crate) fn run_with_reasons<R: Threads + Wait + Sync, I: Read, W: Write, G: Gate + Sync>(
    settings: &RunSettings<R, G>,
    reader: &mut I,
    out: &mut W,
    reasons: &mut Reasons,
) -> Result<(), RunFault>
    ensures { OfInput (I.remaining reader.old) (λ input.
        RanAs (G.refuses settings.now.gate.now) settings.now.format (is_some settings.now.log) input
        (W.contents out.old) (W.contents out.new) result) }
{
    if !reasons.are_asked() {
        return run_as(settings, reader, out);
    }
    let mut input = CopyingReader::new(settings.alloc, reader);
    let mut text = Vec::new(settings.alloc);
    let outcome = run_as(settings, &mut input, &mut text);
    let ending = relay(text.as_slice(), outcome, out);
    add_run(reasons, &input.kept, text.as_slice(), &ending);
    ending
}
