//! A run in the two formats of its output.
ghost use Rattle.std.specs.Prelude.{is_some};
ghost use Rattle.gt_text.specs.Streams.{OfInput};
ghost use Rattle.gt_run_command.specs.Runs.{RanAs};

use crate::json::run_json;
use gt_audit::SharedLog;
use gt_command_line::Format;
use gt_linearization::run;
use gt_run::{Gate, RunFault};
use std::alloc::Global;
use std::io::{Read, Write};
use std::sync::Wait;
use std::thread::Threads;

/// The settings of a run: its threads, with a log or without, its gate, and the format of its output.
#[derive(Drop)]
pub struct RunSettings<'r, R, G> {
    pub rt: &'r R,
    pub alloc: Global,
    pub format: Format,
    pub log: Option<&'r SharedLog>,
    pub gate: &'r G,
}

/// Runs the script of a reader, its domains in threads.
pub(crate) fn run_as<R: Threads + Wait + Sync, I: Read, W: Write, G: Gate + Sync>(
    settings: &RunSettings<R, G>,
    reader: &mut I,
    out: &mut W,
) -> Result<(), RunFault>
    ensures { OfInput (I.remaining reader.old) (λ input.
        RanAs (G.refuses settings.now.gate.now) settings.now.format (is_some settings.now.log) input
        (W.contents out.old) (W.contents out.new) result) }
{
    match settings.format {
        Format::Text => run(
            settings.rt,
            settings.alloc,
            reader,
            out,
            settings.log,
            settings.gate,
        ),
        Format::Json => run_json(
            settings.rt,
            settings.alloc,
            reader,
            out,
            settings.log,
            settings.gate,
        ),
    }
}
