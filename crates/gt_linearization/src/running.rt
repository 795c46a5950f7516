//! Runs of scripts, by the texts that they may print.
ghost use Rattle.std.specs.Prelude.{is_some};
ghost use Rattle.gt_script.specs.RunScripts.{ReadsAsRun};
ghost use Rattle.gt_text.specs.Streams.{ConsumesAtMost, OfInput};
ghost use Rattle.gt_text.specs.declared.streams.TheConstants.{READ_LIMIT};
ghost use Rattle.gt_linearization.specs.Running.{RanInOrder};

use gt_audit::SharedLog;
use gt_run::{Gate, RunFault};
use std::alloc::Global;
use std::io::{Read, Write};
use std::sync::Wait;
use std::thread::Threads;

/// Runs the script that the reader has, as [`gt_run::run`] does. What is appended at Ok is a text that a run of the
/// script may print. It is one that `explore` lists, if it has neither a line with N26 nor the line of a gate. If the
/// gate refuses no flag, it is one that `explore` lists if it has no line with N26. With a log the audit lines and the
/// number of lost records follow it.
///
/// # Errors
/// Those of [`gt_run::run`]. At a fault of the script, and if a thread could not be started, nothing was written. After
/// a failed write, or if an allocation fails, a prefix of a text of the script was written.
pub fn run<R: Threads + Wait + Sync, I: Read, W: Write, G: Gate + Sync>(
    rt: &R,
    alloc: Global,
    reader: &mut I,
    writer: &mut W,
    log: Option<&SharedLog>,
    gate: &G,
) -> Result<(), RunFault>
    ensures text { OfInput (I.remaining reader.old) (λ input.
        RanInOrder (G.refuses gate.now) (is_some log.entry) (ReadsAsRun input)
        (W.contents writer.old) (W.contents writer.new) result) }
    ensures read { ConsumesAtMost READ_LIMIT (I.remaining reader.old) (I.remaining reader.new) }
{
    gt_run::run(rt, alloc, reader, writer, log, gate)
}
