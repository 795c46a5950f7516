//! From a script to the output of its domains.
ghost use Rattle.std.specs.Prelude.{◌≡◌, ℕ, List, take, is_some, IfOk};
ghost use Rattle.gt_script.specs.Contents.{contents_of};
ghost use Rattle.gt_script.specs.RunContents.{run_contents};
ghost use Rattle.gt_script.specs.RunScripts.{CanConfigure, ReadsAsRun};
ghost use Rattle.gt_script.specs.Stuck.{AreNumbered};
ghost use Rattle.gt_text.specs.Streams.{ConsumesAtMost, OfInput};
ghost use Rattle.gt_text.specs.declared.streams.TheConstants.{READ_LIMIT};
ghost use Rattle.gt_run.specs.Runs.{AreParts, Ran, WroteScript};

use crate::fault::RunFault;
use crate::gate::Gate;
use crate::lists::{DomainPart, RunContext};
use crate::threads::run_lists;
use gt_audit::SharedLog;
use gt_script::{RunScript, RunTask, parse_run};
use gt_script_lines::Text;
use gt_script_runs::{PlayFault, ScriptPolicy};
use gt_text::read_text;
use gt_types::{Config, DomainConfig, Memory};
use std::alloc::{AllocError, Global};
use std::io::{Read, Write};
use std::sync::Wait;
use std::thread::Threads;

// Returns the parts of the domains, in their order.
fn parts_of<'s, 'a>(
    alloc: Global,
    domains: &[DomainConfig],
    tasks: &'s [RunTask<'a>],
    types: &'s [Text<'s>],
) -> Result<Vec<DomainPart<'s, 'a>>, AllocError>
    ensures { IfOk result (λ parts. AreParts domains.entry.now tasks.entry.now types.entry.now parts.items) }
{
    let mut parts = Vec::new(alloc);
    'domains: for domain in domains {
        let dom = domain.id;
        parts.push(DomainPart { dom, tasks, types })?;
    }
    Ok(parts)
}

// Runs a script that was parsed.
fn run_script<'a, R: Threads + Wait + Sync, G: Gate + Sync, W: Write>(
    rt: &R,
    alloc: Global,
    script: &RunScript<'a>,
    log: Option<&SharedLog>,
    gate: &G,
    writer: &mut W,
) -> Result<(), RunFault>
    requires configured { CanConfigure (contents_of script.now.head) }
    requires numbered { AreNumbered script.now.flags script.now.tasks }
    ensures { WroteScript (G.refuses gate.now) (run_contents script.entry.now) (is_some log.entry)
        (W.contents writer.old) (W.contents writer.new) result }
{
    let head = script.head();
    let config = Config {
        domains: Vec::from_slice(alloc, head.domains())?,
        first_gen: head.first_gen(),
    };
    let rights = ScriptPolicy::of(alloc, head)?;
    let types = head.type_names(alloc)?;
    let parts = parts_of(alloc, head.domains(), script.tasks(), types.as_slice())?;
    let context = RunContext {
        rt,
        alloc,
        gate,
        log,
    };
    let Ok(flags) = u32::try_from(script.flags()) else {
        return Err(RunFault::from(Memory));
    };
    run_lists(&context, config, rights, flags, parts.as_slice(), writer)
}

// Parses and runs the script in these bytes, which are those read up to the limit.
fn run_bytes<R: Threads + Wait + Sync, G: Gate + Sync, W: Write>(
    rt: &R,
    alloc: Global,
    input: &[u8],
    writer: &mut W,
    log: Option<&SharedLog>,
    gate: &G,
) -> Result<(), RunFault>
    ensures { (all : List ℕ) → input.now ≡ take READ_LIMIT all →
        Ran (G.refuses gate.now) (is_some log.entry) (ReadsAsRun all)
        (W.contents writer.old) (W.contents writer.new) result }
{
    match parse_run(alloc, input) {
        Ok(script) => run_script(rt, alloc, &script, log, gate, writer),
        Err(error) => Err(RunFault::Play(PlayFault::from(error))),
    }
}

/// Runs the script that the reader has. Each domain makes its calls in its own thread, and asks the gate when it awaits
/// a flag. Writes a line for each answer: those of the first domain first, and each domain's in its order. If there is
/// a log, calls are recorded in it, and the audit lines of each domain and the number of lost records follow all other
/// lines.
///
/// Reads at most 1,048,577 bytes. If the script has a fault, nothing is written. After a failed write, or if an
/// allocation fails, a prefix of a text of the script was written.
///
/// # Errors
/// The script's first fault; a thread that could not be started, and then no list ran; an allocation that failed; or a
/// read or a write that failed.
pub fn run<R: Threads + Wait + Sync, I: Read, W: Write, G: Gate + Sync>(
    rt: &R,
    alloc: Global,
    reader: &mut I,
    writer: &mut W,
    log: Option<&SharedLog>,
    gate: &G,
) -> Result<(), RunFault>
    ensures text { OfInput (I.remaining reader.old) (λ input.
        Ran (G.refuses gate.now) (is_some log.entry) (ReadsAsRun input)
        (W.contents writer.old) (W.contents writer.new) result) }
    ensures read { ConsumesAtMost READ_LIMIT (I.remaining reader.old) (I.remaining reader.new) }
{
    match read_text(alloc, reader) {
        Ok(input) => run_bytes(rt, alloc, input.as_slice(), writer, log, gate),
        Err(error) => Err(RunFault::Play(PlayFault::from(error))),
    }
}
