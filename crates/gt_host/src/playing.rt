//! Plays a script.
ghost use Rattle.std.specs.Prelude.{◌≡◌, ◌⊎◌, ◌++◌, ℕ, List, take, OnOk, OnErr, IfErr};
ghost use Rattle.std.specs.Option.{option_map};
ghost use Rattle.gt_script.specs.Contents.{contents_of};
ghost use Rattle.gt_script.specs.Script.{ReadsAsScript};
ghost use Rattle.gt_host.specs.declared.fault.StepsFault.TheVariants as steps_faults;
ghost use Rattle.gt_host.specs.OpenCalls.{call_in};
ghost use Rattle.gt_script_runs.specs.Runs.{open_text, open_lines};
ghost use Rattle.gt_text.specs.Streams.{OfInput, ConsumesAtMost};
ghost use Rattle.gt_text.specs.declared.streams.TheConstants.{READ_LIMIT};
ghost use Rattle.gt_script_runs.specs.Playing.{CanStart, StartsFor, WritesRun, BeginsRun, Played};

use crate::fault::StepsFault;
use crate::kept::PlayState;
use crate::laws::every_beginning_is_of_the_text;
use crate::open_calls::{OpenCalls, Opened};
use crate::run::run_step;
use gt_core::Core;
use gt_script::{Script, parse};
use gt_script_runs::{PlayFault, ScriptPolicy, core_of, push_open_line};
use gt_text::{finish, read_text, send};
use gt_types::{DomId, DomainConfig};
use std::alloc::{AllocError, Global};
use std::io::{Read, Write};

// Appends the line of a domain's open call, if it has one.
fn push_if_open(out: &mut Vec<u8>, dom: DomId, begun: Option<Opened>) -> Result<(), AllocError>
    ensures { OnOk result (out.new.items ≡ out.old.items
        ++ open_text dom (option_map (λ o. o.step.now) begun.entry)) }
{
    match begun {
        Some(begun) => push_open_line(out, begun.step.line, dom),
        None => Ok(()),
    }
}

// Appends the lines of the open calls, in the order of the domains.
fn push_open_lines(
    out: &mut Vec<u8>,
    domains: &[DomainConfig],
    calls: &OpenCalls,
) -> Result<(), AllocError>
    ensures { OnOk result (out.new.items ≡ out.old.items ++ open_lines domains.now (call_in calls.now)) }
{
    'domains: for domain in domains {
        push_if_open(out, domain.id, calls.of(domain.id))?;
    }
    Ok(())
}

// Runs the steps of the script on a core, and writes their lines.
fn run_lines<'s, 'a, W: Write>(
    alloc: Global,
    core: &mut Core<ScriptPolicy>,
    script: &'s Script<'a>,
    writer: &mut W,
    audit: bool,
) -> Result<(), StepsFault>
    requires can { CanStart (contents_of script.now) }
    requires starts { StartsFor (contents_of script.now) core.old }
    ensures whole { OnOk result (WritesRun (contents_of script.now) audit (W.contents writer.old)
        (W.contents writer.new)) }
    ensures beginning { OnErr result (BeginsRun (contents_of script.now) audit
        (W.contents writer.old) (W.contents writer.new)) }
    ensures errors { IfErr result (λ e. (e ≡ steps_faults.Memory) ⊎ (e ≡ steps_faults.Write)) }
{
    let head = script.head();
    let types = head.type_names(alloc)?;
    let mut kept = PlayState::new(alloc, audit);
    let mut waiting = Vec::new(alloc);
    let steps = script.steps();
    'steps: for step in steps {
        run_step(core, &mut kept, types.as_slice(), step, &mut waiting)?;
        send(writer, &mut waiting)?;
    }
    push_open_lines(&mut waiting, head.domains(), &kept.calls)?;
    kept.audit.push_lines(&mut waiting, types.as_slice())?;
    finish(writer, waiting.as_slice())?;
    Ok(())
}

fn run_script<W: Write>(
    alloc: Global,
    script: &Script,
    writer: &mut W,
    audit: bool,
) -> Result<(), StepsFault>
    requires { CanStart (contents_of script.now) }
    ensures whole { OnOk result (WritesRun (contents_of script.now) audit (W.contents writer.old)
        (W.contents writer.new)) }
    ensures beginning { OnErr result (BeginsRun (contents_of script.now) audit
        (W.contents writer.old) (W.contents writer.new)) }
    ensures errors { IfErr result (λ e. (e ≡ steps_faults.Memory) ⊎ (e ≡ steps_faults.Write)) }
{
    let mut core = core_of(alloc, script.head())?;
    run_lines(alloc, &mut core, script, writer, audit)
}

// Plays the script of the bytes that were read: all, or the first up to the read limit.
fn play_bytes<W: Write>(
    alloc: Global,
    input: &[u8],
    writer: &mut W,
    audit: bool,
) -> Result<(), PlayFault>
    ensures { (all : List ℕ) → input.now ≡ take READ_LIMIT all →
        Played (ReadsAsScript all) audit (W.contents writer.old) (W.contents writer.new) result }
{
    every_beginning_is_of_the_text();
    match parse(alloc, input) {
        Ok(script) => StepsFault::as_play(run_script(alloc, &script, writer, audit)),
        Err(error) => Err(PlayFault::from(error)),
    }
}

/// Reads a script, runs its lines on a core, one after the other, and writes a line for each answer, for what a line
/// shows, for each call that can't begin and each tick without an open call, and at the end for each open call.
///
/// At most 1,048,577 bytes are read. For a script with a fault nothing is written. After a failed write or allocation,
/// a prefix of the text was written, or nothing.
///
/// With `audit` a line for each answer of an audited call follows, in the order of the answers; no other line changes.
/// The audited calls are map, unmap, copy, and those that set or query the version or size of a table.
pub fn play<R: Read, W: Write>(
    alloc: Global,
    reader: &mut R,
    writer: &mut W,
    audit: bool,
) -> Result<(), PlayFault>
    ensures text { OfInput (R.remaining reader.old) (λ input.
        Played (ReadsAsScript input) audit (W.contents writer.old) (W.contents writer.new) result) }
    ensures read { ConsumesAtMost READ_LIMIT (R.remaining reader.old) (R.remaining reader.new) }
{
    match read_text(alloc, reader) {
        Ok(input) => play_bytes(alloc, input.as_slice(), writer, audit),
        Err(error) => Err(PlayFault::from(error)),
    }
}
