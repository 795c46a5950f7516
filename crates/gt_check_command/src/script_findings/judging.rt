//! Checks a script.
ghost use Rattle.std.specs.Prelude.{◌≡◌, ◌+◌, [], ℕ, List, take, IfOk, OnOk};
ghost use Rattle.gt_types.specs.declared.limits.TheConstants.{LONGEST_TEXT};
ghost use Rattle.gt_findings.specs.Findings.{error_lines};
ghost use Rattle.gt_check_command.specs.Judging.{JudgesScript};

use crate::script_findings::block::warn_block;
use crate::script_findings::calls::warn_call;
use crate::script_findings::configured::ScriptDomains;
use crate::script_findings::faults::errors;
use crate::script_findings::labels::{label_in, warn_label};
use crate::script_findings::triples::warn_triple;
use crate::script_findings::worn::{body_start, worn_types};
use gt_findings::Finding;
use gt_script::{parse, parse_run};
use gt_script_lines::text_lines;
use gt_text::text_of;
use gt_types::Memory;
use std::alloc::{AllocError, Global};

// Warns of what is useless in the lines after the first `start`; the domains of the script have these types.
fn warn_lines(
    alloc: Global,
    found: &mut Vec<Finding>,
    lines: &[&str],
    start: usize,
    worn: &[&str],
    domains: &ScriptDomains,
) -> Result<(), AllocError>
    ensures { OnOk result (error_lines found.new.items ≡ error_lines found.old.items) }
{
    let mut mapped = Vec::new(alloc);
    let mut number: u32 = 0;
    'lines: for line in lines {
        number = number.saturating_add(1);
        if number as usize <= start {
            continue;
        }
        warn_triple(alloc, found, number, line, worn)?;
        warn_call(alloc, found, number, line, domains)?;
        let Some(label) = label_in(alloc, line)? else {
            continue;
        };
        warn_label(alloc, found, number, line, label, mapped.as_slice())?;
        if label.is_mapped() {
            mapped.push(label)?;
        }
    }
    Ok(())
}

// Returns the warnings about a script.
fn warnings(alloc: Global, input: &[u8]) -> Result<Vec<Finding>, Memory>
    ensures { IfOk result (λ v. error_lines v.items ≡ []) }
{
    let mut found = Vec::new(alloc);
    let Ok(text) = text_of(input) else {
        return Ok(found);
    };
    let lines = text_lines(alloc, text)?;
    let start = body_start(alloc, lines.as_slice())?;
    let body = lines.as_slice().get(start..).unwrap_or(&[]);
    let worn = worn_types(alloc, body)?;
    let domains = ScriptDomains::of(alloc, body)?;
    warn_block(alloc, &mut found, lines.as_slice(), worn.as_slice())?;
    warn_lines(
        alloc,
        &mut found,
        lines.as_slice(),
        start,
        worn.as_slice(),
        &domains,
    )?;
    Ok(found)
}

/// Checks a script, of which `input` is all or the first bytes up to the read limit. Bytes that are a script for
/// neither `play` nor `run` have one error, at the line of the fault of the two that is further down. A script has
/// none. The only Err is a failed allocation.
pub fn judge(alloc: Global, input: &[u8]) -> Result<Vec<Finding>, Memory>
    ensures { (all : List ℕ) → input.now ≡ take (LONGEST_TEXT + 1) all →
        IfOk result (λ v. JudgesScript all v.items) }
{
    let play = match parse(alloc, input) {
        Ok(_) => return warnings(alloc, input),
        Err(error) => error,
    };
    match parse_run(alloc, input) {
        Ok(_) => warnings(alloc, input),
        Err(run) => errors(alloc, input, &play, &run),
    }
}
