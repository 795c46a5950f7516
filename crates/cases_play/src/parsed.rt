//! Parsed scripts as texts.
use gt_policy::Policy;
use gt_script::{
    RunScript, Script, ScriptAction, ScriptCall, ScriptHead, ScriptStep, Text, hex_bytes, parse,
    parse_run,
};
use gt_types::{Allows, DomId, Perms, TypeId};
use std::alloc::{AllocError, Global};
use std::sync::Wait;
use std::thread::Threads;
use test_cases::{Job, Limits};

/// The parsed form of a script for `play`, which has no records.
#[derive(Clone, Copy)]
pub struct ParsedForm;

impl Job for ParsedForm {
    fn said<R: Threads + Wait + Sync>(
        &self,
        _rt: &R,
        alloc: Global,
        text: &[u8],
        _audit: bool,
        _limits: Limits,
    ) -> anyhow::Result<Vec<u8>> {
        Ok(play_said(alloc, text)?.into_bytes())
    }
}

// Returns the parsed form of a text for `play`, or its fault: the names of its types, its triples, its domains, its
// first generation, its policy and its steps, one per line.
fn play_said(alloc: Global, text: &[u8]) -> Result<String, AllocError> {
    match parse(alloc, text) {
        Ok(script) => script_said(alloc, &script),
        Err(error) => format!(in alloc; "{error}\n"),
    }
}

fn script_said(alloc: Global, script: &Script<'_>) -> Result<String, AllocError> {
    let head = script.head();
    let types = head.type_names(alloc)?;
    let mut out = String::new(alloc);
    push_names(&mut out, types.as_slice())?;
    push_settings(&mut out, head)?;
    for step in script.steps() {
        push_step(&mut out, alloc, step)?;
    }
    Ok(out)
}

fn push_names(out: &mut String, names: &[Text<'_>]) -> Result<(), AllocError> {
    for name in names {
        for byte in name.as_bytes() {
            out.push(char::from(*byte))?;
        }
        out.push('\n')?;
    }
    Ok(())
}

// Appends the triples, the domains, the first generation and the policy.
fn push_settings(out: &mut String, head: &ScriptHead<'_>) -> Result<(), AllocError> {
    for triple in head.triples() {
        writeln!(out, "{triple:?}")?;
    }
    for domain in head.domains() {
        writeln!(out, "{domain:?}")?;
    }
    writeln!(out, "first generation {}", head.first_gen())?;
    match head.policy() {
        Some(policy) => push_policy(out, policy),
        None => Ok(()),
    }
}

// Appends whether the policy lets type 1 read type 0, set up itself, and set up type 0.
fn push_policy(out: &mut String, policy: &Policy) -> Result<(), AllocError> {
    let read = policy.allows(TypeId(1), TypeId(0), Perms::MAP_READ);
    let itself = policy.allows(TypeId(1), TypeId(1), Perms::SETUP);
    let other = policy.allows(TypeId(1), TypeId(0), Perms::SETUP);
    writeln!(out, "policy {read} {itself} {other}")
}

// Appends the line of a step: the number of the line, the domain, its call, and the bytes of its hexadecimal text.
fn push_step(out: &mut String, alloc: Global, step: &ScriptStep<'_>) -> Result<(), AllocError> {
    let action = &step.action;
    write!(out, "{} {} {action:?}", step.line, step.dom.0)?;
    if let Some(hex) = hex_in(action) {
        let bytes = hex_bytes(alloc, hex)?;
        write!(out, " = {bytes:?}")?;
    }
    out.push('\n')
}

// Returns the hexadecimal text of a call that has one.
fn hex_in<'b, 'a>(action: &'b ScriptAction<'a>) -> Option<&'b Text<'a>> {
    let (ScriptAction::Do(call) | ScriptAction::Begin(call)) = action else {
        return None;
    };
    match call {
        ScriptCall::GrantBytes { hex, .. }
        | ScriptCall::Store { hex, .. }
        | ScriptCall::Poke { hex, .. } => Some(hex),
        _ => None,
    }
}

/// Returns the parsed form of a text for `run`, or its fault: the lines of domains 1 and 2, one per line, and the
/// number of flags.
pub fn run_said(alloc: Global, text: &[u8]) -> Result<String, AllocError> {
    match parse_run(alloc, text) {
        Ok(script) => lists_said(alloc, &script),
        Err(error) => format!(in alloc; "{error}\n"),
    }
}

fn lists_said(alloc: Global, script: &RunScript<'_>) -> Result<String, AllocError> {
    let mut out = String::new(alloc);
    for id in 1..3 {
        for task in script.list_of(alloc, DomId(id))? {
            let run_action = &task.run_action;
            writeln!(out, "{} {} {run_action:?}", task.line, task.dom.0)?;
        }
    }
    writeln!(out, "{} flags", script.flags())?;
    Ok(out)
}

/// Returns whether a text that was cut off is still a script, or has an allowed fault: never one of memory, and one of
/// a policy only if the text has a policy.
pub fn cut_said(alloc: Global, text: &[u8]) -> Result<String, AllocError> {
    let is_policy = text.starts_with("policy\n".as_bytes());
    for end in 0..text.len() {
        if let Err(error) = parse(alloc, &text[..end]) {
            let fault = error.to_string(alloc)?;
            let is_read = is_policy || !fault.contains("policy");
            if !is_read || fault.as_str() == "memory" {
                return format!(in alloc; "{end} bytes: {fault}\n");
            }
        }
    }
    String::from_str(alloc, "each beginning is a script or has a fault\n")
}
