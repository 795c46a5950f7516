//! Parses a script.
ghost use Rattle.std.specs.Prelude.{◌≡◌, ◌≤◌, ◌<◌, ◌+◌, ◌^◌, ℕ, List, length, take, map, IfOk, IfErr};
ghost use Rattle.std.specs.Str.{IsUtf8};
ghost use Rattle.std.specs.Str.Lines.{lines as lines_in};
ghost use Rattle.gt_script.specs.Blocks.{opening as opening_in, closing as closing_in};
ghost use Rattle.gt_script.specs.Script.{LinesRead};
ghost use Rattle.gt_script.specs.Script.{BlockReads, TextReads, ReadsFor, ReadsAsScript};
ghost use Rattle.gt_script.specs.Contents.{contents_of};
ghost use Rattle.gt_script.specs.Outcomes.{AnswersScript};
ghost use Rattle.gt_script.specs.Laws.{IsScriptFor, IsScriptOf, StandsFor, ErrorStands, IsUnread};

use crate::blocks::{block_closing, block_opening, read_policy};
use crate::command::ScriptCommand;
use crate::faults::{ScriptError, ScriptFault, ScriptFaultKind};
use crate::script::Script;
use gt_script_lines::text_lines;
use gt_types::LONGEST_TEXT;
use std::alloc::Global;

// Parses a script with a policy block, from the lines after the line `policy`, which has the number `first`. The script
// has `count` lines.
fn of_block<'a>(
    alloc: Global,
    command: ScriptCommand,
    count: usize,
    first: usize,
    lines: &[&'a str],
) -> Result<Script<'a>, ScriptError>
    requires whole { first + length lines.now ≡ count }
    requires fits { count < 2 ^ 63 }
    ensures { let said = map (λ line. line.now) lines.now in
        AnswersScript result (BlockReads command count first said (closing_in said)) }
{
    let Some(end) = block_closing(alloc, lines)? else {
        return Err(ScriptError::Fault(ScriptFault {
            line: count + 1,
            kind: ScriptFaultKind::Syntax,
        }));
    };
    match read_policy(alloc, first, &lines[..end]) {
        Ok(policy) => {
            let script = Script::new(alloc, command, Some(policy));
            script.with_rest(alloc, first + end + 1, count, &lines[end + 1..])
        }
        Err(error) => Err(error),
    }
}

fn of_lines<'a>(
    alloc: Global,
    command: ScriptCommand,
    lines: &[&'a str],
) -> Result<Script<'a>, ScriptError>
    ensures { let said = map (λ line. line.now) lines.now in
        AnswersScript result (LinesRead command said (opening_in said)) }
{
    match block_opening(alloc, lines)? {
        Some(place) => of_block(alloc, command, lines.len(), place + 1, &lines[place + 1..]),
        None => Script::new(alloc, command, None).with_rest(alloc, 0, lines.len(), lines),
    }
}

fn of_text<'a>(
    alloc: Global,
    command: ScriptCommand,
    text: &'a str,
) -> Result<Script<'a>, ScriptError>
    ensures { AnswersScript result (TextReads command text.entry.now) }
{
    let lines = text_lines(alloc, text)?;
    of_lines(alloc, command, lines.as_slice())
}

// Returns the bytes as text, or the fault of too many bytes or of bytes that are not UTF-8.
fn script_text<'a>(bytes: &'a [u8]) -> Result<&'a str, ScriptFault>
    ensures text { IfOk result (λ text. text.now ≡ bytes.entry.now) }
    ensures few { IfOk result (λ _. length bytes.entry.now ≤ LONGEST_TEXT) }
    ensures utf8 { IfOk result (λ _. IsUtf8 bytes.entry.now) }
    ensures fault { IfErr result (λ fault. IsUnread bytes.entry.now fault) }
{
    if bytes.len() > LONGEST_TEXT {
        return Err(ScriptFault {
            line: 1,
            kind: ScriptFaultKind::Limit,
        });
    }
    match gt_text::text_of(bytes) {
        Ok(text) => Ok(text),
        Err(line) => Err(ScriptFault {
            line,
            kind: ScriptFaultKind::Utf8,
        }),
    }
}

/// Parses a script for a command, or returns the first fault. A domain of a script for `run` that waits for ever is not
/// a fault here: [`parse_run`](crate::parse_run) finds it.
pub fn parse_for<'a>(
    alloc: Global,
    command: ScriptCommand,
    bytes: &'a [u8],
) -> Result<Script<'a>, ScriptError>
    ensures script { AnswersScript result (ReadsFor command bytes.entry.now) }
    ensures holds { IfOk result (λ s. IsScriptFor command (lines_in bytes.entry.now) (contents_of s)) }
    ensures fault { IfErr result (λ e. StandsFor command bytes.entry.now e) }

    // The first LONGEST_TEXT + 1 bytes decide what all of them mean.
    ensures beginning { (all : List ℕ) → bytes.entry.now ≡ take (LONGEST_TEXT + 1) all →
        AnswersScript result (ReadsFor command all) }
{
    match script_text(bytes) {
        Ok(text) => of_text(alloc, command, text),
        Err(fault) => Err(ScriptError::Fault(fault)),
    }
}

/// Parses a script for `play`, or returns the first fault. The faults are found in this order: too many bytes, bytes
/// that are not UTF-8, the first faulty line, what the script lacks. A policy block is checked as a whole at its end. A
/// line that is only for `run` is a fault. The other error is a failed allocation.
pub fn parse<'a>(alloc: Global, bytes: &'a [u8]) -> Result<Script<'a>, ScriptError>
    ensures script { AnswersScript result (ReadsAsScript bytes.entry.now) }
    ensures holds { IfOk result (λ s. IsScriptOf (lines_in bytes.entry.now) (contents_of s)) }
    ensures fault { IfErr result (λ e. ErrorStands bytes.entry.now e) }

    // The first LONGEST_TEXT + 1 bytes decide what all of them mean.
    ensures beginning { (all : List ℕ) → bytes.entry.now ≡ take (LONGEST_TEXT + 1) all →
        AnswersScript result (ReadsAsScript all) }
{
    parse_for(alloc, ScriptCommand::Play, bytes)
}
