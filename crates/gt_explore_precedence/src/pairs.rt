//! The calls that terms of order name.
ghost use Rattle.std.specs.Prelude.{◌≡◌, ◌++◌, ◌+◌, ◌≤◌, IfErr, IfOk, IfSome, OnOk, Ok, length, map};
ghost use Rattle.std.specs.List.{position};
ghost use Rattle.std.specs.Str.Lines.{lines as lines_in};
ghost use Rattle.gt_script.specs.Preceding.{preceding_all};
ghost use Rattle.gt_script.specs.RunContents.{run_contents};
ghost use Rattle.gt_script.specs.Stuck.{AreNumbered};
ghost use Rattle.gt_explore_precedence.specs.Pairs.{AddsPair, ArePairs, IsSideFault, IsPairsFault, IsPartFault};
ghost use Rattle.gt_explore_precedence.specs.Pairs.{calls_meant, is_side_break};
ghost use Rattle.gt_explore_precedence.specs.Pairs.{is_nonempty_side, call_line_if, line_meant, only_line, pair_meant};
ghost use Rattle.gt_explore_precedence.specs.Pairs.{side_words};
ghost use Rattle.gt_explore_precedence.specs.Terms.{has_not, is_less, is_not};

use crate::terms::{has_precedence, is_less};
use gt_call_names::calls_named;
use gt_explore_faults::{ClaimsFault, PrecedenceFault};
use gt_explore_verdict::is_written;
use gt_script::{Precedence, RunAction, RunScript, RunTask};
use std::alloc::{AllocError, Global};

fn is_side_break(byte: u8) -> bool
    ensures { result ≡ is_side_break byte }
{
    byte == b' '
}

fn is_nonempty(word: &[u8]) -> bool
    ensures { result ≡ is_nonempty_side word.now }
{
    !word.is_empty()
}

fn is_not(byte: u8) -> bool
    ensures { result ≡ is_not byte }
{
    byte == b'!'
}

/// Returns whether a part of an expression has `!`.
pub fn has_not(part: &[u8]) -> bool
    ensures { result ≡ has_not part.now }
{
    part.iter().any(|b| is_not(*b))
}

// Returns the words of a side of an order.
fn side_words<'e>(alloc: Global, side: &'e [u8]) -> Result<Vec<&'e [u8]>, AllocError>
    ensures { IfOk result (λ words. map (λ word. word.now) words.items ≡ side_words side.entry.now) }
{
    side.split(|b| is_side_break(*b))
        .filter(|word| is_nonempty(*word))
        .collect(alloc)
}

// Appends the line of a task, if it has a call and its number is written so.
fn push_line(
    alloc: Global,
    lines: &mut Vec<usize>,
    task: &RunTask<'_>,
    number: &[u8],
) -> Result<(), AllocError>
    ensures { OnOk result (lines.new.items ≡ lines.old.items ++ call_line_if number.now task.now) }
{
    let RunAction::Do(_) = &task.run_action else {
        return Ok(());
    };
    if is_written(alloc, task.line, number)? {
        lines.push(task.line)?;
    }
    Ok(())
}

// Returns the lines of the calls that a word names or whose number it is.
fn calls_meant(
    alloc: Global,
    source: &str,
    script: &RunScript<'_>,
    word: &[u8],
) -> Result<Vec<usize>, AllocError>
    ensures { IfOk result (λ found.
        found.items ≡ calls_meant (lines_in source.now) script.now.tasks word.now) }
{
    let mut found = calls_named(alloc, source, word)?;
    'tasks: for task in script.tasks() {
        push_line(alloc, &mut found, task, word)?;
    }
    Ok(found)
}

// Returns the only one of these lines.
fn only_line(lines: &[usize]) -> Result<usize, ClaimsFault>
    ensures { result ≡ only_line lines.now }
{
    match lines {
        [] => Err(ClaimsFault::Precedence(PrecedenceFault::Call)),
        [line] => Ok(*line),
        [first, second, ..] => Err(ClaimsFault::Repeated {
            first: *first,
            second: *second,
        }),
    }
}

// Returns the line of the call that a side of an order names.
fn line_meant(
    alloc: Global,
    source: &str,
    script: &RunScript<'_>,
    side: &[u8],
) -> Result<usize, ClaimsFault>
    ensures ok { IfOk result (λ line. line_meant (lines_in source.now) script.now.tasks side.now ≡ Ok line) }
    ensures fault { IfErr result (IsSideFault (line_meant (lines_in source.now) script.now.tasks side.now)) }
{
    let words = side_words(alloc, side)?;
    let [word] = words.as_slice() else {
        return Err(ClaimsFault::Precedence(PrecedenceFault::Call));
    };
    let found = calls_meant(alloc, source, script, word)?;
    only_line(found.as_slice())
}

// Returns the index of the first `<` of a part.
fn less_in(part: &[u8]) -> Option<usize>
    ensures place { result ≡ position is_less part.now }
    ensures within { IfSome result (λ at. at + 1 ≤ length part.now) }
{
    part.iter().position(|b| is_less(*b))
}

// Returns the lines of the calls that a term of order names.
fn pair_meant(
    alloc: Global,
    source: &str,
    script: &RunScript<'_>,
    part: &[u8],
) -> Result<Precedence, ClaimsFault>
    ensures ok { IfOk result (λ pair. pair_meant (lines_in source.now) script.now.tasks part.now ≡ Ok pair) }
    ensures fault { IfErr result (IsSideFault (pair_meant (lines_in source.now) script.now.tasks part.now)) }
{
    let Some(at) = less_in(part) else {
        return Err(ClaimsFault::Precedence(PrecedenceFault::Call));
    };
    let first = line_meant(alloc, source, script, &part[..at])?;
    let second = line_meant(alloc, source, script, &part[at + 1..])?;
    Ok(Precedence { first, second })
}

// Appends the lines of the calls that a part names, if it is a term of order.
fn push_pair(
    alloc: Global,
    source: &str,
    script: &RunScript<'_>,
    pairs: &mut Vec<Precedence>,
    part: &[u8],
) -> Result<(), ClaimsFault>
    ensures ok { OnOk result
        (AddsPair (lines_in source.now) script.now.tasks part.now pairs.old.items pairs.new.items) }
    ensures fault { IfErr result (IsPartFault (lines_in source.now) script.now.tasks part.now) }
{
    if !has_precedence(part) {
        return Ok(());
    }
    let pair = pair_meant(alloc, source, script, part)?;
    match pairs.push(pair) {
        Ok(()) => Ok(()),
        Err(error) => Err(ClaimsFault::from(AllocError::from(error))),
    }
}

/// Returns the lines of the calls that each term of order among these parts names.
///
/// # Errors
/// `Call` if no call has the number or the name of a side; `Repeated` if two have it; and
/// want of memory.
pub fn pairs_of(
    alloc: Global,
    source: &str,
    script: &RunScript<'_>,
    parts: &[&[u8]],
) -> Result<Vec<Precedence>, ClaimsFault>
    ensures ok { IfOk result (λ pairs.
        ArePairs (lines_in source.now) script.now.tasks (map (λ part. part.now) parts.now) pairs.items) }
    ensures fault { IfErr result
        (IsPairsFault (lines_in source.now) script.now.tasks (map (λ part. part.now) parts.now)) }
{
    let mut pairs = Vec::new(alloc);
    'parts: for part in parts {
        match push_pair(alloc, source, script, &mut pairs, part) {
            Ok(()) => (),
            Err(fault) => return Err(fault),
        }
    }
    Ok(pairs)
}

/// Returns the script whose runs are those in which the calls of each pair are in order.
///
/// # Errors
/// An allocation failed.
pub fn preceding_all<'a>(
    alloc: Global,
    script: RunScript<'a>,
    pairs: Vec<Precedence>,
) -> Result<RunScript<'a>, AllocError>
    ensures contents { IfOk result (λ s.
        run_contents s ≡ preceding_all pairs.items (run_contents script.entry)) }
    ensures head { IfOk result (λ s. s.head ≡ script.entry.head) }
    ensures numbered { AreNumbered script.entry.flags script.entry.tasks →
        IfOk result (λ s. AreNumbered s.flags s.tasks) }
{
    let mut made = script;
    'pairs: for pair in pairs {
        made = made.preceding(alloc, pair)?;
    }
    Ok(made)
}
