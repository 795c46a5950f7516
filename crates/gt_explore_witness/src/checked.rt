//! A check that a script for `play` gives the answers of a text.
ghost use Rattle.std.specs.Prelude.{◌≡◌, [], Some, Ok, false, map, IfOk, IsTrue};
ghost use Rattle.std.specs.List.{list_all};
ghost use Rattle.std.specs.Str.{bytes_eq};
ghost use Rattle.gt_script.specs.Script.{ReadsAsScript};
ghost use Rattle.gt_script_runs.specs.Playing.{Played};
ghost use Rattle.gt_explore_witness.specs.GivingAnswers.{answers_of, begins_with, domain_prefix, is_end};
ghost use Rattle.gt_explore_witness.specs.GivingAnswers.{ok_line, without_number};
ghost use Rattle.gt_explore_witness.specs.GivingAnswers.{GivesAnswers, ContinuesWithLines, HasAnswers};
ghost use Rattle.gt_explore_witness.specs.GivingAnswers.{DomainsHaveAnswers};

use gt_explore_faults::TextsFault;
use gt_host::play;
use gt_script_runs::PlayFault;
use gt_text::{push_number, push_text};
use gt_types::{DomId, DomainConfig};
use std::alloc::{AllocError, Global};

// Returns what `play` prints for a script.
fn played(alloc: Global, script: &[u8]) -> Result<Vec<u8>, TextsFault>
    ensures { IfOk result (λ out. Played (ReadsAsScript script.now) false (Some []) (Some out.items) (Ok tt)) }
{
    let mut out = Vec::new(alloc);
    let mut reader = script;
    match play(alloc, &mut reader, &mut out, false) {
        Ok(()) => Ok(out),
        Err(PlayFault::Memory) | Err(PlayFault::Write) => Err(TextsFault::Memory),
        Err(_) => Err(TextsFault::Astray),
    }
}

fn is_end(byte: u8) -> bool
    ensures { result ≡ is_end byte }
{
    byte == b'\n'
}

// Returns a line without its number.
fn without_number<'t>(line: &'t [u8]) -> &'t [u8]
    ensures { result.now ≡ without_number line.entry.now }
{
    match line.iter().position(|b| *b == b' ') {
        Some(at) => &line[at + 1..],
        None => &[],
    }
}

// Returns the word with which the answers of a domain begin.
fn domain_word(alloc: Global, dom: DomId) -> Result<Vec<u8>, AllocError>
    ensures { IfOk result (λ word. word.items ≡ domain_prefix dom.0) }
{
    let mut word = Vec::new(alloc);
    push_number(&mut word, dom.0)?;
    push_text(&mut word, " ")?;
    Ok(word)
}

fn begins_with(line: &[u8], word: &[u8]) -> bool
    ensures { result ≡ begins_with word.now line.now }
{
    line.starts_with(word)
}

// Returns the answers of a domain in a text, in their order, without the numbers of their lines.
fn answers<'t>(alloc: Global, dom: DomId, text: &'t [u8]) -> Result<Vec<&'t [u8]>, AllocError>
    ensures { IfOk result (λ lines. map (λ line. line.now) lines.items ≡ answers_of dom.0 text.entry.now) }
{
    let word = domain_word(alloc, dom)?;
    text.split(|b| is_end(*b))
        .map(|line| without_number(line))
        .filter(|line| begins_with(*line, word.as_slice()))
        .collect(alloc)
}

// Returns the answer of a domain to an unmap, without the number of a line.
fn ok_line(alloc: Global, dom: DomId) -> Result<Vec<u8>, AllocError>
    ensures { IfOk result (λ line. line.items ≡ ok_line dom.0) }
{
    let mut line = domain_word(alloc, dom)?;
    push_text(&mut line, "ok")?;
    Ok(line)
}

fn is_line(line: &[u8], other: &[u8]) -> bool
    ensures { result ≡ bytes_eq line.now other.now }
{
    line == other
}

// Returns whether each of these lines is this one.
fn are_all(lines: &[&[u8]], other: &[u8]) -> bool
    ensures { result ≡ list_all (λ line. bytes_eq line other.now) (map (λ l. l.now) lines.now) }
{
    'lines: for line in lines {
        if !is_line(line, other) {
            return false;
        }
    }
    true
}

fn are_same(lines: &[&[u8]], others: &[&[u8]]) -> bool
    ensures { IsTrue result → map (λ l. l.now) lines.now ≡ map (λ l. l.now) others.now }
{
    lines == others
}

// Returns whether the lines `all` begin with these, and go on only with this one.
fn goes_on_with(lines: &[&[u8]], all: &[&[u8]], with: &[u8]) -> bool
    ensures { IsTrue result →
        ContinuesWithLines with.now (map (λ l. l.now) lines.now) (map (λ l. l.now) all.now) }
{
    if all.len() < lines.len() {
        return false;
    }
    let (front, back) = all.split_at(lines.len());
    if !are_same(front, lines) {
        return false;
    }
    are_all(back, with)
}

// Returns whether a domain has the answers of a text, and after them `ok` for each mapping that it unmaps at the end
// of its list.
fn has_answers(alloc: Global, dom: DomId, text: &[u8], out: &[u8]) -> Result<bool, AllocError>
    ensures { IfOk result (λ b. IsTrue b → HasAnswers dom.0 text.now out.now) }
{
    let ok = ok_line(alloc, dom)?;
    let ours = answers(alloc, dom, text)?;
    let theirs = answers(alloc, dom, out)?;
    Ok(goes_on_with(ours.as_slice(), theirs.as_slice(), ok.as_slice()))
}

// Returns whether each of these domains has the answers of a text.
fn have_answers(
    alloc: Global,
    domains: &[DomainConfig],
    text: &[u8],
    out: &[u8],
) -> Result<bool, AllocError>
    ensures { IfOk result (λ b. IsTrue b → DomainsHaveAnswers domains.now text.now out.now) }
{
    'domains: for domain in domains {
        if !has_answers(alloc, domain.id, text, out)? {
            return Ok(false);
        }
    }
    Ok(true)
}

/// Returns whether `play` prints for the script the answers that the text has of each of these domains, and after them
/// only `ok` for the mappings that a domain unmaps at the end of its list.
///
/// # Errors
/// `Astray` if this is not a script for `play`, and `Memory`.
pub fn gives_answers(
    alloc: Global,
    domains: &[DomainConfig],
    script: &[u8],
    text: &[u8],
) -> Result<bool, TextsFault>
    ensures { IfOk result (λ b. IsTrue b → GivesAnswers domains.now script.now text.now) }
{
    let out = played(alloc, script)?;
    Ok(have_answers(alloc, domains, text, out.as_slice())?)
}
