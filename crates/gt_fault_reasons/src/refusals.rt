//! The near misses for calls that the policy refused.
use crate::blocks::block_text;
use crate::texts::{is_listed, push_word};
use gt_policy::PolicyFaultKind;
use gt_policy_statements::{WhyQuestion, why};
use gt_script_lines::{ScriptLine, TripleLine, line_words, read_line, text_lines};
use gt_text::{push_number, push_text, text_of};
use std::alloc::{AllocError, Global};

// A refused call: the number of its line, and the facts of its refusal.
#[derive(Clone, Copy)]
struct RefusedCall<'t> {
    line: &'t str,
    facts: &'t str,
    source: &'t str,
    target: &'t str,
    perm: &'t str,
}

// Splits the facts of a refusal at these words.
fn refusal_with<'t>(
    line: &'t str,
    facts: &'t str,
    before_target: &str,
    before_perm: &str,
) -> Option<RefusedCall<'t>> {
    let (source, rest) = facts.split_once(before_target)?;
    let (target, perm) = rest.split_once(before_perm)?;
    Some(RefusedCall {
        line,
        facts,
        source,
        target,
        perm,
    })
}

// Reads the refusal in the JSON object of an answer (docs/FORMATS_SCRIPTS.md, 'JSON Lines').
fn refusal_of_object<'t>(line: &'t str) -> Option<RefusedCall<'t>> {
    let members = line.strip_prefix("{\"line\":")?.strip_suffix("\"}")?;
    let (number, rest) = members.split_once(",\"domain\":")?;
    let (_, facts) = rest.split_once(",\"rule\":\"N5\",\"status\":-8,\"source\":\"")?;
    refusal_with(number, facts, "\",\"target\":\"", "\",\"perm\":\"")
}

// Reads the refusal in an answer line. Returns None for another answer, and for an audit line.
fn refusal_of<'t>(line: &'t str) -> Option<RefusedCall<'t>> {
    let (call, facts) = line.split_once(" N5 -8 source=")?;
    let (number, domain) = call.split_once(' ')?;
    if domain.contains(' ') {
        return None;
    }
    refusal_with(number, facts, " target=", " perm=")
}

// Appends the lines of the statements that are near misses. Returns whether there is one.
fn push_statements(
    alloc: Global,
    out: &mut Vec<u8>,
    file: &str,
    block: &str,
    refusal: &RefusedCall,
) -> Result<bool, AllocError> {
    let question = WhyQuestion {
        source: Some(refusal.source),
        target: Some(refusal.target),
        perm: Some(refusal.perm),
    };
    match why(alloc, file, block, &question) {
        Ok(explanation) => push_near_lines(out, explanation.lines.as_slice()),
        Err(fault) => match fault.kind {
            PolicyFaultKind::Memory => Err(AllocError),
            _ => Ok(false),
        },
    }
}

// Appends the lines of a denied question. Returns whether there is one.
fn push_near_lines(out: &mut Vec<u8>, lines: &[u8]) -> Result<bool, AllocError> {
    let Some(near) = lines.strip_prefix(b"denied\n") else {
        return Ok(false);
    };
    out.extend_from_slice(near)?;
    Ok(!near.is_empty())
}

// Returns whether a triple is a near miss: it has the target, and the permission or the source.
fn is_near_triple(triple: &TripleLine, refusal: &RefusedCall) -> bool {
    let has_target = triple.target.as_bytes() == refusal.target.as_bytes();
    let has_source = triple.source.as_bytes() == refusal.source.as_bytes();
    has_target && (has_source || triple.perm.name() == refusal.perm)
}

// Returns whether a line is a triple that is a near miss.
fn is_near(alloc: Global, line: &str, refusal: &RefusedCall) -> Result<bool, AllocError> {
    let words = line_words(alloc, line)?;
    match read_line(words.as_slice()) {
        Some(ScriptLine::Triple(triple)) => Ok(is_near_triple(&triple, refusal)),
        _ => Ok(false),
    }
}

// Appends a line with its number.
fn push_numbered(
    out: &mut Vec<u8>,
    file: &str,
    number: usize,
    line: &str,
) -> Result<(), AllocError> {
    push_text(out, file)?;
    push_text(out, ":")?;
    push_number(out, number)?;
    push_text(out, ": ")?;
    push_text(out, line.trim())?;
    push_text(out, "\n")
}

// Appends the triples that are near misses, each with its line. Returns whether there is one.
fn push_triples(
    alloc: Global,
    out: &mut Vec<u8>,
    file: &str,
    lines: &[&str],
    refusal: &RefusedCall,
) -> Result<bool, AllocError> {
    let mut is_any = false;
    for (i, line) in lines.iter().enumerate() {
        if is_near(alloc, line, refusal)? {
            push_numbered(out, file, i.saturating_add(1), line)?;
            is_any = true;
        }
    }
    Ok(is_any)
}

// Appends who was refused what.
fn push_denied(out: &mut Vec<u8>, refusal: &RefusedCall) -> Result<(), AllocError> {
    push_text(out, refusal.perm)?;
    push_text(out, " to ")?;
    push_word(out, refusal.source.as_bytes())?;
    push_text(out, " on ")?;
    push_word(out, refusal.target.as_bytes())
}

// Appends the first line about a refusal.
fn push_refusal(out: &mut Vec<u8>, file: &str, refusal: &RefusedCall) -> Result<(), AllocError> {
    push_text(out, file)?;
    push_text(out, ":")?;
    push_text(out, refusal.line)?;
    push_text(out, ": N5: no rule gives ")?;
    push_denied(out, refusal)?;
    push_text(out, "; near:\n")
}

// Appends the statements or triples that are near misses for a refusal.
fn push_near(
    alloc: Global,
    out: &mut Vec<u8>,
    file: &str,
    lines: &[&str],
    block: Option<&str>,
    refusal: &RefusedCall,
) -> Result<(), AllocError> {
    push_refusal(out, file, refusal)?;
    let is_any = match block {
        Some(block) => push_statements(alloc, out, file, block, refusal)?,
        None => push_triples(alloc, out, file, lines, refusal)?,
    };
    if is_any {
        return Ok(());
    }
    push_text(out, "none\n")
}

// Returns the refusal in a line, if it has one.
fn refusal_in<'t>(line: &'t str) -> Option<RefusedCall<'t>> {
    match refusal_of(line) {
        Some(refusal) => Some(refusal),
        None => refusal_of_object(line),
    }
}

// Appends the near misses for the refusals in a printed text. Refusals with the same facts have them once.
fn push_all_near(
    alloc: Global,
    out: &mut Vec<u8>,
    file: &str,
    lines: &[&str],
    block: Option<&str>,
    printed: &str,
) -> Result<(), AllocError> {
    let mut told: Vec<&[u8]> = Vec::new(alloc);
    for line in text_lines(alloc, printed)?.as_slice() {
        if let Some(refusal) = refusal_in(line) {
            let facts = refusal.facts.as_bytes();
            if !is_listed(told.as_slice(), facts) {
                told.push(facts)?;
                push_near(alloc, out, file, lines, block, &refusal)?;
            }
        }
    }
    Ok(())
}

/// Appends, for each call that the policy refused, the near misses in the script: statements of its policy block, or
/// triples, each with its line. Refusals with the same types and permission are printed once. Appends nothing if the
/// script or the printed text is not UTF-8. `printed` is the text that `play` or `run` printed for the script, or its
/// JSON Lines. After an Err, part of the lines may have been appended.
pub fn push_refusals(
    alloc: Global,
    out: &mut Vec<u8>,
    file: &str,
    input: &[u8],
    printed: &[u8],
) -> Result<(), AllocError> {
    let (Ok(script), Ok(printed)) = (text_of(input), text_of(printed)) else {
        return Ok(());
    };
    let lines = text_lines(alloc, script)?;
    let block = block_text(alloc, lines.as_slice())?;
    let block = match &block {
        Some(text) => Some(text.as_str()),
        None => None,
    };
    push_all_near(alloc, out, file, lines.as_slice(), block, printed)
}
