//! Answers a question about a policy, and writes the lines.
ghost use Rattle.std.specs.Prelude.{◌≡◌, ◌+◌, ◌++◌, ℕ, List, IfOk, OnOk, take};
ghost use Rattle.std.specs.Option.{option_map};
ghost use Rattle.gt_types.specs.declared.limits.TheConstants.{LONGEST_TEXT};
ghost use Rattle.gt_text.specs.Streams.{OfInput};
ghost use Rattle.gt_check_command.specs.Explaining.{AskedOf, Explained, WritesAnswer, WritesLines};
ghost use Rattle.gt_check_command.specs.Explaining.{pairs_perm, share_text, share_word, why_text};

use gt_policy_list::{ListingFault, policy_text};
use gt_policy_questions::{PairsQuestion, PairsReport, pairs};
use gt_policy_reasons::WhyFault;
use gt_policy_statements::{Explanation, WhyAnswer, WhyQuestion};
use gt_text::{finish, push_number, push_text, read_text};
use gt_types::Perms;
use std::alloc::{AllocError, Global};
use std::io::{Read, Write};

/// A question, and whether it is answered for each pair of types that it asks for.
#[derive(Clone, Copy)]
pub struct WhyRequest<'q> {
    pub question: WhyQuestion<'q>,
    pub each: bool,
}

// Returns the permission that is asked for; None for any, and for a word that is no permission.
fn pairs_perm(perm: Option<&str>) -> Option<Perms>
    ensures { result ≡ pairs_perm (option_map (λ p. p.now) perm.entry) }
{
    match perm {
        Some(word) => Perms::named(word.as_bytes()),
        None => None,
    }
}

// Returns the word for how many of the pairs are allowed.
fn share_word(allowed: usize, pairs: usize) -> &'static str
    ensures { result.now ≡ share_word allowed pairs }
{
    if allowed == 0 {
        "none: "
    } else if allowed == pairs {
        "all: "
    } else {
        "some: "
    }
}

// Appends how many of the pairs are allowed, if there are several.
fn push_share(out: &mut Vec<u8>, report: &PairsReport) -> Result<(), AllocError>
    ensures { OnOk result (out.new.items ≡ out.old.items ++ share_text report.now.allowed report.now.pairs) }
{
    if report.pairs < 2 {
        return Ok(());
    }
    push_text(out, share_word(report.allowed, report.pairs))?;
    push_number(out, report.allowed)?;
    push_text(out, " of ")?;
    push_number(out, report.pairs)?;
    push_text(out, " pairs\n")
}

// Returns what is written for an answer: its lines and how many pairs are allowed, or the lines of the pairs.
fn text_of_answer(each: bool, lines: Vec<u8>, report: PairsReport) -> Result<Vec<u8>, AllocError>
    ensures { IfOk result (λ text. text.items ≡ why_text each lines.items report) }
{
    if each {
        return Ok(report.lines);
    }
    let mut text = lines;
    push_share(&mut text, &report)?;
    Ok(text)
}

// Writes the lines of an answer.
fn write_lines<W: Write>(lines: &[u8], yes: bool, writer: &mut W) -> Result<bool, WhyFault>
    ensures { WritesLines lines.now yes (W.contents writer.old) (W.contents writer.new) result }
{
    match finish(writer, lines) {
        Ok(()) => Ok(yes),
        Err(_) => Err(WhyFault::Text(ListingFault::Write)),
    }
}

// Writes an answer of a policy that knows the names of the question.
fn write_answer<W: Write>(
    alloc: Global,
    request: &WhyRequest,
    text: &str,
    explanation: Explanation,
    allowed: bool,
    writer: &mut W,
) -> Result<bool, WhyFault>
    ensures { WritesAnswer request.now text.now explanation allowed
        (W.contents writer.old) (W.contents writer.new) result }
{
    let asked = PairsQuestion {
        source: request.question.source,
        target: request.question.target,
        perm: pairs_perm(request.question.perm),
    };
    let report = match pairs(alloc, text, &asked) {
        Ok(report) => report,
        Err(fault) => return Err(WhyFault::Text(ListingFault::from(fault))),
    };
    let yes = if request.each {
        report.allowed == report.pairs
    } else {
        allowed
    };
    match text_of_answer(request.each, explanation.lines, report) {
        Ok(lines) => write_lines(lines.as_slice(), yes, writer),
        Err(_) => Err(WhyFault::Text(ListingFault::Memory)),
    }
}

// Answers a question about a text.
fn explain_text<W: Write>(
    alloc: Global,
    file: &str,
    request: &WhyRequest,
    text: &str,
    writer: &mut W,
) -> Result<bool, WhyFault>
    ensures { AskedOf file.now request.now text.now (W.contents writer.old) (W.contents writer.new) result }
{
    let explanation = match gt_policy_statements::why(alloc, file, text, &request.question) {
        Ok(explanation) => explanation,
        Err(fault) => return Err(WhyFault::Text(ListingFault::from(fault))),
    };
    match explanation.answer {
        WhyAnswer::Allowed => write_answer(alloc, request, text, explanation, true, writer),
        WhyAnswer::Denied => write_answer(alloc, request, text, explanation, false, writer),
        WhyAnswer::NoSource => Err(WhyFault::NoSource),
        WhyAnswer::NoTarget => Err(WhyFault::NoTarget),
        WhyAnswer::NoPermission => Err(WhyFault::NoPermission),
    }
}

// Answers a question about the policy of the bytes that were read: all, or the first up to the read limit.
fn explain_bytes<W: Write>(
    alloc: Global,
    file: &str,
    request: &WhyRequest,
    input: &[u8],
    writer: &mut W,
) -> Result<bool, WhyFault>
    ensures { (all : List ℕ) → input.now ≡ take (LONGEST_TEXT + 1) all →
        Explained file.now request.now all (W.contents writer.old) (W.contents writer.new) result }
{
    match policy_text(input) {
        Ok(text) => explain_text(alloc, file, request, text, writer),
        Err(fault) => Err(WhyFault::Text(fault)),
    }
}

/// Answers a question about a policy. Writes a line `allowed` or `denied`, and the lines of the statements that grant
/// what is asked, or of the near misses. These begin with the name `file`. If the question asks for several pairs of
/// types, a last line has how many of them are allowed: `some: 3 of 12 pairs`. Returns whether one is allowed.
///
/// With `each` it writes a line for each pair, `SOURCE TARGET allowed` or `SOURCE TARGET denied`, and returns whether
/// all are allowed. At most 1,048,577 bytes are read.
///
/// # Errors
/// The text is not a policy, a name of the question is unknown, or a read or an allocation failed: then nothing was
/// written. After a failed write, a prefix of the lines of the answer was written.
pub fn why<R: Read, W: Write>(
    alloc: Global,
    file: &str,
    request: &WhyRequest,
    reader: &mut R,
    writer: &mut W,
) -> Result<bool, WhyFault>
    ensures { OfInput (R.remaining reader.old) (λ input.
        Explained file.now request.now input (W.contents writer.old) (W.contents writer.new) result) }
{
    match read_text(alloc, reader) {
        Ok(input) => explain_bytes(alloc, file, request, input.as_slice(), writer),
        Err(fault) => Err(WhyFault::Text(ListingFault::from(fault))),
    }
}
