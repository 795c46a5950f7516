//! The questions of the standard input about a policy.
ghost use Rattle.std.specs.Prelude.{◌≡◌, map, IfOk, IfSome, OnOk, None, Some};
ghost use Rattle.std.specs.Option.{option_map};
ghost use Rattle.std.specs.Str.Lines.{lines as lines_in};
ghost use Rattle.std.specs.Io.KnownBytes.{Appends};
ghost use Rattle.gt_text.specs.Streams.{AppendsBeginning};
ghost use Rattle.gt_command_line.specs.Commands.{type_of};
ghost use Rattle.gt_file_commands.specs.Working.{AnswersAbout, AnswersAboutFile, AnswersInputLine, AnswersLines};
ghost use Rattle.gt_file_commands.specs.Working.{AnswersQuestion, AnswersWords, AnswersUnderHeading, IsPolicyText};
ghost use Rattle.gt_file_commands.specs.Working.{OrNothing, WithFile};
ghost use Rattle.gt_file_commands.specs.Working.{Works, question_heading};
ghost use Rattle.gt_file_commands.specs.declared.outcome.Outcome.TheVariants.{Unknown};

use crate::commands::{Context, Work, perform};
use crate::failure::Failure;
use crate::given::read_given;
use crate::outcome::{Outcome, worse};
use crate::reading::read_whole;
use crate::reporting::{fail, finish};
use crate::texts::TextSource;
use gt_check_command::WhyRequest;
use gt_command_reasons::Reasons;
use gt_policy::Policy;
use gt_policy_list::{ListingFault, policy_text};
use gt_policy_statements::WhyQuestion;
use gt_script_lines::{line_words, text_lines};
use gt_text::{ReadFault, push_text, text_of, write_text};
use std::alloc::{AllocError, Global};
use std::io::Write;

// The policy that is asked about: the name of its file, and its bytes. And whether each pair of types is answered for.
#[derive(Clone, Copy)]
struct NamedPolicy<'a, 'p> {
    file: &'a str,
    bytes: &'p [u8],
    each: bool,
}

// The three words of a question, as they were read.
#[derive(Clone, Copy)]
struct ReadWords<'t> {
    source: &'t [u8],
    target: &'t [u8],
    perm: &'t [u8],
}

// The three words of a question, as text.
#[derive(Clone, Copy)]
struct AskedWords<'t> {
    source: &'t str,
    target: &'t str,
    perm: &'t str,
}

// Returns the words as text, if they are UTF-8.
fn asked_words<'t>(words: ReadWords<'t>) -> Option<AskedWords<'t>>
    ensures source { IfSome result (λ w. w.source.now ≡ words.entry.source.now) }
    ensures target { IfSome result (λ w. w.target.now ≡ words.entry.target.now) }
    ensures perm { IfSome result (λ w. w.perm.now ≡ words.entry.perm.now) }
{
    match (
        text_of(words.source),
        text_of(words.target),
        text_of(words.perm),
    ) {
        (Ok(source), Ok(target), Ok(perm)) => Some(AskedWords {
            source,
            target,
            perm,
        }),
        _ => None,
    }
}

// Returns the type or the permission of a name; `-` is any.
fn named<'n>(name: &'n str) -> Option<&'n str>
    ensures { option_map (λ v. v.now) result ≡ type_of (Some name.entry.now) }
{
    if name == "-" { None } else { Some(name) }
}

// Makes the line that is printed before an answer.
fn heading(alloc: Global, words: &AskedWords) -> Result<Vec<u8>, AllocError>
    ensures { IfOk result (λ line. line.items
        ≡ question_heading words.now.source.now words.now.target.now words.now.perm.now) }
{
    let mut line = Vec::new(alloc);
    push_text(&mut line, "# ")?;
    push_text(&mut line, words.source)?;
    push_text(&mut line, " ")?;
    push_text(&mut line, words.target)?;
    push_text(&mut line, " ")?;
    push_text(&mut line, words.perm)?;
    push_text(&mut line, "\n")?;
    Ok(line)
}

// Writes the line before an answer.
fn write_heading<W: Write>(
    alloc: Global,
    words: &AskedWords,
    out: &mut W,
) -> Result<(), ListingFault>
    ensures whole { OnOk result (Appends (W.contents out.old) (W.contents out.new)
        (question_heading words.now.source.now words.now.target.now words.now.perm.now)) }
    ensures beginning { AppendsBeginning (W.contents out.old) (W.contents out.new)
        (question_heading words.now.source.now words.now.target.now words.now.perm.now) }
{
    let Ok(line) = heading(alloc, words) else {
        return Err(ListingFault::Memory);
    };
    match write_text(out, line.as_slice()) {
        Ok(()) => Ok(()),
        Err(_) => Err(ListingFault::Write),
    }
}

// Answers the question of these words, under the line before it.
fn answer_asked<'a, R, T, W: Write, E: Eprint>(
    context: &Context<R, T, E>,
    policy: NamedPolicy<'a, '_>,
    words: &AskedWords,
    out: &mut W,
    reasons: &mut Reasons<'a>,
) -> Outcome
    ensures { Works (AnswersQuestion policy.entry.each policy.entry.file.now (type_of (Some words.now.source.now))
        (type_of (Some words.now.target.now)) (type_of (Some words.now.perm.now))) Unknown None
        (Some policy.entry.bytes.now) (W.contents out.old) (W.contents out.new) result }
{
    let question = WhyQuestion {
        source: named(words.source),
        target: named(words.target),
        perm: named(words.perm),
    };
    let work = Work::Why {
        file: policy.file,
        request: WhyRequest {
            question,
            each: policy.each,
        },
    };
    reasons.begin_file(Some(policy.file));
    let mut reader = policy.bytes;
    let ending = perform(context.alloc, work, &mut reader, out, reasons);
    finish(context, ending, Outcome::Unknown, reasons)
}

// Prints the question of these words, and answers it.
fn ask<'a, R, T, W: Write, E: Eprint>(
    context: &Context<R, T, E>,
    policy: NamedPolicy<'a, '_>,
    words: &AskedWords,
    out: &mut W,
    reasons: &mut Reasons<'a>,
) -> Outcome
    ensures { AnswersUnderHeading policy.entry.each policy.entry.file.now (Some policy.entry.bytes.now) words.now.source.now
        words.now.target.now words.now.perm.now (W.contents out.old) (W.contents out.new) result }
{
    match write_heading(context.alloc, words, out) {
        Ok(()) => answer_asked(context, policy, words, out, reasons),
        Err(fault) => fail(context, Failure::List(fault), reasons),
    }
}

// Asks the question of these words, if they are UTF-8.
fn ask_words<'a, R, T, W: Write, E: Eprint>(
    context: &Context<R, T, E>,
    policy: NamedPolicy<'a, '_>,
    words: ReadWords,
    out: &mut W,
    reasons: &mut Reasons<'a>,
) -> Outcome
    ensures { OrNothing (AnswersUnderHeading policy.entry.each policy.entry.file.now (Some policy.entry.bytes.now) words.entry.source.now
        words.entry.target.now words.entry.perm.now) (W.contents out.old) (W.contents out.new) result }
{
    match asked_words(words) {
        Some(words) => ask(context, policy, &words, out, reasons),
        None => fail(context, Failure::File(ReadFault::Read), reasons),
    }
}

// Reports a line of this number that is not a question.
fn refuse_line<R, T, E: Eprint>(
    context: &Context<R, T, E>,
    number: usize,
    reasons: &mut Reasons,
) -> Outcome
    ensures { result ≡ Outcome.Unknown }
{
    reasons.add_no_question(number);
    fail(context, Failure::File(ReadFault::Read), reasons)
}

// Answers the question of a line by its words.
fn answer_words<'a, R, T, W: Write, E: Eprint>(
    context: &Context<R, T, E>,
    policy: NamedPolicy<'a, '_>,
    number: usize,
    words: &[&[u8]],
    out: &mut W,
    reasons: &mut Reasons<'a>,
) -> Outcome
    ensures { OrNothing (AnswersWords policy.entry.each policy.entry.file.now (Some policy.entry.bytes.now)
        (map (λ w. w.now) words.now)) (W.contents out.old) (W.contents out.new) result }
{
    match words {
        [] => Outcome::Yes,
        [_] => refuse_line(context, number, reasons),
        [_, _] => refuse_line(context, number, reasons),
        [source, target, perm] => {
            let words = ReadWords {
                source: *source,
                target: *target,
                perm: *perm,
            };
            ask_words(context, policy, words, out, reasons)
        }
        [_, _, _, _, ..] => refuse_line(context, number, reasons),
    }
}

// Answers the question of a line.
fn answer_line<'a, R, T, W: Write, E: Eprint>(
    context: &Context<R, T, E>,
    policy: NamedPolicy<'a, '_>,
    number: usize,
    line: &str,
    out: &mut W,
    reasons: &mut Reasons<'a>,
) -> Outcome
    ensures { AnswersInputLine policy.entry.each policy.entry.file.now (Some policy.entry.bytes.now) line.now
        (W.contents out.old) (W.contents out.new) result }
{
    match line_words(context.alloc, line) {
        Ok(words) => answer_words(context, policy, number, words.as_slice(), out, reasons),
        Err(_) => fail(context, Failure::Memory, reasons),
    }
}

// Answers the questions of these lines, and returns the worst outcome.
fn answer_those<'a, R, T, W: Write, E: Eprint>(
    context: &Context<R, T, E>,
    policy: NamedPolicy<'a, '_>,
    lines: &[&str],
    out: &mut W,
    reasons: &mut Reasons<'a>,
) -> Outcome
    ensures { AnswersLines policy.entry.each policy.entry.file.now (Some policy.entry.bytes.now)
        (map (λ l. l.now) lines.now) (W.contents out.old) (W.contents out.new) result }
{
    let mut outcome = Outcome::Yes;
    let mut number: usize = 0;
    'lines: for line in lines {
        number = number.saturating_add(1);
        let one = answer_line(context, policy, number, line, out, reasons);
        outcome = worse(outcome, one);
    }
    outcome
}

// Answers the questions of a text.
fn answer_text<'a, R, T, W: Write, E: Eprint>(
    context: &Context<R, T, E>,
    policy: NamedPolicy<'a, '_>,
    text: &str,
    out: &mut W,
    reasons: &mut Reasons<'a>,
) -> Outcome
    ensures { OrNothing (AnswersLines policy.entry.each policy.entry.file.now (Some policy.entry.bytes.now)
        (lines_in text.now)) (W.contents out.old) (W.contents out.new) result }
{
    match text_lines(context.alloc, text) {
        Ok(lines) => answer_those(context, policy, lines.as_slice(), out, reasons),
        Err(_) => fail(context, Failure::Memory, reasons),
    }
}

// Answers the questions of these bytes.
fn answer_bytes<'a, R, T, W: Write, E: Eprint>(
    context: &Context<R, T, E>,
    policy: NamedPolicy<'a, '_>,
    bytes: &[u8],
    out: &mut W,
    reasons: &mut Reasons<'a>,
) -> Outcome
    ensures { OrNothing (AnswersLines policy.entry.each policy.entry.file.now (Some policy.entry.bytes.now)
        (lines_in bytes.now)) (W.contents out.old) (W.contents out.new) result }
{
    match text_of(bytes) {
        Ok(text) => answer_text(context, policy, text, out, reasons),
        Err(line) => {
            let fault = ListingFault::Utf8 { line };
            reasons.add_text(bytes, &fault);
            fail(context, Failure::List(fault), reasons)
        }
    }
}

// Reads bytes as a policy.
fn read_policy(alloc: Global, bytes: &[u8]) -> Result<(), ListingFault>
    ensures { OnOk result (IsPolicyText bytes.now) }
{
    let text = policy_text(bytes)?;
    match Policy::parse(alloc, text) {
        Ok(_) => Ok(()),
        Err(fault) => Err(ListingFault::from(fault)),
    }
}

// Answers each question of the standard input about a policy.
fn answer_input<'a, R, T: TextSource, W: Write, E: Eprint>(
    context: &Context<R, T, E>,
    policy: NamedPolicy<'a, '_>,
    out: &mut W,
    reasons: &mut Reasons<'a>,
) -> Outcome
    ensures { WithFile (T.input context.now.texts.now) (λ asked. AnswersLines policy.entry.each policy.entry.file.now
        (Some policy.entry.bytes.now) (lines_in asked)) (W.contents out.old) (W.contents out.new) result }
{
    reasons.begin_file(None);
    match read_whole(context.alloc, &mut context.texts.input(), reasons) {
        Ok(bytes) => answer_bytes(context, policy, bytes.as_slice(), out, reasons),
        Err(fault) => fail(context, Failure::File(fault), reasons),
    }
}

// Answers each question of the standard input about these bytes, if they are a policy.
fn answer_about<'a, R, T: TextSource, W: Write, E: Eprint>(
    context: &Context<R, T, E>,
    policy: NamedPolicy<'a, '_>,
    out: &mut W,
    reasons: &mut Reasons<'a>,
) -> Outcome
    ensures { AnswersAbout policy.entry.each policy.entry.file.now policy.entry.bytes.now (T.input context.now.texts.now)
        (W.contents out.old) (W.contents out.new) result }
{
    match read_policy(context.alloc, policy.bytes) {
        Ok(()) => answer_input(context, policy, out, reasons),
        Err(fault) => {
            reasons.add_text(policy.bytes, &fault);
            fail(context, Failure::List(fault), reasons)
        }
    }
}

/// Answers each question of the standard input about the policy of the file, and returns the worst outcome. Blank lines
/// and comments are skipped. Each answer comes after a line `# SOURCE TARGET PERMISSION`. A line that is not a question
/// is reported with its number, and its outcome is unknown. If the file has no policy, that is reported once, no
/// question is answered, and the outcome is unknown. `each`: with an answer for each pair of types.
pub fn answer_lines<'a, R, T: TextSource, W: Write, E: Eprint>(
    context: &Context<R, T, E>,
    each: bool,
    file: &'a str,
    out: &mut W,
    reasons: &mut Reasons<'a>,
) -> Outcome
    ensures { AnswersAboutFile each file.entry.now (T.file context.now.texts.now file.entry.now)
        (T.input context.now.texts.now) (W.contents out.old) (W.contents out.new) result }
{
    match read_given(context, file, reasons) {
        Some(bytes) => {
            let policy = NamedPolicy {
                file,
                bytes: bytes.as_slice(),
                each,
            };
            answer_about(context, policy, out, reasons)
        }
        None => Outcome::Unknown,
    }
}
