//! The execution of a command line.
ghost use Rattle.std.specs.Prelude.{◌≡◌, IfErr, IfOk, drop, map, string_bytes};
ghost use Rattle.std.specs.Io.KnownBytes.{Keeps};
ghost use Rattle.clap.specs.Words.{kind_of};
ghost use Rattle.gt_command_line.specs.Commands.{request_in_words};
ghost use Rattle.gt_command_line.specs.Claiming.{plain_words};
ghost use Rattle.gt_command_line.specs.Leading.{leading_word};
ghost use Rattle.gt_program.specs.Obeying.{failed_mode, failed_word, first_word, FitsKind};
ghost use Rattle.gt_program.specs.Obeying.{FitsUnread, IsHelped, Obeys};
ghost use Rattle.std.specs.IoError.{error_kind};

use crate::following::follow;
use clap::Error;
use clap::error::ErrorKind;
use gt_command_line::{
    Mode, command_first, leading_word, mode_of, plan, refusal_text, with_claims, with_long_flags,
};
use gt_command_reasons::Reasons;
use gt_file_commands::{Context, Failure, Outcome, TextSource, report};
use gt_text::WriteFault;
use std::alloc::{AllocError, Global};
use std::io::{self, Write};
use std::sync::Wait;
use std::thread::Threads;
use std::time::Clock;

// Returns the outcome of a failure of this command.
fn failed_mode(mode: Mode) -> Outcome
    ensures { result ≡ failed_mode mode }
{
    match mode {
        Mode::Play | Mode::Run | Mode::Policy => Outcome::No,
        Mode::Explore | Mode::Rules | Mode::Check | Mode::Why | Mode::Flow | Mode::Entries =>
            Outcome::Unknown,
    }
}

// Returns the outcome of a failure of a command line.
fn failed_line(words: &[String]) -> Outcome
    ensures { result ≡ failed_word (leading_word (map string_bytes words.now)) }
{
    match leading_word(words) {
        Some(word) => match mode_of(word) {
            Some(mode) => failed_mode(mode),
            None => Outcome::No,
        },
        None => Outcome::No,
    }
}

// Writes the help or the version that was asked for.
fn show_help<W: Write, E: Eprint>(out: &mut W, err: &E, help: &Error) -> Outcome
    ensures { IsHelped result }
{
    match write!(out, "{help}") {
        Ok(()) => match out.flush() {
            Ok(()) => Outcome::Yes,
            Err(_) => report(err, Err(Failure::Help(WriteFault)), Outcome::No),
        },
        Err(_) => report(err, Err(Failure::Help(WriteFault)), Outcome::No),
    }
}

// Prints the text of the refusal of these words. A failed write is not reported.
fn print_refusal<E: Eprint>(alloc: Global, err: &E, words: &[String], error: &Error) {
    match refusal_text(alloc, words, error) {
        Ok(text) => {
            let _ = err.eprint(text);
        }
        Err(_) => {
            let _ = err.eprint(error);
        }
    }
}

// Writes the refusal of these words, or the help or the version that they ask for. After a failed allocation the
// outcome is `failed`.
fn refuse<W: Write, E: Eprint>(
    alloc: Global,
    out: &mut W,
    err: &E,
    words: &[String],
    error: &Error,
    failed: Outcome,
) -> Outcome
    ensures { FitsKind failed (kind_of error.now) (W.contents out.old) (W.contents out.new) result }
{
    if error.kind() == ErrorKind::OutOfMemory {
        return report(err, Err(Failure::Memory), failed);
    }
    if !error.use_stderr() {
        return show_help(out, err, error);
    }
    print_refusal(alloc, err, words, error);
    Outcome::Unknown
}

// Does what words with the command before its long flags ask for. After a failed allocation the outcome is `failed`.
fn obey_long<R: Threads + Wait + Sync + Clock, T: TextSource, W: Write, E: Eprint>(
    context: &Context<R, T, E>,
    words: &[String],
    failed: Outcome,
    out: &mut W,
) -> Outcome
    requires { failed ≡ failed_word (first_word (drop 1 (map string_bytes words.now))) }
    ensures { Obeys (request_in_words (drop 1 (map string_bytes words.now))) failed context.now.style.width
        (T.file context.now.texts.now) (T.input context.now.texts.now)
        (W.contents out.old) (W.contents out.new) result }
{
    match plan(context.alloc, words) {
        Ok(invocation) => {
            let mut reasons = Reasons::of(context.alloc, &invocation);
            let outcome = follow(context, invocation, out, &mut reasons);
            reasons.print_all(context.err);
            outcome
        }
        Err(error) => refuse(context.alloc, out, context.err, words, &error, failed),
    }
}

// Puts the command before its flags, long flags in the place of letters, and one option in that of several claims.
fn plain_words(alloc: Global, words: &[String]) -> Result<Vec<String>, AllocError>
    ensures { IfOk result (λ all. map string_bytes all.items ≡ plain_words (map string_bytes words.now)) }
{
    let first = command_first(alloc, words)?;
    let long = with_long_flags(alloc, first.as_slice())?;
    let all = with_claims(alloc, long.as_slice())?;
    Ok(all)
}

/// Does what the words of a command line, the program's name first, ask for, and returns the outcome. Texts, rules,
/// help and version go to `out`, rules in lines of the width of the style, if it has one. A fault goes to the standard
/// error of the context, in one line. Of `play`, `run` and `policy` it is followed by its reasons if they are asked
/// for.
///
/// The outcome is yes for success, no for a fault of `play`, `run` and `policy`, for a policy with an error, for a
/// denied question and for a claim that does not hold, and unknown for a fault of another command and if the words ask
/// for nothing that the program does.
#[tactic(auto, using(crate::proofs::Obeyed::obeyed_plain, crate::proofs::Obeyed::without_memory))]
pub fn obey<R: Threads + Wait + Sync + Clock, T: TextSource, W: Write, E: Eprint>(
    context: &Context<R, T, E>,
    words: &[String],
    out: &mut W,
) -> Outcome
    ensures { Obeys (request_in_words (drop 1 (plain_words (map string_bytes words.now))))
        (failed_word (leading_word (map string_bytes words.now))) context.now.style.width
        (T.file context.now.texts.now) (T.input context.now.texts.now)
        (W.contents out.old) (W.contents out.new) result }
{
    let failed = failed_line(words);
    match plain_words(context.alloc, words) {
        Ok(words) => obey_long(context, words.as_slice(), failed, out),
        Err(_) => report(context.err, Err(Failure::Memory), failed),
    }
}

// Reports that the words of a command line could not be read, and returns the outcome.
fn report_unread<E: Eprint>(err: &E, error: &io::Error) -> Outcome
    ensures { FitsUnread (error_kind error.now) result }
{
    if error.kind() == io::ErrorKind::OutOfMemory {
        return report(err, Err(Failure::Memory), Outcome::No);
    }
    let _ = err.eprintln("error: a word of the command line is not UTF-8");
    Outcome::Unknown
}

/// Does what words ask for that were read from the system, as [`obey`] does. If they could not be read, nothing is
/// written. The outcome is then `No` if an allocation failed, and `Unknown` for a word that is not UTF-8.
pub fn obey_read<R: Threads + Wait + Sync + Clock, T: TextSource, W: Write, E: Eprint>(
    context: &Context<R, T, E>,
    words: io::Result<Vec<String>>,
    out: &mut W,
) -> Outcome
    ensures read { IfOk words (λ all.
        Obeys (request_in_words (drop 1 (plain_words (map string_bytes all.items))))
        (failed_word (leading_word (map string_bytes all.items))) context.now.style.width
        (T.file context.now.texts.now) (T.input context.now.texts.now) (W.contents out.old) (W.contents out.new)
        result) }
    ensures unread { IfErr words (λ error. FitsUnread (error_kind error) result
        × Keeps (W.contents out.old) (W.contents out.new)) }
{
    match words {
        Ok(words) => obey(context, words.as_slice(), out),
        Err(error) => report_unread(context.err, &error),
    }
}
