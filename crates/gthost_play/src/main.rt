//! The commands `play` and `policy` of the program `gthost` in a smaller program.
//!
//! `gthost_play play [--audit] [FILE]` and `gthost_play policy [FILE]` write the same text, the same line for a fault
//! and the same exit status as `gthost`. The program needs fewer crates than the whole one, so it compiles sooner: the
//! launcher runs it, unproved, until `gthost` is built.
//!
//! The contracts of `gt_host` and `gt_policy_list` specify what the two commands write. The words, the lines of faults
//! and the exit statuses are only tested.
#![tactic(auto)]

use gt_host::play;
use gt_policy_list::{ListingFault, policy};
use gt_script_runs::PlayFault;
use std::fmt;
use std::fs::File;
use std::io::{self, ErrorKind, Read};
use std::process::ExitCode;
use std::rt::Runtime;

#[derive(Clone, Copy)]
enum Command {
    Play { audit: bool },
    Policy,
}

/// The failure that ended a command. It prints as one line, without a line end.
#[derive(Drop)]
enum Failure {
    Play(PlayFault),
    List(ListingFault),
    /// The file can't be opened.
    File,
    Memory,
    /// The words do not name a command.
    Words,
}

impl fmt::Display for Failure {
    fn fmt<W: fmt::Write>(&self, f: &mut fmt::Formatter<W>) -> fmt::Result {
        match self {
            Failure::Play(fault) => write!(f, "gthost: {fault}"),
            Failure::List(fault) => write!(f, "gthost: {fault}"),
            Failure::File => f.write_str("gthost: read"),
            Failure::Memory => f.write_str("gthost: memory"),
            Failure::Words => f.write_str(
                "usage: gthost_play play [--audit] [FILE] | policy [FILE]",
            ),
        }
    }
}

impl Failure {
    // Returns the failure for a file that was not opened.
    fn unopened(error: &io::Error) -> Failure {
        if error.kind() == ErrorKind::OutOfMemory {
            Failure::Memory
        } else {
            Failure::File
        }
    }

    fn exit_status(&self) -> u8 {
        match self {
            Failure::Words => 2,
            _ => 1,
        }
    }
}

// Returns the command in the words, and its FILE.
fn command_of(words: &[String]) -> Option<(Command, Option<&str>)> {
    match words {
        [_, name] if name.as_str() == "play" => Some((Command::Play { audit: false }, None)),
        [_, name] if name.as_str() == "policy" => Some((Command::Policy, None)),
        [_, name, word] if name.as_str() == "policy" => {
            Some((Command::Policy, Some(word.as_str())))
        }
        [_, name, word] if name.as_str() == "play" && word.as_str() == "--audit" => {
            Some((Command::Play { audit: true }, None))
        }
        [_, name, word] if name.as_str() == "play" => {
            Some((Command::Play { audit: false }, Some(word.as_str())))
        }
        [_, name, word, file] if name.as_str() == "play" && word.as_str() == "--audit" => {
            Some((Command::Play { audit: true }, Some(file.as_str())))
        }
        _ => None,
    }
}

// Executes this with the text of a reader.
fn perform<R: Runtime + AllocGlobal, I: Read>(
    rt: &R,
    command: Command,
    reader: &mut I,
) -> Result<(), Failure> {
    match command {
        Command::Play { audit } => match play(rt.alloc(), reader, &mut io::writer(rt), audit) {
            Ok(()) => Ok(()),
            Err(fault) => Err(Failure::Play(fault)),
        },
        Command::Policy => match policy(rt.alloc(), reader, &mut io::writer(rt)) {
            Ok(()) => Ok(()),
            Err(fault) => Err(Failure::List(fault)),
        },
    }
}

// The text of a command: the standard input, or a file. One type for both, so that the commands are compiled once.
#[derive(Drop)]
enum Source<I: Drop, F: Drop> {
    Input(I),
    File(F),
}

impl<I: Read + Drop, F: Read + Drop> Read for Source<I, F> {
    fn read(&mut self, buf: &mut [u8]) -> io::Result<usize> {
        match self {
            Source::Input(reader) => reader.read(buf),
            Source::File(file) => file.read(buf),
        }
    }
}

// Opens the file of this name. `None` is the standard input.
fn opened<R: Runtime>(rt: &R, name: Option<&str>) -> Result<Source<R::Reader, R::File>, Failure> {
    let Some(name) = name else {
        return Ok(Source::Input(rt.reader()));
    };
    match File::open(rt, name) {
        Ok(file) => Ok(Source::File(file)),
        Err(error) => Err(Failure::unopened(&error)),
    }
}

// Does what the words ask for.
fn obey<R: Runtime + AllocGlobal>(rt: &R, words: &[String]) -> Result<(), Failure> {
    match command_of(words) {
        Some((command, name)) => perform(rt, command, &mut opened(rt, name)?),
        None => Err(Failure::Words),
    }
}

// Returns the words of the command line, the program's name first.
fn words_of<R: Runtime + AllocGlobal>(rt: &R) -> Result<Vec<String>, Failure> {
    match std::env::args(rt) {
        Ok(words) => match words.collect(rt.alloc()) {
            Ok(words) => Ok(words),
            Err(_) => Err(Failure::Memory),
        },
        Err(error) if error.kind() == ErrorKind::OutOfMemory => Err(Failure::Memory),
        Err(_) => Err(Failure::Words),
    }
}

// Does what the words of the command line ask for.
fn run<R: Runtime + AllocGlobal>(rt: &R) -> Result<(), Failure> {
    let words = words_of(rt)?;
    obey(rt, words.as_slice())
}

fn main(rt: HostRuntime) -> ExitCode {
    match run(&rt) {
        Ok(()) => ExitCode::SUCCESS,
        Err(failure) => {
            let status = failure.exit_status();
            let _ = rt.eprintln(failure);
            ExitCode::from(status)
        }
    }
}
