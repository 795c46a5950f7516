//! A program that tries command lines of the program `gthost`, and prints what each writes, with its exit status.
//!
//! Each word of this program's own command line is a command line of `gthost`, whose words are separated by blanks.
//! After `full: ` comes one whose texts go to a writer that is full, after `unflushed: ` one whose texts go to a writer
//! that takes all and fails to flush, after `asked: ` one with questions as the standard input, after `terminal: ` one
//! for a terminal of 60 columns with colours, after `not UTF-8: ` and `no memory: ` one whose words can't be read, and
//! after `made: ` and `counted: ` one for the texts of [`made`], whose output is printed, or only counted.
//! What `gthost` writes to the standard error goes to the standard output here, so that `stdout` has it. `args` has the
//! command lines, `data/` their files, and `stdin` the text for those that name none. A command line is added there;
//! that costs no proof.
#![tactic(auto)]

mod made;

use crate::made::{Counted, Made};
use gt_program::{Context, Outcome, Style, System, TextSource, obey_read};
use std::alloc::{AllocError, Global};
use std::fmt::Display;
use std::fs::File;
use std::io::{self, ErrorKind, Write};
use std::rt::Runtime;
use std::sync::Wait;
use std::thread::Threads;
use std::time::Clock;

// The standard output, used as the standard error.
#[derive(Drop)]
struct Screen<'r, R> {
    rt: &'r R,
}

impl<'r, R: Print> Eprint for Screen<'r, R> {
    fn eprint<D: Display + Drop>(&self, value: D) -> io::Result<()> {
        self.rt.print(value)
    }

    fn eprintln<D: Display + Drop>(&self, value: D) -> io::Result<()> {
        self.rt.println(value)
    }
}

// A full writer: it takes nothing, or it takes all and fails to flush.
#[derive(Clone, Copy, PartialEq, Eq)]
enum Full {
    TakesNothing,
    HandsNothingOn,
}

impl Full {
    fn fails_if(self, fails: bool) -> io::Result<()> {
        if fails {
            return Err(io::Error::from(ErrorKind::StorageFull));
        }
        Ok(())
    }
}

impl Write for Full {
    fn write(&mut self, buf: &[u8]) -> io::Result<usize> {
        self.fails_if(*self == Full::TakesNothing)?;
        Ok(buf.len())
    }

    fn flush(&mut self) -> io::Result<()> {
        self.fails_if(*self == Full::HandsNothingOn)
    }
}

// The standard input of a command line that answers questions.
const QUESTIONS: &str = "# what the driver may do
driver_t - map_write
control_t - map_write # it only looks

guest driver_t -
nobody_t - copy
driver_t guest_a_t
";

// The files of the system, with the questions as the standard input.
#[derive(Drop)]
struct Asked<'r, R> {
    rt: &'r R,
}

impl<'r, R: Runtime> TextSource for Asked<'r, R> {
    type File = R::File;

    type Input = &'static [u8];

    fn open(&self, name: &str) -> io::Result<R::File> {
        File::open(self.rt, name)
    }

    fn input(&self) -> &'static [u8] {
        QUESTIONS.as_bytes()
    }
}

// A terminal of 60 columns, with colours.
const TERMINAL: Style = Style {
    width: Some(60),
    is_colored: true,
    shows_progress: false,
};

// How a command line is tried, by its prefix.
#[derive(Clone, Copy, PartialEq, Eq)]
enum Setting {
    Plain,
    Full(Full),
    Asked,
    Terminal,
    // The words can't be read.
    Unread(ErrorKind),
    // The files and the standard input are made texts.
    Made,
    // The same, and the output is counted.
    Counted,
}

const PREFIXES: [(&str, Setting); 8] = [
    ("full: ", Setting::Full(Full::TakesNothing)),
    ("unflushed: ", Setting::Full(Full::HandsNothingOn)),
    ("asked: ", Setting::Asked),
    ("terminal: ", Setting::Terminal),
    ("not UTF-8: ", Setting::Unread(ErrorKind::InvalidData)),
    ("no memory: ", Setting::Unread(ErrorKind::OutOfMemory)),
    ("made: ", Setting::Made),
    ("counted: ", Setting::Counted),
];

// Returns the setting that the prefix of a line names, and the line without it.
fn setting_of(line: &str) -> (Setting, &str) {
    for (prefix, setting) in PREFIXES {
        if let Some(rest) = line.strip_prefix(prefix) {
            return (setting, rest);
        }
    }
    (Setting::Plain, line)
}

fn words_of(alloc: Global, line: &str) -> Result<Vec<String>, AllocError> {
    let mut words = Vec::new(alloc);
    for word in line.split(' ') {
        words.push(String::from_str(alloc, word)?)?;
    }
    Ok(words)
}

// Runs a parsed command line on these files, with this standard error, style and output.
fn try_words<'c, R: Print + AllocGlobal + Threads + Wait + Sync + Clock, T: TextSource, W: Write>(
    rt: &'c R,
    texts: &'c T,
    err: &'c Screen<'c, R>,
    words: io::Result<Vec<String>>,
    style: Style,
    out: &mut W,
) -> Outcome {
    let context = Context {
        rt,
        alloc: rt.alloc(),
        texts,
        err,
        style,
        stop: None,
    };
    obey_read(&context, words, out)
}

// Executes the command line of these words with the made texts, and prints the size, the sum and the last line of its
// output.
fn try_counted<R: Runtime + AllocGlobal + Threads + Wait + Sync>(
    rt: &R,
    words: io::Result<Vec<String>>,
) -> io::Result<Outcome> {
    let mut counted = Counted::new(rt.alloc());
    let outcome = try_words(
        rt,
        &Made,
        &Screen { rt },
        words,
        Style::plain(),
        &mut counted,
    );
    counted.tell(rt.alloc(), rt)?;
    Ok(outcome)
}

// Does what a command line asks for, and returns the outcome.
fn try_line<R: Runtime + AllocGlobal + Threads + Wait + Sync>(
    rt: &R,
    line: &str,
) -> io::Result<Outcome> {
    let (setting, line) = setting_of(line);
    let words = Ok(words_of(rt.alloc(), line)?);
    let files = System { rt };
    let plain = Style::plain();
    let err = Screen { rt };
    let mut screen = io::writer(rt);
    Ok(match setting {
        Setting::Plain => try_words(rt, &files, &err, words, plain, &mut screen),
        Setting::Terminal => try_words(rt, &files, &err, words, TERMINAL, &mut screen),
        Setting::Full(mut full) => try_words(rt, &files, &err, words, plain, &mut full),
        Setting::Asked => try_words(rt, &Asked { rt }, &err, words, plain, &mut screen),
        Setting::Unread(kind) => {
            try_words(
                rt,
                &files,
                &err,
                Err(io::Error::from(kind)),
                plain,
                &mut screen,
            )
        }
        Setting::Made => try_words(rt, &Made, &err, words, plain, &mut screen),
        Setting::Counted => try_counted(rt, words)?,
    })
}

fn main(rt: HostRuntime) -> io::Result<()> {
    let lines: Vec<String> = std::env::args(&rt)?.collect(rt.alloc())?;
    for line in lines.iter().skip(1) {
        println!(rt; "$ {line}")?;
        let outcome = try_line(&rt, line.as_str())?;
        let status = outcome.exit_status();
        println!(rt; "status {status}")?;
    }
    Ok(())
}
