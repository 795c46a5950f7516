//! The program over the system's files, words and streams.
use crate::obeying::obey_read;
use gt_file_commands::{Context, Outcome, Style, TextSource};
use std::fs::File;
use std::io;
use std::rt::Runtime;
use std::sync::Wait;
use std::thread::Threads;

/// The files and the standard input of the system.
#[derive(Drop)]
pub struct System<'r, R> {
    pub rt: &'r R,
}

impl<'r, R: Runtime> TextSource for System<'r, R> {
    type File = R::File;

    type Input = R::Reader;

    fn open(&self, name: &str) -> io::Result<R::File> {
        File::open(self.rt, name)
    }

    fn input(&self) -> R::Reader {
        self.rt.reader()
    }
}

// Returns the words of the command line, the program's name first.
fn words_of<R: Runtime + AllocGlobal>(rt: &R) -> io::Result<Vec<String>> {
    let words = std::env::args(rt)?.collect(rt.alloc())?;
    Ok(words)
}

// The width of a terminal whose width is not known, and the smallest width that lines are broken for.
const USUAL_WIDTH: usize = 80;

const LEAST_WIDTH: usize = 40;

// Returns the width in the environment variable `COLUMNS`, or the usual width of a terminal.
fn width_of<R: Runtime + AllocGlobal>(rt: &R) -> usize {
    match std::env::var(rt, "COLUMNS") {
        Ok(columns) => match columns.as_str().parse::<usize>() {
            Ok(width) => width.max(LEAST_WIDTH),
            Err(_) => USUAL_WIDTH,
        },
        Err(_) => USUAL_WIDTH,
    }
}

// Returns the style of the output. Carets are coloured on a terminal, unless `NO_COLOR` is set and not empty.
fn style_of<R: Runtime + AllocGlobal>(rt: &R, is_terminal: bool) -> Style {
    if !is_terminal {
        return Style::plain();
    }
    let is_colored = match std::env::var(rt, "NO_COLOR") {
        Ok(value) => value.as_str().is_empty(),
        Err(_) => true,
    };
    Style {
        width: Some(width_of(rt)),
        is_colored,
        shows_progress: false,
    }
}

// Returns the value of an environment variable. It is None if it is not set, is not UTF-8, or an allocation fails.
fn variable<R: Runtime + AllocGlobal>(rt: &R, name: &str) -> Option<String> {
    match std::env::var(rt, name) {
        Ok(value) => Some(value),
        Err(_) => None,
    }
}

/// Does what the words of the program's command line ask for, and returns the outcome. `is_terminal` is true if the
/// standard output is a terminal. `shows_progress` is true if the standard error is one: a long search then shows how
/// far it is. A search ends as at its limit of states once a file exists under the name in `GTHOST_STOP`, if that is
/// set.
pub fn run<R: Runtime + AllocGlobal + Threads + Wait + Sync>(
    rt: &R,
    is_terminal: bool,
    shows_progress: bool,
) -> Outcome {
    let texts = System { rt };
    let style = Style {
        shows_progress,
        ..style_of(rt, is_terminal)
    };
    let file = variable(rt, "GTHOST_STOP");
    let stop = file.as_ref().map(|name| name.as_str());
    let context = Context {
        rt,
        alloc: rt.alloc(),
        texts: &texts,
        err: rt,
        style,
        stop,
    };
    obey_read(&context, words_of(rt), &mut io::writer(rt))
}
