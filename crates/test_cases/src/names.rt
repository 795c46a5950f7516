//! The words of a command line, and the texts that they name.
ghost use Rattle.std.specs.Thread.{IsSync};

use std::alloc::Global;
use std::fs;
use std::rt::Runtime;
use std::sync::Wait;
use std::thread::Threads;

/// Returns the mode that a word selects, if it is the word of one.
pub fn mode_of<M: Copy>(modes: &[(&str, M)], word: &str) -> Option<M> {
    for (named, mode) in modes.iter() {
        if *named == word {
            return Some(*mode);
        }
    }
    None
}

/// What a program does with the words of its command line.
pub trait Cases {
    /// Takes a word that selects how the texts after it are tried. Returns whether it is such a word.
    fn takes(&mut self, word: &str) -> bool;

    /// Returns the ending of the names of files.
    fn ending(&self) -> &'static str;

    /// Returns what is printed for a text.
    fn said<R: Threads + Wait + Sync>(
        &self,
        rt: &R,
        alloc: Global,
        text: &[u8],
    ) -> anyhow::Result<Vec<u8>>
        requires { IsSync R.row };
}

// Returns the bytes of the file of this name and ending.
fn text_named<R: Runtime + AllocGlobal>(
    rt: &R,
    alloc: Global,
    name: &str,
    ending: &str,
) -> anyhow::Result<Vec<u8>> {
    let path = format!(in alloc; "{name}.{ending}")?;
    Ok(fs::read(rt, path.as_str())?)
}

// Prints a result under its name.
fn say<R: Runtime + AllocGlobal>(
    rt: &R,
    alloc: Global,
    name: &str,
    said: Vec<u8>,
) -> anyhow::Result<()> {
    let said = String::from_utf8(said)?;
    print!(rt; "== {name}\n{said}")?;
    Ok(())
}

// Tries the text of a name, and prints the result.
fn try_name<R: Runtime + AllocGlobal + Threads + Wait + Sync, C: Cases>(
    rt: &R,
    alloc: Global,
    cases: &C,
    name: &str,
) -> anyhow::Result<()> {
    let text = text_named(rt, alloc, name, cases.ending())?;
    say(rt, alloc, name, cases.said(rt, alloc, text.as_slice())?)
}

/// Tries the text of each name, and prints the result under the name.
///
/// # Errors
///
/// An allocation failed, or a text can't be read or printed. What was printed is a prefix of the output.
pub fn say_all<R: Runtime + AllocGlobal + Threads + Wait + Sync, C: Cases>(
    rt: &R,
    alloc: Global,
    cases: &mut C,
    words: &[String],
) -> anyhow::Result<()> {
    'words: for word in words.iter().skip(1) {
        let word = word.as_str();
        if !cases.takes(word) {
            try_name(rt, alloc, cases, word)?;
        }
    }
    Ok(())
}
