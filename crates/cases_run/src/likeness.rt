//! The text of a run whose allocations failed, compared with the whole text.

use std::str::Lines;

// The answer of a call whose allocation failed.
const REFUSED: &str = "N26 -1";

/// The difference of a text from the whole one.
#[derive(Clone, Copy)]
pub struct Shortage {
    /// The line of the script whose call was answered N26, the last one if there are several.
    pub denied: Option<usize>,
    /// The number of missing lines of records.
    pub missing: u64,
    /// The number of records that it reports as lost.
    pub lost: u64,
    /// Whether it ends before the last answer.
    pub is_short: bool,
}

impl Shortage {
    /// Returns whether it is the whole text.
    pub fn is_nothing(&self) -> bool {
        self.denied.is_none() && self.missing == 0 && self.lost == 0 && !self.is_short
    }

    /// Returns whether each call has its answer, and each record is there or reported as lost.
    pub fn is_told(&self) -> bool {
        !self.is_short && self.missing == self.lost
    }
}

// Returns whether the line is the same, or that of the same call with a failed allocation.
fn is_alike(line: &str, said: &str) -> bool {
    if line == said {
        return true;
    }
    match said.strip_suffix(REFUSED) {
        Some(before) => before.ends_with(" ") && line.starts_with(before),
        None => false,
    }
}

// Skips the lines of the whole text up to this one, and returns how many these are: records. Returns None if that line
// is not there, or only after the line of an answer.
fn passed_over<'a>(rest: &mut Lines<'a>, said: &str) -> Option<u64> {
    let mut missing = 0u64;
    while let Some(line) = rest.next() {
        if is_alike(line, said) {
            return Some(missing);
        }
        if !line.starts_with("audit ") {
            return None;
        }
        missing = missing.saturating_add(1);
    }
    None
}

// Notes what a line of the text shows, and skips the lines of the whole text up to it. Returns None if the whole text
// does not have the line.
fn note_line(found: &mut Shortage, rest: &mut Lines<'_>, said: &str) -> Option<()> {
    if let Some(count) = said.strip_prefix("lost ") {
        found.lost = count.parse().ok()?;
        return Some(());
    }
    let missing = passed_over(rest, said)?;
    found.missing = found.missing.saturating_add(missing);
    if said.ends_with(REFUSED) && !said.starts_with("audit ") {
        found.denied = said.split_once(" ")?.0.parse().ok();
    }
    Some(())
}

/// Returns what a text lacks of the whole one: answers at its end, records anywhere. Returns None if it has anything
/// other than whole lines of the whole one, in their order.
pub fn lacks(whole: &str, text: &str) -> Option<Shortage> {
    let mut found = Shortage {
        denied: None,
        missing: 0,
        lost: 0,
        is_short: false,
    };
    if !text.is_empty() && !text.ends_with("\n") {
        return None;
    }
    let mut rest = whole.lines();
    for said in text.lines() {
        note_line(&mut found, &mut rest, said)?;
    }
    for line in rest {
        if line.starts_with("audit ") {
            found.missing = found.missing.saturating_add(1);
        } else {
            found.is_short = true;
        }
    }
    Some(found)
}
