//! Races, and the texts of runs that end at them.
ghost use Rattle.std.specs.Prelude.{◌≡◌, ◌<◌, ◌^◌, IfOk};
ghost use Rattle.gt_explore_races.specs.Texts.{race_of, race_text};

use std::alloc::{AllocError, Global};

/// A race: the lines of two calls, the smaller one first.
#[derive(Clone, Copy, Debug, PartialEq, Eq, PartialOrd, Ord)]
pub struct Race {
    pub first: usize,
    pub second: usize,
}

/// Returns the race of the calls of these lines.
pub fn race_of(line: usize, other: usize) -> Race
    ensures { result ≡ race_of line other }
{
    if line <= other {
        Race {
            first: line,
            second: other,
        }
    } else {
        Race {
            first: other,
            second: line,
        }
    }
}

/// Returns the text of a run that ends at a race. Different races have different texts.
pub fn race_text(alloc: Global, race: Race) -> Result<Vec<u8>, AllocError>
    ensures text { IfOk result (λ text. text.items ≡ race_text race) }
    ensures first { race.first < 2 ^ 64 }
    ensures second { race.second < 2 ^ 64 }
{
    let mut text = Vec::new(alloc);
    text.extend_from_slice(&race.first.to_be_bytes())?;
    text.extend_from_slice(&race.second.to_be_bytes())?;
    Ok(text)
}
