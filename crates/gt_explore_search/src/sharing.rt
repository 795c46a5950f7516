//! The turns that were tried.
use crate::fault::SearchFault;
use crate::spaces::Turn;
use crate::suffixes::AnswerLine;

// The number in a turn that printed no line.
const NO_LINE: u32 = u32::MAX;

/// A turn that was tried. It led to the node with this number, and printed the line with this number, if it printed
/// one.
#[derive(Clone, Copy)]
pub struct TriedTurn {
    place: u16,
    choice: u16,
    pub node: u32,
    line: u32,
}

impl TriedTurn {
    /// Returns the turn.
    pub fn turn(&self) -> Turn {
        let place = usize::from(self.place);
        let choice = usize::from(self.choice);
        Turn { place, choice }
    }

    /// Returns the line that it printed, if it printed one.
    pub fn line(&self) -> Option<AnswerLine> {
        if self.line == NO_LINE {
            return None;
        }
        Some(AnswerLine {
            place: u32::from(self.place),
            number: self.line,
        })
    }
}

// Returns the number, if it has 16 bits.
fn in_16_bits(number: usize) -> Result<u16, SearchFault> {
    u16::try_from(number).map_err(|_| SearchFault::States)
}

// Returns the number, if it has 32 bits.
fn in_32_bits(number: usize) -> Result<u32, SearchFault> {
    u32::try_from(number).map_err(|_| SearchFault::States)
}

/// Returns a turn that was tried, and led to this node and printed this line.
///
/// # Errors
/// `States` if the numbers of the turn do not fit in 16 bits, or that of the node in 32 bits.
pub fn tried_turn(
    turn: Turn,
    node: usize,
    line: Option<AnswerLine>,
) -> Result<TriedTurn, SearchFault> {
    Ok(TriedTurn {
        place: in_16_bits(turn.place)?,
        choice: in_16_bits(turn.choice)?,
        node: in_32_bits(node)?,
        line: match line {
            Some(line) => line.number,
            None => NO_LINE,
        },
    })
}
