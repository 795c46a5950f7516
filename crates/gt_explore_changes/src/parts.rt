//! States of a script with their blocks, and their parts.
ghost use Rattle.std.specs.Prelude.{◌≡◌, IsTrue};

use gt_explore_moves::{SearchState, StatePart};
use std::alloc::{AllocError, Global};

/// A state of a script, with the position of the domain that moved last and the number of blocks so far.
#[derive(Drop)]
pub struct BlockState<'a> {
    pub scene_state: SearchState<'a>,
    pub last: Option<usize>,
    pub blocks: usize,
}

/// A part of such a state.
#[derive(Drop)]
pub enum BlockPart<'a> {
    /// The domain that moved last, and the number of blocks.
    Blocks { last: Option<usize>, blocks: usize },
    /// A part of the script's state.
    Scene(StatePart<'a>),
}

/// What was read of the parts of a state.
#[derive(Drop)]
pub struct JoinedParts<'a> {
    pub last: Option<usize>,
    pub blocks: usize,
    pub parts: Vec<StatePart<'a>>,
}

impl<'a> JoinedParts<'a> {
    ghost use Rattle.std.specs.Prelude.{◌≡◌, IfOk, OnOk};
    ghost use Rattle.gt_explore_changes.specs.Parts.{joined_in, none_joined, with_block_part, with_block_parts};

    // Makes the beginning, before any part was read.
    fn new(alloc: Global) -> JoinedParts<'a>
        ensures { joined_in result ≡ none_joined }
    {
        JoinedParts {
            last: None,
            blocks: 0,
            parts: Vec::new(alloc),
        }
    }

    // Reads a part.
    fn put(&mut self, part: BlockPart<'a>) -> Result<(), AllocError>
        ensures { OnOk result (joined_in self.new ≡ with_block_part (joined_in self.old) part.entry) }
    {
        match part {
            BlockPart::Blocks { last, blocks } => {
                self.last = last;
                self.blocks = blocks;
            }
            BlockPart::Scene(part) => self.parts.push(part)?,
        }
        Ok(())
    }

    /// Reads these parts.
    pub fn of(alloc: Global, made: Vec<BlockPart<'a>>) -> Result<JoinedParts<'a>, AllocError>
        ensures { IfOk result (λ joined. joined_in joined ≡ with_block_parts none_joined made.entry.items) }
    {
        let mut joined = JoinedParts::new(alloc);
        'parts: for part in made {
            joined.put(part)?;
        }
        Ok(joined)
    }
}

/// Returns whether both are the same position, or none.
pub fn is_same_last(one: Option<usize>, other: Option<usize>) -> bool
    ensures { IsTrue result → other ≡ one }
{
    match (one, other) {
        (Some(one), Some(other)) => one == other,
        (None, None) => true,
        _ => false,
    }
}
