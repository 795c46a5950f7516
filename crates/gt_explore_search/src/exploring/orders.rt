//! The turns of the orders that a search found.
use crate::exploring::Explorer;
use crate::sharing::TriedTurn;
use crate::spaces::Turn;
use std::alloc::AllocError;

// A turn towards a list of answers: the list that is left after it, and its index among those of the next node.
#[derive(Clone, Copy)]
struct Onward {
    turn: TriedTurn,
    list: u32,
    at: usize,
}

impl<P: Drop> Explorer<P> {
    // Returns the turns from a node that were tried.
    fn tried_at(&self, node: usize) -> &[TriedTurn] {
        let Some(done) = self.nodes.get(node) else {
            return &[];
        };
        let end = match self.nodes.get(node.saturating_add(1)) {
            Some(next) => next.tried as usize,
            None => self.tried.len(),
        };
        self.tried
            .as_slice()
            .get(done.tried as usize..end)
            .unwrap_or(&[])
    }

    // Returns the index of this list among those of a node. The index `likely` is tried first.
    fn list_place(&self, node: usize, list: u32, likely: usize) -> Option<usize> {
        let lists = self.sets.get(self.nodes.get(node)?.set as usize)?;
        if lists.get(likely) == Some(&list) {
            return Some(likely);
        }
        for (at, one) in lists.iter().enumerate() {
            if *one == list {
                return Some(at);
            }
        }
        None
    }

    // Returns the first turn from a node to this list of answers, and the list that is left after that turn, with its
    // index. `at` is the likely index of the list among those of the node. It overwrites `scratch`.
    fn onward(
        &self,
        node: usize,
        list: u32,
        at: usize,
        scratch: &mut Vec<u32>,
    ) -> Result<Option<Onward>, AllocError> {
        for turn in self.tried_at(node) {
            if let Some(list) = self.suffixes.shorter(list, turn.line(), scratch)? {
                if let Some(at) = self.list_place(turn.node as usize, list, at) {
                    let turn = *turn;
                    return Ok(Some(Onward { turn, list, at }));
                }
            }
        }
        Ok(None)
    }

    // Returns the turns that lead from a node to this list of answers, whose likely index is `at`. It overwrites
    // `scratch`.
    pub(super) fn turns(
        &self,
        node: usize,
        list: u32,
        at: usize,
        scratch: &mut Vec<u32>,
    ) -> Result<Vec<Turn>, AllocError> {
        let mut turns = Vec::new(self.alloc);
        let mut next = self.onward(node, list, at, scratch)?;
        for _ in 0..self.nodes.len() {
            let Some(onward) = next else {
                turns.shrink_to_fit();
                return Ok(turns);
            };
            turns.push(onward.turn.turn())?;
            next = self.onward(onward.turn.node as usize, onward.list, onward.at, scratch)?;
        }
        Ok(turns)
    }
}
