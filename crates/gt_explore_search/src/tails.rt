//! Lists of lines, each kept as its first line and the number of the list behind it.
ghost use Rattle.std.specs.Prelude.{◌≡◌, ◌<◌, ◌↔◌, ◌∷◌, [], IsTrue, IfNone, IfOk, IfSome};
ghost use Rattle.std.specs.Prelude.{length, slice_get, slice_index_or};
ghost use Rattle.gt_explore_search.specs.Numbers.{IsKeptAs};
ghost use Rattle.gt_explore_search.specs.Tails.{BeginsWith};

use crate::fault::SearchFault;
use indexmap::IndexSet;
use std::alloc::Global;
use std::marker::Model;

/// The first line of a tail, and the number of the tail behind it.
#[derive(Clone, Copy, PartialEq, Eq, Hash)]
pub struct TailNode {
    pub line: u32,
    pub behind: u32,
}

/// Lists of lines, each kept once under a number: the tails of lists of answers. The empty tail has the number 0. Each
/// other one is a node, and the number of the tail behind it is smaller than its own.
#[derive(Drop)]
pub struct TailIndex {
    // The tail with the number 1 is the first one here.
    nodes: IndexSet<TailNode>,
}

impl Model for TailIndex {
    ghost use Rattle.std.specs.Prelude.{List, ℕ, [], ◌∷◌};
    ghost use Rattle.gt_explore_search.specs.Tails.{AreBehind, tails_with};

    ghost Value = { List (List ℕ) };

    ghost view = { λ a. tails_with ([] ∷ []) a.nodes.keys };

    ghost invariant = { λ a. AreBehind 1 a.nodes.keys };
}

// Returns the node at this index.
fn node_at(nodes: &[TailNode], at: usize) -> Option<TailNode>
    ensures { result ≡ slice_get nodes.now at }
{
    nodes.get(at).copied()
}

impl TailIndex {
    /// Makes an index of only the empty tail.
    pub fn new(alloc: Global) -> TailIndex
        ensures { result ≡ [] ∷ [] }
    {
        TailIndex {
            nodes: IndexSet::new(alloc),
        }
    }

    /// Returns whether a tail has this number.
    pub fn has(&self, number: u32) -> bool
        ensures { IsTrue result ↔ (number < length self.now) }
    {
        number as usize <= self.nodes.len()
    }

    /// Returns the first line of the tail with this number, and the number of the tail behind it. Returns `None` if the
    /// tail has no lines, or if no tail has the number.
    pub fn node(&self, number: u32) -> Option<TailNode>
        ensures node { IfSome result (BeginsWith self.now number) }
        ensures empty { IfNone result (slice_index_or self.now number [] ≡ []) }
    {
        let nodes = self.nodes.as_slice();
        let at = number.checked_sub(1)?;
        node_at(nodes, at as usize)
    }

    /// Returns the number of the tail with this node, which is the next one if the tail is new.
    ///
    /// # Errors
    /// `Memory`, or `States` if there are too many tails for numbers of 32 bits.
    pub fn number_of(&mut self, node: TailNode) -> Result<u32, SearchFault>
        requires behind { node.behind < length self.old }
        ensures { IfOk result (λ n. IsKeptAs self.old (node.line ∷ slice_index_or self.old node.behind []) n self.new) }
    {
        let (at, _) = self.nodes.insert_full(node)?;
        if at >= 4_294_967_295 {
            return Err(SearchFault::States);
        }
        Ok(at as u32 + 1)
    }
}
