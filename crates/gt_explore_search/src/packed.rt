//! Lists of numbers in pieces, each piece kept once.
ghost use Rattle.std.specs.Prelude.{◌≡◌, ◌++◌, [], IfOk, IsTrue, OnOk, length, slice_get, slice_index_or, Some};
ghost use Rattle.gt_explore_search.specs.Numbers.{AllBelow, IsKeptAs, list_of_pieces};
ghost use Rattle.gt_explore_search.specs.Parts.{Extends};

use crate::fault::SearchFault;
use crate::numbers::NumberLists;
use std::alloc::{AllocError, Global};
use std::marker::Model;

// The length of a piece in numbers. The last piece of a list may be shorter.
const PIECE: usize = 6;

/// Lists of numbers, each kept once under a number. A list is kept as the numbers of its pieces, since most lists share
/// their pieces with others.
#[derive(Drop)]
pub struct PackedLists {
    pieces: NumberLists,
    lists: NumberLists,
    scratch: Vec<u32>,
}

impl Model for PackedLists {
    ghost use Rattle.std.specs.Prelude.{List, ℕ, length, map};
    ghost use Rattle.gt_explore_search.specs.Numbers.{EachBelow, list_of_pieces};

    ghost Value = { List (List ℕ) };

    ghost view = { λ a. map (list_of_pieces a.pieces) a.lists };

    ghost invariant = { λ a. EachBelow (length a.pieces) a.lists };
}

// Returns the first piece of a list, and what follows it.
fn first_piece(list: &[u32]) -> (&[u32], &[u32])
    ensures { result.0.now ++ result.1.now ≡ list.now }
{
    list.split_at(list.len().min(PIECE))
}

// Makes `out` the numbers of the pieces of a list. They are likely to be those of `near`, each as the one at its index.
fn pack(
    pieces: &mut NumberLists,
    list: &[u32],
    near: &[u32],
    out: &mut Vec<u32>,
) -> Result<(), SearchFault>
    ensures grows { Extends pieces.old pieces.new }
    ensures below { OnOk result (AllBelow (length pieces.new) out.new.items) }
    ensures packs { OnOk result (list_of_pieces pieces.new out.new.items ≡ list.now) }
{
    out.clear();
    let mut rest = list;
    'pieces: for _ in 0..usize::MAX {
        if rest.is_empty() {
            return Ok(());
        }
        let (piece, later) = first_piece(rest);
        let likely = near.get(out.len()).copied().unwrap_or(0);
        out.push(pieces.number_near(piece, likely)?)?;
        rest = later;
    }
    Err(SearchFault::States)
}

// Returns the piece with this number.
fn piece_at(pieces: &NumberLists, number: u32) -> &[u32]
    ensures { result.now ≡ slice_index_or pieces.now number [] }
{
    match pieces.get(number as usize) {
        Some(piece) => piece,
        None => &[],
    }
}

// Makes `out` the list with these pieces.
fn unpack(pieces: &NumberLists, list: &[u32], out: &mut Vec<u32>) -> Result<(), AllocError>
    ensures { OnOk result (out.new.items ≡ list_of_pieces pieces.now list.now) }
{
    out.clear();
    'pieces: for piece in list {
        out.extend_from_slice(piece_at(pieces, *piece))?;
    }
    Ok(())
}

impl PackedLists {
    /// Makes an index without lists.
    pub fn new(alloc: Global) -> PackedLists
        ensures { result ≡ [] }
    {
        PackedLists {
            pieces: NumberLists::new(alloc),
            lists: NumberLists::new(alloc),
            scratch: Vec::new(alloc),
        }
    }

    /// Returns the number of lists.
    pub fn len(&self) -> usize
        ensures { result ≡ length self.now }
    {
        self.lists.len()
    }

    /// Makes `out` the list with this number, if there is one. Returns whether there is.
    ///
    /// # Errors
    /// An allocation failed.
    pub fn read(&self, number: usize, out: &mut Vec<u32>) -> Result<bool, AllocError>
        ensures { IfOk result (λ is. IsTrue is → slice_get self.now number ≡ Some out.new.items) }
    {
        let Some(list) = self.lists.get(number) else {
            return Ok(false);
        };
        unpack(&self.pieces, list, out)?;
        Ok(true)
    }

    /// Returns the number of a list, which is the next one if the list is new. It is likely to have pieces of the list
    /// with the number `like`.
    ///
    /// # Errors
    /// `Memory`, or `States` if the lists or pieces, or their items in all, are too many for numbers of 32 bits.
    pub fn number_of(&mut self, list: &[u32], like: usize) -> Result<u32, SearchFault>
        ensures { IfOk result (λ n. IsKeptAs self.old list.now n self.new) }
    {
        let near = self.lists.get(like).unwrap_or(&[]);
        pack(&mut self.pieces, list, near, &mut self.scratch)?;
        let number = self.lists.number_of(self.scratch.as_slice())?;
        Ok(number)
    }
}
