//! The lists of answers that a state can still lead to.
ghost use Rattle.std.specs.Prelude.{◌≡◌, ◌==◌, ◌-◌, ◌++◌, ℕ, OnOk, length, replicate, slice_index_or};
ghost use Rattle.std.specs.Prelude.{if◌then◌else◌};

use crate::fault::SearchFault;
use crate::numbers::NumberLists;
use crate::tails::{TailIndex, TailNode};
use indexmap::IndexSet;
use std::alloc::{AllocError, Global};

/// The line of an answer: the position of its domain, and the number of its bytes.
#[derive(Clone, Copy)]
pub struct AnswerLine {
    pub place: u32,
    pub number: u32,
}

/// The lists of answers that were met, each with a number. The empty list has the number 0. A list has the number of a
/// tail for each domain, up to the last one that still prints. A tail has the lines that one domain still prints, and
/// the tail 0 has none.
#[derive(Drop)]
pub struct AnswerLists {
    alloc: Global,
    lines: IndexSet<Vec<u8>>,
    tails: TailIndex,
    lists: NumberLists,
    scratch: Vec<u32>,
}

// Returns the tail of the domain at this position.
fn tail_at(list: &[u32], place: usize) -> u32
    ensures { result ≡ slice_index_or list.now place 0 }
{
    list.get(place).copied().unwrap_or(0)
}

// Makes a list at least this long, by tails without lines.
fn lengthen(list: &mut Vec<u32>, len: usize) -> Result<(), AllocError>
    ensures { OnOk result (list.new.items ≡ list.old.items ++ replicate (len - length list.old.items) 0) }
{
    if list.len() < len {
        list.resize(len, 0)?;
    }
    Ok(())
}

// Puts another tail of the domain at this position into a list.
fn set_tail(list: &mut Vec<u32>, place: u32, tail: u32) -> Result<(), AllocError>
    ensures { OnOk result ((at : ℕ) → slice_index_or list.new.items at 0
        ≡ (if place == at then tail else slice_index_or list.old.items at 0)) }
{
    let place = place as usize;
    lengthen(list, place + 1)?;
    list[place] = tail;
    Ok(())
}

// Makes `out` the list with another tail of the domain at this position.
fn put_tail(out: &mut Vec<u32>, list: &[u32], place: u32, tail: u32) -> Result<(), AllocError>
    ensures { OnOk result ((at : ℕ) → slice_index_or out.new.items at 0
        ≡ (if place == at then tail else slice_index_or list.now at 0)) }
{
    out.clear();
    out.extend_from_slice(list)?;
    set_tail(out, place, tail)?;
    Ok(())
}

// Removes the tails without lines at the end of a list.
fn trim(list: &mut Vec<u32>) {
    for _ in 0..list.len() {
        if list.as_slice().last() != Some(&0) {
            return;
        }
        list.pop();
    }
}

impl AnswerLists {
    ghost use Rattle.std.specs.Prelude.{◌≡◌, ◌++◌, [], ℕ, IfOk, OnOk, slice_index_or};
    ghost use Rattle.std.specs.List.{flat_map, range_with_len};
    ghost use Rattle.gt_explore_search.specs.Lists.{AreWhole, GrowsInto, HasLine, HasListAt, IsEmptyList, HasItsLine, IsLonger};
    ghost use Rattle.gt_explore_search.specs.Lists.{items_at, printed_of, rest_by};

    /// Makes an index of only the empty list.
    pub fn new(alloc: Global) -> Result<AnswerLists, SearchFault>
        ensures whole { IfOk result AreWhole }
        ensures empty { IfOk result (λ s. IsEmptyList s 0) }
    {
        let mut lists = NumberLists::new(alloc);
        lists.number_of(&[])?;
        Ok(AnswerLists {
            alloc,
            lines: IndexSet::new(alloc),
            tails: TailIndex::new(alloc),
            lists,
            scratch: Vec::new(alloc),
        })
    }

    /// Returns the number of a line's bytes, which is the next one if they are new.
    ///
    /// # Errors
    /// `Memory`, or `States` if there are too many lines for numbers of 32 bits.
    pub fn line(&mut self, line: Vec<u8>) -> Result<u32, SearchFault>
        ensures grows { OnOk result (GrowsInto self.old self.new) }
        ensures line { IfOk result (λ n. HasLine self.new n line.items) }
    {
        let (number, _) = self.lines.insert_full(line)?;
        if number >= 4_294_967_295 {
            return Err(SearchFault::States);
        }
        Ok(number as u32)
    }

    /// Returns the number of this list with the answer in front, or its own number if there is no answer.
    ///
    /// # Errors
    /// `Memory`, or `States` if there are too many lists for numbers of 32 bits.
    pub fn longer(&mut self, list: u32, line: Option<AnswerLine>) -> Result<u32, SearchFault>
        ensures grows { OnOk result (GrowsInto self.old self.new) }
        ensures there { HasListAt self.old list → IfOk result (λ n. HasListAt self.new n) }
        ensures longer { HasItsLine self.old line → AreWhole self.old → HasListAt self.old list →
            IfOk result (λ n. IsLonger self.new line list n) }
    {
        let Some(line) = line else {
            return Ok(list);
        };
        if line.number as usize >= self.lines.len() {
            return Ok(list);
        }
        let Some(old) = self.lists.get(list as usize) else {
            return Ok(list);
        };
        let behind = tail_at(old, line.place as usize);
        if !self.tails.has(behind) {
            return Ok(list);
        }
        let tail = self.tails.number_of(TailNode {
            line: line.number,
            behind,
        })?;
        put_tail(&mut self.scratch, old, line.place, tail)?;
        let number = self.lists.number_of(self.scratch.as_slice())?;
        Ok(number)
    }

    /// Returns the number of the list's tail if the list starts with this answer. It overwrites `scratch`.
    pub fn shorter(
        &self,
        list: u32,
        line: Option<AnswerLine>,
        scratch: &mut Vec<u32>,
    ) -> Result<Option<u32>, AllocError> {
        let Some(line) = line else {
            return Ok(Some(list));
        };
        let Some(old) = self.lists.get(list as usize) else {
            return Ok(None);
        };
        let Some(first) = self.tails.node(tail_at(old, line.place as usize)) else {
            return Ok(None);
        };
        if first.line != line.number {
            return Ok(None);
        }
        put_tail(scratch, old, line.place, first.behind)?;
        trim(scratch);
        Ok(self.lists.find(scratch.as_slice()))
    }

    // Returns the bytes of the line with this number.
    fn bytes(&self, line: u32) -> &[u8]
        ensures { result.now ≡ items_at self.now.lines.keys line }
    {
        match self.lines.get_index(line as usize) {
            Some(bytes) => bytes.as_slice(),
            None => &[],
        }
    }

    // Appends what is printed of the tail with this number.
    fn push_printed(&self, out: &mut Vec<u8>, tail: u32) -> Result<(), AllocError>
        ensures { OnOk result (out.new.items
            ≡ out.old.items ++ printed_of self.now.lines.keys (slice_index_or self.now.tails tail [])) }
    {
        let mut rest = tail;
        'lines: while let Some(first) = self.tails.node(rest) {
            out.extend_from_slice(self.bytes(first.line))?;
            rest = first.behind;
        }
        Ok(())
    }

    /// Returns what this number of domains print by the list of this number, the first one's lines first. It is empty
    /// if no list has the number.
    ///
    /// # Errors
    /// An allocation failed.
    pub fn text(&self, list: u32, domains: usize) -> Result<Vec<u8>, AllocError>
        ensures { HasListAt self.now list → IfOk result (λ text.
            text.items ≡ flat_map (rest_by self.now list) (range_with_len 0 domains)) }
    {
        let mut text = Vec::new(self.alloc);
        let Some(tails) = self.lists.get(list as usize) else {
            return Ok(text);
        };
        'places: for place in 0..domains {
            self.push_printed(&mut text, tail_at(tails, place))?;
        }
        text.shrink_to_fit();
        Ok(text)
    }
}
