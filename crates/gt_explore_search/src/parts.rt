//! The parts of the states that a search has met, each kept once.
ghost use Rattle.std.specs.Prelude.{◌≡◌, slice_get, IfOk, IfSome, IsTrue, OnOk};
ghost use Rattle.std.specs.Option.{option_map};
ghost use Rattle.gt_explore_search.specs.Parts.{Extends, HasNumberAt, HasNumbers, RepeatsPart, Pairwise};

use crate::fault::SearchFault;
use crate::spaces::TransitionSystem;
use std::alloc::{AllocError, Global};
use std::collections::HashMap;

/// The parts that were met, each with a number. Only those that have a digest in common are compared.
#[derive(Drop)]
pub struct PartIndex<P> {
    alloc: Global,
    digests: HashMap<u64, Vec<u32>>,
    kept: Vec<P>,
}

impl<P: Drop> PartIndex<P> {
    /// Makes an empty index.
    pub fn new(alloc: Global) -> PartIndex<P> {
        PartIndex {
            alloc,
            digests: HashMap::new(alloc),
            kept: Vec::new(alloc),
        }
    }

    // Returns the part with this number.
    fn part(&self, number: u32) -> Option<&P>
        ensures { option_map (λ p. p.now) result ≡ slice_get self.now.kept.items number }
    {
        self.kept.get(number as usize)
    }

    // Returns whether the part of a state at this index is the same as the one with this number.
    fn is_part<S: TransitionSystem<Part = P>>(
        &self,
        space: &S,
        state: &S::State,
        at: usize,
        number: u32,
    ) -> bool
        ensures { IsTrue result → HasNumberAt (S.parts space.now) self.now.kept.items state.now at number }
    {
        match self.part(number) {
            Some(part) => space.has_part(state, at, part),
            None => false,
        }
    }

    // Returns the number of the part with this digest that is the same as the part of a state at this index.
    fn find<S: TransitionSystem<Part = P>>(
        &self,
        space: &S,
        state: &S::State,
        at: usize,
        digest: u64,
    ) -> Option<u32>
        ensures { IfSome result (HasNumberAt (S.parts space.now) self.now.kept.items state.now at) }
    {
        let numbers = self.digests.get(&digest)?;
        'numbers: for number in numbers.as_slice() {
            if self.is_part(space, state, at, *number) {
                return Some(*number);
            }
        }
        None
    }

    // Files the number of a new part under its digest.
    fn file(&mut self, digest: u64, number: u32) -> Result<(), AllocError>
        ensures { self.new.kept ≡ self.old.kept }
    {
        let numbers = self.digests.entry(digest)?.or_insert(Vec::new(self.alloc));
        numbers.push(number)?;
        Ok(())
    }

    // Returns the number of the part of a state at this index, which is the next one if the part is new.
    fn number<S: TransitionSystem<Part = P>>(
        &mut self,
        space: &S,
        state: &S::State,
        at: usize,
    ) -> Result<u32, SearchFault>
        ensures number { IfOk result (HasNumberAt (S.parts space.now) self.new.kept.items state.now at) }
        ensures grows { OnOk result (Extends self.old.kept.items self.new.kept.items) }
    {
        let digest = space.digest(state, at);
        if let Some(number) = self.find(space, state, at, digest) {
            return Ok(number);
        }
        let count = self.kept.len();
        if count >= 4_294_967_296 {
            return Err(SearchFault::States);
        }
        let number = count as u32;
        self.file(digest, number)?;
        self.kept.push(space.copy_part(state, at)?)?;
        Ok(number)
    }

    // Returns the number of the part of a state at this index. If it is the same as the part with the number `last`, it
    // needs no digest.
    fn number_near<S: TransitionSystem<Part = P>>(
        &mut self,
        space: &S,
        state: &S::State,
        at: usize,
        last: Option<u32>,
    ) -> Result<u32, SearchFault>
        ensures number { IfOk result (HasNumberAt (S.parts space.now) self.new.kept.items state.now at) }
        ensures grows { OnOk result (Extends self.old.kept.items self.new.kept.items) }
    {
        if let Some(number) = last {
            if self.is_part(space, state, at, number) {
                return Ok(number);
            }
        }
        self.number(space, state, at)
    }

    /// Returns the numbers of the parts of a state. Each is first compared with the part that `last` names at its
    /// index.
    ///
    /// # Errors
    /// `Memory`, `States` if there are too many parts for numbers of 32 bits, or a fault of the space.
    pub fn numbers<S: TransitionSystem<Part = P>>(
        &mut self,
        space: &S,
        state: &S::State,
        last: &[u32],
    ) -> Result<Vec<u32>, SearchFault>
        ensures numbers { IfOk result (λ numbers.
            HasNumbers (S.parts space.now) self.new.kept.items state.now numbers.items) }
        ensures grows { OnOk result (Extends self.old.kept.items self.new.kept.items) }
    {
        let mut numbers = Vec::with_capacity(self.alloc, last.len())?;
        'parts: for at in 0..usize::MAX {
            if space.is_past(state, at) {
                return Ok(numbers);
            }
            let near = last.get(at).copied();
            numbers.push(self.number_near(space, state, at, near)?)?;
        }
        Err(SearchFault::States)
    }

    /// Returns copies of the parts with these numbers.
    ///
    /// # Errors
    /// `Memory`, or `States` if a number has no part.
    pub fn copies<S: TransitionSystem<Part = P>>(
        &self,
        space: &S,
        numbers: &[u32],
    ) -> Result<Vec<P>, SearchFault>
        ensures { IfOk result (λ made.
            Pairwise (RepeatsPart (S.parts space.now) self.now.kept.items) numbers.now made.items) }
    {
        let mut made = Vec::with_capacity(self.alloc, numbers.len())?;
        'numbers: for number in numbers {
            let Some(part) = self.part(*number) else {
                return Err(SearchFault::States);
            };
            made.push(space.copy(part)?)?;
        }
        Ok(made)
    }
}
