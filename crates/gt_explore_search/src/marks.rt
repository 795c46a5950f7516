//! Marks by which the index of a number in a list is found.
ghost use Rattle.std.specs.Prelude.{◌≡◌, IsTrue, slice_get};
ghost use Rattle.gt_explore_search.specs.Exploring.{HasEnd};

use std::alloc::{AllocError, Global};

/// For each number, an index in a list at which to look for it. Only the list shows whether the number is there.
#[derive(Drop)]
pub struct Marks {
    places: Vec<u32>,
}

// Returns the number at this index.
fn number_at(list: &[u32], at: usize) -> Option<u32>
    ensures { result ≡ slice_get list.now at }
{
    list.get(at).copied()
}

impl Marks {
    /// Makes an empty set of marks.
    pub fn new(alloc: Global) -> Marks {
        Marks {
            places: Vec::new(alloc),
        }
    }

    /// Returns whether a list has this number, if each of its numbers is marked.
    pub fn has(&self, list: &[u32], number: u32) -> bool
        ensures { IsTrue result → HasEnd list.now number }
    {
        let Some(at) = self.places.get(number as usize).copied() else {
            return false;
        };
        match number_at(list, at as usize) {
            Some(found) => found == number,
            None => false,
        }
    }

    /// Marks the index of a number.
    ///
    /// # Errors
    /// An allocation failed.
    pub fn set(&mut self, number: u32, at: usize) -> Result<(), AllocError> {
        let number = number as usize;
        if self.places.len() <= number {
            self.places.resize(number + 1, 0)?;
        }
        self.places[number] = u32::try_from(at).unwrap_or(u32::MAX);
        Ok(())
    }

    /// Marks each number of a list.
    ///
    /// # Errors
    /// An allocation failed.
    pub fn set_all(&mut self, list: &[u32]) -> Result<(), AllocError> {
        for (at, number) in list.iter().enumerate() {
            self.set(*number, at)?;
        }
        Ok(())
    }
}
