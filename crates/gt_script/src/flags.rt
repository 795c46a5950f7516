//! The flags of a script for `run`, numbered as they first appear.
ghost use Rattle.std.specs.Prelude.{◌≡◌, length};

use indexmap::IndexSet;
use std::alloc::{AllocError, Global};
use std::marker::Model;

/// The names of flags, each once. The number of a flag is the index of its name.
#[derive(Drop)]
pub struct FlagNames<'a> {
    names: IndexSet<&'a [u8]>,
}

impl<'a> Model for FlagNames<'a> {
    ghost use Rattle.std.specs.Prelude.{ℕ, List};
    ghost use Rattle.gt_script.specs.Flags.{borrowed_names};

    ghost Value = { List (List ℕ) };

    ghost view = { λ flags. borrowed_names flags.names.keys };
}

impl<'a> FlagNames<'a> {
    ghost use Rattle.std.specs.Prelude.{[], OnOk, IfOk};
    ghost use Rattle.gt_script.specs.Flags.{with_flag, flag_number};

    /// Makes an empty list of names.
    pub fn new(alloc: Global) -> FlagNames<'a>
        ensures { result ≡ [] }
    {
        FlagNames {
            names: IndexSet::new(alloc),
        }
    }

    /// Returns the number of flags.
    pub fn len(&self) -> usize
        ensures { result ≡ length self.now }
    {
        self.names.len()
    }

    /// Returns the number of a flag. A flag that is new gets the next number.
    pub fn number(&mut self, name: &'a [u8]) -> Result<usize, AllocError>
        ensures names { OnOk result (self.new ≡ with_flag self.old name.entry.now) }
        ensures number { IfOk result (λ n. n ≡ flag_number self.new name.entry.now) }
    {
        let (number, _) = self.names.insert_full(name)?;
        Ok(number)
    }
}
