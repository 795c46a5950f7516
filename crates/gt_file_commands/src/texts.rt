//! The sources of the texts that commands work on.
use gt_text::ReadFault;
use std::io::{self, ErrorKind, Read};

/// A source of texts: files by their names, and the standard input. An implementation may promise the bytes of some of
/// them, and contracts then state results for those bytes.
pub trait TextSource {
    ghost use Rattle.std.specs.Prelude.{◌≡◌, ℕ, List, Option, None, Some, IfOk, IfSome};

    /// An open file.
    type File: Read + Drop;

    /// The standard input.
    type Input: Read + Drop;

    // The bytes of the file of a name, and those of the standard input, if they are known.
    ghost file: { Self → List ℕ → Option (List ℕ) } = { λ _ _. None };

    ghost input: { Self → Option (List ℕ) } = { λ _. None };

    /// Opens the file of this name, at its beginning.
    fn open(&self, name: &str) -> io::Result<Self::File>
        ensures { IfOk result (λ f. IfSome (file self.now name.now) (λ all. Self.File.remaining f ≡ Some all)) };

    /// Returns the standard input.
    fn input(&self) -> Self::Input
        ensures { IfSome (input self.now) (λ all. Self.Input.remaining result ≡ Some all) };
}

/// Returns the fault for a file that could not be opened.
pub fn read_fault(error: &io::Error) -> ReadFault {
    if error.kind() == ErrorKind::OutOfMemory {
        ReadFault::Memory
    } else {
        ReadFault::Read
    }
}
