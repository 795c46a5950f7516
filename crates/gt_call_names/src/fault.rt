//! Faults of names.
use std::alloc::AllocError;
use std::error::Error;
use std::fmt;

/// The reason that an expression could not be numbered. It prints as one line, without a line end.
#[derive(Clone, Copy, Debug, PartialEq, Eq)]
pub enum NameFault {
    /// An allocation failed.
    Memory,
    /// A name of the expression is that of the calls on both of these lines.
    Repeated { first: usize, second: usize },
}

impl fmt::Display for NameFault {
    ghost use Rattle.std.specs.Prelude.{Some};
    ghost use Rattle.gt_call_names.specs.Naming.{name_fault_text};

    ghost output = { λ fault. Some (name_fault_text fault) };

    fn fmt<W: fmt::Write>(&self, f: &mut fmt::Formatter<W>) -> fmt::Result {
        match self {
            NameFault::Memory => f.write_str("memory"),
            NameFault::Repeated { first, second } => {
                write!(f, "the same name on lines {first} and {second}")
            }
        }
    }
}

impl Error for NameFault {}

impl From<AllocError> for NameFault {
    fn from(_error: AllocError) -> NameFault {
        NameFault::Memory
    }
}
