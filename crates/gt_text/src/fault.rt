//! The errors of reads and writes.
use std::error::Error;
use std::fmt;

/// The error of a read of a text.
#[derive(Clone, Copy, Debug, PartialEq, Eq)]
pub enum ReadFault {
    /// An allocation failed.
    Memory,
    /// A read failed.
    Read,
}

/// The error of a write: it failed, or it took no byte.
#[derive(Clone, Copy, Debug, PartialEq, Eq)]
pub struct WriteFault;

impl fmt::Display for ReadFault {
    ghost use Rattle.std.specs.Prelude.{Some};
    ghost use Rattle.gt_text.specs.Texts.{read_word};

    ghost output = { λ fault. Some (read_word fault) };

    fn fmt<W: fmt::Write>(&self, f: &mut fmt::Formatter<W>) -> fmt::Result {
        f.write_str(match self {
            ReadFault::Memory => "memory",
            ReadFault::Read => "read",
        })
    }
}

impl Error for ReadFault {}

impl fmt::Display for WriteFault {
    ghost use Rattle.std.specs.Prelude.{Some, codes};

    ghost output = { λ _. Some (codes "write") };

    fn fmt<W: fmt::Write>(&self, f: &mut fmt::Formatter<W>) -> fmt::Result {
        f.write_str("write")
    }
}

impl Error for WriteFault {}
