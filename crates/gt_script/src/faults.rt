//! The faults of a script.
use gt_policy::PolicyFault;
use std::alloc::{AllocError, AllocFailed};
use std::error::Error;
use std::fmt;

/// The kind of a fault, in the order in which the faults of a script are found.
#[derive(Clone, Copy, Debug, PartialEq, Eq)]
pub enum ScriptFaultKind {
    /// The script is longer than 1,048,576 bytes.
    Limit,
    /// A byte is not UTF-8.
    Utf8,
    /// An unknown word, a wrong number of words, a bad number, name, label or hexadecimal text, a line out of its
    /// place, no rights before the domains, or a policy block without `end`.
    Syntax,
    /// A limit of the domains or types, a type that the policy does not declare, a domain that is repeated or not
    /// configured, or no domain at all.
    Config,
    /// A line that is for the other one of the commands `play` and `run`.
    Mode,
    /// A domain that waits for a flag that is never raised.
    Stuck,
}

/// The first fault of a script.
#[derive(Clone, Copy, Debug, PartialEq, Eq)]
pub struct ScriptFault {
    /// The number of its line, counted from 1; for a fault at the end, one more than the number of lines.
    pub line: usize,
    pub kind: ScriptFaultKind,
}

/// The first fault of the policy block of a script.
#[derive(Debug, Drop)]
pub struct BlockFault {
    /// The number of its line in the script, counted from 1; for a fault at the end of the block, the line of `end`.
    pub line: usize,
    /// The kind of the fault; never `Memory`.
    pub kind: gt_policy::PolicyFaultKind,
}

/// The error of a parse: a failed allocation, or the first fault of the script.
#[derive(Debug, Drop)]
pub enum ScriptError {
    Memory,
    Fault(ScriptFault),
    Policy(BlockFault),
}

impl ScriptError {
    ghost use Rattle.std.specs.Prelude.{◌≡◌, ◌+◌, ◌<◌, ◌^◌};
    ghost use Rattle.gt_script.specs.Faults.{error_in_block};

    // Makes the error for a fault of a policy block that follows this number of lines.
    pub(crate) fn in_block(before: usize, fault: PolicyFault) -> ScriptError
        requires { before < 2 ^ 63 }
        ensures { result ≡ error_in_block (before + fault.line) fault.kind }
    {
        let PolicyFault { line, kind } = fault;
        let line = before + line as usize;
        match kind {
            gt_policy::PolicyFaultKind::Memory => ScriptError::Memory,
            kind => ScriptError::Policy(BlockFault { line, kind }),
        }
    }
}

/// Why a line was not added.
#[derive(Clone, Copy)]
pub enum AddError {
    Memory,
    Fault(ScriptFaultKind),
}

impl From<AllocError> for AddError {
    ghost use Rattle.std.specs.Prelude.{◌≡◌};
    ghost use Rattle.gt_script.specs.declared.faults.AddError.TheVariants.{Memory};

    ghost from_gives = { λ _ e. e ≡ Memory };

    fn from(_e: AllocError) -> AddError {
        AddError::Memory
    }
}

impl<T: Drop> From<AllocFailed<T>> for AddError {
    ghost use Rattle.std.specs.Prelude.{◌≡◌};
    ghost use Rattle.gt_script.specs.declared.faults.AddError.TheVariants.{Memory};

    ghost from_gives = { λ _ e. e ≡ Memory };

    fn from(_e: AllocFailed<T>) -> AddError {
        AddError::Memory
    }
}

impl AddError {
    ghost use Rattle.std.specs.Prelude.{◌≡◌};
    ghost use Rattle.gt_script.specs.Outcomes.{on_line};

    /// Returns the error of a parse: the fault with its line.
    pub fn on_line(self, line: usize) -> ScriptError
        ensures { result ≡ on_line line self }
    {
        match self {
            AddError::Memory => ScriptError::Memory,
            AddError::Fault(kind) => ScriptError::Fault(ScriptFault { line, kind }),
        }
    }
}

impl Error for ScriptFault {}

impl fmt::Display for BlockFault {
    ghost use Rattle.std.specs.Prelude.{Some};
    ghost use Rattle.gt_policy.specs.Texts.{fault_text};

    ghost output = { λ fault. Some (fault_text fault.line fault.kind) };

    fn fmt<W: fmt::Write>(&self, f: &mut fmt::Formatter<W>) -> fmt::Result {
        write!(f, "line {}: policy {}", self.line, self.kind)
    }
}

impl Error for BlockFault {}

impl fmt::Display for ScriptError {
    ghost use Rattle.std.specs.Prelude.{Some};
    ghost use Rattle.gt_script.specs.Faults.{error_text};

    ghost output = { λ error. Some (error_text error) };

    fn fmt<W: fmt::Write>(&self, f: &mut fmt::Formatter<W>) -> fmt::Result {
        match self {
            ScriptError::Memory => f.write_str("memory"),
            ScriptError::Fault(fault) => write!(f, "{fault}"),
            ScriptError::Policy(fault) => write!(f, "{fault}"),
        }
    }
}

impl Error for ScriptError {}

impl From<AllocError> for ScriptError {
    ghost use Rattle.std.specs.Prelude.{◌≡◌};
    ghost use Rattle.gt_script.specs.declared.faults.ScriptError.TheVariants.{Memory};

    ghost from_gives = { λ _ e. e ≡ Memory };

    fn from(_e: AllocError) -> ScriptError {
        ScriptError::Memory
    }
}

impl fmt::Display for ScriptFaultKind {
    ghost use Rattle.std.specs.Prelude.{Some};
    ghost use Rattle.gt_script.specs.Faults.{fault_word};

    ghost output = { λ kind. Some (fault_word kind) };

    fn fmt<W: fmt::Write>(&self, f: &mut fmt::Formatter<W>) -> fmt::Result {
        f.write_str(match self {
            ScriptFaultKind::Limit => "limit",
            ScriptFaultKind::Utf8 => "utf8",
            ScriptFaultKind::Syntax => "syntax",
            ScriptFaultKind::Config => "config",
            ScriptFaultKind::Mode => "mode",
            ScriptFaultKind::Stuck => "stuck",
        })
    }
}

impl fmt::Display for ScriptFault {
    ghost use Rattle.std.specs.Prelude.{Some};
    ghost use Rattle.gt_script.specs.Faults.{script_fault_text};

    ghost output = { λ fault. Some (script_fault_text fault) };

    fn fmt<W: fmt::Write>(&self, f: &mut fmt::Formatter<W>) -> fmt::Result {
        write!(f, "line {}: {}", self.line, self.kind)
    }
}
