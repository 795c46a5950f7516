//! The errors of commands about a policy: of `why`, `flow` and a check against `neverallow` statements.
use gt_policy::PolicyFault;
use gt_policy_list::ListingFault;
use std::error::Error;
use std::fmt;

/// The error of `why`. It prints as one line, without a line feed.
#[derive(Debug, Drop)]
pub enum WhyFault {
    /// The text is not a policy or was not read, the lines were not written, or an allocation failed.
    Text(ListingFault),
    /// The source is not a declared type, nor the attribute of one. Nothing was written.
    NoSource,
    /// The target is not a declared type, nor the attribute of one. Nothing was written.
    NoTarget,
    /// The word is not one of the seven permissions. Nothing was written.
    NoPermission,
}

impl fmt::Display for WhyFault {
    ghost use Rattle.std.specs.Prelude.{Some};
    ghost use Rattle.gt_policy_reasons.specs.Faults.{why_fault_text};

    ghost output = { λ fault. Some (why_fault_text fault) };

    fn fmt<W: fmt::Write>(&self, f: &mut fmt::Formatter<W>) -> fmt::Result {
        match self {
            WhyFault::Text(fault) => write!(f, "{fault}"),
            WhyFault::NoSource => f.write_str("the source is not a type of the policy"),
            WhyFault::NoTarget => f.write_str("the target is not a type of the policy"),
            WhyFault::NoPermission => f.write_str("the permission is not one of the seven"),
        }
    }
}

impl Error for WhyFault {}

/// The error of a check against `neverallow` statements. It prints as one line, without a line feed.
#[derive(Debug, Drop)]
pub enum BreachFault {
    /// The text is not a policy or was not read, the breaches were not written, or an allocation failed.
    Policy(ListingFault),
    /// The first fault of the `neverallow` statements, or a failed allocation. Nothing was written.
    Statements(PolicyFault),
    /// No `neverallow` statement forbids permissions of class `grant`. It has the line of the first one, or 1. The words
    /// in the statements that nothing knows were written.
    ForbidsNothing(u32),
}

impl fmt::Display for BreachFault {
    ghost use Rattle.std.specs.Prelude.{Some};
    ghost use Rattle.gt_policy_reasons.specs.Faults.{breach_fault_text};

    ghost output = { λ fault. Some (breach_fault_text fault) };

    fn fmt<W: fmt::Write>(&self, f: &mut fmt::Formatter<W>) -> fmt::Result {
        match self {
            BreachFault::Policy(fault) => write!(f, "{fault}"),
            BreachFault::Statements(fault) => write!(f, "{fault}"),
            BreachFault::ForbidsNothing(line) => { write!(f, "line {line}: neverallow nothing") }
        }
    }
}

impl Error for BreachFault {}

/// The error of a question about flows. It prints as one line, without a line feed.
#[derive(Drop)]
pub enum FlowFault {
    /// The text is not a policy or was not read, the lines were not written, or an allocation failed.
    Text(ListingFault),
    /// The source is not a declared type, nor the attribute of one. Nothing was written.
    NoSource,
    /// The target is not a declared type, nor the attribute of one. Nothing was written.
    NoTarget,
    /// A trusted type is not a declared type, nor the attribute of one: the first such name, by its place among those
    /// of the question, counted from 0. Nothing was written.
    NoTrusted(usize),
    /// The script has no policy block that ends. Nothing was written.
    NoBlock,
}

impl fmt::Display for FlowFault {
    ghost use Rattle.std.specs.Prelude.{Some};
    ghost use Rattle.gt_policy_reasons.specs.Faults.{flow_fault_text};

    ghost output = { λ fault. Some (flow_fault_text fault) };

    fn fmt<W: fmt::Write>(&self, f: &mut fmt::Formatter<W>) -> fmt::Result {
        match self {
            FlowFault::Text(fault) => fmt::Display::fmt(fault, f),
            FlowFault::NoSource => f.write_str("the source is not a type of the policy"),
            FlowFault::NoTarget => f.write_str("the target is not a type of the policy"),
            FlowFault::NoTrusted(_) => f.write_str("a trusted type is not a type of the policy"),
            FlowFault::NoBlock => f.write_str("the script has no policy block"),
        }
    }
}

/// A text of `neverallow` and `neverflow` statements, with the name with which lines about it begin.
#[derive(Clone, Copy)]
pub struct NeverText<'t> {
    pub file: &'t str,
    pub text: &'t str,
}
