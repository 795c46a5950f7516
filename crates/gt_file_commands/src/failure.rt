//! Failures of commands.
use gt_entries::DumpFault;
use gt_explore_choices::ChoicesFault;
use gt_explore_faults::ClaimsFault;
use gt_policy_list::ListingFault;
use gt_policy_reasons::{BreachFault, FlowFault, WhyFault};
use gt_script_runs::PlayFault;
use gt_state_claims::StateClaimFault;
use gt_text::{ReadFault, WriteFault};
use std::fmt;

/// The failure that ended a command. It prints as one line, without a line end.
#[derive(Drop)]
pub enum Failure {
    /// A script was not played or run to its end.
    Play(PlayFault),
    /// A thread of a run could not be started. Nothing was written.
    Thread,
    /// The texts of a script were not found, or not all written.
    Explore(ClaimsFault),
    /// The choices of a script were not explored. Nothing was written.
    Choices(ChoicesFault),
    /// A text is not a claim about the states of a script. Nothing was written.
    State(StateClaimFault),
    /// A policy was not listed, or a policy or a script not checked, to its end; a further text is not UTF-8; or the
    /// line before an answer was not written.
    List(ListingFault),
    /// A question was not answered.
    Why(WhyFault),
    /// A question about flows was not answered.
    Flow(FlowFault),
    /// A policy was not checked against `neverallow` statements.
    Breach(BreachFault),
    /// A dump was not written to its end.
    Dump(DumpFault),
    /// A file can't be opened, a further text can't be read or is too long, or a line is not a question. Nothing was
    /// written for it.
    File(ReadFault),
    /// The help, the version or the rules were not written completely.
    Help(WriteFault),
    /// An allocation failed outside of the other failures.
    Memory,
}

impl fmt::Display for Failure {
    ghost use Rattle.std.specs.Prelude.{Some};
    ghost use Rattle.gt_file_commands.specs.Working.{failure_text};

    ghost output = { λ failure. Some (failure_text failure) };

    fn fmt<W: fmt::Write>(&self, f: &mut fmt::Formatter<W>) -> fmt::Result {
        match self {
            Failure::Play(fault) => write!(f, "gthost: {fault}"),
            Failure::Thread => f.write_str("gthost: thread"),
            Failure::Explore(fault) => write!(f, "gthost: {fault}"),
            Failure::Choices(fault) => write!(f, "gthost: {fault}"),
            Failure::State(fault) => write!(f, "gthost: {fault}"),
            Failure::List(fault) => write!(f, "gthost: {fault}"),
            Failure::Why(fault) => write!(f, "gthost: {fault}"),
            Failure::Flow(fault) => write!(f, "gthost: {fault}"),
            Failure::Breach(fault) => write!(f, "gthost: {fault}"),
            Failure::Dump(fault) => write!(f, "gthost: {fault}"),
            Failure::File(fault) => write!(f, "gthost: {fault}"),
            Failure::Help(fault) => write!(f, "gthost: {fault}"),
            Failure::Memory => f.write_str("gthost: memory"),
        }
    }
}
