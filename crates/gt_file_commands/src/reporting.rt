//! Reports of failures.
ghost use Rattle.std.specs.Prelude.{◌≡◌};
ghost use Rattle.gt_file_commands.specs.Working.{outcome_of_command};

use crate::commands::Context;
use crate::failure::Failure;
use crate::outcome::{Outcome, outcome_of};
use gt_command_reasons::Reasons;

/// Reports the failure of a command, if it failed, and returns the outcome: `failed` after a failure. A failed write of
/// the report is not reported.
pub fn report<E: Eprint>(err: &E, ending: Result<Outcome, Failure>, failed: Outcome) -> Outcome
    ensures { result ≡ outcome_of_command failed ending }
{
    let outcome = outcome_of(failed, &ending);
    if let Err(failure) = ending {
        let _ = err.eprintln(failure);
    }
    outcome
}

/// Reports the failure of a command, if it failed: by its reason, if the command has its reasons as the lines of
/// faults, and otherwise by its line. Returns the outcome: `failed` after a failure.
pub fn finish<R, T, E: Eprint>(
    context: &Context<R, T, E>,
    ending: Result<Outcome, Failure>,
    failed: Outcome,
    reasons: &mut Reasons,
) -> Outcome
    ensures { result ≡ outcome_of_command failed ending }
{
    if ending.is_err() && reasons.print_line(context.err) {
        return outcome_of(failed, &ending);
    }
    report(context.err, ending, failed)
}

/// Reports a failure that leaves a question without an answer. The outcome is unknown.
pub(crate) fn fail<R, T, E: Eprint>(
    context: &Context<R, T, E>,
    failure: Failure,
    reasons: &mut Reasons,
) -> Outcome
    ensures { result ≡ Outcome.Unknown }
{
    finish(context, Err(failure), Outcome::Unknown, reasons)
}
