//! The program `gthost`: a `main` over the library `gt_program`.
//!
//! `gt_program::run` takes the words of the command line, the files, and the standard streams from the system, and
//! returns the outcome, whose exit status is 0 for success and for yes, 1 for no and for a fault of `play`, `run` and
//! `policy`, 2 if there is no answer. The contracts of that library specify the output for each command line. That
//! `main` passes the system's own files and streams is only tested: the gate runs all command lines of `cases_program`
//! as processes of this program (`tools/processes.py`).
#![tactic(auto)]

use std::io::IsTerminal;
use std::process::ExitCode;

fn main(rt: HostRuntime) -> ExitCode {
    let outcome = gt_program::run(&rt, rt.stdout().is_terminal(), rt.stderr().is_terminal());
    ExitCode::from(outcome.exit_status())
}
