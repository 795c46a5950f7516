//! The tasks of the domains of a script for `run`.

use gt_script_lines::ScriptCall;
use gt_types::DomId;

/// The action of a task. A flag has a number, counted from 0 in the order in which flags first appear in the script.
#[derive(Debug, Drop)]
pub enum RunAction<'a> {
    /// `do ID CALL`: makes the call from its beginning to its answer.
    Do(ScriptCall<'a>),
    /// `tell ID FLAG`: raises the flag.
    Tell(usize),
    /// `await ID FLAG`: waits until some domain has raised the flag.
    Await(usize),
}

/// A line of the body for `run`, with its number and its domain. The list of a domain is its tasks, in order.
#[derive(Drop)]
pub struct RunTask<'a> {
    pub line: usize,
    pub dom: DomId,
    pub run_action: RunAction<'a>,
}
