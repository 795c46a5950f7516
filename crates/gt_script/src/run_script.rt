//! A script for `run`: its head, and the tasks of its domains.
ghost use Rattle.std.specs.Prelude.{◌≡◌, ◌+◌, ℕ, List, All, IsTrue, take, map, filter, length, IfOk, IfErr};
ghost use Rattle.gt_types.specs.Config.{is_taken};
ghost use Rattle.gt_types.specs.declared.limits.TheConstants.{LONGEST_TEXT};
ghost use Rattle.gt_script.specs.Contents.{contents_of};
ghost use Rattle.gt_script.specs.RunScripts.{CanConfigure, ContentsReadAs, ReadsAsRun, RunAnswers, list_of as list_in};
ghost use Rattle.gt_script.specs.Preceding.{preceding};
ghost use Rattle.gt_script.specs.RunContents.{run_contents};
ghost use Rattle.gt_script.specs.Stuck.{AreNumbered};

use crate::command::ScriptCommand;
use crate::faults::{ScriptError, ScriptFault, ScriptFaultKind};
use crate::head::ScriptHead;
use crate::parsing::parse_for;
use crate::precedence::Precedence;
use crate::script::Script;
use crate::stuck::stuck_line;
use crate::tasks::RunTask;
use gt_types::DomId;
use std::alloc::{AllocError, Global};
use std::marker::Model;

/// A script for `run` without fault, in which each domain comes to the end of its list.
#[derive(Drop)]
pub struct RunScript<'a> {
    head: ScriptHead<'a>,
    tasks: Vec<RunTask<'a>>,
    flags: usize,
}

impl<'a> Model for RunScript<'a> {
    ghost use Rattle.gt_script.specs.RunContents.{RunKept};

    ghost Value = { RunKept };

    ghost view = { λ s. record { head = s.head; tasks = s.tasks.items; flags = s.flags } };
}

impl<'a> RunScript<'a> {
    /// Returns what precedes the body.
    pub fn head(&self) -> &ScriptHead<'a>
        ensures { result.now ≡ self.now.head }
    {
        &self.head
    }

    /// Returns the tasks of the body, in the order of their lines.
    pub fn tasks(&self) -> &[RunTask<'a>]
        ensures { result.now ≡ self.now.tasks }
    {
        self.tasks.as_slice()
    }

    /// Returns the number of flags. The flags of the tasks are numbered from 0.
    pub fn flags(&self) -> usize
        ensures { result ≡ self.now.flags }
    {
        self.flags
    }

    /// Returns the list of a domain: its tasks, in the order of their lines.
    pub fn list_of<'s>(
        &'s self,
        alloc: Global,
        dom: DomId,
    ) -> Result<Vec<&'s RunTask<'a>>, AllocError>
        ensures { IfOk result (λ list. map (λ t. t.now) list.items ≡ list_in self.entry.now.tasks dom) }
    {
        let mut list = Vec::new(alloc);
        'tasks: for task in self.tasks.as_slice() {
            if task.dom == dom {
                list.push(task)?;
            }
        }
        Ok(list)
    }

    /// Returns the script whose runs are those of this one in which the call of one line precedes that of another: with
    /// one more flag, which is raised behind the call of the first line, and awaited before that of the second. A line
    /// without a call precedes nothing, and nothing precedes it.
    ///
    /// # Errors
    /// An allocation failed, or there are 2^64 - 1 flags.
    pub fn preceding(self, alloc: Global, lines: Precedence) -> Result<RunScript<'a>, AllocError>
        ensures contents { IfOk result (λ s. run_contents s ≡ preceding lines (run_contents self.entry)) }
        ensures head { IfOk result (λ s. s.head ≡ self.entry.head) }
        ensures numbered { AreNumbered self.entry.flags self.entry.tasks →
            IfOk result (λ s. AreNumbered s.flags s.tasks) }
    {
        let RunScript { head, tasks, flags } = self;
        let Some(count) = flags.checked_add(1) else {
            return Err(AllocError);
        };
        let tasks = lines.tasks_with(alloc, flags, tasks)?;
        Ok(RunScript {
            head,
            tasks,
            flags: count,
        })
    }
}

// Makes the script for `run` of a script that was parsed for `run`, if each domain reaches the end of its list.
fn of_script<'a>(alloc: Global, script: Script<'a>) -> Result<RunScript<'a>, ScriptError>
    requires numbered { AreNumbered (length (contents_of script).flags) (contents_of script).tasks }
    requires known { All (λ t. IsTrue (is_taken (contents_of script).domains t.dom)) (contents_of script).tasks }
    ensures { RunAnswers result (ContentsReadAs (contents_of script.entry)) }
{
    let Script {
        head,
        tasks,
        flags,
        ..
    } = script;
    let flags = flags.len();
    match stuck_line(alloc, tasks.as_slice(), head.domains.as_slice(), flags)? {
        None => Ok(RunScript { head, tasks, flags }),
        Some(line) => Err(ScriptError::Fault(ScriptFault {
            line,
            kind: ScriptFaultKind::Stuck,
        })),
    }
}

/// Parses a script for `run`, or returns the first fault. The faults are those of `parse`, but here a line that is only
/// for `play` is a fault. The last one is a domain that waits for a flag that is never raised.
pub fn parse_run<'a>(alloc: Global, bytes: &'a [u8]) -> Result<RunScript<'a>, ScriptError>
    ensures script { RunAnswers result (ReadsAsRun bytes.entry.now) }
    ensures holds { IfOk result (λ s. CanConfigure (contents_of s.head)) }
    ensures numbered { IfOk result (λ s. AreNumbered s.flags s.tasks) }

    // The first LONGEST_TEXT + 1 bytes decide what all of them mean.
    ensures beginning { (all : List ℕ) → bytes.entry.now ≡ take (LONGEST_TEXT + 1) all →
        RunAnswers result (ReadsAsRun all) }
{
    match parse_for(alloc, ScriptCommand::Run, bytes) {
        Ok(script) => of_script(alloc, script),
        Err(error) => Err(error),
    }
}
