//! Precedence of calls: the call of one line is answered before that of another one begins.
ghost use Rattle.std.specs.Prelude.{◌≡◌, ◌++◌, IfOk, OnOk};
ghost use Rattle.gt_script.specs.Preceding.{around, with_precedence};

use crate::tasks::{RunAction, RunTask};
use std::alloc::{AllocError, Global};

/// Two lines of a script: the call of `first` is answered before that of `second` begins.
#[derive(Clone, Copy)]
pub struct Precedence {
    pub first: usize,
    pub second: usize,
}

impl Precedence {
    // Pushes a task. This flag is raised behind the call of the first line, and awaited before that of the second.
    fn push_around<'a>(
        self,
        flag: usize,
        tasks: &mut Vec<RunTask<'a>>,
        task: RunTask<'a>,
    ) -> Result<(), AllocError>
        ensures { OnOk result (tasks.new.items ≡ tasks.old.items ++ around flag self task.entry) }
    {
        let line = task.line;
        let dom = task.dom;
        let is_call = matches!(&task.run_action, RunAction::Do(_));
        if is_call && line == self.second {
            tasks.push(RunTask {
                line,
                dom,
                run_action: RunAction::Await(flag),
            })?;
        }
        tasks.push(task)?;
        if is_call && line == self.first {
            tasks.push(RunTask {
                line,
                dom,
                run_action: RunAction::Tell(flag),
            })?;
        }
        Ok(())
    }

    /// Returns the tasks with a flag of this number, which is raised behind the call of the first line, and awaited
    /// before that of the second.
    pub(crate) fn tasks_with<'a>(
        self,
        alloc: Global,
        flag: usize,
        tasks: Vec<RunTask<'a>>,
    ) -> Result<Vec<RunTask<'a>>, AllocError>
        ensures { IfOk result (λ made. made.items ≡ with_precedence flag self tasks.entry.items) }
    {
        let mut made = Vec::new(alloc);
        'tasks: for task in tasks {
            self.push_around(flag, &mut made, task)?;
        }
        Ok(made)
    }
}
