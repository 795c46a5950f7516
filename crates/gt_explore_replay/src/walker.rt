//! A domain on its list.
ghost use Rattle.std.specs.Prelude.{◌≡◌, List, IfOk, OnOk};
ghost use Rattle.gt_explore_replay.specs.Orders.{given_up, held_after, handles_without};

use crate::replay::Moved;
use gt_core::{Answer, Begun, Core, Handle, Request, Ticked};
use gt_script::RunTask;
use gt_script_lines::{ScriptCall, Text};
use gt_script_runs::{
    Labels, ScriptPolicy, call_bytes, label_given, name_mapping, push_answer_line, request_of,
};
use gt_types::{DomId, Memory};
use std::alloc::{AllocError, Global};

/// The open task of a domain.
#[derive(Clone, Copy)]
pub enum OpenTask<'s, 'a> {
    Nothing,
    /// The call of a line, which drops the mapping of this handle if it is answered Ok.
    Line {
        line: usize,
        call: &'s ScriptCall<'a>,
        gone: Option<Handle>,
    },
    /// The release of a mapping at the end of its list.
    GivesBack,
}

/// A domain on its list.
#[derive(Drop)]
pub struct Walker<'s, 'a> {
    pub(crate) dom: DomId,
    pub(crate) tasks: Vec<&'s RunTask<'a>>,
    // The number of tasks begun.
    pub(crate) next: usize,
    pub(crate) doing: OpenTask<'s, 'a>,
    pub(crate) labels: Labels<'a>,
    // The handles of its mappings.
    pub(crate) held: Vec<Handle>,
    // The lines of its answers.
    pub(crate) text: Vec<u8>,
}

// Returns the handle of the mapping that a request drops, if it is answered Ok.
fn given_up(request: Request<'_>) -> Option<Handle>
    ensures { result ≡ given_up request.entry }
{
    match request {
        Request::Unmap { handle } | Request::Release { handle } => Some(handle),
        _ => None,
    }
}

// Returns all handles except the one with the serial of `handle`.
fn without(alloc: Global, held: &[Handle], handle: Handle) -> Result<Vec<Handle>, AllocError>
    ensures { IfOk result (λ left. left.items ≡ handles_without handle held.now) }
{
    let mut left = Vec::new(alloc);
    'held: for other in held {
        if other.serial != handle.serial {
            left.push(*other)?;
        }
    }
    Ok(left)
}

// Updates the handles of a domain after this answer.
fn hold(
    alloc: Global,
    held: &mut Vec<Handle>,
    gone: Option<Handle>,
    answer: &Answer,
) -> Result<(), AllocError>
    ensures { OnOk result (held.new.items ≡ held_after held.old.items gone answer.now) }
{
    match (gone, answer) {
        (Some(handle), Answer::Done) => *held = without(alloc, held.as_slice(), handle)?,
        (_, Answer::Mapped(handle)) => held.push(*handle)?,
        _ => {}
    }
    Ok(())
}

impl<'s, 'a> Walker<'s, 'a> {
    ghost use Rattle.std.specs.Prelude.{◌≡◌, ◌≢◌, ◌+◌, ◌<◌, ◌≤◌, [], false, length, slice_get, IfNone, IsSome, IsTrue};
    ghost use Rattle.std.specs.Option.{option_map};
    ghost use Rattle.gt_script_runs.specs.Naming.{AreNamed};
    ghost use Rattle.gt_explore_replay.specs.Walking.{IsAtEnd, tasks_left_of};
    ghost use Rattle.gt_explore_replay.specs.declared.walker.OpenTask.TheVariants as open_tasks;

    /// Makes the domain of this number before the first line of its list.
    pub(crate) fn new(alloc: Global, dom: DomId, tasks: Vec<&'s RunTask<'a>>) -> Walker<'s, 'a>
        ensures dom { result.dom ≡ dom }
        ensures tasks { result.tasks.items ≡ tasks.entry.items }
        ensures next { result.next ≡ 0 }
        ensures doing { result.doing ≡ open_tasks.Nothing }
        ensures labels { AreNamed result.labels [] }
        ensures held { result.held.items ≡ [] }
        ensures text { result.text.items ≡ [] }
    {
        Walker {
            dom,
            tasks,
            next: 0,
            doing: OpenTask::Nothing,
            labels: Labels::new(alloc),
            held: Vec::new(alloc),
            text: Vec::new(alloc),
        }
    }

    /// Returns the number of its domain.
    pub fn dom(&self) -> DomId {
        self.dom
    }

    /// Returns how many lines of its list it has begun.
    pub fn begun(&self) -> usize {
        self.next
    }

    /// Returns whether it has a call open.
    pub fn is_calling(&self) -> bool
        ensures open { IsTrue result → self.now.doing ≢ open_tasks.Nothing }
        ensures idle { (result ≡ false) → self.now.doing ≡ open_tasks.Nothing }
    {
        match self.doing {
            OpenTask::Nothing => false,
            OpenTask::Line { .. } | OpenTask::GivesBack => true,
        }
    }

    /// Returns whether it is at the end of its list, with no call open and no mapping.
    pub fn is_finished(&self) -> bool
        ensures finished { IsTrue result → IsAtEnd self.now }
        ensures end { IsAtEnd self.now → IsTrue result }
    {
        !self.is_calling() && self.next >= self.tasks.len() && self.held.is_empty()
    }

    /// Returns the call of a line that it has open, if it has one.
    pub fn call(&self) -> Option<&'s ScriptCall<'a>> {
        match self.doing {
            OpenTask::Line { call, .. } => Some(call),
            OpenTask::Nothing | OpenTask::GivesBack => None,
        }
    }

    /// Returns the handles of its mappings, oldest first.
    pub fn held(&self) -> &[Handle] {
        self.held.as_slice()
    }

    /// Returns the lines of its answers so far.
    pub fn text(&self) -> &[u8] {
        self.text.as_slice()
    }

    // Skips its next line, which raises or awaits a flag.
    pub(crate) fn skip(&mut self)
        requires { self.old.next < length self.old.tasks.items }
        ensures { self.new ≡ record self.old { next = self.old.next + 1 } }
    {
        self.next += 1;
    }

    /// Returns its next task, or None at the end of its list.
    pub fn task(&self) -> Option<&'s RunTask<'a>>
        ensures task { option_map (λ t. t.now) result ≡ slice_get (tasks_left_of self.now) self.now.next }
        ensures room { IsSome result → self.now.next < length self.now.tasks.items }
        ensures end { IfNone result (length self.now.tasks.items ≤ self.now.next) }
    {
        if self.next < self.tasks.len() {
            Some(self.tasks[self.next])
        } else {
            None
        }
    }
}

impl<'s, 'a> Walker<'s, 'a> {
    ghost use Rattle.std.specs.Prelude.{◌≡◌, ◌≢◌, ◌<◌, ◌≤◌, ℕ, List, length, slice_get, IsTrue, IfOk, IfSome, Some};
    ghost use Rattle.gt_core.specs.Standing.{setting_in};
    ghost use Rattle.gt_script_runs.specs.Rights.{may_by};
    ghost use Rattle.gt_script.specs.declared.tasks.RunAction.TheVariants as run_actions;
    ghost use Rattle.gt_explore_replay.specs.Making.{BeginsLine, GivesBackAt, TicksOpen};
    ghost use Rattle.gt_explore_replay.specs.Walking.{AnswersLine, ClosesCall, WalksTo, tasks_left_of};
    ghost use Rattle.gt_explore_replay.specs.declared.walker.OpenTask.TheVariants as open_tasks;

    // Applies the answer of this line's call: its label, the handles, and the text.
    fn answer(
        &mut self,
        alloc: Global,
        types: &[Text],
        line: usize,
        call: &'s ScriptCall<'a>,
        gone: Option<Handle>,
        answer: &Answer,
    ) -> Result<(), AllocError>
        ensures { OnOk result (AnswersLine types.now line call.now gone answer.now self.old self.new) }
    {
        name_mapping(&mut self.labels, self.dom, label_given(call), answer)?;
        hold(alloc, &mut self.held, gone, answer)?;
        push_answer_line(alloc, &mut self.text, types, line, self.dom, answer)?;
        self.doing = OpenTask::Nothing;
        Ok(())
    }

    // Begins the call of its next line.
    pub(crate) fn begin_call(
        &mut self,
        alloc: Global,
        core: &mut Core<ScriptPolicy>,
        types: &[Text],
        task: &'s RunTask<'a>,
        call: &'s ScriptCall<'a>,
    ) -> Result<Option<Moved>, Memory>
        requires next { slice_get (tasks_left_of self.old) self.old.next ≡ Some task.now }
        requires room { self.old.next < length self.old.tasks.items }
        requires does { task.now.run_action ≡ run_actions.Do call.now }
        requires idle { self.old.doing ≡ open_tasks.Nothing }
        ensures makes { IfOk result (λ m. IfSome m (λ moved. WalksTo (setting_in may_by core.old) types.now
            core.old.state self.old moved core.new.state self.new)) }
        ensures does { IfOk result (λ m. BeginsLine (setting_in may_by core.old) types.now core.old.state
            self.old task.now call.entry m core.new.state self.new) }
        ensures config { core.new.config ≡ core.old.config }
        ensures rights { core.new.rights ≡ core.old.rights }
    {
        let bytes = call_bytes(alloc, call)?;
        let request = request_of(&self.labels, self.dom, bytes.as_slice(), call);
        let gone = given_up(request);
        let begun = core.begin(self.dom, request)?;
        match begun {
            Begun::Open => {
                self.next += 1;
                let line = task.line;
                self.doing = OpenTask::Line { line, call, gone };
                Ok(Some(Moved::Began(None)))
            }
            Begun::Done(answer) => {
                self.next += 1;
                self.answer(alloc, types, task.line, call, gone, &answer)?;
                Ok(Some(Moved::Began(Some(answer))))
            }
            Begun::Busy | Begun::NoDomain => Ok(None),
        }
    }

    // Begins to release one of its mappings, at the end of its list.
    pub(crate) fn give_back(
        &mut self,
        core: &mut Core<ScriptPolicy>,
        choice: usize,
    ) -> Result<Option<Moved>, Memory>
        requires end { length self.old.tasks.items ≤ self.old.next }
        requires idle { self.old.doing ≡ open_tasks.Nothing }
        ensures makes { (types : List (List ℕ)) → IfOk result (λ m. IfSome m (λ moved.
            WalksTo (setting_in may_by core.old) types
            core.old.state self.old moved core.new.state self.new)) }
        ensures does { IfOk result (λ m. GivesBackAt (setting_in may_by core.old) core.old.state
            self.old choice m core.new.state self.new) }
        ensures config { core.new.config ≡ core.old.config }
        ensures rights { core.new.rights ≡ core.old.rights }
    {
        if choice >= self.held.len() {
            return Ok(None);
        }
        let handle = self.held.remove(choice);
        let begun = core.begin(self.dom, Request::Release { handle })?;
        match begun {
            Begun::Open => {
                self.doing = OpenTask::GivesBack;
                return Ok(Some(Moved::Began(None)));
            }
            Begun::Done(answer) => return Ok(Some(Moved::Began(Some(answer)))),
            Begun::Busy => return Ok(None),
            Begun::NoDomain => return Ok(None),
        }
    }

    // Applies the answer of its open task. Returns whether it had one.
    fn close(&mut self, alloc: Global, types: &[Text], answer: &Answer) -> Result<bool, AllocError>
        ensures closes { IfOk result (λ b. IsTrue b → ClosesCall types.now answer.now self.old self.new) }
        ensures open { self.old.doing ≢ open_tasks.Nothing → IfOk result IsTrue }
    {
        match self.doing {
            OpenTask::Nothing => Ok(false),
            OpenTask::Line { line, call, gone } => {
                self.answer(alloc, types, line, call, gone, answer)?;
                Ok(true)
            }
            OpenTask::GivesBack => {
                self.doing = OpenTask::Nothing;
                Ok(true)
            }
        }
    }

    // Makes the next step of its open task.
    pub(crate) fn tick(
        &mut self,
        alloc: Global,
        core: &mut Core<ScriptPolicy>,
        types: &[Text],
    ) -> Result<Option<Moved>, Memory>
        requires { self.old.doing ≢ open_tasks.Nothing }
        ensures makes { IfOk result (λ m. IfSome m (λ moved. WalksTo (setting_in may_by core.old) types.now
            core.old.state self.old moved core.new.state self.new)) }
        ensures does { IfOk result (λ m. TicksOpen (setting_in may_by core.old) types.now core.old.state
            self.old m core.new.state self.new) }
        ensures config { core.new.config ≡ core.old.config }
        ensures rights { core.new.rights ≡ core.old.rights }
    {
        let ticked = core.tick(self.dom)?;
        match ticked {
            Ticked::Step(step, seen) => Ok(Some(Moved::Stepped(step, seen, None))),
            Ticked::Done(step, seen, answer) => {
                let closed = self.close(alloc, types, &answer)?;
                if closed {
                    Ok(Some(Moved::Stepped(step, seen, Some(answer))))
                } else {
                    Ok(None)
                }
            }
            Ticked::Idle | Ticked::NoDomain => Ok(None),
        }
    }
}
