//! The moves of the domains.
ghost use Rattle.std.specs.Prelude.{◌≡◌, IfOk, List};
ghost use Rattle.std.specs.Option.{option_map};
ghost use Rattle.gt_model.specs.Asking.{FitsAsked, asked};
ghost use Rattle.gt_model.specs.declared.request.Request.{Request};
ghost use Rattle.gt_core.specs.Acting.{answer_of};
ghost use Rattle.gt_model.specs.Entries.{IsEntry};
ghost use Rattle.gt_script_runs.specs.Runs.{Named, MakesRequest};
ghost use Rattle.gt_explore_moves.specs.Mappings.{label_bytes};
ghost use Rattle.gt_explore_moves.specs.Ticking.{bytes_by, label_given_by};
ghost use Rattle.gt_types.specs.declared.DomId.{DomId};

mod flags;
mod sets;
mod turns;

use crate::actor::{Actor, ActorCall};
use crate::calls::{CallOpening, go_on, open_call};
use crate::names::names_of;
use crate::scene::{SearchContext, SearchState};
use gt_calls::{
    Action, Call, CallResult, CallerState, Handles, HeldPin, Observation, OwnerEntry, Request, Step,
};
use gt_core::{Answer, Bytes, answer_of};
use gt_entry::{Entry, Header};
use gt_explore_search::{SearchFault, Turn, TurnResult};
use gt_explore_state::{SparseState, SparseTable};
use gt_script::{RunAction, RunTask};
use gt_script_lines::ScriptCall;
use gt_script_runs::{ScriptPolicy, call_bytes, label_given, push_answer_line, request_of};
use gt_types::DomId;
use std::alloc::{AllocError, Global};

// A law: each number of an entry fits its type.
fn entry_fits(entry: Entry)
    ensures { IsEntry entry }
{}

/// A law: the request of a line's call fits its types.
pub fn said_fits(call: &ScriptCall<'_>)
    ensures { (named : List Named) (dom : DomId) (request : Request) →
        MakesRequest named dom call.now request → FitsAsked (asked request) }
{
    match call {
        ScriptCall::Grant { entry, .. } => entry_fits(*entry),
        _ => {}
    }
}

// Returns the bytes in the call of a task.
fn bytes_of_task(alloc: Global, task: Option<&RunTask>) -> Result<Vec<u8>, SearchFault>
    ensures { IfOk result (λ bytes. bytes.items ≡ bytes_by (option_map (λ t. t.now) task.entry)) }
{
    match task {
        Some(task) => match &task.run_action {
            RunAction::Do(call) => Ok(call_bytes(alloc, call)?),
            _ => Ok(Vec::new(alloc)),
        },
        None => Ok(Vec::new(alloc)),
    }
}

// Returns the label to which a task gives its mapping.
fn label_of<'a>(task: &RunTask<'a>) -> Option<&'a [u8]>
    ensures { label_bytes result ≡ label_given_by task.now.run_action }
{
    match &task.run_action {
        RunAction::Do(call) => label_given(call),
        _ => None,
    }
}

impl<'s, 'a> SearchContext<'s, 'a> {
    ghost use Rattle.std.specs.Prelude.{◌≡◌, ◌<◌, ◌^◌, ℕ, List, ◌∷◌, Option, Some, None, length, slice_get, IfOk};
    ghost use Rattle.gt_core.specs.GoingOn.{beginning};
    ghost use Rattle.gt_model.specs.Legal.{BeginsRight};
    ghost use Rattle.gt_model.specs.declared.trace.Answer.{Answer};
    ghost use Rattle.gt_script_runs.specs.Printing.{answer_line};
    ghost use Rattle.gt_explore_replay.specs.Orders.{given_up};
    ghost use Rattle.gt_explore_moves.specs.declared.actor.Actor.{Actor};
    ghost use Rattle.gt_model.specs.declared.request.Request.{Request};
    ghost use Rattle.gt_model.specs.Path.{path};
    ghost use Rattle.gt_model.specs.declared.bounds.TheConstants.{SERIAL_LIMIT};
    ghost use Rattle.gt_model.specs.History.{History, Setting, Underway, known_at, maps_answered_at, seen_by, values};
    ghost use Rattle.gt_explore_moves.specs.Continuing.{GoesOnAsRun, StillKnows};
    ghost use Rattle.gt_script_runs.specs.Runs.{MakesRequest};
    ghost use Rattle.gt_model.specs.declared.request.Request.TheVariants.{Release};
    ghost use Rattle.gt_model.specs.declared.handle.Handle.{Handle};
    ghost use Rattle.gt_types.specs.declared.config.DomainConfig.{DomainConfig};
    ghost use Rattle.gt_explore_replay.specs.Courses.{Course, back_after, course_after, resting};
    ghost use Rattle.gt_script.specs.Lists.{RunTask};
    ghost use Rattle.gt_explore_moves.specs.Starting.{BeginsAsRun, GivesAsRun, IsNextCall, MovesAsRun, PrintsLine};
    ghost use Rattle.gt_explore_moves.specs.Starting.{held_but};
    ghost use Rattle.gt_model.specs.Rules.{CallerKnowledge};
    ghost use Rattle.gt_calls.specs.Known.{knows};
    ghost use Rattle.gt_script_runs.specs.Rights.{may_by};
    ghost use Rattle.gt_explore_moves.specs.Beginnings.{BeginsAlike, OpensSo};
    ghost use Rattle.gt_explore_moves.specs.Calls.{GoesAlong, KnowsTable, SerialsRise, ShowsCalls, handles_at, known_in};
    ghost use Rattle.gt_explore_moves.specs.Ends.{tasks_at};
    ghost use Rattle.gt_model.specs.Legal.{IsItemOf, IsRight};
    ghost use Rattle.gt_model.specs.declared.trace.Event.TheVariants.{Tick};
    ghost use Rattle.gt_model.specs.declared.trace.Item.{Item};
    ghost use Rattle.gt_explore_moves.specs.Scenes.{MovesAlong};
    ghost use Rattle.gt_explore_moves.specs.Ticking.{AnswersEnd, EndsCallOfTask, ClosesBack, HasStepped, IsTick};
    ghost use Rattle.gt_explore_moves.specs.Ticking.{ReadsInFrame};
    ghost use Rattle.gt_explore_moves.specs.Ticking.{ShowsAt};
    ghost use Rattle.gt_explore_moves.specs.Ticking.{TickLeads, TicksAsRun, bytes_by, task_in};
    ghost use Rattle.gt_explore_moves.specs.declared.scene.SearchState.{SearchState};
    ghost use Rattle.gt_explore_state.specs.declared.table.SparseTable.{SparseTable};
    ghost use Rattle.gt_explore_state.specs.Rows.{ListsEntries};
    ghost use Rattle.gt_explore_state.specs.Shows.{PagesShow};

    // Lists what a domain knows of its own entries.
    fn entries_of(&self, table: &SparseTable) -> Result<Vec<OwnerEntry>, AllocError>
        ensures { IfOk result (λ own. ListsEntries self.now.roster.first_gen table.now.own.items own.items) }
    {
        table.owner_entries(self.alloc, self.roster.config().first_gen)
    }

    // Returns what a domain knows, if these are its own entries, its header and its mappings.
    fn known<'k>(
        &'k self,
        own: &'k [OwnerEntry],
        header: Header,
        mappings: &'k Handles<HeldPin>,
    ) -> CallerState<'k, ScriptPolicy>
        ensures { (t : SparseTable) → ListsEntries self.now.roster.first_gen t.own.items own.now → t.header ≡ header →
            knows may_by result ≡ known_in self.now t mappings.now }
    {
        CallerState {
            config: &self.roster,
            rights: &self.rights,
            own,
            header,
            mappings,
        }
    }

    // Starts a call.
    fn opening(
        &self,
        table: &SparseTable,
        mappings: &Handles<HeldPin>,
        dom: DomId,
        request: Request<'_>,
    ) -> Result<CallOpening, AllocError>
        ensures { IfOk result (λ opened. (k : CallerKnowledge) →
            BeginsAlike k (known_in self.now table.now mappings.now) dom request.entry →
            OpensSo k dom request.entry opened) }
    {
        let own = self.entries_of(table)?;
        Ok(open_call(
            &self.known(own.as_slice(), table.header, mappings),
            dom,
            request,
        ))
    }

    // Continues a call after a step with this observation. After its first step a call doesn't look at the mappings of
    // its domain.
    fn next(
        &self,
        table: &SparseTable,
        last: ActorCall,
        seen: Observation,
    ) -> Result<(Call, Action), AllocError>
        ensures { IfOk result (λ went. (s : Setting) (h : History) (d : DomId) (c : Underway) (z : Step) →
            GoesAlong s h d c last → maps_answered_at h d.0 < SERIAL_LIMIT →
            SerialsRise 0 (handles_at h d) (maps_answered_at h d.0) →
            path (known_at s h d) d c.request (values c) ≡ Some (Action.Step z) → seen ≡ seen_by s h d z →
            StillKnows s h d self.now table.now last.call →
            GoesOnAsRun s h d c z last.task went.0 went.1) }
    {
        let own = self.entries_of(table)?;
        let mappings = Handles::new(self.alloc);
        Ok(go_on(
            &self.known(own.as_slice(), table.header, &mappings),
            last.call,
            seen,
        ))
    }

    // Returns the line that the answer of a task prints.
    fn line(&self, task: &RunTask<'a>, answer: &Answer) -> Result<TurnResult, SearchFault>
        ensures { IfOk result (λ led. PrintsLine led
            (answer_line self.now.types.items task.now.line task.now.dom answer.now)) }
    {
        let mut out = Vec::new(self.alloc);
        let types = self.types.as_slice();
        push_answer_line(self.alloc, &mut out, types, task.line, task.dom, answer)?;
        Ok(TurnResult::Answered(out))
    }

    // Starts the call of a task.
    fn begun(
        &self,
        actor: &Actor<'a>,
        table: &SparseTable,
        task: &RunTask<'a>,
        call: &ScriptCall<'a>,
    ) -> Result<CallOpening, SearchFault>
        ensures { (s : Setting) (h : History) (tasks : List RunTask) (k : Course) (q : Request) →
            ShowsCalls s h tasks k actor.now → length tasks < 2 ^ 63 → KnowsTable s h k.dom self.now table.now →
            task.now.dom ≡ k.dom → MakesRequest k.named k.dom call.now q → IfOk result (BeginsAsRun s h k.dom q) }
    {
        let bytes = call_bytes(self.alloc, call)?;
        let names = names_of(self.alloc, task.dom, actor.mappings.as_slice())?;
        let request = request_of(&names.labels, task.dom, bytes.as_slice(), call);
        Ok(self.opening(table, &names.mappings, task.dom, request)?)
    }

    // Makes the move that begins the call of a task.
    fn begin_call(
        &self,
        world: &mut SearchState<'a>,
        at: usize,
        task: &'s RunTask<'a>,
        call: &'s ScriptCall<'a>,
    ) -> Result<TurnResult, SearchFault>
        ensures { (s : Setting) (h : History) (k : Course) (ts : List RunTask) (a : Actor) (q : Request)
            (t : SparseTable) (answer : Option Answer) → slice_get world.old.actors.items at ≡ Some a →
            slice_get world.old.ground.tables.items at ≡ Some t →
            ShowsCalls s h (tasks_at self.now at) k a → KnowsTable s h k.dom self.now t →
            IsNextCall k task.now ts call.now → MakesRequest k.named k.dom call.now q →
            BeginsRight s h (beginning k.dom q answer) q →
            IfOk result (MovesAsRun s (beginning k.dom q answer ∷ h) (tasks_at self.now at) a k
            (course_after self.now.types.items task.now.line call.now (given_up q) (record k { tasks = ts }) answer)
            world.old world.new at) }
    {
        let Some(actor) = world.actors.get_mut(at) else {
            return Ok(TurnResult::Nowhere);
        };
        let Some(table) = world.ground.tables.get(at) else {
            return Ok(TurnResult::Nowhere);
        };
        match self.begun(actor, table, task, call)? {
            CallOpening::Open(call, step) => {
                actor.start(call, step);
                Ok(TurnResult::On)
            }
            CallOpening::Done(verdict) => {
                actor.pass();
                self.line(task, &answer_of(verdict))
            }
        }
    }

    // Starts the release of a domain's mapping at this index, if there is one. It asks no policy, so it is never
    // refused.
    fn releasing(
        &self,
        actor: &Actor<'a>,
        table: &SparseTable,
        dom: DomId,
        choice: usize,
    ) -> Result<Option<(Call, Step)>, SearchFault>
        ensures { (s : Setting) (h : History) (tasks : List RunTask) (k : Course) (handle : Handle) →
            ShowsCalls s h tasks k actor.now → length tasks < 2 ^ 63 → KnowsTable s h k.dom self.now table.now →
            dom ≡ k.dom → k.opened ≡ resting → slice_get k.held choice ≡ Some handle →
            IfOk result (GivesAsRun s h k.dom handle choice) }
    {
        let names = names_of(self.alloc, dom, actor.mappings.as_slice())?;
        let Some(handle) = names.handles.get(choice).copied() else {
            return Ok(None);
        };
        let request = Request::Release { handle };
        let opened = self.opening(table, &names.mappings, dom, request)?;
        match opened {
            CallOpening::Open(call, step) => Ok(Some((call, step))),
            CallOpening::Done(_) => Ok(None),
        }
    }

    // Makes the move by which a domain at the end of its list begins to release a mapping.
    fn give_back(&self, world: &mut SearchState<'a>, turn: Turn) -> Result<TurnResult, SearchFault>
        ensures { (s : Setting) (h : History) (k : Course) (a : Actor) (domain : DomainConfig) (handle : Handle)
            (t : SparseTable) (answer : Option Answer) → slice_get world.old.actors.items turn.place ≡ Some a →
            slice_get world.old.ground.tables.items turn.place ≡ Some t →
            slice_get self.now.roster.domains.items turn.place ≡ Some domain → domain.id ≡ k.dom →
            ShowsCalls s h (tasks_at self.now turn.place) k a → KnowsTable s h k.dom self.now t →
            k.opened ≡ resting → slice_get k.held turn.choice ≡ Some handle →
            BeginsRight s h (beginning k.dom (Release handle) answer) (Release handle) →
            IfOk result (MovesAsRun s (beginning k.dom (Release handle) answer ∷ h) (tasks_at self.now turn.place) a k
            (back_after (held_but k turn.choice) answer) world.old world.new turn.place) }
    {
        let Some(domain) = self.roster.config().domains.get(turn.place) else {
            return Ok(TurnResult::Nowhere);
        };
        let Some(actor) = world.actors.get_mut(turn.place) else {
            return Ok(TurnResult::Nowhere);
        };
        let Some(table) = world.ground.tables.get(turn.place) else {
            return Ok(TurnResult::Nowhere);
        };
        match self.releasing(actor, table, domain.id, turn.choice)? {
            None => Ok(TurnResult::Nowhere),
            Some((call, step)) => {
                actor.give(call, step);
                Ok(TurnResult::On)
            }
        }
    }

    // Returns the bytes that were passed to an open call.
    fn given(&self, at: usize, open: ActorCall) -> Result<Vec<u8>, SearchFault>
        ensures { IfOk result (λ bytes. bytes.items ≡ bytes_by (task_in (tasks_at self.now at) «open».task)) }
    {
        let task = match open.task {
            Some(place) => self.task(at, place),
            None => None,
        };
        bytes_of_task(self.alloc, task)
    }

    // Applies the step of a domain's open call to tables and pages, and returns what the step saw.
    fn make(
        &self,
        ground: &mut SparseState,
        at: usize,
        open: ActorCall,
    ) -> Result<Observation, SearchFault>
        ensures { (s : Setting) (h : History) (before : SearchState) (k : Course) (a : Actor) (i : Item) →
            IsTick s h self.now before at k a «open» i → ground.old ≡ before.ground →
            IfOk result (λ seen. HasStepped s h k i «open» seen ground.new.tables.items ground.new.pages.items) }
    {
        let given = self.given(at, open)?;
        ground.write(self.alloc, open.step, given.as_slice())?;
        let seen = ground.see(&self.roster, open.call.caller, open.step);
        ground.apply(&self.roster, at, open.step, seen)?;
        Ok(seen)
    }

    // Returns the answer of a call that ends after this step with this verdict.
    fn answer(
        &self,
        ground: &SparseState,
        last: Step,
        verdict: CallResult,
    ) -> Result<Answer, SearchFault>
        ensures { (h : History) → PagesShow h ground.now.pages.items → ReadsInFrame last →
            IfOk result (AnswersEnd h last verdict) }
    {
        match (verdict, last) {
            (
                CallResult::Granted,
                Step::Read {
                    dom,
                    frame,
                    off,
                    len,
                },
            ) => {
                let bytes = ground.read(self.alloc, dom, frame, off, len)?;
                Ok(Answer::Bytes(Bytes { bytes }))
            }
            _ => Ok(answer_of(verdict)),
        }
    }

    // Ends the open call of a task.
    fn close_line(
        &self,
        world: &mut SearchState<'a>,
        at: usize,
        task: &'s RunTask<'a>,
        last: Step,
        verdict: CallResult,
    ) -> Result<TurnResult, SearchFault>
        ensures { (h : History) (a : Actor) → slice_get world.old.actors.items at ≡ Some a →
            PagesShow h world.old.ground.pages.items → ReadsInFrame last →
            IfOk result (EndsCallOfTask h self.now.types.items task.now last verdict a world.old world.new at) }
    {
        let answer = self.answer(&world.ground, last, verdict)?;
        let Some(actor) = world.actors.get_mut(at) else {
            return Ok(TurnResult::Nowhere);
        };
        actor.close(label_of(task), verdict)?;
        self.line(task, &answer)
    }

    // Ends the release of a mapping at the end of a domain's list.
    fn close_back(&self, world: &mut SearchState<'a>, at: usize) -> TurnResult
        ensures { (a : Actor) → slice_get world.old.actors.items at ≡ Some a →
            ClosesBack a world.old world.new at result }
    {
        let Some(actor) = world.actors.get_mut(at) else {
            return TurnResult::Nowhere;
        };
        actor.open = None;
        TurnResult::On
    }

    // Ends the open call of a domain.
    fn close(
        &self,
        world: &mut SearchState<'a>,
        at: usize,
        open: ActorCall,
        verdict: CallResult,
    ) -> Result<TurnResult, SearchFault>
        ensures line { (h : History) (a : Actor) (place : ℕ) (t : RunTask) →
            slice_get world.old.actors.items at ≡ Some a → PagesShow h world.old.ground.pages.items →
            ReadsInFrame «open».step → «open».task ≡ Some place → slice_get (tasks_at self.now at) place ≡ Some t →
            IfOk result (EndsCallOfTask h self.now.types.items t «open».step verdict a world.old world.new at) }
        ensures back { (a : Actor) → slice_get world.old.actors.items at ≡ Some a → «open».task ≡ None →
            IfOk result (ClosesBack a world.old world.new at) }
    {
        let Some(place) = open.task else {
            return Ok(self.close_back(world, at));
        };
        let Some(task) = self.task(at, place) else {
            return Ok(TurnResult::Nowhere);
        };
        self.close_line(world, at, task, open.step, verdict)
    }

    // Continues or ends the open call of a domain, after its step saw this.
    fn settle_call(
        &self,
        world: &mut SearchState<'a>,
        at: usize,
        open: ActorCall,
        seen: Observation,
    ) -> Result<TurnResult, SearchFault>
        ensures { (s : Setting) (h : History) (before : SearchState) (k j : Course) (a : Actor) (i : Item) →
            IsTick s h self.now before at k a «open» i → TickLeads self.now.types.items k k.opened i j →
            world.old.actors ≡ before.actors →
            HasStepped s h k i «open» seen world.old.ground.tables.items world.old.ground.pages.items →
            IfOk result (TicksAsRun s (i ∷ h) (tasks_at self.now at) k j world.old world.new at) }
    {
        let Some(actor) = world.actors.get_mut(at) else {
            return Ok(TurnResult::Nowhere);
        };
        let Some(table) = world.ground.tables.get(at) else {
            return Ok(TurnResult::Nowhere);
        };
        actor.make(open.step);
        let went = self.next(table, open, seen)?;
        let (call, action) = went;
        match action {
            Action::Step(step) => {
                let task = open.task;
                actor.open = Some(ActorCall { task, call, step });
                Ok(TurnResult::On)
            }
            Action::Done(verdict) => self.close(world, at, open, verdict),
        }
    }

    // Makes the next step of a domain's open call.
    fn tick(
        &self,
        world: &mut SearchState<'a>,
        at: usize,
        open: ActorCall,
    ) -> Result<TurnResult, SearchFault>
        ensures { (s : Setting) (h : History) (k j : Course) (a : Actor) (i : Item) →
            ShowsAt s h self.now world.old at k a → a.«open» ≡ Some «open» → IsItemOf (Tick k.dom) i → IsRight s h i →
            TickLeads self.now.types.items k k.opened i j →
            IfOk result (TicksAsRun s (i ∷ h) (tasks_at self.now at) k j world.old world.new at) }
    {
        let seen = self.make(&mut world.ground, at, open)?;
        self.settle_call(world, at, open, seen)
    }

    /// Makes a turn: the next move of a domain. Returns `Nowhere` if the domain has no such move; the state must not be
    /// used after that, nor after an error.
    ///
    /// # Errors
    /// `Memory` if an allocation fails.
    pub fn advance(
        &self,
        world: &mut SearchState<'a>,
        turn: Turn,
    ) -> Result<TurnResult, SearchFault>
        ensures { IfOk result (λ led. MovesAlong self.now turn.place turn.choice world.old led world.new) }
    {
        let at = turn.place;
        let Some(actor) = world.actors.get(at) else {
            return Ok(TurnResult::Nowhere);
        };
        if let Some(open) = actor.open {
            return self.tick(world, at, open);
        }
        let Some(task) = self.task(at, actor.next) else {
            return self.give_back(world, turn);
        };
        match &task.run_action {
            RunAction::Do(call) => {
                said_fits(call);
                self.begin_call(world, at, task, call)
            }
            RunAction::Tell(flag) => Ok(self.raise(world, at, *flag)),
            RunAction::Await(flag) => Ok(self.go_past(world, at, *flag)),
        }
    }
}
