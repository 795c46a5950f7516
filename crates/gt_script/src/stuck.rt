//! Whether each domain of a run reaches the end of its list, if every call is answered.
//!
//! The domains move in turn, each as far as the raised flags let it, until a whole turn raises no new flag.
ghost use Rattle.std.specs.Prelude.{◌≡◌, ◌≤◌, ◌↔◌, ℕ, Bool, IfOk, All, IsTrue, length};
ghost use Rattle.gt_types.specs.Config.{is_taken};
ghost use Rattle.gt_script.specs.Stuck.{IsBelow, AreNumbered, IsClosedFlagSet, IsRaisable, IsJudged};
ghost use Rattle.gt_script.specs.Rounds.{flag_holds, is_waiting, raised_after, is_new, Within, TurnGoesOn, Comes};
ghost use Rattle.gt_script.specs.Rounds.{HaveCome, Turning, WaitsOrEnds};

use crate::tasks::{RunAction, RunTask};
use gt_types::{DomId, DomainConfig};
use std::alloc::{AllocError, Global};

// How far a domain came, and whether it newly raised a flag.
#[derive(Clone, Copy)]
struct DomainProgress {
    place: usize,
    is_news: bool,
}

// The position of each domain, and for each flag whether it is raised.
#[derive(Drop)]
struct ListPositions {
    places: Vec<usize>,
    told: Vec<bool>,
}

// Returns whether the task is one of the domain.
fn is_own(task: &RunTask, dom: DomId) -> bool
    ensures { IsTrue result ↔ (task.now.dom.0 ≡ dom.0) }
{
    task.dom == dom
}

impl ListPositions {
    ghost use Rattle.std.specs.Prelude.{◌≡◌, ◌≤◌, length};

    // Returns whether a domain waits at this action.
    #[tactic(auto, unfolding(crate::specs::Rounds::is_waiting))]
    fn is_waiting(&self, run_action: &RunAction) -> bool
        requires { IsBelow (length self.now.told.items) run_action.now }
        ensures { result ≡ is_waiting self.now.told.items run_action.now }
    {
        match run_action {
            RunAction::Do(_) | RunAction::Tell(_) => false,
            RunAction::Await(flag) => !self.told[*flag],
        }
    }

    // Raises the flag of this action, if it raises one. Returns whether the flag is newly raised.
    #[tactic(auto, unfolding(crate::specs::Rounds::raised_after, crate::specs::Rounds::is_new))]
    fn tell(&mut self, run_action: &RunAction) -> bool
        requires { IsBelow (length self.old.told.items) run_action.now }
        ensures told { self.new.told.items ≡ raised_after self.old.told.items run_action.now }
        ensures places { self.new.places.items ≡ self.old.places.items }
        ensures news { result ≡ is_new self.old.told.items run_action.now }
    {
        match run_action {
            RunAction::Do(_) | RunAction::Await(_) => false,
            RunAction::Tell(flag) => {
                let was_told = self.told[*flag];
                self.told[*flag] = true;
                !was_told
            }
        }
    }

    // Moves a domain from a position as far as the raised flags let it, and raises the flags of its tasks there.
    fn go_on(&mut self, tasks: &[RunTask], dom: DomId, from: usize) -> DomainProgress
        requires numbered { AreNumbered (length self.old.told.items) tasks.now }
        requires place { from ≤ length tasks.now }
        requires come { Comes tasks.now dom from self.old.told.items }
        ensures goes { TurnGoesOn tasks.now dom self.old.told.items self.new.told.items result.place result.is_news }
        ensures places { self.new.places.items ≡ self.old.places.items }
    {
        let mut is_news = false;
        'tasks: for place in from..tasks.len() {
            let task = &tasks[place];
            if is_own(task, dom) {
                if self.is_waiting(&task.run_action) {
                    return DomainProgress { place, is_news };
                }
                is_news |= self.tell(&task.run_action);
            }
        }
        DomainProgress {
            place: tasks.len(),
            is_news,
        }
    }

    // Moves each domain in turn. Returns whether a flag is newly raised.
    fn turn(&mut self, tasks: &[RunTask], domains: &[DomainConfig]) -> bool
        requires numbered { AreNumbered (length self.old.told.items) tasks.now }
        requires many { length self.old.places.items ≡ length domains.now }
        requires come { HaveCome tasks.now domains.now self.old.places.items self.old.told.items }
        ensures turns { Turning tasks.now domains.now self.new.places.items
            self.old.told.items self.new.told.items (length domains.now) result }
        ensures many { length self.new.places.items ≡ length domains.now }
    {
        let mut is_news = false;
        'domains: for (i, domain) in domains.iter().enumerate() {
            let from = self.places[i];
            let way = self.go_on(tasks, domain.id, from);
            self.places[i] = way.place;
            is_news |= way.is_news;
        }
        is_news
    }
}

// Finds the flags that are raised in a run.
fn raised_flags(
    alloc: Global,
    tasks: &[RunTask],
    domains: &[DomainConfig],
    flags: usize,
) -> Result<Vec<bool>, AllocError>
    requires numbered { AreNumbered flags tasks.now }
    requires known { All (λ t. IsTrue (is_taken domains.now t.dom)) tasks.now }
    ensures many { IfOk result (λ told. length told.items ≡ flags) }
    ensures closed { IfOk result (λ told. IsClosedFlagSet tasks.now (flag_holds told.items)) }
    ensures least { IfOk result (λ told. (set : ℕ → Bool) → IsClosedFlagSet tasks.now set → Within told.items set) }
{
    let mut turns = ListPositions {
        places: vec![in alloc; 0; domains.len()]?,
        told: vec![in alloc; false; flags]?,
    };
    'turns: loop {
        if !turns.turn(tasks, domains) {
            return Ok(turns.told);
        }
    }
}

// Finds the line where a domain waits if these flags are raised.
fn waiting_line(tasks: &[RunTask], dom: DomId, told: &[bool]) -> Option<usize>
    requires { AreNumbered (length told.now) tasks.now }
    ensures { WaitsOrEnds told.now tasks.now dom result }
{
    'tasks: for task in tasks {
        if task.dom == dom {
            if let RunAction::Await(flag) = task.run_action {
                if !told[flag] {
                    return Some(task.line);
                }
            }
        }
    }
    None
}

/// Returns the line at which the first domain waits that does not come to the end of its list; None if every domain
/// does. The flags of the tasks are numbered below `flags`.
pub fn stuck_line(
    alloc: Global,
    tasks: &[RunTask],
    domains: &[DomainConfig],
    flags: usize,
) -> Result<Option<usize>, AllocError>
    requires numbered { AreNumbered flags tasks.now }
    requires known { All (λ t. IsTrue (is_taken domains.now t.dom)) tasks.now }
    ensures { IfOk result (λ line. IsJudged (IsRaisable tasks.now) tasks.now domains.now line) }
{
    let told = raised_flags(alloc, tasks, domains, flags)?;
    'domains: for domain in domains {
        let line = waiting_line(tasks, domain.id, told.as_slice());
        if line.is_some() {
            return Ok(line);
        }
    }
    Ok(None)
}
