//! One order of a script's run, move by move.
ghost use Rattle.std.specs.Prelude.{◌≡◌, ◌<◌, ℕ, true, false, List, length, map, All, IfOk, IfSome, IsTrue};
ghost use Rattle.std.specs.Prelude.{slice_set, get_or};
ghost use Rattle.std.specs.Option.{IsSomeAnd};
ghost use Rattle.gt_script.specs.Contents.{contents_of};
ghost use Rattle.gt_script.specs.RunContents.{run_contents};
ghost use Rattle.gt_script.specs.RunScripts.{CanConfigure};
ghost use Rattle.gt_script.specs.Stuck.{AreNumbered};
ghost use Rattle.gt_explore_replay.specs.Courses.{IsTurnedBy};
ghost use Rattle.gt_explore_replay.specs.Orders.{Happening, MayGive};
ghost use Rattle.gt_explore_replay.specs.Walking.{StartsWalk};

use crate::walker::Walker;
use gt_core::{Answer, Core, Observation, Step};
use gt_explore_search::Turn;
use gt_script::{RunAction, RunScript};
use gt_script_lines::Text;
use gt_script_runs::{ScriptPolicy, core_of};
use gt_types::{DomainConfig, Memory};
use std::alloc::{AllocError, Global};

/// A move of a domain.
#[derive(Drop)]
pub enum Moved {
    /// It raised a flag.
    Raised,
    /// It passed a flag that was raised.
    Passed,
    /// It began a call or a release, which has this answer if it was answered at once.
    Began(Option<Answer>),
    /// Its call made this step, with this observation, and has this answer if it ended.
    Stepped(Step, Observation, Option<Answer>),
}

/// A run of a script, in one order.
#[derive(Drop)]
pub struct Replay<'s, 'a> {
    alloc: Global,
    core: Core<ScriptPolicy>,
    walkers: Vec<Walker<'s, 'a>>,
    told: Vec<bool>,
    types: Vec<Text<'s>>,
}

// Returns the domains of a script before the first lines of their lists.
fn walkers_of<'s, 'a>(
    alloc: Global,
    script: &'s RunScript<'a>,
    domains: &[DomainConfig],
) -> Result<Vec<Walker<'s, 'a>>, AllocError>
    ensures doms { IfOk result (λ walkers. map (λ w. w.dom) walkers.items ≡ map (λ d. d.id) domains.now) }
    ensures first { IfOk result (λ walkers. All (StartsWalk script.entry.now.tasks) walkers.items) }
{
    let mut walkers = Vec::new(alloc);
    'domains: for domain in domains {
        let tasks = script.list_of(alloc, domain.id)?;
        walkers.push(Walker::new(alloc, domain.id, tasks))?;
    }
    Ok(walkers)
}

// Makes this number of flags, none of which is raised.
fn no_flags(alloc: Global, count: usize) -> Result<Vec<bool>, AllocError>
    ensures none { IfOk result (λ told. All (λ t. t ≡ false) told.items) }
    ensures many { IfOk result (λ told. length told.items ≡ count) }
{
    vec![in alloc; false; count]
}

// Raises a flag. Returns whether there is such a flag.
fn raise(told: &mut Vec<bool>, flag: usize) -> bool
    ensures raised { IsTrue result → told.new.items ≡ slice_set told.old.items flag true }
    ensures place { flag < length told.old.items → IsTrue result }
{
    if flag >= told.len() {
        return false;
    }
    told[flag] = true;
    true
}

// Returns whether a flag is raised.
fn is_raised(told: &[bool], flag: usize) -> bool
    ensures raised { IsTrue result → get_or told.now flag false ≡ true }
    ensures passes { get_or told.now flag false ≡ true → IsTrue result }
{
    flag < told.len() && told[flag]
}

impl<'s, 'a> Replay<'s, 'a> {
    ghost use Rattle.std.specs.Prelude.{◌≡◌, ◌++◌, List, [], ◌∷◌, IfOk, IfSome, IsSome, Some, slice_get, slice_set};
    ghost use Rattle.std.specs.Option.{IsSomeAnd};
    ghost use Rattle.gt_script.specs.Contents.{contents_of, type_names};
    ghost use Rattle.gt_script.specs.RunContents.{RunContents, run_contents};
    ghost use Rattle.gt_script.specs.RunScripts.{CanConfigure};
    ghost use Rattle.gt_script.specs.Stuck.{AreNumbered};
    ghost use Rattle.gt_script_runs.specs.Playing.{setting_of_script};
    ghost use Rattle.gt_explore_replay.specs.Abreast.{IsAbreast, CanComeNext};
    ghost use Rattle.gt_explore_replay.specs.Courses.{AllCoursesEnd, Course, CourseLeads, courses_text, first_courses};
    ghost use Rattle.gt_explore_replay.specs.Orders.{Happening, IsOrderOf};
    ghost use Rattle.gt_explore_replay.specs.Walking.{ComesOn, HasWalked};

    /// Makes a replay with the domains of the script before the first lines of their lists, on a core at rest.
    ///
    /// # Errors
    /// `Memory` if an allocation fails.
    pub fn new(alloc: Global, script: &'s RunScript<'a>) -> Result<Replay<'s, 'a>, Memory>
        requires { CanConfigure (contents_of script.now.head) }
        ensures walks { IfOk result (HasWalked (run_contents script.entry.now) []) }
        ensures abreast { AreNumbered script.entry.now.flags script.entry.now.tasks →
            IfOk result (IsAbreast (run_contents script.entry.now) [] (first_courses (run_contents script.entry.now))) }
    {
        let head = script.head();
        let walkers = walkers_of(alloc, script, head.domains())?;
        let told = no_flags(alloc, script.flags())?;
        let types = head.type_names(alloc)?;
        let core = core_of(alloc, head)?;
        Ok(Replay {
            alloc,
            core,
            walkers,
            told,
            types,
        })
    }

    /// Returns the core.
    pub fn core(&self) -> &Core<ScriptPolicy> {
        &self.core
    }

    /// Returns the domains, in the order of the script.
    pub fn walkers(&self) -> &[Walker<'s, 'a>] {
        self.walkers.as_slice()
    }

    /// Returns for each flag whether it is raised.
    pub fn told(&self) -> &[bool] {
        self.told.as_slice()
    }

    /// Makes the next move of a domain. Returns the move, or None if there is none: the domain is at its end or awaits
    /// a flag that is not raised, or the turn names no domain or no mapping. The replay cannot be used after None, or
    /// after an error.
    ///
    /// # Errors
    /// `Memory` if an allocation fails.
    pub fn advance(&mut self, turn: Turn) -> Result<Option<Moved>, Memory>
        ensures walks { (c : RunContents) (hs : List Happening) → HasWalked c hs self.old →
            IfOk result (λ m. IfSome m (λ moved. ComesOn c hs turn.place moved self.new)) }
        ensures abreast { (c : RunContents) (hs : List Happening) (ks : List Course) (x : Happening) (k j : Course) →
            IsAbreast c hs ks self.old → slice_get ks turn.place ≡ Some k →
            CourseLeads (type_names c.head) k turn.choice x j → CanComeNext (setting_of_script c.head) hs x →
            IfOk result (λ m. IsSome m × IsAbreast c (hs ++ x ∷ []) (slice_set ks turn.place j) self.new) }
    {
        if turn.place >= self.walkers.len() {
            return Ok(None);
        }
        let types = self.types.as_slice();
        let walker = &mut self.walkers[turn.place];
        if walker.is_calling() {
            return walker.tick(self.alloc, &mut self.core, types);
        }
        let Some(task) = walker.task() else {
            return walker.give_back(&mut self.core, turn.choice);
        };
        match &task.run_action {
            RunAction::Do(call) => walker.begin_call(self.alloc, &mut self.core, types, task, call),
            RunAction::Tell(flag) => {
                if raise(&mut self.told, *flag) {
                    walker.skip();
                    return Ok(Some(Moved::Raised));
                }
                Ok(None)
            }
            RunAction::Await(flag) => {
                if is_raised(self.told.as_slice(), *flag) {
                    walker.skip();
                    return Ok(Some(Moved::Passed));
                }
                Ok(None)
            }
        }
    }

    /// Returns the text of the run, with the lines of the first domain's answers first, or None if some domain is not
    /// at its end.
    ///
    /// # Errors
    /// An allocation failed.
    pub fn text(&self) -> Result<Option<Vec<u8>>, AllocError>
        ensures order { (c : RunContents) (hs : List Happening) → HasWalked c hs self.now →
            IfOk result (λ t. IfSome t (λ text. IsOrderOf c hs text.items)) }
        ensures whole { (c : RunContents) (hs : List Happening) (ks : List Course) → IsAbreast c hs ks self.now →
            AllCoursesEnd ks → IfOk result (λ t. IsSomeAnd t (λ text. text.items ≡ courses_text ks)) }
    {
        let mut text = Vec::new(self.alloc);
        'walkers: for walker in self.walkers.as_slice() {
            if !walker.is_finished() {
                return Ok(None);
            }
            text.extend_from_slice(walker.text.as_slice())?;
        }
        Ok(Some(text))
    }
}

/// Returns the text of a script's run in the order of these turns. Returns None if some domain is not at its end after
/// them, or could not take its turn.
///
/// # Errors
/// `Memory` if an allocation fails.
pub fn text_of<'s, 'a>(
    alloc: Global,
    script: &'s RunScript<'a>,
    turns: &[Turn],
) -> Result<Option<Vec<u8>>, Memory>
    requires { CanConfigure (contents_of script.now.head) }
    ensures possible { IfOk result (λ t. IfSome t (λ text. MayGive (run_contents script.now) text.items)) }
    ensures whole { (hs : List Happening) (text : List ℕ) → AreNumbered script.now.flags script.now.tasks →
        IsTurnedBy (run_contents script.now) hs turns.now text →
        IfOk result (λ t. IsSomeAnd t (λ v. v.items ≡ text)) }
{
    let mut run = Replay::new(alloc, script)?;
    'turns: for turn in turns {
        let moved = run.advance(*turn)?;
        if moved.is_none() {
            return Ok(None);
        }
    }
    Ok(run.text()?)
}
