//! The context of a search, and its states.
ghost use Rattle.std.specs.Prelude.{◌≡◌, false, replicate, map, length, All, IfOk};
ghost use Rattle.gt_script_runs.specs.Playing.{setting_of_script};
ghost use Rattle.gt_script.specs.Contents.{contents_of};
ghost use Rattle.gt_script.specs.RunScripts.{CanConfigure, list_of};
ghost use Rattle.gt_explore_moves.specs.Copies.{IsFirstActor};
ghost use Rattle.gt_types.specs.Config.{IsWithinLimits};
ghost use Rattle.gt_explore_state.specs.Shows.{IsSettingOf};

use crate::actor::Actor;
use crate::granted::{GrantedEntry, entries_granted};
use gt_explore_search::SearchFault;
use gt_explore_state::SparseState;
use gt_roster::Roster;
use gt_script::{RunScript, RunTask, ScriptHead};
use gt_script_lines::Text;
use gt_script_runs::ScriptPolicy;
use gt_types::{Config, DomainConfig, StartFault};
use std::alloc::{AllocError, Global};

/// The data that all states of a search have in common.
#[derive(Drop)]
pub struct SearchContext<'s, 'a> {
    pub alloc: Global,
    pub roster: Roster,
    pub rights: ScriptPolicy,
    pub types: Vec<Text<'s>>,
    /// The list of each domain, in the order of the domains.
    pub lists: Vec<Vec<&'s RunTask<'a>>>,
    /// The number of flags.
    pub flags: usize,
    /// The entries that the tasks may grant.
    pub grants: Vec<GrantedEntry>,
}

/// A state: all that decides how a run can continue, without the answers so far.
#[derive(Drop)]
pub struct SearchState<'a> {
    pub actors: Vec<Actor<'a>>,
    pub ground: SparseState,
    /// For each flag, whether it was raised.
    pub told: Vec<bool>,
}

// Returns the domains of a script, with an index by their numbers.
fn roster_of(alloc: Global, script: &ScriptHead) -> Result<Roster, SearchFault>
    requires { CanConfigure (contents_of script.now) }
    ensures setting { IfOk result (λ roster. IsSettingOf roster (setting_of_script (contents_of script.now))) }
    ensures limits { IfOk result (λ roster. IsWithinLimits roster) }
{
    let config = Config {
        domains: Vec::from_slice(alloc, script.domains())?,
        first_gen: script.first_gen(),
    };
    match Roster::new(alloc, config) {
        Ok(roster) => Ok(roster),
        Err(StartFault::Memory) => Err(SearchFault::Memory),
        Err(StartFault::Config(_)) => unreachable!(),
    }
}

// Returns the list of each of these domains.
fn lists_of<'s, 'a>(
    alloc: Global,
    script: &'s RunScript<'a>,
    domains: &[DomainConfig],
) -> Result<Vec<Vec<&'s RunTask<'a>>>, AllocError>
    ensures { IfOk result (λ lists. map (λ list. map (λ t. t.now) list.items) lists.items
        ≡ map (λ d. list_of script.entry.now.tasks d.id) domains.now) }
{
    let mut lists = Vec::new(alloc);
    'domains: for domain in domains {
        lists.push(script.list_of(alloc, domain.id)?)?;
    }
    Ok(lists)
}

// Makes this number of domains before the first tasks of their lists.
fn first_actors<'a>(alloc: Global, count: usize) -> Result<Vec<Actor<'a>>, AllocError>
    ensures many { IfOk result (λ actors. length actors.items ≡ count) }
    ensures first { IfOk result (λ actors. All IsFirstActor actors.items) }
{
    let mut actors = Vec::new(alloc);
    'actors: for _number in 0..count {
        actors.push(Actor::new(alloc))?;
    }
    Ok(actors)
}

// Makes this number of flags, none of which is raised.
fn no_flags(alloc: Global, count: usize) -> Result<Vec<bool>, AllocError>
    ensures many { IfOk result (λ told. length told.items ≡ count) }
    ensures none { IfOk result (λ told. told.items ≡ replicate count false) }
{
    vec![in alloc; false; count]
}

impl<'s, 'a> SearchContext<'s, 'a> {
    ghost use Rattle.std.specs.Prelude.{◌≡◌, slice_get, [], IfOk};
    ghost use Rattle.std.specs.Option.{option_map};
    ghost use Rattle.gt_explore_replay.specs.Courses.{first_courses};
    ghost use Rattle.gt_script.specs.RunContents.{RunContents, run_contents};
    ghost use Rattle.gt_script.specs.Stuck.{AreNumbered};
    ghost use Rattle.gt_explore_moves.specs.Ends.{tasks_at};
    ghost use Rattle.gt_explore_moves.specs.Scenes.{IsSceneOf, SceneShows};

    /// Makes the context for the states of a script.
    ///
    /// # Errors
    /// `Memory` if an allocation fails.
    pub fn new(
        alloc: Global,
        script: &'s RunScript<'a>,
    ) -> Result<SearchContext<'s, 'a>, SearchFault>
        requires { CanConfigure (contents_of script.now.head) }
        ensures { AreNumbered script.entry.now.flags script.entry.now.tasks →
            IfOk result (IsSceneOf (run_contents script.entry.now)) }
    {
        let head = script.head();
        let lists = lists_of(alloc, script, head.domains())?;
        let grants = entries_granted(alloc, script.tasks())?;
        Ok(SearchContext {
            alloc,
            roster: roster_of(alloc, head)?,
            rights: ScriptPolicy::of(alloc, head)?,
            types: head.type_names(alloc)?,
            lists,
            flags: script.flags(),
            grants,
        })
    }

    /// Returns the state in which nothing has happened.
    pub fn start(&self) -> Result<SearchState<'a>, AllocError>
        ensures { (c : RunContents) → IsSceneOf c self.now → IfOk result (SceneShows c self.now [] (first_courses c)) }
    {
        let domains = self.roster.config().domains.as_slice();
        let actors = first_actors(self.alloc, domains.len())?;
        let ground = SparseState::new(self.alloc, domains)?;
        let told = no_flags(self.alloc, self.flags)?;
        Ok(SearchState {
            actors,
            ground,
            told,
        })
    }

    /// Returns the task at this index of the list of the domain at the position `place`, if there is one.
    pub fn task(&self, place: usize, index: usize) -> Option<&'s RunTask<'a>>
        ensures { option_map (λ t. t.now) result ≡ slice_get (tasks_at self.now place) index }
    {
        if place >= self.lists.len() {
            return None;
        }
        let list = &self.lists[place];
        if index < list.len() {
            Some(list[index])
        } else {
            None
        }
    }
}
