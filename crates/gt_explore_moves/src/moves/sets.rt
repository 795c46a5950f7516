//! Sets of domains whose moves need no alternative, since no domain outside can disturb them.
ghost use Rattle.std.specs.Prelude.{◌≡◌, IsTrue};
ghost use Rattle.gt_explore_moves.specs.Touches.{ShareNoFlag, awaits_shut, first_left, tells_shut};

use super::flags::is_set;
use crate::actor::Actor;
use crate::scene::{SearchContext, SearchState};
use crate::touches::{MappingUse, NextMove, any_mapping_meets, is_load, is_store, meets_task};
use gt_script::{RunAction, RunTask};
use std::alloc::AllocError;

/// A set of domains, and the flags that stay shut until one of them moves.
#[derive(Drop)]
pub(super) struct LoneSet {
    pub(super) inside: Vec<bool>,
    pub(super) shut: Vec<bool>,
}

// A domain from which a set may grow.
#[derive(Clone, Copy)]
struct SetSeed {
    place: usize,
    // It has no open call.
    is_at_rest: bool,
    // The number of tasks that it has not finished.
    left: usize,
}

impl SetSeed {
    // Returns whether a set grows from this domain before one grows from the other.
    fn is_before(self, other: Option<SetSeed>) -> bool {
        match other {
            None => true,
            Some(other) => {
                if self.is_at_rest == other.is_at_rest {
                    self.left < other.left
                } else {
                    other.is_at_rest
                }
            }
        }
    }
}

// Returns the index of the first task that a domain has not finished: that of its open call, or the next one.
fn first_left(actor: &Actor<'_>) -> usize
    ensures { result ≡ first_left actor.now }
{
    match actor.open {
        Some(open) => open.task.unwrap_or(actor.next),
        None => actor.next,
    }
}

// Returns whether no flag is one of both.
fn share_none(some: &[bool], others: &[bool]) -> bool
    ensures { IsTrue result → ShareNoFlag some.now others.now }
{
    for (flag, is_other) in others.iter().enumerate() {
        if *is_other && is_set(some, flag) {
            return false;
        }
    }
    true
}

// Returns whether a task awaits one of these shut flags.
fn awaits_shut(shut: &[bool], task: &RunTask<'_>) -> bool
    ensures { result ≡ awaits_shut shut.now task.now }
{
    match &task.run_action {
        RunAction::Await(flag) => is_set(shut, *flag),
        _ => false,
    }
}

// Returns whether a task raises one of these shut flags.
fn tells_shut(shut: &[bool], task: &RunTask<'_>) -> bool
    ensures { result ≡ tells_shut shut.now task.now }
{
    match &task.run_action {
        RunAction::Tell(flag) => is_set(shut, *flag),
        _ => false,
    }
}

impl<'s, 'a> SearchContext<'s, 'a> {
    ghost use Rattle.std.specs.Prelude.{◌≡◌, IfNone, IsTrue, drop, length, slice_get};
    ghost use Rattle.std.specs.List.{list_any};
    ghost use Rattle.gt_explore_moves.specs.Ends.{tasks_at};
    ghost use Rattle.gt_explore_moves.specs.Touches.{AreUndisturbed, NoneMeets, SomeGoesOn, StayShut, is_load, is_store};
    ghost use Rattle.gt_explore_moves.specs.Touches.{NoneTells, awaits_shut, may_meet, meets_task, of_task, tells_shut};
    ghost use Rattle.gt_explore_moves.specs.Touches.{next_move, reachable};

    // Returns what the domain at this position does next.
    fn next_move(&self, told: &[bool], place: usize, actor: &Actor<'a>) -> NextMove
        ensures { result ≡ next_move self.now told.now place actor.now }
    {
        if let Some(open) = actor.open {
            return NextMove::Makes(open.call.caller, open.step);
        }
        let Some(task) = self.task(place, actor.next) else {
            return NextMove::Free;
        };
        match &task.run_action {
            RunAction::Await(flag) if !is_set(told, *flag) => NextMove::Awaits(*flag),
            _ => NextMove::Free,
        }
    }

    // Counts the tasks in the list of the domain at this position.
    fn task_count(&self, place: usize) -> usize
        ensures { result ≡ length (tasks_at self.now place) }
    {
        if place < self.lists.len() {
            self.lists[place].len()
        } else {
            0
        }
    }

    // Returns whether the task at this index of a domain's list, if there is one, awaits one of these shut flags.
    fn awaits_at(&self, shut: &[bool], place: usize, at: usize) -> bool
        ensures { result ≡ of_task (awaits_shut shut.now) (slice_get (tasks_at self.now place) at) }
    {
        match self.task(place, at) {
            Some(task) => awaits_shut(shut, task),
            None => false,
        }
    }

    // Returns whether the task at this index of a domain's list, if there is one, raises one of these shut flags.
    fn tells_at(&self, shut: &[bool], place: usize, at: usize) -> bool
        ensures { result ≡ of_task (tells_shut shut.now) (slice_get (tasks_at self.now place) at) }
    {
        match self.task(place, at) {
            Some(task) => tells_shut(shut, task),
            None => false,
        }
    }

    // Returns whether a task of the domain at this position, from this index on, raises a shut flag before one awaits
    // a shut flag.
    fn tasks_tell(&self, shut: &[bool], place: usize, first: usize) -> bool
        ensures { result ≡ list_any (tells_shut shut.now) (reachable shut.now (drop first (tasks_at self.now place))) }
    {
        for at in first..self.task_count(place) {
            if self.awaits_at(shut, place, at) {
                return false;
            }
            if self.tells_at(shut, place, at) {
                return true;
            }
        }
        false
    }

    // Returns whether the task at this index of a domain's list, if there is one, loads through a mapping.
    fn loads_at(&self, place: usize, at: usize) -> bool
        ensures { result ≡ of_task is_load (slice_get (tasks_at self.now place) at) }
    {
        match self.task(place, at) {
            Some(task) => is_load(task),
            None => false,
        }
    }

    // Returns whether a task of the domain at this position, from this index on, loads through a mapping before one
    // awaits a shut flag.
    fn tasks_load(&self, shut: &[bool], place: usize, first: usize) -> bool
        ensures { result ≡ list_any is_load (reachable shut.now (drop first (tasks_at self.now place))) }
    {
        for at in first..self.task_count(place) {
            if self.awaits_at(shut, place, at) {
                return false;
            }
            if self.loads_at(place, at) {
                return true;
            }
        }
        false
    }

    // Returns whether the task at this index of a domain's list, if there is one, stores through a mapping.
    fn stores_at(&self, place: usize, at: usize) -> bool
        ensures { result ≡ of_task is_store (slice_get (tasks_at self.now place) at) }
    {
        match self.task(place, at) {
            Some(task) => is_store(task),
            None => false,
        }
    }

    // Returns whether a task of the domain at this position, from this index on, stores through a mapping before one
    // awaits a shut flag.
    fn tasks_store(&self, shut: &[bool], place: usize, first: usize) -> bool
        ensures { result ≡ list_any is_store (reachable shut.now (drop first (tasks_at self.now place))) }
    {
        for at in first..self.task_count(place) {
            if self.awaits_at(shut, place, at) {
                return false;
            }
            if self.stores_at(place, at) {
                return true;
            }
        }
        false
    }

    // Returns whether the task at this index of a domain's list, if there is one, may touch what a next move meets.
    fn meets_task_at(&self, uses: MappingUse, next: NextMove, place: usize, at: usize) -> bool
        ensures { result ≡ of_task (meets_task self.now.grants.items uses next) (slice_get (tasks_at self.now place) at) }
    {
        match self.task(place, at) {
            Some(task) => meets_task(self.grants.as_slice(), uses, next, task),
            None => false,
        }
    }

    // Returns whether a task of the domain at this position, from this index on, may touch what a next move meets before
    // one awaits a shut flag.
    fn tasks_may_meet(
        &self,
        uses: MappingUse,
        next: NextMove,
        shut: &[bool],
        place: usize,
        first: usize,
    ) -> bool
        ensures { result ≡ list_any (meets_task self.now.grants.items uses next)
            (reachable shut.now (drop first (tasks_at self.now place))) }
    {
        for at in first..self.task_count(place) {
            if self.awaits_at(shut, place, at) {
                return false;
            }
            if self.meets_task_at(uses, next, place, at) {
                return true;
            }
        }
        false
    }

    // Returns whether the domain at this position may touch what a next move meets, before it awaits a shut flag.
    fn may_meet(&self, next: NextMove, shut: &[bool], place: usize, actor: &Actor<'a>) -> bool
        ensures { result ≡ may_meet next self.now shut.now place actor.now }
    {
        let first = first_left(actor);
        let uses = MappingUse {
            loads: self.tasks_load(shut, place, first),
            stores: self.tasks_store(shut, place, first),
        };
        any_mapping_meets(uses, next, actor.mappings.as_slice())
            || self.tasks_may_meet(uses, next, shut, place, first)
    }

    // Returns a domain outside the set that may touch what this next move meets, before it awaits a shut flag.
    fn who_meets(
        &self,
        world: &SearchState<'a>,
        inside: &[bool],
        shut: &[bool],
        next: NextMove,
    ) -> Option<usize>
        ensures { IfNone result
            (NoneMeets self.now world.now inside.now shut.now next (length world.now.actors.items)) }
    {
        for (place, actor) in world.actors.as_slice().iter().enumerate() {
            if !is_set(inside, place) && self.may_meet(next, shut, place, actor) {
                return Some(place);
            }
        }
        None
    }

    // Returns a domain outside the set that may disturb a next move of one inside, before it awaits a shut flag.
    fn who_disturbs(&self, world: &SearchState<'a>, inside: &[bool], shut: &[bool]) -> Option<usize>
        ensures { IfNone result (AreUndisturbed self.now world.now inside.now shut.now) }
    {
        let told = world.told.as_slice();
        for (place, actor) in world.actors.as_slice().iter().enumerate() {
            if is_set(inside, place) {
                let next = self.next_move(told, place, actor);
                if let Some(other) = self.who_meets(world, inside, shut, next) {
                    return Some(other);
                }
            }
        }
        None
    }

    // Returns whether no domain outside the set raises a shut flag before it awaits one.
    fn none_tells(&self, world: &SearchState<'a>, inside: &[bool], shut: &[bool]) -> bool
        ensures { IsTrue result → NoneTells self.now world.now inside.now shut.now (length world.now.actors.items) }
    {
        for (place, actor) in world.actors.as_slice().iter().enumerate() {
            if !is_set(inside, place) && self.tasks_tell(shut, place, first_left(actor)) {
                return false;
            }
        }
        true
    }

    // Returns whether these flags stay shut until a domain of the set moves: none of them is raised, and no domain
    // outside raises one before it awaits one.
    fn stay_shut(&self, world: &SearchState<'a>, inside: &[bool], shut: &[bool]) -> bool
        ensures { IsTrue result → StayShut self.now world.now inside.now shut.now }
    {
        share_none(shut, world.told.as_slice()) && self.none_tells(world, inside, shut)
    }

    // Returns whether some domain of the set is not at its end.
    fn some_goes_on(&self, world: &SearchState<'a>, inside: &[bool]) -> bool
        ensures { IsTrue result → SomeGoesOn self.now world.now inside.now }
    {
        for (place, actor) in world.actors.as_slice().iter().enumerate() {
            if is_set(inside, place) && !self.is_done(place, actor) {
                return true;
            }
        }
        false
    }

    // Returns whether the moves of a set need no alternative: these flags stay shut until one of them moves, some domain
    // of it is not at its end, and none outside can disturb one inside before it awaits a shut flag.
    pub(super) fn goes_alone(&self, world: &SearchState<'a>, inside: &[bool], shut: &[bool]) -> bool
        ensures shut { IsTrue result → StayShut self.now world.now inside.now shut.now }
        ensures undisturbed { IsTrue result → AreUndisturbed self.now world.now inside.now shut.now }
        ensures some { IsTrue result → SomeGoesOn self.now world.now inside.now }
    {
        self.stay_shut(world, inside, shut)
            && self.some_goes_on(world, inside)
            && self.who_disturbs(world, inside, shut).is_none()
    }

    // Opens each flag that the domain at this position can raise before it awaits a shut one. Returns whether there was
    // one.
    fn open_flags_of(&self, shut: &mut Vec<bool>, place: usize, first: usize) -> bool {
        let mut some = false;
        for at in first..self.task_count(place) {
            if self.awaits_at(shut.as_slice(), place, at) {
                return some;
            }
            if self.tells_at(shut.as_slice(), place, at) {
                self.open_flag(shut, place, at);
                some = true;
            }
        }
        some
    }

    // Opens each flag that a domain outside the set can raise before it awaits a shut one. Returns whether there was
    // one.
    fn open_flags(&self, world: &SearchState<'a>, inside: &[bool], shut: &mut Vec<bool>) -> bool {
        let mut some = false;
        for (place, actor) in world.actors.as_slice().iter().enumerate() {
            if !is_set(inside, place) && self.open_flags_of(shut, place, first_left(actor)) {
                some = true;
            }
        }
        some
    }

    // Returns those of the unraised flags that stay shut until a domain of the set moves.
    fn shut_by(
        &self,
        world: &SearchState<'a>,
        inside: &[bool],
        unraised: &[bool],
    ) -> Result<Vec<bool>, AllocError> {
        let mut shut = Vec::from_slice(self.alloc, unraised)?;
        for _round in 0..shut.len() {
            if !self.open_flags(world, inside, &mut shut) {
                return Ok(shut);
            }
        }
        Ok(shut)
    }

    // Opens the flag that the task at this index of a domain's list raises.
    fn open_flag(&self, shut: &mut Vec<bool>, place: usize, at: usize) {
        let Some(task) = self.task(place, at) else {
            return;
        };
        let RunAction::Tell(flag) = &task.run_action else {
            return;
        };
        if let Some(is_shut) = shut.get_mut(*flag) {
            *is_shut = false;
        }
    }

    // Returns the set that grows from this domain, if it has fewer than `most` domains: each domain that may disturb one
    // inside comes in.
    fn set_from(
        &self,
        world: &SearchState<'a>,
        place: usize,
        most: usize,
        unraised: &[bool],
    ) -> Result<Option<LoneSet>, AllocError> {
        let mut inside = vec![in self.alloc; false; world.actors.len()]?;
        put_in(&mut inside, place);
        for _size in 1..most {
            let shut = self.shut_by(world, inside.as_slice(), unraised)?;
            match self.who_disturbs(world, inside.as_slice(), shut.as_slice()) {
                Some(other) => put_in(&mut inside, other),
                None => return Ok(Some(LoneSet { inside, shut })),
            }
        }
        Ok(None)
    }

    // Returns whether the domain at this position can move.
    fn can_move(&self, told: &[bool], place: usize, actor: &Actor<'a>) -> bool {
        !self.is_done(place, actor)
            && !matches!(self.next_move(told, place, actor), NextMove::Awaits(_))
    }

    // Returns the domain from which the next set grows: of those that can move and were not tried, one with an open call,
    // if there is one, and of these the one with the fewest tasks left.
    fn next_seed(&self, world: &SearchState<'a>, tried: &[bool]) -> Option<usize> {
        let told = world.told.as_slice();
        let mut best: Option<SetSeed> = None;
        for (place, actor) in world.actors.as_slice().iter().enumerate() {
            if !is_set(tried, place) && self.can_move(told, place, actor) {
                let seed = SetSeed {
                    place,
                    is_at_rest: actor.open.is_none(),
                    left: self.task_count(place).saturating_sub(first_left(actor)),
                };
                if seed.is_before(best) {
                    best = Some(seed);
                }
            }
        }
        match best {
            Some(seed) => Some(seed.place),
            None => None,
        }
    }

    // Returns the smallest of the sets that grow from a domain that can move. Of two with the same size it is the one
    // that grew from the earlier seed: a domain whose call is open moves on before another one begins a call, and one
    // that is near its end before one that has more to do.
    pub(super) fn smallest_set(&self, world: &SearchState<'a>) -> Result<LoneSet, AllocError> {
        let mut unraised = Vec::from_slice(self.alloc, world.told.as_slice())?;
        for is_unraised in unraised.iter_mut() {
            *is_unraised = !*is_unraised;
        }
        let mut smallest = LoneSet {
            inside: Vec::new(self.alloc),
            shut: Vec::new(self.alloc),
        };
        let mut tried = vec![in self.alloc; false; world.actors.len()]?;
        let mut most = world.actors.len().saturating_add(1);
        for _round in 0..world.actors.len() {
            let Some(place) = self.next_seed(world, tried.as_slice()) else {
                return Ok(smallest);
            };
            put_in(&mut tried, place);
            if let Some(grown) = self.set_from(world, place, most, unraised.as_slice())? {
                most = size_of(grown.inside.as_slice());
                smallest = grown;
            }
            if most <= 1 {
                return Ok(smallest);
            }
        }
        Ok(smallest)
    }
}

// Counts the domains of a set.
fn size_of(inside: &[bool]) -> usize {
    let mut count: usize = 0;
    for is_inside in inside {
        if *is_inside {
            count = count.saturating_add(1);
        }
    }
    count
}

// Puts the domain at this position into a set.
fn put_in(inside: &mut Vec<bool>, place: usize) {
    if let Some(is_inside) = inside.get_mut(place) {
        *is_inside = true;
    }
}
