//! Two counters as a space.
ghost use Rattle.std.specs.Prelude.{ℕ, List, IfOk};
ghost use Rattle.gt_explore_search.specs.Parts.{Pairwise};
ghost use Rattle.gt_explore_search.specs.Ways.{IsShownSo};
ghost use Rattle.test_explore_search.specs.Counters.{counters_parts, counters_ways};
ghost use Rattle.test_explore_search.specs.declared.counters.Tally.{Tally};

use gt_explore_search::{SearchFault, TransitionSystem, Turn, TurnResult};
use std::alloc::{AllocError, Global};

/// Two counters that count up to a limit.
#[derive(Drop)]
pub struct Counters {
    pub alloc: Global,
    pub limit: u8,
}

/// The values of both, and a state of the space.
#[derive(Drop)]
pub struct Tally {
    pub first: u8,
    pub second: u8,
}

impl TransitionSystem for Counters {
    type State = Tally;

    type Part = u8;

    ghost ways = { counters_ways };

    ghost parts = { counters_parts };

    fn domains(&self) -> usize {
        2
    }

    fn start(&self) -> Result<Tally, SearchFault> {
        Ok(Tally {
            first: 0,
            second: 0,
        })
    }

    fn turns(&self, _state: &Tally) -> Result<Vec<Turn>, SearchFault> {
        let mut turns = Vec::new(self.alloc);
        turns.push(Turn {
            place: 0,
            choice: 0,
        })?;
        turns.push(Turn {
            place: 1,
            choice: 0,
        })?;
        Ok(turns)
    }

    fn advance(&self, state: &mut Tally, turn: Turn) -> Result<TurnResult, SearchFault> {
        if turn.place == 0 && state.first < self.limit {
            let mut line = Vec::new(self.alloc);
            line.push(state.second)?;
            state.first += 1;
            return Ok(TurnResult::Answered(line));
        }
        if turn.place == 1 && state.second < self.limit {
            state.second += 1;
            return Ok(TurnResult::On);
        }
        Ok(TurnResult::Nowhere)
    }

    fn is_finished(&self, state: &Tally) -> bool {
        state.first == self.limit && state.second == self.limit
    }

    fn alike(&self) {}

    fn is_past(&self, _state: &Tally, at: usize) -> bool {
        at >= 2
    }

    fn has_part(&self, state: &Tally, at: usize, part: &u8) -> bool {
        match at {
            0 => state.first == *part,
            1 => state.second == *part,
            _ => false,
        }
    }

    fn copy_part(&self, state: &Tally, at: usize) -> Result<u8, SearchFault> {
        match at {
            0 => Ok(state.first),
            1 => Ok(state.second),
            _ => Err(SearchFault::States),
        }
    }

    fn digest(&self, state: &Tally, at: usize) -> u64 {
        u64::from(if at == 0 { state.first } else { state.second } % 2)
    }

    fn join(&self, made: Vec<u8>) -> Result<Tally, AllocError>
        ensures { (w : Tally) → Pairwise (counters_parts self.now).same ((counters_parts self.now).of w) made.items →
            IfOk result (IsShownSo (counters_ways self.now) w) }
    {
        let first = made.get(0).copied().unwrap_or(0);
        let second = made.get(1).copied().unwrap_or(0);
        Ok(Tally { first, second })
    }

    fn copy(&self, part: &u8) -> Result<u8, AllocError> {
        Ok(*part)
    }
}
