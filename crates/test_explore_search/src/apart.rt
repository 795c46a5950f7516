//! Two independent counters, as a space with fewer turns.
ghost use Rattle.std.specs.Prelude.{ℕ, List, IfOk};
ghost use Rattle.gt_explore_search.specs.Parts.{Pairwise};
ghost use Rattle.gt_explore_search.specs.Ways.{IsShownSo};
ghost use Rattle.test_explore_search.specs.Apart.{apart_parts, apart_ways};
ghost use Rattle.test_explore_search.specs.declared.apart.Place.{Place};

use gt_explore_search::{SearchFault, TransitionSystem, Turn, TurnResult};
use std::alloc::{AllocError, Global};

/// Two counters that count up to a limit, and print their values.
#[derive(Drop)]
pub struct Apart {
    pub alloc: Global,
    pub limit: u8,
}

/// The values of both, and a state of the space.
#[derive(Drop)]
pub struct Place {
    pub first: u8,
    pub second: u8,
}

impl TransitionSystem for Apart {
    type State = Place;

    type Part = u8;

    ghost ways = { apart_ways };

    ghost parts = { apart_parts };

    fn domains(&self) -> usize {
        2
    }

    fn start(&self) -> Result<Place, SearchFault> {
        Ok(Place {
            first: 0,
            second: 0,
        })
    }

    fn turns(&self, state: &Place) -> Result<Vec<Turn>, SearchFault> {
        let mut turns = Vec::new(self.alloc);
        if state.first < self.limit {
            turns.push(Turn {
                place: 0,
                choice: 0,
            })?;
        } else {
            turns.push(Turn {
                place: 1,
                choice: 0,
            })?;
        }
        Ok(turns)
    }

    fn advance(&self, state: &mut Place, turn: Turn) -> Result<TurnResult, SearchFault> {
        if turn.place == 0 && state.first < self.limit {
            let mut line = Vec::new(self.alloc);
            line.push(state.first)?;
            state.first += 1;
            return Ok(TurnResult::Answered(line));
        }
        if turn.place == 1 && state.second < self.limit {
            let mut line = Vec::new(self.alloc);
            line.push(state.second)?;
            state.second += 1;
            return Ok(TurnResult::Answered(line));
        }
        Ok(TurnResult::Nowhere)
    }

    fn is_finished(&self, state: &Place) -> bool {
        state.first == self.limit && state.second == self.limit
    }

    fn alike(&self) {}

    fn is_past(&self, _state: &Place, at: usize) -> bool {
        at >= 2
    }

    fn has_part(&self, state: &Place, at: usize, part: &u8) -> bool {
        match at {
            0 => state.first == *part,
            1 => state.second == *part,
            _ => false,
        }
    }

    fn copy_part(&self, state: &Place, at: usize) -> Result<u8, SearchFault> {
        match at {
            0 => Ok(state.first),
            1 => Ok(state.second),
            _ => Err(SearchFault::States),
        }
    }

    fn digest(&self, state: &Place, at: usize) -> u64 {
        u64::from(if at == 0 { state.first } else { state.second } % 2)
    }

    fn join(&self, made: Vec<u8>) -> Result<Place, AllocError>
        ensures { (w : Place) → Pairwise (apart_parts self.now).same ((apart_parts self.now).of w) made.items →
            IfOk result (IsShownSo (apart_ways self.now) w) }
    {
        let first = made.get(0).copied().unwrap_or(0);
        let second = made.get(1).copied().unwrap_or(0);
        Ok(Place { first, second })
    }

    fn copy(&self, part: &u8) -> Result<u8, AllocError> {
        Ok(*part)
    }
}
