//! Blocks: longest sequences of turns of one domain.
ghost use Rattle.std.specs.Prelude.{◌≡◌, ◌<◌, ◌≤◌, None, IfSome};
ghost use Rattle.gt_explore_changes.specs.Blocks.{blocks_in, blocks_with, is_last};

use gt_explore_search::Turn;

/// Returns whether the last turn was of the domain at this position.
pub fn is_last(last: Option<usize>, place: usize) -> bool
    ensures { result ≡ is_last last place }
{
    match last {
        Some(other) => other == place,
        None => false,
    }
}

/// Returns the number of blocks after one more turn, of the domain at this position, unless it is above `most`.
pub fn blocks_within(most: usize, last: Option<usize>, blocks: usize, place: usize) -> Option<usize>
    ensures some { IfSome result (λ n. n ≡ blocks_with last blocks place) }
    ensures few { IfSome result (λ n. n ≤ most) }
    ensures none { result ≡ None → most < blocks_with last blocks place }
{
    if is_last(last, place) {
        return if blocks <= most { Some(blocks) } else { None };
    }
    if blocks < most {
        Some(blocks + 1)
    } else {
        None
    }
}

/// Returns the number of blocks of these turns.
pub fn blocks_in(turns: &[Turn]) -> usize
    ensures { result ≡ blocks_in turns.now }
{
    let mut last = None;
    let mut blocks = 0;
    for (at, turn) in turns.iter().enumerate() {
        if !is_last(last, turn.place) {
            blocks += 1;
            last = Some(turn.place);
        }
    }
    blocks
}
