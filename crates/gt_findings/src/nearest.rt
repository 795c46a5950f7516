//! Names that a misspelt one may be meant as.
use gt_text::text_of;
use std::alloc::{AllocError, Global};
use strsim::osa_distance;

/// The maximum distance of a misspelt name from the one that is meant, in letters.
const MOST_SLIPS: usize = 2;

// Counts the letters by which two names differ. Returns a greater number than `MOST_SLIPS` if they are equal or differ
// too much.
fn slips(alloc: Global, word: &str, name: &str) -> Result<usize, AllocError> {
    if word.len() > name.len().saturating_add(MOST_SLIPS) {
        return Ok(usize::MAX);
    }
    if name.len() > word.len().saturating_add(MOST_SLIPS) {
        return Ok(usize::MAX);
    }
    let distance = osa_distance(alloc, word, name)?;
    if distance == 0 || distance >= word.len() {
        return Ok(usize::MAX);
    }
    Ok(distance)
}

/// Returns the first of the nearest names, among those that differ by one letter or two.
pub fn nearest_name<'a>(
    alloc: Global,
    word: &str,
    names: &[&'a str],
) -> Result<Option<&'a str>, AllocError> {
    let mut best: Option<&'a str> = None;
    let mut least = MOST_SLIPS + 1;
    for name in names {
        let distance = slips(alloc, word, name)?;
        if distance < least {
            best = Some(*name);
            least = distance;
        }
    }
    Ok(best)
}
