//! The words of a command line.
use crate::stops::Stop;

/// Returns the word at this position, or `other` if there are fewer.
pub(crate) fn word_at<'w>(words: &'w [String], place: usize, other: &'w str) -> &'w str {
    match words.get(place) {
        Some(word) => word.as_str(),
        None => other,
    }
}

/// Returns the number at this position, or that of `other` if there are fewer words.
pub(crate) fn number_at(words: &[String], place: usize, other: &str) -> Result<u32, Stop> {
    match word_at(words, place, other).parse::<u32>() {
        Ok(number) => Ok(number),
        Err(_) => Err(Stop::Number),
    }
}
