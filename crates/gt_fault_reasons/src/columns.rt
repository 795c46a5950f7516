//! The columns of the words of a line.

/// Returns the column at which a word of a line begins, in bytes, counted from 1. The words are numbered from 0. If
/// there is no such word, it is the column after the last word.
pub fn column_of(line: &[u8], number: usize) -> usize {
    let mut seen: usize = 0;
    let mut end: usize = 0;
    let mut is_in_word = false;
    for (at, byte) in line.iter().enumerate() {
        if *byte == b'#' {
            break;
        }
        let is_blank = *byte == b' ' || *byte == b'\t';
        if !is_blank {
            if !is_in_word {
                if seen == number {
                    return at.saturating_add(1);
                }
                seen = seen.saturating_add(1);
            }
            end = at.saturating_add(1);
        }
        is_in_word = !is_blank;
    }
    end.saturating_add(1)
}
