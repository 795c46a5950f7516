//! Notes: what a search keeps of an order, as bytes. A letter of its text is 0 and the letter. The mark of a precedence
//! that holds is 1 and its number.
ghost use Rattle.std.specs.Prelude.{◌≡◌, ◌++◌, ◌<◌, ℕ, IfOk, IsTrue, OnOk, Some, length, slice_get};
ghost use Rattle.gt_explore_ordered.specs.Notes.{bytes_of_letters, bytes_of_notes, has_mark, letters_in, mark_if};

use gt_explore_search::SearchFault;
use std::alloc::{AllocError, Global};

/// Appends the letters of a line.
pub fn push_letters(bytes: &mut Vec<u8>, line: &[u8]) -> Result<(), AllocError>
    ensures { OnOk result (bytes.new.items ≡ bytes.old.items ++ bytes_of_letters line.now) }
{
    'line: for letter in line {
        bytes.push(0)?;
        bytes.push(*letter)?;
    }
    Ok(())
}

/// Appends the mark of the precedence with this number, if it holds.
///
/// # Errors
/// `States` if the number does not fit a byte, and `Memory`.
pub fn push_mark(bytes: &mut Vec<u8>, number: usize, holds: bool) -> Result<(), SearchFault>
    ensures { OnOk result (bytes.new.items ≡ bytes.old.items ++ bytes_of_notes (mark_if holds number)) }
{
    if !holds {
        return Ok(());
    }
    if number >= 256 {
        return Err(SearchFault::States);
    }
    bytes.push(1)?;
    bytes.push(number as u8)?;
    Ok(())
}

/// Returns the text whose letters these notes have.
pub fn letters_in(alloc: Global, bytes: &[u8]) -> Result<Vec<u8>, AllocError>
    ensures { IfOk result (λ text. text.items ≡ letters_in None bytes.now) }
{
    let mut text = Vec::new(alloc);
    let mut kind = None;
    'bytes: for byte in bytes {
        match kind {
            None => kind = Some(*byte),
            Some(0) => {
                text.push(*byte)?;
                kind = None;
            }
            Some(_) => kind = None,
        }
    }
    Ok(text)
}

// Returns whether these notes have the mark of this number.
fn has_mark(bytes: &[u8], number: usize) -> bool
    ensures { result ≡ has_mark number None bytes.now }
{
    let mut kind = None;
    'bytes: for byte in bytes {
        match kind {
            None => kind = Some(*byte),
            Some(0) => kind = None,
            Some(_) => {
                if *byte as usize == number {
                    return true;
                }
                kind = None;
            }
        }
    }
    false
}

/// Returns whether these notes have exactly the marks of the precedences that hold.
pub fn has_marks(bytes: &[u8], held: &[bool]) -> bool
    ensures { IsTrue result → (k : ℕ) → k < length held.now → slice_get held.now k ≡ Some (has_mark k None bytes.now) }
{
    for (number, holds) in held.iter().enumerate() {
        if has_mark(bytes, number) != *holds {
            return false;
        }
    }
    true
}
