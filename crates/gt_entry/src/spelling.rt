//! Entries as words, and the laws about them.
ghost use Rattle.std.specs.Prelude.{◌≡◌, ◌<◌, ◌+◌, ◌*◌, ◌^◌, ℕ};
ghost use Rattle.gt_model.specs.declared.entry.Entry.{Entry};
ghost use Rattle.gt_model.specs.declared.control.Control.{Control};
ghost use Rattle.gt_model.specs.declared.header.Header.{Header};
ghost use Rattle.gt_model.specs.Words.{IsInRange, control_word, control_of, header_word, header_of, word_with, kind_of};
ghost use Rattle.gt_model.specs.Entries.{IsEntry};
ghost use Rattle.gt_model.specs.Spelling.{first_body, second_body, entry_of, IsSpelled, word_of, control_with};
ghost use Rattle.gt_entry.specs.Laws.{SamePartsOf, PartsOf};

use crate::{Control, Entry, EntryKind};
use gt_types::{DomId, GrantRef};

/// Proves that each control in range is read back unchanged from its word.
pub fn every_control_is_in_its_word()
    ensures { (c : Control) → IsInRange c → c.dom.0 < 65536 → control_of (control_word c) ≡ c }
{}

/// Proves that each header with a version below 4 is read back unchanged from its word.
pub fn every_header_is_in_its_word()
    ensures { (h : Header) → h.version < 4 → h.frames < 256 → header_of (header_word h) ≡ h }
{}

/// Proves that two control words are equal only part by part.
pub fn every_word_has_its_own_parts()
    ensures { (l d g r w l' d' g' r' w' : ℕ) → l < 16 → l' < 16 → r < 4096 → r' < 4096 → w < 4096
        → w' < 4096 → d < 65536 → d' < 65536 → word_with l d g r w ≡ word_with l' d' g' r' w'
        → SamePartsOf l d g r w l' d' g' r' w' }
{}

/// Proves that the parts of a control word are read from it by division.
pub fn every_part_is_in_its_word()
    ensures { (l d g r w : ℕ) → l < 16 → d < 65536 → r < 4096 → w < 4096
        → PartsOf (word_with l d g r w) l d g r w }
{}

/// Proves that the word of an entry's control is one sum of the entry's parts.
pub fn every_entry_has_its_word()
    ensures { (e : Entry) (generation reads writes : ℕ)
        → control_word (control_with e generation reads writes) ≡ word_of e generation reads writes }
{}

/// Proves that an entry is read back from its words: its own body words encode it, and any words that encode it are
/// read as this entry.
pub fn every_entry_is_in_its_words()
    ensures own { (e : Entry) → IsSpelled e (first_body e) (second_body e) }
    ensures read { (e : Entry) (generation reads writes first second : ℕ) → IsEntry e → IsSpelled e first second
        → entry_of (control_with e generation reads writes) first second ≡ e }
{}
