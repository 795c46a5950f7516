//! Laws of journals.
ghost use Rattle.std.specs.Prelude.{◌≡◌, List, ◌∷◌, ◌++◌};
ghost use Rattle.gt_model.specs.Written.{written};
ghost use Rattle.gt_frames.specs.Covering.{IsCovered, LieInside, StandFor};
ghost use Rattle.gt_frames.specs.Frames.{patches};
ghost use Rattle.gt_frames.specs.declared.writ.WriteRecord.{WriteRecord};

/// Proves that a record whose bytes were all written again later shows no byte: the journal without it has the same
/// replay.
pub fn a_covered_record_shows_no_byte()
    ensures { (before later : List WriteRecord) (r : WriteRecord) → LieInside (before ++ r ∷ later) → IsCovered r later
        → written (patches (before ++ r ∷ later)) ≡ written (patches (before ++ later)) }
{}

/// Proves that a frame needs no more records than it has bytes, however many writes were made: some of the
/// journal's, at most 4,096, have its replay and give for each byte the same last writ.
pub fn as_many_records_as_bytes_are_enough()
    ensures { (journal : List WriteRecord) → LieInside journal → (ks : List WriteRecord) × StandFor journal ks }
{}
