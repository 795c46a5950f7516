//! Laws about the counts of a column. Each is a function that does nothing; its contract is the law.
ghost use Rattle.std.specs.Prelude.{ℕ, List};
ghost use Rattle.gt_explore_summary.specs.Counts.{AreItsLines, different_lines};

/// A law: each line of a column is one of those that are counted, and their counts sum up to the number of its texts.
pub fn the_counts_of_a_line_are_of_all_texts()
    ensures { (column : List (List ℕ)) → AreItsLines column (different_lines column) }
{}
