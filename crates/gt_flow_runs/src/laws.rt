//! Laws about the texts of scripts. Each law is a function with an empty body, whose contract is the law.
ghost use Rattle.gt_flow_runs.specs.Secrets.{OthersAreAlike, PrintedTextsHaveOthers, RunTextsHaveOthers};
ghost use Rattle.gt_flow_runs.specs.Secrets.{TextsHaveOthers};

use gt_linearization::{given_texts_are_printed, printed_texts_are_given};

/// Proves that for each text that a script may give, a script that is the same except for the bytes that high domains
/// store and poke may give one in which each line of a low domain is the same.
pub fn each_text_has_others()
    ensures { TextsHaveOthers }
{}

/// Proves that of two scripts that are the same except for the bytes that high domains store and poke each is so by the
/// other. So each law of one holds of the other: low domains may get the same lines in both.
pub fn others_are_alike()
    ensures { OthersAreAlike }
{}

/// Proves the same of the texts that a run prints. For each text of a run that has neither a line of N26 nor the line of
/// a gate, a run of the other script may print one in which each line of a low domain is the same. At a gate that
/// refuses no flag, only lines of N26 are left out.
pub fn each_printed_text_has_others()
    ensures { PrintedTextsHaveOthers }
{
    printed_texts_are_given();
    given_texts_are_printed();
}

/// Proves the same of all texts that a run prints, with lines of N26 and of gates. For each text of a run, a run of the
/// other script may print one in which each line of a low domain is the same, and each line of a high domain is the
/// same except for bytes that it read. No two domains of the script have the same number.
pub fn each_run_text_has_others()
    ensures { RunTextsHaveOthers }
{}
