//! Laws about the texts of a script with precedences. Each law is a function with an empty body, whose contract is the
//! law.
ghost use Rattle.gt_precedence.specs.Precedence.{EachCallHasPlaces, ParsedScriptsAreOrderly, PlacesAreUnique};
ghost use Rattle.gt_precedence.specs.Precedence.{PrecedenceIsComplete, PrecedenceIsSound};
ghost use Rattle.gt_precedence.specs.Precedence.{PrecedencesAreComplete, PrecedencesAreSound};

/// Proves that the texts of a script with the flag of a precedence are those of the orders in which the call of the
/// first line has its answer before that of the second begins: no more, and no fewer.
pub fn one_precedence_is_exact()
    ensures sound { PrecedenceIsSound }
    ensures complete { PrecedenceIsComplete }
{}

/// Proves the same of several precedences: the texts of a script with their flags are those of the orders in which
/// each of them holds.
pub fn all_precedences_are_exact()
    ensures sound { PrecedencesAreSound }
    ensures complete { PrecedencesAreComplete }
{}

/// Proves that the places by which precedence is defined are those of the line's call. In each order each call begins
/// at one place and has its answer at one, there or later. It asks what its line asks, and its answer is on its line
/// of the text.
pub fn each_call_has_its_places()
    ensures places { EachCallHasPlaces }
    ensures unique { PlacesAreUnique }
{}

/// Proves that each script that `parse_run` returns is orderly, as the other laws of this crate ask: no two of its
/// calls are on the same line, each flag has a number below that of its flags, and each task is one of a domain of the
/// script.
pub fn parsed_scripts_are_orderly()
    ensures { ParsedScriptsAreOrderly }
{}
