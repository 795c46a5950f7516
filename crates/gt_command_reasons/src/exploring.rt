//! The reasons for which a script was not explored.
use crate::copying::KeptInput;
use crate::scripts::fault_reason;
use gt_explore_choices::ChoicesFault;
use gt_explore_faults::{ClaimsFault, ExploreFault, TextsFault};
use gt_fault_reasons::push_read_reason;
use gt_state_claims::StateClaimFault;
use std::alloc::{AllocError, Global};

// Returns a reason of these words.
fn words_reason(alloc: Global, file: &str, words: &str) -> Result<Vec<u8>, AllocError> {
    let mut said = Vec::new(alloc);
    push_read_reason(&mut said, file, words.as_bytes())?;
    Ok(said)
}

// Returns the reason for which a script was not explored, or nothing if memory ran out.
fn explore_reason(
    alloc: Global,
    file: &str,
    is_line: bool,
    input: &KeptInput,
    fault: &ExploreFault,
) -> Result<Vec<u8>, AllocError> {
    match fault {
        ExploreFault::Play(fault) => fault_reason(alloc, file, is_line, input, fault),
        ExploreFault::Number => words_reason(alloc, file, "no output has this number"),
        ExploreFault::Unfound => {
            let words = "none of the outputs found has this number; raise --states";
            words_reason(alloc, file, words)
        }
        ExploreFault::Texts(TextsFault::States) => {
            let words = "the search met more states or answers than it can number";
            words_reason(alloc, file, words)
        }
        ExploreFault::Texts(TextsFault::Astray) => {
            words_reason(
                alloc,
                file,
                "a witness went astray, which is a bug of gthost",
            )
        }
        ExploreFault::Term { .. } | ExploreFault::Text { .. } => {
            let words = format!(in alloc; "{fault}")?;
            words_reason(alloc, file, words.as_str())
        }
        ExploreFault::Texts(TextsFault::Memory) => Ok(Vec::new(alloc)),
    }
}

/// Returns the reason for which the races of a script were not sought, or nothing if memory ran out.
pub(crate) fn race_reason(
    alloc: Global,
    file: &str,
    is_line: bool,
    input: &KeptInput,
    fault: &ExploreFault,
) -> Result<Vec<u8>, AllocError> {
    match fault {
        ExploreFault::Number => words_reason(alloc, file, "no race has this number"),
        ExploreFault::Unfound => {
            let words = "none of the races found has this number; raise --states";
            words_reason(alloc, file, words)
        }
        _ => explore_reason(alloc, file, is_line, input, fault),
    }
}

/// Returns the reason for which a script with claims was not explored, or nothing if memory ran out.
pub(crate) fn claims_reason(
    alloc: Global,
    file: &str,
    is_line: bool,
    input: &KeptInput,
    fault: &ClaimsFault,
) -> Result<Vec<u8>, AllocError> {
    match fault {
        ClaimsFault::Explore(fault) => explore_reason(alloc, file, is_line, input, fault),
        ClaimsFault::Kind(_)
        | ClaimsFault::Term { .. }
        | ClaimsFault::Repeated { .. }
        | ClaimsFault::Precedence(_) => {
            let words = format!(in alloc; "{fault}")?;
            words_reason(alloc, file, words.as_str())
        }
        ClaimsFault::Astray => {
            let words = "an expression went astray, which is a bug of gthost";
            words_reason(alloc, file, words)
        }
    }
}

/// Returns the reason for which the choices of a script were not explored, or nothing if memory ran out.
pub(crate) fn choices_reason(
    alloc: Global,
    file: &str,
    fault: ChoicesFault,
) -> Result<Vec<u8>, AllocError> {
    if fault == ChoicesFault::Memory {
        return Ok(Vec::new(alloc));
    }
    let words = format!(in alloc; "{fault}")?;
    words_reason(alloc, file, words.as_str())
}

/// Returns the reason for which a claim about the states of a script was not decided, or nothing if memory ran out.
pub(crate) fn state_reason(
    alloc: Global,
    file: &str,
    fault: StateClaimFault,
) -> Result<Vec<u8>, AllocError> {
    if fault == StateClaimFault::Memory {
        return Ok(Vec::new(alloc));
    }
    let words = format!(in alloc; "{fault}")?;
    words_reason(alloc, file, words.as_str())
}
