//! The reasons of faults of scripts, and of what the policy refused in one.
use crate::collecting::push_unread;
use crate::copying::KeptInput;
use gt_fault_reasons::{push_refusals, push_script_reason};
use gt_host::play;
use gt_policy_reasons::push_block_reason;
use gt_script_runs::PlayFault;
use std::alloc::{AllocError, Global};

/// Returns the reason for which the script that was read was refused.
pub(crate) fn fault_reason(
    alloc: Global,
    file: &str,
    is_line: bool,
    input: &KeptInput,
    fault: &PlayFault,
) -> Result<Vec<u8>, AllocError> {
    let mut said = Vec::new(alloc);
    let Some(bytes) = input.bytes() else {
        return Ok(said);
    };
    match fault {
        PlayFault::Script(fault) => push_script_reason(alloc, &mut said, file, bytes, fault)?,
        PlayFault::Policy(fault) => push_block_reason(alloc, &mut said, file, bytes, fault)?,
        PlayFault::Read => push_unread(&mut said, file, is_line, input.fault())?,
        PlayFault::Memory | PlayFault::Write => {}
    }
    Ok(said)
}

/// Returns the near misses of what the policy refused when the script that was read was played. It is played again,
/// since a play of a script always has the same output.
pub(crate) fn play_refusals(
    alloc: Global,
    file: &str,
    input: &KeptInput,
) -> Result<Vec<u8>, AllocError> {
    let mut said = Vec::new(alloc);
    let mut text = Vec::new(alloc);
    if let Some(bytes) = input.bytes() {
        let mut reader = bytes;
        if play(alloc, &mut reader, &mut text, false).is_ok() {
            push_refusals(alloc, &mut said, file, bytes, text.as_slice())?;
        }
    }
    Ok(said)
}

/// Returns the near misses of what the policy refused when the script that was read was run, and wrote this text.
pub(crate) fn run_refusals(
    alloc: Global,
    file: &str,
    input: &KeptInput,
    text: &[u8],
) -> Result<Vec<u8>, AllocError> {
    let mut said = Vec::new(alloc);
    if let Some(bytes) = input.bytes() {
        push_refusals(alloc, &mut said, file, bytes, text)?;
    }
    Ok(said)
}
