//! The reasons for which a question about flows was not answered.
use crate::collecting::{listing_reason, push_no_type};
use crate::copying::KeptInput;
use gt_fault_reasons::{policy_block, push_read_reason};
use gt_policy_list::ListingFault;
use gt_policy_questions::FlowQuestion;
use gt_policy_reasons::{FlowFault, push_policy_reason};
use gt_text::text_of;
use std::alloc::{AllocError, Global};

// Returns the policy block of the script that was read, if the question was about that of a script.
fn block_asked(alloc: Global, script: bool, bytes: &[u8]) -> Result<Option<String>, AllocError> {
    match text_of(bytes) {
        Ok(text) if script => policy_block(alloc, text),
        _ => Ok(None),
    }
}

// Returns the trusted name at this place of the question.
fn trusted_name<'q>(question: &FlowQuestion<'q>, place: usize) -> Option<&'q str> {
    for (i, name) in question.trusted?.split(',').enumerate() {
        if i == place {
            return Some(name);
        }
    }
    None
}

/// Returns the reason for which a question about flows was not answered, of the policy that was read or of that of the
/// script.
pub(crate) fn flow_reason(
    alloc: Global,
    file: &str,
    script: bool,
    input: &KeptInput,
    question: &FlowQuestion,
    fault: &FlowFault,
) -> Result<Vec<u8>, AllocError> {
    let mut said = Vec::new(alloc);
    let bytes = input.bytes().unwrap_or(&[]);
    let block = block_asked(alloc, script, bytes)?;
    let policy = match &block {
        Some(block) => block.as_bytes(),
        None => bytes,
    };
    match fault {
        FlowFault::Text(ListingFault::Policy(fault)) if block.is_some() => {
            push_policy_reason(alloc, &mut said, file, policy, fault)?;
        }
        FlowFault::Text(fault) => return listing_reason(alloc, file, true, input, fault),
        FlowFault::NoSource => push_no_type(alloc, &mut said, file, policy, question.source)?,
        FlowFault::NoTarget => push_no_type(alloc, &mut said, file, policy, question.target)?,
        FlowFault::NoTrusted(place) => {
            let name = trusted_name(question, *place);
            push_no_type(alloc, &mut said, file, policy, name)?;
        }
        FlowFault::NoBlock => {
            push_read_reason(&mut said, file, b"the script has no policy block")?;
        }
    }
    Ok(said)
}
