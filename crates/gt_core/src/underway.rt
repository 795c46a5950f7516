//! Open calls.
use gt_calls::{Call, Step};

/// An open call, and its next step.
#[derive(Clone, Copy)]
pub struct OpenCall {
    pub call: Call,
    pub step: Step,
}
