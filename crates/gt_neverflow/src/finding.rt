//! All that a text of `neverallow` and `neverflow` statements finds in a policy.
ghost use Rattle.std.specs.Prelude.{◌≡◌, IfErr, IfOk};
ghost use Rattle.gt_neverallow.specs.Breaking.{AreBroken, AreUnknown, IsNeverFault};
ghost use Rattle.gt_neverflow.specs.Finding.{AreBreaches};

use crate::flowing::{FlowBreach, flow_breaches};
use gt_findings::Finding;
use gt_neverallow::{Breach, NeverFault, NeverStatement, breaches_of, read_texts, unknown_words};
use gt_policy::{LinedStatement, PolicyFault, PolicyFaultKind};
use std::alloc::{AllocError, Global};

/// What was found in `neverallow` and `neverflow` statements and by them.
#[derive(Drop)]
pub struct NeverFindings {
    /// A finding of the text for each word of a statement that nothing knows.
    pub words: Vec<Finding>,
    /// The broken `neverallow` statements.
    pub breaches: Vec<Breach>,
    /// The broken `neverflow` statements.
    pub flows: Vec<FlowBreach>,
}

impl NeverFindings {
    ghost use Rattle.std.specs.Prelude.{◌≡◌};
    ghost use Rattle.gt_neverflow.specs.Finding.{has_no_breach};

    /// Returns whether no statement is broken.
    pub fn is_clean(&self) -> bool
        ensures { result ≡ has_no_breach self.now }
    {
        self.breaches.is_empty() && self.flows.is_empty()
    }
}

// Returns the findings about these statements, which the text has, with these breaches of `neverflow` statements.
fn found_by(
    alloc: Global,
    statements: &[LinedStatement],
    never: &str,
    nevers: &[NeverStatement],
    flows: Vec<FlowBreach>,
) -> Result<NeverFindings, AllocError>
    ensures words { IfOk result (λ found. AreUnknown never.now nevers.now found.words.items) }
    ensures broken { IfOk result (λ found. AreBroken statements.now nevers.now found.breaches.items) }
    ensures flows { IfOk result (λ found. found.flows.items ≡ flows.items) }
{
    let words = unknown_words(alloc, never, nevers)?;
    let breaches = breaches_of(alloc, statements, nevers)?;
    Ok(NeverFindings {
        words,
        breaches,
        flows,
    })
}

/// Returns each allow statement of a policy that grants something that a `neverallow` statement of the other text
/// forbids, once for each such statement, in the order of the policy; and each flow that a `neverflow` statement of
/// that text forbids, if the policy has a path. An attribute means its types, and the names in the other text are those
/// of the policy. A class in that text that Xen's FLASK policy doesn't have is a finding.
///
/// # Errors
/// The first fault of the policy, or else of the other text, or that no statement of the other text forbids permissions
/// of class `grant` or flows. If an allocation fails, its kind is [`PolicyFaultKind::Memory`], with line 0.
pub fn breaches(alloc: Global, policy: &str, never: &str) -> Result<NeverFindings, NeverFault>
    ensures ok { IfOk result (λ found. AreBreaches policy.now never.now found) }
    ensures fault { IfErr result (λ e. IsNeverFault policy.now never.now e) }
{
    let read = match read_texts(alloc, policy, never) {
        Ok(read) => read,
        Err(fault) => return Err(fault),
    };
    let statements = read.policy.as_slice();
    let nevers = read.nevers.as_slice();
    let flows = match flow_breaches(alloc, policy, statements, nevers) {
        Ok(flows) => flows,
        Err(fault) => return Err(NeverFault::Policy(fault)),
    };
    match found_by(alloc, statements, never, nevers, flows) {
        Ok(found) => Ok(found),
        Err(_) => Err(NeverFault::Policy(PolicyFault {
            line: 0,
            kind: PolicyFaultKind::Memory,
        })),
    }
}
