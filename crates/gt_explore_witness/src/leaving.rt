//! Domains that leave with mappings that the policy does not let them unmap.
ghost use Rattle.std.specs.Prelude.{◌≡◌, IfOk};
ghost use Rattle.gt_script.specs.Contents.{contents_of};
ghost use Rattle.gt_script_runs.specs.Rights.{may_by, may_in};
ghost use Rattle.gt_explore_witness.specs.GivingAnswers.{is_forbidden, may_not_unmap};

use gt_script::ScriptHead;
use gt_script_runs::ScriptPolicy;
use gt_types::{Allows, DomId, DomainConfig, Memory, Perms, TypeId};
use std::alloc::Global;

// Returns whether the policy does not let a domain of this type unmap the entries of one of these domains.
fn is_forbidden(rights: &ScriptPolicy, domains: &[DomainConfig], source: TypeId) -> bool
    ensures { result ≡ is_forbidden (may_by rights.now) domains.now source }
{
    'domains: for domain in domains {
        if !rights.allows(source, domain.label, Perms::UNMAP) {
            return true;
        }
    }
    false
}

// Returns whether the policy does not let this domain unmap the entries of one of these.
fn forbids(rights: &ScriptPolicy, domains: &[DomainConfig], dom: DomId) -> bool
    ensures { result ≡ may_not_unmap (may_by rights.now) domains.now dom }
{
    'domains: for domain in domains {
        if domain.id.0 == dom.0 && is_forbidden(rights, domains, domain.label) {
            return true;
        }
    }
    false
}

/// Returns whether there is a domain whose entries the head of a script does not let this domain unmap.
///
/// # Errors
/// `Memory` if an allocation fails.
pub fn may_not_unmap(alloc: Global, head: &ScriptHead, dom: DomId) -> Result<bool, Memory>
    ensures { IfOk result (λ b. b ≡ may_not_unmap (may_in (contents_of head.now)) head.now.domains dom) }
{
    let rights = ScriptPolicy::of(alloc, head)?;
    Ok(forbids(&rights, head.domains(), dom))
}
