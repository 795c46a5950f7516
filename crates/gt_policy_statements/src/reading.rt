//! Reads the statements of a policy.
ghost use Rattle.std.specs.Prelude.{◌≡◌, IfOk, IfErr, None, Some, Ok, Err};
ghost use Rattle.gt_policy.specs.Allowing.{Meaning};
ghost use Rattle.gt_policy.specs.Lined.{IsLined};
ghost use Rattle.gt_policy.specs.Shown.{fault_shown, out_of_memory};
ghost use Rattle.gt_policy.specs.Whole.{ReadsAs};
ghost use Rattle.gt_policy.specs.declared.fault.TokenFault.{TokenFault};

use gt_policy::{Items, LinedStatement, Policy, PolicyFault, statements_of};
use std::alloc::Global;

/// Returns the statements of a policy text, each with its line, or the first fault of a text that is not a policy. If
/// an allocation fails, the fault is `Memory` with line 0.
pub fn read_policy<'a>(
    alloc: Global,
    text: &'a str,
) -> Result<Items<LinedStatement<'a>>, PolicyFault>
    ensures ok { IfOk result (λ xs. (m : Meaning) × ReadsAs text.entry.now (Ok m) × IsLined text.entry.now xs) }
    ensures fault { IfErr result (λ e. (f : TokenFault) → fault_shown e ≡ Some f → ReadsAs text.entry.now (Err f)) }
    ensures memory { IfErr result (λ e. fault_shown e ≡ None → e ≡ out_of_memory) }
{
    Policy::parse(alloc, text)?;
    statements_of(alloc, text)
}
