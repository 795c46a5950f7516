//! The open calls of a run.
use gt_audit::Hypercall;
use gt_script::ScriptStep;
use gt_types::DomId;
use std::alloc::{AllocError, Global};
use std::collections::BTreeMap;

/// An open call: the step of the script that began it, and the hypercall that its record will have, if it is audited.
#[derive(Clone, Copy)]
pub struct Opened<'b, 'a> {
    pub step: &'b ScriptStep<'a>,
    pub hypercall: Option<Hypercall>,
}

/// The open calls, by domain.
#[derive(Drop)]
pub struct OpenCalls<'b, 'a> {
    begun: BTreeMap<u16, Opened<'b, 'a>>,
}

impl<'b, 'a> OpenCalls<'b, 'a> {
    ghost use Rattle.std.specs.Prelude.{◌≡◌, ◌==◌, ℕ, OnOk, None, Some, if◌then◌else◌, option_and_then};
    ghost use Rattle.std.specs.Option.{option_map};
    ghost use Rattle.gt_host.specs.OpenCalls.{call_in, recorded_in};

    /// Makes a table without open calls.
    pub fn new(alloc: Global) -> OpenCalls<'b, 'a>
        ensures calls { (d : ℕ) → call_in result d ≡ None }
        ensures hypercalls { (d : ℕ) → recorded_in result d ≡ None }
    {
        OpenCalls {
            begun: BTreeMap::new(alloc),
        }
    }

    /// Returns the open call of the domain.
    pub fn of(&self, dom: DomId) -> Option<Opened<'b, 'a>>
        ensures call { option_map (λ o. o.step.now) result ≡ call_in self.now dom.0 }
        ensures hypercalls { option_and_then (λ o. o.hypercall) result ≡ recorded_in self.now dom.0 }
    {
        self.begun.get(&dom.0).copied()
    }

    /// Adds the open call of the domain, with the hypercall of its record.
    pub fn begin_call(
        &mut self,
        dom: DomId,
        step: &'b ScriptStep<'a>,
        hypercall: Option<Hypercall>,
    ) -> Result<(), AllocError>
        ensures calls { OnOk result ((d : ℕ) →
            call_in self.new d ≡ (if d == dom.0 then Some step.entry.now else call_in self.old d)) }
        ensures hypercalls { OnOk result ((d : ℕ) →
            recorded_in self.new d ≡ (if d == dom.0 then hypercall else recorded_in self.old d)) }
    {
        self.begun.insert(dom.0, Opened { step, hypercall })?;
        Ok(())
    }

    /// Removes the open call of the domain.
    pub fn end(&mut self, dom: DomId)
        ensures calls { (d : ℕ) → call_in self.new d ≡ (if d == dom.0 then None else call_in self.old d) }
        ensures hypercalls { (d : ℕ) → recorded_in self.new d ≡ (if d == dom.0 then None else recorded_in self.old d) }
    {
        self.begun.remove(&dom.0);
    }
}
