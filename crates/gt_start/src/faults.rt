//! The reasons why a run did not start.
ghost use Rattle.std.specs.Prelude.{◌≡◌};
ghost use Rattle.gt_policy.specs.Shown.{fault_shown};
ghost use Rattle.gt_start.specs.Faults.{encoded_config, encoded_label, encoded_policy};

use gt_policy::{PolicyFault, PolicyFaultKind};
use gt_types::{ConfigFault, DomId, StartFault};

/// Why a run did not start, and where the fault is.
#[repr(C)]
#[derive(Clone, Copy)]
pub struct EncodedFault {
    /// 0 none; 1 memory; 2 the handles; 3 to 9 the policy; 10 to 17 the configuration; 18 a null pointer; 19 a label;
    /// 20 the name of a type.
    pub kind: u32,
    /// The line of the policy with the fault, starting at 1; 0 if the policy is not UTF-8, or if the fault is
    /// elsewhere.
    pub line: u32,
    /// The domain with the fault, else 0.
    pub dom: u32,
}

fn fault_at(kind: u32, line: u32, dom: DomId) -> EncodedFault
    ensures { result ≡ record { kind = kind; line = line; dom = dom.0 } }
{
    EncodedFault {
        kind,
        line,
        dom: u32::from(dom.0),
    }
}

/// The run started.
pub const NONE: EncodedFault = EncodedFault {
    kind: 0,
    line: 0,
    dom: 0,
};

/// Allocation failed.
pub const MEMORY: EncodedFault = EncodedFault {
    kind: 1,
    line: 0,
    dom: 0,
};

/// The number of handles is not that of the domains, or one of the handles has a domain.
pub const HANDLES: EncodedFault = EncodedFault {
    kind: 2,
    line: 0,
    dom: 0,
};

/// The policy is not UTF-8.
pub(crate) const TEXT: EncodedFault = EncodedFault {
    kind: 9,
    line: 0,
    dom: 0,
};

/// The policy does not declare a type of the name asked for.
pub(crate) const NO_TYPE: EncodedFault = EncodedFault {
    kind: 20,
    line: 0,
    dom: 0,
};

// Encodes the fault of a policy.
pub(crate) fn policy_fault(refused: PolicyFault) -> EncodedFault
    ensures { result ≡ encoded_policy (fault_shown refused) }
{
    let nobody = DomId(0);
    match refused.kind {
        PolicyFaultKind::Syntax => fault_at(3, refused.line, nobody),
        PolicyFaultKind::Unknown(_) => fault_at(4, refused.line, nobody),
        PolicyFaultKind::Twice(_) => fault_at(5, refused.line, nobody),
        PolicyFaultKind::Permission(_) => fault_at(6, refused.line, nobody),
        PolicyFaultKind::Outside(_) => fault_at(7, refused.line, nobody),
        PolicyFaultKind::Limit => fault_at(8, refused.line, nobody),
        PolicyFaultKind::Memory => MEMORY,
    }
}

// Encodes the fault of a configuration.
pub(crate) fn config_fault(refused: StartFault) -> EncodedFault
    ensures { result ≡ encoded_config refused }
{
    match refused {
        StartFault::Memory => MEMORY,
        StartFault::Config(config) => match config {
            ConfigFault::NoDomains => fault_at(10, 0, DomId(0)),
            ConfigFault::TooMany(id) => fault_at(11, 0, id),
            ConfigFault::Id(id) => fault_at(12, 0, id),
            ConfigFault::Repeated(id) => fault_at(13, 0, id),
            ConfigFault::Frames(id) => fault_at(14, 0, id),
            ConfigFault::TableFrames(id) => fault_at(15, 0, id),
            ConfigFault::Version(id) => fault_at(16, 0, id),
            ConfigFault::Generation => fault_at(17, 0, DomId(0)),
        },
    }
}

// Encodes that the label of a domain is beyond the policy's types.
pub(crate) fn label_fault(dom: u32) -> EncodedFault
    ensures { result ≡ encoded_label dom }
{
    EncodedFault {
        kind: 19,
        line: 0,
        dom,
    }
}
