//! Accesses to frames: the access path and the position of each end, and the writ by which a domain writes.
ghost use Rattle.std.specs.Prelude.{◌≡◌};
ghost use Rattle.gt_live.specs.AccessPaths.{writ_by};

use gt_calls::{AccessPath, CallPins};
use gt_frames::{Writ, WriteBasis};
use gt_types::{DomId, Spot};

/// An access to a frame: the access path by which the caller reaches it, and the position of the first byte.
#[derive(Clone, Copy)]
pub(crate) struct Access<'r> {
    pub access_path: &'r AccessPath,
    pub at: Spot,
}

/// The access of a copy: the access paths to its ends, the position of the first byte of each, and the number of bytes.
#[derive(Clone, Copy)]
pub(crate) struct CopyAccess<'r> {
    pub access_paths: &'r CallPins,
    pub from: Spot,
    pub to: Spot,
    pub len: u16,
}

/// Returns the writ of a domain that writes by this access path.
pub(crate) fn writ_by(caller: DomId, access_path: &AccessPath) -> Writ
    ensures { result ≡ writ_by caller access_path.now }
{
    let basis = match *access_path {
        AccessPath::Own => WriteBasis::Owned,
        AccessPath::Direct(held) => WriteBasis::Granted(held.entry),
        AccessPath::Through { via, held } => WriteBasis::Forwarded {
            via: via.entry,
            middle: via.dom,
            entry: held.entry,
        },
    };
    Writ {
        writer: caller,
        basis,
    }
}
