//! The bounds of calls, and the law that states them as numbers.
ghost use Rattle.std.specs.Prelude.{◌≡◌, ◌+◌};
ghost use Rattle.gt_types.specs.declared.limits.TheConstants.{MAX_TRIES};

use gt_types::MAX_TRIES;

/// The number of tries that may follow the first.
pub const MORE_TRIES: u8 = (MAX_TRIES - 1) as u8;

/// The maximum number of steps of a call: of a copy whose ends are both reached through a Via.
pub const MAX_STEPS: u32 = 71;

/// The serials of a domain's mappings are below this number.
pub const SERIAL_LIMIT: u64 = u64::MAX;

/// States the limits of calls as numbers: the steps of a copy, the serials of handles, and the tries of a pin.
pub fn the_limits_of_calls()
    ensures steps { MAX_STEPS ≡ 71 }
    ensures serials { SERIAL_LIMIT ≡ 18446744073709551615 }
    ensures tries { (MORE_TRIES ≡ 3) × (1 + MORE_TRIES ≡ MAX_TRIES) }
{}
