//! Whether one access may bring bytes of one type to another.
ghost use Rattle.std.specs.Prelude.{◌≡◌};
ghost use Rattle.std.specs.List.{list_any};
ghost use Rattle.gt_flow.specs.Accesses.{allowed_access, is_among};

use gt_types::{Allows, Perms, TypeId};

/// An access that brings bytes of a domain of one type to a domain of another: a load by the second, a copy, or a store
/// by the first.
#[derive(Clone, Copy, Debug, PartialEq, Eq)]
pub enum Access {
    Load,
    Copy,
    Store,
}

/// Returns whether a type is one of these.
pub fn is_among(ids: &[TypeId], x: TypeId) -> bool
    ensures { result ≡ is_among ids.now x }
{
    'ids: for id in ids {
        if id.0 == x.0 {
            return true;
        }
    }
    false
}

/// Returns the access that may bring bytes of a domain of type x to one of type y: a load if the policy allows one, or
/// else a copy, or else a store, which is left out if x is trusted. None if there is no such access.
pub fn access_between<P: Allows>(
    policy: &P,
    is_trusted: bool,
    x: TypeId,
    y: TypeId,
) -> Option<Access>
    ensures { result ≡ allowed_access (P.may policy.now) is_trusted x y }
{
    if policy.allows(y, x, Perms::MAP_READ) {
        Some(Access::Load)
    } else if policy.allows(x, y, Perms::COPY) {
        Some(Access::Copy)
    } else if !is_trusted
        && policy.allows(x, y, Perms::MAP_READ)
        && policy.allows(x, y, Perms::MAP_WRITE)
    {
        Some(Access::Store)
    } else {
        None
    }
}
