//! How a handle lends its domain.
ghost use Rattle.std.specs.Prelude.{◌≡◌, Some, IsSome};
ghost use Rattle.std.specs.Borrow.{sem};
ghost use Rattle.gt_c.specs.Lending.{LendsCDomain};

use crate::c_domain::CDomain;
use crate::held::RawBox;

/// Lends the domain of a handle that has one.
pub fn lent_mut(held: &mut RawBox) -> &mut CDomain
    requires { IsSome held.old.value }
    ensures* writes_back { sem 𝓛 (LendsCDomain held.entry result) }
    ensures value { Some result.now ≡ held.old.value }
{
    unsafe { &mut *(held.at as *mut CDomain) }
}
