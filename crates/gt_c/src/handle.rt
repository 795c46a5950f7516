//! The handle of a domain, which C holds.
ghost use Rattle.std.specs.Prelude.{◌≡◌, Some, None, IsSome, true, false};
ghost use Rattle.std.specs.Option.{option_map};
ghost use Rattle.gt_c.specs.Lending.{can_be_called};

use crate::c_domain::CDomain;
use crate::held::RawBox;
use crate::parts::BoxParts;
use std::alloc::Global;
use std::mem;

/// The handle of a domain. Without a domain it is all zeros, and owns nothing. While `is_ready` is set, the domain is in
/// no copy, so that a call needs no look at the domain for that.
#[repr(C)]
#[derive(Drop)]
pub struct DomainHandle {
    pub held: RawBox,
    pub is_live: bool,
    pub is_ready: bool,
    ghost live: { is_live ≡ true → IsSome held.value },
    ghost idle: { is_live ≡ false → held.value ≡ None },
    ghost ready: { is_ready ≡ true → can_be_called held.value ≡ true },
}

impl DomainHandle {
    ghost use Rattle.std.specs.Prelude.{◌≡◌, Some, None, true, false};
    ghost use Rattle.std.specs.Option.{option_map};

    /// Takes the domain out, and leaves the handle without one. Returns `None` if it has none.
    pub fn take(&mut self, alloc: Global) -> Option<Box<CDomain>>
        ensures taken { option_map (λ b. b.value) result ≡ self.old.held.value }
        ensures gone { (self.new.is_live ≡ false) × (self.new.held.value ≡ None) }
    {
        if !self.is_live {
            return None;
        }
        let none = DomainHandle {
            held: RawBox::none(alloc),
            is_live: false,
            is_ready: false,
        };
        let DomainHandle { held, .. } = mem::replace(self, none);
        Some(held.into_parts().into_box())
    }

    /// Puts a domain into a handle without one.
    pub fn put(&mut self, lent: Box<CDomain>)
        requires { self.old.held.value ≡ None }
        ensures { (self.new.is_live ≡ true) × (self.new.held.value ≡ Some lent.value) }
    {
        let is_ready = !lent.attached.is_copying();
        *self = DomainHandle {
            held: RawBox::of_parts(BoxParts::of(lent)),
            is_live: true,
            is_ready,
        };
    }
}
