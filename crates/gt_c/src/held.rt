//! A box as a pointer that C may hold, or null.
ghost use Rattle.std.specs.Prelude.{◌≡◌, Option, Some, None, IsSome};
ghost use Rattle.std.specs.Box.Ownership.{box_owns};
ghost use Rattle.gt_c.specs.declared.c_domain.CDomain.{CDomain};
ghost use Rattle.std.specs.contracts.impls.GlobalAllocator.TheImpl.{ghosts};
ghost use Rattle.gt_c.specs.contracts.c_domain.CDomain.{the_row as c_domain_row};

use crate::c_domain::CDomain;
use crate::parts::BoxParts;
use std::alloc::Global;
use std::marker::Model;
use std::ptr;

/// A box as a pointer that C may hold, or null.
#[repr(C)]
#[derive(Drop)]
pub struct RawBox {
    pub at: *mut u8,
    pub alloc: Global,
    pub ghost value: { Option CDomain },
}

impl Model for RawBox {
    ghost use Rattle.std.specs.Prelude.{Option};
    ghost use Rattle.std.specs.Box.Ownership.{box_owns};
    ghost use Rattle.std.specs.contracts.impls.GlobalAllocator.TheImpl.{ghosts};
    ghost use Rattle.gt_c.specs.contracts.c_domain.CDomain.{the_row as c_domain_row};
    ghost use Rattle.gt_c.specs.Owning.{owned};

    ghost also_owns = { λ p. owned (box_owns (ghosts.dealloc_token p.alloc) c_domain_row p.at) p.value };
}

impl RawBox {
    /// Makes the null pointer.
    pub fn none(alloc: Global) -> RawBox
        ensures { result.value ≡ None }
    {
        RawBox {
            at: ptr::null_mut(),
            alloc,
        }
    }

    /// Makes the pointer of a box that was taken apart, and owns what it points to.
    pub fn of_parts(parts: BoxParts<CDomain, Global>) -> RawBox
        ensures { result.value ≡ Some parts.value }
    {
        let BoxParts { ptr, alloc } = parts;
        RawBox {
            at: ptr as *mut u8,
            alloc,
        }
    }

    /// Returns the parts of the box. The pointer must not be null.
    pub fn into_parts(self) -> BoxParts<CDomain, Global>
        requires { IsSome self.value }
        ensures { Some result.value ≡ self.value }
    {
        let RawBox { at, alloc } = self;
        BoxParts {
            ptr: at as *mut CDomain,
            alloc,
        }
    }
}
