//! The arguments of a copy.
use crate::DomId;

/// One end of a copy (`struct gnttab_copy_ptr` of `grant_table.h`). By the flags of the copy, `ptr` is a grant
/// reference of the domain `domid`, or the number of a frame of the caller's own.
#[derive(Clone, Copy, Debug, PartialEq, Eq)]
pub struct End {
    pub ptr: u64,
    pub domid: DomId,
    pub offset: u16,
}

/// The arguments of a copy (`struct gnttab_copy` of `grant_table.h`). Bit 0 of the flags is set if a grant
/// reference names the source (`GNTCOPY_source_gref`), and bit 1 if one names the destination
/// (`GNTCOPY_dest_gref`). All other flags are refused. `len` counts bytes.
#[derive(Clone, Copy, Debug, PartialEq, Eq)]
pub struct CopyArgs {
    pub source: End,
    pub dest: End,
    pub len: u16,
    pub flags: u16,
}

impl CopyArgs {
    ghost use Rattle.std.specs.Prelude.{◌≡◌};
    ghost use Rattle.gt_types.specs.Copies.{is_source_granted, is_dest_granted};

    /// Returns true if a grant reference names the source.
    pub fn is_source_granted(self) -> bool
        ensures { result ≡ is_source_granted self }
    {
        self.flags % 2 == 1
    }

    /// Returns true if a grant reference names the destination.
    pub fn is_dest_granted(self) -> bool
        ensures { result ≡ is_dest_granted self }
    {
        self.flags / 2 % 2 == 1
    }
}
