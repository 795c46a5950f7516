//! Audit records of hypercalls.
use gt_types::{Denial, DomId, End, GrantRef, Size};

/// The request of a hypercall. A domain named as [`DOMID_SELF`](gt_types::DOMID_SELF) is the caller.
#[derive(Clone, Copy, Debug, PartialEq, Eq)]
pub enum Hypercall {
    /// Maps an entry (`GNTTABOP_map_grant_ref`). The flags are the GNTMAP bits of `grant_table.h`.
    Map {
        dom: DomId,
        gref: GrantRef,
        flags: u32,
    },
    /// Unmaps (`GNTTABOP_unmap_grant_ref`). The subject is the domain and the reference whose entry was mapped,
    /// None if the handle names no mapping.
    Unmap {
        subject: Option<(DomId, GrantRef)>,
    },
    /// Copies `len` bytes (`GNTTABOP_copy`). Bit 0 of the flags is set if a grant reference names the source, bit 1
    /// if one names the destination.
    Copy {
        source: End,
        dest: End,
        len: u16,
        flags: u16,
    },
    /// Queries the size of a table (`GNTTABOP_query_size`).
    QuerySize {
        dom: DomId,
    },
    /// Queries the version of a table (`GNTTABOP_get_version`).
    GetVersion {
        dom: DomId,
    },
    /// Changes the version of the caller's table (`GNTTABOP_set_version`).
    SetVersion {
        version: u32,
    },
    /// Changes the number of frames of the caller's table (`GNTTABOP_setup_table`).
    SetupTable {
        frames: u32,
    },
}

/// The answer of a hypercall, as far as a line prints it.
#[derive(Clone, Copy, Debug, PartialEq, Eq)]
pub enum Reply {
    /// Ok, without a value that a line prints. The handle of a map is not printed.
    Done,
    /// The number of frames of a table.
    Frames(u32),
    /// The size of a table.
    Size(Size),
    /// The version of a table.
    Version(u32),
    /// A refusal.
    Denied(Denial),
}

/// The record of one answered hypercall.
#[derive(Clone, Copy, Debug, PartialEq, Eq)]
pub struct Record {
    /// The caller.
    pub dom: DomId,
    pub call: Hypercall,
    pub reply: Reply,
}
