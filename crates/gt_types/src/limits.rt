//! The limits of a run. Each is defined once, here.

/// The domain number that names the caller in every call (`DOMID_SELF` of the public header `xen.h`). Each domain
/// of a run has a smaller number.
pub const DOMID_SELF: u16 = 0x7FF0;

/// The maximum number of domains of a run.
pub const MAX_DOMAINS: usize = 64;

/// The maximum number of frames of a domain in a run that keeps them.
pub const MAX_FRAMES: u32 = 64;

/// The size of a frame, in bytes.
pub const FRAME_SIZE: u16 = 4_096;

/// The maximum number of frames of a grant table.
pub const MAX_TABLE_FRAMES: u32 = 16;

/// The number of entries in a table frame of version 1: 8 bytes each (`grant_entry_v1` of `grant_table.h`).
pub const ENTRIES_V1: u32 = 512;

/// The number of entries in a table frame of version 2: 16 bytes each (`grant_entry_v2` of `grant_table.h`).
pub const ENTRIES_V2: u32 = 256;

/// The maximum number of entries of a grant table: those of [`MAX_TABLE_FRAMES`] frames in version 1. Each domain
/// has words for this many entries, whatever the present size of its table.
pub const TABLE_ENTRIES: u32 = 8_192;

/// The last version of grant tables that a domain may have; the first is 1.
pub const LAST_VERSION: u32 = 2;

/// The maximum number of live pins of one kind on one entry.
pub const MAX_PINS: u16 = 4_095;

/// The maximum number of live mappings of one domain.
pub const MAX_MAPPINGS: usize = 8_192;

/// The last generation of an entry. An entry at this generation is worn.
pub const LAST_GENERATION: u32 = 1_048_575;

/// The maximum number of tries to pin an entry, and of turns to demote, promote or withdraw one.
pub const MAX_TRIES: u32 = 4;

/// The maximum length of a policy text and of a script, in bytes.
pub const LONGEST_TEXT: usize = 1_048_576;
