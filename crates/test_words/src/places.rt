//! Two domains, spots in their frames, and bytes as a text.
use gt_types::{Config, DomId, DomainConfig, Memory, TypeId};
use std::alloc::{AllocError, Global};

const DOMAIN: DomainConfig = DomainConfig {
    id: DomId(1),
    label: TypeId(0),
    frames: 2,
    table_frames: 1,
    version: 1,
};

/// Returns a configuration of the domains 1 and 2, each with two frames.
pub fn config(alloc: Global) -> Result<Config, Memory> {
    let other = DomainConfig {
        id: DomId(2),
        ..DOMAIN
    };
    Ok(Config {
        domains: vec![in alloc; DOMAIN, other]?,
        first_gen: 0,
    })
}

/// The bytes written at the start.
pub const BYTES: [u8; 4] = [1, 2, 3, 4];

// A spot: the numbers of the domain and the frame, and the offset.
macro_rules! at {
    ($owner:expr, $number:expr, $off:expr) => {
        spot!(DomId($owner), $number, $off)
    };
}

pub(crate) use at;

/// Returns as a text whether a copy was made, and the bytes that were read, or that the frame does not exist.
pub fn text(alloc: Global, done: bool, read: Option<[u8; 6]>) -> Result<String, AllocError> {
    match read {
        Some(bytes) => format!(in alloc; "{done} {bytes:?}"),
        None => format!(in alloc; "{done} none"),
    }
}
