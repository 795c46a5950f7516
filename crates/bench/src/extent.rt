//! The size of a load in threads, and the domains of its run.
ghost use Rattle.std.specs.Prelude.{◌≡◌, IfOk};

use crate::line::number_at;
use crate::stops::Stop;
use gt_types::{Config, DomId, DomainConfig, MAX_TABLE_FRAMES, TypeId};
use std::alloc::{AllocError, Global};

/// The maximum number of threads of a load.
pub(crate) const MOST: u32 = 4;

/// The minimum number of domains of a run: the owner, the middle and one for each thread.
pub(crate) const FEWEST: u32 = 6;

/// The domain that grants.
pub(crate) const OWNER: DomId = DomId(1);

/// The domain whose transitive entries lead to the owner's.
pub(crate) const MIDDLE: DomId = DomId(2);

/// The number of threads, the rounds of each, and the number of domains of the run.
#[derive(Clone, Copy)]
pub struct Extent {
    pub threads: u32,
    pub rounds: u32,
    pub domains: u16,
}

/// Returns the extent that the words of a load name: threads and rounds after the load, and the number of domains at
/// this position, or else the fewest.
pub(crate) fn extent_of(words: &[String], place: usize) -> Result<Extent, Stop> {
    let threads = number_at(words, 2, "")?;
    let rounds = number_at(words, 3, "")?;
    let domains = number_at(words, place, "6")?;
    if threads == 0 || threads > MOST || domains < FEWEST || domains > 64 {
        return Err(Stop::Extent);
    }
    Ok(Extent {
        threads,
        rounds,
        domains: domains as u16,
    })
}

fn domain(id: u16, version: u32) -> DomainConfig {
    DomainConfig {
        id: DomId(id),
        label: TypeId(0),
        frames: 8,
        table_frames: MAX_TABLE_FRAMES,
        version,
    }
}

/// Returns this number of domains, numbered from 1, with tables of this version: the owner, the middle, those of the
/// threads, and others that do nothing.
pub(crate) fn run_domains(alloc: Global, count: u16, version: u32) -> Result<Config, AllocError>
    ensures { IfOk result (λ c. c.first_gen ≡ 0) }
{
    let mut domains = Vec::new(alloc);
    'domains: for before in 0..count {
        domains.push(domain(before + 1, version))?;
    }
    Ok(Config {
        domains,
        first_gen: 0,
    })
}
