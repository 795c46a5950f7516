//! Pool numbers: the positions of frames among all frames of a run.
ghost use Rattle.std.specs.Prelude.{◌≡◌, ◌<◌, ◌^◌, IfOk};
ghost use Rattle.gt_frames.specs.Places.{frame_counts, pool_number, frames_of};

use gt_types::{Config, DomId, FrameName, Memory};
use std::alloc::Global;

/// The number of frames of a domain.
#[derive(Clone, Copy, Debug, PartialEq, Eq)]
pub struct FrameCount {
    pub owner: DomId,
    pub frames: u32,
}

/// Returns the number of frames of each domain, in the order of the configuration.
pub fn frame_counts(alloc: Global, config: &Config) -> Result<Vec<FrameCount>, Memory>
    ensures { IfOk result (λ counts. counts.items ≡ frame_counts config.now.domains.items) }
{
    let mut counts = Vec::new(alloc);
    'domains: for domain in &config.domains {
        counts.push(FrameCount {
            owner: domain.id,
            frames: domain.frames,
        })?;
    }
    Ok(counts)
}

/// Returns the pool number of a frame, None if the run has no such frame. Pool numbers count the frames of the
/// first domain, then those of the second, and so on, from 0.
pub fn number_in_pool(domains: &[FrameCount], name: FrameName) -> Option<usize>
    requires { frames_of domains.now < 2 ^ 64 }
    ensures { result ≡ pool_number domains.now name.owner name.number 0 }
{
    let mut first = 0;
    'domains: for domain in domains {
        if domain.owner == name.owner {
            return if name.number < u64::from(domain.frames) {
                Some(first + name.number as usize)
            } else {
                None
            };
        }
        first += domain.frames as usize;
    }
    None
}
