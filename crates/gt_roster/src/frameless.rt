//! The configuration of a monitor that keeps no frames.
ghost use Rattle.std.specs.Prelude.{◌≡◌, IfOk};
ghost use Rattle.gt_roster.specs.Frameless.{HasOneFrameEach, with_one_frame};

use gt_types::{Config, DomainConfig};
use std::alloc::{AllocError, Global};

// Returns the domain, with one frame if it has more.
fn one_frame(domain: DomainConfig) -> DomainConfig
    ensures { result ≡ with_one_frame domain }
{
    let frames = if domain.frames == 0 { 0 } else { 1 };
    DomainConfig { frames, ..domain }
}

/// Copies a configuration, with at most one frame a domain. The copy is within the limits exactly if a monitor that
/// keeps no frames can run with the configuration.
///
/// # Errors
/// `AllocError`.
pub fn with_one_frame(alloc: Global, config: &Config) -> Result<Config, AllocError>
    ensures { IfOk result (λ c. HasOneFrameEach config.now c) }
{
    let mut domains = Vec::new(alloc);
    'domains: for domain in &config.domains {
        domains.push(one_frame(*domain))?;
    }
    Ok(Config {
        domains,
        first_gen: config.first_gen,
    })
}
