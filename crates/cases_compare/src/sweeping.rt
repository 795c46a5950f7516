//! Starts with more and more memory.
use crate::starting::{Came, Kind, configured, start};
use gt_types::DomainConfig;
use std::alloc::{AllocError, Global};
use test_failing::Flood;

// The number of bytes that are held back, or let through.
const GAP: usize = 4_000_000;

// A start of three domains takes less than this number of bytes.
const MOST: usize = GAP - 100_000;

// The memory grows by this number of bytes as long as it is small, and then by a part of itself. From the last amount
// that failed it grows by this number of bytes again.
const STEP: usize = 16;

const SMALL: usize = 16_384;

const PART: usize = 64;

const TRIES: usize = 4_096;

/// Starts of one kind, while a flood holds all memory except what is left to each of them.
#[derive(Drop)]
pub struct Starts<'d> {
    alloc: Global,
    flood: Flood,
    kind: Kind,
    domains: &'d [DomainConfig],
}

impl<'d> Starts<'d> {
    pub fn new(alloc: Global, kind: Kind, domains: &'d [DomainConfig]) -> Result<Self, AllocError> {
        Ok(Starts {
            alloc,
            flood: Flood::new(alloc)?,
            kind,
            domains,
        })
    }

    /// Releases all memory.
    pub fn open(&mut self) {
        self.flood.open();
    }

    // Leaves each start only its amount of memory.
    fn close(&mut self) -> Result<(), AllocError> {
        self.flood.open();
        self.flood.close(GAP)
    }

    // Starts with amounts in a range. Returns the last amount that failed, and the first with which it starts, or the
    // one after the last. Returns None for any other result. Each configuration is made before its start, in the memory
    // of the one before.
    fn sweep(
        &mut self,
        from: usize,
        to: usize,
        is_fine: bool,
    ) -> Result<Option<(usize, usize)>, AllocError> {
        let (mut below, mut left) = (from, from);
        let mut config = configured(self.alloc, self.domains)?;
        self.close()?;
        for _ in 0..TRIES {
            if left > to {
                break;
            }
            if !self.flood.let_through(left) {
                return Ok(None);
            }
            match start(self.alloc, Some(&mut self.flood), self.kind, config) {
                Came::Started => break,
                Came::Refused => below = left,
                Came::Other => return Ok(None),
            }
            self.flood.let_through(GAP);
            config = configured(self.alloc, self.domains)?;
            let step = if is_fine || left < SMALL {
                STEP
            } else {
                left / PART
            };
            left = left.saturating_add(step);
        }
        Ok(Some((below, left)))
    }

    /// Returns whether it fails with each amount that is not enough, and starts with one that is.
    pub fn is_told(&mut self) -> Result<bool, AllocError> {
        let Some((below, enough)) = self.sweep(0, MOST, false)? else {
            return Ok(false);
        };
        let again = self.sweep(below, enough, true)?;
        Ok(below < enough && enough <= MOST && again.is_some())
    }
}
