//! Memory of calls of which each allocation fails in turn.
use crate::stops::Stop;
use std::alloc::{AllocError, Global};
use test_failing::Flood;

// A call gets this number of further bytes each time that it fails, and this number of times at most.
const STEP: usize = 16;

const TRIES: usize = 4_096;

// The number of bytes for the comparisons after a failure.
const GAP: usize = 1 << 20;

/// The part of a call whose allocation failed.
#[derive(Clone, Copy)]
pub enum Place {
    Monitor,
    Begin,
    Tick,
}

/// The memory of a call: all that there is, or none at first and a little more each time that it fails. It keeps the
/// names of the calls that failed, for each part.
#[derive(Drop)]
pub struct Scarce {
    flood: Option<Flood>,
    is_closed: bool,
    bytes: usize,
    monitor: String,
    begin: String,
    tick: String,
}

impl Scarce {
    /// Makes plentiful memory: at most the system refuses some.
    pub fn plenty(alloc: Global) -> Scarce {
        Scarce {
            flood: None,
            is_closed: false,
            bytes: 0,
            monitor: String::new(alloc),
            begin: String::new(alloc),
            tick: String::new(alloc),
        }
    }

    /// Makes the same, or memory in which each allocation of a call fails once.
    pub fn new(alloc: Global, is_refusing: bool) -> Result<Scarce, AllocError> {
        let mut scarce = Scarce::plenty(alloc);
        if is_refusing {
            scarce.flood = Some(Flood::new(alloc)?);
        }
        Ok(scarce)
    }

    /// Prepares the next call, which gets no memory at first. Returns how often it may be made: twice if memory is
    /// plentiful, since the system may refuse one allocation.
    pub fn prepare_call(&mut self) -> usize {
        self.bytes = 0;
        // Memory that was freed may wait in lists of small blocks. Only a whole flood takes it.
        self.is_closed = false;
        if self.flood.is_some() { TRIES } else { 2 }
    }

    /// Leaves only the memory of the call.
    pub fn close(&mut self) -> Result<(), Stop> {
        let Some(flood) = &mut self.flood else {
            return Ok(());
        };
        if self.is_closed && flood.let_through(self.bytes) {
            return Ok(());
        }
        flood.close(GAP)?;
        self.is_closed = flood.let_through(self.bytes);
        if !self.is_closed {
            return Err(Stop::NotRefused);
        }
        Ok(())
    }

    /// Leaves memory for the comparisons.
    pub fn lift(&mut self) {
        if let Some(flood) = &mut self.flood {
            let _ = flood.let_through(GAP);
        }
    }

    /// Leaves memory for everything else.
    pub fn open(&mut self) {
        self.is_closed = false;
        if let Some(flood) = &mut self.flood {
            flood.open();
        }
    }

    /// Notes a failure in this part of the call with this name, and gives it a little more memory.
    pub fn refused(&mut self, place: Place, name: &'static str) -> Result<(), AllocError> {
        self.bytes = self.bytes.saturating_add(STEP);
        let names = match place {
            Place::Monitor => &mut self.monitor,
            Place::Begin => &mut self.begin,
            Place::Tick => &mut self.tick,
        };
        if !names.contains(name) {
            names.push_str(name)?;
        }
        Ok(())
    }

    /// Returns which calls failed, and in which part, or nothing if memory is plentiful.
    pub fn said(&self, alloc: Global) -> Result<String, AllocError> {
        let Scarce {
            monitor,
            begin,
            tick,
            ..
        } = self;
        if self.flood.is_none() {
            return Ok(String::new(alloc));
        }
        format!(in alloc;
            "refused on the monitor:{monitor}\nrefused by begin:{begin}\nrefused by tick:{tick}\n"
        )
    }
}
