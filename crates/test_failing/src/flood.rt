//! A holder of all memory of the allocator.
use std::alloc::{AllocError, Global};

// The size of the first blocks in bytes. Each further size is half of that: from the largest that a system has
// addresses for, down to those that only a freed block of the same size can serve.
const LARGEST: usize = 1 << 40;

// The maximum number of blocks. A system with 2^47 bytes of addresses takes some 8,000 of 16 GiB.
const BLOCKS: usize = 65_536;

// The program's room while the flood is open. The allocator maps such a block anew each time, and it has no space for
// another heap of a thread.
const WINDOW: usize = 48 << 20;

// Blocks below this size are then served from one heap, without their own maps.
const HEAP: usize = 4 << 20;

// Starting at this size blocks go by halves, and smaller ones by steps, since a small one may wait in a list of its
// size.
const SMALL: usize = 2_040;

const STEP: usize = 16;

// The number of sizes that are tried for the block that holds the others back. Each is a step smaller than the one
// before.
const SIZES: usize = 64;

/// All memory that the allocator can give, once it is closed.
#[derive(Drop)]
pub struct Flood {
    alloc: Global,
    taken: Vec<Vec<u8>>,
    base: usize,
    gap: usize,
    plug: Option<Vec<u8>>,
}

impl Flood {
    /// Makes an open flood: some 48 MiB are left to the program.
    ///
    /// # Errors
    ///
    /// The list of blocks, or the window, could not be allocated.
    pub fn new(alloc: Global) -> Result<Flood, AllocError> {
        let taken = Vec::with_capacity(alloc, BLOCKS)?;
        let heap: Vec<u8> = Vec::with_capacity(alloc, HEAP)?;
        drop(heap);
        let window: Vec<u8> = Vec::with_capacity(alloc, WINDOW)?;
        let mut flood = Flood {
            alloc,
            taken,
            base: 0,
            gap: 0,
            plug: None,
        };
        flood.take_by_halves(LARGEST, WINDOW);
        flood.base = flood.taken.len();
        drop(window);
        Ok(flood)
    }

    /// Takes all that is left. After that every request fails, until some of the `gap` bytes are let through: less than
    /// 4 MiB, which are held as one block.
    ///
    /// # Errors
    ///
    /// That block could not be allocated. The flood is then open.
    pub fn close(&mut self, gap: usize) -> Result<(), AllocError> {
        self.open();
        let plug = Vec::with_capacity(self.alloc, gap)?;
        self.gap = gap;
        self.plug = Some(plug);
        self.take_by_halves(WINDOW, SMALL);
        self.take_by_steps();
        Ok(())
    }

    /// Lets this number of bytes of the gap through, and returns whether the others are held back. What a block of the
    /// program takes of the gap, up to a kilobyte, counts as let through. The others are then the largest block that
    /// fits.
    pub fn let_through(&mut self, bytes: usize) -> bool {
        self.plug = None;
        if bytes >= self.gap {
            return false;
        }
        let mut held = self.gap - bytes;
        for _ in 0..SIZES {
            self.plug = Vec::with_capacity(self.alloc, held).ok();
            if self.plug.is_some() {
                return true;
            }
            held = held.saturating_sub(STEP);
        }
        false
    }

    /// Releases what was taken since it was made.
    pub fn open(&mut self) {
        self.plug = None;
        self.taken.truncate(self.base);
    }

    // Takes blocks of this size until a request fails.
    fn take_all(&mut self, size: usize) {
        for _ in 0..BLOCKS {
            if self.taken.len() >= BLOCKS {
                return;
            }
            let Ok(block) = Vec::with_capacity(self.alloc, size) else {
                return;
            };
            if self.taken.push(block).is_err() {
                return;
            }
        }
    }

    // Takes all blocks of a size, and of each half of it down to another.
    fn take_by_halves(&mut self, from: usize, to: usize) {
        let mut size = from;
        for _ in 0..usize::BITS {
            if size < to {
                return;
            }
            self.take_all(size);
            size /= 2;
        }
    }

    // Takes all small blocks, size by size.
    fn take_by_steps(&mut self) {
        let mut size = SMALL;
        for _ in 0..SMALL / STEP {
            self.take_all(size);
            size = size.saturating_sub(STEP);
        }
    }
}
