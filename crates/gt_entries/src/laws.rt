//! A law about clearing the live bits.
ghost use Rattle.std.specs.Prelude.{ℕ};
ghost use Rattle.gt_entries.specs.Live.{ClearsLiveBits};

/// A law: only bits 3 and 4 of a byte are cleared.
pub fn only_the_live_bits_are_cleared()
    ensures { (byte : ℕ) → ClearsLiveBits byte }
{}
