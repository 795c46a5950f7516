//! Sets of types, with one bit per type.
ghost use Rattle.std.specs.Prelude.{◌≡◌, ℕ, ◌==◌, ◌||◌, ◌&&◌, not, false};
ghost use Rattle.gt_policy.specs.TypeSets.{holds};

use gt_types::TypeId;

/// A set of types of a policy, which are numbered from 0 to 255.
#[derive(Clone, Copy)]
pub struct TypeSet {
    low: u128,
    high: u128,
}

impl TypeSet {
    /// Makes the empty set.
    pub(crate) fn empty() -> TypeSet
        ensures { (n : ℕ) → holds result n ≡ false }
    {
        TypeSet { low: 0, high: 0 }
    }

    /// Returns whether the type is in the set.
    pub fn contains(self, id: TypeId) -> bool
        ensures { result ≡ holds self id.0 }
    {
        match id.0 {
            0..128 => (self.low >> id.0) & 1 == 1,
            128..256 => (self.high >> (id.0 - 128)) & 1 == 1,
            _ => false,
        }
    }

    /// Adds a type.
    pub(crate) fn with(self, id: u8) -> TypeSet
        ensures { (n : ℕ) → holds result n ≡ (holds self n || (n == id)) }
    {
        if id < 128 {
            TypeSet {
                low: self.low | 1 << id,
                high: self.high,
            }
        } else {
            TypeSet {
                low: self.low,
                high: self.high | 1 << (id - 128),
            }
        }
    }

    /// Returns the types that are in either set.
    pub(crate) fn union(self, other: TypeSet) -> TypeSet
        ensures { (n : ℕ) → holds result n ≡ (holds self n || holds other n) }
    {
        TypeSet {
            low: self.low | other.low,
            high: self.high | other.high,
        }
    }

    /// Returns the types that are in this set but not in the other.
    pub(crate) fn without(self, other: TypeSet) -> TypeSet
        ensures { (n : ℕ) → holds result n ≡ (holds self n && not (holds other n)) }
    {
        TypeSet {
            low: self.low & !other.low,
            high: self.high & !other.high,
        }
    }
}
