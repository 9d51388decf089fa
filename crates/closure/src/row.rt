// Sets of numbers below 256.
ghost use Rattle.std.specs.Prelude.{◌≡◌, ℕ, ◌<◌, ◌||◌, ◌==◌, false};
ghost use Rattle.closure.specs.Rows.{in_row};

use std::array;

/// A set of numbers below 256, a bit for each.
#[derive(Clone, Copy)]
pub(crate) struct Row {
    words: [u64; 4],
}

impl Row {
    pub(crate) fn empty() -> Row
        ensures { (y : ℕ) → in_row result y ≡ false }
    {
        Row { words: [0; 4] }
    }

    pub(crate) fn has(&self, y: usize) -> bool
        requires { y < 256 }
        ensures { result ≡ in_row self.now y }
    {
        (self.words[y / 64] >> (y % 64)) % 2 == 1
    }

    /// The set gets y.
    pub(crate) fn insert(&mut self, y: usize)
        requires { y < 256 }
        ensures { (z : ℕ) → in_row self.new z ≡ (in_row self.old z || z == y) }
    {
        self.words[y / 64] |= 1 << (y % 64);
    }

    /// The numbers of both sets.
    pub(crate) fn union(self, other: Row) -> Row
        ensures { (y : ℕ) → in_row result y ≡ (in_row self y || in_row other y) }
    {
        Row {
            words: array::from_fn(|i| self.words[i] | other.words[i]),
        }
    }
}
