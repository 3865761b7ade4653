//! Sets of loops as the bits of a word.

ghost use Rattle.std.specs.Prelude.{◌≡◌, ℕ, ◌<◌, ◌↔◌, ◌⊎◌, true, length};
ghost use Rattle.graph_algorithms.specs.Groups.{HasBit, IsFlagged};

/// Whether a bit of a word is set.
pub fn has_bit(word: u64, bit: usize) -> bool
    requires { bit < 64 }
    ensures { (result ≡ true) ↔ HasBit word bit }
{
    word & (1 << bit) != 0
}

/// Sets a bit in the word of a node.
pub fn set_bit(words: &mut [u64], node: usize, bit: usize)
    requires node { node < length words.old }
    requires bit { bit < 64 }
    ensures size { length words.new ≡ length words.old }
    ensures bits { (v i : ℕ) → IsFlagged words.new v i ↔ (IsFlagged words.old v i ⊎ ((v ≡ node) × (i ≡ bit))) }
{
    words[node] |= 1 << bit;
}
