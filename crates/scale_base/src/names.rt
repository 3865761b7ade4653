//! The names and the cycles that refusals tell.

ghost use Rattle.std.specs.Prelude.{◌≡◌, ◌<◌, length, slice_index, string_bytes};

use std::marker::Model;

/// A name in a refusal: a key of a file, or the name of a file. Contracts see its bytes.
#[derive(Drop)]
pub struct Name {
    text: String,
}

impl Model for Name {
    ghost use Rattle.std.specs.Prelude.{List, ℕ, string_bytes};

    ghost Value = { List ℕ };

    ghost view = { λ n. string_bytes n.text };
}

impl Name {
    /// The name of this text.
    pub fn new(text: String) -> Name
        ensures { result ≡ string_bytes text }
    {
        Name { text }
    }

    /// The text of the name.
    pub fn text(&self) -> &str
        ensures { result.now ≡ self.now }
    {
        self.text.as_str()
    }
}

/// A cycle in a refusal: addresses, each followed by the next and the last by the first, the least of them first.
/// Contracts see their list.
#[derive(Drop)]
pub struct Cycle {
    items: Vec<u32>,
}

impl Model for Cycle {
    ghost use Rattle.std.specs.Prelude.{List, ℕ};

    ghost Value = { List ℕ };

    ghost view = { λ c. c.items.items };
}

impl Cycle {
    /// The cycle of these addresses.
    pub fn from_vec(items: Vec<u32>) -> Cycle
        ensures { result ≡ items.items }
    {
        Cycle { items }
    }

    /// How many addresses there are.
    pub fn count(&self) -> usize
        ensures { result ≡ length self.now }
    {
        self.items.len()
    }

    /// Address `k`.
    pub fn get(&self, k: usize) -> &u32
        requires { k < length self.now }
        ensures { result.now ≡ slice_index self.now k }
    {
        &self.items[k]
    }
}
