//! The ends of edges, by the numbers of nodes.

ghost use Rattle.std.specs.Prelude.{◌≡◌, ◌↔◌, ℕ, Some, slice_get};
ghost use Rattle.code_text.specs.Walk.{RiseStrictly};

/// By edge, the number of the node where it starts, and that of the node to which it leads, which an `End` edge doesn't have.
#[derive(Drop)]
pub struct EdgeEnds {
    pub sources: Vec<usize>,
    pub targets: Vec<Option<usize>>,
}

/// The number of the node at an address, by halving.
fn search(nodes: &[u32], at: u32) -> Option<usize>
    requires { RiseStrictly nodes.now }
    ensures { (k : ℕ) → (result ≡ Some k) ↔ (slice_get nodes.now k ≡ Some at) }
{
    nodes.binary_search(&at).ok()
}

/// The number of the node at an address. None exactly where no node is there.
pub fn number_of(nodes: &[u32], at: u32) -> Option<usize>
    requires { RiseStrictly nodes.now }
    ensures { (k : ℕ) → (result ≡ Some k) ↔ (slice_get nodes.now k ≡ Some at) }
{
    // Where each word of the text is reached, the nodes stand without gaps.
    let first = nodes.first().copied().unwrap_or(0);
    let place = (at.wrapping_sub(first) / 4) as usize;
    if place < nodes.len() && nodes[place] == at {
        Some(place)
    } else {
        search(nodes, at)
    }
}
