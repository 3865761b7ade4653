//! Cycles of numbers, turned so that the least stands first.

ghost use Rattle.std.specs.Prelude.{◌≡◌, ℕ, ◌<◌, ◌≤◌, ◌++◌, length, take, drop};
ghost use Rattle.graph_algorithms.specs.Arcs.{number_in_place};

/// The place of the first of the least numbers.
fn least_place(numbers: &[u32]) -> usize
    requires some { 0 < length numbers.now }
    ensures within { result < length numbers.now }
    ensures least { (i : ℕ) → i < length numbers.now → number_in_place numbers.now result ≤ number_in_place numbers.now i }
{
    let mut least = 0;
    for i in 0..numbers.len() {
        if numbers[i] < numbers[least] {
            least = i;
        }
    }
    least
}

/// A cycle's numbers with the least first.
pub fn least_first(mut numbers: Vec<u32>) -> Vec<u32>
    requires some { 0 < length numbers.items }
    ensures turned { (k : ℕ) × (k < length numbers.items) × (result.items ≡ drop k numbers.items ++ take k numbers.items) }
    ensures least { (i : ℕ) → i < length result.items → number_in_place result.items 0 ≤ number_in_place result.items i }
{
    let start = least_place(&numbers);
    numbers.rotate_left(start);
    numbers
}
