//! How often each edge is taken, from how often the parts are gone.

ghost use Rattle.std.specs.Prelude.{◌≡◌, ℕ, ◌+◌, ◌*◌, ◌<◌, true, length, IfOk, IfSome};
ghost use Rattle.cost_theory.specs.Graph.{total, sum_below};
ghost use Rattle.graph_algorithms.specs.Arcs.{number_in_place};
ghost use Rattle.graph_algorithms.specs.Nesting.{bodies_of};
ghost use Rattle.worst_walks.specs.Tallies.{taken_sum, lists_sum};

use crate::tallies::add;

/// Takes each edge of a list so many times more.
fn take_list(edges: &[usize], times: u64, taken: &mut Vec<u64>) -> bool
    ensures size { length taken.new.items ≡ length taken.old.items }
    ensures taken { result ≡ true → (c : ℕ → ℕ) → taken_sum taken.new.items c ≡ taken_sum taken.old.items c + times * total c edges.now }
{
    for e in edges {
        if !add(taken, *e, times, 1) {
            return false;
        }
    }
    true
}

/// Takes each edge of some lists so many times more as is said for its list.
pub fn take_lists(lists: &[Vec<usize>], times: &[u64], taken: &mut Vec<u64>) -> bool
    requires { length times.now ≡ length lists.now }
    ensures size { length taken.new.items ≡ length taken.old.items }
    ensures taken { result ≡ true → (c : ℕ → ℕ) → taken_sum taken.new.items c ≡ taken_sum taken.old.items c + lists_sum (length lists.now)
        (bodies_of lists.now) times.now c }
{
    for l in 0..lists.len() {
        if !take_list(&lists[l], times[l], taken) {
            return false;
        }
    }
    true
}
