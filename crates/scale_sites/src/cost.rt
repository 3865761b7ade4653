//! What marks cost.

ghost use Rattle.std.specs.Prelude.{◌≡◌, ◌≤◌, ◌*◌, ◌+◌, length, true};
ghost use Rattle.scale_base.specs.declared.stepping.Class.{Class};
ghost use Rattle.power_model.specs.Price.{cycles_of};
ghost use Rattle.scale_sites.specs.Weights.{mark_cost, marks_cost, mark_tail, switches, tail_of, extra_of};

use power_model::Costs;
use scale_base::{Class, Mark};

/// The cycles of a mark's code.
pub fn mark_cost(mark: &Mark, costs: &Costs) -> u32
    ensures cost { result ≡ mark_cost costs.now mark.now }
    ensures small { result ≤ 16 * 65535 }
{
    let (stores, loads, alus) = match *mark {
        Mark::Switch => (3, 3, 5),
        Mark::Exit(_) => (4, 5, 7),
        Mark::Reset(_) => (1, 0, 0),
        Mark::Count(_) => (2, 2, 1),
        Mark::Lowest => (1, 0, 0),
        Mark::Tally(_) => (3, 2, 5),
    };
    stores * u32::from(costs.store) + loads * u32::from(costs.load) + alus * u32::from(costs.alu)
}

/// The cycles of the code of some marks.
fn marks_cost(marks: &[Mark], costs: &Costs) -> u32
    requires few { length marks.now ≤ 1600 }
    ensures cost { result ≡ marks_cost costs.now marks.now }
    ensures small { result ≤ 1600 * (16 * 65535) }
{
    let mut total = 0;
    let mut k = marks.len();
    while k > 0 {
        k -= 1;
        total += mark_cost(&marks[k], costs);
    }
    total
}

/// What an edge costs besides its own cycles: its jumps and its marks.
pub fn extra_of(marks: &[Mark], jumps: u8, costs: &Costs) -> u32
    requires few { length marks.now ≤ 1600 }
    requires jumps { jumps ≤ 2 }
    ensures extra { result ≡ extra_of costs.now jumps marks.now }
    ensures small { result ≤ 2 * 65535 + 1600 * (16 * 65535) }
{
    u32::from(jumps) * u32::from(costs.jump) + marks_cost(marks, costs)
}

/// The cycles of a mark's code behind its store at the port, if it were the first of its edge: the loads of what it saved.
pub fn mark_tail(mark: &Mark, costs: &Costs) -> u32
    ensures tail { result ≡ mark_tail costs.now mark.now }
    ensures small { result ≤ 2 * 65535 }
{
    let loads = match *mark {
        Mark::Switch | Mark::Exit(_) | Mark::Reset(_) | Mark::Count(_) => 2,
        Mark::Lowest => 0,
        Mark::Tally(_) => 1,
    };
    loads * u32::from(costs.load)
}

/// The cycles of an edge behind its port store: those of the first mark, the marks behind it, and the closing jump.
pub fn tail_of(marks: &[Mark], costs: &Costs) -> u32
    requires few { length marks.now ≤ 1600 }
    requires switches { switches marks.now ≡ true }
    ensures { result ≡ tail_of costs.now marks.now }
{
    let jump = u32::from(costs.jump);
    mark_tail(&marks[0], costs) + marks_cost(&marks[1..], costs) + jump
}

/// No class costs more than 65,535 cycles.
pub fn small_costs(costs: &Costs)
    ensures { (class : Class) → cycles_of costs.now class ≤ 65535 }
{
    let alu = costs.of(Class::Alu);
    let load = costs.of(Class::Load);
    let store = costs.of(Class::Store);
    let taken = costs.of(Class::Taken);
    let untaken = costs.of(Class::Untaken);
    let jump = costs.of(Class::Jump);
    let mul = costs.of(Class::Mul);
    let div = costs.of(Class::Div);
    let ecall = costs.of(Class::Ecall);
    let fence = costs.of(Class::Fence);
    let _all = [
        alu, load, store, taken, untaken, jump, mul, div, ecall, fence,
    ];
}
