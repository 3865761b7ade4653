//! The cycles of the classes as a table.

ghost use Rattle.std.specs.Prelude.{◌≡◌, ◌<◌, slice_index};
ghost use Rattle.speed_sim.specs.Tallied.{class_number, AreCosts};

use power_model::{Costs, Power};
use scale_base::Class;

/// The cycles of each class, by its number.
#[derive(Clone, Copy)]
pub struct CostTable {
    pub by_class: [u16; 10],
}

#[inline(always)]
fn class_number(class: Class) -> usize
    ensures is { result ≡ class_number class }
    ensures small { result < 10 }
{
    class as usize
}

impl CostTable {
    pub fn new(costs: &Costs) -> CostTable
        ensures { AreCosts costs.now result.by_class }
    {
        CostTable {
            by_class: [
                costs.alu,
                costs.load,
                costs.store,
                costs.taken,
                costs.untaken,
                costs.jump,
                costs.mul,
                costs.div,
                costs.ecall,
                costs.fence,
            ],
        }
    }

    /// The cycles of a class.
    #[inline(always)]
    pub fn of(&self, class: Class) -> u16
        ensures { result ≡ slice_index self.now.by_class (class_number class) }
    {
        self.by_class[class_number(class)]
    }
}

/// A power model, with the cycles of its classes as a table.
#[derive(Clone, Copy)]
pub struct Prices<'a> {
    pub power: &'a Power,
    pub costs: CostTable,
}

impl<'a> Prices<'a> {
    pub fn new(power: &'a Power) -> Prices<'a>
        ensures power { result.power.now ≡ power.now }
        ensures costs { AreCosts power.now.costs result.costs.by_class }
    {
        Prices {
            power,
            costs: CostTable::new(&power.costs),
        }
    }
}
