//! The weights of edges.

ghost use Rattle.std.specs.Prelude.{◌≡◌, ◌<◌, length, map, slice_index, IfOk};
ghost use Rattle.power_model.specs.Price.{cycles_of};
ghost use Rattle.code_text.specs.EdgeCosts.{cost_of};

use power_model::Costs;
use scale_base::{Class, NoMemory};
use std::alloc::Global;
use std::marker::Model;

/// A weight for each edge, in cycles. Contracts see their list.
#[derive(Drop)]
pub struct Weights {
    items: Vec<u32>,
}

impl Model for Weights {
    ghost use Rattle.std.specs.Prelude.{List, ℕ};

    ghost Value = { List ℕ };

    ghost view = { λ w. w.items.items };
}

impl Weights {
    /// The list of these weights.
    pub fn from_vec(items: Vec<u32>) -> Weights
        ensures { result ≡ items.items }
    {
        Weights { items }
    }

    /// How many weights there are.
    pub fn count(&self) -> usize
        ensures { result ≡ length self.now }
    {
        self.items.len()
    }

    /// The weight of edge `e`.
    pub fn get(&self, e: usize) -> &u32
        requires { e < length self.now }
        ensures { result.now ≡ slice_index self.now e }
    {
        &self.items[e]
    }
}

/// The cost of a step of a class, if it has one.
fn cost(costs: &Costs, class: Option<Class>) -> u32
    ensures { result ≡ cost_of (cycles_of costs.now) class }
{
    match class {
        Some(class) => u32::from(costs.of(class)),
        None => 0,
    }
}

/// The costs of steps, by their classes.
pub fn weights_of(
    alloc: Global,
    costs: &Costs,
    classes: &[Option<Class>],
) -> Result<Weights, NoMemory>
    ensures { IfOk result (λ weights. weights ≡ map (cost_of (cycles_of costs.now)) classes.now) }
{
    let mut items = Vec::new(alloc);
    for class in classes {
        items.push(cost(costs, *class))?;
    }
    Ok(Weights { items })
}
