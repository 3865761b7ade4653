//! Loops by their bodies.

ghost use Rattle.std.specs.Prelude.{◌≡◌};

use std::marker::Model;

/// Loops by number: the number of each one's header among the nodes, and those of the nodes in its body, ascending.
#[derive(Drop)]
pub struct NaturalLoops {
    pub headers: Vec<usize>,
    pub bodies: Vec<Vec<usize>>,
}

impl Model for NaturalLoops {
    ghost use Rattle.std.specs.Prelude.{map};
    ghost use Rattle.loop_forest.specs.Found.{LoopsView};

    ghost Value = { LoopsView };

    ghost view = { λ t. record { headers = t.headers.items; bodies = map (λ body. body.items) t.bodies.items } };
}
