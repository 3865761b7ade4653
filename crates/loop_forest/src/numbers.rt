//! Ascending numbers.

ghost use Rattle.std.specs.Prelude.{◌≡◌};
ghost use Rattle.cost_theory.specs.Lists.{is_among};
ghost use Rattle.loop_forest.specs.Stored.{IsRising};

/// Whether a number is among others, which ascend.
pub fn has_number(numbers: &[usize], number: usize) -> bool
    requires { IsRising numbers.now }
    ensures { result ≡ is_among number numbers.now }
{
    numbers.binary_search(&number).is_ok()
}
