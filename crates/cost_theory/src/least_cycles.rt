//! Laws of the least cycles.

ghost use Rattle.cost_theory.specs.Laws.{TurnsTakeLeast};

/// A walk along which no loop is left before its least number of turns costs at least the least cost that is charged with
/// these turns.
pub fn turns_take_the_least()
    ensures { TurnsTakeLeast }
{}
