//! What is counted in, behind a step.

ghost use Rattle.std.specs.Prelude.{◌≡◌, Some, true};
ghost use Rattle.wrapped_intervals.specs.Small.{IsKeptOr};
ghost use Rattle.stack_tables.specs.Tables.{IsStackClaim};
ghost use Rattle.lower_bounds.specs.LowerTables.{counter_view, IsCountedIn, IsStep};

use crate::sums::is_sum_in;
use crate::tables::{Counter, Step};
use crate::words::is_word_in;
use stack_tables::StackClaim;
use wrapped_intervals::Arc;

/// Whether it is in an interval.
pub fn is_counted_in(claim: &StackClaim<'_>, step: Step, counter: Counter, y: Arc) -> bool
    requires claim { IsStackClaim claim.now }
    requires step { IsStep claim.now step }
    requires kept { IsKeptOr (Some y) }
    ensures { result ≡ true → IsCountedIn claim.now step (counter_view counter) y }
{
    match counter {
        Counter::Registers(m) => is_sum_in(claim, step, m, y),
        Counter::Word(counted) => is_word_in(claim, step, counted, y),
    }
}
