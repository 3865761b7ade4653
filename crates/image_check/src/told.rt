//! What edges with an exit tell their tables.

ghost use Rattle.std.specs.Prelude.{◌<◌, ◌≤◌, ◌*◌, ◌^◌};
ghost use Rattle.scale_base.specs.declared.limits.TheConstants.{CYCLE_LIMIT};

use level_tables::EdgeNumbers;

/// What an edge with an exit tells the rows of its table: its own numbers, the bound of the exit's loop, the cycles of one of its iterations, and by how many
/// bits a count is shifted to number a row.
#[derive(Clone, Copy)]
pub struct ExitTold {
    pub told: EdgeNumbers,
    pub bound: u32,
    pub iteration: u64,
    pub shift: u8,
    ghost small_slack: { told.slack ≤ 2 ^ 50 },
    ghost small_bound: { bound ≤ 1000000000 },
    ghost small_shift: { shift < 32 },
    ghost small_turns: { bound * iteration ≤ CYCLE_LIMIT },
}
