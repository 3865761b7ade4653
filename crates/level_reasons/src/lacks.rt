//! What the slack of an edge lacks.

ghost use Rattle.std.specs.Prelude.{◌≡◌, ◌<◌, ◌^◌, length};
ghost use Rattle.level_reasons.specs.Reasons.{IsLack, percent_down, percent_up};

use level_tables::EdgeNumbers;
use power_model::Power;

/// The cycles that the slack of an edge lacks for a switch from a level to the next lower one to be in time; 0 where it is.
pub fn lack_of(power: &Power, level: u8, told: EdgeNumbers) -> u128
    requires above { 0 < level }
    requires level { level < length power.now.levels }
    ensures lack { IsLack power.now level told result }
    ensures small { result < 2 ^ 98 }
{
    let lower = level - 1;
    let behind = u128::from(told.left) * u128::from(power.levels.get(lower).period);
    let switch = u128::from(power.switch_time_of(level, lower));
    let need = (behind + switch).div_ceil(u128::from(power.levels.get(level).period));
    let have = u128::from(told.left) + u128::from(told.slack);
    if need > have { need - have } else { 0 }
}

/// Slack as percent of the cycles that may be left before an edge, rounded down.
pub fn percent_down(slack: u128, left: u64) -> u8
    requires { slack < 2 ^ 100 }
    ensures { result ≡ percent_down slack left }
{
    let whole = u128::from(left) + slack;
    if whole == 0 {
        return 0;
    }
    (100 * slack / whole) as u8
}

/// The same, rounded up.
pub fn percent_up(slack: u128, left: u64) -> u8
    requires { slack < 2 ^ 100 }
    ensures { result ≡ percent_up slack left }
{
    let whole = u128::from(left) + slack;
    if whole == 0 {
        return 0;
    }
    (100 * slack).div_ceil(whole) as u8
}
