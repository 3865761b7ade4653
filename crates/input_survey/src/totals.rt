//! What the lines of a survey come to.

ghost use Rattle.std.specs.Prelude.{◌≡◌, ◌≤◌, ◌<◌, ◌^◌, length, map, cond};
ghost use Rattle.std.specs.List.{All};
ghost use Rattle.power_model.specs.Survey.{line_view};
ghost use Rattle.input_survey.specs.Surveyed.{is_kept, totals_of};
ghost use Rattle.input_survey.specs.Totals.{with_line, AreSummed};

use power_model::{Power, SurveyLine, Totals};
use scale_base::Kept;

fn is_kept(kept: Kept) -> bool
    ensures { result ≡ is_kept kept }
{
    match kept {
        Kept::Kept => true,
        _ => false,
    }
}

fn one_if(holds: bool) -> u32
    ensures { result ≡ cond holds 1 0 }
{
    if holds { 1 } else { 0 }
}

/// The totals with one line more.
fn with_line(totals: &Totals, power: &Power, line: &SurveyLine) -> Totals
    requires few { totals.now.inputs < 64 }
    requires summed { AreSummed totals.now }
    requires held { line.now.held < 2 ^ 100 }
    ensures with_line { result ≡ with_line power.now totals.now (line_view line.now) }
    ensures summed { AreSummed result }
{
    let meter = &line.meter;
    let scaled = &line.scaled_meter;
    Totals {
        inputs: totals.inputs + 1,
        kept: totals.kept + one_if(is_kept(line.kept)),
        late: totals.late + one_if(u128::from(power.deadline) < scaled.time),
        differ: totals.differ + one_if(!line.same),
        cycles: totals.cycles + u128::from(meter.cycles),
        scaled_cycles: totals.scaled_cycles + u128::from(scaled.cycles),
        energy: totals.energy + scaled.energy,
        held: totals.held + line.held,
        switches: totals.switches + u128::from(scaled.switches),
    }
}

/// The totals of the lines.
pub fn totals_of(power: &Power, lines: &[SurveyLine]) -> Totals
    requires few { length lines.now ≤ 64 }
    requires held { All (λ line. line.held < 2 ^ 100) lines.now }
    ensures { result ≡ totals_of power.now (map line_view lines.now) }
{
    let mut totals = Totals {
        inputs: 0,
        kept: 0,
        late: 0,
        differ: 0,
        cycles: 0,
        scaled_cycles: 0,
        energy: 0,
        held: 0,
        switches: 0,
    };
    for line in lines {
        totals = with_line(&totals, power, line);
    }
    totals
}
