//! Sums of two registers with the numbers by which they begin at 0 at the headers of their loops.

ghost use Rattle.std.specs.Prelude.{◌<◌};

use crate::apart::raised;
use crate::forms::Forms;
use crate::lines::line_in;
use crate::states::Facts;
use scale_base::NoMemory;
use std::alloc::Global;
use wrapped_intervals::Measure;

/// By family, what its forms are raised by.
pub fn shifts_of(alloc: Global, forms: &Forms, facts: &[Facts]) -> Result<Vec<u32>, NoMemory> {
    let mut shifts = Vec::new(alloc);
    for family in &forms.families {
        let at_header = family.header.and_then(|header| facts.get(header));
        let shift = match at_header {
            Some(known) => match line_in(&known.lines, family.first) {
                Some(arc) => u32::try_from(arc.low()).unwrap_or(0).wrapping_neg(),
                None => 0,
            },
            None => 0,
        };
        shifts.push(shift)?;
    }
    Ok(shifts)
}

// What a form is raised by.
fn shift_of(forms: &Forms, shifts: &[u32], j: usize) -> u32 {
    match forms.form(j) {
        Some(form) => shifts.get(form.family).copied().unwrap_or(0),
        None => 0,
    }
}

/// The forms as measures.
pub fn measures_of(alloc: Global, forms: &Forms, shifts: &[u32]) -> Result<Vec<Measure>, NoMemory> {
    let mut measures = Vec::new(alloc);
    for (j, form) in forms.forms.iter().enumerate() {
        let measure = form.measure;
        measures.push(Measure {
            shift: measure.shift.wrapping_add(shift_of(forms, shifts, j)),
            ..measure
        })?;
    }
    Ok(measures)
}

/// Raises lines by what their forms are raised by.
pub fn shift_lines(forms: &Forms, shifts: &[u32], facts: &mut [Facts]) {
    for at_node in facts.iter_mut() {
        for line in at_node.lines.iter_mut() {
            if let Some(arc) = raised(Some(line.arc), shift_of(forms, shifts, line.form)) {
                line.arc = arc;
            }
        }
    }
}
