//! Intervals of sums of two registers that flow over a way, and of registers by them.

ghost use Rattle.std.specs.Prelude.{◌≡◌, ◌<◌, length, true};

use crate::apart::raised;
use crate::arcs::{WORDS, kept, shorter};
use crate::areas::access_of;
use crate::befores::{before, turned};
use crate::forms::{Forms, MOST_WANTED, difference, is_same_sum};
use crate::passing::Step;
use crate::rows::{
    compared_line, is_different, lessened_arc, line_of_row, passed_word, solved_arc, unknown,
    within,
};
use crate::states::{Facts, State};
use scale_base::{Instr, RegOp};
use value_checks::Line;
use wrapped_intervals::{Arc, Measure, effect, keeps, said_by};

/// The longest interval of a register by a line that says anything.
const LONGEST: u64 = 0x4000_0000;

/// A form over a way: its interval by what it was before the instruction, by the registers behind the instruction, and by those before.
#[derive(Clone, Copy)]
pub struct Flowing {
    pub form: usize,
    pub by_line: Option<Arc>,
    pub by_row: Option<Arc>,
    pub by_source: Option<Arc>,
}

impl Flowing {
    /// The shortest of them: of those that are as long as another, the one by what it was before, since a loop ends by what branches have taken from that.
    pub fn shortest(&self) -> Option<Arc> {
        shorter(shorter(self.by_row, self.by_source), self.by_line)
    }
}

/// What flows over a way of forms.
#[derive(Clone, Copy)]
pub struct Lines {
    items: [Option<Flowing>; 16],
    count: usize,
}

impl Lines {
    /// Nothing.
    pub fn none() -> Lines {
        Lines {
            items: [None; 16],
            count: 0,
        }
    }

    /// Forgets all.
    pub fn clear(&mut self) {
        self.count = 0;
    }

    fn add(&mut self, flowing: Flowing) {
        if self.count < MOST_WANTED {
            self.items[self.count] = Some(flowing);
            self.count += 1;
        }
    }

    /// Adds what is known of a form before a call.
    pub fn keep(&mut self, form: usize, arc: Option<Arc>) {
        self.add(Flowing {
            form,
            by_line: arc,
            by_row: None,
            by_source: None,
        });
    }

    /// How many there are.
    pub fn count(&self) -> usize {
        self.count.min(MOST_WANTED)
    }

    /// The one of a place.
    pub fn at(&self, place: usize) -> Option<Flowing> {
        if place < self.count {
            self.items.get(place).copied().flatten()
        } else {
            None
        }
    }

    /// The one of a form.
    pub fn of(&self, form: usize) -> Option<Flowing> {
        for place in 0..self.count() {
            match self.at(place) {
                Some(flowing) if flowing.form == form => return Some(flowing),
                _ => {}
            }
        }
        None
    }
}

/// What is known of a form in a row.
pub fn line_in(lines: &[Line], form: usize) -> Option<Arc> {
    for line in lines {
        if line.form == form {
            return Some(line.arc);
        }
    }
    None
}

// An interval that says something.
fn telling(arc: Option<Arc>) -> Option<Arc> {
    match kept(arc) {
        Some(i) if i.more() < WORDS - 1 => Some(i),
        _ => None,
    }
}

// Without a number, which is an end of the interval.
fn without(arc: Option<Arc>, n: u32) -> Option<Arc> {
    let i = arc?;
    let n = u64::from(n);
    let stride = i.stride();
    if i.low() == n && i.more() >= stride {
        let low = i.low().saturating_add(stride) % WORDS;
        Some(Arc::strided(low, i.more() - stride, stride))
    } else if (i.low().saturating_add(i.more())) % WORDS == n {
        let back = if stride > 0 && i.more() % stride == 0 {
            stride
        } else {
            1
        };
        if i.more() >= back {
            Some(Arc::strided(i.low(), i.more() - back, stride))
        } else {
            Some(i)
        }
    } else {
        Some(i)
    }
}

/// A step from a node, and the forms that are looked for.
#[derive(Clone, Copy)]
pub struct Tracing<'a> {
    pub forms: &'a Forms,
    pub step: Step,
    pub from: &'a Facts,
}

impl Tracing<'_> {
    // The interval of a register behind the instruction.
    fn passed(&self, r: u8) -> Option<Arc> {
        let step = self.step;
        passed_word(step.instr, step.at, step.next, &self.from.row, r)
    }

    // The interval of a measure, by a line of it but for a number.
    fn line_of_measure(&self, m: Measure) -> Option<Arc> {
        for line in &self.from.lines {
            if let Some(more) = self.more_than(line.form, m) {
                return raised(Some(line.arc), more);
            }
        }
        None
    }

    // How much more a measure is than a form, where they are the same but for a number.
    fn more_than(&self, j: usize, m: Measure) -> Option<u32> {
        let form = self.forms.form(j)?.measure;
        if is_same_sum(form, m) || is_same_sum(turned(form), m) {
            Some(m.shift.wrapping_sub(form.shift))
        } else {
            None
        }
    }

    // By what it was before the instruction.
    fn by_line(&self, j: usize, m: Measure) -> Option<Arc> {
        match effect(m, self.step.instr) {
            Some(0) => self.told(line_in(&self.from.lines, j), m),
            Some(added) => raised(line_in(&self.from.lines, j), added),
            None => self.line_of_measure(before(m, self.step.instr)?),
        }
    }

    // A line of a measure to which nothing is added, with what the branch says of it: that its registers differ, or by how much.
    fn told(&self, line: Option<Arc>, m: Measure) -> Option<Arc> {
        let said = said_by(self.step.instr, self.step.at, self.step.next);
        let met = compared_line(said, m, &line, &self.from.row);
        if met == line && is_different(said, m, &self.from.row) {
            without(line, m.shift)
        } else {
            met
        }
    }

    // By the registers before the instruction.
    fn by_source(&self, m: Measure) -> Option<Arc> {
        if effect(m, self.step.instr).is_some() {
            return None;
        }
        line_of_row(before(m, self.step.instr)?, &self.from.row)
    }

    // By the registers behind it.
    fn by_row(&self, m: Measure) -> Option<Arc> {
        let mut row = unknown();
        for r in [m.register, m.other] {
            if r < 32 {
                row[usize::from(r)] = self.passed(r);
            }
        }
        line_of_row(m, &row)
    }

    fn flowing(&self, j: usize) -> Option<Flowing> {
        let m = self.forms.form(j)?.measure;
        Some(Flowing {
            form: j,
            by_line: telling(self.by_line(j, m)),
            by_row: telling(self.by_row(m)),
            by_source: telling(self.by_source(m)),
        })
    }

    /// Puts what flows to a node of the forms that are looked for there.
    pub fn put_lines(&self, to_node: usize, to: &mut State) {
        to.lines.clear();
        for j in self.forms.wanted_at(to_node) {
            if let Some(flowing) = self.flowing(*j) {
                to.lines.add(flowing);
            }
        }
    }

    // The interval of a register by a line of it.
    fn solved_by(&self, line: &Line) -> Option<(u8, Arc)> {
        let m = self.forms.form(line.form)?.measure;
        let added = effect(m, self.step.instr)?;
        self.passed(m.register)?;
        let sum = raised(Some(line.arc), added);
        let other = self.passed(m.other);
        let arc = solved_arc(m, &sum, &other)?;
        if m.factor == 1 && arc.more() < LONGEST {
            Some((m.register, arc))
        } else {
            None
        }
    }

    // What a line says of the difference of words that the instruction writes.
    fn subtracted(&self) -> Option<(u8, Arc)> {
        match self.step.instr {
            Instr::Reg {
                op: RegOp::Sub,
                rd,
                rs1,
                rs2,
            } => {
                let _word = self.from.row.get(usize::from(rs2)).copied().flatten()?;
                Some((rd, self.line_of_measure(difference(rs1, rs2))?))
            }
            _ => None,
        }
    }

    // Puts it.
    fn put_subtracted(&self, to: &mut State) {
        if let Some((r, arc)) = self.subtracted() {
            if arc.more() < LONGEST {
                to.solve(usize::from(r), Some(arc), Some(arc));
            }
        }
    }

    // What a sum says of its first register, by its interval and where its other register may be.
    fn solution(&self, m: Measure, line: &Line, place: &Option<Arc>) -> Option<Arc> {
        if m.factor == 1 {
            solved_arc(m, &Some(line.arc), place)
        } else if m.factor == u32::MAX {
            lessened_arc(m, &Some(line.arc), place)
        } else {
            None
        }
    }

    // The interval of a register that is left by a sum of it with one through which the instruction loads or stores.
    fn solved_by_access(&self, m: Measure, line: &Line, place: &Option<Arc>, to: &mut State) {
        let k = usize::from(m.register);
        let passed = self.passed(m.register);
        if passed.is_none() || k == 0 || k >= 32 || !keeps(m.register, self.step.instr) {
            return;
        }
        if let Some(arc) = self.solution(m, line, place) {
            if arc.more() < LONGEST {
                to.solve(k, Some(arc), within(&Some(arc), &passed));
            }
        }
    }

    // Puts what sums say of registers by where an access may be.
    fn put_accessed(&self, areas: &[Arc], to: &mut State) {
        let Some(access) = access_of(self.step.instr) else {
            return;
        };
        let place = access.held(areas, &self.from.row);
        if place.is_none() {
            return;
        }
        for line in &self.from.lines {
            if let Some(form) = self.forms.form(line.form) {
                for m in [form.measure, turned(form.measure)] {
                    if m.other == access.register {
                        self.solved_by_access(m, line, &place, to);
                    }
                }
            }
        }
    }

    /// Puts what lines say of registers, where loads and stores may be in some areas.
    pub fn put_solved(&self, areas: &[Arc], to: &mut State) {
        self.put_subtracted(to);
        self.put_accessed(areas, to);
        for line in &self.from.lines {
            if let Some((r, arc)) = self.solved_by(line) {
                let place = usize::from(r);
                let met = within(&Some(arc), &self.passed(r));
                to.solve(place, Some(arc), met);
            }
        }
    }
}
