//! Sums of two registers whose intervals are looked for, and at which nodes.

ghost use Rattle.std.specs.Prelude.{◌<◌};

use crate::befores::before;
use crate::dividing::Divided;
use crate::passing::is_restorable;
use crate::program::Program;
use crate::thresholds::Limit;
use crate::ways::{Way, WayKind};
use scale_base::NoMemory;
use std::alloc::Global;
use value_checks::Line;
use wrapped_intervals::{Measure, effect};

/// How many forms are looked at before a node at most.
pub const MOST_WANTED: usize = 16;

/// How many forms a family has at most.
const MOST_FORMS: usize = 6;

/// The longest interval of a line that says up to where a register may go.
const LONGEST: u32 = 65_536;

/// A form: a sum of two registers, and the number of its family: the forms of which one is made of another by instructions.
#[derive(Clone, Copy)]
pub struct Form {
    pub measure: Measure,
    pub family: usize,
}

/// The forms by number, the first of each family with the node at whose loop it is to begin at 0, if there is one, and by node the numbers of those that are
/// looked for before it; and the registers that loops divide while they count.
#[derive(Drop)]
pub struct Forms {
    pub forms: Vec<Form>,
    pub families: Vec<Family>,
    pub wanted: Vec<Vec<usize>>,
    pub divided: Divided,
    open: Vec<Want>,
}

/// A family: the number of its first form, how many it has, and the header of its loop.
#[derive(Clone, Copy)]
pub struct Family {
    pub first: usize,
    pub count: usize,
    pub header: Option<usize>,
}

// A form at a node, the ways to which are still to be looked at.
#[derive(Clone, Copy)]
struct Want {
    form: usize,
    node: usize,
}

/// The difference of two registers.
pub fn difference(register: u8, other: u8) -> Measure {
    Measure {
        register,
        factor: 1,
        other,
        other_factor: u32::MAX,
        shift: 0,
    }
}

/// The sum of two registers.
pub fn sum(register: u8, other: u8) -> Measure {
    Measure {
        other_factor: 1,
        ..difference(register, other)
    }
}

/// Whether two measures are the same but for a number.
pub fn is_same_sum(m: Measure, n: Measure) -> bool {
    m.register == n.register
        && m.factor == n.factor
        && m.other == n.other
        && m.other_factor == n.other_factor
}

// Whether a measure is of two registers that may be in a form.
fn is_form(m: Measure) -> bool {
    m.register > 1 && m.other > 1 && m.register != m.other
}

fn no_wants(alloc: Global, count: usize) -> Result<Vec<Vec<usize>>, NoMemory> {
    let mut wanted = Vec::new(alloc);
    for _ in 0..count {
        wanted.push(Vec::new(alloc))?;
    }
    Ok(wanted)
}

impl Forms {
    /// No forms.
    pub fn new(alloc: Global, nodes: usize) -> Result<Forms, NoMemory> {
        Ok(Forms {
            forms: Vec::new(alloc),
            families: Vec::new(alloc),
            wanted: no_wants(alloc, nodes)?,
            divided: Divided::none(alloc),
            open: Vec::new(alloc),
        })
    }

    /// The form of a number.
    pub fn form(&self, j: usize) -> Option<Form> {
        self.forms.get(j).copied()
    }

    /// The register that a line of a difference with another one is of, and beyond which number it may not go, where the other one has a limit and the line
    /// says something.
    pub fn solved(&self, line: &Line, other: u8, limit: Limit) -> Option<(u8, Limit)> {
        let m = self.form(line.form)?.measure;
        let low = u32::try_from(line.arc.low()).ok()?;
        let more = u32::try_from(line.arc.more()).ok()?;
        if !is_same_sum(m, difference(m.register, other)) || more > LONGEST {
            return None;
        }
        let apart = if limit.is_upper {
            low.wrapping_add(more)
        } else {
            low
        };
        Some((m.register, limit.raised(apart.wrapping_sub(m.shift))))
    }

    /// Those that are looked for before a node.
    pub fn wanted_at(&self, k: usize) -> &[usize] {
        match self.wanted.get(k) {
            Some(row) => row,
            None => &[],
        }
    }

    /// Begins a family with one form, and answers that.
    pub fn begin_family(
        &mut self,
        measure: Measure,
        header: Option<usize>,
    ) -> Result<usize, NoMemory> {
        let first = self.forms.len();
        self.forms.push(Form {
            measure,
            family: self.families.len(),
        })?;
        self.families.push(Family {
            first,
            count: 1,
            header,
        })?;
        Ok(first)
    }

    // The form of a family that is a measure but for a number, where there is one.
    fn find_in(&self, family: Family, measure: Measure) -> Option<usize> {
        for j in family.first..family.first.saturating_add(family.count) {
            if self
                .form(j)
                .is_some_and(|form| is_same_sum(form.measure, measure))
            {
                return Some(j);
            }
        }
        None
    }

    // The same, which is made where there is room for it: at the end of the last family.
    fn relative(&mut self, number: usize, measure: Measure) -> Result<Option<usize>, NoMemory> {
        let Some(family) = self.families.get(number).copied() else {
            return Ok(None);
        };
        if let Some(j) = self.find_in(family, measure) {
            return Ok(Some(j));
        }
        let next = self.forms.len();
        if family.count >= MOST_FORMS || family.first.saturating_add(family.count) != next {
            return Ok(None);
        }
        self.forms.push(Form {
            measure: Measure {
                shift: 0,
                ..measure
            },
            family: number,
        })?;
        if number < self.families.len() {
            self.families[number].count = family.count.saturating_add(1);
        }
        Ok(Some(next))
    }

    /// Looks for a form before a node, if there is room. Whether it is new there.
    pub fn add(&mut self, j: usize, k: usize) -> Result<bool, NoMemory> {
        if let Some(row) = self.wanted.get_mut(k) {
            if row.len() < MOST_WANTED && !row.contains(&j) {
                row.push(j)?;
                return Ok(true);
            }
        }
        Ok(false)
    }

    // Looks for a form before a node, and then before those from which ways lead there.
    fn want(&mut self, program: &Program, j: usize, k: usize) -> Result<(), NoMemory> {
        if k != program.start() && self.add(j, k)? {
            self.open.push(Want { form: j, node: k })?;
        }
        Ok(())
    }

    // The same over a step to a node: of the form that it was before.
    fn want_before_step(
        &mut self,
        program: &Program,
        j: usize,
        from: usize,
    ) -> Result<(), NoMemory> {
        let (Some(form), Some(node)) = (self.form(j), program.node(from)) else {
            return Ok(());
        };
        if effect(form.measure, node.instr).is_some() {
            return self.want(program, j, from);
        }
        match before(form.measure, node.instr) {
            Some(measure) if is_form(measure) => {
                match self.relative(form.family, measure)? {
                    Some(k) => self.want(program, k, from),
                    None => Ok(()),
                }
            }
            _ => Ok(()),
        }
    }

    // And behind a call, where the registers are those that functions give back.
    fn want_before_call(
        &mut self,
        program: &Program,
        j: usize,
        from: usize,
    ) -> Result<(), NoMemory> {
        match self.form(j) {
            Some(form)
                if is_restorable(form.measure.register) && is_restorable(form.measure.other) => {
                self.want(program, j, from)
            }
            _ => Ok(()),
        }
    }

    fn want_before(&mut self, program: &Program, j: usize, way: &Way) -> Result<(), NoMemory> {
        match way.kind {
            WayKind::Step => self.want_before_step(program, j, way.from),
            WayKind::Back(_) => self.want_before_call(program, j, way.from),
            _ => Ok(()),
        }
    }

    // Looks at the ways to a node.
    fn look_at(&mut self, program: &Program, want: Want) -> Result<(), NoMemory> {
        let mut next = program.last_way_to(want.node);
        for _ in 0..program.ways.len() {
            let Some(way) = next.and_then(|w| program.way(w)) else {
                break;
            };
            self.want_before(program, want.form, &way)?;
            next = way.beside;
        }
        Ok(())
    }

    /// Looks for a form before a node, and wherever it comes there from.
    pub fn want_from(&mut self, program: &Program, j: usize, k: usize) -> Result<(), NoMemory> {
        self.want(program, j, k)?;
        let most = program.nodes.len().saturating_mul(MOST_FORMS);
        for _ in 0..most {
            match self.open.pop() {
                Some(want) => self.look_at(program, want)?,
                None => break,
            }
        }
        self.open.clear();
        Ok(())
    }
}
