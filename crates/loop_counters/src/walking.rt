//! What is known, at each node of a loop, of registers and of words of the stack, by what stood in places when the header was last come to; and
//! whether memory was accessed since where a pointer points, and gave what is looked for.

ghost use Rattle.std.specs.Prelude.{◌<◌};

use crate::relating::target_of;
use crate::scope::{Callee, Scope};
use crate::stores::{is_missed, is_safe, loaded_word, stored_word};
use crate::traced::{Value, joined, scaled, sum};
use crate::turning::Numbers;
use scale_base::{ImmOp, Instr, NoMemory, RegOp};
use std::alloc::Global;
use walk_checks::Sought;
use wrapped_intervals::{Arc, keeps};

/// How many words of the stack are looked at.
pub const MOST_WORDS: usize = 16;

/// The number of the place of the first of them.
pub const FIRST_WORD: u8 = 32;

/// How many words there are.
const WORDS: u64 = 4_294_967_296;

/// How often the nodes of a loop are looked at.
const PASSES: usize = 6;

/// From this pass on, what changes is forgotten.
const LAST_PASSES: usize = 2;

/// The words of the stack that a loop loads or stores, by their numbers.
#[derive(Drop)]
pub struct Words {
    pub numbers: Vec<u32>,
}

impl Words {
    // Adds a word once.
    fn note(&mut self, number: Option<u32>) -> Result<(), NoMemory> {
        if let Some(number) = number {
            if self.numbers.len() < MOST_WORDS && !self.numbers.contains(&number) {
                self.numbers.push(number)?;
            }
        }
        Ok(())
    }

    /// Those of a loop.
    pub fn of(alloc: Global, scope: &Scope<'_>) -> Result<Words, NoMemory> {
        let mut words = Words {
            numbers: Vec::new(alloc),
        };
        for k in scope.nodes {
            if scope.is_live(*k) {
                words.note(loaded_word(scope, *k))?;
                if let Some(stored) = stored_word(scope, *k) {
                    words.note(Some(stored.number))?;
                }
            }
        }
        Ok(words)
    }
}

/// What is known before a node: of registers, of the words that are looked at, whether memory was accessed and gave what is looked for, and
/// the register with what it gave.
#[derive(Clone, Copy)]
pub struct Standing {
    pub row: [Option<Value>; 32],
    pub words: [Option<Value>; MOST_WORDS],
    pub touched: bool,
    pub holder: Option<u8>,
}

impl Standing {
    /// Nothing is known.
    pub fn nothing() -> Standing {
        Standing {
            row: [None; 32],
            words: [None; MOST_WORDS],
            touched: false,
            holder: None,
        }
    }

    /// What is known of a place.
    pub fn of(&self, place: u8) -> Option<Value> {
        if place < FIRST_WORD {
            self.row[usize::from(place)]
        } else {
            self.word(usize::from(place - FIRST_WORD))
        }
    }

    /// And of a word, by its place among those that are looked at.
    pub fn word(&self, j: usize) -> Option<Value> {
        if j < MOST_WORDS { self.words[j] } else { None }
    }

    fn set_word(&mut self, j: usize, value: Option<Value>) {
        if j < MOST_WORDS {
            self.words[j] = value;
        }
    }

    fn set(&mut self, r: u8, value: Option<Value>) {
        if 0 < r && r < 32 {
            self.row[usize::from(r)] = value;
        }
    }

    /// A place has what stood in it.
    pub fn begin(&mut self, place: u8) {
        if place < FIRST_WORD {
            self.set(place, Some(Value::itself(place)));
        } else {
            self.set_word(usize::from(place - FIRST_WORD), Some(Value::itself(place)));
        }
    }
}

// What the instruction of node k finds in a register.
fn operand(scope: &Scope<'_>, known: &Standing, k: usize, r: u8) -> Option<Value> {
    if 0 < r && r < 32 {
        let value = known.row[usize::from(r)];
        if value.is_some() {
            return value;
        }
    }
    Value::of_arc(scope.arc(k, r))
}

// The value, where it depends on a place.
fn traced(value: Option<Value>) -> Option<Value> {
    let value = value?;
    if value.is_traced() { Some(value) } else { None }
}

// What a register holds to which a number is added.
fn by_number(scope: &Scope<'_>, known: &Standing, k: usize, r: u8, by: u32) -> Option<Value> {
    Some(operand(scope, known, k, r)?.moved(by))
}

// What an instruction leaves in the register that it writes, but for a word that it loads.
fn written(scope: &Scope<'_>, known: &Standing, k: usize) -> Option<Value> {
    match scope.instr(k) {
        Instr::Imm {
            op: ImmOp::Addi,
            rs1,
            imm,
            ..
        } => by_number(scope, known, k, rs1, imm.cast_unsigned()),
        Instr::Imm {
            op: ImmOp::Slli,
            rs1,
            imm,
            ..
        } => scaled(
            operand(scope, known, k, rs1)?,
            1u32 << (imm.cast_unsigned() % 32),
        ),
        Instr::Reg {
            op: RegOp::Add,
            rs1,
            rs2,
            ..
        } => sum(
            operand(scope, known, k, rs1)?,
            operand(scope, known, k, rs2)?,
        ),
        _ => None,
    }
}

// The register by which an instruction accesses memory, and how far from what it holds.
fn access_of(instr: Instr) -> Option<(u8, u32)> {
    match instr {
        Instr::Load { rs1, offset, .. } => Some((rs1, offset.cast_unsigned())),
        Instr::Store { rs1, offset, .. } => Some((rs1, offset.cast_unsigned())),
        _ => None,
    }
}

/// Where the instruction of a node accesses memory, where that depends on a place.
pub fn accessed(scope: &Scope<'_>, known: &Standing, k: usize) -> Option<Value> {
    let (r, by) = access_of(scope.instr(k))?;
    traced(by_number(scope, known, k, r, by))
}

/// The interval of the addresses that it accesses, by that of the register.
pub fn address_of(scope: &Scope<'_>, k: usize) -> Option<Value> {
    let (r, by) = access_of(scope.instr(k))?;
    Some(Value::of_arc(scope.arc(k, r))?.moved(by))
}

// What a loaded word holds.
fn loaded(words: &Words, known: &Standing, number: u32) -> Option<Value> {
    for j in 0..words.numbers.len() {
        if words.numbers[j] == number {
            return known.word(j);
        }
    }
    None
}

// What is in a word behind a node that may store to it.
fn stored(scope: &Scope<'_>, known: &Standing, k: usize, number: u32) -> Option<Value> {
    match stored_word(scope, k) {
        Some(stored) if stored.number == number => {
            traced(operand(scope, known, k, stored.register))
        }
        _ => None,
    }
}

// Notes what a node stores to words.
fn store(scope: &Scope<'_>, words: &Words, known: &mut Standing, k: usize) {
    let before = *known;
    for j in 0..words.numbers.len() {
        let number = words.numbers[j];
        if !is_missed(scope, k, number) {
            known.set_word(j, stored(scope, &before, k, number));
        }
    }
}

// Behind an instruction that is no call.
fn behind_step(scope: &Scope<'_>, words: &Words, known: &Standing, k: usize) -> Standing {
    let instr = scope.instr(k);
    let left = match loaded_word(scope, k) {
        Some(number) => loaded(words, known, number),
        None => traced(written(scope, known, k)),
    };
    let mut then = *known;
    if matches!(&instr, Instr::Store { .. } | Instr::Ecall) {
        store(scope, words, &mut then, k);
    }
    then.set(target_of(instr), left);
    then.holder = kept_holder(known.holder, instr);
    then
}

// The register with what was loaded, where an instruction leaves it.
fn kept_holder(holder: Option<u8>, instr: Instr) -> Option<u8> {
    match holder {
        Some(r) if keeps(r, instr) => Some(r),
        _ => None,
    }
}

// The register with what was loaded, unless it is this one.
fn kept_unless(holder: Option<u8>, r: u8) -> Option<u8> {
    if holder == Some(r) { None } else { holder }
}

// Behind a call that comes back.
fn behind_call(
    scope: &Scope<'_>,
    words: &Words,
    known: &Standing,
    k: usize,
    callee: Callee,
) -> Standing {
    let mut then = *known;
    for r in 1..32 {
        if !scope.restores(callee.function, r) || !keeps(r, scope.instr(k)) {
            then.set(r, None);
            then.holder = kept_unless(then.holder, r);
        }
    }
    for j in 0..words.numbers.len() {
        if !is_safe(scope, k, callee, words.numbers[j]) {
            then.set_word(j, None);
        }
    }
    then
}

/// A loop that is looked at: its words, its nodes' numbers in it, and where memory has to be accessed and what is looked for there, if that is
/// told.
#[derive(Clone, Copy)]
pub struct Look<'a> {
    pub scope: &'a Scope<'a>,
    pub words: &'a Words,
    pub numbers: &'a Numbers,
    pub aim: Option<Value>,
    pub sought: Option<Sought>,
}

impl<'a> Look<'a> {
    // Whether a node accesses memory there.
    fn is_aimed(&self, known: &Standing, k: usize) -> bool {
        match self.aim {
            Some(aim) => accessed(self.scope, known, k) == Some(aim),
            None => false,
        }
    }

    // Whether a node makes the first access there of a turn.
    fn is_first(&self, walk: &Walk, k: usize) -> bool {
        match walk.at(self.numbers.of(k)) {
            Some(known) => self.scope.is_live(k) && !known.touched && self.is_aimed(&known, k),
            None => false,
        }
    }

    /// An interval that holds the addresses of the first accesses of all turns, where they are known.
    pub fn reach(&self, walk: &Walk) -> Option<Arc> {
        let mut all: Option<Option<Value>> = None;
        for k in self.scope.nodes {
            if self.is_first(walk, *k) {
                let address = address_of(self.scope, *k);
                all = Some(match all {
                    Some(known) => joined(known, address),
                    None => address,
                });
            }
        }
        let reach = all??;
        Some(Arc::of(u64::from(reach.low), u64::from(reach.more)))
    }

    // What is known behind the instruction of a node.
    fn behind(&self, known: &Standing, k: usize) -> Standing {
        match self.scope.callee_of(k) {
            Some(callee) => behind_call(self.scope, self.words, known, k, callee),
            None => {
                let mut then = behind_step(self.scope, self.words, known, k);
                if self.is_aimed(known, k) {
                    self.note_access(&mut then, k);
                }
                then
            }
        }
    }

    // Notes what a node accesses there.
    fn note_access(&self, then: &mut Standing, k: usize) {
        match (self.sought, self.scope.instr(k)) {
            (None, _) => then.touched = true,
            (Some(sought), Instr::Load { op, rd, .. }) => {
                if op == sought.op && 0 < rd && rd < 32 {
                    then.holder = Some(rd);
                }
            }
            _ => {}
        }
    }

    // Whether what was loaded shows to be what is looked for, on the way from a node to another.
    fn is_found(&self, known: &Standing, k: usize, to: usize) -> bool {
        match (self.sought, known.holder) {
            (Some(sought), Some(r)) if keeps(r, self.scope.instr(k)) => {
                is_wanted(sought, self.scope.arc_on(k, to, r))
            }
            _ => false,
        }
    }
}

// Whether an interval is in that of what is looked for.
fn is_wanted(sought: Sought, arc: Option<Arc>) -> bool {
    let Some(arc) = arc else {
        return false;
    };
    let first = arc.low().wrapping_sub(sought.wanted.low()) % WORDS;
    first.saturating_add(arc.more()) <= sought.wanted.more()
}

// What both say, or nothing where it goes on changing.
fn met(p: Option<Value>, q: Option<Value>, ends: bool) -> Option<Value> {
    let both = joined(p, q);
    if ends && both != p { None } else { both }
}

impl Standing {
    // Takes what another way says of registers as well. Whether it says less now.
    fn join_rows(&mut self, other: &Standing, ends: bool) -> bool {
        let mut changed = false;
        for r in 0..32 {
            let both = met(self.row[r], other.row[r], ends);
            changed = changed || both != self.row[r];
            self.row[r] = both;
        }
        changed
    }

    // And of words.
    fn join_words(&mut self, other: &Standing, ends: bool) -> bool {
        let mut changed = false;
        for j in 0..MOST_WORDS {
            let both = met(self.words[j], other.words[j], ends);
            changed = changed || both != self.words[j];
            self.words[j] = both;
        }
        changed
    }

    // Takes what another way says as well. Whether it says less now.
    fn join(&mut self, other: &Standing, ends: bool) -> bool {
        let rows = self.join_rows(other, ends);
        let words = self.join_words(other, ends);
        let touched = self.touched && other.touched;
        let holder = if self.holder == other.holder {
            self.holder
        } else {
            None
        };
        let changed = rows || words || touched != self.touched || holder != self.holder;
        self.touched = touched;
        self.holder = holder;
        changed
    }
}

/// What is known at the nodes of a loop, in the order of its nodes, and at the end of its turns.
#[derive(Drop)]
pub struct Walk {
    standing: Vec<Option<Standing>>,
    pub end: Option<Standing>,
    changed: bool,
    // Whether what changes is forgotten.
    ends: bool,
}

impl Walk {
    fn new(alloc: Global, count: usize) -> Result<Walk, NoMemory> {
        Ok(Walk {
            standing: vec![in alloc; None; count]?,
            end: None,
            changed: false,
            ends: false,
        })
    }

    /// What is known before a node, by its number in the loop.
    pub fn at(&self, number: usize) -> Option<Standing> {
        self.standing.get(number).copied().flatten()
    }

    // Takes what a way to a node says.
    fn arrive(&mut self, number: usize, then: &Standing) {
        if number >= self.standing.len() {
            return;
        }
        match self.standing[number] {
            Some(known) => {
                let mut known = known;
                if known.join(then, self.ends) {
                    self.standing[number] = Some(known);
                    self.changed = true;
                }
            }
            None => {
                self.standing[number] = Some(*then);
                self.changed = true;
            }
        }
    }

    // Takes what a way to the header says.
    fn turn(&mut self, then: &Standing) {
        match self.end {
            Some(end) => {
                let mut end = end;
                end.join(then, false);
                self.end = Some(end);
            }
            None => self.end = Some(*then),
        }
    }

    // Takes what a way from a node says.
    fn take(&mut self, look: &Look<'_>, to: usize, then: &Standing) {
        if to == look.scope.header {
            self.turn(then);
        } else if look.scope.is_in_body(to) {
            self.arrive(look.numbers.of(to), then);
        }
    }

    // Looks at the ways of a node.
    fn look_at(&mut self, look: &Look<'_>, k: usize) {
        let Some(known) = self.at(look.numbers.of(k)) else {
            return;
        };
        if !look.scope.is_live(k) {
            return;
        }
        let mut then = look.behind(&known, k);
        let touched = then.touched;
        let calls = look.scope.callee_of(k).is_some();
        for to in look.scope.targets_of(k) {
            if let Some(to) = to {
                if calls || !look.scope.is_never(k, to) {
                    then.touched = touched || (!calls && look.is_found(&known, k, to));
                    self.take(look, to, &then);
                }
            }
        }
    }
}

/// What is known at the nodes, by what is known at the header, if that comes to an end.
pub fn walk_of(alloc: Global, look: &Look<'_>, first: &Standing) -> Result<Option<Walk>, NoMemory> {
    let mut walk = Walk::new(alloc, look.scope.nodes.len())?;
    walk.arrive(look.numbers.of(look.scope.header), first);
    for pass in 0..PASSES {
        walk.changed = false;
        walk.end = None;
        walk.ends = pass >= LAST_PASSES;
        for k in look.scope.nodes {
            walk.look_at(look, *k);
        }
        if !walk.changed {
            return Ok(Some(walk));
        }
    }
    Ok(None)
}
