//! Joins of what flows to a node with what is known there.

ghost use Rattle.std.specs.Prelude.{◌<◌};

use crate::arcs::{holds, joined, kept, one_sided, shorter, stretched_to, widened};
use crate::dwindling::{grow_pairs, put_pairs};
use crate::lines::{Flowing, Lines};
use crate::names::{Names, name_span};
use crate::states::{Facts, State, UNKNOWN_WORD, WORD_COUNT, name_arc, word_at};
use crate::tables::Row;
use crate::telling::{Sentences, is_never, is_same, is_telling};
use crate::thresholds::Threshold;
use scale_base::NoMemory;
use stack_tables::{MOST_TOLD, Name, Told, Word};
use value_checks::Line;
use wrapped_intervals::{Arc, word};

/// How often an interval grows before it is widened, and before it is widened to all words.
const WIDENED_FROM: u8 = 3;

const ALL_FROM: u8 = 60;

/// And how often it grows where no way back ends, before it is all words.
const MOST_JOINS: u8 = 100;

/// How often a span grows at the end of a way back, and elsewhere, before it is given up.
const MOST_TURNED_SPANS: u8 = 6;

const MOST_SPANS: u8 = 40;

/// How often lines at a node grow before they are widened, before they are given up where they are widened, and elsewhere.
const LINES_WIDENED_FROM: u8 = 6;

const MOST_LINES: u8 = 120;

/// How often more is told at a node than before.
const MOST_ADDED: u8 = 16;

/// The number of a form that is none.
const GONE: usize = usize::MAX;

/// How often an interval grows before it is no more taken from a sum, and from which length on it says nothing.
const MOST_SOLVED: u8 = 120;

const LONGEST: u64 = 0x4000_0000;

/// How many counts there are: registers have their own, and words have those behind them in turn.
const KEYS: usize = 48;

const WORD_KEYS: usize = 16;

/// How a row grows.
#[derive(Clone, Copy, PartialEq, Eq)]
pub enum Pace {
    /// By what flows to it alone.
    Joined,
    /// To thresholds, at the end of a way back.
    Widened,
    /// Nothing is kept of what grows: there is no time for more.
    Hasty,
}

/// How what is known at a node grows: at which pace, by what x2 has when its function begins, and to which thresholds.
#[derive(Clone, Copy)]
pub struct Growing<'a> {
    pub pace: Pace,
    pub begins: Option<Arc>,
    pub thresholds: &'a [Threshold],
}

/// How often the intervals at a node have grown, by the numbers of registers and words: at the ends of ways back, and at those of others; and how often
/// the spans have.
#[derive(Clone, Copy)]
pub struct Counts {
    back: [u8; 48],
    ahead: [u8; 48],
    spans: [u8; 48],
    lines: u8,
    added: u8,
}

/// What has changed at a node: whether anything has, and whether a name is given up on which what flows there by other ways may rest.
#[derive(Clone, Copy)]
pub struct Change {
    pub grown: bool,
    pub dropped: bool,
}

/// The number of a word, as of a register.
pub fn word_key(k: usize) -> u8 {
    if k < WORD_COUNT { (k + 32) as u8 } else { 0 }
}

// One more.
fn count_up(counts: &mut [u8; 48], key: u8) -> u8 {
    let number = usize::from(key);
    let k = if number < 32 {
        number
    } else {
        32 + number % WORD_KEYS
    };
    if k >= KEYS {
        return u8::MAX;
    }
    let count = counts[k];
    counts[k] = count.saturating_add(1);
    count
}

impl Counts {
    /// None has grown yet.
    pub fn none() -> Counts {
        Counts {
            back: [0; 48],
            ahead: [0; 48],
            spans: [0; 48],
            lines: 0,
            added: 0,
        }
    }

    // How often an interval has grown at such a pace, and that it does once more.
    fn count(&mut self, pace: Pace, key: u8) -> u8 {
        match pace {
            Pace::Widened => count_up(&mut self.back, key),
            Pace::Joined | Pace::Hasty => count_up(&mut self.ahead, key),
        }
    }

    // The same of a span.
    fn count_span(&mut self, key: u8) -> u8 {
        count_up(&mut self.spans, key)
    }
}

/// An interval that has grown so often, at the end of a way back.
pub fn widened_by(
    old: Arc,
    both: Arc,
    count: u8,
    key: u8,
    thresholds: &[Threshold],
) -> Option<Arc> {
    if count < WIDENED_FROM {
        Some(both)
    } else if count < ALL_FROM {
        widened(old, both, key, count, thresholds)
    } else {
        word()
    }
}

// What an interval grows to that has grown so often.
fn grown(
    old: Option<Arc>,
    new: Option<Arc>,
    growing: &Growing<'_>,
    count: u8,
    key: u8,
) -> Option<Arc> {
    let (before, both) = (old?, joined(old, new)?);
    match growing.pace {
        Pace::Joined => {
            if count < MOST_JOINS {
                Some(both)
            } else {
                word()
            }
        }
        Pace::Widened => widened_by(before, both, count, key, growing.thresholds),
        Pace::Hasty => None,
    }
}

// What a span grows to that has grown so often.
fn grown_span(old: Option<Arc>, new: Option<Arc>, pace: Pace, count: u8) -> Option<Arc> {
    match pace {
        Pace::Joined if count < MOST_SPANS => joined(old, new),
        Pace::Widened if count < MOST_TURNED_SPANS => joined(old, new),
        _ => None,
    }
}

/// Lets one interval grow.
pub fn grow_arc(old: Option<Arc>, new: Option<Arc>, pace: Pace, count: u8) -> Option<Arc> {
    let growing = Growing {
        pace,
        begins: None,
        thresholds: &[],
    };
    grown(old, new, &growing, count, 0)
}

/// Lets the row at a function's returns, or at the start of a run, grow. Whether it did.
pub fn grow_plain_row(row: &mut Row, other: &Row, pace: Pace) -> bool {
    let mut has_grown = false;
    for r in 1..32 {
        if !holds(row[r], other[r]) {
            row[r] = grow_arc(row[r], other[r], pace, 0);
            has_grown = true;
        }
    }
    has_grown
}

// Gives up the names that differ. Whether there were any.
fn join_names(names: &mut Names, other: &Names) -> bool {
    let mut dropped = false;
    for r in 1..32 {
        if names[r].is_some() && names[r] != other[r] {
            names[r] = None;
            dropped = true;
        }
    }
    dropped
}

// Gives up the names of words that differ. Whether there were any.
fn join_word_names(words: &mut [Word], state: &State) -> bool {
    let mut dropped = false;
    for k in 0..words.len() {
        if words[k].name.is_some() && words[k].name != state.word(k).name {
            words[k].name = None;
            dropped = true;
        }
    }
    dropped
}

// Lets the intervals of words grow. Whether one did.
fn grow_words(
    words: &mut [Word],
    state: &State,
    growing: &Growing<'_>,
    counts: &mut Counts,
) -> bool {
    let mut has_grown = false;
    for k in 0..words.len() {
        if !holds(word_at(words, k).arc, state.word(k).arc) {
            let key = word_key(k);
            let count = counts.count(growing.pace, key);
            words[k].arc = grown(
                word_at(words, k).arc,
                state.word(k).arc,
                growing,
                count,
                key,
            );
            has_grown = true;
        }
    }
    has_grown
}

// Lets the spans of words grow. Whether one did.
fn grow_word_spans(words: &mut [Word], state: &State, pace: Pace, counts: &mut Counts) -> bool {
    let mut has_grown = false;
    for k in 0..words.len() {
        if !holds(word_at(words, k).span, state.word(k).span)
            && !is_by_name(word_at(words, k).span, name_span(word_at(words, k).name))
        {
            let count = counts.count_span(word_key(k));
            words[k].span = grown_span(word_at(words, k).span, state.word(k).span, pace, count);
            has_grown = true;
        }
    }
    has_grown
}

// Whether an interval has what another one says.
fn is_by_name(arc: Option<Arc>, named: Option<Arc>) -> bool {
    named.is_some() && holds(arc, named)
}

// Lets the intervals of registers whose values come from words have all that those of the words have.
fn hold_words(row: &mut Row, names: &Names, words: &[Word]) {
    for r in 1..32 {
        if let Some(Name::OfWord(_, _)) = names[r] {
            if !holds(row[r], name_arc(names[r], words, &None)) {
                row[r] = name_arc(names[r], words, &None);
            }
        }
    }
}

/// What is known of the registers that flow to a node: their intervals, those by their names and by sums of them with others, and what of these flows.
#[derive(Clone, Copy)]
struct Known<'a> {
    row: &'a Row,
    named: &'a Row,
    solved: &'a Row,
    met: &'a Row,
}

// Whether an interval is so long that it says nothing.
fn is_long(arc: &Option<Arc>) -> bool {
    match arc {
        Some(arc) => arc.more() >= LONGEST,
        None => false,
    }
}

impl Known<'_> {
    // Whether an interval of a register holds what is known of it.
    fn is_held(&self, arc: &Option<Arc>, k: usize) -> bool {
        let (row, named, met) = (self.row, self.named, self.met);
        k < 32 && (holds(*arc, row[k]) || is_by_name(*arc, named[k]) || is_by_name(*arc, met[k]))
    }

    // What the interval of a register grows to, by its name.
    fn renamed(&self, arc: &Option<Arc>, k: usize) -> Option<Arc> {
        let named = self.named;
        if k < 32 && holds(named[k], *arc) {
            named[k]
        } else {
            None
        }
    }

    // What an interval that has grown so far that it says nothing is by a sum with another register: the end that doesn't grow stays.
    fn resolved(&self, old: &Option<Arc>, new: &Option<Arc>, k: usize) -> Option<Arc> {
        let (solved, met) = (self.solved, self.met);
        if k < 32 && is_long(new) && solved[k].is_some() {
            one_sided(*old, joined(*old, met[k]), joined(*old, solved[k]))
        } else {
            *new
        }
    }

    fn shortest(&self, k: usize) -> Option<Arc> {
        let (row, named, met) = (self.row, self.named, self.met);
        if k < 32 {
            shorter(met[k], shorter(row[k], named[k]))
        } else {
            None
        }
    }
}

// What the interval of a register grows to that has grown so often.
fn next_arc(
    known: Known<'_>,
    old: &Option<Arc>,
    r: u8,
    growing: &Growing<'_>,
    count: u8,
) -> Option<Arc> {
    let k = usize::from(r);
    let renamed = known.renamed(old, k);
    if renamed.is_some() {
        return renamed;
    }
    let new = grown(*old, known.shortest(k), growing, count, r);
    if count < MOST_SOLVED {
        known.resolved(old, &new, k)
    } else {
        new
    }
}

// Lets the intervals of registers grow. Whether one did.
fn grow_row(row: &mut Row, known: Known<'_>, growing: &Growing<'_>, counts: &mut Counts) -> bool {
    let mut has_grown = false;
    for r in 1..32u8 {
        let k = usize::from(r);
        if !known.is_held(&row[k], k) {
            let count = counts.count(growing.pace, r);
            row[k] = next_arc(known, &row[k], r, growing, count);
            has_grown = true;
        }
    }
    has_grown
}

// Whether an interval of a line holds what flows.
fn is_line_held(line: &Line, flowing: &Flowing) -> bool {
    is_by_name(Some(line.arc), flowing.by_line)
        || is_by_name(Some(line.arc), flowing.by_row)
        || is_by_name(Some(line.arc), flowing.by_source)
}

// What the interval of a line grows to that has grown so often.
fn grown_line(old: Arc, new: Option<Arc>, pace: Pace, count: u8) -> Option<Arc> {
    let both = joined(Some(old), new)?;
    match pace {
        Pace::Joined if count < MOST_LINES => Some(both),
        Pace::Widened if count < LINES_WIDENED_FROM => Some(both),
        Pace::Widened if count < MOST_LINES => stretched_to(old, both),
        _ => None,
    }
}

// The interval of a line, where it says anything.
fn telling_line(form: usize, arc: Option<Arc>) -> Option<Line> {
    match arc {
        Some(arc) if arc.more() < 0xFFFF_FFFF => Some(Line { form, arc }),
        _ => None,
    }
}

// Lets a line that has grown so often grow to what flows. It is given up where nothing does.
fn grow_line(line: &mut Line, flowing: &Option<Flowing>, pace: Pace, count: u8) {
    let grown = match flowing {
        Some(flow) => grown_line(line.arc, flow.shortest(), pace, count),
        None => None,
    };
    match telling_line(line.form, grown) {
        Some(next) => line.arc = next.arc,
        None => line.form = GONE,
    }
}

// Whether a line holds what flows.
fn is_flow_held(line: &Line, flowing: &Option<Flowing>) -> bool {
    match flowing {
        Some(flow) => is_line_held(line, flow),
        None => false,
    }
}

// Lets each line grow. Whether one did, or is to be given up.
fn grow_each_line(lines: &mut [Line], flowing: &Lines, pace: Pace, counts: &mut Counts) -> bool {
    let mut has_grown = false;
    for place in 0..lines.len() {
        let flow = flowing.of(lines[place].form);
        if !is_flow_held(&lines[place], &flow) {
            counts.lines = counts.lines.saturating_add(1);
            grow_line(&mut lines[place], &flow, pace, counts.lines);
            has_grown = true;
        }
    }
    has_grown
}

// Lets the lines of a node grow, and gives up those that are left without a form. Whether one did, or is given up.
fn grow_lines(lines: &mut Vec<Line>, flowing: &Lines, pace: Pace, counts: &mut Counts) -> bool {
    let has_grown = grow_each_line(lines, flowing, pace, counts);
    if has_grown {
        lines.retain(|line| line.form != GONE);
    }
    has_grown
}

// Puts lines in the place of others.
fn put_lines(lines: &mut Vec<Line>, flowing: &Lines) -> Result<(), NoMemory> {
    lines.clear();
    for place in 0..flowing.count() {
        if let Some(flow) = flowing.at(place) {
            if let Some(line) = telling_line(flow.form, flow.shortest()) {
                lines.push(line)?;
            }
        }
    }
    Ok(())
}

// Lets what is told grow to what flows. It is given up where nothing is told there.
fn grow_sentence(told: &mut Told, state: &State, pace: Pace) {
    let next = if pace == Pace::Joined {
        kept(joined(Some(told.arc), state.told_arc(told)))
    } else {
        None
    };
    match next {
        Some(arc) if is_telling(arc) => told.arc = arc,
        _ => told.teller = 0,
    }
}

// Lets each of what is told grow. Whether one did, or is to be given up.
fn grow_each_told(row: &mut [Told], state: &State, pace: Pace) -> bool {
    let mut has_grown = false;
    for place in 0..row.len() {
        if !state.is_told(&row[place]) {
            grow_sentence(&mut row[place], state, pace);
            has_grown = true;
        }
    }
    has_grown
}

// Lets what is told at a node grow, and gives up what is left without a teller. Whether any did, or is given up.
fn grow_told(row: &mut Vec<Told>, state: &State, pace: Pace) -> bool {
    let has_grown = grow_each_told(row, state, pace);
    if has_grown {
        row.retain(|told| told.teller != 0);
    }
    has_grown
}

// Whether a row tells the same.
fn has_same(row: &[Told], told: &Told) -> bool {
    for other in row {
        if is_same(other, told) {
            return true;
        }
    }
    false
}

// Whether a sentence of what flows may be told, though it isn't in the row.
fn is_new(row: &[Told], told: &Told, arcs: &Row) -> bool {
    row.len() < MOST_TOLD && is_never(arcs, told) && !has_same(row, told)
}

// Adds what flows of what is told, where all that flowed there before had none of the states of which it is told. Whether there was any.
fn add_told(
    row: &mut Vec<Told>,
    state: &State,
    arcs: &Row,
    counts: &mut Counts,
) -> Result<bool, NoMemory> {
    let mut has_added = false;
    for place in 0..state.told.count() {
        match state.told.at(place) {
            Some(told) if counts.added < MOST_ADDED && is_new(row, &told, arcs) => {
                counts.added = counts.added.saturating_add(1);
                row.push(told)?;
                has_added = true;
            }
            _ => {}
        }
    }
    Ok(has_added)
}

// Puts what is told in the place of other.
fn put_told(row: &mut Vec<Told>, flowing: &Sentences) -> Result<(), NoMemory> {
    row.clear();
    for place in 0..flowing.count() {
        if let Some(told) = flowing.at(place) {
            row.push(told)?;
        }
    }
    Ok(())
}

// Lets the spans of registers grow. Whether one did.
fn grow_spans(
    spans: &mut Row,
    names: &Names,
    other: &Row,
    pace: Pace,
    counts: &mut Counts,
) -> bool {
    let mut has_grown = false;
    for r in 1..32u8 {
        let k = usize::from(r);
        if !holds(spans[k], other[k]) && !is_by_name(spans[k], name_span(names[k])) {
            let count = counts.count_span(r);
            spans[k] = grown_span(spans[k], other[k], pace, count);
            has_grown = true;
        }
    }
    has_grown
}

// The intervals of registers by their names.
fn named_row(names: &Names, words: &[Word], begins: &Option<Arc>) -> Row {
    let mut row = [None; 32];
    for r in 1..32 {
        row[r] = name_arc(names[r], words, begins);
    }
    row
}

// How many words of a state are known, up to the last one.
fn known_count(state: &State) -> usize {
    let mut count = 0;
    for k in 0..state.count() {
        if state.word(k) != UNKNOWN_WORD {
            count = k + 1;
        }
    }
    count
}

// Puts words in the place of others, so many at most, with the spans that their names say.
fn put_words(words: &mut Vec<Word>, state: &State, most: usize) -> Result<(), NoMemory> {
    let count = known_count(state).min(most);
    words.clear();
    words.reserve_exact(count)?;
    for k in 0..count {
        let word = state.word(k);
        words.push(Word {
            arc: word.arc,
            name: word.name,
            span: name_span(word.name).or(word.span),
        })?;
    }
    Ok(())
}

// Puts intervals in the place of others, where the names don't say more.
fn put_row(row: &mut Row, known: Known<'_>) {
    for r in 0..32 {
        row[r] = known.shortest(r);
    }
}

// The same of spans.
fn put_spans(spans: &mut Row, other: &Row, names: &Names) {
    for r in 0..32 {
        spans[r] = name_span(names[r]).or(other[r]);
    }
}

impl Facts {
    /// Puts the first state that comes to a node there, by what x2 has when its function begins, with so many words at most.
    pub fn put(
        &mut self,
        state: &State,
        begins: &Option<Arc>,
        most: usize,
    ) -> Result<(), NoMemory> {
        self.names = state.names;
        put_words(&mut self.words, state, most)?;
        let named = named_row(&self.names, &self.words, begins);
        let known = Known {
            row: &state.row,
            named: &named,
            solved: &state.solved,
            met: &state.met,
        };
        put_row(&mut self.row, known);
        put_spans(&mut self.spans, &state.spans, &self.names);
        put_lines(&mut self.lines, &state.lines)?;
        put_pairs(&mut self.dwindling, &state.pairs)?;
        put_told(&mut self.told, &state.told)
    }

    // Gives up the names that differ. Whether there were any.
    fn drop_names(&mut self, state: &State) -> bool {
        let dropped = join_names(&mut self.names, &state.names);
        join_word_names(&mut self.words, state) || dropped
    }

    // Lets the intervals of words grow. Whether one did.
    fn grow_words(&mut self, state: &State, growing: &Growing<'_>, counts: &mut Counts) -> bool {
        let has_grown = grow_words(&mut self.words, state, growing, counts);
        if has_grown {
            hold_words(&mut self.row, &self.names, &self.words);
        }
        has_grown
    }

    // Lets the intervals of registers grow. Whether one did.
    fn grow_row(&mut self, state: &State, growing: &Growing<'_>, counts: &mut Counts) -> bool {
        let named = named_row(&self.names, &self.words, &growing.begins);
        let known = Known {
            row: &state.row,
            named: &named,
            solved: &state.solved,
            met: &state.met,
        };
        grow_row(&mut self.row, known, growing, counts)
    }

    // Lets spans grow. Whether one did.
    fn grow_spans(&mut self, state: &State, pace: Pace, counts: &mut Counts) -> bool {
        let words = grow_word_spans(&mut self.words, state, pace, counts);
        grow_spans(&mut self.spans, &self.names, &state.spans, pace, counts) || words
    }

    /// Joins another state to what is known at the node.
    pub fn grow(
        &mut self,
        state: &State,
        growing: &Growing<'_>,
        counts: &mut Counts,
    ) -> Result<Change, NoMemory> {
        let dropped = self.drop_names(state);
        let added = add_told(&mut self.told, state, &self.row, counts)?;
        let told = grow_told(&mut self.told, state, growing.pace);
        let words = self.grow_words(state, growing, counts);
        let row = self.grow_row(state, growing, counts);
        let spans = self.grow_spans(state, growing.pace, counts);
        let lines = grow_lines(&mut self.lines, &state.lines, growing.pace, counts);
        let pairs = grow_pairs(&mut self.dwindling, &state.pairs);
        Ok(Change {
            grown: dropped || added || told || words || row || spans || lines || pairs,
            dropped: dropped || added,
        })
    }
}
