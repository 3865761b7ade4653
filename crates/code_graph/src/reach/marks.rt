//! In which functions words are reached.

ghost use Rattle.std.specs.Prelude.{◌≡◌, ℕ, ◌+◌, ◌^◌, ◌<◌, ◌≤◌, true, length, OnOk, IfOk, slice_index, ◌↔◌, ◌⊎◌, Some, None};
ghost use Rattle.code_graph.specs.Flow.{step_at};
ghost use Rattle.code_graph.specs.declared.reach.marks.Mark.TheVariants.{Unreached, Owner, Shared};
ghost use Rattle.code_graph.specs.Marks.{jumped_word, called_word, goes_on_after, ReachedAt, IsReachedTwice, mark_at, function_number, raised, Covers, Below, IsDue, IsMarkPass, IsFrom, MarksGrow, IsMarkSettled, next_of};

use crate::reach::returning::is_flagged;
use crate::reach::step::Step;
use scale_base::NoMemory;
use std::alloc::Global;

/// The functions in which a word is reached: none, one, by the number of its first word, or two and more.
#[derive(Clone, Copy)]
pub enum Mark {
    Unreached,
    Owner(usize),
    Shared,
}

/// The marks of words, and the functions in the order in which they were found.
#[derive(Drop)]
pub struct Marking {
    /// By word.
    pub marks: Vec<Mark>,
    /// The first words of the functions, the program's own first.
    pub functions: Vec<usize>,
    /// By word, the place in `functions` of the function that begins there.
    pub numbers: Vec<Option<usize>>,
    queue: Vec<usize>,
}

// A program's steps by word, which of its words return, and the word at which it begins.
#[derive(Clone, Copy)]
struct Program<'a> {
    steps: &'a [Step],
    returning: &'a [bool],
    entry: usize,
}

// What a mark becomes by another, where it changes.
fn raise(old: Mark, mark: Mark) -> Option<Mark>
    ensures { result ≡ raised old mark }
{
    match old {
        Mark::Unreached => match mark {
            Mark::Unreached => None,
            Mark::Owner(g) => Some(Mark::Owner(g)),
            Mark::Shared => Some(Mark::Shared),
        },
        Mark::Owner(f) => match mark {
            Mark::Unreached => None,
            Mark::Owner(g) => { if f == g { None } else { Some(Mark::Shared) } }
            Mark::Shared => Some(Mark::Shared),
        },
        Mark::Shared => None,
    }
}

// The word to which a word jumps.
fn jump(step: Step) -> Option<usize>
    ensures { result ≡ jumped_word step }
{
    match step {
        Step::On(jump, _) => jump,
        _ => None,
    }
}

// The word that a word calls.
fn callee(step: Step) -> Option<usize>
    ensures { result ≡ called_word step }
{
    match step {
        Step::Call(callee, _) => callee,
        _ => None,
    }
}

// Whether the next word follows.
fn is_followed(step: Step, returning: &[bool]) -> bool
    ensures { result ≡ goes_on_after step returning.now }
{
    match step {
        Step::On(_, next) => next,
        Step::Call(callee, next) => next && is_flagged(returning, callee),
        _ => false,
    }
}

// The next word, where it follows.
fn next_word(step: Step, returning: &[bool], u: usize) -> Option<usize>
    requires { u < 2 ^ 32 }
    ensures { result ≡ next_of step returning.now u }
{
    if is_followed(step, returning) {
        Some(u + 1)
    } else {
        None
    }
}

// Adds functions to a word's mark.
fn reach(program: &Program<'_>, marking: &mut Marking, k: usize, mark: Mark) -> Result<(), NoMemory>
    requires within { k < length program.now.steps.now }
    requires room { length program.now.steps.now < 2 ^ 32 }
    requires pass { IsMarkPass program.now.steps.now program.now.returning.now program.now.entry marking.old.marks.items
        marking.old.functions.items marking.old.numbers.items marking.old.queue.items }
    requires due { IsDue program.now.steps.now program.now.returning.now program.now.entry mark k }
    ensures pass { OnOk result (IsMarkPass program.now.steps.now program.now.returning.now program.now.entry marking.new.marks.items
        marking.new.functions.items marking.new.numbers.items marking.new.queue.items) }
    ensures grows { OnOk result (MarksGrow marking.old.marks.items marking.old.numbers.items marking.old.queue.items
        marking.new.marks.items marking.new.numbers.items marking.new.queue.items) }
    ensures reached { OnOk result (Below mark (mark_at marking.new.marks.items k)) }
{
    let old = marking.marks[k];
    if let Some(new) = raise(old, mark) {
        marking.marks[k] = new;
        marking.queue.push(k)?;
    }
    Ok(())
}

// Adds functions to the mark of a word of the text.
fn reach_some(
    program: &Program<'_>,
    marking: &mut Marking,
    word: Option<usize>,
    mark: Mark,
) -> Result<(), NoMemory>
    requires room { length program.now.steps.now < 2 ^ 32 }
    requires pass { IsMarkPass program.now.steps.now program.now.returning.now program.now.entry marking.old.marks.items
        marking.old.functions.items marking.old.numbers.items marking.old.queue.items }
    requires due { (k : ℕ) → word ≡ Some k → k < length program.now.steps.now → IsDue program.now.steps.now program.now.returning.now
        program.now.entry mark k }
    ensures pass { OnOk result (IsMarkPass program.now.steps.now program.now.returning.now program.now.entry marking.new.marks.items
        marking.new.functions.items marking.new.numbers.items marking.new.queue.items) }
    ensures grows { OnOk result (MarksGrow marking.old.marks.items marking.old.numbers.items marking.old.queue.items
        marking.new.marks.items marking.new.numbers.items marking.new.queue.items) }
    ensures reached { OnOk result ((k : ℕ) → word ≡ Some k → k < length program.now.steps.now → Below mark
        (mark_at marking.new.marks.items k)) }
{
    if let Some(k) = word {
        if k < program.steps.len() {
            reach(program, marking, k, mark)?;
        }
    }
    Ok(())
}

// Numbers the function that begins at a word, where it has no number.
fn number(program: &Program<'_>, marking: &mut Marking, h: usize) -> Result<(), NoMemory>
    requires within { h < length program.now.steps.now }
    requires room { length program.now.steps.now < 2 ^ 32 }
    requires pass { IsMarkPass program.now.steps.now program.now.returning.now program.now.entry marking.old.marks.items
        marking.old.functions.items marking.old.numbers.items marking.old.queue.items }
    requires reached { ReachedAt program.now.steps.now program.now.returning.now program.now.entry h h }
    ensures pass { OnOk result (IsMarkPass program.now.steps.now program.now.returning.now program.now.entry marking.new.marks.items
        marking.new.functions.items marking.new.numbers.items marking.new.queue.items) }
    ensures grows { OnOk result (MarksGrow marking.old.marks.items marking.old.numbers.items marking.old.queue.items
        marking.new.marks.items marking.new.numbers.items marking.new.queue.items) }
    ensures numbered { OnOk result ((i : ℕ) × (function_number marking.new.numbers.items h ≡ Some i)) }
    ensures added { OnOk result (function_number marking.old.numbers.items h ≡ None →
        function_number marking.new.numbers.items h ≡ Some (length marking.old.functions.items)) }
{
    let old = marking.numbers[h];
    if let Some(_i) = old {
        return Ok(());
    }
    marking.numbers[h] = Some(marking.functions.len());
    marking.functions.push(h)?;
    Ok(())
}

// Reaches the first word of a function in that function.
fn call(program: &Program<'_>, marking: &mut Marking, h: usize) -> Result<(), NoMemory>
    requires within { h < length program.now.steps.now }
    requires room { length program.now.steps.now < 2 ^ 32 }
    requires pass { IsMarkPass program.now.steps.now program.now.returning.now program.now.entry marking.old.marks.items
        marking.old.functions.items marking.old.numbers.items marking.old.queue.items }
    requires reached { ReachedAt program.now.steps.now program.now.returning.now program.now.entry h h }
    ensures pass { OnOk result (IsMarkPass program.now.steps.now program.now.returning.now program.now.entry marking.new.marks.items
        marking.new.functions.items marking.new.numbers.items marking.new.queue.items) }
    ensures grows { OnOk result (MarksGrow marking.old.marks.items marking.old.numbers.items marking.old.queue.items
        marking.new.marks.items marking.new.numbers.items marking.new.queue.items) }
    ensures covered { OnOk result (Covers (mark_at marking.new.marks.items h) h) }
    ensures numbered { OnOk result ((i : ℕ) × (function_number marking.new.numbers.items h ≡ Some i)) }
    ensures added { OnOk result (function_number marking.old.numbers.items h ≡ None →
        function_number marking.new.numbers.items h ≡ Some (length marking.old.functions.items)) }
{
    number(program, marking, h)?;
    reach(program, marking, h, Mark::Owner(h))?;
    Ok(())
}

// Calls a word of the text.
fn call_some(
    program: &Program<'_>,
    marking: &mut Marking,
    word: Option<usize>,
) -> Result<(), NoMemory>
    requires room { length program.now.steps.now < 2 ^ 32 }
    requires pass { IsMarkPass program.now.steps.now program.now.returning.now program.now.entry marking.old.marks.items
        marking.old.functions.items marking.old.numbers.items marking.old.queue.items }
    requires reached { (h : ℕ) → word ≡ Some h → h < length program.now.steps.now → ReachedAt program.now.steps.now
        program.now.returning.now program.now.entry h h }
    ensures pass { OnOk result (IsMarkPass program.now.steps.now program.now.returning.now program.now.entry marking.new.marks.items
        marking.new.functions.items marking.new.numbers.items marking.new.queue.items) }
    ensures grows { OnOk result (MarksGrow marking.old.marks.items marking.old.numbers.items marking.old.queue.items
        marking.new.marks.items marking.new.numbers.items marking.new.queue.items) }
    ensures called { OnOk result ((h : ℕ) → word ≡ Some h → h < length program.now.steps.now → Covers (mark_at marking.new.marks.items h)
        h × ((i : ℕ) × (function_number marking.new.numbers.items h ≡ Some i))) }
{
    if let Some(h) = word {
        if h < program.steps.len() {
            call(program, marking, h)?;
        }
    }
    Ok(())
}

// Takes the functions of a word to the words where it goes on.
fn go_on(program: &Program<'_>, marking: &mut Marking, u: usize) -> Result<(), NoMemory>
    requires within { u < length program.now.steps.now }
    requires room { length program.now.steps.now < 2 ^ 32 }
    requires pass { IsMarkPass program.now.steps.now program.now.returning.now program.now.entry marking.old.marks.items
        marking.old.functions.items marking.old.numbers.items marking.old.queue.items }
    requires covered { (f : ℕ) × Covers (mark_at marking.old.marks.items u) f }
    ensures pass { OnOk result (IsMarkPass program.now.steps.now program.now.returning.now program.now.entry marking.new.marks.items
        marking.new.functions.items marking.new.numbers.items marking.new.queue.items) }
    ensures grows { OnOk result (MarksGrow marking.old.marks.items marking.old.numbers.items marking.old.queue.items
        marking.new.marks.items marking.new.numbers.items marking.new.queue.items) }
    ensures settled { OnOk result (IsMarkSettled program.now.steps.now program.now.returning.now marking.new.marks.items
        marking.new.numbers.items u ⊎ IsFrom marking.new.queue.items (length marking.old.queue.items) u) }
{
    let mark = marking.marks[u];
    let step = program.steps[u];
    let callee = callee(step);
    let jump = jump(step);
    let next = next_word(step, program.returning, u);
    call_some(program, marking, callee)?;
    reach_some(program, marking, jump, mark)?;
    reach_some(program, marking, next, mark)?;
    Ok(())
}

/// The functions in which each word is reached from the word `entry`, and the functions, in the order in which their
/// calls are found. `returning` says by word whether a return can come from it, as `find_returning` does.
pub fn mark_words(
    alloc: Global,
    steps: &[Step],
    returning: &[bool],
    entry: usize,
) -> Result<Marking, NoMemory>
    requires within { entry < length steps.now }
    requires room { length steps.now < 2 ^ 32 }
    ensures size { IfOk result (λ marking. length marking.marks.items ≡ length steps.now) }
    ensures numbers_size { IfOk result (λ marking. length marking.numbers.items ≡ length steps.now) }
    ensures owner { IfOk result (λ marking. (v f : ℕ) → (mark_at marking.marks.items v ≡ Owner f) ↔
        (ReachedAt steps.now returning.now entry f v × ((g : ℕ) → ReachedAt steps.now returning.now entry g v → g ≡ f))) }
    ensures shared { IfOk result (λ marking. (v : ℕ) → (mark_at marking.marks.items v ≡ Shared) ↔ IsReachedTwice steps.now returning.now
        entry v) }
    ensures unreached { IfOk result (λ marking. (v : ℕ) → (mark_at marking.marks.items v ≡ Unreached) ↔
        ((f : ℕ) → ReachedAt steps.now returning.now entry f v → ⊥)) }
    ensures numbers { IfOk result (λ marking. (h i : ℕ) → (function_number marking.numbers.items h ≡ Some i) ↔
        ((i < length marking.functions.items) × (slice_index marking.functions.items i ≡ h))) }
    ensures functions { IfOk result (λ marking. (h : ℕ) → ((i : ℕ) × (function_number marking.numbers.items h ≡ Some i)) ↔ ReachedAt
        steps.now returning.now entry h h) }
    ensures first { IfOk result (λ marking. function_number marking.numbers.items entry ≡ Some 0) }
{
    let marks = vec![in alloc; Mark::Unreached; steps.len()]?;
    let numbers = vec![in alloc; None; steps.len()]?;
    let mut marking = Marking {
        marks,
        functions: Vec::new(alloc),
        numbers,
        queue: Vec::new(alloc),
    };
    let program = Program {
        steps,
        returning,
        entry,
    };
    call(&program, &mut marking, entry)?;
    let mut done = 0;
    while done < marking.queue.len() {
        let u = marking.queue[done];
        go_on(&program, &mut marking, u)?;
        done += 1;
    }
    Ok(marking)
}
