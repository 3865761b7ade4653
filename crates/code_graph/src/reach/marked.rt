//! In which functions the words of a text are reached.

ghost use Rattle.std.specs.Prelude.{◌^◌, ◌<◌, Bool, IfOk, IfSome, List, None, length};
ghost use Rattle.code_graph.specs.Steps.{AreReachMarks};

use crate::reach::marks::{Mark, mark_words};
use crate::reach::step::Step;
use scale_base::NoMemory;
use std::alloc::Global;

/// The functions in which words are reached.
#[derive(Drop)]
pub struct Marked {
    /// By word.
    pub marks: Vec<Mark>,
    /// The first words of the functions, the program's own first.
    pub functions: Vec<usize>,
    /// By word, the place in `functions` of the function that begins there.
    pub numbers: Vec<Option<usize>>,
}

/// No word is reached, since the program begins at none.
fn none_marked(alloc: Global, steps: &[Step]) -> Result<Marked, NoMemory>
    ensures { IfOk result (λ m. (returns : List Bool) → AreReachMarks steps.now returns None m.marks.items m.functions.items
        m.numbers.items) }
{
    Ok(Marked {
        marks: vec![in alloc; Mark::Unreached; steps.len()]?,
        functions: Vec::new(alloc),
        numbers: vec![in alloc; None; steps.len()]?,
    })
}

/// The functions in which each word is reached from the word where the program begins. Where there is no such word, none is reached.
pub fn mark_from(
    alloc: Global,
    steps: &[Step],
    returning: &[bool],
    entry: Option<usize>,
) -> Result<Marked, NoMemory>
    requires within { IfSome entry (λ e. e < length steps.now) }
    requires room { length steps.now < 2 ^ 32 }
    ensures { IfOk result (λ m. AreReachMarks steps.now returning.now entry m.marks.items m.functions.items m.numbers.items) }
{
    match entry {
        Some(entry) => {
            let marking = mark_words(alloc, steps, returning, entry)?;
            Ok(Marked {
                marks: marking.marks,
                functions: marking.functions,
                numbers: marking.numbers,
            })
        }
        None => none_marked(alloc, steps),
    }
}
