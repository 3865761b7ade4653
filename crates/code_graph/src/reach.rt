//! Which words of a text are reached, in which functions, and which functions return.

ghost use Rattle.std.specs.Prelude.{◌≡◌, IfOk};
ghost use Rattle.code_text.specs.Text.{text_of, kind_at};
ghost use Rattle.code_text.specs.Table.{word_table};
ghost use Rattle.code_graph.specs.Steps.{IsWordTableOf};
ghost use Rattle.code_graph.specs.Reach.{Reach, IsReachOf};

mod chains;
mod marked;
mod marks;
mod outside;
mod returning;
mod step;
mod steps;

use crate::reach::marked::mark_from;
use crate::reach::outside::lowest_outside;
use crate::reach::returning::find_returning;
use crate::reach::steps::steps_of;
use code_text::{TextWords, read_words};
use elf_image::ImageView;
pub use marks::Mark;
use scale_base::NoMemory;
use std::alloc::Global;

/// What a pass over the words of a text finds. Words are numbered by their addresses.
#[derive(Drop)]
pub struct TextReach {
    pub words: TextWords,
    /// By word, whether a return can come from it.
    pub returning: Vec<bool>,
    /// By word, in which functions it is reached; a function is given by the number of its first word.
    pub marks: Vec<Mark>,
    /// The first words of the functions, the program's own first.
    pub functions: Vec<usize>,
    /// By word, the place in `functions` of the function that begins there.
    pub numbers: Vec<Option<usize>>,
    /// The least reached address at which no word of the text stands.
    pub outside: Option<u32>,
}

/// The words of an image's text.
fn words_of(alloc: Global, view: &ImageView<'_>) -> Result<TextWords, NoMemory>
    ensures words { IfOk result (λ words. words ≡ word_table (text_of view.now)) }
    ensures table { IfOk result (λ words. IsWordTableOf (kind_at (text_of view.now)) words) }
{
    // The ranges of a text ascend, and begin and end at multiples of 4.
    let _ranges = view.text();
    read_words(alloc, view)
}

/// Finds the reached words of an image's text. Err only for want of memory.
pub fn reach_text(alloc: Global, view: &ImageView<'_>) -> Result<TextReach, NoMemory>
    ensures { IfOk result (λ r. IsReachOf (text_of view.now) (record {
      words = r.words;
      returning = r.returning.items;
      marks =
          r.marks.items;
      functions = r.functions.items;
      numbers = r.numbers.items;
      outside = r.outside;
    })) }
{
    let words = words_of(alloc, view)?;
    let entry = view.entry();
    let steps = steps_of(alloc, &words)?;
    let returning = find_returning(alloc, &steps)?;
    let marked = mark_from(alloc, &steps, &returning, words.find(entry))?;
    let outside = lowest_outside(&words, &returning, &marked.marks, entry);
    Ok(TextReach {
        words,
        returning,
        marks: marked.marks,
        functions: marked.functions,
        numbers: marked.numbers,
        outside,
    })
}
