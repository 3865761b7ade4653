//! Laws of tables of targets: what a load reads from bytes of an image that no store can change, and which register has a word of such a table, along each
//! run whose returns go back to their calls. Laws of the machine's runs, over the definitions alone. RISC-V Unprivileged ISA, RV32I.
#![tactic(auto)]

ghost use Rattle.jump_laws.specs.Laws.{FixedWordsStay, ImageWordsHold, TableWordsHold};

mod reads;

pub use reads::TableRead;
use stack_laws::stack_values_hold;

/// A word of a segment that can't be written is what the image loads at its address, and no byte of it may be written.
pub fn fixed_words_stay()
    ensures { FixedWordsStay }
{}

/// What the tables say of words of tables in registers is so all along a tidy run whose returns go back to their calls, and so along such a run of an
/// image.
pub fn table_words_hold()
    ensures table { TableWordsHold }
    ensures image { ImageWordsHold }
{
    stack_values_hold();
}
