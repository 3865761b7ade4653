//! The types that the crates share, with the image of an ELF file, the meaning of a word of RV32IM, and the run of an
//! image.
//! Tests: none of its own; those of the crates above use its types.
#![tactic(auto)]

ghost use Rattle.std.specs.Prelude.{◌≡◌, ℕ, ◌^◌, ◌<◌, ◌↔◌, Some};
ghost use Rattle.scale_base.specs.Word.{Encodes};
ghost use Rattle.scale_base.specs.Reading.{instr_of};

mod edges;
mod endings;
mod fragments;
mod headers;
mod instruction;
mod layout;
mod least;
mod limits;
mod names;
mod plan;
mod ranges;
mod refusal;
mod stepping;
mod summary;
mod verdict;

pub use edges::{Edge, EdgeKind};
pub use endings::{End, Kept};
pub use fragments::{Fragment, Mark, Rows};
pub use headers::{ProgramHeader, SectionHeader};
pub use instruction::{BranchOp, ImmOp, Instr, LoadOp, RegOp, StoreOp};
pub use layout::{
    KEY_FLAG, KEYED_FLAGS, PF_R, PF_W, PF_X, PLAIN_END, PORT, STACK, STACK_LEN, STACK_POINTER,
    STACK_START, WINDOW, WINDOW_LEN, WINDOW_START, WINDOW_WORDS,
};
pub use least::lesser;
pub use limits::{
    BLOCK_LIMIT, CYCLE_LIMIT, FILE_LIMIT, IMAGE_LIMIT, RETURN_LIMIT, STORED_LIMIT, WORD_LIMIT,
    limit_values,
};
pub use names::{Cycle, Name};
pub use plan::{ScalePlan, SiteLine};
pub use ranges::{Keyed, Patch, Range, Span, TextPart};
pub use refusal::{Field, NoMemory, Refusal, Stop};
pub use stepping::{Class, Move, StepEnd, Stepped, Trap, TrapKind};
pub use summary::{Lowered, Summary, Tuned};
pub use verdict::{Checked, Verdict, Why};

/// A word stands for at most one instruction, an instruction has at most one word, and reading a word by its
/// fields gives what it stands for.
pub fn words_and_instructions()
    ensures one_instruction { (word : ℕ) (i j : Instr) → Encodes word i → Encodes word j → i ≡ j }
    ensures one_word { (v w : ℕ) (i : Instr) → Encodes v i → Encodes w i → v ≡ w }
    ensures small { (word : ℕ) (i : Instr) → Encodes word i → word < 2 ^ 32 }
    ensures read { (word : ℕ) (i : Instr) → word < 2 ^ 32 → (instr_of word ≡ Some i) ↔ Encodes word i }
{}
