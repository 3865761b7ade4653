//! Programs of some words: the words that several tests use, the image and the graph of a program, and its loops.

ghost use Rattle.std.specs.Prelude.{ℕ, Bool, IfOk};
ghost use Rattle.loop_forest.specs.Tree.{IsLoopTree};

use code_graph::build_graph;
use elf_image::ImageView;
use elf_view::read_image;
use flow_graph::CodeGraph;
use image_maker::plain_image;
use loop_file::{LoopNotes, read_loops};
use loop_forest::LoopTree;
use loop_tree::build_loops;
use std::alloc::Global;
use std::fmt::Debug;
use std::process::Abort;
use std::test::Fail;

/// The address of the first word.
pub const START: u32 = 0x10000;

pub const NO_OPERATION: u32 = 0x13;

/// The number of the exit is put into register 17.
pub const EXIT: u32 = 0x05D0_0893;

pub const ECALL: u32 = 0x73;

pub const BREAKPOINT: u32 = 0x0010_0073;

pub const RETURN: u32 = 0x0000_8067;

/// Calls of the function so many words on.
pub const CALL_2: u32 = 0x0080_00EF;

pub const CALL_3: u32 = 0x00C0_00EF;

pub const CALL_4: u32 = 0x0100_00EF;

pub const CALL_5: u32 = 0x0140_00EF;

/// Jumps by so many words.
pub const JUMP_0: u32 = 0x6F;

pub const JUMP_2: u32 = 0x0080_006F;

pub const JUMP_BACK_1: u32 = 0xFFDF_F06F;

pub const JUMP_BACK_2: u32 = 0xFF9F_F06F;

pub const JUMP_BACK_3: u32 = 0xFF5F_F06F;

/// Branches by so many words.
pub const BRANCH_0: u32 = 0x63;

pub const BRANCH_2: u32 = 0x463;

pub const BRANCH_3: u32 = 0x663;

/// Branches back by so many words.
pub const BACK_1: u32 = 0xFE00_0EE3;

pub const BACK_2: u32 = 0xFE00_0CE3;

pub const BACK_3: u32 = 0xFE00_0AE3;

/// The image of a program of some words.
pub fn image_of(alloc: Global, words: &[u32]) -> Result<Vec<u8>, Fail> {
    if words.len() > 131_072 {
        return Err("there are fewer words".into());
    }
    Ok(plain_image(alloc, words)?)
}

/// The view of an image.
pub fn view_of(alloc: Global, file: &[u8]) -> Result<ImageView<'_>, Fail> {
    match read_image(alloc, file) {
        Ok(view) => Ok(view),
        Err(_) => Err("the file is an image".into()),
    }
}

/// The graph of an image's code.
fn graph_of_file(alloc: Global, file: &[u8]) -> Result<CodeGraph, Fail> {
    let view = view_of(alloc, file)?;
    match build_graph(alloc, &view) {
        Ok(graph) => Ok(graph),
        Err(_) => Err("the code is accepted".into()),
    }
}

/// The graph of a program.
pub fn graph_of(alloc: Global, words: &[u32]) -> Result<CodeGraph, Fail> {
    let file = image_of(alloc, words)?;
    graph_of_file(alloc, &file)
}

/// A program's graph and the loops of a loop file.
#[derive(Drop)]
pub struct Program {
    pub graph: CodeGraph,
    pub tree: LoopTree,
}

pub fn program_of(alloc: Global, words: &[u32], loops: &str) -> Result<Program, Fail>
    ensures { IfOk result (λ p. (extent : ℕ → ℕ → Bool) × IsLoopTree p.graph extent p.tree) }
{
    let file = image_of(alloc, words)?;
    let view = view_of(alloc, &file)?;
    program_in(alloc, &view, loops)
}

/// The same of an image's view.
fn program_in(alloc: Global, view: &ImageView<'_>, loops: &str) -> Result<Program, Fail>
    ensures { IfOk result (λ p. (extent : ℕ → ℕ → Bool) × IsLoopTree p.graph extent p.tree) }
{
    match read_loops(alloc, loops.as_bytes(), view) {
        Ok(notes) => noted_program(alloc, view, &notes),
        Err(_) => Err("the loop file is read".into()),
    }
}

fn noted_program(alloc: Global, view: &ImageView<'_>, notes: &LoopNotes) -> Result<Program, Fail>
    ensures { IfOk result (λ p. (extent : ℕ → ℕ → Bool) × IsLoopTree p.graph extent p.tree) }
{
    match build_graph(alloc, view) {
        Ok(graph) => looped_program(alloc, graph, notes),
        Err(_) => Err("the code is accepted".into()),
    }
}

fn looped_program(alloc: Global, graph: CodeGraph, notes: &LoopNotes) -> Result<Program, Fail>
    ensures { IfOk result (λ p. (extent : ℕ → ℕ → Bool) × IsLoopTree p.graph extent p.tree) }
{
    match build_loops(alloc, &graph, notes) {
        Ok(tree) => Ok(Program { graph, tree }),
        Err(_) => Err("the loops are accepted".into()),
    }
}

/// Expects that two values of a row are the same.
pub fn expect_same<T: Copy + PartialEq + Debug>(rt: &impl Abort, row: u64, found: T, want: T) {
    assert_eq!(rt; found, want, "row {row}");
}

/// Expects that two lists of a row are the same.
pub fn expect_list<T: PartialEq + Debug>(rt: &impl Abort, row: u64, found: &[T], want: &[T]) {
    assert_eq!(rt; found, want, "row {row}");
}

/// Expects that this text is found for a row.
pub fn expect_text(
    rt: &impl Abort,
    name: &str,
    found: Result<String, Fail>,
    want: &str,
) -> Result<(), Fail> {
    let text = found?;
    assert_eq!(rt; text.as_str(), want, "{name}");
    Ok(())
}

/// Expects that each part stands in the text that is found for a row.
pub fn expect_parts(
    rt: &impl Abort,
    name: &str,
    found: Result<String, Fail>,
    parts: &[&str],
) -> Result<(), Fail> {
    let text = found?;
    for part in parts {
        assert!(rt; text.contains(*part), "{name}: {part} in {text}");
    }
    Ok(())
}

/// A text of some words.
pub fn words_text(alloc: Global, words: &str) -> Result<String, Fail> {
    Ok(String::from_str(alloc, words)?)
}
