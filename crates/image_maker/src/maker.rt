//! Makes a program from a number, with the files that go with it.

ghost use Rattle.std.specs.Prelude.{◌≡◌, ◌<◌, ◌≤◌, length, IfOk, Ok};
ghost use Rattle.scale_base.specs.Image as image;
ghost use Rattle.image_maker.specs.Assembling as asm;
ghost use Rattle.image_maker.specs.Made as made;
ghost use Rattle.image_maker.specs.MadeTexts as texts;
ghost use Rattle.image_maker.specs.Making as making;

use crate::assembler::assemble;
use crate::line::{AsmError, Line};
use crate::plain::plain_image;
use crate::program::make_program;
use crate::texts::{drawn_bytes, loops_text, machine_text};
use scale_base::{FILE_LIMIT, IMAGE_LIMIT, NoMemory, WORD_LIMIT};
use std::alloc::Global;

/// A made program, and the files that go with it.
#[derive(Drop)]
pub struct Made {
    /// The image of the program.
    pub image: Vec<u8>,
    /// Its machine file.
    pub machine: Vec<u8>,
    /// Its loop file.
    pub loops: Vec<u8>,
    /// The bytes that the program reads.
    pub input: Vec<u8>,
}

/// The plain image of lines that assemble.
fn make_image(alloc: Global, lines: &[Line]) -> Result<Vec<u8>, NoMemory>
    requires few { length lines.now ≤ WORD_LIMIT }
    requires some { 0 < asm.words_before lines.now (length lines.now) }
    requires assemble { asm.Assemble lines.now }
    ensures lines { IfOk result (λ file. made.IsImageOf lines.now file.items) }
    ensures image { IfOk result (λ file. image.image_of file.items ≡ Ok (image.contents file.items)) }
{
    let error = match assemble(alloc, lines) {
        Ok(words) => return plain_image(alloc, &words),
        Err(error) => error,
    };
    match error {
        AsmError::Memory => Err(NoMemory),
        _ => unreachable!(),
    }
}

/// The program made from a number, with so many blocks: the same files for the same number and size. Its file is an image. Each
/// file is small: an image of at most 4,194,304 bytes, and texts of at most 1,048,576.
pub fn make(alloc: Global, number: u64, size: u32) -> Result<Made, NoMemory>
    requires { size ≤ 2000 }
    ensures program { IfOk result (λ it. made.IsImageOf (making.program number size) it.image.items) }
    ensures image { IfOk result (λ it. image.image_of it.image.items ≡ Ok (image.contents it.image.items)) }
    ensures machine { IfOk result (λ it. it.machine.items ≡ texts.machine_text size) }
    ensures loops { IfOk result (λ it. it.loops.items ≡ texts.loops_text (making.headers number size)) }
    ensures input { IfOk result (λ it. it.input.items ≡ texts.drawn_bytes (making.state_at number size) 256) }
    ensures small { IfOk result (λ it. (length it.image.items ≤ IMAGE_LIMIT) × (length it.machine.items ≤ FILE_LIMIT) ×
        (length it.loops.items ≤ FILE_LIMIT)) }
{
    let mut program = make_program(alloc, number, size)?;
    let image = make_image(alloc, &program.lines)?;
    let machine = machine_text(alloc, size)?.into_bytes();
    let loops = loops_text(alloc, &program.headers)?.into_bytes();
    let input = drawn_bytes(alloc, &mut program.draws, 256)?;
    Ok(Made {
        image,
        machine,
        loops,
        input,
    })
}
