//! Programs and their files, for tests of several crates.

ghost use Rattle.std.specs.Prelude.{◌≡◌, ◌≤◌, true, length};
ghost use Rattle.std.specs.List.{All};

use scale_base::{Stop, Summary};
use scaler::rewrite;
use std::alloc::Global;
use std::process::Abort;
use std::test::Fail;

/// Reads a byte. Without one it exits, by the branch at 0x10010; with one it divides six times first.
pub const READ_ONE: [u32; 13] = [
    0x03F00893, 0x00010593, 0x00100613, 0x00000073, 0x00050E63, 0x0262C2B3, 0x0262C2B3, 0x0262C2B3,
    0x0262C2B3, 0x0262C2B3, 0x0262C2B3, 0x05D00893, 0x00000073,
];

/// Reads bytes as long as there are any: a loop from 0x10008 to its branch at 0x10014.
pub const READ_ALL: [u32; 8] = [
    0x00010593, 0x00100613, 0x03F00893, 0x00000513, 0x00000073, 0xFE051AE3, 0x05D00893, 0x00000073,
];

/// Passes over fourteen of twenty-four divisions, by the branch at 0x10000.
pub const SKIP_FOURTEEN: [u32; 27] = [
    0x02050E63, 0x0262C2B3, 0x0262C2B3, 0x0262C2B3, 0x0262C2B3, 0x0262C2B3, 0x0262C2B3, 0x0262C2B3,
    0x0262C2B3, 0x0262C2B3, 0x0262C2B3, 0x0262C2B3, 0x0262C2B3, 0x0262C2B3, 0x0262C2B3, 0x0262C2B3,
    0x0262C2B3, 0x0262C2B3, 0x0262C2B3, 0x0262C2B3, 0x0262C2B3, 0x0262C2B3, 0x0262C2B3, 0x0262C2B3,
    0x0262C2B3, 0x05D00893, 0x00000073,
];

/// The stub of the branch of `READ_ONE`, at 0x11000: a Switch where it is taken.
pub const SWITCHED: [u32; 14] = [
    0x00050463, 0x810FF06F, 0x80502023, 0x80602223, 0xFFC02283, 0x00229293, 0x00000337, 0x10030313,
    0x00535333, 0x00F37313, 0xFE602E23, 0x80402303, 0x80002283, 0xFF9FE06F,
];

pub const NO_LOOPS: &str = "version = 1\n";

/// The loop of `READ_ALL`.
pub const READ_LOOP: &str =
    "version = 1\n[[loop]]\nheader = 0x10008\nranges = [[0x10008, 0x10018]]\nbound = 10\ncounted = true\n";

/// What stands in a machine file behind its deadline: a machine of three levels, on which a change of level takes 10 time units.
const COSTS_AND_LEVELS: &str =
    "steps = 1000000\nmin_gain = 20\nswitch_time = 10\nswitch_energy = 20\n[cost]\nalu = 1\nload = 2\nstore = 1\ntaken = 2\nuntaken = 1\njump = 2\nmul = 3\ndiv = 10\necall = 5\nfence = 1\n[[level]]\nperiod = 4\nenergy = 1\n[[level]]\nperiod = 2\nenergy = 3\n[[level]]\nperiod = 1\nenergy = 8\n";

/// The machine file of a deadline.
fn machine_text(alloc: Global, deadline: u32) -> Result<String, Fail> {
    Ok(format!(in alloc; "version = 1\ndeadline = {deadline}\n{COSTS_AND_LEVELS}")?)
}

/// A program, the deadline of its machine, and its loops.
#[derive(Clone, Copy)]
pub struct Program {
    pub words: &'static [u32],
    pub deadline: u32,
    pub loops: &'static str,
}

/// `READ_ONE`, with time for one level and for a switch.
pub const ONE: Program = Program {
    words: &READ_ONE,
    deadline: 160,
    loops: NO_LOOPS,
};

pub const ALL: Program = Program {
    words: &READ_ALL,
    deadline: 500,
    loops: READ_LOOP,
};

pub const SKIPPING: Program = Program {
    words: &SKIP_FOURTEEN,
    deadline: 502,
    loops: NO_LOOPS,
};

/// The files of a program.
#[derive(Drop)]
pub struct Files<'a> {
    pub image: Vec<u8>,
    pub machine: String,
    pub loops: &'a str,
}

pub fn files_of(alloc: Global, program: &Program) -> Result<Files<'static>, Fail> {
    let image = plain_image(alloc, program.words)?;
    let machine = machine_text(alloc, program.deadline)?;
    Ok(Files {
        image,
        machine,
        loops: program.loops,
    })
}

/// A file of one segment of words at 0x10000.
pub fn plain_image(alloc: Global, words: &[u32]) -> Result<Vec<u8>, Fail> {
    if words.len() > 131_072 {
        return Err(Fail::from("words of an image"));
    }
    Ok(image_maker::plain_image(alloc, words)?)
}

pub fn push_words(file: &mut Vec<u8>, words: &[u32]) -> Result<(), Fail> {
    for word in words {
        file.extend_from_slice(&word.to_le_bytes())?;
    }
    Ok(())
}

/// The head of a file: its header and its program headers.
pub fn file_head(alloc: Global, entry: u32, segments: &[[u32; 8]]) -> Result<Vec<u8>, Fail> {
    let count = (segments.len() % 64) as u32;
    let mut file = Vec::new(alloc);
    push_words(
        &mut file,
        &[
            0x464C457F, 0x00010101, 0, 0, 0x00F30002, 1, entry, 52, 0, 0, 0x00200034, count, 0,
        ],
    )?;
    for segment in segments {
        push_words(&mut file, segment)?;
    }
    Ok(file)
}

/// Inputs of these numbers of bytes.
pub fn inputs_of(alloc: Global, sizes: &[usize]) -> Result<Vec<Vec<u8>>, Fail> {
    let mut inputs = Vec::new(alloc);
    for size in sizes {
        inputs.push(vec![in alloc; b'x'; *size]?)?;
    }
    Ok(inputs)
}

/// Whether the program would load the inputs.
pub fn are_short(inputs: &[Vec<u8>]) -> bool
    ensures { result ≡ true → All (λ input. length input.items ≤ 1048576) inputs.now }
{
    inputs.iter().all(|input| input.len() <= 1_048_576)
}

/// What `rewrite` makes of files that the program would load.
pub fn rewritten(alloc: Global, files: &Files<'_>) -> Result<(Vec<u8>, Summary), Stop> {
    let image = files.image.as_slice();
    let machine = files.machine.as_bytes();
    let loops = files.loops.as_bytes();
    if image.len() > 4_194_304 || machine.len() > 1_048_576 || loops.len() > 1_048_576 {
        return Err(Stop::Memory);
    }
    rewrite(alloc, image, machine, loops)
}

/// What it stores.
pub fn stored(alloc: Global, files: &Files<'_>) -> Result<Vec<u8>, Fail> {
    match rewritten(alloc, files) {
        Ok((bytes, _)) => Ok(bytes),
        Err(_) => Err(Fail::from("files that are refused")),
    }
}

/// A text of some words.
pub fn words_text(alloc: Global, words: &str) -> Result<String, Fail> {
    Ok(String::from_str(alloc, words)?)
}

/// Expects that this text is found for a row.
pub fn expect_text(
    rt: &impl Abort,
    row: usize,
    found: Result<String, Fail>,
    want: &str,
) -> Result<(), Fail> {
    let text = found?;
    assert_eq!(rt; text.as_str(), want, "row {row}");
    Ok(())
}

/// Expects that each part stands in the text that is found for a row.
pub fn expect_parts(
    rt: &impl Abort,
    row: usize,
    found: Result<String, Fail>,
    parts: &[&str],
) -> Result<(), Fail> {
    let text = found?;
    for part in parts {
        assert!(rt; text.contains(*part), "row {row}: {part} in {text}");
    }
    Ok(())
}
