//! Files and programs that tests of several crates use.

use elf_image::ImageView;
use elf_view::read_image;
use std::alloc::Global;
use std::fmt::Debug;
use std::process::Abort;
use std::test::Fail;

/// Reads a byte, and skips six divisions where there is none.
pub const READS_A_BYTE: [u32; 13] = [
    0x03F0_0893,
    0x0001_0593,
    0x0010_0613,
    0x0000_0073,
    0x0005_0E63,
    0x0262_C2B3,
    0x0262_C2B3,
    0x0262_C2B3,
    0x0262_C2B3,
    0x0262_C2B3,
    0x0262_C2B3,
    0x05D0_0893,
    0x0000_0073,
];

/// Reads bytes until there are none.
pub const READS_ALL: [u32; 8] = [
    0x0001_0593,
    0x0010_0613,
    0x03F0_0893,
    0x0000_0513,
    0x0000_0073,
    0xFE05_1AE3,
    0x05D0_0893,
    0x0000_0073,
];

/// Writes the byte 0x41.
pub const WRITES_A_BYTE: [u32; 10] = [
    0x0410_0293,
    0x0051_0023,
    0x0010_0513,
    0x0001_0593,
    0x0010_0613,
    0x0400_0893,
    0x0000_0073,
    0x0000_0513,
    0x05D0_0893,
    0x0000_0073,
];

/// A file of an entry, segments, and words behind them.
pub fn file_of(
    alloc: Global,
    entry: u32,
    segments: &[[u32; 8]],
    words: &[u32],
) -> Result<Vec<u8>, Fail> {
    let count = (segments.len() % 64) as u32;
    let mut file = Vec::new(alloc);
    push_words(
        &mut file,
        &[
            0x464C_457F,
            0x0001_0101,
            0,
            0,
            0x00F3_0002,
            1,
            entry,
            52,
            0,
            0,
            0x0020_0034,
            count,
            0,
        ],
    )?;
    for segment in segments {
        push_words(&mut file, segment)?;
    }
    push_words(&mut file, words)?;
    Ok(file)
}

fn push_words(file: &mut Vec<u8>, words: &[u32]) -> Result<(), Fail> {
    for word in words {
        file.extend_from_slice(&word.to_le_bytes())?;
    }
    Ok(())
}

/// An image of one segment, of the words from 0x10000 on.
pub fn plain(alloc: Global, words: &[u32]) -> Result<Vec<u8>, Fail> {
    let size = ((words.len() % 1000) * 4) as u32;
    let segment = [1, 84, 0x0001_0000, 0x0001_0000, size, size, 5, 4];
    file_of(alloc, 0x0001_0000, &[segment], words)
}

/// The image of a file.
pub fn view_of(alloc: Global, file: &[u8]) -> Result<ImageView<'_>, Fail> {
    match read_image(alloc, file) {
        Ok(view) => Ok(view),
        Err(_) => Err("the file is an image".into()),
    }
}

/// Expects that two values of a row are the same.
pub fn expect_same<T: Copy + PartialEq + Debug>(rt: &impl Abort, row: u32, found: T, want: T) {
    assert_eq!(rt; found, want, "row {row:#x}");
}

/// The same of values that can't be printed.
pub fn expect_equal<T: Copy + PartialEq>(rt: &impl Abort, row: u32, found: T, want: T) {
    assert!(rt; found == want, "row {row:#x}");
}
