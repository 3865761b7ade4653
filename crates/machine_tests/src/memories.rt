//! Memories of a program: lists of segments, and pages.

use crate::fixtures::{
    READS_A_BYTE, READS_ALL, WRITES_A_BYTE, expect_same, file_of, plain, view_of,
};
use elf_image::ImageView;
use flat_memory::{ListMemory, Memory, PageMemory, load_list, load_pages};
use std::alloc::Global;
use std::process::Abort;
use std::test::Fail;

/// The list of a file's segments.
fn list_of(alloc: Global, file: &[u8]) -> Result<ListMemory, Fail> {
    let view = view_of(alloc, file)?;
    Ok(load_list(alloc, &view)?)
}

/// Its pages.
fn pages_of(alloc: Global, file: &[u8]) -> Result<PageMemory, Fail> {
    let view = view_of(alloc, file)?;
    Ok(load_pages(alloc, &view)?)
}

/// The list of an image of two words.
fn two_words(alloc: Global) -> Result<ListMemory, Fail> {
    let file = plain(alloc, &[0x05D0_0893, 0x0000_0073])?;
    list_of(alloc, &file)
}

/// The bytes of a segment and of the stack, and whether they may be read, written and fetched.
static BYTES: [(u32, u8, bool, bool, bool); 10] = [
    (0x0000_FFFF, 0, false, false, false),
    (0x0001_0000, 0x93, false, false, true),
    (0x0001_0003, 0x05, false, false, true),
    (0x0001_0007, 0, false, false, true),
    (0x0001_0008, 0, false, false, false),
    (0x7FFB_FFFF, 0, false, false, false),
    (0x7FFC_0000, 0, true, true, false),
    (0x7FFF_FFFF, 0, true, true, false),
    (0x8000_0000, 0, false, false, false),
    (0xFFFF_FFFC, 0, false, false, false),
];

#[test]
fn a_plain_image(rt: HostRuntime) -> Result<(), Fail> {
    let memory = two_words(rt.alloc())?;
    for (at, byte, read, write, fetch) in &BYTES {
        let found = (memory.byte(*at), uses(&memory, *at));
        expect_same(&rt, *at, found, (*byte, [*read, *write, *fetch, false]));
    }
    Ok(())
}

#[test]
fn a_written_byte(rt: HostRuntime) -> Result<(), Fail> {
    let mut memory = two_words(rt.alloc())?;
    assert!(rt; memory.may_write(0x7FFF_FFFF));
    memory.set_byte(0x7FFF_FFFF, 7);
    let found = (memory.byte(0x7FFF_FFFF), memory.byte(0x7FFF_FFFE));
    expect_same(&rt, 0, found, (7, 0));
    Ok(())
}

/// Whether a byte may be read, written and fetched, and whether it is keyed.
fn uses<M: Memory>(memory: &M, at: u32) -> [bool; 4] {
    [
        memory.may_read(at),
        memory.may_write(at),
        memory.may_fetch(at),
        memory.is_keyed(at),
    ]
}

/// The list of a segment in which the file's header is loaded.
fn with_header(alloc: Global) -> Result<ListMemory, Fail> {
    let segment = [1, 0, 0x0001_0000, 0x0001_0000, 92, 92, 5, 4];
    let words = [0x05D0_0893, 0x0000_0073];
    let file = file_of(alloc, 0x0001_0000, &[segment], &words)?;
    list_of(alloc, &file)
}

/// Where the file's header is loaded, the fields that a rewritten file changes are zeros, and what is no text may be read.
static HEADER: [(u32, u8, bool); 9] = [
    (0x0001_0000, 0x7F, true),
    (0x0001_001A, 0x01, true),
    (0x0001_001C, 0, true),
    (0x0001_0028, 52, true),
    (0x0001_002A, 32, true),
    (0x0001_002C, 0, true),
    (0x0001_0033, 0, true),
    (0x0001_0034, 1, false),
    (0x0001_0054, 0x93, false),
];

#[test]
fn a_loaded_header(rt: HostRuntime) -> Result<(), Fail> {
    let memory = with_header(rt.alloc())?;
    for (at, byte, read) in &HEADER {
        let found = (
            memory.byte(*at),
            memory.may_read(*at),
            memory.may_write(*at),
        );
        expect_same(&rt, *at, found, (*byte, *read, false));
    }
    Ok(())
}

/// The bytes, the word and who may use them, of an address and the multiple of 4 at or below it.
fn seen<M: Memory>(memory: &M, at: u32) -> (u8, u32, [bool; 4], bool, bool) {
    let word = at - at % 4;
    (
        memory.byte(at),
        memory.word(word),
        uses(memory, at),
        memory.may_read_word(word),
        memory.may_write_word(word),
    )
}

/// Expects that the memories answer alike at an address and at its neighbours.
fn agree_around(rt: &impl Abort, list: &ListMemory, pages: &PageMemory, at: u32) {
    for near in [at.wrapping_sub(1), at, at.wrapping_add(1)] {
        expect_same(rt, near, seen(pages, near), seen(list, near));
    }
}

fn agree_at_segments(rt: &impl Abort, list: &ListMemory, pages: &PageMemory, view: &ImageView<'_>) {
    for k in 0..view.segment_count() {
        let segment = view.segment(k);
        agree_around(rt, list, pages, segment.from);
        agree_around(rt, list, pages, segment.from.wrapping_add(segment.len));
    }
}

fn agree_at_text(rt: &impl Abort, list: &ListMemory, pages: &PageMemory, view: &ImageView<'_>) {
    for range in view.text() {
        agree_around(rt, list, pages, range.from);
        agree_around(rt, list, pages, range.to);
    }
}

static PLACES: [u32; 5] = [0, 0x0001_1000, 0x7FFC_0000, 0x8000_0000, 0xFFFF_F800];

fn agree_at_places(rt: &impl Abort, list: &ListMemory, pages: &PageMemory) {
    for at in &PLACES {
        agree_around(rt, list, pages, *at);
    }
}

/// Expects that both memories of an image answer alike at the edges of segments, text ranges and the stack.
fn both_agree(rt: &impl Abort, alloc: Global, file: &[u8]) -> Result<(), Fail> {
    let list = list_of(alloc, file)?;
    let pages = pages_of(alloc, file)?;
    agree_at_places(rt, &list, &pages);
    agree_at_edges(rt, alloc, &list, &pages, file)
}

fn agree_at_edges(
    rt: &impl Abort,
    alloc: Global,
    list: &ListMemory,
    pages: &PageMemory,
    file: &[u8],
) -> Result<(), Fail> {
    let view = view_of(alloc, file)?;
    agree_at_segments(rt, list, pages, &view);
    agree_at_text(rt, list, pages, &view);
    Ok(())
}

/// Text and what it reads in one segment, 16 bytes that may be written in another; and section headers.
fn with_sections(alloc: Global) -> Result<Vec<u8>, Fail> {
    let mut file = Vec::new(alloc);
    for word in &WITH_SECTIONS {
        file.extend_from_slice(&word.to_le_bytes())?;
    }
    Ok(file)
}

static WITH_SECTIONS: [u32; 110] = [
    0x464c457f, 0x00010101, 0, 0, 0x00f30002, 1, 0x000100b4, 52, 200, 0, 0x00200034, 0x00280004, 5,
    0x6474e551, 0, 0, 0, 0, 0, 6, 0, 1, 0, 0x00010000, 0, 200, 200, 5, 0, 1, 200, 0x000110c8, 0, 0,
    16, 6, 0, 0, 0, 0, 0, 0, 0, 0, 0, 0x000102b7, 0x0c42c503, 0x05d00893, 0x00000073, 42, 0, 0, 0,
    0, 0, 0, 0, 0, 0, 0, 0, 1, 6, 0x000100b4, 180, 16, 0, 0, 0, 0, 0, 1, 2, 0x000100c4, 196, 4, 0,
    0, 0, 0, 0, 2, 0, 0, 400, 32, 4, 0, 0, 16, 0, 3, 0, 0, 432, 8, 0, 0, 0, 0, 0, 0, 0, 0, 1,
    0x000100b4, 0, 0x00010000, 0x74735f00, 0x00747261,
];

/// A file of 12,288 bytes of text that begin in the middle of a page, and of segments that may be written and that may only be read.
fn wide(alloc: Global) -> Result<Vec<u8>, Fail> {
    let segments = [
        [1, 148, 0x0001_0800, 0, 0x3000, 0x3000, 5, 4],
        [1, 0, 0x0002_0010, 0, 0, 0x3000, 6, 4],
        [1, 0, 0x0003_0000, 0, 0, 0x1000, 4, 4],
    ];
    file_of(alloc, 0x0001_0800, &segments, &[0x0000_0013; 3072])
}

static PROGRAMS: [&[u32]; 4] = [
    &[0x0070_0513, 0x05D0_0893, 0x0000_0073],
    &READS_A_BYTE,
    &READS_ALL,
    &WRITES_A_BYTE,
];

#[test]
fn both_memories_of_programs_agree(rt: HostRuntime) -> Result<(), Fail> {
    for words in &PROGRAMS {
        let file = plain(rt.alloc(), words)?;
        both_agree(&rt, rt.alloc(), &file)?;
    }
    Ok(())
}

#[test]
fn both_memories_of_a_file_with_sections_agree(rt: HostRuntime) -> Result<(), Fail> {
    let file = with_sections(rt.alloc())?;
    both_agree(&rt, rt.alloc(), &file)
}

#[test]
fn both_memories_of_a_wide_file_agree(rt: HostRuntime) -> Result<(), Fail> {
    let file = wide(rt.alloc())?;
    both_agree(&rt, rt.alloc(), &file)
}

const NONE: [bool; 4] = [false; 4];

const READABLE: [bool; 4] = [true, false, false, false];

const WRITABLE: [bool; 4] = [true, true, false, false];

const TEXT: [bool; 4] = [false, false, true, false];

/// Pages that one range has whole, and their neighbours, of which a range has a part.
static PAGES: [(u32, [bool; 4]); 24] = [
    (0x0001_07FF, NONE),
    (0x0001_0800, TEXT),
    (0x0001_0FFF, TEXT),
    (0x0001_1000, TEXT),
    (0x0001_2FFF, TEXT),
    (0x0001_3000, TEXT),
    (0x0001_37FF, TEXT),
    (0x0001_3800, NONE),
    (0x0002_000F, NONE),
    (0x0002_0010, WRITABLE),
    (0x0002_0FFF, WRITABLE),
    (0x0002_1000, WRITABLE),
    (0x0002_2FFF, WRITABLE),
    (0x0002_3000, WRITABLE),
    (0x0002_300F, WRITABLE),
    (0x0002_3010, NONE),
    (0x0002_FFFF, NONE),
    (0x0003_0000, READABLE),
    (0x0003_0FFF, READABLE),
    (0x0003_1000, NONE),
    (0x7FFB_FFFF, NONE),
    (0x7FFC_0000, WRITABLE),
    (0x7FFF_FFFF, WRITABLE),
    (0x8000_0000, NONE),
];

fn expect_uses<M: Memory>(rt: &impl Abort, memory: &M) {
    for (at, expected) in &PAGES {
        expect_same(rt, *at, uses(memory, *at), *expected);
    }
}

#[test]
fn whole_pages(rt: HostRuntime) -> Result<(), Fail> {
    let file = wide(rt.alloc())?;
    let pages = pages_of(rt.alloc(), &file)?;
    expect_uses(&rt, &pages);
    Ok(())
}

#[test]
fn a_list_of_the_same_pages(rt: HostRuntime) -> Result<(), Fail> {
    let file = wide(rt.alloc())?;
    let list = list_of(rt.alloc(), &file)?;
    expect_uses(&rt, &list);
    Ok(())
}

/// Bytes behind what is written.
static WRITTEN: [(u32, u8); 4] = [
    (0x0002_1FFB, 0),
    (0x0002_1FFC, 1),
    (0x0002_1FFF, 4),
    (0x0002_2000, 5),
];

fn wide_pages(alloc: Global) -> Result<PageMemory, Fail> {
    let file = wide(alloc)?;
    pages_of(alloc, &file)
}

/// What is written into pages is read again, also over the end of a page.
#[test]
fn written_pages(rt: HostRuntime) -> Result<(), Fail> {
    let mut memory = wide_pages(rt.alloc())?;
    assert!(rt; memory.may_write_word(0x0002_1FFC));
    memory.set_word(0x0002_1FFC, 0x0403_0201);
    assert!(rt; memory.may_write(0x0002_2000));
    memory.set_byte(0x0002_2000, 5);
    for (at, byte) in &WRITTEN {
        expect_same(&rt, *at, memory.byte(*at), *byte);
    }
    let words = (memory.word(0x0002_1FFC), memory.word(0x0002_2000));
    expect_same(&rt, 0, words, (0x0403_0201, 5));
    Ok(())
}
