//! What is read of ELF files. Why they are refused is data, `images.txt` and `hostile.txt` of the first program's `cases`.

use crate::fixtures::{PLAIN, SECTIONS, SYMBOLS, view_of};
use elf_image::ImageView;
use scale_base::{Range, Span};
use std::alloc::Global;
use std::process::Abort;
use std::test::Fail;
use symbol_index::SortedSymbols;

/// An image with its entry, its bytes and how many segments it has, and the ends of its text.
fn expect_image(rt: &impl Abort, view: &ImageView<'_>, numbers: (u32, usize, usize), text: Range) {
    let found = (view.entry(), view.file().len(), view.segment_count());
    assert_eq!(rt; found, numbers);
    let found = (view.text(), view.keyed());
    assert_eq!(rt; found, ([text].as_slice(), None));
}

#[test]
fn reads_a_segment_and_text(rt: HostRuntime) -> Result<(), Fail> {
    let view = view_of(rt.alloc(), PLAIN)?;
    let text = Range {
        from: 0x10000,
        to: 0x1000C,
    };
    expect_image(&rt, &view, (0x10000, 96, 1), text);
    Ok(())
}

#[test]
fn reads_segments_and_text(rt: HostRuntime) -> Result<(), Fail> {
    let view = view_of(rt.alloc(), SECTIONS)?;
    let text = Range {
        from: 0x100B4,
        to: 0x100C4,
    };
    expect_image(&rt, &view, (0x100B4, 501, 2), text);
    Ok(())
}

/// Addresses, and the words and the places in the file there.
static WORDS: [(u32, Option<u32>, Option<usize>); 5] = [
    (0x10000, Some(0x0070_0513), Some(84)),
    (0x10004, Some(0x05D0_0893), Some(88)),
    (0x10008, Some(0x0000_0073), Some(92)),
    (0x10002, None, Some(86)),
    (0x1000C, None, None),
];

#[test]
fn finds_words_in_their_segment(rt: HostRuntime) -> Result<(), Fail> {
    let view = view_of(rt.alloc(), PLAIN)?;
    for (at, word, place) in &WORDS {
        let found = (view.word_at(*at), view.file_place(*at));
        assert_eq!(rt; found, (*word, *place), "at {at}");
    }
    Ok(())
}

#[test]
fn gives_a_segment(rt: HostRuntime) -> Result<(), Fail> {
    let view = view_of(rt.alloc(), PLAIN)?;
    assert_eq!(rt; view.segment_count(), 1);
    let segment = view.segment(0);
    let numbers = [segment.from, segment.len, segment.flags, segment.file_at];
    assert_eq!(rt; (numbers, segment.file.len()), ([0x10000, 12, 5, 84], 12));
    Ok(())
}

/// Names, and the values of their symbols in `SYMBOLS`.
static NAMES: [(&str, Option<u32>); 12] = [
    ("twice", Some(2)),
    (
        "llllllllllllllllllllllllllllllllllllllllllllllllllllllllllllllllx",
        Some(4),
    ),
    (
        "lllllllllllllllllllllllllllllllllllllllllllllllllllllllllllllllly",
        Some(5),
    ),
    (
        "llllllllllllllllllllllllllllllllllllllllllllllllllllllllllllllll",
        None,
    ),
    ("ice", Some(6)),
    ("", Some(7)),
    ("only", None),
    ("end", None),
    ("none", None),
    ("twic", None),
    ("twice\0", None),
    ("\0", None),
];

/// Names, and the values of their symbols in `SECTIONS`.
static NAMES_OF_SECTIONS: [(&str, Option<u32>); 5] = [
    ("_start", Some(0x100B4)),
    ("a+b", Some(0x100BC)),
    ("top", Some(0xFFFF_FFFF)),
    ("gone", None),
    ("_star", None),
];

/// Names where there is no symbol.
static NO_NAMES: [(&str, Option<u32>); 2] = [("_start", None), ("", None)];

/// The table of symbols and the sorted symbols answer alike.
fn expect_symbols(
    rt: &impl Abort,
    alloc: Global,
    file: &[u8],
    names: &[(&str, Option<u32>)],
) -> Result<(), Fail> {
    let view = view_of(alloc, file)?;
    expect_values(rt, alloc, &view, names)
}

fn expect_values(
    rt: &impl Abort,
    alloc: Global,
    view: &ImageView<'_>,
    names: &[(&str, Option<u32>)],
) -> Result<(), Fail> {
    let sorted = SortedSymbols::of(alloc, view)?;
    for (name, value) in names {
        let found = (view.symbol(name), sorted.value(name));
        assert_eq!(rt; found, (*value, *value), "{name}");
    }
    Ok(())
}

/// The section headers of `SECTIONS` end at its byte 400.
#[test]
fn finds_symbols(rt: HostRuntime) -> Result<(), Fail> {
    let alloc = rt.alloc();
    expect_symbols(&rt, alloc, PLAIN, &NO_NAMES)?;
    expect_symbols(&rt, alloc, SECTIONS, &NAMES_OF_SECTIONS)?;
    expect_symbols(&rt, alloc, &SECTIONS[..400], &NO_NAMES)?;
    expect_symbols(&rt, alloc, SYMBOLS, &NAMES)
}

#[test]
fn spans_that_touch_do_not_overlap(rt: HostRuntime) {
    let low = Span { from: 0, len: 4 };
    assert_eq!(rt; low.end(), 4);
    for (from, shared) in [(4, false), (3, true)] {
        assert_eq!(rt; low.overlaps(Span { from, len: 4 }), shared);
    }
}
