//! The lines of an image, and the one of an address.

ghost use Rattle.std.specs.Prelude.{◌≤◌, IfSome};

use crate::programs::{Found, Span};
use crate::units::Sections;
use elf_image::ImageView;
use elf_sections::section_named;
use scale_base::NoMemory;
use std::alloc::Global;

/// A longer path isn't used, and no longer name of a file.
const MOST_PATH: usize = 4096;

const MOST_NAME: usize = 64;

/// The source lines of an image's code.
#[derive(Drop)]
pub struct Lines<'a> {
    files: Vec<&'a [u8]>,
    // Ascending by their first addresses.
    spans: Vec<Span>,
}

/// A line of a source file, from 1 on. The file's name is without folders, and of printable ASCII without quotes.
#[derive(Clone, Copy)]
pub struct SourcePlace<'a> {
    pub file: &'a str,
    pub line: u32,
}

// Whether a byte may stand in a name that is shown.
fn is_shown(byte: u8) -> bool {
    (b' '..=b'~').contains(&byte) && byte != b'"' && byte != b'\'' && byte != b'`'
}

fn is_folder_end(byte: u8) -> bool {
    byte == b'/' || byte == b'\\'
}

// The part of a path behind its folders.
fn without_folders(path: &[u8]) -> &[u8] {
    match path.iter().rposition(|byte| is_folder_end(*byte)) {
        Some(last) => path.get(last.saturating_add(1)..).unwrap_or(&[]),
        None => path,
    }
}

// The name of a file, by its path and what follows it, where it can be shown.
fn name_of(bytes: &[u8]) -> Option<&str> {
    let end = bytes
        .iter()
        .take(MOST_PATH + 1)
        .position(|byte| *byte == 0)?;
    let name = without_folders(bytes.get(..end)?);
    if name.is_empty() || name.len() > MOST_NAME || !name.iter().all(|byte| is_shown(*byte)) {
        return None;
    }
    std::str::from_utf8(name).ok()
}

/// The lines of an image that was built with debug lines (`gcc -g`). Of any other there are none. What can't be read is left out.
pub fn lines_of<'a>(alloc: Global, view: &'a ImageView<'a>) -> Result<Lines<'a>, NoMemory> {
    let file = view.file();
    let sections = Sections {
        lines: section_named(file, b".debug_line").unwrap_or(&[]),
        line_strings: section_named(file, b".debug_line_str").unwrap_or(&[]),
        strings: section_named(file, b".debug_str").unwrap_or(&[]),
    };
    let mut found = Found::new(alloc, view);
    found.read_all(&sections)?;
    let Found {
        files,
        mut spans,
        ..
    } = found;
    spans.sort_by(|a, b| a.from.cmp(&b.from))?;
    Ok(Lines { files, spans })
}

impl<'a> Lines<'a> {
    // The code of one line that an address is in.
    fn span(&self, at: u32) -> Option<Span> {
        let above = self.spans.partition_point(|span| span.from <= at);
        let span = *self.spans.get(above.checked_sub(1)?)?;
        if at < span.to { Some(span) } else { None }
    }

    /// The source line of an instruction. None where it isn't known.
    pub fn place(&self, at: u32) -> Option<SourcePlace<'a>>
        ensures { IfSome result (λ place. 1 ≤ place.line) }
    {
        let span = self.span(at)?;
        if span.line == 0 {
            return None;
        }
        let path: &'a [u8] = *self.files.get(span.file)?;
        Some(SourcePlace {
            file: name_of(path)?,
            line: span.line,
        })
    }
}
