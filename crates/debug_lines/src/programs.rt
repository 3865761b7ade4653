//! The programs of the units, and the spans of code that they give (DWARF 5, section 6.2).

use crate::files::push_files;
use crate::reader::Reader;
use crate::registers::{Effect, Row};
use crate::units::{Sections, Unit, next_unit, unit_of};
use elf_image::ImageView;
use scale_base::NoMemory;
use std::alloc::Global;

/// So many spans are kept: the text has no more words.
const MOST_SPANS: usize = 1_048_576;

/// Code of one line, from one address to another. The file is a number of all those of the units.
#[derive(Clone, Copy, Drop)]
pub struct Span {
    pub from: u32,
    pub to: u32,
    pub file: usize,
    pub line: u32,
}

/// The files of the units, and the spans of code in the text.
#[derive(Drop)]
pub struct Found<'a> {
    view: &'a ImageView<'a>,
    pub files: Vec<&'a [u8]>,
    pub spans: Vec<Span>,
}

/// The files of a unit: their number in the unit that is the first one's, and the place of that one.
#[derive(Clone, Copy)]
struct Numbering {
    least: u32,
    place: usize,
}

impl Numbering {
    // Of the files of a unit, which will stand behind those that are there.
    fn of(unit: &Unit<'_>, files: &[&[u8]]) -> Numbering {
        Numbering {
            least: if unit.version == 5 { 0 } else { 1 },
            place: files.len(),
        }
    }

    // The place of a unit's file by its number. Behind the last one it is none.
    fn file(&self, number: u32) -> usize {
        match number.checked_sub(self.least) {
            Some(k) => self.place.saturating_add(k as usize),
            None => usize::MAX,
        }
    }
}

impl<'a> Found<'a> {
    /// Nothing yet.
    pub fn new(alloc: Global, view: &'a ImageView<'a>) -> Found<'a> {
        Found {
            view,
            files: Vec::new(alloc),
            spans: Vec::new(alloc),
        }
    }

    // Makes the last span longer, where another one only goes on with it.
    fn is_joined(&mut self, span: Span) -> bool {
        match self.spans.last_mut() {
            Some(last)
                if last.to == span.from && last.file == span.file && last.line == span.line => {
                last.to = span.to;
                true
            }
            _ => false,
        }
    }

    // Adds the code between two rows of a sequence, where there is some in the text.
    fn push(&mut self, numbering: Numbering, row: Row, to: u32) -> Result<(), NoMemory> {
        let span = Span {
            from: row.at,
            to,
            file: numbering.file(row.file),
            line: row.line,
        };
        if span.from >= span.to || !self.view.is_text_word(span.from) || self.is_joined(span) {
            return Ok(());
        }
        if self.spans.len() < MOST_SPANS {
            self.spans.push(span)?;
        }
        Ok(())
    }

    // Adds the code between a row and the one before it in its sequence, if there is one.
    fn give(&mut self, numbering: Numbering, last: Option<Row>, row: Row) -> Result<(), NoMemory> {
        match last {
            Some(last) => self.push(numbering, last, row.at),
            None => Ok(()),
        }
    }

    // Goes on with a row, and adds the code between it and the one before it in its sequence. One of line 0 is code of no line: it stays with the one before it.
    fn go_on(
        &mut self,
        numbering: Numbering,
        last: Option<Row>,
        row: Row,
    ) -> Result<Option<Row>, NoMemory> {
        if row.line == 0 && last.is_some() {
            return Ok(last);
        }
        self.give(numbering, last, row)?;
        Ok(Some(row))
    }

    // Adds what a unit's program gives.
    fn run(&mut self, unit: &Unit<'a>, numbering: Numbering) -> Result<(), NoMemory> {
        let mut program = unit.program;
        let mut row = Row::first();
        let mut last: Option<Row> = None;
        for _ in 0..unit.program.bytes.len() {
            match row.advance(unit, &mut program) {
                Some(Effect::Nothing) => {}
                Some(Effect::Named(path)) => self.files.push(path)?,
                Some(Effect::Given) => last = self.go_on(numbering, last, row)?,
                Some(Effect::Ended) => {
                    self.give(numbering, last, row)?;
                    last = None;
                    row = Row::first();
                }
                None => return Ok(()),
            }
        }
        Ok(())
    }

    // Adds what a unit has.
    fn read(&mut self, bytes: Reader<'a>, sections: &Sections<'a>) -> Result<(), NoMemory> {
        let Some(unit) = unit_of(bytes) else {
            return Ok(());
        };
        let numbering = Numbering::of(&unit, &self.files);
        push_files(&mut self.files, &unit, sections)?;
        self.run(&unit, numbering)
    }

    /// Adds what the units of the sections have.
    pub fn read_all(&mut self, sections: &Sections<'a>) -> Result<(), NoMemory> {
        let mut rest = Reader {
            bytes: sections.lines,
        };
        for _ in 0..sections.lines.len() {
            let Some(bytes) = next_unit(&mut rest) else {
                return Ok(());
            };
            self.read(bytes, sections)?;
        }
        Ok(())
    }
}
