//! The names of the files of a unit (DWARF 5, section 6.2.4.1, and DWARF 4, section 6.2.4).

use crate::reader::Reader;
use crate::units::{Sections, Unit};
use elf_sections::bytes_at;
use scale_base::NoMemory;

// What an entry of a table has, and the forms in which it stands (DWARF 5, sections 7.22 and 7.5.6).
const DW_LNCT_PATH: u32 = 1;

const DW_FORM_BLOCK2: u32 = 0x03;

const DW_FORM_BLOCK4: u32 = 0x04;

const DW_FORM_DATA2: u32 = 0x05;

const DW_FORM_DATA4: u32 = 0x06;

const DW_FORM_DATA8: u32 = 0x07;

const DW_FORM_STRING: u32 = 0x08;

const DW_FORM_BLOCK: u32 = 0x09;

const DW_FORM_BLOCK1: u32 = 0x0A;

const DW_FORM_DATA1: u32 = 0x0B;

const DW_FORM_STRP: u32 = 0x0E;

const DW_FORM_UDATA: u32 = 0x0F;

const DW_FORM_DATA16: u32 = 0x1E;

const DW_FORM_LINE_STRP: u32 = 0x1F;

// A string that stands at a place of a section.
fn string_at<'a>(table: &mut Reader<'a>, section: &'a [u8]) -> Option<&'a [u8]> {
    Some(bytes_at(section, table.word()? as usize))
}

// Passes over bytes that are no string.
fn pass<'a>(table: &mut Reader<'a>, count: usize) -> Option<&'a [u8]> {
    table.skip(count)?;
    Some(&[])
}

// A part of an entry, which takes a byte at least: a string with all that follows it, or nothing where it is none. None where its form isn't known.
fn part<'a>(table: &mut Reader<'a>, form: u32, sections: &Sections<'a>) -> Option<&'a [u8]> {
    match form {
        DW_FORM_STRING => table.string(),
        DW_FORM_LINE_STRP => string_at(table, sections.line_strings),
        DW_FORM_STRP => string_at(table, sections.strings),
        DW_FORM_DATA1 => pass(table, 1),
        DW_FORM_DATA2 => pass(table, 2),
        DW_FORM_DATA4 => pass(table, 4),
        DW_FORM_DATA8 => pass(table, 8),
        DW_FORM_DATA16 => pass(table, 16),
        DW_FORM_UDATA => {
            table.number()?;
            Some(&[])
        }
        _ => block(table, form),
    }
}

// The same of a part that tells its own length.
fn block<'a>(table: &mut Reader<'a>, form: u32) -> Option<&'a [u8]> {
    let length = match form {
        DW_FORM_BLOCK1 => u32::from(table.byte()?),
        DW_FORM_BLOCK2 => u32::from(table.half()?),
        DW_FORM_BLOCK4 => table.word()?,
        DW_FORM_BLOCK => table.number()?,
        _ => return None,
    };
    pass(table, length as usize)
}

/// What stands in each entry of a table: pairs of what it is and of its form.
#[derive(Clone, Copy)]
struct Format<'a> {
    count: u8,
    pairs: Reader<'a>,
}

// The format of a table.
fn format_of<'a>(table: &mut Reader<'a>) -> Option<Format<'a>> {
    let count = table.byte()?;
    let pairs = *table;
    for _ in 0..count {
        table.number()?;
        table.number()?;
    }
    Some(Format { count, pairs })
}

// The path of the next entry of a table, or nothing where it has none.
fn entry<'a>(
    table: &mut Reader<'a>,
    format: &Format<'a>,
    sections: &Sections<'a>,
) -> Option<&'a [u8]> {
    let mut pairs = format.pairs;
    let mut path: &[u8] = &[];
    for _ in 0..format.count {
        let kind = pairs.number()?;
        let form = pairs.number()?;
        let string = part(table, form, sections)?;
        if kind == DW_LNCT_PATH {
            path = string;
        }
    }
    Some(path)
}

// Passes over the folders of a table of version 5.
fn skip_folders<'a>(table: &mut Reader<'a>, sections: &Sections<'a>) -> Option<()> {
    let format = format_of(table)?;
    let count = table.number()?;
    if format.count == 0 {
        return Some(());
    }
    for _ in 0..count {
        entry(table, &format, sections)?;
    }
    Some(())
}

// How many files a table of version 5 has, and their format. Entries without parts aren't read.
fn files_ahead<'a>(table: &mut Reader<'a>, sections: &Sections<'a>) -> Option<(u32, Format<'a>)> {
    skip_folders(table, sections)?;
    let format = format_of(table)?;
    let count = table.number()?;
    if format.count == 0 {
        return None;
    }
    Some((count, format))
}

// Adds the files of a table of version 5.
fn push_listed<'a>(
    files: &mut Vec<&'a [u8]>,
    unit: &Unit<'a>,
    sections: &Sections<'a>,
) -> Result<(), NoMemory> {
    let mut table = unit.tables;
    let Some((count, format)) = files_ahead(&mut table, sections) else {
        return Ok(());
    };
    for _ in 0..count {
        let Some(path) = entry(&mut table, &format, sections) else {
            return Ok(());
        };
        files.push(path)?;
    }
    Ok(())
}

// Passes over the folders of a table before version 5: strings, and an empty one behind them.
fn skip_strings(table: &mut Reader<'_>) -> Option<()> {
    for _ in 0..table.bytes.len() {
        if *table.string()?.first()? == 0 {
            return Some(());
        }
    }
    None
}

/// The file of an entry before version 5, with all that follows it: a string, and the numbers of its folder, its time and its length. None behind the last one.
pub fn plain_entry<'a>(table: &mut Reader<'a>) -> Option<&'a [u8]> {
    let path = table.string()?;
    if *path.first()? == 0 {
        return None;
    }
    table.number()?;
    table.number()?;
    table.number()?;
    Some(path)
}

// Adds the files of a table before version 5.
fn push_plain<'a>(files: &mut Vec<&'a [u8]>, unit: &Unit<'a>) -> Result<(), NoMemory> {
    let mut table = unit.tables;
    if skip_strings(&mut table).is_none() {
        return Ok(());
    }
    for _ in 0..unit.tables.bytes.len() {
        let Some(path) = plain_entry(&mut table) else {
            return Ok(());
        };
        files.push(path)?;
    }
    Ok(())
}

/// Adds the files of a unit: the path of each, with the zero behind it and all that follows.
pub fn push_files<'a>(
    files: &mut Vec<&'a [u8]>,
    unit: &Unit<'a>,
    sections: &Sections<'a>,
) -> Result<(), NoMemory> {
    if unit.version == 5 {
        return push_listed(files, unit, sections);
    }
    push_plain(files, unit)
}
