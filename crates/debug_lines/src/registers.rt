//! One operation of a program that makes lines (DWARF 5, section 6.2.5).

use crate::files::plain_entry;
use crate::reader::Reader;
use crate::units::Unit;

const DW_LNS_COPY: u8 = 1;

const DW_LNS_ADVANCE_PC: u8 = 2;

const DW_LNS_ADVANCE_LINE: u8 = 3;

const DW_LNS_SET_FILE: u8 = 4;

const DW_LNS_CONST_ADD_PC: u8 = 8;

const DW_LNS_FIXED_ADVANCE_PC: u8 = 9;

const DW_LNE_END_SEQUENCE: u8 = 1;

const DW_LNE_SET_ADDRESS: u8 = 2;

const DW_LNE_DEFINE_FILE: u8 = 3;

/// From an address on, the code is of this line of a file, by its number in the unit. Numbers are modulo 2^32.
#[derive(Clone, Copy)]
pub struct Row {
    pub at: u32,
    pub file: u32,
    pub line: u32,
}

/// What an operation does beside changing the row that comes next: it gives that row, also as the end of a sequence, or it names another file.
#[derive(Clone, Copy)]
pub enum Effect<'a> {
    Nothing,
    Given,
    Ended,
    Named(&'a [u8]),
}

impl Row {
    /// The row at the begin of a sequence.
    pub fn first() -> Row {
        Row {
            at: 0,
            file: 1,
            line: 1,
        }
    }

    // Moves on by so many steps.
    fn go(&mut self, unit: &Unit<'_>, steps: u32) {
        self.at = self.at.wrapping_add(unit.step.wrapping_mul(steps));
    }

    // Moves on by an operation's own number, and gives the row where the line moves on, too.
    fn special(&mut self, unit: &Unit<'_>, operation: u8) -> Option<u32> {
        let number = operation.checked_sub(unit.first_special)?;
        self.go(unit, u32::from(number.checked_div(unit.line_range)?));
        Some(u32::from(number.checked_rem(unit.line_range)?))
    }

    // An operation that is told by its length and a number.
    fn extended<'a>(&mut self, program: &mut Reader<'a>) -> Option<Effect<'a>> {
        let length = program.number()?;
        let mut operation = Reader {
            bytes: program.take(length as usize)?,
        };
        match operation.byte()? {
            DW_LNE_END_SEQUENCE => Some(Effect::Ended),
            DW_LNE_SET_ADDRESS => {
                self.at = operation.word()?;
                Some(Effect::Nothing)
            }
            DW_LNE_DEFINE_FILE => Some(Effect::Named(plain_entry(&mut operation)?)),
            _ => Some(Effect::Nothing),
        }
    }

    // An operation that is none of those known here: so many numbers follow it.
    fn pass(&mut self, unit: &Unit<'_>, program: &mut Reader<'_>, operation: u8) -> Option<()> {
        let place = usize::from(operation).checked_sub(1)?;
        for _ in 0..*unit.lengths.get(place)? {
            program.number()?;
        }
        Some(())
    }

    // An operation below the first one that moves on by its own number.
    fn standard<'a>(
        &mut self,
        unit: &Unit<'a>,
        program: &mut Reader<'a>,
        operation: u8,
    ) -> Option<Effect<'a>> {
        match operation {
            0 => return self.extended(program),
            DW_LNS_COPY => return Some(Effect::Given),
            DW_LNS_ADVANCE_PC => self.go(unit, program.number()?),
            DW_LNS_ADVANCE_LINE => self.line = self.line.wrapping_add(program.signed()?),
            DW_LNS_SET_FILE => self.file = program.number()?,
            DW_LNS_CONST_ADD_PC => {
                self.special(unit, 255)?;
            }
            DW_LNS_FIXED_ADVANCE_PC => self.at = self.at.wrapping_add(u32::from(program.half()?)),
            _ => self.pass(unit, program, operation)?,
        }
        Some(Effect::Nothing)
    }

    /// The next operation of a unit's program. None behind the last one, or where it can't be read.
    pub fn advance<'a>(&mut self, unit: &Unit<'a>, program: &mut Reader<'a>) -> Option<Effect<'a>> {
        let operation = program.byte()?;
        if operation < unit.first_special {
            return self.standard(unit, program, operation);
        }
        let lines = self.special(unit, operation)?;
        self.line = self.line.wrapping_add(unit.line_base).wrapping_add(lines);
        Some(Effect::Given)
    }
}
