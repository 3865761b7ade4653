//! How addresses, cycles and field names are printed.

use scale_base::{Cycle, Field, Rows};
use std::fmt;

/// An address: `0x` and eight lower-case hexadecimal digits.
#[derive(Clone, Copy)]
pub struct Address(pub u32);

impl fmt::Display for Address {
    ghost use Rattle.std.specs.Prelude.{Some};
    ghost use Rattle.scale_report.specs.Texts.{address};

    ghost output = { λ a. Some (address a.0) };

    #[tactic(auto, unfolding(crate::specs::Texts::address), using(crate::proofs::Hex::shown_address))]
    fn fmt<W: fmt::Write>(&self, f: &mut fmt::Formatter<W>) -> fmt::Result {
        let at = self.0;
        write!(f, "0x{at:08x}")
    }
}

/// Where an edge starts and leads to.
#[derive(Clone, Copy)]
pub struct FromTo(pub u32, pub u32);

impl fmt::Display for FromTo {
    ghost use Rattle.std.specs.Prelude.{Some};
    ghost use Rattle.scale_report.specs.Texts.{from_to};

    ghost output = { λ pair. Some (from_to pair.0 pair.1) };

    #[tactic(auto, unfolding(crate::specs::Texts::from_to))]
    fn fmt<W: fmt::Write>(&self, f: &mut fmt::Formatter<W>) -> fmt::Result {
        let from = Address(self.0);
        let to = Address(self.1);
        write!(f, "{from} to {to}")
    }
}

/// A side entry: the loop, and the ends of the edge.
#[derive(Clone, Copy)]
pub struct SideEntry(pub u32, pub u32, pub u32);

impl fmt::Display for SideEntry {
    ghost use Rattle.std.specs.Prelude.{Some};
    ghost use Rattle.scale_report.specs.Texts.{side_entry};

    ghost output = { λ e. Some (side_entry e.0 e.1 e.2) };

    #[tactic(auto, unfolding(crate::specs::Texts::side_entry))]
    fn fmt<W: fmt::Write>(&self, f: &mut fmt::Formatter<W>) -> fmt::Result {
        let loop_no = self.0;
        let pair = FromTo(self.1, self.2);
        write!(f, "33 loop {loop_no} side entry {pair}")
    }
}

/// The name of a field of an ELF header.
#[derive(Clone, Copy)]
pub struct FieldName(pub Field);

impl fmt::Display for FieldName {
    ghost use Rattle.std.specs.Prelude.{Some};
    ghost use Rattle.scale_report.specs.Texts.{field_name};

    ghost output = { λ name. Some (field_name name.0) };

    fn fmt<W: fmt::Write>(&self, f: &mut fmt::Formatter<W>) -> fmt::Result {
        match self.0 {
            Field::Class => write!(f, "class"),
            Field::Encoding => write!(f, "data"),
            Field::Version => write!(f, "version"),
            Field::Kind => write!(f, "type"),
            Field::Machine => write!(f, "machine"),
            Field::Flags => write!(f, "flags"),
            Field::PhEntSize => write!(f, "phentsize"),
            Field::PhNum => write!(f, "phnum"),
            Field::ShEntSize => write!(f, "shentsize"),
        }
    }
}

/// The addresses of a cycle, with a space before each.
#[derive(Clone, Copy)]
pub struct Spaced<'a>(pub &'a Cycle);

impl fmt::Display for Spaced<'_> {
    ghost use Rattle.std.specs.Prelude.{Some};
    ghost use Rattle.scale_report.specs.Texts.{spaced};

    ghost output = { λ s. Some (spaced s.0.now) };

    fn fmt<W: fmt::Write>(&self, f: &mut fmt::Formatter<W>) -> fmt::Result {
        for k in 0..self.0.count() {
            let at = Address(*self.0.get(k));
            write!(f, " {at}")?;
        }
        Ok(())
    }
}

/// A word in eight lower-case hexadecimal digits.
#[derive(Clone, Copy)]
pub struct WordDigits(pub u32);

impl fmt::Display for WordDigits {
    ghost use Rattle.std.specs.Prelude.{Some};
    ghost use Rattle.scale_report.specs.Texts.{word_digits};

    ghost output = { λ w. Some (word_digits w.0) };

    #[tactic(auto, unfolding(crate::specs::Texts::word_digits), using(crate::proofs::Hex::shown_address))]
    fn fmt<W: fmt::Write>(&self, f: &mut fmt::Formatter<W>) -> fmt::Result {
        let word = self.0;
        write!(f, "{word:08x}")
    }
}

/// The words of rows, with a space before each.
#[derive(Clone, Copy)]
pub struct SpacedWords<'a>(pub &'a Rows);

impl fmt::Display for SpacedWords<'_> {
    ghost use Rattle.std.specs.Prelude.{Some};
    ghost use Rattle.scale_report.specs.Texts.{spaced_words};

    ghost output = { λ s. Some (spaced_words s.0.now) };

    fn fmt<W: fmt::Write>(&self, f: &mut fmt::Formatter<W>) -> fmt::Result {
        for row in 0..self.0.count() {
            let word = WordDigits(self.0.get(row));
            write!(f, " {word}")?;
        }
        Ok(())
    }
}
