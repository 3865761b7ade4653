//! How a place beside a symbol is printed.

ghost use Rattle.std.specs.Prelude.{◌≡◌, IfOk, string_bytes};
ghost use Rattle.code_names.specs.Places.{place_words};

use crate::names::NamedPlace;
use scale_base::NoMemory;
use std::alloc::Global;
use std::fmt;
use std::fmt::Write;

/// A symbol, and an offset in bytes where there is one, as `objdump` writes them: `smooth+0x1c`, and `smooth` at offset 0.
#[derive(Clone, Copy)]
pub struct PlaceWords<'a> {
    pub name: &'a str,
    pub offset: u32,
}

impl fmt::Display for PlaceWords<'_> {
    ghost use Rattle.std.specs.Prelude.{Some};
    ghost use Rattle.code_names.specs.Places.{place_words};

    ghost output = { λ words. Some (place_words words.name.now words.offset) };

    fn fmt<W: fmt::Write>(&self, f: &mut fmt::Formatter<W>) -> fmt::Result {
        let name = self.name;
        let offset = self.offset;
        if offset == 0 {
            return write!(f, "{name}");
        }
        write!(f, "{name}+0x{offset:x}")
    }
}

/// The text of a place.
pub fn place_text(alloc: Global, place: &NamedPlace<'_>) -> Result<String, NoMemory>
    ensures { IfOk result (λ text. string_bytes text ≡ place_words place.now.name.now place.now.offset) }
{
    let mut text = String::new(alloc);
    let words = PlaceWords {
        name: place.name,
        offset: place.offset,
    };
    write!(text, "{words}")?;
    Ok(text)
}
