//! Words of a picture.

ghost use Rattle.std.specs.Prelude.{◌≡◌, ◌++◌, OnOk, string_bytes};
ghost use Rattle.std.specs.List.{list_all};
ghost use Rattle.plan_texts.specs.Words.{is_plain_byte, name_line, line_style, arrow_head, line_width, line_color, mark_name, end_line};

use code_names::PlaceWords;
use plan_graphs::{Leads, PlaceName};
use scale_base::{EdgeKind, Mark};
use std::alloc::AllocError;
use std::fmt::Write;

fn is_plain_byte(byte: u8) -> bool
    ensures { result ≡ is_plain_byte byte }
{
    (97 <= byte && byte <= 122)
        || ((65 <= byte && byte <= 90)
            || ((48 <= byte && byte <= 57) || (byte == 95 || (byte == 46 || byte == 36))))
}

/// Whether all bytes of a symbol may stand in a string of a picture.
fn are_plain(bytes: &[u8]) -> bool
    ensures { result ≡ list_all is_plain_byte bytes.now }
{
    let Some((first, rest)) = bytes.split_first() else {
        return true;
    };
    is_plain_byte(*first) && are_plain(rest)
}

/// Adds the line of a place.
fn push_place(text: &mut String, place: &PlaceName) -> Result<(), AllocError>
    ensures { OnOk result (string_bytes text.new ≡ string_bytes text.old ++ name_line (Some place.now)) }
{
    let symbol = place.symbol.as_str();
    if !are_plain(symbol.as_bytes()) {
        return Ok(());
    }
    let words = PlaceWords {
        name: symbol,
        offset: place.offset,
    };
    write!(text, "{words}\\l")
}

/// Adds the line of a name, if there is one.
pub fn push_name(text: &mut String, name: &Option<PlaceName>) -> Result<(), AllocError>
    ensures { OnOk result (string_bytes text.new ≡ string_bytes text.old ++ name_line name.now) }
{
    match name {
        None => Ok(()),
        Some(place) => push_place(text, place),
    }
}

/// How the edges of a kind are drawn.
pub fn line_style(kind: EdgeKind) -> &'static str
    ensures { result.now ≡ line_style kind }
{
    match kind {
        EdgeKind::Taken | EdgeKind::Jump | EdgeKind::Next | EdgeKind::End => "solid",
        EdgeKind::Untaken => "dashed",
        EdgeKind::CallNext => "dotted",
    }
}

/// The arrow of the edges of a kind.
pub fn arrow_head(kind: EdgeKind) -> &'static str
    ensures { result.now ≡ arrow_head kind }
{
    match kind {
        EdgeKind::Taken | EdgeKind::Untaken | EdgeKind::End => "normal",
        EdgeKind::Jump => "vee",
        EdgeKind::Next | EdgeKind::CallNext => "empty",
    }
}

/// How thick an edge is.
pub fn line_width(taken: bool) -> &'static str
    ensures { result.now ≡ line_width taken }
{
    if taken { "2.4" } else { "1.0" }
}

/// The colour of an edge.
pub fn line_color(marked: bool, taken: bool) -> &'static str
    ensures { result.now ≡ line_color marked taken }
{
    if marked {
        return "#bc4c00";
    }
    if taken { "#0550ae" } else { "#57606a" }
}

/// The name of a mark.
pub fn mark_name(mark: Mark) -> &'static str
    ensures { result.now ≡ mark_name mark }
{
    match mark {
        Mark::Switch => "switch",
        Mark::Exit(_) => "exit",
        Mark::Reset(_) => "reset",
        Mark::Count(_) => "count",
        Mark::Lowest => "lowest",
        Mark::Tally(_) => "tally",
    }
}

/// Where a run leaves its function at a block's end.
pub fn end_line(leads: Leads) -> &'static str
    ensures { result.now ≡ end_line leads }
{
    match leads {
        Leads::Block(_) => "",
        Leads::Return => "returns\\l",
        Leads::Exit => "exits\\l",
        Leads::Nowhere => "",
    }
}
