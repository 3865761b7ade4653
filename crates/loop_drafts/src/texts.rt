//! The pieces of a drafted loop file.

ghost use Rattle.std.specs.Prelude.{◌≡◌, ◌++◌, IfOk, OnOk, string_bytes};
ghost use Rattle.loop_drafts.specs.Trusting.{trusted_stores};
ghost use Rattle.loop_drafts.specs.Pieces.{HasFirstLines, first_lines, inputs_line, printed, printed_piece, returns_line, trusted_line};

use crate::draft::{Counter, Draft, Known, Place, Way};
use crate::drafted::Piece;
use crate::found::{AsidePart, FoundLoop, FoundLoops};
use crate::remarks::Remarks;
use crate::trusted::Trusted;
use code_names::{Names, PlaceWords};
use scale_base::{NoMemory, Range};
use scale_report::Address;
use std::alloc::{AllocError, Global};
use std::fmt::Write;

/// So many parts that are no loops are told, and so many of the places at which one is entered.
const MOST_TOLD: usize = 64;

/// What the user does where no bound is known.
const HOW_TO_FINISH: &str =
    "# where no bound is known, count the back edges that one entry takes at most, and write them there as bound = N\n";

// Adds an address as the loop file has it: by a symbol where that gives it, else as a number. The symbol is that of an instruction so many bytes before.
fn push_address(
    text: &mut String,
    names: &Names<'_>,
    at: u32,
    behind: u32,
) -> Result<(), AllocError> {
    let address = Address(at.saturating_add(behind));
    match names.place(at) {
        Some(place) if place.is_first => {
            let words = PlaceWords {
                name: place.name,
                offset: place.offset.saturating_add(behind),
            };
            write!(text, "\"{words}\"")
        }
        _ => write!(text, "{address}"),
    }
}

fn push_range(text: &mut String, names: &Names<'_>, range: &Range) -> Result<(), AllocError> {
    text.push_str("[")?;
    push_address(text, names, range.from, 0)?;
    text.push_str(", ")?;
    push_address(text, names, range.to.saturating_sub(4), 4)?;
    text.push_str("]")
}

fn push_ranges(text: &mut String, names: &Names<'_>, ranges: &[Range]) -> Result<(), AllocError> {
    text.push_str("ranges = [")?;
    for (k, range) in ranges.iter().enumerate() {
        if k > 0 {
            text.push_str(", ")?;
        }
        push_range(text, names, range)?;
    }
    text.push_str("]\n")
}

// The number of the loop with a header, from 1 on.
fn number_of(loops: &[FoundLoop], header: u32) -> Option<usize> {
    let place = loops.iter().position(|found| found.header == header)?;
    Some(place.saturating_add(1))
}

// The number of a loop, and that of the loop round it.
#[derive(Clone, Copy)]
struct LoopNumbers {
    number: usize,
    outer: Option<usize>,
}

// Adds the line over a loop: its number, its header, the loop round it and its depth.
fn push_head(
    text: &mut String,
    remarks: &Remarks<'_>,
    found: &FoundLoop,
    numbers: LoopNumbers,
) -> Result<(), AllocError> {
    let number = numbers.number;
    write!(text, "\n# loop {number}: ")?;
    remarks.push_place(text, found.header)?;
    if let Some(outer) = numbers.outer {
        write!(text, ", within loop {outer}")?;
    }
    let depth = found.depth;
    write!(text, ", depth {depth}\n")
}

// Adds what each turn does to what is counted in, and what that is at the header.
fn push_way(text: &mut String, counter: Counter) -> Result<(), AllocError> {
    let Counter { step, width, .. } = counter;
    let bits = counter.bits();
    match counter.way {
        Way::Up => write!(
            text,
            " goes up by {step} or more each turn, and its values at the header span {width}"
        ),
        Way::Down => write!(
            text,
            " goes down by {step} or more each turn, and its values at the header span {width}"
        ),
        Way::Shorter => write!(
            text,
            " loses {step} or more bits each turn, and has at most {bits} at the header"
        ),
        Way::Along => write!(
            text,
            " goes {step} or more bytes along memory each turn, in an area of at most {width} bytes"
        ),
        Way::ToZero => write!(
            text,
            " goes {step} or more bytes along memory each turn, up to a 0 at most {width} bytes on"
        ),
    }
}

// Adds how much each turn reads, and how many bytes an input has.
fn push_read(text: &mut String, counter: Counter) -> Result<(), AllocError> {
    let Counter { step, width, .. } = counter;
    write!(
        text,
        "# each turn reads {step} bytes or more, and an input has at most {width}"
    )
}

// Adds what a loop counts in, as a disassembly shows it, and what each turn does to it. A frame pointer has what x2 had when the function began.
fn push_counted(text: &mut String, counter: Counter) -> Result<(), AllocError> {
    match counter.place {
        Place::Register(register) => write!(text, "# x{register}")?,
        Place::Difference(one, other) => write!(text, "# x{one} - x{other}")?,
        Place::Sum(one, other) => write!(text, "# x{one} + x{other}")?,
        Place::StackWord(below) => write!(
            text,
            "# the stack word {below} bytes below the caller's sp (-{below}(s0) with a frame pointer)"
        )?,
        Place::Input => return push_read(text, counter),
    }
    push_way(text, counter)
}

// Adds the bound of a counter, and why it is one.
fn push_bound(text: &mut String, counter: Counter) -> Result<(), AllocError> {
    let bound = counter.bound();
    if bound == 0 {
        return text.push_str("# no entry takes a back edge\nbound = 0\n");
    }
    push_counted(text, counter)?;
    write!(text, "\nbound = {bound}\n")
}

// Adds that a loop is to be counted, where it is.
fn push_flag(text: &mut String, counted: bool) -> Result<(), AllocError> {
    if counted {
        text.push_str("counted = true\n")?;
    }
    Ok(())
}

// Adds how often a loop turns at least, where that is known.
fn push_least(text: &mut String, at_least: u32) -> Result<(), AllocError> {
    if at_least > 0 {
        write!(text, "at_least = {at_least}\n")?;
    }
    Ok(())
}

// Adds what is known of the turns of a loop, and whether they are to be counted. The line of a bound that is missing may follow.
fn push_known(text: &mut String, known: Known) -> Result<(), AllocError> {
    match known.draft {
        Draft::Bounded(counter) => {
            push_bound(text, counter)?;
            push_flag(text, known.counted)?;
            push_least(text, known.at_least)
        }
        Draft::Open(reason) => {
            push_flag(text, known.counted)?;
            write!(text, "# no bound: {reason}\n")
        }
    }
}

// The piece of a loop.
fn loop_piece(
    alloc: Global,
    remarks: &Remarks<'_>,
    found: &FoundLoop,
    numbers: LoopNumbers,
    known: Known,
) -> Result<Piece, NoMemory> {
    let names = remarks.names;
    let mut text = String::new(alloc);
    push_head(&mut text, remarks, found, numbers)?;
    remarks.push_turns(&mut text, numbers.number.saturating_sub(1))?;
    text.push_str("[[loop]]\nheader = ")?;
    push_address(&mut text, names, found.header, 0)?;
    text.push_str("\n")?;
    push_ranges(&mut text, names, &found.ranges)?;
    push_known(&mut text, known)?;
    Ok(Piece {
        text,
        is_open: known.draft.is_open(),
    })
}

// Adds the line of a part that is no loop.
fn push_aside(
    text: &mut String,
    remarks: &Remarks<'_>,
    part: &AsidePart,
) -> Result<(), AllocError> {
    text.push_str("# irreducible, no loop: entered at ")?;
    for (k, entry) in part.entries.iter().take(MOST_TOLD).enumerate() {
        if k > 0 {
            text.push_str(" and ")?;
        }
        remarks.push_place(text, *entry)?;
    }
    if part.entries.len() > MOST_TOLD {
        text.push_str(" and more")?;
    }
    text.push_str("\n")
}

// The line that tells whether returns are proved to go back.
fn returns_line(returns: bool) -> &'static str
    ensures { result.now ≡ returns_line returns }
{
    if returns {
        "# returns: proved\n"
    } else {
        "# returns: open\n"
    }
}

/// What the first lines tell: whether returns are proved to go back, how many bytes an input has at most, where that is told, and what is trusted.
#[derive(Clone, Copy)]
pub struct FirstLines<'a> {
    pub returns: bool,
    pub most: Option<u32>,
    pub trusted: Trusted<'a>,
}

// Adds the line that tells how many bytes an input has at most, where that is told.
fn push_most(text: &mut String, most: Option<u32>) -> Result<(), AllocError>
    ensures { OnOk result (string_bytes text.new ≡ string_bytes text.old ++ inputs_line most) }
{
    match most {
        Some(most) => write!(text, "# inputs: at most {most} bytes\n"),
        None => Ok(()),
    }
}

// Adds the line that tells how many stores are trusted, where some are.
fn push_trusted(text: &mut String, trusted: usize) -> Result<(), AllocError>
    ensures { OnOk result (string_bytes text.new ≡ string_bytes text.old ++ trusted_line trusted) }
{
    if trusted == 0 {
        return Ok(());
    }
    write!(text, "# trusted stores: {trusted}\n")
}

// The piece that begins the file.
fn first_piece(alloc: Global, first: FirstLines<'_>) -> Result<Piece, NoMemory>
    ensures { IfOk result (λ piece. printed_piece piece ≡ first_lines first.entry.most first.entry.returns (trusted_stores first.entry.trusted.trust.now)) }
{
    let mut text = String::from_str(alloc, returns_line(first.returns))?;
    push_most(&mut text, first.most)?;
    push_trusted(&mut text, first.trusted.trust.count())?;
    Ok(Piece {
        text,
        is_open: false,
    })
}

// The piece over the loops.
fn head_piece(
    alloc: Global,
    remarks: &Remarks<'_>,
    found: &FoundLoops,
    known: &[Known],
    trusted: Trusted<'_>,
) -> Result<Piece, NoMemory> {
    let mut text = String::new(alloc);
    let loops = found.loops.len();
    let unbounded = known.iter().filter(|one| one.draft.is_open()).count();
    write!(
        &mut text,
        "# draft of loops: {loops} loops, {unbounded} without a bound\n"
    )?;
    if unbounded > 0 {
        text.push_str(HOW_TO_FINISH)?;
    }
    for part in found.aside.iter().take(MOST_TOLD) {
        push_aside(&mut text, remarks, part)?;
    }
    if found.aside.len() > MOST_TOLD {
        text.push_str("# irreducible, no loop: more parts\n")?;
    }
    trusted.push(&mut text, remarks)?;
    remarks.push_endings(&mut text)?;
    text.push_str("version = 2\n")?;
    Ok(Piece {
        text,
        is_open: false,
    })
}

// The pieces of the loops that are found, with what is known of each, and the one over them.
fn loop_pieces(
    alloc: Global,
    remarks: &Remarks<'_>,
    found: &FoundLoops,
    known: &[Known],
    trusted: Trusted<'_>,
) -> Result<Vec<Piece>, NoMemory> {
    let mut pieces = Vec::new(alloc);
    pieces.push(head_piece(alloc, remarks, found, known, trusted)?)?;
    for (k, (looped, one)) in found.loops.iter().zip(known).enumerate() {
        let outer = match looped.parent {
            Some(header) => number_of(&found.loops, header),
            None => None,
        };
        let numbers = LoopNumbers {
            number: k.saturating_add(1),
            outer,
        };
        pieces.push(loop_piece(alloc, remarks, looped, numbers, *one)?)?;
    }
    Ok(pieces)
}

/// The pieces of the loops that are found, with what is known of each and what the first lines tell.
pub fn pieces_of(
    alloc: Global,
    remarks: &Remarks<'_>,
    found: &FoundLoops,
    known: &[Known],
    first: FirstLines<'_>,
) -> Result<Vec<Piece>, NoMemory>
    ensures { IfOk result (λ pieces. HasFirstLines first.entry.most first.entry.returns (trusted_stores first.entry.trusted.trust.now) (printed pieces.items)) }
{
    let begins = first_piece(alloc, first)?;
    let mut pieces = loop_pieces(alloc, remarks, found, known, first.trusted)?;
    pieces.insert(0, begins)?;
    Ok(pieces)
}
