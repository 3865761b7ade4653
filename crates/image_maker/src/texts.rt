//! The files that go with a made program.

ghost use Rattle.std.specs.Prelude.{◌≡◌, ◌≤◌, ◌<◌, ◌+◌, ◌^◌, ◌++◌, length, OnOk, IfOk, All, string_bytes};
ghost use Rattle.image_maker.specs.Drawing as drawing;
ghost use Rattle.image_maker.specs.MadeTexts as texts;

use crate::draws::Draws;
use scale_base::NoMemory;
use std::alloc::{AllocError, Global};
use std::fmt::Write;

const MACHINE_REST: &str =
    "steps = 10000000\nmin_gain = 20\nswitch_time = 10\nswitch_energy = 20\n\n[cost]\nalu = 1\nload = 2\nstore = 1\ntaken = 2\nuntaken = 1\njump = 2\nmul = 3\ndiv = 10\necall = 5\nfence = 1\n\n[[level]]\nperiod = 4\nenergy = 1\n[[level]]\nperiod = 2\nenergy = 3\n[[level]]\nperiod = 1\nenergy = 8\n";

/// The first loops are counted, up to this number.
const COUNTED: usize = 509;

/// The machine file for so many blocks.
pub fn machine_text(alloc: Global, size: u32) -> Result<String, NoMemory>
    requires { size ≤ 2000 }
    ensures { IfOk result (λ text. string_bytes text ≡ texts.machine_text size) }
{
    let deadline = 500 * size + 200;
    Ok(format!(in alloc; "version = 1\ndeadline = {deadline}\n{MACHINE_REST}")?)
}

// Adds the line of a header.
#[tactic(auto, unfolding(crate::specs::MadeTexts::header_line))]
fn push_header(text: &mut String, header: u32) -> Result<(), AllocError>
    ensures { OnOk result (string_bytes text.new ≡ string_bytes text.old ++ texts.header_line header) }
{
    write!(text, "header = {header}\n")
}

// Adds the line of the addresses of a loop.
#[tactic(auto, unfolding(crate::specs::MadeTexts::ranges_line))]
fn push_ranges(text: &mut String, header: u32) -> Result<(), AllocError>
    requires { header + 12 < 2 ^ 32 }
    ensures { OnOk result (string_bytes text.new ≡ string_bytes text.old ++ texts.ranges_line header) }
{
    let end = header + 12;
    write!(text, "ranges = [[{header}, {end}]]\n")
}

// Adds the line that says whether loop `c` is counted.
#[tactic(auto, unfolding(crate::specs::MadeTexts::counted_line))]
fn push_counted(text: &mut String, c: usize) -> Result<(), AllocError>
    ensures { OnOk result (string_bytes text.new ≡ string_bytes text.old ++ texts.counted_line c) }
{
    let counted = c < COUNTED;
    write!(text, "counted = {counted}\n")
}

// Adds the table of loop `c`.
fn push_loop_table(text: &mut String, c: usize, header: u32) -> Result<(), AllocError>
    requires { header + 12 < 2 ^ 32 }
    ensures { OnOk result (string_bytes text.new ≡ string_bytes text.old ++ texts.loop_table c header) }
{
    text.push_str("[[loop]]\n")?;
    push_header(text, header)?;
    push_ranges(text, header)?;
    text.push_str("bound = 14\n")?;
    push_counted(text, c)
}

/// The loop file for loops with these headers.
pub fn loops_text(alloc: Global, headers: &[u32]) -> Result<String, NoMemory>
    requires { All (λ header. header + 12 < 2 ^ 32) headers.now }
    ensures { IfOk result (λ text. string_bytes text ≡ texts.loops_text headers.now) }
{
    let mut text = String::from_str(alloc, "version = 1\n")?;
    for c in 0..headers.len() {
        push_loop_table(&mut text, c, headers[c])?;
    }
    Ok(text)
}

/// The bytes of so many draws.
#[tactic(auto, unfolding(crate::specs::MadeTexts::drawn_bytes))]
pub fn drawn_bytes(alloc: Global, draws: &mut Draws, count: u32) -> Result<Vec<u8>, NoMemory>
    ensures { IfOk result (λ bytes. bytes.items ≡ texts.drawn_bytes draws.old.state count) }
{
    let mut bytes = Vec::new(alloc);
    for _ in 0..count {
        bytes.push((draws.draw() % 256) as u8)?;
    }
    Ok(bytes)
}
