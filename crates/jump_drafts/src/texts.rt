//! The text of a drafted jump file, and what is told of it.

ghost use Rattle.std.specs.Prelude.{◌≡◌, ◌+◌, ◌++◌, count_by, length, IfOk, OnOk, string_bytes};
ghost use Rattle.scale_report.specs.Texts.{number_line};
ghost use Rattle.jump_search.specs.Reasons.{is_open};
ghost use Rattle.jump_drafts.specs.Texts.{jumps_text};

use crate::draft::JumpDraft;
use code_names::{Names, PlaceWords};
use fixed_tables::Table;
use jump_proofs::JumpProof;
use jump_search::{FoundJump, FoundJumps, OpenJump, push_jump};
use scale_base::NoMemory;
use scale_report::Address;
use std::alloc::{AllocError, Global};
use std::fmt::Write;

/// So many open jumps are told.
const MOST_TOLD: usize = 256;

/// What a draft says of the jumps that are proved.
const PROVED: &str =
    "# proved: that no run leaves such a jump by another way, as long as it goes back from calls\n";

/// What a draft doesn't say of the others.
const PREMISE: &str =
    "# recognised in the code, not proved: that no run leaves a listed jump by another way\n";

// Adds the address of an instruction: by a symbol, where there is one.
fn push_place(text: &mut String, names: &Names<'_>, at: u32) -> Result<(), AllocError> {
    let address = Address(at);
    match names.place(at) {
        Some(place) => {
            let words = PlaceWords {
                name: place.name,
                offset: place.offset,
            };
            write!(text, "{words} ({address})")
        }
        None => write!(text, "{address}"),
    }
}

// Adds where the targets of a jump are read from.
fn push_table(text: &mut String, table: Table) -> Result<(), AllocError> {
    let at = Address(table.at);
    let count = table.count;
    write!(text, "a table of {count} words at {at}")?;
    if table.step != 4 {
        let step = table.step;
        write!(text, ", each {step} bytes behind the one before")?;
    }
    if table.base != 0 {
        let base = Address(table.base);
        write!(text, ", to which {base} is added")?;
    }
    Ok(())
}

// Adds a jump with the comment over it.
fn push_told(
    text: &mut String,
    names: &Names<'_>,
    jump: &FoundJump,
    is_proved: bool,
) -> Result<(), AllocError> {
    let word = if is_proved { "proved" } else { "recognised" };
    write!(text, "\n# {word}: ")?;
    push_place(text, names, jump.at)?;
    text.push_str(" reads ")?;
    push_table(text, jump.table)?;
    text.push_str("\n")?;
    push_jump(text, jump)
}

// Adds the line of a jump that isn't listed.
fn push_other(text: &mut String, names: &Names<'_>, other: OpenJump) -> Result<(), AllocError> {
    let reason = other.reason;
    text.push_str("# open: ")?;
    push_place(text, names, other.at)?;
    write!(text, ": {reason}\n")
}

// Adds the lines of the jumps that are open.
fn push_others(
    text: &mut String,
    names: &Names<'_>,
    others: &[OpenJump],
) -> Result<(), AllocError> {
    let mut told = 0usize;
    for other in others {
        if other.reason.is_open() {
            if told < MOST_TOLD {
                push_other(text, names, *other)?;
            }
            told = told.saturating_add(1);
        }
    }
    if told > MOST_TOLD {
        text.push_str("# open: and more\n")?;
    }
    Ok(())
}

// Adds the lines on top.
fn push_top(text: &mut String, found: &FoundJumps, proof: &JumpProof) -> Result<(), AllocError> {
    let listed = found.jumps.len();
    let open = count_open(&found.others);
    let proved = proof.count();
    if listed > 0 {
        let returns = if proof.returns { "proved" } else { "open" };
        write!(text, "# returns: {returns}\n")?;
    }
    write!(
        text,
        "# draft of jumps through registers: {listed} listed, {open} open\n"
    )?;
    if proved > 0 {
        text.push_str(PROVED)?;
    }
    if proved < listed || listed == 0 {
        text.push_str(PREMISE)?;
    }
    Ok(())
}

/// The file, with a comment for each jump that is listed or open.
pub fn told_text(
    alloc: Global,
    names: &Names<'_>,
    found: &FoundJumps,
    proof: &JumpProof,
) -> Result<String, NoMemory> {
    let mut text = String::new(alloc);
    push_top(&mut text, found, proof)?;
    push_others(&mut text, names, &found.others)?;
    text.push_str("version = 1\n")?;
    for (k, jump) in found.jumps.iter().enumerate() {
        push_told(&mut text, names, jump, proof.has(k))?;
    }
    Ok(text)
}

/// How many jumps are open.
pub fn count_open(others: &[OpenJump]) -> usize
    ensures { result ≡ count_by (λ other. is_open other.reason) others.now }
{
    others.iter().filter(|other| other.reason.is_open()).count()
}

/// The file that is stored.
pub fn printed_jumps(alloc: Global, draft: &JumpDraft) -> Result<String, NoMemory>
    ensures { IfOk result (λ text. string_bytes text ≡ string_bytes draft.now.file) }
{
    Ok(String::from_str(alloc, draft.file.as_str())?)
}

// Adds a line of some words and a number.
#[tactic(auto, unfolding(scale_report::specs::Texts::number_line))]
fn push_number(text: &mut String, words: &str, number: usize) -> Result<(), AllocError>
    ensures { OnOk result (string_bytes text.new ≡ string_bytes text.old ++ number_line words.now number) }
{
    write!(text, "{words}{number}\n")
}

/// What is told of a draft: how many jumps through registers, of those that the code leads to, are listed or open, how many are listed, how many
/// of these are proved, and how many are open.
pub fn jumps_text(alloc: Global, draft: &JumpDraft) -> Result<String, NoMemory>
    ensures { IfOk result (λ text. string_bytes text ≡ jumps_text draft.now) }
{
    let listed = draft.notes.count();
    let open = count_open(&draft.others);
    let mut text = String::new(alloc);
    push_number(&mut text, "jumps ", listed + open)?;
    push_number(&mut text, "listed ", listed)?;
    push_number(&mut text, "proved ", draft.proof.count())?;
    push_number(&mut text, "open ", open)?;
    Ok(text)
}
