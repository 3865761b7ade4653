//! The texts that the program prints.

ghost use Rattle.std.specs.Prelude.{◌≡◌, ◌+◌, ◌++◌, ◌≤◌, length, IfOk, OnOk, Some, string_bytes};
ghost use Rattle.scale_report.specs.Texts.{number_line, numbered_lines};
ghost use Rattle.pace_tool.specs.Texts.{drafted_text, fitted_text, form_name, left_line, left_line_if, proposal_lines, returns_line, rewrite_line, switch_line, switch_lines, switches_text, trusted_line, tally_line, tally_lines, guard_words, limit_line, split_text, version_text};

use loop_drafts::LoopDraft;
use pace_fit::{Ending, Fitted, is_counted};
use paced_images::{Proposal, SwitchSite};
use scale_base::{End, NoMemory};
use scale_report::{Address, EndWords, KeptWords, kind_name, summary_text};
use split_images::SplitImage;
use std::alloc::{AllocError, Global};
use std::fmt;
use std::fmt::Write;
use version_fits::ChosenVersion;
use versioned_images::Version;

/// Why an input doesn't count: how its run ended, where that didn't exit, or what it broke.
#[derive(Clone, Copy)]
struct LeftWords(Ending);

impl fmt::Display for LeftWords {
    ghost use Rattle.std.specs.Prelude.{Some};
    ghost use Rattle.pace_tool.specs.Texts.{left_words};

    ghost output = { λ words. Some (left_words words.0.end words.0.kept) };

    fn fmt<W: fmt::Write>(&self, f: &mut fmt::Formatter<W>) -> fmt::Result {
        match self.0.end {
            End::Exited(_) => write!(f, "kept {}", KeptWords(self.0.kept)),
            End::Trapped(trap) => write!(f, "{}", EndWords(End::Trapped(trap))),
            End::OutOfSteps => write!(f, "out of steps"),
        }
    }
}

// Adds the line of an input that doesn't count.
#[tactic(auto, unfolding(crate::specs::Texts::left_line))]
fn push_left(text: &mut String, number: u32, ending: Ending) -> Result<(), AllocError>
    ensures { OnOk result (string_bytes text.new ≡ string_bytes text.old ++ left_line number ending) }
{
    let words = LeftWords(ending);
    write!(text, "input {number} {words}\n")
}

// Adds that line, unless the input counts.
fn push_left_if(text: &mut String, number: u32, ending: &Ending) -> Result<(), AllocError>
    ensures { OnOk result (string_bytes text.new ≡ string_bytes text.old ++ left_line_if number ending.now) }
{
    if is_counted(ending) {
        Ok(())
    } else {
        push_left(text, number, *ending)
    }
}

// Adds those lines, of inputs that are numbered from a number on.
#[tactic(auto, using(crate::proofs::LeftLines::left_more))]
fn push_left_out(text: &mut String, number: u32, endings: &[Ending]) -> Result<(), AllocError>
    requires { number + length endings.now ≤ 1000 }
    ensures { OnOk result (string_bytes text.new ≡ string_bytes text.old ++ numbered_lines left_line_if number endings.now) }
{
    match endings.split_first() {
        Some((first, rest)) => {
            push_left_if(text, number, first)?;
            push_left_out(text, number + 1, rest)
        }
        None => Ok(()),
    }
}

// Adds a line of some words and a number.
#[tactic(auto, unfolding(scale_report::specs::Texts::number_line))]
fn push_number(text: &mut String, words: &str, number: u128) -> Result<(), AllocError>
    ensures { OnOk result (string_bytes text.new ≡ string_bytes text.old ++ number_line words.now number) }
{
    write!(text, "{words}{number}\n")
}

fn push_count(text: &mut String, words: &str, count: u32) -> Result<(), AllocError>
    ensures { OnOk result (string_bytes text.new ≡ string_bytes text.old ++ number_line words.now count) }
{
    push_number(text, words, u128::from(count))
}

fn push_size(text: &mut String, words: &str, size: usize) -> Result<(), AllocError>
    ensures { OnOk result (string_bytes text.new ≡ string_bytes text.old ++ number_line words.now size) }
{
    push_number(text, words, size as u128)
}

// Adds the line of the energy of what `rewrite` stores, if it has one.
#[tactic(auto, unfolding(crate::specs::Texts::rewrite_line))]
fn push_rewrite(text: &mut String, energy: Option<u128>) -> Result<(), AllocError>
    ensures { OnOk result (string_bytes text.new ≡ string_bytes text.old ++ rewrite_line energy) }
{
    match energy {
        Some(energy) => push_number(text, "rewrite energy ", energy),
        None => text.push_str("rewrite energy none\n"),
    }
}

// Adds where the loop of a version is, and by which registers its copy runs.
#[tactic(auto, unfolding(crate::specs::Texts::guard_words))]
fn push_guard(text: &mut String, version: &Version) -> Result<(), AllocError>
    ensures { OnOk result (string_bytes text.new ≡ string_bytes text.old ++ guard_words version.now) }
{
    let at = Address(version.header);
    let larger = version.larger;
    let smaller = version.smaller;
    write!(text, "version {at} where x{larger} - x{smaller}")
}

// Adds below which limit it runs, and how many instructions are added.
#[tactic(auto, unfolding(crate::specs::Texts::limit_line))]
fn push_limit(text: &mut String, version: &Version) -> Result<(), AllocError>
    ensures { OnOk result (string_bytes text.new ≡ string_bytes text.old ++ limit_line version.now) }
{
    let limit = version.limit;
    let words = version.words;
    write!(text, " < {limit} words {words}\n")
}

/// What is told of the version that is chosen.
pub fn version_text(alloc: Global, chosen: &ChosenVersion) -> Result<String, NoMemory>
    ensures { IfOk result (λ text. string_bytes text ≡ version_text chosen.now) }
{
    let mut text = String::new(alloc);
    push_guard(&mut text, &chosen.version)?;
    push_limit(&mut text, &chosen.version)?;
    push_number(&mut text, "plain energy ", chosen.without.energy)?;
    push_number(&mut text, "plain hold energy ", chosen.without.hold_energy)?;
    Ok(text)
}

// The form of a switch.
fn form_name(lowest: bool) -> &'static str
    ensures { result.now ≡ form_name lowest }
{
    if lowest { "lowest " } else { "switch " }
}

// Adds the line of a switch.
#[tactic(auto, unfolding(crate::specs::Texts::switch_line))]
fn push_switch(text: &mut String, site: &SwitchSite) -> Result<(), AllocError>
    ensures { OnOk result (string_bytes text.new ≡ string_bytes text.old ++ switch_line site.now) }
{
    let form = form_name(site.lowest);
    let at = Address(site.at);
    let kind = kind_name(site.kind);
    write!(text, "{form}{at} {kind}\n")
}

// Adds the line of a loop that is tallied.
#[tactic(auto, unfolding(crate::specs::Texts::tally_line))]
fn push_tally(text: &mut String, header: u32) -> Result<(), AllocError>
    ensures { OnOk result (string_bytes text.new ≡ string_bytes text.old ++ tally_line header) }
{
    let at = Address(header);
    write!(text, "tally {at}\n")
}

// Adds a line for each switch.
fn push_sites(text: &mut String, sites: &[SwitchSite]) -> Result<(), AllocError>
    ensures { OnOk result (string_bytes text.new ≡ string_bytes text.old ++ switch_lines sites.now) }
{
    for site in sites {
        push_switch(text, site)?;
    }
    Ok(())
}

// Adds a line for each loop that is tallied.
fn push_tallies(text: &mut String, headers: &[u32]) -> Result<(), AllocError>
    ensures { OnOk result (string_bytes text.new ≡ string_bytes text.old ++ tally_lines headers.now) }
{
    for header in headers {
        push_tally(text, *header)?;
    }
    Ok(())
}

// Adds the lines of a proposal.
fn push_proposal(text: &mut String, proposal: &Proposal) -> Result<(), AllocError>
    ensures { OnOk result (string_bytes text.new ≡ string_bytes text.old ++ proposal_lines (Some proposal.now)) }
{
    push_sites(text, &proposal.sites)?;
    push_tallies(text, &proposal.tallied)
}

// Adds the lines of the chosen candidate.
#[tactic(auto, unfolding(crate::specs::Texts::switches_text))]
fn push_switches(
    text: &mut String,
    proposals: &[Proposal],
    candidate: u32,
) -> Result<(), AllocError>
    ensures { OnOk result (string_bytes text.new ≡ string_bytes text.old ++ switches_text proposals.now candidate) }
{
    if candidate == 0 {
        return text.push_str("no switches: hold's image is stored\n");
    }
    match proposals.get(candidate as usize - 1) {
        Some(proposal) => push_proposal(text, proposal),
        None => Ok(()),
    }
}

/// The choice of a fitting: its summary, how many inputs count and how many don't, with a line for each of those that tells why, the energy of
/// the choice, of the image that runs at one level and of the one that `rewrite` stores, the least energy of those inputs, and a line for each
/// switch and each loop that is tallied.
pub fn fitted_text(
    alloc: Global,
    endings: &[Ending],
    proposals: &[Proposal],
    fitted: &Fitted,
) -> Result<String, NoMemory>
    requires { length endings.now ≤ 64 }
    ensures { IfOk result (λ text. string_bytes text ≡ fitted_text endings.now proposals.now fitted.now) }
{
    let mut text = summary_text(alloc, &fitted.summary)?;
    push_count(&mut text, "inputs ", fitted.inputs)?;
    push_count(&mut text, "left out ", fitted.left_out)?;
    push_left_out(&mut text, 1, endings)?;
    push_number(&mut text, "energy ", fitted.energy)?;
    push_number(&mut text, "hold energy ", fitted.hold_energy)?;
    push_rewrite(&mut text, fitted.rewrite_energy)?;
    push_number(&mut text, "least energy ", fitted.least_energy)?;
    push_switches(&mut text, proposals, fitted.candidate)?;
    Ok(text)
}

// Adds the line that tells whether returns are proved to go back.
fn push_returns(text: &mut String, returns: bool) -> Result<(), AllocError>
    ensures { OnOk result (string_bytes text.new ≡ string_bytes text.old ++ returns_line returns) }
{
    if returns {
        text.push_str("returns proved\n")
    } else {
        text.push_str("returns open\n")
    }
}

// Adds the line that tells how many stores are trusted, where some are.
fn push_trusted(text: &mut String, trusted: usize) -> Result<(), AllocError>
    ensures { OnOk result (string_bytes text.new ≡ string_bytes text.old ++ trusted_line trusted) }
{
    if trusted == 0 {
        return Ok(());
    }
    push_size(text, "trusted stores ", trusted)
}

/// What is told of a draft: how many loops it has, of how many of them the bound is proved, how many have no bound, how many parts of the code turn that are no
/// loops, whether returns are proved to go back, and how many stores are trusted, where some are.
pub fn drafted_text(alloc: Global, draft: &LoopDraft) -> Result<String, NoMemory>
    ensures { IfOk result (λ text. string_bytes text ≡ drafted_text draft.now) }
{
    let mut text = String::new(alloc);
    push_size(&mut text, "loops ", draft.loops)?;
    push_size(&mut text, "proved ", draft.proved)?;
    push_size(&mut text, "open ", draft.unbounded)?;
    push_size(&mut text, "irreducible ", draft.aside)?;
    push_returns(&mut text, draft.returns)?;
    push_trusted(&mut text, draft.trust.count())?;
    Ok(text)
}

/// What is told of a split image: how many parts of the code turned and were entered at several places, how many do in it, and how many instructions were added.
pub fn split_text(alloc: Global, split: &SplitImage) -> Result<String, NoMemory>
    ensures { IfOk result (λ text. string_bytes text ≡ split_text split.now) }
{
    let mut text = String::new(alloc);
    push_size(&mut text, "parts ", split.parts)?;
    push_size(&mut text, "left ", split.left)?;
    push_count(&mut text, "instructions ", split.instructions)?;
    Ok(text)
}
