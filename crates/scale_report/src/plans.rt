//! How the plan of a rewriting is printed.

ghost use Rattle.std.specs.Prelude.{◌≡◌, ◌++◌, All, IfOk, OnOk, string_bytes};
ghost use Rattle.scale_report.specs.Texts.{HasSiteLine, kind_name, plan_text, site_line};

use crate::summary_text;
use crate::words::{Address, SpacedWords, WordDigits};
use scale_base::{EdgeKind, Fragment, NoMemory, ScalePlan, SiteLine};
use std::alloc::{AllocError, Global};
use std::fmt;
use std::fmt::Write;

// A fragment, with the number of its loop.
#[derive(Clone, Copy)]
struct FragmentWords<'a>(u32, &'a Fragment);

impl fmt::Display for FragmentWords<'_> {
    ghost use Rattle.std.specs.Prelude.{Some};
    ghost use Rattle.scale_report.specs.Texts.{fragment_words};

    ghost output = { λ words. Some (fragment_words words.0 words.1.now) };

    fn fmt<W: fmt::Write>(&self, f: &mut fmt::Formatter<W>) -> fmt::Result {
        let no = self.0;
        match self.1 {
            Fragment::Switch { word } => write!(f, "switch {}", WordDigits(*word)),
            Fragment::Exit { shift, rows, .. } => {
                write!(f, "exit {no} {shift}{}", SpacedWords(rows))
            }
            Fragment::Reset { .. } => write!(f, "reset {no}"),
            Fragment::Count { .. } => write!(f, "count {no}"),
            Fragment::Lowest { down } => {
                let off = if *down { "" } else { " off" };
                write!(f, "lowest{off}")
            }
            Fragment::Tally { shift, from, .. } => write!(f, "tally {no} {shift} {from}"),
        }
    }
}

/// The name of the kind of an edge that may have fragments, and no letter for any other.
pub fn kind_name(kind: EdgeKind) -> &'static str
    ensures { result.now ≡ kind_name kind }
{
    match kind {
        EdgeKind::Taken => "taken",
        EdgeKind::Untaken => "untaken",
        EdgeKind::Jump => "jump",
        EdgeKind::Next | EdgeKind::CallNext | EdgeKind::End => "",
    }
}

// Adds the line of a fragment.
#[tactic(auto, unfolding(crate::specs::Texts::site_line))]
fn push_site(text: &mut String, line: &SiteLine) -> Result<(), AllocError>
    requires { HasSiteLine line.now.edge.kind }
    ensures { OnOk result (string_bytes text.new ≡ string_bytes text.old ++ site_line line.now) }
{
    let at = Address(line.edge.at);
    let kind = kind_name(line.edge.kind);
    let words = FragmentWords(line.loop_no, &line.fragment);
    write!(text, "site {at} {kind} {words}\n")
}

/// The plan of a rewriting: its summary, and a line for each fragment.
pub fn plan_text(alloc: Global, plan: &ScalePlan) -> Result<String, NoMemory>
    requires { All (λ line. HasSiteLine line.edge.kind) plan.now.lines.items }
    ensures { IfOk result (λ text. string_bytes text ≡ plan_text plan.now) }
{
    let mut text = summary_text(alloc, &plan.summary)?;
    for line in &plan.lines {
        push_site(&mut text, line)?;
    }
    Ok(text)
}
