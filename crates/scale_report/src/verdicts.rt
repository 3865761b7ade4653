//! How the verdict on an image of other make is printed.

ghost use Rattle.std.specs.Prelude.{◌≡◌, IfOk, string_bytes};
ghost use Rattle.scale_report.specs.Texts.{verdict_text};

use crate::words::Address;
use crate::{push_number, push_times};
use scale_base::{Checked, NoMemory, Verdict, Why};
use std::alloc::Global;
use std::fmt;
use std::fmt::Write;

// Why an image isn't known to be safe.
#[derive(Clone, Copy)]
struct WhyWords(Why);

impl fmt::Display for WhyWords {
    ghost use Rattle.std.specs.Prelude.{Some};
    ghost use Rattle.scale_report.specs.Texts.{why_words};

    ghost output = { λ words. Some (why_words words.0) };

    fn fmt<W: fmt::Write>(&self, f: &mut fmt::Formatter<W>) -> fmt::Result {
        match self.0 {
            Why::Image(number) => write!(f, "image {number}"),
            Why::NoKey => write!(f, "key missing"),
            Why::Layout => write!(f, "layout"),
            Why::Byte(at) => write!(f, "byte {}", Address(at)),
            Why::Patch(at) => write!(f, "patch {}", Address(at)),
            Why::Stub(at) => write!(f, "stub {}", Address(at)),
            Why::Counter(counter) => write!(f, "counter {counter}"),
            Why::TooLong => write!(f, "worst cycles"),
            Why::Start(level, levels) => write!(f, "start level {level} of {levels}"),
            Why::TooSlow(need, have) => write!(f, "deadline need {need} have {have}"),
            Why::Level(at, from) => write!(f, "level {} from {from}", Address(at)),
        }
    }
}

fn safe_text(alloc: Global, checked: &Checked) -> Result<String, NoMemory>
    ensures { IfOk result (λ text. string_bytes text ≡ verdict_text (Verdict.Yes checked.now)) }
{
    let mut text = String::from_str(alloc, "check yes\n")?;
    push_number(&mut text, "start level ", u128::from(checked.start))?;
    push_number(&mut text, "worst cycles ", u128::from(checked.worst))?;
    push_times(&mut text, checked.time, checked.deadline)?;
    push_number(
        &mut text,
        "stub cycles at most ",
        u128::from(checked.stub_cycles),
    )?;
    Ok(text)
}

/// What a check found: that the image is safe, with a line for each of its numbers, or the one line of why it isn't known to be.
pub fn verdict_text(alloc: Global, verdict: &Verdict) -> Result<String, NoMemory>
    ensures { IfOk result (λ text. string_bytes text ≡ verdict_text verdict.now) }
{
    match verdict {
        Verdict::Yes(checked) => safe_text(alloc, checked),
        Verdict::No(why) => {
            let words = WhyWords(*why);
            Ok(format!(in alloc; "check no {words}\n")?)
        }
    }
}
