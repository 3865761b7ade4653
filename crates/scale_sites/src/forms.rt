//! The marks that stand in place of others where loops have tallies and where the lowest level is chosen by one instruction.

ghost use Rattle.std.specs.Prelude.{◌≡◌, ◌≤◌, ◌-◌, ◌++◌, ◌∷◌, length, map, OnOk, IfOk};
ghost use Rattle.std.specs.List.{flat_map};
ghost use Rattle.scale_sites.specs.Sites.{flag_at};
ghost use Rattle.scale_sites.specs.Forms.{tally_of, first_tally, behind_tally, plain_form, formed, tallied_by};

use scale_base::{Mark, NoMemory};
use std::alloc::Global;

/// The flag of a place: not set where there is none.
pub fn flag(flags: &[bool], place: usize) -> bool
    ensures { result ≡ flag_at flags.now place }
{
    if place < flags.len() {
        flags[place]
    } else {
        false
    }
}

/// Whether a counter is tallied, by flags of which the first is that of counter 2.
fn is_tallied(tallied: &[bool], counter: u16) -> bool
    ensures { result ≡ tallied_by tallied.now counter }
{
    flag(tallied, usize::from(counter.saturating_sub(2)))
}

/// The counter of a Count that is tallied.
fn tally_of(mark: &Mark, tallied: &[bool]) -> Option<u16>
    ensures { result ≡ tally_of (tallied_by tallied.now) mark.now }
{
    match *mark {
        Mark::Count(counter) => {
            if is_tallied(tallied, counter) {
                Some(counter)
            } else {
                None
            }
        }
        Mark::Switch | Mark::Exit(_) | Mark::Reset(_) | Mark::Lowest | Mark::Tally(_) => None,
    }
}

/// The first of them.
fn first_tally(marks: &[Mark], tallied: &[bool]) -> Option<u16>
    ensures { result ≡ first_tally (tallied_by tallied.now) marks.now }
{
    for mark in marks {
        if let Some(counter) = tally_of(mark, tallied) {
            return Some(counter);
        }
    }
    None
}

/// What stands for a mark on an edge without a tally.
fn plain_form(mark: &Mark, lowest: bool, tallied: &[bool]) -> Mark
    ensures { result ≡ plain_form lowest (tallied_by tallied.now) mark.now }
{
    match *mark {
        Mark::Switch => { if lowest { Mark::Lowest } else { Mark::Switch } }
        Mark::Exit(counter) => {
            if is_tallied(tallied, counter) {
                Mark::Reset(counter)
            } else {
                Mark::Exit(counter)
            }
        }
        Mark::Reset(counter) => Mark::Reset(counter),
        Mark::Count(counter) => Mark::Count(counter),
        Mark::Lowest => Mark::Lowest,
        Mark::Tally(counter) => Mark::Tally(counter),
    }
}

/// What stands for the marks of such an edge.
fn plain_forms(
    alloc: Global,
    marks: &[Mark],
    lowest: bool,
    tallied: &[bool],
) -> Result<Vec<Mark>, NoMemory>
    ensures { IfOk result (λ m. m.items ≡ map (plain_form lowest (tallied_by tallied.now)) marks.now) }
{
    let mut forms = Vec::new(alloc);
    for mark in marks {
        forms.push(plain_form(mark, lowest, tallied))?;
    }
    Ok(forms)
}

/// Adds a Count, unless it is that of a counter that has a tally.
fn push_count(forms: &mut Vec<Mark>, counter: u16, tally: u16) -> Result<(), NoMemory>
    ensures { OnOk result (forms.new.items ≡ forms.old.items ++ behind_tally tally (Mark.Count counter)) }
{
    if counter != tally {
        forms.push(Mark::Count(counter))?;
    }
    Ok(())
}

/// Adds what stands for a mark behind the tally of a counter.
fn push_behind(forms: &mut Vec<Mark>, mark: &Mark, tally: u16) -> Result<(), NoMemory>
    ensures { OnOk result (forms.new.items ≡ forms.old.items ++ behind_tally tally mark.now) }
{
    match *mark {
        Mark::Switch | Mark::Lowest => Ok(()),
        Mark::Exit(counter) | Mark::Reset(counter) => {
            forms.push(Mark::Reset(counter))?;
            Ok(())
        }
        Mark::Count(counter) | Mark::Tally(counter) => push_count(forms, counter, tally),
    }
}

/// The tally of a counter, and behind it what stands for the marks.
fn tally_forms(alloc: Global, marks: &[Mark], tally: u16) -> Result<Vec<Mark>, NoMemory>
    ensures { IfOk result (λ m. m.items ≡ Mark.Tally tally ∷ flat_map (behind_tally tally) marks.now) }
{
    let mut forms = Vec::new(alloc);
    forms.push(Mark::Tally(tally))?;
    for mark in marks {
        push_behind(&mut forms, mark, tally)?;
    }
    Ok(forms)
}

/// What stands for the marks of an edge.
pub fn form_marks(
    alloc: Global,
    marks: &[Mark],
    lowest: bool,
    tallied: &[bool],
) -> Result<Vec<Mark>, NoMemory>
    ensures { IfOk result (λ m. m.items ≡ formed lowest (tallied_by tallied.now) marks.now) }
{
    match first_tally(marks, tallied) {
        None => plain_forms(alloc, marks, lowest, tallied),
        Some(counter) => tally_forms(alloc, marks, counter),
    }
}
