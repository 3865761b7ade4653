//! What is proposed of a program.

ghost use Rattle.std.specs.Prelude.{◌≡◌, ◌≤◌, length};

use crate::wanted::{ChosenMarks, SwitchSite};

/// What is proposed, as `pace` takes it: up to 8 edges with a switch, the addresses of the headers of up to 8 loops that are tallied, the share of the
/// lent time that levels between the starting and the lowest one get, in quarters, and whether the noted loops are counted.
#[derive(Drop)]
pub struct Proposal {
    pub sites: Vec<SwitchSite>,
    pub tallied: Vec<u32>,
    pub share: u8,
    pub counted: bool,
    ghost few: { length sites.items ≤ 8 },
    ghost short: { length tallied.items ≤ 8 },
    ghost quarters: { share ≤ 4 },
}

impl Proposal {
    /// Its marks.
    pub fn marks(&self) -> ChosenMarks<'_>
        ensures sites { result.sites.now ≡ self.now.sites.items }
        ensures counted { result.counted ≡ self.now.counted }
        ensures tallied { result.tallied.now ≡ self.now.tallied.items }
        ensures share { result.share ≡ self.now.share }
    {
        ChosenMarks {
            sites: &self.sites,
            counted: self.counted,
            tallied: &self.tallied,
            share: self.share,
        }
    }
}
