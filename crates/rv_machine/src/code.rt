//! Instructions that are decoded once: those of words that no step can change.

ghost use Rattle.std.specs.Prelude.{◌≡◌, vec_len};

use crate::decoded::Decoded;

/// So many words have a page, so many pages a group, and so many groups the code.
const COUNT: u32 = 1024;

/// The instructions of 1,024 words, of which some are known.
#[derive(Drop)]
pub struct CodePage {
    pub instrs: Vec<Option<Decoded>>,
    ghost count: { vec_len instrs ≡ 1024 },
}

/// A table of 1,024 pages, of which some are there.
#[derive(Drop)]
pub struct CodeGroup {
    pub pages: Vec<Option<CodePage>>,
    ghost count: { vec_len pages ≡ 1024 },
}

/// The instructions of all words: a table of 1,024 groups, of which some are there.
#[derive(Drop)]
pub struct Code {
    pub groups: Vec<Option<CodeGroup>>,
    ghost count: { vec_len groups ≡ 1024 },
}

impl Code {
    ghost use Rattle.std.specs.Prelude.{◌≡◌, option_copied};
    ghost use Rattle.rv_machine.specs.Code.{known_at};

    /// The instruction at an address, if it is known.
    #[inline(always)]
    #[tactic(auto, unfolding(crate::specs::Code::known_at, crate::specs::Code::decoded_at))]
    pub fn instr(&self, at: u32) -> Option<&Decoded>
        ensures { option_copied result ≡ known_at self.now.groups.items at }
    {
        if at % 4 != 0 {
            return None;
        }
        let word = at / 4;
        match &self.groups[(word / COUNT / COUNT) as usize] {
            Some(group) => match &group.pages[(word / COUNT % COUNT) as usize] {
                Some(page) => page.instrs[(word % COUNT) as usize].as_ref(),
                None => None,
            },
            None => None,
        }
    }
}
