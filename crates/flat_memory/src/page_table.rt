//! Pages by their numbers.

ghost use Rattle.std.specs.Prelude.{◌≡◌, vec_len};

use crate::page::{Page, PageUse};

/// So many pages stand in a group, and so many groups in a table.
const COUNT: u32 = 1024;

/// A table of 1,024 pages, of which some are there.
#[derive(Drop)]
pub struct PageGroup {
    pub pages: Vec<Option<Page>>,
    ghost count: { vec_len pages ≡ 1024 },
}

/// The pages of all addresses: a table of 1,024 groups, of which some are there.
#[derive(Drop)]
pub struct PageTable {
    pub groups: Vec<Option<PageGroup>>,
    ghost count: { vec_len groups ≡ 1024 },
}

impl PageGroup {
    ghost use Rattle.std.specs.Prelude.{◌≡◌, ℕ, ◌<◌, ◌+◌, ◌≤◌, is_some, None, slice_index_or};
    ghost use Rattle.flat_memory.specs.Pages.{put_byte, put_word};
    ghost use Rattle.flat_memory.specs.PageTables.{IsPut};

    /// Writes the byte at a place of a page, and says whether the page is there.
    #[inline(always)]
    fn set_byte(&mut self, k: usize, place: usize, value: u8) -> bool
        requires page { k < 1024 }
        requires place { place < 4096 }
        ensures found { result ≡ is_some (slice_index_or self.old.pages.items k None) }
        ensures put { IsPut (slice_index_or self.old.pages.items k None) (slice_index_or self.new.pages.items k None)
            (λ xs. put_byte xs place value) }
        ensures others { (j : ℕ) → (j ≡ k → ⊥) → slice_index_or self.new.pages.items j None ≡ slice_index_or self.old.pages.items j None }
    {
        match &mut self.pages[k] {
            Some(page) => {
                page.set_byte(place, value);
                true
            }
            None => false,
        }
    }

    /// Writes the word from a place of a page on, and says whether the page is there.
    #[inline(always)]
    fn set_word(&mut self, k: usize, place: usize, value: u32) -> bool
        requires page { k < 1024 }
        requires place { place + 4 ≤ 4096 }
        ensures found { result ≡ is_some (slice_index_or self.old.pages.items k None) }
        ensures put { IsPut (slice_index_or self.old.pages.items k None) (slice_index_or self.new.pages.items k None)
            (λ xs. put_word xs place value) }
        ensures others { (j : ℕ) → (j ≡ k → ⊥) → slice_index_or self.new.pages.items j None ≡ slice_index_or self.old.pages.items j None }
    {
        match &mut self.pages[k] {
            Some(page) => {
                page.set_word(place, value);
                true
            }
            None => false,
        }
    }
}

impl PageTable {
    ghost use Rattle.std.specs.Prelude.{◌≡◌, ℕ, ◌<◌, ◌+◌, ◌≤◌, ◌/◌, ◌%◌, is_some, option_copied};
    ghost use Rattle.flat_memory.specs.Pages.{put_byte, put_word};
    ghost use Rattle.flat_memory.specs.PageTables.{IsPutAt, page_at, use_of};

    /// The page of an address.
    #[tactic(auto, unfolding(crate::specs::PageTables::page_at))]
    #[inline(always)]
    pub fn page(&self, at: u32) -> Option<&Page>
        ensures { option_copied result ≡ page_at self.now.groups.items (at / 4096) }
    {
        let number = at / 4096;
        match &self.groups[(number / COUNT) as usize] {
            Some(group) => group.pages[(number % COUNT) as usize].as_ref(),
            None => None,
        }
    }

    /// What the page of an address says of all its bytes.
    #[inline(always)]
    pub fn whole(&self, at: u32) -> PageUse
        ensures { result ≡ use_of (page_at self.now.groups.items (at / 4096)) }
    {
        match self.page(at) {
            Some(page) => page.whole,
            None => PageUse::Mixed,
        }
    }

    /// Writes the byte at an address, and says whether its page is there.
    #[inline(always)]
    pub fn set_byte(&mut self, at: u32, value: u8) -> bool
        ensures found { result ≡ is_some (page_at self.old.groups.items (at / 4096)) }
        ensures put { IsPutAt self.old.groups.items self.new.groups.items (at / 4096) (λ xs. put_byte xs (at % 4096) value) }
    {
        let number = at / 4096;
        match &mut self.groups[(number / COUNT) as usize] {
            Some(group) => {
                group.set_byte((number % COUNT) as usize, (at % 4096) as usize, value)
            }
            None => false,
        }
    }

    /// Writes the word at an address, and says whether its page is there.
    #[inline(always)]
    pub fn set_word(&mut self, at: u32, value: u32) -> bool
        requires { at % 4 ≡ 0 }
        ensures found { result ≡ is_some (page_at self.old.groups.items (at / 4096)) }
        ensures put { IsPutAt self.old.groups.items self.new.groups.items (at / 4096) (λ xs. put_word xs (at % 4096) value) }
    {
        let number = at / 4096;
        match &mut self.groups[(number / COUNT) as usize] {
            Some(group) => {
                group.set_word((number % COUNT) as usize, (at % 4096) as usize, value)
            }
            None => false,
        }
    }
}
