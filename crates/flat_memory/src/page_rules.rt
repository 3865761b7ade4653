//! A memory of pages keeps the laws of a memory.

ghost use Rattle.flat_memory.specs.Paged.{page_bytes, page_layout};

use crate::memory::Memory;
use crate::page_memory::PageMemory;

impl Memory for PageMemory {
    ghost bytes = { page_bytes };

    ghost layout = { page_layout };

    #[inline]
    fn byte(&self, at: u32) -> u8 {
        match self.pages.page(at) {
            Some(page) => page.byte((at % 4096) as usize),
            None => self.ranges.byte(at),
        }
    }

    #[inline]
    fn set_byte(&mut self, at: u32, value: u8) {
        if !self.pages.set_byte(at, value) {
            self.ranges.set_byte(at, value);
        }
    }

    #[inline]
    fn may_read(&self, at: u32) -> bool {
        match self.pages.whole(at).reads() {
            Some(allowed) => allowed,
            None => self.ranges.may_read(at),
        }
    }

    #[inline]
    fn may_write(&self, at: u32) -> bool {
        match self.pages.whole(at).writes() {
            Some(allowed) => allowed,
            None => self.ranges.may_write(at),
        }
    }

    #[inline]
    fn may_fetch(&self, at: u32) -> bool {
        match self.pages.whole(at).fetches() {
            Some(allowed) => allowed,
            None => self.ranges.may_fetch(at),
        }
    }

    #[inline]
    fn is_keyed(&self, at: u32) -> bool {
        self.ranges.is_keyed(at)
    }

    #[inline(always)]
    fn may_read_word(&self, at: u32) -> bool {
        match self.pages.whole(at).reads() {
            Some(allowed) => allowed,
            None => self.ranges.may_read_word(at),
        }
    }

    #[inline(always)]
    fn may_write_word(&self, at: u32) -> bool {
        match self.pages.whole(at).writes() {
            Some(allowed) => allowed,
            None => self.ranges.may_write_word(at),
        }
    }

    #[inline(always)]
    fn word(&self, at: u32) -> u32 {
        match self.pages.page(at) {
            Some(page) => page.word((at % 4096) as usize),
            None => self.ranges.word(at),
        }
    }

    #[inline(always)]
    fn set_word(&mut self, at: u32, value: u32) {
        if !self.pages.set_word(at, value) {
            self.ranges.set_word(at, value);
        }
    }
}
