//! A memory of pages.

ghost use Rattle.std.specs.Prelude.{ℕ, ◌/◌};
ghost use Rattle.flat_memory.specs.Lists.{list_layout};
ghost use Rattle.flat_memory.specs.Pages.{UseHolds};
ghost use Rattle.flat_memory.specs.PageTables.{use_of, page_at};

use crate::list_memory::ListMemory;
use crate::page_table::PageTable;

/// A memory that keeps its bytes by pages, and asks its ranges only for mixed pages and where no page is.
#[derive(Drop)]
pub struct PageMemory {
    pub(crate) pages: PageTable,
    pub(crate) ranges: ListMemory,
    ghost whole: { (at : ℕ) → UseHolds (list_layout ranges) at (use_of (page_at pages.groups.items (at / 4096))) },
}
