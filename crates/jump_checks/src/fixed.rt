//! Whether no store changes the words of tables.

ghost use Rattle.std.specs.Prelude.{◌≡◌, IfOk, true};
ghost use Rattle.scale_base.specs.Layout.{layout_of};
ghost use Rattle.jump_laws.specs.declared.reads.TableRead.{TableRead};
ghost use Rattle.jump_laws.specs.Laws.{AreUnwritten};
ghost use Rattle.jump_checks.specs.Claimed.{AreFixed, IsReadClaim, IsReadFixed, known_beside};

use crate::claims::ReadClaim;
use crate::reading::entry;
use elf_image::ImageView;
use fixed_tables::{Table, entries_of};
use jump_laws::TableRead;
use scale_base::NoMemory;
use std::alloc::Global;

// Whether the words of a table are in bytes that no store can change.
fn is_fixed(alloc: Global, view: &ImageView<'_>, table: Table) -> Result<bool, NoMemory>
    ensures { IfOk result (λ fixed. fixed ≡ true → AreFixed view.now table) }
{
    let Some(entries) = entries_of(alloc, view, table)? else {
        return Ok(false);
    };
    let _count = entries.len();
    Ok(true)
}

// The same of the table of what is known, where there is something.
fn is_read_fixed(
    alloc: Global,
    view: &ImageView<'_>,
    read: Option<TableRead>,
) -> Result<bool, NoMemory>
    ensures { IfOk result (λ fixed. fixed ≡ true → IsReadFixed view.now read) }
{
    match read {
        Some(x) => is_fixed(alloc, view, x.table),
        None => Ok(true),
    }
}

/// Whether no store changes the words of the tables of a claim.
pub fn are_words_fixed(alloc: Global, claim: &ReadClaim<'_>) -> Result<bool, NoMemory>
    requires { IsReadClaim claim.now }
    ensures { IfOk result (λ fixed. fixed ≡ true → AreUnwritten (layout_of claim.now.claim.now.view.now)
        (known_beside claim.now.claim.now.graph.now.code.nodes claim.now.reads.now)) }
{
    for k in 0..claim.reads.len() {
        let fixed = is_read_fixed(alloc, claim.claim.view, entry(claim.reads, k))?;
        if !fixed {
            return Ok(false);
        }
    }
    Ok(true)
}
