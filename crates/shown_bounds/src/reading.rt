//! What stands at a node of a program.

ghost use Rattle.std.specs.Prelude.{◌≡◌, ◌<◌, ℕ, length, slice_get, Some, Ok, IfSome};
ghost use Rattle.scale_base.specs.Image.{image_of};
ghost use Rattle.code_text.specs.Text.{text_of};
ghost use Rattle.code_text.specs.Text as texts;
ghost use Rattle.value_checks.specs.Tables.{live_at};
ghost use Rattle.stack_tables.specs.Tables.{IsStackClaim};

use code_text::instr_at;
use elf_image::ImageView;
use scale_base::Instr;
use stack_tables::StackClaim;
use value_checks::ValueTable;

// The instruction at an address of the text.
fn text_instr(view: &ImageView<'_>, at: u32) -> Option<Instr>
    requires { image_of view.now.file ≡ Ok view.now }
    ensures { IfSome result (λ i. texts.instr_at (text_of view.now) at ≡ Some i) }
{
    if view.is_text_word(at) {
        instr_at(view, at)
    } else {
        None
    }
}

/// The instruction at node k.
pub fn node_instr(claim: &StackClaim<'_>, k: usize) -> Option<Instr>
    requires claim { IsStackClaim claim.now }
    requires node { k < length claim.now.graph.now.code.nodes }
    ensures { IfSome result (λ i. (a : ℕ) → slice_get claim.now.graph.now.code.nodes k ≡ Some a →
        texts.instr_at (text_of claim.now.view.now) a ≡ Some i) }
{
    text_instr(claim.view, claim.graph.node(k))
}

/// Whether a run may come to node k.
pub fn is_live(table: &ValueTable, k: usize) -> bool
    requires { k < length table.now.live.items }
    ensures { result ≡ live_at table.now k }
{
    table.live[k]
}
