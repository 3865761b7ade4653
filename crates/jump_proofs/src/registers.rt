//! The registers of noted jumps.

ghost use Rattle.std.specs.Prelude.{◌≡◌, Ok, Some};
ghost use Rattle.scale_base.specs.Image.{image_of};
ghost use Rattle.image_lower.specs.Block as block;

use code_text::instr_at;
use elf_image::ImageView;
use scale_base::Instr;

// The register of a `jalr x0,0(rs)` with another register than x0 and x1.
fn register_of(instr: &Instr) -> Option<u8>
    ensures { result ≡ block.jump_register (Some instr.now) }
{
    match *instr {
        Instr::Jalr { rd, rs1, offset } => {
            if rd == 0 && offset == 0 && !(rs1 == 0 || rs1 == 1) {
                Some(rs1)
            } else {
                None
            }
        }
        _ => None,
    }
}

/// That of the word of the text at an address.
pub fn register_at(view: &ImageView<'_>, at: u32) -> Option<u8>
    requires { image_of view.now.file ≡ Ok view.now }
    ensures { result ≡ block.register_at view.now at }
{
    match instr_at(view, at) {
        Some(instr) => register_of(&instr),
        None => None,
    }
}
