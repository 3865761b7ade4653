//! The addresses at which jumps through registers stand.

ghost use Rattle.std.specs.Prelude.{◌≡◌, Ok, Some};
ghost use Rattle.scale_base.specs.Image.{image_of};
ghost use Rattle.jump_search.specs.Places.{is_register_jump, stands_at};

use code_text::instr_at;
use elf_image::ImageView;
use scale_base::Instr;

/// Whether an instruction is a jump through a register, and no return.
pub fn is_register_jump(instr: &Instr) -> bool
    ensures { result ≡ is_register_jump (Some instr.now) }
{
    match *instr {
        Instr::Jalr { rd, rs1, offset } => !(rd == 0 && rs1 == 1 && offset == 0),
        _ => false,
    }
}

/// Whether one stands at an address of the text.
pub fn stands_at(view: &ImageView<'_>, at: u32) -> bool
    requires { image_of view.now.file ≡ Ok view.now }
    ensures { result ≡ stands_at view.now at }
{
    match instr_at(view, at) {
        Some(instr) => is_register_jump(&instr),
        None => false,
    }
}
