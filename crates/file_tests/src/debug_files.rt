//! Source lines of images with debug lines.

use crate::fixtures::{PLAIN, expect_words, view_of};
use debug_lines::{Lines, lines_of};
use std::alloc::{AllocError, Global};
use std::fmt::Write;
use std::test::Fail;

// Six builds of one program, `t.c`, which calls a function of `t.h` in a loop, without symbols:
//
//     #include "t.h"
//     void _start(void) {
//       volatile int n = 9;
//       while (n > 0) {
//         n = half(n);
//       }
//       asm volatile ("li a7, 93\n\tecall");
//     }
//
// and the function, its line 2 the body: `static inline int half(int n) {`, `return n / 2;`, `}`. The names of the images say the compiler, gcc 12.2 or clang 14.0,
// and the version of DWARF. The expected lines are those of `objdump -dl`.

const GCC_2: &[u8; 536] =
    b"\x7fELF\x01\x01\x01\0\0\0\0\0\0\0\0\0\x02\0\xf3\0\x01\0\0\0\0\0\x01\04\0\0\0x\x01\0\0\0\0\0\04\0 \0\x02\0(\0\x04\0\x03\0\x03\0\0p\0\0\0\0\0\0\0\0\0\0\0\0\0\0\0\0\0\0\0\0\x04\0\0\0\x04\0\0\0\x01\0\0\0t\0\0\0\0\0\x01\0\0\0\x01\0@\0\0\0@\0\0\0\x05\0\0\0\x04\0\0\0\x13\x01\x01\xff\x93\x07\x90\0#&\xf1\0\x83'\xc1\0cP\xf0\x02\x03'\xc1\0\x93W\xf7\x01\xb3\x87\xe7\0\x93\xd7\x17@#&\xf1\0\x83'\xc1\0\xe3D\xf0\xfe\x93\x08\xd0\x05s\0\0\0\x13\x01\x01\x01g\x80\0\0\xa2\0\0\0\x03\0!\0\0\0\x01\x01\xfb\x0e\x0d\0\x01\x01\x01\x01\0\0\0\x01\0\0\x01\0t.c\0\0\0\0t.h\0\0\0\0\0\x05\x13\0\x05\x02\0\0\x01\0\x13\x05\x03\x03\x01\x09\x04\0\x01\x05\x10\x06\x03\0\x09\0\0\x01\x05\x03\x06\x03\x01\x09\x08\0\x01\x05\x0c\x03\0\x09\0\0\x01\x05\x05\x03\x01\x09\x08\0\x01\x05\x09\x06\x03\0\x09\0\0\x01\x04\x02\x05\x03\x06\x03}\x09\x04\0\x01\x05\x0c\x06\x03\0\x09\0\0\x01\x04\x01\x05\x07\x03\x03\x09\x0c\0\x01\x05\x0c\x06\x03\x7f\x09\x04\0\x01\x05\x03\x03\x03\x09\x08\0\x01\x05\x01\x06\x03\x01\x09\x08\0\x01\x09\x08\0\0\x01\x01\0.shstrtab\0.text\0.debug_line\0\0\0\0\0\0\0\0\0\0\0\0\0\0\0\0\0\0\0\0\0\0\0\0\0\0\0\0\0\0\0\0\0\0\0\0\0\0\0\0\0\0\x0b\0\0\0\x01\0\0\0\x06\0\0\0\0\0\x01\0t\0\0\0@\0\0\0\0\0\0\0\0\0\0\0\x04\0\0\0\0\0\0\0\x11\0\0\0\x01\0\0\0\0\0\0\0\0\0\0\0\xb4\0\0\0\xa6\0\0\0\0\0\0\0\0\0\0\0\x01\0\0\0\0\0\0\0\x01\0\0\0\x03\0\0\0\0\0\0\0\0\0\0\0Z\x01\0\0\x1d\0\0\0\0\0\0\0\0\0\0\0\x01\0\0\0\0\0\0\0";

const GCC_3: &[u8; 536] =
    b"\x7fELF\x01\x01\x01\0\0\0\0\0\0\0\0\0\x02\0\xf3\0\x01\0\0\0\0\0\x01\04\0\0\0x\x01\0\0\0\0\0\04\0 \0\x02\0(\0\x04\0\x03\0\x03\0\0p\0\0\0\0\0\0\0\0\0\0\0\0\0\0\0\0\0\0\0\0\x04\0\0\0\x04\0\0\0\x01\0\0\0t\0\0\0\0\0\x01\0\0\0\x01\0@\0\0\0@\0\0\0\x05\0\0\0\x04\0\0\0\x13\x01\x01\xff\x93\x07\x90\0#&\xf1\0\x83'\xc1\0cP\xf0\x02\x03'\xc1\0\x93W\xf7\x01\xb3\x87\xe7\0\x93\xd7\x17@#&\xf1\0\x83'\xc1\0\xe3D\xf0\xfe\x93\x08\xd0\x05s\0\0\0\x13\x01\x01\x01g\x80\0\0\xa2\0\0\0\x03\0!\0\0\0\x01\x01\xfb\x0e\x0d\0\x01\x01\x01\x01\0\0\0\x01\0\0\x01\0t.c\0\0\0\0t.h\0\0\0\0\0\x05\x13\0\x05\x02\0\0\x01\0\x13\x05\x03\x03\x01\x09\x04\0\x01\x05\x10\x06\x03\0\x09\0\0\x01\x05\x03\x06\x03\x01\x09\x08\0\x01\x05\x0c\x03\0\x09\0\0\x01\x05\x05\x03\x01\x09\x08\0\x01\x05\x09\x06\x03\0\x09\0\0\x01\x04\x02\x05\x03\x06\x03}\x09\x04\0\x01\x05\x0c\x06\x03\0\x09\0\0\x01\x04\x01\x05\x07\x03\x03\x09\x0c\0\x01\x05\x0c\x06\x03\x7f\x09\x04\0\x01\x05\x03\x03\x03\x09\x08\0\x01\x05\x01\x06\x03\x01\x09\x08\0\x01\x09\x08\0\0\x01\x01\0.shstrtab\0.text\0.debug_line\0\0\0\0\0\0\0\0\0\0\0\0\0\0\0\0\0\0\0\0\0\0\0\0\0\0\0\0\0\0\0\0\0\0\0\0\0\0\0\0\0\0\x0b\0\0\0\x01\0\0\0\x06\0\0\0\0\0\x01\0t\0\0\0@\0\0\0\0\0\0\0\0\0\0\0\x04\0\0\0\0\0\0\0\x11\0\0\0\x01\0\0\0\0\0\0\0\0\0\0\0\xb4\0\0\0\xa6\0\0\0\0\0\0\0\0\0\0\0\x01\0\0\0\0\0\0\0\x01\0\0\0\x03\0\0\0\0\0\0\0\0\0\0\0Z\x01\0\0\x1d\0\0\0\0\0\0\0\0\0\0\0\x01\0\0\0\0\0\0\0";

const GCC_4: &[u8; 536] =
    b"\x7fELF\x01\x01\x01\0\0\0\0\0\0\0\0\0\x02\0\xf3\0\x01\0\0\0\0\0\x01\04\0\0\0x\x01\0\0\0\0\0\04\0 \0\x02\0(\0\x04\0\x03\0\x03\0\0p\0\0\0\0\0\0\0\0\0\0\0\0\0\0\0\0\0\0\0\0\x04\0\0\0\x04\0\0\0\x01\0\0\0t\0\0\0\0\0\x01\0\0\0\x01\0@\0\0\0@\0\0\0\x05\0\0\0\x04\0\0\0\x13\x01\x01\xff\x93\x07\x90\0#&\xf1\0\x83'\xc1\0cP\xf0\x02\x03'\xc1\0\x93W\xf7\x01\xb3\x87\xe7\0\x93\xd7\x17@#&\xf1\0\x83'\xc1\0\xe3D\xf0\xfe\x93\x08\xd0\x05s\0\0\0\x13\x01\x01\x01g\x80\0\0\xa3\0\0\0\x04\0\"\0\0\0\x01\x01\x01\xfb\x0e\x0d\0\x01\x01\x01\x01\0\0\0\x01\0\0\x01\0t.c\0\0\0\0t.h\0\0\0\0\0\x05\x13\0\x05\x02\0\0\x01\0\x13\x05\x03\x03\x01\x09\x04\0\x01\x05\x10\x06\x03\0\x09\0\0\x01\x05\x03\x06\x03\x01\x09\x08\0\x01\x05\x0c\x03\0\x09\0\0\x01\x05\x05\x03\x01\x09\x08\0\x01\x05\x09\x06\x03\0\x09\0\0\x01\x04\x02\x05\x03\x06\x03}\x09\x04\0\x01\x05\x0c\x06\x03\0\x09\0\0\x01\x04\x01\x05\x07\x03\x03\x09\x0c\0\x01\x05\x0c\x06\x03\x7f\x09\x04\0\x01\x05\x03\x03\x03\x09\x08\0\x01\x05\x01\x06\x03\x01\x09\x08\0\x01\x09\x08\0\0\x01\x01\0.shstrtab\0.text\0.debug_line\0\0\0\0\0\0\0\0\0\0\0\0\0\0\0\0\0\0\0\0\0\0\0\0\0\0\0\0\0\0\0\0\0\0\0\0\0\0\0\0\0\x0b\0\0\0\x01\0\0\0\x06\0\0\0\0\0\x01\0t\0\0\0@\0\0\0\0\0\0\0\0\0\0\0\x04\0\0\0\0\0\0\0\x11\0\0\0\x01\0\0\0\0\0\0\0\0\0\0\0\xb4\0\0\0\xa7\0\0\0\0\0\0\0\0\0\0\0\x01\0\0\0\0\0\0\0\x01\0\0\0\x03\0\0\0\0\0\0\0\0\0\0\0[\x01\0\0\x1d\0\0\0\0\0\0\0\0\0\0\0\x01\0\0\0\0\0\0\0";

const GCC_5: &[u8; 628] =
    b"\x7fELF\x01\x01\x01\0\0\0\0\0\0\0\0\0\x02\0\xf3\0\x01\0\0\0\0\0\x01\04\0\0\0\xac\x01\0\0\0\0\0\04\0 \0\x02\0(\0\x05\0\x04\0\x03\0\0p\0\0\0\0\0\0\0\0\0\0\0\0\0\0\0\0\0\0\0\0\x04\0\0\0\x04\0\0\0\x01\0\0\0t\0\0\0\0\0\x01\0\0\0\x01\0@\0\0\0@\0\0\0\x05\0\0\0\x04\0\0\0\x13\x01\x01\xff\x93\x07\x90\0#&\xf1\0\x83'\xc1\0cP\xf0\x02\x03'\xc1\0\x93W\xf7\x01\xb3\x87\xe7\0\x93\xd7\x17@#&\xf1\0\x83'\xc1\0\xe3D\xf0\xfe\x93\x08\xd0\x05s\0\0\0\x13\x01\x01\x01g\x80\0\0\xb2\0\0\0\x05\0\x04\0/\0\0\0\x01\x01\x01\xfb\x0e\x0d\0\x01\x01\x01\x01\0\0\0\x01\0\0\x01\x01\x01\x1f\x01\0\0\0\0\x02\x01\x1f\x02\x0f\x03\x0a\0\0\0\0\x0a\0\0\0\0\x0e\0\0\0\0\x05\x13\0\x05\x02\0\0\x01\0\x13\x05\x03\x03\x01\x09\x04\0\x01\x05\x10\x06\x03\0\x09\0\0\x01\x05\x03\x06\x03\x01\x09\x08\0\x01\x05\x0c\x03\0\x09\0\0\x01\x05\x05\x03\x01\x09\x08\0\x01\x05\x09\x06\x03\0\x09\0\0\x01\x04\x02\x05\x03\x06\x03}\x09\x04\0\x01\x05\x0c\x06\x03\0\x09\0\0\x01\x04\x01\x05\x07\x03\x03\x09\x0c\0\x01\x05\x0c\x06\x03\x7f\x09\x04\0\x01\x05\x03\x03\x03\x09\x08\0\x01\x05\x01\x06\x03\x01\x09\x08\0\x01\x09\x08\0\0\x01\x01/tmp/dr/t\0t.c\0t.h\0\0.shstrtab\0.text\0.debug_line\0.debug_line_str\0\0\0\0\0\0\0\0\0\0\0\0\0\0\0\0\0\0\0\0\0\0\0\0\0\0\0\0\0\0\0\0\0\0\0\0\0\0\0\0\0\0\0\0\x0b\0\0\0\x01\0\0\0\x06\0\0\0\0\0\x01\0t\0\0\0@\0\0\0\0\0\0\0\0\0\0\0\x04\0\0\0\0\0\0\0\x11\0\0\0\x01\0\0\0\0\0\0\0\0\0\0\0\xb4\0\0\0\xb6\0\0\0\0\0\0\0\0\0\0\0\x01\0\0\0\0\0\0\0\x1d\0\0\0\x01\0\0\00\0\0\0\0\0\0\0j\x01\0\0\x12\0\0\0\0\0\0\0\0\0\0\0\x01\0\0\0\x01\0\0\0\x01\0\0\0\x03\0\0\0\0\0\0\0\0\0\0\0|\x01\0\0-\0\0\0\0\0\0\0\0\0\0\0\x01\0\0\0\0\0\0\0";

const CLANG_4: &[u8; 484] =
    b"\x7fELF\x01\x01\x01\0\0\0\0\0\0\0\0\0\x02\0\xf3\0\x01\0\0\0\0\0\x01\04\0\0\0D\x01\0\0\0\0\0\04\0 \0\x02\0(\0\x04\0\x03\0\x01\0\0\0t\0\0\0\0\0\x01\0\0\0\x01\08\0\0\08\0\0\0\x05\0\0\0\x04\0\0\0Q\xe5td\0\0\0\0\0\0\0\0\0\0\0\0\0\0\0\0\0\0\0\0\x06\0\0\0\0\0\0\0\x13\x01\x01\xff\x13\x05\x90\0#&\xa1\0\x03%\xc1\0c\\\xa0\0\x03%\xc1\0\x93U\xf5\x013\x05\xb5\0\x13U\x15@o\xf0_\xfe\x93\x08\xd0\x05s\0\0\0\x13\x01\x01\x01g\x80\0\0w\0\0\0\x04\0$\0\0\0\x01\x01\x01\xfb\x0e\x0d\0\x01\x01\x01\x01\0\0\0\x01\0\0\x01.\0\0t.c\0\0\0\0t.h\0\x01\0\0\0\0\x05\x02\0\0\x01\0\x13\x06\x03~\x09\x08\0\x01\x05\x0a\x06\x0a\x03\x04\x09\x04\0\x01\x05\x03\x06\x03\0\x09\x04\0\x01\x05\x0e\x06\x03\x01\x09\x04\0\x01\x04\x02\x05\x0c\x03}\x09\x04\0\x01\x04\x01\x05\x03\x03\x05\x09\x10\0\x01\x05\x01\x03\x01\x09\x08\0\x01\x09\x08\0\0\x01\x01\0.shstrtab\0.text\0.debug_line\0\0\0\0\0\0\0\0\0\0\0\0\0\0\0\0\0\0\0\0\0\0\0\0\0\0\0\0\0\0\0\0\0\0\0\0\0\0\0\0\0\x0b\0\0\0\x01\0\0\0\x06\0\0\0\0\0\x01\0t\0\0\08\0\0\0\0\0\0\0\0\0\0\0\x04\0\0\0\0\0\0\0\x11\0\0\0\x01\0\0\0\0\0\0\0\0\0\0\0\xac\0\0\0{\0\0\0\0\0\0\0\0\0\0\0\x01\0\0\0\0\0\0\0\x01\0\0\0\x03\0\0\0\0\0\0\0\0\0\0\0'\x01\0\0\x1d\0\0\0\0\0\0\0\0\0\0\0\x01\0\0\0\0\0\0\0";

const CLANG_5: &[u8; 608] =
    b"\x7fELF\x01\x01\x01\0\0\0\0\0\0\0\0\0\x02\0\xf3\0\x01\0\0\0\0\0\x01\04\0\0\0\x98\x01\0\0\0\0\0\04\0 \0\x02\0(\0\x05\0\x04\0\x01\0\0\0t\0\0\0\0\0\x01\0\0\0\x01\08\0\0\08\0\0\0\x05\0\0\0\x04\0\0\0Q\xe5td\0\0\0\0\0\0\0\0\0\0\0\0\0\0\0\0\0\0\0\0\x06\0\0\0\0\0\0\0\x13\x01\x01\xff\x13\x05\x90\0#&\xa1\0\x03%\xc1\0c\\\xa0\0\x03%\xc1\0\x93U\xf5\x013\x05\xb5\0\x13U\x15@o\xf0_\xfe\x93\x08\xd0\x05s\0\0\0\x13\x01\x01\x01g\x80\0\0\xa7\0\0\0\x05\0\x04\0P\0\0\0\x01\x01\x01\xfb\x0e\x0d\0\x01\x01\x01\x01\0\0\0\x01\0\0\x01\x01\x01\x1f\x02\x02\0\0\0\0\0\0\0\x03\x01\x1f\x02\x0f\x05\x1e\x02\x10\0\0\0\0\xdc\xb8\xc9\x05H\xc8\xa3\xcf\xd0\x0a\x8dIS\x12#\x1b\x0c\0\0\0\x01\xbe\x0fX\x8e\x86K\x18\x9a\xda|dj\x81\x1e\xab_\x04\0\0\x05\x02\0\0\x01\0\x13\x06\x03~\x09\x08\0\x01\x05\x0a\x06\x0a\x03\x04\x09\x04\0\x01\x05\x03\x06\x03\0\x09\x04\0\x01\x05\x0e\x06\x03\x01\x09\x04\0\x01\x04\x01\x05\x0c\x03}\x09\x04\0\x01\x04\0\x05\x03\x03\x05\x09\x10\0\x01\x05\x01\x03\x01\x09\x08\0\x01\x09\x08\0\0\x01\x01.\0/tmp/dr/t\0t.h\0t.c\0\0.shstrtab\0.text\0.debug_line\0.debug_line_str\0\0\0\0\0\0\0\0\0\0\0\0\0\0\0\0\0\0\0\0\0\0\0\0\0\0\0\0\0\0\0\0\0\0\0\0\0\0\0\0\0\x0b\0\0\0\x01\0\0\0\x06\0\0\0\0\0\x01\0t\0\0\08\0\0\0\0\0\0\0\0\0\0\0\x04\0\0\0\0\0\0\0\x11\0\0\0\x01\0\0\0\0\0\0\0\0\0\0\0\xac\0\0\0\xab\0\0\0\0\0\0\0\0\0\0\0\x01\0\0\0\0\0\0\0\x1d\0\0\0\x01\0\0\00\0\0\0\0\0\0\0W\x01\0\0\x14\0\0\0\0\0\0\0\0\0\0\0\x01\0\0\0\x01\0\0\0\x01\0\0\0\x03\0\0\0\0\0\0\0\0\0\0\0k\x01\0\0-\0\0\0\0\0\0\0\0\0\0\0\x01\0\0\0\0\0\0\0";

// The file and the line of an address.
fn push_place(text: &mut String, lines: &Lines<'_>, at: u32) -> Result<(), AllocError> {
    match lines.place(at) {
        Some(place) => {
            let file = place.file;
            let line = place.line;
            write!(text, "{file}:{line}")
        }
        None => text.push_str("-"),
    }
}

/// The lines of the words from 0x10000 on, of so many.
fn lines_text(alloc: Global, file: &[u8], words: u32) -> Result<String, Fail> {
    let view = view_of(alloc, file)?;
    let lines = lines_of(alloc, &view)?;
    let mut text = String::new(alloc);
    for k in 0..words.min(64) {
        if k > 0 {
            text.push_str(" ")?;
        }
        push_place(&mut text, &lines, 0x1_0000 + 4 * k)?;
    }
    Ok(text)
}

/// Images with so many words, and the line of each of these. Code that stands for no line has the line before it: clang's third word.
static LINES: [(&str, &[u8], u32, &str); 6] = [
    (
        "gcc 12.2 -gdwarf-2",
        GCC_2,
        16,
        "t.c:2 t.c:3 t.c:3 t.c:4 t.c:4 t.c:5 t.h:2 t.h:2 t.h:2 t.c:5 t.c:4 t.c:4 t.c:7 t.c:7 t.c:8 t.c:8",
    ),
    (
        "gcc 12.2 -gdwarf-3",
        GCC_3,
        16,
        "t.c:2 t.c:3 t.c:3 t.c:4 t.c:4 t.c:5 t.h:2 t.h:2 t.h:2 t.c:5 t.c:4 t.c:4 t.c:7 t.c:7 t.c:8 t.c:8",
    ),
    (
        "gcc 12.2 -gdwarf-4",
        GCC_4,
        16,
        "t.c:2 t.c:3 t.c:3 t.c:4 t.c:4 t.c:5 t.h:2 t.h:2 t.h:2 t.c:5 t.c:4 t.c:4 t.c:7 t.c:7 t.c:8 t.c:8",
    ),
    (
        "gcc 12.2 -gdwarf-5",
        GCC_5,
        16,
        "t.c:2 t.c:3 t.c:3 t.c:4 t.c:4 t.c:5 t.h:2 t.h:2 t.h:2 t.c:5 t.c:4 t.c:4 t.c:7 t.c:7 t.c:8 t.c:8",
    ),
    (
        "clang 14.0 -gdwarf-4",
        CLANG_4,
        14,
        "t.c:2 t.c:2 t.c:2 t.c:4 t.c:4 t.c:5 t.h:2 t.h:2 t.h:2 t.h:2 t.c:7 t.c:7 t.c:8 t.c:8",
    ),
    (
        "clang 14.0 -gdwarf-5",
        CLANG_5,
        14,
        "t.c:2 t.c:2 t.c:2 t.c:4 t.c:4 t.c:5 t.h:2 t.h:2 t.h:2 t.h:2 t.c:7 t.c:7 t.c:8 t.c:8",
    ),
];

#[test]
fn words_have_the_lines_that_they_are_from(rt: HostRuntime) -> Result<(), Fail> {
    for (name, file, words, want) in &LINES {
        let found = lines_text(rt.alloc(), *file, *words);
        expect_words(&rt, name, found, want)?;
    }
    Ok(())
}

#[test]
fn images_without_debug_lines_have_none(rt: HostRuntime) -> Result<(), Fail> {
    let found = lines_text(rt.alloc(), PLAIN, 3);
    expect_words(&rt, "plain", found, "- - -")
}

/// Images with another byte at a place, and the lines of their words then.
static BROKEN: [(&str, &[u8], usize, u8, &str); 7] = [
    (
        "a version that isn't known",
        GCC_4,
        184,
        6,
        "- - - - - - - - - - - - - - - -",
    ),
    (
        "a unit behind the end",
        GCC_4,
        183,
        1,
        "- - - - - - - - - - - - - - - -",
    ),
    (
        "no lines by an operation",
        GCC_4,
        194,
        0,
        "- - - - - - - - - - - - - - - -",
    ),
    // What was given before stays, but for the last line, whose code has no end.
    (
        "an operation behind the end",
        GCC_4,
        290,
        0,
        "t.c:2 t.c:3 t.c:3 t.c:4 t.c:4 - - - - - - - - - - -",
    ),
    (
        "a name that isn't shown",
        GCC_4,
        209,
        34,
        "- - - - - - t.h:2 t.h:2 t.h:2 - - - - - - -",
    ),
    (
        "a section of another name",
        GCC_4,
        365,
        68,
        "- - - - - - - - - - - - - - - -",
    ),
    (
        "strings of a section that isn't there",
        GCC_5,
        220,
        14,
        "- - - - - - - - - - - - - - - -",
    ),
];

// The lines of the words of an image with another byte.
fn broken_text(alloc: Global, file: &[u8], at: usize, byte: u8) -> Result<String, Fail> {
    let mut bytes = Vec::from_slice(alloc, file)?;
    if let Some(place) = bytes.get_mut(at) {
        *place = byte;
    }
    lines_text(alloc, &bytes, 16)
}

#[test]
fn what_cannot_be_read_is_left_out(rt: HostRuntime) -> Result<(), Fail> {
    for (name, file, at, byte, want) in &BROKEN {
        let found = broken_text(rt.alloc(), *file, *at, *byte);
        expect_words(&rt, name, found, want)?;
    }
    Ok(())
}
