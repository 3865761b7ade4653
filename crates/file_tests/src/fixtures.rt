//! Images and texts that tests of several crates use.

use elf_image::ImageView;
use elf_view::read_image;
use std::alloc::Global;
use std::process::Abort;
use std::test::Fail;

/// One segment of three words at 0x10000, which ends with status 7.
pub static PLAIN: &[u8; 96] =
    b"\x7fELF\x01\x01\x01\0\0\0\0\0\0\0\0\0\x02\0\xf3\0\x01\0\0\0\0\0\x01\04\0\0\0\0\0\0\0\0\0\0\04\0 \0\x01\0\0\0\0\0\0\0\x01\0\0\0T\0\0\0\0\0\x01\0\0\0\x01\0\x0c\0\0\0\x0c\0\0\0\x05\0\0\0\x04\0\0\0\x13\x05p\0\x93\x08\xd0\x05s\0\0\0";

/// Four program headers and five sections. Of the symbols `_start` is 0x100b4, `a+b` is 0x100bc, `top` is 0xffffffff, and `gone` is defined
/// elsewhere.
pub static SECTIONS: &[u8; 501] =
    b"\x7fELF\x01\x01\x01\0\0\0\0\0\0\0\0\0\x02\0\xf3\0\x01\0\0\0\xb4\0\x01\04\0\0\0\xc8\0\0\0\0\0\0\04\0 \0\x04\0(\0\x05\0\0\0Q\xe5td\0\0\0\0\0\0\0\0\0\0\0\0\0\0\0\0\0\0\0\0\x06\0\0\0\0\0\0\0\x01\0\0\0\0\0\0\0\0\0\x01\0\0\0\0\0\xc8\0\0\0\xc8\0\0\0\x05\0\0\0\0\0\0\0\x01\0\0\0\xc8\0\0\0\xc8\x10\x01\0\0\0\0\0\0\0\0\0\x10\0\0\0\x06\0\0\0\0\0\0\0\0\0\0\0\0\0\0\0\0\0\0\0\0\0\0\0\0\0\0\0\0\0\0\0\0\0\0\0\0\0\0\0\xb7\x02\x01\0\x03\xc5B\x0c\x93\x08\xd0\x05s\0\0\0*\0\0\0\0\0\0\0\0\0\0\0\0\0\0\0\0\0\0\0\0\0\0\0\0\0\0\0\0\0\0\0\0\0\0\0\0\0\0\0\0\0\0\0\0\0\0\0\x01\0\0\0\x06\0\0\0\xb4\0\x01\0\xb4\0\0\0\x10\0\0\0\0\0\0\0\0\0\0\0\0\0\0\0\0\0\0\0\0\0\0\0\x01\0\0\0\x02\0\0\0\xc4\0\x01\0\xc4\0\0\0\x04\0\0\0\0\0\0\0\0\0\0\0\0\0\0\0\0\0\0\0\0\0\0\0\x02\0\0\0\0\0\0\0\0\0\0\0\x90\x01\0\0P\0\0\0\x04\0\0\0\0\0\0\0\0\0\0\0\x10\0\0\0\0\0\0\0\x03\0\0\0\0\0\0\0\0\0\0\0\xe0\x01\0\0\x15\0\0\0\0\0\0\0\0\0\0\0\0\0\0\0\0\0\0\0\0\0\0\0\0\0\0\0\0\0\0\0\0\0\0\0\x01\0\0\0\xb4\0\x01\0\0\0\0\0\0\0\x01\0\x08\0\0\0\xbc\0\x01\0\0\0\0\0\0\0\x01\0\x0c\0\0\0\xff\xff\xff\xff\0\0\0\0\0\0\x01\0\x10\0\0\0\xc0\0\x01\0\0\0\0\0\0\0\0\0\0_start\0a+b\0top\0gone\0";

/// Ten symbols after entry 0 over one string table: `twice` undefined and then twice defined, two names that share their first 64 bytes,
/// the end of `twice`, the empty name, `only` undefined, `end` without a zero behind it, and a name outside of the table.
pub static SYMBOLS: &[u8; 579] =
    b"\x7fELF\x01\x01\x01\0\0\0\0\0\0\0\0\0\x02\0\xf3\0\x01\0\0\0\0\0\x01\04\0\0\0\xa3\x01\0\0\0\0\0\04\0 \0\x01\0(\0\x04\0\0\0\x01\0\0\0T\0\0\0\0\0\x01\0\0\0\x01\0\x0c\0\0\0\x0c\0\0\0\x05\0\0\0\x04\0\0\0\x13\x05p\0\x93\x08\xd0\x05s\0\0\0\0\0\0\0\0\0\0\0\0\0\0\0\0\0\0\0\x01\0\0\0\x01\0\0\0\0\0\0\0\0\0\0\0\x01\0\0\0\x02\0\0\0\0\0\0\0\0\0\x01\0\x01\0\0\0\x03\0\0\0\0\0\0\0\0\0\x01\0\x07\0\0\0\x04\0\0\0\0\0\0\0\0\0\x01\0I\0\0\0\x05\0\0\0\0\0\0\0\0\0\x01\0\x03\0\0\0\x06\0\0\0\0\0\0\0\0\0\x01\0\0\0\0\0\x07\0\0\0\0\0\0\0\0\0\x01\0\x8b\0\0\0\x08\0\0\0\0\0\0\0\0\0\0\0\x90\0\0\0\x09\0\0\0\0\0\0\0\0\0\x01\0\xff\xff\xff\xff\x0a\0\0\0\0\0\0\0\0\0\x01\0\0twice\0llllllllllllllllllllllllllllllllllllllllllllllllllllllllllllllllx\0lllllllllllllllllllllllllllllllllllllllllllllllllllllllllllllllly\0only\0end\0\0\0\0\0\0\0\0\0\0\0\0\0\0\0\0\0\0\0\0\0\0\0\0\0\0\0\0\0\0\0\0\0\0\0\0\0\0\0\0\0\0\0\0\x01\0\0\0\x06\0\0\0\0\0\x01\0T\0\0\0\x0c\0\0\0\0\0\0\0\0\0\0\0\0\0\0\0\0\0\0\0\0\0\0\0\x02\0\0\0\0\0\0\0\0\0\0\0`\0\0\0\xb0\0\0\0\x03\0\0\0\0\0\0\0\0\0\0\0\0\0\0\0\0\0\0\0\x03\0\0\0\0\0\0\0\0\0\0\0\x10\x01\0\0\x93\0\0\0\0\0\0\0\0\0\0\0\0\0\0\0\0\0\0\0";

/// A PT_PHDR entry, the words of `PLAIN`, and 16 bytes of memory at 0x20000.
pub static THREE_ENTRIES: &[u8; 160] =
    b"\x7fELF\x01\x01\x01\0\0\0\0\0\0\0\0\0\x02\0\xf3\0\x01\0\0\0\0\0\x01\04\0\0\0\0\0\0\0\0\0\0\04\0 \0\x03\0\0\0\0\0\0\0\x06\0\0\04\0\0\0\0\0\0\0\0\0\0\0`\0\0\0`\0\0\0\x04\0\0\0\x04\0\0\0\x01\0\0\0\x94\0\0\0\0\0\x01\0\0\0\x01\0\x0c\0\0\0\x0c\0\0\0\x05\0\0\0\x04\0\0\0\x01\0\0\0\0\0\0\0\0\0\x02\0\0\0\x02\0\0\0\0\0\x10\0\0\0\x06\0\0\0\x04\0\0\0\x13\x05p\0\x93\x08\xd0\x05s\0\0\0";

/// The image of a file.
pub fn view_of(alloc: Global, file: &[u8]) -> Result<ImageView<'_>, Fail> {
    match read_image(alloc, file) {
        Ok(view) => Ok(view),
        Err(_) => Err("the file is an image".into()),
    }
}

/// Expects this text of what is found for a row.
pub fn expect_words(
    rt: &impl Abort,
    row: &str,
    found: Result<String, Fail>,
    want: &str,
) -> Result<(), Fail> {
    let text = found?;
    assert_eq!(rt; text.as_str(), want, "{row}");
    Ok(())
}

/// A text of some words.
pub fn words_text(alloc: Global, words: &str) -> Result<String, Fail> {
    Ok(String::from_str(alloc, words)?)
}
