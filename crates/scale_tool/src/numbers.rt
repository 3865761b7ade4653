//! Numbers in the words of a command.

ghost use Rattle.std.specs.Prelude.{◌≡◌, ◌≤◌, option_map};
ghost use Rattle.std.specs.List.{list_all};
ghost use Rattle.scale_tool.specs.Numbers.{is_digit, digits_number, digits_within};

/// How many blocks a made program has.
#[derive(Clone, Copy)]
pub struct Size {
    pub blocks: u32,
    ghost in_range: { blocks ≤ 2000 },
}

fn are_digits(word: &str) -> bool
    ensures { result ≡ list_all is_digit word.now }
{
    word.bytes().all(|byte| byte.is_ascii_digit())
}

/// The number that a word of decimal digits writes, from one digit up to so many.
fn number_of(most: usize, word: &str) -> Option<u128>
    requires { most ≤ 38 }
    ensures { result ≡ digits_number most word.now }
{
    // A sign is no digit, though `parse` takes one.
    if word.is_empty() || most < word.len() || !are_digits(word) {
        return None;
    }
    word.parse().ok()
}

/// A program's number: up to 20 digits and 64 bits.
pub fn program_number(word: &str) -> Option<u64>
    ensures { result ≡ digits_within 20 0 18446744073709551615 word.now }
{
    u64::try_from(number_of(20, word)?).ok()
}

/// A program's size: up to 4 digits, and 1 to 2,000.
pub fn program_size(word: &str) -> Option<Size>
    ensures { option_map (λ size. size.blocks) result ≡ digits_within 4 1 2000 word.now }
{
    let blocks = number_of(4, word)?;
    if (1..=2000).contains(&blocks) {
        Some(Size {
            blocks: blocks as u32,
        })
    } else {
        None
    }
}
