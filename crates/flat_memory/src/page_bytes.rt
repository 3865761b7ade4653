//! Bytes of a page.

ghost use Rattle.std.specs.Prelude.{◌≡◌, ◌+◌, ◌≤◌, length};
ghost use Rattle.flat_memory.specs.Pages.{put_word};

/// Puts the four bytes of a word, the lowest first, from a place on.
#[inline(always)]
pub fn put_bytes(bytes: &mut [u8], place: usize, value: u32)
    requires { place + 4 ≤ length bytes.old }
    ensures { bytes.new ≡ put_word bytes.old place value }
{
    let [first, second, third, fourth] = value.to_le_bytes();
    bytes[place] = first;
    bytes[place + 1] = second;
    bytes[place + 2] = third;
    bytes[place + 3] = fourth;
}
