//! How large files and numbers may be. Code, clauses and definitions cite these names.

ghost use Rattle.std.specs.Prelude.{◌≡◌, ◌^◌};

/// The most bytes of an image as it is given.
pub const IMAGE_LIMIT: usize = 4_194_304;

/// The most bytes of a keyed segment: of the block of stubs.
pub const BLOCK_LIMIT: u32 = 4_194_304;

/// The most bytes of an image as it is stored.
pub const STORED_LIMIT: usize = 8_388_608;

/// The most bytes of any other file: of a machine, of loops, of jumps, of an input.
pub const FILE_LIMIT: usize = 1_048_576;

/// The most words of a text.
pub const WORD_LIMIT: usize = 131_072;

/// How many calls may wait for their return.
pub const RETURN_LIMIT: usize = 131_072;

/// The most cycles of a program, 2^48.
pub const CYCLE_LIMIT: u64 = 281_474_976_710_656;

/// Which numbers these names stand for.
pub fn limit_values()
    ensures image { IMAGE_LIMIT ≡ 4194304 }
    ensures block { BLOCK_LIMIT ≡ 4194304 }
    ensures stored { STORED_LIMIT ≡ 8388608 }
    ensures file { FILE_LIMIT ≡ 1048576 }
    ensures words { WORD_LIMIT ≡ 131072 }
    ensures returns { RETURN_LIMIT ≡ 131072 }
    ensures cycles { CYCLE_LIMIT ≡ 2 ^ 48 }
{}
