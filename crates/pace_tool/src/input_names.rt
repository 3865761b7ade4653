//! The words of a command that name its inputs, and how many bytes these may have.

ghost use Rattle.std.specs.Prelude.{◌≡◌, ◌≤◌, length, IfSome};
ghost use Rattle.scale_base.specs.declared.limits.TheConstants.{FILE_LIMIT};
ghost use Rattle.pace_tool.specs.Command.{input_limit};

use scale_base::FILE_LIMIT;

/// The names of up to 64 inputs.
#[derive(Clone, Copy)]
pub struct InputNames<'a> {
    pub names: &'a [&'a str],
    ghost few: { length names.now ≤ 64 },
}

impl<'a> InputNames<'a> {
    /// These names, where they aren't too many.
    pub fn of(names: &'a [&'a str]) -> Option<InputNames<'a>>
        ensures { IfSome result (λ inputs. inputs.names ≡ names.entry) }
    {
        if names.len() <= 64 {
            Some(InputNames { names })
        } else {
            None
        }
    }
}

/// How many bytes an input of the program has at most, where that is told: no more than a file may have.
#[derive(Clone, Copy)]
pub struct InputLimit {
    pub most: Option<u32>,
    ghost low: { input_limit most ≤ FILE_LIMIT },
}

// How many bytes an input may have, where at most so many are told, and else.
fn input_limit(most: Option<u32>) -> usize
    ensures { result ≡ input_limit most }
{
    match most {
        Some(bytes) => bytes as usize,
        None => FILE_LIMIT,
    }
}

impl InputLimit {
    /// So many bytes, where they aren't too many.
    pub fn of(most: Option<u32>) -> Option<InputLimit>
        ensures { IfSome result (λ limit. limit.most ≡ most) }
    {
        if input_limit(most) <= FILE_LIMIT {
            Some(InputLimit { most })
        } else {
            None
        }
    }

    /// How many bytes an input may have.
    pub fn bytes(self) -> usize
        ensures { result ≡ input_limit self.most }
    {
        input_limit(self.most)
    }
}
