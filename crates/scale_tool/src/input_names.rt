//! The words of a command that name its inputs.

ghost use Rattle.std.specs.Prelude.{◌≡◌, ◌≤◌, length, option_map};
ghost use Rattle.scale_tool.specs.Command.{inputs_of, texts};

/// The names of 1 to 64 inputs.
#[derive(Clone, Copy)]
pub struct InputNames<'a> {
    pub names: &'a [String],
    ghost some: { 1 ≤ length names.now },
    ghost few: { length names.now ≤ 64 },
}

impl<'a> InputNames<'a> {
    /// The words as names, where they aren't too few or too many.
    pub fn of(words: &'a [String]) -> Option<InputNames<'a>>
        ensures { option_map (λ inputs. texts inputs.names.now) result ≡ inputs_of (texts words.now) }
    {
        if (1..=64).contains(&words.len()) {
            Some(InputNames { names: words })
        } else {
            None
        }
    }
}
