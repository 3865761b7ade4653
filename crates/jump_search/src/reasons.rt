//! Why jumps through registers aren't listed.

use std::fmt;

/// Why a jump through a register isn't listed.
#[derive(Clone, Copy, PartialEq, Eq)]
pub enum Reason {
    /// The code that is known doesn't lead to it.
    NotReached,
    /// `lower` makes a near jump of it and of the AUIPC before it.
    FarJump,
    /// It links, so that it is a call by a pointer.
    Call,
    /// It has an offset, or goes through x0 or x1.
    OddForm,
    /// Its register holds something else than a word of a table.
    NoTable,
    /// Where in the table it reads isn't known.
    IndexUnknown,
    /// The table isn't in bytes of the file that no store can change.
    NotFixed,
    /// A word of the table leads to no word of the text.
    OutsideText,
    /// There are more than 128 targets, or the file would have more than 1,024 jumps or more than 32,768 targets.
    TooMany,
    /// The graph of the code can't be made.
    NoGraph,
    /// The code is too large, or its jumps lead to one another too deeply, to look at each.
    TooLarge,
}

impl Reason {
    ghost use Rattle.std.specs.Prelude.{◌≡◌};
    ghost use Rattle.jump_search.specs.Reasons.{is_open};

    /// Whether a user has something to do: to list the targets.
    pub fn is_open(&self) -> bool
        ensures { result ≡ is_open self.now }
    {
        !matches!(self, Reason::NotReached | Reason::FarJump)
    }
}

impl fmt::Display for Reason {
    fn fmt<W: fmt::Write>(&self, f: &mut fmt::Formatter<W>) -> fmt::Result {
        match self {
            Reason::NotReached => write!(f, "the code that is known doesn't lead to it"),
            Reason::FarJump => write!(f, "it is lowered with the auipc before it"),
            Reason::Call => write!(f, "it is a call by a pointer"),
            Reason::OddForm => write!(f, "it has an offset, or goes through x0 or x1"),
            Reason::NoTable => write!(f, "its register isn't read from one table"),
            Reason::IndexUnknown => write!(f, "where in its table it reads isn't known"),
            Reason::NotFixed => write!(f, "its table can be written, or isn't in the file"),
            Reason::OutsideText => write!(f, "a word of its table leads outside the text"),
            Reason::TooMany => write!(f, "there are too many targets"),
            Reason::NoGraph => write!(f, "the graph of the code can't be made"),
            Reason::TooLarge => write!(f, "the code is too large for a look at each jump"),
        }
    }
}

/// A jump through a register that isn't listed: its address, and why.
#[derive(Clone, Copy)]
pub struct OpenJump {
    pub at: u32,
    pub reason: Reason,
}
