//! What is known of how often a loop turns.

ghost use Rattle.std.specs.Prelude.{◌≡◌, IfOk, vec_len};

use scale_base::NoMemory;
use std::alloc::Global;
use std::fmt;

/// What is counted in: a register, how far a register is above another one, the sum of two, a word of the stack, so many bytes below what x2 had when the
/// function began, or what is left of the input.
#[derive(Clone, Copy)]
pub enum Place {
    Register(u8),
    Difference(u8, u8),
    Sum(u8, u8),
    StackWord(u32),
    Input,
}

/// What each turn of a loop does to a place: it moves it up or down, takes bits away from it, as a division by a power of 2 does, or moves it along memory: an
/// area, up or down, or constant bytes, up to a 0.
#[derive(Clone, Copy)]
pub enum Way {
    Up,
    Down,
    Shorter,
    Along,
    ToZero,
}

/// A place that each turn of a loop moves on by `step` at least, and that is within a span of `width` numbers at the header. Where turns take bits away, each takes
/// `step` of them at least, and the place has so many at the header that they fit into `width` as often as turns may begin with one. Where they move it along an
/// area, that has at most `width` bytes; where up to a 0, that is at most `width` bytes on.
#[derive(Clone, Copy)]
pub struct Counter {
    pub place: Place,
    pub way: Way,
    pub step: u32,
    pub width: u32,
}

impl Counter {
    /// How many turns the span allows.
    pub fn bound(&self) -> u32 {
        self.width.checked_div(self.step).unwrap_or(u32::MAX)
    }

    /// How many bits the place has at the header, where turns take some of them away.
    pub fn bits(&self) -> u32 {
        self.width.saturating_add(1).saturating_sub(self.step)
    }
}

/// What is known of the back edges that one entry of a loop takes at most: the counter that bounds them, or why there is none.
#[derive(Clone, Copy)]
pub enum Draft {
    Bounded(Counter),
    Open(Reason),
}

impl Draft {
    /// Whether no bound is known.
    pub fn is_open(&self) -> bool {
        matches!(self, Draft::Open(_))
    }
}

/// What a draft says of a loop: what is known of its turns, whether it is to be counted, and how often it turns at least, as far as that is known.
#[derive(Clone, Copy)]
pub struct Known {
    pub draft: Draft,
    pub counted: bool,
    pub at_least: u32,
}

impl Known {
    /// Why no bound is known, of a loop that isn't counted.
    pub fn open(reason: Reason) -> Known {
        Known {
            draft: Draft::Open(reason),
            counted: false,
            at_least: 0,
        }
    }
}

/// Why no bound of a loop is known.
#[derive(Clone, Copy)]
pub enum Reason {
    /// None was looked for yet.
    NotSought,
    /// No register and no word of the stack is found that each turn moves on or divides, within a span that is known at the header.
    NoCounter,
    /// Nor that, and its turns read the input, of which isn't told how long it may be.
    ReadsInput,
    /// The span of its counter is too wide for a bound.
    TooWide,
    /// It walks through memory, by so many bytes or more each turn, in an area of at most so many, which bounds it no lower than that.
    FarWalk(u32, u32),
    /// The code doesn't confirm the counter that is found.
    NotConfirmed,
    /// Some code that turns is entered at several places, so that no loops are taken.
    EnteredAside,
    /// The code doesn't confirm the numbers that are found for its registers and its stack.
    NotAnalysed,
    /// The graph is too large for a look at each of its loops.
    TooLarge,
}

impl fmt::Display for Reason {
    fn fmt<W: fmt::Write>(&self, f: &mut fmt::Formatter<W>) -> fmt::Result {
        match self {
            Reason::NotSought => write!(f, "none was looked for"),
            Reason::NoCounter => {
                write!(
                    f,
                    "no register or stack word is found that each turn moves on or halves, between limits that are known"
                )
            }
            Reason::ReadsInput => write!(
                f,
                "it reads the input, and may have one with --input-bytes"
            ),
            Reason::TooWide => write!(f, "the limits of its counter are too far apart"),
            Reason::FarWalk(step, width) => {
                let most = width.checked_div(*step).unwrap_or(u32::MAX);
                write!(
                    f,
                    "each turn goes {step} or more bytes along memory, in an area of at most {width}, so all that is proved is {most}"
                )
            }
            Reason::NotConfirmed => write!(f, "the code doesn't confirm its counter"),
            Reason::EnteredAside => {
                write!(
                    f,
                    "none is looked for where code that turns is entered at several places"
                )
            }
            Reason::NotAnalysed => {
                write!(
                    f,
                    "the values of the registers and of the stack could not be worked out"
                )
            }
            Reason::TooLarge => write!(f, "the program is too large for a look at each loop"),
        }
    }
}

/// Of so many loops nothing is known.
pub fn unknown(alloc: Global, count: usize) -> Result<Vec<Known>, NoMemory>
    ensures { IfOk result (λ known. vec_len known ≡ count) }
{
    Ok(vec![in alloc; Known::open(Reason::NotSought); count]?)
}
