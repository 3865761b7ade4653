//! Intervals of words that may wrap round.

ghost use Rattle.std.specs.Prelude.{◌≡◌, ◌≤◌, ◌<◌, ◌^◌, ◌%◌, ◌+◌, ◌-◌, ◌==◌, Some, true};
ghost use Rattle.bound_laws.specs.Values as values;
ghost use Rattle.wrapped_intervals.specs.Small.{IsFound, IsFoundOr, IsKept, IsKeptOr};

use std::marker::Model;

/// How many words there are.
pub const WORDS: u64 = 4_294_967_296;

/// The words from `low` on, up to so many more behind it, modulo 2^32, and of these each that is a multiple of the stride behind it.
#[derive(Clone, Copy, PartialEq, Eq)]
pub struct Arc {
    low: u64,
    more: u64,
    stride: u64,
}

impl Model for Arc {
    ghost use Rattle.bound_laws.specs.Values as values;

    ghost Value = { values.Arc };

    ghost view = { λ a. record { low = a.low; more = a.more; stride = a.stride } };

    ghost inverse = { λ v. record { low = v.low; more = v.more; stride = v.stride } };
}

impl Arc {
    /// The words from `low` on with so many more.
    pub fn strided(low: u64, more: u64, stride: u64) -> Arc
        ensures { result ≡ values.strided low more stride }
    {
        Arc { low, more, stride }
    }

    /// All words from `low` on with so many more.
    pub fn of(low: u64, more: u64) -> Arc
        ensures { result ≡ values.arc low more }
    {
        Arc::strided(low, more, 1)
    }

    /// The first word.
    pub fn low(&self) -> u64
        ensures { result ≡ self.now.low }
    {
        self.low
    }

    /// How many more there are behind it.
    pub fn more(&self) -> u64
        ensures { result ≡ self.now.more }
    {
        self.more
    }

    /// The stride.
    pub fn stride(&self) -> u64
        ensures { result ≡ self.now.stride }
    {
        self.stride
    }

    /// The least number.
    pub fn least(&self) -> u64
        requires { IsFound self.now }
        ensures least { result ≡ values.least self.now }
        ensures order { result ≤ values.top self.now }
        ensures small { result < 2 ^ 32 }
    {
        if self.low + self.more < WORDS {
            self.low
        } else {
            0
        }
    }

    /// The greatest number.
    pub fn top(&self) -> u64
        requires { IsFound self.now }
        ensures top { result ≡ values.top self.now }
        ensures small { result < 2 ^ 32 }
    {
        (self.low + self.more).min(WORDS - 1)
    }

    /// Whether the last number is a multiple of the stride behind the first.
    pub fn is_whole(&self) -> bool
        ensures { result ≡ values.is_whole self.now }
    {
        self.more < WORDS && self.is_multiple()
    }

    // Whether the number of those behind the first is a multiple of the stride.
    fn is_multiple(&self) -> bool
        ensures { result ≡ (self.now.more % self.now.stride == 0) }
    {
        if self.stride == 0 {
            self.more == 0
        } else {
            self.more % self.stride == 0
        }
    }
}

/// Any word.
pub fn word() -> Option<Arc>
    ensures { result ≡ values.word }
{
    Some(Arc::of(0, WORDS - 1))
}

/// The one number, where it is a word.
pub fn exactly(n: u64) -> Option<Arc>
    ensures { result ≡ values.exactly n }
{
    if n < WORDS {
        Some(Arc::strided(n, 0, 0))
    } else {
        None
    }
}

/// The numbers from one to another; one number has the stride 0.
pub fn from_to(from: u64, to: u64) -> Option<Arc>
    requires from { from ≤ 2 ^ 32 }
    requires to { to ≤ 2 ^ 32 }
    ensures numbers { result ≡ values.from_to from to }
    ensures found { IsFoundOr result }
{
    let stride = if from == to { 0 } else { 1 };
    Some(Arc::strided(from, to.saturating_sub(from), stride))
}

/// The greatest number that may be there.
pub fn top_of(i: Option<Arc>) -> u64
    requires { IsFoundOr i }
    ensures top { result ≡ values.top_of i }
    ensures small { result < 2 ^ 32 }
{
    match i {
        Some(i) => i.top(),
        None => WORDS - 1,
    }
}

/// Whether an interval is one that is kept: it begins at a word, and has at most all of them.
pub fn is_kept(i: Option<Arc>) -> bool
    ensures { result ≡ true → IsKeptOr i }
{
    match i {
        Some(i) => i.low < WORDS && i.more < WORDS && i.stride < WORDS,
        None => true,
    }
}

/// Whether a number is in an interval; where nothing is known, each one is.
pub fn holds(i: Option<Arc>, value: u32) -> bool
    requires { IsKeptOr i }
    ensures { result ≡ true → values.IsHeld i value }
{
    match i {
        Some(i) => {
            let ahead = (u64::from(value) + (WORDS - i.low)) % WORDS;
            ahead <= i.more && is_multiple(i.stride, ahead)
        }
        None => true,
    }
}

/// Whether a number is a multiple of a stride.
pub fn is_multiple(stride: u64, n: u64) -> bool
    ensures { result ≡ true → values.IsMultiple stride n }
{
    if stride == 0 { n == 0 } else { n % stride == 0 }
}
