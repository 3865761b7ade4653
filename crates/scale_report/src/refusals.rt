//! The words of each refusal.

ghost use Rattle.std.specs.Prelude.{◌≡◌};
ghost use Rattle.scale_report.specs.Phrases.{phrase_text};
ghost use Rattle.scale_report.specs.Texts.{refusal_words};

use crate::words::{Address, FieldName, SideEntry, Spaced};
use scale_base::{Cycle, Field, Name, Refusal};
use std::fmt;

/// Words of a refusal, and what they name: loops, jumps and levels by numbers, places by addresses.
#[derive(Clone, Copy)]
pub enum Phrase<'a> {
    Words(&'a str),
    Number(&'a str, u32),
    At(&'a str, u32),
    Field(&'a str, Field),
    Name(&'a str, &'a Name),
    Cycle(&'a str, &'a Cycle),
    NumberWords(&'a str, u32, &'a str),
    NumberName(&'a str, u32, &'a str, &'a Name),
    NumberAt(&'a str, u32, &'a str, u32),
    Numbers(&'a str, u32, &'a str, u32, &'a str),
    Level(u32, u32),
    Deadline(u128, u64),
    SideEntry(u32, u32, u32),
}

impl fmt::Display for Phrase<'_> {
    ghost use Rattle.std.specs.Prelude.{Some};
    ghost use Rattle.scale_report.specs.Phrases.{phrase_text};

    ghost output = { λ phrase. Some (phrase_text phrase) };

    fn fmt<W: fmt::Write>(&self, f: &mut fmt::Formatter<W>) -> fmt::Result {
        match *self {
            Phrase::Words(words) => write!(f, "{words}"),
            Phrase::Number(words, number) => write!(f, "{words}{number}"),
            Phrase::At(words, at) => write!(f, "{words}{}", Address(at)),
            Phrase::Field(words, field) => write!(f, "{words}{}", FieldName(field)),
            Phrase::Name(words, name) => write!(f, "{words}{}", name.text()),
            Phrase::Cycle(words, cycle) => write!(f, "{words}{}", Spaced(cycle)),
            Phrase::NumberWords(words, no, more) => write!(f, "{words}{no}{more}"),
            Phrase::NumberName(words, no, more, name) => {
                write!(f, "{words}{no}{more}{}", name.text())
            }
            Phrase::NumberAt(words, no, more, at) => write!(f, "{words}{no}{more}{}", Address(at)),
            Phrase::Numbers(words, one, more, other, last) => {
                write!(f, "{words}{one}{more}{other}{last}")
            }
            Phrase::Level(level, levels) => write!(f, "9 start level {level} of {levels}"),
            Phrase::Deadline(need, have) => {
                write!(f, "41 deadline missed: need {need} have {have}")
            }
            Phrase::SideEntry(no, from, to) => write!(f, "{}", SideEntry(no, from, to)),
        }
    }
}

/// What a refusal says, with its number.
pub fn phrase_of(refusal: &Refusal) -> Phrase<'_>
    ensures { phrase_text result ≡ refusal_words refusal.now }
{
    match refusal {
        Refusal::NotElf => Phrase::Words("1 not an ELF file"),
        Refusal::UnsupportedElf(field) => Phrase::Field("2 unsupported ELF: ", *field),
        Refusal::TruncatedElf => Phrase::Words("3 truncated ELF"),
        Refusal::DynamicImage => Phrase::Words("4 dynamic image"),
        Refusal::BadSegment(header) => Phrase::Number("5 bad segment: header ", *header),
        Refusal::BadText(at) => Phrase::At("6 bad text at ", *at),
        Refusal::WritableText(at) => Phrase::At("7 writable text at ", *at),
        Refusal::AlreadyScaled => Phrase::Words("8 already scaled"),
        Refusal::StartLevel(level, levels) => Phrase::Level(*level, *levels),
        Refusal::MachineText => Phrase::Words("10 machine file text"),
        Refusal::MachineKey(name) => Phrase::Name("11 machine file key ", name),
        Refusal::MachineValue(name) => Phrase::Name("12 machine file value ", name),
        Refusal::LevelOrder(index) => Phrase::Number("13 level order ", *index),
        Refusal::LoopText => Phrase::Words("14 loop file text"),
        Refusal::LoopKey(no, name) => Phrase::NumberName("15 loop ", *no, " key ", name),
        Refusal::LoopValue(no, name) => Phrase::NumberName("16 loop ", *no, " value ", name),
        Refusal::UnknownSymbol(no) => Phrase::NumberWords("17 loop ", *no, " symbol"),
        Refusal::TooManyLoops(count) => Phrase::Number("18 too many loops: ", *count),
        Refusal::IllegalWord(at) => Phrase::At("20 illegal word at ", *at),
        Refusal::OutsideText(at) => Phrase::At("21 outside text at ", *at),
        Refusal::MisalignedTarget(at) => Phrase::At("22 misaligned target at ", *at),
        Refusal::OddLink(at) => Phrase::At("23 odd link at ", *at),
        Refusal::IndirectJump(at) => Phrase::At("24 indirect jump at ", *at),
        Refusal::SharedCode(at) => Phrase::At("25 shared code at ", *at),
        Refusal::Recursion(cycle) => Phrase::Cycle("26 recursion:", cycle),
        Refusal::HeaderNotReached(no) => Phrase::NumberWords(
            "30 loop ",
            *no,
            " header not reached",
        ),
        Refusal::SameHeader(one, two) => Phrase::Numbers(
            "31 loops ",
            *one,
            " ",
            *two,
            " same header",
        ),
        Refusal::NoBackEdge(no) => Phrase::NumberWords("32 loop ", *no, " no back edge"),
        Refusal::SideEntry(no, from, to) => Phrase::SideEntry(*no, *from, *to),
        Refusal::CrossingLoops(one, two) => Phrase::Numbers("34 loops ", *one, " ", *two, " cross"),
        Refusal::TooDeep(no) => Phrase::NumberWords("35 loop ", *no, " too deep"),
        Refusal::UnboundedCycle(cycle) => Phrase::Cycle("36 unbounded cycle:", cycle),
        Refusal::TooLong => Phrase::Words("40 worst cycles over 281474976710656"),
        Refusal::DeadlineMissed(need, have) => Phrase::Deadline(*need, *have),
        Refusal::Uncountable(no, at) => Phrase::NumberAt("42 loop ", *no, " uncountable at ", *at),
        Refusal::TooManyCounters(count) => Phrase::Number("43 too many counters: ", *count),
        Refusal::StubOutOfReach(at) => Phrase::At("44 stub out of reach at ", *at),
        Refusal::TooLarge(name) => Phrase::Name("50 too large: ", name),
        Refusal::JumpText => Phrase::Words("61 jump file text"),
        Refusal::JumpKey(no, name) => Phrase::NumberName("62 jump ", *no, " key ", name),
        Refusal::JumpValue(no, name) => Phrase::NumberName("63 jump ", *no, " value ", name),
        Refusal::BadJump(at) => Phrase::At("64 bad jump at ", *at),
        Refusal::NoRoom(number) => Phrase::Number("65 no room: refusal ", *number),
        Refusal::LowerOutOfReach(at) => Phrase::At("66 lowered jump out of reach at ", *at),
    }
}
