//! How the ends of runs are printed, and whether they were kept.

use crate::words::Address;
use scale_base::{End, Kept, Trap, TrapKind};
use std::fmt;

/// The name of a kind of trap.
#[derive(Clone, Copy)]
pub struct TrapName(pub TrapKind);

impl fmt::Display for TrapName {
    ghost use Rattle.std.specs.Prelude.{Some};
    ghost use Rattle.scale_report.specs.Texts.{trap_name};

    ghost output = { λ name. Some (trap_name name.0) };

    fn fmt<W: fmt::Write>(&self, f: &mut fmt::Formatter<W>) -> fmt::Result {
        match self.0 {
            TrapKind::Breakpoint => write!(f, "breakpoint"),
            TrapKind::IllegalWord => write!(f, "illegal-word"),
            TrapKind::FetchFault => write!(f, "fetch-fault"),
            TrapKind::MisalignedTarget => write!(f, "misaligned-target"),
            TrapKind::LoadMisaligned => write!(f, "load-misaligned"),
            TrapKind::StoreMisaligned => write!(f, "store-misaligned"),
            TrapKind::LoadFault => write!(f, "load-fault"),
            TrapKind::StoreFault => write!(f, "store-fault"),
        }
    }
}

/// How a run ended.
#[derive(Clone, Copy)]
pub struct EndWords(pub End);

impl fmt::Display for EndWords {
    ghost use Rattle.std.specs.Prelude.{Some};
    ghost use Rattle.scale_report.specs.Texts.{end_words};

    ghost output = { λ words. Some (end_words words.0) };

    fn fmt<W: fmt::Write>(&self, f: &mut fmt::Formatter<W>) -> fmt::Result {
        match self.0 {
            End::Exited(status) => write!(f, "exit {status}"),
            End::Trapped(Trap { kind, at }) => write!(f, "trap {} {}", TrapName(kind), Address(at)),
            End::OutOfSteps => write!(f, "steps"),
        }
    }
}

/// Whether a run was kept, or what it broke first; or that no loop file was given.
#[derive(Clone, Copy)]
pub struct KeptWords(pub Option<Kept>);

impl fmt::Display for KeptWords {
    ghost use Rattle.std.specs.Prelude.{Some};
    ghost use Rattle.scale_report.specs.Texts.{kept_words};

    ghost output = { λ words. Some (kept_words words.0) };

    fn fmt<W: fmt::Write>(&self, f: &mut fmt::Formatter<W>) -> fmt::Result {
        match self.0 {
            None => write!(f, "unchecked"),
            Some(Kept::Kept) => write!(f, "yes"),
            Some(Kept::BrokeBound { loop_no, count }) => write!(f, "no bound {loop_no} {count}"),
            Some(Kept::BrokeReturn { at, to }) => {
                write!(f, "no return {} {}", Address(at), Address(to))
            }
            Some(Kept::BrokeDepth { at }) => write!(f, "no depth {}", Address(at)),
        }
    }
}
