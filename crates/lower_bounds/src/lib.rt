//! Lower loop bounds. Tables of what the turns of a loop add to a register or a word of the stack at most, which the code confirms edge by
//! edge: they show how often the loop turns at least. And their laws, of the machine's runs, over the definitions alone: a loop that is left
//! only where a register or a word of the stack is great enough, and each turn of which moves that on by so much at most, has turned often
//! enough by then. RISC-V Unprivileged ISA, RV32I.
#![tactic(auto)]

ghost use Rattle.lower_bounds.specs.Laws.{LowerBoundsAreKept, LowerCertificatesBoundTurns};

mod counters;
mod edges;
mod over;
mod rows;
mod shown;
mod steps;
mod sums;
mod tables;
mod words;

pub use over::is_counted_in;
pub use shown::is_lower_shown;
pub use steps::is_never;
pub use tables::{CountedWord, Counter, LowerCase, LowerTable, Step};

/// A step that leaves a loop leaves it after as many turns at least as a certificate of it says, as long as the returns of the run go back to
/// their calls.
pub fn lower_certificates_bound_turns()
    ensures { LowerCertificatesBoundTurns }
{}

/// As long as it is tidy, a run of an image that is kept where its loops have to turn less often is kept where they have to turn as often as
/// tables of its code show.
pub fn lower_bounds_are_kept()
    ensures { LowerBoundsAreKept }
{}
