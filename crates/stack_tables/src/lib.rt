//! Tables of what is known of registers and of words of the stack at each node of a program, as `stack_laws` says stacks, and what they say
//! of an instruction: to which words it stores, which it misses, and what a call keeps.
//! Tests: crates/graph_tests/src/stack_bounds.rt and fixed_loads.rt.
#![tactic(auto)]

mod apart;
mod certain;
mod claims;
mod fixed;
mod memory;
mod names;
mod predicates;
mod reading;
mod rows;
mod safe;
mod sizes;
mod stores;
mod strides;
mod tables;

pub use apart::{known_sum, known_sums};
pub use certain::is_certain;
pub use claims::StackClaim;
pub use fixed::{fixed_byte, fixed_load};
pub use memory::{Storing, is_kept_by, is_loaded_from, load_width};
pub use names::{is_same_name, more_of, name_span};
pub use predicates::{
    is_live_at, is_missed_by, is_restored_by, is_safe_at, line_at, name_at, stored_word, word_at,
};
pub use reading::{
    address, arcs, areas, begins, cells, dwindling, exits, fixed_parts, form, instruction,
    is_doubtful, is_kept, is_live, is_restored, is_spared, line, lines, name, name_of, span,
    span_of, told, word, word_count,
};
pub use safe::{descending, is_given_back, is_name_safe, is_safe};
pub use sizes::is_stack_sized;
pub use stores::{
    MOST_WORDS, arc_at, held_at, is_far, is_missed, is_sparing, is_steady, loaded_to, name_arc,
    stored_by, stored_from, word_number,
};
pub use strides::{number_at, stride_count};
pub use tables::{
    Cell, Dwindling, FixedPart, MOST_AREAS, MOST_CELLS, MOST_DWINDLING, MOST_PARTS, MOST_TOLD,
    Name, StackTable, Told, Word,
};
