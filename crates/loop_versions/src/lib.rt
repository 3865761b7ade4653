//! Images in which loops are there twice: a guard in front of a loop leads to a copy of it where the loop turns seldom, so that the copy has a
//! smaller bound of its own.
//! Tests: crates/version_tests/src/runs.rt and calls.rt.
#![tactic(auto)]

mod calls;
mod checking;
mod fitting;
mod making;
mod pieces;
mod runs;

pub use calls::{begins, begins_behind, calls_at, stays_in};
pub use checking::are_fit;
pub use fitting::{
    Block, distance, fits_jump, is_back, is_branch_offset, is_branch_right, is_call_right,
    is_copy_right, is_free, is_guard, is_jump_right, is_return_right, is_right, jump, leads_to,
    origin, origin_of, piece_at, piece_len, site_at, stands_for,
};
pub use making::{piece_code, pieces_code, site_patches};
pub use pieces::{Piece, Site};
pub use runs::{guards_lead_on, plain_instructions_move};
