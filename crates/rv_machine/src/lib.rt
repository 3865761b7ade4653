//! One step of a machine of RV32IM, by the RISC-V unprivileged manual. What the manual leaves to the environment, as traps,
//! services and the window of the keyed segment, is this project's profile.
//! Tests: crates/machine_tests/src/machine_steps.rt.
#![tactic(auto)]

mod access;
mod arith;
mod code;
mod decoded;
mod decoding;
mod machine;
mod services;
mod stepping;

pub use code::Code;
pub use decoded::{Decoded, Effect};
pub use decoding::{Places, decode_code};
pub use machine::{Machine, World};
pub use scale_base::StepEnd;
pub use stepping::{step, step_decoded};
