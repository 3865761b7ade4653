//! Heights of functions, over which the tables of stacks go. The bounds that drafts have of words of the stack are data, `stack-bounds.txt` of the second
//! program's `cases`.

use crate::programs::{CALL_2, CALL_4, CALL_5, ECALL, EXIT, RETURN, expect_list, graph_of};
use loop_counters::heights_of;
use std::test::Fail;

/// The program calls both functions, and the first one the second.
const CHAIN: [u32; 7] = [CALL_4, CALL_5, EXIT, ECALL, CALL_2, RETURN, RETURN];

#[test]
fn heights_are_the_longest_chains_of_calls(rt: HostRuntime) -> Result<(), Fail> {
    let graph = graph_of(rt.alloc(), &CHAIN)?;
    let heights = heights_of(rt.alloc(), &graph)?;
    expect_list(&rt, 0, &heights, &[2, 1, 0]);
    Ok(())
}
