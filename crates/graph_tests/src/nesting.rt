//! The nesting of loops by their bodies; that of loops of programs is in `loops`.

use crate::programs::expect_same;
use graph_algorithms::nest_loops;
use std::test::Fail;

#[test]
fn takes_no_loops(rt: HostRuntime) -> Result<(), Fail> {
    let nesting = nest_loops(rt.alloc(), &[], &[], 2)?;
    let found = (nesting.innermost(0), nesting.innermost(1));
    expect_same(&rt, 0, found, (None, None));
    let (innermost, parent) = nesting.into_parts();
    expect_same(&rt, 1, (innermost.len(), parent.len()), (2, 0));
    Ok(())
}
