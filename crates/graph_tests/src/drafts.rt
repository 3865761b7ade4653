//! Bounds that are filled in where a draft of a loop file has none. Whole drafts are data, `loops.txt` and `bounds.txt` of the second program's `cases`.

use crate::programs::{expect_parts, image_of};
use loop_drafts::{DraftInputs, draft_loops, filled_text};
use run_progress::Silent;
use std::alloc::Global;
use std::test::Fail;

/// A jump to itself, behind another word.
const FOR_EVER: [u32; 2] = [0x0000_0013, 0x0000_006F];

/// The draft of a program with this bound where the code shows none.
fn filled_draft(alloc: Global, words: &[u32], bound: u32) -> Result<String, Fail> {
    let image = image_of(alloc, words)?;
    let inputs = DraftInputs {
        items: &[],
        most: None,
        trusts: false,
    };
    match draft_loops(alloc, &image, &inputs, &mut Silent) {
        Ok(draft) => Ok(filled_text(alloc, &draft.pieces, bound)?),
        Err(_) => Err("there is a draft".into()),
    }
}

#[test]
fn bounds_are_filled_in_where_none_is_known(rt: HostRuntime) -> Result<(), Fail> {
    let found = filled_draft(rt.alloc(), &FOR_EVER, 12);
    expect_parts(&rt, "for ever", found, &["are known\nbound = 12\n"])
}
