//! What is drafted of jumps through registers.

use fixed_tables::Table;
use jump_lists::JumpNotes;
use jump_proofs::JumpProof;
use jump_search::OpenJump;

/// A drafted jump file: its bytes, the notes that `read_jumps` reads from them, for each note the table that its targets are in, all other jumps of the text
/// through registers that are no returns, in ascending order, and of which notes it is proved that runs keep to them.
#[derive(Drop)]
pub struct JumpDraft {
    pub file: String,
    pub notes: JumpNotes,
    pub tables: Vec<Table>,
    pub others: Vec<OpenJump>,
    pub proof: JumpProof,
}
