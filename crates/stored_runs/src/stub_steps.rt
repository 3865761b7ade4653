//! What the code of stubs does as steps of the machine, where it stands in the keyed segment.

ghost use Rattle.std.specs.Prelude.{◌≡◌, ℕ, ◌^◌, ◌<◌, ◌*◌, ◌+◌, ◌%◌, ◌≤◌, None, List, ◌∷◌, length, true, false, pos};
ghost use Rattle.std.specs.List.{sum_by};
ghost use Rattle.scale_base.specs.declared.instruction.BranchOp.{BranchOp};
ghost use Rattle.scale_base.specs.Arith.{is_taken};
ghost use Rattle.scale_base.specs.State.{Setting, State, reg};
ghost use Rattle.scale_base.specs.declared.stepping.Class.TheVariants as classes;
ghost use Rattle.scale_base.specs.declared.fragments.Fragment.{Fragment};
ghost use Rattle.stub_writer.specs.Fragments.{fragment_code, code_len};
ghost use Rattle.stub_writer.specs.Stubs as stubs;
ghost use Rattle.stored_runs.specs.Meaning.{Stand, StepsLead, IsSound, behind};
ghost use Rattle.stored_runs.specs.Ways as ways;
ghost use Rattle.stored_runs.specs.Held as held;
ghost use Rattle.stored_runs.specs.Cycles.{stepped_cycles, fragment_cost};
ghost use Rattle.scale_base.specs.declared.stepping.Class.{Class};
ghost use Rattle.scale_base.specs.Step.{step, goes};

/// What the code of fragments, of a way and of a branch's stub does, where it stands in the keyed segment.
pub fn stubs_at_work()
    ensures fragment { (env : Setting) (s : State) (table : ℕ) (f : Fragment) → IsSound env s →
        ways.Fits env s.bytes table s.pc f s.window → Stand env s.bytes s.pc (fragment_code table f) →
        StepsLead env s (ways.fragment_steps s.bytes table s.pc f s.window) (behind s (code_len f)
        (ways.window_behind s.bytes s.regs table f s.window)) }
    ensures way { (env : Setting) (s : State) (table : ℕ) (way : stubs.Way) → IsSound env s → ways.WayFits env s table s.pc way →
        Stand env s.bytes s.pc (stubs.way_code s.pc table way) → StepsLead env s (ways.way_steps s table s.pc way)
        (ways.behind_way s table way) }
    ensures taken { (env : Setting) (s : State) (table : ℕ) (op : BranchOp) (rs1 rs2 : ℕ) (untaken taken : stubs.Way) → IsSound env s →
        Stand env s.bytes s.pc (stubs.stub_code_of s.pc table (stubs.Forked op rs1 rs2 untaken taken)) →
        is_taken op (reg s.regs rs1) (reg s.regs rs2) ≡ true → 4 + 4 * stubs.way_len untaken < 2 ^ 12 →
        stubs.taken_at s.pc untaken < 2 ^ 32 → ways.WayFits env s (table + 4 * length (stubs.way_rows untaken))
        (stubs.taken_at s.pc untaken) taken → StepsLead env s (ways.taken_steps s table untaken taken)
        (ways.behind_way s (table + 4 * length (stubs.way_rows untaken)) taken) }
    ensures untaken { (env : Setting) (s : State) (table : ℕ) (op : BranchOp) (rs1 rs2 : ℕ) (untaken taken : stubs.Way) → IsSound env s →
        Stand env s.bytes s.pc (stubs.stub_code_of s.pc table (stubs.Forked op rs1 rs2 untaken taken)) →
        is_taken op (reg s.regs rs1) (reg s.regs rs2) ≡ false → ways.WayFits env s table (s.pc + 4) untaken →
        StepsLead env s (ways.untaken_steps s table untaken) (ways.behind_way s table untaken) }
{}

/// The stubs of a block whose bytes lie in the keyed segment stand in their places, and a patched instruction
/// goes to its stub.
pub fn block_in_place()
    ensures block { (env : Setting) (bytes : ℕ → ℕ) (base to : ℕ) (sites : List stubs.Site) → held.KeyedFrom env base to →
        base + 4 * length (stubs.block_words base sites) ≤ to → held.AreFine sites → held.AllWords (stubs.block_rows sites) →
        stubs.out_of_reach base sites ≡ None → held.BytesLie bytes base (stubs.block_bytes base sites) →
        held.StubsStand env bytes base (base + 4 * stubs.stubs_len sites) sites }
    ensures patch { (env : Setting) (s : State) (to : ℕ) → held.IsInText env s.bytes s.pc (stubs.jump s.pc to) → s.pc < 2 ^ 32 →
        to < 2 ^ 32 → to % 4 ≡ 0 → step env s ≡ goes (held.text_turn s.pc to) (record s { pc = to }) }
{}

/// The machine goes from a patched instruction through its stub, and what the way costs.
pub fn passages()
    ensures taken { (env : Setting) (s : State) (stub table : ℕ) (op : BranchOp) (rs1 rs2 : ℕ) (untaken taken : stubs.Way) →
        IsSound env s → held.StandsAtPatch env s stub → Stand env s.bytes stub
        (stubs.stub_code_of stub table (stubs.Forked op rs1 rs2 untaken taken)) → is_taken op (reg s.regs rs1) (reg s.regs rs2) ≡ true →
        4 + 4 * stubs.way_len untaken < 2 ^ 12 → stubs.taken_at stub untaken < 2 ^ 32 →
        ways.WayFits env s (table + 4 * length (stubs.way_rows untaken)) (stubs.taken_at stub untaken) taken →
        StepsLead env s (held.text_turn s.pc stub ∷ ways.taken_steps (record s { pc = stub }) table untaken taken)
        (ways.behind_way s (table + 4 * length (stubs.way_rows untaken)) taken) }
    ensures untaken { (env : Setting) (s : State) (stub table : ℕ) (op : BranchOp) (rs1 rs2 : ℕ) (untaken taken : stubs.Way) →
        IsSound env s → held.StandsAtPatch env s stub → Stand env s.bytes stub
        (stubs.stub_code_of stub table (stubs.Forked op rs1 rs2 untaken taken)) → is_taken op (reg s.regs rs1) (reg s.regs rs2) ≡ false →
        ways.WayFits env s table (stub + 4) untaken → StepsLead env s (held.text_turn s.pc stub ∷ ways.untaken_steps
        (record s { pc = stub }) table untaken) (ways.behind_way s table untaken) }
    ensures jump { (env : Setting) (s : State) (stub table : ℕ) (way : stubs.Way) → IsSound env s → held.StandsAtPatch env s stub →
        Stand env s.bytes stub (stubs.stub_code_of stub table (stubs.Straight way)) → ways.WayFits env s table stub way →
        StepsLead env s (held.text_turn s.pc stub ∷ ways.way_steps (record s { pc = stub }) table stub way) (ways.behind_way s table way) }
    ensures cost { (cost : Class → ℕ) (s : State) (table at : ℕ) (way : stubs.Way) →
        stepped_cycles cost (ways.way_steps s table at way) ≡ sum_by (fragment_cost cost) way.fragments + cost classes.Jump }
{}
