//! Laws of the runs of the machine, over the definition alone: a run without a keyed segment, and the registers along a run.
//! RISC-V Unprivileged ISA, RV32I.

ghost use Rattle.std.specs.Prelude.{◌≡◌, ℕ, false, List, length, All, None};
ghost use Rattle.scale_base.specs.Layout.{Layout};
ghost use Rattle.scale_base.specs.Run.{run};
ghost use Rattle.scale_base.specs.State.{Setting, State, reg};
ghost use Rattle.machine_laws.specs.Keys.{setting, with_empty_key, with_window, run_with_window};

/// A keyed segment of no bytes changes no run of a layout without one. The words of the window change none either, and stay
/// as they were.
pub fn an_empty_key_changes_no_run()
    ensures same_run { (l : Layout) (base levels : ℕ) (input : List ℕ) (s : State) (w : List ℕ) (n : ℕ) → l.keyed ≡ None →
        run (setting (with_empty_key l base) levels input) (with_window s w) n ≡ run_with_window (run (setting l levels input) s n) w }
{}

/// Without a keyed segment no completed step stores at the speed port, and none was fetched from the keyed segment.
pub fn runs_without_a_key()
    ensures no_port { (env : Setting) (s : State) (n : ℕ) → env.layout.keyed ≡ None → All (λ x. x.port ≡ None) (run env s n).steps }
    ensures no_key { (env : Setting) (s : State) (n : ℕ) → env.layout.keyed ≡ None → All (λ x. x.keyed ≡ false) (run env s n).steps }
{}

/// The registers keep their number along a run, and x0 stays 0.
pub fn registers_along_runs()
    ensures number { (env : Setting) (s : State) (n : ℕ) → length (run env s n).state.regs ≡ length s.regs }
    ensures zero { (env : Setting) (s : State) (n : ℕ) → reg s.regs 0 ≡ 0 → reg (run env s n).state.regs 0 ≡ 0 }
{}
