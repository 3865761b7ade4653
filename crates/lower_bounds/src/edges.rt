//! What the code says of a table of a lower bound, edge by edge.

ghost use Rattle.std.specs.Prelude.{◌≡◌, ◌≢◌, ◌<◌, ◌⊎◌, ◌^◌, ℕ, false, true, IfSome, None, Some, length};
ghost use Rattle.bound_laws.specs.Values.{arc};
ghost use Rattle.code_text.specs.Text as text;
ghost use Rattle.flow_graph.specs.FlowGraph.{graph};
ghost use Rattle.loop_file.specs.Kept as extent;
ghost use Rattle.scale_base.specs.declared.instruction.Instr.{Instr};
ghost use Rattle.stack_laws.specs.Counting.{IsAdded};
ghost use Rattle.stack_tables.specs.Tables.{stacks_in, text_in, values_in};
ghost use Rattle.lower_bounds.specs.LowerBounds as lower;
ghost use Rattle.lower_bounds.specs.LowerBounds.{from_on};
ghost use Rattle.lower_bounds.specs.LowerTables.{at_of, cert, IsCalledSo, IsEdgeSo, IsLedSo, IsLiveSo, IsLowerCase, IsCountedIn, IsLateOut, IsNeverTaken, IsStep, IsStepAt};

use crate::counters::{is_added, is_kept};
use crate::over::is_counted_in;
use crate::rows::{added, adds, is_body, is_quiet, most_behind};
use crate::steps::is_never;
use crate::tables::{LowerCase, Step};
use loop_file::in_extent;
use scale_base::Instr;
use stack_tables::{address, instruction, is_live};
use wrapped_intervals::Arc;

// ---- an edge

// Whether an edge from node k to the header is a turn that adds the most at most, or comes from outside the extent.
fn is_turn_so(case: &LowerCase<'_>, k: usize, n: usize) -> bool
    requires case { IsLowerCase case.now }
    requires from { k < length case.now.claim.now.graph.now.code.nodes }
    requires to { n < length case.now.claim.now.graph.now.code.nodes }
    requires header { n ≡ case.now.header }
    ensures { result ≡ true →
        IsLedSo (cert case.now) case.now.note.now.header (λ v. extent.in_extent case.now.note.now v) (at_of case.now k) (at_of case.now n) }
{
    if !in_extent(case.note, address(case.claim, k)) {
        return true;
    }
    is_body(case, k) && most_behind(case, k) <= u64::from(case.table.most)
}

// Whether an edge between other nodes goes on with what has been added.
fn is_along_so(case: &LowerCase<'_>, k: usize, n: usize) -> bool
    requires case { IsLowerCase case.now }
    requires from { k < length case.now.claim.now.graph.now.code.nodes }
    requires to { n < length case.now.claim.now.graph.now.code.nodes }
    requires other { n ≢ case.now.header }
    ensures { result ≡ true →
        IsLedSo (cert case.now) case.now.note.now.header (λ v. extent.in_extent case.now.note.now v) (at_of case.now k) (at_of case.now n) }
{
    if !is_body(case, n) {
        return true;
    }
    is_body(case, k) && most_behind(case, k) <= u64::from(added(case, n))
}

// An edge from node k to node n.
fn is_led_so(case: &LowerCase<'_>, k: usize, n: usize) -> bool
    requires case { IsLowerCase case.now }
    requires from { k < length case.now.claim.now.graph.now.code.nodes }
    requires to { n < length case.now.claim.now.graph.now.code.nodes }
    ensures { result ≡ true →
        IsLedSo (cert case.now) case.now.note.now.header (λ v. extent.in_extent case.now.note.now v) (at_of case.now k) (at_of case.now n) }
{
    if n == case.header {
        is_turn_so(case, k, n)
    } else {
        is_along_so(case, k, n)
    }
}

// A call at node k of the function that begins at node h.
fn is_called_so(case: &LowerCase<'_>, k: usize, h: usize) -> bool
    requires case { IsLowerCase case.now }
    requires from { k < length case.now.claim.now.graph.now.code.nodes }
    requires entry { h < length case.now.claim.now.graph.now.code.nodes }
    ensures { result ≡ true →
        IsCalledSo (text_in case.now.claim.now) (values_in case.now.claim.now) (stacks_in case.now.claim.now) (cert case.now)
        (at_of case.now k) (at_of case.now h) }
{
    if is_body(case, h) {
        return false;
    }
    if !is_body(case, k) {
        return true;
    }
    is_quiet(case, h) && adds(case, k) == 0 && is_kept(case, k, h)
}

// Whether quiet code stays quiet on the way from node k to node n.
fn is_quiet_on(case: &LowerCase<'_>, k: usize, n: usize) -> bool
    requires case { IsLowerCase case.now }
    requires from { k < length case.now.claim.now.graph.now.code.nodes }
    requires to { n < length case.now.claim.now.graph.now.code.nodes }
    ensures { result ≡ true → (cert case.now).quiet (at_of case.now k) ≡ true → (cert case.now).quiet (at_of case.now n) ≡ true }
{
    !is_quiet(case, k) || is_quiet(case, n)
}

// ---- a step

// The least number that the counter doesn't have behind node k before as many turns as are noted, where that is a word.
fn too_great(case: &LowerCase<'_>, k: usize) -> Option<u64>
    requires case { IsLowerCase case.now }
    requires from { k < length case.now.claim.now.graph.now.code.nodes }
    ensures great { IfSome result (λ n. n ≡ lower.too_great (cert case.now) case.now.note.now.at_least (at_of case.now k)) }
    ensures word { IfSome result (λ n. n < 2 ^ 32) }
{
    let turns = u64::from(case.note.at_least.saturating_sub(1));
    let turned = turns * u64::from(case.table.most);
    if turned >= 4_294_967_296 {
        return None;
    }
    let low = u64::from(case.table.first) + turned + most_behind(case, k) + 1;
    if low < 4_294_967_296 { Some(low) } else { None }
}

// Whether the counter is too great behind a step.
fn is_great(case: &LowerCase<'_>, step: Step) -> bool
    requires case { IsLowerCase case.now }
    requires step { IsStep case.now.claim.now step }
    ensures { result ≡ true →
        IsCountedIn case.now.claim.now step (cert case.now).counter
        (from_on (lower.too_great (cert case.now) case.now.note.now.at_least (at_of case.now step.from))) }
{
    match too_great(case, step.from) {
        Some(low) => is_counted_in(
            case.claim,
            step,
            case.table.counter,
            Arc::of(low, 4_294_967_295 - low),
        ),
        None => false,
    }
}

// Whether a step out of the loop leaves it late.
fn is_left_so(case: &LowerCase<'_>, step: Step) -> bool
    requires case { IsLowerCase case.now }
    requires step { IsStep case.now.claim.now step }
    ensures { result ≡ true → IsNeverTaken case.now.claim.now step ⊎ IsLateOut case.now step }
{
    if is_never(case.claim, step) {
        return true;
    }
    if is_quiet(case, step.from) {
        return false;
    }
    is_body(case, step.from) && is_great(case, step)
}

// Whether a step into the loop from outside does so with a counter that is the first number at most.
fn is_start_so(case: &LowerCase<'_>, step: Step) -> bool
    requires case { IsLowerCase case.now }
    requires step { IsStep case.now.claim.now step }
    ensures { result ≡ true → IsNeverTaken case.now.claim.now step
        ⊎ IsCountedIn case.now.claim.now step (cert case.now).counter (arc 0 (cert case.now).first) }
{
    if is_never(case.claim, step) {
        return true;
    }
    is_counted_in(
        case.claim,
        step,
        case.table.counter,
        Arc::of(0, u64::from(case.table.first)),
    )
}

// Whether a step from within the extent leaves the loop late, if it does.
fn is_end_so(case: &LowerCase<'_>, step: Step) -> bool
    requires case { IsLowerCase case.now }
    requires step { IsStep case.now.claim.now step }
    ensures { result ≡ true → extent.in_extent case.now.note.now (at_of case.now step.to) ≡ false → IsNeverTaken case.now.claim.now step
        ⊎ IsLateOut case.now step }
{
    if in_extent(case.note, address(case.claim, step.to)) {
        return true;
    }
    is_left_so(case, step)
}

// Whether the instruction of node k adds what the table says, if it is code of the loop.
fn is_effect_so(case: &LowerCase<'_>, i: Instr, k: usize) -> bool
    requires case { IsLowerCase case.now }
    requires from { k < length case.now.claim.now.graph.now.code.nodes }
    ensures { result ≡ true → (cert case.now).body (at_of case.now k) ≡ true →
        IsAdded (values_in case.now.claim.now) (stacks_in case.now.claim.now) (cert case.now).counter (at_of case.now k) i
        ((cert case.now).adds (at_of case.now k)) }
{
    !is_body(case, k) || is_added(case, i, k)
}

// A step of an instruction from within the extent.
fn is_inside_so(case: &LowerCase<'_>, step: Step) -> bool
    requires case { IsLowerCase case.now }
    requires step { IsStep case.now.claim.now step }
    requires inside { extent.in_extent case.now.note.now (at_of case.now step.from) ≡ true }
    ensures { result ≡ true → IsStepAt case.now (at_of case.now step.from) step.instr (at_of case.now step.to) }
{
    if !is_effect_so(case, step.instr, step.from) {
        return false;
    }
    is_end_so(case, step)
}

// And from outside.
fn is_outside_so(case: &LowerCase<'_>, step: Step) -> bool
    requires case { IsLowerCase case.now }
    requires step { IsStep case.now.claim.now step }
    requires outside { extent.in_extent case.now.note.now (at_of case.now step.from) ≡ false }
    ensures { result ≡ true → IsStepAt case.now (at_of case.now step.from) step.instr (at_of case.now step.to) }
{
    if !is_effect_so(case, step.instr, step.from) {
        return false;
    }
    if step.to == case.header {
        return is_start_so(case, step);
    }
    true
}

// A step of the instruction of node k to node n.
fn is_instr_so(case: &LowerCase<'_>, instr: Instr, k: usize, n: usize) -> bool
    requires case { IsLowerCase case.now }
    requires from { k < length case.now.claim.now.graph.now.code.nodes }
    requires to { n < length case.now.claim.now.graph.now.code.nodes }
    ensures { result ≡ true → IsStepAt case.now (at_of case.now k) instr (at_of case.now n) }
{
    let step = Step {
        instr,
        from: k,
        to: n,
    };
    if in_extent(case.note, address(case.claim, k)) {
        is_inside_so(case, step)
    } else {
        is_outside_so(case, step)
    }
}

// Whether a step from node k to node n has nothing to do with the loop.
fn is_apart(case: &LowerCase<'_>, k: usize, n: usize) -> bool
    requires case { IsLowerCase case.now }
    requires from { k < length case.now.claim.now.graph.now.code.nodes }
    requires to { n < length case.now.claim.now.graph.now.code.nodes }
    ensures other { result ≡ true → n ≢ case.now.header }
    ensures body { result ≡ true → (cert case.now).body (at_of case.now k) ≡ false }
    ensures outside { result ≡ true → extent.in_extent case.now.note.now (at_of case.now k) ≡ false }
{
    n != case.header && !is_body(case, k) && !in_extent(case.note, address(case.claim, k))
}

// A step from node k to node n.
fn is_step_so(case: &LowerCase<'_>, k: usize, n: usize) -> bool
    requires case { IsLowerCase case.now }
    requires from { k < length case.now.claim.now.graph.now.code.nodes }
    requires to { n < length case.now.claim.now.graph.now.code.nodes }
    ensures { result ≡ true → (i : Instr) → text.instr_at (text_in case.now.claim.now) (at_of case.now k) ≡ Some i →
        IsStepAt case.now (at_of case.now k) i (at_of case.now n) }
{
    if is_apart(case, k, n) {
        return true;
    }
    match instruction(case.claim, k) {
        Some(i) => is_instr_so(case, i, k, n),
        None => false,
    }
}

// A call at node k that comes back to node n.
fn is_back_so(case: &LowerCase<'_>, k: usize, n: usize) -> bool
    requires case { IsLowerCase case.now }
    requires from { k < length case.now.claim.now.graph.now.code.nodes }
    requires to { n < length case.now.claim.now.graph.now.code.nodes }
    ensures { result ≡ true → at_of case.now n ≡ case.now.note.now.header → extent.in_extent case.now.note.now (at_of case.now k) ≡ true }
{
    if n == case.header {
        return in_extent(case.note, address(case.claim, k));
    }
    true
}

// ---- by the number of an edge

// Whether quiet code stays quiet along an edge.
fn is_quiet_along(case: &LowerCase<'_>, k: usize, e: usize) -> bool
    requires case { IsLowerCase case.now }
    requires node { k < length case.now.claim.now.graph.now.code.nodes }
    requires edge { e < length case.now.claim.now.graph.now.code.edges }
    ensures { result ≡ true → (b : ℕ) → (graph case.now.claim.now.graph.now).target e ≡ Some b →
        (cert case.now).quiet (at_of case.now k) ≡ true → (cert case.now).quiet b ≡ true }
{
    match case.claim.graph.target(e) {
        Some(n) => is_quiet_on(case, k, n),
        None => true,
    }
}

// And in what it calls.
fn is_quiet_called(case: &LowerCase<'_>, k: usize, e: usize) -> bool
    requires case { IsLowerCase case.now }
    requires node { k < length case.now.claim.now.graph.now.code.nodes }
    requires edge { e < length case.now.claim.now.graph.now.code.edges }
    ensures { result ≡ true → (f : ℕ) → (graph case.now.claim.now.graph.now).callee e ≡ Some f →
        (cert case.now).quiet (at_of case.now k) ≡ true → (cert case.now).quiet ((graph case.now.claim.now.graph.now).entry f) ≡ true }
{
    match case.claim.graph.callee(e) {
        Some(f) => is_quiet_on(case, k, case.claim.graph.entry_node(f)),
        None => true,
    }
}

// Where an edge leads.
fn leads_so(case: &LowerCase<'_>, k: usize, e: usize) -> bool
    requires case { IsLowerCase case.now }
    requires node { k < length case.now.claim.now.graph.now.code.nodes }
    requires edge { e < length case.now.claim.now.graph.now.code.edges }
    ensures { result ≡ true → (b : ℕ) → (graph case.now.claim.now.graph.now).target e ≡ Some b →
        IsLedSo (cert case.now) case.now.note.now.header (λ v. extent.in_extent case.now.note.now v) (at_of case.now k) b }
{
    match case.claim.graph.target(e) {
        Some(n) => is_led_so(case, k, n),
        None => true,
    }
}

// What it calls.
fn calls_so(case: &LowerCase<'_>, k: usize, e: usize) -> bool
    requires case { IsLowerCase case.now }
    requires node { k < length case.now.claim.now.graph.now.code.nodes }
    requires edge { e < length case.now.claim.now.graph.now.code.edges }
    ensures { result ≡ true → (f : ℕ) → (graph case.now.claim.now.graph.now).callee e ≡ Some f →
        IsCalledSo (text_in case.now.claim.now) (values_in case.now.claim.now) (stacks_in case.now.claim.now) (cert case.now)
        (at_of case.now k) ((graph case.now.claim.now.graph.now).entry f) }
{
    match case.claim.graph.callee(e) {
        Some(f) => is_called_so(case, k, case.claim.graph.entry_node(f)),
        None => true,
    }
}

// What a step does.
fn steps_so(case: &LowerCase<'_>, k: usize, e: usize) -> bool
    requires case { IsLowerCase case.now }
    requires node { k < length case.now.claim.now.graph.now.code.nodes }
    requires edge { e < length case.now.claim.now.graph.now.code.edges }
    ensures { result ≡ true → (b : ℕ) → (graph case.now.claim.now.graph.now).target e ≡ Some b →
        (graph case.now.claim.now.graph.now).callee e ≡ None → (i : Instr) →
        text.instr_at (text_in case.now.claim.now) (at_of case.now k) ≡ Some i → IsStepAt case.now (at_of case.now k) i b }
{
    match (case.claim.graph.callee(e), case.claim.graph.target(e)) {
        (None, Some(n)) => is_step_so(case, k, n),
        _ => true,
    }
}

// And where a call comes back.
fn comes_back_so(case: &LowerCase<'_>, k: usize, e: usize) -> bool
    requires case { IsLowerCase case.now }
    requires node { k < length case.now.claim.now.graph.now.code.nodes }
    requires edge { e < length case.now.claim.now.graph.now.code.edges }
    ensures { result ≡ true → (f b : ℕ) → (graph case.now.claim.now.graph.now).callee e ≡ Some f →
        (graph case.now.claim.now.graph.now).target e ≡ Some b → b ≡ case.now.note.now.header →
        extent.in_extent case.now.note.now (at_of case.now k) ≡ true }
{
    match (case.claim.graph.callee(e), case.claim.graph.target(e)) {
        (Some(_), Some(n)) => is_back_so(case, k, n),
        _ => true,
    }
}

// All of an edge to whose source a run may come.
fn is_live_so(case: &LowerCase<'_>, k: usize, e: usize) -> bool
    requires case { IsLowerCase case.now }
    requires node { k < length case.now.claim.now.graph.now.code.nodes }
    requires edge { e < length case.now.claim.now.graph.now.code.edges }
    ensures { result ≡ true → IsLiveSo case.now (graph case.now.claim.now.graph.now) (at_of case.now k) e }
{
    if !leads_so(case, k, e) {
        return false;
    }
    if !calls_so(case, k, e) {
        return false;
    }
    if !steps_so(case, k, e) {
        return false;
    }
    comes_back_so(case, k, e)
}

/// All of an edge.
pub fn is_edge_so(case: &LowerCase<'_>, e: usize) -> bool
    requires case { IsLowerCase case.now }
    requires edge { e < length case.now.claim.now.graph.now.code.edges }
    ensures { result ≡ true → IsEdgeSo case.now (graph case.now.claim.now.graph.now) e }
{
    let k = case.claim.graph.source(e);
    if !is_quiet_along(case, k, e) {
        return false;
    }
    if !is_quiet_called(case, k, e) {
        return false;
    }
    !is_live(case.claim, k) || is_live_so(case, k, e)
}
