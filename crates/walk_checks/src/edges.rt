//! What the code says of a table of a walk, edge by edge.

ghost use Rattle.std.specs.Prelude.{◌≡◌, ◌≢◌, ◌<◌, ◌⊎◌, ℕ, None, Some, false, length, option_map, true};
ghost use Rattle.std.specs.List.{All};
ghost use Rattle.bound_laws.specs.Values as values;
ghost use Rattle.bound_laws.specs.Values.{IsRegister};
ghost use Rattle.code_text.specs.Text as text;
ghost use Rattle.flow_graph.specs.FlowGraph.{graph};
ghost use Rattle.loop_file.specs.Kept as extent;
ghost use Rattle.scale_base.specs.declared.instruction.Instr.{Instr};
ghost use Rattle.stack_tables.specs.Tables.{stacks_in, text_in, values_in};
ghost use Rattle.wrapped_intervals.specs.Small.{said_view};
ghost use Rattle.walk_areas.specs.Walking as walking;
ghost use Rattle.walk_checks.specs.declared.tables.WordTrace.{WordTrace};
ghost use Rattle.walk_checks.specs.Walked.{at_of, cert, trace_view, AreBack, AreOver, IsBackSo, IsCalledSo, IsEdgeWalked, IsEntering, IsLedSo, IsLiveSo, IsSound, IsStartedFrom, IsStep, IsStepEntering, IsStepSo, IsWalkCase};

use crate::backs::{is_holder_back, is_row_back, is_word_back};
use crate::ends::{is_turn_back, is_turn_over};
use crate::over::{is_row_over, is_word_over};
use crate::rows::{holder_at, is_body, is_quiet, is_touched, row_at, words_at};
use crate::starts::{has_no_start, is_started_by};
use crate::tables::{Call, Step, WalkCase, WordTrace};
use crate::touching::{is_holder_over, is_touched_over};
use loop_file::in_extent;
use scale_base::Instr;
use stack_tables::{address, arcs, instruction, is_live};
use wrapped_intervals::{Said, is_impossible, said_by};

// What is said on the way.
fn said_on(case: &WalkCase<'_>, step: Step) -> Option<Said>
    requires case { IsWalkCase case.now }
    requires step { IsStep case.now step }
    ensures { option_map said_view result ≡ values.said step.instr (at_of case.now step.from) (at_of case.now step.to) }
{
    said_by(
        step.instr,
        address(case.claim, step.from),
        address(case.claim, step.to),
    )
}

// Whether no state comes this way.
fn is_never(case: &WalkCase<'_>, step: Step) -> bool
    requires case { IsWalkCase case.now }
    requires step { IsStep case.now step }
    ensures { result ≡ true → values.IsImpossible (values.said step.instr (at_of case.now step.from) (at_of case.now step.to))
        ((values_in case.now.claim.now).at (at_of case.now step.from)) }
{
    is_impossible(said_on(case, step), arcs(case.claim, step.from))
}

// Whether the trace of each register where the step leads is one behind the instruction.
fn are_rows_over(case: &WalkCase<'_>, step: Step) -> bool
    requires case { IsWalkCase case.now }
    requires step { IsStep case.now step }
    ensures { result ≡ true → (r : ℕ) → IsRegister r → walking.IsRowOver (values_in case.now.claim.now) (stacks_in case.now.claim.now)
        (cert case.now) (at_of case.now step.from) step.instr r ((cert case.now).row (at_of case.now step.to) r) }
{
    for r in 1..32u8 {
        if !is_row_over(case, step.instr, step.from, r, row_at(case, step.to, r)) {
            return false;
        }
    }
    true
}

// The same of each word of a row.
fn are_each_over(case: &WalkCase<'_>, step: Step, row: &[WordTrace]) -> bool
    requires case { IsWalkCase case.now }
    requires step { IsStep case.now step }
    ensures { result ≡ true → All (λ (x : WordTrace). walking.IsWordOver (values_in case.now.claim.now) (stacks_in case.now.claim.now)
        (cert case.now) (at_of case.now step.from) step.instr x.number (Some (trace_view x.trace))) row.now }
{
    for word in row {
        let (number, trace) = (word.number, word.trace);
        if !is_word_over(case, step.instr, step.from, number, Some(trace)) {
            return false;
        }
    }
    true
}

// The same of each word.
fn are_words_over(case: &WalkCase<'_>, step: Step) -> bool
    requires case { IsWalkCase case.now }
    requires step { IsStep case.now step }
    ensures { result ≡ true → (k : ℕ) → walking.IsWordOver (values_in case.now.claim.now) (stacks_in case.now.claim.now)
        (cert case.now) (at_of case.now step.from) step.instr k ((cert case.now).word (at_of case.now step.to) k) }
{
    are_each_over(case, step, words_at(case, step.to))
}

// All of a step that leads elsewhere than to the header.
fn are_over(case: &WalkCase<'_>, i: Instr, k: usize, n: usize) -> bool
    requires case { IsWalkCase case.now }
    requires from { k < length case.now.claim.now.graph.now.code.nodes }
    requires to { n < length case.now.claim.now.graph.now.code.nodes }
    ensures { result ≡ true → AreOver (values_in case.now.claim.now) (stacks_in case.now.claim.now) (cert case.now) (at_of case.now k) i
        (at_of case.now n) }
{
    let step = Step {
        instr: i,
        from: k,
        to: n,
    };
    if !are_rows_over(case, step) {
        return false;
    }
    if !are_words_over(case, step) {
        return false;
    }
    if !is_holder_over(case, i, k, holder_at(case, n)) {
        return false;
    }
    !is_touched(case, n) || is_touched_over(case, step)
}

// A step within the body.
fn is_step_so(case: &WalkCase<'_>, i: Instr, k: usize, n: usize) -> bool
    requires case { IsWalkCase case.now }
    requires from { k < length case.now.claim.now.graph.now.code.nodes }
    requires to { n < length case.now.claim.now.graph.now.code.nodes }
    ensures { result ≡ true → IsStepSo (values_in case.now.claim.now) (stacks_in case.now.claim.now) (cert case.now)
        case.now.note.now.header (at_of case.now k) i (at_of case.now n) }
{
    if n == case.header {
        return is_turn_over(
            case,
            Step {
                instr: i,
                from: k,
                to: n,
            },
        );
    }
    !is_body(case, n) || are_over(case, i, k, n)
}

// The same, where a state may come this way.
fn is_possible_so(case: &WalkCase<'_>, i: Instr, k: usize, n: usize) -> bool
    requires case { IsWalkCase case.now }
    requires from { k < length case.now.claim.now.graph.now.code.nodes }
    requires to { n < length case.now.claim.now.graph.now.code.nodes }
    ensures { result ≡ true → walking.IsPossible (values_in case.now.claim.now) (at_of case.now k) i (at_of case.now n) →
        IsStepSo (values_in case.now.claim.now) (stacks_in case.now.claim.now) (cert case.now) case.now.note.now.header (at_of case.now k) i
        (at_of case.now n) }
{
    let step = Step {
        instr: i,
        from: k,
        to: n,
    };
    is_never(case, step) || is_step_so(case, i, k, n)
}

// Whether the trace of each register is one behind the call.
fn are_rows_back(case: &WalkCase<'_>, call: Call, n: usize) -> bool
    requires case { IsWalkCase case.now }
    requires from { call.from < length case.now.claim.now.graph.now.code.nodes }
    requires entry { call.entry < length case.now.claim.now.graph.now.code.nodes }
    requires to { n < length case.now.claim.now.graph.now.code.nodes }
    requires instruction { text.instr_at (text_in case.now.claim.now) (at_of case.now call.from) ≡ Some call.instr }
    ensures { result ≡ true → (r : ℕ) → IsRegister r → walking.IsRowBack (text_in case.now.claim.now) (values_in case.now.claim.now)
        (stacks_in case.now.claim.now) (cert case.now) (at_of case.now call.from) (at_of case.now call.entry) r
        ((cert case.now).row (at_of case.now n) r) }
{
    for r in 1..32u8 {
        if !is_row_back(case, call, r, row_at(case, n, r)) {
            return false;
        }
    }
    true
}

// The same of each word of a row.
fn are_each_back(case: &WalkCase<'_>, call: Call, row: &[WordTrace]) -> bool
    requires case { IsWalkCase case.now }
    requires from { call.from < length case.now.claim.now.graph.now.code.nodes }
    requires entry { call.entry < length case.now.claim.now.graph.now.code.nodes }
    ensures { result ≡ true → All (λ (x : WordTrace). walking.IsWordBack (values_in case.now.claim.now) (stacks_in case.now.claim.now)
        (cert case.now) (at_of case.now call.from) (at_of case.now call.entry) x.number (Some (trace_view x.trace))) row.now }
{
    for word in row {
        let (number, trace) = (word.number, word.trace);
        if !is_word_back(case, call.from, call.entry, number, Some(trace)) {
            return false;
        }
    }
    true
}

// The same of each word.
fn are_words_back(case: &WalkCase<'_>, call: Call, n: usize) -> bool
    requires case { IsWalkCase case.now }
    requires from { call.from < length case.now.claim.now.graph.now.code.nodes }
    requires entry { call.entry < length case.now.claim.now.graph.now.code.nodes }
    requires to { n < length case.now.claim.now.graph.now.code.nodes }
    ensures { result ≡ true → (k : ℕ) → walking.IsWordBack (values_in case.now.claim.now) (stacks_in case.now.claim.now)
        (cert case.now) (at_of case.now call.from) (at_of case.now call.entry) k ((cert case.now).word (at_of case.now n) k) }
{
    are_each_back(case, call, words_at(case, n))
}

// All of a call that comes back elsewhere than to the header.
fn are_back(case: &WalkCase<'_>, call: Call, n: usize) -> bool
    requires case { IsWalkCase case.now }
    requires from { call.from < length case.now.claim.now.graph.now.code.nodes }
    requires entry { call.entry < length case.now.claim.now.graph.now.code.nodes }
    requires to { n < length case.now.claim.now.graph.now.code.nodes }
    requires instruction { text.instr_at (text_in case.now.claim.now) (at_of case.now call.from) ≡ Some call.instr }
    ensures { result ≡ true → AreBack (text_in case.now.claim.now) (values_in case.now.claim.now) (stacks_in case.now.claim.now)
        (cert case.now) (at_of case.now call.from) (at_of case.now call.entry) (at_of case.now n) }
{
    if !are_rows_back(case, call, n) {
        return false;
    }
    if !are_words_back(case, call, n) {
        return false;
    }
    if !is_holder_back(case, call, holder_at(case, n)) {
        return false;
    }
    !is_touched(case, n) || is_touched(case, call.from)
}

// A call within the body.
fn is_back_so(case: &WalkCase<'_>, call: Call, n: usize) -> bool
    requires case { IsWalkCase case.now }
    requires from { call.from < length case.now.claim.now.graph.now.code.nodes }
    requires entry { call.entry < length case.now.claim.now.graph.now.code.nodes }
    requires to { n < length case.now.claim.now.graph.now.code.nodes }
    requires instruction { text.instr_at (text_in case.now.claim.now) (at_of case.now call.from) ≡ Some call.instr }
    ensures { result ≡ true → IsBackSo (text_in case.now.claim.now) (values_in case.now.claim.now) (stacks_in case.now.claim.now)
        (cert case.now) case.now.note.now.header (at_of case.now call.from) (at_of case.now call.entry) (at_of case.now n) }
{
    if n == case.header {
        return is_turn_back(case, call);
    }
    !is_body(case, n) || are_back(case, call, n)
}

// An edge from node k to node n.
fn is_led_so(case: &WalkCase<'_>, k: usize, n: usize) -> bool
    requires case { IsWalkCase case.now }
    requires from { k < length case.now.claim.now.graph.now.code.nodes }
    requires to { n < length case.now.claim.now.graph.now.code.nodes }
    ensures { result ≡ true → IsLedSo (cert case.now) case.now.note.now.header (λ v. extent.in_extent case.now.note.now v)
        (at_of case.now k) (at_of case.now n) }
{
    if is_body(case, k) {
        return true;
    }
    if n == case.header {
        return !in_extent(case.note, address(case.claim, k));
    }
    !is_body(case, n)
}

// A call at node k of the function that begins at node h.
fn is_called_so(case: &WalkCase<'_>, k: usize, h: usize) -> bool
    requires case { IsWalkCase case.now }
    requires from { k < length case.now.claim.now.graph.now.code.nodes }
    requires entry { h < length case.now.claim.now.graph.now.code.nodes }
    ensures { result ≡ true → IsCalledSo (cert case.now) case.now.note.now.header (at_of case.now k) (at_of case.now h) }
{
    if is_body(case, h) && h != case.header {
        return false;
    }
    !is_body(case, k) || is_quiet(case, h)
}

// Whether node n is quiet where node k is.
fn is_quiet_on(case: &WalkCase<'_>, k: usize, n: usize) -> bool
    requires case { IsWalkCase case.now }
    requires from { k < length case.now.claim.now.graph.now.code.nodes }
    requires to { n < length case.now.claim.now.graph.now.code.nodes }
    ensures { result ≡ true → (cert case.now).quiet (at_of case.now k) ≡ true → (cert case.now).quiet (at_of case.now n) ≡ true }
{
    !is_quiet(case, k) || is_quiet(case, n)
}

// The same of an edge.
fn is_quiet_along(case: &WalkCase<'_>, k: usize, e: usize) -> bool
    requires case { IsWalkCase case.now }
    requires node { k < length case.now.claim.now.graph.now.code.nodes }
    requires edge { e < length case.now.claim.now.graph.now.code.edges }
    ensures { result ≡ true → (b : ℕ) → (graph case.now.claim.now.graph.now).target e ≡ Some b →
        (cert case.now).quiet (at_of case.now k) ≡ true → (cert case.now).quiet b ≡ true }
{
    match case.claim.graph.target(e) {
        Some(n) => is_quiet_on(case, k, n),
        None => true,
    }
}

// And of a call.
fn is_quiet_called(case: &WalkCase<'_>, k: usize, e: usize) -> bool
    requires case { IsWalkCase case.now }
    requires node { k < length case.now.claim.now.graph.now.code.nodes }
    requires edge { e < length case.now.claim.now.graph.now.code.edges }
    ensures { result ≡ true → (f : ℕ) → (graph case.now.claim.now.graph.now).callee e ≡ Some f →
        (cert case.now).quiet (at_of case.now k) ≡ true → (cert case.now).quiet ((graph case.now.claim.now.graph.now).entry f) ≡ true }
{
    match case.claim.graph.callee(e) {
        Some(f) => is_quiet_on(case, k, case.claim.graph.entry_node(f)),
        None => true,
    }
}

// Where an edge leads.
fn leads_so(case: &WalkCase<'_>, k: usize, e: usize) -> bool
    requires case { IsWalkCase case.now }
    requires node { k < length case.now.claim.now.graph.now.code.nodes }
    requires edge { e < length case.now.claim.now.graph.now.code.edges }
    ensures { result ≡ true → (b : ℕ) → (graph case.now.claim.now.graph.now).target e ≡ Some b →
        IsLedSo (cert case.now) case.now.note.now.header (λ v. extent.in_extent case.now.note.now v) (at_of case.now k) b }
{
    match case.claim.graph.target(e) {
        Some(n) => is_led_so(case, k, n),
        None => true,
    }
}

// What it calls.
fn calls_so(case: &WalkCase<'_>, k: usize, e: usize) -> bool
    requires case { IsWalkCase case.now }
    requires node { k < length case.now.claim.now.graph.now.code.nodes }
    requires edge { e < length case.now.claim.now.graph.now.code.edges }
    ensures { result ≡ true → (f : ℕ) → (graph case.now.claim.now.graph.now).callee e ≡ Some f →
        IsCalledSo (cert case.now) case.now.note.now.header (at_of case.now k) ((graph case.now.claim.now.graph.now).entry f) }
{
    match case.claim.graph.callee(e) {
        Some(f) => is_called_so(case, k, case.claim.graph.entry_node(f)),
        None => true,
    }
}

// What a step of the body does.
fn steps_so(case: &WalkCase<'_>, i: Instr, k: usize, e: usize) -> bool
    requires case { IsWalkCase case.now }
    requires node { k < length case.now.claim.now.graph.now.code.nodes }
    requires edge { e < length case.now.claim.now.graph.now.code.edges }
    ensures { result ≡ true → (b : ℕ) → (graph case.now.claim.now.graph.now).target e ≡ Some b
        → (graph case.now.claim.now.graph.now).callee e ≡ None →
        walking.IsPossible (values_in case.now.claim.now) (at_of case.now k) i b → IsStepSo (values_in case.now.claim.now) (stacks_in case.now.claim.now) (cert case.now) case.now.note.now.header (at_of case.now k) i b }
{
    match (case.claim.graph.callee(e), case.claim.graph.target(e)) {
        (None, Some(n)) => is_possible_so(case, i, k, n),
        _ => true,
    }
}

// And what a call of it does.
fn comes_back_so(case: &WalkCase<'_>, i: Instr, k: usize, e: usize) -> bool
    requires case { IsWalkCase case.now }
    requires node { k < length case.now.claim.now.graph.now.code.nodes }
    requires edge { e < length case.now.claim.now.graph.now.code.edges }
    requires instruction { text.instr_at (text_in case.now.claim.now) (at_of case.now k) ≡ Some i }
    ensures { result ≡ true → (f b : ℕ) → (graph case.now.claim.now.graph.now).callee e ≡ Some f
        → (graph case.now.claim.now.graph.now).target e ≡ Some b →
        IsBackSo (text_in case.now.claim.now) (values_in case.now.claim.now) (stacks_in case.now.claim.now) (cert case.now) case.now.note.now.header (at_of case.now k) ((graph case.now.claim.now.graph.now).entry f) b }
{
    match (case.claim.graph.callee(e), case.claim.graph.target(e)) {
        (Some(f), Some(n)) => {
            let call = Call {
                instr: i,
                from: k,
                entry: case.claim.graph.entry_node(f),
            };
            is_back_so(case, call, n)
        }
        _ => true,
    }
}

// Both, of an instruction.
fn is_sound(case: &WalkCase<'_>, i: Instr, k: usize, e: usize) -> bool
    requires case { IsWalkCase case.now }
    requires node { k < length case.now.claim.now.graph.now.code.nodes }
    requires edge { e < length case.now.claim.now.graph.now.code.edges }
    requires instruction { text.instr_at (text_in case.now.claim.now) (at_of case.now k) ≡ Some i }
    ensures { result ≡ true → IsSound case.now (graph case.now.claim.now.graph.now) (at_of case.now k) i e }
{
    if !steps_so(case, i, k, e) {
        return false;
    }
    comes_back_so(case, i, k, e)
}

// Where the loop is entered by a step, and a state may come this way.
fn is_started_or_never(case: &WalkCase<'_>, step: Step) -> bool
    requires case { IsWalkCase case.now }
    requires step { IsStep case.now step }
    ensures { result ≡ true → walking.IsPossible (values_in case.now.claim.now) (at_of case.now step.from) step.instr
        (at_of case.now step.to) → walking.IsStartedBy (values_in case.now.claim.now) (stacks_in case.now.claim.now) (cert case.now)
        (at_of case.now step.from) step.instr (at_of case.now step.to) }
{
    is_never(case, step) || is_started_by(case, step)
}

// The same of the instruction of node k.
fn is_started_from(case: &WalkCase<'_>, k: usize, n: usize) -> bool
    requires case { IsWalkCase case.now }
    requires from { k < length case.now.claim.now.graph.now.code.nodes }
    requires to { n < length case.now.claim.now.graph.now.code.nodes }
    ensures { result ≡ true → IsStartedFrom case.now (at_of case.now k) (at_of case.now n) }
{
    match instruction(case.claim, k) {
        Some(i) => is_started_or_never(
            case,
            Step {
                instr: i,
                from: k,
                to: n,
            },
        ),
        None => false,
    }
}

// Where a step leads, if it enters the loop.
fn is_step_entering(case: &WalkCase<'_>, k: usize, n: usize) -> bool
    requires case { IsWalkCase case.now }
    requires from { k < length case.now.claim.now.graph.now.code.nodes }
    requires to { n < length case.now.claim.now.graph.now.code.nodes }
    ensures { result ≡ true → IsStepEntering case.now (at_of case.now k) (at_of case.now n) }
{
    if n != case.header {
        return true;
    }
    if is_body(case, k) {
        return true;
    }
    is_started_from(case, k, n)
}

// Whether node n isn't the header, where a call comes back to it from elsewhere than the body.
fn is_back_elsewhere(case: &WalkCase<'_>, k: usize, n: usize) -> bool
    requires case { IsWalkCase case.now }
    requires from { k < length case.now.claim.now.graph.now.code.nodes }
    requires to { n < length case.now.claim.now.graph.now.code.nodes }
    ensures { result ≡ true → (cert case.now).body (at_of case.now k) ≡ false → at_of case.now n ≢ case.now.note.now.header }
{
    if n != case.header {
        return true;
    }
    is_body(case, k)
}

// Whether node n isn't the header.
fn is_elsewhere(case: &WalkCase<'_>, n: usize) -> bool
    requires case { IsWalkCase case.now }
    requires node { n < length case.now.claim.now.graph.now.code.nodes }
    ensures { result ≡ true → at_of case.now n ≢ case.now.note.now.header }
{
    if n == case.header {
        return false;
    }
    true
}

// What an edge calls, if the first access is known.
fn is_call_elsewhere(case: &WalkCase<'_>, e: usize) -> bool
    requires case { IsWalkCase case.now }
    requires edge { e < length case.now.claim.now.graph.now.code.edges }
    ensures { result ≡ true → (f : ℕ) → (graph case.now.claim.now.graph.now).callee e ≡ Some f →
        (graph case.now.claim.now.graph.now).entry f ≢ case.now.note.now.header }
{
    match case.claim.graph.callee(e) {
        Some(f) => is_elsewhere(case, case.claim.graph.entry_node(f)),
        None => true,
    }
}

// Where a call comes back to.
fn comes_back_elsewhere(case: &WalkCase<'_>, k: usize, e: usize) -> bool
    requires case { IsWalkCase case.now }
    requires node { k < length case.now.claim.now.graph.now.code.nodes }
    requires edge { e < length case.now.claim.now.graph.now.code.edges }
    ensures { result ≡ true → (f b : ℕ) → (graph case.now.claim.now.graph.now).callee e ≡ Some f
        → (graph case.now.claim.now.graph.now).target e ≡ Some b → (cert case.now).body (at_of case.now k) ≡ false →
        b ≢ case.now.note.now.header }
{
    match (case.claim.graph.callee(e), case.claim.graph.target(e)) {
        (Some(_), Some(n)) => is_back_elsewhere(case, k, n),
        _ => true,
    }
}

// Where a step leads.
fn steps_enter(case: &WalkCase<'_>, k: usize, e: usize) -> bool
    requires case { IsWalkCase case.now }
    requires node { k < length case.now.claim.now.graph.now.code.nodes }
    requires edge { e < length case.now.claim.now.graph.now.code.edges }
    ensures { result ≡ true → (b : ℕ) → (graph case.now.claim.now.graph.now).callee e ≡ None
        → (graph case.now.claim.now.graph.now).target e ≡ Some b → IsStepEntering case.now (at_of case.now k) b }
{
    match (case.claim.graph.callee(e), case.claim.graph.target(e)) {
        (None, Some(n)) => is_step_entering(case, k, n),
        _ => true,
    }
}

// All of them.
fn is_entering(case: &WalkCase<'_>, k: usize, e: usize) -> bool
    requires case { IsWalkCase case.now }
    requires node { k < length case.now.claim.now.graph.now.code.nodes }
    requires edge { e < length case.now.claim.now.graph.now.code.edges }
    ensures { result ≡ true → IsEntering case.now (graph case.now.claim.now.graph.now) (at_of case.now k) e }
{
    if !is_call_elsewhere(case, e) {
        return false;
    }
    if !comes_back_elsewhere(case, k, e) {
        return false;
    }
    steps_enter(case, k, e)
}

// The same, where the first access is known.
fn begins_so(case: &WalkCase<'_>, k: usize, e: usize) -> bool
    requires case { IsWalkCase case.now }
    requires node { k < length case.now.claim.now.graph.now.code.nodes }
    requires edge { e < length case.now.claim.now.graph.now.code.edges }
    ensures { result ≡ true → ((cert case.now).start ≡ None) ⊎
        IsEntering case.now (graph case.now.claim.now.graph.now) (at_of case.now k) e }
{
    has_no_start(case) || is_entering(case, k, e)
}

// Both, within the body.
fn is_sound_or_outside(case: &WalkCase<'_>, k: usize, e: usize) -> bool
    requires case { IsWalkCase case.now }
    requires node { k < length case.now.claim.now.graph.now.code.nodes }
    requires edge { e < length case.now.claim.now.graph.now.code.edges }
    ensures { result ≡ true → (cert case.now).body (at_of case.now k) ≡ true → (i : Instr) ×
        (text.instr_at (text_in case.now.claim.now) (at_of case.now k) ≡ Some i) ×
        IsSound case.now (graph case.now.claim.now.graph.now) (at_of case.now k) i e }
{
    if is_body(case, k) {
        match instruction(case.claim, k) {
            Some(i) => is_sound(case, i, k, e),
            None => false,
        }
    } else {
        true
    }
}

// All of an edge to whose source a run may come.
fn is_live_so(case: &WalkCase<'_>, k: usize, e: usize) -> bool
    requires case { IsWalkCase case.now }
    requires node { k < length case.now.claim.now.graph.now.code.nodes }
    requires edge { e < length case.now.claim.now.graph.now.code.edges }
    ensures { result ≡ true → IsLiveSo case.now (graph case.now.claim.now.graph.now) (at_of case.now k) e }
{
    if !leads_so(case, k, e) {
        return false;
    }
    if !calls_so(case, k, e) {
        return false;
    }
    if !begins_so(case, k, e) {
        return false;
    }
    is_sound_or_outside(case, k, e)
}

/// All of an edge.
pub fn is_edge_walked(case: &WalkCase<'_>, e: usize) -> bool
    requires case { IsWalkCase case.now }
    requires edge { e < length case.now.claim.now.graph.now.code.edges }
    ensures { result ≡ true → IsEdgeWalked case.now (graph case.now.claim.now.graph.now) e }
{
    let k = case.claim.graph.source(e);
    if !is_quiet_along(case, k, e) {
        return false;
    }
    if !is_quiet_called(case, k, e) {
        return false;
    }
    !is_live(case.claim, k) || is_live_so(case, k, e)
}
