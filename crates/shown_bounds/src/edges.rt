//! What the code says of a certificate, edge by edge.

ghost use Rattle.std.specs.Prelude.{◌≡◌, ◌<◌, length, true};
ghost use Rattle.shown_bounds.specs.Certified as certified;

use crate::certificates::{Case, adds, behind, is_body, is_quiet, offset};
use crate::counters::{has_registers, is_added, is_kept_by};
use crate::reading::{is_live, node_instr};
use loop_file::in_extent;

// Whether an edge to the header is a turn that raises the counter, or comes from outside the extent.
fn is_turn(case: &Case<'_>, k: usize) -> bool
    requires case { certified.IsCase case.now }
    requires node { k < length case.now.claim.now.graph.now.code.nodes }
    ensures { result ≡ true → certified.IsTurnAt case.now k }
{
    let certificate = case.certificate;
    if !is_body(certificate, k) {
        return !in_extent(case.note, case.claim.graph.node(k));
    }
    let raised = behind(certificate, k);
    certificate.least <= raised && u64::from(raised) + u64::from(certificate.width) < 4_294_967_296
}

// Whether an edge within the body goes on with what has been added.
fn is_along(case: &Case<'_>, k: usize, n: usize) -> bool
    requires case { certified.IsCase case.now }
    requires node { k < length case.now.claim.now.graph.now.code.nodes }
    requires target { n < length case.now.claim.now.graph.now.code.nodes }
    ensures { result ≡ true → certified.IsAlongAt case.now k n }
{
    let certificate = case.certificate;
    if !is_body(certificate, n) {
        return true;
    }
    is_body(certificate, k) && offset(certificate, n) == behind(certificate, k)
}

// What is to say of an edge to node n.
fn is_led(case: &Case<'_>, k: usize, n: usize) -> bool
    requires case { certified.IsCase case.now }
    requires node { k < length case.now.claim.now.graph.now.code.nodes }
    requires target { n < length case.now.claim.now.graph.now.code.nodes }
    ensures { result ≡ true → certified.IsLedAt case.now k n }
{
    if n == case.header {
        is_turn(case, k)
    } else {
        is_along(case, k, n)
    }
}

// Whether the instruction at node k adds what the certificate says.
fn is_counted(case: &Case<'_>, k: usize) -> bool
    requires case { certified.IsCase case.now }
    requires node { k < length case.now.claim.now.graph.now.code.nodes }
    ensures { result ≡ true → certified.IsCountedAt case.now k }
{
    let certificate = case.certificate;
    match node_instr(case.claim, k) {
        Some(i) => {
            let added = adds(certificate, k);
            is_added(case.claim, certificate.counter, i, k, added)
        }
        None => false,
    }
}

// Whether the call at node k of the function that begins at node h keeps the counter.
fn is_kept(case: &Case<'_>, k: usize, h: usize) -> bool
    requires case { certified.IsCase case.now }
    requires node { k < length case.now.claim.now.graph.now.code.nodes }
    requires entry { h < length case.now.claim.now.graph.now.code.nodes }
    ensures { result ≡ true → certified.IsKeptAt case.now k h }
{
    match node_instr(case.claim, k) {
        Some(i) => is_kept_by(case.claim, case.certificate.counter, i, k, h),
        None => false,
    }
}

// What is to say of a call of the function that begins at node h.
fn is_called_so(case: &Case<'_>, k: usize, h: usize) -> bool
    requires case { certified.IsCase case.now }
    requires node { k < length case.now.claim.now.graph.now.code.nodes }
    requires entry { h < length case.now.claim.now.graph.now.code.nodes }
    ensures { result ≡ true → certified.IsCalledAt case.now k h }
{
    let certificate = case.certificate;
    if is_body(certificate, h) && h != case.header {
        return false;
    }
    if !is_body(certificate, k) {
        return true;
    }
    is_quiet(certificate, h) && adds(certificate, k) == 0 && is_kept(case, k, h)
}

// Whether quiet code stays quiet on the way from node k to node n.
fn is_quiet_on(case: &Case<'_>, k: usize, n: usize) -> bool
    requires case { certified.IsCase case.now }
    requires node { k < length case.now.claim.now.graph.now.code.nodes }
    requires target { n < length case.now.claim.now.graph.now.code.nodes }
    ensures { result ≡ true → certified.IsQuietAt case.now k n }
{
    let certificate = case.certificate;
    !is_quiet(certificate, k) || is_quiet(certificate, n)
}

// Of an edge that leads to a node.
fn leads_so(case: &Case<'_>, e: usize) -> bool
    requires case { certified.IsCase case.now }
    requires edge { e < length case.now.claim.now.graph.now.code.edges }
    ensures { result ≡ true → certified.IsLedSo case.now e }
{
    let graph = case.claim.graph;
    let k = graph.source(e);
    match graph.target(e) {
        Some(n) => is_led(case, k, n),
        None => true,
    }
}

// Of a step that is no call.
fn steps_so(case: &Case<'_>, e: usize) -> bool
    requires case { certified.IsCase case.now }
    requires edge { e < length case.now.claim.now.graph.now.code.edges }
    ensures { result ≡ true → certified.IsStepSo case.now e }
{
    let graph = case.claim.graph;
    let k = graph.source(e);
    if !is_body(case.certificate, k) {
        return true;
    }
    match (graph.callee(e), graph.target(e)) {
        (None, Some(_)) => is_counted(case, k),
        _ => true,
    }
}

// Of a call.
fn calls_so(case: &Case<'_>, e: usize) -> bool
    requires case { certified.IsCase case.now }
    requires edge { e < length case.now.claim.now.graph.now.code.edges }
    ensures { result ≡ true → certified.IsCalledSo case.now e }
{
    let graph = case.claim.graph;
    let k = graph.source(e);
    match graph.callee(e) {
        Some(f) => is_called_so(case, k, graph.entry_node(f)),
        None => true,
    }
}

// Of quiet code.
fn is_quiet_along(case: &Case<'_>, e: usize) -> bool
    requires case { certified.IsCase case.now }
    requires edge { e < length case.now.claim.now.graph.now.code.edges }
    ensures { result ≡ true → certified.IsQuietAlong case.now e }
{
    let graph = case.claim.graph;
    let k = graph.source(e);
    match graph.target(e) {
        Some(n) => is_quiet_on(case, k, n),
        None => true,
    }
}

fn is_quiet_called(case: &Case<'_>, e: usize) -> bool
    requires case { certified.IsCase case.now }
    requires edge { e < length case.now.claim.now.graph.now.code.edges }
    ensures { result ≡ true → certified.IsQuietCalled case.now e }
{
    let graph = case.claim.graph;
    let k = graph.source(e);
    match graph.callee(e) {
        Some(f) => is_quiet_on(case, k, graph.entry_node(f)),
        None => true,
    }
}

// Of an edge to whose source a run may come.
fn is_live_so(case: &Case<'_>, e: usize) -> bool
    requires case { certified.IsCase case.now }
    requires edge { e < length case.now.claim.now.graph.now.code.edges }
    ensures { result ≡ true → certified.IsLiveSo case.now e }
{
    if !leads_so(case, e) {
        return false;
    }
    if !steps_so(case, e) {
        return false;
    }
    calls_so(case, e)
}

// All of an edge.
fn is_edge_certified(case: &Case<'_>, e: usize) -> bool
    requires case { certified.IsCase case.now }
    requires edge { e < length case.now.claim.now.graph.now.code.edges }
    ensures { result ≡ true → certified.IsEdgeCertified case.now e }
{
    if !is_quiet_along(case, e) {
        return false;
    }
    if !is_quiet_called(case, e) {
        return false;
    }
    let k = case.claim.graph.source(e);
    if !is_live(case.claim.table, k) {
        return true;
    }
    is_live_so(case, e)
}

// What it says of each edge.
fn are_edges_certified(case: &Case<'_>) -> bool
    requires { certified.IsCase case.now }
    ensures { result ≡ true → certified.AreEdgesCertified case.now }
{
    for e in 0..case.claim.graph.edge_count() {
        if !is_edge_certified(case, e) {
            return false;
        }
    }
    true
}

// What the code says of the header, and of the start of a run.
fn is_begun(case: &Case<'_>) -> bool
    requires { certified.IsCase case.now }
    ensures { result ≡ true → certified.IsBegun case.now }
{
    let certificate = case.certificate;
    let Some(k) = case.claim.graph.find(case.claim.view.entry()) else {
        return false;
    };
    if is_body(certificate, k) && k != case.header {
        return false;
    }
    if !has_registers(certificate.counter) {
        return false;
    }
    if is_quiet(certificate, case.header) {
        return false;
    }
    is_body(certificate, case.header) && offset(certificate, case.header) == 0
}

/// Whether the code says all that a certificate needs.
pub fn is_certified(case: &Case<'_>) -> bool
    requires { certified.IsCase case.now }
    ensures { result ≡ true → certified.IsCertified case.now }
{
    if !is_begun(case) {
        return false;
    }
    are_edges_certified(case)
}
