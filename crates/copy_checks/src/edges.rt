//! What the code says of a copy, edge by edge.

ghost use Rattle.std.specs.Prelude.{◌≡◌, ◌≢◌, ◌<◌, length, true};
ghost use Rattle.copy_checks.specs.Checked as checked;

use crate::tables::{CopyCase, counts, is_ahead, is_body, is_extra, is_quiet, stands_for};
use loop_file::in_extent;

// Whether an edge to the header is a turn that the original counts, too, or comes from outside the extent.
fn is_turn(case: &CopyCase<'_>, k: usize) -> bool
    requires case { checked.IsCase case.now }
    requires node { k < length case.now.graph.now.code.nodes }
    ensures { result ≡ true → checked.IsTurnAt case.now k }
{
    if !is_body(case.table, k) {
        return !in_extent(case.note, case.graph.node(k));
    }
    if !is_extra(case.meant, k) || is_ahead(case.table, k) {
        return true;
    }
    !in_extent(case.note, case.graph.node(k))
}

// Whether an edge within the body goes on with what the original is ahead.
fn is_along(case: &CopyCase<'_>, k: usize, n: usize) -> bool
    requires case { checked.IsCase case.now }
    requires node { k < length case.now.graph.now.code.nodes }
    requires target { n < length case.now.graph.now.code.nodes }
    ensures { result ≡ true → checked.IsAlongAt case.now k n }
{
    if !is_body(case.table, n) {
        return true;
    }
    if !is_body(case.table, k) {
        return false;
    }
    if !is_ahead(case.table, n) || is_ahead(case.table, k) {
        return true;
    }
    !is_extra(case.meant, k) && stands_for(case.meant, n, case.old.header)
}

// Whether the original counts a turn, where it comes to its header.
fn is_coming(case: &CopyCase<'_>, k: usize, n: usize) -> bool
    requires case { checked.IsCase case.now }
    requires node { k < length case.now.graph.now.code.nodes }
    requires target { n < length case.now.graph.now.code.nodes }
    ensures { result ≡ true → checked.IsComingAt case.now k n }
{
    if !is_body(case.table, k) || !is_body(case.table, n) {
        return true;
    }
    if is_extra(case.meant, k) {
        return true;
    }
    if !stands_for(case.meant, n, case.old.header) {
        return true;
    }
    counts(case.meant, case.old, k)
}

// Whether quiet code stays quiet on the way from node k to node n.
fn is_quiet_on(case: &CopyCase<'_>, k: usize, n: usize) -> bool
    requires case { checked.IsCase case.now }
    requires node { k < length case.now.graph.now.code.nodes }
    requires target { n < length case.now.graph.now.code.nodes }
    ensures { result ≡ true → checked.IsQuietAt case.now k n }
{
    !is_quiet(case.table, k) || is_quiet(case.table, n)
}

// What is to say of an edge by its ends.
fn is_step(case: &CopyCase<'_>, k: usize, n: usize) -> bool
    requires case { checked.IsCase case.now }
    requires node { k < length case.now.graph.now.code.nodes }
    requires target { n < length case.now.graph.now.code.nodes }
    ensures turn { result ≡ true → n ≡ case.now.header → checked.IsTurnAt case.now k }
    ensures along { result ≡ true → n ≢ case.now.header → checked.IsAlongAt case.now k n }
{
    if n == case.header {
        is_turn(case, k)
    } else {
        is_along(case, k, n)
    }
}

// All of an edge from node k to node n.
fn is_led(case: &CopyCase<'_>, k: usize, n: usize) -> bool
    requires case { checked.IsCase case.now }
    requires node { k < length case.now.graph.now.code.nodes }
    requires target { n < length case.now.graph.now.code.nodes }
    ensures { result ≡ true → checked.IsLedAt case.now k n }
{
    if !is_step(case, k, n) {
        return false;
    }
    if !is_coming(case, k, n) {
        return false;
    }
    is_quiet_on(case, k, n)
}

// What is to say of a call of the function that begins at node h.
fn is_called(case: &CopyCase<'_>, k: usize, h: usize) -> bool
    requires case { checked.IsCase case.now }
    requires node { k < length case.now.graph.now.code.nodes }
    requires entry { h < length case.now.graph.now.code.nodes }
    ensures { result ≡ true → checked.IsCalledAt case.now k h }
{
    if is_body(case.table, h) && h != case.header {
        return false;
    }
    if is_body(case.table, k) && !is_quiet(case.table, h) {
        return false;
    }
    is_quiet_on(case, k, h)
}

// Of an edge that leads to a node.
fn leads_so(case: &CopyCase<'_>, e: usize) -> bool
    requires case { checked.IsCase case.now }
    requires edge { e < length case.now.graph.now.code.edges }
    ensures { result ≡ true → checked.IsLedSo case.now e }
{
    let k = case.graph.source(e);
    match case.graph.target(e) {
        Some(n) => is_led(case, k, n),
        None => true,
    }
}

// Of a call.
fn calls_so(case: &CopyCase<'_>, e: usize) -> bool
    requires case { checked.IsCase case.now }
    requires edge { e < length case.now.graph.now.code.edges }
    ensures { result ≡ true → checked.IsCalledSo case.now e }
{
    let k = case.graph.source(e);
    match case.graph.callee(e) {
        Some(f) => is_called(case, k, case.graph.entry_node(f)),
        None => true,
    }
}

// All of an edge.
fn is_edge_so(case: &CopyCase<'_>, e: usize) -> bool
    requires case { checked.IsCase case.now }
    requires edge { e < length case.now.graph.now.code.edges }
    ensures { result ≡ true → checked.IsEdgeSo case.now e }
{
    if !leads_so(case, e) {
        return false;
    }
    calls_so(case, e)
}

/// What it says of each edge.
pub fn are_edges_so(case: &CopyCase<'_>) -> bool
    requires { checked.IsCase case.now }
    ensures { result ≡ true → checked.AreEdgesSo case.now }
{
    for e in 0..case.graph.edge_count() {
        if !is_edge_so(case, e) {
            return false;
        }
    }
    true
}

// Whether a quiet node doesn't stand for the header of the original.
fn is_apart(case: &CopyCase<'_>, k: usize) -> bool
    requires case { checked.IsCase case.now }
    requires node { k < length case.now.graph.now.code.nodes }
    ensures { result ≡ true → checked.IsApart case.now k }
{
    !is_quiet(case.table, k) || !stands_for(case.meant, k, case.old.header)
}

/// Whether none does.
pub fn are_apart(case: &CopyCase<'_>) -> bool
    requires { checked.IsCase case.now }
    ensures { result ≡ true → checked.AreApart case.now }
{
    for k in 0..case.graph.node_count() {
        if !is_apart(case, k) {
            return false;
        }
    }
    true
}
