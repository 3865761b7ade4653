//! The headers of loops in the order of their addresses.

ghost use Rattle.std.specs.Prelude.{◌≡◌, ℕ, ◌≤◌, ◌<◌, length, filter, IfOk, slice_index_or};
ghost use Rattle.std.specs.List.Sorted.{IsNonDecreasingBy};
ghost use Rattle.keep_monitor.specs.declared.headers.Header.{Header};
ghost use Rattle.keep_monitor.specs.Headers.{AreSortedHeaders, headers_of, is_of};

use loop_file::LoopNotes;
use scale_base::NoMemory;
use std::alloc::Global;

/// The address of a loop's header, and the loop's number, from 0 on.
#[derive(Clone, Copy, Drop)]
pub struct Header {
    pub at: u32,
    pub number: usize,
}

fn list_headers(alloc: Global, notes: &LoopNotes) -> Result<Vec<Header>, NoMemory>
    ensures { IfOk result (λ headers. headers.items ≡ headers_of notes.now (length notes.now)) }
{
    let mut headers = Vec::new(alloc);
    for number in 0..notes.count() {
        headers.push(Header {
            at: notes.note(number).header,
            number,
        })?;
    }
    Ok(headers)
}

/// The headers of all loops by their addresses; loops of one header in their order.
pub fn sorted_headers(alloc: Global, notes: &LoopNotes) -> Result<Vec<Header>, NoMemory>
    ensures { IfOk result (λ headers. AreSortedHeaders notes.now headers.items) }
{
    let mut headers = list_headers(alloc, notes)?;
    headers.sort_by(|a, b| a.at.cmp(&b.at))?;
    Ok(headers)
}

// How many headers stand below an address.
fn below(headers: &[Header], at: u32) -> usize
    requires { IsNonDecreasingBy (λ (h : Header). h.at) headers.now }
    ensures bound { result ≤ length headers.now }
    ensures before { (k : ℕ) (d : Header) → k < result → (slice_index_or headers.now k d).at < at }
    ensures behind { (k : ℕ) (d : Header) → result ≤ k → k < length headers.now → at ≤ (slice_index_or headers.now k d).at }
{
    headers.partition_point(|header| header.at < at)
}

// How many headers at the front stand at an address, below which none stands.
fn up_to(headers: &[Header], at: u32) -> usize
    requires rise { IsNonDecreasingBy (λ (h : Header). h.at) headers.now }
    requires above { (k : ℕ) (d : Header) → k < length headers.now → at ≤ (slice_index_or headers.now k d).at }
    ensures bound { result ≤ length headers.now }
    ensures before { (k : ℕ) (d : Header) → k < result → (slice_index_or headers.now k d).at ≤ at }
    ensures behind { (k : ℕ) (d : Header) → result ≤ k → k < length headers.now → at < (slice_index_or headers.now k d).at }
{
    headers
        .iter()
        .position(|header| header.at != at)
        .unwrap_or(headers.len())
}

/// The headers at an address. It takes logarithmic time in all headers, and linear time in those at the address.
pub fn headers_at(headers: &[Header], at: u32) -> &[Header]
    requires { IsNonDecreasingBy (λ (h : Header). h.at) headers.now }
    ensures { result.now ≡ filter (is_of at) headers.now }
{
    let first = below(headers, at);
    let rest = &headers[first..];
    &rest[..up_to(rest, at)]
}
