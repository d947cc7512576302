//! The order of vertices, and the cycles that leave none.

ghost use Rattle.std.specs.Prelude.{◌≡◌, ◌<◌, ℕ, true, false, length, slice_index_or, List, ◌++◌, filter, IsPermutation, IfOk, IfSome, IfNone};
ghost use Rattle.std.specs.List.{flat_map, range_with_len};
ghost use Rattle.job_graph.specs.Order.{at, has_input_from, is_ready, rest, AreLeft, IsInOrder};

use job_spec::EdgeSpec;
use std::alloc::{AllocError, Global};

pub(crate) fn is_left(left: &[bool], v: usize) -> bool
    ensures { result ≡ at left.now v }
{
    v < left.len() && left[v]
}

fn has_input_from(edges: &[EdgeSpec], left: &[bool], v: usize) -> bool
    ensures { result ≡ has_input_from edges.now (at left.now) v }
{
    edges
        .iter()
        .any(|e| !e.back && (e.to == v && is_left(left, e.from)))
}

fn is_ready(edges: &[EdgeSpec], left: &[bool], v: usize) -> bool
    ensures { result ≡ is_ready edges.now (at left.now) v }
{
    is_left(left, v) && !has_input_from(edges, left, v)
}

/// The first vertex that is ready.
fn next_of(edges: &[EdgeSpec], left: &[bool]) -> Option<usize>
    ensures within { IfSome result (λ v. v < length left.now) }
    ensures ready { IfSome result (λ v. is_ready edges.now (at left.now) v ≡ true) }
    ensures first { IfSome result (λ v. (u : ℕ) → u < v
        → is_ready edges.now (at left.now) u ≡ false) }
    ensures none { IfNone result ((u : ℕ) → u < length left.now
        → is_ready edges.now (at left.now) u ≡ false) }
{
    for v in 0..left.len() {
        if is_ready(edges, left, v) {
            return Some(v);
        }
    }
    None
}

/// Takes the vertices in order, as far as there is one, and says which of them are left.
pub(crate) fn in_order(
    alloc: Global,
    n: usize,
    edges: &[EdgeSpec],
) -> Result<(Vec<usize>, Vec<bool>), AllocError>
    ensures left { IfOk result (λ r. AreLeft n edges.now (at r.1.items)) }
    ensures order { IfOk result (λ r. IsInOrder n edges.now r.0.items) }
    ensures apart { IfOk result (λ r. (v : ℕ) → at r.1.items v ≡ rest n r.0.items v) }
    ensures len { IfOk result (λ r. length r.1.items ≡ n) }
    // Each vertex is taken once or left: what stands at all of them is what stands at these.
    ensures whole { IfOk result (λ r. (f : ℕ → List ℕ)
        → IsPermutation (flat_map f (range_with_len 0 n))
        (flat_map f r.0.items ++ flat_map f (filter (at r.1.items) (range_with_len 0 n)))) }
{
    let mut order = Vec::new(alloc);
    let mut left = vec![in alloc; true; n]?;
    while let Some(v) = next_of(edges, &left) {
        order.push(v)?;
        left[v] = false;
    }
    Ok((order, left))
}
