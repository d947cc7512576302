//! The tasks in the order of their vertices.

ghost use Rattle.std.specs.Prelude.{◌≡◌, ◌+◌, ◌<◌, ◌^◌, ◌++◌, ℕ, All, OnOk, IfOk, length, map, sum, slice_index};
ghost use Rattle.std.specs.List.{range_with_len};
ghost use Rattle.job_graph.specs.Expansion.{block, blocks, first_task};

use std::alloc::{AllocError, Global};

/// The number of each vertex's subtask 0.
pub(crate) fn first_tasks(alloc: Global, parallelisms: &[u32]) -> Result<Vec<u32>, AllocError>
    requires small { sum parallelisms.now < 2 ^ 31 }
    ensures len { IfOk result (λ v. length v.items ≡ length parallelisms.now) }
    ensures each { IfOk result (λ v. (i : ℕ) → i < length parallelisms.now
        → slice_index v.items i ≡ first_task parallelisms.now i) }
{
    let mut firsts = Vec::new(alloc);
    let mut total = 0u32;
    for count in parallelisms {
        firsts.push(total)?;
        total += *count;
    }
    Ok(firsts)
}

fn push_from(order: &mut Vec<u32>, first: u32, count: u32) -> Result<(), AllocError>
    requires { first + count < 2 ^ 32 }
    ensures { OnOk result (order.new.items ≡ order.old.items
        ++ map (λ i. first + i) (range_with_len 0 count)) }
{
    for i in 0..count {
        order.push(first + i)?;
    }
    Ok(())
}

fn push_block(
    order: &mut Vec<u32>,
    parallelisms: &[u32],
    firsts: &[u32],
    vertex: usize,
) -> Result<(), AllocError>
    requires small { sum parallelisms.now < 2 ^ 31 }
    requires len { length firsts.now ≡ length parallelisms.now }
    requires firsts { (i : ℕ) → i < length parallelisms.now
        → slice_index firsts.now i ≡ first_task parallelisms.now i }
    requires vertex { vertex < length parallelisms.now }
    ensures { OnOk result (order.new.items ≡ order.old.items ++ block parallelisms.now vertex) }
{
    push_from(order, firsts[vertex], parallelisms[vertex])
}

/// The subtasks of the vertices, one vertex after another.
pub(crate) fn blocks(
    alloc: Global,
    parallelisms: &[u32],
    firsts: &[u32],
    vertices: &[usize],
) -> Result<Vec<u32>, AllocError>
    requires small { sum parallelisms.now < 2 ^ 31 }
    requires len { length firsts.now ≡ length parallelisms.now }
    requires firsts { (i : ℕ) → i < length parallelisms.now
        → slice_index firsts.now i ≡ first_task parallelisms.now i }
    requires within { All (λ v. v < length parallelisms.now) vertices.now }
    ensures { IfOk result (λ v. v.items ≡ blocks parallelisms.now vertices.now) }
{
    let mut order = Vec::new(alloc);
    for vertex in vertices {
        push_block(&mut order, parallelisms, firsts, *vertex)?;
    }
    Ok(order)
}
