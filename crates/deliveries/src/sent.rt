//! What a task sends, before it is told its channels.

ghost use Rattle.std.specs.Prelude.{◌≡◌, IfOk};
ghost use Rattle.deliveries.specs.Deliveries.{on_first};

use abs_codec::NoMemory;
use std::alloc::Global;

/// What a task sends, in the order of sending.
#[derive(Drop)]
pub enum Sent<R> {
    /// Records, each with its port.
    Each(Vec<(u32, R)>),
    /// Records that are all sent on the first port.
    Together(Vec<R>),
}

/// These records, each with the first port.
pub fn with_first_port<R: Drop>(alloc: Global, rows: Vec<R>) -> Result<Vec<(u32, R)>, NoMemory>
    ensures { IfOk result (λ sent. sent.items ≡ on_first rows.items) }
{
    let mut sent = Vec::with_capacity(alloc, rows.len())?;
    for row in rows {
        sent.push((0, row))?;
    }
    Ok(sent)
}
