//! The rows and the steps of a script.

ghost use Rattle.std.specs.Prelude.{◌≡◌};
ghost use Rattle.script_file.specs.Faults.{Gives};
ghost use Rattle.script_file.specs.Outline.{outline_view};
ghost use Rattle.script_file.specs.Contents.{contents_view, contents_at};
ghost use Rattle.serde_json.specs.Events.{items_len};
ghost use Rattle.serde_json.specs.View.{items_view};

use crate::fault::ScriptFault;
use crate::outline::Outline;
use crate::rows::{FittingRow, partitions};
use crate::step::{ScriptStep, steps};
use serde_json::Value;
use std::alloc::Global;

/// What a script has beside its job.
#[derive(Drop)]
pub struct Contents {
    /// The rows of each partition, the oldest first.
    pub partitions: Vec<Vec<FittingRow>>,
    /// The steps, in order.
    pub steps: Vec<ScriptStep>,
}

fn count(items: &[Value]) -> usize
    ensures { result ≡ items_len (items_view items.now) }
{
    items.len()
}

/// The rows and the steps of a script for a job with so many source tasks, or the first fault: of
/// the number of partitions, of the rows, of the steps.
#[tactic(auto, unfolding(crate::specs::Contents::contents_at))]
pub fn contents_of(
    alloc: Global,
    outline: &Outline<'_>,
    sources: u32,
) -> Result<Contents, ScriptFault>
    ensures { Gives contents_view result (contents_at sources (outline_view outline.now)) }
{
    let got = count(outline.partitions);
    if got != sources as usize {
        return Err(ScriptFault::Inputs { want: sources, got });
    }
    let partitions = partitions(alloc, outline.partitions)?;
    let steps = steps(alloc, outline.steps)?;
    Ok(Contents { partitions, steps })
}
