//! The logs of a part, judged.

ghost use Rattle.std.specs.Prelude.{◌≡◌, ◌↔◌, IsTrue, All, Some, map, slice_get};
ghost use Rattle.abs_codec.specs.Spelling.{Fits};
ghost use Rattle.job_state.specs.Held.{marked_inputs};
ghost use Rattle.engine_model.specs.Keeps.{LogsSuit};

use abs_codec::{Codec, Items};
use job_graph::Graph;

/// Whether the log at this place is the channel's.
fn is_log_of<R>(logs: &[(u32, Items<R>)], place: usize, channel: u32) -> bool
    ensures { IsTrue result ↔ (slice_get (map (λ log. log.0) logs.now) place ≡ Some channel) }
{
    logs.get(place).is_some_and(|log| log.0 == channel)
}

/// Whether the logs are one for each marked input of the task, in rising number.
fn are_of_marked<R>(graph: &Graph, task: u32, logs: &[(u32, Items<R>)]) -> bool
    ensures { IsTrue result ↔ (map (λ log. log.0) logs.now ≡ marked_inputs graph.now task) }
{
    let mut met = 0;
    for number in graph.inputs(task) {
        if graph.is_marked(*number) {
            if !is_log_of(logs, met, *number) {
                return false;
            }
            met += 1;
        }
    }
    met == logs.len()
}

/// Whether each record fits.
fn all_fit<R: Codec>(records: &[R]) -> bool
    ensures { IsTrue result ↔ All (Fits R.HasSpelling R.spelling) records.now }
{
    records.iter().all(|record| record.fits())
}

/// Whether each logged record fits.
fn are_fit<R: Codec>(logs: &[(u32, Items<R>)]) -> bool
    ensures { IsTrue result ↔ All (λ log. All (Fits R.HasSpelling R.spelling) log.1) logs.now }
{
    logs.iter().all(|log| all_fit(log.1.as_slice()))
}

/// Whether the logs are those of the task's marked inputs, and each logged record fits.
pub(crate) fn logs_suit<R: Codec>(graph: &Graph, task: u32, logs: &[(u32, Items<R>)]) -> bool
    ensures { IsTrue result ↔ LogsSuit (Fits R.HasSpelling R.spelling) graph.now task logs.now }
{
    are_of_marked(graph, task, logs) && are_fit(logs)
}
