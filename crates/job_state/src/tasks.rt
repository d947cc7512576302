//! The tasks of an attempt.

ghost use Rattle.std.specs.Prelude.{◌≡◌, ◌<◌, ℕ, List, [], length, replicate, slice_get, slice_set, drop, None, Some, Err, IfOk, OnOk, OnErr};
ghost use Rattle.std.specs.Option.{option_copied};
ghost use Rattle.abs_codec.specs.Same.{EqualIsSame};
ghost use Rattle.commit_sink.specs.Sink.{Sinking};
ghost use Rattle.keyed_state.specs.declared.comparing.SetFault.TheVariants as SetFault;
ghost use Rattle.task_part.specs.declared.part.Part.{Part};
ghost use Rattle.task_part.specs.declared.part.Part.TheVariants as Part;
ghost use Rattle.task_part.specs.Spelling.{logs_now, part_spelling, PartIsSpelled};
ghost use Rattle.job_state.specs.declared.holding.Holding.{Holding};
ghost use Rattle.job_state.specs.declared.holding.Holding.TheVariants as Holding;
ghost use Rattle.std.specs.List.Sorted.{IsStrictlySortedBy};
ghost use Rattle.std.specs.Map.{keys_of};
ghost use Rattle.job_state.specs.AtOnce.{HaveExpected, KeepsAll};
ghost use Rattle.job_state.specs.Held.{Keeps, with_logs};
ghost use Rattle.job_state.specs.Inside.{holdings_of, copies_of, part_in};

use crate::holding::Holding;
use crate::task;
use crate::task::Task;
use abs_codec::{Codec, Items, NoMemory};
use bytes::Bytes;
use commit_sink::Sink;
use keyed_state::{Seen, SetFault};
use operator_state::CopyWork;
use operators::Operator;
use std::alloc::Global;

/// Tasks that hold these, and have not copied.
pub(crate) fn fresh_tasks<R: Codec, K: Codec + Ord, S: Codec>(
    alloc: Global,
    holdings: Vec<Holding<K, S>>,
) -> Result<Vec<Task<R, K, S>>, NoMemory>
    ensures holdings { IfOk result (λ tasks. holdings_of tasks.items ≡ holdings.items) }
    ensures copies { IfOk result (λ tasks. copies_of tasks.items
        ≡ replicate (length holdings.items) None) }
{
    let mut tasks = Vec::new(alloc);
    for holding in holdings {
        tasks.push(Task::new(alloc, holding)?)?;
    }
    Ok(tasks)
}

/// No task has copied. It takes no memory.
pub(crate) fn clear<R: Codec, K: Codec + Ord, S: Codec>(tasks: &mut [Task<R, K, S>])
    ensures holdings { holdings_of tasks.new ≡ holdings_of tasks.old }
    ensures copies { copies_of tasks.new ≡ replicate (length (copies_of tasks.old)) None }
{
    for task in tasks {
        task.forget();
    }
}

/// A source's offset becomes this one.
pub(crate) fn advance<R: Codec, K: Codec + Ord, S: Codec>(
    tasks: &mut [Task<R, K, S>],
    task: u32,
    offset: u64,
)
    requires there { task < length tasks.old }
    requires holds { (before : ℕ) × (slice_get (holdings_of tasks.old) task
        ≡ Some (Holding.Source before)) }
    ensures holdings { holdings_of tasks.new
        ≡ slice_set (holdings_of tasks.old) task (Holding.Source offset) }
    ensures copies { copies_of tasks.new ≡ copies_of tasks.old }
{
    tasks[task as usize].advance(offset);
}

/// A source, which holds this offset, has copied it. It takes no memory.
pub(crate) fn copy_offset<R: Codec, K: Codec + Ord, S: Codec>(
    alloc: Global,
    tasks: &mut [Task<R, K, S>],
    task: u32,
    offset: u64,
)
    requires there { task < length tasks.old }
    requires holds { slice_get (holdings_of tasks.old) task ≡ Some (Holding.Source offset) }
    ensures holdings { holdings_of tasks.new ≡ holdings_of tasks.old }
    ensures copies { copies_of tasks.new
        ≡ slice_set (copies_of tasks.old) task (Some (Part.Source offset)) }
{
    tasks[task as usize] = Task::copied_source(alloc, offset);
}

/// An operator copies its states.
pub(crate) fn copy_states<R: Codec, K: Codec + Ord, S: Codec>(
    tasks: &mut [Task<R, K, S>],
    task: u32,
) -> Result<(), NoMemory>
    requires there { task < length tasks.old }
    requires holds { (entries : List (K × S)) × (slice_get (holdings_of tasks.old) task
        ≡ Some (Holding.Operator entries)) }
    ensures holdings { holdings_of tasks.new ≡ holdings_of tasks.old }
    ensures ok { OnOk result ((entries : List (K × S))
        → slice_get (holdings_of tasks.old) task ≡ Some (Holding.Operator entries)
        → copies_of tasks.new
        ≡ slice_set (copies_of tasks.old) task (Some (Part.Operator entries []))) }
    ensures err { OnErr result (copies_of tasks.new ≡ copies_of tasks.old) }
{
    tasks[task as usize].copy_states()
}

/// A sink holds these transactions, and has copied these numbers of transactions. It takes no
/// memory.
pub(crate) fn copy_names<R: Codec, K: Codec + Ord, S: Codec>(
    alloc: Global,
    tasks: &mut [Task<R, K, S>],
    task: u32,
    sink: Sink,
    names: Items<u64>,
)
    requires { task < length tasks.old }
    ensures holdings { holdings_of tasks.new
        ≡ slice_set (holdings_of tasks.old) task (Holding.Sink sink) }
    ensures copies { copies_of tasks.new
        ≡ slice_set (copies_of tasks.old) task (Some (Part.Sink names [])) }
{
    tasks[task as usize] = Task::copied_sink(alloc, sink, names);
}

/// An operator keeps the state under the key, if there is one.
pub(crate) fn keep<O: Operator>(
    tasks: &mut [Task<O::Record, O::Key, O::State>],
    task: u32,
    key: Option<O::Key>,
    state: O::State,
) -> Result<(), NoMemory>
    requires there { task < length tasks.old }
    requires holds { (entries : List (O.Key × O.State)) × (slice_get (holdings_of tasks.old) task
        ≡ Some (Holding.Operator entries)) }
    ensures ok { OnOk result ((before after : Holding O.Key O.State)
        × (slice_get (holdings_of tasks.old) task ≡ Some before)
        × (holdings_of tasks.new ≡ slice_set (holdings_of tasks.old) task after)
        × Keeps O.meaning O.Key.cmp key state before after) }
    ensures copies { copies_of tasks.new ≡ copies_of tasks.old }
    ensures err { OnErr result (holdings_of tasks.new ≡ holdings_of tasks.old) }
{
    task::keep::<O>(&mut tasks[task as usize], key, state)
}

/// An operator keeps these states, whose keys rise. It keeps none of them where memory is refused,
/// or where a key has another state than the one that is expected, if any are. What is left in the
/// list is to be let go.
pub(crate) fn keep_all<R: Codec, K: Codec + Ord, S: Codec + Eq>(
    alloc: Global,
    tasks: &mut [Task<R, K, S>],
    task: u32,
    states: &mut Vec<(K, S)>,
    expected: Option<&[Seen<S>]>,
) -> Result<(), SetFault>
    requires exact { EqualIsSame S.Eq.eq }
    requires there { task < length tasks.old }
    requires holds { (entries : List (K × S)) × (slice_get (holdings_of tasks.old) task
        ≡ Some (Holding.Operator entries)) }
    requires rising { IsStrictlySortedBy K.Ord.cmp (keys_of states.old.items) }
    ensures ok { OnOk result ((before after : Holding K S)
        × (slice_get (holdings_of tasks.old) task ≡ Some before)
        × (holdings_of tasks.new ≡ slice_set (holdings_of tasks.old) task after)
        × KeepsAll K.Ord.cmp states.old.items before after) }
    ensures expected { (entries : List (K × S)) → slice_get (holdings_of tasks.old) task
        ≡ Some (Holding.Operator entries) → OnOk result (HaveExpected K.Ord.cmp entries
        (keys_of states.old.items) (option_copied expected.entry)) }
    ensures changed { (entries : List (K × S)) → slice_get (holdings_of tasks.old) task
        ≡ Some (Holding.Operator entries) → result ≡ Err SetFault.Changed
        → ¬ HaveExpected K.Ord.cmp entries (keys_of states.old.items)
        (option_copied expected.entry) }
    ensures copies { copies_of tasks.new ≡ copies_of tasks.old }
    ensures err { OnErr result (holdings_of tasks.new ≡ holdings_of tasks.old) }
{
    tasks[task as usize].keep_all(alloc, states, expected)
}

/// A sink's oldest pre-committed transaction is forgotten.
pub(crate) fn forget_oldest<R: Codec, K: Codec + Ord, S: Codec>(
    tasks: &mut [Task<R, K, S>],
    task: u32,
)
    requires { task < length tasks.old }
    ensures holdings { (sink : Sinking)
        → slice_get (holdings_of tasks.old) task ≡ Some (Holding.Sink sink)
        → holdings_of tasks.new ≡ slice_set (holdings_of tasks.old) task
        (Holding.Sink (record sink { pending = drop 1 sink.pending })) }
    ensures copies { copies_of tasks.new ≡ copies_of tasks.old }
{
    tasks[task as usize].forget_oldest();
}

/// Hands out the work on at most so many of the next entries of a task's copy, where that is
/// enough.
pub(crate) fn hand_out<R: Codec, K: Codec + Ord, S: Codec>(
    tasks: &mut [Task<R, K, S>],
    task: u32,
    most: usize,
) -> Option<CopyWork<K, S>>
    ensures holdings { holdings_of tasks.new ≡ holdings_of tasks.old }
    ensures copies { copies_of tasks.new ≡ copies_of tasks.old }
{
    let place = task as usize;
    if place < tasks.len() {
        tasks[place].hand_out(most)
    } else {
        None
    }
}

/// Spells at most so many entries of a task's copy, or where all are spelled merges at most so many
/// of its later writes, and answers whether there was such work.
pub(crate) fn spell_some<R: Codec, K: Codec + Ord, S: Codec>(
    tasks: &mut [Task<R, K, S>],
    task: u32,
    most: usize,
) -> Result<bool, NoMemory>
    ensures holdings { holdings_of tasks.new ≡ holdings_of tasks.old }
    ensures copies { copies_of tasks.new ≡ copies_of tasks.old }
{
    let place = task as usize;
    if place < tasks.len() {
        tasks[place].spell_some(most)
    } else {
        Ok(false)
    }
}

/// Spells all that is left of a task's copy, and merges all of its later writes.
pub(crate) fn spell_all<R: Codec, K: Codec + Ord, S: Codec>(
    tasks: &mut [Task<R, K, S>],
    task: u32,
) -> Result<(), NoMemory>
    ensures holdings { holdings_of tasks.new ≡ holdings_of tasks.old }
    ensures copies { copies_of tasks.new ≡ copies_of tasks.old }
{
    let place = task as usize;
    if place < tasks.len() {
        tasks[place].spell_all()
    } else {
        Ok(())
    }
}

/// Spells the part that a task's copy is with these logs.
pub(crate) fn spell_part<R: Codec, K: Codec + Ord, S: Codec>(
    tasks: &mut [Task<R, K, S>],
    task: u32,
    logs: &[(u32, &[R])],
) -> Result<(), NoMemory>
    requires { task < length tasks.old }
    ensures spelled { OnOk result ((p : Part R K S)
        → slice_get (copies_of tasks.old) task ≡ Some (Some p)
        → PartIsSpelled R.HasSpelling K.Ord.cmp K.HasSpelling S.HasSpelling
        (with_logs (logs_now logs.now) p)
        × (part_in tasks.new task ≡ part_spelling R.spelling K.spelling S.spelling
        (with_logs (logs_now logs.now) p))) }
    ensures holdings { holdings_of tasks.new ≡ holdings_of tasks.old }
    ensures copies { copies_of tasks.new ≡ copies_of tasks.old }
{
    tasks[task as usize].spell_part(logs)
}

/// A task's part, as far as it is spelled, which others may keep.
pub(crate) fn share_part<R: Codec, K: Codec + Ord, S: Codec>(
    tasks: &mut [Task<R, K, S>],
    task: u32,
    alloc: Global,
) -> Result<Bytes, NoMemory>
    requires { task < length tasks.old }
    ensures part { IfOk result (λ bytes. bytes ≡ part_in tasks.old task) }
    ensures same { tasks.new ≡ tasks.old }
{
    tasks[task as usize].share_part(alloc)
}
