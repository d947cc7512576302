//! The states under the keys of the records that are claimed.

ghost use Rattle.std.specs.Prelude.{◌≡◌, ◌≤◌, ◌↔◌, List, [], Some, IfOk, IfErr, IfSome, length, map, slice_get, vec_len, vec_capacity};
ghost use Rattle.std.specs.List.{IsAmong, zip};
ghost use Rattle.std.specs.List.Sorted.{IsPermutation, IsStrictlySortedBy};
ghost use Rattle.std.specs.Map.{keys_of};
ghost use Rattle.std.specs.Option.{option_copied};
ghost use Rattle.abs_codec.specs.Entries.{value_at};
ghost use Rattle.job_state.specs.declared.holding.Holding.TheVariants as Holding;
ghost use Rattle.operators.specs.Operator.{OrderIsExact};
ghost use Rattle.claims.specs.Keys.{states_under, HavePlaces};

use crate::rooms::Room;
use abs_codec::{Codec, NoMemory};
use job_state::Attempt;
use keyed_state::{LentStates, Seen};
use operators::Operator;
use std::alloc::Global;
use std::marker::Model;

/// Rising keys, and in the same order the state of each: two vectors, so that the keys are not
/// copied, and no tree is made and torn down. Contracts see the keys, each with its state.
#[derive(Drop)]
pub(crate) struct Copies<K: Ord, S> {
    keys: Vec<K>,
    states: Vec<Seen<S>>,
    /// At which place the key of each keyed record may stand: a guess, which saves a search.
    guesses: Vec<u32>,
}

impl<K: Ord, S> Model for Copies<K, S> {
    ghost use Rattle.std.specs.Prelude.{List, Option};
    ghost use Rattle.std.specs.List.{zip};
    ghost use Rattle.std.specs.List.Sorted.{IsStrictlySortedBy};
    ghost use Rattle.std.specs.Map.{keys_of};

    ghost Value = { List (K × Option S) };

    ghost view = { λ c. zip c.keys.items c.states.items };

    ghost invariant = { λ c. IsStrictlySortedBy K.cmp (keys_of (zip c.keys.items
        c.states.items)) };
}

impl<K: Ord, S> Copies<K, S> {
    /// The keys, which rise, and the states in the same order.
    pub(crate) fn columns(&self) -> (&[K], &[Seen<S>])
        ensures entries { zip result.0.now result.1.now ≡ self.now }
        ensures rising { IsStrictlySortedBy K.cmp (keys_of self.now) }
    {
        (&self.keys, &self.states)
    }

    /// At which place the key of each keyed record may stand, in the order of the records.
    pub(crate) fn guesses(&self) -> &[u32] {
        &self.guesses
    }
}

/// States that are copied, or keys with a share of all states, in which theirs are looked up.
#[derive(Drop)]
pub(crate) enum Kept<K: Ord, S> {
    Copied(Copies<K, S>),
    Lent(Vec<K>, LentStates<K, S>),
}

/// For each of several keys its state as it was at the claim, `None` where it had none yet.
#[derive(Drop)]
pub struct States<K: Ord, S> {
    pub(crate) kept: Kept<K, S>,
}

impl<K: Ord, S> Model for States<K, S> {
    ghost use Rattle.std.specs.Prelude.{List, Option};
    ghost use Rattle.claims.specs.Keys.{states_kept};

    ghost Value = { List (K × Option S) };

    ghost view = { λ s. states_kept K.cmp s.kept };
}

/// Entries in which a state is looked up by its key.
pub(crate) trait Entries<K: Codec + Ord, S: Codec> {
    /// These are the entries.
    ghost AreEntries: { Self → List (K × S) → Type 0 };

    /// A copy of the state at a key, if there is one, which may be looked up alone.
    fn seen(&self, key: &K, is_alone: bool) -> Result<Seen<S>, NoMemory>
        ensures { IfOk result (λ seen. (entries : List (K × S)) → AreEntries self.now entries
            → seen ≡ value_at K.Ord.cmp entries key.now) };
}

impl<K: Codec + Ord, S: Codec> Entries<K, S> for LentStates<K, S> {
    ghost AreEntries = { λ lent entries. lent ≡ entries };

    fn seen(&self, key: &K, is_alone: bool) -> Result<Seen<S>, NoMemory> {
        self.seen(key, is_alone)
    }
}

/// The entries of a task, in place.
#[derive(Drop)]
struct TaskStates<'a, O: Operator> {
    attempt: &'a Attempt<O>,
    task: u32,
}

impl<O: Operator> Entries<O::Key, O::State> for TaskStates<'_, O> {
    ghost AreEntries = { λ t entries. slice_get t.attempt.now.tasks t.task
        ≡ Some (Holding.Operator entries) };

    fn seen(&self, key: &O::Key, _is_alone: bool) -> Result<Seen<O::State>, NoMemory> {
        match self.attempt.state(self.task, key) {
            Some(state) => Ok(Seen::somewhere(Some(state.copied()?))),
            None => Ok(Seen::somewhere(None)),
        }
    }
}

/// The places of fewer keys than that are searched for.
const FEW: usize = 8;

/// The keys, each with how many stand before it. They are handed back where memory is refused.
fn numbered<K: Drop>(alloc: Global, keys: Vec<K>) -> Result<Vec<(K, u32)>, Vec<K>>
    ensures ok { IfOk result (λ pairs. keys_of pairs.items ≡ keys.items) }
    ensures err { IfErr result (λ back. back.items ≡ keys.items) }
{
    let Ok(mut pairs) = Vec::with_capacity(alloc, keys.len()) else {
        return Err(keys);
    };
    let mut number: u32 = 0;
    for key in keys {
        pairs.push_reserved((key, number));
        number = number.wrapping_add(1);
    }
    Ok(pairs)
}

/// The keys of these pairs, in their order, and in `guesses` for each number the place of the key
/// beside it once each key stands once, if the pairs are in order.
fn unnumbered<K: Ord + Drop>(pairs: Vec<(K, u32)>, mut keys: Vec<K>, guesses: &mut [u32]) -> Vec<K>
    requires empty { keys.items ≡ [] }
    requires room { vec_len pairs ≤ vec_capacity keys }
    ensures { result.items ≡ keys_of pairs.items }
{
    let mut place: u32 = 0;
    for (key, number) in pairs {
        if is_another(&keys, &key) {
            place = place.wrapping_add(1);
        }
        if let Some(guess) = guesses.get_mut(number as usize) {
            *guess = place;
        }
        keys.push_reserved(key);
    }
    keys
}

/// Whether a key is another one than the last of these.
fn is_another<K: Ord>(keys: &[K], key: &K) -> bool {
    match keys.last() {
        Some(last) => last != key,
        None => false,
    }
}

/// The same keys in rising order, and for each as it came the place that it has once each stands
/// once. There is nothing to gain for few keys; where memory is refused, all places are 0.
fn with_guesses<K: Ord + Drop>(alloc: Global, keys: Vec<K>) -> (Vec<K>, Vec<u32>)
    ensures moved { IsPermutation keys.items result.0.items }
{
    let mut guesses = Vec::new(alloc);
    if keys.len() < FEW || guesses.resize(keys.len(), 0).is_err() {
        return (keys, guesses);
    }
    let Ok(room) = Vec::with_capacity(alloc, keys.len()) else {
        return (keys, guesses);
    };
    match numbered(alloc, keys) {
        Ok(mut pairs) => {
            pairs.sort_unstable();
            (unnumbered(pairs, room, &mut guesses), guesses)
        }
        Err(keys) => (keys, guesses),
    }
}

/// Puts keys in rising order, each once.
fn sort_once<K: Ord + Drop>(keys: &mut Vec<K>)
    ensures rising { IsStrictlySortedBy K.cmp keys.new.items }
    ensures same { OrderIsExact K.cmp → (q : K)
        → IsAmong keys.new.items q ↔ IsAmong keys.old.items q }
{
    keys.sort_unstable();
    keys.dedup();
}

/// Puts keys in rising order, each once, and guesses the place of each as it came.
fn put_in_order<K: Ord + Drop>(alloc: Global, keys: Vec<K>) -> (Vec<K>, Vec<u32>)
    ensures rising { IsStrictlySortedBy K.cmp result.0.items }
    ensures same { OrderIsExact K.cmp → (q : K)
        → IsAmong result.0.items q ↔ IsAmong keys.items q }
{
    if keys.len() < 2 {
        return (keys, Vec::new(alloc));
    }
    let (mut keys, guesses) = with_guesses(alloc, keys);
    sort_once(&mut keys);
    (keys, guesses)
}

/// Copies of the states under these keys, in the order of the keys.
fn copied_states<K: Codec + Ord, S: Codec, E: Entries<K, S>>(
    alloc: Global,
    keys: &[K],
    entries: &E,
) -> Result<Vec<Seen<S>>, NoMemory>
    ensures long { IfOk result (λ states. length states.items ≡ length keys.now) }
    ensures states { IfOk result (λ states. (es : List (K × S)) → E.AreEntries entries.now es
        → states.items ≡ map (value_at K.Ord.cmp es) keys.now) }
{
    let mut states = Vec::with_capacity(alloc, keys.len())?;
    let is_alone = keys.len() == 1;
    for key in keys {
        states.push(entries.seen(key, is_alone)?)?;
    }
    Ok(states)
}

/// The states that a task has under these keys. They are copied where they are not lent.
fn lent_or_copied<O: Operator>(
    alloc: Global,
    attempt: &Attempt<O>,
    task: u32,
    keys: Vec<O::Key>,
) -> Result<States<O::Key, O::State>, NoMemory>
    ensures { IfOk result (λ states. (entries : List (O.Key × O.State))
        → slice_get attempt.now.tasks task ≡ Some (Holding.Operator entries)
        → states ≡ states_under O.Key.cmp entries keys.items) }
{
    let kept = match attempt.lend(task) {
        Some(lent) => Kept::Lent(keys, lent),
        None => {
            let (rising, guesses) = put_in_order(alloc, keys);
            let states = copied_states(alloc, &rising, &TaskStates { attempt, task })?;
            Kept::Copied(Copies {
                keys: rising,
                states,
                guesses,
            })
        }
    };
    Ok(States { kept })
}

/// The same, where no state is asked for if there is no key. The room for keys is left then.
pub(crate) fn states_of<O: Operator>(
    alloc: Global,
    attempt: &Attempt<O>,
    task: u32,
    keys: Vec<O::Key>,
    room: &mut Room<O>,
) -> Result<States<O::Key, O::State>, NoMemory>
    ensures { IfOk result (λ states. (entries : List (O.Key × O.State))
        → slice_get attempt.now.tasks task ≡ Some (Holding.Operator entries)
        → states ≡ states_under O.Key.cmp entries keys.items) }
{
    if keys.is_empty() {
        room.leave_keys(keys);
        return Ok(States::none(alloc));
    }
    lent_or_copied(alloc, attempt, task, keys)
}

impl<K: Codec + Ord, S: Codec> States<K, S> {
    /// No states. It takes no memory.
    pub(crate) fn none(alloc: Global) -> Self
        ensures { result ≡ [] }
    {
        let copies = Copies {
            keys: Vec::new(alloc),
            states: Vec::new(alloc),
            guesses: Vec::new(alloc),
        };
        States {
            kept: Kept::Copied(copies),
        }
    }

    /// The same states, copied where there is memory for that. Keys that tie have to be one.
    pub(crate) fn settled(self, alloc: Global) -> Self
        ensures { OrderIsExact K.Ord.cmp → result ≡ self }
    {
        match self.kept {
            Kept::Copied(copies) => States {
                kept: Kept::Copied(copies),
            },
            Kept::Lent(keys, lent) => {
                let (rising, guesses) = put_in_order(alloc, keys);
                States {
                    kept: match copied_states(alloc, &rising, &lent) {
                        Ok(states) => Kept::Copied(Copies {
                            keys: rising,
                            states,
                            guesses,
                        }),
                        Err(_) => Kept::Lent(rising, lent),
                    },
                }
            }
        }
    }

    /// The states by key, where they are copied.
    pub(crate) fn as_copies(&self) -> Option<&Copies<K, S>>
        ensures { IfSome result (λ copies. copies.now ≡ self.now) }
    {
        match &self.kept {
            Kept::Copied(copies) => Some(copies),
            Kept::Lent(_, _) => None,
        }
    }

    /// The states, in the order of these entries, where they are copied, each under the key of one
    /// of them. Keys that rise, and have their places here, are all of them if they are as many: so
    /// none is compared.
    pub(crate) fn under_entries(&self, entries: &[(K, S)]) -> Option<&[Seen<S>]>
        requires rising { IsStrictlySortedBy K.Ord.cmp (keys_of entries.now) }
        requires places { HavePlaces K.Ord.cmp entries.now self.now }
        ensures { OrderIsExact K.Ord.cmp → IfSome result (λ states.
            (length states.now ≡ length entries.now)
            × (zip (keys_of entries.now) states.now ≡ self.now)) }
    {
        let Some(copies) = self.as_copies() else {
            return None;
        };
        let (keys, states) = copies.columns();
        if states.len() == keys.len() && entries.len() == keys.len() {
            Some(states)
        } else {
            None
        }
    }
}
