//! What was made of a sink's work on several records is taken in turn.

ghost use Rattle.std.specs.Prelude.{◌≡◌, ◌≢◌, ◌<◌, ◌≤◌, ◌↔◌, ℕ, List, Err, None, Some, false, IsTrue, IfSome, IfNone, length, slice_get, OnOk};
ghost use Rattle.alignment.specs.Table.{is_logged};
ghost use Rattle.channels.specs.Items.{leading_records};
ghost use Rattle.channels.specs.declared.item.Item.TheVariants as Item;
ghost use Rattle.commit_sink.specs.Ledger.{Ledger, open_refusal};
ghost use Rattle.engine_model.specs.Keeps.{GateFits};
ghost use Rattle.engine_model.specs.declared.fault.CoreFault.TheVariants as CoreFault;
ghost use Rattle.job_state.specs.Held.{gate_at};
ghost use Rattle.job_state.specs.Sending.{items_at};
ghost use Rattle.claims.specs.Carried.{given_of, records_of};
ghost use Rattle.claims.specs.Due.{EndsTaking, EndsRefused, EndsAccept};
ghost use Rattle.claims.specs.Rows.{SinksInto, AcceptsInTurn, EndsAcceptAt, EndsRows, with_taken};
ghost use Rattle.claims.specs.Tasks.{Serves};
ghost use Rattle.claims.specs.declared.parts.Given.TheVariants as Given;
ghost use Rattle.claims.specs.declared.parts.Made.TheVariants as Made;

use crate::accepts::put_in;
use crate::carried::Worked;
use crate::due::is_record;
use crate::inputs::input_of;
use crate::parts::{Given, Made};
use channels::Item;
use commit_sink::{TransactionFault, Transactions};
use engine_model::{CoreFault, Rules};
use job_graph::{Graph, Role};
use job_state::Attempt;
use operators::Operator;

/// The channel from which a sink may take records, and its open transaction.
fn place_of_sink<O: Operator>(
    attempt: &Attempt<O>,
    graph: &Graph,
    task: u32,
    input: u32,
) -> Option<(u32, u64)>
    requires gates { (t : ℕ) → t < length graph.now.tasks → GateFits graph.now attempt.now t }
    ensures some { IfSome result (λ place. (at : SinksInto graph.now task input attempt.now place.0)
        × (at.sink.open_one ≡ place.1)) }
    ensures none { IfNone result ((channel : ℕ)
        → ¬ SinksInto graph.now task input attempt.now channel) }
{
    let Some(Role::Sink(_)) = graph.role(task) else {
        return None;
    };
    let channel = input_of(graph, task, input)?;
    let sink = attempt.sink(task)?;
    if attempt.is_blocked(task, input) {
        return None;
    }
    Some((channel, sink.open()))
}

/// Whether this record stands first in a channel.
#[inline(always)]
fn is_head<O: Operator>(attempt: &Attempt<O>, channel: u32, row: &O::Record) -> bool
    ensures { IsTrue result
        ↔ (slice_get (items_at attempt.now.channels channel) 0 ≡ Some (Item.Record row.now)) }
{
    match attempt.head(channel) {
        Some(Item::Record(first)) => first == row,
        Some(Item::Barrier(_)) => false,
        None => false,
    }
}

/// A sink takes a record from this channel, and puts the bytes that spell it in its open
/// transaction.
fn take_row<O: Operator, X: Transactions>(
    attempt: &mut Attempt<O>,
    graph: &Graph,
    transactions: &mut X,
    task: u32,
    input: u32,
    place: (u32, u64),
    row: &O::Record,
    bytes: Vec<u8>,
) -> Result<(), CoreFault>
    requires sinks { (at : SinksInto graph.now task input attempt.old place.0)
        × (at.sink.open_one ≡ place.1) }
    requires within { input < length (gate_at attempt.old task).inputs }
    requires logs { place.0 < length attempt.old.logs }
    requires is_open { open_refusal (X.state transactions.old) place.1 ≡ None }
    requires spelled { bytes.items ≡ O.Record.spelling row.now }
    ensures ends { (operators : List O)
        → EndsTaking ⟦<O as Rules>⟧.lang graph.now operators task input attempt.old attempt.new
        (X.state transactions.old) (X.state transactions.new) (Given.Sink row.now) result }
    ensures counted { result ≡ Err CoreFault.Device
        → X.fault_count transactions.old < X.fault_count transactions.new }
    ensures told { result ≢ Err CoreFault.Device
        → X.fault_count transactions.new ≡ X.fault_count transactions.old }
{
    // (the clauses alone name it)
    let _ = graph;
    let (channel, transaction) = place;
    if !is_head(attempt, channel, row) {
        return Err(CoreFault::WrongResult);
    }
    put_in(
        attempt,
        transactions,
        task,
        input,
        channel,
        transaction,
        bytes,
    )
}

/// Why what was made of work for which memory was refused is not taken from this channel.
fn refused_at<O: Operator>(
    attempt: &Attempt<O>,
    graph: &Graph,
    task: u32,
    input: u32,
    channel: u32,
    given: &Given<O, O::Key, O::State, O::Record>,
) -> CoreFault
    requires { SinksInto graph.now task input attempt.now channel }
    ensures ends { (operators : List O) (ledger : Ledger) → EndsRefused ⟦<O as Rules>⟧.lang
        graph.now operators task input attempt.now attempt.now ledger ledger given.now
        (Err result) }
    ensures told { result ≢ CoreFault.Device }
{
    // (the clauses alone name them)
    let _ = graph;
    let _ = task;
    let _ = input;
    match given {
        Given::Sink(row) => {
            if is_head(attempt, channel, row) {
                CoreFault::Memory
            } else {
                CoreFault::WrongResult
            }
        }
        Given::Operator(_) => CoreFault::WrongResult,
    }
}

/// A sink takes what was made of work from this channel.
fn take_made<O: Operator, X: Transactions>(
    attempt: &mut Attempt<O>,
    graph: &Graph,
    transactions: &mut X,
    task: u32,
    input: u32,
    place: (u32, u64),
    worked: Worked<O>,
) -> Result<(), CoreFault>
    requires sinks { (at : SinksInto graph.now task input attempt.old place.0)
        × (at.sink.open_one ≡ place.1) }
    requires within { input < length (gate_at attempt.old task).inputs }
    requires logs { place.0 < length attempt.old.logs }
    requires is_open { open_refusal (X.state transactions.old) place.1 ≡ None }
    ensures ends { (operators : List O)
        → EndsAccept ⟦<O as Rules>⟧.lang graph.now operators task input attempt.old attempt.new
        (X.state transactions.old) (X.state transactions.new) worked result }
    ensures one { OnOk result (records_of (given_of worked) ≡ 1) }
    ensures counted { result ≡ Err CoreFault.Device
        → X.fault_count transactions.old < X.fault_count transactions.new }
    ensures told { result ≢ Err CoreFault.Device
        → X.fault_count transactions.new ≡ X.fault_count transactions.old }
{
    match worked.made {
        Made::Sink(row, bytes) => take_row(
            attempt,
            graph,
            transactions,
            task,
            input,
            place,
            &row,
            bytes,
        ),
        Made::Operator(_) => Err(CoreFault::WrongResult),
        Made::Refused(given) => Err(refused_at(attempt, graph, task, input, place.0, &given)),
    }
}

/// Takes what was made of work from this channel, from the first to the last, until one is refused:
/// how many records were taken, and why no more. Each is logged where the task's gate logs the
/// input.
fn take_each<O: Operator, X: Transactions>(
    attempt: &mut Attempt<O>,
    graph: &Graph,
    transactions: &mut X,
    task: u32,
    input: u32,
    place: (u32, u64),
    ahead: Vec<Worked<O>>,
) -> (u64, Result<(), CoreFault>)
    requires sinks { (at : SinksInto graph.now task input attempt.old place.0)
        × (at.sink.open_one ≡ place.1) }
    requires within { input < length (gate_at attempt.old task).inputs }
    requires logs { place.0 < length attempt.old.logs }
    requires is_open { open_refusal (X.state transactions.old) place.1 ≡ None }
    ensures ends { (operators : List O) → AcceptsInTurn ⟦<O as Rules>⟧.lang graph.now operators
        task input ahead.items attempt.old attempt.new (X.state transactions.old)
        (X.state transactions.new) result.0 result.1 }
    ensures counted { result.1 ≡ Err CoreFault.Device
        → X.fault_count transactions.old < X.fault_count transactions.new }
    ensures told { result.1 ≢ Err CoreFault.Device
        → X.fault_count transactions.new ≡ X.fault_count transactions.old }
{
    let mut count: u64 = 0;
    for worked in ahead {
        if let Err(fault) = take_made(attempt, graph, transactions, task, input, place, worked) {
            return (count, Err(fault));
        }
        count += 1;
    }
    (count, Ok(()))
}

/// The bytes that spell a record are put in the open transaction, where the record stands at this
/// place of the channel: it is as good as taken, with those before it.
#[inline(always)]
fn put_row<O: Operator, X: Transactions>(
    attempt: &Attempt<O>,
    graph: &Graph,
    transactions: &mut X,
    task: u32,
    input: u32,
    place: (u32, u64),
    index: usize,
    row: &O::Record,
    bytes: Vec<u8>,
) -> Result<(), CoreFault>
    requires sinks { (at : SinksInto graph.now task input attempt.now place.0)
        × (at.sink.open_one ≡ place.1) }
    requires unlogged { is_logged (gate_at attempt.now task) input ≡ false }
    requires within { index ≤ length (leading_records (items_at attempt.now.channels place.0)) }
    requires is_open { open_refusal (X.state transactions.old) place.1 ≡ None }
    requires spelled { bytes.items ≡ O.Record.spelling row.now }
    ensures ends { (operators : List O) → EndsAcceptAt ⟦<O as Rules>⟧.lang graph.now operators
        task input (Made.Sink row.now bytes) attempt.now place.0 index
        (X.state transactions.old) (X.state transactions.new) result }
    ensures more { OnOk result (index
        < length (leading_records (items_at attempt.now.channels place.0))) }
    ensures counted { result ≡ Err CoreFault.Device
        → X.fault_count transactions.old < X.fault_count transactions.new }
    ensures told { result ≢ Err CoreFault.Device
        → X.fault_count transactions.new ≡ X.fault_count transactions.old }
{
    // (the clauses alone name them)
    let _ = graph;
    let _ = task;
    let _ = input;
    if !is_record(attempt, place.0, index, row) {
        return Err(CoreFault::WrongResult);
    }
    match transactions.append(place.1, bytes) {
        Ok(()) => Ok(()),
        Err(TransactionFault::Memory) => Err(CoreFault::Memory),
        Err(_) => Err(CoreFault::Device),
    }
}

/// Why what was made of work for which memory was refused is not taken from this place of the
/// channel.
fn refused_behind<O: Operator>(
    attempt: &Attempt<O>,
    graph: &Graph,
    task: u32,
    input: u32,
    channel: u32,
    index: usize,
    given: &Given<O, O::Key, O::State, O::Record>,
) -> CoreFault
    requires sinks { SinksInto graph.now task input attempt.now channel }
    requires within { index ≤ length (leading_records (items_at attempt.now.channels channel)) }
    ensures ends { (operators : List O) (ledger : Ledger) → EndsRefused ⟦<O as Rules>⟧.lang
        graph.now operators task input (with_taken attempt.now channel index)
        (with_taken attempt.now channel index) ledger ledger given.now (Err result) }
    ensures told { result ≢ CoreFault.Device }
{
    // (the clauses alone name them)
    let _ = graph;
    let _ = task;
    let _ = input;
    match given {
        Given::Sink(row) => {
            if is_record(attempt, channel, index, row) {
                CoreFault::Memory
            } else {
                CoreFault::WrongResult
            }
        }
        Given::Operator(_) => CoreFault::WrongResult,
    }
}

/// What was made of the work on the record at this place of the channel is put in the open
/// transaction.
fn put_made<O: Operator, X: Transactions>(
    attempt: &Attempt<O>,
    graph: &Graph,
    transactions: &mut X,
    task: u32,
    input: u32,
    place: (u32, u64),
    index: usize,
    worked: Worked<O>,
) -> Result<(), CoreFault>
    requires sinks { (at : SinksInto graph.now task input attempt.now place.0)
        × (at.sink.open_one ≡ place.1) }
    requires unlogged { is_logged (gate_at attempt.now task) input ≡ false }
    requires within { index ≤ length (leading_records (items_at attempt.now.channels place.0)) }
    requires is_open { open_refusal (X.state transactions.old) place.1 ≡ None }
    ensures ends { (operators : List O) → EndsAcceptAt ⟦<O as Rules>⟧.lang graph.now operators
        task input worked attempt.now place.0 index (X.state transactions.old)
        (X.state transactions.new) result }
    ensures more { OnOk result (index
        < length (leading_records (items_at attempt.now.channels place.0))) }
    ensures one { OnOk result (records_of (given_of worked) ≡ 1) }
    ensures counted { result ≡ Err CoreFault.Device
        → X.fault_count transactions.old < X.fault_count transactions.new }
    ensures told { result ≢ Err CoreFault.Device
        → X.fault_count transactions.new ≡ X.fault_count transactions.old }
{
    match worked.made {
        Made::Sink(row, bytes) => put_row(
            attempt,
            graph,
            transactions,
            task,
            input,
            place,
            index,
            &row,
            bytes,
        ),
        Made::Operator(_) => Err(CoreFault::WrongResult),
        Made::Refused(given) => Err(refused_behind(
            attempt, graph, task, input, place.0, index, &given,
        )),
    }
}

/// Puts what was made of work in the open transaction, from the first to the last, until one is
/// refused: how many records may be taken from the channel at once, and why no more.
fn put_all<O: Operator, X: Transactions>(
    attempt: &Attempt<O>,
    graph: &Graph,
    transactions: &mut X,
    task: u32,
    input: u32,
    place: (u32, u64),
    ahead: Vec<Worked<O>>,
) -> (usize, Result<(), CoreFault>)
    requires sinks { (at : SinksInto graph.now task input attempt.now place.0)
        × (at.sink.open_one ≡ place.1) }
    requires unlogged { is_logged (gate_at attempt.now task) input ≡ false }
    requires is_open { open_refusal (X.state transactions.old) place.1 ≡ None }
    ensures ends { (operators : List O) → AcceptsInTurn ⟦<O as Rules>⟧.lang graph.now operators
        task input ahead.items attempt.now (with_taken attempt.now place.0 result.0)
        (X.state transactions.old) (X.state transactions.new) result.0 result.1 }
    ensures within { result.0
        ≤ length (leading_records (items_at attempt.now.channels place.0)) }
    ensures counted { result.1 ≡ Err CoreFault.Device
        → X.fault_count transactions.old < X.fault_count transactions.new }
    ensures told { result.1 ≢ Err CoreFault.Device
        → X.fault_count transactions.new ≡ X.fault_count transactions.old }
{
    let mut count: usize = 0;
    for worked in ahead {
        if let Err(fault) = put_made(
            attempt,
            graph,
            transactions,
            task,
            input,
            place,
            count,
            worked,
        ) {
            return (count, Err(fault));
        }
        count += 1;
    }
    (count, Ok(()))
}

/// Takes what was made of the work on several records of a sink, from the first to the last, as so
/// many calls of [`accept`](crate::accept), until one is refused: how many records were taken, and
/// why no more. `K7` is told where the task is no sink, or may take nothing from the input. Records
/// that are not logged are taken away at once.
pub fn accept_rows<O: Operator, X: Transactions>(
    attempt: &mut Attempt<O>,
    graph: &Graph,
    transactions: &mut X,
    task: u32,
    input: u32,
    ahead: Vec<Worked<O>>,
) -> (u64, Result<(), CoreFault>)
    requires serves { (operators : List O) × Serves ⟦<O as Rules>⟧.all
        graph.now operators (X.state transactions.old) attempt.old }
    ensures ends { (operators : List O)
        → EndsRows ⟦<O as Rules>⟧.lang graph.now operators task input ahead.items attempt.old
        attempt.new (X.state transactions.old) (X.state transactions.new) result.0 result.1 }
    ensures counted { result.1 ≡ Err CoreFault.Device
        → X.fault_count transactions.old < X.fault_count transactions.new }
    ensures told { result.1 ≢ Err CoreFault.Device
        → X.fault_count transactions.new ≡ X.fault_count transactions.old }
{
    let Some(place) = place_of_sink(attempt, graph, task, input) else {
        return (0, Err(CoreFault::WrongResult));
    };
    if attempt.logs_input(task, input) {
        return take_each(attempt, graph, transactions, task, input, place, ahead);
    }
    let (count, end) = put_all(attempt, graph, transactions, task, input, place, ahead);
    attempt.take_some(place.0, count);
    (count as u64, end)
}
