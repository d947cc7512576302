use abs_codec::Text;
use operators::{Row, RowOp, RowState};
use plain_machine::{Channel, Job, Move, PlainMachine, Route, Share, Task};
use std::alloc::{AllocError, Global};
use std::process::Abort;
use std::test::Fail;

type Machine = PlainMachine<RowOp, Row, Text, RowState>;

fn rows(alloc: Global, values: &[(&str, i64)]) -> Result<Vec<Row>, AllocError> {
    let mut rows = Vec::new(alloc);
    for (k, v) in values {
        let k = Text::from_str(alloc, k)?;
        rows.push(Row { k, v: *v })?;
    }
    Ok(rows)
}

/// Two sources, an operator that counts by key what both send, one that counts down and feeds
/// itself, and a sink.
fn tasks(alloc: Global) -> Result<Vec<Task<RowOp>>, Fail> {
    Ok(vec![in alloc;
        Task::Source(0),
        Task::Source(1),
        Task::Operator(RowOp::Count),
        Task::Operator(RowOp::LoopDown),
        Task::Sink,
    ]?)
}

fn channel(sender: usize, receiver: usize, port: u32) -> Channel {
    Channel {
        sender,
        receiver,
        port,
        route: Route::Every,
        marked: port == 1,
    }
}

/// To the only subtask of the operator that counts.
fn hashed(sender: usize) -> Channel {
    let share = Share {
        parallelism: 1,
        subtask: 0,
    };
    Channel {
        sender,
        receiver: 2,
        port: 0,
        route: Route::Lanes(share),
        marked: false,
    }
}

/// Channel 3 is the back-edge.
fn channels(alloc: Global) -> Result<Vec<Channel>, Fail> {
    Ok(vec![in alloc;
        hashed(0),
        hashed(1),
        channel(2, 3, 0),
        channel(3, 3, 1),
        channel(3, 4, 0),
    ]?)
}

fn partitions(alloc: Global) -> Result<Vec<Vec<Row>>, Fail> {
    let first = rows(alloc, &[("a", 7), ("b", 7)])?;
    let second = rows(alloc, &[("a", 5)])?;
    Ok(vec![in alloc; first, second]?)
}

fn job(alloc: Global) -> Result<Job<RowOp, Row>, Fail> {
    Ok(Job {
        tasks: tasks(alloc)?,
        channels: channels(alloc)?,
        partitions: partitions(alloc)?,
    })
}

/// All of the moves are possible, one after the other.
fn run(rt: &impl Abort, alloc: Global, machine: &mut Machine, moves: &[Move]) -> Result<(), Fail> {
    assert_eq!(rt; machine.run(alloc, moves)?, moves.len());
    Ok(())
}

/// These rows, in this order.
fn expect_rows(rt: &impl Abort, rows: &[Row], wanted: &[(&str, i64)]) {
    assert_eq!(rt; rows.len(), wanted.len());
    for (row, (k, v)) in rows.iter().zip(wanted) {
        assert_eq!(rt; row.k.as_str(), *k);
        assert_eq!(rt; row.v, *v);
    }
}

/// The key a is counted twice. Both counts go down by one, and stand in the back-edge in their
/// order.
fn count_down_once(rt: &impl Abort, alloc: Global, machine: &mut Machine) -> Result<(), Fail> {
    let moves = [
        Move::Read(0),
        Move::Read(1),
        Move::Work(2, 0),
        Move::Work(2, 1),
        Move::Work(3, 2),
        Move::Work(3, 2),
    ];
    run(rt, alloc, machine, &moves)?;
    expect_rows(rt, machine.channel(3), &[("a", 0), ("a", 1)]);
    Ok(())
}

/// The key b is counted once, and goes round behind what is left of the second count of a. The
/// sink takes two of the three rows that end.
fn count_down(rt: &impl Abort, alloc: Global, machine: &mut Machine) -> Result<(), Fail> {
    let moves = [
        Move::Read(0),
        Move::Work(2, 0),
        Move::Work(3, 3),
        Move::Work(3, 3),
        Move::Work(3, 2),
        Move::Work(3, 3),
        Move::Work(3, 3),
        Move::Work(4, 4),
        Move::Work(4, 4),
    ];
    run(rt, alloc, machine, &moves)?;
    expect_rows(rt, machine.output(4), &[("a", 0), ("a", 0)]);
    expect_rows(rt, machine.channel(4), &[("b", 0)]);
    assert_eq!(rt; machine.step(alloc, &Move::Read(0))?, false);
    Ok(())
}

#[test]
fn counts_go_round_in_their_order(rt: HostRuntime) -> Result<(), Fail> {
    let mut machine = Machine::new(rt.alloc(), job(rt.alloc())?)?;
    count_down_once(&rt, rt.alloc(), &mut machine)?;
    count_down(&rt, rt.alloc(), &mut machine)
}
