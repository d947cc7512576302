//! What a chain and a pick make of their operators, once at types that have their bounds. What each
//! kind makes of rows, and where their lanes lead, stands in tests/scripts.

use abs_codec::{Codec, NoMemory, Text};
use composed_operators::{Chain, KeylessRowOp, Pick};
use operators::{Operator, Outcome, Row, RowOp};
use std::alloc::Global;
use std::process::Abort;
use std::test::Fail;

/// What an operator makes of a record in a state that has its form.
fn outcome_of<O: Operator>(
    rt: &impl Abort,
    alloc: Global,
    op: &O,
    state: &O::State,
    item: &O::Record,
) -> Result<Outcome<O::State, O::Record>, NoMemory> {
    assert!(rt; state.fits());
    assert!(rt; op.suits(state));
    assert!(rt; item.fits());
    op.apply(alloc, state, item)
}

/// What is sent is one row, on this port and with this value.
fn expect_one(rt: &impl Abort, sent: &[(u32, Row)], port: u32, value: i64) {
    assert_eq!(rt; sent.len(), 1);
    assert_eq!(rt; sent[0].0, port);
    assert_eq!(rt; sent[0].1.v, value);
}

/// Works off a row of the key, for which the operator sends one row, and gives the key's next
/// state.
fn work_off<O: Operator<Record = Row>>(
    rt: &impl Abort,
    alloc: Global,
    op: &O,
    state: &O::State,
    (v, port, value): (i64, u32, i64),
) -> Result<O::State, NoMemory> {
    let k = Text::from_str(alloc, "a")?;
    let outcome = outcome_of(rt, alloc, op, state, &Row { k, v })?;
    expect_one(rt, &outcome.sent, port, value);
    Ok(outcome.state)
}

/// For rows of one key an operator sends a row each: the value of each row, and the port and the
/// value of what is sent.
fn expect_sent<O: Operator<Record = Row>>(
    rt: &impl Abort,
    alloc: Global,
    op: &O,
    rows: &[(i64, u32, i64)],
) -> Result<(), Fail> {
    let mut state = op.fresh(alloc)?;
    for row in rows {
        state = work_off(rt, alloc, op, &state, *row)?;
    }
    Ok(())
}

/// An operator has so many ports, and its copy is the operator.
fn expect_copy<O: Operator>(rt: &impl Abort, op: &O, ports: u32) -> Result<(), Fail> {
    assert_eq!(rt; op.ports(), ports);
    assert!(rt; op.copy()? == *op);
    Ok(())
}

/// Port 0 of the loop is split.
#[test]
fn a_chain_has_the_other_ports_behind(rt: HostRuntime) -> Result<(), Fail> {
    let op = RowOp::Split { n: 0 };
    let looped = Chain::new(RowOp::LoopDown, KeylessRowOp { op });
    expect_copy(&rt, &looped, 3)?;
    expect_sent(
        &rt,
        rt.alloc(),
        &looped,
        &[(2, 2, 1), (0, 0, 0), (-1, 1, -1)],
    )
}

type Picked = Pick<RowOp, KeylessRowOp>;

/// It counts down.
#[test]
fn a_pick_is_its_second(rt: HostRuntime) -> Result<(), Fail> {
    let op = RowOp::LoopDown;
    let second: Picked = Pick::Second(KeylessRowOp { op });
    expect_sent(&rt, rt.alloc(), &second, &[(7, 1, 6)])
}
