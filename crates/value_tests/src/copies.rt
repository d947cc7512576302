//! A copy that is handed out, and spelled by someone else.

use abs_codec::Map;
use operator_state::OperatorState;
use std::alloc::Global;
use std::collections::BTreeMap;
use std::process::Abort;
use std::test::Fail;

/// A count by number.
type Counts = OperatorState<i64, i64>;

/// So many numbers from 0 on, each counted once, and copied.
fn copied(alloc: Global, numbers: i64) -> Result<Counts, Fail> {
    let mut tree = BTreeMap::new(alloc);
    for number in 0..numbers {
        tree.insert(number, 1)?;
    }
    let mut counts = OperatorState::from_map(alloc, Map::from_btree_map(alloc, tree))?;
    counts.copy()?;
    Ok(counts)
}

/// So many entries of the copy are spelled, and so many are left: a byte, their number, and sixteen
/// bytes for each that is spelled.
fn expect_spelled(rt: &impl Abort, counts: &Counts, entries: usize, left: usize) {
    assert_eq!(rt; counts.unspelled(), left);
    assert_eq!(rt;
        counts.part().len(),
        entries.saturating_mul(16).saturating_add(5)
    );
}

#[test]
fn a_copy_is_spelled_by_someone_else(rt: HostRuntime) -> Result<(), Fail> {
    let mut counts = copied(rt.alloc(), 300)?;
    let work = counts.hand_out(400);
    assert!(&rt; work.is_some());
    assert!(&rt; counts.hand_out(400).is_none());
    assert!(&rt; !counts.take_spelled());
    counts.set(7, 2)?;
    if let Some(work) = work {
        assert_eq!(&rt; work.entries(), 300);
        work.run(rt.alloc());
    }
    assert!(&rt; counts.take_spelled());
    expect_spelled(&rt, &counts, 300, 0);
    assert!(&rt; !counts.take_spelled());
    Ok(())
}

#[test]
fn a_copy_is_spelled_in_pieces_by_others(rt: HostRuntime) -> Result<(), Fail> {
    let mut counts = copied(rt.alloc(), 901)?;
    for (spelled, left) in [(300, 601), (600, 301), (900, 1)] {
        let work = counts.hand_out(300);
        assert!(&rt; work.is_some());
        if let Some(work) = work {
            assert_eq!(&rt; work.entries(), 300);
            work.run(rt.alloc());
        }
        assert!(&rt; counts.take_spelled());
        expect_spelled(&rt, &counts, spelled, left);
    }
    assert!(&rt; counts.hand_out(300).is_none());
    counts.spell_some(300)?;
    expect_spelled(&rt, &counts, 901, 0);
    Ok(())
}

#[test]
fn what_the_task_has_spelled_itself_is_not_taken(rt: HostRuntime) -> Result<(), Fail> {
    let mut counts = copied(rt.alloc(), 600)?;
    let work = counts.hand_out(300);
    assert!(&rt; work.is_some());
    counts.spell_some(1)?;
    if let Some(work) = work {
        work.run(rt.alloc());
    }
    assert!(&rt; !counts.take_spelled());
    expect_spelled(&rt, &counts, 1, 599);
    assert!(&rt; counts.hand_out(300).is_some());
    Ok(())
}

#[test]
fn few_keys_are_not_handed_out(rt: HostRuntime) -> Result<(), Fail> {
    assert!(&rt; copied(rt.alloc(), 15)?.hand_out(300).is_none());
    assert!(&rt; copied(rt.alloc(), 300)?.hand_out(15).is_none());
    Ok(())
}
