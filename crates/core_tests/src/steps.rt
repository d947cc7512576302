//! Lists of calls, as a core makes them.

ghost use Rattle.std.specs.List.{AllByRecursion};
ghost use Rattle.engine_steps.specs.Fitting.{StepFits};

use crate::cores::{expect_answers, opened};
use crate::jobs::LINE;
use crate::test_core::TestCore;
use abs_codec::{Codec, Text};
use dataflow_core::{CoreFault, Reply, Rules, Step};
use operators::{Row, RowOp};
use std::alloc::Global;
use std::process::Abort;
use std::test::Fail;

/// A core's replies to a list of calls are these, whichever of them are refusals.
fn expect_replies(
    rt: &impl Abort,
    core: &mut TestCore,
    steps: &[Step<Row>],
    wanted: &[Reply],
) -> Result<(), Fail>
    requires { AllByRecursion (StepFits ⟦<RowOp as Rules>⟧.RecordFits) steps.now }
{
    let replies = core.make_calls(steps)?;
    assert_eq!(rt; replies.as_slice(), wanted);
    Ok(())
}

/// A row goes from the source to the sink; task 1 is no source.
fn append_and_work(rt: &impl Abort, alloc: Global, core: &mut TestCore) -> Result<(), Fail> {
    let k = Text::from_str(alloc, "a")?;
    let row = Row { k, v: 1 };
    assert!(rt; row.fits());
    expect_replies(rt, core, &[Step::Append(0, row)], &[Reply::Accepted])?;
    let steps = [
        Step::Read(1),
        Step::Read(0),
        Step::Read(0),
        Step::Claim(1, 0),
        Step::Finish(0),
        Step::Claim(2, 0),
        Step::Finish(1),
    ];
    let wanted = [
        Reply::Refused(CoreFault::NoSuchTask),
        Reply::Accepted,
        Reply::Refused(CoreFault::NotReady),
        Reply::Number(0),
        Reply::Accepted,
        Reply::Number(1),
        Reply::Accepted,
    ];
    expect_replies(rt, core, &steps, &wanted)
}

/// A refused call does not end a list.
#[test]
fn lists_of_calls_are_made_in_order(rt: HostRuntime) -> Result<(), Fail> {
    let mut core = opened(rt.alloc(), LINE)?;
    expect_answers(&rt, rt.alloc(), &mut core, &[("restart", "ok 0")])?;
    append_and_work(&rt, rt.alloc(), &mut core)
}
