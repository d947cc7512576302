//! Steps on a core.

use crate::devices::Devices;
use crate::test_core::TestCore;
use script_file::parse_step;
use std::alloc::Global;
use std::process::Abort;
use std::test::Fail;

/// The job over new devices and empty partitions, down.
pub(crate) fn opened(alloc: Global, job: &str) -> Result<TestCore, Fail> {
    let devices = Devices::new(alloc, job)?;
    TestCore::open(alloc, job, devices)
}

/// Makes a script's step, and gives its answer.
fn answer(alloc: Global, core: &mut TestCore, step: &str) -> Result<String, Fail> {
    let step = parse_step(alloc, step).map_err(|_| Fail::new("a bad step"))?;
    let answer = core.make(&step);
    Ok(format!(in alloc; "{answer}")?)
}

/// Makes a script's steps, each of which comes to the answer beside it.
pub(crate) fn expect_answers(
    rt: &impl Abort,
    alloc: Global,
    core: &mut TestCore,
    steps: &[(&str, &str)],
) -> Result<(), Fail> {
    for (step, wanted) in steps {
        let said = answer(alloc, core, step)?;
        assert_eq!(rt; said.as_str(), *wanted, "{step}");
    }
    Ok(())
}
