//! Runs a script.

ghost use Rattle.std.specs.Prelude.{◌≤◌};

use crate::answer::make_step;
use crate::committed::print_committed;
use crate::opening::{RowCore, open};
use crate::refusal::{Refusal, finish};
use crate::rows_log::rows_log;
use crate::text::read_bytes;
use dataflow_core::Desk;
use operators::RowOp;
use script_file::{Contents, Script, ScriptStep};
use std::alloc::Global;
use std::io::{Read, Write};

/// Makes the steps, with an answer line for each.
fn make_steps<W: Write>(
    core: &mut RowCore,
    desk: &mut Desk<RowOp>,
    steps: &[ScriptStep],
    out: &mut W,
) -> Result<(), Refusal> {
    for (number, step) in steps.iter().enumerate() {
        let answer = make_step(core, desk, step);
        writeln!(out, "{number} {answer}").map_err(|_| Refusal::Output)?;
    }
    Ok(())
}

/// Starts the job, makes the steps and prints the committed rows.
fn serve<W: Write>(
    alloc: Global,
    core: &mut RowCore,
    steps: &[ScriptStep],
    out: &mut W,
) -> Result<(), Refusal> {
    core.restart()?;
    let mut desk = Desk::new(alloc);
    make_steps(core, &mut desk, steps, out)?;
    print_committed(alloc, core, out)
}

fn run<R: Read + Drop, W: Write>(alloc: Global, file: R, out: &mut W) -> Result<(), Refusal> {
    let bytes = read_bytes(alloc, file)?;
    let Script {
        job,
        graph,
        contents: Contents { partitions, steps },
    } = Script::read(alloc, &bytes)?;
    let log = rows_log(alloc, graph.sources(), partitions)?;
    let mut core = open(alloc, &job, graph, log)?;
    serve(alloc, &mut core, &steps, out)
}

/// Runs a script over new devices: an answer line for each step, then the committed rows. It
/// answers the exit status: 0, or 1 where the script was refused or given up.
pub fn script<R: Read + Drop, W: Write, E: Write>(
    alloc: Global,
    file: R,
    out: &mut W,
    err: &mut E,
) -> u8
    ensures { result ≤ 1 }
{
    finish(run(alloc, file, out), out, err)
}
