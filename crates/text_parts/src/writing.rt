//! The text is written.

ghost use Rattle.std.specs.Prelude.{◌≡◌, ◌+◌, ◌^◌, ◌<◌, ◌≤◌, All, IfNone, OnOk};
ghost use Rattle.std.specs.List.{flat_map};
ghost use Rattle.std.specs.Io.KnownBytes.{Appends};
ghost use Rattle.text_parts.specs.Lines.{WritesLines};

use crate::fault::TextFault;
use crate::lines::Lines;
use crate::parts::{Part, Round, spell_round};
use std::alloc::Global;
use std::io::Write;
use std::thread::Threads;

/// A round has at most so many lines, whose text is in memory.
const LINES: u64 = 131_072;

/// Writes the text of a part.
fn write_part<E: Drop, W: Write>(part: Part<E>, out: &mut W) -> Result<(), TextFault<E>>
    ensures whole { OnOk result (part.fault ≡ None) }
    ensures bytes { OnOk result (Appends (W.contents out.old) (W.contents out.new)
        part.text.items) }
{
    let Part { text, fault } = part;
    if out.write_all(&text).is_err() {
        return Err(TextFault::Output);
    }
    match fault {
        Some(fault) => Err(fault),
        None => Ok(()),
    }
}

/// Writes the texts of the parts in order, up to the first that is not whole.
fn write_parts<E: Drop, W: Write>(parts: Vec<Part<E>>, out: &mut W) -> Result<(), TextFault<E>>
    ensures whole { OnOk result (All (λ part. part.fault ≡ None) parts.items) }
    ensures bytes { OnOk result (Appends (W.contents out.old) (W.contents out.new)
        (flat_map (λ part. part.text.items) parts.items)) }
{
    for part in parts {
        write_part(part, out)?;
    }
    Ok(())
}

/// Writes the lines of a round.
fn write_round<L: Lines + Sync, R: Threads + Sync, W: Write>(
    rt: &R,
    alloc: Global,
    lines: &L,
    round: Round,
    out: &mut W,
) -> Result<(), TextFault<L::Fault>>
where
    L::Fault: Send,
    ensures { OnOk result (WritesLines (L.IsLine lines.now) round.first round.count
        (W.contents out.old) (W.contents out.new)) }
{
    let parts = spell_round(rt, alloc, lines, round)?;
    write_parts(parts, out)
}

/// Writes so many lines, the first ones, in order. They are spelled by so many threads at most,
/// this one included. A line that is not spelled ends the text, and those before it are written.
pub fn write_lines<L: Lines + Sync, R: Threads + Sync, W: Write>(
    rt: &R,
    alloc: Global,
    lines: &L,
    count: u64,
    threads: u64,
    out: &mut W,
) -> Result<(), TextFault<L::Fault>>
where
    L::Fault: Send,
    ensures { OnOk result (WritesLines (L.IsLine lines.now) 0 count
        (W.contents out.old) (W.contents out.new)) }
{
    let mut done = 0;
    while done < count {
        let next = LINES.min(count - done);
        write_round(rt, alloc, lines, Round::new(done, next, threads), out)?;
        done += next;
    }
    Ok(())
}
