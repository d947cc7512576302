//! What several threads read.

ghost use Rattle.std.specs.Prelude.{◌≡◌, ◌<◌, ◌≤◌, ◌++◌, is_none, length};
ghost use Rattle.std.specs.Io.{IsEmptyOrEndsWith};
ghost use Rattle.std.specs.Thread.{IsSync};
ghost use Rattle.line_parts.specs.Lines.{in_runs, ReadsLines};

use crate::part::{Part, line_len, read_part};
use crate::reader::LineReader;
use std::alloc::Global;
use std::thread::{Threads, join};

/// A thread has at least half so many bytes, where there are more.
const LEAST: usize = 65_536;

/// The text in two, behind the first end of a line at or after so many bytes.
fn cut<'a>(text: &'a [u8], at: usize) -> (&'a [u8], &'a [u8])
    requires { at ≤ length text.now }
    ensures all { text.now ≡ result.0.now ++ result.1.now }
    ensures end { 0 < length result.1.now → IsEmptyOrEndsWith result.0.now 10 }
{
    let (_, behind) = text.split_at(at);
    text.split_at(at + line_len(behind))
}

/// What the lines of a text have, read by so many threads at most, this one included.
#[cycle(threads)]
pub fn read_lines<L: LineReader + Sync, R: Threads + Sync>(
    rt: &R,
    alloc: Global,
    reader: &L,
    text: &[u8],
    threads: usize,
) -> Part<L::Item, L::Fault>
    ensures reads { ReadsLines (L.HasItem reader.now) text.now result.lines
        (in_runs result.runs.items) (is_none result.fault) }
    ensures bound { result.lines ≤ length text.now }
{
    if threads < 2 || text.len() < LEAST {
        return read_part(alloc, reader, text);
    }
    let others = threads - 1;
    let (front, back) = cut(text, text.len() / threads * others);
    let first = move || -> Part<L::Item, L::Fault>
        requires { IsSync R.row × IsSync L.row }
        ensures reads { ReadsLines (L.HasItem reader.entry.now) front.entry.now result.lines
            (in_runs result.runs.items) (is_none result.fault) }
        ensures bound { result.lines ≤ length front.entry.now }
    { read_lines(rt, alloc, reader, front, others) };
    let last = move || -> Part<L::Item, L::Fault>
        ensures reads { ReadsLines (L.HasItem reader.entry.now) back.entry.now result.lines
            (in_runs result.runs.items) (is_none result.fault) }
        ensures bound { result.lines ≤ length back.entry.now }
    { read_part(alloc, reader, back) };
    // Each thread but this one is begun by this one.
    let (last, first) = join(rt, last, first);
    first.and(last)
}
