//! The parts of a text, each of which one thread spells.

ghost use Rattle.std.specs.Prelude.{◌≡◌, ◌+◌, ◌*◌, ◌-◌, ◌^◌, ◌<◌, ◌≤◌, ◌++◌, ℕ, List, max, min, IfOk, IfNone, OnOk, length, slice_index_or};
ghost use Rattle.text_parts.specs.Lines.{AreLines, lines_before};

use crate::fault::TextFault;
use crate::lines::Lines;
use std::alloc::{AllocError, Global};
use std::thread;
use std::thread::Threads;

/// A thread has at least so many lines, where there are more.
const LEAST: u64 = 1_024;

/// Lines that are spelled at the same time, in parts of so many lines, the last of which may have
/// less.
#[derive(Clone, Copy)]
pub(crate) struct Round {
    first: u64,
    count: u64,
    parts: u64,
    size: u64,
    ghost in_range: { first + count < 2 ^ 64 },
    ghost covered: { count ≤ parts * size },
}

impl Round {
    /// So many lines from this one on, for so many threads at most.
    pub(crate) fn new(first: u64, count: u64, threads: u64) -> Round
        requires { first + count < 2 ^ 64 }
        ensures first { result.first ≡ first }
        ensures count { result.count ≡ count }
        ensures parts { result.parts ≤ max 1 threads }
    {
        let parts = count.div_ceil(LEAST).min(threads).max(1);
        let size = count.div_ceil(parts);
        Round {
            first,
            count,
            parts,
            size,
        }
    }

    /// How many of the lines stand before a part.
    fn before(self, part: u64) -> u64
        ensures { result ≡ lines_before self.count self.size part }
    {
        self.count.min(part.saturating_mul(self.size))
    }
}

/// The text of a part, and why it ends before the part's end, where it does.
#[derive(Drop)]
pub(crate) struct Part<E> {
    pub(crate) text: Vec<u8>,
    pub(crate) fault: Option<TextFault<E>>,
}

/// Puts so many lines last in the text, from this one on.
fn append_lines<L: Lines>(
    lines: &L,
    first: u64,
    count: u64,
    text: &mut Vec<u8>,
) -> Result<(), TextFault<L::Fault>>
    requires { first + count < 2 ^ 64 }
    ensures { OnOk result ((bytes : List ℕ) × AreLines (L.IsLine lines.now) first count bytes
        × (text.new.items ≡ text.old.items ++ bytes)) }
{
    let mut done = 0;
    while done < count {
        match lines.put_lines(first + done, count - done, text) {
            Ok(put) => done += put,
            Err(fault) => return Err(TextFault::Line(fault)),
        }
    }
    Ok(())
}

/// The text of so many lines, from this one on.
fn spell<L: Lines>(alloc: Global, lines: &L, first: u64, count: u64) -> Part<L::Fault>
    requires { first + count < 2 ^ 64 }
    ensures { IfNone result.fault (AreLines (L.IsLine lines.now) first count result.text.items) }
{
    let mut text = Vec::new(alloc);
    let fault = append_lines(lines, first, count, &mut text).err();
    Part { text, fault }
}

/// The text of a part of the round.
fn spell_part<L: Lines>(alloc: Global, lines: &L, round: Round, part: u64) -> Part<L::Fault>
    ensures { IfNone result.fault (AreLines (L.IsLine lines.now)
        (round.first + lines_before round.count round.size part)
        (min round.size (round.count - lines_before round.count round.size part))
        result.text.items) }
{
    let before = round.before(part);
    let count = round.size.min(round.count - before);
    spell(alloc, lines, round.first + before, count)
}

/// The texts of the parts of the round, in order, each spelled by a thread of its own.
pub(crate) fn spell_round<L: Lines + Sync, R: Threads + Sync>(
    rt: &R,
    alloc: Global,
    lines: &L,
    round: Round,
) -> Result<Vec<Part<L::Fault>>, AllocError>
where
    L::Fault: Send,
    ensures len { IfOk result (λ parts. length parts.items ≡ round.parts) }
    ensures each { IfOk result (λ parts. (k : ℕ) (d : _) → k < round.parts
        → IfNone (slice_index_or parts.items k d).fault (AreLines (L.IsLine lines.now)
        (round.first + lines_before round.count round.size k)
        (min round.size (round.count - lines_before round.count round.size k))
        (slice_index_or parts.items k d).text.items)) }
{
    thread::map_indices(
        rt,
        alloc,
        round.parts as usize,
        &|part| spell_part(alloc, lines, round, part as u64),
    )
}
