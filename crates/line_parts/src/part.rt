//! What one thread reads.

ghost use Rattle.std.specs.Prelude.{◌≡◌, ◌≢◌, ◌+◌, ◌<◌, ◌≤◌, ◌^◌, ◌++◌, ◌⊎◌, Option, None, Some, is_none, length, OnOk, OnErr};
ghost use Rattle.std.specs.Io.BufRead.{take_through};
ghost use Rattle.line_parts.specs.Lines.{in_runs, items_of, ReadsLines};
ghost use Rattle.line_parts.specs.declared.part.PartFault.TheVariants as why;

use crate::reader::LineReader;
use memchr::memchr;
use std::alloc::{AllocFailed, Global};

/// A line counts as no shorter where room is taken, so that a first line that is blank does not ask
/// for an item a byte.
const SHORT_LINE: usize = 16;

/// Why a text is not read to its end.
#[derive(Debug, Drop)]
pub enum PartFault<E> {
    /// A line is not read.
    Line(E),
    Memory,
}

impl<T: Drop, E> From<AllocFailed<T>> for PartFault<E> {
    ghost from_gives = { λ _ e. e ≡ why.Memory };

    fn from(_e: AllocFailed<T>) -> Self {
        PartFault::Memory
    }
}

/// What a thread reads of a text's lines, in order, up to the first that is not read.
#[derive(Drop)]
struct Run<X, E> {
    items: Vec<X>,
    lines: u64,
    fault: Option<PartFault<E>>,
}

/// What the lines of a text have, in order, up to the first that is not read.
#[derive(Drop)]
pub struct Part<X, E> {
    /// The items, in a run for each thread that read some.
    pub runs: Vec<Vec<X>>,
    /// How many lines were read.
    pub lines: u64,
    /// Why the line behind them was not.
    pub fault: Option<PartFault<E>>,
}

impl<X: Drop, E: Drop> Part<X, E> {
    /// This part and the one behind it.
    pub(crate) fn and(self, behind: Part<X, E>) -> Part<X, E>
        requires { self.lines + behind.lines < 2 ^ 64 }
        ensures faulty { self.fault ≢ None → result ≡ self }
        ensures whole { self.fault ≡ None
            → ((result.runs.items ≡ self.runs.items ++ behind.runs.items)
            × (result.lines ≡ self.lines + behind.lines) × (result.fault ≡ behind.fault))
            ⊎ ((result.runs.items ≡ self.runs.items) × (result.lines ≡ self.lines)
            × (result.fault ≡ Some why.Memory)) }
    {
        if self.fault.is_some() {
            return self;
        }
        let Part {
            mut runs,
            lines,
            ..
        } = self;
        let Part {
            runs: mut more,
            lines: count,
            fault,
        } = behind;
        match runs.append(&mut more) {
            Ok(()) => Part {
                runs,
                lines: lines + count,
                fault,
            },
            Err(_) => Part {
                runs,
                lines,
                fault: Some(PartFault::Memory),
            },
        }
    }
}

/// How many bytes the first line has, with its end.
pub(crate) fn line_len(text: &[u8]) -> usize
    ensures { result ≡ length (take_through 10 text.now) }
{
    match memchr(b'\n', text) {
        Some(at) => at + 1,
        None => text.len(),
    }
}

/// Puts what a line has last.
fn read_line<L: LineReader>(
    reader: &L,
    line: &[u8],
    items: &mut Vec<L::Item>,
) -> Result<(), PartFault<L::Fault>>
    ensures ok { OnOk result ((item : Option L.Item) × L.HasItem reader.now line.now item
        × (items.new.items ≡ items.old.items ++ items_of item)) }
    ensures err { OnErr result (items.new.items ≡ items.old.items) }
{
    let item = match reader.read(line) {
        Ok(item) => item,
        Err(fault) => return Err(PartFault::Line(fault)),
    };
    if let Some(item) = item {
        items.push(item)?;
    }
    Ok(())
}

/// Takes room for about as many items as the text has lines, if they are as long as its first. With
/// no memory for it, the items take their room one by one.
fn take_room<X>(text: &[u8], items: &mut Vec<X>)
    ensures { items.new.items ≡ items.old.items }
{
    let _ = items.reserve(text.len() / line_len(text).max(SHORT_LINE));
}

/// What the lines of a text have, in one run.
fn read_run<L: LineReader>(alloc: Global, reader: &L, text: &[u8]) -> Run<L::Item, L::Fault>
    ensures reads { ReadsLines (L.HasItem reader.now) text.now result.lines result.items.items
        (is_none result.fault) }
    ensures bound { result.lines ≤ length text.now }
{
    let mut items = Vec::new(alloc);
    take_room(text, &mut items);
    let mut lines = 0;
    let mut rest = text;
    while !rest.is_empty() {
        let (line, behind) = rest.split_at(line_len(rest));
        if let Err(fault) = read_line(reader, line, &mut items) {
            return Run {
                items,
                lines,
                fault: Some(fault),
            };
        }
        lines += 1;
        rest = behind;
    }
    Run {
        items,
        lines,
        fault: None,
    }
}

/// What the lines of a text have.
pub(crate) fn read_part<L: LineReader>(
    alloc: Global,
    reader: &L,
    text: &[u8],
) -> Part<L::Item, L::Fault>
    ensures reads { ReadsLines (L.HasItem reader.now) text.now result.lines
        (in_runs result.runs.items) (is_none result.fault) }
    ensures bound { result.lines ≤ length text.now }
{
    let Run {
        items,
        lines,
        fault,
    } = read_run(alloc, reader, text);
    let mut runs = Vec::new(alloc);
    match runs.push(items) {
        Ok(()) => Part { runs, lines, fault },
        Err(_) => Part {
            runs: Vec::new(alloc),
            lines: 0,
            fault: Some(PartFault::Memory),
        },
    }
}
