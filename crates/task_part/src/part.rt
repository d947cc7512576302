//! The part, and how it is spelled.

ghost use Rattle.std.specs.Prelude.{◌≡◌, ◌≢◌, ℕ, List, ◌++◌, OnOk, IfErr};
ghost use Rattle.abs_codec.specs.declared.fault.CodecFault.TheVariants.{Memory, TooLong};

use abs_codec::{Codec, CodecFault, Items, Map};
use std::alloc::Global;

/// What a task held when it copied, and the records that it logged, by channel.
#[derive(Drop)]
pub enum Part<R, K: Ord, S> {
    /// The offset of a source.
    Source(u64),
    /// The map of an operator, and its logs.
    Operator(Map<K, S>, Items<(u32, Items<R>)>),
    /// The pending transactions of a sink, the newest last, and its logs.
    Sink(Items<u64>, Items<(u32, Items<R>)>),
}

/// Writes one value behind another.
fn write_both<A: Codec, B: Codec>(
    first: &A,
    second: &B,
    out: &mut Vec<u8>,
) -> Result<(), CodecFault>
    ensures appended { OnOk result ((A.HasSpelling first.now × B.HasSpelling second.now)
        × (out.new.items ≡ out.old.items ++ (A.spelling first.now ++ B.spelling second.now))) }
    ensures keeps { (more : List ℕ) × (out.new.items ≡ out.old.items ++ more) }
    ensures too_long { IfErr result (λ f. f ≢ Memory → (f ≡ TooLong)
        × ¬ (A.HasSpelling first.now × B.HasSpelling second.now)) }
{
    first.write(out)?;
    second.write(out)
}

impl<R: Codec, K: Codec + Ord, S: Codec> Codec for Part<R, K, S> {
    ghost use Rattle.task_part.specs.Spelling.{PartIsSpelled, part_spelling, part_at};
    ghost use Rattle.task_part.specs.Laws.{part_code};

    ghost HasSpelling = { PartIsSpelled R.HasSpelling K.Ord.cmp K.HasSpelling S.HasSpelling };

    ghost spelling = { part_spelling R.spelling K.spelling S.spelling };

    ghost reading = { part_at R.reading K.Ord.cmp K.reading S.reading };

    fn write(&self, out: &mut Vec<u8>) -> Result<(), CodecFault> {
        match self {
            Part::Source(offset) => {
                out.push(0)?;
                offset.write(out)?;
            }
            Part::Operator(map, logs) => {
                out.push(1)?;
                write_both(map, logs, out)?;
            }
            Part::Sink(transactions, logs) => {
                out.push(2)?;
                write_both(transactions, logs, out)?;
            }
        }
        Ok(())
    }

    #[tactic(auto, unfolding(crate::specs::Spelling::part_at))]
    fn read(alloc: Global, bytes: &[u8], at: usize) -> Result<(Part<R, K, S>, usize), CodecFault> {
        let (kind, end) = u8::read(alloc, bytes, at)?;
        match kind {
            0 => {
                let (offset, end) = u64::read(alloc, bytes, end)?;
                Ok((Part::Source(offset), end))
            }
            1 => {
                let (map, end) = Map::read(alloc, bytes, end)?;
                let (logs, end) = Items::read(alloc, bytes, end)?;
                Ok((Part::Operator(map, logs), end))
            }
            2 => {
                let (transactions, end) = Items::read(alloc, bytes, end)?;
                let (logs, end) = Items::read(alloc, bytes, end)?;
                Ok((Part::Sink(transactions, logs), end))
            }
            _ => Err(CodecFault::BadTag),
        }
    }

    fn duplicate(&self) -> Result<Part<R, K, S>, CodecFault> {
        match self {
            Part::Source(offset) => Ok(Part::Source(*offset)),
            Part::Operator(map, logs) => Ok(Part::Operator(map.duplicate()?, logs.duplicate()?)),
            Part::Sink(transactions, logs) => Ok(Part::Sink(
                transactions.duplicate()?,
                logs.duplicate()?,
            )),
        }
    }

    fn room_after(&self, limit: usize) -> Option<usize> {
        let rest = limit.checked_sub(1)?;
        match self {
            Part::Source(offset) => offset.room_after(rest),
            Part::Operator(map, logs) => {
                let rest = map.room_after(rest)?;
                logs.room_after(rest)
            }
            Part::Sink(transactions, logs) => {
                let rest = transactions.room_after(rest)?;
                logs.room_after(rest)
            }
        }
    }

    ghost code = { part_code R.HasSpelling R.spelling R.reading R.code K.Ord.cmp K.Ord.total
        K.HasSpelling K.spelling K.reading K.code S.HasSpelling S.spelling S.reading S.code };
}
