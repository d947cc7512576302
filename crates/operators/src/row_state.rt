//! The states of row operators.

ghost use Rattle.std.specs.Prelude.{◌≡◌, ◌∷◌};
ghost use Rattle.std.specs.Int.{w64};
ghost use Rattle.abs_codec.specs.Spelling.{signed_spelling};

use abs_codec::{Codec, CodecFault, Items, put_over};
use std::alloc::Global;

/// What an operator keeps for a key.
#[derive(Debug, PartialEq, Eq, Drop)]
pub enum RowState {
    /// Nothing: the operator keeps no state.
    Plain,
    /// What was counted or summed so far.
    Number(i64),
    /// The values of a window that is not full.
    Numbers(Items<i64>),
}

impl RowState {
    ghost use Rattle.std.specs.Prelude.{◌≡◌};
    ghost use Rattle.operators.specs.RowMeaning.{number_in, numbers_in};

    /// The number that the state holds, 0 if it holds none.
    pub(crate) fn number(&self) -> i64
        ensures { result ≡ number_in self.now }
    {
        match self {
            RowState::Number(n) => *n,
            _ => 0,
        }
    }

    /// The numbers that the state holds, none if it holds no list.
    pub(crate) fn into_numbers(self, alloc: Global) -> Vec<i64>
        ensures { result.items ≡ numbers_in self }
    {
        match self {
            RowState::Numbers(numbers) => numbers.into_vec(),
            _ => Vec::new(alloc),
        }
    }
}

/// The tag of a number and its bytes, so that they are appended in one step.
#[inline]
fn number_bytes(n: i64) -> [u8; 9]
    ensures { result ≡ 1 ∷ signed_spelling w64 n }
{
    let [a, b, c, d, e, f, g, h] = n.to_be_bytes();
    [1, a, b, c, d, e, f, g, h]
}

impl Codec for RowState {
    ghost use Rattle.operators.specs.RowSpelling.{StateIsSpelled, state_spelling, state_at};
    ghost use Rattle.operators.specs.RowCode.{state_code};

    ghost HasSpelling = { StateIsSpelled };

    ghost spelling = { state_spelling };

    ghost reading = { state_at };

    fn write(&self, out: &mut Vec<u8>) -> Result<(), CodecFault> {
        match self {
            RowState::Plain => out.push(0)?,
            RowState::Number(n) => out.extend_from_slice(&number_bytes(*n))?,
            RowState::Numbers(ns) => {
                out.push(2)?;
                ns.write(out)?;
            }
        }
        Ok(())
    }

    #[inline]
    fn write_over(&self, bytes: &mut [u8], at: usize) -> Option<usize> {
        match self {
            RowState::Plain => put_over(bytes, at, &[0]),
            RowState::Number(n) => put_over(bytes, at, &number_bytes(*n)),
            RowState::Numbers(ns) => {
                let start = put_over(bytes, at, &[2])?;
                ns.write_over(bytes, start)
            }
        }
    }

    #[tactic(auto, unfolding(crate::specs::RowSpelling::state_at))]
    fn read(alloc: Global, bytes: &[u8], at: usize) -> Result<(RowState, usize), CodecFault> {
        let (tag, end) = u8::read(alloc, bytes, at)?;
        match tag {
            0 => Ok((RowState::Plain, end)),
            1 => {
                let (n, end) = i64::read(alloc, bytes, end)?;
                Ok((RowState::Number(n), end))
            }
            2 => {
                let (ns, end) = Items::read(alloc, bytes, end)?;
                Ok((RowState::Numbers(ns), end))
            }
            _ => Err(CodecFault::BadTag),
        }
    }

    fn duplicate(&self) -> Result<RowState, CodecFault> {
        match self {
            RowState::Plain => Ok(RowState::Plain),
            RowState::Number(n) => Ok(RowState::Number(*n)),
            RowState::Numbers(ns) => Ok(RowState::Numbers(ns.duplicate()?)),
        }
    }

    fn room_after(&self, limit: usize) -> Option<usize> {
        let rest = limit.checked_sub(1)?;
        match self {
            RowState::Plain => Some(rest),
            RowState::Number(n) => n.room_after(rest),
            RowState::Numbers(ns) => ns.room_after(rest),
        }
    }

    ghost code = { state_code };
}
