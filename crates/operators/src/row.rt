//! Rows.

ghost use Rattle.abs_codec.specs.Reading.{text_within};

use crate::parameters::KEY_LIMIT;
use abs_codec::{Codec, CodecFault, Text};
use std::alloc::Global;

/// A key of at most 1,024 bytes, and a value.
#[derive(Debug, PartialEq, Eq, Drop)]
pub struct Row {
    pub k: Text,
    pub v: i64,
}

impl Row {
    ghost use Rattle.std.specs.Prelude.{◌≡◌};
    ghost use Rattle.operators.specs.Lanes.{lane_of};

    /// The number by which a hashed edge picks the row's subtask.
    pub fn lane(&self) -> u64
        ensures { result ≡ lane_of self.now.k }
    {
        let mut lane: u64 = 0;
        for byte in self.k.as_str().as_bytes() {
            lane = (31 * lane + *byte as u64) % (1 << 32);
        }
        lane
    }
}

impl Codec for Row {
    ghost use Rattle.operators.specs.RowSpelling.{RowIsSpelled, row_spelling, row_at};
    ghost use Rattle.operators.specs.RowCode.{row_code};

    ghost HasSpelling = { RowIsSpelled };

    ghost spelling = { row_spelling };

    ghost reading = { row_at };

    fn write(&self, out: &mut Vec<u8>) -> Result<(), CodecFault> {
        if self.k.len() > KEY_LIMIT as usize {
            return Err(CodecFault::TooLong);
        }
        self.k.write(out)?;
        self.v.write(out)
    }

    #[tactic(auto, unfolding(abs_codec::specs::Reading::pair_at))]
    fn read(alloc: Global, bytes: &[u8], at: usize) -> Result<(Row, usize), CodecFault> {
        let (k, end) = Text::read_within(alloc, bytes, at, KEY_LIMIT)?;
        let (v, end) = i64::read(alloc, bytes, end)?;
        Ok((Row { k, v }, end))
    }

    fn duplicate(&self) -> Result<Row, CodecFault> {
        Ok(Row {
            k: self.k.duplicate()?,
            v: self.v,
        })
    }

    fn room_after(&self, limit: usize) -> Option<usize> {
        if self.k.len() > KEY_LIMIT as usize {
            return None;
        }
        let rest = self.k.room_after(limit)?;
        self.v.room_after(rest)
    }

    ghost code = { row_code };
}
