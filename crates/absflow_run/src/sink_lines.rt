//! The committed rows of a sink subtask, each a line.

ghost use Rattle.std.specs.Prelude.{◌≡◌, IfOk};
ghost use Rattle.absflow_run.specs.Printed.{IsRecordLine};

use crate::committed::CommittedRows;
use crate::record_text::append_records;
use crate::refusal::Refusal;
use std::alloc::Global;
use text_parts::Lines;

/// The rows that a sink subtask has committed, line by line.
#[derive(Clone, Copy)]
pub struct SinkLines<'a, C> {
    alloc: Global,
    pub(crate) core: &'a C,
    pub(crate) sink: u32,
}

impl<'a, C> SinkLines<'a, C> {
    pub fn new(alloc: Global, core: &'a C, sink: u32) -> SinkLines<'a, C>
        ensures core { result.core.now ≡ core.now }
        ensures sink { result.sink ≡ sink }
    {
        SinkLines { alloc, core, sink }
    }
}

impl<C: CommittedRows> Lines for SinkLines<'_, C> {
    type Fault = Refusal;

    ghost IsLine = { λ lines. IsRecordLine (C.records lines.core.now lines.sink) };

    fn put_lines(&self, first: u64, count: u64, text: &mut Vec<u8>) -> Result<u64, Refusal> {
        let records = self.core.committed_from(self.sink, first)?;
        if records.is_empty() {
            return Ok(count);
        }
        let put = count.min(records.len() as u64);
        append_records(self.alloc, text, &records[..put as usize])?;
        Ok(put)
    }
}
