//! A task's copy is made, and spelled.

ghost use Rattle.std.specs.Prelude.{◌≡◌, List, [], Some, OnOk, OnErr, IfOk};
ghost use Rattle.task_part.specs.declared.part.Part.{Part};
ghost use Rattle.task_part.specs.declared.part.Part.TheVariants as Part;
ghost use Rattle.task_part.specs.Spelling.{logs_now, part_spelling, PartIsSpelled};
ghost use Rattle.job_state.specs.declared.holding.Holding.TheVariants as Holding;
ghost use Rattle.job_state.specs.Held.{with_logs};

use crate::task::{Kind, Task};
use abs_codec::{Codec, NoMemory};
use bytes::Bytes;
use operator_state::{CopyWork, OperatorState};
use std::alloc::Global;
use task_part::{Part, write_with_logs};

/// The spelling of the part that a copy is with these logs, in place of what the vector held. What
/// has no spelling counts as want of memory.
fn spell_copy<R: Codec, K: Codec + Ord, S: Codec>(
    copy: &Part<R, K, S>,
    logs: &[(u32, &[R])],
    out: &mut Vec<u8>,
) -> Result<(), NoMemory>
    ensures spelled { OnOk result (PartIsSpelled R.HasSpelling K.Ord.cmp K.HasSpelling S.HasSpelling
        (with_logs (logs_now logs.now) copy.now)
        × (out.new.items ≡ part_spelling R.spelling K.spelling S.spelling
        (with_logs (logs_now logs.now) copy.now))) }
{
    out.clear();
    write_with_logs(copy, logs, out).map_err(|_| NoMemory)
}

/// Spells the part that the copy of these states is with these logs.
fn spell_states<R: Codec, K: Codec + Ord, S: Codec>(
    states: &mut OperatorState<K, S>,
    logs: &[(u32, &[R])],
) -> Result<(), NoMemory>
    ensures spelled { OnOk result ((copy : List (K × S)) → states.old.copy ≡ Some copy
        → PartIsSpelled R.HasSpelling K.Ord.cmp K.HasSpelling S.HasSpelling
        (Part.Operator copy (logs_now logs.now))
        × (states.new.part ≡ part_spelling R.spelling K.spelling S.spelling
        (Part.Operator copy (logs_now logs.now)))) }
    ensures entries { states.new.entries ≡ states.old.entries }
    ensures copy { states.new.copy ≡ states.old.copy }
{
    let unspelled = states.unspelled();
    states.spell_some(unspelled)?;
    states.spell_logs(logs)
}

impl<R: Codec, K: Codec + Ord, S: Codec> Task<R, K, S> {
    /// An operator copies its states.
    pub(crate) fn copy_states(&mut self) -> Result<(), NoMemory>
        ensures holding { self.new.holding ≡ self.old.holding }
        ensures ok { OnOk result ((entries : List (K × S))
            → self.old.holding ≡ Holding.Operator entries
            → self.new.copy ≡ Some (Part.Operator entries [])) }
        ensures err { OnErr result (self.new.copy ≡ self.old.copy) }
    {
        if let Kind::Operator(states) = &mut self.kind {
            states.copy()?;
        }
        Ok(())
    }

    /// Hands out the work on at most so many of the next entries of an operator's copy, where that
    /// is enough.
    pub(crate) fn hand_out(&mut self, most: usize) -> Option<CopyWork<K, S>>
        ensures holding { self.new.holding ≡ self.old.holding }
        ensures copy { self.new.copy ≡ self.old.copy }
    {
        match &mut self.kind {
            Kind::Operator(states) => states.hand_out(most),
            _ => None,
        }
    }

    /// Takes what was spelled of the copy elsewhere, or spells at most so many entries of it, or
    /// where all are spelled merges at most so many later writes, and answers whether there was
    /// such work.
    pub(crate) fn spell_some(&mut self, most: usize) -> Result<bool, NoMemory>
        ensures holding { self.new.holding ≡ self.old.holding }
        ensures copy { self.new.copy ≡ self.old.copy }
    {
        let Kind::Operator(states) = &mut self.kind else {
            return Ok(false);
        };
        if states.take_spelled() {
            return Ok(true);
        }
        if states.unspelled() > 0 {
            states.spell_some(most)?;
            return Ok(true);
        }
        if states.unmerged() > 0 {
            states.merge_some(most)?;
            return Ok(true);
        }
        Ok(false)
    }

    /// Spells all that is left of the copy, and merges all later writes.
    pub(crate) fn spell_all(&mut self) -> Result<(), NoMemory>
        ensures holding { self.new.holding ≡ self.old.holding }
        ensures copy { self.new.copy ≡ self.old.copy }
    {
        if let Kind::Operator(states) = &mut self.kind {
            let unspelled = states.unspelled();
            states.spell_some(unspelled)?;
            let unmerged = states.unmerged();
            states.merge_some(unmerged)?;
        }
        Ok(())
    }

    /// Spells the part that the copy is with these logs. What is left of the copy is spelled first.
    pub(crate) fn spell_part(&mut self, logs: &[(u32, &[R])]) -> Result<(), NoMemory>
        ensures spelled { OnOk result ((p : Part R K S) → self.old.copy ≡ Some p
            → PartIsSpelled R.HasSpelling K.Ord.cmp K.HasSpelling S.HasSpelling
            (with_logs (logs_now logs.now) p)
            × (self.new.part ≡ part_spelling R.spelling K.spelling S.spelling
            (with_logs (logs_now logs.now) p))) }
        ensures holding { self.new.holding ≡ self.old.holding }
        ensures copy { self.new.copy ≡ self.old.copy }
    {
        match &mut self.kind {
            Kind::Source(_, Some(copy)) => spell_copy(copy, logs, &mut self.bytes),
            Kind::Operator(states) => spell_states(states, logs),
            Kind::Sink(_, Some(copy)) => spell_copy(copy, logs, &mut self.bytes),
            _ => Ok(()),
        }
    }

    /// The part, as far as it is spelled, which others may keep. That of a source or a sink is
    /// short, and is copied.
    pub(crate) fn share_part(&mut self, alloc: Global) -> Result<Bytes, NoMemory>
        ensures part { IfOk result (λ bytes. bytes ≡ self.old.part) }
        ensures same { self.new ≡ self.old }
    {
        match &mut self.kind {
            Kind::Source(_, _) => Ok(Bytes::copy_from_slice(alloc, &self.bytes)?),
            Kind::Operator(states) => states.share_part(),
            Kind::Sink(_, _) => Ok(Bytes::copy_from_slice(alloc, &self.bytes)?),
        }
    }
}
