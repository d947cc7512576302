//! The spelling of a part whose logs stand elsewhere: without a second copy of what was copied, or
//! of a log.

ghost use Rattle.std.specs.Prelude.{◌≡◌, ◌≢◌, ◌<◌, ◌≤◌, ◌^◌, ℕ, List, ◌++◌, OnOk, IfErr};
ghost use Rattle.std.specs.Int.{to_be_bytes, w32};
ghost use Rattle.abs_codec.specs.declared.fault.CodecFault.TheVariants.{Memory, TooLong};
ghost use Rattle.abs_codec.specs.Spelling.{list_spelling, AreSpelled};
ghost use Rattle.task_part.specs.declared.part.Part.TheVariants as Part;
ghost use Rattle.task_part.specs.Spelling.{logs_spelling, LogsAreSpelled, logs_now, with_logs, part_spelling, PartIsSpelled};

use crate::part::Part;
use abs_codec::{Codec, CodecFault, Items};

/// Appends the spelling of the part that a copy is with these logs, each the records of a channel;
/// the copy's own logs are left out. After an `Err` some of it may be there.
pub fn write_with_logs<R: Codec, K: Codec + Ord, S: Codec>(
    copy: &Part<R, K, S>,
    logs: &[(u32, &[R])],
    out: &mut Vec<u8>,
) -> Result<(), CodecFault>
    ensures appended { OnOk result (PartIsSpelled R.HasSpelling K.Ord.cmp K.HasSpelling
        S.HasSpelling (with_logs (logs_now logs.now) copy.now)
        × (out.new.items ≡ out.old.items ++ part_spelling R.spelling K.spelling S.spelling
        (with_logs (logs_now logs.now) copy.now))) }
    ensures keeps { (more : List ℕ) × (out.new.items ≡ out.old.items ++ more) }
    ensures too_long { IfErr result (λ f. f ≢ Memory → (f ≡ TooLong)
        × ¬ PartIsSpelled R.HasSpelling K.Ord.cmp K.HasSpelling S.HasSpelling
        (with_logs (logs_now logs.now) copy.now)) }
{
    match copy {
        Part::Source(_) => return copy.write(out),
        Part::Operator(map, _) => {
            out.push(1)?;
            map.write(out)?;
        }
        Part::Sink(transactions, _) => {
            out.push(2)?;
            transactions.write(out)?;
        }
    }
    write_logs(logs, out)
}

/// Appends the spelling of the part that a source has at this offset. After an `Err` some of it may
/// be there.
pub fn write_source<R: Codec, K: Codec + Ord, S: Codec>(
    offset: u64,
    out: &mut Vec<u8>,
) -> Result<(), CodecFault>
    ensures appended { OnOk result (PartIsSpelled R.HasSpelling K.Ord.cmp K.HasSpelling
        S.HasSpelling (Part.Source offset)
        × (out.new.items ≡ out.old.items ++ part_spelling R.spelling K.spelling S.spelling
        (Part.Source offset))) }
    ensures keeps { (more : List ℕ) × (out.new.items ≡ out.old.items ++ more) }
    ensures memory { IfErr result (λ f. f ≡ Memory) }
{
    Part::<R, K, S>::Source(offset).write(out)
}

/// Appends the spelling of the part that a sink has with these pending transactions, the newest
/// last, and these logs, each the records of a channel. After an `Err` some of it may be there.
pub fn write_sink<R: Codec, K: Codec + Ord, S: Codec>(
    transactions: &Items<u64>,
    logs: &[(u32, &[R])],
    out: &mut Vec<u8>,
) -> Result<(), CodecFault>
    ensures appended { OnOk result (PartIsSpelled R.HasSpelling K.Ord.cmp K.HasSpelling
        S.HasSpelling (Part.Sink transactions.now (logs_now logs.now))
        × (out.new.items ≡ out.old.items ++ part_spelling R.spelling K.spelling S.spelling
        (Part.Sink transactions.now (logs_now logs.now)))) }
    ensures keeps { (more : List ℕ) × (out.new.items ≡ out.old.items ++ more) }
    ensures too_long { IfErr result (λ f. f ≢ Memory → (f ≡ TooLong)
        × ¬ PartIsSpelled R.HasSpelling K.Ord.cmp K.HasSpelling S.HasSpelling
        (Part.Sink transactions.now (logs_now logs.now))) }
{
    out.push(2)?;
    transactions.write(out)?;
    write_logs(logs, out)
}

/// Appends the spelling of these logs: how many there are, and each with its channel. After an
/// `Err` some of it may be there.
pub fn write_logs<R: Codec>(logs: &[(u32, &[R])], out: &mut Vec<u8>) -> Result<(), CodecFault>
    ensures appended { OnOk result (LogsAreSpelled R.HasSpelling (logs_now logs.now)
        × (out.new.items ≡ out.old.items ++ logs_spelling R.spelling (logs_now logs.now))) }
    ensures keeps { (more : List ℕ) × (out.new.items ≡ out.old.items ++ more) }
    ensures too_long { IfErr result (λ f. f ≢ Memory → (f ≡ TooLong)
        × ¬ LogsAreSpelled R.HasSpelling (logs_now logs.now)) }
{
    write_count(logs.len(), out)?;
    for log in logs {
        log.0.write(out)?;
        write_records(log.1, out)?;
    }
    Ok(())
}

/// Writes how many records there are, and the records.
fn write_records<R: Codec>(records: &[R], out: &mut Vec<u8>) -> Result<(), CodecFault>
    ensures appended { OnOk result (AreSpelled R.HasSpelling records.now
        × (out.new.items ≡ out.old.items ++ list_spelling R.spelling records.now)) }
    ensures keeps { (more : List ℕ) × (out.new.items ≡ out.old.items ++ more) }
    ensures too_long { IfErr result (λ f. f ≢ Memory → (f ≡ TooLong)
        × ¬ AreSpelled R.HasSpelling records.now) }
{
    write_count(records.len(), out)?;
    for row in records {
        row.write(out)?;
    }
    Ok(())
}

/// Appends a count of at most 2^32 - 1. After an `Err` some of it may be there.
pub fn write_count(count: usize, out: &mut Vec<u8>) -> Result<(), CodecFault>
    ensures appended { OnOk result ((count < 2 ^ 32)
        × (out.new.items ≡ out.old.items ++ to_be_bytes w32 count)) }
    ensures keeps { (more : List ℕ) × (out.new.items ≡ out.old.items ++ more) }
    ensures too_long { IfErr result (λ f. f ≢ Memory → (f ≡ TooLong) × (2 ^ 32 ≤ count)) }
{
    if count > u32::MAX as usize {
        return Err(CodecFault::TooLong);
    }
    (count as u32).write(out)
}
