//! Bytes, cut into records.
ghost use Rattle.std.specs.Prelude.{◌≡◌, ◌≤◌, length, drop, IfOk};
ghost use Rattle.model_image.specs.CutRecords.{cut_of};
ghost use Rattle.image_records.specs.CutRecords.{BeginsWithRecord};

use log_records::{DecodeFault, Record, decode};
use std::alloc::{AllocError, Global};
use tm_types::Memory;

/// The records that bytes begin with, and how many bytes they take.
#[derive(Debug, Drop)]
pub struct CutRecords {
    pub records: Vec<Record>,
    pub length: usize,
}

/// Cuts bytes into records, one after another, as far as there are any.
pub fn cut(alloc: Global, bytes: &[u8]) -> Result<CutRecords, Memory>
    ensures records { IfOk result (λ cut. cut.records.items ≡ (cut_of bytes.now).records) }
    ensures rest { IfOk result (λ cut. drop cut.length bytes.now ≡ (cut_of bytes.now).rest) }
    ensures within { IfOk result (λ cut. cut.length ≤ length bytes.now) }
{
    let mut records = Vec::new(alloc);
    let mut length = 0;
    while length < bytes.len() {
        let Some((record, size)) = first(alloc, &bytes[length..])? else {
            return Ok(CutRecords { records, length });
        };
        records.push(record)?;
        length += size;
    }
    Ok(CutRecords { records, length })
}

/// The record that bytes begin with, and its length, or None where they begin with none.
fn first(alloc: Global, bytes: &[u8]) -> Result<Option<(Record, usize)>, Memory>
    ensures { IfOk result (BeginsWithRecord bytes.now) }
{
    match decode(alloc, bytes) {
        Ok((record, size)) => Ok(Some((record, size))),
        Err(DecodeFault::Bad(_rule, _place)) => Ok(None),
        Err(DecodeFault::Memory) => Err(AllocError),
    }
}
