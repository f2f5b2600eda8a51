//! A record is written as bytes.
ghost use Rattle.std.specs.Prelude.{◌≡◌, ◌≤◌, ◌++◌, ◌∷◌, length, IfOk, IfErr, OnOk};
ghost use Rattle.model_data.specs.Record.{rows_spelling, row_spelling, record_limit};
ghost use Rattle.seg_rows.specs.EncodeRefused.{RefusesRecord};

use crate::RecordImage;
use model_data::Row;
use std::alloc::Global;
use thiserror::Error;
use tm_types::{Bytes, Dbd, Memory};

/// Why a record has no bytes.
#[derive(Debug, Drop, Error)]
pub enum EncodeRefused {
    /// The record is longer than 4,000 bytes for each of its sectors; its length.
    #[error("a record of {0} bytes is too long")]
    TooLong(usize),
    #[error("no memory")]
    Memory,
}

/// The bytes of a record: of each row in turn its type number and its data.
///
/// It is refused as `TooLong` where these are more than 4,000 bytes for each sector that a record
/// of the database has, and as `Memory`.
pub fn encode_record(alloc: Global, dbd: &Dbd, image: &RecordImage) -> Result<Bytes, EncodeRefused>
    ensures spelled { IfOk result (λ bytes. bytes ≡ rows_spelling image.now) }
    ensures within { OnOk result (length (rows_spelling image.now) ≤ record_limit dbd.now) }
    ensures refused { IfErr result (RefusesRecord dbd.now image.now) }
{
    let Ok(bytes) = rows_as_bytes(alloc, image.as_slice()) else {
        return Err(EncodeRefused::Memory);
    };
    if bytes.len() > record_limit(dbd) {
        return Err(EncodeRefused::TooLong(bytes.len()));
    }
    Ok(bytes)
}

/// The most bytes that a record of the database has: 4,000 for each of its sectors.
pub fn record_limit(dbd: &Dbd) -> usize
    ensures { result ≡ record_limit dbd.now }
{
    4000 * dbd.sectors as usize
}

/// The bytes of rows: of each in turn its type number and its data.
pub fn rows_as_bytes(alloc: Global, rows: &[Row]) -> Result<Bytes, Memory>
    ensures { IfOk result (λ bytes. bytes ≡ rows_spelling rows.now) }
{
    let mut bytes = Bytes::new(alloc);
    for row in rows {
        bytes.push(row.path.segment())?;
        bytes.append(row.bytes.as_slice())?;
    }
    Ok(bytes)
}
