//! A record is read from its bytes.
ghost use Rattle.std.specs.Prelude.{◌≡◌, ◌≤◌, List, length, take, IfOk, IfErr};
ghost use Rattle.std.specs.Ordering.{is_lt};
ghost use Rattle.std.specs.Option.{option_copied};
ghost use Rattle.tm_types.specs.SegTypes.{IsHierarchy, type_at};
ghost use Rattle.model_data.specs.declared.row.Row.{Row};
ghost use Rattle.model_data.specs.Path.{path_cmp, end_type};
ghost use Rattle.model_data.specs.Record.{Spells};
ghost use Rattle.model_data.specs.RowsOfBytes.{down_to, may_follow, row_at, row_of_type, next_row};
ghost use Rattle.seg_rows.specs.DecodeFault.{RefusesBytes, DecodesTo};

use crate::RecordImage;
use crate::encode::record_limit;
use model_data::{Path, Row};
use std::alloc::Global;
use thiserror::Error;
use tm_types::{Bytes, Dbd, Key, Memory, SegType, are_printable};

/// Why bytes are no record.
#[derive(Debug, Drop, Error)]
pub enum DecodeFault {
    /// The rule that is broken, which is 21, and the length of the longest prefix of the bytes that
    /// is a record, or 0 where none is.
    #[error("rule {0} at place {1}")]
    Bad(u8, usize),
    #[error("no memory")]
    Memory,
}

/// The record that the bytes spell, all of them.
///
/// A record has its rows in hierarchic order, each as its type number and its data. The data has
/// the length of its type, is printable and begins with the key; the first row alone is a root, and
/// the parent of each other row is the nearest row before it of the parent's type. A record has at
/// most 4,000 bytes for each of its sectors. Bytes that spell no record are refused as
/// `Bad(21, place)`, and as `Memory`.
pub fn decode_record(alloc: Global, dbd: &Dbd, bytes: &[u8]) -> Result<RecordImage, DecodeFault>
    // What is decoded is a record, and spelled by the bytes.
    ensures spelled { IfOk result (Spells dbd.now bytes.now) }
    // A record that they spell is decoded.
    ensures decoded { (rows : List Row) → Spells dbd.now bytes.now rows → DecodesTo result rows }
    // Else they are refused, at the end of the longest record among their prefixes.
    ensures refused { IfErr result (RefusesBytes dbd.now bytes.now) }
{
    let limit = record_limit(dbd);
    let types = dbd.types.as_slice();
    let mut image = RecordImage::new(alloc);
    let mut place = 0;
    while place < bytes.len() {
        let row = match next_row(alloc, types, image.last_path(), &bytes[place..]) {
            Ok(row) => row,
            Err(_) => return Err(DecodeFault::Memory),
        };
        let Some(row) = row else {
            return Err(DecodeFault::Bad(21, place));
        };
        let length = 1 + row.bytes.len();
        if length > limit - place {
            return Err(DecodeFault::Bad(21, place));
        }
        if image.push(row).is_err() {
            return Err(DecodeFault::Memory);
        }
        place += length;
    }
    if image.is_empty() {
        return Err(DecodeFault::Bad(21, 0));
    }
    Ok(image)
}

// The row at the front of the bytes, behind a row of the path `last`.
fn next_row(
    alloc: Global,
    types: &[SegType],
    last: &[(u8, Key)],
    bytes: &[u8],
) -> Result<Option<Row>, Memory>
    requires { IsHierarchy types.now }
    ensures { IfOk result (λ row. row ≡ next_row types.now last.now bytes.now) }
{
    let [number, rest @ ..] = bytes else {
        return Ok(None);
    };
    match numbered(types, *number) {
        Some(segment) => row_of_type(alloc, segment, last, *number, rest),
        None => Ok(None),
    }
}

// The type with this number, counted from 1.
fn numbered(types: &[SegType], number: u8) -> Option<&SegType>
    ensures { option_copied result ≡ type_at types.now number }
{
    if number == 0 {
        return None;
    }
    types.get(number as usize - 1)
}

fn row_of_type(
    alloc: Global,
    segment: &SegType,
    last: &[(u8, Key)],
    number: u8,
    bytes: &[u8],
) -> Result<Option<Row>, Memory>
    requires some { 1 ≤ segment.now.key }
    requires short { segment.now.key ≤ 32 }
    requires within { segment.now.key ≤ segment.now.bytes }
    ensures { IfOk result (λ row. row ≡ row_of_type (Some segment.now) last.now number bytes.now) }
{
    let size = segment.bytes as usize;
    if bytes.len() < size || !are_printable(&bytes[..size]) || !may_follow(segment, last) {
        return Ok(None);
    }
    let row = row_at(alloc, segment, last, number, bytes)?;
    if is_before(last, &row.path) {
        Ok(Some(row))
    } else {
        Ok(None)
    }
}

fn is_before(last: &[(u8, Key)], path: &Path) -> bool
    ensures { result ≡ is_lt (path_cmp last.now path.now) }
{
    last.cmp(path.as_slice()).is_lt()
}

// Whether a segment of this type may follow a row of the path `last`.
fn may_follow(segment: &SegType, last: &[(u8, Key)]) -> bool
    ensures { result ≡ may_follow segment.now last.now }
{
    if last.is_empty() {
        return segment.parent == 0;
    }
    segment.parent != 0 && end_type(&last[..depth(segment.parent, last)]) == segment.parent
}

fn end_type(path: &[(u8, Key)]) -> u8
    ensures { result ≡ end_type path.now }
{
    match path {
        [] => 0,
        [.., last] => last.0,
    }
}

// How many segments of the path have types up to this one.
fn depth(number: u8, path: &[(u8, Key)]) -> usize
    ensures within { result ≤ length path.now }
    ensures front { take result path.now ≡ down_to number path.now }
{
    for (i, pair) in path.iter().enumerate() {
        if pair.0 > number {
            return i;
        }
    }
    path.len()
}

// The row of this type with its data at the front of the bytes, below its parent in the path `last`.
fn row_at(
    alloc: Global,
    segment: &SegType,
    last: &[(u8, Key)],
    number: u8,
    bytes: &[u8],
) -> Result<Row, Memory>
    requires some { 1 ≤ segment.now.key }
    requires short { segment.now.key ≤ 32 }
    requires within { segment.now.key ≤ segment.now.bytes }
    requires fits { segment.now.bytes ≤ length bytes.now }
    ensures { IfOk result (λ row. row ≡ row_at segment.now last.now number bytes.now) }
{
    let mut path = Path::copied(alloc, &last[..depth(segment.parent, last)])?;
    let Some(key) = Key::read(&bytes[..segment.key as usize]) else {
        unreachable!()
    };
    path.push(number, key)?;
    Ok(Row {
        path,
        bytes: Bytes::copied(alloc, &bytes[..segment.bytes as usize])?,
    })
}
