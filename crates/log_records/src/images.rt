//! Images of records, spelled from their rows.
ghost use Rattle.std.specs.Prelude.{◌≡◌, ◌≤◌, ◌++◌, length, take, OnOk, OnErr};
ghost use Rattle.log_records.specs.declared.record.Record.TheVariants.{Change};
ghost use Rattle.log_records.specs.RecordSpelling.{record_content, text, AreInRange};
ghost use Rattle.model_data.specs.Record.{row_spelling, rows_spelling as rows_spelling};

use crate::encoding::{put_number2, put_slot};
use model_data::Row;
use tm_types::Memory;

/// Appends what a slot's change is: the images of the record in it before and after, by their rows.
pub(crate) fn put_row_change(
    out: &mut Vec<u8>,
    unit: u64,
    database: u8,
    slot: u16,
    before: &[Row],
    after: &[Row],
) -> Result<(), Memory>
    requires before { length (rows_spelling before.now) ≤ 32000 }
    requires after { length (rows_spelling after.now) ≤ 32000 }
    ensures ok { OnOk result (out.new.items ≡ out.old.items ++ record_content (Change unit database slot (rows_spelling before.now) (rows_spelling after.now))) }
    ensures valid { OnOk result (AreInRange (Change unit database slot (rows_spelling before.now) (rows_spelling after.now))) }
    ensures kept { OnErr result (take (length out.old.items) out.new.items ≡ out.old.items) }
{
    put_slot(out, unit, database, slot)?;
    put_image(out, before)?;
    put_image(out, after)
}

// An image is a text: its length, and its rows one after the other.
fn put_image(out: &mut Vec<u8>, rows: &[Row]) -> Result<(), Memory>
    requires { length (rows_spelling rows.now) ≤ 32000 }
    ensures ok { OnOk result (out.new.items ≡ out.old.items ++ text (rows_spelling rows.now)) }
    ensures kept { OnErr result (take (length out.old.items) out.new.items ≡ out.old.items) }
{
    put_number2(out, image_length(rows) as u16)?;
    put_rows(out, rows)
}

fn image_length(rows: &[Row]) -> usize
    requires { length (rows_spelling rows.now) ≤ 32000 }
    ensures { result ≡ length (rows_spelling rows.now) }
{
    let mut length = 0;
    for row in rows {
        length += 1 + row.bytes.len();
    }
    length
}

fn put_rows(out: &mut Vec<u8>, rows: &[Row]) -> Result<(), Memory>
    ensures ok { OnOk result (out.new.items ≡ out.old.items ++ rows_spelling rows.now) }
    ensures kept { OnErr result (take (length out.old.items) out.new.items ≡ out.old.items) }
{
    for row in rows {
        put_row(out, row)?;
    }
    Ok(())
}

fn put_row(out: &mut Vec<u8>, row: &Row) -> Result<(), Memory>
    ensures ok { OnOk result (out.new.items ≡ out.old.items ++ row_spelling row.now) }
    ensures kept { OnErr result (take (length out.old.items) out.new.items ≡ out.old.items) }
{
    out.push(row.path.segment())?;
    out.extend_from_slice(row.bytes.as_slice())
}
