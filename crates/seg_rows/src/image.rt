//! The rows of a record.
ghost use Rattle.std.specs.Prelude.{◌≡◌, ◌↔◌, ◌≤◌, ◌-◌, [], ◌∷◌, ◌++◌, length, slice_get, IsTrue, IfOk, OnOk, OnErr};
ghost use Rattle.std.specs.Option.{option_copied};
ghost use Rattle.model_data.specs.Record.{rows_spelling, record_root};
ghost use Rattle.model_data.specs.RowsOfBytes.{last_path};

use model_data::Row;
use std::alloc::Global;
use std::marker::Model;
use tm_types::{Key, Memory};

/// The rows of a record, from its root on.
#[derive(Debug, Drop)]
pub struct RecordImage {
    rows: Vec<Row>,
}

impl Model for RecordImage {
    ghost use Rattle.std.specs.Prelude.{List};
    ghost use Rattle.model_data.specs.declared.row.Row.{Row};

    ghost Value = { List Row };

    ghost view = { λ image. image.rows.items };
}

impl RecordImage {
    /// No rows. This takes no memory.
    pub fn new(alloc: Global) -> RecordImage
        ensures { result ≡ [] }
    {
        RecordImage {
            rows: Vec::new(alloc),
        }
    }

    /// Adds a row at the end.
    pub fn push(&mut self, row: Row) -> Result<(), Memory>
        ensures ok { OnOk result (self.new ≡ self.old ++ row ∷ []) }
        ensures err { OnErr result (self.new ≡ self.old) }
    {
        self.rows.push(row)?;
        Ok(())
    }

    /// How many rows these are.
    pub fn len(&self) -> usize
        ensures { result ≡ length self.now }
    {
        self.rows.len()
    }

    pub fn is_empty(&self) -> bool
        ensures { IsTrue result ↔ (self.now ≡ []) }
    {
        self.rows.is_empty()
    }

    /// The rows, from the root on.
    pub fn as_slice(&self) -> &[Row]
        ensures { result.now ≡ self.now }
    {
        &self.rows
    }

    /// The path of the last row, which has no segment where there are no rows.
    pub fn last_path(&self) -> &[(u8, Key)]
        ensures { result.now ≡ last_path self.now }
    {
        match self.rows.as_slice() {
            [] => &[],
            [.., row] => row.path.as_slice(),
        }
    }

    /// The key of the record's root, from the path of the first row.
    pub fn root(&self) -> Option<Key>
        ensures { result ≡ record_root self.now }
    {
        let row = self.rows.as_slice().first()?;
        let pair = row.path.as_slice().first()?;
        Some(pair.1)
    }

    /// Whether the rows have at most this many bytes as a record.
    pub fn fits(&self, limit: usize) -> bool
        ensures { IsTrue result ↔ (length (rows_spelling self.now) ≤ limit) }
    {
        rows_fit(&self.rows, limit)
    }
}

fn rows_fit(rows: &[Row], limit: usize) -> bool
    ensures { IsTrue result ↔ (length (rows_spelling rows.now) ≤ limit) }
{
    let mut room = limit;
    for row in rows {
        let bytes = row.bytes.len();
        if bytes >= room {
            return false;
        }
        room = room - bytes - 1;
    }
    true
}

impl Clone for RecordImage {
    ghost is_clone = { λ image copy. copy ≡ image };

    fn clone(&self) -> Result<RecordImage, Memory> {
        Ok(RecordImage {
            rows: self.rows.clone()?,
        })
    }
}
