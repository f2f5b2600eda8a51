//! The bytes of one record.
ghost use Rattle.std.specs.Prelude.{◌≡◌, ◌≤◌, ◌+◌, ◌++◌, [], length};
ghost use Rattle.model_data.specs.Record.{rows_spelling};

use model_data::Row;
use std::marker::Model;

// The most bytes that a record has.
const RECORD_BYTES: usize = 32_000;

/// The bytes of one record, at most 32,000, and room for as many: a record is put together here, with no memory taken.
#[derive(Debug, Drop)]
pub struct RecordBytes {
    bytes: [u8; RECORD_BYTES],
    used: usize,
}

impl Model for RecordBytes {
    ghost use Rattle.std.specs.Prelude.{ℕ, List, take, ◌≤◌};

    ghost Value = { List ℕ };

    ghost view = { λ r. take r.used r.bytes };

    ghost invariant = { λ r. r.used ≤ 32000 };
}

impl RecordBytes {
    /// No bytes.
    pub fn new() -> RecordBytes
        ensures { result ≡ [] }
    {
        RecordBytes {
            bytes: [0; RECORD_BYTES],
            used: 0,
        }
    }

    /// Takes all bytes out.
    pub fn clear(&mut self)
        ensures { self.new ≡ [] }
    {
        self.used = 0;
    }

    /// Adds bytes at the end.
    pub fn push(&mut self, bytes: &[u8])
        requires { length self.old + length bytes.now ≤ 32000 }
        ensures { self.new ≡ self.old ++ bytes.now }
    {
        let end = self.used + bytes.len();
        self.bytes[self.used..end].copy_from_slice(bytes);
        self.used = end;
    }

    /// The bytes.
    pub fn as_slice(&self) -> &[u8]
        ensures { result.now ≡ self.now }
    {
        &self.bytes[..self.used]
    }
}

/// The bytes of these rows take the place of those that stand there.
pub(crate) fn spell(spelled: &mut RecordBytes, rows: &[Row])
    requires { length (rows_spelling rows.now) ≤ 32000 }
    ensures { spelled.new ≡ rows_spelling rows.now }
{
    spelled.clear();
    for row in rows {
        spelled.push(&[row.path.segment()]);
        spelled.push(row.bytes.as_slice());
    }
}
