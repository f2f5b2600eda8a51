//! Slots that a record names.
use tm_types::Bytes;

/// A slot of which a record of the snapshot or of the log says what stands in it.
#[derive(Debug, Drop)]
pub struct NamedSlot {
    /// The database, numbered from 1.
    pub database: u8,
    /// The slot in the database, numbered from 0.
    pub slot: u16,
    /// The record's bytes; none where the slot is free.
    pub bytes: Bytes,
}
