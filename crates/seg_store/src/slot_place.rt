//! Where a slot stands among those of all databases.

/// A slot: the number of its database, counted from 1, and its own, counted from 0.
#[derive(Clone, Copy, Debug)]
pub struct SlotPlace {
    pub db: u8,
    pub slot: u16,
}
