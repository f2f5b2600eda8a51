//! The rows of a database by slots: a store keeps the image of each record in a slot of its own. After `empty` nothing
//! takes memory.
//!
//! Proved: a new record takes the lowest free slot, a record keeps its slot, and a removed one can be put back into its
//! slot without memory; the rows of all slots are at any time those of a database. A store knows which slots were
//! changed since they were last written, and `write_changed` writes each of them once, in ascending order, into as many
//! sectors as the database has for a record: where the disk fails, the sectors in front are written and none behind.
//! Whenever a crash comes, such a sector is as before or holds its piece of the record, and no other sector changes. A
//! checkpoint lends the stores while it writes, and `settle` counts the slots as written behind its sync. The lowest
//! changed slot is known, and one slot may be written by itself and counted as written. A copy of a store, or of all of
//! them, is the same, with the same slots changed.
#![tactic(auto)]

pub use data_sectors::put_record;
pub use record_bytes::RecordBytes;
pub use slot_place::SlotPlace;
pub use store::Store;
pub use stores::Stores;

mod changed;
mod copying;
mod data_sectors;
mod free;
mod index;
mod one_slot;
mod record_bytes;
mod slot_place;
mod store;
mod stores;
mod write_back;
