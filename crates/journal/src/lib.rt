//! What a control region keeps of its disk, and why the life on its disk goes with the machine.
//!
//! `Journal` (module `journal`) has the calls that write: how many bytes may be appended before a checkpoint is due,
//! and at all, is told exactly. What was appended is exchanged for bytes that were told behind it, without memory. All
//! that pends is forced at once: whichever of its sectors a stop kept, the image recovers to what lasted in each image
//! before, or behind one of the steps since; once it has answered, each image has all of the life. A checkpoint of any
//! life whose snapshot is given forces all first. From there it leaves what lasts at any moment, and the definition's
//! text throughout; then each image has all of the life behind it, and nothing pends. Meanwhile a front of its steps
//! was done. One changed slot is written by itself behind such a force, and synced: a stop may leave it torn, and the image recovers
//! to what it did; then the life goes on with this slot unchanged. `insert` (module `inserting`) puts an open unit among others that stand by their numbers, at its place, for
//! a snapshot.
//!
//! Laws: a life goes with a machine (`IsCarriedBy` of specs/CarriedLife) where it has the machine's system and what
//! lasts, its slots are those of the stores, its committed slots those that are committed, and its open units those of
//! the regions, each with a number of its own (specs/UnitNumbers). Then each call that is answered leaves a life that
//! goes with the machine behind it (specs/LifeByCall): an input that is kept, a reply that is acknowledged, a command
//! that lasts and a message that is completed or discarded are a lasting step of it, by the records that are told; a
//! call on the databases is changes of its slots, also one that rolls back; victims end their units; all else leaves it
//! (proofs/Answered, Commanding, Turns). A checkpoint of the machine is one of the life (specs/OpenUnits,
//! proofs/Checkpoints), and a life that an opening leaves goes with the machine as it starts (proofs/Openings). A
//! unit's slot stays its own while its region holds the record that stood there, or the sequence where it was free.
#![tactic(auto)]

mod inserting;
mod journal;

pub use inserting::insert;
pub use journal::Journal;
