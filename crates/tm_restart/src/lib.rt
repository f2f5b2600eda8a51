//! The beginning of a life: an image is begun cold, or recovered (`starting`, `restarting`).
//!
//! `cold`: the size is looked at first, and `TooSmall` and `Memory` come before any write; whatever a stop leaves is
//! the image before, or one of the definition's text that recovers to the empty state; once it has answered, each image
//! recovers to the empty state, with the restart sector that is answered, the text, and no log sector of this life, and
//! each slot stands in its sectors.
//!
//! `recover` looks at the size, the restart sector, the text, the rest of the image and the counters, in this order;
//! each refusal has its cause in the image, and has written nothing. An image whose sector 0 is all zeros is begun
//! cold. An image that is found is opened, where no counter is spent: whatever a stop leaves recovers as before,
//! whether to a state or not, and is the image before, or both are of the definition's text; once it has answered, each
//! image recovers to the state that is answered, with the next epoch and checkpoint, the other areas, the sequence
//! behind the log, the text, a snapshot without changes of open units, and no log sector of this life, and each slot
//! stands in its sectors. Where the epoch, the log's next sequence, the checkpoint and the next unit of the image before
//! are all up to a bound, those of whatever a stop leaves of either are up to one above it (`Counts` of
//! `checkpointing`).
//!
//! - `finding` (`find`, specs/FoundImage): what a disk has, before anything is written: zeros, another text, an image
//!   that breaks a rule, a counter that is spent, or what it recovers to, where it tells its contents; a fault of the
//!   disk has its cause.
//! - `looking` (`look`): all of an image behind its text: the snapshot and the log, done again, and all databases, with
//!   the slots that records name; it recovers to what these come to, or to the lowest rule that is broken, and of it
//!   the lowest sector. Each sector is read once.
//! - `renewing` (`renew`, specs/LifeWrites): the writes of a restart: each slot that a record names, the snapshot into
//!   the other area, the restart sector of the next life, each synced. Until that sector is written each image that a
//!   crash may leave recovers alike, whatever it recovered to; then each recovers to the same state, its log is empty,
//!   and the stores stand in their sectors (proofs/Recovering).
//! - Law: the terminals and codes of each state that an image tells of are those of the definition, in its order.
#![tactic(auto)]

mod databases;
mod finding;
mod later;
mod looking;
mod preparing;
mod putting;
mod renewing;
mod reopening;
mod replaying;
mod restarting;
mod starting;

pub use finding::Found;
pub use model_machine::Lasting;
pub use openings::{OpenError, Parts};
pub use restarting::recover;
pub use starting::cold;
