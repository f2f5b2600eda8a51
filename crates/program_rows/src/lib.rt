//! The databases with the changes of the work on a message in each region, and the calls on them.
//!
//! Proved: a call of a region asks for what it needs; where a part of it is blocked the region waits, and that part and
//! who blocks it are told. Else it answers, and leaves what its region sees and has changed, as `model_data` defines on
//! the rows that the region sees, and tells where the PCB then stands; it leads to an abend exactly where the
//! definition says, and then nothing has changed. What is committed and what other regions see stays. Backing a region
//! out leaves it what is committed, each record in the slot that it had; a commit makes what it saw what is committed,
//! all that others hold being as before; both end without memory.
//!
//! Before a call changes anything it tells the record of it for a log: what stands in the slot, and what will stand
//! there. `tell_back` tells the same of each slot that the region has touched, which are all that backing it out
//! changes. What is longer than the room given is refused as `Full`, exactly there, and nothing has changed.
//!
//! Slots (specs/SlotsState): each call tells what it does to the slots, to those that its region has touched, and to
//! which of them count as changed; the records tell just the slots that it changes. A slot that a call sets, or that is
//! put back or taken out, counts as changed, also where it has the same again. At any time a region's touched slots
//! ascend, are at most 64 and had what is committed in them, no other region has touched them, and a slot that none has
//! touched is as it was committed (`AreOnSlots`). Stores with the same slots can take the place of its own, without
//! memory: what counts as changed is then what they tell, and nothing else changes.
#![tactic(auto)]

pub use answer::{Answered, DataAnswer};
pub use databases::Databases;
pub use model_data::Position;
pub use telling::Telling;

mod answer;
mod asked;
mod calling;
mod databases;
mod making;
mod opened;
mod planning;
mod telling;
