//! Before images of the records that a unit of work changes.
//!
//! `unit` has `Unit`: of each of at most 32 records the image before the unit is kept, and of each slot that it
//! touched. `specs/ToldChanges` and `specs/Marks` say what is told of the slots that a step changes, each by its bytes
//! before and behind it, where all others stay, and which slots count as changed then.
//!
//! Proved: a touch can be made ready with all its memory and then kept or left without any. Backing out removes the
//! records that came and puts each one that was there back into the slot that it had (specs/BackOut); no other record
//! or slot changes, and no memory is taken. Each slot that it sets counts as changed, also where it has the same again,
//! and no other does that didn't.
#![tactic(auto)]

mod change;
mod unit;

pub use change::{Change, UnitSlot};
pub use unit::{Prepared, TouchRefused, Unit};
