//! A life of the control region.
ghost use Rattle.std.specs.Prelude.{◌≡◌, length, slice_get};
ghost use Rattle.std.specs.Option.{option_copied};

use model_machine::{Entry, Lasting};
use std::marker::Model;

/// The entries of a life, in the order of the calls.
#[derive(Debug, Drop)]
pub struct History {
    items: Vec<Entry>,
}

impl Model for History {
    ghost use Rattle.std.specs.Prelude.{List};
    ghost use Rattle.model_machine.specs.declared.entry.Entry.{Entry};

    ghost Value = { List Entry };

    ghost view = { λ h. h.items.items };
}

impl History {
    /// The history of these entries.
    pub fn from_vec(entries: Vec<Entry>) -> History
        ensures { result ≡ entries.items }
    {
        History { items: entries }
    }

    /// How many entries there are.
    pub fn len(&self) -> usize
        ensures { result ≡ length self.now }
    {
        self.items.len()
    }

    /// The entry at this place, counted from 0.
    pub fn get(&self, place: usize) -> Option<&Entry>
        ensures { option_copied result ≡ slice_get self.now place }
    {
        self.items.get(place)
    }
}

/// A life of the control region: what it opened with, the number of the checkpoint with which it did, its calls with their
/// answers, how many of its lasting steps were forced to the disk, and after how many its state is kept.
#[derive(Debug, Drop)]
pub struct Life {
    pub opening: Lasting,
    pub checkpoint: u64,
    pub history: History,
    pub forced: u64,
    pub kept: u64,
}
