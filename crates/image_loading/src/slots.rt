//! Slots with the bytes of their records.
ghost use Rattle.std.specs.Prelude.{◌≡◌, ◌<◌, [], ◌∷◌, ◌++◌, length, OnOk, OnErr};
ghost use Rattle.std.specs.List.{AllByRecursion};
ghost use Rattle.std.specs.List.Sorted.{IsStrictlySortedBy};
ghost use Rattle.std.specs.Map.{keys_of};
ghost use Rattle.std.specs.Ordering.{nat_cmp};

use std::alloc::Global;
use std::marker::Model;
use tm_types::{Bytes, Memory};

/// Slots of a database in ascending order, each with the bytes of its record; no bytes are no record.
#[derive(Debug, Drop)]
pub struct Slots {
    items: Vec<(u16, Bytes)>,
}

impl Model for Slots {
    ghost use Rattle.std.specs.Prelude.{ℕ, List};
    ghost use Rattle.std.specs.List.Sorted.{IsStrictlySortedBy};
    ghost use Rattle.std.specs.Map.{keys_of};
    ghost use Rattle.std.specs.Ordering.{nat_cmp};

    ghost Value = { List (ℕ × List ℕ) };

    ghost view = { λ s. s.items.items };

    ghost invariant = { λ s. IsStrictlySortedBy nat_cmp (keys_of s.items.items) };
}

impl Slots {
    /// No slots. This takes no memory.
    pub fn new(alloc: Global) -> Slots
        ensures { result ≡ [] }
    {
        Slots {
            items: Vec::new(alloc),
        }
    }

    /// Adds a slot behind all others. Where it answers `Memory`, none is added.
    pub fn push(&mut self, slot: u16, bytes: Bytes) -> Result<(), Memory>
        requires { AllByRecursion (λ s. s.0 < slot) self.old }
        ensures ok { OnOk result (self.new ≡ self.old ++ (slot, bytes) ∷ []) }
        ensures err { OnErr result (self.new ≡ self.old) }
    {
        self.items.push((slot, bytes))?;
        Ok(())
    }

    /// The slots, in ascending order.
    pub fn as_slice(&self) -> &[(u16, Bytes)]
        ensures value { result.now ≡ self.now }
        ensures ascending { IsStrictlySortedBy nat_cmp (keys_of self.now) }
    {
        &self.items
    }

    /// How many slots these are.
    pub fn len(&self) -> usize
        ensures { result ≡ length self.now }
    {
        self.items.len()
    }
}
