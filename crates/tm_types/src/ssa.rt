//! Segment search arguments.
ghost use Rattle.std.specs.Prelude.{◌≡◌, [], ◌∷◌, ◌++◌, length, slice_get, IfOk, OnOk, OnErr};
ghost use Rattle.std.specs.Option.{option_copied};

use crate::{Bytes, Memory, Name};
use std::alloc::Global;
use std::marker::Model;

/// What a segment search argument asks of a segment's key.
#[derive(Debug, Drop)]
pub enum KeyTest {
    /// Nothing.
    Any,
    /// It is these bytes, padded with blanks or cut to the key's length.
    Equal(Bytes),
    /// It isn't below these bytes, padded with blanks or cut to the key's length.
    AtLeast(Bytes),
}

impl Clone for KeyTest {
    ghost is_clone = { λ test copy. copy ≡ test };

    fn clone(&self) -> Result<KeyTest, Memory> {
        match self {
            KeyTest::Any => Ok(KeyTest::Any),
            KeyTest::Equal(key) => Ok(KeyTest::Equal(key.clone()?)),
            KeyTest::AtLeast(key) => Ok(KeyTest::AtLeast(key.clone()?)),
        }
    }
}

/// A segment search argument: the name of a segment type, and what its key has to meet.
#[derive(Clone, Debug, Drop)]
pub struct Ssa {
    pub segment: Name,
    pub test: KeyTest,
}

/// The segment search arguments of a call, from the root down.
#[derive(Debug, Drop)]
pub struct Ssas {
    items: Vec<Ssa>,
}

impl Model for Ssas {
    ghost use Rattle.std.specs.Prelude.{List};
    ghost use Rattle.tm_types.specs.declared.ssa.Ssa.{Ssa};

    ghost Value = { List Ssa };

    ghost view = { λ s. s.items.items };
}

impl Ssas {
    /// No arguments. This takes no memory.
    pub fn new(alloc: Global) -> Ssas
        ensures { result ≡ [] }
    {
        Ssas {
            items: Vec::new(alloc),
        }
    }

    /// Adds an argument at the end. Where it answers `Memory`, none is added.
    pub fn push(&mut self, ssa: Ssa) -> Result<(), Memory>
        ensures ok { OnOk result (self.new ≡ self.old ++ ssa ∷ []) }
        ensures err { OnErr result (self.new ≡ self.old) }
    {
        self.items.push(ssa)?;
        Ok(())
    }

    /// How many arguments there are.
    pub fn len(&self) -> usize
        ensures { result ≡ length self.now }
    {
        self.items.len()
    }

    /// The argument at this place, counted from 0.
    pub fn get(&self, place: usize) -> Option<&Ssa>
        ensures { option_copied result ≡ slice_get self.now place }
    {
        self.items.get(place)
    }

    /// The arguments, from the root down.
    pub fn as_slice(&self) -> &[Ssa]
        ensures { result.now ≡ self.now }
    {
        &self.items
    }
}
