//! A database's definition, with its segment types in their hierarchy.
ghost use Rattle.std.specs.Prelude.{◌≡◌, ◌↔◌, [], ◌∷◌, ◌++◌, length, IsTrue, IfOk, OnOk, OnErr};
ghost use Rattle.std.specs.Slice.Iter.{iter_rest};
ghost use Rattle.std.specs.Option.{option_copied};

use crate::{Memory, Name};
use std::alloc::Global;
use std::marker::Model;
use std::slice;

/// A segment type of a database.
#[derive(Clone, Copy, Debug)]
pub struct SegType {
    pub name: Name,
    /// The number of the parent's type, counted from 1, or 0 for the root.
    pub parent: u8,
    /// How many bytes a key has.
    pub key: u8,
    /// How many bytes the data of a segment has, its key included.
    pub bytes: u16,
}

/// The segment types of a database, numbered from 1 in their order.
///
/// The first is the root, and every other one has a parent that stands before it. Keys have 1 to
/// 32 bytes and lie within the data.
#[derive(Debug, Drop)]
pub struct SegTypes {
    items: Vec<SegType>,
}

impl Model for SegTypes {
    ghost use Rattle.std.specs.Prelude.{List};
    ghost use Rattle.tm_types.specs.declared.dbd.SegType.{SegType};
    ghost use Rattle.tm_types.specs.SegTypes.{IsHierarchy};

    ghost Value = { List SegType };

    ghost view = { λ s. s.items.items };

    ghost invariant = { λ s. IsHierarchy s.items.items };
}

impl SegTypes {
    ghost use Rattle.tm_types.specs.SegTypes.{IsHierarchy, IsTypeAt, type_at};

    /// No types. This takes no memory.
    pub fn new(alloc: Global) -> SegTypes
        ensures { result ≡ [] }
    {
        SegTypes {
            items: Vec::new(alloc),
        }
    }

    /// Adds a type at the end. Where it answers `Memory`, none is added.
    pub fn push(&mut self, segment: SegType) -> Result<(), Memory>
        requires { IsTypeAt (length self.old) segment }
        ensures ok { OnOk result (self.new ≡ self.old ++ segment ∷ []) }
        ensures err { OnErr result (self.new ≡ self.old) }
    {
        self.items.push(segment)?;
        Ok(())
    }

    /// How many types these are.
    pub fn len(&self) -> usize
        ensures value { result ≡ length self.now }
        ensures valid { IsHierarchy self.now }
    {
        self.items.len()
    }

    /// Whether there are none.
    pub fn is_empty(&self) -> bool
        ensures { IsTrue result ↔ (self.now ≡ []) }
    {
        self.items.is_empty()
    }

    /// The type with this number, counted from 1.
    pub fn numbered(&self, number: u8) -> Option<&SegType>
        ensures value { option_copied result ≡ type_at self.now number }
        ensures valid { IsHierarchy self.now }
    {
        let items = &self.items;
        if number == 0 {
            return None;
        }
        items.get(number as usize - 1)
    }

    /// The types in their order.
    pub fn as_slice(&self) -> &[SegType]
        ensures value { result.now ≡ self.now }
        ensures valid { IsHierarchy self.now }
    {
        &self.items
    }

    /// The types, each in its turn.
    pub fn iter(&self) -> slice::Iter<'_, SegType>
        ensures { iter_rest result ≡ self.now }
    {
        self.items.iter()
    }
}

impl Clone for SegTypes {
    ghost is_clone = { λ types copy. copy ≡ types };

    fn clone(&self) -> Result<SegTypes, Memory> {
        let items = Vec::from_slice(self.items.allocator().clone()?, &self.items)?;
        Ok(SegTypes { items })
    }
}

/// A database's definition.
#[derive(Debug, Drop)]
pub struct Dbd {
    pub name: Name,
    /// The most roots that the database has.
    pub roots: u16,
    /// How many sectors a record has; each holds 4,000 bytes of it.
    pub sectors: u8,
    pub types: SegTypes,
}

impl Clone for Dbd {
    ghost is_clone = { λ dbd copy. copy ≡ dbd };

    fn clone(&self) -> Result<Dbd, Memory> {
        Ok(Dbd {
            name: self.name,
            roots: self.roots,
            sectors: self.sectors,
            types: self.types.clone()?,
        })
    }
}
