//! What a call needs, in the order in which it asks.
ghost use Rattle.std.specs.Prelude.{◌≡◌, [], ◌∷◌, ◌++◌, IfOk, OnOk, OnErr};
ghost use Rattle.model_data.specs.Footprint.{record_need, sequence_need};

use model_data::Need;
use std::alloc::Global;
use std::marker::Model;
use tm_types::{Key, Memory, Mode};

/// What a call needs, in the order in which it asks.
#[derive(Debug, Drop)]
pub struct Needs {
    items: Vec<Need>,
}

impl Model for Needs {
    ghost use Rattle.std.specs.Prelude.{List};
    ghost use Rattle.model_data.specs.declared.need.Need.{Need};

    ghost Value = { List Need };

    ghost view = { λ n. n.items.items };
}

impl Needs {
    /// Nothing is needed. This takes no memory.
    pub fn new(alloc: Global) -> Needs
        ensures { result ≡ [] }
    {
        Needs {
            items: Vec::new(alloc),
        }
    }

    /// Just these are needed.
    pub fn of(alloc: Global, needs: &[Need]) -> Result<Needs, Memory>
        ensures { IfOk result (λ list. list ≡ needs.now) }
    {
        Ok(Needs {
            items: Vec::from_slice(alloc, needs)?,
        })
    }

    /// One need more, after the others. Where it answers `Memory`, none is added.
    pub fn push(&mut self, need: Need) -> Result<(), Memory>
        ensures ok { OnOk result (self.new ≡ self.old ++ need ∷ []) }
        ensures err { OnErr result (self.new ≡ self.old) }
    {
        self.items.extend_from_slice(&[need])?;
        Ok(())
    }

    /// What is needed, in the order in which the call asks.
    pub fn as_slice(&self) -> &[Need]
        ensures { result.now ≡ self.now }
    {
        &self.items
    }
}

/// The need of the record of this root, there or not.
pub fn record_need(mode: Mode, root: Key) -> Need
    ensures { result ≡ record_need mode root }
{
    Need {
        root: Some(root),
        mode,
    }
}

/// The need of the sequence of the roots.
pub fn sequence_need(mode: Mode) -> Need
    ensures { result ≡ sequence_need mode }
{
    Need { root: None, mode }
}
