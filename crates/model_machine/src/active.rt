//! What the regions do, as an operator is shown it.
ghost use Rattle.std.specs.Prelude.{◌≡◌, [], ◌∷◌, ◌++◌, OnOk, OnErr};

use std::alloc::Global;
use std::marker::Model;
use tm_types::{Key, Memory, Name};

/// What a region does.
#[derive(Clone, Copy, Debug)]
pub enum RegionWork {
    /// It has no message.
    Idle,
    /// It works on the message of this id, which is of this code.
    Working {
        code: Name,
        id: u64,
    },
    /// It works on a message and waits, and this region blocks it. It waits for the record of the database
    /// with this root key, or without one for the sequence of the database's roots.
    Waiting {
        code: Name,
        id: u64,
        database: Name,
        root: Option<Key>,
        by: u32,
    },
}

/// A region's number, and what it does.
#[derive(Clone, Copy, Debug)]
pub struct ActiveRegion {
    pub region: u32,
    pub work: RegionWork,
}

/// The regions that an operator is shown, in order; seen as a list.
#[derive(Debug, Drop)]
pub struct ActiveRegions {
    items: Vec<ActiveRegion>,
}

impl Model for ActiveRegions {
    ghost use Rattle.std.specs.Prelude.{List};
    ghost use Rattle.model_machine.specs.declared.active.ActiveRegion.{ActiveRegion};

    ghost Value = { List ActiveRegion };

    ghost view = { λ r. r.items.items };
}

impl ActiveRegions {
    /// No regions. This takes no memory.
    pub fn new(alloc: Global) -> ActiveRegions
        ensures { result ≡ [] }
    {
        ActiveRegions {
            items: Vec::new(alloc),
        }
    }

    /// Adds a region at the end. Where it answers `Memory`, none is added.
    pub fn push(&mut self, region: ActiveRegion) -> Result<(), Memory>
        ensures ok { OnOk result (self.new ≡ self.old ++ region ∷ []) }
        ensures err { OnErr result (self.new ≡ self.old) }
    {
        self.items.extend_from_slice(&[region])
    }

    /// The regions, in order.
    pub fn as_slice(&self) -> &[ActiveRegion]
        ensures { result.now ≡ self.now }
    {
        &self.items
    }
}
