//! Segment search arguments as they stand in a script.
ghost use Rattle.std.specs.Prelude.{◌≡◌, [], ◌∷◌, ◌++◌, length, OnOk, OnErr};

use crate::Variable;
use std::alloc::Global;
use std::marker::Model;
use tm_types::{Memory, Name};

/// A segment search argument as it stands in a script: the name of a segment type, and what its key
/// has to meet.
#[derive(Debug, Drop)]
pub enum ScriptSsa {
    /// Any key.
    Any(Name),
    /// The variable's text.
    Equal(Name, Variable),
    /// The variable's text or a key above it.
    AtLeast(Name, Variable),
}

/// The segment search arguments of a line, from the root down; seen as a list.
#[derive(Debug, Drop)]
pub struct ScriptSsas {
    items: Vec<ScriptSsa>,
}

impl Model for ScriptSsas {
    ghost use Rattle.std.specs.Prelude.{List};
    ghost use Rattle.model_system.specs.declared.script_ssa.ScriptSsa.{ScriptSsa};

    ghost Value = { List ScriptSsa };

    ghost view = { λ s. s.items.items };
}

impl ScriptSsas {
    /// No arguments. This takes no memory.
    pub fn new(alloc: Global) -> ScriptSsas
        ensures { result ≡ [] }
    {
        ScriptSsas {
            items: Vec::new(alloc),
        }
    }

    /// Adds an argument at the end.
    pub fn push(&mut self, ssa: ScriptSsa) -> Result<(), Memory>
        ensures ok { OnOk result (self.new ≡ self.old ++ ssa ∷ []) }
        ensures err { OnErr result (self.new ≡ self.old) }
    {
        self.items.push(ssa)?;
        Ok(())
    }

    /// How many arguments there are.
    pub fn len(&self) -> usize
        ensures { result ≡ length self.now }
    {
        self.items.len()
    }

    /// The arguments, from the root down.
    pub fn as_slice(&self) -> &[ScriptSsa]
        ensures { result.now ≡ self.now }
    {
        &self.items
    }
}
