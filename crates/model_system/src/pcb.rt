//! The PCBs of a program.
ghost use Rattle.std.specs.Prelude.{◌≡◌, [], ◌∷◌, ◌++◌, length, slice_get, OnOk, OnErr};
ghost use Rattle.std.specs.Option.{option_copied};

use std::alloc::Global;
use std::marker::Model;
use tm_types::{Memory, Name};

/// What a program may reach by one of its PCBs, apart from PCB 0.
#[derive(Clone, Copy, Debug)]
pub enum Pcb {
    /// The database of this number, counted from 1, with the processing options of `tm_types`.
    Database(u8, u8),
    /// Output to this terminal or transaction code.
    Destination(Name),
    /// Output to a destination that the program sets.
    Modifiable,
}

/// The PCBs of a program, numbered from 1 in their order; seen as a list. PCB 0 isn't among them.
#[derive(Debug, Drop)]
pub struct Pcbs {
    items: Vec<Pcb>,
}

impl Model for Pcbs {
    ghost use Rattle.std.specs.Prelude.{List};
    ghost use Rattle.model_system.specs.declared.pcb.Pcb.{Pcb};

    ghost Value = { List Pcb };

    ghost view = { λ p. p.items.items };
}

impl Pcbs {
    ghost use Rattle.model_system.specs.Pcbs.{pcb_at};

    /// No PCBs. This takes no memory.
    pub fn new(alloc: Global) -> Pcbs
        ensures { result ≡ [] }
    {
        Pcbs {
            items: Vec::new(alloc),
        }
    }

    /// Adds a PCB at the end.
    pub fn push(&mut self, pcb: Pcb) -> Result<(), Memory>
        ensures ok { OnOk result (self.new ≡ self.old ++ pcb ∷ []) }
        ensures err { OnErr result (self.new ≡ self.old) }
    {
        self.items.push(pcb)?;
        Ok(())
    }

    /// How many PCBs these are.
    pub fn len(&self) -> usize
        ensures { result ≡ length self.now }
    {
        self.items.len()
    }

    /// The PCB with this number, counted from 1.
    pub fn numbered(&self, number: u8) -> Option<&Pcb>
        ensures { option_copied result ≡ pcb_at self.now number }
    {
        let items = &self.items;
        if number == 0 {
            return None;
        }
        items.get(number as usize - 1)
    }

    /// The PCBs, in order.
    pub fn as_slice(&self) -> &[Pcb]
        ensures { result.now ≡ self.now }
    {
        &self.items
    }
}
