//! A system definition: its macros, with their operands.
ghost use Rattle.std.specs.Prelude.{◌≡◌};

use model_system::{Classes, Format, Program, Transaction};
use std::marker::Model;
use tm_types::Name;

/// A macro of a definition, with its operands.
#[derive(Debug, Drop)]
pub enum Macro {
    /// IMSCTRL: the bytes of the queues, 131,072 to 8,388,608, and the sectors of a log area, 64 to 2,048.
    Control {
        qbytes: u32,
        logs: u32,
    },
    /// DBD: the name, the most roots that the database has, 1 to 4,096, and the sectors of a record, 1 to 8.
    Database {
        name: Name,
        roots: u16,
        sectors: u8,
    },
    /// SEGM: the name, the name of the parent, which a root lacks, and how many bytes the key has, 1 to
    /// 32, and the data, 1 to 1,900 with the key.
    Segment {
        name: Name,
        parent: Option<Name>,
        key: u8,
        bytes: u16,
    },
    /// APPLCTN.
    Application {
        psb: Name,
    },
    /// PCB on a database: the name of its DBD, and the processing options of `tm_types`.
    DatabasePcb {
        database: Name,
        options: u8,
    },
    /// PCB for output to a terminal or a transaction code, which LTERM names.
    DestinationPcb {
        destination: Name,
    },
    /// PCB for output to a destination that the program sets.
    ModifiablePcb,
    /// TRANSACT.
    Transaction(Transaction),
    /// NAME: the terminal, and the name of its format, if it has one.
    Terminal {
        name: Name,
        format: Option<Name>,
    },
    /// REGION.
    Region {
        classes: Classes,
    },
    /// FMT, with the lines up to its FMTEND.
    Format {
        name: Name,
        format: Format,
    },
    /// PROGRAM, with the lines up to its ENDPROG.
    Program {
        name: Name,
        program: Program,
    },
    /// END.
    End,
}

/// A macro with the number of its line.
#[derive(Debug, Drop)]
pub struct MacroLine {
    pub number: u32,
    pub content: Macro,
}

/// A system definition, seen as the list of its macros in the order of their lines.
///
/// The first macro is IMSCTRL, the last is END, and the numbers lie in their ranges.
#[derive(Debug, Drop)]
pub struct Definition {
    items: Vec<MacroLine>,
}

impl Model for Definition {
    ghost use Rattle.std.specs.Prelude.{List};
    ghost use Rattle.system_types.specs.declared.definition.MacroLine.{MacroLine};
    ghost use Rattle.system_types.specs.Definitions.{IsDefinition};

    ghost Value = { List MacroLine };

    ghost view = { λ d. d.items.items };

    ghost invariant = { λ d. IsDefinition d.items.items };
}

impl Definition {
    ghost use Rattle.system_types.specs.Definitions.{IsDefinition};

    /// The definition that has these macros.
    pub fn of(items: Vec<MacroLine>) -> Definition
        requires { IsDefinition items.items }
        ensures { result ≡ items.items }
    {
        Definition { items }
    }

    /// The macros, in the order of their lines.
    pub fn items(&self) -> &[MacroLine]
        ensures value { result.now ≡ self.now }
        ensures valid { IsDefinition self.now }
    {
        &self.items
    }

    /// The macros, in the order of their lines.
    pub fn into_items(self) -> Vec<MacroLine>
        ensures value { result.items ≡ self }
        ensures valid { IsDefinition self }
    {
        let Definition { items } = self;
        items
    }
}
