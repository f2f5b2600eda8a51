//! A call on a database, what it answers, and where a PCB stands.
ghost use Rattle.std.specs.Prelude.{◌≡◌, None};

use crate::Path;
use tm_types::{Bytes, Function, Key, Ssas, Status};

/// A call on a database PCB.
#[derive(Debug, Drop)]
pub struct DbCall {
    pub function: Function,
    /// The processing options of the PCB, a sum of those of `tm_types::processing`.
    pub options: u8,
    /// The data that the call brings, padded with blanks or cut to the length of its type.
    pub area: Bytes,
    /// What the call asks of a segment and those above it, from the root down.
    pub ssas: Ssas,
}

/// Where a database PCB stands.
#[derive(Debug, Drop)]
pub struct Position {
    /// The segment that the last get or insert reached; it may have been deleted since.
    pub position: Option<Path>,
    /// The parent within which GNP and GHNP go on.
    pub parentage: Option<Path>,
    /// The segment that the last call got with hold.
    pub hold: Option<Path>,
}

impl Position {
    /// Where a PCB stands at the start of a unit: nowhere. This takes no memory.
    pub fn new() -> Position
        ensures { result ≡ record { position = None; parentage = None; hold = None } }
    {
        Position {
            position: None,
            parentage: None,
            hold: None,
        }
    }
}

/// What a database call answers.
#[derive(Debug, Drop)]
pub struct Performed {
    pub status: Status,
    /// The data of the segment that a get reached.
    pub area: Option<Bytes>,
    /// The root of the record that the call changed.
    pub changed: Option<Key>,
}

/// Where a get looks for its segment.
#[derive(Clone, Copy, Debug)]
pub enum Reach {
    /// From the start of the database: GU and GHU.
    Start,
    /// After the position: GN and GHN.
    Next,
    /// After the position, below the parent: GNP and GHNP.
    Parent,
}

/// A limit of the database that a change would pass.
#[derive(Clone, Copy, Debug)]
pub enum RowsLimit {
    /// The most roots that the database has.
    Roots,
    /// The most bytes that a record has.
    RecordLength,
}
