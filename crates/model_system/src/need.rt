//! What a script needs next.
use tm_types::{AbendCode, Bytes, Function, Ssas};

/// A call that a script makes, with the texts of its variables.
#[derive(Debug, Drop)]
pub struct CallText {
    pub function: Function,
    /// The number of the PCB.
    pub pcb: u8,
    /// The text of the area, empty where the function takes none.
    pub area: Bytes,
    pub ssas: Ssas,
}

/// What a script needs next.
#[derive(Debug, Drop)]
pub enum Need {
    /// This call, and its answer.
    Call(CallText),
    /// Nothing: it has ended.
    Ended,
    /// To be ended abnormally.
    Abend(AbendCode),
}
