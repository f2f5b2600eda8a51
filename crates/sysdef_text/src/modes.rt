//! What has come before a line, and what the line does.
use system_types::Macro;

/// What has come before a line.
#[derive(Clone, Copy, Debug)]
pub enum Mode {
    /// No macro.
    Start,
    /// A DBD or a SEGM.
    BehindDatabase,
    /// An APPLCTN or a PCB.
    BehindApplication,
    /// A TRANSACT.
    BehindTransaction,
    /// Another macro.
    Elsewhere,
    /// A PROGRAM whose ENDPROG is still to come.
    InProgram,
    /// An FMT whose FMTEND is still to come.
    InFormat,
}

/// What a line does.
#[derive(Debug, Drop)]
pub enum Step {
    /// It has no macro.
    Pass(Mode),
    /// It has a macro.
    Item(Macro, Mode),
    /// It has the last macro.
    Last(Macro),
}
