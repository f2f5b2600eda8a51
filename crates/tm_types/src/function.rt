//! The functions of a call, as they are written.
ghost use Rattle.std.specs.Prelude.{◌≡◌};
ghost use Rattle.tm_types.specs.Function.{function_name};

/// What a call asks for.
#[derive(Clone, Copy, Debug, PartialEq, Eq, Hash)]
pub enum Function {
    /// Get unique.
    GU,
    /// Get next.
    GN,
    /// Get next within the parent.
    GNP,
    /// Get hold unique.
    GHU,
    /// Get hold next.
    GHN,
    /// Get hold next within the parent.
    GHNP,
    /// Insert.
    ISRT,
    /// Replace.
    REPL,
    /// Delete.
    DLET,
    /// End the message under construction.
    PURG,
    /// Set the destination.
    CHNG,
    /// Take back the unit's work and go on.
    ROLB,
    /// Take back the unit's work and end abnormally.
    ROLL,
}

impl Function {
    /// The function as it is written.
    pub fn name(self) -> &'static [u8]
        ensures { result.now ≡ function_name self }
    {
        match self {
            Function::GU => b"GU",
            Function::GN => b"GN",
            Function::GNP => b"GNP",
            Function::GHU => b"GHU",
            Function::GHN => b"GHN",
            Function::GHNP => b"GHNP",
            Function::ISRT => b"ISRT",
            Function::REPL => b"REPL",
            Function::DLET => b"DLET",
            Function::PURG => b"PURG",
            Function::CHNG => b"CHNG",
            Function::ROLB => b"ROLB",
            Function::ROLL => b"ROLL",
        }
    }
}
