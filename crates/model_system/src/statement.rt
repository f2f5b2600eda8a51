//! What a line of a script does.
use crate::{ScriptSsas, Text, Texts, Variable};
use tm_types::{AbendCode, Function, Name};

/// How two texts are compared, by their bytes.
#[derive(Clone, Copy, Debug, PartialEq, Eq)]
pub enum Comparison {
    /// `=`.
    Equal,
    /// `<>`.
    NotEqual,
    /// `<`.
    LessThan,
}

/// Where a script goes: a label, and the place of its LABEL among the lines of the program, counted
/// from 0.
#[derive(Clone, Copy, Debug)]
pub struct Target {
    pub label: Name,
    pub place: u32,
}

/// What a line of a script does. Each but a label is a statement when it is executed.
#[derive(Debug, Drop)]
pub enum Statement {
    /// LABEL: a place to go to.
    Label(Name),
    /// SET: the variable is the texts joined, cut at 1,996 bytes.
    Set(Variable, Texts),
    /// WORD: the first variable is the word of the second with this number, 1 to 100.
    Word(Variable, Variable, u8),
    /// CUT: the first variable is so many bytes, the second number, of the second variable from the
    /// place of the first number on; both are 1 to 1,996.
    Cut(Variable, Variable, u16, u16),
    /// PAD: zeros stand before the variable up to so many bytes, 1 to 18.
    Pad(Variable, u8),
    /// ADD: the first variable is the sum of both.
    Add(Variable, Variable),
    /// LESS: the first variable is the difference of both.
    Less(Variable, Variable),
    /// IF: goes to the target where the comparison holds.
    If(Text, Comparison, Text, Target),
    /// GOTO.
    Goto(Target),
    /// CALL: the function, the number of the PCB, 0 to 8, the variable of the area, which is missing
    /// where the function takes none, and the segment search arguments.
    Call(Function, u8, Option<Variable>, ScriptSsas),
    /// ABEND: ends abnormally, with a number of 1 to 4,095.
    Abend(AbendCode),
    /// END: ends.
    End,
}
