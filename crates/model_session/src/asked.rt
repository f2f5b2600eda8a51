//! What a line says, and what a block asks for.

use model_machine::ControlCall;
use tm_types::Name;

/// The form of a line that is well formed, without the text of an input.
#[derive(Clone, Copy, Debug)]
pub enum Form {
    /// An input of a terminal under a number.
    Input(Name, u64),
    /// An input of a terminal under a number, by the values of its screen.
    Screen(Name, u64),
    /// A terminal wants its first reply.
    Receive(Name),
    /// A terminal has seen its reply of this number.
    Acknowledge(Name, u64),
    /// A region's next step.
    Turn(u32),
    /// So many turns at most, while something is left to do.
    Quiet(u32),
    /// Power fails now. The number picks what of the writes since the last sync is left.
    Power(u64),
    /// Power fails at the write that comes after so many, counted from 1; the other number is the pick.
    PowerIn(u64, u64),
}

/// Why an input is refused before the control region is asked for it.
#[derive(Clone, Copy, Debug)]
pub enum InputStopped {
    /// The name is no terminal's.
    Terminal,
    /// The terminal has no format.
    Format,
    /// A value is given for a name that is no field of the format.
    Field(Name),
    /// A segment has so many bytes, which are too many.
    TooLong(u64),
}

/// What a session line asks for, with the `+` lines that belong to it.
#[derive(Debug, Drop)]
pub enum Asked {
    /// Nothing that the session knows: the lines break this rule.
    Bad(u8),
    /// An input of a terminal under a number, which is refused for this.
    Stopped(Name, u64, InputStopped),
    /// A call of the control region.
    Call(ControlCall),
    /// So many turns at most, while something is left to do.
    Quiet(u32),
    /// Power fails now, with this pick.
    Power(u64),
    /// Power fails at the write that comes after so many, counted from 1, with this pick.
    PowerIn(u64, u64),
    /// The system is to go on with what the disk recovers to.
    Restart,
    /// The system is to begin anew, with the empty machine.
    ColdStart,
    /// An operator's command that breaks this rule of commands.
    BadCommand(u8),
}

/// Why the disk can't be opened for the system.
#[derive(Clone, Copy, Debug)]
pub enum ImageRefused {
    /// The lowest rule that the image breaks, and of it the lowest sector.
    Rule(u8, u32),
    /// The image is of another definition, from this place on.
    Text(u32),
    /// So many sectors are needed, and the disk has so many.
    Size(u32, u32),
}
