//! Commands of an operator.
use tm_types::Name;

/// A command of an operator: one variant for each form, with its names and numbers.
#[derive(Clone, Copy, Debug, PartialEq, Eq)]
pub enum Command {
    /// `/START TRANSACTION c`: messages of this code are taken and scheduled again.
    StartTransaction(Name),
    /// `/STOP TRANSACTION c`: messages of this code are neither taken nor scheduled.
    StopTransaction(Name),
    /// `/START LTERM t`: this terminal takes input and shows output again.
    StartTerminal(Name),
    /// `/STOP LTERM t`: this terminal takes no input and shows no output.
    StopTerminal(Name),
    /// `/DISPLAY TRANSACTION c`
    DisplayTransaction(Name),
    /// `/DISPLAY LTERM t`
    DisplayTerminal(Name),
    /// `/DISPLAY ACTIVE`: what each region does.
    DisplayActive,
    /// `/CHECKPOINT`
    Checkpoint,
    /// `/CHECKPOINT FREEZE`: a checkpoint, and then the system is down.
    Freeze,
    /// `/DEQUEUE LTERM t PURGE1`: the first reply of this terminal is removed.
    DequeueFirst(Name),
    /// `/DEQUEUE LTERM t PURGE`: all replies of this terminal are removed.
    DequeueAll(Name),
    /// `/EXIT t`: the conversation of this terminal ends.
    Exit(Name),
    /// `/ASSIGN TRANSACTION c CLASS k`: this code has the class k, 1 to 255.
    AssignClass(Name, u8),
    /// `/ASSIGN TRANSACTION c PRIORITY p`: this code has the normal priority p, 0 to 14.
    AssignPriority(Name, u8),
    /// `/ERESTART`: the system that is down is opened again.
    EmergencyRestart,
    /// `/NRESTART`: the same.
    NormalRestart,
    /// `/NRESTART CHECKPOINT 0`: the system begins from nothing.
    ColdStart,
}
