//! Entries that are added to a history.
ghost use Rattle.std.specs.Prelude.{◌≡◌, ◌<◌, None, Some};
ghost use Rattle.std.specs.Vec.{vec_len, vec_capacity};
ghost use Rattle.model_machine.specs.declared.entry.Entry.TheVariants.{Accept, Acked as AckedEntry, Turn as TurnEntry, Commanded, Checked};
ghost use Rattle.openings.specs.Faults.{fault_in};
ghost use Rattle.tm_control.specs.ControlCalls.{is_noted, noted};

use model_machine::{
    AckRefused, Acked, Answer, CheckpointRefused, Command, CommandRefused, ControlFault, Entry,
    InputRefused, Taken, Turned,
};
use tm_types::{Name, Segments};

/// Adds an entry to a history that has room for it: that of a call which was answered, or in which the disk failed. It takes no
/// memory and gives none back.
pub(crate) fn note(history: &mut Vec<Entry>, entry: Entry)
    requires { vec_len history.old < vec_capacity history.old }
    ensures items { history.new.items ≡ noted (is_noted (fault_in entry)) history.old.items entry }
    ensures capacity { vec_capacity history.new ≡ vec_capacity history.old }
{
    if is_noted(&entry) {
        history.push_reserved(entry);
    }
}

fn is_noted(entry: &Entry) -> bool
    ensures { result ≡ is_noted (fault_in entry.now) }
{
    match entry {
        Entry::Accept(_, _, _, Err(InputRefused::Fault(fault))) => is_told(fault),
        Entry::Acked(_, _, Err(AckRefused::Fault(fault))) => is_told(fault),
        Entry::Turn(_, Err(fault)) => is_told(fault),
        Entry::Commanded(_, Err(CommandRefused::Fault(fault))) => is_told(fault),
        Entry::Checked(_, Err(CheckpointRefused::Fault(fault))) => is_told(fault),
        _ => true,
    }
}

/// Whether the history tells of a fault: that of the disk alone.
fn is_told(fault: &ControlFault) -> bool
    ensures { result ≡ is_noted (Some fault.now) }
{
    match fault {
        ControlFault::Disk => true,
        ControlFault::Memory => false,
        ControlFault::Spent(_) => false,
    }
}

/// The entry of an input.
pub(crate) fn input_entry(
    terminal: &Name,
    number: u64,
    segments: Segments,
    answer: &Result<Taken, InputRefused>,
) -> Entry
    ensures { result ≡ Accept terminal.now number segments answer.now }
{
    Entry::Accept(*terminal, number, segments, *answer)
}

/// The entry of an acknowledgement.
pub(crate) fn acked_entry(terminal: &Name, number: u64, answer: &Result<Acked, AckRefused>) -> Entry
    ensures { result ≡ AckedEntry terminal.now number answer.now }
{
    Entry::Acked(*terminal, number, *answer)
}

/// The entry of a turn.
pub(crate) fn turn_entry(region: u32, turned: &Result<Turned, ControlFault>) -> Entry
    ensures { result ≡ TurnEntry region turned.now }
{
    Entry::Turn(region, *turned)
}

/// The entry of a command, of which this answer was kept, unless it met a fault.
pub(crate) fn command_entry(
    command: &Command,
    kept: Result<Answer, CommandRefused>,
    answer: &Result<Answer, CommandRefused>,
) -> Entry
    requires { fault_in (Commanded command.now answer.now) ≡ None → kept ≡ answer.now }
    ensures { result ≡ Commanded command.now answer.now }
{
    match answer {
        Err(CommandRefused::Fault(fault)) => {
            Entry::Commanded(*command, Err(CommandRefused::Fault(*fault)))
        }
        _ => Entry::Commanded(*command, kept),
    }
}

/// The entry of a checkpoint.
pub(crate) fn checked_entry(freeze: bool, answer: &Result<u64, CheckpointRefused>) -> Entry
    ensures { result ≡ Checked freeze answer.now }
{
    Entry::Checked(freeze, *answer)
}
