//! The commands of an operator that last.
ghost use Rattle.std.specs.Prelude.{◌≡◌, ◌↔◌, ◌++◌, Some, codes, decimal, length, take, OnOk, OnErr};
ghost use Rattle.tm_types.specs.Commands as spec;

use crate::digits::spelled_number;
use crate::{Memory, Name, first_word, operands};
use itoa::Buffer;

/// A command of an operator that changes what lasts: one variant for each form, with its name.
#[derive(Clone, Copy, Debug, PartialEq, Eq)]
pub enum LastingCommand {
    /// Messages of this code are taken and scheduled again.
    StartTransaction(Name),
    /// Messages of this code are neither taken nor scheduled.
    StopTransaction(Name),
    /// This terminal takes input and shows output again.
    StartTerminal(Name),
    /// This terminal takes no input and shows no output.
    StopTerminal(Name),
    /// The first reply of this terminal is removed.
    DequeueFirst(Name),
    /// All replies of this terminal are removed.
    DequeueAll(Name),
    /// The conversation of this terminal ends.
    Exit(Name),
    /// This code has this class, 1 to 255.
    AssignClass(Name, u8),
    /// This code has this normal priority, 0 to 14.
    AssignPriority(Name, u8),
}

impl LastingCommand {
    /// The command that a text spells, or None exactly where it spells none. This takes no memory.
    pub fn read(text: &[u8]) -> Option<LastingCommand>
        ensures value { result ≡ spec.command_in text.now }
        ensures spelled { (c : LastingCommand) → (result ≡ Some c) ↔ spec.SpellsCommand text.now c }
    {
        command_of(text)
    }

    /// Adds the command's spelling at the end, or nothing where there is no memory.
    pub fn write(&self, out: &mut Vec<u8>) -> Result<(), Memory>
        ensures written { OnOk result (out.new.items ≡ out.old.items ++ spec.command_spelling self.now) }
        ensures unwritten { OnErr result (out.new.items ≡ out.old.items) }
    {
        match self {
            LastingCommand::StartTransaction(code) => write_around(
                out,
                b"/START TRANSACTION ",
                code,
                b"",
            ),
            LastingCommand::StopTransaction(code) => write_around(
                out,
                b"/STOP TRANSACTION ",
                code,
                b"",
            ),
            LastingCommand::StartTerminal(terminal) => write_around(
                out,
                b"/START LTERM ",
                terminal,
                b"",
            ),
            LastingCommand::StopTerminal(terminal) => write_around(
                out,
                b"/STOP LTERM ",
                terminal,
                b"",
            ),
            LastingCommand::DequeueFirst(terminal) => {
                write_around(out, b"/DEQUEUE LTERM ", terminal, b" PURGE1")
            }
            LastingCommand::DequeueAll(terminal) => {
                write_around(out, b"/DEQUEUE LTERM ", terminal, b" PURGE")
            }
            LastingCommand::Exit(terminal) => write_around(out, b"/EXIT ", terminal, b""),
            LastingCommand::AssignClass(code, class) => {
                write_assignment(out, code, b" CLASS ", *class)
            }
            LastingCommand::AssignPriority(code, priority) => {
                write_assignment(out, code, b" PRIORITY ", *priority)
            }
        }
    }
}

#[tactic(auto, unfolding(crate::specs::Commands::command_in))]
fn command_of(text: &[u8]) -> Option<LastingCommand>
    ensures { result ≡ spec.command_in text.now }
{
    let verb = first_word(text);
    if verb == b"/START".as_slice() {
        read_start(operands(text))
    } else if verb == b"/STOP".as_slice() {
        read_stop(operands(text))
    } else if verb == b"/DEQUEUE".as_slice() {
        read_dequeue(operands(text))
    } else if verb == b"/EXIT".as_slice() {
        let terminal = Name::read(operands(text))?;
        Some(LastingCommand::Exit(terminal))
    } else if verb == b"/ASSIGN".as_slice() {
        read_assign(operands(text))
    } else {
        None
    }
}

/// What stands behind `/START`.
#[tactic(auto, unfolding(crate::specs::Commands::start_in))]
fn read_start(text: &[u8]) -> Option<LastingCommand>
    ensures { result ≡ spec.start_in text.now }
{
    let keyword = first_word(text);
    if keyword == b"TRANSACTION".as_slice() {
        let code = Name::read(operands(text))?;
        Some(LastingCommand::StartTransaction(code))
    } else if keyword == b"LTERM".as_slice() {
        let terminal = Name::read(operands(text))?;
        Some(LastingCommand::StartTerminal(terminal))
    } else {
        None
    }
}

/// What stands behind `/STOP`.
#[tactic(auto, unfolding(crate::specs::Commands::stop_in))]
fn read_stop(text: &[u8]) -> Option<LastingCommand>
    ensures { result ≡ spec.stop_in text.now }
{
    let keyword = first_word(text);
    if keyword == b"TRANSACTION".as_slice() {
        let code = Name::read(operands(text))?;
        Some(LastingCommand::StopTransaction(code))
    } else if keyword == b"LTERM".as_slice() {
        let terminal = Name::read(operands(text))?;
        Some(LastingCommand::StopTerminal(terminal))
    } else {
        None
    }
}

/// What stands behind `/DEQUEUE`.
#[tactic(auto, unfolding(crate::specs::Commands::dequeue_in))]
fn read_dequeue(text: &[u8]) -> Option<LastingCommand>
    ensures { result ≡ spec.dequeue_in text.now }
{
    if first_word(text) == b"LTERM".as_slice() {
        read_purge(operands(text))
    } else {
        None
    }
}

/// What stands behind `/DEQUEUE LTERM`.
#[tactic(auto, unfolding(crate::specs::Commands::purge_in))]
fn read_purge(text: &[u8]) -> Option<LastingCommand>
    ensures { result ≡ spec.purge_in text.now }
{
    let keyword = operands(text);
    if keyword == b"PURGE1".as_slice() {
        let terminal = Name::read(first_word(text))?;
        Some(LastingCommand::DequeueFirst(terminal))
    } else if keyword == b"PURGE".as_slice() {
        let terminal = Name::read(first_word(text))?;
        Some(LastingCommand::DequeueAll(terminal))
    } else {
        None
    }
}

/// What stands behind `/ASSIGN`.
#[tactic(auto, unfolding(crate::specs::Commands::assign_in))]
fn read_assign(text: &[u8]) -> Option<LastingCommand>
    ensures { result ≡ spec.assign_in text.now }
{
    if first_word(text) == b"TRANSACTION".as_slice() {
        read_assigned(operands(text))
    } else {
        None
    }
}

/// What stands behind `/ASSIGN TRANSACTION`.
#[tactic(auto, unfolding(crate::specs::Commands::assigned_in))]
fn read_assigned(text: &[u8]) -> Option<LastingCommand>
    ensures { result ≡ spec.assigned_in text.now }
{
    let assignment = operands(text);
    let keyword = first_word(assignment);
    if keyword == b"CLASS".as_slice() {
        let class = spelled_number(1, 255, operands(assignment))?;
        let code = Name::read(first_word(text))?;
        Some(LastingCommand::AssignClass(code, class))
    } else if keyword == b"PRIORITY".as_slice() {
        let priority = spelled_number(0, 14, operands(assignment))?;
        let code = Name::read(first_word(text))?;
        Some(LastingCommand::AssignPriority(code, priority))
    } else {
        None
    }
}

/// Adds the spelling of an assignment, or nothing.
fn write_assignment(
    out: &mut Vec<u8>,
    code: &Name,
    keyword: &[u8],
    number: u8,
) -> Result<(), Memory>
    ensures written { OnOk result (out.new.items ≡ out.old.items ++ (codes "/ASSIGN TRANSACTION " ++ (code.now ++ (keyword.now ++ decimal number)))) }
    ensures unwritten { OnErr result (out.new.items ≡ out.old.items) }
{
    let start = out.len();
    let written = write_numbered(out, code, keyword, number);
    if written.is_err() {
        out.truncate(start);
    }
    written
}

/// Adds the spelling of an assignment. Where there is no memory a part of it may stand there.
fn write_numbered(out: &mut Vec<u8>, code: &Name, keyword: &[u8], number: u8) -> Result<(), Memory>
    ensures written { OnOk result (out.new.items ≡ out.old.items ++ (codes "/ASSIGN TRANSACTION " ++ (code.now ++ (keyword.now ++ decimal number)))) }
    ensures kept { OnErr result (take (length out.old.items) out.new.items ≡ out.old.items) }
{
    write_parts(out, b"/ASSIGN TRANSACTION ", code, keyword)?;
    let mut digits = Buffer::new();
    out.extend_from_slice(digits.format(number).as_bytes())
}

/// Adds a name with what stands before it and behind it, or nothing.
fn write_around(out: &mut Vec<u8>, before: &[u8], name: &Name, behind: &[u8]) -> Result<(), Memory>
    ensures written { OnOk result (out.new.items ≡ out.old.items ++ (before.now ++ (name.now ++ behind.now))) }
    ensures unwritten { OnErr result (out.new.items ≡ out.old.items) }
{
    let start = out.len();
    let written = write_parts(out, before, name, behind);
    if written.is_err() {
        out.truncate(start);
    }
    written
}

/// Adds these behind each other. Where there is no memory some of them may stand there.
fn write_parts(out: &mut Vec<u8>, before: &[u8], name: &Name, behind: &[u8]) -> Result<(), Memory>
    ensures written { OnOk result (out.new.items ≡ out.old.items ++ (before.now ++ (name.now ++ behind.now))) }
    ensures kept { OnErr result (take (length out.old.items) out.new.items ≡ out.old.items) }
{
    out.extend_from_slice(before)?;
    out.extend_from_slice(name.as_bytes())?;
    out.extend_from_slice(behind)
}
