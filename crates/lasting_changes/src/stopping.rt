//! Terminals and codes that are stopped, or started.
ghost use Rattle.std.specs.Prelude.{◌≡◌, ◌<◌, Some, IfSome, length};
ghost use Rattle.std.specs.Str.{bytes_eq};
ghost use Rattle.model_system.specs.Lists.{change_at};
ghost use Rattle.model_machine.specs.Machine.{setting_place, terminal_place};
ghost use Rattle.model_machine.specs.LastingSteps.{stopped_code, stopped_terminal};

use model_machine::{CodeSetting, TerminalState};
use tm_types::Name;

/// Stops the code of this name, or starts it.
pub fn stop_code(codes: &mut Vec<CodeSetting>, name: &Name, stopped: bool)
    ensures { codes.new.items ≡ change_at codes.old.items (setting_place codes.old.items name.now) (stopped_code stopped) }
{
    match code_place(codes, name) {
        Some(place) => stop_code_at(codes, place, stopped),
        None => {}
    }
}

pub(crate) fn code_place(codes: &[CodeSetting], name: &Name) -> Option<usize>
    ensures value { result ≡ setting_place codes.now name.now }
    ensures within { IfSome result (λ place. place < length codes.now) }
{
    codes.iter().position(|code| is_name(&code.code, name))
}

fn stop_code_at(codes: &mut Vec<CodeSetting>, place: usize, stopped: bool)
    requires { place < length codes.old.items }
    ensures { codes.new.items ≡ change_at codes.old.items (Some place) (stopped_code stopped) }
{
    note_code(&mut codes[place], stopped);
}

fn note_code(code: &mut CodeSetting, stopped: bool)
    ensures { code.new ≡ stopped_code stopped code.old }
{
    code.stopped = stopped;
}

/// Stops the terminal of this name, or starts it.
pub fn stop_terminal(terminals: &mut Vec<TerminalState>, name: &Name, stopped: bool)
    ensures { terminals.new.items ≡ change_at terminals.old.items (terminal_place terminals.old.items name.now) (stopped_terminal stopped) }
{
    match terminal_place(terminals, name) {
        Some(place) => stop_terminal_at(terminals, place, stopped),
        None => {}
    }
}

/// The place of the terminal of this name, counted from 0.
pub fn terminal_place(terminals: &[TerminalState], name: &Name) -> Option<usize>
    ensures value { result ≡ terminal_place terminals.now name.now }
    ensures within { IfSome result (λ place. place < length terminals.now) }
{
    terminals
        .iter()
        .position(|terminal| is_name(&terminal.name, name))
}

fn stop_terminal_at(terminals: &mut Vec<TerminalState>, place: usize, stopped: bool)
    requires { place < length terminals.old.items }
    ensures { terminals.new.items ≡ change_at terminals.old.items (Some place) (stopped_terminal stopped) }
{
    note_terminal(&mut terminals[place], stopped);
}

fn note_terminal(terminal: &mut TerminalState, stopped: bool)
    ensures { terminal.new ≡ stopped_terminal stopped terminal.old }
{
    terminal.stopped = stopped;
}

fn is_name(name: &Name, other: &Name) -> bool
    ensures { result ≡ bytes_eq name.now other.now }
{
    name == other
}
