//! Terminals, and what becomes of their conversations.
ghost use Rattle.std.specs.Prelude.{◌≡◌, ◌+◌, ◌==◌, ◌<◌, ◌^◌, Some, true, false, IfOk, IfSome, length};
ghost use Rattle.std.specs.List.{list_all};
ghost use Rattle.std.specs.Option.{is_some, option_copied, option_map_or};
ghost use Rattle.std.specs.Str.{bytes_eq};
ghost use Rattle.model_machine.specs.Machine.{terminal_at, terminal_place};
ghost use Rattle.model_image.specs.Replay.{pad_size};
ghost use Rattle.model_image.specs.States.{is_small};
ghost use Rattle.log_replay.specs.ReplaySteps.{begins_by_input};

use conversation::begun;
use image_records::Kept;
use lasting_changes::terminal_place;
use model_machine::TerminalState;
use model_messages::Conversation;
use std::alloc::Global;
use system_types::System;
use tm_types::{Memory, Message, Name};

/// The place of the terminal of this name, counted from 0, where the number is the one behind that of its last input.
pub fn input_place(kept: &Kept, name: &Name, number: u64) -> Option<usize>
    requires { list_all (λ t. is_small t.last) kept.now.terminals ≡ true }
    ensures place { IfSome result (λ place. terminal_place kept.now.terminals name.now ≡ Some place) }
    ensures within { IfSome result (λ place. place < length kept.now.terminals) }
    ensures next { option_map_or (λ t. t.last + 1 == number) (terminal_at kept.now.terminals name.now) false ≡ is_some result }
{
    place_behind(&kept.terminals, name, number)
}

fn place_behind(terminals: &[TerminalState], name: &Name, number: u64) -> Option<usize>
    requires { list_all (λ t. is_small t.last) terminals.now ≡ true }
    ensures place { IfSome result (λ place. terminal_place terminals.now name.now ≡ Some place) }
    ensures within { IfSome result (λ place. place < length terminals.now) }
    ensures next { option_map_or (λ t. t.last + 1 == number) (terminal_at terminals.now name.now) false ≡ is_some result }
{
    let Some(terminal) = terminal_at(terminals, name) else {
        return None;
    };
    let next = is_next_input(terminal, number);
    if !next {
        return None;
    }
    terminal_place(terminals, name)
}

fn terminal_at<'a>(terminals: &'a [TerminalState], name: &Name) -> Option<&'a TerminalState>
    ensures { option_copied result ≡ terminal_at terminals.now name.now }
{
    terminals
        .iter()
        .find(|terminal| is_name(&terminal.name, name))
}

fn is_next_input(terminal: &TerminalState, number: u64) -> bool
    requires { is_small terminal.now.last ≡ true }
    ensures { result ≡ terminal.now.last + 1 == number }
{
    terminal.last + 1 == number
}

fn is_name(name: &Name, other: &Name) -> bool
    ensures { result ≡ bytes_eq name.now other.now }
{
    name == other
}

/// The conversation that begins with an input of this terminal to this code, if one does.
pub fn begins_with(
    alloc: Global,
    system: &System,
    kept: &Kept,
    origin: &Name,
    code: &Name,
    conversation: bool,
) -> Result<Option<Conversation>, Memory>
    ensures { IfOk result (λ begins. begins ≡ begins_by_input system.now kept.now.conversations origin.now code.now conversation) }
{
    if !conversation {
        return Ok(None);
    }
    if kept.conversations.conversation(origin).is_some() {
        return Ok(None);
    }
    let begins = begun(alloc, code, pad_size(system, code).saturating_sub(14))?;
    Ok(Some(begins))
}

fn pad_size(system: &System, code: &Name) -> u16
    ensures { result ≡ pad_size system.now code.now }
{
    match system.code(code) {
        Some(found) => found.transaction.scratch_pad,
        None => 0,
    }
}
