//! Terminals and codes by their names.
//!
//! They stand in the order of the definition, so its index tells their places.
ghost use Rattle.std.specs.Prelude.{◌≡◌, map, position, OnOk};
ghost use Rattle.std.specs.Str.{bytes_eq};
ghost use Rattle.model_system.specs.Lists.{change_at};
ghost use Rattle.model_machine.specs.Machine.{terminal_place};
ghost use Rattle.model_machine.specs.LastingSteps.{with_conversing};
ghost use Rattle.model_messages.specs.Terminals.{with_conversation};
ghost use Rattle.model_messages.specs.Outputs.{with_next, with_terminal};
ghost use Rattle.model_image.specs.Snapshot.{code_names, with_kept};
ghost use Rattle.image_records.specs.ChangeRecords.{of_conversation, of_output, of_setting, of_state, with_input, with_setting};

use model_machine::{CodeSetting, TerminalState};
use model_messages::{Conversation, TerminalConversation, TerminalReplies};
use system_types::System;
use tm_types::{Memory, Name, Reply, Segments};

/// The terminal of this name has this last input, and is stopped or not. Where there is none, nothing changes.
#[tactic(auto, using(crate::proofs::Named::within_names))]
pub fn set_input(
    system: &System,
    terminals: &mut Vec<TerminalState>,
    name: &Name,
    last: u64,
    stopped: bool,
)
    requires { map of_state terminals.old.items ≡ system.now.terminals }
    ensures { terminals.new.items ≡ change_at terminals.old.items (terminal_place terminals.old.items name.now) (with_input last stopped) }
{
    match system.terminal_place(name) {
        Some(place) => put_input(&mut terminals[place], last, stopped),
        None => {}
    }
}

fn put_input(terminal: &mut TerminalState, last: u64, stopped: bool)
    ensures { terminal.new ≡ with_input last stopped terminal.old }
{
    terminal.last = last;
    terminal.stopped = stopped;
}

/// The code of this name has these settings. Where there is none, nothing changes.
#[tactic(auto, using(crate::proofs::Named::within_names))]
pub fn set_code(
    system: &System,
    codes: &mut Vec<CodeSetting>,
    name: &Name,
    stopped: bool,
    class: u8,
    priority: u8,
)
    requires { map of_setting codes.old.items ≡ code_names system.now }
    ensures { codes.new.items ≡ change_at codes.old.items (position (λ code. bytes_eq code.code name.now) codes.old.items) (with_setting stopped class priority) }
{
    match system.code_place(name) {
        Some(place) => put_setting(&mut codes[place], stopped, class, priority),
        None => {}
    }
}

fn put_setting(code: &mut CodeSetting, stopped: bool, class: u8, priority: u8)
    ensures { code.new ≡ with_setting stopped class priority code.old }
{
    code.stopped = stopped;
    code.class = class;
    code.priority = priority;
}

/// The terminal of this name has this conversation, or none. Where there is no such terminal, nothing changes.
#[tactic(auto, using(crate::proofs::Named::within_names))]
pub fn set_conversation(
    system: &System,
    terminals: &mut Vec<TerminalConversation>,
    name: &Name,
    conversation: Option<Conversation>,
)
    requires { map of_conversation terminals.old.items ≡ system.now.terminals }
    ensures { terminals.new.items ≡ with_conversing name.now conversation terminals.old.items }
{
    match system.terminal_place(name) {
        Some(place) => put_conversation(&mut terminals[place], conversation),
        None => {}
    }
}

fn put_conversation(kept: &mut TerminalConversation, conversation: Option<Conversation>)
    ensures { kept.new ≡ with_conversation conversation kept.old }
{
    kept.conversation = conversation;
}

/// The next reply of the terminal of this name gets this number. Where there is no such terminal, nothing changes.
#[tactic(auto, using(crate::proofs::Named::within_names))]
pub fn set_next(system: &System, terminals: &mut Vec<TerminalReplies>, name: &Name, number: u64)
    requires { map of_output terminals.old.items ≡ system.now.terminals }
    ensures { terminals.new.items ≡ with_terminal name.now (with_next number) terminals.old.items }
{
    match system.terminal_place(name) {
        Some(place) => put_next(&mut terminals[place], number),
        None => {}
    }
}

fn put_next(kept: &mut TerminalReplies, number: u64)
    ensures { kept.new ≡ with_next number kept.old }
{
    kept.next = number;
}

/// The terminal of this name keeps one reply more, of this number. Where there is no such terminal, nothing changes.
#[tactic(auto, using(crate::proofs::Named::within_names))]
pub fn add_reply(
    system: &System,
    terminals: &mut Vec<TerminalReplies>,
    name: &Name,
    number: u64,
    segments: Segments,
) -> Result<(), Memory>
    requires { map of_output terminals.old.items ≡ system.now.terminals }
    ensures { OnOk result (terminals.new.items ≡ with_terminal name.now (with_kept number segments) terminals.old.items) }
{
    match system.terminal_place(name) {
        Some(place) => push_reply(&mut terminals[place], number, segments),
        None => Ok(()),
    }
}

fn push_reply(kept: &mut TerminalReplies, number: u64, segments: Segments) -> Result<(), Memory>
    ensures { OnOk result (kept.new ≡ with_kept number segments kept.old) }
{
    kept.replies.items.push_back(Reply { number, segments })?;
    Ok(())
}
