//! What lasts of the empty machine.
ghost use Rattle.std.specs.Prelude.{◌≡◌, [], map, IfOk};
ghost use Rattle.model_machine.specs.Machine.{empty_state, first_setting, fresh_terminal_state};

use conversation::without_conversations;
use model_machine::{CodeSetting, DatabaseRows, Lasting, TerminalState};
use model_system::Code;
use out_queues::fresh_terminals;
use std::alloc::Global;
use system_types::System;
use tm_types::{Dbd, Memory, Name};

/// What lasts of the empty machine of this system. `Memory` is the only refusal.
pub fn empty_lasting(alloc: Global, system: &System) -> Result<Lasting, Memory>
    ensures { IfOk result (λ lasting. lasting ≡ empty_state system.now) }
{
    Ok(Lasting {
        rows: no_rows(alloc, system.databases())?,
        messages: Vec::new(alloc),
        next_id: 1,
        terminals: fresh_states(alloc, system.terminals())?,
        outputs: fresh_terminals(alloc, system.terminals())?,
        conversations: without_conversations(alloc, system.terminals())?,
        codes: first_settings(alloc, system.codes())?,
        steps: 0,
    })
}

// For each of these databases no rows.
fn no_rows(alloc: Global, databases: &[Dbd]) -> Result<Vec<DatabaseRows>, Memory>
    ensures { IfOk result (λ rows. rows.items ≡ map (λ _. []) databases.now) }
{
    databases
        .iter()
        .map(|_| DatabaseRows::new(alloc))
        .collect(alloc)
}

/// These terminals, none of whose numbers is used.
pub fn fresh_states(alloc: Global, terminals: &[Name]) -> Result<Vec<TerminalState>, Memory>
    ensures { IfOk result (λ states. states.items ≡ map fresh_terminal_state terminals.now) }
{
    terminals
        .iter()
        .map(|name| fresh_state(name))
        .collect(alloc)
}

fn fresh_state(name: &Name) -> TerminalState
    ensures { result ≡ fresh_terminal_state name.now }
{
    TerminalState {
        name: *name,
        last: 0,
        stopped: false,
    }
}

// These codes as the definition has them: none is stopped.
fn first_settings(alloc: Global, codes: &[Code]) -> Result<Vec<CodeSetting>, Memory>
    ensures { IfOk result (λ settings. settings.items ≡ map first_setting codes.now) }
{
    codes.iter().map(|code| first_setting(code)).collect(alloc)
}

fn first_setting(code: &Code) -> CodeSetting
    ensures { result ≡ first_setting code.now }
{
    CodeSetting {
        code: code.transaction.code,
        stopped: false,
        class: code.transaction.class,
        priority: code.transaction.normal_priority,
    }
}
