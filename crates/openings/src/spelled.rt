//! The first snapshot.
ghost use Rattle.std.specs.Prelude.{◌≡◌, ◌<◌, ◌≤◌, [], length, map, IfOk};
ghost use Rattle.model_messages.specs.Terminals.{without_conversation};
ghost use Rattle.model_messages.specs.Outputs.{fresh_terminal};
ghost use Rattle.model_machine.specs.Machine.{empty_state, fresh_terminal_state};
ghost use Rattle.checkpointing.specs.SpelledRecords.{AddsSpelled};
ghost use Rattle.system_types.specs.Codes.{first_state};
ghost use Rattle.openings.specs.FirstImage.{first_records};

use checkpointing::write_first;
use model_machine::{Lasting, TerminalState};
use model_messages::{TerminalConversation, TerminalReplies};
use model_system::CodeState;
use std::alloc::Global;
use system_types::System;
use tm_types::Memory;

// The records of the empty machine of this system, with these terminals and codes.
fn spelled(
    alloc: Global,
    system: &System,
    terminals: &[TerminalState],
    outputs: &[TerminalReplies],
    conversations: &[TerminalConversation],
    codes: &[CodeState],
) -> Result<Vec<u8>, Memory>
    requires terminals { terminals.now ≡ map fresh_terminal_state system.now.terminals }
    requires outputs { outputs.now ≡ map fresh_terminal system.now.terminals }
    requires conversations { conversations.now ≡ map without_conversation system.now.terminals }
    requires codes { codes.now ≡ map first_state system.now.codes }
    ensures { IfOk result (λ bytes. AddsSpelled (first_records system.now) [] bytes.items) }
{
    write_first(alloc, terminals, outputs, conversations, codes)
}

/// The bytes of the first snapshot: the records of the empty machine of this system, with these codes.
#[tactic(auto, using(crate::proofs::FirstSnapshot::short_first, crate::proofs::FirstSnapshot::some_first))]
pub fn first_snapshot(
    alloc: Global,
    system: &System,
    lasting: &Lasting,
    codes: &[CodeState],
) -> Result<Vec<u8>, Memory>
    requires lasting { lasting.now ≡ empty_state system.now }
    requires codes { codes.now ≡ map first_state system.now.codes }
    ensures records { IfOk result (λ bytes. AddsSpelled (first_records system.now) [] bytes.items) }
    ensures some { IfOk result (λ bytes. 0 < length bytes.items) }
    ensures few { IfOk result (λ bytes. length bytes.items ≤ 8192) }
{
    let _terminals = system.terminals();
    spelled(
        alloc,
        system,
        &lasting.terminals,
        &lasting.outputs,
        &lasting.conversations,
        codes,
    )
}
