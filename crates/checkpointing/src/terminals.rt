//! The terminals of a snapshot.
ghost use Rattle.std.specs.Prelude.{◌≡◌, length, OnOk};
ghost use Rattle.checkpointing.specs.SnapshotRecords.{terminal_records};
ghost use Rattle.checkpointing.specs.SpelledRecords.{AddsSpelled, HaveRoom};

use log_records::append_terminal;
use model_machine::TerminalState;
use model_messages::{TerminalConversation, TerminalReplies};
use tm_types::Memory;

// Appends the records of the terminals, which stand in the same order in the three lists. Their pads have at most 65,000
// bytes. After `Memory` a part of them may be appended.
pub(crate) fn append_terminals(
    out: &mut Vec<u8>,
    terminals: &[TerminalState],
    outputs: &[TerminalReplies],
    conversations: &[TerminalConversation],
) -> Result<(), Memory>
    requires outputs { length outputs.now ≡ length terminals.now }
    requires conversations { length conversations.now ≡ length terminals.now }
    requires pads { HaveRoom conversations.now }
    ensures { OnOk result (AddsSpelled (terminal_records terminals.now outputs.now conversations.now) out.old.items out.new.items) }
{
    for place in 0..terminals.len() {
        let Some(terminal) = terminals.get(place) else {
            unreachable!()
        };
        let Some(output) = outputs.get(place) else {
            unreachable!()
        };
        let Some(conversation) = conversations.get(place) else {
            unreachable!()
        };
        append_terminal(
            out,
            &terminal.name,
            terminal.last,
            output.next,
            terminal.stopped,
            &conversation.conversation,
        )?;
    }
    Ok(())
}
