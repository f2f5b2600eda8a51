//! A snapshot, whole.
ghost use Rattle.std.specs.Prelude.{◌≡◌, [], ◌∷◌, ◌++◌, length, map, IfOk, OnOk};
ghost use Rattle.std.specs.List.{AllByRecursion};
ghost use Rattle.log_records.specs.declared.record.Record.TheVariants.{Checkpoint};
ghost use Rattle.model_machine.specs.Machine.{setting_of};
ghost use Rattle.checkpointing.specs.SnapshotRecords.{terminal_records, code_record, snapshot_records};
ghost use Rattle.checkpointing.specs.SpelledRecords.{AddsSpelled, HaveRoom, IsWritable};
ghost use Rattle.checkpointing.specs.Touches.{changes_of_units, HasFewSectors, AreAllSpelled};
ghost use Rattle.checkpointing.specs.SnapshotState.{snapshot_state_of};

use crate::codes::append_codes;
use crate::messages::append_messages;
use crate::replies::append_replies;
use crate::terminals::append_terminals;
use crate::touches::{OpenUnit, append_touches};
use conversation::Conversations;
use log_records::append_checkpoint;
use model_machine::TerminalState;
use model_messages::{TerminalConversation, TerminalReplies};
use model_system::CodeState;
use msg_queues::Queues;
use out_queues::Outputs;
use seg_store::Stores;
use std::alloc::Global;
use tm_types::Memory;

/// What a snapshot is made of.
#[derive(Clone, Copy, Debug)]
pub struct SnapshotView<'a> {
    /// The number of the checkpoint.
    pub checkpoint: u64,
    /// The number of the next unit of work.
    pub next_unit: u64,
    /// The id of the next message.
    pub next_id: u64,
    /// How many lasting steps were done.
    pub steps: u64,
    /// The terminals, in the order of the definition.
    pub terminals: &'a [TerminalState],
    pub outputs: &'a Outputs,
    pub conversations: &'a Conversations,
    /// The codes, in the order of the definition.
    pub codes: &'a [CodeState],
    pub queues: &'a Queues,
    /// The units that aren't done, by their numbers; a life begins with none.
    pub units: &'a [OpenUnit<'a>],
    pub stores: &'a Stores,
}

// Appends the records of a snapshot. After `Memory` a part of them may be appended.
fn append_snapshot(out: &mut Vec<u8>, view: &SnapshotView) -> Result<(), Memory>
    requires state { IsWritable (snapshot_state_of view.now) }
    requires units { AreAllSpelled view.now.stores.now.stores view.now.units.now }
    requires few_sectors { AllByRecursion HasFewSectors view.now.stores.now.stores }
    ensures { OnOk result (AddsSpelled (snapshot_records view.entry.now.checkpoint view.entry.now.next_unit (snapshot_state_of view.entry.now) (changes_of_units view.entry.now.stores.now.stores view.entry.now.units.now)) out.old.items out.new.items) }
{
    append_checkpoint(
        out,
        view.checkpoint,
        view.next_id,
        view.next_unit,
        view.steps,
    )?;
    append_terminals(
        out,
        view.terminals,
        view.outputs.terminals(),
        view.conversations.terminals(),
    )?;
    append_codes(out, view.codes)?;
    append_messages(out, view.queues)?;
    append_replies(out, view.outputs.terminals())?;
    append_touches(out, view.units, view.stores)
}

/// The bytes of a snapshot: the counts, the terminals, the codes, the messages by their ids, the replies by terminal and
/// number, and the slots that open units changed.
pub fn write(alloc: Global, view: &SnapshotView) -> Result<Vec<u8>, Memory>
    requires state { IsWritable (snapshot_state_of view.now) }
    requires units { AreAllSpelled view.now.stores.now.stores view.now.units.now }
    requires few_sectors { AllByRecursion HasFewSectors view.now.stores.now.stores }
    ensures { IfOk result (λ bytes. AddsSpelled (snapshot_records view.entry.now.checkpoint view.entry.now.next_unit (snapshot_state_of view.entry.now) (changes_of_units view.entry.now.stores.now.stores view.entry.now.units.now)) [] bytes.items) }
{
    let mut bytes = Vec::new(alloc);
    append_snapshot(&mut bytes, view)?;
    Ok(bytes)
}

/// The bytes of a machine's first snapshot, of checkpoint 1: the next message and the next unit have the number 1, no step
/// was done, and there is no message, no reply and no open unit. The three lists have the terminals in the same order; a pad
/// has at most 65,000 bytes.
pub fn write_first(
    alloc: Global,
    terminals: &[TerminalState],
    outputs: &[TerminalReplies],
    conversations: &[TerminalConversation],
    codes: &[CodeState],
) -> Result<Vec<u8>, Memory>
    requires outputs { length outputs.now ≡ length terminals.now }
    requires conversations { length conversations.now ≡ length terminals.now }
    requires pads { HaveRoom conversations.now }
    ensures { IfOk result (λ bytes. AddsSpelled (Checkpoint 1 1 1 0 ∷ (terminal_records terminals.now outputs.now conversations.now ++ map code_record (map setting_of codes.now))) [] bytes.items) }
{
    let mut bytes = Vec::new(alloc);
    append_checkpoint(&mut bytes, 1, 1, 1, 0)?;
    append_terminals(&mut bytes, terminals, outputs, conversations)?;
    append_codes(&mut bytes, codes)?;
    Ok(bytes)
}
