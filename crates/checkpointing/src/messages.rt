//! The messages of a snapshot.
ghost use Rattle.std.specs.Prelude.{◌≡◌, ◌++◌, map, OnOk};
ghost use Rattle.log_records.specs.RecordSpelling.{record_spelling, IsCount, IsLogRecord};
ghost use Rattle.model_messages.specs.Queue.{messages_of};
ghost use Rattle.image_law.specs.SegmentCounts.{AreCounted};
ghost use Rattle.checkpointing.specs.SnapshotRecords.{message_record};
ghost use Rattle.checkpointing.specs.SpelledRecords.{AddsSpelled};

use log_records::append_input;
use model_messages::Queued;
use msg_queues::Queues;
use tm_types::Memory;

// A message of a snapshot belongs to no unit, and has no number.
const NO_UNIT: u64 = 0;

const NO_NUMBER: u64 = 0;

// Appends the record of a message, which has 1 to 32 segments.
fn append_message(out: &mut Vec<u8>, queued: &Queued) -> Result<(), Memory>
    requires { IsCount queued.now.message.segments }
    ensures ok { OnOk result (out.new.items ≡ out.old.items ++ record_spelling (message_record queued.now.message)) }
    ensures valid { OnOk result (IsLogRecord (message_record queued.now.message)) }
{
    let message = &queued.message;
    append_input(
        out,
        NO_UNIT,
        message.id,
        &message.origin,
        &message.code,
        NO_NUMBER,
        message.conversation,
        &message.segments,
    )
}

// Appends the records of the messages in the order of their ids, whether a region has them or none. Each has 1 to 32
// segments. After `Memory` a part of them may be appended.
pub(crate) fn append_messages(out: &mut Vec<u8>, queues: &Queues) -> Result<(), Memory>
    requires { AreCounted (messages_of queues.now.queued) }
    ensures { OnOk result (AddsSpelled (map message_record (messages_of queues.now.queued)) out.old.items out.new.items) }
{
    for queued in queues.by_id().values() {
        append_message(out, queued)?;
    }
    Ok(())
}
