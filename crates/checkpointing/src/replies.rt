//! The replies of a snapshot.
ghost use Rattle.std.specs.Prelude.{◌≡◌, length, map, slice_get, OnOk};
ghost use Rattle.std.specs.Option.{option_copied};
ghost use Rattle.image_law.specs.SegmentCounts.{AreRepliesCounted, AreAllCounted};
ghost use Rattle.checkpointing.specs.SnapshotRecords.{reply_record, reply_records};
ghost use Rattle.checkpointing.specs.SpelledRecords.{AddsSpelled};

use log_records::append_reply;
use model_messages::{Replies, TerminalReplies};
use tm_types::{Memory, Name, Reply};

// A reply of a snapshot belongs to no unit.
const NO_UNIT: u64 = 0;

fn count(replies: &Replies) -> usize
    ensures { result ≡ length replies.now }
{
    replies.items.len()
}

// The reply at this place.
fn reply_at(replies: &Replies, place: usize) -> Option<&Reply>
    ensures { option_copied result ≡ slice_get replies.now place }
{
    replies.items.get(place)
}

// Appends the records of a terminal's replies.
fn append_some(out: &mut Vec<u8>, terminal: &Name, replies: &Replies) -> Result<(), Memory>
    requires { AreRepliesCounted replies.now }
    ensures { OnOk result (AddsSpelled (map (reply_record terminal.now) replies.now) out.old.items out.new.items) }
{
    for place in 0..count(replies) {
        let Some(reply) = reply_at(replies, place) else {
            unreachable!()
        };
        append_reply(out, NO_UNIT, terminal, reply.number, &reply.segments)?;
    }
    Ok(())
}

// Appends the records of the replies, by terminal and number. Each has 1 to 32 segments. After `Memory` a part of them may
// be appended.
pub(crate) fn append_replies(out: &mut Vec<u8>, terminals: &[TerminalReplies]) -> Result<(), Memory>
    requires { AreAllCounted terminals.now }
    ensures { OnOk result (AddsSpelled (reply_records terminals.now) out.old.items out.new.items) }
{
    for terminal in terminals {
        append_some(out, &terminal.terminal, &terminal.replies)?;
    }
    Ok(())
}
