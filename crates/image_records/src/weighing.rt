//! How much room messages and replies take.
ghost use Rattle.std.specs.Prelude.{◌≡◌, ◌+◌, ◌<◌, ◌^◌, slice_get};
ghost use Rattle.std.specs.List.{sum_by};
ghost use Rattle.std.specs.Option.{option_map_or};
ghost use Rattle.tm_types.specs.Segment.{counted_bytes, segment_length};
ghost use Rattle.model_messages.specs.Room.{messages_bytes, replies_bytes};
ghost use Rattle.model_messages.specs.Outputs.{outputs_bytes};
ghost use Rattle.model_image.specs.States.{over_full};
ghost use Rattle.image_records.specs.CappedCounts.{capped_count};

use model_machine::Lasting;
use model_messages::{Replies, TerminalReplies};
use system_types::System;
use tm_types::{Message, Segments};

/// 16: the messages and replies have no room.
#[tactic(auto, using(crate::proofs::Capped::over_is))]
pub fn is_over_full(system: &System, lasting: &Lasting) -> bool
    ensures { result ≡ over_full system.now lasting.now }
{
    let limit = u64::from(system.qbytes());
    let content = with_outputs(with_messages(0, &lasting.messages), &lasting.outputs);
    limit < content
}

/// The bytes of all these replies.
#[tactic(auto, using(crate::proofs::Capped::whole))]
pub fn replies_content(outputs: &[TerminalReplies]) -> u64
    requires { outputs_bytes outputs.now < 2 ^ 62 }
    ensures { result ≡ outputs_bytes outputs.now }
{
    with_outputs(0, outputs)
}

/// This many bytes and those of the messages, as far as they can be counted.
#[tactic(auto, using(crate::proofs::Capped::message_steps))]
fn with_messages(start: u64, messages: &[Message]) -> u64
    ensures { result ≡ capped_count (start + messages_bytes messages.now) }
{
    let mut content = start;
    for message in messages {
        content = with_segments(content, &message.segments);
    }
    content
}

#[tactic(auto, using(crate::proofs::Capped::terminal_steps))]
fn with_outputs(start: u64, outputs: &[TerminalReplies]) -> u64
    ensures { result ≡ capped_count (start + outputs_bytes outputs.now) }
{
    let mut content = start;
    for terminal in outputs {
        content = with_replies(content, &terminal.replies);
    }
    content
}

#[tactic(auto, using(crate::proofs::Capped::reply_steps))]
fn with_replies(start: u64, replies: &Replies) -> u64
    ensures { result ≡ capped_count (start + replies_bytes replies.now) }
{
    let mut content = start;
    for place in 0..replies.items.len() {
        content = with_segments(content, &replies.items[place].segments);
    }
    content
}

#[tactic(auto, using(crate::proofs::Capped::counted_is))]
fn with_segments(start: u64, segments: &Segments) -> u64
    ensures { result ≡ capped_count (start + counted_bytes segments.now) }
{
    with_lengths(plus(start, 48), segments)
}

#[tactic(auto, using(crate::proofs::Capped::segment_steps))]
fn with_lengths(start: u64, segments: &Segments) -> u64
    ensures { result ≡ capped_count (start + sum_by segment_length segments.now) }
{
    let mut content = start;
    for place in 0..segments.len() {
        content = plus(content, length_at(segments, place));
    }
    content
}

fn length_at(segments: &Segments, place: usize) -> u64
    ensures { result ≡ option_map_or segment_length (slice_get segments.now place) 0 }
{
    match segments.get(place) {
        Some(segment) => segment.counted_length(),
        None => 0,
    }
}

fn plus(content: u64, more: u64) -> u64
    ensures { result ≡ capped_count (content + more) }
{
    content.saturating_add(more)
}
