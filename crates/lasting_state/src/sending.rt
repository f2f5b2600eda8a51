//! Outputs on their way: to codes as messages, and to terminals as replies.
ghost use Rattle.std.specs.Prelude.{◌≡◌, ◌≤◌, ◌+◌, ◌^◌, IfOk, IfSome, OnOk, OnErr, IsSome};
ghost use Rattle.tm_types.specs.Segment.{counted_bytes};
ghost use Rattle.model_messages.specs.Queue.{IsNewId, with_message};
ghost use Rattle.model_messages.specs.Outputs.{replies_at, with_terminal, with_reply};
ghost use Rattle.lasting_state.specs.SentOutputs.{switched_message, IsSent};

use crate::limits::COUNT_LIMIT;
use lasting_changes::bytes_of;
use model_messages::EndedMessage;
use msg_queues::Queues;
use out_queues::Outputs;
use std::collections::VecDeque;
use tm_types::{Memory, Message, Name};

/// Sends these outputs of a message with this origin, in their order, and answers the next id. Want
/// of memory changes nothing: what was sent before is taken back.
pub fn send_all(
    queues: &mut Queues,
    terminals: &mut Outputs,
    next_id: u64,
    origin: &Name,
    mut outputs: VecDeque<EndedMessage>,
) -> Result<u64, Memory>
    requires { IsNewId next_id queues.old.queued }
    ensures ok { IfOk result (IsSent origin.now outputs.items queues.old queues.new terminals.old terminals.new next_id) }
    ensures queues { OnErr result (queues.new ≡ queues.old) }
    ensures terminals { OnErr result (terminals.new ≡ terminals.old) }
{
    let Some(first) = outputs.pop_front() else {
        return Ok(next_id);
    };
    let to = first.to;
    if terminals.has_terminal(&to) {
        reply(terminals, first)?;
        return match send_all(queues, terminals, next_id, origin, outputs) {
            Ok(next) => Ok(next),
            Err(Memory) => {
                terminals.take_back(&to);
                Err(Memory)
            }
        };
    }
    switch(queues, next_id, origin, first)?;
    match send_all(queues, terminals, next_id + 1, origin, outputs) {
        Ok(next) => Ok(next),
        Err(Memory) => {
            queues.remove(next_id);
            Err(Memory)
        }
    }
}

/// Sends an output to a code.
fn switch(queues: &mut Queues, id: u64, origin: &Name, output: EndedMessage) -> Result<(), Memory>
    requires { IsNewId id queues.old.queued }
    ensures ok { OnOk result (queues.new ≡ record queues.old { queued = with_message (switched_message origin.now output id) queues.old.queued }) }
    ensures few { OnOk result (id + 1 ≤ 2 ^ 60) }
    ensures err { OnErr result (queues.new ≡ queues.old) }
{
    let Some(bytes) = bytes_of(&output.segments) else {
        return Err(Memory);
    };
    if id >= COUNT_LIMIT || queues.content() + bytes >= 1 << 62 {
        return Err(Memory);
    }
    let message = Message {
        id,
        origin: *origin,
        code: output.to,
        conversation: false,
        segments: output.segments,
    };
    match queues.add(message) {
        Ok(()) => Ok(()),
        Err(_) => Err(Memory),
    }
}

/// Sends an output to a terminal.
fn reply(terminals: &mut Outputs, output: EndedMessage) -> Result<(), Memory>
    requires { IsSome (replies_at output.to terminals.old) }
    ensures ok { OnOk result (terminals.new ≡ with_terminal output.to (with_reply output.segments) terminals.old) }
    ensures err { OnErr result (terminals.new ≡ terminals.old) }
{
    let Some(bytes) = bytes_of(&output.segments) else {
        return Err(Memory);
    };
    let to = output.to;
    let next = terminals.next(&to);
    if next >= COUNT_LIMIT || terminals.content() + bytes >= 1 << 62 {
        return Err(Memory);
    }
    match terminals.add(&to, output.segments) {
        Ok(_) => Ok(()),
        Err(_) => Err(Memory),
    }
}
