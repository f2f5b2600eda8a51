//! What the origin of a message is sent where the work on it ended abnormally.
ghost use Rattle.std.specs.Prelude.{◌≡◌, IfOk};
ghost use Rattle.model_machine.specs.LastingSteps.{abend_outputs};

use lasting_changes::abend_segments;
use model_messages::EndedMessage;
use std::alloc::Global;
use std::collections::VecDeque;
use tm_types::{AbendCode, Memory, Message};

/// What is sent where the work on this message ended abnormally: its text in one segment, to its origin.
pub fn abend_outputs(
    alloc: Global,
    message: &Message,
    abend: AbendCode,
) -> Result<VecDeque<EndedMessage>, Memory>
    ensures { IfOk result (λ outputs. outputs.items ≡ abend_outputs message.now abend) }
{
    let segments = abend_segments(alloc, &message.code, abend)?;
    let mut outputs = VecDeque::new(alloc);
    outputs.push_back(EndedMessage {
        to: message.origin,
        segments,
    })?;
    Ok(outputs)
}
