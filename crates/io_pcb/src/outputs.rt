//! What is sent at the sync point.
ghost use Rattle.std.specs.Prelude.{◌≡◌, ◌∷◌, ◌++◌, [], Some, OnOk};
ghost use Rattle.std.specs.List.{flat_map};
ghost use Rattle.model_messages.specs.MessageWork.{ended_to, output_ended_by};

use crate::pcbs::destination;
use model_messages::{EndedMessage, OpenPcb};
use std::collections::VecDeque;
use tm_types::{Memory, Name, Segments};

/// Adds a copy of each of these messages.
pub fn add_each(
    messages: &[EndedMessage],
    outputs: &mut VecDeque<EndedMessage>,
) -> Result<(), Memory>
    ensures { OnOk result (outputs.new.items ≡ outputs.old.items ++ messages.now) }
{
    for message in messages {
        add(message, outputs)?;
    }
    Ok(())
}

fn add(message: &EndedMessage, outputs: &mut VecDeque<EndedMessage>) -> Result<(), Memory>
    ensures { OnOk result (outputs.new.items ≡ outputs.old.items ++ message.now ∷ []) }
{
    let segments = message.segments.clone()?;
    outputs.push_back(EndedMessage {
        to: message.to,
        segments,
    })?;
    Ok(())
}

/// Adds a copy of each message under construction, in the order of the PCBs.
pub fn add_each_open(pcbs: &[OpenPcb], outputs: &mut VecDeque<EndedMessage>) -> Result<(), Memory>
    ensures { OnOk result (outputs.new.items ≡ outputs.old.items ++ flat_map output_ended_by pcbs.now) }
{
    for opened in pcbs {
        add_open(opened, outputs)?;
    }
    Ok(())
}

fn add_open(opened: &OpenPcb, outputs: &mut VecDeque<EndedMessage>) -> Result<(), Memory>
    ensures { OnOk result (outputs.new.items ≡ outputs.old.items ++ output_ended_by opened.now) }
{
    match destination(opened) {
        Some(to) => add_to(to, &opened.segments, outputs),
        None => Ok(()),
    }
}

fn add_to(to: Name, segments: &Segments, outputs: &mut VecDeque<EndedMessage>) -> Result<(), Memory>
    ensures { OnOk result (outputs.new.items ≡ outputs.old.items ++ ended_to (Some to) segments.now) }
{
    if segments.is_empty() {
        return Ok(());
    }
    let segments = segments.clone()?;
    outputs.push_back(EndedMessage { to, segments })?;
    Ok(())
}
