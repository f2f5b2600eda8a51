//! The tables of what lasts.
ghost use Rattle.std.specs.Prelude.{◌≡◌, ◌+◌, ◌<◌, ◌^◌, false, true, map, IfOk, OnOk};
ghost use Rattle.std.specs.List.{list_all};
ghost use Rattle.model_messages.specs.Queue.{IsNewId, messages_of, with_message};
ghost use Rattle.model_messages.specs.Room.{message_bytes, messages_bytes};
ghost use Rattle.model_messages.specs.Outputs.{outputs_bytes};
ghost use Rattle.model_image.specs.States.{ascend_below, breaks_a_rule, run_up_to};
ghost use Rattle.image_records.specs.KeptState.{KeepsState, free_message};

use crate::kept::Kept;
use crate::weighing::replies_content;
use conversation::Conversations;
use model_machine::Lasting;
use model_messages::TerminalReplies;
use msg_queues::Queues;
use out_queues::Outputs;
use std::alloc::Global;
use system_types::System;
use tm_types::{Memory, Message};

/// The tables of a state that breaks no rule, which is taken over. `Memory` is the only refusal.
#[tactic(auto, using(crate::proofs::Sound::sound_steps))]
pub fn tables_of(alloc: Global, system: &System, lasting: Lasting) -> Result<Kept, Memory>
    requires { breaks_a_rule system.now lasting ≡ false }
    ensures { IfOk result (KeepsState system.now lasting) }
{
    let limit = system.qbytes();
    let queues = free_queues(alloc, limit, lasting.next_id, lasting.messages)?;
    let outputs = outputs_of(lasting.outputs);
    Ok(Kept {
        queues,
        next_id: lasting.next_id,
        terminals: lasting.terminals,
        outputs,
        conversations: Conversations::of(alloc, lasting.conversations),
        codes: lasting.codes,
        steps: lasting.steps,
    })
}

/// These terminals, whose replies follow one another up to the next number of each.
#[tactic(auto, using(crate::proofs::Sound::all_run))]
fn outputs_of(terminals: Vec<TerminalReplies>) -> Outputs
    requires numbered { list_all (λ terminal. run_up_to terminal.next terminal.replies) terminals.items ≡ true }
    requires fits { outputs_bytes terminals.items < 2 ^ 62 }
    ensures { result ≡ terminals.items }
{
    let content = replies_content(&terminals);
    Outputs::of(terminals, content)
}

/// The queues of these messages, whose ids ascend below the next one; no region has any.
#[tactic(auto, using(crate::proofs::Filled::filled_steps))]
fn free_queues(
    alloc: Global,
    limit: u32,
    next_id: u64,
    messages: Vec<Message>,
) -> Result<Queues, Memory>
    requires ascending { ascend_below next_id messages.items ≡ true }
    requires fits { messages_bytes messages.items < 2 ^ 62 }
    ensures { IfOk result (λ queues. queues ≡ record { limit = limit; queued = map free_message messages.items }) }
{
    let mut queues = Queues::new(alloc, limit);
    for message in messages {
        add(&mut queues, message)?;
    }
    Ok(queues)
}

fn add(queues: &mut Queues, message: Message) -> Result<(), Memory>
    requires above { IsNewId message.id queues.old.queued }
    requires fits { messages_bytes (messages_of queues.old.queued) + message_bytes message < 2 ^ 62 }
    ensures { OnOk result (queues.new ≡ record queues.old { queued = with_message message queues.old.queued }) }
{
    match queues.add(message) {
        Ok(()) => Ok(()),
        Err(_) => Err(Memory),
    }
}
