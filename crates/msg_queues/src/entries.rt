//! Messages kept by their ids.
ghost use Rattle.std.specs.Prelude.{◌≡◌, ◌+◌, OnOk, OnErr, IfErr, None, IfSome, IfNone};
ghost use Rattle.std.specs.Option.{option_map, unwrap_or};
ghost use Rattle.std.specs.Map.{values_of};
ghost use Rattle.model_messages.specs.Room.{message_bytes, messages_bytes};
ghost use Rattle.model_messages.specs.Queue.{IsNewId, messages_of, queued_at, with_message, with_holder, without_id_queued};
ghost use Rattle.msg_queues.specs.FreeMessages.{free_weight};
ghost use Rattle.msg_queues.specs.KeptMessages.{AreKeyed, HasCode};

use model_messages::Queued;
use std::alloc::AllocFailed;
use std::collections::BTreeMap;
use tm_types::{Message, Name};

/// Adds a message, which no region has, behind all others.
pub fn add(
    messages: &mut BTreeMap<u64, Queued>,
    message: Message,
) -> Result<(), AllocFailed<Message>>
    requires keyed { AreKeyed messages.old.entries }
    requires above { IsNewId message.id (values_of messages.old.entries) }
    ensures ok { OnOk result (values_of messages.new.entries ≡ with_message message (values_of messages.old.entries)) }
    ensures back { IfErr result (λ failed. failed.value ≡ message) }
    ensures err { OnErr result (messages.new.entries ≡ messages.old.entries) }
    ensures keyed { AreKeyed messages.new.entries }
{
    let id = message.id;
    let queued = Queued {
        message,
        holder: None,
    };
    match messages.insert(id, queued) {
        Ok(_) => Ok(()),
        Err(failed) => {
            let (_, queued) = failed.value;
            Err(AllocFailed {
                value: queued.message,
            })
        }
    }
}

/// The message of this id gets this holder, or none. Answers the message's code.
pub fn set_holder(
    messages: &mut BTreeMap<u64, Queued>,
    id: u64,
    holder: Option<u32>,
) -> Option<Name>
    requires { AreKeyed messages.old.entries }
    ensures value { values_of messages.new.entries ≡ with_holder id holder (values_of messages.old.entries) }
    ensures code { IfSome result (λ code. HasCode id code (values_of messages.old.entries)) }
    ensures absent { IfNone result (queued_at id (values_of messages.old.entries) ≡ None) }
    ensures keyed { AreKeyed messages.new.entries }
{
    match messages.get_mut(&id) {
        Some(queued) => {
            queued.holder = holder;
            Some(queued.message.code)
        }
        None => None,
    }
}

/// Removes the message of this id, and answers it with the region that had it.
pub fn remove(messages: &mut BTreeMap<u64, Queued>, id: u64) -> Option<Queued>
    requires { AreKeyed messages.old.entries }
    ensures value { values_of messages.new.entries ≡ without_id_queued id (values_of messages.old.entries) }
    ensures queued { result ≡ queued_at id (values_of messages.old.entries) }
    ensures bytes { messages_bytes (messages_of (values_of messages.new.entries)) + unwrap_or (option_map (λ q. message_bytes q.message) result) 0 ≡ messages_bytes (messages_of (values_of messages.old.entries)) }
    ensures keyed { AreKeyed messages.new.entries }
{
    messages.remove(&id)
}

/// How many a message with this holder counts among those that no region has.
pub fn free_weight(holder: Option<u32>) -> u64
    ensures { result ≡ free_weight holder }
{
    match holder {
        Some(_) => 0,
        None => 1,
    }
}
