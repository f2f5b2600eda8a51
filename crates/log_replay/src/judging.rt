//! Whether the tables break no rule.
ghost use Rattle.std.specs.Prelude.{◌≡◌, ◌&&◌, ◌==◌, not, true, false};
ghost use Rattle.std.specs.List.{list_all};
ghost use Rattle.std.specs.Option.{option_map_or};
ghost use Rattle.std.specs.Str.{bytes_eq};
ghost use Rattle.model_messages.specs.Terminals.{conversation_at};
ghost use Rattle.model_image.specs.States.{is_small, is_next, is_conversation, has_right_pad, over_full, breaks_a_rule};
ghost use Rattle.log_replay.specs.ReplayRules.{lasting_in, are_right, knows_by, KeepsRest};
ghost use Rattle.log_replay.specs.ConversationTally.{ends_pad};
ghost use Rattle.model_system.specs.Codes.{code_at};

use image_records::{Kept, is_code, is_conversation, is_next, is_small, is_terminal};
use model_messages::PadChange;
use system_types::System;
use tm_types::Name;

/// Whether the tables break no rule, where those that no record can break are kept, and whether inputs, pads and messages are
/// right is known.
#[tactic(auto, using(crate::proofs::Rules::sound_is))]
pub fn is_sound(system: &System, kept: &Kept, inputs: bool, pads: bool, messages: bool) -> bool
    requires rest { KeepsRest kept.now }
    requires numbers { list_all (λ t. is_next t.next) kept.now.outputs ≡ true }
    requires inputs { inputs ≡ list_all (λ t. is_small t.last) kept.now.terminals }
    requires pads { pads ≡ list_all (has_right_pad system.now) kept.now.conversations }
    requires right { messages ≡ are_right system.now kept.now }
    ensures { result ≡ not (breaks_a_rule system.now (lasting_in system.now kept.now)) }
{
    let counts = are_counts_right(kept);
    let room = has_room(system, kept);
    are_all(counts, room, inputs, pads, messages)
}

fn are_all(counts: bool, room: bool, inputs: bool, pads: bool, messages: bool) -> bool
    ensures { result ≡ (counts && room && inputs && pads && messages) }
{
    counts && room && inputs && pads && messages
}

fn are_counts_right(kept: &Kept) -> bool
    ensures { result ≡ (is_next kept.now.next_id && is_small kept.now.steps) }
{
    is_next(kept.next_id) && is_small(kept.steps)
}

fn has_room(system: &System, kept: &Kept) -> bool
    ensures { result ≡ not (over_full system.now (lasting_in system.now kept.now)) }
{
    kept.queues.content() + kept.outputs.content() <= u64::from(system.qbytes())
}

/// Whether the terminal of this name has no conversation, or one with a pad of its code.
pub fn has_pad_at(system: &System, kept: &Kept, name: &Name) -> bool
    ensures { result ≡ option_map_or (is_conversation system.now) (conversation_at name.now kept.now.conversations) true }
{
    match kept.conversations.conversation(name) {
        Some(conversation) => is_conversation(system, conversation),
        None => true,
    }
}

/// Whether a message of this origin to this code, which belongs to a conversation or to none, is known.
pub fn is_known(
    system: &System,
    kept: &Kept,
    origin: &Name,
    code: &Name,
    conversation: bool,
) -> bool
    ensures { result ≡ knows_by system.now kept.now.conversations origin.now code.now conversation }
{
    if !(is_terminal(system, origin) && is_code(system, code)) {
        return false;
    }
    if conversation {
        return is_of_conversation(kept, origin, code);
    }
    takes_plain(system, code)
}

fn is_of_conversation(kept: &Kept, origin: &Name, code: &Name) -> bool
    ensures { result ≡ option_map_or (λ c. bytes_eq c.code code.now) (conversation_at origin.now kept.now.conversations) false }
{
    match kept.conversations.conversation(origin) {
        Some(conversation) => &conversation.code == code,
        None => false,
    }
}

fn takes_plain(system: &System, code: &Name) -> bool
    ensures { result ≡ option_map_or (λ code. code.transaction.scratch_pad == 0) (code_at system.now.codes code.now) true }
{
    match system.code(code) {
        Some(code) => code.transaction.scratch_pad == 0,
        None => true,
    }
}

/// Whether this ends a conversation.
pub fn ends_pad(pad: &PadChange) -> bool
    ensures { result ≡ ends_pad pad.now }
{
    match pad {
        PadChange::Stays => false,
        PadChange::New(_) => false,
        PadChange::Ends => true,
    }
}

/// The same, where there is a name.
pub fn has_pad_of(system: &System, kept: &Kept, name: &Option<Name>) -> bool
    ensures { result ≡ option_map_or (λ name. option_map_or (is_conversation system.now) (conversation_at name kept.now.conversations) true) name.now true }
{
    match name {
        Some(name) => has_pad_at(system, kept, name),
        None => true,
    }
}
