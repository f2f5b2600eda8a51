//! The rules on what lasts.
ghost use Rattle.std.specs.Prelude.{◌≡◌, ◌==◌, ◌&&◌, ◌+◌, ◌<◌, false, nat_lt, not, length, slice_get, drop, bytes_eq};
ghost use Rattle.std.specs.List.{list_all, list_any};
ghost use Rattle.std.specs.Option.{option_map_or, option_copied};
ghost use Rattle.model_messages.specs.ConversationInput.{is_conversing};
ghost use Rattle.model_messages.specs.Terminals.{conversation_at, conversation_terminal, is_conversation_of};
ghost use Rattle.model_image.specs.States.{is_small, is_next, is_setting, is_printable_byte, is_pad_of, is_conversation, has_right_pad, wrong_values, ascend_below, wrong_ids, is_of_conversation, has_no_pad, is_message_known, are_alone, unknown_messages, run_up_to, wrong_replies};

use crate::order::{is_next, is_small};
use crate::rules::{is_code, is_terminal};
use conversation::is_conversing;
use model_machine::{CodeSetting, Lasting, TerminalState};
use model_messages::{Conversation, Replies, TerminalConversation, TerminalReplies, has_code};
use system_types::System;
use tm_types::{Message, Name, are_printable};

/// 12: a number isn't one of a state, a setting is out of its range, or a pad isn't one of its conversation.
pub fn wrong_values(system: &System, lasting: &Lasting) -> bool
    ensures { result ≡ wrong_values system.now lasting.now }
{
    !(is_next(lasting.next_id)
        && is_small(lasting.steps)
        && have_small_inputs(&lasting.terminals)
        && have_next_numbers(&lasting.outputs)
        && are_settings(&lasting.codes)
        && have_right_pads(system, &lasting.conversations))
}

fn have_small_inputs(terminals: &[TerminalState]) -> bool
    ensures { result ≡ list_all (λ terminal. is_small terminal.last) terminals.now }
{
    terminals.iter().all(|terminal| is_small(terminal.last))
}

fn have_next_numbers(outputs: &[TerminalReplies]) -> bool
    ensures { result ≡ list_all (λ terminal. is_next terminal.next) outputs.now }
{
    outputs.iter().all(|terminal| is_next(terminal.next))
}

fn are_settings(codes: &[CodeSetting]) -> bool
    ensures { result ≡ list_all is_setting codes.now }
{
    codes.iter().all(|code| is_setting(code))
}

fn is_setting(code: &CodeSetting) -> bool
    ensures { result ≡ is_setting code.now }
{
    1 <= code.class && code.priority <= 14
}

fn have_right_pads(system: &System, conversations: &[TerminalConversation]) -> bool
    ensures { result ≡ list_all (has_right_pad system.now) conversations.now }
{
    conversations
        .iter()
        .all(|terminal| has_right_pad(system, terminal))
}

fn has_right_pad(system: &System, terminal: &TerminalConversation) -> bool
    ensures { result ≡ has_right_pad system.now terminal.now }
{
    match &terminal.conversation {
        Some(conversation) => is_conversation(system, conversation),
        None => true,
    }
}

/// Whether the conversation is of a code that has them, with a pad of that code.
pub fn is_conversation(system: &System, conversation: &Conversation) -> bool
    ensures { result ≡ is_conversation system.now conversation.now }
{
    match system.code(&conversation.code) {
        Some(code) => is_pad_of(code.transaction.scratch_pad, conversation),
        None => false,
    }
}

fn is_pad_of(size: u16, conversation: &Conversation) -> bool
    ensures { result ≡ is_pad_of size conversation.now }
{
    let bytes = conversation.pad.as_slice();
    size != 0
        && bytes.len() + 6 == size as usize
        && has_code(bytes, &conversation.code)
        && has_printable_work(bytes)
}

#[tactic(auto, using(crate::proofs::Pads::back_is))]
fn has_printable_work(bytes: &[u8]) -> bool
    ensures { result ≡ list_all is_printable_byte (drop 8 bytes.now) }
{
    let work = &bytes[bytes.len().min(8)..];
    are_printable(work)
}

/// 13: the ids don't ascend, or not below the next one.
pub fn wrong_ids(lasting: &Lasting) -> bool
    ensures { result ≡ wrong_ids lasting.now }
{
    !ascend_below(lasting.next_id, &lasting.messages)
}

fn ascend_below(next: u64, messages: &[Message]) -> bool
    ensures { result ≡ ascend_below next messages.now }
{
    for place in 0..messages.len() {
        if messages[place].id >= id_after(next, messages, place) {
            return false;
        }
    }
    true
}

fn id_after(next: u64, messages: &[Message], place: usize) -> u64
    requires { place < length messages.now }
    ensures { result ≡ option_map_or (λ message. message.id) (slice_get messages.now (place + 1)) next }
{
    match messages.get(place + 1) {
        Some(message) => message.id,
        None => next,
    }
}

/// 14: a message comes from no terminal, goes to no code, or isn't of the conversation that it says.
pub fn unknown_messages(system: &System, lasting: &Lasting) -> bool
    ensures { result ≡ unknown_messages system.now lasting.now }
{
    !(are_known(system, lasting) && are_alone(&lasting.messages))
}

fn are_known(system: &System, lasting: &Lasting) -> bool
    ensures { result ≡ list_all (is_message_known system.now lasting.now) lasting.now.messages }
{
    lasting
        .messages
        .iter()
        .all(|message| is_known(system, lasting, message))
}

fn is_known(system: &System, lasting: &Lasting, message: &Message) -> bool
    ensures { result ≡ is_message_known system.now lasting.now message.now }
{
    if !(is_terminal(system, &message.origin) && is_code(system, &message.code)) {
        return false;
    }
    if message.conversation {
        return is_of_conversation(&lasting.conversations, message);
    }
    has_no_pad(system, message)
}

fn is_of_conversation(conversations: &[TerminalConversation], message: &Message) -> bool
    ensures { result ≡ option_map_or (λ c. bytes_eq c.code message.now.code) (conversation_at message.now.origin conversations.now) false }
{
    match conversation_of(conversations, &message.origin) {
        Some(conversation) => conversation.code == message.code,
        None => false,
    }
}

fn conversation_of<'a>(
    conversations: &'a [TerminalConversation],
    name: &Name,
) -> Option<&'a Conversation>
    ensures { option_copied result ≡ conversation_at name.now conversations.now }
{
    match terminal_of(conversations, name) {
        Some(terminal) => match &terminal.conversation {
            Some(conversation) => Some(conversation),
            None => None,
        },
        None => None,
    }
}

fn terminal_of<'a>(
    conversations: &'a [TerminalConversation],
    name: &Name,
) -> Option<&'a TerminalConversation>
    ensures { option_copied result ≡ conversation_terminal name.now conversations.now }
{
    conversations.iter().find(|terminal| is_of(name, terminal))
}

fn is_of(name: &Name, terminal: &TerminalConversation) -> bool
    ensures { result ≡ is_conversation_of name.now terminal.now }
{
    &terminal.terminal == name
}

fn has_no_pad(system: &System, message: &Message) -> bool
    ensures { result ≡ has_no_pad system.now message.now }
{
    match system.code(&message.code) {
        Some(code) => code.transaction.scratch_pad == 0,
        None => true,
    }
}

/// Whether at most one of each conversation waits.
pub fn are_alone(messages: &[Message]) -> bool
    ensures { result ≡ are_alone messages.now }
{
    for place in 0..messages.len() {
        if is_followed(&messages[place], &messages[place + 1..]) {
            return false;
        }
    }
    true
}

fn is_followed(message: &Message, later: &[Message]) -> bool
    ensures { result ≡ (message.now.conversation && list_any (is_conversing message.now.origin) later.now) }
{
    message.conversation && has_conversing(&message.origin, later)
}

fn has_conversing(terminal: &Name, messages: &[Message]) -> bool
    ensures { result ≡ list_any (is_conversing terminal.now) messages.now }
{
    messages
        .iter()
        .any(|message| is_conversing(terminal, message))
}

/// 15: a terminal's replies don't follow one another up to its next number.
pub fn wrong_replies(lasting: &Lasting) -> bool
    ensures { result ≡ wrong_replies lasting.now }
{
    !are_all_run(&lasting.outputs)
}

fn are_all_run(outputs: &[TerminalReplies]) -> bool
    ensures { result ≡ list_all (λ terminal. run_up_to terminal.next terminal.replies) outputs.now }
{
    outputs.iter().all(|terminal| are_run(terminal))
}

fn are_run(terminal: &TerminalReplies) -> bool
    ensures { result ≡ run_up_to terminal.now.next terminal.now.replies }
{
    run_up_to(terminal.next, &terminal.replies)
}

fn run_up_to(next: u64, replies: &Replies) -> bool
    ensures { result ≡ run_up_to next replies.now }
{
    let count = replies.items.len();
    for place in 0..count {
        let Some(reply) = replies.items.get(place) else {
            unreachable!()
        };
        if !is_before_by(next, (count - place) as u64, reply.number) {
            return false;
        }
    }
    true
}

fn is_before_by(next: u64, left: u64, number: u64) -> bool
    ensures { result ≡ (not (number == 0) && (number + left == next)) }
{
    number != 0 && next >= left && number == next - left
}
