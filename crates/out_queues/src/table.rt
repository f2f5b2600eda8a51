//! The terminals of a system by their names.
ghost use Rattle.std.specs.Prelude.{◌≡◌, ◌+◌, ◌<◌, ◌≤◌, ◌^◌, Some, map, position, slice_get, IsSomeAnd, OnOk, OnErr, IfOk, IfErr};
ghost use Rattle.tm_types.specs.Segment.{counted_bytes};
ghost use Rattle.std.specs.List.{AllByRecursion};
ghost use Rattle.std.specs.Option.{option_copied};
ghost use Rattle.model_messages.specs.Room.{replies_bytes};
ghost use Rattle.model_messages.specs.Outputs.{fresh_terminal, are_replies_of, replies_at, IsTerminal, with_terminal, with_reply, without_first, without_last, with_next, next_of, first_number, outputs_bytes};

use model_messages::{Replies, TerminalReplies};
use std::alloc::{AllocFailed, Global};
use std::collections::VecDeque;
use tm_types::{Memory, Name, Reply, Segments};

/// These terminals without replies.
pub fn fresh_terminals(alloc: Global, terminals: &[Name]) -> Result<Vec<TerminalReplies>, Memory>
    ensures { IfOk result (λ made. made.items ≡ map fresh_terminal terminals.now) }
{
    terminals
        .iter()
        .map(|name| fresh_terminal(alloc, name))
        .collect(alloc)
}

fn fresh_terminal(alloc: Global, name: &Name) -> TerminalReplies
    ensures { result ≡ fresh_terminal name.now }
{
    TerminalReplies {
        terminal: *name,
        next: 1,
        replies: Replies {
            items: VecDeque::new(alloc),
        },
    }
}

fn is_of(name: &Name, kept: &TerminalReplies) -> bool
    ensures { result ≡ are_replies_of name.now kept.now }
{
    &kept.terminal == name
}

/// The place of the terminal of this name.
fn place_of(terminals: &[TerminalReplies], name: &Name) -> usize
    requires { IsTerminal name.now terminals.now }
    ensures place { position (are_replies_of name.now) terminals.now ≡ Some result }
    ensures found { replies_at name.now terminals.now ≡ slice_get terminals.now result }
{
    match position(terminals, name) {
        Some(place) => place,
        None => unreachable!(),
    }
}

fn position(terminals: &[TerminalReplies], name: &Name) -> Option<usize>
    ensures { result ≡ position (are_replies_of name.now) terminals.now }
{
    terminals.iter().position(|kept| is_of(name, kept))
}

/// The terminal of this name, if there is one.
pub fn lookup<'a>(terminals: &'a [TerminalReplies], name: &Name) -> Option<&'a TerminalReplies>
    ensures { option_copied result ≡ replies_at name.now terminals.now }
{
    terminals.iter().find(|kept| is_of(name, kept))
}

/// The terminal of this name, which is there.
pub fn find<'a>(terminals: &'a [TerminalReplies], name: &Name) -> &'a TerminalReplies
    requires { IsTerminal name.now terminals.now }
    ensures { replies_at name.now terminals.now ≡ Some result.now }
{
    &terminals[place_of(terminals, name)]
}

/// The lowest number that is kept, or the next one where none is kept.
pub fn first_number(kept: &TerminalReplies) -> u64
    ensures { result ≡ first_number kept.now }
{
    match kept.replies.items.front() {
        Some(reply) => reply.number,
        None => kept.next,
    }
}

/// Adds a reply to the terminal of this name, and answers its number.
pub fn add(
    terminals: &mut [TerminalReplies],
    name: &Name,
    segments: Segments,
) -> Result<u64, AllocFailed<Segments>>
    requires { IsSomeAnd (replies_at name.now terminals.old) (λ t. t.next < 2 ^ 62) }
    ensures number { IfOk result (λ number. number ≡ next_of name.now terminals.old) }
    ensures ok { OnOk result (terminals.new ≡ with_terminal name.now (with_reply segments) terminals.old) }
    ensures back { IfErr result (λ failed. failed.value ≡ segments) }
    ensures err { OnErr result (terminals.new ≡ terminals.old) }
{
    let place = place_of(terminals, name);
    push_reply(&mut terminals[place], segments)
}

fn push_reply(kept: &mut TerminalReplies, segments: Segments) -> Result<u64, AllocFailed<Segments>>
    requires { kept.old.next < 2 ^ 62 }
    ensures number { IfOk result (λ number. number ≡ kept.old.next) }
    ensures ok { OnOk result (kept.new ≡ with_reply segments kept.old) }
    ensures back { IfErr result (λ failed. failed.value ≡ segments) }
    ensures err { OnErr result (kept.new ≡ kept.old) }
{
    let number = kept.next;
    match kept.replies.items.push_back(Reply { number, segments }) {
        Ok(()) => {
            kept.next = number + 1;
            Ok(number)
        }
        Err(failed) => Err(AllocFailed {
            value: failed.value.segments,
        }),
    }
}

/// A number that no terminal's next reply passes.
#[tactic(auto, using(crate::proofs::Counted::next_more))]
pub fn highest_next(terminals: &[TerminalReplies]) -> u64
    ensures { AllByRecursion (λ t. t.next ≤ result) terminals.now }
{
    let mut highest = 0;
    for kept in terminals {
        highest = kept.next.max(highest);
    }
    highest
}

/// Sets the number that the next reply of the terminal of this name gets.
pub fn set_next(terminals: &mut [TerminalReplies], name: &Name, number: u64)
    requires { IsTerminal name.now terminals.old }
    ensures { terminals.new ≡ with_terminal name.now (with_next number) terminals.old }
{
    let place = place_of(terminals, name);
    note_next(&mut terminals[place], number);
}

fn note_next(kept: &mut TerminalReplies, number: u64)
    ensures { kept.new ≡ with_next number kept.old }
{
    kept.next = number;
}

/// Removes the first reply of the terminal of this name, and answers how many bytes it counted.
pub fn remove_first(terminals: &mut [TerminalReplies], name: &Name) -> u64
    requires terminal { IsTerminal name.now terminals.old }
    requires fits { outputs_bytes terminals.old < 2 ^ 62 }
    ensures value { terminals.new ≡ with_terminal name.now without_first terminals.old }
    ensures bytes { outputs_bytes terminals.new + result ≡ outputs_bytes terminals.old }
{
    let place = place_of(terminals, name);
    drop_first(&mut terminals[place])
}

fn drop_first(kept: &mut TerminalReplies) -> u64
    requires { replies_bytes kept.old.replies < 2 ^ 62 }
    ensures value { kept.new ≡ without_first kept.old }
    ensures bytes { replies_bytes kept.new.replies + result ≡ replies_bytes kept.old.replies }
{
    match kept.replies.items.pop_front() {
        Some(reply) => reply.segments.counted_bytes(),
        None => 0,
    }
}

/// Removes the last reply of the terminal of this name, whose number the next reply gets, and answers
/// how many bytes it counted.
pub fn remove_last(terminals: &mut [TerminalReplies], name: &Name) -> u64
    requires next { IsSomeAnd (replies_at name.now terminals.old) (λ t. 1 ≤ t.next) }
    requires fits { outputs_bytes terminals.old < 2 ^ 62 }
    ensures value { terminals.new ≡ with_terminal name.now without_last terminals.old }
    ensures bytes { outputs_bytes terminals.new + result ≡ outputs_bytes terminals.old }
{
    let place = place_of(terminals, name);
    drop_last(&mut terminals[place])
}

fn drop_last(kept: &mut TerminalReplies) -> u64
    requires next { 1 ≤ kept.old.next }
    requires fits { replies_bytes kept.old.replies < 2 ^ 62 }
    ensures value { kept.new ≡ without_last kept.old }
    ensures bytes { replies_bytes kept.new.replies + result ≡ replies_bytes kept.old.replies }
{
    kept.next -= 1;
    match kept.replies.items.pop_back() {
        Some(reply) => reply.segments.counted_bytes(),
        None => 0,
    }
}
