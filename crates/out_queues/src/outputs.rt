//! The replies of all terminals.
ghost use Rattle.std.specs.Prelude.{◌≡◌, ◌+◌, ◌<◌, ◌≤◌, ◌^◌, [], map, OnOk, OnErr, IfErr, IfOk, IsSomeAnd, length, slice_get};
ghost use Rattle.std.specs.List.{AllByRecursion};
ghost use Rattle.std.specs.Option.{option_copied, is_some};
ghost use Rattle.tm_types.specs.Segment.{counted_bytes};
ghost use Rattle.model_messages.specs.Outputs.{fresh_terminal, replies_at, IsTerminal, with_terminal, with_reply, without_last, with_next, reply_at, next_of, AreNumbered, outputs_bytes};
ghost use Rattle.out_queues.specs.Acknowledgement.{replies_ack_answer, left_by_acknowledgement};
ghost use Rattle.out_queues.specs.KeptReplies.{AreUpTo};

use crate::table;
use model_messages::TerminalReplies;
use std::alloc::{AllocFailed, Global};
use std::marker::Model;
use thiserror::Error;
use tm_types::{Memory, Name, Reply, Segments};

/// What an acknowledgement came to.
#[derive(Clone, Copy, Debug, PartialEq, Eq)]
pub enum Acked {
    /// The reply is no longer kept.
    Removed,
    /// A reply of this number was acknowledged before.
    Already,
}

/// The acknowledgement of a reply that isn't the first one.
#[derive(Clone, Copy, Debug, Error)]
#[error("the first reply is {first}")]
pub struct AckAhead {
    /// The lowest number that is kept, or the next one where none is kept.
    pub first: u64,
}

/// The terminals of a system, each with the replies that it hasn't acknowledged.
#[derive(Debug, Drop)]
pub struct Outputs {
    content: u64,
    // No terminal has given a reply a number above this one. It only rises.
    highest: u64,
    terminals: Vec<TerminalReplies>,
}

impl Model for Outputs {
    ghost use Rattle.std.specs.Prelude.{List};
    ghost use Rattle.model_messages.specs.declared.replies.TerminalReplies.{TerminalReplies};
    ghost use Rattle.out_queues.specs.KeptReplies.{AreRepliesKept};

    ghost Value = { List TerminalReplies };

    ghost view = { λ o. o.terminals.items };

    ghost invariant = { λ o. AreRepliesKept o.terminals.items o.content o.highest };
}

impl Outputs {
    /// These terminals without replies. The first reply of each gets the number 1.
    pub fn new(alloc: Global, terminals: &[Name]) -> Result<Outputs, Memory>
        ensures { IfOk result (λ outputs. outputs ≡ map fresh_terminal terminals.now) }
    {
        Ok(Outputs {
            content: 0,
            highest: 0,
            terminals: table::fresh_terminals(alloc, terminals)?,
        })
    }

    /// These terminals with their replies, whose numbers follow one another; `content` are the bytes of all these replies.
    /// This takes no memory.
    pub fn of(terminals: Vec<TerminalReplies>, content: u64) -> Outputs
        requires counted { content ≡ outputs_bytes terminals.items }
        requires small { content < 2 ^ 62 }
        requires numbered { AllByRecursion AreNumbered terminals.items }
        ensures { result ≡ terminals.items }
    {
        let highest = table::highest_next(&terminals);
        Outputs {
            content,
            highest,
            terminals,
        }
    }

    /// The bytes of all replies: 48 for each, and the LLs of its segments.
    pub fn content(&self) -> u64
        ensures value { result ≡ outputs_bytes self.now }
        ensures small { result < 2 ^ 62 }
        ensures numbered { AllByRecursion AreNumbered self.now }
    {
        self.content
    }

    /// A number above which no terminal has given one: it may be higher than any that was given.
    pub fn highest(&self) -> u64
        ensures { AreUpTo result self.now }
    {
        self.highest
    }

    /// The terminals with their replies, in the order of the definition.
    pub fn terminals(&self) -> &[TerminalReplies]
        ensures { result.now ≡ self.now }
    {
        &self.terminals
    }

    /// The terminal of this name with its replies, or None where there is no such terminal.
    pub fn terminal(&self, name: &Name) -> Option<&TerminalReplies>
        ensures { option_copied result ≡ replies_at name.now self.now }
    {
        table::lookup(&self.terminals, name)
    }

    /// Whether there is a terminal of this name.
    pub fn has_terminal(&self, name: &Name) -> bool
        ensures { result ≡ is_some (replies_at name.now self.now) }
    {
        self.terminal(name).is_some()
    }

    /// Adds a reply behind all others of the terminal, and answers its number. Where no memory is
    /// left the segments come back and nothing has changed.
    pub fn add(&mut self, terminal: &Name, segments: Segments) -> Result<u64, AllocFailed<Segments>>
        requires number { IsSomeAnd (replies_at terminal.now self.old) (λ t. t.next < 2 ^ 62) }
        requires fits { outputs_bytes self.old + counted_bytes segments < 2 ^ 62 }
        ensures number { IfOk result (λ number. number ≡ next_of terminal.now self.old) }
        ensures ok { OnOk result (self.new ≡ with_terminal terminal.now (with_reply segments) self.old) }
        ensures back { IfErr result (λ failed. failed.value ≡ segments) }
        ensures err { OnErr result (self.new ≡ self.old) }
    {
        let bytes = segments.counted_bytes();
        match table::add(&mut self.terminals, terminal, segments) {
            Ok(number) => {
                self.content += bytes;
                self.highest = self.highest.max(number);
                Ok(number)
            }
            Err(failed) => Err(failed),
        }
    }

    /// Takes back the reply that was added last; the next one gets its number. This takes no memory.
    pub fn take_back(&mut self, terminal: &Name)
        requires { IsSomeAnd (replies_at terminal.now self.old) (λ t. 1 ≤ length t.replies) }
        ensures { self.new ≡ with_terminal terminal.now without_last self.old }
    {
        let taken = table::remove_last(&mut self.terminals, terminal);
        self.content -= taken;
    }

    /// The first reply of the terminal, which has the lowest number.
    pub fn first(&self, terminal: &Name) -> Option<&Reply>
        requires { IsTerminal terminal.now self.now }
        ensures value { option_copied result ≡ reply_at terminal.now 0 self.now }
        ensures numbered { AllByRecursion AreNumbered self.now }
    {
        table::find(&self.terminals, terminal).replies.items.front()
    }

    /// The reply of the terminal at this place, counted from 0, of those that are kept.
    pub fn reply(&self, terminal: &Name, place: u64) -> Option<&Reply>
        requires { IsTerminal terminal.now self.now }
        ensures { option_copied result ≡ reply_at terminal.now place self.now }
    {
        table::find(&self.terminals, terminal)
            .replies
            .items
            .get(place as usize)
    }

    /// The number that the terminal's next reply gets.
    pub fn next(&self, terminal: &Name) -> u64
        requires { IsTerminal terminal.now self.now }
        ensures { result ≡ next_of terminal.now self.now }
    {
        table::find(&self.terminals, terminal).next
    }

    /// Sets the number that the terminal's next reply gets. This takes no memory.
    pub fn set_next(&mut self, terminal: &Name, number: u64)
        requires none_kept { IsSomeAnd (replies_at terminal.now self.old) (λ t. t.replies ≡ []) }
        requires positive { 1 ≤ number }
        ensures { self.new ≡ with_terminal terminal.now (with_next number) self.old }
    {
        table::set_next(&mut self.terminals, terminal, number);
        self.highest = self.highest.max(number);
    }

    /// The terminal has seen its reply of this number, which is then no longer kept. This takes no
    /// memory.
    ///
    /// A number below the first was acknowledged before; a number above it, or the next one where
    /// none is kept, is refused.
    pub fn acknowledge(&mut self, terminal: &Name, number: u64) -> Result<Acked, AckAhead>
        requires { IsTerminal terminal.now self.old }
        ensures answer { IsSomeAnd (replies_at terminal.now self.old) (λ t. result ≡ replies_ack_answer t number) }
        ensures ok { IfOk result (λ acked. self.new ≡ left_by_acknowledgement acked terminal.now self.old) }
        ensures err { OnErr result (self.new ≡ self.old) }
    {
        match ack_answer(table::find(&self.terminals, terminal), number) {
            Ok(Acked::Removed) => {
                let bytes = table::remove_first(&mut self.terminals, terminal);
                self.content -= bytes;
                Ok(Acked::Removed)
            }
            Ok(Acked::Already) => Ok(Acked::Already),
            Err(ahead) => Err(ahead),
        }
    }
}

fn ack_answer(kept: &TerminalReplies, number: u64) -> Result<Acked, AckAhead>
    ensures { result ≡ replies_ack_answer kept.now number }
{
    let first = table::first_number(kept);
    if number < first {
        return Ok(Acked::Already);
    }
    if number == first && has_replies(kept) {
        return Ok(Acked::Removed);
    }
    Err(AckAhead { first })
}

fn has_replies(kept: &TerminalReplies) -> bool
    ensures { result ≡ is_some (slice_get kept.now.replies 0) }
{
    kept.replies.items.front().is_some()
}
