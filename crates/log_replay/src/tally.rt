//! The messages of conversations, counted by terminal.
ghost use Rattle.std.specs.Prelude.{◌≡◌, ℕ, List, ◌≤◌, ◌+◌, ◌-◌, ◌==◌, ◌&&◌, not, false, IfOk, IfSome, OnOk};
ghost use Rattle.std.specs.Option.{option_map_or};
ghost use Rattle.std.specs.Str.{bytes_eq};
ghost use Rattle.model_messages.specs.Queue.{messages_of};
ghost use Rattle.log_replay.specs.ConversationTally.{one_message_if, count_at, Counts, SetsCount, AddsMessage, Removes, is_right};

use msg_queues::Queues;
use std::alloc::Global;
use std::collections::BTreeMap;
use std::marker::Model;
use tm_types::{Memory, Name};

/// How many messages of each terminal's conversation there are, and how often the rule on messages is broken. So what a record
/// leaves is judged by the messages that come and go with it, and no other is looked at.
#[derive(Debug, Drop)]
pub struct Tally {
    counts: BTreeMap<Name, u64>,
    faults: u64,
}

impl Model for Tally {
    ghost use Rattle.log_replay.specs.ConversationTally.{TallyState};

    ghost Value = { TallyState };

    ghost view = { λ t. record { counts = t.counts.entries; faults = t.faults } };
}

impl Tally {
    /// The messages of these queues, which break no rule.
    pub fn of(alloc: Global, queues: &Queues) -> Result<Tally, Memory>
        ensures counts { IfOk result (λ tally. Counts (messages_of queues.now.queued) tally.counts) }
        ensures faults { IfOk result (λ tally. tally.faults ≡ 0) }
    {
        let counts = counts_of(alloc, queues)?;
        Ok(Tally { counts, faults: 0 })
    }

    /// A message of this origin comes behind all others.
    pub fn add(&mut self, origin: &Name, conversation: bool, known: bool) -> Result<(), Memory>
        ensures { OnOk result (AddsMessage origin.now conversation known self.old self.new) }
    {
        let waiting = count_of(&self.counts, origin);
        let Some(faults) = more_faults(self.faults, known, conversation && waiting != 0) else {
            return Err(Memory);
        };
        count_more(&mut self.counts, origin, conversation)?;
        self.faults = faults;
        Ok(())
    }

    /// A message of this origin goes.
    pub fn remove(&mut self, origin: &Name, conversation: bool, known: bool) -> Result<(), Memory>
        ensures { OnOk result (Removes origin.now conversation known self.old self.new) }
    {
        count_less(&mut self.counts, origin, conversation)?;
        let left = count_of(&self.counts, origin);
        self.faults = less_faults(self.faults, known, conversation && left != 0);
        Ok(())
    }

    /// Whether no fault is there, and where the conversation of this terminal ends, no message of it.
    pub fn is_right(&self, ends: bool, origin: &Option<Name>) -> bool
        ensures { result ≡ is_right ends origin.now self.now }
    {
        self.faults == 0 && !(ends && some_talk(&self.counts, origin))
    }
}

fn some_talk(counts: &BTreeMap<Name, u64>, origin: &Option<Name>) -> bool
    ensures { result ≡ option_map_or (λ name. not (count_at name counts.now.entries == 0)) origin.now false }
{
    match origin {
        Some(name) => count_of(counts, name) != 0,
        None => false,
    }
}

fn count_of(counts: &BTreeMap<Name, u64>, name: &Name) -> u64
    ensures { result ≡ count_at name.now counts.now.entries }
{
    match counts.get(name) {
        Some(count) => *count,
        None => 0,
    }
}

fn set_count(counts: &mut BTreeMap<Name, u64>, name: &Name, count: u64) -> Result<(), Memory>
    ensures { OnOk result (SetsCount name.now count counts.old.entries counts.new.entries) }
{
    match counts.insert(*name, count) {
        Ok(_) => Ok(()),
        Err(_) => Err(Memory),
    }
}

/// A message of this origin more, if it belongs to a conversation.
fn count_more(
    counts: &mut BTreeMap<Name, u64>,
    origin: &Name,
    conversation: bool,
) -> Result<(), Memory>
    ensures { OnOk result ((name : List ℕ) → count_at name counts.new.entries ≡ count_at name counts.old.entries + one_message_if (bytes_eq origin.now name && conversation)) }
{
    if !conversation {
        return Ok(());
    }
    let Some(count) = count_of(counts, origin).checked_add(1) else {
        return Err(Memory);
    };
    set_count(counts, origin, count)
}

fn count_less(
    counts: &mut BTreeMap<Name, u64>,
    origin: &Name,
    conversation: bool,
) -> Result<(), Memory>
    ensures { OnOk result ((name : List ℕ) → count_at name counts.new.entries ≡ count_at name counts.old.entries - one_message_if (bytes_eq origin.now name && conversation)) }
{
    if !conversation {
        return Ok(());
    }
    let count = count_of(counts, origin).saturating_sub(1);
    set_count(counts, origin, count)
}

fn more_faults(faults: u64, known: bool, again: bool) -> Option<u64>
    ensures { IfSome result (λ more. more ≡ faults + (one_message_if (not known) + one_message_if again)) }
{
    faults.checked_add(one_if(!known) + one_if(again))
}

fn less_faults(faults: u64, known: bool, again: bool) -> u64
    ensures { result ≡ faults - (one_message_if (not known) + one_message_if again) }
{
    faults.saturating_sub(one_if(!known) + one_if(again))
}

fn one_if(condition: bool) -> u64
    ensures value { result ≡ one_message_if condition }
    ensures small { result ≤ 1 }
{
    if condition { 1 } else { 0 }
}

/// How many messages of each terminal's conversation there are.
fn counts_of(alloc: Global, queues: &Queues) -> Result<BTreeMap<Name, u64>, Memory>
    ensures { IfOk result (λ counts. Counts (messages_of queues.now.queued) counts.entries) }
{
    let mut counts = BTreeMap::new(alloc);
    for queued in queues.by_id().values() {
        let message = &queued.message;
        count_more(&mut counts, &message.origin, message.conversation)?;
    }
    Ok(counts)
}
