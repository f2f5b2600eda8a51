//! The ids of messages.
ghost use Rattle.std.specs.Prelude.{◌≡◌, ◌+◌, [], OnOk, OnErr, MatchOption};
ghost use Rattle.std.specs.Map.{keys_of};
ghost use Rattle.std.specs.List.Sorted.{IsStrictlySortedBy};
ghost use Rattle.std.specs.Ordering.{nat_cmp};
ghost use Rattle.msg_queues.specs.Places.{IsIdBehind, with_id, with_flag, without_id, id_weight, first_open, unheld_count, any_held_id};

use std::alloc::Global;
use std::collections::BTreeMap;
use std::marker::Model;
use tm_types::Memory;

/// Ids of messages in order, each with whether it is held.
#[derive(Debug, Drop)]
pub struct IdQueue {
    free: usize,
    ids: BTreeMap<u64, bool>,
}

impl Model for IdQueue {
    ghost use Rattle.std.specs.Prelude.{ℕ, List, Bool};
    ghost use Rattle.msg_queues.specs.Places.{AreIdsCounted};

    ghost Value = { List (ℕ × Bool) };

    ghost view = { λ q. q.ids.entries };

    ghost invariant = { λ q. AreIdsCounted q.ids.entries q.free };
}

impl IdQueue {
    /// No ids. This takes no memory.
    pub fn new(alloc: Global) -> IdQueue
        ensures { result ≡ [] }
    {
        IdQueue {
            free: 0,
            ids: BTreeMap::new(alloc),
        }
    }

    /// Adds an id, which isn't held, behind all others.
    pub fn push(&mut self, id: u64) -> Result<(), Memory>
        requires { IsIdBehind id self.old }
        ensures ok { OnOk result (self.new ≡ with_id id self.old) }
        ensures err { OnErr result (self.new ≡ self.old) }
    {
        let _count = self.ids.len();
        add_flag(&mut self.ids, id)?;
        self.free += 1;
        Ok(())
    }

    /// Notes whether this id is held.
    pub fn set_held(&mut self, id: u64, held: bool)
        ensures { self.new ≡ with_flag id held self.old }
    {
        let _count = self.ids.len();
        let Some(was_held) = set_flag(&mut self.ids, id, held) else {
            return;
        };
        self.free = self.free + weight(held) - weight(was_held);
    }

    /// Removes an id.
    pub fn remove(&mut self, id: u64)
        ensures { self.new ≡ without_id id self.old }
    {
        let Some(was_held) = take_flag(&mut self.ids, id) else {
            return;
        };
        self.free -= weight(was_held);
    }

    /// The first id that isn't held. At most as many are looked at before it as are held.
    pub fn first_free(&self) -> Option<u64>
        ensures { result ≡ first_open self.now }
    {
        for (id, held) in &self.ids {
            if !*held {
                return Some(*id);
            }
        }
        None
    }

    /// How many ids aren't held.
    pub fn free(&self) -> usize
        ensures { result ≡ unheld_count self.now }
    {
        self.free
    }

    /// Whether an id is held.
    pub fn has_held(&self) -> bool
        ensures { result ≡ any_held_id self.now }
    {
        self.free < self.ids.len()
    }
}

fn weight(held: bool) -> usize
    ensures { result ≡ id_weight held }
{
    if held { 0 } else { 1 }
}

// Adds an id, which isn't held, behind all others.
fn add_flag(ids: &mut BTreeMap<u64, bool>, id: u64) -> Result<(), Memory>
    requires { IsIdBehind id ids.old.entries }
    ensures ok { OnOk result (ids.new.entries ≡ with_id id ids.old.entries) }
    ensures count { OnOk result (unheld_count ids.new.entries ≡ unheld_count ids.old.entries + 1) }
    ensures err { OnErr result (ids.new.entries ≡ ids.old.entries) }
    ensures ordered { IsStrictlySortedBy nat_cmp (keys_of ids.new.entries) }
{
    match ids.insert(id, false) {
        Ok(_) => Ok(()),
        Err(_) => Err(Memory),
    }
}

// Notes whether this id is held, and answers whether it was before.
fn set_flag(ids: &mut BTreeMap<u64, bool>, id: u64, held: bool) -> Option<bool>
    ensures value { ids.new.entries ≡ with_flag id held ids.old.entries }
    ensures count { MatchOption result (unheld_count ids.new.entries ≡ unheld_count ids.old.entries) (λ was. unheld_count ids.new.entries + id_weight was ≡ unheld_count ids.old.entries + id_weight held) }
    ensures ordered { IsStrictlySortedBy nat_cmp (keys_of ids.new.entries) }
{
    let _count = ids.len();
    match ids.get_mut(&id) {
        Some(flag) => {
            let was_held = *flag;
            *flag = held;
            Some(was_held)
        }
        None => None,
    }
}

// Removes an id, and answers whether it was held.
fn take_flag(ids: &mut BTreeMap<u64, bool>, id: u64) -> Option<bool>
    ensures value { ids.new.entries ≡ without_id id ids.old.entries }
    ensures count { MatchOption result (unheld_count ids.new.entries ≡ unheld_count ids.old.entries) (λ was. unheld_count ids.new.entries + id_weight was ≡ unheld_count ids.old.entries) }
    ensures ordered { IsStrictlySortedBy nat_cmp (keys_of ids.new.entries) }
{
    let _count = ids.len();
    ids.remove(&id)
}
