//! The lists of what each region holds.
ghost use Rattle.std.specs.Prelude.{◌≡◌, ◌↔◌, ◌≤◌, ◌<◌, ◌+◌, take, drop, ◌∷◌, [], ◌++◌, true, IsTrue, length, OnOk, OnErr, IfOk, IfSome, IfNone, replicate};
ghost use Rattle.pi_enqueue.specs.Lists.{AreEmpty, is_listed, StayListed};

use model_data::Holder;
use std::alloc::Global;
use std::marker::Model;
use tm_types::{Memory, Resource};

/// What one region holds, in the order in which it came to hold it.
#[derive(Debug, Drop)]
pub struct Held {
    resources: Vec<Resource>,
}

impl Model for Held {
    ghost use Rattle.std.specs.Prelude.{List};
    ghost use Rattle.tm_types.specs.declared.resource.Resource.{Resource};

    ghost Value = { List Resource };

    ghost view = { λ h. h.resources.items };
}

impl Held {
    /// Nothing. This takes no memory.
    pub fn new(alloc: Global) -> Held
        ensures { result ≡ [] }
    {
        Held {
            resources: Vec::new(alloc),
        }
    }

    /// Adds a resource at the end.
    pub fn push(&mut self, resource: Resource) -> Result<(), Memory>
        ensures ok { OnOk result (self.new ≡ self.old ++ resource ∷ []) }
        ensures err { OnErr result (self.new ≡ self.old) }
    {
        let Resource { db, root } = resource;
        self.resources.reserve(1)?;
        self.resources.push_reserved(Resource { db, root });
        Ok(())
    }

    /// Takes the last resource out.
    pub fn pop(&mut self) -> Option<Resource>
        ensures last { IfSome result (λ resource. self.old ≡ self.new ++ resource ∷ []) }
        ensures none { IfNone result (self.old ≡ []) }
        ensures empty { IfNone result (self.new ≡ []) }
    {
        self.resources.pop()
    }

    /// Whether there is none.
    pub fn is_empty(&self) -> bool
        ensures { IsTrue result ↔ (self.now ≡ []) }
    {
        self.resources.is_empty()
    }

    /// How many resources these are.
    pub fn len(&self) -> usize
        ensures { result ≡ length self.now }
    {
        self.resources.len()
    }

    /// Takes all out. This takes no memory.
    pub fn clear(&mut self)
        ensures { self.new ≡ [] }
    {
        self.resources.clear();
    }
}

/// A list for each region, with nothing on it.
pub fn empty_lists(alloc: Global, regions: u32) -> Result<Vec<Held>, Memory>
    ensures { IfOk result (λ lists. lists.items ≡ replicate regions []) }
{
    let mut lists = Vec::new(alloc);
    for _ in 0..regions {
        lists.push(Held::new(alloc))?;
    }
    Ok(lists)
}

/// Puts what a region holds on its list.
pub fn list(lists: &mut Vec<Held>, holder: &Holder) -> Result<(), Memory>
    requires first { 1 ≤ holder.now.region }
    requires last { holder.now.region ≤ length lists.old.items }
    ensures listed { OnOk result (is_listed lists.new.items holder.now ≡ true) }
    ensures stay { StayListed lists.old.items lists.new.items }
    ensures all { length lists.new.items ≡ length lists.old.items }
{
    let place = (holder.region - 1) as usize;
    lists[place].push(holder.resource)
}

/// Whether all lists but the one at this place are empty.
pub fn are_others_empty(lists: &[Held], own: usize) -> bool
    requires { own < length lists.now }
    ensures { IsTrue result ↔ (AreEmpty (take own lists.now) × AreEmpty (drop (own + 1) lists.now)) }
{
    if !are_empty(&lists[..own]) {
        return false;
    }
    are_empty(&lists[own + 1..])
}

fn are_empty(lists: &[Held]) -> bool
    ensures { IsTrue result ↔ AreEmpty lists.now }
{
    for list in lists {
        if !list.is_empty() {
            return false;
        }
    }
    true
}
