//! The regions that give way where waiting has closed a ring.
ghost use Rattle.std.specs.Prelude.{◌≡◌, ◌≤◌, length, map, IsSome, MatchOption};
ghost use Rattle.model_data.specs.Cycle.{HasNoCycle};
ghost use Rattle.model_machine.specs.Machine.{IsRegion, busy_slots, slot_at};
ghost use Rattle.model_machine.specs.Requests.{changes_now};
ghost use Rattle.program_rows.specs.SlotsState.{GivesUpSo, HaveSlots};
ghost use Rattle.tm_machine.specs.SlotChanges.{slots_now, VictimsGiveUp};
ghost use Rattle.tm_machine.specs.Victims.{gave_way, BreaksRings, GivesWay};

use crate::parts::Parts;
use deadlock_pick::{Weights, least_cycle, victim};
use model_data::{Victim, Victims};
use program_rows::Databases;
use region_work::{busy_at, code_of, follow, give_up};

impl Parts {
    /// Breaks all rings that go through a region: one region of each gives way, until none is left. They are
    /// told in their order. This takes no memory.
    pub fn break_rings(&mut self, region: u32) -> Victims
        requires { IsRegion self.old.system region }
        ensures breaks { BreaksRings self.old self.new region result }
        ensures slots { VictimsGiveUp self.old result (slots_now self.old) (slots_now self.new) }
    {
        let changes = self.changes();
        let mut victims = Victims::new();
        while let Some(victim) = self.next_victim(&changes, region) {
            self.give_way(victim.region);
            victims.push(victim);
        }
        victims
    }

    /// How many records the work in each region has changed.
    fn changes(&self) -> Weights
        ensures value { result ≡ changes_now self.now.system self.now.moment }
        ensures count { length result ≡ length self.now.system.regions }
        ensures few { busy_slots self.now.moment.slots ≤ 8 }
    {
        changes_in(self.tables.databases(), self.regions.len() as u32)
    }

    /// The region that is to give way next, where a ring goes through this one.
    fn next_victim(&self, changes: &Weights, region: u32) -> Option<Victim>
        requires region { IsRegion self.now.system region }
        requires changes { length changes.now ≡ length self.now.system.regions }
        ensures { MatchOption result (HasNoCycle self.now.moment.enqueues region) (GivesWay self.now changes.now region) }
    {
        let cycle = match least_cycle(self.tables.databases().table(), region) {
            Some(cycle) => cycle,
            None => return None,
        };
        let region = victim(&cycle, changes);
        Some(Victim { region, cycle })
    }

    /// Lets a region give way: what it has changed is taken back, it holds and waits for nothing any more, and
    /// its message waits again, in its place. This takes no memory.
    fn give_way(&mut self, region: u32)
        requires region { IsRegion self.old.system region }
        requires busy { IsSome (slot_at self.old.moment region) }
        ensures moment { self.new.moment ≡ gave_way self.old.system self.old.moment region }
        ensures system { self.new.system ≡ self.old.system }
        ensures slots { GivesUpSo region (slots_now self.old) (slots_now self.new) }
        ensures have { HaveSlots self.new.system.databases (length self.new.system.regions) (slots_now self.new) }
    {
        let id = busy_at(&self.regions, region).id;
        let code = code_of(&self.tables, id);
        give_up(&mut self.regions, region, &mut self.tables, id);
        let waiting = self.tables.queues().waiting(&code);
        follow(&mut self.codes, &self.system, &code, waiting);
    }
}

/// How many records each of these regions has changed.
fn changes_in(databases: &Databases, regions: u32) -> Weights
    requires count { length databases.now.regions ≡ regions }
    requires few { regions ≤ 8 }
    ensures { result ≡ map (λ rows. length rows.changed) databases.now.regions }
{
    let mut changes = Weights::new();
    for place in 0..regions {
        changes.push(databases.changes(place + 1));
    }
    changes
}
