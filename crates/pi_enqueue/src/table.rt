//! The enqueue table.
ghost use Rattle.std.specs.Prelude.{◌≡◌, ◌<◌, ◌^◌, IfOk, OnOk, OnErr};
ghost use Rattle.std.specs.List.{AllByRecursion};
ghost use Rattle.std.specs.Option.{option_map};
ghost use Rattle.model_data.specs.Table.{empty_table, blocked_by, lowest_holder, wait_of, waits_by, waits_for};
ghost use Rattle.model_data.specs.EnqueueRequests.{answer_to, after_ask, after_asks, first_blocked, released, waits_for_nothing};
ghost use Rattle.model_data.specs.Cycle.{IsTableRegion};
ghost use Rattle.pi_enqueue.specs.KeptTable.{IsTableKept, WaitsForNothingElse};
ghost use Rattle.pi_enqueue.specs.Grants.{blocked_told};

use crate::holds::lowest;
use crate::lists::{Lists, told};
use model_data::{Asked, Request};
use std::alloc::Global;
use std::marker::Model;
use tm_types::{Memory, Mode, Resource};

/// A request that is blocked.
#[derive(Clone, Copy, Debug)]
pub struct Blocked {
    pub resource: Resource,
    /// The lowest region that holds the resource in a mode that doesn't go together with the request, or
    /// else the earliest waiter before it.
    pub by: u32,
}

/// Which regions hold which resources, and which wait for one.
///
/// Regions are numbered from 1. A region waits for one resource at most. Holders of one resource go
/// together: whoever holds it alone has no other beside it.
#[derive(Debug, Drop)]
pub struct Table {
    lists: Lists,
}

impl Model for Table {
    ghost use Rattle.model_data.specs.Table.{EnqueueTable};
    ghost use Rattle.pi_enqueue.specs.Lists.{table_of_lists, AreListsKept};

    ghost Value = { EnqueueTable };

    ghost view = { λ t. table_of_lists t.lists };

    ghost invariant = { λ t. AreListsKept t.lists };
}

impl Table {
    /// A table of so many regions, in which nobody holds anything or waits.
    pub fn new(alloc: Global, regions: u32) -> Result<Table, Memory>
        ensures { IfOk result (λ table. table ≡ empty_table regions) }
    {
        Ok(Table {
            lists: Lists::new(alloc, regions)?,
        })
    }

    /// How many regions there are.
    pub fn regions(&self) -> u32
        ensures value { result ≡ self.now.regions }
        ensures small { self.now.regions < 2 ^ 32 }
        ensures kept { IsTableKept self.now }
    {
        self.lists.regions
    }

    /// The region asks for a resource in a mode.
    ///
    /// What it holds in the same or a stronger mode is granted. Any other request waits where another
    /// region holds the resource in a mode that doesn't go together with it, or an earlier waiter for it
    /// stands; else it is granted, and the region waits no longer. A new waiter stands behind all
    /// others, but one that holds the resource in a weaker mode stands before all that don't hold it.
    /// A waiter that is still blocked keeps its place. `Waits` tells the lowest such holder, or else the
    /// earliest such waiter. At `Memory` nothing has changed.
    pub fn ask(&mut self, region: u32, resource: Resource, mode: Mode) -> Result<Asked, Memory>
        requires region { IsTableRegion self.old region }
        requires waits { WaitsForNothingElse (record { region = region; resource = resource; mode = mode }) self.old }
        ensures answer { IfOk result (λ asked. asked ≡ answer_to (blocked_by (record { region = region; resource = resource; mode = mode }) self.old)) }
        ensures ok { OnOk result (self.new ≡ after_ask (record { region = region; resource = resource; mode = mode }) self.old) }
        ensures err { OnErr result (self.new ≡ self.old) }
    {
        let _regions = self.regions();
        let request = Request {
            region,
            resource,
            mode,
        };
        match self.ask_all(region, &[request])? {
            Some(blocked) => Ok(Asked::Waits(blocked.by)),
            None => Ok(Asked::Granted),
        }
    }

    /// The region asks for all that a call needs, in this order, up to the first request that is
    /// blocked, and answers that request with the region that blocks it.
    ///
    /// What is asked before it is granted and kept. For the blocked one alone the region then waits,
    /// and where none is blocked, for nothing. At `Memory` nothing has changed.
    pub fn ask_all(&mut self, region: u32, requests: &[Request]) -> Result<Option<Blocked>, Memory>
        requires region { IsTableRegion self.old region }
        requires own { AllByRecursion (λ request. request.region ≡ region) requests.now }
        ensures answer { IfOk result (λ blocked. blocked ≡ option_map blocked_told (first_blocked requests.now self.old)) }
        ensures ok { OnOk result (self.new ≡ after_asks region requests.now self.old) }
        ensures err { OnErr result (self.new ≡ self.old) }
        ensures kept { IsTableKept self.new }
    {
        self.lists.ask_all(region, requests)
    }

    /// The first of these requests of the region that is blocked, where each before it is granted. Nothing
    /// changes.
    pub fn first_blocked(&self, region: u32, requests: &[Request]) -> Option<Blocked>
        requires region { IsTableRegion self.now region }
        requires own { AllByRecursion (λ request. request.region ≡ region) requests.now }
        ensures { result ≡ option_map blocked_told (first_blocked requests.now self.now) }
    {
        match self.lists.stop_of(region, requests) {
            Some(stop) => Some(told(&requests[stop.place], stop.by)),
            None => None,
        }
    }

    /// The region waits for nothing any longer. This takes no memory.
    pub fn stop_waiting(&mut self, region: u32)
        ensures { self.new ≡ waits_for_nothing region self.old }
    {
        self.lists.stop_waiting(region);
    }

    /// The region holds nothing any longer and waits for nothing. This takes no memory.
    pub fn release_all(&mut self, region: u32)
        requires { IsTableRegion self.old region }
        ensures { self.new ≡ released region self.old }
    {
        self.lists.release_all(region);
    }

    /// The lowest region that holds the resource; None where none does.
    pub fn holder(&self, resource: &Resource) -> Option<u32>
        ensures { result ≡ lowest_holder resource.now self.now }
    {
        lowest(&self.lists.holds, self.lists.regions, resource)
    }

    /// The resource for which the region waits; None where it waits for none.
    pub fn waits(&self, region: u32) -> Option<Resource>
        ensures { result ≡ option_map (λ request. request.resource) (wait_of region self.now) }
    {
        match self.lists.wait_of(region) {
            Some(request) => Some(request.resource),
            None => None,
        }
    }

    /// The region that blocks what this one waits for: the lowest holder that it can't go together
    /// with, or else the earliest waiter before it. None exactly where it waits for nothing, or nothing
    /// blocks it.
    pub fn by(&self, region: u32) -> Option<u32>
        ensures { result ≡ waits_by region self.now }
    {
        match self.lists.wait_of(region) {
            Some(request) => self.lists.blocked_by(request),
            None => None,
        }
    }

    /// Whether the first region waits for the second: whether that is one of the holders that its
    /// request can't go together with, or of the waiters before it.
    pub fn waits_for(&self, a: u32, b: u32) -> bool
        ensures { result ≡ waits_for a b self.now }
    {
        match self.lists.wait_of(a) {
            Some(request) => self.lists.is_blocker(request, b),
            None => false,
        }
    }
}
