//! The lists of an enqueue table.
ghost use Rattle.std.specs.Prelude.{◌≡◌, ◌==◌, ◌≤◌, ◌++◌, [], true, false, None, Some, length, take, slice_get, is_some, IfOk, OnOk, OnErr, IfSome, IfNone, if◌then◌else◌};
ghost use Rattle.std.specs.List.{AllByRecursion, list_any};
ghost use Rattle.std.specs.Option.{option_and_then, option_copied, option_map};
ghost use Rattle.std.specs.Map.{keys_of};
ghost use Rattle.model_data.specs.Table.{empty_table, ahead, blockers, blocked_by, wait_of, is_request_served};
ghost use Rattle.model_data.specs.EnqueueRequests.{with_waiter, waits_only_for, waits_for_nothing, released, after_asks, first_blocked};
ghost use Rattle.model_data.specs.declared.request.Request.{Request};
ghost use Rattle.model_data.specs.Cycle.{IsTableRegion};
ghost use Rattle.pi_enqueue.specs.Lists.{table_of_lists, IsUpTo, AreListsKept, AreListed, HasRoomInQueues};
ghost use Rattle.pi_enqueue.specs.Grants.{AreRequestsFree, AreRequestsServed, granted_all, blocked_told};

use crate::held::{Held, are_others_empty, empty_lists};
use crate::holds::{first_against, hold_all, is_against, is_served, mode_held, release};
use crate::queue::{self, end_each, end_others, end_waits, first_ahead, is_ahead, place};
use crate::table::Blocked;
use model_data::{Holder, Request};
use std::alloc::Global;
use std::collections::BTreeMap;
use tm_types::{Memory, Mode};

/// The lists of an enqueue table: its holders with their modes, its waiters, and the resources of each
/// region.
#[derive(Debug, Drop)]
pub struct Lists {
    pub alloc: Global,
    pub regions: u32,
    pub holds: BTreeMap<Holder, Mode>,
    pub upgrades: Vec<Request>,
    pub waits: Vec<Request>,
    pub held: Vec<Held>,
}

/// Where a row of requests stops: the place of the first one that is blocked, and the region that
/// blocks it.
#[derive(Clone, Copy, Debug)]
pub struct Stop {
    pub place: usize,
    pub by: u32,
}

/// How a row of requests of one region goes on: where it stops, if anywhere, and whether the region is seen to
/// hold all of it already.
#[derive(Clone, Copy, Debug)]
pub struct Course {
    pub stop: Option<Stop>,
    pub held: bool,
}

/// Which region blocks a request, if any, and whether its own region holds what it asks for already.
#[derive(Clone, Copy, Debug)]
pub struct Standing {
    pub by: Option<u32>,
    pub held: bool,
}

/// A blocked request as it is told.
pub fn told(request: &Request, by: u32) -> Blocked
    ensures { result ≡ blocked_told (request.now, by) }
{
    Blocked {
        resource: request.resource,
        by,
    }
}

impl Lists {
    /// Nobody holds anything or waits.
    pub fn new(alloc: Global, regions: u32) -> Result<Lists, Memory>
        ensures value { IfOk result (λ lists. table_of_lists lists ≡ empty_table regions) }
        ensures all { IfOk result (λ lists. length lists.held.items ≡ regions) }
    {
        Ok(Lists {
            alloc,
            regions,
            holds: BTreeMap::new(alloc),
            upgrades: Vec::new(alloc),
            waits: Vec::new(alloc),
            held: empty_lists(alloc, regions)?,
        })
    }

    /// The region that blocks a request.
    pub fn blocked_by(&self, request: &Request) -> Option<u32>
        requires { AllByRecursion (IsUpTo self.now.regions) (keys_of self.now.holds.entries) }
        ensures { result ≡ blocked_by request.now (table_of_lists self.now) }
    {
        self.standing(request).by
    }

    // How a request stands, by one look at what its region holds.
    fn standing(&self, request: &Request) -> Standing
        requires { AllByRecursion (IsUpTo self.now.regions) (keys_of self.now.holds.entries) }
        ensures by { result.by ≡ blocked_by request.now (table_of_lists self.now) }
        ensures held { result.held ≡ is_request_served request.now self.now.holds.entries }
    {
        let held = mode_held(&self.holds, request);
        if is_served(held, request.mode) {
            return Standing {
                by: None,
                held: true,
            };
        }
        match first_against(&self.holds, self.regions, request) {
            Some(region) => Standing {
                by: Some(region),
                held: false,
            },
            None => Standing {
                by: self.first_waiter(request, held.is_some()),
                held: false,
            },
        }
    }

    // The first waiter before a request.
    fn first_waiter(&self, request: &Request, is_upgrade: bool) -> Option<u32>
        ensures { result ≡ slice_get (ahead request.now self.now.upgrades.items ++ (if is_upgrade then [] else ahead request.now self.now.waits.items)) 0 }
    {
        match first_ahead(&self.upgrades, request) {
            Some(region) => Some(region),
            None => {
                if is_upgrade {
                    None
                } else {
                    first_ahead(&self.waits, request)
                }
            }
        }
    }

    /// What the region waits for.
    pub fn wait_of(&self, region: u32) -> Option<&Request>
        ensures { option_copied result ≡ wait_of region (table_of_lists self.now) }
    {
        match queue::wait_of(&self.upgrades, region) {
            Some(request) => Some(request),
            None => queue::wait_of(&self.waits, region),
        }
    }

    /// Whether this region is among those that block a request.
    pub fn is_blocker(&self, request: &Request, region: u32) -> bool
        requires { AllByRecursion (IsUpTo self.now.regions) (keys_of self.now.holds.entries) }
        ensures { result ≡ list_any (λ blocker. blocker == region) (blockers request.now (table_of_lists self.now)) }
    {
        let held = mode_held(&self.holds, request);
        if is_served(held, request.mode) {
            return false;
        }
        if is_against(&self.holds, request, region) || is_ahead(&self.upgrades, request, region) {
            return true;
        }
        match held {
            Some(_) => false,
            None => is_ahead(&self.waits, request, region),
        }
    }

    // Whether nobody waits, and no other region holds anything: then nothing that the region asks for is
    // blocked.
    fn is_alone(&self, region: u32) -> bool
        requires first { 1 ≤ region }
        requires last { region ≤ length self.now.held.items }
        requires small { AllByRecursion (IsUpTo self.now.regions) (keys_of self.now.holds.entries) }
        requires listed { AreListed self.now.held.items self.now.holds.entries }
        ensures { result ≡ true → (request : Request) → request.region ≡ region → blocked_by request (table_of_lists self.now) ≡ None }
    {
        if !self.upgrades.is_empty() {
            return false;
        }
        if !self.waits.is_empty() {
            return false;
        }
        are_others_empty(&self.held, region as usize - 1)
    }

    /// Where these requests of the region stop.
    pub fn stop_of(&self, region: u32, requests: &[Request]) -> Option<Stop>
        requires first { 1 ≤ region }
        requires last { region ≤ length self.now.held.items }
        requires own { AllByRecursion (λ request. request.region ≡ region) requests.now }
        requires small { AllByRecursion (IsUpTo self.now.regions) (keys_of self.now.holds.entries) }
        requires listed { AreListed self.now.held.items self.now.holds.entries }
        ensures before { IfSome result (λ stop. AreRequestsFree (take stop.place requests.now) (table_of_lists self.now)) }
        ensures here { IfSome result (λ stop. option_and_then (λ request. blocked_by request (table_of_lists self.now)) (slice_get requests.now stop.place) ≡ Some stop.by) }
        ensures none { IfNone result (AreRequestsFree requests.now (table_of_lists self.now)) }
    {
        self.course_of(region, requests).stop
    }

    // How these requests of the region go on, by one look at what it holds for each.
    fn course_of(&self, region: u32, requests: &[Request]) -> Course
        requires first { 1 ≤ region }
        requires last { region ≤ length self.now.held.items }
        requires own { AllByRecursion (λ request. request.region ≡ region) requests.now }
        requires small { AllByRecursion (IsUpTo self.now.regions) (keys_of self.now.holds.entries) }
        requires listed { AreListed self.now.held.items self.now.holds.entries }
        ensures before { IfSome result.stop (λ stop. AreRequestsFree (take stop.place requests.now) (table_of_lists self.now)) }
        ensures here { IfSome result.stop (λ stop. option_and_then (λ request. blocked_by request (table_of_lists self.now)) (slice_get requests.now stop.place) ≡ Some stop.by) }
        ensures none { IfNone result.stop (AreRequestsFree requests.now (table_of_lists self.now)) }
        ensures held { result.held ≡ true → AreRequestsServed requests.now self.now.holds.entries }
    {
        if self.is_alone(region) {
            return Course {
                stop: None,
                held: false,
            };
        }
        let mut held = true;
        for (place, request) in requests.iter().enumerate() {
            let standing = self.standing(request);
            match standing.by {
                Some(by) => {
                    return Course {
                        stop: Some(Stop { place, by }),
                        held: false,
                    };
                }
                None => {}
            }
            held &= standing.held;
        }
        Course { stop: None, held }
    }

    /// The region gets all that it asks for. Where no memory is left nothing changes that is seen.
    fn grant_all(&mut self, region: u32, requests: &[Request]) -> Result<(), Memory>
        requires first { 1 ≤ region }
        requires last { region ≤ length self.old.held.items }
        requires own { AllByRecursion (λ request. request.region ≡ region) requests.now }
        requires listed { AreListed self.old.held.items self.old.holds.entries }
        ensures ok { OnOk result (table_of_lists self.new ≡ granted_all requests.now (table_of_lists self.old)) }
        ensures err { OnErr result (table_of_lists self.new ≡ table_of_lists self.old) }
        ensures listed { AreListed self.new.held.items self.new.holds.entries }
        ensures all { length self.new.held.items ≡ length self.old.held.items }
        ensures room { HasRoomInQueues self.old → HasRoomInQueues self.new }
    {
        hold_all(
            self.alloc,
            &mut self.holds,
            &mut self.held,
            region,
            requests,
        )?;
        end_each(&mut self.upgrades, requests);
        end_each(&mut self.waits, requests);
        Ok(())
    }

    /// Both queues get room for one more.
    fn make_room(&mut self) -> Result<(), Memory>
        ensures seen { table_of_lists self.new ≡ table_of_lists self.old }
        ensures held { self.new.held.items ≡ self.old.held.items }
        ensures room { OnOk result (HasRoomInQueues self.new) }
    {
        self.upgrades.reserve(1)?;
        self.waits.reserve(1)?;
        Ok(())
    }

    /// The region of the request waits for it, and for nothing else.
    fn wait_only_for(&mut self, request: Request)
        requires { HasRoomInQueues self.old }
        ensures seen { table_of_lists self.new ≡ with_waiter request (waits_only_for request (table_of_lists self.old)) }
        ensures holds { self.new.holds.entries ≡ self.old.holds.entries }
        ensures held { self.new.held.items ≡ self.old.held.items }
    {
        end_others(&mut self.upgrades, &request);
        end_others(&mut self.waits, &request);
        if mode_held(&self.holds, &request).is_some() {
            place(&mut self.upgrades, request);
        } else {
            place(&mut self.waits, request);
        }
    }

    /// The region waits for nothing any longer.
    pub fn stop_waiting(&mut self, region: u32)
        ensures seen { table_of_lists self.new ≡ waits_for_nothing region (table_of_lists self.old) }
        ensures holds { self.new.holds.entries ≡ self.old.holds.entries }
        ensures held { self.new.held.items ≡ self.old.held.items }
    {
        end_waits(&mut self.upgrades, region);
        end_waits(&mut self.waits, region);
    }

    /// The region holds nothing any longer and waits for nothing.
    pub fn release_all(&mut self, region: u32)
        requires first { 1 ≤ region }
        requires last { region ≤ length self.old.held.items }
        requires listed { AreListed self.old.held.items self.old.holds.entries }
        requires small { AllByRecursion (IsUpTo self.old.regions) (keys_of self.old.holds.entries) }
        ensures seen { table_of_lists self.new ≡ released region (table_of_lists self.old) }
        ensures listed { AreListed self.new.held.items self.new.holds.entries }
        ensures all { length self.new.held.items ≡ length self.old.held.items }
    {
        self.stop_waiting(region);
        release(
            &mut self.holds,
            &mut self.held[(region - 1) as usize],
            region,
        );
    }

    /// The region asks for all this, up to the first that is blocked, which is told.
    pub fn ask_all(&mut self, region: u32, requests: &[Request]) -> Result<Option<Blocked>, Memory>
        requires kept { AreListsKept self.old }
        requires region { IsTableRegion (table_of_lists self.old) region }
        requires own { AllByRecursion (λ request. request.region ≡ region) requests.now }
        ensures answer { IfOk result (λ blocked. blocked ≡ option_map blocked_told (first_blocked requests.now (table_of_lists self.old))) }
        ensures ok { OnOk result (table_of_lists self.new ≡ after_asks region requests.now (table_of_lists self.old)) }
        ensures err { OnErr result (table_of_lists self.new ≡ table_of_lists self.old) }
        ensures listed { AreListed self.new.held.items self.new.holds.entries }
        ensures all { length self.new.held.items ≡ length self.old.held.items }
    {
        let course = self.course_of(region, requests);
        if course.held {
            self.stop_waiting(region);
            return Ok(None);
        }
        match course.stop {
            Some(stop) => self.ask_up_to(region, requests, stop),
            None => {
                self.grant_all(region, requests)?;
                self.stop_waiting(region);
                Ok(None)
            }
        }
    }

    // The region gets what it asks for before the request that is blocked, and waits for that one.
    fn ask_up_to(
        &mut self,
        region: u32,
        requests: &[Request],
        stop: Stop,
    ) -> Result<Option<Blocked>, Memory>
        requires kept { AreListsKept self.old }
        requires region { IsTableRegion (table_of_lists self.old) region }
        requires own { AllByRecursion (λ request. request.region ≡ region) requests.now }
        requires before { AreRequestsFree (take stop.place requests.now) (table_of_lists self.old) }
        requires here { option_and_then (λ request. blocked_by request (table_of_lists self.old)) (slice_get requests.now stop.place) ≡ Some stop.by }
        ensures answer { IfOk result (λ blocked. blocked ≡ option_map blocked_told (first_blocked requests.now (table_of_lists self.old))) }
        ensures ok { OnOk result (table_of_lists self.new ≡ after_asks region requests.now (table_of_lists self.old)) }
        ensures err { OnErr result (table_of_lists self.new ≡ table_of_lists self.old) }
        ensures listed { AreListed self.new.held.items self.new.holds.entries }
        ensures all { length self.new.held.items ≡ length self.old.held.items }
    {
        let request = requests[stop.place];
        self.make_room()?;
        self.grant_all(region, &requests[..stop.place])?;
        self.wait_only_for(request);
        Ok(Some(told(&request, stop.by)))
    }
}
