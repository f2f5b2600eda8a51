//! What a call of a region asks for.
ghost use Rattle.std.specs.Prelude.{◌≡◌, ◌≢◌, ◌≤◌, None, IfOk, IfErr, OnOk, OnErr, map};
ghost use Rattle.log_records.specs.declared.untold.Untold.TheVariants.{Memory as NoMemory};
ghost use Rattle.std.specs.List.{AllByRecursion};
ghost use Rattle.model_data.specs.EnqueueRequests.{after_asks, first_blocked};
ghost use Rattle.model_data.specs.Cycle.{IsTableRegion};
ghost use Rattle.pi_enqueue.specs.KeptTable.{IsTableKept};
ghost use Rattle.program_rows.specs.Isolation.{request_of};
ghost use Rattle.program_rows.specs.PlannedChanges.{Reads, WaitsAt};

use crate::answer::Blocked;
use crate::{Answered, DataAnswer};
use dli_calls::Planned;
use log_records::Untold;
use model_data::Need;
use pi_enqueue::{Request, Table};
use std::alloc::Global;
use tm_types::{Memory, Resource};

/// The requests of a call of this region on the database of this number, in the order of its needs.
#[derive(Debug, Drop)]
pub struct Asked {
    pub region: u32,
    pub number: u8,
    pub requests: Vec<Request>,
}

/// What a region asks for to have these needs.
pub fn asked_for(alloc: Global, region: u32, number: u8, needs: &[Need]) -> Result<Asked, Memory>
    ensures region { IfOk result (λ asked. asked.region ≡ region) }
    ensures number { IfOk result (λ asked. asked.number ≡ number) }
    ensures requests { IfOk result (λ asked. asked.requests.items ≡ map (request_of region number) needs.now) }
    ensures own { IfOk result (λ asked. AllByRecursion (λ request. request.region ≡ region) asked.requests.items) }
{
    let requests = requests_for(alloc, region, number, needs)?;
    Ok(Asked {
        region,
        number,
        requests,
    })
}

fn requests_for(
    alloc: Global,
    region: u32,
    number: u8,
    needs: &[Need],
) -> Result<Vec<Request>, Memory>
    ensures { IfOk result (λ requests. requests.items ≡ map (request_of region number) needs.now) }
{
    let mut requests = Vec::with_capacity(alloc, needs.len())?;
    for need in needs {
        requests.extend_from_slice(&[request_of(region, number, need)])?;
    }
    Ok(requests)
}

fn request_of(region: u32, number: u8, need: &Need) -> Request
    ensures { result ≡ request_of region number need.now }
{
    Request {
        region,
        resource: Resource {
            db: number,
            root: need.root,
        },
        mode: need.mode,
    }
}

/// A call that changes no record is answered as planned; where what it asks for is blocked, the region
/// waits.
pub fn read(asked: &Asked, planned: Planned, table: &mut Table) -> Result<DataAnswer, Untold>
    requires region { IsTableRegion table.old asked.now.region }
    requires own { AllByRecursion (λ request. request.region ≡ asked.now.region) asked.now.requests.items }
    ensures reads { IfOk result (Reads asked.now.requests.items table.old planned) }
    ensures memory { IfErr result (λ e. e ≡ NoMemory) }
    ensures table { OnOk result (table.new ≡ after_asks asked.now.region asked.now.requests.items table.old) }
    ensures held { IsTableKept table.new }
    ensures kept { OnErr result (table.new ≡ table.old) }
{
    match table.ask_all(asked.region, &asked.requests) {
        Ok(Some(blocked)) => Ok(DataAnswer::Blocked(Blocked {
            resource: blocked.resource,
            by: blocked.by,
        })),
        Ok(None) => Ok(DataAnswer::Answered(Answered {
            status: planned.status,
            area: planned.area,
            position: planned.position,
        })),
        Err(_) => Err(Untold::Memory),
    }
}

/// The region waits at the first request that is blocked.
pub fn wait(asked: &Asked, table: &mut Table) -> Result<DataAnswer, Untold>
    requires region { IsTableRegion table.old asked.now.region }
    requires own { AllByRecursion (λ request. request.region ≡ asked.now.region) asked.now.requests.items }
    requires blocked { first_blocked asked.now.requests.items table.old ≢ None }
    ensures waits { IfOk result (WaitsAt asked.now.requests.items table.old) }
    ensures memory { IfErr result (λ e. e ≡ NoMemory) }
    ensures table { OnOk result (table.new ≡ after_asks asked.now.region asked.now.requests.items table.old) }
    ensures held { IsTableKept table.new }
    ensures kept { OnErr result (table.new ≡ table.old) }
{
    match table.ask_all(asked.region, &asked.requests) {
        Ok(Some(blocked)) => Ok(DataAnswer::Blocked(Blocked {
            resource: blocked.resource,
            by: blocked.by,
        })),
        Ok(None) => unreachable!(),
        Err(_) => Err(Untold::Memory),
    }
}

/// The region gets all that it asks for, of which nothing is blocked.
pub fn ask(asked: &Asked, table: &mut Table) -> Result<(), Memory>
    requires region { IsTableRegion table.old asked.now.region }
    requires own { AllByRecursion (λ request. request.region ≡ asked.now.region) asked.now.requests.items }
    requires free { first_blocked asked.now.requests.items table.old ≡ None }
    ensures table { OnOk result (table.new ≡ after_asks asked.now.region asked.now.requests.items table.old) }
    ensures held { IsTableKept table.new }
    ensures kept { OnErr result (table.new ≡ table.old) }
{
    match table.ask_all(asked.region, &asked.requests) {
        Ok(None) => Ok(()),
        Ok(Some(_)) => unreachable!(),
        Err(error) => Err(error),
    }
}
