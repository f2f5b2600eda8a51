//! What the regions do.
ghost use Rattle.std.specs.Prelude.{◌≡◌, ◌-◌, Ok, IfOk, slice_get};
ghost use Rattle.model_machine.specs.declared.answer.Answer.TheVariants.{Active};
ghost use Rattle.model_data.specs.Table.{wait_of, waits_by};
ghost use Rattle.model_machine.specs.CommandAnswers as spec;
ghost use Rattle.model_machine.specs.Machine.{IsRegion, slot_at};
ghost use Rattle.std.specs.Option.{option_map};
ghost use Rattle.tm_machine.specs.RegionMessage.{region_message};
ghost use Rattle.tm_machine.specs.WaitingWork.{work_on, wait_on};

use crate::Parts;
use model_machine::{ActiveRegion, ActiveRegions, Answer, CommandRefused, RegionWork};
use std::alloc::Global;
use tm_types::{Dbd, Memory, Name, Resource};

/// What each region does, in order.
pub fn active(alloc: Global, parts: &Parts) -> Result<Result<Answer, CommandRefused>, Memory>
    ensures { IfOk result (λ answer. answer ≡ Ok (Active (spec.active_from parts.now.system.databases parts.now.moment.enqueues 1 parts.now.moment.slots))) }
{
    Ok(Ok(Answer::Active(regions_of(alloc, parts)?)))
}

fn regions_of(alloc: Global, parts: &Parts) -> Result<ActiveRegions, Memory>
    ensures { IfOk result (λ regions. regions ≡ spec.active_from parts.now.system.databases parts.now.moment.enqueues 1 parts.now.moment.slots) }
{
    let mut regions = ActiveRegions::new(alloc);
    for place in 0..parts.region_count() {
        let region = place + 1;
        regions.push(ActiveRegion {
            region,
            work: work_of(parts, region),
        })?;
    }
    Ok(regions)
}

fn work_of(parts: &Parts, region: u32) -> RegionWork
    requires { IsRegion parts.now.system region }
    ensures { result ≡ spec.work_of parts.now.system.databases parts.now.moment.enqueues region (slot_at parts.now.moment region) }
{
    match parts.work(region) {
        None => RegionWork::Idle,
        Some((code, id)) => waiting_work(parts, region, code, id),
    }
}

fn waiting_work(parts: &Parts, region: u32, code: Name, id: u64) -> RegionWork
    ensures { result ≡ work_on parts.now.system.databases code id (option_map (λ request. request.resource) (wait_of region parts.now.moment.enqueues)) (waits_by region parts.now.moment.enqueues) }
{
    let Some(resource) = parts.waits(region) else {
        return RegionWork::Working { code, id };
    };
    let Some(by) = parts.waits_by(region) else {
        return RegionWork::Working { code, id };
    };
    wait_on(parts.system().databases(), code, id, &resource, by)
}

fn wait_on(databases: &[Dbd], code: Name, id: u64, resource: &Resource, by: u32) -> RegionWork
    ensures { result ≡ wait_on databases.now code id resource.now by }
{
    let Some(place) = resource.db.checked_sub(1) else {
        return wait_for(databases, 0, code, id, resource, by);
    };
    wait_for(databases, place as usize, code, id, resource, by)
}

fn wait_for(
    databases: &[Dbd],
    place: usize,
    code: Name,
    id: u64,
    resource: &Resource,
    by: u32,
) -> RegionWork
    requires { place ≡ resource.now.db - 1 }
    ensures { result ≡ wait_on databases.now code id resource.now by }
{
    match databases.get(place) {
        Some(dbd) => RegionWork::Waiting {
            code,
            id,
            database: dbd.name,
            root: resource.root,
            by,
        },
        None => RegionWork::Working { code, id },
    }
}
