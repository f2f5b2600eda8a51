//! Holders with the modes in which they hold.
ghost use Rattle.std.specs.Prelude.{◌≡◌, ◌==◌, ◌&&◌, ◌≤◌, ◌++◌, ◌∷◌, [], None, true, false, not, length, filter, map, slice_get, IfOk, OnOk, OnErr, ◌<◌};
ghost use Rattle.std.specs.Option.{option_map_or};
ghost use Rattle.std.specs.List.{AllByRecursion, list_any};
ghost use Rattle.std.specs.List.Sorted.{IsStrictlySortedBy};
ghost use Rattle.std.specs.BTreeMap.{insert_entry, is_at};
ghost use Rattle.std.specs.Vec.{vec_len, vec_capacity};
ghost use Rattle.std.specs.Map.{keys_of, lookup, remove_entry, set_value};
ghost use Rattle.model_data.specs.Modes.{excludes, mode_serves, holder_cmp};
ghost use Rattle.model_data.specs.Table.{mode_held, holders_against, holds_of};
ghost use Rattle.model_data.specs.EnqueueRequests.{asker, with_hold};
ghost use Rattle.pi_enqueue.specs.Grants.{with_holds};
ghost use Rattle.pi_enqueue.specs.Lists.{IsUpTo, is_on, is_listed, AreListed, StayListed, with_mode, before_all, is_more};

use crate::held::{Held, list};
use model_data::{Holder, Request};
use std::alloc::Global;
use std::collections::BTreeMap;
use std::ops::Bound;
use tm_types::{Memory, Mode, Resource};

/// A change of what a holder has: the mode that it had before, if any.
#[derive(Clone, Copy, Debug)]
pub struct Change {
    pub holder: Holder,
    pub mode: Option<Mode>,
}

/// Whether these modes can't go together.
pub fn excludes(a: Mode, b: Mode) -> bool
    ensures { result ≡ excludes a b }
{
    match (a, b) {
        (Mode::Shared, Mode::Shared) => false,
        (Mode::Shared, Mode::Exclusive) => true,
        (Mode::Exclusive, Mode::Shared) => true,
        (Mode::Exclusive, Mode::Exclusive) => true,
    }
}

/// Whether who holds in the first mode needs not ask for the second.
pub fn serves(held: Mode, mode: Mode) -> bool
    ensures { result ≡ mode_serves held mode }
{
    match (held, mode) {
        (Mode::Shared, Mode::Shared) => true,
        (Mode::Shared, Mode::Exclusive) => false,
        (Mode::Exclusive, Mode::Shared) => true,
        (Mode::Exclusive, Mode::Exclusive) => true,
    }
}

/// The region of the request as holder of its resource.
pub fn asker(request: &Request) -> Holder
    ensures { result ≡ asker request.now }
{
    Holder {
        resource: request.resource,
        region: request.region,
    }
}

/// The mode in which the region holds what it asks for.
pub fn mode_held(holds: &BTreeMap<Holder, Mode>, request: &Request) -> Option<Mode>
    ensures value { result ≡ mode_held request.now holds.now.entries }
    ensures ordered { IsStrictlySortedBy holder_cmp (keys_of holds.now.entries) }
{
    let _count = holds.len();
    match holds.get(&asker(request)) {
        Some(mode) => Some(*mode),
        None => None,
    }
}

/// The lowest other region that holds the resource in a mode that can't go together with the request.
/// Regions go up to the last one.
pub fn first_against(holds: &BTreeMap<Holder, Mode>, last: u32, request: &Request) -> Option<u32>
    requires { AllByRecursion (IsUpTo last) (keys_of holds.now.entries) }
    ensures { result ≡ slice_get (holders_against request.now holds.now.entries) 0 }
{
    let first = Holder {
        resource: request.resource,
        region: 0,
    };
    let end = Holder {
        resource: request.resource,
        region: last,
    };
    for (holder, mode) in holds.range((Bound::Included(first), Bound::Included(end))) {
        if is_other(holder, *mode, request) {
            return Some(holder.region);
        }
    }
    None
}

/// Whether this region holds the resource in a mode that can't go together with the request of another
/// region.
pub fn is_against(holds: &BTreeMap<Holder, Mode>, request: &Request, region: u32) -> bool
    ensures { result ≡ list_any (λ blocker. blocker == region) (holders_against request.now holds.now.entries) }
{
    let holder = Holder {
        resource: request.resource,
        region,
    };
    let _count = holds.len();
    match holds.get(&holder) {
        Some(mode) => is_other(&holder, *mode, request),
        None => false,
    }
}

// Whether a holder of the resource is another region, and its mode can't go together with the request.
fn is_other(holder: &Holder, mode: Mode, request: &Request) -> bool
    ensures { result ≡ (not (holder.now.region == request.now.region) && excludes mode request.now.mode) }
{
    holder.region != request.region && excludes(mode, request.mode)
}

/// The lowest region that holds the resource. Regions go up to the last one.
pub fn lowest(holds: &BTreeMap<Holder, Mode>, last: u32, resource: &Resource) -> Option<u32>
    requires { AllByRecursion (IsUpTo last) (keys_of holds.now.entries) }
    ensures { result ≡ slice_get (map (λ hold. hold.0.region) (filter (λ hold. holds_of resource.now hold.0) holds.now.entries)) 0 }
{
    let first = Holder {
        resource: *resource,
        region: 0,
    };
    let end = Holder {
        resource: *resource,
        region: last,
    };
    let mut holders = holds.range((Bound::Included(first), Bound::Included(end)));
    match holders.next() {
        Some((holder, _)) => Some(holder.region),
        None => None,
    }
}

// The holder has this mode, and the one that it had is told. Only a new holder may want memory.
fn set_mode(
    holds: &mut BTreeMap<Holder, Mode>,
    holder: Holder,
    mode: Mode,
) -> Result<Option<Mode>, Memory>
    ensures ok { OnOk result (holds.new.entries ≡ insert_entry holder_cmp holds.old.entries holder mode) }
    ensures told { IfOk result (λ before. before ≡ lookup (is_at (holder_cmp holder)) holds.old.entries) }
    ensures err { OnErr result (holds.new.entries ≡ holds.old.entries) }
    ensures was_ordered { IsStrictlySortedBy holder_cmp (keys_of holds.old.entries) }
{
    let Holder { resource, region } = holder;
    let Resource { db, root } = resource;
    let resource = Resource { db, root };
    let _count = holds.len();
    match holds.insert(Holder { resource, region }, mode) {
        Ok(before) => Ok(before),
        Err(_) => Err(Memory),
    }
}

// Whether a holder had a stronger mode than this one.
fn is_more(before: Option<Mode>, mode: Mode) -> bool
    ensures { result ≡ is_more before mode }
{
    match (before, mode) {
        (Some(Mode::Exclusive), Mode::Shared) => true,
        (Some(Mode::Exclusive), Mode::Exclusive) => false,
        (Some(Mode::Shared), _) => false,
        (None, _) => false,
    }
}

// The region holds what it asks for too, and the mode in which it held that is told. Only a new holder
// may want memory.
fn strengthen(holds: &mut BTreeMap<Holder, Mode>, request: &Request) -> Result<Option<Mode>, Memory>
    ensures ok { OnOk result (holds.new.entries ≡ with_hold request.now holds.old.entries) }
    ensures told { IfOk result (λ before. before ≡ mode_held request.now holds.old.entries) }
    ensures err { OnErr result (holds.new.entries ≡ holds.old.entries) }
    ensures was_ordered { IsStrictlySortedBy holder_cmp (keys_of holds.old.entries) }
{
    let holder = asker(request);
    let before = set_mode(holds, asker(request), request.mode)?;
    if is_more(before, request.mode) {
        give_mode(holds, &holder, before);
        return Ok(before);
    }
    Ok(before)
}

/// Whether this is the same mode as the one asked for, or a stronger one.
pub fn is_served(held: Option<Mode>, mode: Mode) -> bool
    ensures { result ≡ option_map_or (λ has. mode_serves has mode) held false }
{
    match held {
        Some(has) => serves(has, mode),
        None => false,
    }
}

/// The region holds all that it asks for too. Where no memory is left it holds what it held.
pub fn hold_all(
    alloc: Global,
    holds: &mut BTreeMap<Holder, Mode>,
    lists: &mut Vec<Held>,
    region: u32,
    requests: &[Request],
) -> Result<(), Memory>
    requires first { 1 ≤ region }
    requires last { region ≤ length lists.old.items }
    requires own { AllByRecursion (λ request. request.region ≡ region) requests.now }
    requires listed { AreListed lists.old.items holds.old.entries }
    ensures ok { OnOk result (holds.new.entries ≡ with_holds requests.now holds.old.entries) }
    ensures err { OnErr result (holds.new.entries ≡ holds.old.entries) }
    ensures listed { AreListed lists.new.items holds.new.entries }
    ensures all { length lists.new.items ≡ length lists.old.items }
{
    if requests.len() == 1 {
        return match hold_one(holds, lists, &requests[0]) {
            Ok(_) => Ok(()),
            Err(error) => Err(error),
        };
    }
    hold_several(alloc, holds, lists, region, requests)
}

// The same for requests of which some may have to be taken back.
fn hold_several(
    alloc: Global,
    holds: &mut BTreeMap<Holder, Mode>,
    lists: &mut Vec<Held>,
    region: u32,
    requests: &[Request],
) -> Result<(), Memory>
    requires first { 1 ≤ region }
    requires last { region ≤ length lists.old.items }
    requires own { AllByRecursion (λ request. request.region ≡ region) requests.now }
    requires listed { AreListed lists.old.items holds.old.entries }
    ensures ok { OnOk result (holds.new.entries ≡ with_holds requests.now holds.old.entries) }
    ensures err { OnErr result (holds.new.entries ≡ holds.old.entries) }
    ensures listed { AreListed lists.new.items holds.new.entries }
    ensures all { length lists.new.items ≡ length lists.old.items }
{
    let mut changes = Vec::new(alloc);
    match hold_each(holds, lists, &mut changes, region, requests) {
        Ok(()) => Ok(()),
        Err(_) => {
            take_back(holds, &mut changes);
            Err(Memory)
        }
    }
}

// The region holds what it asks for too, up to where no memory is left. The changes come behind the
// others.
fn hold_each(
    holds: &mut BTreeMap<Holder, Mode>,
    lists: &mut Vec<Held>,
    changes: &mut Vec<Change>,
    region: u32,
    requests: &[Request],
) -> Result<(), Memory>
    requires first { 1 ≤ region }
    requires last { region ≤ length lists.old.items }
    requires own { AllByRecursion (λ request. request.region ≡ region) requests.now }
    requires listed { AreListed lists.old.items holds.old.entries }
    ensures ok { OnOk result (holds.new.entries ≡ with_holds requests.now holds.old.entries) }
    ensures back { before_all changes.new.items holds.new.entries ≡ before_all changes.old.items holds.old.entries }
    ensures listed { OnOk result (AreListed lists.new.items holds.new.entries) }
    ensures stay { StayListed lists.old.items lists.new.items }
    ensures all { length lists.new.items ≡ length lists.old.items }
{
    for request in requests {
        hold(holds, lists, changes, request)?;
    }
    Ok(())
}

// The region holds what it asks for too. The change, where it is one, comes behind the others.
fn hold(
    holds: &mut BTreeMap<Holder, Mode>,
    lists: &mut Vec<Held>,
    changes: &mut Vec<Change>,
    request: &Request,
) -> Result<(), Memory>
    requires first { 1 ≤ request.now.region }
    requires last { request.now.region ≤ length lists.old.items }
    requires listed { AreListed lists.old.items holds.old.entries }
    ensures ok { OnOk result (holds.new.entries ≡ with_hold request.now holds.old.entries) }
    ensures back { before_all changes.new.items holds.new.entries ≡ before_all changes.old.items holds.old.entries }
    ensures listed { OnOk result (AreListed lists.new.items holds.new.entries) }
    ensures stay { StayListed lists.old.items lists.new.items }
    ensures all { length lists.new.items ≡ length lists.old.items }
{
    changes.reserve(1)?;
    let before = hold_one(holds, lists, request)?;
    note(changes, &asker(request), before);
    Ok(())
}

// The region holds what it asks for too, and the mode in which it held that is told. Where no memory is left
// it holds what it held.
fn hold_one(
    holds: &mut BTreeMap<Holder, Mode>,
    lists: &mut Vec<Held>,
    request: &Request,
) -> Result<Option<Mode>, Memory>
    requires first { 1 ≤ request.now.region }
    requires last { request.now.region ≤ length lists.old.items }
    requires listed { AreListed lists.old.items holds.old.entries }
    ensures ok { OnOk result (holds.new.entries ≡ with_hold request.now holds.old.entries) }
    ensures told { IfOk result (λ before. before ≡ mode_held request.now holds.old.entries) }
    ensures err { OnErr result (holds.new.entries ≡ holds.old.entries) }
    ensures was_ordered { OnOk result (IsStrictlySortedBy holder_cmp (keys_of holds.old.entries)) }
    ensures listed { OnOk result (AreListed lists.new.items holds.new.entries) }
    ensures stay { StayListed lists.old.items lists.new.items }
    ensures all { length lists.new.items ≡ length lists.old.items }
{
    let before = strengthen(holds, request)?;
    let holder = asker(request);
    match list_new(lists, &holder, before) {
        Ok(()) => Ok(before),
        Err(error) => {
            give_mode(holds, &holder, before);
            Err(error)
        }
    }
}

// Puts a holder that had no mode before on the list of its region.
fn list_new(lists: &mut Vec<Held>, holder: &Holder, mode: Option<Mode>) -> Result<(), Memory>
    requires first { 1 ≤ holder.now.region }
    requires last { holder.now.region ≤ length lists.old.items }
    ensures listed { OnOk result (mode ≡ None → is_listed lists.new.items holder.now ≡ true) }
    ensures stay { StayListed lists.old.items lists.new.items }
    ensures all { length lists.new.items ≡ length lists.old.items }
{
    match mode {
        Some(_) => Ok(()),
        None => list(lists, holder),
    }
}

// Adds a change behind the others, where there is room.
fn note(changes: &mut Vec<Change>, holder: &Holder, mode: Option<Mode>)
    requires { vec_len changes.old < vec_capacity changes.old }
    ensures { changes.new.items ≡ changes.old.items ++ (record { holder = holder.now; mode = mode }) ∷ [] }
{
    let Holder { resource, region } = *holder;
    let Resource { db, root } = resource;
    let resource = Resource { db, root };
    changes.push_reserved(Change {
        holder: Holder { resource, region },
        mode,
    });
}

/// Takes these changes back, the last one first.
pub fn take_back(holds: &mut BTreeMap<Holder, Mode>, changes: &mut Vec<Change>)
    ensures { holds.new.entries ≡ before_all changes.old.items holds.old.entries }
{
    while let Some(change) = changes.pop() {
        give_mode(holds, &change.holder, change.mode);
    }
}

// The holder has the mode that it had before, or none.
fn give_mode(holds: &mut BTreeMap<Holder, Mode>, holder: &Holder, before: Option<Mode>)
    ensures { holds.new.entries ≡ with_mode before holder.now holds.old.entries }
{
    match before {
        Some(mode) => reset(holds, holder, mode),
        None => remove(holds, holder),
    }
}

// The holder, if it is there, has this mode.
fn reset(holds: &mut BTreeMap<Holder, Mode>, holder: &Holder, mode: Mode)
    ensures { holds.new.entries ≡ set_value (is_at (holder_cmp holder.now)) holds.old.entries mode }
{
    match holds.get_mut(holder) {
        Some(held) => *held = mode,
        None => {}
    }
}

/// The region, whose list this is, holds nothing any longer.
pub fn release(holds: &mut BTreeMap<Holder, Mode>, list: &mut Held, region: u32)
    requires { AllByRecursion (λ holder. holder.region ≡ region → is_on list.old holder.resource ≡ true) (keys_of holds.old.entries) }
    ensures holds { holds.new.entries ≡ filter (λ hold. not (hold.0.region == region)) holds.old.entries }
    ensures list { list.new ≡ [] }
{
    if list.len() >= holds.len() / 8 {
        leave_others(holds, region);
        list.clear();
        return;
    }
    while let Some(resource) = list.pop() {
        remove(holds, &Holder { resource, region });
    }
}

// Just the holds of other regions stay.
fn leave_others(holds: &mut BTreeMap<Holder, Mode>, region: u32)
    ensures { holds.new.entries ≡ filter (λ hold. not (hold.0.region == region)) holds.old.entries }
{
    holds.retain(|holder, _mode| holder.region != region);
}

fn remove(holds: &mut BTreeMap<Holder, Mode>, holder: &Holder)
    ensures value { holds.new.entries ≡ remove_entry (is_at (holder_cmp holder.now)) holds.old.entries }
    ensures ordered { IsStrictlySortedBy holder_cmp (keys_of holds.new.entries) }
    ensures was_ordered { IsStrictlySortedBy holder_cmp (keys_of holds.old.entries) }
{
    let _count = holds.len();
    holds.remove(holder);
}
