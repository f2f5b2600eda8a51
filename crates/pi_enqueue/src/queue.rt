//! Requests that wait, in the order of time.
ghost use Rattle.std.specs.Prelude.{◌≡◌, ◌==◌, ◌<◌, ◌≤◌, not, ◌&&◌, filter, find, position, slice_get};
ghost use Rattle.std.specs.List.{list_any};
ghost use Rattle.std.specs.Option.{option_copied};
ghost use Rattle.std.specs.Vec.{vec_len, vec_capacity};
ghost use Rattle.model_data.specs.Modes.{same_resource};
ghost use Rattle.model_data.specs.Table.{is_own, ahead};
ghost use Rattle.model_data.specs.EnqueueRequests.{without_wait, placed_request};
ghost use Rattle.pi_enqueue.specs.Grants.{without_waits};

use model_data::Request;
use tm_types::Resource;

/// Whether both are the same record, or the sequence resource of one database.
pub fn is_same(a: &Resource, b: &Resource) -> bool
    ensures { result ≡ same_resource a.now b.now }
{
    a.db == b.db && a.root == b.root
}

/// Whether the waiter is the region of the request, and waits for the resource that it asks for.
pub fn is_own(request: &Request, waiter: &Request) -> bool
    ensures { result ≡ is_own request.now waiter.now }
{
    is_same(&waiter.resource, &request.resource) && waiter.region == request.region
}

/// The first of those who wait for the resource before the region does.
pub fn first_ahead(waiters: &[Request], request: &Request) -> Option<u32>
    ensures { result ≡ slice_get (ahead request.now waiters.now) 0 }
{
    for waiter in waiters {
        if is_own(request, waiter) {
            return None;
        }
        if is_same(&waiter.resource, &request.resource) {
            return Some(waiter.region);
        }
    }
    None
}

/// Whether this region is among those who wait for the resource before the region of the request does.
pub fn is_ahead(waiters: &[Request], request: &Request, region: u32) -> bool
    ensures { result ≡ list_any (λ blocker. blocker == region) (ahead request.now waiters.now) }
{
    for waiter in waiters {
        if is_own(request, waiter) {
            return false;
        }
        if is_same(&waiter.resource, &request.resource) && waiter.region == region {
            return true;
        }
    }
    false
}

/// What the region waits for here.
pub fn wait_of(waiters: &[Request], region: u32) -> Option<&Request>
    ensures { option_copied result ≡ find (λ waiter. waiter.region == region) waiters.now }
{
    waiters.iter().find(|waiter| waiter.region == region)
}

// The region of the request no longer waits for its resource.
fn end_wait(waiters: &mut Vec<Request>, request: &Request)
    ensures value { waiters.new.items ≡ without_wait request.now waiters.old.items }
    ensures room { vec_capacity waiters.new ≡ vec_capacity waiters.old }
    ensures bound { vec_len waiters.new ≤ vec_len waiters.old }
{
    waiters.retain(|waiter| !is_own(request, waiter));
}

/// The region no longer waits for what it asks for in these requests.
pub fn end_each(waiters: &mut Vec<Request>, requests: &[Request])
    ensures value { waiters.new.items ≡ without_waits requests.now waiters.old.items }
    ensures room { vec_capacity waiters.new ≡ vec_capacity waiters.old }
    ensures bound { vec_len waiters.new ≤ vec_len waiters.old }
{
    if waiters.is_empty() {
        return;
    }
    for request in requests {
        end_wait(waiters, request);
    }
}

/// The region of the request waits for its resource at most.
pub fn end_others(waiters: &mut Vec<Request>, request: &Request)
    ensures value { waiters.new.items ≡ filter (λ waiter. not ((waiter.region == request.now.region) && not (is_own request.now waiter))) waiters.old.items }
    ensures room { vec_capacity waiters.new ≡ vec_capacity waiters.old }
    ensures bound { vec_len waiters.new ≤ vec_len waiters.old }
{
    waiters.retain(|waiter| !(waiter.region == request.region && !is_own(request, waiter)));
}

/// The region waits for nothing here.
pub fn end_waits(waiters: &mut Vec<Request>, region: u32)
    ensures { waiters.new.items ≡ filter (λ waiter. not (waiter.region == region)) waiters.old.items }
{
    waiters.retain(|waiter| waiter.region != region);
}

/// The request stands in the place that its region has, or else at the end, for which there is room.
pub fn place(waiters: &mut Vec<Request>, request: Request)
    requires { vec_len waiters.old < vec_capacity waiters.old }
    ensures { waiters.new.items ≡ placed_request request waiters.old.items }
{
    match place_of(waiters, &request) {
        Some(place) => waiters[place] = request,
        None => waiters.push_reserved(request),
    }
}

// Where the region of the request waits for its resource.
fn place_of(waiters: &[Request], request: &Request) -> Option<usize>
    ensures { result ≡ position (is_own request.now) waiters.now }
{
    waiters.iter().position(|waiter| is_own(request, waiter))
}
