//! Requests for resources, their answers and their holders.
use tm_types::{Mode, Resource};

/// What a region asks for. While it waits, the request stands in a queue.
#[derive(Clone, Copy, Debug)]
pub struct Request {
    pub region: u32,
    pub resource: Resource,
    pub mode: Mode,
}

/// A region that holds a resource. Holders are ordered by resource, and then by region.
#[derive(Clone, Copy, Debug, PartialEq, Eq, PartialOrd, Ord)]
pub struct Holder {
    pub resource: Resource,
    pub region: u32,
}

/// What a request came to.
#[derive(Clone, Copy, Debug, PartialEq, Eq)]
pub enum Asked {
    /// The region holds the resource.
    Granted,
    /// The region waits, and this region blocks it.
    Waits(u32),
}
