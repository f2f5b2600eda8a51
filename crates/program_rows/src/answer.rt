//! What a call gives.
use model_data::Position;
use tm_types::{AbendCode, Bytes, Resource, Status};

/// What a call that is answered gives.
#[derive(Debug, Drop)]
pub struct Answered {
    pub status: Status,
    /// The data of the segment that a get reached.
    pub area: Option<Bytes>,
    /// Where the PCB stands after the call.
    pub position: Position,
}

/// A resource that a call needs, and the region that blocks it.
#[derive(Clone, Copy, Debug)]
pub struct Blocked {
    pub resource: Resource,
    pub by: u32,
}

/// What a call on the databases leads to.
#[derive(Debug, Drop)]
pub enum DataAnswer {
    Answered(Answered),
    /// The unit ends abnormally, in place of an answer.
    Abend(AbendCode),
    /// A resource that the call needs is blocked: it wasn't made, and the region waits.
    Blocked(Blocked),
}
