//! A PCB within the work on a message.
use model_system::Pcb;
use tm_types::{Name, Segments};

/// A PCB within the work on a message.
#[derive(Debug, Drop)]
pub struct OpenPcb {
    /// What the program may reach by it. PCB 0 has the origin terminal as its destination.
    pub kind: Pcb,
    /// The destination that CHNG has set.
    pub chosen: Option<Name>,
    /// The message under construction, which is there where it has segments.
    pub segments: Segments,
}
