//! The states of transaction codes.
use tm_types::Name;

/// The state of a transaction code.
#[derive(Clone, Copy, Debug)]
pub struct CodeState {
    pub code: Name,
    pub stopped: bool,
    pub class: u8,
    /// The normal priority.
    pub priority: u8,
    /// Whether the limit priority counts.
    pub raised: bool,
}
