//! A region that gives way.
use crate::Cycle;

/// A region that gives all back, so that a ring of waiting regions is broken, and that ring.
#[derive(Clone, Copy, Debug)]
pub struct Victim {
    pub region: u32,
    pub cycle: Cycle,
}
