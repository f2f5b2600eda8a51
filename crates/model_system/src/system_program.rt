//! Programs with their PCBs.
use crate::{Pcbs, Program};
use tm_types::Name;

/// A program under the name of its PSB, with its PCBs.
#[derive(Debug, Drop)]
pub struct SystemProgram {
    pub psb: Name,
    pub pcbs: Pcbs,
    pub program: Program,
}
