//! A program's calls on PCB 0 and on its output PCBs.
//!
//! Proved: GU, GN, ISRT, PURG, CHNG and ROLB are answered, and leave the texts given, the pad that is given back,
//! destinations, messages under construction and ended outputs, as `model_messages` defines. Want of memory changes
//! nothing, and what only moves on, chooses a destination or takes output back needs no memory. A message of a
//! conversation gives its scratch pad before its segments, and the first ISRT on PCB 0 takes it back; whether a text is
//! a wrong pad is told exactly. What is sent at the end is the ended messages and then those under construction, in the
//! order of the PCBs.
#![tactic(auto)]

pub use output::Output;
pub use pad::LentPad;
pub use work::{Got, Work};

mod destinations;
mod output;
mod outputs;
mod pad;
mod pads;
mod pcbs;
mod work;
