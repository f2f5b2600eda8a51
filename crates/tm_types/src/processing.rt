//! The processing options of a database PCB, each a bit of one number. All four are 15.

/// The PCB may get segments. Options that replace or delete include it.
pub const GET: u8 = 1;

const _: () = prove!(GET == 1);
/// The PCB may insert segments.
pub const INSERT: u8 = 2;

const _: () = prove!(INSERT == 2);
/// The PCB may replace segments, and get them with hold.
pub const REPLACE: u8 = 4;

const _: () = prove!(REPLACE == 4);
/// The PCB may delete segments, and get them with hold.
pub const DELETE: u8 = 8;

const _: () = prove!(DELETE == 8);
