//! Transaction codes.
use tm_types::Name;

/// Whether the messages of a code have several segments or one.
#[derive(Clone, Copy, Debug, PartialEq, Eq)]
pub enum SegmentKind {
    /// MULTSEG.
    Multiple,
    /// SNGLSEG.
    Single,
}

/// The operands of TRANSACT.
#[derive(Clone, Copy, Debug)]
pub struct Transaction {
    pub code: Name,
    pub segment_kind: SegmentKind,
    /// 1 to 255.
    pub class: u8,
    /// The priority while fewer messages wait than the limit count, 0 to 14.
    pub normal_priority: u8,
    /// The priority from the limit count on, 0 to 14.
    pub limit_priority: u8,
    /// 1 to 65,535; 65,535 is no limit.
    pub limit_count: u16,
    /// The most messages of one scheduling, 1 to 65,535; 65,535 is no limit.
    pub processing_count: u16,
    /// The most statements of a unit, 1 to 65,535.
    pub statement_limit: u16,
    /// The most output segments of a unit, 1 to 32.
    pub segment_count: u8,
    /// The longest output segment, 5 to 2,000.
    pub segment_size: u16,
    /// How long the scratch pad of the code's conversations is, 16 to 1,000, with 6 bytes before the code and the work
    /// area; 0 for a code without conversations.
    pub scratch_pad: u16,
    /// Whether one message at a time is worked on.
    pub serial: bool,
}

/// A transaction code with the PSB of its program.
#[derive(Clone, Copy, Debug)]
pub struct Code {
    pub psb: Name,
    pub transaction: Transaction,
}
