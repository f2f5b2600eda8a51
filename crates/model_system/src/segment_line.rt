//! The segments of a format.

use crate::MessageFields;

/// A SEG with the number of its line, and its MFLDs.
#[derive(Debug, Drop)]
pub struct SegmentLine {
    pub number: u32,
    pub fields: MessageFields,
}
