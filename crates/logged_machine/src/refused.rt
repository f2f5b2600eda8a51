//! A refused opening.

use openings::OpenError;
use system_types::System;
use tm_disk::Disk;
use tm_types::Bytes;

/// An opening was refused. All that was given is handed back.
#[derive(Drop)]
pub struct OpenRefused<D: Disk> {
    pub error: OpenError,
    pub disk: D,
    pub system: System,
    pub text: Bytes,
}
