//! A message in the queues.
use tm_types::Message;

/// A message in the queues.
#[derive(Debug, Drop)]
pub struct Queued {
    pub message: Message,
    /// The number of the region that has the message.
    pub holder: Option<u32>,
}
