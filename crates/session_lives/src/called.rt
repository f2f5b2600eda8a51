//! How a call, a block and an opening went.

use model_session::ImageRefused;

/// Why a block was not served.
#[derive(Clone, Copy, Debug)]
pub enum Undone {
    /// There was no memory.
    Memory,
    /// A counter is spent.
    Spent,
    /// The disk can't be opened, and no life has begun.
    Image(ImageRefused),
}

/// How a block was served.
#[derive(Clone, Copy, Debug)]
pub enum Served {
    /// Its text is the one that was printed.
    Printed,
    /// The disk failed.
    Broke,
    /// It was not served.
    Undone(Undone),
}

/// How an opening went.
#[derive(Clone, Copy, Debug)]
pub enum Opening {
    /// A life has begun.
    Opened,
    /// The disk failed.
    Broke,
    /// The disk can't be opened.
    Refused(ImageRefused),
    /// There was no memory.
    Memory,
    /// A counter is spent.
    Spent,
}

/// How what a block asks for went, while the system is up.
#[derive(Clone, Copy, Debug)]
pub enum Called {
    /// It was answered.
    Answered,
    /// It was a freeze that was answered, which ends the life.
    Frozen,
    /// Power failed, with this pick.
    Power(u64),
    /// The disk failed.
    Broke,
    /// There was no memory.
    Memory,
    /// A counter is spent.
    Spent,
}

/// How the end of a source went.
#[derive(Clone, Copy, Debug)]
pub enum Ending {
    /// All lasting steps are forced, or the system was down.
    Forced,
    /// The disk failed.
    Broke,
}
