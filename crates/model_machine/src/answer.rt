//! Answers to an operator's commands.
use crate::ActiveRegions;
use tm_types::Name;

/// The answer to an operator's command: one variant for each text, with its names and numbers.
#[derive(Debug, Drop)]
pub enum Answer {
    /// This code or terminal is started.
    Started(Name),
    /// This code or terminal is stopped.
    Stopped(Name),
    /// A code as it stands.
    Transaction {
        code: Name,
        class: u8,
        /// The priority that counts now.
        priority: u8,
        /// The messages of the code that no region has.
        queued: u64,
        stopped: bool,
    },
    /// A terminal as it stands.
    Terminal {
        terminal: Name,
        /// The last input number.
        input: u64,
        /// The last output number.
        output: u64,
        /// How many replies are kept.
        kept: u64,
        stopped: bool,
    },
    /// What each region does.
    Active(ActiveRegions),
    /// The checkpoint of this number was taken.
    Checkpoint(u64),
    /// The checkpoint of this number was taken, and the system is down.
    Frozen(u64),
    /// No freeze, since this region works on a message.
    FreezeRefused {
        region: u32,
        id: u64,
    },
    /// So many replies were removed.
    Dequeued(u64),
    /// The conversation of this terminal ended.
    Exited(Name),
    /// This code has this class.
    AssignedClass(Name, u8),
    /// This code has this normal priority.
    AssignedPriority(Name, u8),
    /// The conversation doesn't end, since its message of this id is queued or worked on.
    ConversationBusy(u64),
    /// The terminal has no conversation.
    NoConversation,
    /// The system was opened again.
    Restarted,
    /// The system began from nothing.
    ColdStarted,
    /// The system is up already.
    Up,
    /// No code, or no terminal, has this name.
    UnknownName(Name),
    /// The text is no command, and breaks this rule.
    Bad(u8),
}
