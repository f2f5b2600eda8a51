//! What lasts of the machine.
ghost use Rattle.std.specs.Prelude.{◌≡◌, []};

use model_data::Row;
use model_messages::{TerminalConversation, TerminalReplies};
use std::alloc::Global;
use std::marker::Model;
use tm_types::{Message, Name};

/// What lasts of a terminal, apart from its replies.
#[derive(Debug, Drop)]
pub struct TerminalState {
    pub name: Name,
    /// The number of the last input that was accepted, 0 before the first.
    pub last: u64,
    /// Whether it takes no input and shows no output.
    pub stopped: bool,
}

/// What lasts of a transaction code.
#[derive(Clone, Copy, Debug)]
pub struct CodeSetting {
    pub code: Name,
    /// Whether its messages are not scheduled.
    pub stopped: bool,
    pub class: u8,
    /// The normal priority.
    pub priority: u8,
}

/// The rows of a database, in hierarchic order; seen as a list.
#[derive(Debug, Drop)]
pub struct DatabaseRows {
    rows: Vec<Row>,
}

impl Model for DatabaseRows {
    ghost use Rattle.std.specs.Prelude.{List};
    ghost use Rattle.model_data.specs.declared.row.Row.{Row};

    ghost Value = { List Row };

    ghost view = { λ d. d.rows.items };
}

impl DatabaseRows {
    /// No rows. This takes no memory.
    pub fn new(alloc: Global) -> DatabaseRows
        ensures { result ≡ [] }
    {
        DatabaseRows {
            rows: Vec::new(alloc),
        }
    }

    /// These rows, in hierarchic order.
    pub fn of(rows: Vec<Row>) -> DatabaseRows
        ensures { result ≡ rows.items }
    {
        DatabaseRows { rows }
    }

    /// The rows, in hierarchic order.
    pub fn as_slice(&self) -> &[Row]
        ensures { result.now ≡ self.now }
    {
        &self.rows
    }
}

/// What lasts of the machine: a restart begins with it.
#[derive(Debug, Drop)]
pub struct Lasting {
    /// The rows of each database.
    pub rows: Vec<DatabaseRows>,
    /// The messages that are not completed, in the order of their ids.
    pub messages: Vec<Message>,
    pub next_id: u64,
    pub terminals: Vec<TerminalState>,
    /// The replies that are kept.
    pub outputs: Vec<TerminalReplies>,
    /// The conversation of each terminal, if it has one.
    pub conversations: Vec<TerminalConversation>,
    /// The transaction codes, in the order of the definition.
    pub codes: Vec<CodeSetting>,
    /// How many lasting steps were done.
    pub steps: u64,
}

impl Model for Lasting {
    ghost use Rattle.model_machine.specs.Machine.{LastingState};

    ghost Value = { LastingState };

    ghost view = { λ l. record { rows = l.rows.items; messages = l.messages.items; next_id = l.next_id; terminals = l.terminals.items; outputs = l.outputs.items; conversations = l.conversations.items; codes = l.codes.items; steps = l.steps } };
}
