//! What lasts but for the rows.
use conversation::Conversations;
use model_machine::{CodeSetting, TerminalState};
use msg_queues::Queues;
use out_queues::Outputs;
use std::marker::Model;

/// What lasts of a control region but for the rows of its databases.
#[derive(Debug, Drop)]
pub struct Kept {
    /// The messages, none of which a region has.
    pub queues: Queues,
    pub next_id: u64,
    /// The terminals, in the order of the definition.
    pub terminals: Vec<TerminalState>,
    /// The replies of each terminal.
    pub outputs: Outputs,
    /// The conversation of each terminal, if it has one.
    pub conversations: Conversations,
    /// The settings of the codes, in the order of the definition.
    pub codes: Vec<CodeSetting>,
    /// How many lasting steps were done.
    pub steps: u64,
}

impl Model for Kept {
    ghost use Rattle.image_records.specs.KeptState.{KeptState};

    ghost Value = { KeptState };

    ghost view = { λ k. record { queues = k.queues; next_id = k.next_id; terminals = k.terminals.items; outputs = k.outputs; conversations = k.conversations; codes = k.codes.items; steps = k.steps } };
}
