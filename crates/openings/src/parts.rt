//! What a life begins with.
use conversation::Conversations;
use model_machine::TerminalState;
use msg_queues::Queues;
use out_queues::Outputs;
use restart_data::RestartSector;
use seg_store::Stores;
use std::marker::Model;
use system_types::Codes;

/// What a life begins with.
#[derive(Debug, Drop)]
pub struct Parts {
    /// The messages, none of which a region has.
    pub queues: Queues,
    /// The replies that are kept.
    pub outputs: Outputs,
    /// The codes, in the order of the definition.
    pub codes: Codes,
    /// The terminals, in the order of the definition.
    pub terminals: Vec<TerminalState>,
    /// The conversation of each terminal, if it has one.
    pub conversations: Conversations,
    /// The databases.
    pub stores: Stores,
    /// The restart sector that was written.
    pub now: RestartSector,
    /// The id of the next message.
    pub next_id: u64,
    /// The number of the next unit of work.
    pub next_unit: u64,
    /// How many lasting steps were done.
    pub steps: u64,
}

impl Model for Parts {
    ghost use Rattle.openings.specs.OpeningParts.{OpeningParts};

    ghost Value = { OpeningParts };

    ghost view = { λ p. record { queues = p.queues; outputs = p.outputs; codes = p.codes; terminals = p.terminals.items; conversations = p.conversations; stores = p.stores; now = p.now; next_id = p.next_id; next_unit = p.next_unit; steps = p.steps } };
}
