//! What lasts of a control region, lent.
ghost use Rattle.std.specs.Prelude.{◌≡◌};
ghost use Rattle.model_messages.specs.Queue.{messages_of};
ghost use Rattle.tm_machine.specs.Parts.{flags_of, settings_of};

use crate::parts::Parts;
use conversation::Conversations;
use model_machine::TerminalState;
use model_system::CodeState;
use msg_queues::Queues;
use out_queues::Outputs;

impl Parts {
    /// The messages, each with the region that works on it.
    pub fn queues(&self) -> &Queues
        ensures { messages_of result.now.queued ≡ self.now.moment.lasting.messages }
    {
        self.tables.queues()
    }

    /// The id of the next message.
    pub fn next_id(&self) -> u64
        ensures { result ≡ self.now.moment.lasting.next_id }
    {
        self.tables.next_id()
    }

    /// The terminals, in the order of the definition.
    pub fn terminals(&self) -> &[TerminalState]
        ensures { result.now ≡ self.now.moment.lasting.terminals }
    {
        self.tables.terminals()
    }

    /// The replies of each terminal.
    pub fn outputs(&self) -> &Outputs
        ensures { result.now ≡ self.now.moment.lasting.outputs }
    {
        self.tables.outputs()
    }

    /// The conversation of each terminal, if it has one.
    pub fn conversations(&self) -> &Conversations
        ensures { result.now ≡ self.now.moment.lasting.conversations }
    {
        self.tables.conversations()
    }

    /// The states of the codes, in the order of the definition: what lasts of them, and their flags.
    pub fn codes(&self) -> &[CodeState]
        ensures settings { settings_of result.now ≡ self.now.moment.lasting.codes }
        ensures flags { flags_of result.now ≡ self.now.moment.raised }
    {
        self.codes.states()
    }
}
