//! What an operator is shown is looked up here.
ghost use Rattle.std.specs.Prelude.{◌≡◌, ◌<◌, Some, length, slice_get};
ghost use Rattle.std.specs.Option.{option_copied, option_map};
ghost use Rattle.conversation.specs.Refusals.{conversation_answer as conversation_answer};
ghost use Rattle.model_messages.specs.ConversationInput.{busy_id};
ghost use Rattle.model_messages.specs.Terminals.{conversation_at};
ghost use Rattle.model_data.specs.Table.{wait_of, waits_by};
ghost use Rattle.model_machine.specs.CommandAnswers.{state_now};
ghost use Rattle.model_machine.specs.Machine.{IsRegion, moment_with, output_at, slot_at, terminal_at, waiting_now};
ghost use Rattle.tm_machine.specs.RegionMessage.{region_message};
ghost use Rattle.tm_machine.specs.Parts.{work_slot};

use crate::parts::Parts;
use conversation::Busy;
use model_machine::TerminalState;
use model_messages::TerminalReplies;
use model_system::CodeState;
use region_work::Busy as BusyRegion;
use tm_types::{Name, Resource};

impl Parts {
    /// The state of a code now, or None exactly where it isn't one.
    pub fn code_state(&self, code: &Name) -> Option<&CodeState>
        ensures { option_copied result ≡ state_now self.now.system self.now.moment code.now }
    {
        let Some(place) = self.system.code_place(code) else {
            return None;
        };
        Some(state_at(self.codes.states(), place))
    }

    /// How many messages of a code no region has.
    pub fn waiting(&self, code: &Name) -> u64
        ensures { result ≡ waiting_now self.now.moment.lasting self.now.moment.slots code.now }
    {
        self.tables.queues().waiting(code)
    }

    /// What lasts of a terminal, or None exactly where it isn't one.
    pub fn terminal_state(&self, terminal: &Name) -> Option<&TerminalState>
        ensures { option_copied result ≡ terminal_at self.now.moment.lasting.terminals terminal.now }
    {
        let Some(place) = self.system.terminal_place(terminal) else {
            return None;
        };
        Some(self.tables.terminal(place))
    }

    /// A terminal with its replies, or None exactly where it isn't one.
    pub fn replies(&self, terminal: &Name) -> Option<&TerminalReplies>
        ensures { option_copied result ≡ output_at self.now.moment.lasting.outputs terminal.now }
    {
        self.tables.outputs().terminal(terminal)
    }

    /// The code of the terminal's conversation, if it has one; or the message of it that is queued or worked on.
    pub fn conversation(&self, terminal: &Name) -> Result<Option<Name>, Busy>
        ensures { result ≡ conversation_answer (conversation_at terminal.now self.now.moment.lasting.conversations) (busy_id terminal.now self.now.moment.lasting.messages) }
    {
        self.tables
            .conversations()
            .input(terminal, self.tables.queues())
    }

    /// How many regions there are.
    pub fn region_count(&self) -> u32
        ensures slots { result ≡ length self.now.moment.slots }
        ensures regions { result ≡ length self.now.system.regions }
        ensures stays { moment_with self.now.system self.now.moment.lasting self.now.moment.slots self.now.moment.enqueues self.now.moment.raised ≡ self.now.moment }
    {
        self.regions.len() as u32
    }

    /// The code and the id of the message that a region works on, if it does.
    pub fn work(&self, region: u32) -> Option<(Name, u64)>
        requires { IsRegion self.now.system region }
        ensures { result ≡ region_message (slot_at self.now.moment region) }
    {
        message_in(&self.regions[(region - 1) as usize])
    }

    /// What a region waits for, if it does.
    pub fn waits(&self, region: u32) -> Option<Resource>
        ensures { result ≡ option_map (λ request. request.resource) (wait_of region self.now.moment.enqueues) }
    {
        self.tables.databases().table().waits(region)
    }

    /// The region that blocks what this one waits for; None exactly where it waits for nothing, or nothing blocks it.
    pub fn waits_by(&self, region: u32) -> Option<u32>
        ensures { result ≡ waits_by region self.now.moment.enqueues }
    {
        self.tables.databases().table().by(region)
    }
}

fn state_at(states: &[CodeState], place: usize) -> &CodeState
    requires { place < length states.now }
    ensures { slice_get states.now place ≡ Some result.now }
{
    &states[place]
}

fn message_in(busy: &Option<BusyRegion>) -> Option<(Name, u64)>
    ensures { result ≡ region_message (work_slot busy.now) }
{
    match busy {
        Some(busy) => Some((busy.code, busy.id)),
        None => None,
    }
}
