//! What lasts, as a life goes on with it.
ghost use Rattle.std.specs.Prelude.{◌≡◌, [], length, map, replicate};
ghost use Rattle.model_messages.specs.Queue.{IsNewId};
ghost use Rattle.seg_store.specs.Stores.{no_changed};
ghost use Rattle.program_rows.specs.DatabasesState.{clean_region, committed_rows, dbds_of, rows_of_stores, AreRowsOf};
ghost use Rattle.program_rows.specs.SlotsState.{slots_state_of};

use crate::tables::Tables;
use conversation::Conversations;
use model_machine::TerminalState;
use msg_queues::Queues;
use out_queues::Outputs;
use seg_store::Stores;

impl Tables {
    /// All but what the regions hold and wait for is this now, and no region has changed anything. This takes no memory.
    pub fn open(
        &mut self,
        stores: Stores,
        queues: Queues,
        next_id: u64,
        terminals: Vec<TerminalState>,
        outputs: Outputs,
        conversations: Conversations,
        steps: u64,
    )
        requires written { stores.changed ≡ no_changed (map (λ s. s.dbd) stores.stores) }
        requires ids { IsNewId next_id queues.queued }
        ensures tables { self.new ≡ record { databases = self.new.databases; queues = queues; next_id = next_id; terminals = terminals.items; outputs = outputs; conversations = conversations; steps = steps } }
        ensures slots { slots_state_of self.new.databases ≡ record { stores = stores.stores; changed = stores.changed; committed = stores.stores; touched = replicate (length self.old.databases.regions) [] } }
        ensures regions { self.new.databases.regions ≡ replicate (length self.old.databases.regions) (clean_region (rows_of_stores stores.stores)) }
        ensures table { self.new.databases.table ≡ self.old.databases.table }
        ensures rows { AreRowsOf (dbds_of self.new.databases) (committed_rows self.new.databases) }
    {
        self.databases.open(stores);
        self.queues = queues;
        self.next_id = next_id;
        self.terminals = terminals;
        self.outputs = outputs;
        self.conversations = conversations;
        self.steps = steps;
    }
}
