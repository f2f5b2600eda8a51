//! The parts of a control region.
ghost use Rattle.std.specs.Prelude.{◌≡◌, None, replicate, IfErr, IfOk};
ghost use Rattle.model_machine.specs.Machine.{empty_state, start_of, IsRegion};
ghost use Rattle.program_rows.specs.SlotsState.{slots_stores, touched_in};
ghost use Rattle.program_rows.specs.PlannedChanges.{AreThere};
ghost use Rattle.program_rows.specs.DatabasesState.{with_all_settled, with_marks};
ghost use Rattle.tm_machine.specs.SlotChanges.{slots_now, HasSlots};

use lasting_state::Tables;
use region_work::Busy;
use seg_store::Stores;
use std::alloc::Global;
use std::marker::Model;
use system_types::{Codes, System};
use tm_types::Memory;
use unit_work::Unit;

/// The state of a control region, as its calls change it.
#[derive(Debug, Drop)]
pub struct Parts {
    pub(crate) alloc: Global,
    pub(crate) system: System,
    /// Messages, replies and numbers.
    pub(crate) tables: Tables,
    /// The states of the codes, of which all but the flags lasts.
    pub(crate) codes: Codes,
    /// What each region works on; the first has number 1.
    pub(crate) regions: Vec<Option<Busy>>,
}

impl Model for Parts {
    ghost use Rattle.tm_machine.specs.Parts.{PartsState, AreParts};
    ghost use Rattle.tm_machine.specs.PartsView.{parts_moment};

    ghost Value = { PartsState };

    ghost view = { λ p. record { system = p.system; moment = parts_moment p; databases = p.tables.databases } };

    ghost invariant = { λ p. AreParts p.system p.tables p.codes p.regions.items };
}

impl Parts {
    /// The parts of an empty control region of this system. Where there is no memory, the system is handed back.
    pub fn new(alloc: Global, system: System) -> Result<Parts, System>
        ensures system { IfOk result (λ parts. parts.system ≡ system) }
        ensures moment { IfOk result (λ parts. parts.moment ≡ start_of system (empty_state system)) }
        ensures back { IfErr result (λ back. back ≡ system) }
    {
        let Ok(regions) = empty_regions(alloc, system.regions().len()) else {
            return Err(system);
        };
        let Ok(tables) = Tables::new(alloc, &system) else {
            return Err(system);
        };
        let Ok(codes) = Codes::of(alloc, &system) else {
            return Err(system);
        };
        Ok(Parts {
            alloc,
            tables,
            codes,
            regions,
            system,
        })
    }
}

impl Parts {
    /// The system that is served.
    pub fn system(&self) -> &System
        ensures { result.now ≡ self.now.system }
    {
        &self.system
    }

    /// The system that was served.
    pub fn into_system(self) -> System
        ensures { result ≡ self.system }
    {
        self.system
    }

    /// The stores of the databases, as they are, with the slots that were changed since they were written.
    pub fn stores(&self) -> &Stores
        ensures value { result.now ≡ slots_stores (slots_now self.now) }
        ensures has { HasSlots self.now }
    {
        self.tables.databases().stores()
    }

    /// What the work in a region has changed.
    pub fn unit(&self, region: u32) -> &Unit
        requires { IsRegion self.now.system region }
        ensures { result.now.slots ≡ touched_in region (slots_now self.now) }
    {
        self.tables.databases().unit(region)
    }

    /// No slot counts as changed any more: what stands in the sectors is the caller's.
    pub fn settle(&mut self)
        ensures { self.new ≡ record self.old { databases = with_all_settled self.old.databases } }
    {
        self.tables.databases_mut().settle();
    }

    /// The stores are these, which have the same slots; what counts as changed among them is told by them. This takes no memory.
    pub fn put_stores(&mut self, stores: Stores)
        requires same { stores.stores ≡ self.old.databases.stores }
        requires there { AreThere stores }
        ensures { self.new ≡ record self.old { databases = with_marks stores.changed self.old.databases } }
    {
        self.tables.databases_mut().put_stores(stores);
    }
}

/// So many regions, all empty.
fn empty_regions(alloc: Global, count: usize) -> Result<Vec<Option<Busy>>, Memory>
    ensures { IfOk result (λ regions. regions.items ≡ replicate count None) }
{
    let mut regions = Vec::with_capacity(alloc, count)?;
    for _place in 0..count {
        regions.push(None)?;
    }
    Ok(regions)
}
