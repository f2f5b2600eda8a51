//! All databases are loaded.
ghost use Rattle.std.specs.Prelude.{◌≡◌, ◌+◌, ◌*◌, ◌≤◌, [], ◌∷◌, ◌++◌, List, None, Some, IsTrue, IfOk, OnOk, OnErr, IsErrOf, length};
ghost use Rattle.std.specs.List.{AllByRecursion};
ghost use Rattle.tm_types.specs.declared.dbd.Dbd.{Dbd as OneDatabase};
ghost use Rattle.tm_disk.specs.Disk.{Keeps};
ghost use Rattle.model_system.specs.Areas.{sectors_needed};
ghost use Rattle.model_image.specs.Slots.{SlotOnImage as ImageSlot, is_image, slot_fault};
ghost use Rattle.image_loading.specs.LoadedStore.{image_slots_in, LoadCause};
ghost use Rattle.image_loading.specs.Databases.{slots_of_databases, lowest_fault, AreImages};
ghost use Rattle.image_loading.specs.LoadedStores.{AreAllMade, AreSlotted, TellsLoaded, StopCause};

use crate::loading::load_store;
use crate::{LoadFault, Slots, data_first};
use seg_store::Store;
use std::alloc::Global;
use std::marker::Model;
use system_types::System;
use tm_disk::Disk;
use tm_types::Dbd;

/// The databases that were loaded.
#[derive(Debug, Drop)]
pub struct Loaded {
    /// The store of each.
    pub stores: Vec<Store>,
    /// The lowest rule that is broken so far, with its sector.
    pub broken: Option<(u8, u32)>,
}

impl Model for Loaded {
    ghost use Rattle.image_loading.specs.LoadedStores.{LoadedState};

    ghost Value = { LoadedState };

    ghost view = { λ l. record { stores = l.stores.items; broken = l.broken } };
}

// Why a database wasn't looked at.
#[derive(Clone, Copy, Debug, Drop, PartialEq, Eq)]
pub(crate) enum Stopped {
    Disk,
    Memory,
}

// Adds a database that was loaded.
fn push(loaded: &mut Loaded, store: Store) -> Result<(), Stopped>
    ensures stores { OnOk result (loaded.new.stores ≡ loaded.old.stores ++ store ∷ []) }
    ensures broken { loaded.new.broken ≡ loaded.old.broken }
    ensures no_disk { IsErrOf result Stopped.Disk → ⊥ }
{
    if loaded.stores.push(store).is_err() {
        return Err(Stopped::Memory);
    }
    Ok(())
}

// The lower rule of what is broken so far and of this one; of one rule the first.
fn lower(broken: Option<(u8, u32)>, rule: u8, sector: u32) -> (u8, u32)
    ensures { Some result ≡ lowest_fault broken (Some (rule, sector)) }
{
    match broken {
        None => (rule, sector),
        Some(before) => {
            if before.0 <= rule {
                before
            } else {
                (rule, sector)
            }
        }
    }
}

// What is broken so far.
fn broken_in(loaded: &Loaded) -> Option<(u8, u32)>
    ensures { result ≡ loaded.now.broken }
{
    loaded.broken
}

// A rule is broken in a sector, which counts if it is lower than what is broken so far.
fn breaks(loaded: &mut Loaded, rule: u8, sector: u32)
    ensures { loaded.new.broken ≡ lowest_fault loaded.old.broken (Some (rule, sector)) }
{
    loaded.broken = Some(lower(loaded.broken, rule, sector));
}

// Loads one database more. A rule that it breaks is kept, if it is lower than those before.
fn add<D: Disk>(
    alloc: Global,
    disk: &mut D,
    dbd: &Dbd,
    first: u32,
    given: &Slots,
    loaded: &mut Loaded,
) -> Result<(), Stopped>
    requires area { first + dbd.now.roots * dbd.now.sectors ≤ (D.state disk.old).size }
    requires few { dbd.now.sectors ≤ 8 }
    requires given { AllByRecursion (λ s. IsTrue (is_image dbd.now s.1)) given.now }
    ensures made { OnOk result ((dbds : List OneDatabase) → (loaded.old.broken ≡ None → AreAllMade dbds loaded.old.stores) → loaded.new.broken ≡ None → AreAllMade (dbds ++ dbd.now ∷ []) loaded.new.stores) }
    ensures value { OnOk result (IsTrue (D.state disk.old).tells → (databases : List (List ImageSlot)) → loaded.old.broken ≡ slot_fault databases → loaded.new.broken ≡ slot_fault (databases ++ image_slots_in (D.state disk.old).shown dbd.now first given.now ∷ [])) }
    ensures slotted { OnOk result (IsTrue (D.state disk.old).tells → (databases : List (List ImageSlot)) → (loaded.old.broken ≡ None → AreSlotted databases loaded.old.stores) → loaded.new.broken ≡ None → AreSlotted (databases ++ image_slots_in (D.state disk.old).shown dbd.now first given.now ∷ []) loaded.new.stores) }
    ensures keeps { Keeps (D.state disk.old) (D.state disk.new) }
    ensures cause { StopCause result (D.state disk.old) (D.state disk.new) }
{
    match load_store(alloc, disk, dbd, first, given) {
        Ok(store) => push(loaded, store),
        Err(LoadFault::Bad(rule, sector)) => {
            breaks(loaded, rule, sector);
            Ok(())
        }
        Err(LoadFault::Disk) => Err(Stopped::Disk),
        Err(LoadFault::Memory) => Err(Stopped::Memory),
    }
}

/// Loads all databases of the system. The slots that are given, of each database in its order, are taken from there, and
/// their sectors aren't looked at. The lowest rule goes over all databases, so each is loaded. Nothing is written.
pub fn load_all<D: Disk>(
    alloc: Global,
    disk: &mut D,
    system: &System,
    given: &[Slots],
) -> Result<Loaded, LoadFault>
    requires areas { sectors_needed system.now ≤ (D.state disk.old).size }
    requires count { length given.now ≡ length system.now.databases }
    requires images { AreImages system.now given.now }
    ensures made { IfOk result (λ loaded. AreAllMade system.now.databases loaded.stores) }
    ensures value { IsTrue (D.state disk.old).tells → TellsLoaded result (slots_of_databases system.now (D.state disk.old).shown given.now 0 system.now.databases) }
    ensures keeps { Keeps (D.state disk.old) (D.state disk.new) }
    ensures cause { LoadCause result (D.state disk.old) (D.state disk.new) }
{
    let mut loaded = Loaded {
        stores: Vec::new(alloc),
        broken: None,
    };
    let databases = system.databases();
    let mut first = data_first(system);
    for place in 0..databases.len() {
        let dbd = &databases[place];
        match add(alloc, disk, dbd, first, &given[place], &mut loaded) {
            Ok(()) => {}
            Err(Stopped::Disk) => return Err(LoadFault::Disk),
            Err(Stopped::Memory) => return Err(LoadFault::Memory),
        }
        first += u32::from(dbd.roots) * u32::from(dbd.sectors);
    }
    match broken_in(&loaded) {
        Some(broken) => Err(LoadFault::Bad(broken.0, broken.1)),
        None => Ok(loaded),
    }
}
