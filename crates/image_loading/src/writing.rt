//! Slots are written.
ghost use Rattle.std.specs.Prelude.{◌≡◌, ◌+◌, ◌*◌, ◌<◌, ◌≤◌, IsTrue, IfOk, OnOk, OnErr, length};
ghost use Rattle.std.specs.List.{AllByRecursion};
ghost use Rattle.tm_disk.specs.Disk.{Stays, Within, Follows, WritesAtMost, FailedSince};
ghost use Rattle.seg_store.specs.DataSectors.{MayPut, HasPut, PutsFront, pieces_of};

use crate::Slots;
use seg_store::put_record;
use tm_disk::{Disk, DiskFault};
use tm_types::Dbd;

/// Writes slots of a database into their sectors, in their order, where slot 0 begins at the sector `first`; the answer
/// is how many they are. Nothing is synced. `Disk` comes exactly where the disk failed in the call.
#[tactic(auto, using(tm_disk::proofs::Words::stays_on))]
pub fn write_slots<D: Disk>(
    disk: &mut D,
    dbd: &Dbd,
    first: u32,
    given: &Slots,
) -> Result<u32, DiskFault>
    requires area { first + dbd.now.roots * dbd.now.sectors ≤ (D.state disk.old).size }
    requires within { AllByRecursion (λ s. s.0 < dbd.now.roots) given.now }
    ensures stays { Stays (D.state disk.old) (D.state disk.new) }
    // Whenever a crash comes, each sector is as it was or has its part of what its slot is given.
    ensures any_moment { Within (MayPut first (pieces_of dbd.now.sectors given.now)) (D.state disk.old) (D.state disk.new) }
    ensures follows { Follows (MayPut first (pieces_of dbd.now.sectors given.now)) (D.state disk.old) (D.state disk.new) }
    // Then each of them is read, and a sync makes it last.
    ensures shown { OnOk result (IsTrue (D.state disk.old).tells → HasPut first (pieces_of dbd.now.sectors given.now) (D.state disk.old).shown (D.state disk.new).shown) }
    // Where the disk fails, the sectors in front are written, and none behind: so they are written in ascending order.
    ensures ascending { OnErr result (IsTrue (D.state disk.old).tells → PutsFront first (pieces_of dbd.now.sectors given.now) (D.state disk.old).shown (D.state disk.new).shown) }
    ensures count { IfOk result (λ n. n ≡ length given.now) }
    ensures writes { WritesAtMost (length given.now * dbd.now.sectors) (D.state disk.old) (D.state disk.new) }
    ensures no_fault { OnOk result ((D.state disk.new).faults ≡ (D.state disk.old).faults) }
    ensures cause { OnErr result (FailedSince (D.state disk.old) (D.state disk.new)) }
{
    let _roots = dbd.roots;
    let slots = given.as_slice();
    for slot in slots {
        let at = first + u32::from(slot.0) * u32::from(dbd.sectors);
        if put_record(disk, at, dbd.sectors, slot.1.as_slice()).is_err() {
            return Err(DiskFault::Disk);
        }
    }
    Ok(slots.len() as u32)
}
