//! The store of a database is built from the records of its slots.
ghost use Rattle.std.specs.Prelude.{◌≡◌, ◌+◌, ◌*◌, ◌<◌, ◌^◌, [], IfOk, IfErr, OnOk, None, Some, length, if◌then◌else◌, slice_get};
ghost use Rattle.std.specs.List.{AllByRecursion};
ghost use Rattle.seg_store.specs.Slots.{AreSlots, IsSlot};
ghost use Rattle.image_loading.specs.LoadedStore.{IsStoreMade};
ghost use Rattle.image_loading.specs.SharedRoots.{shared_at, is_root_there, with_new, SharesRoot};

use crate::LoadFault;
use seg_rows::RecordImage;
use seg_store::Store;
use std::alloc::Global;
use tm_types::Dbd;

/// The store with these records in its slots. Where a later slot has the root of a record, the first sector of the first
/// such slot is told.
pub fn build(
    alloc: Global,
    dbd: &Dbd,
    first: u32,
    images: Vec<RecordImage>,
) -> Result<Store, LoadFault>
    requires count { length images.items ≡ dbd.now.roots }
    requires each { AllByRecursion (IsSlot dbd.now) images.items }
    requires fits { first + dbd.now.roots * dbd.now.sectors < 2 ^ 32 }
    ensures made { IfOk result (IsStoreMade dbd.now) }
    ensures slots { IfOk result (λ store. store.slots ≡ images.items) }
    ensures alone { OnOk result (shared_at dbd.now.sectors first images.items ≡ None) }
    ensures shared { IfErr result (SharesRoot dbd.now.sectors first images.items) }
{
    let _types = dbd.types.as_slice();
    let Ok(mut store) = Store::empty(alloc, dbd) else {
        return Err(LoadFault::Memory);
    };
    let mut images = images;
    let mut found = None;
    while let Some(image) = images.pop() {
        let number = images.len() as u16;
        let at = first + u32::from(number) * u32::from(dbd.sectors);
        found = add(at, number, image, &mut store, found);
    }
    match found {
        Some(at) => Err(LoadFault::Bad(22, at)),
        None => {
            store.settle();
            Ok(store)
        }
    }
}

// Puts an image into its slot, or tells the slot's first sector where its root is there; else what was found before is
// told.
fn add(
    at: u32,
    number: u16,
    image: RecordImage,
    store: &mut Store,
    found: Option<u32>,
) -> Option<u32>
    requires slot { IsSlot store.old.dbd image }
    requires free { slice_get store.old.slots number ≡ Some [] }
    requires valid { AreSlots store.old.dbd store.old.slots }
    ensures slots { store.new.slots ≡ with_new number image store.old.slots }
    ensures found { result ≡ (if is_root_there image store.old.slots then Some at else found) }
    ensures valid { AreSlots store.new.dbd store.new.slots }
    ensures database { store.new.dbd ≡ store.old.dbd }
{
    let Some(root) = image.root() else {
        return found;
    };
    if store.has_record(&root) {
        return Some(at);
    }
    store.put_back(number, image);
    found
}
