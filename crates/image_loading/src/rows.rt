//! All rows of a store.
ghost use Rattle.std.specs.Prelude.{◌≡◌, [], IfOk, OnOk, get_or};
ghost use Rattle.seg_store.specs.Slots.{IsSlot, rows_of_slots, with_rows};
ghost use Rattle.image_loading.specs.LoadedStore.{IsStoreMade};

use seg_rows::{PlainRows, RecordImage, Rows};
use seg_store::Store;
use std::alloc::Global;
use tm_types::{Dbd, Memory};

/// All rows of a store of this database, copied.
pub fn all_rows(alloc: Global, dbd: &Dbd, store: &Store) -> Result<PlainRows, Memory>
    requires { IsStoreMade dbd.now store.now }
    ensures database { IfOk result (λ rows. rows.dbd ≡ dbd.now) }
    ensures rows { IfOk result (λ rows. rows.rows ≡ rows_of_slots store.now.slots) }
{
    let mut rows = PlainRows::new(alloc, dbd)?;
    let mut number = dbd.roots;
    while number > 0 {
        number -= 1;
        add_slot(&mut rows, store, number)?;
    }
    Ok(rows)
}

// Adds the record in a slot, if there is one.
fn add_slot(rows: &mut PlainRows, store: &Store, number: u16) -> Result<(), Memory>
    requires { rows.old.dbd ≡ store.now.dbd }
    ensures rows { OnOk result (rows.new.rows ≡ with_rows (get_or store.now.slots number []) rows.old.rows) }
    ensures database { rows.new.dbd ≡ rows.old.dbd }
{
    match store.image(number) {
        Some(image) => add_record(rows, image),
        None => Ok(()),
    }
}

fn add_record(rows: &mut PlainRows, image: &RecordImage) -> Result<(), Memory>
    requires { IsSlot rows.old.dbd image.now }
    ensures rows { OnOk result (rows.new.rows ≡ with_rows image.now rows.old.rows) }
    ensures database { rows.new.dbd ≡ rows.old.dbd }
{
    let Some(root) = image.root() else {
        return Ok(());
    };
    let copy = image.clone()?;
    if rows.set(&root, copy).is_err() {
        return Err(Memory);
    }
    Ok(())
}
