//! The rows of the databases, copied.
ghost use Rattle.std.specs.Prelude.{◌≡◌, ◌++◌, map, IfOk, OnOk};
ghost use Rattle.model_data.specs.Rows.{record_of};
ghost use Rattle.seg_store.specs.Slots.{rows_of_slots};

use model_data::Row;
use model_machine::DatabaseRows;
use seg_rows::Rows;
use seg_store::Store;
use std::alloc::Global;
use tm_types::{Key, Memory};

/// The rows of each database, copied from its store. `Memory` is the only refusal.
pub fn rows_of(alloc: Global, stores: &[Store]) -> Result<Vec<DatabaseRows>, Memory>
    ensures { IfOk result (λ rows. rows.items ≡ map (λ store. rows_of_slots store.slots) stores.now) }
{
    let mut rows = Vec::new(alloc);
    for store in stores {
        let copy = rows_in(alloc, store)?;
        rows.push(DatabaseRows::of(copy))?;
    }
    Ok(rows)
}

// The rows of one database, record by record.
fn rows_in(alloc: Global, store: &Store) -> Result<Vec<Row>, Memory>
    ensures { IfOk result (λ rows. rows.items ≡ rows_of_slots store.now.slots) }
{
    // This tells of what kinds the rows are.
    let _slot = store.image(0);
    let mut rows = Vec::new(alloc);
    let mut next = store.next_root(None);
    while let Some(root) = next {
        add_record(&mut rows, store, &root)?;
        next = store.next_root(Some(&root));
    }
    Ok(rows)
}

// Adds the rows of the record of this root.
fn add_record(rows: &mut Vec<Row>, store: &Store, root: &Key) -> Result<(), Memory>
    ensures { OnOk result (rows.new.items ≡ rows.old.items ++ record_of root.now (rows_of_slots store.now.slots)) }
{
    match store.find(root) {
        Some(image) => add_rows(rows, image.as_slice()),
        None => Ok(()),
    }
}

fn add_rows(rows: &mut Vec<Row>, more: &[Row]) -> Result<(), Memory>
    ensures { OnOk result (rows.new.items ≡ rows.old.items ++ more.now) }
{
    for row in more {
        rows.push(row.clone()?)?;
    }
    Ok(())
}
