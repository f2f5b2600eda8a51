//! What a call needs before it is made.
ghost use Rattle.std.specs.Prelude.{◌≡◌, ◌≢◌, ◌≤◌, [], ◌++◌, ℕ, List, length, IfOk, IfErr, IfSome, OnOk, is_some};
ghost use Rattle.std.specs.Option.{option_copied, option_map_or};
ghost use Rattle.model_data.specs.Path.{IsPath};
ghost use Rattle.model_data.specs.Rows.{record_of, roots, AreRows};
ghost use Rattle.model_data.specs.Search.{first_after};
ghost use Rattle.model_data.specs.ChangeCalls.{insert_path};
ghost use Rattle.model_data.specs.Conditions.{AreInsertSsas, IsDbCall, IsPosition};
ghost use Rattle.model_data.specs.declared.row.Row.{Row};
ghost use Rattle.model_data.specs.Footprint.{along, onward, search_needs, parent_needs, insert_needs, replace_needs, delete_needs, allowed_needs, footprint};
ghost use Rattle.seg_rows.specs.RowsRefused.{RefusesToRead};
ghost use Rattle.dli_calls.specs.NamedRecords.{keys_behind, rows_of_roots, OthersStay};
ghost use Rattle.dli_calls.specs.OwnRecord.{LooksAtOne};

use crate::calls::is_allowed;
use crate::change::keeps_key;
use crate::inserting::insert_root;
use crate::need_list::{Needs, record_need, sequence_need};
use model_data::{DbCall, Path, Position, Row};
use row_search::{Asked, asked_root, first_after};
use seg_rows::{Rows, RowsRefused};
use std::alloc::Global;
use tm_types::{Dbd, Function, Key, Memory, Mode};

/// What a call needs before it is made on the rows of a database, by a PCB that stands at `position`, in
/// the order in which it asks: the records that it looks at or changes, and where it looks for a root, or
/// adds or removes one, the sequence of the roots. It is told of the rows as they were read.
///
/// Gets share what they need, but with hold have their records alone; ISRT, REPL and DLET have all alone.
/// A call that the PCB's options don't allow needs nothing.
///
/// A refusal is `Memory`, or that of a record that GU or GN, with hold or without, looks at: `Disk`, only
/// where a device failed, or `Damaged`, never where what is kept elsewhere is told as it was written.
pub fn needs<R: Rows>(
    alloc: Global,
    dbd: &Dbd,
    call: &DbCall,
    position: &Position,
    rows: &mut R,
) -> Result<Needs, RowsRefused>
    requires types { length dbd.now.types ≤ 255 }
    requires rows { R.database rows.old ≡ dbd.now }
    requires call { IsDbCall dbd.now.types call.now }
    requires position { IsPosition dbd.now.types position.now }
    ensures needs { IfOk result (λ needs. needs ≡ footprint dbd.now call.now position.now (R.rows rows.new)) }
    ensures read { R.reads rows.old rows.new }
    ensures refused { IfErr result (RefusesToRead (R.tells rows.old) (R.faults rows.old) (R.faults rows.new)) }
{
    if !is_allowed(call.function, call.options) {
        return Ok(Needs::new(alloc));
    }
    let at = position.position.as_ref();
    match call.function {
        Function::GU => search_needs(alloc, Mode::Shared, dbd, call, None, rows),
        Function::GN => search_needs(alloc, Mode::Shared, dbd, call, at, rows),
        Function::GHU => search_needs(alloc, Mode::Exclusive, dbd, call, None, rows),
        Function::GHN => search_needs(alloc, Mode::Exclusive, dbd, call, at, rows),
        Function::GNP | Function::GHNP => Ok(own_needs(alloc, dbd, call, position)?),
        Function::ISRT | Function::REPL => Ok(own_needs(alloc, dbd, call, position)?),
        Function::DLET => Ok(own_needs(alloc, dbd, call, position)?),
        Function::PURG | Function::CHNG | Function::ROLB | Function::ROLL => unreachable!(),
    }
}

/// What an allowed call needs that looks at one record at most, whatever the rows are.
pub fn own_needs(
    alloc: Global,
    dbd: &Dbd,
    call: &DbCall,
    position: &Position,
) -> Result<Needs, Memory>
    requires types { length dbd.now.types ≤ 255 }
    requires one { LooksAtOne call.now.function }
    requires call { IsDbCall dbd.now.types call.now }
    requires position { IsPosition dbd.now.types position.now }
    ensures { (rows : List Row) → IfOk result (λ needs. needs ≡ allowed_needs call.now.function dbd.now call.now position.now rows) }
{
    match call.function {
        Function::GNP => parent_needs(alloc, Mode::Shared, dbd, position),
        Function::GHNP => parent_needs(alloc, Mode::Exclusive, dbd, position),
        Function::ISRT => insert_needs(alloc, dbd, call),
        Function::REPL => replace_needs(alloc, dbd, call, position),
        Function::DLET => delete_needs(alloc, dbd, position),
        Function::GU | Function::GN | Function::GHU | Function::GHN => unreachable!(),
        Function::PURG | Function::CHNG | Function::ROLB | Function::ROLL => unreachable!(),
    }
}

/// GU and GN: the one record for whose root the first argument asks, or what a search needs.
fn search_needs<R: Rows>(
    alloc: Global,
    mode: Mode,
    dbd: &Dbd,
    call: &DbCall,
    place: Option<&Path>,
    rows: &mut R,
) -> Result<Needs, RowsRefused>
    requires types { length dbd.now.types ≤ 255 }
    requires rows { R.database rows.old ≡ dbd.now }
    requires place { IfSome (option_copied place) (IsPath dbd.now.types) }
    ensures needs { IfOk result (λ needs. needs ≡ search_needs mode dbd.now call.now (option_copied place.entry) (R.rows rows.new)) }
    ensures read { R.reads rows.old rows.new }
    ensures refused { IfErr result (RefusesToRead (R.tells rows.old) (R.faults rows.old) (R.faults rows.new)) }
{
    let mut needs = Needs::new(alloc);
    needed_row(mode, dbd, call, place, rows, &mut needs)?;
    Ok(needs)
}

/// The row that GU and GN find after a place, and what they need to find it: the one record for whose
/// root the first argument asks, or what a search needs.
pub fn needed_row<R: Rows>(
    mode: Mode,
    dbd: &Dbd,
    call: &DbCall,
    place: Option<&Path>,
    rows: &mut R,
    needs: &mut Needs,
) -> Result<Option<Row>, RowsRefused>
    requires types { length dbd.now.types ≤ 255 }
    requires rows { R.database rows.old ≡ dbd.now }
    requires place { IfSome (option_copied place) (IsPath dbd.now.types) }
    requires empty { needs.old ≡ [] }
    ensures needs { OnOk result (needs.new ≡ search_needs mode dbd.now call.now (option_copied place.entry) (R.rows rows.new)) }
    ensures found { IfOk result (λ row. row ≡ first_after dbd.now.types call.now.ssas (option_copied place.entry) (R.rows rows.new)) }
    ensures valid { OnOk result (AreRows dbd.now (R.rows rows.new)) }
    ensures read { R.reads rows.old rows.new }
    ensures refused { IfErr result (RefusesToRead (R.tells rows.old) (R.faults rows.old) (R.faults rows.new)) }
{
    let ssas = call.ssas.as_slice();
    let asked = Asked::of(dbd, ssas);
    match asked_root(&dbd.types, ssas) {
        Some(root) => {
            needs.push(record_need(mode, root))?;
            read_row(&asked, place, &root, rows)
        }
        None => onward(mode, &asked, place, rows, needs),
    }
}

/// A search: the record of the place, and where that doesn't have the row, those behind it.
fn onward<R: Rows>(
    mode: Mode,
    asked: &Asked,
    place: Option<&Path>,
    rows: &mut R,
    needs: &mut Needs,
) -> Result<Option<Row>, RowsRefused>
    requires rows { R.database rows.old ≡ asked.now.dbd }
    requires place { IfSome (option_copied place) (IsPath asked.now.dbd.types) }
    requires empty { needs.old ≡ [] }
    ensures needs { OnOk result (needs.new ≡ onward mode (option_copied place.entry) (first_after asked.now.dbd.types asked.now.ssas (option_copied place.entry) (R.rows rows.new)) (roots (R.rows rows.new))) }
    ensures found { IfOk result (λ row. row ≡ first_after asked.now.dbd.types asked.now.ssas (option_copied place.entry) (R.rows rows.new)) }
    ensures valid { OnOk result (AreRows asked.now.dbd (R.rows rows.new)) }
    ensures read { R.reads rows.old rows.new }
    ensures refused { IfErr result (RefusesToRead (R.tells rows.old) (R.faults rows.old) (R.faults rows.new)) }
{
    let Some(path) = place else {
        return along(mode, asked, place, None, rows, needs);
    };
    let Some(root) = path.root() else {
        unreachable!()
    };
    needs.push(record_need(mode, root))?;
    match read_row(asked, place, &root, rows)? {
        Some(row) => Ok(Some(row)),
        None => along(mode, asked, place, Some(&root), rows, needs),
    }
}

/// The first row after the place that fits, among the records behind a root, or from the first; adds the
/// sequence, and those records up to the one that has the row. The record of that root stays.
fn along<R: Rows>(
    mode: Mode,
    asked: &Asked,
    place: Option<&Path>,
    after: Option<&Key>,
    rows: &mut R,
    needs: &mut Needs,
) -> Result<Option<Row>, RowsRefused>
    requires { R.database rows.old ≡ asked.now.dbd }
    ensures named { OnOk result (needs.new ≡ needs.old ++ along mode (first_after asked.now.dbd.types asked.now.ssas (option_copied place.entry) (rows_of_roots (keys_behind (option_copied after.entry) (roots (R.rows rows.new))) (R.rows rows.new))) (keys_behind (option_copied after.entry) (roots (R.rows rows.new)))) }
    ensures found { IfOk result (λ row. row ≡ first_after asked.now.dbd.types asked.now.ssas (option_copied place.entry) (rows_of_roots (keys_behind (option_copied after.entry) (roots (R.rows rows.new))) (R.rows rows.new))) }
    ensures stays { OnOk result (IfSome (option_copied after.entry) (λ root. record_of root (R.rows rows.new) ≡ record_of root (R.rows rows.old))) }
    ensures valid { OnOk result (AreRows asked.now.dbd (R.rows rows.new)) }
    ensures read { R.reads rows.old rows.new }
    ensures refused { IfErr result (RefusesToRead (R.tells rows.old) (R.faults rows.old) (R.faults rows.new)) }
{
    needs.push(sequence_need(Mode::Shared))?;
    let mut next = rows.next_root(after);
    while let Some(root) = next {
        needs.push(record_need(mode, root))?;
        if let Some(row) = read_row(asked, place, &root, rows)? {
            return Ok(Some(row));
        }
        next = rows.next_root(Some(&root));
    }
    Ok(None)
}

/// The first row of the record of this root after the place that fits. All other records stay.
fn read_row<R: Rows>(
    asked: &Asked,
    place: Option<&Path>,
    root: &Key,
    rows: &mut R,
) -> Result<Option<Row>, RowsRefused>
    ensures found { IfOk result (λ row. row ≡ first_after asked.now.dbd.types asked.now.ssas (option_copied place.entry) (record_of root.now (R.rows rows.new))) }
    ensures others { OthersStay root.now (R.rows rows.old) (R.rows rows.new) }
    ensures valid { OnOk result (AreRows (R.database rows.new) (R.rows rows.new)) }
    ensures read { R.reads rows.old rows.new }
    ensures refused { IfErr result (RefusesToRead (R.tells rows.old) (R.faults rows.old) (R.faults rows.new)) }
{
    match rows.record(root)? {
        Some(image) => Ok(copied_row(first_after(asked, place, image.as_slice()))?),
        None => Ok(None),
    }
}

fn copied_row(row: Option<&Row>) -> Result<Option<Row>, Memory>
    ensures { IfOk result (λ copy. copy ≡ option_copied row.entry) }
{
    match row {
        Some(row) => Ok(Some(row.clone()?)),
        None => Ok(None),
    }
}

/// GNP: the record of the parentage.
fn parent_needs(alloc: Global, mode: Mode, dbd: &Dbd, at: &Position) -> Result<Needs, Memory>
    requires { IsPosition dbd.now.types at.now }
    ensures { IfOk result (λ needs. needs ≡ parent_needs mode at.now) }
{
    let Some(parent) = &at.parentage else {
        return Ok(Needs::new(alloc));
    };
    let Some(root) = parent.root() else {
        unreachable!()
    };
    Needs::of(alloc, &[record_need(mode, root)])
}

/// ISRT: the record of the new segment; before it, where that is a root, the sequence.
fn insert_needs(alloc: Global, dbd: &Dbd, call: &DbCall) -> Result<Needs, Memory>
    requires types { length dbd.now.types ≤ 255 }
    requires ssas { AreInsertSsas dbd.now.types 0 call.now.ssas }
    ensures { IfOk result (λ needs. needs ≡ insert_needs (insert_path dbd.now.types call.now.ssas call.now.area)) }
{
    let ssas = call.ssas.as_slice();
    let root = insert_root(&dbd.types, call.area.as_slice(), ssas);
    let record = record_need(Mode::Exclusive, root);
    if ssas.len() == 1 {
        Needs::of(alloc, &[sequence_need(Mode::Exclusive), record])
    } else {
        Needs::of(alloc, &[record])
    }
}

/// REPL: the record of the segment that was got with hold, unless the data has another key.
fn replace_needs(alloc: Global, dbd: &Dbd, call: &DbCall, at: &Position) -> Result<Needs, Memory>
    requires { IsPosition dbd.now.types at.now }
    ensures { IfOk result (λ needs. needs ≡ option_map_or (replace_needs dbd.now.types call.now.area) at.now.hold []) }
{
    let Some(held) = &at.hold else {
        return Ok(Needs::new(alloc));
    };
    if !keeps_key(&dbd.types, held, call.area.as_slice()) {
        return Ok(Needs::new(alloc));
    }
    let Some(root) = held.root() else {
        unreachable!()
    };
    Needs::of(alloc, &[record_need(Mode::Exclusive, root)])
}

/// DLET: the record of the segment that was got with hold; behind it, where that is a root, the
/// sequence.
fn delete_needs(alloc: Global, dbd: &Dbd, at: &Position) -> Result<Needs, Memory>
    requires { IsPosition dbd.now.types at.now }
    ensures { IfOk result (λ needs. needs ≡ option_map_or delete_needs at.now.hold []) }
{
    let Some(held) = &at.hold else {
        return Ok(Needs::new(alloc));
    };
    let Some(root) = held.root() else {
        unreachable!()
    };
    let record = record_need(Mode::Exclusive, root);
    if held.len() == 1 {
        Needs::of(alloc, &[record, sequence_need(Mode::Exclusive)])
    } else {
        Needs::of(alloc, &[record])
    }
}
