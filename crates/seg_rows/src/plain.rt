//! The rows of a database, kept by the keys of their roots.
ghost use Rattle.std.specs.Prelude.{◌≡◌, [], IfOk, find, slice_get, not, is_some, nat_le, ◌&&◌};
ghost use Rattle.std.specs.Ordering.{is_lt};
ghost use Rattle.std.specs.Option.{option_copied, option_map};
ghost use Rattle.std.specs.BTreeMap.{keys, get_by, btree_map_len, IsOrdered};
ghost use Rattle.model_data.specs.Path.{key_cmp};

use crate::encode::record_limit;
use crate::{RecordImage, Rows, RowsRefused};
use std::alloc::Global;
use std::collections::BTreeMap;
use std::marker::Model;
use std::ops::Bound;
use tm_types::{Dbd, Key, Memory};

/// The rows of one database in memory.
#[derive(Debug, Drop)]
pub struct PlainRows {
    dbd: Dbd,
    records: BTreeMap<Key, RecordImage>,
}

impl Model for PlainRows {
    ghost use Rattle.model_data.specs.Rows.{Database, rows_of_records};
    ghost use Rattle.seg_rows.specs.PlainRows.{ArePlainRowsKept};

    ghost Value = { Database };

    ghost view = { λ p. record { dbd = p.dbd; rows = rows_of_records p.records.entries } };

    ghost invariant = { λ p. ArePlainRowsKept p.dbd p.records.entries };
}

impl PlainRows {
    /// No rows of this database.
    pub fn new(alloc: Global, dbd: &Dbd) -> Result<PlainRows, Memory>
        ensures database { IfOk result (λ p. p.dbd ≡ dbd.now) }
        ensures rows { IfOk result (λ p. p.rows ≡ []) }
    {
        let _types = dbd.types.as_slice();
        Ok(PlainRows {
            dbd: dbd.clone()?,
            records: BTreeMap::new(alloc),
        })
    }
}

impl Clone for PlainRows {
    ghost is_clone = { λ rows copy. copy ≡ rows };

    fn clone(&self) -> Result<PlainRows, Memory> {
        Ok(PlainRows {
            dbd: self.dbd.clone()?,
            records: self.records.clone()?,
        })
    }
}

impl Rows for PlainRows {
    ghost use Rattle.std.specs.Prelude.{true};
    ghost use Rattle.seg_rows.specs.PlainRows.{plain_none, plain_on, plain_same};

    ghost database = { λ p. p.dbd };

    ghost rows = { λ p. p.rows };

    ghost tells = { λ p. true };

    ghost faults = { λ p. 0 };

    ghost reads = { λ a b. b ≡ a };

    ghost read_none = { plain_none };

    ghost read_on = { plain_on };

    ghost read_same = { plain_same };

    fn record(&mut self, root: &Key) -> Result<Option<&RecordImage>, RowsRefused> {
        Ok(self.records.get(root))
    }

    fn next_root(&self, after: Option<&Key>) -> Option<Key> {
        match after {
            None => first_key(&self.records),
            Some(key) => key_after(&self.records, key),
        }
    }

    fn set(&mut self, root: &Key, image: RecordImage) -> Result<(), RowsRefused> {
        if image.is_empty() {
            self.records.remove(root);
            return Ok(());
        }
        if is_full(&self.records, root, self.dbd.roots) {
            return Err(RowsRefused::RootLimit);
        }
        if !image.fits(record_limit(&self.dbd)) {
            return Err(RowsRefused::RecordTooLong);
        }
        match self.records.insert(*root, image) {
            Ok(_) => Ok(()),
            Err(_) => Err(RowsRefused::Memory),
        }
    }
}

// Whether the root is not there, and no other one may come.
fn is_full(records: &BTreeMap<Key, RecordImage>, root: &Key, roots: u16) -> bool
    ensures value { result ≡ (not (is_some (get_by (key_cmp root.now) records.now)) && nat_le roots (btree_map_len records.now)) }
    ensures ordered { IsOrdered key_cmp records.now }
{
    let full = records.len() >= roots as usize;
    !records.contains_key(root) && full
}

fn first_key(records: &BTreeMap<Key, RecordImage>) -> Option<Key>
    ensures { result ≡ slice_get (keys records.now) 0 }
{
    match records.first_key_value() {
        Some((key, _)) => Some(*key),
        None => None,
    }
}

// The first key after this one.
fn key_after(records: &BTreeMap<Key, RecordImage>, key: &Key) -> Option<Key>
    ensures { result ≡ find (λ other. is_lt (key_cmp key.now other)) (keys records.now) }
{
    let mut later = records.range((Bound::Excluded(*key), Bound::Unbounded));
    match later.next() {
        Some((other, _)) => Some(*other),
        None => None,
    }
}
