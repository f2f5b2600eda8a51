//! The segment that an ISRT names, and whether it may be inserted.
ghost use Rattle.std.specs.Prelude.{◌≡◌, ◌≤◌, ◌==◌, ◌&&◌, not, length, IfOk, IsSome};
ghost use Rattle.std.specs.Ordering.{is_eq};
ghost use Rattle.std.specs.Cmp.Lexicographic.{pointwise};
ghost use Rattle.tm_types.specs.SegTypes.{type_at};
ghost use Rattle.model_data.specs.Path.{root_of, parent_path, path_cmp};
ghost use Rattle.model_data.specs.Search.{number_named, pair_eq, is_row_there};
ghost use Rattle.model_data.specs.ChangeCalls.{key_bytes, asked_pair, insert_path, insert_row, insert_fault};
ghost use Rattle.model_data.specs.Conditions.{AreInsertSsas};
ghost use Rattle.dli_calls.specs.ChangeEdit.{AreTypesNamed};

use model_data::{Path, Row};
use row_search::{asked_number, data_length, fitted_bytes, fitted_key, number_named};
use std::alloc::Global;
use tm_types::{Key, KeyTest, Memory, SegTypes, Ssa, Status};

/// The bytes that give a segment's key: those of its argument, or else those of the data.
fn key_bytes<'a>(test: &'a KeyTest, area: &'a [u8]) -> &'a [u8]
    ensures { result.now ≡ key_bytes test.now area.now }
{
    match test {
        KeyTest::Any => area,
        KeyTest::Equal(bytes) => bytes.as_slice(),
        KeyTest::AtLeast(bytes) => bytes.as_slice(),
    }
}

/// The type number and the key that an argument gives.
fn asked_pair(types: &SegTypes, area: &[u8], ssa: &Ssa) -> (u8, Key)
    requires few { length types.now ≤ 255 }
    requires named { IsSome (type_at types.now (number_named types.now ssa.now.segment)) }
    ensures { result ≡ asked_pair types.now area.now ssa.now }
{
    let number = number_named(types, &ssa.segment);
    let Some(segment) = types.numbered(number) else {
        unreachable!()
    };
    (number, fitted_key(segment.key, key_bytes(&ssa.test, area)))
}

fn are_asked_pairs(types: &SegTypes, area: &[u8], ssas: &[Ssa], path: &[(u8, Key)]) -> bool
    requires few { length types.now ≤ 255 }
    requires named { AreTypesNamed types.now ssas.now }
    ensures { result ≡ pointwise pair_eq (insert_path types.now ssas.now area.now) path.now }
{
    if ssas.len() != path.len() {
        return false;
    }
    for (i, ssa) in ssas.iter().enumerate() {
        if asked_pair(types, area, ssa) != path[i] {
            return false;
        }
    }
    true
}

/// Whether the arguments of an ISRT name the segment of this path.
#[tactic(auto, using(crate::proofs::Asking::path_ties))]
fn leads_to(types: &SegTypes, area: &[u8], ssas: &[Ssa], path: &Path) -> bool
    requires few { length types.now ≤ 255 }
    requires named { AreTypesNamed types.now ssas.now }
    ensures { result ≡ is_eq (path_cmp (insert_path types.now ssas.now area.now) path.now) }
{
    are_asked_pairs(types, area, ssas, path.as_slice())
}

fn has_asked(types: &SegTypes, area: &[u8], ssas: &[Ssa], rows: &[Row]) -> bool
    requires few { length types.now ≤ 255 }
    requires named { AreTypesNamed types.now ssas.now }
    ensures { result ≡ is_row_there (insert_path types.now ssas.now area.now) rows.now }
{
    for row in rows {
        if leads_to(types, area, ssas, &row.path) {
            return true;
        }
    }
    false
}

fn lacks_parent(types: &SegTypes, area: &[u8], ssas: &[Ssa], seen: &[Row]) -> bool
    requires few { length types.now ≤ 255 }
    requires ssas { AreInsertSsas types.now 0 ssas.now }
    ensures { result ≡ (not (length (insert_path types.now ssas.now area.now) == 1) && not (is_row_there (parent_path (insert_path types.now ssas.now area.now)) seen.now)) }
{
    if ssas.len() == 1 {
        return false;
    }
    !has_asked(types, area, &ssas[..ssas.len() - 1], seen)
}

/// Why the segment isn't inserted that the arguments name, if it isn't: it isn't a root and its
/// parent isn't there, or it is there itself. The rows of its record say so. This takes no memory.
pub fn insert_fault(types: &SegTypes, area: &[u8], ssas: &[Ssa], seen: &[Row]) -> Option<Status>
    requires few { length types.now ≤ 255 }
    requires ssas { AreInsertSsas types.now 0 ssas.now }
    ensures { result ≡ insert_fault (insert_path types.now ssas.now area.now) seen.now }
{
    if lacks_parent(types, area, ssas, seen) {
        Some(Status::GE)
    } else if has_asked(types, area, ssas, seen) {
        Some(Status::II)
    } else {
        None
    }
}

/// The key of the root of the segment that the arguments name.
pub fn insert_root(types: &SegTypes, area: &[u8], ssas: &[Ssa]) -> Key
    requires few { length types.now ≤ 255 }
    requires ssas { AreInsertSsas types.now 0 ssas.now }
    ensures { result ≡ root_of (insert_path types.now ssas.now area.now) }
{
    let (_, root) = asked_pair(types, area, &ssas[0]);
    root
}

fn insert_path(alloc: Global, types: &SegTypes, area: &[u8], ssas: &[Ssa]) -> Result<Path, Memory>
    requires few { length types.now ≤ 255 }
    requires named { AreTypesNamed types.now ssas.now }
    ensures { IfOk result (λ path. path ≡ insert_path types.now ssas.now area.now) }
{
    let mut path = Path::new(alloc);
    for ssa in ssas {
        let (number, key) = asked_pair(types, area, ssa);
        path.push(number, key)?;
    }
    Ok(path)
}

/// The row that the arguments and the data give.
pub fn insert_row(alloc: Global, types: &SegTypes, area: &[u8], ssas: &[Ssa]) -> Result<Row, Memory>
    requires few { length types.now ≤ 255 }
    requires ssas { AreInsertSsas types.now 0 ssas.now }
    ensures { IfOk result (λ row. row ≡ insert_row types.now ssas.now area.now) }
{
    let path = insert_path(alloc, types, area, ssas)?;
    let length = data_length(types, asked_number(types, ssas));
    let bytes = fitted_bytes(alloc, length, area)?;
    Ok(Row { path, bytes })
}
