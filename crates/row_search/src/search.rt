//! Looking for rows among those of a record.
ghost use Rattle.std.specs.Prelude.{◌≡◌, ◌&&◌, Some};
ghost use Rattle.std.specs.Option.{option_copied};
ghost use Rattle.model_data.specs.Search.{is_after, is_within, is_path_below, is_row_there, first_after, first_below};

use crate::asked::Asked;
use model_data::{Path, Row};

/// Whether a segment stands after a place; without a place each one does.
fn is_after(place: Option<&Path>, path: &Path) -> bool
    ensures { result ≡ is_after (option_copied place.entry) path.now }
{
    match place {
        None => true,
        Some(place) => place.order(path).is_lt(),
    }
}

/// Whether a path is this one, or goes on from it.
pub fn is_within(above: &Path, path: &Path) -> bool
    ensures { result ≡ is_within above.now path.now }
{
    path.as_slice().starts_with(above.as_slice())
}

fn is_below(above: &Path, path: &Path) -> bool
    ensures { result ≡ is_path_below above.now path.now }
{
    is_within(above, path) && above.len() < path.len()
}

fn is_next_below(place: Option<&Path>, parent: &Path, path: &Path) -> bool
    ensures { result ≡ (is_after (option_copied place.entry) path.now && is_after (Some parent.now) path.now && is_path_below parent.now path.now) }
{
    is_after(place, path) && is_after(Some(parent), path) && is_below(parent, path)
}

/// The first of these rows after the place that fits.
pub fn first_after<'a>(asked: &Asked, place: Option<&Path>, rows: &'a [Row]) -> Option<&'a Row>
    ensures { option_copied result ≡ first_after asked.now.dbd.types asked.now.ssas (option_copied place.entry) rows.now }
{
    for row in rows {
        if is_after(place, &row.path) && asked.fits(&row.path) {
            return Some(row);
        }
    }
    None
}

/// Whether one of these rows has this path.
pub fn has_path(path: &Path, rows: &[Row]) -> bool
    ensures { result ≡ is_row_there path.now rows.now }
{
    for row in rows {
        if path == &row.path {
            return true;
        }
    }
    false
}

/// The first of these rows after the place, below this parent, that fits.
pub fn first_below<'a>(
    asked: &Asked,
    place: Option<&Path>,
    parent: &Path,
    rows: &'a [Row],
) -> Option<&'a Row>
    ensures { option_copied result ≡ first_below asked.now.dbd.types asked.now.ssas (option_copied place.entry) parent.now rows.now }
{
    for row in rows {
        if is_next_below(place, parent, &row.path) && asked.fits(&row.path) {
            return Some(row);
        }
    }
    None
}
