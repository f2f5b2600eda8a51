//! Records with a row more, a row changed, or rows less.
ghost use Rattle.std.specs.Prelude.{◌≡◌, ◌≤◌, ◌++◌, length, filter, IfOk, OnOk};
ghost use Rattle.std.specs.Ordering.{is_lt, is_gt};
ghost use Rattle.model_data.specs.Path.{path_cmp};
ghost use Rattle.model_data.specs.ChangeCalls.{row_with, with_row, with_data, without_path};

use model_data::{Path, Row};
use row_search::is_within;
use seg_rows::RecordImage;
use std::alloc::Global;
use tm_types::{Bytes, Memory};

/// The rows with one more, at its place in hierarchic order.
pub fn with_row(alloc: Global, row: &Row, rows: &[Row]) -> Result<RecordImage, Memory>
    ensures { IfOk result (λ image. image ≡ with_row row.now rows.now) }
{
    let mut image = RecordImage::new(alloc);
    push_before(&mut image, &row.path, rows)?;
    image.push(row.clone()?)?;
    push_after(&mut image, &row.path, rows)?;
    Ok(image)
}

fn push_before(image: &mut RecordImage, path: &Path, rows: &[Row]) -> Result<(), Memory>
    ensures { OnOk result (image.new ≡ image.old ++ filter (λ row. is_gt (path_cmp path.now row.path)) rows.now) }
{
    for row in rows {
        if path.order(&row.path).is_gt() {
            image.push(row.clone()?)?;
        }
    }
    Ok(())
}

fn push_after(image: &mut RecordImage, path: &Path, rows: &[Row]) -> Result<(), Memory>
    ensures { OnOk result (image.new ≡ image.old ++ filter (λ row. is_lt (path_cmp path.now row.path)) rows.now) }
{
    for row in rows {
        if path.order(&row.path).is_lt() {
            image.push(row.clone()?)?;
        }
    }
    Ok(())
}

/// The rows with this data in place of that of one path.
pub fn with_data(
    alloc: Global,
    path: &Path,
    bytes: &Bytes,
    rows: &[Row],
) -> Result<RecordImage, Memory>
    ensures { IfOk result (λ image. image ≡ with_data path.now bytes.now rows.now) }
{
    let mut image = RecordImage::new(alloc);
    for row in rows {
        image.push(row_with(path, bytes, row)?)?;
    }
    Ok(image)
}

fn row_with(path: &Path, bytes: &Bytes, row: &Row) -> Result<Row, Memory>
    ensures { IfOk result (λ changed. changed ≡ row_with path.now bytes.now row.now) }
{
    if path == &row.path {
        return Ok(Row {
            path: row.path.clone()?,
            bytes: bytes.clone()?,
        });
    }
    row.clone()
}

/// The rows without this path and all that go on from it.
pub fn without(alloc: Global, path: &Path, rows: &[Row]) -> Result<RecordImage, Memory>
    ensures { IfOk result (λ image. image ≡ without_path path.now rows.now) }
{
    let mut image = RecordImage::new(alloc);
    for row in rows {
        if !is_within(path, &row.path) {
            image.push(row.clone()?)?;
        }
    }
    Ok(image)
}
