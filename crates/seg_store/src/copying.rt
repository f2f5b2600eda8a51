//! What a store keeps, once more, with room for as much as the store may need.
ghost use Rattle.std.specs.Prelude.{◌≡◌, ◌≤◌, IfOk};
ghost use Rattle.std.specs.Vec.{vec_capacity};

use seg_rows::RecordImage;
use std::alloc::Global;
use tm_types::Memory;

/// The same images.
pub fn copy_images(alloc: Global, images: &[RecordImage]) -> Result<Vec<RecordImage>, Memory>
    ensures { IfOk result (λ copy. copy.items ≡ images.now) }
{
    let mut copy = Vec::with_capacity(alloc, images.len())?;
    for image in images {
        copy.push(image.clone()?)?;
    }
    Ok(copy)
}

/// The same numbers, or the same index.
pub fn copy_list<T: Copy>(alloc: Global, list: &[T], roots: u16) -> Result<Vec<T>, Memory>
    ensures items { IfOk result (λ copy. copy.items ≡ list.now) }
    ensures room { IfOk result (λ copy. roots ≤ vec_capacity copy) }
{
    let mut copy = Vec::with_capacity(alloc, roots as usize)?;
    copy.extend_from_slice(list)?;
    Ok(copy)
}
