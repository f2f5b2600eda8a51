//! Databases that several tables use.
ghost use Rattle.std.specs.Prelude.{◌≡◌, IfOk};

use std::alloc::Global;
use std::test::Fail;
use tm_types::{Dbd, Name, SegType, SegTypes};

pub(crate) fn segment(name: Name, parent: u8, key: u8, bytes: u16) -> SegType
    ensures { result ≡ record { name = name; parent = parent; key = key; bytes = bytes } }
{
    SegType {
        name,
        parent,
        key,
        bytes,
    }
}

// An account with moves of 12 bytes.
pub(crate) fn accounts(alloc: Global, roots: u16) -> Result<Dbd, Fail>
    ensures { IfOk result (λ dbd. dbd.roots ≡ roots) }
{
    let name = Name::read(b"ACC").ok_or("no name")?;
    let mut types = SegTypes::new(alloc);
    types.push(segment(name, 0, 4, 12))?;
    types.push(segment(name, 1, 4, 12))?;
    Ok(Dbd {
        name,
        roots,
        sectors: 1,
        types,
    })
}
