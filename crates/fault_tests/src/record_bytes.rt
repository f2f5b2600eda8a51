//! `seg_rows`: worked records, which are read and spelled again as they were.
use crate::databases::segment;
use seg_rows::{DecodeFault, decode_record, encode_record};
use std::alloc::Global;
use std::test::Fail;
use tm_types::{Dbd, Name, SegTypes};

// An account with moves of 12 bytes, parts of 4 bytes below them, and notes of 3 bytes.
fn accounts(alloc: Global, roots: u16) -> Result<Dbd, Fail> {
    let name = Name::read(b"ACC").ok_or("no name")?;
    let mut types = SegTypes::new(alloc);
    types.push(segment(name, 0, 4, 12))?;
    types.push(segment(name, 1, 4, 12))?;
    types.push(segment(name, 2, 2, 4))?;
    types.push(segment(name, 1, 1, 3))?;
    Ok(Dbd {
        name,
        roots,
        sectors: 1,
        types,
    })
}

fn refused_at(alloc: Global, dbd: &Dbd, bytes: &[u8]) -> Option<usize> {
    match decode_record(alloc, dbd, bytes) {
        Err(DecodeFault::Bad(21, place)) => Some(place),
        _ => None,
    }
}

#[test]
fn records_of_accounts(rt: HostRuntime) -> Result<(), Fail> {
    let dbd = accounts(rt.alloc(), 100)?;
    let records: [(&[u8], usize); 2] = [
        (b"\x01000100001000", 1),
        (
            b"\x01000100001000\x020001 OPENING\x0301ab\x0302cd\x020002 MOVED  \x0301ef\x04xyz",
            7,
        ),
    ];
    for (bytes, rows) in records {
        let image = decode_record(rt.alloc(), &dbd, bytes)?;
        assert_eq!(rt; image.len(), rows);
        assert_eq!(rt; encode_record(rt.alloc(), &dbd, &image)?.as_slice(), bytes);
    }
    Ok(())
}

// Bytes that are no record, and the place of the refusal.
#[test]
fn broken_records(rt: HostRuntime) -> Result<(), Fail> {
    let dbd = accounts(rt.alloc(), 100)?;
    let table: [(&[u8], usize); 12] = [
        (b"", 0),
        (b"\x00000100001000", 0),
        (b"\x09000100001000", 0),
        (b"\x0100010000100", 0),
        (b"\x0100010000100\x7f", 0),
        (b"\x020001 OPENING", 0),
        (b"\x01000100001000\x01000200001000", 13),
        (b"\x01000100001000\x0301ab", 13),
        (b"\x01000100001000\x020002 MOVED  \x020001 OPENING", 26),
        (b"\x01000100001000\x020001 OPENING\x020001 OPENING", 26),
        (b"\x01000100001000\x04xyz\x020001 OPENING", 17),
        (b"\x01000100001000\x04xyz\x04z", 17),
    ];
    for (bytes, place) in table {
        assert_eq!(rt;
            refused_at(rt.alloc(), &dbd, bytes),
            Some(place),
            "{bytes:?}"
        );
    }
    Ok(())
}
