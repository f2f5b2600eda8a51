//! `log_records`: records as they are laid out, and faults by their rules and places.
use log_records::{DecodeFault, decode, encode};
use std::alloc::Global;
use std::process::Abort;
use std::test::Fail;

// The length of the record that the bytes begin with, under rule 0; or the rule and the place of
// the fault. What is decoded is encoded again as it was.
fn outcome(rt: &impl Abort, alloc: Global, bytes: &[u8]) -> Result<(u8, usize), Fail> {
    match decode(alloc, bytes) {
        Ok((record, length)) => {
            let mut out = Vec::new(alloc);
            encode(alloc, &record, &mut out)?;
            assert_eq!(rt; out.as_slice(), &bytes[..length]);
            Ok((0, length))
        }
        Err(DecodeFault::Bad(rule, place)) => Ok((rule, place)),
        Err(DecodeFault::Memory) => Err(Fail::from("no memory")),
    }
}

#[test]
fn each_layout_and_its_boundaries(rt: HostRuntime) -> Result<(), Fail> {
    let records: [(&[u8], usize); 15] = [
        (b"\x00\x0f\x36\x01\x02T1\0\0\0\0\0\0\0\x01", 15),
        (
            b"\0\x29\x01\0\0\0\0\0\0\0\0\0\0\0\0\0\0\0\x01\x02T1\x04ECHO\0\0\0\0\0\0\0\x01\0\x01\0\x02HIrest",
            41,
        ),
        (b"\0\x05\x02\0\0", 5),
        (
            b"\0\x19\x03\0\0\0\0\0\0\0\x07\x01A\0\0\0\0\0\0\0\x01\x01\0\x01~",
            25,
        ),
        (
            b"\0\x1d\x07\0\0\0\0\0\0\0\x01\0\0\0\0\0\0\0\x02\x0f\xff\0\0\0\0\0\0\0\x03",
            29,
        ),
        (b"\0\x14\x36\0\0\0\0\0\0\0\0\x01\0\0\0\0\0\0\0\x02", 20),
        (
            b"\0\x15\x36\x01\x08ABCDXYZ9\xff\xff\xff\xff\xff\xff\xff\xff",
            21,
        ),
        (b"\0\x0e\x37\0\0\0\0\0\0\0\x01\0\0\0", 14),
        (b"\0\x10\x37\0\0\0\0\0\0\0\x01\x01\0\x02\0\xff", 16),
        (b"\0\x0e\x37\0\0\0\0\0\0\0\x01\x02\0\0", 14),
        (
            b"\0\x24\x40\0\0\0\0\0\0\0\0\x01\0\0\0\0\0\0\0\x02\0\0\0\0\0\0\0\x03\0\0\0\0\0\0\0\x04",
            36,
        ),
        (
            b"\0\x1a\x40\x01\x01T\0\0\0\0\0\0\0\x01\0\0\0\0\0\0\0\x02\x01\0\0\0",
            26,
        ),
        (
            b"\0\x1d\x40\x01\x01T\0\0\0\0\0\0\0\x01\0\0\0\0\0\0\0\x02\0\x01\x01C\0\x01P",
            29,
        ),
        (b"\0\x09\x40\x02\x01C\0\xff\0", 9),
        (b"\0\x12\x50\0\0\0\0\0\0\0\x01\x01\0\x02\0\0\0\0", 18),
    ];
    for (bytes, length) in &records {
        assert_eq!(rt; outcome(&rt, rt.alloc(), bytes)?, (0, *length));
    }
    let faults: [(&[u8], u8, usize); 8] = [
        (b"\x00\x0f\x36\x01\x02T1\0\0\0\0\0\0\0", 1, 14),
        (b"", 1, 0),
        (b"\0\x05\x04\0\0", 2, 2),
        (b"\0\x09\x40\x03\x01C\0\xff\0", 2, 3),
        (b"\0\x09\x40\x02\x01C\x02\xff\0", 3, 6),
        (b"\0\x05\x02\0\x51", 3, 3),
        (b"\0\x13\x36\0\0\0\0\0\0\0\0\x01\0\0\0\0\0\0\0\x02", 4, 20),
        (
            b"\0\x1e\x07\0\0\0\0\0\0\0\x01\0\0\0\0\0\0\0\x02\0\0\0\0\0\0\0\0\0\x03",
            3,
            19,
        ),
    ];
    for (bytes, rule, place) in &faults {
        assert_eq!(rt; outcome(&rt, rt.alloc(), bytes)?, (*rule, *place));
    }
    Ok(())
}
