//! `tm_edge`: lines through a source of which calls fail.
use std::alloc::Global;
use std::process::Abort;
use std::test::Fail;
use tm_edge::{Line, LineFault, Lines, MemSource};

// The lines of these bytes, from a source whose listed calls fail; the faults are passed over.
fn lines_of(
    rt: &impl Abort,
    alloc: Global,
    bytes: &[u8],
    fail_at: &[u64],
) -> Result<Vec<Line>, Fail> {
    let bytes = bytes.to_vec(alloc)?;
    let mut source = MemSource::new(bytes, fail_at.to_vec(alloc)?);
    let mut lines = Lines::new(alloc);
    let mut all = Vec::new(alloc);
    let mut faults = 0;
    for _ in 0..20u8 {
        match lines.next_line(&mut source) {
            Ok(Some(line)) => all.push(line)?,
            Ok(None) => {
                assert_eq!(rt; faults, fail_at.len());
                return Ok(all);
            }
            Err(LineFault::Read) if faults < 20 => faults += 1,
            Err(fault) => return Err(Fail::from(fault)),
        }
    }
    Err(Fail::from("no end"))
}

#[test]
fn cuts_at_lf(rt: HostRuntime) -> Result<(), Fail> {
    let table: [(&[u8], &[u64], &[&[u8]]); 4] = [
        (b"", &[], &[]),
        (
            b"one\r\ntwo\n\nthree",
            &[],
            &[b"one", b"two", b"", b"three"],
        ),
        (b"a\rb\r\r\nlast\r", &[], &[b"a\rb\r", b"last\r"]),
        (b"one\ntwo", &[1, 2, 3], &[b"one", b"two"]),
    ];
    for (bytes, fail_at, wanted) in table {
        let lines = lines_of(&rt, rt.alloc(), bytes, fail_at)?;
        assert_eq!(rt; lines.len(), wanted.len());
        for (line, text) in lines.iter().zip(wanted) {
            assert_eq!(rt; line.bytes(), *text);
        }
    }
    Ok(())
}
