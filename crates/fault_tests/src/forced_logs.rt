//! `log_writer`: what a force leaves of which a call fails.
use log_sectors::read_chain;
use log_writer::LogWriter;
use std::alloc::Global;
use std::test::Fail;
use tm_disk::{Disk, MemDisk};

// A new disk on which these bytes were appended to a log of 4 sectors from 2 on, and forced; and whether that was done.
fn forced(alloc: Global, fail_at: Vec<u64>, bytes: &[u8]) -> Result<(MemDisk, bool), Fail> {
    let mut disk = MemDisk::new(alloc, 8, fail_at)?;
    let mut log = LogWriter::new(alloc, 2, 4, 11, 4);
    if bytes.len() > 16_256 {
        return Err("a long log".into());
    }
    log.append(bytes)?;
    let done = log.force(&mut disk).is_ok();
    Ok((disk, done))
}

fn read(alloc: Global, disk: &mut MemDisk) -> Result<Vec<u8>, Fail> {
    if disk.sectors() != 8 {
        return Err("another disk".into());
    }
    let chain = read_chain(alloc, disk, 2, 4, 11, 4)?;
    Ok(chain.payload.as_slice().to_vec(alloc)?)
}

// How many bytes the sectors have that stand before the first that isn't written.
fn kept_bytes(written: u64) -> usize {
    match written {
        7 => 12_192,
        3 => 8128,
        1 | 5 => 4064,
        _ => 0,
    }
}

// All that a force of three sectors may leave: the disk fails at one of its writes, or at its sync.
#[test]
fn a_front_is_read_after_a_stop(rt: HostRuntime) -> Result<(), Fail> {
    let alloc = rt.alloc();
    let bytes = vec![in alloc; b'x'; 9000]?;
    // The writes up to the one that failed were made.
    for (call, made) in [(1, 1), (2, 3), (3, 7), (4, 7u64)] {
        for pick in 0..8u64 {
            let (mut disk, done) = forced(alloc, vec![in alloc; call; 1]?, &bytes)?;
            assert_eq!(rt; done, false);
            disk.cut(pick);
            let got = read(alloc, &mut disk)?;
            let length = kept_bytes(pick & made).min(bytes.len());
            assert_eq!(rt; got.as_slice(), &bytes[..length], "{call} {pick}");
        }
    }
    Ok(())
}
