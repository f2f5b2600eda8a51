//! `tm_disk`: what a pick leaves of sectors that were written more than once.
use std::alloc::Global;
use std::test::Fail;
use tm_disk::{Disk, MemDisk, SECTOR_BYTES, Sector};

fn put<D: Disk>(disk: &mut D, at: u32, byte: u8) -> bool {
    at < disk.sectors()
        && disk
            .write(at, &Sector::from_bytes([byte; SECTOR_BYTES]))
            .is_ok()
}

// The first byte of a sector.
fn got<D: Disk>(disk: &mut D, at: u32) -> Option<u8> {
    let mut sector = Sector::blank();
    if at < disk.sectors() && disk.read(at, &mut sector).is_ok() {
        sector.bytes().first().copied()
    } else {
        None
    }
}

fn synced<D: Disk>(disk: &mut D) -> bool {
    disk.sync().is_ok()
}

// Sector 1 was written once and sector 2 twice since the sync.
fn unsynced(alloc: Global) -> Result<MemDisk, Fail> {
    let mut disk = MemDisk::new(alloc, 3, Vec::new(alloc))?;
    for (at, byte) in [(0, 10), (1, 11), (2, 12)] {
        put(&mut disk, at, byte);
    }
    synced(&mut disk);
    for (at, byte) in [(2, 22), (1, 21), (2, 32)] {
        put(&mut disk, at, byte);
    }
    Ok(disk)
}

#[test]
fn each_pick_leaves_its_image(rt: HostRuntime) -> Result<(), Fail> {
    let picks = [(0, 11, 12), (3, 21, 22), (4, 11, 32), (7, 21, 12)];
    for (pick, first, second) in picks {
        let mut disk = unsynced(rt.alloc())?;
        disk.cut(pick);
        assert_eq!(rt; got(&mut disk, 0), Some(10));
        assert_eq!(rt; got(&mut disk, 1), Some(first));
        assert_eq!(rt; got(&mut disk, 2), Some(second));
    }
    Ok(())
}
