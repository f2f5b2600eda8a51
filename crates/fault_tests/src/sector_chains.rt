//! `log_sectors`: a chain that is read.
use log_sectors::{read_chain, seal};
use std::alloc::Global;
use std::test::Fail;
use tm_disk::{Disk, MemDisk};

// A disk of 6 sectors whose sectors from 2 on have these epochs, sequences and payloads.
fn disk_with(alloc: Global, sectors: &[(u64, u64, &[u8])]) -> Result<MemDisk, Fail> {
    let mut disk = MemDisk::new(alloc, 6, Vec::new(alloc))?;
    let mut at = 2;
    for (epoch, sequence, payload) in sectors {
        if !payload.is_empty() && payload.len() <= 4064 && at < disk.sectors() {
            let _ = disk.write(at, &seal(*epoch, *sequence, payload));
            at += 1;
        }
    }
    Ok(disk)
}

fn read(
    alloc: Global,
    disk: &mut MemDisk,
    count: u32,
    sequence: u64,
    epoch: u64,
) -> Result<(Vec<u8>, u32), Fail> {
    if count > 4 || sequence > 100 || disk.sectors() != 6 {
        return Err("out of the area".into());
    }
    let chain = read_chain(alloc, disk, 2, count, sequence, epoch)?;
    Ok((chain.payload.as_slice().to_vec(alloc)?, chain.sectors))
}

#[test]
fn a_chain_ends_where_the_epoch_or_the_sequence_is_another(rt: HostRuntime) -> Result<(), Fail> {
    let alloc = rt.alloc();
    let rows: [(&[(u64, u64, &[u8])], u32, &[u8], u32); 3] = [
        (
            &[(4, 11, b"ab"), (4, 12, b"c"), (3, 13, b"d")],
            4,
            b"abc",
            2,
        ),
        (&[(4, 11, b"ab"), (4, 13, b"c")], 4, b"ab", 1),
        (
            &[(4, 11, b"a"), (4, 12, b"b"), (4, 13, b"c"), (4, 14, b"d")],
            4,
            b"abcd",
            4,
        ),
    ];
    for (sectors, count, payload, length) in rows {
        let mut disk = disk_with(alloc, sectors)?;
        let (bytes, read_sectors) = read(alloc, &mut disk, count, 11, 4)?;
        assert_eq!(rt; bytes.as_slice(), payload);
        assert_eq!(rt; read_sectors, length);
    }
    Ok(())
}
