//! `sync_point`: what the end of a unit leaves in the log, once it is forced.
use log_records::PadChange;
use log_sectors::read_chain;
use log_writer::LogWriter;
use std::alloc::Global;
use std::test::Fail;
use sync_point::{Abended, Finished, OutputRecords, abend, commit};
use tm_disk::{Disk, MemDisk};
use tm_types::{AbendCode, Name, Segment, Segments};

fn log_of(alloc: Global, disk: &mut MemDisk) -> Result<(Vec<u8>, u32), Fail> {
    if disk.sectors() != 8 {
        return Err("another disk".into());
    }
    let chain = read_chain(alloc, disk, 2, 4, 11, 4)?;
    Ok((chain.payload.as_slice().to_vec(alloc)?, chain.sectors))
}

fn finished(alloc: Global) -> Result<Finished, Fail> {
    let mut segments = Segments::new(alloc);
    segments.push(Segment::make(alloc, b"HI")?)?;
    let terminal = Name::read(b"T1").ok_or("a name")?;
    let code = Name::read(b"BAL").ok_or("a name")?;
    let sent = OutputRecords::new(alloc, 7)
        .reply(&terminal, 1, &segments)?
        .switched(4, &terminal, &code, &segments)?;
    Ok(Finished::new(sent, 3, &PadChange::Stays)?)
}

#[test]
fn a_completion_stands_in_the_log(rt: HostRuntime) -> Result<(), Fail> {
    let alloc = rt.alloc();
    let work = finished(alloc)?;
    let mut disk = MemDisk::new(alloc, 8, Vec::new(alloc))?;
    let mut log = LogWriter::new(alloc, 2, 4, 11, 4);
    if work.bytes().len() as u64 > log.room() {
        return Err("no room".into());
    }
    commit(&mut log, &work)?;
    assert_eq!(rt; log.pending(), work.bytes().len() as u64);
    assert_eq!(rt; log.force(&mut disk)?, 1);
    disk.cut(0);
    let (bytes, sectors) = log_of(alloc, &mut disk)?;
    let parts: [&[u8]; 4] = [
        b"\0\x1b\x03\0\0\0\0\0\0\0\x07\x02T1\0\0\0\0\0\0\0\x01\x01\0\x02HI",
        b"\0\x28\x01\0\0\0\0\0\0\0\x07\0\0\0\0\0\0\0\x04\x02T1\x03BAL\0\0\0\0\0\0\0\0\0\x01\0\x02HI",
        b"\0\x14\x36\0\0\0\0\0\0\0\0\x07\0\0\0\0\0\0\0\x03",
        b"\0\x0e\x37\0\0\0\0\0\0\0\x07\0\0\0",
    ];
    let mut expected = Vec::new(alloc);
    for part in &parts {
        expected.extend_from_slice(part)?;
    }
    assert_eq!(rt; bytes.as_slice(), expected.as_slice());
    assert_eq!(rt; sectors, 1);
    Ok(())
}

#[test]
fn a_discarded_message_stands_in_the_log(rt: HostRuntime) -> Result<(), Fail> {
    let alloc = rt.alloc();
    let work = Abended::new(alloc, 1, 2, AbendCode { number: 123 }, 3)?;
    let mut disk = MemDisk::new(alloc, 8, Vec::new(alloc))?;
    let mut log = LogWriter::new(alloc, 2, 4, 11, 4);
    if work.bytes().len() as u64 > log.room() {
        return Err("no room".into());
    }
    abend(&mut log, &work)?;
    assert_eq!(rt; log.pending(), work.bytes().len() as u64);
    assert_eq!(rt; log.force(&mut disk)?, 1);
    let (bytes, sectors) = log_of(alloc, &mut disk)?;
    let expected = b"\0\x1d\x07\0\0\0\0\0\0\0\x01\0\0\0\0\0\0\0\x02\0\x7b\0\0\0\0\0\0\0\x03";
    assert_eq!(rt; bytes.as_slice(), expected.as_slice());
    assert_eq!(rt; sectors, 1);
    Ok(())
}
