//! A disk in a file of the system. It is trusted: that the file keeps what was written to it is not proved.
ghost use Rattle.std.specs.Prelude.{◌≡◌, ◌*◌, ◌<◌, ◌^◌};

use crate::plan::raise;
use crate::{Disk, Failed, SECTOR_BYTES, Sector};
use std::fs::{File, Files, OpenFile, OpenOptions, TryLockError};
use std::io;
use std::io::ErrorKind;
use std::os::unix::fs::FileExt;

/// A disk in a file. It tells nothing of its contents, and can't be armed.
#[derive(Drop)]
pub struct FileDisk {
    file: Option<File>,
    size: u32,
    faults: u64,
    writes: u64,
    // How often it was cut, and with which pick at last. A cut does nothing to the file.
    cuts: u64,
    last_pick: u64,
    ghost size_fits: { size < 2 ^ 32 },
}

// Locks the file until it is closed, so that no other program has it. A file system that knows no locks leaves it unlocked.
fn lock(file: &File) -> io::Result<()> {
    match file.try_lock() {
        Err(TryLockError::WouldBlock) => Err(io::Error::from(ErrorKind::WouldBlock)),
        _ => Ok(()),
    }
}

// Opens the file, or makes one of zeros, and locks it.
fn open_or_make<R: Files<File = File>>(
    rt: &R,
    path: &str,
    sectors: u32,
) -> io::Result<(File, u64)> {
    if let Ok(file) = OpenOptions::new().read(true).write(true).open(rt, path) {
        lock(&file)?;
        let length = file.metadata()?.len();
        return Ok((file, length));
    }
    let file = OpenOptions::new()
        .read(true)
        .write(true)
        .create_new(true)
        .open(rt, path)?;
    lock(&file)?;
    let length = sectors as u64 * SECTOR_BYTES as u64;
    file.set_len(length)?;
    Ok((file, length))
}

// Where a sector stands in the file.
fn place_of(at: u32) -> u64
    ensures { result ≡ at * 4096 }
{
    at as u64 * SECTOR_BYTES as u64
}

fn read_sector(file: &File, at: u32) -> io::Result<Sector> {
    let mut bytes = [0; SECTOR_BYTES];
    file.read_exact_at(&mut bytes, place_of(at))?;
    Ok(Sector::from_bytes(bytes))
}

impl FileDisk {
    ghost use Rattle.std.specs.Prelude.{◌≡◌};
    ghost use Rattle.tm_disk.specs.FileDisk.{file_disk_state};

    /// Opens a file, or makes one of zeros with so many sectors. The disk has as many sectors as the file has
    /// whole ones, and none where the file can't be opened or another program has it. It is locked until the disk is dropped, where its
    /// file system knows locks.
    pub fn open<R: Files<File = File>>(rt: &R, path: &str, sectors: u32) -> FileDisk
        ensures faults { (file_disk_state result).faults ≡ 0 }
        ensures writes { (file_disk_state result).writes ≡ 0 }
        ensures not_cut { (file_disk_state result).cuts ≡ record { count = 0; pick = 0 } }
    {
        let (file, length) = match open_or_make(rt, path, sectors) {
            Ok((file, length)) => (Some(file), length),
            Err(_) => (None, 0),
        };
        FileDisk {
            file,
            size: u32::try_from(length / SECTOR_BYTES as u64).unwrap_or(u32::MAX),
            faults: 0,
            writes: 0,
            cuts: 0,
            last_pick: 0,
        }
    }
}

impl Disk for FileDisk {
    ghost use Rattle.tm_disk.specs.FileDisk.{file_disk_state, disk_law};

    ghost state = { file_disk_state };

    ghost is_disk = { disk_law };

    fn sectors(&self) -> u32 {
        self.size
    }

    fn faults(&self) -> u64 {
        self.faults
    }

    fn read(&mut self, at: u32, into: &mut Sector) -> Result<(), Failed> {
        if let Some(file) = &self.file {
            if let Ok(sector) = read_sector(file, at) {
                *into = sector;
                return Ok(());
            }
        }
        self.faults = raise(self.faults);
        Err(Failed)
    }

    fn write(&mut self, at: u32, from: &Sector) -> Result<(), Failed> {
        self.writes = raise(self.writes);
        if let Some(file) = &self.file {
            if file.write_all_at(from.bytes(), place_of(at)).is_ok() {
                return Ok(());
            }
        }
        self.faults = raise(self.faults);
        Err(Failed)
    }

    fn sync(&mut self) -> Result<(), Failed> {
        if let Some(file) = &self.file {
            if file.sync_all().is_ok() {
                return Ok(());
            }
        }
        self.faults = raise(self.faults);
        Err(Failed)
    }

    fn arm(&mut self, _n: u64) -> bool {
        false
    }

    fn cut(&mut self, pick: u64) {
        self.cuts = raise(self.cuts);
        self.last_pick = pick;
    }
}
