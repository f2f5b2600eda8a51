//! Sectors of 4,096 bytes.
ghost use Rattle.std.specs.Prelude.{◌≡◌, ◌≤◌, ◌+◌, ◌-◌, ◌<◌, length, take, drop, ◌++◌};
ghost use Rattle.tm_disk.specs.Sector.{blank, zeros};

use std::marker::Model;

/// How many bytes a sector has.
pub const SECTOR_BYTES: usize = 4096;

/// What a disk reads and writes at once: 4,096 bytes.
#[derive(Clone, Copy, Debug, PartialEq, Eq)]
pub struct Sector {
    bytes: [u8; SECTOR_BYTES],
}

impl Model for Sector {
    ghost use Rattle.std.specs.Prelude.{ℕ, List};

    ghost Value = { List ℕ };

    ghost view = { λ s. s.bytes };

    ghost inverse = { λ l. record { bytes = l } };
}

impl Sector {
    /// A sector of zero bytes.
    #[tactic(auto, unfolding(crate::specs::Sector::blank, crate::specs::Sector::zeros))]
    pub fn blank() -> Sector
        ensures { result ≡ blank }
    {
        Sector {
            bytes: [0; SECTOR_BYTES],
        }
    }

    /// A sector of these bytes.
    pub fn from_bytes(bytes: [u8; SECTOR_BYTES]) -> Sector
        ensures { result ≡ bytes }
    {
        Sector { bytes }
    }

    /// Its bytes.
    pub fn bytes(&self) -> &[u8]
        ensures value { result.now ≡ self.now }
        ensures size { length self.now ≡ 4096 }
    {
        &self.bytes
    }

    /// Its bytes, to be written.
    pub fn set(&mut self, at: usize, bytes: &[u8])
        requires { at + length bytes.now ≤ 4096 }
        ensures value { self.new ≡ take at self.old ++ bytes.now ++ drop (at + length bytes.now) self.old }
    {
        self.bytes[at..at + bytes.len()].copy_from_slice(bytes);
    }

    /// Zeros its bytes from one place up to another.
    #[tactic(auto, unfolding(crate::specs::Sector::zeros))]
    pub fn clear(&mut self, from: usize, to: usize)
        requires order { from ≤ to }
        requires within { to ≤ 4096 }
        ensures { self.new ≡ take from self.old ++ zeros (to - from) ++ drop to self.old }
    {
        self.bytes[from..to].fill(0);
    }
}
