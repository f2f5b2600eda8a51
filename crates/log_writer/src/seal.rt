//! The sector in which a writer seals.
ghost use Rattle.std.specs.Prelude.{◌≡◌, ◌<◌, ◌≤◌, length};
ghost use Rattle.log_sectors.specs.SealedSector.{sealed};

use log_sectors::reseal;
use std::marker::Model;
use tm_disk::Sector;

/// A sector in which log sectors are sealed one after another. Of each just what the next one leaves is zeroed.
#[derive(Debug, Drop)]
pub struct Seal {
    sector: Sector,
    // How many bytes of payload it has; there are zeros behind them.
    held: usize,
}

impl Model for Seal {
    ghost use Rattle.std.specs.Prelude.{◌≤◌, ℕ, List};
    ghost use Rattle.log_sectors.specs.SealedSector.{HasZerosBehind};

    ghost Value = { List ℕ };

    ghost view = { λ s. s.sector };

    ghost invariant = { λ s. (s.held ≤ 4064) × HasZerosBehind s.held s.sector };
}

impl Seal {
    /// Nothing is sealed yet.
    pub fn new() -> Seal {
        let sector = Sector::blank();
        Seal { sector, held: 0 }
    }

    /// Seals a payload of this epoch and sequence.
    pub fn seal(&mut self, epoch: u64, sequence: u64, payload: &[u8])
        requires some { 0 < length payload.now }
        requires fits { length payload.now ≤ 4064 }
        ensures { self.new ≡ sealed epoch sequence payload.now }
    {
        reseal(&mut self.sector, self.held, epoch, sequence, payload);
        self.held = payload.len();
    }

    /// The sector as it was sealed last.
    pub fn sector(&self) -> &Sector
        ensures { result.now ≡ self.now }
    {
        &self.sector
    }
}
