//! A ring of waiting regions, with room for the eight regions of a system.
ghost use Rattle.std.specs.Prelude.{◌≡◌, ◌<◌, [], ◌∷◌, ◌++◌, length};

use std::marker::Model;

/// A ring of regions, each of which waits for the next and the last one for the first: at most 8 of them,
/// seen as a list.
#[derive(Clone, Copy, Debug)]
pub struct Cycle {
    len: u8,
    regions: [u8; 8],
}

impl Model for Cycle {
    ghost use Rattle.std.specs.Prelude.{◌≡◌, ◌≤◌, ◌++◌, ℕ, List, length, take, drop};
    ghost use Rattle.model_data.specs.PaddedLists.{no_regions, padded_list};

    ghost Value = { List ℕ };

    ghost view = { λ c. take c.len c.regions };

    ghost invariant = { λ c. (c.len ≤ 8) × (length c.regions ≡ 8) × (drop c.len c.regions ≡ drop c.len no_regions) };

    ghost inverse = { λ regions. record { len = length regions; regions = regions ++ drop (length regions) no_regions } };

    ghost inverse_ok = { λ c h i. let fields = padded_list no_regions c.len c.regions h.0 h.1 h.2 in record { len = fields.0 i; regions = fields.1 i } };
}

impl Cycle {
    ghost use Rattle.std.specs.Prelude.{◌≤◌};

    /// No regions.
    pub fn new() -> Cycle
        ensures { result ≡ [] }
    {
        Cycle {
            len: 0,
            regions: [0; 8],
        }
    }

    /// Adds a region at the end. Eight fit.
    pub fn push(&mut self, region: u8)
        requires { length self.old < 8 }
        ensures { self.new ≡ self.old ++ region ∷ [] }
    {
        self.regions[self.len as usize] = region;
        self.len += 1;
    }

    /// The regions in their order.
    pub fn as_slice(&self) -> &[u8]
        ensures value { result.now ≡ self.now }
        ensures few { length self.now ≤ 8 }
    {
        &self.regions[..self.len as usize]
    }
}
