//! How many records each region's unit has changed.
ghost use Rattle.std.specs.Prelude.{◌≡◌, ◌<◌, ◌≤◌, [], ◌∷◌, ◌++◌, length};
ghost use Rattle.model_data.specs.Cycle.{changed_count_of};

use std::marker::Model;

/// How many records the unit of each region has changed, from region 1 on: for at most 8 regions, seen as
/// a list.
#[derive(Clone, Copy, Debug)]
pub struct Weights {
    len: u8,
    changes: [u32; 8],
}

impl Model for Weights {
    ghost use Rattle.std.specs.Prelude.{◌≡◌, ◌≤◌, ◌++◌, ℕ, List, length, take, drop};
    ghost use Rattle.model_data.specs.PaddedLists.{no_regions, padded_list};

    ghost Value = { List ℕ };

    ghost view = { λ w. take w.len w.changes };

    ghost invariant = { λ w. (w.len ≤ 8) × (length w.changes ≡ 8) × (drop w.len w.changes ≡ drop w.len no_regions) };

    ghost inverse = { λ changes. record { len = length changes; changes = changes ++ drop (length changes) no_regions } };

    ghost inverse_ok = { λ w h i. let fields = padded_list no_regions w.len w.changes h.0 h.1 h.2 in record { len = fields.0 i; changes = fields.1 i } };
}

impl Weights {
    /// Of no region.
    pub fn new() -> Weights
        ensures { result ≡ [] }
    {
        Weights {
            len: 0,
            changes: [0; 8],
        }
    }

    /// Adds the next region's number of changed records. There are eight at most.
    pub fn push(&mut self, changes: u32)
        requires { length self.old < 8 }
        ensures { self.new ≡ self.old ++ changes ∷ [] }
    {
        self.changes[self.len as usize] = changes;
        self.len += 1;
    }

    /// How many records the unit of this region has changed.
    pub fn of(&self, region: u32) -> u32
        requires first { 1 ≤ region }
        requires last { region ≤ length self.now }
        ensures { result ≡ changed_count_of self.now region }
    {
        self.changes[(region - 1) as usize]
    }
}
