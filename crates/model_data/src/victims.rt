//! The regions that give way in a turn, with room for the eight regions of a system.
ghost use Rattle.std.specs.Prelude.{◌≡◌, ◌<◌, [], ◌∷◌, ◌++◌, length};

use crate::{Cycle, Victim};
use std::marker::Model;

/// The victims of one turn in their order: at most 8, seen as a list.
#[derive(Clone, Copy, Debug)]
pub struct Victims {
    len: u8,
    victims: [Victim; 8],
}

impl Model for Victims {
    ghost use Rattle.std.specs.Prelude.{◌≡◌, ◌≤◌, ◌++◌, ℕ, List, length, take, drop};
    ghost use Rattle.model_data.specs.declared.victim.Victim.{Victim};
    ghost use Rattle.model_data.specs.PaddedLists.{padded_list};
    ghost use Rattle.model_data.specs.Nobody.{no_victims};

    ghost Value = { List Victim };

    ghost view = { λ v. take v.len v.victims };

    ghost invariant = { λ v. (v.len ≤ 8) × (length v.victims ≡ 8) × (drop v.len v.victims ≡ drop v.len no_victims) };

    ghost inverse = { λ victims. record { len = length victims; victims = victims ++ drop (length victims) no_victims } };

    ghost inverse_ok = { λ v h i. let fields = padded_list no_victims v.len v.victims h.0 h.1 h.2 in record { len = fields.0 i; victims = fields.1 i } };
}

impl Victims {
    ghost use Rattle.std.specs.Prelude.{◌≤◌};

    /// No victims.
    pub fn new() -> Victims
        ensures { result ≡ [] }
    {
        let nobody = Victim {
            region: 0,
            cycle: Cycle::new(),
        };
        Victims {
            len: 0,
            victims: [nobody; 8],
        }
    }

    /// Adds a victim at the end. Eight fit.
    pub fn push(&mut self, victim: Victim)
        requires { length self.old < 8 }
        ensures { self.new ≡ self.old ++ victim ∷ [] }
    {
        self.victims[self.len as usize] = victim;
        self.len += 1;
    }

    /// The victims in their order.
    pub fn as_slice(&self) -> &[Victim]
        ensures value { result.now ≡ self.now }
        ensures few { length self.now ≤ 8 }
    {
        &self.victims[..self.len as usize]
    }
}
