//! The variables A to Z of a script.
ghost use Rattle.std.specs.Prelude.{◌≡◌, ◌+◌, ◌<◌};

use std::marker::Model;

/// A variable of a script. Contracts see it as its place in the alphabet, counted from 0.
#[derive(Clone, Copy, Debug)]
pub struct Variable {
    place: u8,
}

impl Model for Variable {
    ghost use Rattle.std.specs.Prelude.{ℕ, ◌<◌};

    ghost Value = { ℕ };

    ghost view = { λ v. v.place };

    ghost invariant = { λ v. v.place < 26 };

    ghost inverse = { λ place. record { place = place } };
}

impl Variable {
    /// The variable at this place of the alphabet.
    pub fn at(place: u8) -> Variable
        requires { place < 26 }
        ensures { result ≡ place }
    {
        Variable { place }
    }

    /// The place in the alphabet, counted from 0.
    pub fn place(&self) -> u8
        ensures value { result ≡ self.now }
        ensures below { self.now < 26 }
    {
        self.place
    }
}
