//! The classes of a region.
ghost use Rattle.std.specs.Prelude.{◌≡◌, ◌<◌, ◌≤◌, [], ◌∷◌, ◌++◌, length};

use std::marker::Model;

/// The classes of a region, at most four, in order; seen as a list of numbers.
#[derive(Debug, Drop)]
pub struct Classes {
    items: [u8; 4],
    count: usize,
}

impl Model for Classes {
    ghost use Rattle.std.specs.Prelude.{◌≡◌, ◌≤◌, List, ℕ, length, take};

    ghost Value = { List ℕ };

    ghost view = { λ c. take c.count c.items };

    ghost invariant = { λ c. (c.count ≤ 4) × (length c.items ≡ 4) };
}

impl Classes {
    /// No classes.
    pub fn new() -> Classes
        ensures { result ≡ [] }
    {
        Classes {
            items: [0; 4],
            count: 0,
        }
    }

    /// Adds a class at the end.
    pub fn push(&mut self, class: u8)
        requires { length self.old < 4 }
        ensures { self.new ≡ self.old ++ class ∷ [] }
    {
        self.items[self.count] = class;
        self.count += 1;
    }

    /// The same classes again.
    pub fn copied(&self) -> Classes
        ensures { result ≡ self.now }
    {
        Classes {
            items: self.items,
            count: self.count,
        }
    }

    /// The classes, in order.
    pub fn as_slice(&self) -> &[u8]
        ensures classes { result.now ≡ self.now }
        ensures few { length self.now ≤ 4 }
    {
        &self.items[..self.count]
    }
}
