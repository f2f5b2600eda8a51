//! The page that a screen shows.
ghost use Rattle.std.specs.Prelude.{◌≡◌};
ghost use Rattle.model_system.specs.Pages.{IsPage};

use std::marker::Model;

/// A page of 24 rows of 80 bytes, seen as the list of its rows from the top down.
#[derive(Debug, Drop)]
pub struct Page {
    rows: Vec<[u8; 80]>,
}

impl Model for Page {
    ghost use Rattle.std.specs.Prelude.{ℕ, List};
    ghost use Rattle.model_system.specs.Pages.{IsPage};

    ghost Value = { List (List ℕ) };

    ghost view = { λ p. p.rows.items };

    ghost invariant = { λ p. IsPage p.rows.items };
}

impl Page {
    /// The page of these rows.
    pub fn of(rows: Vec<[u8; 80]>) -> Page
        requires { IsPage rows.items }
        ensures { result ≡ rows.items }
    {
        Page { rows }
    }

    /// The rows, from the top down.
    pub fn rows(&self) -> &[[u8; 80]]
        ensures rows { result.now ≡ self.now }
        ensures valid { IsPage self.now }
    {
        &self.rows
    }
}
