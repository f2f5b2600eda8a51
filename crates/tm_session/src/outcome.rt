//! How a session ended, and what it came to.
ghost use Rattle.std.specs.Prelude.{◌≡◌};

use model_session::ImageRefused;
use openings::Life;
use std::marker::Model;
use tm_disk::Disk;

/// How a session ended. Each has a status number and, mostly, a last line.
#[derive(Clone, Copy, Debug)]
pub enum Ended {
    /// The source was read to its end.
    Done,
    /// The words are not in the grammar: the number of the word, counted from 1, and the rule.
    Words(u32, u32),
    /// A line of the definition breaks a rule: the line, counted from 1, and the rule.
    BadLine(u32, u8),
    /// The macros of the definition break a rule that they keep among each other: the line, and
    /// the rule.
    BadCross(u32, u8),
    /// The source was read to its end while the system was down, and the disk has failed since a life was opened last.
    Down,
    /// The source failed.
    Read,
    /// The sink failed.
    Write,
    /// The disk can't be opened, and no life has begun.
    Image(ImageRefused),
    /// No memory was left.
    Memory,
    /// A limit was met: 4097, a line of that many bytes or more; 1000001, a line past a million.
    Limit(u64),
    /// The limit of a counter was met, 1,000,000,000,000,000,000.
    Spent,
}

/// The lives of a session, in their order.
#[derive(Debug, Drop)]
pub struct Lives {
    pub items: Vec<Life>,
}

impl Model for Lives {
    ghost use Rattle.std.specs.Prelude.{List};
    ghost use Rattle.openings.specs.declared.life.Life.{Life};

    ghost Value = { List Life };

    ghost view = { λ l. l.items.items };
}

impl Lives {
    /// The lives, in order.
    pub fn as_slice(&self) -> &[Life]
        ensures { result.now ≡ self.now }
    {
        &self.items
    }
}

/// The stops of a session: for each life and each opening that a disk fault ended how often the disk had failed when that
/// began, and when it ended.
#[derive(Debug, Drop)]
pub struct Stops {
    pub items: Vec<(u64, u64)>,
}

impl Model for Stops {
    ghost use Rattle.std.specs.Prelude.{ℕ, List};

    ghost Value = { List (ℕ × ℕ) };

    ghost view = { λ s. s.items.items };
}

/// What a session came to.
#[derive(Drop)]
pub struct Outcome<D: Disk> {
    pub status: Ended,
    pub disk: D,
    pub lives: Lives,
    pub stops: Stops,
}
