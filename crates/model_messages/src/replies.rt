//! Replies that a terminal has not acknowledged.
use std::collections::VecDeque;
use std::marker::Model;
use tm_types::{Name, Reply};

/// The replies that a terminal hasn't acknowledged, in the order of their numbers.
#[derive(Debug, Drop)]
pub struct Replies {
    pub items: VecDeque<Reply>,
}

impl Model for Replies {
    ghost use Rattle.std.specs.Prelude.{List};
    ghost use Rattle.tm_types.specs.declared.message.Reply.{Reply};

    ghost Value = { List Reply };

    ghost view = { λ r. r.items.items };
}

/// A terminal with its replies.
#[derive(Debug, Drop)]
pub struct TerminalReplies {
    pub terminal: Name,
    /// The number that the next reply gets.
    pub next: u64,
    pub replies: Replies,
}
