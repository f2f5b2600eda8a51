//! What a seat of a pool's table knows, the rule over it, and the kinds of step.
ghost use Rattle.std.specs.Prelude.{ℕ, List, []};

use atomic_table::{Join, Play, Split, TableRule};
use std::collections::LinkedList;
use std::marker::{Brand, PhantomData};

/// What a seat knows. It stands in proofs alone: no value of it is made.
pub struct View<I> {
    pub passes: u64,
    pub to_make: u64,
    pub book: Option<LinkedList<(u64, I)>>,
    pub kept: LinkedList<(u64, LinkedList<I>)>,
}

/// The rule of a pool's table, which is told the number of passes.
pub struct Turns;

impl<I> TableRule<(), View<I>, u32> for Turns {
    ghost use Rattle.pool_pass.specs.Rule.{IsKept, maker};

    ghost holds = { λ passes state. IsKept passes state.views };

    ghost first = { maker };
}

/// The first kind of step: the maker makes the next pass.
pub struct Making;

impl<I> Split<View<I>> for Making {
    ghost use Rattle.pool_pass.specs.Rule.{after_making, next_pass};

    ghost left = { after_making };

    ghost right = { next_pass };
}

/// The second and the fifth kind: the book joins a pass, or a pass joins another.
pub struct TakingIn;

impl<I> Join<View<I>> for TakingIn {
    ghost use Rattle.pool_pass.specs.Rule.{taking_in, spent};

    ghost both = { taking_in };

    ghost spent = { spent };
}

/// The items that a step of the third kind puts into the book. A call at `Brand` picks them.
pub trait Added<I> {
    ghost use Rattle.std.specs.Prelude.{List};

    ghost added: { List I };
}

impl<I> Added<I> for Brand {
    ghost use Rattle.std.specs.Prelude.{[]};

    ghost added = { [] };
}

/// No items.
pub struct Nothing;

impl<I> Added<I> for Nothing {
    ghost use Rattle.std.specs.Prelude.{[]};

    ghost added = { [] };
}

/// The third kind: the pass that has the book puts items under its number.
pub struct Writing<A> {
    items: PhantomData<A>,
}

impl<I, A: Added<I>> Play<(), View<I>> for Writing<A> {
    ghost use Rattle.std.specs.Prelude.{◌≡◌};
    ghost use Rattle.pool_pass.specs.Rule.{written, Tells};

    ghost then = { λ step before found after. (after ≡ (written A.added before.0, before.1)) × Tells after.0 };
}

/// The fourth kind: the book goes to a seat of its own.
pub struct LayingDown;

impl<I> Split<View<I>> for LayingDown {
    ghost use Rattle.pool_pass.specs.Rule.{without_book, book_alone};

    ghost left = { without_book };

    ghost right = { book_alone };
}
