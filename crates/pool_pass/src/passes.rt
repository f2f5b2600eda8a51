//! The passes of a new pool.
ghost use Rattle.std.specs.Prelude.{◌≡◌, List, [], ◌∷◌, map, reverse, MatchOption};
ghost use Rattle.std.specs.List.{All};
ghost use Rattle.pool_pass.specs.Passes.{PassState, pass_of, IsPass};

use crate::naming::Naming;
use crate::pass::Pass;
use crate::steps::PoolSeat;
use std::marker::{Model, PhantomData};

/// The passes of a pool that nobody has taken yet. To contracts it is the list of them.
#[derive(Drop)]
pub struct Passes<I, J: Naming> {
    // the last is the first of the list
    seats: Vec<PoolSeat<I>>,
    of: PhantomData<J>,
}

impl<I, J: Naming> Model for Passes<I, J> {
    ghost Value = { List (PassState I) };

    ghost view = { λ passes. map (λ seat. pass_of seat.me.0) (reverse passes.seats.items) };

    ghost invariant = { λ passes. All (λ seat. (seat.table_id ≡ J.table) × IsPass seat.me) passes.seats.items };
}

impl<I, J: Naming> Passes<I, J> {
    pub(crate) fn seated(seats: Vec<PoolSeat<I>>) -> Passes<I, J>
        requires { All (λ seat. (seat.table_id ≡ J.table) × IsPass seat.me) seats.items }
        ensures { result ≡ map (λ seat. pass_of seat.me.0) (reverse seats.items) }
    {
        Passes {
            seats,
            of: PhantomData,
        }
    }

    /// The first of the passes, which leaves the list; `None` where there is none.
    pub fn take_first(&mut self) -> Option<Pass<I, J>>
        ensures { MatchOption result ((self.old ≡ []) × (self.new ≡ [])) (λ pass. self.old ≡ pass ∷ self.new) }
    {
        let seat = self.seats.pop()?;
        Some(Pass::seated(seat))
    }
}
