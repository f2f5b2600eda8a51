//! A pass of a pool.
ghost use Rattle.std.specs.Prelude.{◌≡◌, ◌++◌, [], length};
ghost use Rattle.pool_pass.specs.Passes.{PassState, pass_of, view_of, kept};

use crate::naming::Naming;
use crate::steps::PoolSeat;
use std::marker::{Model, PhantomData};

/// What lets its holder take the lock of a pool, and knows what was added in its turns. To contracts it is the number of
/// passes, its own number, its list, and the numbers that were joined into it, each with its list. It has no bytes.
#[derive(Drop)]
pub struct Pass<I, J: Naming> {
    pub(crate) seat: PoolSeat<I>,
    pub(crate) of: PhantomData<J>,
}

impl<I, J: Naming> Model for Pass<I, J> {
    ghost Value = { PassState I };

    ghost view = { λ pass. pass_of pass.seat.me.0 };

    ghost invariant = { λ pass. (pass.seat.table_id ≡ J.table) × (pass.seat.me ≡ (view_of (pass_of pass.seat.me.0), [])) };
}

impl<I, J: Naming> Pass<I, J> {
    pub(crate) fn seated(seat: PoolSeat<I>) -> Pass<I, J>
        requires table { seat.table_id ≡ J.table }
        requires pass { seat.me ≡ (view_of (pass_of seat.me.0), []) }
        ensures { result ≡ pass_of seat.me.0 }
    {
        Pass {
            seat,
            of: PhantomData,
        }
    }
}
