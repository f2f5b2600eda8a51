//! The five kinds of step on a pool's table.
ghost use Rattle.std.specs.Prelude.{◌≡◌, ℕ, ◌<◌, [], None, length, drop};
ghost use Rattle.pool_pass.specs.Rule.{after_making, next_pass, taking_in, written, without_book, book_alone, Tells};
ghost use Rattle.pool_pass.specs.Passes.{book_in, holder_of};

use crate::listed::Listed;
use crate::views::{Added, LayingDown, Making, Nothing, TakingIn, Turns, View, Writing};
use atomic_table::{Seat, Shared, Table};
use std::alloc::Global;

/// The table of a pool: one word, which never changes.
pub type PoolTable<I> = Table<(), View<I>, u32, Turns, Global>;

/// The table as its steps see it.
pub type Steps<I> = Shared<(), View<I>, u32, Turns>;

/// A seat at the table of a pool.
pub type PoolSeat<I> = Seat<(), View<I>>;

/// The first kind: the maker makes the next pass.
pub fn make_pass<I>(steps: &Steps<I>, maker: &mut PoolSeat<I>) -> PoolSeat<I>
    requires table { (maker.old.table_id ≡ steps.now.table_id) × (0 < steps.now.table_id.words) }
    requires left { 0 < maker.old.me.0.to_make }
    ensures maker { (maker.new.table_id ≡ maker.old.table_id) × (maker.new.me ≡ (after_making maker.old.me.0, maker.old.me.1)) }
    ensures made { (result.table_id ≡ maker.old.table_id) × (result.me ≡ (next_pass maker.old.me.0, [])) }
{
    steps.split_seat::<Making>(maker)
}

/// The second kind, and the fifth: the book joins a pass, or an ended pass does.
pub fn take_in<I>(steps: &Steps<I>, seat: &mut PoolSeat<I>, other: PoolSeat<I>)
    requires table { (seat.old.table_id ≡ steps.now.table_id) × (other.table_id ≡ steps.now.table_id) × (0 < steps.now.table_id.words) }
    requires pass { (seat.old.me.0.book ≡ None) × (seat.old.me.0.to_make ≡ 0) × (0 < length seat.old.me.0.kept) }
    requires other { (other.me.0.to_make ≡ 0) × (other.me.1 ≡ []) }
    ensures { (seat.new.table_id ≡ seat.old.table_id) × (seat.new.me ≡ (taking_in seat.old.me.0 other.me.0, seat.old.me.1)) }
{
    steps.join_seat::<TakingIn>(seat, other)
}

fn write<I, A: Added<I>>(steps: &Steps<I>, seat: &mut PoolSeat<I>)
    requires table { (seat.old.table_id ≡ steps.now.table_id) × (0 < steps.now.table_id.words) }
    requires holder { seat.old.me.0 ≡ holder_of seat.old.me.0 }
    ensures seat { (seat.new.table_id ≡ seat.old.table_id) × (seat.new.me ≡ (written A.added seat.old.me.0, seat.old.me.1)) }
    ensures tells { Tells seat.new.me.0 }
{
    steps.load::<Writing<A>>(seat, 0);
}

/// The third kind: what the value's list has behind the items of the book is put into the book, under the pass's number.
pub fn write_down<T: Listed, A: Added<T::Item>>(
    steps: &Steps<T::Item>,
    seat: &mut PoolSeat<T::Item>,
    value: &T,
)
    requires table { (seat.old.table_id ≡ steps.now.table_id) × (0 < steps.now.table_id.words) }
    requires holder { seat.old.me.0 ≡ holder_of seat.old.me.0 }
    requires items { A.added ≡ drop (length (book_in seat.old.me.0.book)) (T.list value.now) }
    ensures seat { (seat.new.table_id ≡ seat.old.table_id) × (seat.new.me ≡ (written (drop (length (book_in seat.old.me.0.book)) (T.list value.now)) seat.old.me.0, seat.old.me.1)) }
{
    write::<T::Item, A>(steps, seat)
}

/// The third kind with no items: what the book has under each number that the pass keeps.
pub fn look<I>(steps: &Steps<I>, seat: &mut PoolSeat<I>)
    requires table { (seat.old.table_id ≡ steps.now.table_id) × (0 < steps.now.table_id.words) }
    requires holder { seat.old.me.0 ≡ holder_of seat.old.me.0 }
    ensures seat { (seat.new.table_id ≡ seat.old.table_id) × (seat.new.me ≡ seat.old.me) }
    ensures tells { Tells seat.old.me.0 }
{
    write::<I, Nothing>(steps, seat)
}

/// The fourth kind: the book goes to a seat of its own.
pub fn lay_down<I>(steps: &Steps<I>, seat: &mut PoolSeat<I>) -> PoolSeat<I>
    requires table { (seat.old.table_id ≡ steps.now.table_id) × (0 < steps.now.table_id.words) }
    requires holder { (seat.old.me.0.to_make ≡ 0) × (seat.old.me.0 ≡ holder_of seat.old.me.0) }
    ensures seat { (seat.new.table_id ≡ seat.old.table_id) × (seat.new.me ≡ (without_book seat.old.me.0, seat.old.me.1)) }
    ensures book { (result.table_id ≡ seat.old.table_id) × (result.me ≡ (book_alone seat.old.me.0, [])) }
{
    steps.split_seat::<LayingDown>(seat)
}
