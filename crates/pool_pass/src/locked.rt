//! What stands behind the lock of a pool.
ghost use Rattle.std.specs.Prelude.{◌≡◌, ◌<◌, ◌++◌, [], ◌∷◌, Bool, length, drop, true, false};
ghost use Rattle.std.specs.Fn.{FnOnceTakesAtMut, FnOnceReturnsAtMut, CalledAtMut};
ghost use Rattle.pool_pass.specs.Book.{items_of};
ghost use Rattle.pool_pass.specs.Rule.{Tells};
ghost use Rattle.pool_pass.specs.Passes.{PassState, pass_of, view_of, holding, book_in, book_of, IsBook, IsPass, IsShare, IsNoted, IsTurn, IsWhole, Lengthens, TakesAtMut, with_list, list_in, number_in};

use crate::listed::Listed;
use crate::naming::Naming;
use crate::steps::{PoolSeat, Steps, lay_down, look, take_in, write_down};
use crate::views::View;
use atomic_table::Badge;
use std::marker::{Brand, PhantomData};
use std::mem;

/// The value of a pool, and the seat of the book, which has the items of the value's list.
#[derive(Drop)]
pub struct Locked<T: Listed, J: Naming> {
    value: T,
    book: Badge<View<T::Item>>,
    of: PhantomData<J>,
    ghost named: { book.table_id ≡ J.table },
    ghost book_alone: { IsBook book.views },
    ghost listed: { items_of (book_of book.views) ≡ T.list value },
}

// The second kind of step, and a look at the book.
fn take_book<I>(steps: &Steps<I>, seat: &mut PoolSeat<I>, book: PoolSeat<I>)
    requires table { (seat.old.table_id ≡ steps.now.table_id) × (book.table_id ≡ steps.now.table_id) × (0 < steps.now.table_id.words) }
    requires pass { IsPass seat.old.me }
    requires book { IsBook (book.me.0 ∷ []) × (book.me.1 ≡ []) }
    ensures seat { (seat.new.table_id ≡ seat.old.table_id) × (seat.new.me ≡ (holding (pass_of seat.old.me.0) (book_in book.me.0.book), [])) }
    ensures tells { Tells seat.new.me.0 }
{
    take_in(steps, seat, book);
    look(steps, seat);
}

// The third kind and the fourth: what was added is written down, and the book goes to a seat of its own.
fn give_book<T: Listed>(
    steps: &Steps<T::Item>,
    seat: &mut PoolSeat<T::Item>,
    value: &T,
) -> PoolSeat<T::Item>
    requires table { (seat.old.table_id ≡ steps.now.table_id) × (0 < steps.now.table_id.words) }
    requires pass { seat.old.me ≡ (holding (pass_of seat.old.me.0) (book_in seat.old.me.0.book), []) }
    requires longer { Lengthens (items_of (book_in seat.old.me.0.book)) (T.list value.now) }
    ensures seat { (seat.new.table_id ≡ seat.old.table_id) × IsPass seat.new.me }
    ensures same { pass_of seat.new.me.0 ≡ with_list (pass_of seat.old.me.0) (list_in seat.new.me.0.kept) }
    ensures noted { IsNoted (items_of (book_in seat.old.me.0.book)) (T.list value.now) (list_in seat.old.me.0.kept) (list_in seat.new.me.0.kept) }
    ensures book { (result.table_id ≡ seat.old.table_id) × IsBook (result.me.0 ∷ []) × (result.me.1 ≡ []) }
    ensures listed { items_of (book_in result.me.0.book) ≡ T.list value.now }
{
    write_down::<T, Brand>(steps, seat, value);
    lay_down(steps, seat)
}

// One call of what a turn runs.
fn lend<T, R, F: FnOnce(&mut T) -> R>(value: &mut T, f: F) -> R
    requires { FnOnceTakesAtMut F.FnOnce f value.old }
    ensures { FnOnceReturnsAtMut F.FnOnce f value.old result value.new }
{
    f(value)
}

// And one of what is run again and again.
fn lend_again<T, R, F: FnMut(&mut T) -> R>(value: &mut T, f: &mut F) -> R
    requires { TakesAtMut F.FnMut f.old value.old }
    ensures { CalledAtMut F.FnMut f.old value.old result f.new value.new }
{
    f(value)
}

impl<T: Listed, J: Naming> Locked<T, J> {
    pub fn new(value: T, book: Badge<View<T::Item>>) -> Locked<T, J>
        requires named { book.table_id ≡ J.table }
        requires book { IsBook book.views × (items_of (book_of book.views) ≡ T.list value) }
    {
        Locked {
            value,
            book,
            of: PhantomData,
        }
    }

    /// One turn of the pass that has the lock.
    pub fn turn<R, F: FnOnce(&mut T) -> R>(
        &mut self,
        steps: &Steps<T::Item>,
        seat: &mut PoolSeat<T::Item>,
        f: F,
    ) -> R
        requires table { (steps.now.table_id ≡ J.table) × (seat.old.table_id ≡ J.table) × (0 < steps.now.table_id.words) }
        requires pass { IsPass seat.old.me }
        requires takes { (x : T) → IsShare (number_in seat.old.me.0.kept) (list_in seat.old.me.0.kept) (T.list x) → FnOnceTakesAtMut F.FnOnce f x }
        requires lengthens { (x : T) (r : R) (y : T) → IsShare (number_in seat.old.me.0.kept) (list_in seat.old.me.0.kept) (T.list x) → FnOnceReturnsAtMut F.FnOnce f x r y → Lengthens (T.list x) (T.list y) }
        ensures seat { (seat.new.table_id ≡ seat.old.table_id) × IsPass seat.new.me }
        ensures same { pass_of seat.new.me.0 ≡ with_list (pass_of seat.old.me.0) (list_in seat.new.me.0.kept) }
        ensures turn { IsTurn T.list (number_in seat.old.me.0.kept) (λ x y. FnOnceReturnsAtMut F.FnOnce f x result y) (list_in seat.old.me.0.kept) (list_in seat.new.me.0.kept) }
    {
        let book = mem::replace(&mut self.book, Badge::blank());
        take_book(steps, seat, book.into_seat());
        let answer = lend(&mut self.value, f);
        self.book = give_book(steps, seat, &self.value).into_badge();
        answer
    }

    /// One turn of a pass that makes turns until `f` answers true.
    pub fn turn_again<F: FnMut(&mut T) -> bool>(
        &mut self,
        steps: &Steps<T::Item>,
        seat: &mut PoolSeat<T::Item>,
        f: &mut F,
    ) -> bool
        requires table { (steps.now.table_id ≡ J.table) × (seat.old.table_id ≡ J.table) × (0 < steps.now.table_id.words) }
        requires pass { IsPass seat.old.me }
        requires takes { (x : T) → IsShare (number_in seat.old.me.0.kept) (list_in seat.old.me.0.kept) (T.list x) → TakesAtMut F.FnMut f.old x }
        requires lengthens { (x : T) (r : Bool) (g : F) (y : T) → IsShare (number_in seat.old.me.0.kept) (list_in seat.old.me.0.kept) (T.list x) → CalledAtMut F.FnMut f.old x r g y → Lengthens (T.list x) (T.list y) }
        ensures seat { (seat.new.table_id ≡ seat.old.table_id) × IsPass seat.new.me }
        ensures same { pass_of seat.new.me.0 ≡ with_list (pass_of seat.old.me.0) (list_in seat.new.me.0.kept) }
        ensures turn { IsTurn T.list (number_in seat.old.me.0.kept) (λ x y. CalledAtMut F.FnMut f.old x result f.new y) (list_in seat.old.me.0.kept) (list_in seat.new.me.0.kept) }
    {
        let book = mem::replace(&mut self.book, Badge::blank());
        take_book(steps, seat, book.into_seat());
        let answer = lend_again(&mut self.value, f);
        self.book = give_book(steps, seat, &self.value).into_badge();
        answer
    }

    /// The value, when all passes were joined into one.
    pub fn close(self, steps: &Steps<T::Item>, seat: &mut PoolSeat<T::Item>) -> T
        requires table { (steps.now.table_id ≡ J.table) × (seat.old.table_id ≡ J.table) × (0 < steps.now.table_id.words) }
        requires pass { IsPass seat.old.me }
        requires all { length seat.old.me.0.kept ≡ seat.old.me.0.passes }
        ensures { IsWhole seat.old.me.0.kept (T.list result) }
    {
        let Locked { value, book, of: _ } = self;
        take_book(steps, seat, book.into_seat());
        value
    }
}
