//! The pool: a value behind a lock, and the table that remembers its turns.
ghost use Rattle.std.specs.Prelude.{◌≡◌, ◌<◌, ◌≤◌, ◌-◌, ℕ, Bool, List, [], ◌∷◌, map, reverse, length, IfOk, IfErr};
ghost use Rattle.std.specs.List.{All};
ghost use Rattle.std.specs.Fn.{FnOnceTakesAtMut, FnOnceReturnsAtMut, CalledAtMut};
ghost use Rattle.std.specs.Vec.{vec_len, vec_capacity};
ghost use Rattle.pool_pass.specs.Rule.{maker};
ghost use Rattle.pool_pass.specs.Book.{items_of};
ghost use Rattle.pool_pass.specs.Passes.{PassState, NewPoolState, all_made, kept, pass_of, passes_from, new_passes, book_of, list_in, number_in, with_list, with_joined, IsBook, IsPass, IsShare, IsTurn, IsTurnsUntil, IsWhole, Lengthens, TakesAtMut};

use crate::listed::Listed;
use crate::locked::Locked;
use crate::naming::Naming;
use crate::pass::Pass;
use crate::passes::Passes;
use crate::steps::{PoolSeat, PoolTable, Steps, lay_down, make_pass, take_in, write_down};
use crate::views::View;
use atomic_table::{Badge, Table};
use std::alloc::Global;
use std::marker::{Brand, Model, PhantomData};
use std::sync::{Condvar, Mutex, Wait};
use tm_types::Memory;

/// A value behind a lock, which remembers the turns of its passes.
#[derive(Drop)]
pub struct Pool<T: Listed, J: Naming> {
    lock: Mutex<Locked<T, J>>,
    changed: Condvar,
    table: PoolTable<T::Item>,
    ghost named: { (table.shared.table_id ≡ J.table) × (0 < table.shared.table_id.words) },
}

/// A pool and its passes.
#[derive(Drop)]
pub struct PoolParts<T: Listed, J: Naming> {
    pub pool: Pool<T, J>,
    pub passes: Passes<T::Item, J>,
}

/// No memory was left for a pool. The value comes back.
#[derive(Drop)]
pub struct OpenPool<T> {
    pub memory: Memory,
    pub value: T,
}

/// A pool and its passes whose table has no name yet. To contracts it is its table and the list of its passes.
#[derive(Drop)]
pub struct NewPool<T: Listed> {
    value: T,
    book: Badge<View<T::Item>>,
    table: PoolTable<T::Item>,
    seats: Vec<PoolSeat<T::Item>>,
}

impl<T: Listed> Model for NewPool<T> {
    ghost Value = { NewPoolState T.Item };

    ghost view = { λ new. record { table = new.table.shared.table_id; passes = map (λ seat. pass_of seat.me.0) (reverse new.seats.items) } };

    ghost invariant = { λ new. (0 < new.table.shared.table_id.words) × (new.book.table_id ≡ new.table.shared.table_id) × IsBook new.book.views × (items_of (book_of new.book.views) ≡ T.list new.value) × All (λ seat. (seat.table_id ≡ new.table.shared.table_id) × IsPass seat.me) new.seats.items };
}

// The memory of a pool: its table with the maker's seat, and room for the seats of all passes.
struct Room<I> {
    table: PoolTable<I>,
    maker: PoolSeat<I>,
    seats: Vec<PoolSeat<I>>,
}

fn reserve<I>(alloc: Global, passes: u32) -> Result<Room<I>, Memory>
    requires { 1 ≤ passes }
    ensures table { IfOk result (λ room. (room.table.shared.table_id.words ≡ 1) × (room.maker.table_id ≡ room.table.shared.table_id) × (room.maker.me ≡ (maker passes, []))) }
    ensures seats { IfOk result (λ room. (room.seats.items ≡ []) × (passes ≤ vec_capacity room.seats)) }
{
    let seats = Vec::with_capacity(alloc, passes as usize)?;
    let (table, maker) = Table::of_words(alloc, &[0], &passes)?;
    Ok(Room {
        table,
        maker,
        seats,
    })
}

// Makes the passes that are left to make, each with its number.
fn make_passes<I>(
    steps: &Steps<I>,
    maker: &mut PoolSeat<I>,
    seats: &mut Vec<PoolSeat<I>>,
    left: u32,
)
    requires table { (maker.old.table_id ≡ steps.now.table_id) × (0 < steps.now.table_id.words) }
    requires left { (left ≡ maker.old.me.0.to_make) × (left < maker.old.me.0.passes) }
    requires room { (seats.old.items ≡ []) × (left < vec_capacity seats.old) }
    ensures maker { (maker.new.table_id ≡ maker.old.table_id) × (maker.new.me ≡ (all_made maker.old.me.0, maker.old.me.1)) }
    ensures made { map (λ seat. pass_of seat.me.0) seats.new.items ≡ passes_from maker.old.me.0.passes (maker.old.me.0.passes - left) left }
    ensures passes { All (λ seat. (seat.table_id ≡ steps.now.table_id) × IsPass seat.me) seats.new.items }
    ensures room { (vec_len seats.new ≡ left) × (vec_capacity seats.new ≡ vec_capacity seats.old) }
{
    for _ in 0..left {
        let pass = make_pass(steps, maker);
        seats.push_reserved(pass);
    }
}

impl<T: Listed> Pool<T, Brand> {
    /// A pool of `passes` passes over a value. Pass 0 has the value's list, and the other passes' lists are empty. For want of
    /// memory the value comes back.
    pub fn open(alloc: Global, value: T, passes: u32) -> Result<NewPool<T>, OpenPool<T>>
        requires { 1 ≤ passes }
        ensures opened { IfOk result (λ new. new.passes ≡ new_passes passes (T.list value)) }
        ensures refused { IfErr result (λ refused. refused.value ≡ value) }
    {
        match reserve(alloc, passes) {
            Ok(room) => Ok(NewPool::made(value, passes, room)),
            Err(memory) => Err(OpenPool { memory, value }),
        }
    }
}

impl<T: Listed, J: Naming> Pool<T, J> {
    fn turn<W: Wait, R, F: FnOnce(&mut T) -> R>(
        &self,
        rt: &W,
        seat: &mut PoolSeat<T::Item>,
        f: F,
    ) -> R
        requires table { seat.old.table_id ≡ J.table }
        requires pass { IsPass seat.old.me }
        requires takes { (x : T) → IsShare (number_in seat.old.me.0.kept) (list_in seat.old.me.0.kept) (T.list x) → FnOnceTakesAtMut F.FnOnce f x }
        requires lengthens { (x : T) (r : R) (y : T) → IsShare (number_in seat.old.me.0.kept) (list_in seat.old.me.0.kept) (T.list x) → FnOnceReturnsAtMut F.FnOnce f x r y → Lengthens (T.list x) (T.list y) }
        ensures seat { (seat.new.table_id ≡ seat.old.table_id) × IsPass seat.new.me }
        ensures same { pass_of seat.new.me.0 ≡ with_list (pass_of seat.old.me.0) (list_in seat.new.me.0.kept) }
        ensures turn { IsTurn T.list (number_in seat.old.me.0.kept) (λ x y. FnOnceReturnsAtMut F.FnOnce f x result y) (list_in seat.old.me.0.kept) (list_in seat.new.me.0.kept) }
    {
        let mut guard = self.lock.lock(rt);
        let answer = guard.turn(&self.table.shared, seat, f);
        drop(guard);
        self.changed.notify_all();
        answer
    }

    fn turns_until<W: Wait, F: FnMut(&mut T) -> bool>(
        &self,
        rt: &W,
        seat: &mut PoolSeat<T::Item>,
        mut f: F,
    )
        requires table { seat.old.table_id ≡ J.table }
        requires pass { IsPass seat.old.me }
        requires takes { (g : F) (x : T) (list : List T.Item) → Lengthens (list_in seat.old.me.0.kept) list → IsShare (number_in seat.old.me.0.kept) list (T.list x) → TakesAtMut F.FnMut g x }
        requires lengthens { (g : F) (x : T) (r : Bool) (h : F) (y : T) → CalledAtMut F.FnMut g x r h y → Lengthens (T.list x) (T.list y) }
        ensures seat { (seat.new.table_id ≡ seat.old.table_id) × IsPass seat.new.me }
        ensures same { pass_of seat.new.me.0 ≡ with_list (pass_of seat.old.me.0) (list_in seat.new.me.0.kept) }
        ensures turns { IsTurnsUntil T.list (number_in seat.old.me.0.kept) (λ g x r h y. CalledAtMut F.FnMut g x r h y) f (list_in seat.old.me.0.kept) (list_in seat.new.me.0.kept) }
    {
        let mut guard = self.lock.lock(rt);
        for _ in rt.forever() {
            if guard.turn_again(&self.table.shared, seat, &mut f) {
                drop(guard);
                self.changed.notify_all();
                return;
            }
            guard = self.changed.wait(rt, guard);
        }
        unreachable!()
    }

    /// The value, once all passes were joined into one.
    pub fn close(self, pass: Pass<T::Item, J>) -> T
        requires { length (kept pass) ≡ pass.passes }
        ensures { IsWhole (kept pass) (T.list result) }
    {
        let Pool {
            lock,
            changed: _,
            table,
        } = self;
        let Pass { mut seat, of: _ } = pass;
        lock.into_inner().close(&table.shared, &mut seat)
    }
}

impl<I, J: Naming> Pass<I, J> {
    /// Takes the lock, calls `f` once on the value, releases the lock and wakes those that wait. `f` only lengthens the value's
    /// list. The items of this pass's number in the value are the pass's list, which has at its end what `f` added.
    pub fn call<W: Wait, T: Listed<Item = I>, R, F: FnOnce(&mut T) -> R>(
        &mut self,
        rt: &W,
        pool: &Pool<T, J>,
        f: F,
    ) -> R
        requires takes { (x : T) → IsShare self.old.number self.old.list (T.list x) → FnOnceTakesAtMut F.FnOnce f x }
        requires lengthens { (x : T) (r : R) (y : T) → IsShare self.old.number self.old.list (T.list x) → FnOnceReturnsAtMut F.FnOnce f x r y → Lengthens (T.list x) (T.list y) }
        ensures same { self.new ≡ with_list self.old self.new.list }
        ensures turn { IsTurn T.list self.old.number (λ x y. FnOnceReturnsAtMut F.FnOnce f x result y) self.old.list self.new.list }
    {
        pool.turn(rt, &mut self.seat, f)
    }

    /// Makes such turns until `f` answers true, and waits between them until the value may have changed. A turn in which `f`
    /// answers false wakes nobody.
    pub fn call_until<W: Wait, T: Listed<Item = I>, F: FnMut(&mut T) -> bool>(
        &mut self,
        rt: &W,
        pool: &Pool<T, J>,
        f: F,
    )
        requires takes { (g : F) (x : T) (list : List I) → Lengthens self.old.list list → IsShare self.old.number list (T.list x) → TakesAtMut F.FnMut g x }
        requires lengthens { (g : F) (x : T) (r : Bool) (h : F) (y : T) → CalledAtMut F.FnMut g x r h y → Lengthens (T.list x) (T.list y) }
        ensures same { self.new ≡ with_list self.old self.new.list }
        ensures turns { IsTurnsUntil T.list self.old.number (λ g x r h y. CalledAtMut F.FnMut g x r h y) f self.old.list self.new.list }
    {
        pool.turns_until(rt, &mut self.seat, f)
    }

    /// Keeps the lists of an ended pass, its own under its number.
    pub fn join<T: Listed<Item = I>>(&mut self, pool: &Pool<T, J>, other: Pass<I, J>)
        ensures { self.new ≡ with_joined self.old other }
    {
        let Pass { seat, of: _ } = other;
        take_in(&pool.table.shared, &mut self.seat, seat);
    }
}

impl<T: Listed> NewPool<T> {
    fn made(value: T, passes: u32, room: Room<T::Item>) -> NewPool<T>
        requires passes { 1 ≤ passes }
        requires table { (room.table.shared.table_id.words ≡ 1) × (room.maker.table_id ≡ room.table.shared.table_id) × (room.maker.me ≡ (maker passes, [])) }
        requires seats { (room.seats.items ≡ []) × (passes ≤ vec_capacity room.seats) }
        ensures { result.passes ≡ new_passes passes (T.list value) }
    {
        let Room {
            table,
            mut maker,
            mut seats,
        } = room;
        write_down::<T, Brand>(&table.shared, &mut maker, &value);
        make_passes(&table.shared, &mut maker, &mut seats, passes - 1);
        let book = lay_down(&table.shared, &mut maker).into_badge();
        seats.reverse();
        seats.push_reserved(maker);
        NewPool {
            value,
            book,
            table,
            seats,
        }
    }

    /// The pool and its passes, under the name that the caller picked for its table.
    pub fn named<J: Naming>(self) -> PoolParts<T, J>
        requires { self.table ≡ J.table }
        ensures { result.passes ≡ self.passes }
    {
        let NewPool {
            value,
            book,
            table,
            seats,
        } = self;
        let pool = Pool {
            lock: Mutex::new(Locked::new(value, book)),
            changed: Condvar::new(),
            table,
        };
        PoolParts {
            pool,
            passes: Passes::seated(seats),
        }
    }
}
