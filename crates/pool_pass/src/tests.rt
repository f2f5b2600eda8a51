//! Passes in threads of their own: what stands under each number, who waits for whom, and a pool that finds no memory.
ghost use Rattle.std.specs.Prelude.{◌≡◌, ◌+◌, ◌≤◌, ◌<◌, [], IfOk, IfSome, length, vec_len};
ghost use Rattle.std.specs.List.{All};
ghost use Rattle.pool_pass.specs.Passes.{Lengthens, kept, new_passes, with_list};

use crate::{Listed, Naming, NewPool, Pass, Passes, Pool, PoolParts};
use std::alloc::{AllocError, Global};
use std::marker::Brand;
use std::process::Abort;
use std::sync::Wait;
use std::test::Fail;
use std::thread;
use std::thread::Threads;

#[derive(Drop)]
struct Notes {
    items: Vec<u32>,
}

impl Listed for Notes {
    type Item = u32;

    ghost list = { λ notes. notes.items.items };
}

impl Notes {
    // No items, and room for some.
    fn with_room(alloc: Global, room: u32) -> Result<Notes, AllocError>
        ensures { IfOk result (λ notes. notes.items.items ≡ []) }
    {
        let items = Vec::with_capacity(alloc, room as usize)?;
        Ok(Notes { items })
    }

    // Whether there was room for one item more.
    fn add(&mut self, item: u32) -> bool
        ensures { Lengthens self.old.items.items self.new.items.items }
    {
        self.items.push(item).is_ok()
    }

    // Adds 1 at the first look, and 3 once another item stands behind that.
    fn add_around(&mut self) -> bool
        ensures { Lengthens self.old.items.items self.new.items.items }
    {
        match self.items.len() {
            0 => {
                self.add(1);
                false
            }
            1 => false,
            _ => self.add(3),
        }
    }

    // Adds 2 behind one item.
    fn add_between(&mut self) -> bool
        ensures { Lengthens self.old.items.items self.new.items.items }
    {
        self.items.len() == 1 && self.add(2)
    }
}

// A pass that is one of so many and keeps no other, and how many calls it is to make or has made.
#[derive(Drop)]
struct Turns<J: Naming, const ALL: u32> {
    pass: Pass<u32, J>,
    number: u32,
    calls: u32,
    ghost alone: { (pass.passes ≡ ALL) × (pass.joined ≡ []) },
}

// Each pass with its calls.
fn turns_of<J: Naming, const ALL: u32>(
    alloc: Global,
    mut passes: Passes<u32, J>,
    calls: u32,
) -> Result<Vec<Turns<J, ALL>>, AllocError>
    requires { (length passes ≡ ALL) × All (λ pass. (pass.passes ≡ ALL) × (pass.joined ≡ [])) passes }
    ensures { IfOk result (λ turns. vec_len turns ≡ ALL) }
{
    let mut turns = Vec::new(alloc);
    let mut number = 0u32;
    while let Some(pass) = passes.take_first() {
        turns.push(Turns {
            pass,
            number,
            calls,
        })?;
        number = number.wrapping_add(1);
    }
    Ok(turns)
}

// The calls of a pass, each of which adds one item.
fn add_each<W: Wait, J: Naming>(
    rt: &W,
    pool: &Pool<Notes, J>,
    pass: &mut Pass<u32, J>,
    number: u32,
    calls: u32,
)
    ensures { pass.new ≡ with_list pass.old pass.new.list }
{
    for call in 0..calls {
        let item = number.wrapping_mul(1000).wrapping_add(call);
        pass.call(rt, pool, |notes| notes.add(item));
    }
}

fn make_calls<W: Wait, J: Naming, const ALL: u32>(
    rt: &W,
    pool: &Pool<Notes, J>,
    turns: Turns<J, ALL>,
) -> Turns<J, ALL> {
    let Turns {
        mut pass,
        number,
        calls,
    } = turns;
    add_each(rt, pool, &mut pass, number, calls);
    Turns {
        pass,
        number,
        calls,
    }
}

// All passes joined into one.
fn joined<J: Naming, const ALL: u32>(
    pool: &Pool<Notes, J>,
    mut ended: Vec<Turns<J, ALL>>,
) -> Option<Pass<u32, J>>
    requires { vec_len ended ≡ ALL }
    ensures { IfSome result (λ pass. length (kept pass) ≡ pass.passes) }
{
    let Turns {
        mut pass,
        number: _,
        calls: _,
    } = ended.pop()?;
    while let Some(turns) = ended.pop() {
        pass.join(pool, turns.pass);
    }
    Some(pass)
}

// Each pass makes its calls in a thread of its own; then all are joined, and the pool is closed.
fn served<W: Threads + Wait + Sync, J: Naming + Send + Sync, const ALL: u32>(
    rt: &W,
    alloc: Global,
    new: NewPool<Notes>,
    calls: u32,
) -> Result<Option<Notes>, AllocError>
    requires table { new.table ≡ J.table }
    requires passes { (length new.passes ≡ ALL) × All (λ pass. (pass.passes ≡ ALL) × (pass.joined ≡ [])) new.passes }
{
    let PoolParts { pool, passes } = new.named::<J>();
    let shared = &pool;
    let turns = turns_of::<J, ALL>(alloc, passes, calls)?;
    let ended = thread::map_vec(
        rt,
        turns,
        &|turns: Turns<J, ALL>| make_calls(rt, shared, turns),
    )?;
    Ok(joined(shared, ended).map(|pass| pool.close(pass)))
}

// The value of a new pool over no items.
fn new_pool(alloc: Global, passes: u32, room: u32) -> Result<NewPool<Notes>, AllocError>
    requires { 1 ≤ passes }
    ensures { IfOk result (λ new. new.passes ≡ new_passes passes []) }
{
    let notes = Notes::with_room(alloc, room)?;
    match Pool::open(alloc, notes, passes) {
        Ok(new) => Ok(new),
        Err(_) => Err(AllocError),
    }
}

// Under each number stand the items of its calls, in their order, and there are no others.
fn holds_all<R: Abort>(rt: &R, notes: &Notes, passes: u32, calls: u32) {
    let mut others = notes.items.len();
    for number in 0..passes {
        let mut call = 0;
        for item in &notes.items {
            if *item / 1000 == number {
                assert_eq!(rt; *item % 1000, call, "of pass {number}");
                call = call.wrapping_add(1);
                others = others.saturating_sub(1);
            }
        }
        assert_eq!(rt; call, calls, "of pass {number}");
    }
    assert_eq!(rt; others, 0);
}

fn served_by_three<W: Threads + Wait + Sync, J: Naming + Send + Sync>(
    rt: &W,
    alloc: Global,
    new: NewPool<Notes>,
) -> Result<Option<Notes>, AllocError>
    requires table { new.table ≡ J.table }
    requires passes { new.passes ≡ new_passes 3 [] }
{
    served::<W, J, 3>(rt, alloc, new, 2)
}

#[test]
fn each_number_has_what_its_pass_pushed(rt: HostRuntime) -> Result<(), Fail> {
    let new = new_pool(rt.alloc(), 3, 6)?;
    let notes = served_by_three::<_, Brand>(&rt, rt.alloc(), new)?.ok_or("a pass")?;
    holds_all(&rt, &notes, 3, 2);
    Ok(())
}

fn served_by_eight<W: Threads + Wait + Sync, J: Naming + Send + Sync>(
    rt: &W,
    alloc: Global,
    new: NewPool<Notes>,
) -> Result<Option<Notes>, AllocError>
    requires table { new.table ≡ J.table }
    requires passes { new.passes ≡ new_passes 8 [] }
{
    served::<W, J, 8>(rt, alloc, new, 125)
}

#[test]
fn a_thousand_calls_by_eight_passes(rt: HostRuntime) -> Result<(), Fail> {
    let new = new_pool(rt.alloc(), 8, 1000)?;
    let notes = served_by_eight::<_, Brand>(&rt, rt.alloc(), new)?.ok_or("a pass")?;
    holds_all(&rt, &notes, 8, 125);
    Ok(())
}

// Two passes, of which the second waits until the first has answered what it added.
fn taken_in_turn<W: Threads + Wait + Sync, J: Naming + Send + Sync>(
    rt: &W,
    new: NewPool<Notes>,
) -> Option<Notes>
    requires table { new.table ≡ J.table }
    requires passes { new.passes ≡ new_passes 2 [] }
{
    let PoolParts { pool, mut passes } = new.named::<J>();
    let (first, second) = (passes.take_first()?, passes.take_first()?);
    let shared = &pool;
    let (mut first, second) = thread::join(
        rt,
        move || add_when_it_waits(rt, shared, first),
        move || add_around(rt, shared, second),
    );
    first.join(shared, second);
    Some(pool.close(first))
}

fn add_around<W: Wait, J: Naming>(
    rt: &W,
    pool: &Pool<Notes, J>,
    mut pass: Pass<u32, J>,
) -> Pass<u32, J>
    ensures { result ≡ with_list pass result.list }
{
    pass.call_until(rt, pool, |notes| notes.add_around());
    pass
}

fn add_when_it_waits<W: Wait, J: Naming>(
    rt: &W,
    pool: &Pool<Notes, J>,
    mut pass: Pass<u32, J>,
) -> Pass<u32, J>
    ensures { result ≡ with_list pass result.list }
{
    for _ in rt.forever() {
        if pass.call(rt, pool, |notes| notes.add_between()) {
            return pass;
        }
        thread::yield_now();
    }
    unreachable!()
}

#[test]
fn a_pass_waits_for_another(rt: HostRuntime) -> Result<(), Fail> {
    let new = new_pool(rt.alloc(), 2, 3)?;
    let notes = taken_in_turn::<_, Brand>(&rt, new).ok_or("two passes")?;
    assert!(rt; notes.items.as_slice() == [1, 2, 3].as_slice());
    Ok(())
}

// Where the table finds no memory, its allocation being refused by whoever runs this, the value is still there.
#[test]
fn want_of_memory_hands_the_value_back(rt: HostRuntime) -> Result<(), Fail> {
    let mut notes = Notes::with_room(rt.alloc(), 1)?;
    notes.add(7);
    if let Err(refused) = Pool::open(rt.alloc(), notes, 3) {
        assert!(rt; refused.value.items.as_slice() == [7].as_slice());
        println!(rt; "the value came back")?;
    }
    Ok(())
}
