//! `pi_enqueue` and `deadlock_pick`: requests one by one, and the ring that they close.
use deadlock_pick::cycle_through;
use pi_enqueue::{Asked, Table};
use std::test::Fail;
use tm_types::{Key, Mode, Resource};

// The region asks for a record: the region for which it then waits, or 0 where it gets the record.
fn ask(table: &mut Table, region: u32, root: u8, mode: Mode) -> Result<u32, Fail> {
    let key = Key::read(&[root]).ok_or("no key")?;
    if region < 1 || region > table.regions() {
        Err("no such region")?;
    }
    match table.waits(region) {
        Some(_) => Err("it waits already")?,
        None => {}
    }
    let resource = Resource {
        db: 1,
        root: Some(key),
    };
    match table.ask(region, resource, mode)? {
        Asked::Granted => Ok(0),
        Asked::Waits(by) => Ok(by),
    }
}

// The regions ask for records, one after another; whether each then waits for the region that is told.
fn asks(table: &mut Table, steps: &[(u32, u8, Mode, u32)]) -> Result<bool, Fail> {
    for (region, root, mode, by) in steps {
        if ask(table, *region, *root, *mode)? != *by {
            return Ok(false);
        }
    }
    Ok(true)
}

// How many regions the least ring through the region has; 0 where there is none.
fn ring(table: &Table, region: u32) -> Result<usize, Fail> {
    if region < 1 || region > table.regions() || table.regions() > 8 {
        Err("no such region")?;
    }
    match cycle_through(table, region)? {
        Some(cycle) => Ok(cycle.as_slice().len()),
        None => Ok(0),
    }
}

#[test]
fn two_readers_that_both_want_to_write(rt: HostRuntime) -> Result<(), Fail> {
    let mut table = Table::new(rt.alloc(), 2)?;
    let steps = [
        (1, b'A', Mode::Shared, 0),
        (2, b'A', Mode::Shared, 0),
        (1, b'A', Mode::Exclusive, 2),
    ];
    assert_eq!(rt; asks(&mut table, &steps)?, true);
    assert_eq!(rt; ring(&table, 1)?, 0);
    assert_eq!(rt; ask(&mut table, 2, b'A', Mode::Exclusive)?, 1);
    assert_eq!(rt; ring(&table, 2)?, 2);
    Ok(())
}
