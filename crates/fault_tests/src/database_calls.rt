//! `dli_calls`: calls on the rows of one account, what they need, and what they would change.
ghost use Rattle.std.specs.Prelude.{◌≡◌, ◌≤◌, length, IsTrue};
ghost use Rattle.std.specs.List.{list_all};
ghost use Rattle.tm_types.specs.Segment.{is_printable};
ghost use Rattle.model_data.specs.Conditions.{IsDbCall, IsPosition};

use crate::databases::accounts;
use dli_calls::{DbCall, Position, needs, perform, would_change};
use seg_rows::{PlainRows, Rows, decode_record};
use std::alloc::Global;
use std::test::Fail;
use tm_types::processing::{DELETE, GET, INSERT, REPLACE};
use tm_types::{Bytes, Dbd, Function, Mode, SegTypes, Ssas, Status, is_printable};

const ALL: u8 = GET + INSERT + REPLACE + DELETE;

// A call without arguments.
fn call(alloc: Global, function: Function, area: &[u8]) -> Result<DbCall, Fail> {
    Ok(DbCall {
        function,
        options: ALL,
        area: Bytes::copied(alloc, area)?,
        ssas: Ssas::new(alloc),
    })
}

fn are_printable(bytes: &[u8]) -> bool
    ensures { result ≡ list_all is_printable bytes.now }
{
    bytes.iter().all(|&byte| is_printable(byte))
}

// Whether a program may make the call, which is no insert.
fn is_call(types: &SegTypes, call: &DbCall) -> bool
    requires { length types.now ≤ 255 }
    ensures { IsTrue result → IsDbCall types.now call.now }
{
    if !are_printable(call.area.as_slice()) {
        return false;
    }
    match call.function {
        Function::ISRT => false,
        Function::GU => true,
        _ => true,
    }
}

// Makes a call, and compares the data that it gives, and what it changes with what it would; `None` where they differ.
fn make_call<R: Rows>(
    alloc: Global,
    dbd: &Dbd,
    call: &DbCall,
    position: &mut Position,
    rows: &mut R,
    data: &[u8],
) -> Option<Status>
    requires rows { R.database rows.old ≡ dbd.now }
    requires position { IsPosition dbd.now.types position.old }
    ensures database { R.database rows.new ≡ R.database rows.old }
    ensures position { IsPosition dbd.now.types position.new }
{
    if dbd.types.len() > 255 || !is_call(&dbd.types, call) {
        return None;
    }
    let Ok(expected) = would_change(dbd, call, position, rows) else {
        return None;
    };
    match perform(alloc, dbd, call, position, rows) {
        Ok(performed) => {
            if performed.changed != expected || !gives(performed.area, data) {
                return None;
            }
            Some(performed.status)
        }
        Err(_) => None,
    }
}

// Whether a call gave this data; none is no data.
fn gives(area: Option<Bytes>, data: &[u8]) -> bool {
    match area {
        Some(bytes) => !bytes.is_empty() && bytes.as_slice() == data,
        None => data.is_empty(),
    }
}

// Whether a call needs just this: `s` shared or `x` alone, before a root, or before `-` for the
// sequence.
fn asks<R: Rows>(
    alloc: Global,
    dbd: &Dbd,
    call: &DbCall,
    position: &Position,
    rows: &mut R,
    text: &[u8],
) -> Result<bool, Fail>
    requires rows { R.database rows.old ≡ dbd.now }
    requires position { IsPosition dbd.now.types position.now }
    ensures { R.database rows.new ≡ R.database rows.old }
{
    if dbd.types.len() > 255 || !is_call(&dbd.types, call) {
        return Ok(false);
    }
    let Ok(needs) = needs(alloc, dbd, call, position, rows) else {
        return Ok(false);
    };
    let mut told = Bytes::new(alloc);
    for need in needs.as_slice() {
        told.push(if need.mode == Mode::Shared {
            b's'
        } else {
            b'x'
        })?;
        match &need.root {
            Some(root) => told.append(root.as_bytes())?,
            None => told.push(b'-')?,
        }
    }
    Ok(told.as_slice() == text)
}

// A call with its data, what it needs, its status, and the data that it gives.
type Step<'a> = (Function, &'a [u8], &'a [u8], Status, &'a [u8]);

// Makes the calls one after the other. Answers how many ended as their steps say.
fn run_steps<R: Rows>(
    alloc: Global,
    dbd: &Dbd,
    position: &mut Position,
    rows: &mut R,
    steps: &[Step],
) -> Result<usize, Fail>
    requires rows { R.database rows.old ≡ dbd.now }
    requires position { IsPosition dbd.now.types position.old }
    ensures database { R.database rows.new ≡ R.database rows.old }
    ensures position { IsPosition dbd.now.types position.new }
{
    for (place, step) in steps.iter().enumerate() {
        let call = call(alloc, step.0, step.1)?;
        if !asks(alloc, dbd, &call, position, rows, step.2)? {
            return Ok(place);
        }
        if make_call(alloc, dbd, &call, position, rows, step.4) != Some(step.3) {
            return Ok(place);
        }
    }
    Ok(steps.len())
}

// Sets the record that the bytes spell.
fn set_bytes<R: Rows>(alloc: Global, dbd: &Dbd, rows: &mut R, bytes: &[u8]) -> bool
    requires { (R.database rows.old).types ≡ dbd.now.types }
    ensures { R.database rows.new ≡ R.database rows.old }
{
    let Ok(image) = decode_record(alloc, dbd, bytes) else {
        return false;
    };
    let Some(root) = image.root() else {
        return false;
    };
    rows.set(&root, image).is_ok()
}

#[test]
fn calls_on_one_account(rt: HostRuntime) -> Result<(), Fail> {
    let alloc = rt.alloc();
    let dbd = accounts(alloc, 3)?;
    let mut rows = PlainRows::new(alloc, &dbd)?;
    assert!(rt; set_bytes(alloc, &dbd, &mut rows, b"\x01000100001000"));
    let mut position = Position::new();
    let steps: [Step; 8] = [
        (
            Function::GHU,
            b"",
            b"s-x0001",
            Status::Blank,
            b"000100001000",
        ),
        (
            Function::REPL,
            b"000100000995",
            b"x0001",
            Status::Blank,
            b"",
        ),
        (
            Function::GU,
            b"",
            b"s-s0001",
            Status::Blank,
            b"000100000995",
        ),
        (Function::GN, b"", b"s0001s-", Status::GB, b""),
        (
            Function::GHN,
            b"",
            b"s-x0001",
            Status::Blank,
            b"000100000995",
        ),
        (Function::DLET, b"", b"x0001x-", Status::Blank, b""),
        (Function::DLET, b"", b"", Status::DJ, b""),
        (Function::GU, b"", b"s-", Status::GE, b""),
    ];
    assert_eq!(rt;
        run_steps(alloc, &dbd, &mut position, &mut rows, &steps)?,
        8
    );
    Ok(())
}
