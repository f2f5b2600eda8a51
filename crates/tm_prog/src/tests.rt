//! The worked rows, and what no session reaches: calls that fail, and lives that are told.

use crate::test_faults::{
    ANSWERS, CALLS, ENDS, READS, RESTARTED, SHORT, SMALL, STOPPED, THERE, THERE_PRINTED, TURNS,
    TURNS_PRINTED,
};
use crate::test_runs::{DRILL, compare, disk_of, expect, joined, told, told_new};
use crate::test_system::{
    BEHIND_QUEUES, DOUBLE_SYSTEM, FILLED_DOUBLE, FILLED_SYSTEM, SERIAL_SYSTEM, SYSTEM,
};
use crate::worked_rows::{
    ACCOUNT_OPENED, ACCOUNT_ROWS, BROKEN_COLD, COLD_STARTS, CUT_AT_THE_END, CUT_AT_THE_END_PRINTED,
    FILLED, FILLED_DOUBLE_PRINTED, FILLED_SINGLE_PRINTED, HALF, HALF_PRINTED, ONE_ECHO, OPENED,
    OPENED_PRINTED, ROWS, SERIAL, SERIAL_PRINTED, TAKEN_BACK, TAKEN_BACK_PRINTED, WORDS,
    WORKED_OFF, WORKED_OFF_WRITES,
};
use std::alloc::{AllocError, Global};
use std::test::Fail;
use tm_disk::{Disk, MemDisk, Sector};

#[test]
fn worked_rows(rt: HostRuntime) -> Result<(), Fail> {
    let alloc = rt.alloc();
    for (shows, lines, printed) in ROWS {
        expect(alloc, shows, &[lines], (0, &[printed]))?;
    }
    for (shows, lines, printed) in ACCOUNT_ROWS {
        expect(
            alloc,
            shows,
            &[OPENED, lines],
            (0, &[OPENED_PRINTED, printed]),
        )?;
    }
    for (words, printed) in WORDS {
        let disk = disk_of(alloc, 0, &[])?;
        let report = told(alloc, words, b"", (&[1], &[]), disk)?;
        compare("words", &report, (1, printed))?;
    }
    Ok(())
}

/// Where each write of a session fails, and none behind them.
#[test]
fn forced_answers(rt: HostRuntime) -> Result<(), Fail> {
    let alloc = rt.alloc();
    for (power, status, printed) in WORKED_OFF_WRITES {
        expect(
            alloc,
            "a write of an answer",
            &[power, WORKED_OFF],
            (*status, &[printed]),
        )?;
    }
    Ok(())
}

/// The force at the end of a source fails, and where that can't be told the status is that of a sink.
#[test]
fn cut_ends(rt: HostRuntime) -> Result<(), Fail> {
    let alloc = rt.alloc();
    let told_all = joined(alloc, CUT_AT_THE_END_PRINTED)?;
    let wanted: &[&[u8]] = &[&told_all, b"STATUS 3 DOWN\n"];
    expect(alloc, "an end that is cut", &[CUT_AT_THE_END], (3, wanted))?;
    let Some(before) = CUT_AT_THE_END_PRINTED.first() else {
        return Err("nothing is printed".into());
    };
    let system = joined(alloc, SYSTEM)?;
    let source = joined(alloc, &[&system, CUT_AT_THE_END])?;
    let disk = disk_of(alloc, 1517, &[])?;
    let report = told(alloc, DRILL, &source, (&[], &[4]), disk)?;
    compare("an end that can't be told", &report, (5, before))
}

#[test]
fn serial_codes(rt: HostRuntime) -> Result<(), Fail> {
    let alloc = rt.alloc();
    let system = joined(alloc, SERIAL_SYSTEM)?;
    let source = joined(alloc, &[&system, SERIAL])?;
    let disk = disk_of(alloc, 1517, &[])?;
    let report = told(alloc, DRILL, &source, (&[], &[]), disk)?;
    compare("a serial code", &report, (0, SERIAL_PRINTED))
}

/// A system whose records have two sectors needs a larger disk, and a record of it has room for 4,004 bytes.
#[test]
fn double_records(rt: HostRuntime) -> Result<(), Fail> {
    let alloc = rt.alloc();
    let system = joined(alloc, DOUBLE_SYSTEM)?;
    let disk = disk_of(alloc, 1517, &[])?;
    let report = told(alloc, DRILL, &system, (&[], &[]), disk)?;
    compare("a small disk", &report, (6, b"STATUS 6 SIZE 1875 1517\n"))?;
    let single = joined(alloc, FILLED_SYSTEM)?;
    let source = joined(alloc, &[&single, OPENED, FILLED])?;
    let disk = disk_of(alloc, 1517, &[])?;
    let report = told(alloc, DRILL, &source, (&[], &[]), disk)?;
    let printed = joined(alloc, &[OPENED_PRINTED, FILLED_SINGLE_PRINTED])?;
    compare("a record of one sector", &report, (0, &printed))?;
    let double = joined(alloc, FILLED_DOUBLE)?;
    let source = joined(alloc, &[&double, OPENED, FILLED])?;
    let disk = disk_of(alloc, 1875, &[])?;
    let report = told(alloc, DRILL, &source, (&[], &[]), disk)?;
    let printed = joined(alloc, &[OPENED_PRINTED, FILLED_DOUBLE_PRINTED])?;
    compare("a record of two sectors", &report, (0, &printed))
}

/// Sets the version that a disk's restart sector tells.
fn set_version(disk: &mut MemDisk, version: u8) -> Result<(), Fail> {
    let mut sector = Sector::blank();
    if disk.sectors() == 0 || disk.read(0, &mut sector).is_err() {
        return Err("no restart sector".into());
    }
    sector.set(7, &[version]);
    if disk.write(0, &sector).is_err() {
        return Err("the disk failed".into());
    }
    Ok(())
}

/// An image of version 1 is opened, and left as one of version 2.
#[test]
fn old_images(rt: HostRuntime) -> Result<(), Fail> {
    let alloc = rt.alloc();
    let mut disk = told_new(alloc, &[ACCOUNT_OPENED])?.disk;
    set_version(&mut disk, 1)?;
    let system = joined(alloc, SYSTEM)?;
    let source = joined(alloc, &[&system, b"/DISPLAY LTERM T9\n"])?;
    let report = told(alloc, DRILL, &source, (&[], &[]), disk)?;
    let shown = b"LTERM T9 IN 1 OUT 1 KEPT 0 STARTED\n";
    compare("an image of version 1", &report, (0, shown))?;
    let mut disk = report.disk;
    assert_eq!(rt; byte_of(&mut disk, 0, 7), 2);
    Ok(())
}

/// A checkpoint with an open unit makes five writes. Whichever of them fails, and whatever is left of it, the unit is taken back and its
/// message is there. A sixth isn't made.
#[test]
fn cut_checkpoints(rt: HostRuntime) -> Result<(), Fail> {
    let alloc = rt.alloc();
    for write in 1..6u8 {
        for pick in 0..9u8 {
            let (write, pick) = (b'0' + write % 10, b'0' + pick % 10);
            let power = [
                b'P', b'O', b'W', b'E', b'R', b' ', b'I', b'N', b' ', write, b' ', pick, b'\n',
            ];
            let armed = [b'A', b'R', b'M', b'E', b'D', b' ', write, b'\n'];
            let lines = &[OPENED, HALF, &power, TAKEN_BACK];
            let printed = &[OPENED_PRINTED, HALF_PRINTED, &armed, TAKEN_BACK_PRINTED];
            expect(alloc, "a checkpoint is cut", lines, (0, printed))?;
        }
    }
    let lines: &[&[u8]] = &[OPENED, HALF, b"POWER IN 6 0\n/CHECKPOINT\n"];
    let printed: &[&[u8]] = &[OPENED_PRINTED, HALF_PRINTED, b"ARMED 6\nCHECKPOINT 2\n"];
    expect(alloc, "a checkpoint of five writes", lines, (0, printed))
}

/// An input of so many segments of so many bytes each, the first beginning with a code.
fn long_input(
    alloc: Global,
    head: &[u8],
    segments: u32,
    bytes: usize,
) -> Result<Vec<u8>, AllocError> {
    let mut lines = head.to_vec(alloc)?;
    lines.extend_from_slice(b"ECHO ")?;
    for _ in 5..bytes {
        lines.push(b'x')?;
    }
    lines.push(b'\n')?;
    for _ in 1..segments {
        lines.extend_from_slice(b"+ ")?;
        for _ in 0..bytes {
            lines.push(b'x')?;
        }
        lines.push(b'\n')?;
    }
    Ok(lines)
}

/// A queue that is full to its last byte, a disk that is too small, and one with another system's image.
#[test]
fn rooms(rt: HostRuntime) -> Result<(), Fail> {
    let alloc = rt.alloc();
    let behind = joined(alloc, BEHIND_QUEUES)?;
    let first = long_input(alloc, b"IN T1 1 ", 16, 1996)?;
    let second = long_input(alloc, b"IN T1 2 ", 16, 1996)?;
    let over = long_input(alloc, b"IN T1 3 ", 1, 1389)?;
    let fits = long_input(alloc, b"IN T1 3 ", 1, 1388)?;
    let line: &[u8] = b"IMSCTRL QBYTES=131072,LOGS=256\n";
    let turns: &[u8] = b"TURN 1\nTURN 2\n";
    let source = joined(
        alloc,
        &[line, &behind, &first, &second, &over, &fits, turns],
    )?;
    let report = told(
        alloc,
        DRILL,
        &source,
        (&[], &[]),
        disk_of(alloc, 1517, &[])?,
    )?;
    let printed =
        b"ACK T1 1\nACK T1 2\nREFUSED T1 3 QUEUE FULL 131073 131072\nACK T1 3\nR1 SCHEDULED ECHO 1\nR2 HELD 196608 131072\n";
    compare("a full queue", &report, (0, printed))?;

    let system = joined(alloc, SYSTEM)?;
    let report = told(
        alloc,
        DRILL,
        &system,
        (&[], &[]),
        disk_of(alloc, 1000, &[])?,
    )?;
    let small: &[u8] = b"STATUS 6 SIZE 1517 1000\n";
    compare("a small disk", &report, (6, small))?;

    let begun = told(
        alloc,
        DRILL,
        &system,
        (&[], &[]),
        disk_of(alloc, 1517, &[])?,
    )?;
    compare("an empty session", &begun, (0, b""))?;
    let line: &[u8] = b"IMSCTRL QBYTES=1048577,LOGS=256\n";
    let other = joined(alloc, &[line, &behind])?;
    let report = told(alloc, DRILL, &other, (&[], &[]), begun.disk)?;
    compare("another text", &report, (6, b"STATUS 6 TEXT 21\n"))
}

/// The same words give the same summary: each input is accepted and completed, and no money comes or goes. How often a region gives way isn't
/// told beforehand.
#[test]
fn workloads(rt: HostRuntime) -> Result<(), Fail> {
    let alloc = rt.alloc();
    let words = &["workload", "7", "2000"];
    let sum = told(alloc, words, b"", (&[1], &[]), disk_of(alloc, 16384, &[])?)?;
    let front: &[u8] = b"WORKLOAD 7 2000\nACCEPTED 2101\nDONE 2101\nABENDED 0\nU0777 ";
    if !sum.printed.starts_with(front) || !sum.printed.ends_with(b"\nSUM 00100000\n") {
        return Err("a workload".into());
    }
    let again = told(alloc, words, b"", (&[1], &[]), disk_of(alloc, 16384, &[])?)?;
    compare("a workload again", &again, (0, &sum.printed))
}

/// What is told of lives: none without a definition, one with an empty history without a line; and behind a cold start that broke off
/// the three steps that were forced, whether the restart finds them or the empty machine.
#[test]
fn lives(rt: HostRuntime) -> Result<(), Fail> {
    let alloc = rt.alloc();
    let report = told(alloc, DRILL, b"", (&[], &[]), disk_of(alloc, 1517, &[])?)?;
    assert!(rt; report.lives.is_empty());
    let report = told_new(alloc, &[])?;
    assert_eq!(rt; report.lives.len(), 1);
    for (history, kept) in &report.lives {
        assert_eq!(rt; *history, 0);
        assert_eq!(rt; *kept, 0);
    }
    for (power, shown) in COLD_STARTS {
        let report = told_new(alloc, &[ONE_ECHO, power, BROKEN_COLD])?;
        assert_eq!(rt; report.status, 0);
        assert!(rt; report.printed.ends_with(shown));
        let Some((_, kept)) = report.lives.first() else {
            return Err("no life is told".into());
        };
        assert_eq!(rt; *kept, 3);
        assert_eq!(rt; report.stops, 1);
    }
    Ok(())
}

/// Whether a session ends so, over a disk of which this call fails, a read, a write or a sync.
fn ends_at(alloc: Global, call: u64, wanted: (u8, &[u8])) -> Result<bool, Fail> {
    let restarts = b"POWER 0\n/ERESTART\n/ERESTART\n";
    let source = joined(alloc, &[SMALL, SHORT, restarts, SHORT, THERE])?;
    let disk = disk_of(alloc, 455, &[call])?;
    let report = told(alloc, DRILL, &source, (&[], &[]), disk)?;
    Ok(report.status == wanted.0 && report.printed.as_slice() == wanted.1 && report.stops == 1)
}

/// Each call of the disk fails in turn: nothing that was acknowledged is lost, and what was not is as if it had not been sent. Behind the
/// calls up to the second opening come those of that opening, until one fails in the session behind it, which ends while it is down.
#[test]
fn failing_calls(rt: HostRuntime) -> Result<(), Fail> {
    let alloc = rt.alloc();
    let mut call = 0u64;
    for (calls, front) in CALLS {
        let wanted = joined(alloc, &[front, THERE_PRINTED])?;
        for _ in 0..*calls {
            call = call.saturating_add(1);
            assert!(rt; ends_at(alloc, call, (0, &wanted))?);
        }
    }
    for call in 151..1000u64 {
        if !ends_at(alloc, call, (0, RESTARTED))? {
            // It has read all of both log areas, and written a snapshot and the restart sector.
            assert!(rt; call > 151 + 128 + 2);
            assert!(rt; ends_at(alloc, call, (3, STOPPED))?);
            return Ok(());
        }
    }
    Err("no session ends while it is down".into())
}

/// Whether three restarts behind a stop end so, over a disk of which these calls fail. An account was opened, and no checkpoint taken.
fn restarts_so(alloc: Global, calls: &[u64], restarted: &[u8]) -> Result<bool, Fail> {
    let lines =
        b"IN T9 1 OPEN 0001 1000\nQUIET 100\nRECV T9\nACK T9 1\nPOWER 0\n/ERESTART\n/ERESTART\n/ERESTART\n";
    let before = b"ACK T9 1\nQUIET 5\nOUT T9 1 OPENED 0001\nACKED T9 1\nPOWER\n";
    let source = joined(alloc, &[SMALL, lines, THERE])?;
    let wanted = joined(alloc, &[before, restarted, THERE_PRINTED])?;
    let disk = disk_of(alloc, 455, calls)?;
    let report = told(alloc, DRILL, &source, (&[], &[]), disk)?;
    Ok(report.status == 0 && report.printed.as_slice() == wanted.as_slice())
}

/// A restart whose log names a slot writes and syncs the slot, the snapshot and the restart sector. Whichever of these six calls fails,
/// and whichever of the next restart, what was acknowledged is there behind the third.
#[test]
fn failing_restarts(rt: HostRuntime) -> Result<(), Fail> {
    let alloc = rt.alloc();
    // The first opening makes 138 calls, and three steps make two each.
    for end in 145..1000u64 {
        if !restarts_so(alloc, &[end], b"STOPPED\nRESTARTED\nUP\n")? {
            // It has read all of both log areas.
            assert!(rt; end > 145 + 128 + 6);
            for back in 1..7u64 {
                let call = end.saturating_sub(back);
                for place in 0..6u64 {
                    let again = call.saturating_add(end).saturating_sub(145 + place);
                    let restarted = b"STOPPED\nSTOPPED\nRESTARTED\n";
                    assert!(rt; restarts_so(alloc, &[call, again], restarted)?);
                }
            }
            return Ok(());
        }
    }
    Err("no restart ends".into())
}

/// A byte of a sector; 0 where there is none.
fn byte_of(disk: &mut MemDisk, at: u32, place: usize) -> u8 {
    let mut sector = Sector::blank();
    if at < disk.sectors() && disk.read(at, &mut sector).is_ok() {
        sector.bytes().get(place).copied().unwrap_or(0)
    } else {
        0
    }
}

/// No sync stands between the text and the snapshot of a first opening, and one stands between the snapshot and the restart sector: what
/// is left of the text, of the snapshot and of the restart sector where this call fails.
#[test]
fn failing_openings(rt: HostRuntime) -> Result<(), Fail> {
    let alloc = rt.alloc();
    for (call, text, snapshot) in [
        (135, 0, 0),
        (136, 0, 0),
        (137, b'I', b'I'),
        (138u64, b'I', b'I'),
    ] {
        let disk = disk_of(alloc, 455, &[call])?;
        let report = told(alloc, DRILL, SMALL, (&[], &[]), disk)?;
        compare("an opening fails", &report, (3, b"STATUS 3 DOWN\n"))?;
        let mut disk = report.disk;
        assert_eq!(rt; byte_of(&mut disk, 0, 0), 0);
        assert_eq!(rt; byte_of(&mut disk, 1, 0), text);
        assert_eq!(rt; byte_of(&mut disk, 65, 0), snapshot);
    }
    Ok(())
}

/// Sources and sinks that fail. Where an answer can't be written the program ends, and what it answered is there: sent again, all of it
/// stands once.
#[test]
fn failing_sources_and_sinks(rt: HostRuntime) -> Result<(), Fail> {
    let alloc = rt.alloc();
    for (lines, call, printed) in READS {
        let source = joined(alloc, &[SMALL, lines])?;
        let report = told(
            alloc,
            DRILL,
            &source,
            (&[*call], &[]),
            disk_of(alloc, 455, &[])?,
        )?;
        compare("a source that fails", &report, (4, printed))?;
    }
    let source = joined(alloc, &[SMALL, SHORT])?;
    let again = joined(alloc, &[SMALL, SHORT, THERE])?;
    let mut put = 1u64;
    for (before, behind) in ANSWERS {
        let report = told(
            alloc,
            DRILL,
            &source,
            (&[], &[put]),
            disk_of(alloc, 455, &[])?,
        )?;
        compare("an answer that can't be written", &report, (5, before))?;
        let wanted = joined(alloc, &[behind, THERE_PRINTED])?;
        let report = told(alloc, DRILL, &again, (&[], &[]), report.disk)?;
        compare("what is sent again", &report, (0, &wanted))?;
        put = put.saturating_add(1);
    }
    for (put, end) in ENDS {
        let source = joined(alloc, &[SMALL, TURNS])?;
        let Some(before) = TURNS_PRINTED.get(..*end) else {
            return Err("the places are wrong".into());
        };
        let report = told(
            alloc,
            DRILL,
            &source,
            (&[], &[*put]),
            disk_of(alloc, 455, &[])?,
        )?;
        compare("a turn that can't be written", &report, (5, before))?;
    }
    // A workload whose session can't be run to its end, or whose summary can't be written. The first cause that is met counts.
    let words = &["workload", "7", "1"];
    let none: &[u8] = b"WORKLOAD 7 1\nACCEPTED 0\nDONE 0\nABENDED 0\nU0777 0\n";
    let report = told(alloc, words, b"", (&[1], &[]), disk_of(alloc, 16384, &[1])?)?;
    assert_eq!(rt; report.status, 3);
    assert!(rt; report.printed.starts_with(none));
    assert!(rt; report.printed.ends_with(b"\nSTATUS 3 DOWN\n"));
    let report = told(alloc, words, b"", (&[1], &[]), disk_of(alloc, 1000, &[])?)?;
    assert_eq!(rt; report.status, 6);
    assert!(rt; report.printed.starts_with(none));
    assert!(rt; report.printed.ends_with(b"\nSTATUS 6 SIZE 1775 1000\n"));
    let report = told(alloc, words, b"", (&[1], &[1]), disk_of(alloc, 16384, &[])?)?;
    compare("a workload that can't be told", &report, (5, b""))?;
    let report = told(alloc, words, b"", (&[1], &[1]), disk_of(alloc, 1000, &[])?)?;
    compare("a small disk that can't be told", &report, (6, b""))
}
