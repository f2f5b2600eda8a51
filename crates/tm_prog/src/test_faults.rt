//! A small system, whose calls are let fail, and what is printed then.

/// Accounts that are opened and looked at, with the least log areas and queues.
pub const SMALL: &[u8] = b"IMSCTRL QBYTES=131072,LOGS=64
DBD NAME=ACC,ROOTS=2
SEGM NAME=ACCT,PARENT=0,KEY=4,BYTES=12
APPLCTN PSB=OPENP
PCB TYPE=DB,DBDNAME=ACC,PROCOPT=A
TRANSACT CODE=OPEN
APPLCTN PSB=BALP
PCB TYPE=DB,DBDNAME=ACC,PROCOPT=A
TRANSACT CODE=BAL
NAME LTERM=T2
NAME LTERM=T9
REGION CLASS=(1)
PROGRAM OPENP
CALL GU 0 A
WORD B A 2
WORD C A 3
PAD C 8
SET E B C
CALL ISRT 1 E ACCT
SET G \"OPENED \" B
CALL ISRT 0 G
END
ENDPROG
PROGRAM BALP
CALL GU 0 A
WORD B A 2
CALL GU 1 E ACCT=B
CUT F E 5 8
SET G B \" \" F
CALL ISRT 0 G
END
ENDPROG
END
";

/// An account is opened, its reply is acknowledged, and a checkpoint is taken.
pub const SHORT: &[u8] = b"IN T9 1 OPEN 0001 1000\nQUIET 100\nRECV T9\nACK T9 1\n/CHECKPOINT\n";

/// What is there of it in the end, whatever was stopped.
pub const THERE: &[u8] = b"/DISPLAY LTERM T9\nIN T2 1 BAL 0001\nQUIET 100\nRECV T2\n";

/// What is printed for it.
pub const THERE_PRINTED: &[u8] =
    b"LTERM T9 IN 1 OUT 1 KEPT 0 STARTED\nACK T2 1\nQUIET 5\nOUT T2 1 0001 00001000\n";

/// Each call of the disk fails in turn, so many of each answer. Nothing that was acknowledged is lost, and what was not is as if it had
/// not been sent.
pub const CALLS: &[(u16, &[u8])] = &[
    // The first opening reads sector 0, makes it zeros and syncs, writes a sector of text, two log areas, two data sectors and a snapshot,
    // syncs, and writes and syncs the restart sector. Where it fails it tells nothing.
    (
        138,
        b"DOWN\nDOWN\nDOWN\nDOWN\nDOWN\nDOWN\nRESTARTED\nUP\nACK T9 1\nQUIET 5\nOUT T9 1 OPENED 0001\nACKED T9 1\nCHECKPOINT 2\n",
    ),
    // The input is written and synced.
    (
        2,
        b"STOPPED\nDOWN\nDOWN\nDOWN\nDOWN\nDOWN\nRESTARTED\nUP\nACK T9 1\nQUIET 5\nOUT T9 1 OPENED 0001\nACKED T9 1\nCHECKPOINT 3\n",
    ),
    // So is its completion before its reply is shown.
    (
        2,
        b"ACK T9 1\nQUIET 5\nSTOPPED\nDOWN\nDOWN\nDOWN\nRESTARTED\nUP\nALREADY T9 1\nQUIET 5\nOUT T9 1 OPENED 0001\nACKED T9 1\nCHECKPOINT 3\n",
    ),
    // So is the acknowledgement.
    (
        2,
        b"ACK T9 1\nQUIET 5\nOUT T9 1 OPENED 0001\nSTOPPED\nDOWN\nDOWN\nRESTARTED\nUP\nALREADY T9 1\nQUIET 0\nOUT T9 1 OPENED 0001\nACKED T9 1\nCHECKPOINT 3\n",
    ),
    // The checkpoint writes and syncs a data sector, a snapshot and the restart sector.
    (
        6,
        b"ACK T9 1\nQUIET 5\nOUT T9 1 OPENED 0001\nACKED T9 1\nSTOPPED\nDOWN\nRESTARTED\nUP\nALREADY T9 1\nQUIET 0\nNONE T9\nALREADY T9 1\nCHECKPOINT 3\n",
    ),
];

/// A call of the second opening fails, and the third one opens.
pub const RESTARTED: &[u8] =
    b"ACK T9 1\nQUIET 5\nOUT T9 1 OPENED 0001\nACKED T9 1\nCHECKPOINT 2\nPOWER\nSTOPPED\nRESTARTED\nALREADY T9 1\nQUIET 0\nNONE T9\nALREADY T9 1\nCHECKPOINT 4\nLTERM T9 IN 1 OUT 1 KEPT 0 STARTED\nACK T2 1\nQUIET 5\nOUT T2 1 0001 00001000\n";

/// A call of the session behind the second opening fails, and the source ends while the system is down.
pub const STOPPED: &[u8] =
    b"ACK T9 1\nQUIET 5\nOUT T9 1 OPENED 0001\nACKED T9 1\nCHECKPOINT 2\nPOWER\nRESTARTED\nUP\nALREADY T9 1\nQUIET 0\nNONE T9\nALREADY T9 1\nSTOPPED\nDOWN\nDOWN\nDOWN\nDOWN\nSTATUS 3 DOWN\n";

/// Calls of the source that fail: the first, and the one that asks for the end. An input that may still have `+` lines isn't served
/// then.
pub const READS: &[(&[u8], u64, &[u8])] = &[
    (SHORT, 1, b"STATUS 4 READ\n"),
    (
        SHORT,
        2,
        b"ACK T9 1\nQUIET 5\nOUT T9 1 OPENED 0001\nACKED T9 1\nCHECKPOINT 2\nSTATUS 4 READ\n",
    ),
    (b"IN T9 1 OPEN 0001 1000\n+ B\n", 2, b"STATUS 4 READ\n"),
];

/// Where an answer can't be written the program ends, and what it answered is there; of turns that no reply was shown of nothing need be.
/// Sent again, all of it stands once.
pub const ANSWERS: &[(&[u8], &[u8])] = &[
    (
        b"",
        b"ALREADY T9 1\nQUIET 5\nOUT T9 1 OPENED 0001\nACKED T9 1\nCHECKPOINT 3\n",
    ),
    (
        b"ACK T9 1\n",
        b"ALREADY T9 1\nQUIET 5\nOUT T9 1 OPENED 0001\nACKED T9 1\nCHECKPOINT 3\n",
    ),
    (
        b"ACK T9 1\nQUIET 5\n",
        b"ALREADY T9 1\nQUIET 0\nOUT T9 1 OPENED 0001\nACKED T9 1\nCHECKPOINT 3\n",
    ),
    (
        b"ACK T9 1\nQUIET 5\nOUT T9 1 OPENED 0001\n",
        b"ALREADY T9 1\nQUIET 0\nNONE T9\nALREADY T9 1\nCHECKPOINT 3\n",
    ),
    (
        b"ACK T9 1\nQUIET 5\nOUT T9 1 OPENED 0001\nACKED T9 1\n",
        b"ALREADY T9 1\nQUIET 0\nNONE T9\nALREADY T9 1\nCHECKPOINT 4\n",
    ),
];

/// An account is opened turn by turn.
pub const TURNS: &[u8] =
    b"IN T9 1 OPEN 0001 1000\nTURN 1\nTURN 1\nTURN 1\nTURN 1\nTURN 1\nRECV T9\nACK T9 1\n";

/// What is printed for it.
pub const TURNS_PRINTED: &[u8] =
    b"ACK T9 1\nR1 SCHEDULED OPEN 1\nR1 GU 0 OK\nR1 ISRT 1 OK\nR1 ISRT 0 OK\nR1 DONE OPEN 1\nOUT T9 1 OPENED 0001\nACKED T9 1\n";

/// Calls of the sink that fail, and how many bytes were written before.
pub const ENDS: &[(u64, usize)] = &[
    (1, 0),
    (2, 9),
    (3, 29),
    (4, 40),
    (5, 53),
    (6, 66),
    (7, 81),
    (8, 102),
];
