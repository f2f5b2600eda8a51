//! Worked sessions over a new disk in memory: what each shows, its lines, and what is printed for them.

/// Sessions that begin with an empty machine.
pub const ROWS: &[(&str, &[u8], &[u8])] = &[
    (
        "an echo",
        b"IN T1 1 ECHO HELLO\nTURN 1\nTURN 1\nTURN 1\nTURN 1\nRECV T1\nACK T1 1\n",
        b"ACK T1 1\nR1 SCHEDULED ECHO 1\nR1 GU 0 OK\nR1 ISRT 0 OK\nR1 DONE ECHO 1\nOUT T1 1 ECHO HELLO\nACKED T1 1\n",
    ),
    ("no line", b"", b""),
    (
        "an input again",
        b"IN T1 1 ECHO HELLO\nIN T1 1 ECHO HELLO\nQUIET 100\nRECV T1\nACK T1 1\nRECV T1\n",
        b"ACK T1 1\nALREADY T1 1\nQUIET 7\nOUT T1 1 ECHO HELLO\nACKED T1 1\nNONE T1\n",
    ),
    (
        "a number left out",
        b"IN T1 1 ECHO A\nIN T1 3 ECHO B\n",
        b"ACK T1 1\nREFUSED T1 3 EXPECTED 2\n",
    ),
    (
        "three segments",
        b"IN T1 1 SEGS A\n+ B\n+ C\nTURN 1\nTURN 1\nTURN 1\nTURN 1\nTURN 1\nTURN 1\nTURN 1\nTURN 1\nTURN 1\nRECV T1\n",
        b"ACK T1 1\nR1 SCHEDULED SEGS 1\nR1 GU 0 OK\nR1 ISRT 0 OK\nR1 GN 0 OK\nR1 ISRT 0 OK\nR1 GN 0 OK\nR1 ISRT 0 OK\nR1 GN 0 QD\nR1 DONE SEGS 1\nOUT T1 1 SEGS A\n+ B\n+ C\n",
    ),
    (
        "a reply acknowledged once",
        b"IN T1 1 ECHO HELLO\nTURN 1\nTURN 1\nTURN 1\nTURN 1\nRECV T1\nRECV T1\nACK T1 2\nACK T1 1\nACK T1 1\nRECV T1\n",
        b"ACK T1 1\nR1 SCHEDULED ECHO 1\nR1 GU 0 OK\nR1 ISRT 0 OK\nR1 DONE ECHO 1\nOUT T1 1 ECHO HELLO\nOUT T1 1 ECHO HELLO\nREFUSED T1 2 FIRST 1\nACKED T1 1\nALREADY T1 1\nNONE T1\n",
    ),
    (
        "a class before a priority",
        b"IN T1 1 LOOP A\nIN T2 1 ECHO B\nTURN 1\n",
        b"ACK T1 1\nACK T2 1\nR1 SCHEDULED ECHO 2\n",
    ),
    (
        "priorities that rise",
        b"IN T1 1 SEGS X\nIN T2 1 ECHO A\nIN T2 2 ECHO B\nTURN 1\nIN T1 2 SEGS Y\nIN T2 3 ECHO C\nTURN 2\nTURN 2\nTURN 2\nTURN 2\nTURN 2\nTURN 2\nTURN 2\nTURN 2\nTURN 2\nTURN 2\nTURN 2\nTURN 2\nTURN 2\n",
        b"ACK T1 1\nACK T2 1\nACK T2 2\nR1 SCHEDULED SEGS 1\nACK T1 2\nACK T2 3\nR2 SCHEDULED ECHO 2\nR2 GU 0 OK\nR2 ISRT 0 OK\nR2 DONE ECHO 2\nR2 SCHEDULED ECHO 3\nR2 GU 0 OK\nR2 ISRT 0 OK\nR2 DONE ECHO 3\nR2 SCHEDULED ECHO 5\nR2 GU 0 OK\nR2 ISRT 0 OK\nR2 DONE ECHO 5\nR2 SCHEDULED SEGS 4\n",
    ),
    (
        "one message of a scheduling",
        b"IN T1 1 LOOP A\nIN T1 2 LOOP B\nTURN 1\nTURN 1\nTURN 1\nTURN 1\nTURN 1\n",
        b"ACK T1 1\nACK T1 2\nR1 SCHEDULED LOOP 1\nR1 GU 0 OK\nR1 ISRT 0 OK\nR1 QC LOOP 1\nR1 SCHEDULED LOOP 2\n",
    ),
    (
        "the write of an input fails, and it isn't there",
        b"POWER IN 1 0\nIN T1 1 ECHO HELLO\nRECV T1\n/ERESTART\nIN T1 1 ECHO HELLO\nQUIET 100\nRECV T1\nACK T1 1\nRECV T1\n",
        b"ARMED 1\nSTOPPED\nDOWN\nRESTARTED\nACK T1 1\nQUIET 7\nOUT T1 1 ECHO HELLO\nACKED T1 1\nNONE T1\n",
    ),
    (
        "the write of an input fails, and it is there",
        b"POWER IN 1 1\nIN T1 1 ECHO HELLO\nRECV T1\n/ERESTART\nIN T1 1 ECHO HELLO\nQUIET 100\nRECV T1\nACK T1 1\nRECV T1\n",
        b"ARMED 1\nSTOPPED\nDOWN\nRESTARTED\nALREADY T1 1\nQUIET 7\nOUT T1 1 ECHO HELLO\nACKED T1 1\nNONE T1\n",
    ),
    (
        "a conversation that an abend ends",
        b"IN T1 1 CONV HI\nQUIET 100\nIN T1 2 FAIL\nQUIET 100\nIN T1 3 MORE\nRECV T1\nACK T1 1\nRECV T1\n",
        b"ACK T1 1\nQUIET 11\nACK T1 2\nQUIET 7\nREFUSED T1 3 CODE MORE\nOUT T1 1 HI\nACKED T1 1\nOUT T1 2 DFS555I TRAN CONV ABEND U0100\n",
    ),
    (
        "a code that is stopped",
        b"/DISPLAY TRANSACTION ECHO\n/STOP TRANSACTION ECHO\nIN T1 1 ECHO A\n/STOP TRANSACTION X\n",
        b"TRANSACTION ECHO CLASS 1 PRIORITY 5 QUEUED 0 STARTED\nSTOPPED ECHO\nREFUSED T1 1 STOPPED ECHO\nREFUSED NAME X\n",
    ),
    (
        "a priority that is assigned, behind a stop",
        b"/ASSIGN TRANSACTION ECHO PRIORITY 12\nPOWER 0\n/ERESTART\nIN T1 1 SEGS X\nIN T2 1 ECHO A\nTURN 1\n",
        b"ASSIGNED ECHO PRIORITY 12\nPOWER\nRESTARTED\nACK T1 1\nACK T2 1\nR1 SCHEDULED ECHO 2\n",
    ),
    (
        "a class out of range",
        b"/ASSIGN TRANSACTION ECHO CLASS 0\n",
        b"BAD COMMAND 5\n",
    ),
    (
        "a script at its limit of statements",
        b"IN T1 1 SPIN\nTURN 1\nTURN 1\n",
        b"ACK T1 1\nR1 SCHEDULED SPIN 1\nR1 ABENDED SPIN 1 U0240\n",
    ),
    (
        "power that fails behind an input",
        b"IN T1 1 ECHO HELLO\nPOWER 0\nRECV T1\n/ERESTART\nIN T1 1 ECHO HELLO\nQUIET 100\nRECV T1\n",
        b"ACK T1 1\nPOWER\nDOWN\nRESTARTED\nALREADY T1 1\nQUIET 7\nOUT T1 1 ECHO HELLO\n",
    ),
];

/// Two inputs, worked off side by side, and their replies.
pub const WORKED_OFF: &[u8] = b"IN T1 1 ECHO A\nIN T2 1 ECHO B\nQUIET 100\nRECV T1\nRECV T2\n";

/// The write that fails, the status, and what is printed. Each input makes one before its answer, the turns make none, and the reply that is
/// shown first makes one for both completions. A fourth isn't made.
pub const WORKED_OFF_WRITES: &[(&[u8], u8, &[u8])] = &[
    (
        b"POWER IN 1 0\n",
        3,
        b"ARMED 1\nSTOPPED\nDOWN\nDOWN\nDOWN\nDOWN\nSTATUS 3 DOWN\n",
    ),
    (
        b"POWER IN 2 0\n",
        3,
        b"ARMED 2\nACK T1 1\nSTOPPED\nDOWN\nDOWN\nDOWN\nSTATUS 3 DOWN\n",
    ),
    (
        b"POWER IN 3 0\n",
        3,
        b"ARMED 3\nACK T1 1\nACK T2 1\nQUIET 8\nSTOPPED\nDOWN\nSTATUS 3 DOWN\n",
    ),
    (
        b"POWER IN 4 0\n",
        0,
        b"ARMED 4\nACK T1 1\nACK T2 1\nQUIET 8\nOUT T1 1 ECHO A\nOUT T2 1 ECHO B\n",
    ),
];

/// An input that is worked off, and no line behind it: the end of the source makes the second write.
pub const CUT_AT_THE_END: &[u8] = b"POWER IN 2 0\nIN T1 1 ECHO A\nQUIET 100\n";

/// What is printed for it, before the line of its status.
pub const CUT_AT_THE_END_PRINTED: &[&[u8]] = &[b"ARMED 2\nACK T1 1\nQUIET 7\n", b"STOPPED\n"];

/// Two messages of a serial code: a region takes the second one once the first is done.
pub const SERIAL: &[u8] =
    b"IN T1 1 ECHO A\nIN T2 1 ECHO B\nTURN 1\nTURN 2\nTURN 1\nTURN 1\nTURN 1\nTURN 2\n";

/// What is printed for it.
pub const SERIAL_PRINTED: &[u8] =
    b"ACK T1 1\nACK T2 1\nR1 SCHEDULED ECHO 1\nR2 IDLE\nR1 GU 0 OK\nR1 ISRT 0 OK\nR1 DONE ECHO 1\nR2 SCHEDULED ECHO 2\n";

/// Accounts 0001 and 0002 are opened with 1000 each.
pub const OPENED: &[u8] = b"IN T9 1 OPEN 0001 1000\nIN T9 2 OPEN 0002 1000\nQUIET 100\n";

/// What is printed for it.
pub const OPENED_PRINTED: &[u8] = b"ACK T9 1\nACK T9 2\nQUIET 14\n";

/// An account gets 306 movements, every second turn being the other region's, and then the 307th, with which its record would have
/// 4,004 bytes.
pub const FILLED: &[u8] = b"IN T1 1 FILL 0001\nQUIET 616\nTURN 1\nTURN 1\nTURN 1\nRECV T1\n";

/// What is printed for it where a record has one sector.
pub const FILLED_SINGLE_PRINTED: &[u8] =
    b"ACK T1 1\nTURNS SPENT 616\nR1 ABENDED FILL 3 U0903\nR1 IDLE\nR1 IDLE\nOUT T1 1 DFS555I TRAN FILL ABEND U0903\n";

/// And where it has two.
pub const FILLED_DOUBLE_PRINTED: &[u8] =
    b"ACK T1 1\nTURNS SPENT 616\nR1 ISRT 1 OK\nR1 ISRT 0 OK\nR1 DONE FILL 3\nOUT T1 1 0307\n";

/// One account is opened, its reply shown and acknowledged, and a checkpoint taken.
pub const ACCOUNT_OPENED: &[u8] =
    b"IN T9 1 OPEN 0001 1000\nQUIET 100\nRECV T9\nACK T9 1\n/CHECKPOINT\n";

/// Sessions behind the opening of both accounts.
pub const ACCOUNT_ROWS: &[(&str, &[u8], &[u8])] = &[
    (
        "a reader waits for a transfer",
        b"IN T1 1 XFER 0001 0002 5\nIN T2 1 BAL 0001\nTURN 1\nTURN 2\nTURN 1\nTURN 1\nTURN 2\nTURN 2\nTURN 1\nTURN 1\nTURN 1\nTURN 1\nTURN 1\nTURN 2\nTURN 2\nTURN 2\nRECV T2\n",
        b"ACK T1 1\nACK T2 1\nR1 SCHEDULED XFER 3\nR2 SCHEDULED BAL 4\nR1 GU 0 OK\nR1 GHU 1 OK\nR2 GU 0 OK\nR2 WAITS ACC/0001 BY 1\nR1 REPL 1 OK\nR1 GHU 1 OK\nR1 REPL 1 OK\nR1 ISRT 0 OK\nR1 DONE XFER 3\nR2 GU 1 OK\nR2 ISRT 0 OK\nR2 DONE BAL 4\nOUT T2 1 0001 00000995\n",
    ),
    (
        "two transfers wait for each other",
        b"IN T1 1 XFER 0001 0002 5\nIN T2 1 XFER 0002 0001 7\nTURN 1\nTURN 2\nTURN 1\nTURN 2\nTURN 1\nTURN 2\nTURN 1\nTURN 2\nTURN 1\nTURN 2\nTURN 1\nQUIET 100\nRECV T1\nACK T1 1\nRECV T1\nRECV T2\nACK T2 1\nRECV T2\nIN T1 2 BAL 0001\nIN T2 2 BAL 0002\nQUIET 100\nRECV T1\nRECV T2\n",
        b"ACK T1 1\nACK T2 1\nR1 SCHEDULED XFER 3\nR2 SCHEDULED XFER 4\nR1 GU 0 OK\nR2 GU 0 OK\nR1 GHU 1 OK\nR2 GHU 1 OK\nR1 REPL 1 OK\nR2 REPL 1 OK\nR1 WAITS ACC/0002 BY 2\nR2 U0777 2 CYCLE 1,2\nR1 GHU 1 OK\nQUIET 16\nOUT T1 1 MOVED 00000005\nACKED T1 1\nNONE T1\nOUT T2 1 MOVED 00000007\nACKED T2 1\nNONE T2\nACK T1 2\nACK T2 2\nQUIET 10\nOUT T1 2 0001 00001002\nOUT T2 2 0002 00000998\n",
    ),
    (
        "an abend behind a replacement",
        b"IN T1 1 ABND 0001\nTURN 1\nTURN 1\nTURN 1\nTURN 1\nTURN 1\nTURN 1\nRECV T1\nACK T1 1\nRECV T1\nIN T2 1 BAL 0001\nQUIET 100\nRECV T2\n",
        b"ACK T1 1\nR1 SCHEDULED ABND 3\nR1 GU 0 OK\nR1 GHU 1 OK\nR1 REPL 1 OK\nR1 ISRT 0 OK\nR1 ABENDED ABND 3 U0123\nOUT T1 1 DFS555I TRAN ABND ABEND U0123\nACKED T1 1\nNONE T1\nACK T2 1\nQUIET 9\nOUT T2 1 0001 00001000\n",
    ),
    (
        "a replacement and a reply taken back",
        b"IN T1 1 RB 0001\nTURN 1\nTURN 1\nTURN 1\nTURN 1\nTURN 1\nTURN 1\nTURN 1\nTURN 1\nTURN 1\nTURN 1\nRECV T1\nIN T2 1 BAL 0001\nQUIET 100\nRECV T2\n",
        b"ACK T1 1\nR1 SCHEDULED RB 3\nR1 GU 0 OK\nR1 GHU 1 OK\nR1 REPL 1 OK\nR1 ISRT 0 OK\nR1 ROLB 0 OK\nR1 GHU 1 OK\nR1 REPL 1 OK\nR1 ISRT 0 OK\nR1 DONE RB 3\nOUT T1 1 RB 0001\nACK T2 1\nQUIET 9\nOUT T2 1 0001 00000002\n",
    ),
    (
        "a walk along all rows",
        b"IN T1 1 ADDM 0001\nQUIET 100\nIN T1 2 SCAN\nTURN 1\nTURN 1\nTURN 1\nTURN 1\nTURN 1\nTURN 1\nTURN 1\nTURN 1\n",
        b"ACK T1 1\nQUIET 7\nACK T1 2\nR1 SCHEDULED SCAN 4\nR1 GU 0 OK\nR1 GN 1 OK\nR1 GN 1 OK\nR1 GN 1 GA\nR1 GN 1 GB\nR1 GN 1 OK\nR1 DONE SCAN 4\n",
    ),
    (
        "a screen",
        b"SCREEN T8 1\n+ FROM=0001\n+ TO=0002\n+ AMT=5\nQUIET 100\nRECV T8\n",
        b"ACK T8 1\nQUIET 15\nOUT T8 1 PAGE\n+ 24 MOVED 00000005\n",
    ),
    (
        "a message switched to another code",
        b"IN T1 1 SWIT BAL 0002\nTURN 1\nTURN 1\nTURN 1\nTURN 1\nTURN 1\nTURN 1\nTURN 1\nTURN 1\nTURN 1\nTURN 1\nQUIET 100\nRECV T1\n",
        b"ACK T1 1\nR1 SCHEDULED SWIT 3\nR1 GU 0 OK\nR1 CHNG 1 QH\nR1 ISRT 1 A3\nR1 CHNG 1 OK\nR1 ISRT 1 OK\nR1 CHNG 1 A2\nR1 PURG 1 OK\nR1 DONE SWIT 3\nR1 SCHEDULED BAL 4\nQUIET 7\nOUT T1 1 0002 00001000\n",
    ),
    (
        "power that fails in a transfer",
        b"IN T1 1 XFER 0001 0002 5\nTURN 1\nTURN 1\nTURN 1\nTURN 1\nPOWER 0\n/ERESTART\n/DISPLAY TRANSACTION XFER\n/STOP TRANSACTION XFER\nIN T2 1 BAL 0001\nQUIET 100\nRECV T2\n/START TRANSACTION XFER\nTURN 1\n",
        b"ACK T1 1\nR1 SCHEDULED XFER 3\nR1 GU 0 OK\nR1 GHU 1 OK\nR1 REPL 1 OK\nPOWER\nRESTARTED\nTRANSACTION XFER CLASS 1 PRIORITY 1 QUEUED 1 STARTED\nSTOPPED XFER\nACK T2 1\nQUIET 9\nOUT T2 1 0001 00001000\nSTARTED XFER\nR1 SCHEDULED XFER 3\n",
    ),
];

/// A transfer up to its first replacement.
pub const HALF: &[u8] = b"IN T1 1 XFER 0001 0002 5\nTURN 1\nTURN 1\nTURN 1\nTURN 1\n";

/// What is printed for it.
pub const HALF_PRINTED: &[u8] =
    b"ACK T1 1\nR1 SCHEDULED XFER 3\nR1 GU 0 OK\nR1 GHU 1 OK\nR1 REPL 1 OK\n";

/// Behind a checkpoint that was cut off the transfer is taken back, and its message waits.
pub const TAKEN_BACK: &[u8] =
    b"/CHECKPOINT\n/ERESTART\n/DISPLAY TRANSACTION XFER\n/STOP TRANSACTION XFER\nIN T2 1 BAL 0001\nQUIET 100\nRECV T2\n/START TRANSACTION XFER\nTURN 1\n";

/// What is printed for it.
pub const TAKEN_BACK_PRINTED: &[u8] =
    b"STOPPED\nRESTARTED\nTRANSACTION XFER CLASS 1 PRIORITY 1 QUEUED 1 STARTED\nSTOPPED XFER\nACK T2 1\nQUIET 9\nOUT T2 1 0001 00001000\nSTARTED XFER\nR1 SCHEDULED XFER 3\n";

/// Three lasting steps.
pub const ONE_ECHO: &[u8] = b"IN T1 1 ECHO A\nQUIET 100\nRECV T1\nACK T1 1\n";

/// A freeze of two writes, and a cold start that breaks off, behind which a restart opens.
pub const BROKEN_COLD: &[u8] =
    b"/CHECKPOINT FREEZE\n/NRESTART CHECKPOINT 0\n/ERESTART\n/DISPLAY LTERM T1\n";

/// Where the cold start breaks off, and what is printed last. It makes sector 0 zeros first, which is left or not, and then writes what it
/// begins with.
pub const COLD_STARTS: &[(&[u8], &[u8])] = &[
    (b"POWER IN 3 0\n", b"LTERM T1 IN 1 OUT 1 KEPT 0 STARTED\n"),
    (b"POWER IN 3 1\n", b"LTERM T1 IN 0 OUT 0 KEPT 0 STARTED\n"),
    (b"POWER IN 4 0\n", b"LTERM T1 IN 0 OUT 0 KEPT 0 STARTED\n"),
];

/// Words that break a rule.
pub const WORDS: &[(&[&str], &[u8])] = &[
    (&["drill"], b"STATUS 1 WORD 2 RULE 2\n"),
    (&["drll", "MEM", "9"], b"STATUS 1 WORD 1 RULE 1\n"),
];
