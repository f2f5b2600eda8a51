//! The programs of the definition.
ghost use Rattle.std.specs.Prelude.{◌≡◌, ◌++◌, OnOk};
ghost use Rattle.workload.specs.Programs as spec;

use tm_types::{Bytes, Memory};

/// Adds the programs that use no database.
#[tactic(auto, unfolding(crate::specs::Programs::plain_programs))]
pub(crate) fn add_plain_programs(out: &mut Bytes) -> Result<(), Memory>
    ensures { OnOk result (out.new ≡ out.old ++ spec.plain_programs) }
{
    add_echo(out)?;
    add_segs(out)?;
    add_loop(out)?;
    add_spin(out)?;
    add_conv(out)?;
    add_swit(out)
}

/// Adds the programs on the accounts.
#[tactic(auto, unfolding(crate::specs::Programs::account_programs))]
pub(crate) fn add_account_programs(out: &mut Bytes) -> Result<(), Memory>
    ensures { OnOk result (out.new ≡ out.old ++ spec.account_programs) }
{
    add_open(out)?;
    add_xfer(out)?;
    add_bal(out)?;
    add_abnd(out)?;
    add_rb(out)?;
    add_addm(out)?;
    add_scan(out)?;
    add_sum(out)
}

/// Adds the program that sends back what came.
#[tactic(auto, unfolding(crate::specs::Programs::echo_program))]
fn add_echo(out: &mut Bytes) -> Result<(), Memory>
    ensures { OnOk result (out.new ≡ out.old ++ spec.echo_program) }
{
    out.append(b"PROGRAM ECHOP\nCALL GU 0 A\nCALL ISRT 0 A\nEND\nENDPROG\n")
}

/// Adds the program that sends back each segment.
#[tactic(auto, unfolding(crate::specs::Programs::segs_program))]
fn add_segs(out: &mut Bytes) -> Result<(), Memory>
    ensures { OnOk result (out.new ≡ out.old ++ spec.segs_program) }
{
    out.append(
        b"PROGRAM SEGSP\nCALL GU 0 A\nLABEL L\nCALL ISRT 0 A\nCALL GN 0 A\nIF STATUS <> \"QD\" GOTO L\nEND\nENDPROG\n",
    )
}

/// Adds the program that takes one message after another.
#[tactic(auto, unfolding(crate::specs::Programs::loop_program))]
fn add_loop(out: &mut Bytes) -> Result<(), Memory>
    ensures { OnOk result (out.new ≡ out.old ++ spec.loop_program) }
{
    out.append(b"PROGRAM LOOPP\nCALL GU 0 A\nCALL ISRT 0 A\nCALL GU 0 A\nENDPROG\n")
}

/// Adds the program that never ends by itself.
#[tactic(auto, unfolding(crate::specs::Programs::spin_program))]
fn add_spin(out: &mut Bytes) -> Result<(), Memory>
    ensures { OnOk result (out.new ≡ out.old ++ spec.spin_program) }
{
    out.append(b"PROGRAM SPINP\nLABEL L\nGOTO L\nENDPROG\n")
}

/// Adds the program that holds a conversation.
#[tactic(auto, unfolding(crate::specs::Programs::conv_program))]
fn add_conv(out: &mut Bytes) -> Result<(), Memory>
    ensures { OnOk result (out.new ≡ out.old ++ spec.conv_program) }
{
    out.append(
        b"PROGRAM CONVP\nCALL GU 0 A\nCALL GN 0 B\nIF B = \"FAIL\" GOTO BAD\nSET A \"CONV    \" B\nCALL ISRT 0 A\nCALL ISRT 0 B\nEND\nLABEL BAD\nABEND 0100\nENDPROG\n",
    )
}

/// Adds the program that sends messages to other places.
#[tactic(auto, unfolding(crate::specs::Programs::swit_program))]
fn add_swit(out: &mut Bytes) -> Result<(), Memory>
    ensures { OnOk result (out.new ≡ out.old ++ spec.swit_program) }
{
    out.append(
        b"PROGRAM SWITP\nCALL GU 0 A\nSET B \"NOWHERE\"\nCALL CHNG 1 B\nCUT C A 6 100\nCALL ISRT 1 C\nSET B \"BAL\"\nCALL CHNG 1 B\nCALL ISRT 1 C\nCALL CHNG 1 B\nCALL PURG 1\nEND\nENDPROG\n",
    )
}

/// Adds the program that opens an account.
#[tactic(auto, unfolding(crate::specs::Programs::open_program))]
fn add_open(out: &mut Bytes) -> Result<(), Memory>
    ensures { OnOk result (out.new ≡ out.old ++ spec.open_program) }
{
    out.append(
        b"PROGRAM OPENP\nCALL GU 0 A\nWORD B A 2\nWORD C A 3\nPAD C 8\nSET E B C\nCALL ISRT 1 E ACCT\nSET G \"OPENED \" B\nCALL ISRT 0 G\nEND\nENDPROG\n",
    )
}

/// Adds the program that moves money from one account to another.
#[tactic(auto, unfolding(crate::specs::Programs::xfer_program))]
fn add_xfer(out: &mut Bytes) -> Result<(), Memory>
    ensures { OnOk result (out.new ≡ out.old ++ spec.xfer_program) }
{
    add_xfer_taking(out)?;
    add_xfer_giving(out)?;
    add_xfer_refusing(out)
}

/// Adds the part that takes the amount from the first account.
#[tactic(auto, unfolding(crate::specs::Programs::xfer_taking))]
fn add_xfer_taking(out: &mut Bytes) -> Result<(), Memory>
    ensures { OnOk result (out.new ≡ out.old ++ spec.xfer_taking) }
{
    out.append(
        b"PROGRAM XFERP\nCALL GU 0 A\nWORD B A 2\nWORD C A 3\nWORD D A 4\nPAD D 8\nCALL GHU 1 E ACCT=B\nIF STATUS = \"GE\" GOTO NONE\nCUT F E 5 8\nIF F < D GOTO POOR\nLESS F D\nPAD F 8\nSET E B F\nCALL REPL 1 E\n",
    )
}

/// Adds the part that gives it to the second account, and tells so.
#[tactic(auto, unfolding(crate::specs::Programs::xfer_giving))]
fn add_xfer_giving(out: &mut Bytes) -> Result<(), Memory>
    ensures { OnOk result (out.new ≡ out.old ++ spec.xfer_giving) }
{
    out.append(b"CALL GHU 1 E ACCT=C\nIF STATUS = \"GE\" GOTO NONE\nCUT F E 5 8\n")?;
    out.append(
        b"ADD F D\nPAD F 8\nSET E C F\nCALL REPL 1 E\nSET G \"MOVED \" D\nCALL ISRT 0 G\nEND\n",
    )
}

/// Adds the part that tells that an account is not there, or has too little.
#[tactic(auto, unfolding(crate::specs::Programs::xfer_refusing))]
fn add_xfer_refusing(out: &mut Bytes) -> Result<(), Memory>
    ensures { OnOk result (out.new ≡ out.old ++ spec.xfer_refusing) }
{
    out.append(
        b"LABEL NONE\nCALL ROLB 0 A\nSET G \"NO ACCOUNT\"\nCALL ISRT 0 G\nEND\nLABEL POOR\nSET G \"NO FUNDS\"\nCALL ISRT 0 G\nENDPROG\n",
    )
}

/// Adds the program that tells what an account has.
#[tactic(auto, unfolding(crate::specs::Programs::bal_program))]
fn add_bal(out: &mut Bytes) -> Result<(), Memory>
    ensures { OnOk result (out.new ≡ out.old ++ spec.bal_program) }
{
    out.append(
        b"PROGRAM BALP\nCALL GU 0 A\nWORD B A 2\nCALL GU 1 E ACCT=B\nCUT F E 5 8\nSET G B \" \" F\nCALL ISRT 0 G\nEND\nENDPROG\n",
    )
}

/// Adds the program that abends after a change.
#[tactic(auto, unfolding(crate::specs::Programs::abnd_program))]
fn add_abnd(out: &mut Bytes) -> Result<(), Memory>
    ensures { OnOk result (out.new ≡ out.old ++ spec.abnd_program) }
{
    out.append(
        b"PROGRAM ABNDP\nCALL GU 0 A\nWORD B A 2\nCALL GHU 1 E ACCT=B\nSET E B \"00000000\"\nCALL REPL 1 E\nCALL ISRT 0 E\nABEND 0123\nENDPROG\n",
    )
}

/// Adds the program that takes back what it changed.
#[tactic(auto, unfolding(crate::specs::Programs::rb_program))]
fn add_rb(out: &mut Bytes) -> Result<(), Memory>
    ensures { OnOk result (out.new ≡ out.old ++ spec.rb_program) }
{
    out.append(
        b"PROGRAM RBP\nCALL GU 0 A\nWORD B A 2\nCALL GHU 1 E ACCT=B\nSET E B \"00000001\"\nCALL REPL 1 E\nCALL ISRT 0 E\n",
    )?;
    out.append(
        b"CALL ROLB 0 C\nCALL GHU 1 E ACCT=B\nSET E B \"00000002\"\nCALL REPL 1 E\nCALL ISRT 0 C\nEND\nENDPROG\n",
    )
}

/// Adds the program that adds a movement to an account.
#[tactic(auto, unfolding(crate::specs::Programs::addm_program))]
fn add_addm(out: &mut Bytes) -> Result<(), Memory>
    ensures { OnOk result (out.new ≡ out.old ++ spec.addm_program) }
{
    out.append(
        b"PROGRAM ADDMP\nCALL GU 0 A\nWORD B A 2\nSET D \"0001 OPENING\"\nCALL ISRT 1 D ACCT=B MOVE\nEND\nENDPROG\n",
    )
}

/// Adds the program that reads five rows.
#[tactic(auto, unfolding(crate::specs::Programs::scan_program))]
fn add_scan(out: &mut Bytes) -> Result<(), Memory>
    ensures { OnOk result (out.new ≡ out.old ++ spec.scan_program) }
{
    out.append(
        b"PROGRAM SCANP\nCALL GU 0 A\nCALL GN 1 E\nCALL GN 1 E\nCALL GN 1 E\nCALL GN 1 E\nCALL GN 1 E\nEND\nENDPROG\n",
    )
}

/// Adds the program that tells what all accounts have together.
#[tactic(auto, unfolding(crate::specs::Programs::sum_program))]
fn add_sum(out: &mut Bytes) -> Result<(), Memory>
    ensures { OnOk result (out.new ≡ out.old ++ spec.sum_program) }
{
    out.append(
        b"PROGRAM SUMP\nCALL GU 0 A\nSET S \"0\"\nLABEL L\nCALL GN 1 E ACCT\nIF STATUS <> \"  \" GOTO D\n",
    )?;
    out.append(b"CUT F E 5 8\nADD S F\nGOTO L\n")?;
    out.append(b"LABEL D\nPAD S 8\nSET G \"SUM \" S\nCALL ISRT 0 G\nEND\nENDPROG\n")
}
