//! The definition that the workload runs on.
ghost use Rattle.std.specs.Prelude.{◌≡◌, ◌++◌, OnOk};
ghost use Rattle.workload.specs.Definition as spec;

use crate::programs::{add_account_programs, add_plain_programs};
use tm_types::{Bytes, Memory};

/// Adds the whole definition.
#[tactic(auto, unfolding(crate::specs::Definition::workload_definition))]
pub(crate) fn add_definition(out: &mut Bytes) -> Result<(), Memory>
    ensures { OnOk result (out.new ≡ out.old ++ spec.workload_definition) }
{
    add_databases(out)?;
    add_plain_codes(out)?;
    add_terminals(out)?;
    add_regions(out)?;
    add_screen(out)?;
    add_account_codes(out)?;
    add_plain_programs(out)?;
    add_account_programs(out)?;
    out.append(b"END\n")
}

/// Adds what there is room for, and the database of accounts.
#[tactic(auto, unfolding(crate::specs::Definition::databases))]
fn add_databases(out: &mut Bytes) -> Result<(), Memory>
    ensures { OnOk result (out.new ≡ out.old ++ spec.databases) }
{
    out.append(
        b"IMSCTRL QBYTES=1048576,LOGS=256\nDBD NAME=ACC,ROOTS=100\nSEGM NAME=ACCT,PARENT=0,KEY=4,BYTES=12\nSEGM NAME=MOVE,PARENT=ACCT,KEY=4,BYTES=12\n",
    )
}

/// Adds the codes that use no database.
#[tactic(auto, unfolding(crate::specs::Definition::plain_codes))]
fn add_plain_codes(out: &mut Bytes) -> Result<(), Memory>
    ensures { OnOk result (out.new ≡ out.old ++ spec.plain_codes) }
{
    out.append(
        b"APPLCTN PSB=ECHOP\nTRANSACT CODE=ECHO,PRTY=(5,9,3)\nAPPLCTN PSB=SEGSP\nTRANSACT CODE=SEGS,PRTY=(7,7,65535)\nAPPLCTN PSB=LOOPP\nTRANSACT CODE=LOOP,MSGTYPE=(MULTSEG,NONRESPONSE,2),PRTY=(9,9,65535),PROCLIM=(1,1000)\nAPPLCTN PSB=SPINP\nTRANSACT CODE=SPIN,PROCLIM=(1,10)\nAPPLCTN PSB=CONVP\nTRANSACT CODE=CONV,SPA=34\nAPPLCTN PSB=SWITP\nPCB TYPE=TP,MODIFY=YES\nTRANSACT CODE=SWIT\n",
    )
}

/// Adds the terminals.
#[tactic(auto, unfolding(crate::specs::Definition::terminals))]
fn add_terminals(out: &mut Bytes) -> Result<(), Memory>
    ensures { OnOk result (out.new ≡ out.old ++ spec.terminals) }
{
    out.append(b"NAME LTERM=T1\nNAME LTERM=T2\nNAME LTERM=T8,FORMAT=F1\nNAME LTERM=T9\n")
}

/// Adds the four regions.
#[tactic(auto, unfolding(crate::specs::Definition::regions))]
fn add_regions(out: &mut Bytes) -> Result<(), Memory>
    ensures { OnOk result (out.new ≡ out.old ++ spec.regions) }
{
    out.append(b"REGION CLASS=(1,2)\nREGION CLASS=(1,2)\nREGION CLASS=(1,2)\nREGION CLASS=(1,2)\n")
}

/// Adds the format of a terminal.
#[tactic(auto, unfolding(crate::specs::Definition::screen))]
fn add_screen(out: &mut Bytes) -> Result<(), Memory>
    ensures { OnOk result (out.new ≡ out.old ++ spec.screen) }
{
    out.append(
        b"FMT NAME=F1\nDFLD NAME=FROM,POS=(3,10),LTH=4\nDFLD NAME=TO,POS=(4,10),LTH=4\nDFLD NAME=AMT,POS=(5,10),LTH=4\nDFLD NAME=MSG,POS=(24,1),LTH=20\nMSG TYPE=INPUT\nSEG\nMFLD LIT='XFER '\nMFLD SRC=FROM,LTH=4\nMFLD LIT=' '\nMFLD SRC=TO,LTH=4\nMFLD LIT=' '\nMFLD SRC=AMT,LTH=4,JUST=R,FILL=0\nMSG TYPE=OUTPUT\nSEG\nMFLD SRC=MSG,LTH=14\nFMTEND\n",
    )
}

/// Adds the codes on the accounts.
#[tactic(auto, unfolding(crate::specs::Definition::account_codes))]
fn add_account_codes(out: &mut Bytes) -> Result<(), Memory>
    ensures { OnOk result (out.new ≡ out.old ++ spec.account_codes) }
{
    add_account_code(out, b"OPEN", b"A")?;
    add_account_code(out, b"XFER", b"A")?;
    add_account_code(out, b"BAL", b"A")?;
    add_account_code(out, b"ABND", b"A")?;
    add_account_code(out, b"RB", b"A")?;
    add_account_code(out, b"ADDM", b"A")?;
    add_account_code(out, b"SCAN", b"A")?;
    add_account_code(out, b"SUM", b"G")
}

/// Adds a code on the accounts, with the calls that its PCB allows.
#[tactic(auto, unfolding(crate::specs::Definition::account_code))]
fn add_account_code(out: &mut Bytes, code: &[u8], allowed: &[u8]) -> Result<(), Memory>
    ensures { OnOk result (out.new ≡ out.old ++ spec.account_code code.now allowed.now) }
{
    add_psb_line(out, code)?;
    add_pcb_line(out, allowed)?;
    add_code_line(out, code)
}

/// Adds the line of its program.
#[tactic(auto, unfolding(crate::specs::Definition::psb_line))]
fn add_psb_line(out: &mut Bytes, code: &[u8]) -> Result<(), Memory>
    ensures { OnOk result (out.new ≡ out.old ++ spec.psb_line code.now) }
{
    add_psb_head(out, code)?;
    out.append(b"P\n")
}

/// Adds the line of its PCB.
#[tactic(auto, unfolding(crate::specs::Definition::pcb_line))]
fn add_pcb_line(out: &mut Bytes, allowed: &[u8]) -> Result<(), Memory>
    ensures { OnOk result (out.new ≡ out.old ++ spec.pcb_line allowed.now) }
{
    out.append(b"PCB TYPE=DB,DBDNAME=ACC,PROCOPT=")?;
    out.append(allowed)?;
    out.append(b"\n")
}

/// Adds the line of the code.
#[tactic(auto, unfolding(crate::specs::Definition::code_line))]
fn add_code_line(out: &mut Bytes, code: &[u8]) -> Result<(), Memory>
    ensures { OnOk result (out.new ≡ out.old ++ spec.code_line code.now) }
{
    add_code_head(out, code)?;
    out.append(b"\n")
}

#[tactic(auto, unfolding(crate::specs::Definition::psb_head))]
fn add_psb_head(out: &mut Bytes, code: &[u8]) -> Result<(), Memory>
    ensures { OnOk result (out.new ≡ out.old ++ spec.psb_head code.now) }
{
    add_psb_word(out)?;
    out.append(code)
}

#[tactic(auto, unfolding(crate::specs::Definition::code_head))]
fn add_code_head(out: &mut Bytes, code: &[u8]) -> Result<(), Memory>
    ensures { OnOk result (out.new ≡ out.old ++ spec.code_head code.now) }
{
    add_code_word(out)?;
    out.append(code)
}

#[tactic(auto, unfolding(crate::specs::Definition::psb_word))]
fn add_psb_word(out: &mut Bytes) -> Result<(), Memory>
    ensures { OnOk result (out.new ≡ out.old ++ spec.psb_word) }
{
    out.append(b"APPLCTN PSB=")
}

#[tactic(auto, unfolding(crate::specs::Definition::code_macro_word))]
fn add_code_word(out: &mut Bytes) -> Result<(), Memory>
    ensures { OnOk result (out.new ≡ out.old ++ spec.code_macro_word) }
{
    out.append(b"TRANSACT CODE=")
}
