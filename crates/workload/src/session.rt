//! The session of the workload: what is sent, and how its replies are taken.
ghost use Rattle.std.specs.Prelude.{◌≡◌, ◌≤◌, ◌++◌, codes, OnOk};
ghost use Rattle.workload.specs.Draws.{seeded, account, transfer_of, transfer_text, behind_transfer};
ghost use Rattle.workload.specs.Session as spec;

use crate::draws::{Transfer, draw_transfer, seeded};
use crate::text::add_number;
use rand_pcg::Lcg64Xsh32;
use tm_types::{Bytes, Memory, four_digits};

/// Adds what opens so many accounts, and takes the replies.
#[tactic(auto, using(crate::proofs::Sending::opening_steps))]
pub(crate) fn add_openings(out: &mut Bytes, count: u32) -> Result<(), Memory>
    requires { count ≤ 9999 }
    ensures { OnOk result (out.new ≡ out.old ++ spec.openings count) }
{
    for number in 1..count + 1 {
        add_opening(out, number)?;
        add_behind(out, b"T9", count, number)?;
    }
    Ok(())
}

/// Adds so many transfers, drawn by this seed, and takes the replies.
#[tactic(auto, using(crate::proofs::Sending::transfer_steps))]
pub(crate) fn add_transfers(out: &mut Bytes, seed: u64, count: u32) -> Result<(), Memory>
    requires { count ≤ 10000 }
    ensures { OnOk result (out.new ≡ out.old ++ spec.transfers (seeded seed) count) }
{
    let mut generator = seeded(seed);
    for number in 1..count + 1 {
        add_transfer(out, number, &mut generator)?;
        add_behind(out, b"T1", count, number)?;
    }
    Ok(())
}

/// Adds the input that opens an account.
#[tactic(auto, unfolding(crate::specs::Session::input_line))]
fn add_opening(out: &mut Bytes, number: u32) -> Result<(), Memory>
    requires { number ≤ 9999 }
    ensures { OnOk result (out.new ≡ out.old ++ spec.input_line (codes "T9") number (spec.opening_text number)) }
{
    add_input(out, b"T9", number)?;
    add_opening_text(out, number as u16)?;
    out.append(b"\n")
}

#[tactic(auto, unfolding(crate::specs::Session::opening_text))]
fn add_opening_text(out: &mut Bytes, number: u16) -> Result<(), Memory>
    ensures { OnOk result (out.new ≡ out.old ++ spec.opening_text number) }
{
    out.append(b"OPEN ")?;
    add_account(out, number)?;
    out.append(b"1000")
}

/// Draws a transfer, and adds its input.
#[tactic(auto, unfolding(crate::specs::Draws::transfer_text))]
fn add_transfer(out: &mut Bytes, number: u32, generator: &mut Lcg64Xsh32) -> Result<(), Memory>
    ensures text { OnOk result (out.new ≡ out.old ++ spec.input_line (codes "T1") number (transfer_text generator.old)) }
    ensures generator { generator.new ≡ behind_transfer generator.old }
{
    let transfer = draw_transfer(generator);
    add_transfer_line(out, number, &transfer)
}

/// Adds the input of a transfer.
#[tactic(auto, unfolding(crate::specs::Session::input_line))]
fn add_transfer_line(out: &mut Bytes, number: u32, transfer: &Transfer) -> Result<(), Memory>
    ensures { OnOk result (out.new ≡ out.old ++ spec.input_line (codes "T1") number (transfer_of transfer.now.from transfer.now.to transfer.now.amount)) }
{
    add_input(out, b"T1", number)?;
    add_transfer_text(out, transfer)?;
    out.append(b"\n")
}

#[tactic(auto, unfolding(crate::specs::Draws::transfer_of))]
fn add_transfer_text(out: &mut Bytes, transfer: &Transfer) -> Result<(), Memory>
    ensures { OnOk result (out.new ≡ out.old ++ transfer_of transfer.now.from transfer.now.to transfer.now.amount) }
{
    out.append(b"XFER ")?;
    add_account(out, transfer.from)?;
    add_account(out, transfer.to)?;
    add_number(out, u64::from(transfer.amount))
}

/// Adds an account's number and a blank.
#[tactic(auto, unfolding(crate::specs::Draws::account))]
fn add_account(out: &mut Bytes, number: u16) -> Result<(), Memory>
    ensures { OnOk result (out.new ≡ out.old ++ account number) }
{
    out.append(&four_digits(number))?;
    out.append(b" ")
}

/// Adds what an input begins with.
#[tactic(auto, unfolding(crate::specs::Session::input_head))]
fn add_input(out: &mut Bytes, terminal: &[u8], number: u32) -> Result<(), Memory>
    ensures { OnOk result (out.new ≡ out.old ++ spec.input_head terminal.now number) }
{
    out.append(b"IN ")?;
    out.append(terminal)?;
    out.append(b" ")?;
    add_number(out, u64::from(number))?;
    out.append(b" ")
}

/// Adds what stands behind an input: nothing, but where it ends its block.
#[tactic(auto, unfolding(crate::specs::Session::behind_input, crate::specs::Session::first_of_block))]
fn add_behind(out: &mut Bytes, terminal: &[u8], count: u32, number: u32) -> Result<(), Memory>
    requires some { 1 ≤ number }
    requires most { number ≤ 10000 }
    ensures { OnOk result (out.new ≡ out.old ++ spec.behind_input terminal.now count number) }
{
    if !ends_block(count, number) {
        return Ok(());
    }
    out.append(b"QUIET 1000000\n")?;
    add_replies(out, terminal, number - (number - 1) % 50, number + 1)
}

/// Whether an input is the last of its block, or of all.
#[tactic(auto, unfolding(crate::specs::Session::ends_block))]
fn ends_block(count: u32, number: u32) -> bool
    ensures { result ≡ spec.ends_block count number }
{
    number % 50 == 0 || number == count
}

/// Adds what shows and acknowledges the replies of these numbers, up to the one before `past`.
#[tactic(auto, using(crate::proofs::Numbers::reply_steps))]
fn add_replies(out: &mut Bytes, terminal: &[u8], first: u32, past: u32) -> Result<(), Memory>
    requires { first ≤ past }
    ensures { OnOk result (out.new ≡ out.old ++ spec.reply_requests terminal.now first past) }
{
    for number in first..past {
        add_reply(out, terminal, number)?;
    }
    Ok(())
}

/// Adds what shows and acknowledges a reply.
#[tactic(auto, unfolding(crate::specs::Session::reply_lines))]
fn add_reply(out: &mut Bytes, terminal: &[u8], number: u32) -> Result<(), Memory>
    ensures { OnOk result (out.new ≡ out.old ++ spec.reply_lines terminal.now number) }
{
    out.append(b"RECV ")?;
    out.append(terminal)?;
    out.append(b"\nACK ")?;
    out.append(terminal)?;
    out.append(b" ")?;
    add_number(out, u64::from(number))?;
    out.append(b"\n")
}
