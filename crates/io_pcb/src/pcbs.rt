//! The PCBs within the work on a message.
ghost use Rattle.std.specs.Prelude.{◌≡◌, ◌+◌, ◌≤◌, ◌<◌, ◌++◌, Some, false, IsSome, IsTrue, IfOk, OnOk, OnErr, length, map, slice_get};
ghost use Rattle.std.specs.Option.{option_map_or};
ghost use Rattle.std.specs.Vec.{vec_capacity};
ghost use Rattle.model_messages.specs.MessageWork.{fresh_pcb, fresh_pcbs, destination_of, ended_to, output_ended_by, without_output};
ghost use Rattle.model_messages.specs.MessageCalls.{with_output_segment, with_chosen, can_change, reset_pcb, ended_at, destination_at};
ghost use Rattle.model_system.specs.Lists.{change_at};

use model_messages::{EndedMessage, OpenPcb};
use model_system::Pcb;
use std::alloc::Global;
use std::mem;
use tm_types::{Memory, Name, Segment, Segments};

fn fresh_pcb(alloc: Global, kind: Pcb) -> OpenPcb
    ensures { result ≡ fresh_pcb kind }
{
    OpenPcb {
        kind,
        chosen: None,
        segments: Segments::new(alloc),
    }
}

/// PCB 0, whose destination is the origin, and these PCBs.
pub fn fresh_pcbs(alloc: Global, origin: Name, kinds: &[Pcb]) -> Result<Vec<OpenPcb>, Memory>
    ensures { IfOk result (λ pcbs. pcbs.items ≡ fresh_pcbs origin kinds.now) }
{
    let mut pcbs = Vec::new(alloc);
    pcbs.push(fresh_pcb(alloc, Pcb::Destination(origin)))?;
    for kind in kinds {
        pcbs.push(fresh_pcb(alloc, *kind))?;
    }
    Ok(pcbs)
}

/// Where a message by the PCB goes.
pub fn destination(opened: &OpenPcb) -> Option<Name>
    ensures { result ≡ destination_of opened.now }
{
    match &opened.kind {
        Pcb::Destination(name) => Some(*name),
        Pcb::Modifiable => opened.chosen,
        Pcb::Database(_, _) => None,
    }
}

/// Where a message by the PCB of this number goes.
pub fn destination_at(pcbs: &[OpenPcb], pcb: u8) -> Option<Name>
    ensures value { result ≡ destination_at pcbs.now pcb }
    ensures within { IsSome result → pcb < length pcbs.now }
{
    match pcbs.get(usize::from(pcb)) {
        Some(opened) => destination(opened),
        None => None,
    }
}

/// Whether a destination can be chosen for the PCB.
fn can_change(opened: &OpenPcb) -> bool
    ensures { result ≡ can_change opened.now }
{
    match &opened.kind {
        Pcb::Modifiable => opened.segments.len() == 0,
        _ => false,
    }
}

/// Whether a destination can be chosen for the PCB of this number.
pub fn can_change_at(pcbs: &[OpenPcb], pcb: u8) -> bool
    ensures value { result ≡ option_map_or can_change (slice_get pcbs.now pcb) false }
    ensures within { IsTrue result → pcb < length pcbs.now }
{
    match pcbs.get(usize::from(pcb)) {
        Some(opened) => can_change(opened),
        None => false,
    }
}

/// Adds a segment to the message under construction.
fn add_segment(opened: &mut OpenPcb, segment: Segment) -> Result<(), Memory>
    ensures ok { OnOk result (opened.new ≡ with_output_segment segment opened.old) }
    ensures err { OnErr result (opened.new ≡ opened.old) }
{
    opened.segments.push(segment)
}

/// Makes this the destination of the PCB.
fn choose(opened: &mut OpenPcb, to: Name)
    ensures { opened.new ≡ with_chosen (Some to) opened.old }
{
    opened.chosen = Some(to);
}

/// Ends the message under construction, if there is one. There is room for it.
fn end_message(alloc: Global, opened: &mut OpenPcb, ended: &mut Vec<EndedMessage>)
    requires { length ended.old.items < vec_capacity ended.old }
    ensures pcb { opened.new ≡ without_output opened.old }
    ensures ended { ended.new.items ≡ ended.old.items ++ output_ended_by opened.old }
{
    let to = destination(opened);
    let segments = mem::replace(&mut opened.segments, Segments::new(alloc));
    add_ended(ended, to, segments);
}

fn add_ended(ended: &mut Vec<EndedMessage>, to: Option<Name>, segments: Segments)
    requires { length ended.old.items < vec_capacity ended.old }
    ensures { ended.new.items ≡ ended.old.items ++ ended_to to segments }
{
    let Some(to) = to else {
        return;
    };
    if segments.is_empty() {
        return;
    }
    ended.push_reserved(EndedMessage { to, segments });
}

/// Adds a segment to the message under construction of the PCB of this number.
#[tactic(auto, using(crate::proofs::Changed::changed_at))]
pub fn add_at(pcbs: &mut Vec<OpenPcb>, pcb: u8, segment: Segment) -> Result<(), Memory>
    requires { pcb < length pcbs.old.items }
    ensures ok { OnOk result (pcbs.new.items ≡ change_at pcbs.old.items (Some pcb) (with_output_segment segment)) }
    ensures err { OnErr result (pcbs.new.items ≡ pcbs.old.items) }
{
    add_segment(&mut pcbs[usize::from(pcb)], segment)
}

/// Makes this the destination of the PCB of this number.
#[tactic(auto, using(crate::proofs::Changed::changed_at))]
pub fn choose_at(pcbs: &mut Vec<OpenPcb>, pcb: u8, to: Name)
    requires { pcb < length pcbs.old.items }
    ensures { pcbs.new.items ≡ change_at pcbs.old.items (Some pcb) (with_chosen (Some to)) }
{
    choose(&mut pcbs[usize::from(pcb)], to);
}

/// Ends the message under construction of the PCB of this number. There is room for it.
#[tactic(auto, using(crate::proofs::Changed::changed_at))]
pub fn end_at(alloc: Global, pcbs: &mut Vec<OpenPcb>, ended: &mut Vec<EndedMessage>, pcb: u8)
    requires pcb { pcb < length pcbs.old.items }
    requires room { length ended.old.items < vec_capacity ended.old }
    ensures pcbs { pcbs.new.items ≡ change_at pcbs.old.items (Some pcb) without_output }
    ensures ended { ended.new.items ≡ ended.old.items ++ ended_at pcbs.old.items pcb }
{
    end_message(alloc, &mut pcbs[usize::from(pcb)], ended);
}

/// Takes back what was done by each PCB. This takes no memory.
pub fn reset_each(alloc: Global, pcbs: &mut Vec<OpenPcb>)
    ensures { pcbs.new.items ≡ map reset_pcb pcbs.old.items }
{
    for opened in pcbs.iter_mut() {
        reset_pcb(alloc, opened);
    }
}

fn reset_pcb(alloc: Global, opened: &mut OpenPcb)
    ensures { opened.new ≡ reset_pcb opened.old }
{
    opened.chosen = None;
    opened.segments = Segments::new(alloc);
}
