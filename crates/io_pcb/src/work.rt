//! The work on a message.
ghost use Rattle.std.specs.Prelude.{◌≡◌, true, false, IfOk, IfSome, IsSomeAnd, OnOk, OnErr, slice_get};
ghost use Rattle.std.specs.Option.{option_copied, option_map};
ghost use Rattle.tm_types.specs.Segment.{IsSegmentText};
ghost use Rattle.model_messages.specs.MessageCalls.{given};
ghost use Rattle.model_messages.specs.MessageWork.{message_start};
ghost use Rattle.model_messages.specs.MessageCalls.{unique_answer, unique_work, next_answer, next_work, insert_status, insert_work, purge_status, purge_work, change_status, change_work, reset_work, finish_work};
ghost use Rattle.model_messages.specs.MessageCalls.{work_texts, gives_back, segment_status, segment_work, pad_change};
ghost use Rattle.io_pcb.specs.ShownMessage.{shown_output};
ghost use Rattle.model_system.specs.Codes.{code_at};
ghost use Rattle.model_system.specs.Jobs.{job_of};
ghost use Rattle.io_pcb.specs.StartedWork.{IsPadFor, IsStartFor};
ghost use Rattle.io_pcb.specs.Pads.{IsPadText, Suits, conversation_by, gives_wrong, lent_pad};

use crate::destinations::{destination_named, without_blanks};
use crate::{LentPad, Output, outputs, pads, pcbs};
use model_messages::{EndedMessage, OpenPcb, fitted, is_pad};
use model_system::{Pcbs, Transaction};
use std::alloc::Global;
use std::collections::VecDeque;
use std::marker::Model;
use system_types::System;
use tm_types::{Bytes, Memory, Message, Name, Segment, Segments, Status, segment_of};

/// What a get is answered.
#[derive(Debug, Drop)]
pub struct Got {
    pub status: Status,
    /// The text that was got.
    pub text: Option<Segment>,
}

/// The work on a message, as far as calls on PCB 0 and on output PCBs change it.
#[derive(Debug, Drop)]
pub struct Work {
    alloc: Global,
    /// The message's code.
    code: Name,
    segments: Segments,
    /// The pad of the conversation that the message belongs to, if it does.
    pad: Option<Segment>,
    /// The pad that was given back.
    returned: Option<Bytes>,
    /// Whether the script has got the first text.
    begun: bool,
    /// The place of the segment that is given next, once the script has got the first text.
    next: usize,
    /// The longest segment that may be inserted, with its LL.
    size_limit: u16,
    /// How many segments may be inserted.
    count_limit: u8,
    /// How many segments were inserted, by all PCBs together.
    inserted: u8,
    /// PCB 0 and those of the program.
    pcbs: Vec<OpenPcb>,
    /// The messages that were ended, in that order.
    ended: Vec<EndedMessage>,
}

impl Model for Work {
    ghost use Rattle.model_messages.specs.MessageWork.{MessageWork};
    ghost use Rattle.io_pcb.specs.Pads.{ArePadsKept, conversation_by, place_by};

    ghost Value = { MessageWork };

    ghost view = { λ w. record { segments = w.segments; conversation = conversation_by w.code w.pad; returned = w.returned; begun = w.begun; place = place_by w.begun w.pad w.next; size_limit = w.size_limit; count_limit = w.count_limit; inserted = w.inserted; pcbs = w.pcbs.items; ended = w.ended.items } };

    ghost invariant = { λ w. ArePadsKept w.code w.pad w.returned };
}

impl Work {
    /// The work on a message of a code of this system before the first call. The pad is that of the
    /// conversation to which the message belongs: it is there exactly where its code has a scratch pad.
    pub fn new(
        alloc: Global,
        system: &System,
        message: &Message,
        pad: Option<&[u8]>,
    ) -> Result<Work, Memory>
        requires { IsSomeAnd (code_at system.now.codes message.now.code) (λ code. IsPadFor code.transaction.scratch_pad (option_copied pad)) }
        ensures { IfOk result (λ work. IsSomeAnd (job_of system.now message.now.code) (IsStartFor message.now (option_copied pad.entry) work)) }
    {
        let Some(job) = system.job(&message.code) else {
            unreachable!()
        };
        Work::served_by(alloc, job.transaction, message, pad, job.pcbs)
    }

    /// The work on a message before the first call, by a program with these PCBs. The pad is that of the
    /// conversation to which the message belongs, and is there where it belongs to one.
    pub fn served_by(
        alloc: Global,
        transaction: &Transaction,
        message: &Message,
        pad: Option<&[u8]>,
        pcbs: &Pcbs,
    ) -> Result<Work, Memory>
        requires { IfSome (option_copied pad) IsPadText }
        ensures { IfOk result (λ work. work ≡ message_start transaction.now message.now (conversation_by message.now.code (option_copied pad.entry)) pcbs.now) }
    {
        let segments = message.segments.clone()?;
        let pad = pads::copied(alloc, pad)?;
        let pcbs = pcbs::fresh_pcbs(alloc, message.origin, pcbs.as_slice())?;
        Ok(Work {
            alloc,
            code: message.code,
            segments,
            pad,
            returned: None,
            begun: false,
            next: 0,
            size_limit: transaction.segment_size,
            count_limit: transaction.segment_count,
            inserted: 0,
            pcbs,
            ended: Vec::new(alloc),
        })
    }

    /// The first text, which a GU gives: the pad, or the first segment of a message without one.
    pub fn first(&self) -> Option<&Segment>
        ensures { option_copied result ≡ slice_get (work_texts self.now) 0 }
    {
        match &self.pad {
            Some(pad) => Some(pad),
            None => self.segments.get(0),
        }
    }

    /// The text that a GN gives: the next one behind those that were given. Before a GU or a reset
    /// there is none.
    pub fn next(&self) -> Option<&Segment>
        ensures { given (option_copied result) ≡ next_answer self.now }
    {
        if !self.begun {
            return None;
        }
        self.segments.get(self.next)
    }

    /// Whether the first text was given.
    pub fn has_begun(&self) -> bool
        ensures { result ≡ self.now.begun }
    {
        self.begun
    }

    /// Stands behind the first text, which was given.
    pub fn begin(&mut self)
        ensures { self.new ≡ unique_work self.old }
    {
        self.begun = true;
        self.next = match &self.pad {
            Some(_) => 0,
            None => 1,
        };
    }

    /// Stands behind the next text, if there is one, which was given.
    pub fn go_on(&mut self)
        ensures { self.new ≡ next_work self.old }
    {
        if !self.begun {
            return;
        }
        if self.next < self.segments.len() {
            self.next += 1;
        }
    }

    /// A copy of the first text, which is given.
    pub fn get_unique(&mut self) -> Result<Got, Memory>
        ensures status { IfOk result (λ got. got.status ≡ (unique_answer self.old).status) }
        ensures text { IfOk result (λ got. got.text ≡ (unique_answer self.old).area) }
        ensures work { OnOk result (self.new ≡ unique_work self.old) }
        ensures err { OnErr result (self.new ≡ self.old) }
    {
        let got = give(self.first())?;
        self.begin();
        Ok(got)
    }

    /// A copy of the next text behind those that were given, or QD where there is none.
    pub fn get_next(&mut self) -> Result<Got, Memory>
        ensures status { IfOk result (λ got. got.status ≡ (next_answer self.old).status) }
        ensures text { IfOk result (λ got. got.text ≡ (next_answer self.old).area) }
        ensures work { OnOk result (self.new ≡ next_work self.old) }
        ensures err { OnErr result (self.new ≡ self.old) }
    {
        let got = give(self.next())?;
        self.go_on();
        Ok(got)
    }

    /// Whether an ISRT by the PCB gives the pad back: the first one on PCB 0 in a conversation.
    fn gives_back(&self, pcb: u8) -> bool
        ensures { result ≡ gives_back self.now pcb }
    {
        pcb == 0 && self.pad.is_some() && self.returned.is_none()
    }

    /// Whether an ISRT by the PCB would give back this text, and it is no pad of the conversation: it is
    /// shorter than 8 bytes, or has neither the code nor blanks in front. The work then ends with U0904.
    pub fn is_wrong_pad(&self, pcb: u8, text: &[u8]) -> bool
        ensures { result ≡ gives_wrong self.now pcb text.now }
    {
        self.gives_back(pcb) && !is_pad(&self.code, text)
    }

    /// Takes the pad back, padded or cut; or puts a segment behind the others of the PCB's message under
    /// construction, or refuses it.
    pub fn insert(&mut self, pcb: u8, text: &[u8]) -> Result<Status, Memory>
        requires text { IsSegmentText text.now }
        requires pad { gives_wrong self.old pcb text.now ≡ false }
        ensures status { IfOk result (λ status. status ≡ insert_status self.old pcb text.now) }
        ensures work { OnOk result (self.new ≡ insert_work self.old pcb text.now) }
        ensures err { OnErr result (self.new ≡ self.old) }
    {
        if self.gives_back(pcb) {
            return self.give_back(pcb, text);
        }
        self.insert_segment(pcb, text)
    }

    /// Takes the pad back, padded or cut to the length of the one before.
    fn give_back(&mut self, pcb: u8, text: &[u8]) -> Result<Status, Memory>
        requires text { IsSegmentText text.now }
        requires gives { gives_back self.old pcb ≡ true }
        requires pad { gives_wrong self.old pcb text.now ≡ false }
        ensures status { IfOk result (λ status. status ≡ insert_status self.old pcb text.now) }
        ensures work { OnOk result (self.new ≡ insert_work self.old pcb text.now) }
        ensures err { OnErr result (self.new ≡ self.old) }
    {
        let Some(pad) = &self.pad else { unreachable!() };
        let length = pad.text().len();
        let returned = fitted(self.alloc, length, text)?;
        self.returned = Some(returned);
        Ok(Status::Blank)
    }

    /// Puts a segment behind the others of the PCB's message under construction, or refuses it.
    fn insert_segment(&mut self, pcb: u8, text: &[u8]) -> Result<Status, Memory>
        requires { IsSegmentText text.now }
        ensures status { IfOk result (λ status. status ≡ segment_status self.old pcb text.now) }
        ensures work { OnOk result (self.new ≡ segment_work self.old pcb text.now) }
        ensures err { OnErr result (self.new ≡ self.old) }
    {
        if pcbs::destination_at(&self.pcbs, pcb).is_none() {
            return Ok(Status::A3);
        }
        if text.len() + 4 > usize::from(self.size_limit) {
            return Ok(Status::A6);
        }
        if self.inserted >= self.count_limit {
            return Ok(Status::A7);
        }
        let segment = segment_of(self.alloc, text)?;
        pcbs::add_at(&mut self.pcbs, pcb, segment)?;
        self.inserted += 1;
        Ok(Status::Blank)
    }

    /// Ends the PCB's message under construction, if there is one.
    pub fn purge(&mut self, pcb: u8) -> Result<Status, Memory>
        ensures status { IfOk result (λ status. status ≡ purge_status self.old pcb) }
        ensures work { OnOk result (self.new ≡ purge_work self.old pcb) }
        ensures err { OnErr result (self.new ≡ self.old) }
    {
        let Some(_to) = pcbs::destination_at(&self.pcbs, pcb) else {
            return Ok(Status::A3);
        };
        self.ended.reserve(1)?;
        pcbs::end_at(self.alloc, &mut self.pcbs, &mut self.ended, pcb);
        Ok(Status::Blank)
    }

    /// Makes the terminal or the code of this name, behind which blanks may stand, the destination of
    /// the PCB. A code with a scratch pad is none. This takes no memory.
    pub fn change(&mut self, pcb: u8, name: &[u8], system: &System) -> Status
        ensures status { result ≡ change_status system.now self.old pcb name.now }
        ensures work { self.new ≡ change_work system.now self.old pcb name.now }
    {
        if !pcbs::can_change_at(&self.pcbs, pcb) {
            return Status::A2;
        }
        match destination_named(system, without_blanks(name)) {
            Some(to) => {
                pcbs::choose_at(&mut self.pcbs, pcb, to);
                Status::Blank
            }
            None => Status::QH,
        }
    }

    /// Takes back output, chosen destinations and the pad that was given back, and stands behind the first
    /// text. This takes no memory.
    pub fn reset(&mut self)
        ensures { self.new ≡ reset_work self.old }
    {
        pcbs::reset_each(self.alloc, &mut self.pcbs);
        self.ended = Vec::new(self.alloc);
        self.returned = None;
        self.inserted = 0;
        self.begin();
    }

    /// A copy of what is sent at the sync point: the messages that were ended, and then those under
    /// construction, in the order of the PCBs.
    pub fn outputs(&self) -> Result<VecDeque<EndedMessage>, Memory>
        ensures { IfOk result (λ outputs. outputs.items ≡ (finish_work self.now).ended) }
    {
        let mut outputs = VecDeque::new(self.alloc);
        outputs::add_each(&self.ended, &mut outputs)?;
        outputs::add_each_open(&self.pcbs, &mut outputs)?;
        Ok(outputs)
    }

    /// The ended message at this place, counted from 0; None exactly past the last.
    pub fn output(&self, place: u32) -> Option<Output<'_>>
        ensures { option_map shown_output result ≡ slice_get self.now.ended place }
    {
        match self.ended.get(place as usize) {
            Some(ended) => Some(Output {
                to: ended.to,
                segments: &ended.segments,
            }),
            None => None,
        }
    }

    /// The pad that was given back, padded or cut; None exactly where none was.
    pub fn pad(&self) -> Option<&[u8]>
        ensures { option_copied result ≡ self.now.returned }
    {
        match &self.returned {
            Some(text) => Some(text.as_slice()),
            None => None,
        }
    }

    /// What the sync point does with the pad of the conversation.
    pub fn pad_change(&self) -> LentPad<'_>
        ensures value { lent_pad result ≡ pad_change self.now }
        ensures suits { Suits self.now.conversation (pad_change self.now) }
    {
        match &self.returned {
            Some(text) => pads::change_by(text.as_slice()),
            None => LentPad::Stays,
        }
    }
}

/// A copy of the text with a blank status, or QD where there is none.
fn give(segment: Option<&Segment>) -> Result<Got, Memory>
    ensures status { IfOk result (λ got. got.status ≡ (given (option_copied segment.entry)).status) }
    ensures text { IfOk result (λ got. got.text ≡ (given (option_copied segment.entry)).area) }
{
    match segment {
        Some(segment) => Ok(Got {
            status: Status::Blank,
            text: Some(segment.clone()?),
        }),
        None => Ok(Got {
            status: Status::QD,
            text: None,
        }),
    }
}
