//! The records of a unit's end, spelled.
ghost use Rattle.std.specs.Prelude.{◌≡◌, ◌++◌, [], false, IfOk};
ghost use Rattle.log_records.specs.declared.record.Record.TheVariants.{Input, Reply, Discarded, Completed, SyncPoint};
ghost use Rattle.log_records.specs.RecordSpelling.{record_spelling, IsCount, IsAbend};
ghost use Rattle.sync_point.specs.Unit.{IsShortChange};

use log_records::{
    PadChange, append_completed, append_discarded, append_input, append_reply, append_sync_point,
};
use std::alloc::Global;
use std::marker::Model;
use tm_types::{AbendCode, Memory, Name, Segments};

/// What a unit sent, as records in the order of its outputs. Where a call wants memory, they are given up.
#[derive(Debug, Drop)]
pub struct OutputRecords {
    unit: u64,
    bytes: Vec<u8>,
}

impl Model for OutputRecords {
    ghost use Rattle.sync_point.specs.Unit.{Sent};

    ghost Value = { Sent };

    ghost view = { λ o. record { unit = o.unit; bytes = o.bytes.items } };
}

impl OutputRecords {
    /// Before the first output of a unit. This takes no memory.
    pub fn new(alloc: Global, unit: u64) -> OutputRecords
        ensures { result ≡ record { unit = unit; bytes = [] } }
    {
        OutputRecords {
            unit,
            bytes: Vec::new(alloc),
        }
    }

    /// With a reply to a terminal under this number. It has 1 to 32 segments.
    pub fn reply(
        mut self,
        terminal: &Name,
        number: u64,
        segments: &Segments,
    ) -> Result<OutputRecords, Memory>
        requires { IsCount segments.now }
        ensures { IfOk result (λ sent. sent ≡ record self { bytes = self.bytes ++ record_spelling (Reply self.unit terminal.now number segments.now) }) }
    {
        append_reply(&mut self.bytes, self.unit, terminal, number, segments)?;
        Ok(self)
    }

    /// With a message to a code under this id. It has 1 to 32 segments.
    pub fn switched(
        mut self,
        id: u64,
        origin: &Name,
        code: &Name,
        segments: &Segments,
    ) -> Result<OutputRecords, Memory>
        requires { IsCount segments.now }
        ensures { IfOk result (λ sent. sent ≡ record self { bytes = self.bytes ++ record_spelling (Input self.unit id origin.now code.now 0 false segments.now) }) }
    {
        append_input(
            &mut self.bytes,
            self.unit,
            id,
            origin,
            code,
            0,
            false,
            segments,
        )?;
        Ok(self)
    }
}

/// The records of a completion: what was sent, that the message is completed, and the sync point.
#[derive(Debug, Drop)]
pub struct Finished {
    bytes: Vec<u8>,
}

impl Model for Finished {
    ghost use Rattle.std.specs.Prelude.{ℕ, List};

    ghost Value = { List ℕ };

    ghost view = { λ f. f.bytes.items };
}

impl Finished {
    /// The completion of the message of this id by the unit that sent these. A new pad has at most 65,521 bytes, so that
    /// its record's length is a number of two bytes.
    pub fn new(sent: OutputRecords, id: u64, pad: &PadChange) -> Result<Finished, Memory>
        requires { IsShortChange pad.now }
        ensures { IfOk result (λ finished. finished ≡ sent.bytes ++ record_spelling (Completed sent.unit id) ++ record_spelling (SyncPoint sent.unit pad.now)) }
    {
        let unit = sent.unit;
        let mut bytes = sent.bytes;
        append_completed(&mut bytes, unit, id)?;
        append_sync_point(&mut bytes, unit, pad)?;
        Ok(Finished { bytes })
    }

    /// The bytes of the records.
    pub fn bytes(&self) -> &[u8]
        ensures { result.now ≡ self.now }
    {
        &self.bytes
    }
}

/// The record of a message that was discarded after an abend.
#[derive(Debug, Drop)]
pub struct Abended {
    bytes: Vec<u8>,
}

impl Model for Abended {
    ghost use Rattle.std.specs.Prelude.{ℕ, List};

    ghost Value = { List ℕ };

    ghost view = { λ a. a.bytes.items };
}

impl Abended {
    /// The unit's message of this id was discarded after an abend from 1 to 4095, and its origin is told so by the reply
    /// of this number.
    pub fn new(
        alloc: Global,
        unit: u64,
        id: u64,
        abend: AbendCode,
        number: u64,
    ) -> Result<Abended, Memory>
        requires { IsAbend abend.number }
        ensures { IfOk result (λ abended. abended ≡ record_spelling (Discarded unit id abend number)) }
    {
        let mut bytes = Vec::new(alloc);
        append_discarded(&mut bytes, unit, id, abend, number)?;
        Ok(Abended { bytes })
    }

    /// The bytes of the record.
    pub fn bytes(&self) -> &[u8]
        ensures { result.now ≡ self.now }
    {
        &self.bytes
    }
}
