//! Records, read.
ghost use Rattle.std.specs.Prelude.{◌≡◌, ◌≤◌, ℕ, List, length, take, ◌++◌, IfOk};
ghost use Rattle.log_records.specs.declared.record.Record.{Record};
ghost use Rattle.log_records.specs.RecordSpelling.{IsEncodable, SpellsLogRecord};
ghost use Rattle.log_records.specs.DecodedRecord.{Finds, NamesFirstFault};

use crate::fault::{DecodeFault, ReadFault};
use crate::layouts::record;
use crate::record::Record;
use std::alloc::Global;

/// The record that the bytes begin with, and its length. Bytes may follow it.
///
/// It is refused as `Bad` exactly where no front of the bytes is the spelling of a record, with the
/// fault that stands first from the left: the lowest place where a rule is broken.
pub fn decode(alloc: Global, bytes: &[u8]) -> Result<(Record, usize), DecodeFault>
    // What is found is spelled so.
    ensures found { IfOk result (λ x. (x.1 ≤ length bytes.now) × SpellsLogRecord (take x.1 bytes.now) x.0) }
    // What is found can be encoded again.
    ensures encodable { IfOk result (λ x. IsEncodable x.0) }
    // What is spelled so is found, and is no fault.
    ensures only { (r : Record) (n : ℕ) → n ≤ length bytes.now → SpellsLogRecord (take n bytes.now) r → Finds result r n }
    // Which fault it is, and where.
    ensures fault { NamesFirstFault result bytes.now }
{
    match record(alloc, bytes) {
        Ok((record, length)) => Ok((record, length)),
        Err(ReadFault::Broken(rule, left)) => {
            Err(DecodeFault::Bad(rule, bytes.len().saturating_sub(left)))
        }
        Err(ReadFault::Memory) => Err(DecodeFault::Memory),
    }
}

/// No spelling of a record begins another: so a record that was encoded is decoded again, whatever
/// follows it.
pub fn one_spelling()
    ensures { (a b x y : List ℕ) (r s : Record) → SpellsLogRecord a r → SpellsLogRecord b s → a ++ x ≡ b ++ y → (a ≡ b) × (r ≡ s) }
{}
