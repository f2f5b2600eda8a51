//! A message format.
ghost use Rattle.std.specs.Prelude.{◌≡◌};
ghost use Rattle.model_system.specs.FormatLines.{FormatLines};
ghost use Rattle.model_system.specs.ValidFormat.{IsFormat};

use crate::{DeviceField, SegmentLine};
use std::marker::Model;

/// A message format whose lines keep their rules, seen as the fields of its screen and the segments
/// that go in and come out.
#[derive(Debug, Drop)]
pub struct Format {
    fields: Vec<DeviceField>,
    input: Vec<SegmentLine>,
    output: Vec<SegmentLine>,
}

impl Model for Format {
    ghost use Rattle.model_system.specs.FormatLines.{FormatLines};
    ghost use Rattle.model_system.specs.ValidFormat.{IsFormat};

    ghost Value = { FormatLines };

    ghost view = { λ f. record { fields = f.fields.items; input = f.input.items; output = f.output.items } };

    ghost invariant = { λ f. IsFormat (record { fields = f.fields.items; input = f.input.items; output = f.output.items }) };
}

impl Format {
    /// The format of these lines.
    pub fn new(
        fields: Vec<DeviceField>,
        input: Vec<SegmentLine>,
        output: Vec<SegmentLine>,
    ) -> Format
        requires { IsFormat (record { fields = fields.items; input = input.items; output = output.items }) }
        ensures fields { result.fields ≡ fields.items }
        ensures input { result.input ≡ input.items }
        ensures output { result.output ≡ output.items }
    {
        Format {
            fields,
            input,
            output,
        }
    }

    /// The DFLD lines, in order.
    pub fn fields(&self) -> &[DeviceField]
        ensures fields { result.now ≡ self.now.fields }
        ensures valid { IsFormat self.now }
    {
        &self.fields
    }

    /// The SEG lines of MSG TYPE=INPUT, in order.
    pub fn input(&self) -> &[SegmentLine]
        ensures segments { result.now ≡ self.now.input }
        ensures valid { IsFormat self.now }
    {
        &self.input
    }

    /// The SEG lines of MSG TYPE=OUTPUT, in order.
    pub fn output(&self) -> &[SegmentLine]
        ensures segments { result.now ≡ self.now.output }
        ensures valid { IsFormat self.now }
    {
        &self.output
    }
}
