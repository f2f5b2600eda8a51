//! The calls of which a step may last: inputs, acknowledgements, commands and turns.
ghost use Rattle.std.specs.Prelude.{refl};
ghost use Rattle.model_machine.specs.declared.entry.ControlCall.TheVariants.{Input as InputCall, Acknowledge as AcknowledgeCall, Command as CommandCall, Turn as TurnCall};
ghost use Rattle.model_machine.specs.declared.entry.Entry.TheVariants.{Accept, Acked as AckedEntry, Commanded, Turn as TurnEntry};

use crate::call::Call;
use crate::names::see_spellable;
use crate::units::{note_units, unit_of};
use log_records::Untold;
use model_machine::{
    AckRefused, Acked, Answer, Command, CommandRefused, ControlFault, InputRefused, Taken, Turned,
};
use program_rows::Telling;
use std::alloc::Global;
use tm_machine::Parts;
use tm_types::{Name, Segments};

/// No input has a number from here on.
const NUMBER_LIMIT: u64 = 2_000_000_000_000_000_000;

/// An input of a terminal under a number. It has a segment.
#[derive(Clone, Copy, Debug)]
pub struct Input<'a> {
    pub terminal: Name,
    pub number: u64,
    pub segments: &'a Segments,
}

impl Call for Input<'_> {
    type Answer = Result<Taken, InputRefused>;

    ghost call = { λ i. InputCall i.terminal i.number i.segments.now };

    ghost entry = { λ i answer. Accept i.terminal i.number i.segments.now answer };

    fn is_within(&self) -> bool {
        self.number < NUMBER_LIMIT
    }

    fn tell(
        &self,
        _alloc: Global,
        parts: &mut Parts,
        _units: &[u64],
        telling: &mut Telling,
    ) -> Result<Self::Answer, Untold> {
        parts.accept(&self.terminal, self.number, self.segments, telling)
    }

    fn note(&self, _units: &mut Vec<u64>, _next: &mut u64, _answer: &Self::Answer) {}

    fn fault(&self, fault: ControlFault) -> Self::Answer {
        Err(InputRefused::Fault(fault))
    }

    ghost of_call = { λ i answer. refl };

    ghost last = { λ i. refl };
}

/// A terminal's acknowledgement of the reply of a number.
#[derive(Clone, Copy, Debug)]
pub struct Acknowledgement {
    pub terminal: Name,
    pub number: u64,
}

impl Call for Acknowledgement {
    type Answer = Result<Acked, AckRefused>;

    ghost call = { λ a. AcknowledgeCall a.terminal a.number };

    ghost entry = { λ a answer. AckedEntry a.terminal a.number answer };

    fn is_within(&self) -> bool {
        true
    }

    fn tell(
        &self,
        _alloc: Global,
        parts: &mut Parts,
        _units: &[u64],
        telling: &mut Telling,
    ) -> Result<Self::Answer, Untold> {
        parts.acknowledge(&self.terminal, self.number, telling)
    }

    fn note(&self, _units: &mut Vec<u64>, _next: &mut u64, _answer: &Self::Answer) {}

    fn fault(&self, fault: ControlFault) -> Self::Answer {
        Err(AckRefused::Fault(fault))
    }

    ghost of_call = { λ a answer. refl };

    ghost last = { λ a. refl };
}

// An operator's command, that is none of a checkpoint or a restart.
impl Call for Command {
    type Answer = Result<Answer, CommandRefused>;

    ghost call = { λ c. CommandCall c };

    ghost entry = { λ c answer. Commanded c answer };

    fn is_within(&self) -> bool {
        true
    }

    fn tell(
        &self,
        alloc: Global,
        parts: &mut Parts,
        _units: &[u64],
        telling: &mut Telling,
    ) -> Result<Self::Answer, Untold> {
        see_spellable(self);
        tm_machine::command(alloc, parts, self, telling)
    }

    fn note(&self, _units: &mut Vec<u64>, _next: &mut u64, _answer: &Self::Answer) {}

    fn fault(&self, fault: ControlFault) -> Self::Answer {
        Err(CommandRefused::Fault(fault))
    }

    ghost of_call = { λ c answer. refl };

    ghost last = { λ c. refl };
}

/// A region's next step. The region is one of the system.
#[derive(Clone, Copy, Debug)]
pub struct Turn {
    pub region: u32,
}

impl Call for Turn {
    type Answer = Result<Turned, ControlFault>;

    ghost call = { λ t. TurnCall t.region };

    ghost entry = { λ t answer. TurnEntry t.region answer };

    fn is_within(&self) -> bool {
        true
    }

    fn tell(
        &self,
        _alloc: Global,
        parts: &mut Parts,
        units: &[u64],
        telling: &mut Telling,
    ) -> Result<Self::Answer, Untold> {
        telling.unit = unit_of(units, self.region);
        let turned = parts.turn(self.region, telling)?;
        Ok(Ok(turned))
    }

    fn note(&self, units: &mut Vec<u64>, next: &mut u64, answer: &Self::Answer) {
        match answer {
            Ok(turned) => note_units(units, next, self.region, turned),
            Err(_) => {}
        }
    }

    fn fault(&self, fault: ControlFault) -> Self::Answer {
        Err(fault)
    }

    ghost of_call = { λ t answer. refl };

    ghost last = { λ t. refl };
}
