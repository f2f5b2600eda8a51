//! What every call of the machine promises of which a step may last.
ghost use Rattle.std.specs.Prelude.{◌≡◌, ◌<◌, ◌↔◌, ◌^◌, length, true, Some, IfErr, IfOk, IsTrue, OnErr, OnOk};
ghost use Rattle.model_machine.specs.History.{IsCall, call_of};
ghost use Rattle.model_machine.specs.declared.entry.ControlCall.{ControlCall};
ghost use Rattle.model_machine.specs.declared.entry.Entry.{Entry};
ghost use Rattle.openings.specs.Faults.{fault_in};
ghost use Rattle.lasting_state.specs.UntoldSteps.{WhereFull};
ghost use Rattle.logged_machine.specs.ToldCalls.{DoesCall, IsCallWithin, NumbersBy, TellsAllRecords, may_last, own_bytes, own_records};

use log_records::Untold;
use model_machine::ControlFault;
use program_rows::Telling;
use std::alloc::Global;
use tm_machine::Parts;

/// A call of the machine of which a step may last.
pub trait Call {
    /// What it is answered.
    type Answer: Drop;

    /// The call.
    ghost call: { Self → ControlCall };

    /// Its entry in a life's history, with this answer.
    ghost entry: { Self → Self.Answer → Entry };

    /// Whether an input's number is one that an image may have: below 2,000,000,000,000,000,000. It is true of other calls.
    fn is_within(&self) -> bool
        ensures { IsTrue result ↔ IsCallWithin (call self.now) };

    /// Lets the machine do it. Its records, of at most `room` bytes, are appended; those of a turn are of its region's unit, which
    /// has its number among these. A refusal changes nothing, and is `Full` only where the records are longer.
    fn tell(
        &self,
        alloc: Global,
        parts: &mut Parts,
        units: &[u64],
        telling: &mut Telling,
    ) -> Result<Self::Answer, Untold>
        requires { IsCall parts.old.system (call self.now) }
        ensures does { IfOk result (λ answer. DoesCall units.now (entry self.now answer) parts.old parts.new) }
        ensures told { OnOk result (TellsAllRecords (own_records parts.old units.now (call self.now)) telling.old.room telling.old.told.items telling.new.told.items) }
        ensures full { IfErr result (WhereFull (telling.old.room < length (own_bytes parts.old units.now (call self.now)))) }
        ensures err { OnErr result (parts.new ≡ parts.old) }
        ensures untold { OnErr result (telling.new.told.items ≡ telling.old.told.items) }
        ensures room { telling.new.room ≡ telling.old.room };

    /// Notes what this answer is to the numbers of the units.
    fn note(&self, units: &mut Vec<u64>, next: &mut u64, answer: &Self::Answer)
        requires { next.old < 2 ^ 63 }
        ensures { NumbersBy (entry self.now answer.now) units.old.items units.new.items next.old next.new };

    /// The answer with a fault in its place.
    fn fault(&self, fault: ControlFault) -> Self::Answer
        ensures { fault_in (entry self.now result) ≡ Some fault };

    ghost of_call: { (c : Self) (answer : Self.Answer) → call_of (entry c answer) ≡ call c };

    ghost last: { (c : Self) → may_last (call c) ≡ true };
}
